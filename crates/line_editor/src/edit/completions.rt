//! Candidates for a part of the line, and how one is put into it. Nothing here is drawn.
ghost use Rattle.std.specs.Prelude.{◌≡◌, false, map, IfOk, OnErr, OnOk};
ghost use Rattle.line_buffer.specs.Changes.{no_changes};
ghost use Rattle.line_config.specs.Error.{FaultsOnly, IoOnlyIf, MemoryOnly};
ghost use Rattle.line_editor.specs.Completing.{ComesIn, IsOffered, taken_back_once};
ghost use Rattle.line_editor.specs.Editor.{edited_of, with_edited};
ghost use Rattle.line_keys.specs.Model.Draft.{start_text};
ghost use Rattle.line_keys.specs.Model.Drawing.{Undrawn};
ghost use Rattle.line_parts.specs.Candidate.{BeginsIn, offer_of};

use crate::edit::State;
use line_config::{Prompt, Result};
use line_keys::editor_state::EditorState;
use line_parts::{Helper, History};
use line_state::Renderer;

impl<'out, 'prompt, W: Renderer, H: Helper, P: Prompt, S: History> State<
    'out,
    'prompt,
    W,
    H,
    P,
    S,
> {
    /// Returns where the part of the line that can be completed begins, which ends at the cursor,
    /// and the helper's candidates for it. Without a helper there are none.
    ///
    /// # Errors
    /// `Io` if the helper fails, or the history that it asks, and `Memory` if memory runs out. No
    /// `Io` comes if both are sure.
    pub fn completions(&self) -> Result<(usize, Vec<H::Candidate>)>
        ensures start { let line = (⟦<Self as EditorState>⟧.draft self.now).line in
            IfOk result (λ r. BeginsIn line.text line.cursor r.0) }
        ensures offered { let e = ⟦<Self as EditorState>⟧ in
            IfOk result (λ r. IsOffered (e.environment self.now) (e.draft self.now)
            (record { start = r.0; offers = map (offer_of H.Candidate.Candidate) r.1.items })) }
        ensures io { IoOnlyIf result
            ((⟦<Self as EditorState>⟧.sure self.now).completions ≡ false) }
        ensures faults { FaultsOnly result }
    {
        self.context.complete(self.alloc, self.line.edited.line())
    }

    /// Puts the text of an elected candidate in place of what stands from byte `start` to the
    /// cursor, or does with it what the helper does by itself, as one group of changes; a group
    /// that was open is closed before. Returns whether the changes have grown by it. Where `start`
    /// is no character boundary at or before the cursor, nothing happens.
    ///
    /// # Errors
    /// `Io` if the helper fails, and `Memory` if memory runs out. The line and its changes may then
    /// be any. The saved line, the history index and the hint stay, and nothing is drawn.
    pub fn update_completion(&mut self, start: usize, elected: &str) -> Result<bool>
        ensures comes { let e = ⟦<Self as EditorState>⟧ in let d = e.draft in
            BeginsIn (d self.old).line.text (d self.old).line.cursor start → IfOk result (λ grown.
            ComesIn (e.environment self.old).updated start elected.now grown
            (edited_of (d self.old)) (edited_of (d self.new))) }
        ensures unfit { let d = ⟦<Self as EditorState>⟧.draft in
            (BeginsIn (d self.old).line.text (d self.old).line.cursor start → ⊥)
            → IfOk result (λ grown. (grown ≡ false) × (d self.new ≡ d self.old)) }
        ensures stays { let d = ⟦<Self as EditorState>⟧.draft in
            d self.new ≡ with_edited (d self.old) (edited_of (d self.new)) }
        ensures start { let d = ⟦<Self as EditorState>⟧.draft in OnOk result
            (start_text (d self.new) ≡ start_text (d self.old)) }
        ensures undrawn { Undrawn ⟦<Self as EditorState>⟧ self.old self.new }
        ensures io { IoOnlyIf result
            ((⟦<Self as EditorState>⟧.sure self.old).completions ≡ false) }
        ensures faults { FaultsOnly result }
    {
        let line = self.line.edited.line();
        if line.pos() < start || !line.as_str().is_char_boundary(start) {
            return Ok(false);
        }
        let _ = self.line.edited.end_groups()?;
        self.line.edited.begin_group()?;
        let elects = match self.context.helper() {
            Some(helper) => self.line.edited.elect(helper, start, elected),
            None => self.line.edited.elect(&(), start, elected),
        };
        let grown = self.line.edited.end_groups()?;
        elects?;
        Ok(grown)
    }

    /// Takes the newest change back: a group of changes, or one that stands alone.
    ///
    /// # Errors
    /// `Memory` if memory runs out. The line may then be any text, without changes. The saved line,
    /// the history index and the hint stay, and nothing is drawn.
    pub fn take_back(&mut self) -> Result<()>
        ensures draft { let d = ⟦<Self as EditorState>⟧.draft in
            OnOk result (d self.new ≡ taken_back_once (d self.old)) }
        ensures start { let d = ⟦<Self as EditorState>⟧.draft in OnOk result
            (start_text (d self.new) ≡ start_text (d self.old)) }
        ensures err { let d = ⟦<Self as EditorState>⟧.draft in
            OnErr result ((d self.new).changes ≡ no_changes) }
        ensures stays { let d = ⟦<Self as EditorState>⟧.draft in
            d self.new ≡ with_edited (d self.old) (edited_of (d self.new)) }
        ensures undrawn { Undrawn ⟦<Self as EditorState>⟧ self.old self.new }
        ensures memory { MemoryOnly result }
    {
        let _ = self.line.edited.undo(1)?;
        Ok(())
    }
}
