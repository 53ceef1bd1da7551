//! The hint, put into the line.
ghost use Rattle.line_editor.specs.Outcomes.{DoesCommand};
ghost use Rattle.line_keys.specs.Command as commands;
ghost use Rattle.std.specs.Prelude.{◌≡◌, true, option_and_then, option_map, OnErr, OnOk};
ghost use Rattle.line_editor.specs.Editor.{with_edited};
ghost use Rattle.line_editor.specs.DraftEdits.{with_completion_at_end};
ghost use Rattle.line_keys.specs.Model.Draft.{hinted, KeepsText, start_text};
ghost use Rattle.line_keys.specs.Model.Drawing.{DrewNothing, Undrawn};
ghost use Rattle.line_keys.specs.Model.Fault.{FaultLeaves};
ghost use Rattle.line_keys.specs.Model.Frame.{FailsByRenderer, FailsOnlyIf, Frame};
ghost use Rattle.line_parts.specs.Asks.{for_hint, is_sure};
ghost use Rattle.line_parts.specs.Hint.{suggestion_of};

use crate::edit::State;
use line_config::{Prompt, Result};
use line_keys::editor_state::EditorState;
use line_keys::refresher::Refresher;
use line_parts::{Helper, Hint, History};
use line_state::Renderer;

// Returns what the hint completes the line with, if there is a hint and it can be taken.
fn completion_of<T: Hint>(hint: &Option<T>) -> Option<&str>
    ensures { option_map (λ s. s.now) result ≡ option_and_then (λ hint. hint.completion)
        (option_map (suggestion_of T.Hint) hint.now) }
{
    match hint {
        Some(h) => h.completion(),
        None => None,
    }
}

impl<'out, 'prompt, W: Renderer, H: Helper, P: Prompt, S: History> State<
    'out,
    'prompt,
    W,
    H,
    P,
    S,
> {
    /// Asks the helper for the hint of the line; a hint that displays nothing counts as none.
    /// Nothing is drawn.
    ///
    /// # Errors
    /// `Io` if the helper fails, or the history that it asks, and `Memory` if memory runs out. The
    /// hint then stays, and so does all else.
    pub fn hint(&mut self) -> Result<()>
        ensures draft { let e = ⟦<Self as EditorState>⟧ in OnOk result
            (e.draft self.new ≡ hinted (e.environment self.old) (e.draft self.old)) }
        ensures err { let d = ⟦<Self as EditorState>⟧.draft in
            OnErr result (d self.new ≡ d self.old) }
        ensures text { let d = ⟦<Self as EditorState>⟧.draft in
            KeepsText (d self.old) (d self.new) }
        ensures undrawn { Undrawn ⟦<Self as EditorState>⟧ self.old self.new }
        ensures fails { let e = ⟦<Self as EditorState>⟧ in FailsOnlyIf result
            (is_sure (e.sure self.old) for_hint ≡ true → ⊥)
            (e.failures self.old) (e.failures self.new) }
    {
        self.line.hint = self.context.hint(self.alloc, self.line.edited.line())?;
        Ok(())
    }

    // Puts what the hint completes the line with at the end of the cursor's line, asks for the next
    // hint and draws the line. There is a beep where the hint completes nothing. Without a hint
    // nothing happens.
    pub(crate) fn complete_hint(&mut self) -> Result<()>
        ensures { DoesCommand ⟦<Self as EditorState>⟧ result self.old self.new
            commands.complete_hint }
    {
        if self.line.hint.is_none() {
            return Ok(());
        }
        self.yank_hint()?;
        self.refresh_line()
    }

    // Puts what the hint completes the line with at the end of the cursor's line. There is a beep
    // where it completes nothing.
    fn yank_hint(&mut self) -> Result<()>
        ensures draft { let e = ⟦<Self as EditorState>⟧ in let d = e.draft self.old in
            OnOk result (e.draft self.new ≡ with_edited d
            (with_completion_at_end (option_and_then (λ hint. hint.completion) d.hint) d)) }
        ensures fault { let e = ⟦<Self as EditorState>⟧ in let d = e.draft self.old in
            FaultLeaves result (e.environment self.old) d d (with_edited d
            (with_completion_at_end (option_and_then (λ hint. hint.completion) d.hint) d))
            (e.draft self.new) }
        ensures start { let d = ⟦<Self as EditorState>⟧.draft in OnOk result
            (start_text (d self.new) ≡ start_text (d self.old)) }
        ensures drew { DrewNothing ⟦<Self as EditorState>⟧ self.old self.new }
        ensures frame { Frame ⟦<Self as EditorState>⟧ self.old self.new }
        ensures fails { FailsByRenderer ⟦<Self as EditorState>⟧ result self.old self.new }
    {
        self.line.edited.move_end();
        let Some(text) = completion_of(&self.line.hint) else {
            return self.beep();
        };
        if !self.line.edited.yank(text, 1)? {
            return self.beep();
        }
        Ok(())
    }
}
