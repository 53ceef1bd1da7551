//! Edits of words, of neighbours and of whole lines, and undo.
ghost use Rattle.line_editor.specs.Outcomes.{DoesCommand};
ghost use Rattle.line_keys.specs.Command as commands;
ghost use Rattle.std.specs.Prelude.{is_some};
ghost use Rattle.line_buffer.specs.Transpose.{next_alphanumeric};
ghost use Rattle.line_editor.specs.DraftEdits.{lines_shifted, word_changed};
ghost use Rattle.line_keys.specs.Model.Drawing.{Does, edit_drawn, with_hint};

use crate::edit::State;
use line_buffer::{Movement, RepeatCount, WordAction};
use line_config::{Prompt, Result};
use line_keys::editor_state::EditorState;
use line_keys::refresher::Refresher;
use line_parts::{Helper, History};
use line_state::Renderer;

impl<'out, 'prompt, W: Renderer, H: Helper, P: Prompt, S: History> State<
    'out,
    'prompt,
    W,
    H,
    P,
    S,
> {
    /// Exchanges the cluster before the cursor and the one at it, or the last two at the text's
    /// end. The cursor then stands after both. At the text's start, and with fewer than two
    /// clusters, the line stays. Open groups of changes end in any case.
    ///
    /// # Errors
    /// `Io` if the renderer, the helper or the history fails, and `Memory` if memory runs out. The
    /// line, its cursor and its changes are then those from before the edit or from after it, and
    /// the hint may be an earlier one or none. Where memory ran out the line may also be any text,
    /// without changes and with any hint. The saved line and the history index stay. The kept
    /// layout and what the screen shows are not specified: draw the line again.
    pub fn edit_transpose_chars(&mut self) -> Result<()>
        ensures { DoesCommand ⟦<Self as EditorState>⟧ result self.old self.new
            commands.transpose_chars }
    {
        let exchanged = self.line.edited.transpose_chars()?;
        self.show_edit(exchanged)
    }

    /// Exchanges the word that ends `n` words on from the cursor with the `n`-th word before it.
    /// The cursor then stands after both. Where these are not two words, the cursor alone moves:
    /// after the first.
    ///
    /// # Errors
    /// `Io` if the renderer, the helper or the history fails, and `Memory` if memory runs out. The
    /// line, its cursor and its changes are then those from before the edit or from after it, and
    /// the hint may be an earlier one or none. Where memory ran out the line may also be any text,
    /// without changes and with any hint. The saved line and the history index stay. The kept
    /// layout and what the screen shows are not specified: draw the line again.
    pub fn edit_transpose_words(&mut self, n: RepeatCount) -> Result<()>
        ensures { DoesCommand ⟦<Self as EditorState>⟧ result self.old self.new
            (commands.transpose_words n) }
    {
        let exchanged = self.line.edited.transpose_words(n)?;
        self.show_edit(exchanged)
    }

    /// Changes the case of the next word, and puts the cursor after it. Without a word the line
    /// stays. Open groups of changes end in any case.
    ///
    /// # Errors
    /// `Io` if the renderer, the helper or the history fails, and `Memory` if memory runs out. The
    /// line, its cursor and its changes are then those from before the edit or from after it, and
    /// the hint may be an earlier one or none. Where memory ran out the line may also be any text,
    /// without changes and with any hint. The saved line and the history index stay. The kept
    /// layout and what the screen shows are not specified: draw the line again.
    pub fn edit_word(&mut self, action: WordAction) -> Result<()>
        ensures { let e = ⟦<Self as EditorState>⟧ in
            Does e result self.old self.new
            (word_changed (e.environment self.old) action (e.draft self.old))
            (edit_drawn (is_some (next_alphanumeric (e.draft self.old).line))) 1 }
    {
        let changed = self.line.edited.edit_word(action)?;
        self.show_edit(changed)
    }

    /// Puts `amount` spaces before each line of the movement, or with `dedent` takes up to as many
    /// white-space characters from its front.
    ///
    /// # Errors
    /// `Io` if the renderer, the helper or the history fails, and `Memory` if memory runs out. The
    /// line, its cursor and its changes are then those from before the edit or from after it, and
    /// the hint may be an earlier one or none. Where memory ran out the line may also be any text,
    /// without changes and with any hint. The saved line and the history index stay. The kept
    /// layout and what the screen shows are not specified: draw the line again.
    pub fn edit_indent(&mut self, mvt: &Movement, amount: u8, dedent: bool) -> Result<()>
        ensures { let e = ⟦<Self as EditorState>⟧ in Does e result self.old self.new
            (lines_shifted (e.environment self.old) dedent amount mvt.now (e.draft self.old))
            with_hint 1 }
    {
        self.line.edited.indent(mvt, usize::from(amount), dedent)?;
        self.refresh_line()
    }

    // Takes `n` steps back, one for `n` = 0.
    pub(crate) fn undo(&mut self, n: RepeatCount) -> Result<()>
        ensures { DoesCommand ⟦<Self as EditorState>⟧ result self.old self.new (commands.undo n) }
    {
        let undone = self.line.edited.undo(n)?;
        self.show_edit(undone)
    }
}
