//! What puts text into the line.
ghost use Rattle.line_keys.specs.Command as commands;
ghost use Rattle.std.specs.Prelude.{◌≡◌, ◌==◌, ◌&&◌, not, length};
ghost use Rattle.line_editor.specs.DraftEdits.{popped_in, text_inserted, yanked_in};
ghost use Rattle.line_editor.specs.Outcomes.{DoesCommand, EditsThenDraws};
ghost use Rattle.line_input.specs.InputState.{input_of};
ghost use Rattle.line_keys.specs.Model.Drawing.{Does, drawn_if, edit_drawn};
ghost use Rattle.line_keys.specs.Model.Plainly.{is_bare_line, takes_char};
ghost use Rattle.line_state.specs.Edited.{pops_text};

use crate::edit::State;
use line_buffer::{RepeatCount, is_printable};
use line_config::{Prompt, Result};
use line_input::{ConditionalEventHandler, InputState};
use line_keys::cmd::Anchor;
use line_keys::editor_state::EditorState;
use line_keys::refresher::Refresher;
use line_parts::{Helper, History};
use line_state::Renderer;

impl<'out, 'prompt, W: Renderer, H: Helper, P: Prompt, S: History> State<
    'out,
    'prompt,
    W,
    H,
    P,
    S,
> {
    /// Inserts `n` copies of a character at the cursor, which then stands after them, and asks for
    /// the hint. Where the line is printable ASCII and newlines, with no hint, no text after it and
    /// no highlighting, before and after, one printable ASCII character at its end is drawn alone,
    /// if a column is left after it. Else the line is drawn again.
    ///
    /// # Errors
    /// `Io` if the renderer, the helper or the history fails, and `Memory` if memory runs out. The
    /// line, its cursor and its changes are then those from before the edit or from after it, and
    /// the hint may be an earlier one or none. Where memory ran out the line may also be any text,
    /// without changes and with any hint. The saved line and the history index stay. The kept
    /// layout and what the screen shows are not specified: draw the line again.
    pub fn edit_insert(&mut self, c: char, n: RepeatCount) -> Result<()>
        ensures { DoesCommand ⟦<Self as EditorState>⟧ result self.old self.new
            (commands.self_insert n c) }
    {
        let plainly = self.takes_chars(c, n);
        self.line.edited.insert(c, n)?;
        if !plainly {
            return self.refresh_line();
        }
        self.show_typed(c)
    }

    // Returns whether there is one copy of a character, and it can be drawn plainly.
    fn takes_chars(&self, c: char, n: RepeatCount) -> bool
        ensures { let e = ⟦<Self as EditorState>⟧ in
            result ≡ ((n == 1) && takes_char (e.display self.now) (e.draft self.now) c) }
    {
        n == 1
            && is_printable(c)
            && self.line.edited.line().is_cursor_at_end()
            && self.view.has_free_column()
            && self.is_bare()
    }

    // Returns whether the line is printable ASCII and newlines, with no hint and no text drawn
    // after it.
    pub(crate) fn is_bare(&self) -> bool
        ensures { let e = ⟦<Self as EditorState>⟧ in
            result ≡ is_bare_line (e.display self.now) (e.draft self.now) }
    {
        self.line.edited.line().is_plain()
            && self.line.hint.is_none()
            && !self.view.layout().has_info
    }

    /// Inserts a text at the cursor, which stays before it. The empty text changes nothing.
    ///
    /// # Errors
    /// `Io` if the renderer, the helper or the history fails, and `Memory` if memory runs out. The
    /// line, its cursor and its changes are then those from before the edit or from after it, and
    /// the hint may be an earlier one or none. Where memory ran out the line may also be any text,
    /// without changes and with any hint. The saved line and the history index stay. The kept
    /// layout and what the screen shows are not specified: draw the line again.
    pub fn edit_insert_text(&mut self, text: &str) -> Result<()>
        ensures { let e = ⟦<Self as EditorState>⟧ in
            Does e result self.old self.new
            (text_inserted (e.environment self.old) text.now (e.draft self.old))
            (drawn_if (not (length text.now == 0))) 1 }
    {
        if text.is_empty() {
            return Ok(());
        }
        self.line.edited.insert_text(text)?;
        self.refresh_line()
    }

    /// Puts a character in place of each of `n` clusters from the cursor on, or of as many as there
    /// are. The cursor is then on the last of them. At the text's end, and for `n` = 0, the line
    /// stays. Open groups of changes end in any case.
    ///
    /// # Errors
    /// `Io` if the renderer, the helper or the history fails, and `Memory` if memory runs out. The
    /// line, its cursor and its changes are then those from before the edit or from after it, and
    /// the hint may be an earlier one or none. Where memory ran out the line may also be any text,
    /// without changes and with any hint. The saved line and the history index stay. The kept
    /// layout and what the screen shows are not specified: draw the line again.
    pub fn edit_replace_char(&mut self, c: char, n: RepeatCount) -> Result<()>
        ensures { DoesCommand ⟦<Self as EditorState>⟧ result self.old self.new
            (commands.replace_char n c) }
    {
        let replaced = self.line.edited.replace_char(c, n)?;
        self.show_edit(replaced)
    }

    /// Puts a character in place of the cluster at the cursor, which then stands after it. At the
    /// text's end nothing happens.
    ///
    /// # Errors
    /// `Io` if the renderer, the helper or the history fails, and `Memory` if memory runs out. The
    /// line, its cursor and its changes are then those from before the edit or from after it, and
    /// the hint may be an earlier one or none. Where memory ran out the line may also be any text,
    /// without changes and with any hint. The saved line and the history index stay. The kept
    /// layout and what the screen shows are not specified: draw the line again.
    pub fn edit_overwrite_char(&mut self, c: char) -> Result<()>
        ensures { DoesCommand ⟦<Self as EditorState>⟧ result self.old self.new
            (commands.overwrite c) }
    {
        let replaced = self.line.edited.overwrite(c)?;
        self.show_edit(replaced)
    }

    /// Puts `n` copies of a text before the cluster at the cursor, or after it, and the cursor
    /// after them; in Vi's command mode the cursor then goes one cluster back. With the empty text
    /// only the cursor moves: for `After`, after the cluster.
    ///
    /// # Errors
    /// `Io` if the renderer, the helper or the history fails, and `Memory` if memory runs out.
    /// After `Io` the edit is done. After `Memory` the line, its cursor and its changes are those
    /// from before it or from after it, or the line is any text, without changes and with any hint.
    /// The hint may be an earlier one or none. The saved line and the history index stay. The kept
    /// layout and what the screen shows are not specified: draw the line again.
    pub fn edit_yank<C: ConditionalEventHandler>(
        &mut self,
        input_state: &InputState<'_, C>,
        text: &str,
        anchor: Anchor,
        n: RepeatCount,
    ) -> Result<()>
        ensures { let e = ⟦<Self as EditorState>⟧ in
            EditsThenDraws e result self.old self.new
            (yanked_in (e.environment self.old) (input_of input_state.now) anchor n text.now
            (e.draft self.old)) (edit_drawn (not (length text.now == 0))) 1 }
    {
        let step_back = input_state.is_vi_cmd_mode();
        let yanked = self.line.edited.yank_at(anchor, text, n, step_back)?;
        self.show_edit(yanked)
    }

    /// Puts a text in place of the `yank_size` bytes before the cursor, which were yanked. Where
    /// fewer bytes stand there, or they would cut a character, the line stays. Open groups of
    /// changes end in any case.
    ///
    /// # Errors
    /// `Io` if the renderer, the helper or the history fails, and `Memory` if memory runs out.
    /// After `Io` the edit is done. After `Memory` the line, its cursor and its changes are those
    /// from before it or from after it, or the line is any text, without changes and with any hint.
    /// The hint may be an earlier one or none. The saved line and the history index stay. The kept
    /// layout and what the screen shows are not specified: draw the line again.
    pub fn edit_yank_pop(&mut self, yank_size: usize, text: &str) -> Result<()>
        ensures { let e = ⟦<Self as EditorState>⟧ in
            EditsThenDraws e result self.old self.new
            (popped_in (e.environment self.old) yank_size text.now (e.draft self.old))
            (edit_drawn (pops_text (e.draft self.old).line yank_size text.now)) 1 }
    {
        let popped = self.line.edited.yank_pop(yank_size, text)?;
        self.show_edit(popped)
    }
}
