//! What takes text out of the line, and what is yanked from the kill ring.
ghost use Rattle.line_keys.specs.Command as commands;
ghost use Rattle.std.specs.Prelude.{◌≡◌, ◌≤◌, ◌-◌, ◌==◌, ◌&&◌, true, length, option_map, IsCharBoundary};
ghost use Rattle.line_buffer.specs.KillRing.{yanked_text};
ghost use Rattle.line_config.specs.Error.{MemoryOnly};
ghost use Rattle.line_editor.specs.Drawings.{bracket_drawn, yank_drawn};
ghost use Rattle.line_editor.specs.DraftEdits.{kill_yanked, range_emptied};
ghost use Rattle.line_editor.specs.Outcomes.{DoesKilling, DoesWithKills, EditsThenDraws, editor_of};
ghost use Rattle.line_input.specs.InputState.{input_of};
ghost use Rattle.line_keys.specs.Model.Drawing.{nothing};
ghost use Rattle.line_keys.specs.Model.Plainly.{gives_end};
ghost use Rattle.line_state.specs.Edited.{bracket_range};

use crate::edit::State;
use line_buffer::{KillRing, Mode, Movement, RepeatCount, is_printable_text};
use line_config::{Prompt, Result};
use line_input::{ConditionalEventHandler, InputState};
use line_keys::cmd::Anchor;
use line_keys::editor_state::EditorState;
use line_keys::refresher::Refresher;
use line_parts::{Helper, History};
use line_state::Renderer;

impl<'out, 'prompt, W: Renderer, H: Helper, P: Prompt, S: History> State<
    'out,
    'prompt,
    W,
    H,
    P,
    S,
> {
    /// Kills the text of a movement and keeps it in `kill_ring` as `LineBuffer::kill` does, and
    /// asks for the hint. Where the line is printable ASCII and newlines, with no hint, no text
    /// after it and no highlighting, before and after, printable ASCII that is killed at its end is
    /// cleared from its row, if kept cursor and end are on one row and go back no further than its
    /// first column. Else the line is drawn again. Where there is nothing to kill, nothing happens.
    ///
    /// # Errors
    /// `Io` if the renderer, the helper or the history fails, and `Memory` if memory runs out. The
    /// line, its cursor and its changes are then those from before the kill or from after it, and
    /// the hint may be an earlier one or none. Where memory ran out the line may also be any text,
    /// without changes and with any hint. The saved line and the history index stay. The kept
    /// layout and what the screen shows are not specified: draw the line again.
    ///
    /// After `Io` `kill_ring` is as the kill leaves it; if the kill changes it, the line is the one
    /// from after the kill. After `Memory` `kill_ring` is as the kill leaves it, or the one from
    /// before, with a kill as its last action or not.
    pub fn edit_kill(&mut self, movement: &Movement, kill_ring: &mut KillRing) -> Result<()>
        ensures does { DoesKilling ⟦<Self as EditorState>⟧ result self.old kill_ring.old
            self.new kill_ring.new (commands.kill movement.now) }
        ensures ring { kill_ring.new.size ≡ kill_ring.old.size }
    {
        let Some((from, to)) = self.line.edited.killed_range(movement) else {
            return Ok(());
        };
        let len = self.line.edited.line().len();
        let plainly = self.gives_range(from, to);
        self.line.edited.kill(movement, kill_ring)?;
        if !plainly {
            return self.refresh_line();
        }
        self.show_killed(len - from)
    }

    // Returns whether a range ends the text, and can be cleared plainly.
    fn gives_range(&self, from: usize, to: usize) -> bool
        requires { IsCharBoundary (⟦<Self as EditorState>⟧.draft self.now).line.text from }
        ensures answer { let e = ⟦<Self as EditorState>⟧ in let d = e.draft self.now in
            result ≡ ((to == length d.line.text) && gives_end (e.display self.now) d from) }
        ensures fits { let e = ⟦<Self as EditorState>⟧ in result ≡ true
            → length (e.draft self.now).line.text - from ≤ (e.display self.now).layout.end.col }
    {
        let line = self.line.edited.line();
        let layout = self.view.layout();
        let gone = &line.as_str()[from..];
        to == line.len()
            && is_printable_text(gone)
            && layout.cursor.row == layout.end.row
            && line.pos().saturating_sub(from) <= usize::from(layout.cursor.col)
            && gone.len() <= usize::from(layout.end.col)
            && self.is_bare()
    }

    // Copies the text of a movement to the kill ring, if there is one.
    pub(crate) fn copy_to(&mut self, movement: &Movement, kill_ring: &mut KillRing) -> Result<()>
        ensures does { DoesKilling ⟦<Self as EditorState>⟧ result self.old kill_ring.old
            self.new kill_ring.new (commands.vi_yank_to movement.now) }
        ensures memory { MemoryOnly result }
        ensures ring { kill_ring.new.size ≡ kill_ring.old.size }
    {
        if let Some(text) = self.line.edited.copy(movement)? {
            kill_ring.kill(&text, Mode::Append)?;
        }
        Ok(())
    }

    // Yanks the current text of the kill ring, if there is one.
    pub(crate) fn yank_killed<C: ConditionalEventHandler>(
        &mut self,
        input_state: &InputState<'_, C>,
        anchor: Anchor,
        n: RepeatCount,
        kill_ring: &mut KillRing,
    ) -> Result<()>
        ensures does { let e = ⟦<Self as EditorState>⟧ in
            DoesWithKills e result self.old kill_ring.old self.new kill_ring.new
            (kill_yanked (e.environment self.old) (input_of input_state.now) anchor n
            (yanked_text kill_ring.old) (editor_of e self.old kill_ring.old))
            (yank_drawn (yanked_text kill_ring.old)) 1 }
        ensures ring { kill_ring.new.size ≡ kill_ring.old.size }
    {
        if let Some(text) = kill_ring.yank() {
            self.edit_yank(input_state, text, anchor, n)?;
        }
        Ok(())
    }

    // Puts the text that was killed before the yanked one in its place, right after a yank.
    pub(crate) fn pop_killed(&mut self, kill_ring: &mut KillRing) -> Result<()>
        ensures does { DoesKilling ⟦<Self as EditorState>⟧ result self.old kill_ring.old
            self.new kill_ring.new commands.yank_pop }
        ensures ring { kill_ring.new.size ≡ kill_ring.old.size }
    {
        if let Some((size, text)) = kill_ring.yank_pop() {
            self.edit_yank_pop(size, text)?;
        }
        Ok(())
    }

    // Kills the text of a movement, and inserts a text in its place, if there is one.
    pub(crate) fn replace(
        &mut self,
        movement: &Movement,
        text: Option<&str>,
        kill_ring: &mut KillRing,
    ) -> Result<()>
        ensures does { DoesKilling ⟦<Self as EditorState>⟧ result self.old kill_ring.old
            self.new kill_ring.new
            (commands.replace movement.now (option_map (λ s. s.now) text.entry)) }
        ensures ring { kill_ring.new.size ≡ kill_ring.old.size }
    {
        self.edit_kill(movement, kill_ring)?;
        match text {
            Some(text) => self.edit_insert_text(text),
            None => Ok(()),
        }
    }

    // Copies the text from the bracket at the cursor to its match to the kill ring, if it has one.
    pub(crate) fn copy_to_bracket(&mut self, kill_ring: &mut KillRing) -> Result<()>
        ensures does { DoesKilling ⟦<Self as EditorState>⟧ result self.old kill_ring.old
            self.new kill_ring.new commands.yank_to_bracket }
        ensures memory { MemoryOnly result }
        ensures ring { kill_ring.new.size ≡ kill_ring.old.size }
    {
        if let Some((from, to)) = self.line.edited.bracket_range() {
            kill_ring.kill(&self.line.edited.line().as_str()[from..to], Mode::Append)?;
        }
        Ok(())
    }

    // Takes away the text from the bracket at the cursor to its match, if it has one, and draws the
    // line again.
    fn remove_to_bracket(&mut self) -> Result<()>
        ensures { let e = ⟦<Self as EditorState>⟧ in let d = e.draft self.old in
            EditsThenDraws e result self.old self.new
            (range_emptied (e.environment self.old) (bracket_range d.line) d)
            (bracket_drawn d.line) 1 }
    {
        if !self.line.edited.remove_to_bracket()? {
            return Ok(());
        }
        self.refresh_line()
    }

    // Kills the text from the bracket at the cursor to its match, if it has one.
    pub(crate) fn kill_to_bracket(&mut self, kill_ring: &mut KillRing) -> Result<()>
        ensures does { DoesKilling ⟦<Self as EditorState>⟧ result self.old kill_ring.old
            self.new kill_ring.new commands.kill_to_bracket }
        ensures ring { kill_ring.new.size ≡ kill_ring.old.size }
    {
        self.copy_to_bracket(kill_ring)?;
        self.remove_to_bracket()
    }

    // Kills the text from the bracket at the cursor to its match, if it has one, and inserts a
    // text, if there is one.
    pub(crate) fn replace_to_bracket(
        &mut self,
        text: Option<&str>,
        kill_ring: &mut KillRing,
    ) -> Result<()>
        ensures does { DoesKilling ⟦<Self as EditorState>⟧ result self.old kill_ring.old
            self.new kill_ring.new
            (commands.replace_to_bracket (option_map (λ s. s.now) text.entry)) }
        ensures ring { kill_ring.new.size ≡ kill_ring.old.size }
    {
        self.kill_to_bracket(kill_ring)?;
        match text {
            Some(text) => self.edit_insert_text(text),
            None => Ok(()),
        }
    }
}
