//! Moves in the history.
ghost use Rattle.line_editor.specs.Outcomes.{DoesCommand};
ghost use Rattle.line_keys.specs.Command as commands;
ghost use Rattle.std.specs.Prelude.{◌≡◌, ◌+◌, ◌≤◌, ◌⊎◌, IsCharBoundary, false, if◌then◌else◌, not, is_some, length, IfOk, OnOk, OnErr};
ghost use Rattle.line_buffer.specs.Line.{before};
ghost use Rattle.line_config.specs.Error.{FaultsOnly, IoOnlyIf, MemoryOnly};
ghost use Rattle.line_editor.specs.HistoryMoves.{asked_back, asked_for, asked_in_search, asked_on, asked_to_end, at_index, boundary_or_end, come_back, end_shown, entry_grows, entry_put, first_shown, found_shown, line_shown, next_shown, previous_shown, restored, returned_to, saved_at_end, search_of, search_shown, showing, way_ends};
ghost use Rattle.line_keys.specs.Model.Draft.{start_text};
ghost use Rattle.line_keys.specs.Model.Drawing.{Does, DoesAsking, DoesInTwo, DrewNothing, Paints, Undrawn, drawn_if, with_hint};
ghost use Rattle.line_keys.specs.Model.Fault.{LosesChanges};
ghost use Rattle.line_parts.specs.Asks.{for_line, for_look_up, is_sure};
ghost use Rattle.line_parts.specs.History.{starting_with};
ghost use Rattle.line_parts.specs.declared.history.SearchDirection.TheVariants.{Forward, Reverse};

use crate::edit::State;
use line_buffer::LineBuffer;
use line_config::{Prompt, Result};
use line_keys::editor_state::EditorState;
use line_keys::refresher::Refresher;
use line_parts::history::SearchDirection;
use line_parts::{Helper, History};
use line_state::Renderer;

// Returns a byte offset of a text where it is a character boundary, and else the text's end.
fn boundary_or_end(text: &str, pos: usize) -> usize
    ensures value { result ≡ boundary_or_end text.now pos }
    ensures boundary { IsCharBoundary text.now result }
{
    if text.is_char_boundary(pos) {
        pos
    } else {
        text.len()
    }
}

impl<'out, 'prompt, W: Renderer, H: Helper, P: Prompt, S: History> State<
    'out,
    'prompt,
    W,
    H,
    P,
    S,
> {
    /// Saves the line and its cursor, for the way back from the history.
    ///
    /// # Errors
    /// `Memory` if memory runs out. All then stays, the saved line too.
    pub fn backup(&mut self) -> Result<()>
        ensures draft { let d = ⟦<Self as EditorState>⟧.draft in OnOk result
            (d self.new ≡ record (d self.old) { saved = (d self.old).line }) }
        ensures err { let d = ⟦<Self as EditorState>⟧.draft in
            OnErr result (d self.new ≡ d self.old) }
        ensures undrawn { Undrawn ⟦<Self as EditorState>⟧ self.old self.new }
        ensures memory { MemoryOnly result }
    {
        let line = self.line.edited.line();
        self.line.saved_line_for_history = LineBuffer::init(self.alloc, line.as_str(), line.pos())?;
        Ok(())
    }

    /// Puts the saved line in place of the line, with its cursor. Nothing is drawn.
    ///
    /// # Errors
    /// `Memory` if memory runs out. The line may then be any text, without changes. The saved line,
    /// the history index and the hint stay, and nothing is drawn.
    pub fn restore(&mut self) -> Result<()>
        ensures draft { let d = ⟦<Self as EditorState>⟧.draft in OnOk result
            (d self.new ≡ restored (d self.old)) }
        ensures err { let d = ⟦<Self as EditorState>⟧.draft in
            OnErr result (LosesChanges (d self.old) (d self.new)) }
        ensures hint { let d = ⟦<Self as EditorState>⟧.draft in
            OnErr result ((d self.new).hint ≡ (d self.old).hint) }
        ensures start { let d = ⟦<Self as EditorState>⟧.draft in OnOk result
            (start_text (d self.new) ≡ start_text (d self.old)) }
        ensures undrawn { Undrawn ⟦<Self as EditorState>⟧ self.old self.new }
        ensures memory { MemoryOnly result }
    {
        let saved = &self.line.saved_line_for_history;
        Ok(self.line.edited.update(saved.as_str(), saved.pos())?)
    }

    /// Puts the line of the history at an index in the line's place as one group of changes, with
    /// the cursor at byte `pos` of it, or at its end where that is no character boundary. A group
    /// that was open is closed before, and the line is saved where it is the one that is being
    /// written. Returns whether the changes have grown by it. Without a line at that index nothing
    /// happens. Nothing is drawn.
    ///
    /// # Errors
    /// `Io` if the history fails, and `Memory` if memory runs out. Either all is then as it was; or
    /// the line may be any text, without changes, the saved line is the one that was to be saved,
    /// and the history index stays. The hint stays, and nothing is drawn.
    pub fn put_entry(&mut self, pos: usize, index: usize) -> Result<bool>
        ensures draft { let e = ⟦<Self as EditorState>⟧ in OnOk result
            (e.draft self.new ≡ entry_put (e.environment self.old) pos index (e.draft self.old)) }
        ensures grown { let e = ⟦<Self as EditorState>⟧ in IfOk result (λ grown.
            grown ≡ entry_grows (e.environment self.old) index (e.draft self.old)) }
        ensures err { let e = ⟦<Self as EditorState>⟧ in OnErr result
            ((e.draft self.new ≡ e.draft self.old) ⊎ LosesChanges
            (saved_at_end (e.environment self.old) (e.draft self.old)) (e.draft self.new)) }
        ensures hint { let d = ⟦<Self as EditorState>⟧.draft in
            (d self.new).hint ≡ (d self.old).hint }
        ensures undrawn { Undrawn ⟦<Self as EditorState>⟧ self.old self.new }
        ensures io { IoOnlyIf result
            (is_sure (⟦<Self as EditorState>⟧.sure self.old) for_look_up ≡ false) }
        ensures faults { FaultsOnly result }
    {
        let history = self.context.history();
        let Some(found) = history.get(index, SearchDirection::Reverse)? else {
            return Ok(false);
        };
        let text = found.entry.as_str();
        let grown = !(text.is_empty() && self.line.edited.line().is_empty());
        self.save_at_end()?;
        let _ = self.line.edited.end_groups()?;
        self.line
            .edited
            .update_in_group(text, boundary_or_end(text, pos))?;
        self.context.set_history_index(index);
        Ok(grown)
    }

    /// Puts the cursor at byte `pos`, where that is a character boundary, and says that the line is
    /// the one of the history at an index, or the one that is being written where the history has
    /// no such line. Nothing is drawn.
    pub fn return_to(&mut self, pos: usize, index: usize)
        ensures draft { let e = ⟦<Self as EditorState>⟧ in
            e.draft self.new ≡ returned_to (e.environment self.old) pos index (e.draft self.old) }
        ensures undrawn { Undrawn ⟦<Self as EditorState>⟧ self.old self.new }
    {
        if self.line.edited.line().as_str().is_char_boundary(pos) {
            self.line.edited.set_pos(pos);
        }
        let end = self.context.history().len();
        self.context.set_history_index(index.min(end));
    }

    /// Shows the line of the history before this one where `prev` is true, and else the one after
    /// it: after the last one stands the line that is being written. At the history's ends, and in
    /// an empty history, nothing happens.
    ///
    /// # Errors
    /// `Io` if the renderer, the helper or the history fails, and `Memory` if memory runs out. The
    /// line, its cursor, its changes, the saved line and the history index are then those of one
    /// moment: before the call, once the line was saved, or after the call. The hint may be an
    /// earlier one or none. Where memory ran out the line may also be any text, without changes and
    /// with any hint; the saved line and the history index are those of one of these moments. The
    /// kept layout and what the screen shows are not specified: draw the line again.
    pub fn edit_history_next(&mut self, prev: bool) -> Result<()>
        ensures { let e = ⟦<Self as EditorState>⟧ in
            let w = e.environment self.old in let d = e.draft self.old in
            let dir = if prev then Reverse else Forward in
            DoesInTwo e (if prev then asked_back d else asked_on w d) result self.old self.new
            (if prev then saved_at_end w d else d)
            (if prev then previous_shown w d else next_shown w d)
            (drawn_if (not (way_ends w dir d))) 1 }
    {
        if prev {
            return self.show_previous();
        }
        self.show_next()
    }

    /// Shows the first line of the history where `first` is true, or else comes back to the line
    /// that is being written. Nothing happens where that line is shown already, and in an empty
    /// history.
    ///
    /// # Errors
    /// `Io` if the renderer, the helper or the history fails, and `Memory` if memory runs out. The
    /// line, its cursor, its changes, the saved line and the history index are then those of one
    /// moment: before the call, once the line was saved, or after the call. The hint may be an
    /// earlier one or none. Where memory ran out the line may also be any text, without changes and
    /// with any hint; the saved line and the history index are those of one of these moments. The
    /// kept layout and what the screen shows are not specified: draw the line again.
    pub fn edit_history(&mut self, first: bool) -> Result<()>
        ensures { let e = ⟦<Self as EditorState>⟧ in
            let w = e.environment self.old in let d = e.draft self.old in
            let dir = if first then Reverse else Forward in
            DoesInTwo e (if first then asked_back d else asked_to_end w d)
            result self.old self.new (if first then saved_at_end w d else d)
            (if first then first_shown w d else end_shown w d)
            (drawn_if (not (way_ends w dir d))) 1 }
    {
        if first {
            return self.show_first();
        }
        self.show_end()
    }

    /// Moves one line back in the history, or on, and from there to the nearest line that begins
    /// with the text before the cursor. That line is shown, with the cursor after that text. Where
    /// there is none the index has moved, and there is a beep. At the history's ends there is only
    /// a beep.
    ///
    /// # Errors
    /// `Io` if the renderer, the helper or the history fails, and `Memory` if memory runs out. The
    /// line, its cursor, its changes, the saved line and the history index are then those from
    /// before the call or from after it. The hint may be an earlier one or none. Where memory ran
    /// out the line may also be any text, without changes and with any hint; the saved line and the
    /// history index are those from before the call or from after it. The kept layout and what the
    /// screen shows are not specified: draw the line again.
    pub fn edit_history_search(&mut self, dir: SearchDirection) -> Result<()>
        ensures { let e = ⟦<Self as EditorState>⟧ in
            let w = e.environment self.old in let d = e.draft self.old in
            DoesAsking e (asked_in_search w dir d) result self.old self.new
            (search_shown w dir d) (drawn_if (is_some (search_of w dir d))) 1 }
    {
        let index = self.place();
        match dir {
            SearchDirection::Reverse => {
                if index == 0 {
                    return self.beep();
                }
                self.search_from(index - 1, dir)
            }
            SearchDirection::Forward => {
                if index == self.context.history().len() {
                    return self.beep();
                }
                self.search_from(index + 1, dir)
            }
        }
    }

    // Shows the line of the history before this one, if there is one.
    #[tactic(auto, using(crate::proofs::HistoryMoveLemmas::way_stays, crate::proofs::HistoryMoveLemmas::way_goes, crate::proofs::HistoryMoveLemmas::way_goes_once))]
    fn show_previous(&mut self) -> Result<()>
        ensures { DoesCommand ⟦<Self as EditorState>⟧ result self.old self.new
            commands.previous_history }
    {
        let index = self.place();
        if index == 0 {
            return Ok(());
        }
        self.leave_for(index - 1)
    }

    // Shows the line after this one, if there is one: after the history's last stands the one that
    // is being written.
    #[tactic(auto, using(crate::proofs::HistoryMoveLemmas::way_stays, crate::proofs::HistoryMoveLemmas::way_goes, crate::proofs::HistoryMoveLemmas::way_goes_once))]
    fn show_next(&mut self) -> Result<()>
        ensures { DoesCommand ⟦<Self as EditorState>⟧ result self.old self.new
            commands.next_history }
    {
        let index = self.place();
        let end = self.context.history().len();
        if index == end {
            return Ok(());
        }
        if index + 1 == end {
            return self.come_back();
        }
        self.show_line(index + 1)
    }

    // Shows the first line of the history, if it is not shown already.
    #[tactic(auto, using(crate::proofs::HistoryMoveLemmas::way_stays, crate::proofs::HistoryMoveLemmas::way_goes, crate::proofs::HistoryMoveLemmas::way_goes_once))]
    fn show_first(&mut self) -> Result<()>
        ensures { DoesCommand ⟦<Self as EditorState>⟧ result self.old self.new
            commands.beginning_of_history }
    {
        if self.place() == 0 {
            return Ok(());
        }
        self.leave_for(0)
    }

    // Comes back to the line that is being written, if it is not shown already.
    #[tactic(auto, using(crate::proofs::HistoryMoveLemmas::way_stays, crate::proofs::HistoryMoveLemmas::way_goes, crate::proofs::HistoryMoveLemmas::way_goes_once))]
    fn show_end(&mut self) -> Result<()>
        ensures { DoesCommand ⟦<Self as EditorState>⟧ result self.old self.new
            commands.end_of_history }
    {
        if self.place() == self.context.history().len() {
            return Ok(());
        }
        self.come_back()
    }

    /// Beeps: tells the person that nothing could be done. Nothing is drawn.
    ///
    /// # Errors
    /// `Io` if the renderer fails, and `Memory` if memory runs out. The line, its changes, the
    /// hint, the kept layout and what the screen shows then stay.
    pub fn beep(&mut self) -> Result<()>
        ensures drew { DrewNothing ⟦<Self as EditorState>⟧ self.old self.new }
        ensures paints { Paints ⟦<Self as EditorState>⟧ false result self.old self.new }
    {
        self.view.beep()
    }

    // Saves the line where it is the one that is being written.
    fn save_at_end(&mut self) -> Result<()>
        ensures draft { let e = ⟦<Self as EditorState>⟧ in OnOk result
            (e.draft self.new ≡ saved_at_end (e.environment self.old) (e.draft self.old)) }
        ensures err { let d = ⟦<Self as EditorState>⟧.draft in
            OnErr result (d self.new ≡ d self.old) }
        ensures undrawn { Undrawn ⟦<Self as EditorState>⟧ self.old self.new }
        ensures memory { MemoryOnly result }
    {
        if self.place() == self.context.history().len() {
            self.backup()?;
        }
        Ok(())
    }

    // Saves the line where it is the one that is being written, and shows the one of the history at
    // an index.
    fn leave_for(&mut self, index: usize) -> Result<()>
        requires { index + 1 ≤ length (⟦<Self as EditorState>⟧.environment self.old).lines }
        ensures { let e = ⟦<Self as EditorState>⟧ in let w = e.environment self.old in
            let saved = saved_at_end w (e.draft self.old) in
            DoesInTwo e for_line result self.old self.new
            saved (line_shown w index saved) with_hint 1 }
    {
        self.save_at_end()?;
        self.show_line(index)
    }

    // Shows the line of the history at an index, with the cursor at its end.
    #[tactic(auto, using(crate::proofs::AskedLemmas::sure_history))]
    fn show_line(&mut self, index: usize) -> Result<()>
        requires { index + 1 ≤ length (⟦<Self as EditorState>⟧.environment self.old).lines }
        ensures { let e = ⟦<Self as EditorState>⟧ in
            DoesAsking e for_line result self.old self.new
            (line_shown (e.environment self.old) index (e.draft self.old)) with_hint 1 }
    {
        let history = self.context.history();
        let Some(found) = history.get(index, SearchDirection::Reverse)? else {
            return Ok(());
        };
        let text = found.entry.as_str();
        self.show_text(text, text.len(), index)
    }

    // Puts a text of the history in the line's place, with the cursor at byte `pos` of it, as the
    // line at an index.
    fn show_text(&mut self, text: &str, pos: usize, index: usize) -> Result<()>
        requires boundary { IsCharBoundary text.now pos }
        requires index { index ≤ length (⟦<Self as EditorState>⟧.environment self.old).lines }
        ensures { let e = ⟦<Self as EditorState>⟧ in let d = at_index index (e.draft self.old) in
            Does e result self.old self.new
            (showing (e.environment self.old) text.now pos d) with_hint 1 }
    {
        self.line.edited.update_in_group(text, pos)?;
        self.context.set_history_index(index);
        self.refresh_line()
    }

    // Comes back to the line that is being written.
    fn come_back(&mut self) -> Result<()>
        ensures { let e = ⟦<Self as EditorState>⟧ in Does e result self.old self.new
            (come_back (e.environment self.old) (e.draft self.old)) with_hint 1 }
    {
        self.restore()?;
        let end = self.context.history().len();
        self.context.set_history_index(end);
        self.refresh_line()
    }

    // Goes to an index, and from there to the nearest line that begins with the text before the
    // cursor, and shows it.
    #[tactic(auto, using(crate::proofs::AskedLemmas::sure_look_up))]
    fn search_from(&mut self, index: usize, dir: SearchDirection) -> Result<()>
        requires { index ≤ length (⟦<Self as EditorState>⟧.environment self.old).lines }
        ensures { let e = ⟦<Self as EditorState>⟧ in let d = e.draft self.old in
            let found = starting_with (e.environment self.old).lines (before d.line) index dir in
            DoesAsking e (asked_for found) result self.old self.new
            (found_shown (e.environment self.old) found (at_index index d))
            (drawn_if (is_some found)) 1 }
    {
        let line = self.line.edited.line();
        let before = &line.as_str()[..line.pos()];
        let Some(found) = self.context.history().starts_with(before, index, dir)? else {
            self.context.set_history_index(index);
            return self.beep();
        };
        self.show_text(found.entry.as_str(), found.pos, found.idx)
    }
}
