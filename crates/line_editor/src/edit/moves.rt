//! Moves of the cursor.
ghost use Rattle.std.specs.Prelude.{◌≡◌, false, is_some, length, IfOk, OnOk, IsOk};
ghost use Rattle.line_buffer.specs.Cluster.{place_on, place_back};
ghost use Rattle.line_buffer.specs.Line.{moved_to, with_cursor, start_of_line, end_of_line};
ghost use Rattle.line_buffer.specs.Lines.{down_by, up_by};
ghost use Rattle.line_buffer.specs.Search.{search_place};
ghost use Rattle.line_buffer.specs.Word.{word_back, word_on};
ghost use Rattle.line_editor.specs.Drawings.{move_drawn};
ghost use Rattle.line_editor.specs.Outcomes.{DoesCommand};
ghost use Rattle.line_keys.specs.Command as commands;
ghost use Rattle.line_keys.specs.Model.Display.{GoesToShownEnd};
ghost use Rattle.line_keys.specs.Model.Drawing.{DoesInTwo, DrawsCursor, MovesTo, Paints, PutsCursorAt, Undrawn, asked_by, cursor};
ghost use Rattle.line_keys.specs.Model.ShownLine.{IsAtEnd};
ghost use Rattle.line_keys.specs.Model.ShownLine.{HasShownEnd, ShowsLine};
ghost use Rattle.line_parts.specs.declared.highlight.CmdKind.TheVariants.{MoveCursor};
ghost use Rattle.line_state.specs.Moves.{bracket_place, moved, on_way};

use crate::edit::{Info, State};
use line_buffer::{At, CharSearch, Movement, Position, RepeatCount, Word};
use line_config::{Prompt, Result};
use line_keys::editor_state::EditorState;
use line_parts::{CmdKind, Helper, History};
use line_state::Renderer;

impl<'out, 'prompt, W: Renderer, H: Helper, P: Prompt, S: History> State<
    'out,
    'prompt,
    W,
    H,
    P,
    S,
> {
    /// Moves the screen cursor to where the line's cursor is. Nothing is drawn where the kept
    /// cursor is there already. Where `highlight_char` says that the line is highlighted, or said
    /// so the time before, the line is drawn in full, with nothing after it. `kind` is what
    /// `highlight_char` is told.
    ///
    /// # Errors
    /// `Io` if the renderer fails, and `Memory` if memory runs out. The line, its changes, the hint
    /// and the kept layout then stay. What the screen shows is not specified: draw the line again.
    pub fn move_cursor(&mut self, kind: CmdKind) -> Result<()>
        ensures { DrawsCursor ⟦<Self as EditorState>⟧ result self.old self.new kind }
    {
        let position = self.view.cursor_position(self.line.edited.line());
        self.put_cursor(position, kind)
    }

    // Moves the screen cursor to a position: alone, or with the line in full where it is
    // highlighted.
    fn put_cursor(&mut self, position: Position, kind: CmdKind) -> Result<()>
        ensures { PutsCursorAt ⟦<Self as EditorState>⟧ result self.old self.new kind position }
    {
        if self.view.layout().cursor == position {
            return Ok(());
        }
        if self.has_highlighting(kind) {
            return self.draw(Info::Nothing);
        }
        self.view.move_cursor(position)
    }

    /// Moves the cursor `n` clusters back, or as many as there are. The screen cursor moves along.
    ///
    /// # Errors
    /// `Io` if the renderer fails, and `Memory` if memory runs out. The line's cursor has then
    /// moved. The text, its changes, the hint and the kept layout stay. What the screen shows is
    /// not specified: draw the line again.
    pub fn edit_move_backward(&mut self, n: RepeatCount) -> Result<()>
        ensures { let e = ⟦<Self as EditorState>⟧ in let line = (e.draft self.old).line in
            MovesTo e result self.old self.new MoveCursor (moved_to line (place_back line n)) }
    {
        self.follow(&Movement::BackwardChar(n), CmdKind::MoveCursor)
    }

    /// Moves the cursor `n` clusters on, or as many as there are. The screen cursor moves along.
    ///
    /// # Errors
    /// `Io` if the renderer fails, and `Memory` if memory runs out. The line's cursor has then
    /// moved. The text, its changes, the hint and the kept layout stay. What the screen shows is
    /// not specified: draw the line again.
    pub fn edit_move_forward(&mut self, n: RepeatCount) -> Result<()>
        ensures { let e = ⟦<Self as EditorState>⟧ in let line = (e.draft self.old).line in
            MovesTo e result self.old self.new MoveCursor (moved_to line (place_on line n)) }
    {
        self.follow(&Movement::ForwardChar(n), CmdKind::MoveCursor)
    }

    /// Moves the cursor to the start of its line. The screen cursor moves along.
    ///
    /// # Errors
    /// `Io` if the renderer fails, and `Memory` if memory runs out. The line's cursor has then
    /// moved. The text, its changes, the hint and the kept layout stay. What the screen shows is
    /// not specified: draw the line again.
    pub fn edit_move_home(&mut self) -> Result<()>
        ensures { let e = ⟦<Self as EditorState>⟧ in let line = (e.draft self.old).line in
            MovesTo e result self.old self.new MoveCursor (with_cursor line (start_of_line line)) }
    {
        self.follow(&Movement::BeginningOfLine, CmdKind::MoveCursor)
    }

    /// Moves the cursor to the end of its line. The screen cursor moves along.
    ///
    /// # Errors
    /// `Io` if the renderer fails, and `Memory` if memory runs out. The line's cursor has then
    /// moved. The text, its changes, the hint and the kept layout stay. What the screen shows is
    /// not specified: draw the line again.
    pub fn edit_move_end(&mut self) -> Result<()>
        ensures { let e = ⟦<Self as EditorState>⟧ in let line = (e.draft self.old).line in
            MovesTo e result self.old self.new MoveCursor (with_cursor line (end_of_line line)) }
    {
        self.follow(&Movement::EndOfLine, CmdKind::MoveCursor)
    }

    /// Moves the cursor to the start of the text. The screen cursor moves along.
    ///
    /// # Errors
    /// `Io` if the renderer fails, and `Memory` if memory runs out. The line's cursor has then
    /// moved. The text, its changes, the hint and the kept layout stay. What the screen shows is
    /// not specified: draw the line again.
    pub fn edit_move_buffer_start(&mut self) -> Result<()>
        ensures { let e = ⟦<Self as EditorState>⟧ in let line = (e.draft self.old).line in
            MovesTo e result self.old self.new MoveCursor (with_cursor line 0) }
    {
        self.follow(&Movement::BeginningOfBuffer, CmdKind::MoveCursor)
    }

    /// Moves the cursor to the end of the text. The screen cursor moves along; `kind` says why.
    ///
    /// # Errors
    /// `Io` if the renderer fails, and `Memory` if memory runs out. The line's cursor has then
    /// moved. The text, its changes, the hint and the kept layout stay. What the screen shows is
    /// not specified: draw the line again.
    pub fn edit_move_buffer_end(&mut self, kind: CmdKind) -> Result<()>
        ensures { let e = ⟦<Self as EditorState>⟧ in let line = (e.draft self.old).line in
            MovesTo e result self.old self.new kind (with_cursor line (length line.text)) }
    {
        self.follow(&Movement::EndOfBuffer, kind)
    }

    /// Moves the cursor back to the start of the `n`-th word before it. The screen cursor moves
    /// along.
    ///
    /// # Errors
    /// `Io` if the renderer fails, and `Memory` if memory runs out. The line's cursor has then
    /// moved. The text, its changes, the hint and the kept layout stay. What the screen shows is
    /// not specified: draw the line again.
    pub fn edit_move_to_prev_word(&mut self, word_def: Word, n: RepeatCount) -> Result<()>
        ensures { let e = ⟦<Self as EditorState>⟧ in let line = (e.draft self.old).line in
            MovesTo e result self.old self.new MoveCursor
            (moved_to line (word_back word_def line n)) }
    {
        self.follow(&Movement::BackwardWord(n, word_def), CmdKind::MoveCursor)
    }

    /// Moves the cursor on by `n` words: to the start of one, to before its end or to after it, as
    /// `at` says. The screen cursor moves along.
    ///
    /// # Errors
    /// `Io` if the renderer fails, and `Memory` if memory runs out. The line's cursor has then
    /// moved. The text, its changes, the hint and the kept layout stay. What the screen shows is
    /// not specified: draw the line again.
    pub fn edit_move_to_next_word(&mut self, at: At, word_def: Word, n: RepeatCount) -> Result<()>
        ensures { let e = ⟦<Self as EditorState>⟧ in let line = (e.draft self.old).line in
            MovesTo e result self.old self.new MoveCursor
            (moved_to line (word_on at word_def line n)) }
    {
        self.follow(&Movement::ForwardWord(n, at, word_def), CmdKind::MoveCursor)
    }

    /// Moves the cursor to the `n`-th place that the search leads to, or to the last where there
    /// are fewer. The screen cursor moves along.
    ///
    /// # Errors
    /// `Io` if the renderer fails, and `Memory` if memory runs out. The line's cursor has then
    /// moved. The text, its changes, the hint and the kept layout stay. What the screen shows is
    /// not specified: draw the line again.
    pub fn edit_move_to(&mut self, cs: CharSearch, n: RepeatCount) -> Result<()>
        ensures { let e = ⟦<Self as EditorState>⟧ in let line = (e.draft self.old).line in
            MovesTo e result self.old self.new MoveCursor (moved_to line (search_place cs line n)) }
    {
        self.follow(&Movement::ViCharSearch(n, cs), CmdKind::MoveCursor)
    }

    /// Moves the cursor `n` lines up, one for `n` = 0, to the column where it stands. The screen
    /// cursor moves along. Returns whether there is such a line: on the first line nothing moves
    /// and nothing is drawn.
    ///
    /// # Errors
    /// `Io` if the renderer fails, and `Memory` if memory runs out. The line's cursor has then
    /// moved. The text, its changes, the hint and the kept layout stay. What the screen shows is
    /// not specified: draw the line again.
    #[tactic(auto, using(crate::proofs::EditLemmas::moved_text, crate::proofs::MoveLemmas::first_placed))]
    pub fn edit_move_line_up(&mut self, n: RepeatCount) -> Result<bool>
        ensures answer { let e = ⟦<Self as EditorState>⟧ in IfOk result (λ found. found
            ≡ is_some (up_by (e.display self.old).layout (e.draft self.old).line n)) }
        ensures stays { IfOk result (λ found.
            found ≡ false → Undrawn ⟦<Self as EditorState>⟧ self.old self.new) }
        ensures moves { let e = ⟦<Self as EditorState>⟧ in let line = (e.draft self.old).line in
            MovesTo e result self.old self.new MoveCursor
            (moved_to line (up_by (e.display self.old).layout line n)) }
    {
        if !self.line.edited.move_to_line_up(n, self.view.layout()) {
            return Ok(false);
        }
        self.move_cursor(CmdKind::MoveCursor)?;
        Ok(true)
    }

    /// Moves the cursor `n` lines down, one for `n` = 0, to the column where it stands. The screen
    /// cursor moves along. Returns whether there is such a line: on the last line nothing moves and
    /// nothing is drawn.
    ///
    /// # Errors
    /// `Io` if the renderer fails, and `Memory` if memory runs out. The line's cursor has then
    /// moved. The text, its changes, the hint and the kept layout stay. What the screen shows is
    /// not specified: draw the line again.
    #[tactic(auto, using(crate::proofs::EditLemmas::moved_text, crate::proofs::MoveLemmas::first_placed))]
    pub fn edit_move_line_down(&mut self, n: RepeatCount) -> Result<bool>
        ensures answer { let e = ⟦<Self as EditorState>⟧ in IfOk result (λ found. found
            ≡ is_some (down_by (e.display self.old).layout (e.draft self.old).line n)) }
        ensures stays { IfOk result (λ found.
            found ≡ false → Undrawn ⟦<Self as EditorState>⟧ self.old self.new) }
        ensures moves { let e = ⟦<Self as EditorState>⟧ in let line = (e.draft self.old).line in
            MovesTo e result self.old self.new MoveCursor
            (moved_to line (down_by (e.display self.old).layout line n)) }
    {
        if !self.line.edited.move_to_line_down(n, self.view.layout()) {
            return Ok(false);
        }
        self.move_cursor(CmdKind::MoveCursor)?;
        Ok(true)
    }

    // Moves the cursor by a movement. To the first character of a line that is no white space it
    // takes two moves.
    pub(crate) fn move_by(&mut self, movement: &Movement) -> Result<()>
        ensures { let e = ⟦<Self as EditorState>⟧ in let d = e.draft self.old in
            let drawing = move_drawn d.line movement.now in
            DoesInTwo e (asked_by drawing) result self.old self.new
            (record d { line = on_way movement.now d.line })
            (record d { line = moved (e.display self.old).layout movement.now d.line })
            drawing 1 }
    {
        match movement {
            Movement::ViFirstPrint => {
                self.edit_move_home()?;
                if self.line.edited.begins_blank() {
                    self.edit_move_to_next_word(At::Start, Word::Big, 1)?;
                }
                Ok(())
            }
            _ => self.follow(movement, CmdKind::MoveCursor),
        }
    }

    // Moves the cursor to the bracket that matches the one at the cursor, if it has a match.
    #[tactic(auto, using(crate::proofs::EditLemmas::moved_text, crate::proofs::MoveLemmas::first_placed))]
    pub(crate) fn move_to_bracket(&mut self) -> Result<()>
        ensures { let e = ⟦<Self as EditorState>⟧ in let line = (e.draft self.old).line in
            MovesTo e result self.old self.new MoveCursor (moved_to line (bracket_place line)) }
    {
        if !self.line.edited.move_to_bracket() {
            return Ok(());
        }
        self.move_cursor(CmdKind::MoveCursor)?;
        Ok(())
    }

    // Moves the cursor `n` lines up, or from the first line to the line of the history before this
    // one.
    pub(crate) fn up_or_previous(&mut self, n: RepeatCount) -> Result<()>
        ensures { DoesCommand ⟦<Self as EditorState>⟧ result self.old self.new
            (commands.line_up_or_previous_history n) }
    {
        if self.edit_move_line_up(n)? {
            return Ok(());
        }
        self.edit_history_next(true)
    }

    // Moves the cursor `n` lines down, or from the last line to the line of the history after this
    // one.
    pub(crate) fn down_or_next(&mut self, n: RepeatCount) -> Result<()>
        ensures { DoesCommand ⟦<Self as EditorState>⟧ result self.old self.new
            (commands.line_down_or_next_history n) }
    {
        if self.edit_move_line_down(n)? {
            return Ok(());
        }
        self.edit_history_next(false)
    }

    // Moves the cursor by a movement, and the screen cursor with it.
    fn follow(&mut self, movement: &Movement, kind: CmdKind) -> Result<()>
        ensures { let e = ⟦<Self as EditorState>⟧ in
            MovesTo e result self.old self.new kind
            (moved (e.display self.old).layout movement.now (e.draft self.old).line) }
    {
        let from = self.line.edited.line().pos();
        if !self.line.edited.move_by(movement, self.view.layout()) {
            return Ok(());
        }
        let position = self
            .view
            .cursor_position_from(self.line.edited.line(), from);
        self.put_cursor(position, kind)
    }

    /// Moves the screen cursor to where what is shown ends, a hint or message after the line
    /// included.
    ///
    /// # Errors
    /// `Io` if the renderer fails, and `Memory` if memory runs out. The line, its changes, the hint
    /// and the kept layout then stay. Where the screen cursor stands is not specified: draw the
    /// line again.
    pub fn move_cursor_to_end(&mut self) -> Result<()>
        ensures moved { let d = ⟦<Self as EditorState>⟧.display in
            GoesToShownEnd result (d self.old) (d self.new) }
        ensures still { let e = ⟦<Self as EditorState>⟧ in IsAtEnd e self.old → IsOk result }
        ensures ends { let e = ⟦<Self as EditorState>⟧ in
            OnOk result (ShowsLine e self.old → HasShownEnd e self.new) }
        ensures paints { Paints ⟦<Self as EditorState>⟧ false result self.old self.new }
    {
        self.view.move_cursor_to_end()
    }
}
