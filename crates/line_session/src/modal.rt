//! What completions, lists and searches do to a line.
ghost use Rattle.std.specs.Prelude.{◌≡◌, ◌<◌, false, length, map, IfOk, OnOk};
ghost use Rattle.line_config.specs.Error.{FaultsOnly, MemoryOnly};
ghost use Rattle.line_editor.specs.Completing.{ComesIn, IsOffered, taken_back_once};
ghost use Rattle.line_editor.specs.Editor.{edited_of, with_edited};
ghost use Rattle.line_editor.specs.HistoryMoves.{entry_grows, entry_put, returned_to};
ghost use Rattle.line_keys.specs.Model.Display.{corner};
ghost use Rattle.line_keys.specs.Model.Drawing.{DrewNothing, Paints, Undrawn};
ghost use Rattle.line_parts.specs.Candidate.{BeginsIn, offer_of};
ghost use Rattle.line_parts.specs.History.{Finds, search_in};

use line_buffer::Position;
use line_config::{Prompt, Result};
use line_editor::edit::State;
use line_keys::editor_state::EditorState;
use line_keys::refresher::Refresher;
use line_parts::completion::Candidate;
use line_parts::history::{SearchDirection, SearchResult};
use line_parts::{Helper, History};
use line_screen::KeyQueue;
use line_state::Renderer;
use line_term::Ansi;
use std::alloc::Global;
use std::io::Write;

/// A line that is edited, as far as completions, lists and searches need it. A call that `State`
/// has too does what that one does, and has its errors.
pub(crate) trait Modal: Refresher {
    /// The type of the helper's candidates.
    type Candidate: Candidate + Drop;

    /// Returns where the part of the line that can be completed begins, and the candidates for it.
    fn completions(&self) -> Result<(usize, Vec<Self::Candidate>)>
        ensures start { let line = (Self.draft self.now).line in
            IfOk result (λ r. BeginsIn line.text line.cursor r.0) }
        ensures offered { IfOk result (λ r.
            IsOffered (Self.environment self.now) (Self.draft self.now)
            (record { start = r.0; offers = map (offer_of Self.Candidate.Candidate) r.1.items })) }
        ensures faults { FaultsOnly result };

    /// Puts the text of an elected candidate in. Returns whether the changes have grown by it.
    fn update_completion(&mut self, start: usize, elected: &str) -> Result<bool>
        ensures comes { let d = Self.draft in
            BeginsIn (d self.old).line.text (d self.old).line.cursor start → IfOk result (λ grown.
            ComesIn (Self.environment self.old).updated start elected.now grown
            (edited_of (d self.old)) (edited_of (d self.new))) }
        ensures unfit { let d = Self.draft in
            (BeginsIn (d self.old).line.text (d self.old).line.cursor start → ⊥)
            → IfOk result (λ grown. (grown ≡ false) × (d self.new ≡ d self.old)) }
        ensures stays { let d = Self.draft in
            d self.new ≡ with_edited (d self.old) (edited_of (d self.new)) }
        ensures undrawn { Undrawn Self.EditorState self.old self.new }
        ensures faults { FaultsOnly result };

    /// Takes the newest change back.
    fn take_back(&mut self) -> Result<()>
        ensures draft { OnOk result (Self.draft self.new ≡ taken_back_once (Self.draft self.old)) }
        ensures undrawn { Undrawn Self.EditorState self.old self.new }
        ensures memory { MemoryOnly result };

    /// Puts a line of the history in the line's place. Returns whether the changes have grown by
    /// it.
    fn put_entry(&mut self, pos: usize, index: usize) -> Result<bool>
        ensures draft { OnOk result (Self.draft self.new
            ≡ entry_put (Self.environment self.old) pos index (Self.draft self.old)) }
        ensures grown { IfOk result (λ grown.
            grown ≡ entry_grows (Self.environment self.old) index (Self.draft self.old)) }
        ensures undrawn { Undrawn Self.EditorState self.old self.new }
        ensures faults { FaultsOnly result };

    /// Puts the cursor at a byte, and says which line of the history the line is.
    fn return_to(&mut self, pos: usize, index: usize)
        ensures draft { Self.draft self.new
            ≡ returned_to (Self.environment self.old) pos index (Self.draft self.old) }
        ensures undrawn { Undrawn Self.EditorState self.old self.new };

    /// Returns which line of the history is edited.
    fn place(&self) -> usize
        ensures { result ≡ (Self.draft self.now).index };

    /// Returns the number of the history's lines.
    fn history_len(&self) -> usize
        ensures { result ≡ length (Self.environment self.now).lines };

    /// Searches the history.
    fn search_history(
        &self,
        term: &str,
        start: usize,
        direction: SearchDirection,
    ) -> Result<Option<SearchResult<'_>>>
        ensures answer { Finds result
            (search_in (Self.environment self.now).lines term.now start direction) }
        ensures faults { FaultsOnly result };

    /// Returns the allocator of the line's memory.
    fn allocator(&self) -> Global;

    /// Beeps.
    fn beep(&mut self) -> Result<()>
        ensures drew { DrewNothing Self.EditorState self.old self.new }
        ensures paints { Paints Self.EditorState false result self.old self.new };

    /// Writes a text by itself below what is shown.
    fn write_above(&mut self, text: &str) -> Result<()>
        ensures { Paints Self.EditorState false result self.old self.new };

    /// Takes the terminal's cursor to the first column, below what is there.
    fn move_cursor_at_leftmost(&mut self) -> Result<()>
        ensures { Paints Self.EditorState false result self.old self.new };

    /// Moves the screen cursor to where what is shown ends.
    fn move_cursor_to_end(&mut self) -> Result<()>
        ensures { Paints Self.EditorState false result self.old self.new };

    /// Returns whether the line was last drawn after its own prompt.
    fn is_default_prompt(&self) -> bool
        ensures { result ≡ (Self.display self.now).layout.default_prompt };

    /// Returns how many columns the screen has.
    fn columns(&self) -> usize
        ensures value { result ≡ (Self.display self.now).surface.columns }
        ensures positive { 0 < result };

    /// Returns how many rows the screen has.
    fn rows(&self) -> usize
        ensures { result ≡ (Self.display self.now).surface.rows };

    /// Returns where a text ends that begins at the screen's first position.
    fn end_of(&self, text: &str) -> Position
        ensures { result ≡ (Self.display self.now).surface.measure text.now corner };
}

/// The line of a session.
pub(crate) type Line<'out, 'prompt, O, H, P, S> = State<'out, 'prompt, Ansi<O, KeyQueue>, H, P, S>;

impl<'out, 'prompt, O: Write + Drop, H: Helper, P: Prompt, S: History> Modal
    for Line<'out, 'prompt, O, H, P, S> {
    type Candidate = H::Candidate;

    fn completions(&self) -> Result<(usize, Vec<H::Candidate>)> {
        self.completions()
    }

    fn update_completion(&mut self, start: usize, elected: &str) -> Result<bool> {
        self.update_completion(start, elected)
    }

    fn take_back(&mut self) -> Result<()> {
        self.take_back()
    }

    fn put_entry(&mut self, pos: usize, index: usize) -> Result<bool> {
        self.put_entry(pos, index)
    }

    fn return_to(&mut self, pos: usize, index: usize) {
        self.return_to(pos, index)
    }

    fn place(&self) -> usize {
        self.place()
    }

    fn history_len(&self) -> usize {
        self.history().len()
    }

    fn search_history(
        &self,
        term: &str,
        start: usize,
        direction: SearchDirection,
    ) -> Result<Option<SearchResult<'_>>> {
        self.history().search(term, start, direction)
    }

    fn allocator(&self) -> Global {
        self.allocator()
    }

    fn beep(&mut self) -> Result<()> {
        self.beep()
    }

    fn write_above(&mut self, text: &str) -> Result<()> {
        let mut no_keys = KeyQueue::new(self.allocator());
        self.write_above(text, &mut no_keys)
    }

    fn move_cursor_at_leftmost(&mut self) -> Result<()> {
        let mut no_keys = KeyQueue::new(self.allocator());
        self.move_cursor_at_leftmost(&mut no_keys)
    }

    fn move_cursor_to_end(&mut self) -> Result<()> {
        self.move_cursor_to_end()
    }

    fn is_default_prompt(&self) -> bool {
        self.is_default_prompt()
    }

    fn columns(&self) -> usize {
        self.out().get_columns().into()
    }

    fn rows(&self) -> usize {
        self.out().get_rows().into()
    }

    fn end_of(&self, text: &str) -> Position {
        self.out()
            .calculate_position(text, Position { row: 0, col: 0 })
    }
}
