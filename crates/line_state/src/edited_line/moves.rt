//! Moves of the cursor.
ghost use Rattle.std.specs.Prelude.{IsCharBoundary, ◌≡◌, false, length};
ghost use Rattle.line_buffer.specs.Cluster.{place_on, place_back};
ghost use Rattle.line_buffer.specs.Line.{after, with_cursor, start_of_line, end_of_line};
ghost use Rattle.line_buffer.specs.Lines.{down_by, up_by};
ghost use Rattle.line_buffer.specs.Search.{search_place};
ghost use Rattle.line_buffer.specs.Word.{word_back, word_on};
ghost use Rattle.line_parts.specs.History.{begins_blank};
ghost use Rattle.line_state.specs.Edited.{GoesTo, GoesToByte, KeepsFirst};
ghost use Rattle.line_state.specs.Moves.{moved, to_first_print};

use super::EditedLine;
use line_buffer::{At, CharSearch, Layout, Movement, RepeatCount, Word};

impl EditedLine {
    /// Moves the cursor `n` clusters back, or as many as there are. Returns whether it moved.
    pub fn move_backward(&mut self, n: RepeatCount) -> bool
        ensures { GoesTo result self.old self.new (place_back self.old.line n) }
    {
        self.line.move_backward(n)
    }

    /// Moves the cursor `n` clusters on, or as many as there are. Returns whether it moved.
    pub fn move_forward(&mut self, n: RepeatCount) -> bool
        ensures { GoesTo result self.old self.new (place_on self.old.line n) }
    {
        self.line.move_forward(n)
    }

    /// Puts the cursor at byte `pos`, a character boundary of the text.
    pub fn set_pos(&mut self, pos: usize)
        requires { IsCharBoundary self.old.line.text pos }
        ensures { self.new ≡ record self.old { line = with_cursor self.old.line pos } }
    {
        self.line.set_pos(pos);
    }

    /// Moves the cursor to the start of its line. Returns whether it moved.
    pub fn move_home(&mut self) -> bool
        ensures { GoesToByte result self.old self.new (start_of_line self.old.line) }
    {
        self.line.move_home()
    }

    /// Moves the cursor to the end of its line. Returns whether it moved.
    pub fn move_end(&mut self) -> bool
        ensures { GoesToByte result self.old self.new (end_of_line self.old.line) }
    {
        self.line.move_end()
    }

    /// Moves the cursor to the start of the text. Returns whether it moved.
    pub fn move_buffer_start(&mut self) -> bool
        ensures { GoesToByte result self.old self.new 0 }
    {
        self.line.move_buffer_start()
    }

    /// Moves the cursor to the end of the text. Returns whether it moved.
    pub fn move_buffer_end(&mut self) -> bool
        ensures { GoesToByte result self.old self.new (length self.old.line.text) }
    {
        self.line.move_buffer_end()
    }

    /// Moves the cursor back to the start of the `n`-th word before it. Returns whether there is
    /// such a place.
    pub fn move_to_prev_word(&mut self, word: Word, n: RepeatCount) -> bool
        ensures { GoesTo result self.old self.new (word_back word self.old.line n) }
    {
        self.line.move_to_prev_word(word, n)
    }

    /// Moves the cursor on by `n` words: to the start of one, to before its end or to after it.
    /// Returns whether there is such a place.
    pub fn move_to_next_word(&mut self, at: At, word: Word, n: RepeatCount) -> bool
        ensures { GoesTo result self.old self.new (word_on at word self.old.line n) }
    {
        self.line.move_to_next_word(at, word, n)
    }

    /// Moves the cursor to the `n`-th place that the search leads to, or to the last where there
    /// are fewer. Returns whether there is such a place.
    pub fn move_to(&mut self, search: CharSearch, n: RepeatCount) -> bool
        ensures { GoesTo result self.old self.new (search_place search self.old.line n) }
    {
        self.line.move_to(search, n)
    }

    /// Moves the cursor to its column in the line `n` above, one for `n` = 0, or in the first.
    /// Returns false on the first line. Columns are counted as the layout has them, with the prompt
    /// before the first line.
    pub fn move_to_line_up(&mut self, n: RepeatCount, layout: &Layout) -> bool
        ensures { GoesTo result self.old self.new (up_by layout.now self.old.line n) }
    {
        self.line.move_to_line_up(n, layout)
    }

    /// Moves the cursor to its column in the line `n` below, one for `n` = 0, or in the last.
    /// Returns false on the last line. Columns are counted as the layout has them, with the prompt
    /// before the first line.
    pub fn move_to_line_down(&mut self, n: RepeatCount, layout: &Layout) -> bool
        ensures { GoesTo result self.old self.new (down_by layout.now self.old.line n) }
    {
        self.line.move_to_line_down(n, layout)
    }

    #[tactic(auto, using(crate::proofs::EditedLemmas::first_by_text))]
    /// Moves the cursor by a movement, with columns measured by `layout`. Returns false only where
    /// the cursor stayed.
    pub fn move_by(&mut self, movement: &Movement, layout: &Layout) -> bool
        ensures line { self.new
            ≡ record self.old { line = moved layout.now movement.now self.old.line } }
        ensures stayed { result ≡ false → self.new ≡ self.old }
        ensures text { self.new.line.text ≡ self.old.line.text }
        ensures first { KeepsFirst self.old self.new }
    {
        match movement {
            Movement::BeginningOfLine => self.move_home(),
            Movement::EndOfLine => self.move_end(),
            Movement::BackwardWord(n, word) => self.move_to_prev_word(*word, *n),
            Movement::ForwardWord(n, at, word) => self.move_to_next_word(*at, *word, *n),
            Movement::ViCharSearch(n, search) => self.move_to(*search, *n),
            Movement::ViFirstPrint => self.move_to_first_print(),
            Movement::BackwardChar(n) => self.move_backward(*n),
            Movement::ForwardChar(n) => self.move_forward(*n),
            Movement::LineUp(n) => self.move_to_line_up(*n, layout),
            Movement::LineDown(n) => self.move_to_line_down(*n, layout),
            Movement::BeginningOfBuffer => self.move_buffer_start(),
            Movement::EndOfBuffer => self.move_buffer_end(),
            Movement::WholeLine | Movement::WholeBuffer => false,
        }
    }

    // Moves the cursor to the first character of its line, or from white space there on to the next
    // word.
    fn move_to_first_print(&mut self) -> bool
        ensures line { self.new ≡ record self.old {
          line = to_first_print (with_cursor self.old.line (start_of_line self.old.line));
        } }
        ensures stayed { result ≡ false → self.new ≡ self.old }
    {
        let home = self.move_home();
        if !self.begins_blank() {
            return home;
        }
        self.move_to_next_word(At::Start, Word::Big, 1) || home
    }

    /// Returns whether white space stands at the cursor.
    pub fn begins_blank(&self) -> bool
        ensures { result ≡ begins_blank (after self.now.line) }
    {
        match self.line.as_str()[self.line.pos()..].chars().next() {
            Some(first) => first.is_whitespace(),
            None => false,
        }
    }
}
