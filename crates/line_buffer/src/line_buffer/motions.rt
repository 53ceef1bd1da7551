//! Movements of the cursor by words and to characters.
ghost use Rattle.line_buffer.specs.Line.{MovesCursor};
ghost use Rattle.line_buffer.specs.Offset.{IsOffset, IsOffsetBack, IsOffsetIfAny, IsOffsetOn, IsRangeIfAny};
ghost use Rattle.std.specs.Prelude.{◌≡◌, ◌≤◌, ◌<◌, ◌^◌, is_some, IfSome, IsCharBoundary};
ghost use Rattle.line_buffer.specs.Line.{moved_to};
ghost use Rattle.line_buffer.specs.Range.{searched};
ghost use Rattle.line_buffer.specs.Search.{behind_char, char_before, found_back, found_on, search_place};
ghost use Rattle.line_buffer.specs.Word.{word_back, word_on};

use super::LineBuffer;
use crate::char_search::{nth_char, nth_char_back};
use crate::clusters::first_len;
use crate::movement::{At, CharSearch, RepeatCount, Word};
use crate::word_edges::{nth_start_back, on_by_words};

impl LineBuffer {
    /// Returns the place of a movement on by `n` words.
    pub(super) fn next_word_pos(&self, at: At, word: Word, n: RepeatCount) -> Option<usize>
        ensures { IsOffsetOn result self.now (word_on at word self.now n) }
    {
        if n == 0 || self.pos == self.buf.len() {
            return None;
        }
        match on_by_words(self.after(), at, word, n) {
            Some(bytes) => Some(self.pos + bytes),
            None => None,
        }
    }

    /// Returns the place of a movement back by `n` words.
    pub(super) fn prev_word_pos(&self, word: Word, n: RepeatCount) -> Option<usize>
        ensures { IsOffsetBack result self.now (word_back word self.now n) }
    {
        if n == 0 || self.pos == 0 {
            return None;
        }
        Some(nth_start_back(self.before(), word, n))
    }

    /// Moves the cursor on by `n` words, to the start of one, to before its end or to after it.
    /// Returns whether there is such a place; if not, the cursor stays.
    pub fn move_to_next_word(&mut self, at: At, word: Word, n: RepeatCount) -> bool
        ensures { MovesCursor result self.old self.new (word_on at word self.old n) }
    {
        self.move_to_place(self.next_word_pos(at, word, n))
    }

    /// Moves the cursor back to the start of the `n`-th word before it. Returns whether there is
    /// such a place; if not, the cursor stays.
    pub fn move_to_prev_word(&mut self, word: Word, n: RepeatCount) -> bool
        ensures { MovesCursor result self.old self.new (word_back word self.old n) }
    {
        self.move_to_place(self.prev_word_pos(word, n))
    }

    /// Moves the cursor to the `n`-th place that the search leads to, or to the last where there
    /// are fewer. A search forward begins after the cluster at the cursor. Returns whether there
    /// is such a place; if not, and for `n` = 0, the cursor stays.
    pub fn move_to(&mut self, search: CharSearch, n: RepeatCount) -> bool
        ensures { MovesCursor result self.old self.new (search_place search self.old n) }
    {
        self.move_to_place(self.search_pos(search, n))
    }

    /// Returns the place that the search leads to.
    fn search_pos(&self, search: CharSearch, n: RepeatCount) -> Option<usize>
        ensures { IsOffsetIfAny result self.now.text (search_place search self.now n) }
    {
        match search {
            CharSearch::Forward(c) => self.next_char_pos(c, n),
            CharSearch::ForwardBefore(c) => match self.next_char_pos(c, n) {
                Some(place) => Some(self.char_before(place)),
                None => None,
            },
            CharSearch::Backward(c) => self.prev_char_pos(c, n),
            CharSearch::BackwardAfter(c) => match self.prev_char_pos(c, n) {
                Some(place) => Some(place + c.len_utf8()),
                None => None,
            },
        }
    }

    /// Returns the range of the search.
    pub(super) fn searched(&self, search: CharSearch, n: RepeatCount) -> Option<(usize, usize)>
        ensures { IsRangeIfAny result self.now (searched self.now search n) }
    {
        match search {
            CharSearch::Forward(c) => match self.next_char_pos(c, n) {
                Some(place) => self.from_cursor(Some(place + c.len_utf8())),
                None => None,
            },
            CharSearch::ForwardBefore(c) => self.from_cursor(self.next_char_pos(c, n)),
            CharSearch::Backward(c) => self.up_to_cursor(self.prev_char_pos(c, n)),
            CharSearch::BackwardAfter(c) => match self.prev_char_pos(c, n) {
                Some(place) => self.up_to_cursor(Some(place + c.len_utf8())),
                None => None,
            },
        }
    }

    /// Returns the place of the `n`-th `c` after the cluster at the cursor.
    fn next_char_pos(&self, c: char, n: RepeatCount) -> Option<usize>
        ensures place { result ≡ found_on c self.now n }
        ensures on { IfSome result (λ place. self.now.cursor ≤ place) }
        ensures fits { IfSome result (λ place. behind_char c place < 2 ^ 64) }
        ensures boundary { IfSome result (λ place. IsCharBoundary self.now.text place) }
        ensures behind { IfSome result (λ p. IsCharBoundary self.now.text (behind_char c p)) }
    {
        let start = self.pos + first_len(self.after(), 1);
        match nth_char(self.text_from(start), c, n) {
            Some(bytes) => Some(start + bytes),
            None => None,
        }
    }

    /// Returns the place of the `n`-th `c` before the cursor, counted back.
    fn prev_char_pos(&self, c: char, n: RepeatCount) -> Option<usize>
        ensures place { result ≡ found_back c self.now n }
        ensures back { IfSome result (λ place. behind_char c place ≤ self.now.cursor) }
        ensures fits { IfSome result (λ place. behind_char c place < 2 ^ 64) }
        ensures boundary { IfSome result (λ place. IsCharBoundary self.now.text place) }
        ensures behind { IfSome result (λ p. IsCharBoundary self.now.text (behind_char c p)) }
    {
        nth_char_back(self.before(), c, n)
    }

    /// Returns where the character before a place begins.
    fn char_before(&self, place: usize) -> usize
        requires { IsCharBoundary self.now.text place }
        ensures { IsOffset result self.now.text (char_before self.now.text place) }
    {
        self.buf
            .as_str()
            .floor_char_boundary(place.saturating_sub(1))
    }
}
