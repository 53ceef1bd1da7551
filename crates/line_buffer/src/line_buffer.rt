ghost use Rattle.line_buffer.specs.Offset.{IsOffset, IsOffsetBack, IsOffsetOn};
ghost use Rattle.std.specs.Prelude.{◌≡◌, ◌^◌, ◌<◌, ◌≤◌, [], ◌==◌, length, take, drop, not, is_some, IfOk, IfSome, IsCharBoundary, string_bytes};
ghost use Rattle.std.specs.List.{list_all};
ghost use Rattle.line_buffer.specs.Cluster.{place_on, place_back};
ghost use Rattle.line_buffer.specs.Printable.{is_plain};
ghost use Rattle.line_buffer.specs.Line.{is_at_end, MovesCursor, PutsCursor, before, after, with_cursor, moved_to, start_of_line, end_of_line, ends_in_white_space};

mod edits;
mod indents;
mod kills;
mod lines;
mod motions;
mod transposes;

use crate::clusters::{first_len, first_line_len, last_line_start, last_start};
use crate::movement::RepeatCount;
use crate::printable::is_plain_text;
use std::alloc::{AllocError, AllocFailed, Global};
use std::error::Error;
use std::fmt::{self, Debug, Display, Formatter};
use std::marker::Model;

/// What is done to the letters of a word. Only ASCII letters change case.
#[derive(Debug, Clone, Copy, PartialEq, Eq)]
pub enum WordAction {
    /// The first cluster to upper case, the rest to lower case.
    Capitalize,
    /// All to lower case.
    Lowercase,
    /// All to upper case.
    Uppercase,
}

/// On which side of the cursor a text lay that was taken away.
#[derive(Debug, Clone, Copy, PartialEq, Eq)]
pub enum Direction {
    /// After the cursor.
    Forward,
    /// Before the cursor.
    Backward,
}

/// An allocation failed.
#[derive(Debug, Clone, Copy, PartialEq, Eq)]
pub struct OutOfMemory;

impl Display for OutOfMemory {
    fn fmt<W: fmt::Write>(&self, f: &mut Formatter<W>) -> fmt::Result {
        f.write_str("out of memory")
    }
}

impl Error for OutOfMemory {}

impl From<AllocError> for OutOfMemory {
    ghost from_gives = { λ _ e. e ≡ record {} };

    fn from(_error: AllocError) -> OutOfMemory {
        OutOfMemory
    }
}

impl<T: Drop> From<AllocFailed<T>> for OutOfMemory {
    ghost from_gives = { λ _ e. e ≡ record {} };

    fn from(_error: AllocFailed<T>) -> OutOfMemory {
        OutOfMemory
    }
}

/// A text with a cursor, which stands on a character boundary. Places are counted in bytes.
pub struct LineBuffer {
    buf: String,
    pos: usize,
    plain: bool,
    ghost plain_is: { plain ≡ list_all is_plain (string_bytes buf) },
}

impl Drop for LineBuffer {
    fn drop(self) {
        let LineBuffer {
            buf: _,
            pos: _,
            plain: _,
        } = self;
    }
}

impl Model for LineBuffer {
    ghost use Rattle.std.specs.Prelude.{IsCharBoundary};
    ghost use Rattle.std.specs.String.{string_bytes};
    ghost use Rattle.line_buffer.specs.Line.{Line};

    ghost Value = { Line };

    ghost view = { λ l. record { text = string_bytes l.buf; cursor = l.pos } };

    ghost invariant = { λ l. IsCharBoundary (string_bytes l.buf) l.pos };
}

impl Debug for LineBuffer {
    fn fmt<W: fmt::Write>(&self, f: &mut Formatter<W>) -> fmt::Result {
        f.debug_struct("LineBuffer")
            .field("buf", &self.buf)
            .field("pos", &self.pos)
            .finish()
    }
}

impl LineBuffer {
    /// Returns an empty line. It grows from `alloc`.
    pub fn new(alloc: Global) -> LineBuffer
        ensures { result ≡ record { text = []; cursor = 0 } }
    {
        LineBuffer {
            buf: String::new(alloc),
            pos: 0,
            plain: true,
        }
    }

    /// Returns the line `text` with its cursor at byte `pos`, a character boundary. It grows from
    /// `alloc`.
    ///
    /// # Errors
    ///
    /// `OutOfMemory` if memory runs out.
    pub fn init(alloc: Global, text: &str, pos: usize) -> Result<LineBuffer, OutOfMemory>
        requires { IsCharBoundary text.now pos }
        ensures { IfOk result (λ l. l ≡ record { text = text.now; cursor = pos }) }
    {
        Ok(LineBuffer {
            buf: String::from_str(alloc, text)?,
            pos,
            plain: is_plain_text(text),
        })
    }

    /// Returns the whole text.
    pub fn as_str(&self) -> &str
        ensures value { result.now ≡ self.now.text }
        ensures start { IsCharBoundary self.now.text 0 }
        ensures cursor { IsCharBoundary self.now.text self.now.cursor }
    {
        self.buf.as_str()
    }

    /// Returns the cursor's place in bytes from the start of the text.
    pub fn pos(&self) -> usize
        ensures value { result ≡ self.now.cursor }
        ensures boundary { IsCharBoundary self.now.text result }
    {
        self.pos
    }

    /// Does nothing. Its contract gives a proof that the cursor is on a boundary of the text.
    pub(crate) fn cursor_is_on_boundary(&self)
        ensures { IsCharBoundary self.now.text self.now.cursor }
    {
        let _ = &self.pos;
    }

    /// Does nothing. Its contract gives a proof that the length of the text fits a `usize`.
    pub(crate) fn len_fits(&self)
        ensures { length self.now.text < 2 ^ 64 }
    {
        let _ = &self.buf;
    }

    /// Returns the length of the text in bytes.
    pub fn len(&self) -> usize
        ensures value { result ≡ length self.now.text }
        ensures cursor { IsCharBoundary self.now.text self.now.cursor }
    {
        self.buf.len()
    }

    /// Returns whether the text has no character.
    pub fn is_empty(&self) -> bool
        ensures value { result ≡ (length self.now.text == 0) }
        ensures cursor { IsCharBoundary self.now.text self.now.cursor }
    {
        self.buf.is_empty()
    }

    /// Puts the cursor at byte `pos`, a character boundary of the text.
    pub fn set_pos(&mut self, pos: usize)
        requires { IsCharBoundary self.old.text pos }
        ensures line { self.new ≡ with_cursor self.old pos }
    {
        self.pos = pos;
    }

    /// Returns whether nothing stands from the cursor on.
    pub fn is_cursor_at_end(&self) -> bool
        ensures { result ≡ is_at_end self.now }
    {
        self.pos == self.buf.len()
    }

    /// Returns whether the text is printable ASCII and newlines alone.
    pub fn is_plain(&self) -> bool
        ensures { result ≡ list_all is_plain self.now.text }
    {
        self.plain
    }

    /// Returns whether only white space stands from the cursor on.
    pub fn is_end_of_input(&self) -> bool
        ensures { result ≡ ends_in_white_space self.now }
    {
        self.after().chars().all(|c| c.is_whitespace())
    }

    /// Returns the text before the cursor.
    fn before(&self) -> &str
        ensures text { result.now ≡ before self.now }
        ensures len { length result.now ≡ self.now.cursor }
        ensures cursor { IsCharBoundary self.now.text self.now.cursor }
    {
        &self.buf.as_str()[..self.pos]
    }

    /// Returns the text from the cursor on.
    fn after(&self) -> &str
        ensures { result.now ≡ after self.now }
    {
        &self.buf.as_str()[self.pos..]
    }

    /// Returns the text before a boundary.
    fn text_to(&self, place: usize) -> &str
        requires { IsCharBoundary self.now.text place }
        ensures { result.now ≡ take place self.now.text }
    {
        &self.buf.as_str()[..place]
    }

    /// Returns the text from a boundary on.
    fn text_from(&self, place: usize) -> &str
        requires { IsCharBoundary self.now.text place }
        ensures { result.now ≡ drop place self.now.text }
    {
        &self.buf.as_str()[place..]
    }

    /// Returns the place `n` clusters on from the cursor, or the text's end where there are fewer.
    /// `None` for `n` = 0 and at the text's end.
    pub fn next_pos(&self, n: RepeatCount) -> Option<usize>
        ensures { IsOffsetOn result self.now (place_on self.now n) }
    {
        if n == 0 || self.pos == self.buf.len() {
            return None;
        }
        Some(self.pos + first_len(self.after(), n))
    }

    /// Returns the place `n` clusters back from the cursor, or the text's start where there are
    /// fewer. `None` for `n` = 0 and at the text's start.
    pub fn prev_pos(&self, n: RepeatCount) -> Option<usize>
        ensures { IsOffsetBack result self.now (place_back self.now n) }
    {
        if n == 0 || self.pos == 0 {
            return None;
        }
        Some(last_start(self.before(), n))
    }

    /// Moves the cursor `n` clusters on. Returns whether there is such a place; if not, the cursor
    /// stays.
    pub fn move_forward(&mut self, n: RepeatCount) -> bool
        ensures { MovesCursor result self.old self.new (place_on self.old n) }
    {
        self.move_to_place(self.next_pos(n))
    }

    /// Moves the cursor `n` clusters back. Returns whether there is such a place; if not, the
    /// cursor stays.
    pub fn move_backward(&mut self, n: RepeatCount) -> bool
        ensures { MovesCursor result self.old self.new (place_back self.old n) }
    {
        self.move_to_place(self.prev_pos(n))
    }

    /// Moves the cursor to the place, if there is one.
    fn move_to_place(&mut self, place: Option<usize>) -> bool
        requires { IfSome place (λ p. IsCharBoundary self.old.text p) }
        ensures { MovesCursor result self.old self.new place }
    {
        match place {
            Some(there) => {
                self.pos = there;
                true
            }
            None => false,
        }
    }

    /// Returns the start of the cursor's line.
    fn start_of_line(&self) -> usize
        ensures { IsOffset result self.now.text (start_of_line self.now) }
    {
        last_line_start(self.before())
    }

    /// Returns the end of the cursor's line, before its newline.
    fn end_of_line(&self) -> usize
        ensures { IsOffset result self.now.text (end_of_line self.now) }
    {
        self.pos + first_line_len(self.after())
    }

    /// Moves the cursor to the start of its line. Returns whether it moved.
    pub fn move_home(&mut self) -> bool
        ensures { PutsCursor result self.old self.new (start_of_line self.old) }
    {
        self.move_cursor(self.start_of_line())
    }

    /// Moves the cursor to the end of its line, before the newline. Returns whether it moved.
    pub fn move_end(&mut self) -> bool
        ensures { PutsCursor result self.old self.new (end_of_line self.old) }
    {
        self.move_cursor(self.end_of_line())
    }

    /// Moves the cursor to the text's start. Returns whether it moved.
    pub fn move_buffer_start(&mut self) -> bool
        ensures { PutsCursor result self.old self.new 0 }
    {
        let moved = self.pos != 0;
        self.pos = 0;
        moved
    }

    /// Moves the cursor to the text's end. Returns whether it moved.
    pub fn move_buffer_end(&mut self) -> bool
        ensures { PutsCursor result self.old self.new (length self.old.text) }
    {
        let end = self.buf.len();
        self.move_cursor(end)
    }

    /// Moves the cursor to byte `to`, and returns whether it stood elsewhere.
    fn move_cursor(&mut self, to: usize) -> bool
        requires { IsCharBoundary self.old.text to }
        ensures { PutsCursor result self.old self.new to }
    {
        let moved = self.pos != to;
        self.pos = to;
        moved
    }
}
