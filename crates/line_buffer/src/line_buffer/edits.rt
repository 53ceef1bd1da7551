//! Calls that put text into the line.
ghost use Rattle.line_buffer.specs.Offset.{IsSpan};
ghost use Rattle.std.specs.Prelude.{◌≡◌, ◌≢◌, ◌≤◌, ◌==◌, ◌&&◌, ◌||◌, not, length, encode_utf8, slice_range, string_bytes, IfOk, OnOk, OnErr, IsCharBoundary};
ghost use Rattle.std.specs.List.{list_all, repeat};
ghost use Rattle.line_buffer.specs.Printable.{is_plain};
ghost use Rattle.line_buffer.specs.Changes.{with_insert, with_replaced, with_typed, with_update};
ghost use Rattle.line_buffer.specs.Edit.{Edits, EditsIfOk, on_entries};
ghost use Rattle.line_buffer.specs.Undo.{KeepsFront};
ghost use Rattle.line_buffer.specs.Yank.{with_yank, with_yank_pop, line_yank_popped, yank_pops, line_yanked, yanks};
ghost use Rattle.line_buffer.specs.Line.{is_at_end, inserted_at, inserted_at_cursor, replaced_in};

use super::{LineBuffer, OutOfMemory};
use crate::movement::RepeatCount;
use crate::printable::is_plain_text;
use crate::undo::Changeset;
use std::alloc::Global;
use std::ops::Range;

impl LineBuffer {
    /// Inserts `n` copies of the character at the cursor, which then stands after them, and returns
    /// whether it was at the text's end.
    ///
    /// # Errors
    ///
    /// `OutOfMemory` if memory runs out. The list of changes is then empty, with no open group, and
    /// the line may be any text with its cursor on a boundary.
    pub fn insert(
        &mut self,
        c: char,
        n: RepeatCount,
        changes: &mut Changeset,
    ) -> Result<bool, OutOfMemory>
        ensures answer { IfOk result (λ at_end. at_end ≡ is_at_end self.old) }
        ensures edit { Edits result self.old self.new changes.old changes.new
            (inserted_at_cursor self.old (repeat n (encode_utf8 c)))
            (on_entries (with_typed self.old.cursor c n)) }
    {
        let outcome = if n == 1 {
            self.insert_one(c, changes)
        } else {
            self.insert_copies(c, n, changes)
        };
        changes.settled(outcome)
    }

    fn insert_one(&mut self, c: char, changes: &mut Changeset) -> Result<bool, OutOfMemory>
        ensures answer { IfOk result (λ at_end. at_end ≡ is_at_end self.old) }
        ensures edit { EditsIfOk result self.old self.new changes.old changes.new
            (inserted_at_cursor self.old (encode_utf8 c))
            (on_entries (with_typed self.old.cursor c 1)) }
    {
        let place = self.pos;
        changes.insert_char(place, c)?;
        let at_end = self.insert_char(c)?;
        Ok(at_end)
    }

    /// Inserts the character at the cursor, which then stands after it, and returns whether it was
    /// at the text's end.
    fn insert_char(&mut self, c: char) -> Result<bool, OutOfMemory>
        ensures answer { IfOk result (λ at_end. at_end ≡ is_at_end self.old) }
        ensures line { OnOk result (self.new ≡ inserted_at_cursor self.old (encode_utf8 c)) }
        ensures err { OnErr result (self.new ≡ self.old) }
        ensures front { OnOk result (KeepsFront self.old.text self.new.text self.old.cursor) }
        ensures cursor { IsCharBoundary self.new.text self.new.cursor }
    {
        if self.pos == self.buf.len() {
            self.push_char(c)?;
            return Ok(true);
        }
        let mut bytes = [0; 4];
        self.insert_text(c.encode_utf8(&mut bytes))
    }

    /// Appends the character to the text, at whose end the cursor is. The cursor then stands after
    /// it.
    fn push_char(&mut self, c: char) -> Result<(), OutOfMemory>
        requires { self.old.cursor ≡ length self.old.text }
        ensures line { OnOk result (self.new ≡ inserted_at_cursor self.old (encode_utf8 c)) }
        ensures err { OnErr result (self.new ≡ self.old) }
        ensures front { OnOk result (KeepsFront self.old.text self.new.text self.old.cursor) }
        ensures cursor { IsCharBoundary self.new.text self.new.cursor }
    {
        self.buf.push(c)?;
        self.plain &= is_plain_text(c.encode_utf8(&mut [0; 4]));
        self.pos = self.buf.len();
        Ok(())
    }

    fn insert_copies(
        &mut self,
        c: char,
        n: RepeatCount,
        changes: &mut Changeset,
    ) -> Result<bool, OutOfMemory>
        requires { n ≢ 1 }
        ensures answer { IfOk result (λ at_end. at_end ≡ is_at_end self.old) }
        ensures edit { EditsIfOk result self.old self.new changes.old changes.new
            (inserted_at_cursor self.old (repeat n (encode_utf8 c)))
            (on_entries (with_typed self.old.cursor c n)) }
    {
        let mut bytes = [0; 4];
        let text = repeated(*self.buf.allocator(), c.encode_utf8(&mut bytes), n)?;
        self.insert_told(text.as_str(), changes)
    }

    /// Inserts the text at byte `place`, a boundary at the cursor or after it. The cursor stays.
    ///
    /// # Errors
    ///
    /// `OutOfMemory` if memory runs out. The list of changes is then empty, with no open group, and
    /// the line may be any text with its cursor on a boundary.
    pub fn insert_str(
        &mut self,
        place: usize,
        text: &str,
        changes: &mut Changeset,
    ) -> Result<(), OutOfMemory>
        requires boundary { IsCharBoundary self.old.text place }
        requires behind { self.old.cursor ≤ place }
        ensures { Edits result self.old self.new changes.old changes.new
            (inserted_at self.old place text.now)
            (on_entries (with_insert place text.now)) }
    {
        self.cursor_is_on_boundary();
        let recorded = changes.insert_str(place, text);
        changes.settled(recorded)?;
        changes.settled(self.buf.insert_str(place, text))?;
        self.plain &= is_plain_text(text);
        Ok(())
    }

    /// Inserts `n` copies of the text at the cursor, which then stands after them. Returns whether
    /// it was at the text's end, or `None` for an empty text.
    ///
    /// # Errors
    ///
    /// `OutOfMemory` if memory runs out. The list of changes is then empty, with no open group, and
    /// the line may be any text with its cursor on a boundary.
    pub fn yank(
        &mut self,
        text: &str,
        n: RepeatCount,
        changes: &mut Changeset,
    ) -> Result<Option<bool>, OutOfMemory>
        ensures answer { IfOk result (λ at_end. at_end ≡ yanks self.old text.now) }
        ensures edit { Edits result self.old self.new changes.old changes.new
            (line_yanked self.old text.now n)
            (on_entries (with_yank self.old.cursor text.now n)) }
    {
        self.cursor_is_on_boundary();
        if text.is_empty() {
            return Ok(None);
        }
        let outcome = if n == 1 {
            self.insert_told(text, changes)
        } else {
            self.insert_repeated(text, n, changes)
        };
        Ok(Some(changes.settled(outcome)?))
    }

    fn insert_repeated(
        &mut self,
        text: &str,
        n: RepeatCount,
        changes: &mut Changeset,
    ) -> Result<bool, OutOfMemory>
        ensures answer { IfOk result (λ at_end. at_end ≡ is_at_end self.old) }
        ensures edit { EditsIfOk result self.old self.new changes.old changes.new
            (inserted_at_cursor self.old (repeat n text.now))
            (on_entries (with_insert self.old.cursor (repeat n text.now))) }
    {
        let copies = repeated(*self.buf.allocator(), text, n)?;
        self.insert_told(copies.as_str(), changes)
    }

    /// Takes `size` bytes before the cursor away and inserts the text in their place, with the
    /// cursor after it. Returns whether the cursor was then at the text's end; `None` for an empty
    /// text, and where `size` bytes pass the text's start or cut a character: then nothing changes.
    ///
    /// # Errors
    ///
    /// `OutOfMemory` if memory runs out. The list of changes is then empty, with no open group, and
    /// the line may be any text with its cursor on a boundary.
    pub fn yank_pop(
        &mut self,
        size: usize,
        text: &str,
        changes: &mut Changeset,
    ) -> Result<Option<bool>, OutOfMemory>
        ensures answer { IfOk result (λ at_end. at_end ≡ yank_pops self.old size text.now) }
        ensures edit { Edits result self.old self.new changes.old changes.new
            (line_yank_popped self.old size text.now)
            (on_entries (with_yank_pop self.old size text.now)) }
    {
        let end = self.pos;
        if size > end || !self.buf.is_char_boundary(end - size) {
            return Ok(None);
        }
        let deleted = self.delete_range(end - size, end, changes);
        changes.settled(deleted)?;
        self.yank(text, 1, changes)
    }

    /// Puts a text in place of the whole line, and the cursor at byte `pos` of it.
    ///
    /// # Errors
    ///
    /// `OutOfMemory` if memory runs out. The list of changes is then empty, with no open group, and
    /// the line may be any text with its cursor on a boundary.
    pub fn update(
        &mut self,
        text: &str,
        pos: usize,
        changes: &mut Changeset,
    ) -> Result<(), OutOfMemory>
        requires { IsCharBoundary text.now pos }
        ensures { Edits result self.old self.new changes.old changes.new
            (record { text = text.now; cursor = pos })
            (on_entries (with_update self.old.text text.now)) }
    {
        let new = changes.settled(String::from_str(*self.buf.allocator(), text))?;
        let old = std::mem::replace(&mut self.buf, new);
        self.plain = is_plain_text(text);
        self.pos = pos;
        let recorded = changes.replace_all(old, text);
        changes.settled(recorded)
    }

    /// Puts a text in place of a range of bytes, and the cursor after it. The range begins and ends
    /// on boundaries.
    ///
    /// # Errors
    ///
    /// `OutOfMemory` if memory runs out. The list of changes is then empty, with no open group, and
    /// the line may be any text with its cursor on a boundary.
    pub fn replace(
        &mut self,
        range: Range<usize>,
        text: &str,
        changes: &mut Changeset,
    ) -> Result<(), OutOfMemory>
        requires { IsSpan self.old.text range.start range.end }
        ensures { Edits result self.old self.new changes.old changes.new
            (replaced_in self.old range.start range.end text.now)
            (on_entries (with_replaced self.old.text range.start range.end text.now)) }
    {
        let outcome = self.try_replace(range.start, range.end, text, changes);
        changes.settled(outcome)
    }

    pub(super) fn try_replace(
        &mut self,
        from: usize,
        to: usize,
        text: &str,
        changes: &mut Changeset,
    ) -> Result<(), OutOfMemory>
        requires { IsSpan self.old.text from to }
        ensures { EditsIfOk result self.old self.new changes.old changes.new
            (replaced_in self.old from to text.now)
            (on_entries (with_replaced self.old.text from to text.now)) }
    {
        changes.replace(from, &self.buf.as_str()[from..to], text)?;
        self.put(from, to, text)?;
        Ok(())
    }

    /// Puts a text in place of a range, and the cursor after it, without recording it.
    pub(crate) fn put(&mut self, from: usize, to: usize, text: &str) -> Result<(), OutOfMemory>
        requires { IsSpan self.old.text from to }
        ensures line { OnOk result (self.new ≡ replaced_in self.old from to text.now) }
        ensures front { OnOk result (KeepsFront self.old.text self.new.text from) }
        ensures cursor { IsCharBoundary self.new.text self.new.cursor }
    {
        let went_plain = is_plain_text(&self.buf.as_str()[from..to]);
        self.buf.replace_range(from..to, text)?;
        self.plain = is_plain_after(self.plain, went_plain, text, self.buf.as_str());
        self.pos = from + text.len();
        Ok(())
    }

    /// Inserts the text at the cursor, which then stands after it, records it, and returns whether
    /// the cursor was at the text's end.
    pub(super) fn insert_told(
        &mut self,
        text: &str,
        changes: &mut Changeset,
    ) -> Result<bool, OutOfMemory>
        ensures answer { IfOk result (λ at_end. at_end ≡ is_at_end self.old) }
        ensures edit { EditsIfOk result self.old self.new changes.old changes.new
            (inserted_at_cursor self.old text.now)
            (on_entries (with_insert self.old.cursor text.now)) }
    {
        let place = self.pos;
        changes.insert_str(place, text)?;
        let at_end = self.insert_text(text)?;
        Ok(at_end)
    }

    /// Inserts the text at the cursor, which then stands after it, and returns whether it was at
    /// the text's end.
    pub(super) fn insert_text(&mut self, text: &str) -> Result<bool, OutOfMemory>
        ensures answer { IfOk result (λ at_end. at_end ≡ is_at_end self.old) }
        ensures line { OnOk result (self.new ≡ inserted_at_cursor self.old text.now) }
        ensures err { OnErr result (self.new ≡ self.old) }
        ensures front { OnOk result (KeepsFront self.old.text self.new.text self.old.cursor) }
        ensures cursor { IsCharBoundary self.new.text self.new.cursor }
    {
        let at_end = self.pos == self.buf.len();
        self.buf.insert_str(self.pos, text)?;
        self.plain &= is_plain_text(text);
        self.pos += text.len();
        Ok(at_end)
    }
}

/// Returns `n` copies of the text.
pub(super) fn repeated(alloc: Global, text: &str, n: RepeatCount) -> Result<String, OutOfMemory>
    ensures { IfOk result (λ copies. string_bytes copies ≡ repeat n text.now) }
{
    Ok(text.repeat(alloc, n as usize)?)
}

/// Returns whether a text is plain in which `came` replaced a part, given whether it was plain
/// before, and whether that part was.
fn is_plain_after(was_plain: bool, went_plain: bool, came: &str, text: &str) -> bool
    ensures { result ≡ (list_all is_plain came.now
        && (was_plain || (not went_plain && list_all is_plain text.now))) }
{
    is_plain_text(came) && (was_plain || (!went_plain && is_plain_text(text)))
}
