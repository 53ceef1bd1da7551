//! Calls that move lines to the right or to the left.
ghost use Rattle.line_buffer.specs.Edit.{Edits, EditsIfOk, on_entries};
ghost use Rattle.line_buffer.specs.Offset.{IsRangeIfAny};
ghost use Rattle.std.specs.Prelude.{◌≡◌, ◌+◌, ◌-◌, ◌≤◌, ◌<◌, [], true, false, length, drop, take, replicate, string_bytes, if◌then◌else◌, IfOk, IfSome, OnOk, OnErr, IsCharBoundary};
ghost use Rattle.std.specs.List.{prefix_len};
ghost use Rattle.line_buffer.specs.Changes.{with_entries};
ghost use Rattle.line_buffer.specs.Indent.{EndsLine, ShiftsLine, blank_front, indented, indented_range, range_by_lines, shifted, with_indents, with_line_shifted, with_shift};
ghost use Rattle.line_buffer.specs.Line.{end_of_line, is_no_newline, with_cursor};
ghost use Rattle.line_buffer.specs.Lines.{line_from};

use super::{LineBuffer, OutOfMemory};
use crate::clusters::{first_line_len, last_line_start};
use crate::movement::Movement;
use crate::undo::Changeset;
use std::alloc::Global;

impl LineBuffer {
    /// Puts `amount` spaces before each line with a character of the movement's range, or for
    /// `dedent` takes up to `amount` white-space characters away at its front. A line's newline is
    /// a character of it, and stays. The range is that of a movement by words, by lines up or down,
    /// or over the buffer; for another, or where the range is empty or there is none, it is the
    /// cursor's line. The cursor stays with its character, or moves to the line's start where that
    /// character was removed. Returns true.
    ///
    /// # Errors
    ///
    /// `OutOfMemory` if memory runs out. The list of changes is then empty, with no open group, and
    /// the line may be any text with its cursor on a boundary.
    pub fn indent(
        &mut self,
        mvt: &Movement,
        amount: usize,
        dedent: bool,
        changes: &mut Changeset,
    ) -> Result<bool, OutOfMemory>
        ensures answer { IfOk result (λ done. done ≡ true) }
        ensures edit { let range = indented_range self.old mvt.now in
            Edits result self.old self.new changes.old changes.new
            (indented dedent amount self.old range)
            (on_entries (with_indents dedent amount self.old.text range)) }
    {
        let (start, end) = self.indented_range(mvt);
        let outcome = self.shift_lines(start, end, amount, dedent, changes);
        changes.settled(outcome)?;
        Ok(true)
    }

    /// Returns where the lines begin and end that the movement indents.
    fn indented_range(&self, mvt: &Movement) -> (usize, usize)
        ensures range { result ≡ indented_range self.now mvt.now }
        ensures lines { EndsLine self.now.text result.0 result.1 }
        ensures before { result.0 ≤ self.now.cursor }
    {
        match self.range_by_lines(mvt) {
            Some((from, to)) if from != to => (
                last_line_start(self.text_to(from)),
                self.end_of_line_before(to),
            ),
            _ => (self.start_of_line(), self.end_of_line()),
        }
    }

    /// Returns the range of a movement by words, by lines or over the buffer.
    fn range_by_lines(&self, mvt: &Movement) -> Option<(usize, usize)>
        ensures { IsRangeIfAny result self.now (range_by_lines self.now mvt.now) }
    {
        match mvt {
            Movement::BackwardWord(_, _)
            | Movement::ForwardWord(_, _, _)
            | Movement::LineUp(_)
            | Movement::LineDown(_)
            | Movement::WholeBuffer
            | Movement::BeginningOfBuffer
            | Movement::EndOfBuffer => self.range(mvt),
            _ => None,
        }
    }

    /// Returns the end of the line that holds the character before a boundary.
    fn end_of_line_before(&self, to: usize) -> usize
        requires boundary { IsCharBoundary self.now.text to }
        requires some { 0 < to }
        ensures place { result ≡ end_of_line (with_cursor self.now (to - 1)) }
        ensures within { result ≤ length self.now.text }
    {
        if self.text_to(to).ends_with('\n') {
            to - 1
        } else {
            to + first_line_len(self.text_from(to))
        }
    }

    /// Indents or dedents the lines from one place to another, and records each.
    fn shift_lines(
        &mut self,
        start: usize,
        end: usize,
        amount: usize,
        dedent: bool,
        changes: &mut Changeset,
    ) -> Result<(), OutOfMemory>
        requires before { start ≤ self.old.cursor }
        requires lines { EndsLine self.old.text start end }
        ensures { EditsIfOk result self.old self.new changes.old changes.new
            (indented dedent amount self.old (start, end))
            (on_entries (with_indents dedent amount self.old.text (start, end))) }
    {
        let spaces = spaces_before(*self.buf.allocator(), amount, dedent)?;
        let behind = self.len() - end;
        let mut place = start;
        loop {
            let stop = self.shift_line(place, spaces.as_str(), amount, dedent, changes)?;
            if self.len() - stop == behind {
                return Ok(());
            }
            place = self.line_stop(stop);
        }
    }

    /// Indents or dedents the line that begins at `start`, records it, and returns where it ends
    /// then.
    fn shift_line(
        &mut self,
        start: usize,
        spaces: &str,
        amount: usize,
        dedent: bool,
        changes: &mut Changeset,
    ) -> Result<usize, OutOfMemory>
        requires boundary { IsCharBoundary self.old.text start }
        requires spaces { spaces.now ≡ (if dedent then [] else replicate amount 32) }
        ensures { ShiftsLine result self.old self.new changes.old changes.new dedent amount start }
    {
        if dedent {
            self.dedent_line(start, amount, changes)
        } else {
            self.indent_line(start, spaces, changes)
        }
    }

    /// Puts spaces before the line that begins at `start`, records it, and returns where it ends
    /// then.
    fn indent_line(
        &mut self,
        start: usize,
        spaces: &str,
        changes: &mut Changeset,
    ) -> Result<usize, OutOfMemory>
        requires boundary { IsCharBoundary self.old.text start }
        requires spaces { spaces.now ≡ replicate (length spaces.now) 32 }
        ensures { let amount = length spaces.now in
            ShiftsLine result self.old self.new changes.old changes.new false amount start }
    {
        let cursor = self.pos();
        let behind = self.len() - cursor;
        self.set_pos(start);
        self.insert_told(spaces, changes)?;
        let stop = self.end_of_line();
        let place = if cursor < start {
            cursor
        } else {
            self.len() - behind
        };
        self.set_pos(place);
        Ok(stop)
    }

    /// Takes up to `amount` white-space characters away at the front of the line that begins at
    /// `start`, records it, and returns where the line ends then.
    fn dedent_line(
        &mut self,
        start: usize,
        amount: usize,
        changes: &mut Changeset,
    ) -> Result<usize, OutOfMemory>
        requires boundary { IsCharBoundary self.old.text start }
        ensures { ShiftsLine result self.old self.new changes.old changes.new true amount start }
    {
        let cursor = self.pos();
        let behind = self.len() - cursor;
        let rest = self.text_from(start);
        let lost = blank_len(&rest[..first_line_len(rest)], amount);
        self.delete_range(start, start + lost, changes)?;
        let stop = self.end_of_line();
        let place = if cursor < start {
            cursor
        } else {
            self.len().saturating_sub(behind).max(start)
        };
        self.set_pos(place);
        Ok(stop)
    }
}

/// Returns the spaces that are put before each line.
fn spaces_before(alloc: Global, amount: usize, dedent: bool) -> Result<String, OutOfMemory>
    ensures { IfOk result (λ spaces. string_bytes spaces
        ≡ (if dedent then [] else replicate amount 32)) }
{
    if dedent {
        return Ok(String::new(alloc));
    }
    Ok(" ".repeat(alloc, amount)?)
}

/// Returns how many bytes the white-space characters at the text's front take, at most `amount` of
/// them.
fn blank_len(text: &str, amount: usize) -> usize
    ensures len { result ≡ length (blank_front amount text.now) }
    ensures boundary { IsCharBoundary text.now result }
    ensures bytes { take result text.now ≡ blank_front amount text.now }
{
    let mut rest = text.chars();
    let mut len = 0;
    for _ in 0..amount {
        match rest.next() {
            Some(c) if c.is_whitespace() => len = text.len() - rest.as_str().len(),
            _ => return len,
        }
    }
    len
}
