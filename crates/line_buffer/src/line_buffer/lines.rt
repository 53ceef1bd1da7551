//! Movements of the cursor from line to line.
ghost use Rattle.line_buffer.specs.Line.{MovesCursor};
ghost use Rattle.line_buffer.specs.Offset.{IsOffset, IsRangeIfAny};
ghost use Rattle.std.specs.Prelude.{◌≡◌, ◌≤◌, ◌+◌, length, drop, take, slice_range, is_some, true, IfSome, IsCharBoundary};
ghost use Rattle.std.specs.List.{list_all};
ghost use Rattle.line_buffer.specs.Printable.{is_printable};
ghost use Rattle.line_buffer.specs.Line.{moved_to, start_of_line};
ghost use Rattle.line_buffer.specs.Lines.{column_in, columns_before, down_by, fitting, line_from, line_stop, lines_above, lines_below, lines_down, lines_up, place_in_line, up_by};

use super::LineBuffer;
use crate::clusters::{first_line_len, line_above, next_line};
use crate::layout::{Layout, Unit};
use crate::movement::RepeatCount;
use crate::printable::is_printable_text;
use unicode_segmentation::UnicodeSegmentation;

impl LineBuffer {
    /// Returns the start of the line `n` above the one that begins at `start`, or of the first.
    fn start_above(&self, start: usize, n: RepeatCount) -> usize
        requires { IsCharBoundary self.now.text start }
        ensures offset { IsOffset result self.now.text (lines_above n self.now.text start) }
        ensures up { result ≤ start }
    {
        self.cursor_is_on_boundary();
        let mut place = start;
        for _ in 0..n {
            let Some(above) = line_above(self.text_to(place)) else {
                return place;
            };
            place = above;
        }
        place
    }

    /// Returns the start of the line `n` below the one that begins at `start`, or of the last.
    fn start_below(&self, start: usize, n: RepeatCount) -> usize
        requires { IsCharBoundary self.now.text start }
        ensures offset { IsOffset result self.now.text (lines_below n self.now.text start) }
        ensures down { start ≤ result }
    {
        self.len_fits();
        let mut place = start;
        for _ in 0..n {
            let Some(bytes) = next_line(self.text_from(place)) else {
                return place;
            };
            place += bytes;
        }
        place
    }

    /// Returns the place after the newline of the line that begins at `start`, or the text's end.
    pub(super) fn line_stop(&self, start: usize) -> usize
        requires { IsCharBoundary self.now.text start }
        ensures offset { IsOffset result self.now.text (line_stop self.now.text start) }
        ensures down { start ≤ result }
    {
        self.cursor_is_on_boundary();
        match next_line(self.text_from(start)) {
            Some(bytes) => start + bytes,
            None => self.buf.len(),
        }
    }

    /// Returns the range of the cursor's line and `n` lines above it.
    pub(super) fn lines_up(&self, n: RepeatCount) -> Option<(usize, usize)>
        ensures { IsRangeIfAny result self.now (lines_up self.now n) }
    {
        let start = self.start_of_line();
        if start == 0 {
            return None;
        }
        Some((self.start_above(start, n), self.line_stop(start)))
    }

    /// Returns the range of the cursor's line and `n` lines below it.
    pub(super) fn lines_down(&self, n: RepeatCount) -> Option<(usize, usize)>
        ensures { IsRangeIfAny result self.now (lines_down self.now n) }
    {
        let start = self.start_of_line();
        if self.end_of_line() == self.buf.len() {
            return None;
        }
        Some((start, self.line_stop(self.start_below(start, n))))
    }

    /// Moves the cursor to the line `n` above, one for `n` = 0, or to the first: to the greatest
    /// place between clusters whose column is not past the cursor's, or else to the line's start.
    /// Returns whether the cursor's line is not the first; if it is, the cursor stays. Columns are
    /// those of the layout's mode, and the first line begins after its prompt.
    pub fn move_to_line_up(&mut self, n: RepeatCount, layout: &Layout) -> bool
        ensures { MovesCursor result self.old self.new (up_by layout.now self.old n) }
    {
        let start = self.start_of_line();
        if start == 0 {
            return self.move_to_place(None);
        }
        let above = self.start_above(start, n.max(1));
        self.move_to_place(Some(self.place_in_line(layout, above)))
    }

    /// Moves the cursor to the line `n` below, one for `n` = 0, or to the last: to the greatest
    /// place between clusters whose column is not past the cursor's, or else to the line's start.
    /// Returns whether the cursor's line is not the last; if it is, the cursor stays. Columns are
    /// those of the layout's mode, and the first line begins after its prompt.
    pub fn move_to_line_down(&mut self, n: RepeatCount, layout: &Layout) -> bool
        ensures { MovesCursor result self.old self.new (down_by layout.now self.old n) }
    {
        let start = self.start_of_line();
        if self.end_of_line() == self.len() {
            return self.move_to_place(None);
        }
        let below = self.start_below(start, n.max(1));
        self.move_to_place(Some(self.place_in_line(layout, below)))
    }

    /// Returns the place in the line that begins at `start` whose column fits the cursor's.
    fn place_in_line(&self, layout: &Layout, start: usize) -> usize
        requires { IsCharBoundary self.now.text start }
        ensures { IsOffset result self.now.text (place_in_line layout.now self.now start) }
    {
        let here = self.start_of_line();
        let column = column_in(layout, here, &self.buf.as_str()[here..self.pos]);
        let rest = self.text_from(start);
        start + fitting(layout, start, &rest[..first_line_len(rest)], column)
    }
}

/// Returns the columns before the start of a line: those of the prompt on the first.
fn columns_before(layout: &Layout, start: usize) -> Unit
    ensures { result ≡ columns_before layout.now start }
{
    if start == 0 {
        layout.prompt_size.col
    } else {
        0
    }
}

/// Returns the column of a text in a line that begins at `start`.
fn column_in(layout: &Layout, start: usize, text: &str) -> usize
    ensures { result ≡ column_in layout.now start text.now }
{
    columns_before(layout, start) as usize + layout.width(text) as usize
}

/// Returns the greatest place between clusters of the line whose column is not past `column`, or
/// its start.
fn fitting(layout: &Layout, start: usize, line: &str, column: usize) -> usize
    ensures { IsOffset result line.now (fitting layout.now start line.now column) }
{
    if is_printable_text(line) {
        return fitting_printable(layout, start, line, column);
    }
    let mode = &layout.grapheme_cluster_mode;
    let before = columns_before(layout, start) as usize;
    let mut columns = mode.columns(line);
    let mut rest = line.graphemes(true);
    while before + columns.min(65535) > column {
        let text = rest.as_str();
        let Some(_) = rest.next_back() else {
            return 0;
        };
        columns = mode.columns_to(text, rest.as_str().len(), columns);
    }
    rest.as_str().len()
}

/// The same in a line of printable ASCII, of which each character takes one column.
fn fitting_printable(layout: &Layout, start: usize, line: &str, column: usize) -> usize
    requires { list_all is_printable line.now ≡ true }
    ensures { IsOffset result line.now (fitting layout.now start line.now column) }
{
    let before = columns_before(layout, start) as usize;
    if before + line.len().min(65535) <= column {
        line.len()
    } else {
        column.saturating_sub(before)
    }
}
