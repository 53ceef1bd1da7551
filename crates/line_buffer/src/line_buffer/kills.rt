//! Calls that take text out of the line.
ghost use Rattle.line_buffer.specs.Edit.{Edits, EditsIfOk};
ghost use Rattle.line_buffer.specs.Kill.{Kills};
ghost use Rattle.line_buffer.specs.KillRing.{LeavesRing};
ghost use Rattle.line_buffer.specs.Offset.{IsRangeIfAny, IsSpan};
ghost use Rattle.std.specs.Prelude.{◌≡◌, ◌≤◌, ◌<◌, List, length, string_bytes, option_map, is_some, slice_range, Option, Some, None, IfOk, IfSome, OnOk, OnErr, IsCharBoundary};
ghost use Rattle.line_buffer.specs.Changes.{with_entries, with_delete};
ghost use Rattle.line_buffer.specs.Cluster.{place_on};
ghost use Rattle.line_buffer.specs.Kill.{direction_of, kill_answer, killed_range, in_bytes, mode_of, neighbour_of, ring_mode, ring_with_killed, with_killed};
ghost use Rattle.line_buffer.specs.Line.{without};
ghost use Rattle.line_buffer.specs.Undo.{KeepsFront};
ghost use Rattle.line_buffer.specs.Range.{from_cursor, range_of, text_in, unless_empty, up_to_cursor};

use super::{Direction, LineBuffer, OutOfMemory};
use crate::kill_ring::{KillRing, Mode};
use crate::movement::{CharSearch, Movement, RepeatCount};
use crate::undo::Changeset;

impl LineBuffer {
    /// Takes the range of the movement out of the line, and the cursor to where it began. Where the
    /// range of a line's end or of a whole line is empty, the cluster after the cursor is removed,
    /// and where that of a line's beginning is, the one before. Returns the place in bytes, the
    /// text, and on which side of the cursor the movement led; `None` where nothing is removed. All
    /// but single clusters are kept in the kill ring.
    ///
    /// # Errors
    ///
    /// `OutOfMemory` if memory runs out. The list of changes is then empty, with no open group, and
    /// the line may be any text with its cursor on a boundary. The kill ring is as the kill leaves
    /// it, or as before with a kill as its last action.
    pub fn kill(
        &mut self,
        mvt: &Movement,
        changes: &mut Changeset,
        kill_ring: &mut KillRing,
    ) -> Result<Option<(usize, String, Direction)>, OutOfMemory>
        ensures edit { Edits result self.old self.new changes.old changes.new
            (without self.old (killed_range self.old mvt.now))
            (with_killed self.old (killed_range self.old mvt.now)) }
        ensures kill { Kills result self.old mvt.now (killed_range self.old mvt.now)
            kill_ring.old kill_ring.new }
    {
        let outcome = match self.killed_range(mvt) {
            Some((from, to)) => self.kill_range(from, to, mvt, changes, kill_ring),
            None => Ok(None),
        };
        changes.settled(outcome)
    }

    fn kill_range(
        &mut self,
        from: usize,
        to: usize,
        mvt: &Movement,
        changes: &mut Changeset,
        kill_ring: &mut KillRing,
    ) -> Result<Option<(usize, String, Direction)>, OutOfMemory>
        requires { IsSpan self.old.text from to }
        ensures edit { EditsIfOk result self.old self.new changes.old changes.new
            (without self.old (Some (from, to))) (with_killed self.old (Some (from, to))) }
        ensures kill { Kills result self.old mvt.now (Some (from, to)) kill_ring.old kill_ring.new }
    {
        kill_ring.keep(&self.buf.as_str()[from..to], ring_mode(mvt))?;
        let text = self.copy_range(from, to)?;
        self.delete_range(from, to, changes)?;
        Ok(Some((from, text, direction_of(mvt))))
    }

    /// Kills as `kill` does, and copies no text for the caller.
    ///
    /// # Errors
    ///
    /// `OutOfMemory` if memory runs out. The list of changes is then empty, with no open group, and
    /// the line may be any text with its cursor on a boundary. The kill ring is as the kill leaves
    /// it, or as before with a kill as its last action.
    pub fn cut(
        &mut self,
        mvt: &Movement,
        changes: &mut Changeset,
        kill_ring: &mut KillRing,
    ) -> Result<(), OutOfMemory>
        ensures edit { Edits result self.old self.new changes.old changes.new
            (without self.old (killed_range self.old mvt.now))
            (with_killed self.old (killed_range self.old mvt.now)) }
        ensures ring { let range = killed_range self.old mvt.now in OnOk result
            (kill_ring.new ≡ ring_with_killed self.old mvt.now range kill_ring.old) }
        ensures size { kill_ring.new.size ≡ kill_ring.old.size }
        ensures bound { OnErr result (length kill_ring.new.slots ≤ kill_ring.new.size) }
        ensures err { let range = killed_range self.old mvt.now in
            OnErr result (LeavesRing kill_ring.old
            (ring_with_killed self.old mvt.now range kill_ring.old) kill_ring.new) }
    {
        let outcome = match self.killed_range(mvt) {
            Some((from, to)) => self.cut_range(from, to, mvt, changes, kill_ring),
            None => Ok(()),
        };
        changes.settled(outcome)
    }

    fn cut_range(
        &mut self,
        from: usize,
        to: usize,
        mvt: &Movement,
        changes: &mut Changeset,
        kill_ring: &mut KillRing,
    ) -> Result<(), OutOfMemory>
        requires { IsSpan self.old.text from to }
        ensures edit { EditsIfOk result self.old self.new changes.old changes.new
            (without self.old (Some (from, to))) (with_killed self.old (Some (from, to))) }
        ensures ring { OnOk result
            (kill_ring.new ≡ ring_with_killed self.old mvt.now (Some (from, to)) kill_ring.old) }
        ensures size { kill_ring.new.size ≡ kill_ring.old.size }
        ensures bound { OnErr result (length kill_ring.new.slots ≤ kill_ring.new.size) }
        ensures err { OnErr result (LeavesRing kill_ring.old
            (ring_with_killed self.old mvt.now (Some (from, to)) kill_ring.old) kill_ring.new) }
    {
        let killed = &self.buf.as_str()[from..to];
        kill_ring.keep(killed, ring_mode(mvt))?;
        self.delete_range(from, to, changes)
    }

    /// Takes away `n` clusters after the cursor, or as many as there are, and returns their text;
    /// `None` for `n` = 0 and at the text's end.
    ///
    /// # Errors
    ///
    /// `OutOfMemory` if memory runs out. The list of changes is then empty, with no open group, and
    /// the line may be any text with its cursor on a boundary.
    pub fn delete(
        &mut self,
        n: RepeatCount,
        changes: &mut Changeset,
    ) -> Result<Option<String>, OutOfMemory>
        ensures answer { let range = from_cursor self.old (place_on self.old n) in
            IfOk result (λ r. option_map string_bytes r ≡ text_in self.old.text range) }
        ensures edit { let range = from_cursor self.old (place_on self.old n) in
            Edits result self.old self.new changes.old changes.new
            (without self.old range) (with_killed self.old range) }
    {
        self.cursor_is_on_boundary();
        let outcome = match self.from_cursor(self.next_pos(n)) {
            Some((from, to)) => self.take_range(from, to, changes),
            None => Ok(None),
        };
        changes.settled(outcome)
    }

    /// Takes clusters away as `delete` does, and copies no text for the caller. Returns whether
    /// there were any.
    ///
    /// # Errors
    ///
    /// `OutOfMemory` if memory runs out. The list of changes is then empty, with no open group, and
    /// the line may be any text with its cursor on a boundary.
    pub fn discard(&mut self, n: RepeatCount, changes: &mut Changeset) -> Result<bool, OutOfMemory>
        ensures answer { IfOk result (λ done. done ≡ is_some (place_on self.old n)) }
        ensures edit { let range = from_cursor self.old (place_on self.old n) in
            Edits result self.old self.new changes.old changes.new
            (without self.old range) (with_killed self.old range) }
    {
        self.cursor_is_on_boundary();
        let Some((from, to)) = self.from_cursor(self.next_pos(n)) else {
            return Ok(false);
        };
        let outcome = self.delete_range(from, to, changes);
        changes.settled(outcome)?;
        Ok(true)
    }

    /// Returns a copy of the text that the movement spans, or `None` where its range is empty or
    /// there is none.
    ///
    /// # Errors
    ///
    /// `OutOfMemory` if memory runs out.
    pub fn copy(&self, mvt: &Movement) -> Result<Option<String>, OutOfMemory>
        ensures { IfOk result (λ r. option_map string_bytes r
            ≡ text_in self.now.text (unless_empty (range_of self.now mvt.now))) }
    {
        match self.range(mvt) {
            Some((from, to)) if from != to => Ok(Some(self.copy_range(from, to)?)),
            _ => Ok(None),
        }
    }

    /// Takes away a range, records it, and returns its text.
    fn take_range(
        &mut self,
        from: usize,
        to: usize,
        changes: &mut Changeset,
    ) -> Result<Option<String>, OutOfMemory>
        requires { IsSpan self.old.text from to }
        ensures answer { IfOk result (λ r. option_map string_bytes r
            ≡ text_in self.old.text (Some (from, to))) }
        ensures edit { EditsIfOk result self.old self.new changes.old changes.new
            (without self.old (Some (from, to))) (with_killed self.old (Some (from, to))) }
    {
        self.cursor_is_on_boundary();
        let text = self.copy_range(from, to)?;
        self.delete_range(from, to, changes)?;
        Ok(Some(text))
    }

    /// Takes away a range, and records it.
    pub(super) fn delete_range(
        &mut self,
        from: usize,
        to: usize,
        changes: &mut Changeset,
    ) -> Result<(), OutOfMemory>
        requires { IsSpan self.old.text from to }
        ensures { EditsIfOk result self.old self.new changes.old changes.new
            (without self.old (Some (from, to))) (with_killed self.old (Some (from, to))) }
    {
        changes.delete(from, &self.buf.as_str()[from..to])?;
        self.remove_range(from, to)?;
        Ok(())
    }

    /// Returns a copy of the text from one byte to another.
    pub(super) fn copy_range(&self, from: usize, to: usize) -> Result<String, OutOfMemory>
        requires { IsSpan self.now.text from to }
        ensures { IfOk result (λ text. string_bytes text ≡ slice_range self.now.text from to) }
    {
        let alloc = *self.buf.allocator();
        Ok(String::from_str(alloc, &self.buf.as_str()[from..to])?)
    }

    /// Takes the text from one byte to another away, and the cursor to its start.
    pub(crate) fn remove_range(&mut self, from: usize, to: usize) -> Result<(), OutOfMemory>
        requires { IsSpan self.old.text from to }
        ensures line { OnOk result (self.new ≡ without self.old (Some (from, to))) }
        ensures front { OnOk result (KeepsFront self.old.text self.new.text from) }
        ensures cursor { IsCharBoundary self.new.text self.new.cursor }
    {
        self.put(from, to, "")
    }

    /// Returns the range of the movement, in bytes.
    pub(super) fn range(&self, mvt: &Movement) -> Option<(usize, usize)>
        ensures { IsRangeIfAny result self.now (range_of self.now mvt.now) }
    {
        let len = self.as_str().len();
        match mvt {
            Movement::WholeLine => Some((self.start_of_line(), self.end_of_line())),
            Movement::BeginningOfLine => self.up_to_cursor(Some(self.start_of_line())),
            Movement::EndOfLine => self.from_cursor(Some(self.end_of_line())),
            Movement::BackwardWord(n, word) => self.up_to_cursor(self.prev_word_pos(*word, *n)),
            Movement::ForwardWord(n, at, word) => {
                self.from_cursor(self.next_word_pos(*at, *word, *n))
            }
            Movement::ViCharSearch(n, search) => self.searched(*search, *n),
            Movement::BackwardChar(n) => self.up_to_cursor(self.prev_pos(*n)),
            Movement::ForwardChar(n) => self.from_cursor(self.next_pos(*n)),
            Movement::LineUp(n) => self.lines_up(*n),
            Movement::LineDown(n) => self.lines_down(*n),
            Movement::WholeBuffer => Some((0, len)),
            Movement::BeginningOfBuffer => self.up_to_cursor(Some(0)),
            Movement::EndOfBuffer => self.from_cursor(Some(len)),
            Movement::ViFirstPrint => None,
        }
    }

    /// Returns the range from a place before the cursor to the cursor.
    pub(super) fn up_to_cursor(&self, place: Option<usize>) -> Option<(usize, usize)>
        requires { IfSome place (λ p. (p ≤ self.now.cursor) × IsCharBoundary self.now.text p) }
        ensures { IsRangeIfAny result self.now (up_to_cursor self.now place) }
    {
        match place {
            Some(from) => Some((from, self.pos)),
            None => None,
        }
    }

    /// Returns the range from the cursor to a place after it.
    pub(super) fn from_cursor(&self, place: Option<usize>) -> Option<(usize, usize)>
        requires { IfSome place (λ p. (self.now.cursor ≤ p) × IsCharBoundary self.now.text p) }
        ensures { IsRangeIfAny result self.now (from_cursor self.now place) }
    {
        match place {
            Some(to) => Some((self.pos, to)),
            None => None,
        }
    }

    /// Returns the range that a kill by the movement takes, in bytes; `None` where it takes
    /// nothing.
    pub fn killed_range(&self, mvt: &Movement) -> Option<(usize, usize)>
        ensures cursor { IsCharBoundary self.now.text self.now.cursor }
        ensures range { IsRangeIfAny result self.now (killed_range self.now mvt.now) }
    {
        self.cursor_is_on_boundary();
        match self.range(mvt) {
            Some((from, to)) if from != to => Some((from, to)),
            _ => self.neighbour(mvt),
        }
    }

    /// Returns the cluster beside the cursor that a kill takes where the range of its movement is
    /// empty.
    fn neighbour(&self, mvt: &Movement) -> Option<(usize, usize)>
        ensures { IsRangeIfAny result self.now (neighbour_of self.now mvt.now) }
    {
        match mvt {
            Movement::WholeLine | Movement::EndOfLine => self.range(&Movement::ForwardChar(1)),
            Movement::BeginningOfLine => self.range(&Movement::BackwardChar(1)),
            _ => None,
        }
    }
}

/// Returns on which side of the cursor the movement leads.
fn direction_of(mvt: &Movement) -> Direction
    ensures { result ≡ direction_of mvt.now }
{
    match mvt {
        Movement::BackwardChar(_)
        | Movement::BackwardWord(_, _)
        | Movement::BeginningOfLine
        | Movement::BeginningOfBuffer
        | Movement::ViCharSearch(_, CharSearch::Backward(_) | CharSearch::BackwardAfter(_)) => {
            Direction::Backward
        }
        _ => Direction::Forward,
    }
}

/// Returns where what the movement spans joins the kill ring; `None` for single clusters.
fn ring_mode(mvt: &Movement) -> Option<Mode>
    ensures { result ≡ ring_mode mvt.now }
{
    match mvt {
        Movement::BackwardChar(_) | Movement::ForwardChar(_) => None,
        _ => match direction_of(mvt) {
            Direction::Forward => Some(Mode::Append),
            Direction::Backward => Some(Mode::Prepend),
        },
    }
}
