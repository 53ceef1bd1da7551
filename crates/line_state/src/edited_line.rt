//! The line with its changes.
ghost use Rattle.std.specs.Prelude.{◌≡◌, IsCharBoundary, ◌≤◌, [], false, Option, IfOk, OnOk, OnErr, option_map, string_bytes, is_some, length};
ghost use Rattle.std.specs.List.{list_any};
ghost use Rattle.line_buffer.specs.Changes.{adds_end, begun, ended, last_insert_of, no_changes};
ghost use Rattle.line_buffer.specs.Kill.{killed_range, ring_with_killed};
ghost use Rattle.line_buffer.specs.KillRing.{LeavesRing};
ghost use Rattle.line_buffer.specs.Offset.{IsRangeIfAny};
ghost use Rattle.line_buffer.specs.Range.{range_of, text_in, unless_empty};
ghost use Rattle.line_buffer.specs.Undo.{is_change, newest_steps};
ghost use Rattle.line_state.specs.Edited.{EditsTo, FindsToEdit, undone, with_copies, without_range};

mod brackets;
mod elections;
mod moves;
mod replacements;
mod yanks;

use line_buffer::{Changeset, KillRing, LineBuffer, Movement, OutOfMemory, RepeatCount};
use std::alloc::Global;
use std::marker::Model;

/// A line and its changes, which record at all times how it came about: taken back, they restore
/// the text it began with.
///
/// # Errors
/// `OutOfMemory` if memory runs out, in each call that grows the text or the changes. There are
/// then no changes to undo, and the line may be any text with its cursor on a boundary, if the call
/// does not say otherwise.
pub struct EditedLine {
    line: LineBuffer,
    changes: Changeset,
}

impl Drop for EditedLine {
    fn drop(self) {
        let EditedLine {
            line: _,
            changes: _,
        } = self;
    }
}

impl Model for EditedLine {
    ghost use Rattle.line_buffer.specs.Undo.{Tells};
    ghost use Rattle.line_state.specs.Edited.{Edited};

    ghost Value = { Edited };

    ghost view = { λ e. record { line = e.line; changes = e.changes } };

    ghost invariant = { λ e. Tells e.changes.entries e.line.text };
}

#[tactic(auto, using(crate::proofs::EditedLemmas::kept, crate::proofs::EditedLemmas::first_kept, crate::proofs::EditedLemmas::first_stays, crate::proofs::EditedLemmas::kept_anywhere, crate::proofs::EditedLemmas::first_kept_anywhere))]
impl EditedLine {
    /// Returns an empty line with no changes.
    pub fn new(alloc: Global) -> Self
        ensures { result
            ≡ record { line = record { text = []; cursor = 0 }; changes = no_changes } }
    {
        EditedLine {
            line: LineBuffer::new(alloc),
            changes: Changeset::new(alloc),
        }
    }

    /// Returns a line with no changes: a text with the cursor at byte `pos` of it.
    ///
    /// # Errors
    /// `OutOfMemory` if memory runs out.
    pub fn with_line(alloc: Global, text: &str, pos: usize) -> Result<Self, OutOfMemory>
        requires { IsCharBoundary text.now pos }
        ensures { IfOk result (λ e. e
            ≡ record { line = record { text = text.now; cursor = pos }; changes = no_changes }) }
    {
        Ok(EditedLine {
            line: LineBuffer::init(alloc, text, pos)?,
            changes: Changeset::new(alloc),
        })
    }

    /// Returns the line.
    pub fn line(&self) -> &LineBuffer
        ensures { result.now ≡ self.now.line }
    {
        &self.line
    }

    /// Inserts `n` copies of a character at the cursor, which then stands after them.
    ///
    /// # Errors
    /// `OutOfMemory` if memory runs out. There are then no changes to undo, and the line may be any
    /// text with its cursor on a boundary.
    pub fn insert(&mut self, c: char, n: RepeatCount) -> Result<(), OutOfMemory>
        ensures { EditsTo result self.old self.new (with_copies n c self.old) }
    {
        let _ = self.line.insert(c, n, &mut self.changes)?;
        Ok(())
    }

    /// Returns the range that a kill of the movement takes, in bytes; `None` where it takes
    /// nothing.
    pub fn killed_range(&self, movement: &Movement) -> Option<(usize, usize)>
        ensures { IsRangeIfAny result self.now.line (killed_range self.now.line movement.now) }
    {
        self.line.killed_range(movement)
    }

    /// Kills the text of a movement, and keeps it in `kill_ring` as `LineBuffer::cut` does.
    ///
    /// # Errors
    /// `OutOfMemory` if memory runs out. There are then no changes to undo, and the line may be any
    /// text with its cursor on a boundary. `kill_ring` is the one that the kill leaves, or the one
    /// from before with a kill as its last action.
    pub fn kill(&mut self, movement: &Movement, kill_ring: &mut KillRing) -> Result<(), OutOfMemory>
        ensures edit { let range = killed_range self.old.line movement.now in
            EditsTo result self.old self.new (without_range range self.old) }
        ensures ring { let range = killed_range self.old.line movement.now in OnOk result
            (kill_ring.new ≡ ring_with_killed self.old.line movement.now range kill_ring.old) }
        ensures size { kill_ring.new.size ≡ kill_ring.old.size }
        ensures bound { OnErr result (length kill_ring.new.slots ≤ kill_ring.new.size) }
        ensures err { let range = killed_range self.old.line movement.now in
            OnErr result (LeavesRing kill_ring.old
            (ring_with_killed self.old.line movement.now range kill_ring.old) kill_ring.new) }
    {
        self.line.cut(movement, &mut self.changes, kill_ring)?;
        Ok(())
    }

    /// Returns a copy of the text of a movement, if it has one.
    ///
    /// # Errors
    /// `OutOfMemory` if memory runs out.
    pub fn copy(&self, movement: &Movement) -> Result<Option<String>, OutOfMemory>
        ensures { IfOk result (λ r. option_map string_bytes r
            ≡ text_in self.now.line.text (unless_empty (range_of self.now.line movement.now))) }
    {
        self.line.copy(movement)
    }

    /// Takes `n` steps back, one for `n` = 0, or as many as there are. Returns whether a change of
    /// the text was taken back.
    ///
    /// # Errors
    /// `OutOfMemory` if memory runs out. There are then no changes to undo, and the line may be any
    /// text with its cursor on a boundary.
    pub fn undo(&mut self, n: RepeatCount) -> Result<bool, OutOfMemory>
        ensures finds { FindsToEdit result self.old self.new (undone n self.old)
            (list_any is_change (newest_steps n self.old.changes.entries)) }
        ensures unreported { IfOk result (λ done. done ≡ false → self.new.line ≡ self.old.line) }
    {
        self.changes.undo(&mut self.line, n)
    }

    /// Opens a group of changes.
    ///
    /// # Errors
    /// `OutOfMemory` if memory runs out. The line then stays, and there are no changes to undo.
    pub fn begin_group(&mut self) -> Result<(), OutOfMemory>
        ensures edit { EditsTo result self.old self.new
            (record self.old { changes = begun self.old.changes }) }
        ensures line { self.new.line ≡ self.old.line }
    {
        self.changes.begin()
    }

    /// Closes every open group of changes. Returns whether an entry was added for it.
    ///
    /// # Errors
    /// `OutOfMemory` if memory runs out. The line then stays, and there are no changes to undo.
    pub fn end_groups(&mut self) -> Result<bool, OutOfMemory>
        ensures answer { IfOk result (λ added.
            added ≡ adds_end self.old.changes.open_groups self.old.changes.entries) }
        ensures edit { EditsTo result self.old self.new
            (record self.old { changes = ended self.old.changes }) }
        ensures line { self.new.line ≡ self.old.line }
    {
        self.changes.end()
    }

    /// Returns the text that was inserted last: that of the newest insert or replacement, unless a
    /// group was begun or a text deleted since.
    ///
    /// # Errors
    /// `OutOfMemory` if memory runs out.
    pub fn last_insert(&self) -> Result<Option<String>, OutOfMemory>
        ensures { IfOk result (λ r.
            option_map string_bytes r ≡ last_insert_of self.now.changes.entries) }
    {
        self.changes.last_insert()
    }
}
