//! The changes of a line, by which it can be brought back.
ghost use Rattle.std.specs.Prelude.{◌≡◌, ◌==◌, ◌++◌, ◌∷◌, length, replicate, not, encode_utf8, string_bytes, option_map, IfOk, OnOk, OnErr};
ghost use Rattle.std.specs.List.{list_any};
ghost use Rattle.line_buffer.specs.Changes.{adds_end, begun, deleted, ended, ends, inserted, last_insert_of, newest_begins, no_changes, replaced, with_delete, with_insert, with_joined_delete, with_joined_insert, with_replace, with_typed, with_update, without_begins};
ghost use Rattle.line_buffer.specs.Edit.{Adds, Edits};
ghost use Rattle.line_buffer.specs.Undo.{GroupsFit, KeepsToldAnywhere, Tells, UndoesStepByStep, all_taken_back, is_change, newest_steps, without_steps};

mod change;
mod steps;

use crate::clusters::{is_alphanumeric, is_one_alphanumeric};
use crate::line_buffer::{LineBuffer, OutOfMemory};
use crate::movement::RepeatCount;
use change::Change;
use std::alloc::Global;
use std::marker::Model;
use steps::take_steps;

/// The least room, in bytes, of a text that was inserted, so that a word typed after it needs no
/// other.
const TYPED_ROOM: usize = 24;

/// The changes of a line, by which it can be brought back, and how many groups of them are open.
#[derive(Debug)]
pub struct Changeset {
    changes: Vec<Change>,
    open_groups: usize,
}

impl Drop for Changeset {
    fn drop(self) {
        let Changeset {
            changes: _,
            open_groups: _,
        } = self;
    }
}

impl Model for Changeset {
    ghost use Rattle.line_buffer.specs.Changes.{Changes};
    ghost use Rattle.line_buffer.specs.KeptChanges.{entries_of};
    ghost use Rattle.line_buffer.specs.Undo.{GroupsFit};

    ghost Value = { Changes };

    ghost view = { λ c.
        record { entries = entries_of c.changes.items; open_groups = c.open_groups } };

    ghost invariant = { λ c.
        GroupsFit (record { entries = entries_of c.changes.items; open_groups = c.open_groups }) };
}

impl Changeset {
    /// Returns a list with no change and no open group. It grows from `alloc`.
    pub fn new(alloc: Global) -> Changeset
        ensures { result ≡ no_changes }
    {
        Changeset {
            changes: Vec::new(alloc),
            open_groups: 0,
        }
    }

    /// Returns how many entries the list has.
    pub fn len(&self) -> usize
        ensures len { result ≡ length self.now.entries }
        ensures groups { GroupsFit self.now }
    {
        self.changes.len()
    }

    /// Returns whether the list has no entry.
    pub fn is_empty(&self) -> bool
        ensures { result ≡ (length self.now.entries == 0) }
    {
        self.changes.is_empty()
    }

    /// Opens a group.
    ///
    /// # Errors
    ///
    /// `OutOfMemory` if memory runs out. The list is then empty, with no open group.
    pub fn begin(&mut self) -> Result<(), OutOfMemory>
        ensures changes { OnOk result (self.new ≡ begun self.old) }
        ensures told { KeepsToldAnywhere result self.old self.new }
    {
        match self.changes.push(Change::Begin) {
            Ok(()) => {
                self.open_groups = self.open_groups.saturating_add(1);
                Ok(())
            }
            Err(error) => {
                self.clear();
                Err(error.into())
            }
        }
    }

    /// Closes every open group, and returns whether an entry was added for it.
    ///
    /// # Errors
    ///
    /// `OutOfMemory` if memory runs out. The list is then empty, with no open group.
    pub fn end(&mut self) -> Result<bool, OutOfMemory>
        ensures answer { IfOk result (λ added. added
            ≡ adds_end self.old.open_groups self.old.entries) }
        ensures changes { OnOk result (self.new ≡ ended self.old) }
        ensures told { KeepsToldAnywhere result self.old self.new }
    {
        self.take_newest_begins();
        match self.add_ends() {
            Ok(added) => Ok(added),
            Err(error) => {
                self.clear();
                Err(error)
            }
        }
    }

    /// Takes `n` steps back, one for `n` = 0, or as many as there are: the newest entries are taken
    /// away and what they record is reversed in the line, which is the one that they record. An
    /// entry that was taken is a step where no more ends than begins were taken by then. The cursor
    /// moves to where a text had been inserted, or to after a text that is restored. Returns
    /// whether a change of the text was taken back.
    ///
    /// # Errors
    ///
    /// `OutOfMemory` if memory runs out. The list is then empty, with no open group, and the line
    /// may be any text with its cursor on a boundary.
    pub fn undo(&mut self, line: &mut LineBuffer, n: RepeatCount) -> Result<bool, OutOfMemory>
        requires { Tells self.old.entries line.old.text }
        ensures answer { IfOk result (λ undone. undone
            ≡ list_any is_change (newest_steps n self.old.entries)) }
        ensures edit { Edits result line.old line.new self.old self.new
            (all_taken_back (newest_steps n self.old.entries) line.old) (without_steps n) }
        ensures steps { UndoesStepByStep result n line.old line.new self.old self.new }
    {
        match take_steps(&mut self.changes, line, n.max(1)) {
            Ok(undone) => Ok(undone),
            Err(error) => {
                self.changes.clear();
                self.open_groups = 0;
                Err(error)
            }
        }
    }

    /// Returns a copy of the text that was inserted last: of the newest entry but ends, the text
    /// that was inserted or replaced another. `None` where that entry is a begin or a delete, or
    /// there is none.
    ///
    /// # Errors
    ///
    /// `OutOfMemory` if memory runs out.
    pub fn last_insert(&self) -> Result<Option<String>, OutOfMemory>
        ensures { IfOk result (λ r. option_map string_bytes r ≡ last_insert_of self.now.entries) }
    {
        match Change::inserted_text(self.changes.as_slice()) {
            Some(text) => Ok(Some(String::from_str(*self.changes.allocator(), text)?)),
            None => Ok(None),
        }
    }

    /// Passes an outcome on, and forgets every change where it is an error.
    pub(crate) fn settled<T, E>(&mut self, outcome: Result<T, E>) -> Result<T, E>
        ensures same { result ≡ outcome }
        ensures ok { OnOk result (self.new ≡ self.old) }
        ensures err { OnErr result (self.new ≡ no_changes) }
    {
        if outcome.is_err() {
            self.clear();
        }
        outcome
    }

    /// Records that `text` was inserted at `place`.
    pub(crate) fn insert_str(&mut self, place: usize, text: &str) -> Result<(), OutOfMemory>
        ensures { Adds result self.old self.new (with_insert place text.now) }
    {
        if text.is_empty() {
            return Ok(());
        }
        self.add_insert(place, text)
    }

    /// Records that the character was inserted at `place`.
    pub(crate) fn insert_char(&mut self, place: usize, c: char) -> Result<(), OutOfMemory>
        ensures { Adds result self.old self.new (with_typed place c 1) }
    {
        if is_alphanumeric(c) {
            return self.insert_joined(place, c);
        }
        let mut bytes = [0; 4];
        self.insert_str(place, c.encode_utf8(&mut bytes))
    }

    /// Records that `text` was removed from `place`.
    pub(crate) fn delete(&mut self, place: usize, text: &str) -> Result<(), OutOfMemory>
        ensures { Adds result self.old self.new (with_delete place text.now) }
    {
        if text.is_empty() {
            return Ok(());
        }
        if is_one_alphanumeric(text) {
            return self.delete_joined(place, text);
        }
        self.add_delete(place, text)
    }

    /// Records that `text` was removed from `place`, and keeps it.
    pub(crate) fn delete_text(&mut self, place: usize, text: String) -> Result<(), OutOfMemory>
        ensures { Adds result self.old self.new (with_delete place (string_bytes text)) }
    {
        if text.is_empty() || is_one_alphanumeric(text.as_str()) {
            return self.delete(place, text.as_str());
        }
        self.changes.push(Change::Delete { place, text })?;
        Ok(())
    }

    /// Records that `new` replaced `old`, the whole text, which is kept.
    pub(crate) fn replace_all(&mut self, old: String, new: &str) -> Result<(), OutOfMemory>
        ensures { Adds result self.old self.new (with_update (string_bytes old) new.now) }
    {
        self.delete_text(0, old)?;
        self.insert_str(0, new)
    }

    /// Records that `new` replaced `old` at `place`.
    pub(crate) fn replace(&mut self, place: usize, old: &str, new: &str) -> Result<(), OutOfMemory>
        ensures { Adds result self.old self.new (with_replace place old.now new.now) }
    {
        if let Some(newest) = self.changes.last_mut() {
            if newest.join_replace(place, old, new)? {
                return Ok(());
            }
        }
        self.add_replace(place, old, new)
    }

    /// Takes newest begins away, each of an open group.
    fn take_newest_begins(&mut self)
        ensures { self.new ≡ without_begins self.old }
    {
        while self.open_groups > 0 && self.newest_begins() {
            let Some(_) = self.changes.pop() else {
                return;
            };
            self.open_groups -= 1;
        }
    }

    /// Returns whether the newest entry begins a group.
    fn newest_begins(&self) -> bool
        ensures { result ≡ newest_begins self.now.entries }
    {
        matches!(self.changes.last(), Some(Change::Begin))
    }

    /// Adds an end for each open group, and returns whether there was one.
    fn add_ends(&mut self) -> Result<bool, OutOfMemory>
        ensures answer { IfOk result (λ added. added ≡ not (self.old.open_groups == 0)) }
        ensures changes { OnOk result (self.new ≡ record {
          entries = replicate self.old.open_groups ends ++ self.old.entries;
          open_groups = 0;
        }) }
    {
        let added = self.open_groups > 0;
        while self.open_groups > 0 {
            self.changes.push(Change::End)?;
            self.open_groups -= 1;
        }
        Ok(added)
    }

    /// Forgets every change and every open group.
    fn clear(&mut self)
        ensures { self.new ≡ no_changes }
    {
        self.changes.clear();
        self.open_groups = 0;
    }

    fn add_insert(&mut self, place: usize, text: &str) -> Result<(), OutOfMemory>
        ensures { Adds result self.old self.new (λ entries. inserted place text.now ∷ entries) }
    {
        let alloc = *self.changes.allocator();
        let mut came = String::with_capacity(alloc, text.len().max(TYPED_ROOM))?;
        came.push_str(text)?;
        self.changes.push(Change::Insert { place, text: came })?;
        Ok(())
    }

    /// Records that the alphanumeric character was inserted at `place`: it joins a newest insert
    /// that ends there.
    fn insert_joined(&mut self, place: usize, c: char) -> Result<(), OutOfMemory>
        ensures { Adds result self.old self.new (with_joined_insert place (encode_utf8 c)) }
    {
        if let Some(newest) = self.changes.last_mut() {
            if newest.join_insert(place, c)? {
                return Ok(());
            }
        }
        let mut bytes = [0; 4];
        self.add_insert(place, c.encode_utf8(&mut bytes))
    }

    fn add_delete(&mut self, place: usize, text: &str) -> Result<(), OutOfMemory>
        ensures { Adds result self.old self.new (λ entries. deleted place text.now ∷ entries) }
    {
        let alloc = *self.changes.allocator();
        let text = String::from_str(alloc, text)?;
        self.changes.push(Change::Delete { place, text })?;
        Ok(())
    }

    /// Records that one alphanumeric cluster was removed from `place`: it joins a newest delete at
    /// that place, or one at which it ended.
    fn delete_joined(&mut self, place: usize, text: &str) -> Result<(), OutOfMemory>
        ensures { Adds result self.old self.new (with_joined_delete place text.now) }
    {
        if let Some(newest) = self.changes.last_mut() {
            if newest.join_delete(place, text)? {
                return Ok(());
            }
        }
        self.add_delete(place, text)
    }

    fn add_replace(&mut self, place: usize, old: &str, new: &str) -> Result<(), OutOfMemory>
        ensures { Adds result self.old self.new
            (λ entries. replaced place old.now new.now ∷ entries) }
    {
        let alloc = *self.changes.allocator();
        let old = String::from_str(alloc, old)?;
        let new = String::from_str(alloc, new)?;
        self.changes.push(Change::Replace { place, old, new })?;
        Ok(())
    }
}
