//! Taking changes back.
ghost use Rattle.std.specs.Prelude.{◌≡◌, ◌<◌, drop, take, IfOk, OnOk, IsCharBoundary};
ghost use Rattle.std.specs.List.{list_any};
ghost use Rattle.line_buffer.specs.EntryKind.{closed_by, is_text, newest_kind, opened_by, taken_kind};
ghost use Rattle.line_buffer.specs.KeptChanges.{entries_of};
ghost use Rattle.line_buffer.specs.Undo.{Fits, Tells, all_taken_back, is_change, newest_steps, steps_len, taken_back};

use super::change::Change;
use crate::line_buffer::{LineBuffer, OutOfMemory};
use crate::movement::RepeatCount;

/// What an entry was that was taken back.
#[derive(Clone, Copy)]
pub(crate) enum Taken {
    Begin,
    End,
    Change,
}

impl Taken {
    /// Returns how many groups it begins.
    fn begins(self) -> usize
        ensures { result ≡ opened_by self }
    {
        match self {
            Taken::Begin => 1,
            Taken::End | Taken::Change => 0,
        }
    }

    /// Returns how many groups it ends.
    fn ends(self) -> usize
        ensures { result ≡ closed_by self }
    {
        match self {
            Taken::End => 1,
            Taken::Begin | Taken::Change => 0,
        }
    }

    /// Returns whether it changed the text.
    fn is_change(self) -> bool
        ensures { result ≡ is_text self }
    {
        match self {
            Taken::Change => true,
            Taken::Begin | Taken::End => false,
        }
    }
}

/// Takes `n` steps back, or as many as there are, and returns whether a change of the text was
/// taken back.
pub(super) fn take_steps(
    changes: &mut Vec<Change>,
    line: &mut LineBuffer,
    n: RepeatCount,
) -> Result<bool, OutOfMemory>
    requires count { 0 < n }
    requires tells { Tells (entries_of changes.old.items) line.old.text }
    ensures answer { IfOk result (λ undone. undone
        ≡ list_any is_change (newest_steps n (entries_of changes.old.items))) }
    ensures line { OnOk result (line.new
        ≡ all_taken_back (newest_steps n (entries_of changes.old.items)) line.old) }
    ensures changes { let entries = entries_of changes.old.items in
        OnOk result (entries_of changes.new.items ≡ drop (steps_len entries n) entries) }
    ensures cursor { IsCharBoundary line.new.text line.new.cursor }
{
    line.cursor_is_on_boundary();
    let mut left = n;
    let (mut begins, mut ends, mut undone) = (0usize, 0usize, false);
    for _ in 0..changes.len() {
        let Some(taken) = take_newest(changes, line)? else {
            return Ok(undone);
        };
        begins += taken.begins();
        ends += taken.ends();
        undone = undone | taken.is_change();
        if ends <= begins {
            if left == 1 {
                return Ok(undone);
            }
            left -= 1;
        }
    }
    Ok(undone)
}

/// Takes the newest entry away and reverses in the line what it records. Returns what it was,
/// or `None` where there is none.
fn take_newest(
    changes: &mut Vec<Change>,
    line: &mut LineBuffer,
) -> Result<Option<Taken>, OutOfMemory>
    requires { Tells (entries_of changes.old.items) line.old.text }
    ensures taken { IfOk result (λ taken. taken ≡ newest_kind (entries_of changes.old.items)) }
    ensures line { OnOk result (line.new
        ≡ all_taken_back (take 1 (entries_of changes.old.items)) line.old) }
    ensures changes { OnOk result (entries_of changes.new.items
        ≡ drop 1 (entries_of changes.old.items)) }
    ensures cursor { IsCharBoundary line.new.text line.new.cursor }
{
    line.cursor_is_on_boundary();
    let Some(change) = changes.pop() else {
        return Ok(None);
    };
    Ok(Some(change.take_back(line)?))
}

impl Change {
    ghost use Rattle.line_buffer.specs.KeptChanges.{entry_of};

    /// Reverses in the line what this records, and returns what it was.
    fn take_back(self, line: &mut LineBuffer) -> Result<Taken, OutOfMemory>
        requires { Fits (entry_of self) line.old.text }
        ensures taken { IfOk result (λ taken. taken ≡ taken_kind (entry_of self)) }
        ensures line { OnOk result (line.new ≡ taken_back (entry_of self) line.old) }
        ensures cursor { IsCharBoundary line.new.text line.new.cursor }
    {
        line.cursor_is_on_boundary();
        line.len_fits();
        match self {
            Change::Begin => Ok(Taken::Begin),
            Change::End => Ok(Taken::End),
            Change::Insert { place, text } => {
                line.remove_range(place, place + text.len())?;
                Ok(Taken::Change)
            }
            Change::Delete { place, text } => {
                line.put(place, place, text.as_str())?;
                Ok(Taken::Change)
            }
            Change::Replace { place, old, new } => {
                line.put(place, place + new.len(), old.as_str())?;
                Ok(Taken::Change)
            }
        }
    }
}
