//! A change of a line, and what it takes in.
ghost use Rattle.std.specs.Prelude.{◌≡◌, ◌+◌, ◌==◌, length, encode_utf8, option_copied};
ghost use Rattle.line_buffer.specs.Changes.{deleted, inserted, last_insert_of, replaced, with_joined_delete, with_joined_insert, with_replace};
ghost use Rattle.line_buffer.specs.Edit.{Joins};
ghost use Rattle.line_buffer.specs.EntryKind.{taken_kind};

use crate::line_buffer::OutOfMemory;

/// An entry of a list of changes.
#[derive(Debug, Drop)]
pub(crate) enum Change {
    Begin,
    End,
    Insert {
        place: usize,
        text: String,
    },
    Delete {
        place: usize,
        text: String,
    },
    Replace {
        place: usize,
        old: String,
        new: String,
    },
}

impl Change {
    ghost use Rattle.line_buffer.specs.KeptChanges.{entries_of, entry_of};

    /// Takes in the character that was inserted at `place`, where this is an insert that ends
    /// there, and returns whether it did.
    pub(super) fn join_insert(&mut self, place: usize, c: char) -> Result<bool, OutOfMemory>
        ensures joins { Joins result (entry_of self.old) (entry_of self.new)
            (with_joined_insert place (encode_utf8 c)) (inserted place (encode_utf8 c)) }
        ensures kind { taken_kind (entry_of self.new) ≡ taken_kind (entry_of self.old) }
    {
        match self {
            Change::Insert {
                place: at,
                text: old,
            } if ends_at(*at, old.as_str(), place) => {
                old.push(c)?;
                Ok(true)
            }
            _ => Ok(false),
        }
    }

    /// Takes in the text that was removed from `place`, where this is a delete at that place or one
    /// at which the text ended, and returns whether it did.
    pub(super) fn join_delete(&mut self, place: usize, text: &str) -> Result<bool, OutOfMemory>
        ensures joins { Joins result (entry_of self.old) (entry_of self.new)
            (with_joined_delete place text.now) (deleted place text.now) }
        ensures kind { taken_kind (entry_of self.new) ≡ taken_kind (entry_of self.old) }
    {
        match self {
            Change::Delete {
                place: at,
                text: old,
            } if *at == place => {
                old.push_str(text)?;
                Ok(true)
            }
            Change::Delete {
                place: at,
                text: old,
            } if ends_at(place, text, *at) => {
                old.insert_str(0, text)?;
                *at = place;
                Ok(true)
            }
            _ => Ok(false),
        }
    }

    /// Takes in the text that replaced another at `place`, where this is a replace whose new text
    /// ends there, and returns whether it did.
    pub(super) fn join_replace(
        &mut self,
        place: usize,
        old: &str,
        new: &str,
    ) -> Result<bool, OutOfMemory>
        ensures joins { Joins result (entry_of self.old) (entry_of self.new)
            (with_replace place old.now new.now) (replaced place old.now new.now) }
        ensures kind { taken_kind (entry_of self.new) ≡ taken_kind (entry_of self.old) }
    {
        match self {
            Change::Replace {
                place: at,
                old: before,
                new: after,
            } if ends_at(*at, after.as_str(), place) => {
                before.push_str(old)?;
                after.push_str(new)?;
                Ok(true)
            }
            _ => Ok(false),
        }
    }

    /// Returns the text that was inserted last by these changes.
    pub(super) fn inserted_text(changes: &[Change]) -> Option<&str>
        ensures { option_copied result ≡ last_insert_of (entries_of changes.now) }
    {
        let mut left = changes;
        while let [older @ .., newest] = left {
            match newest {
                Change::End => left = older,
                Change::Insert { text, .. } | Change::Replace { new: text, .. } => {
                    return Some(text.as_str());
                }
                Change::Begin | Change::Delete { .. } => return None,
            }
        }
        None
    }
}

/// Returns whether the text that begins at `place` ends at `end`.
fn ends_at(place: usize, text: &str, end: usize) -> bool
    ensures { result ≡ (place + length text.now == end) }
{
    end.checked_sub(text.len()) == Some(place)
}
