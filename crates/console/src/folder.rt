//! The folder in which the console runs.
ghost use Rattle.std.specs.Prelude.{◌≡◌, map, true, Some, None, if◌then◌else◌, IfOk};
ghost use Rattle.line_config.specs.Error.{MemoryOnly};
ghost use Rattle.line_parts.specs.Completed.{listed_of};

use line_config::Result;
use line_parts::{Entry, Lister};
use std::alloc::Global;
use std::fs;
use std::rt::Files;

/// The names in the folder in which the console runs, and in no other.
#[derive(Drop)]
pub(crate) struct Folder {
    entries: Vec<Entry>,
}

impl Folder {
    /// Returns the folder with the names that are in it now. Those that are not UTF-8 are left out,
    /// and so are all where it cannot be read.
    ///
    /// # Errors
    /// `Memory`.
    pub(crate) fn read<R: Files + AllocGlobal + Clone + Drop>(rt: &R) -> Result<Folder> {
        let mut entries = Vec::new(rt.alloc());
        let Ok(found) = fs::read_dir(rt, ".") else {
            return Ok(Folder { entries });
        };
        for entry in found {
            let Ok(entry) = entry else {
                continue;
            };
            entries.push(Entry {
                name: String::from_str(rt.alloc(), entry.file_name())?,
                folder: matches!(entry.file_type(), Ok(kind) if kind.is_dir()),
            })?;
        }
        Ok(Folder { entries })
    }
}

impl Lister for Folder {
    ghost use Rattle.console.specs.Here.{is_here};

    ghost sure = { λ _. true };

    ghost listing = { λ folder dir.
        if is_here dir then Some (map listed_of folder.entries.items) else None };

    fn list(&self, alloc: Global, dir: &str) -> Result<Option<Vec<Entry>>> {
        if !dir.is_empty() && dir != "./" {
            return Ok(None);
        }
        Ok(Some(copied(alloc, self.entries.as_slice())?))
    }
}

/// Returns copies of names.
fn copied(alloc: Global, entries: &[Entry]) -> Result<Vec<Entry>>
    ensures entries { IfOk result (λ v. map listed_of v.items ≡ map listed_of entries.now) }
    ensures memory { MemoryOnly result }
{
    let mut copies = Vec::new(alloc);
    for entry in entries {
        copies.push(Entry {
            name: entry.name.clone()?,
            folder: entry.folder,
        })?;
    }
    Ok(copies)
}
