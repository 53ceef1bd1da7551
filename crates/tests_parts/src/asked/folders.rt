//! A folder that is listed from memory.
ghost use Rattle.std.specs.Prelude.{◌≡◌, map, false, Some, None, if◌then◌else◌, IfOk};
ghost use Rattle.std.specs.Prelude.{bytes_eq, string_bytes};
ghost use Rattle.line_config.specs.Error.{MemoryOnly};
ghost use Rattle.line_parts.specs.Completed.{listed_of};

use super::{FAULTS, plain};
use line_config::Result;
use line_parts::{Entry, Lister};
use std::alloc::Global;
use tests_parties::countdown::Countdown;
use tests_parties::fault::{Fault, GONE};
use tests_parties::source::Source;

/// Which calls of a lister fail.
#[derive(Clone, Copy)]
pub enum Broken {
    /// The one of this number, from 1 on; none where that is 0.
    Call(u64),
    /// Those for its folder.
    At,
    /// Those for other folders.
    ButAt,
}

/// The calls that fail, by name.
const BROKEN: &[(&str, Broken)] = &[
    ("first", Broken::Call(1)),
    ("second", Broken::Call(2)),
    ("own", Broken::At),
    ("others", Broken::ButAt),
];

/// The one folder that can be listed, with the names in it, in a lister of which some calls fail.
#[derive(Drop)]
pub struct Folder {
    path: String,
    entries: Vec<Entry>,
    broken: Broken,
    countdown: Countdown,
    fault: Fault,
}

/// The same names.
fn copied(alloc: Global, entries: &[Entry]) -> Result<Vec<Entry>>
    ensures entries { IfOk result (λ v. map listed_of v.items ≡ map listed_of entries.now) }
    ensures memory { MemoryOnly result }
{
    let mut copies = Vec::new(alloc);
    for entry in entries {
        copies.push(Entry {
            name: entry.name.clone()?,
            folder: entry.folder,
        })?;
    }
    Ok(copies)
}

impl Lister for Folder {
    ghost sure = { λ _. false };

    ghost listing = { λ folder dir. if bytes_eq dir (string_bytes folder.path)
        then Some (map listed_of folder.entries.items) else None };

    fn list(&self, alloc: Global, dir: &str) -> Result<Option<Vec<Entry>>> {
        self.countdown.call()?;
        if dir != self.path.as_str() {
            return match self.broken {
                Broken::ButAt => self.fault.answer(),
                _ => Ok(None),
            };
        }
        if matches!(self.broken, Broken::At) {
            return self.fault.answer();
        }
        Ok(Some(copied(alloc, self.entries.as_slice())?))
    }
}

/// The folder of a path; a comma stands between its names, and a slash after those of folders; and
/// perhaps which calls fail, and how.
pub fn folder_of(alloc: Global, source: &mut Source<'_>) -> Result<Folder> {
    let path = plain(alloc, source)?;
    let mut entries = Vec::new(alloc);
    for name in plain(alloc, source)?.split(',') {
        entries.push(Entry {
            name: String::from_str(alloc, name.strip_suffix('/').unwrap_or(name))?,
            folder: name.ends_with('/'),
        })?;
    }
    let broken = source.named(BROKEN).unwrap_or(Broken::Call(0));
    let fault = source.named(FAULTS).unwrap_or(GONE);
    let failing = match broken {
        Broken::Call(number) => number,
        _ => 0,
    };
    Ok(Folder {
        path,
        entries,
        broken,
        countdown: Countdown::with(failing, fault),
        fault,
    })
}
