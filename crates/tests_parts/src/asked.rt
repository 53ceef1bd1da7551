//! Calls of those whom a line editor asks about a line: words, candidates, names of files,
//! brackets, hints and helpers.

mod folders;
mod parties;
mod paths;
mod puts;
mod words;

use crate::report::{Report, Row};
use line_config::{ReadlineError, Result};
use parties::Parties;
use std::alloc::Global;
use std::io;
use tests_parties::fault::{CUT, Fault, GONE, USUAL};
use tests_parties::pieces::built;
use tests_parties::shelf::{Failing, Shelf};
use tests_parties::source::Source;

/// The faults by which parties fail, of which the last is that of a folder that is not there.
const FAULTS: &[(&str, Fault)] = &[
    ("usual", USUAL),
    ("gone", GONE),
    ("cut", CUT),
    ("lost", LOST),
];

/// A folder that is not there.
const LOST: Fault = Fault {
    kind: io::ErrorKind::NotFound,
    text: "no such folder",
};

/// Makes the calls of a case of an area; its rows are built of pieces. The area of brackets goes on
/// where memory ran out in a call, which leaves the bracket as it was.
pub fn plays(alloc: Global, area: &str, rows: &[Row<'_>], report: &mut Report) -> Result<()> {
    let mut parties = Parties::new(alloc);
    let mut folder = String::new(alloc);
    for row in rows {
        let line = built(alloc, row.line)?;
        let row = Row {
            number: row.number,
            line: line.as_str(),
        };
        let mut source = Source::new(row.call());
        let given = match area {
            "word" => words::says(alloc, &mut source),
            "put" => puts::says(alloc, &mut source),
            "path" => paths::says(alloc, &mut folder, row.call()),
            "bracket" => parties.lights(alloc, &mut source),
            _ => parties.says(alloc, &mut source),
        };
        if !report.takes(row, given)? && area != "bracket" {
            return Ok(());
        }
    }
    Ok(())
}

/// The next text, without its escapes; an empty one where there is none.
fn plain(alloc: Global, source: &mut Source<'_>) -> Result<String> {
    match source.plain_text(alloc)? {
        Some(text) => Ok(text),
        None => Ok(String::new(alloc)),
    }
}

/// What came, or the fault of a stream. Any other error is handed on.
fn told<T>(outcome: Result<T>) -> Result<std::result::Result<T, io::Error>> {
    match outcome {
        Ok(value) => Ok(Ok(value)),
        Err(ReadlineError::Io(cause)) => Ok(Err(cause)),
        Err(error) => Err(error),
    }
}

/// A history without lines, of which each look-up fails.
fn broken_history(alloc: Global) -> Shelf {
    let mut history = Shelf::new(alloc, 0);
    history.failing = Some((Failing::All, GONE));
    history
}
