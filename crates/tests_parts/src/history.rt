//! Calls of a history in memory and of one that can be saved, and of streams that fail.

mod calls;
pub mod stream;

use crate::report::{Report, Row};
use calls::{Call, file_says, mem_says};
use line_config::Result;
use line_parts::{DefaultHistory, FileHistory, History, MemHistory};
use std::alloc::Global;
use stream::{Manner, Stream, WHOLE};

/// Makes the calls of a case once for each of these manners in which its streams fail.
pub fn plays(
    alloc: Global,
    rows: &[Row<'_>],
    report: &mut Report,
    manners: &[Manner],
) -> Result<()> {
    for manner in manners {
        plays_by(alloc, rows, report, manner)?;
    }
    Ok(())
}

/// Makes each call of a history of each kind, up to the first one that the history in memory does
/// not have; the others of the history that can be saved. After a call that is refused memory come
/// the rows `left` behind it, and the case ends.
fn plays_by(alloc: Global, rows: &[Row<'_>], report: &mut Report, manner: &Manner) -> Result<()> {
    let mut mem = MemHistory::new(alloc);
    let mut file: DefaultHistory = FileHistory::new(alloc);
    let mut out = Stream::new(alloc, "", WHOLE, manner);
    let (mut in_memory, mut refused) = (true, false);
    for row in rows {
        let (count, line) = left_of(row.call());
        if refused && count.is_empty() {
            return Ok(());
        }
        let right_count = count.is_empty() || count == "*" || count.parse() == Ok(file.len());
        if refused == count.is_empty() || !right_count {
            continue;
        }
        let call = Call::read(alloc, line)?;
        let given = if in_memory {
            mem_says(alloc, &mut mem, &call)
        } else {
            Ok(None)
        };
        in_memory = in_memory && !matches!(given, Ok(None));
        let goes_on = !in_memory || report.takes(*row, given)?;
        if goes_on && !report.takes(*row, file_says(alloc, &mut file, &mut out, &call))? {
            in_memory = false;
            refused = true;
        }
        refused = refused || !goes_on;
    }
    Ok(())
}

/// The number of lines that a row `left` is for, a star for any, and its call; no number for any
/// other row.
fn left_of(call: &str) -> (&str, &str) {
    match call.strip_prefix("left ") {
        Some(left) => left.split_once(' ').unwrap_or(("*", left)),
        None => ("", call),
    }
}
