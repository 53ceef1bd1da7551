//! Calls of a kill ring.

use crate::report::{Report, Row, gives, shown, text_shown};
use line_buffer::{KillRing, Mode};
use line_config::Result;
use std::alloc::Global;
use tests_parties::source::Source;

/// Makes the calls of a case, one after another. A ring that refused a kill holds no more texts than
/// its size: every so many yank-pops give the same.
pub fn plays(alloc: Global, rows: &[Row<'_>], report: &mut Report) -> Result<()> {
    let mut ring = KillRing::new(alloc, 0);
    for row in rows {
        let given = makes(alloc, &mut ring, &mut Source::new(row.call()));
        if given.is_err() && !is_settled(&mut ring) {
            let _ = report.differs(*row, "what is not settled", false)?;
        }
        if !report.takes(*row, given)? {
            return Ok(());
        }
    }
    Ok(())
}

/// Whether two yank-pops after each other give texts of the same length as the two behind them.
fn is_settled(ring: &mut KillRing) -> bool {
    ring.reset();
    let _ = ring.yank();
    let (first, second) = (popped(ring), popped(ring));
    popped(ring) == first && popped(ring) == second
}

/// The length of the text that a yank-pop takes away, zero where it gives nothing.
fn popped(ring: &mut KillRing) -> usize {
    match ring.yank_pop() {
        Some((size, _)) => size,
        None => 0,
    }
}

const SIDES: &[(&str, Mode)] = &[("Append", Mode::Append), ("Prepend", Mode::Prepend)];

/// Makes a call. What it gives; None where there is no such call.
fn makes(alloc: Global, ring: &mut KillRing, source: &mut Source<'_>) -> Result<Option<String>> {
    match source.word().unwrap_or("") {
        "ring" => *ring = KillRing::new(alloc, source.number()),
        "reset" => ring.reset(),
        "kill" => {
            let text = source.built_text(alloc)?;
            let Some(side) = source.named(SIDES) else {
                return Ok(None);
            };
            ring.kill(&text, side)?;
        }
        "kills_apart" => kills(alloc, ring, source)?,
        "yank" => return gives(alloc, ring.yank()),
        "yank_pop" => return pops(alloc, ring),
        "pops_alike" => return alike(alloc, ring, source.number()),
        _ => return Ok(None),
    }
    shown(alloc, ())
}

/// Kills a text so many times, each for itself.
fn kills(alloc: Global, ring: &mut KillRing, source: &mut Source<'_>) -> Result<()> {
    let (times, text) = (source.number(), source.built_text(alloc)?);
    for _ in 0..times {
        ring.kill(&text, Mode::Append)?;
        ring.reset();
    }
    Ok(())
}

/// What a yank-pop gives: the length of the text that goes, and the one that comes.
fn pops(alloc: Global, ring: &mut KillRing) -> Result<Option<String>> {
    match ring.yank_pop() {
        Some((size, text)) => {
            let text = text_shown(alloc, text)?;
            Ok(Some(format!(in alloc; "{size} {text}")?))
        }
        None => Ok(Some(String::from_str(alloc, "nothing")?)),
    }
}

/// What so many yank-pops give, if each gives the same.
fn alike(alloc: Global, ring: &mut KillRing, times: usize) -> Result<Option<String>> {
    let first = pops(alloc, ring)?.unwrap_or(String::new(alloc));
    for _ in 1..times {
        let next = pops(alloc, ring)?.unwrap_or(String::new(alloc));
        if next.as_str() != first.as_str() {
            return Ok(Some(next));
        }
    }
    Ok(Some(first))
}
