//! The tests of keys, their tables, bindings and commands, of `line_screen`, the programs of the
//! documents that stand on it, scripts of `line_script`, and hostile use.
#![tactic(auto)]

#[cfg(test)]
use std::fmt::Debug;
#[cfg(test)]
use std::process::Abort;

#[cfg(test)]
mod by_keys;
#[cfg(test)]
mod caller;
#[cfg(test)]
mod commands;
#[cfg(test)]
mod definitions;
#[cfg(test)]
mod hostile;
#[cfg(test)]
mod key_queue;
#[cfg(test)]
mod keys;
#[cfg(test)]
mod maps;
#[cfg(test)]
mod measure;
#[cfg(test)]
mod names;
#[cfg(test)]
mod phrases;
#[cfg(test)]
mod plain;
#[cfg(test)]
mod programs;
#[cfg(test)]
mod read_line;
#[cfg(test)]
mod scripts;
#[cfg(test)]
mod tables;
#[cfg(test)]
mod vi_phrases;

/// It holds in this case, of which this number says more.
#[cfg(test)]
fn holds(rt: &impl Abort, is_so: bool, case: &str, number: usize) {
    assert!(rt; is_so, "{case:?} {number}");
}

/// The value; where there is none, the test fails.
#[cfg(test)]
fn sure<T, E: Debug + Drop>(rt: &impl Abort, outcome: Result<T, E>) -> T {
    outcome.expect(rt, "no fault")
}

/// Whether two texts are the same.
#[cfg(test)]
fn same(one: &str, other: &str) -> bool {
    one == other
}

/// Whether a text is there and the wanted one; or none, where none is wanted.
#[cfg(test)]
fn is(found: Option<&str>, wanted: Option<&str>) -> bool {
    found == wanted
}

/// Whether the bytes of two texts are the same.
#[cfg(test)]
fn same_bytes(one: &[u8], other: &[u8]) -> bool {
    one == other
}

/// Whether a line that is parted at its cursor is the wanted one, which has a bar there.
#[cfg(test)]
fn is_parted(before: &str, behind: &str, wanted: &str) -> bool {
    match wanted.split_once('|') {
        Some((front, rest)) => same(before, front) && same(behind, rest),
        None => false,
    }
}
