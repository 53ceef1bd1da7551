//! The tests of `line_term`: sequences of terminals, texts and pasted texts by their bytes, bytes
//! that are made from a number, and what a terminal asks of its output; and of `line_session`:
//! lines by the bytes that are typed, whole and in pieces, completions and searches, and what is
//! left where one of those who are asked fails.
#![tactic(auto)]

#[cfg(test)]
use std::process::Abort;

#[cfg(test)]
mod by_bytes;
#[cfg(test)]
mod completions;
#[cfg(test)]
mod faults;
#[cfg(test)]
mod lines;
#[cfg(test)]
mod parties;
#[cfg(test)]
mod random;
#[cfg(test)]
mod searches;
#[cfg(test)]
mod sequences;
#[cfg(test)]
mod sessions;
#[cfg(test)]
mod terminal;
#[cfg(test)]
mod texts;

/// It holds in this case, of which this number says more.
#[cfg(test)]
fn holds(rt: &impl Abort, is_so: bool, case: &str, number: usize) {
    assert!(rt; is_so, "{case:?} {number}");
}
