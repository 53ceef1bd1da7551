//! Bytes that are made from a number: in one piece they come to what they come to one by one, and
//! no character is typed that is not in them as text.

use crate::by_bytes::{EACH, Ear, feeds};
use crate::holds;
use line_config::Result;
use line_keys::raw_reader::RawReader;
use line_screen::KeyQueue;
use std::alloc::Global;

/// A number below this one. Numbers look mixed, each made of the last one by a linear congruence,
/// of which the upper bits are taken.
fn below(last: &mut usize, limit: usize) -> usize {
    *last = last.wrapping_mul(1_664_525).wrapping_add(1_013_904_223);
    (*last >> 24).checked_rem(limit).unwrap_or(0)
}

/// What bytes are put together of.
const PARTS: &[&str] = &[
    "\x1b",
    "\x1b[",
    "\x1bO",
    "\x1b]",
    "\x1bP",
    "\x1b\\",
    "\x1b[200~",
    "\x1b[201~",
    "\x1b[M",
    "[",
    "1",
    "27",
    ";",
    ":",
    "?",
    "$",
    "~",
    "u",
    "A",
    "\x07",
    "\x18",
    "\r",
    "\n",
    "\t",
    "\x7f",
    "q",
    "\u{c3}",
    "\u{a9}",
    "\u{c3}\u{a9}",
    "\u{e6}\u{97}",
    "\u{f0}\u{9f}\u{98}\u{80}",
    "\u{ff}",
];

/// What sequences are put together of, beside what begins and ends them.
const INSIDE: &[&str] = &[
    "0",
    "1",
    "9",
    ";",
    ":",
    "<",
    "?",
    " ",
    "!",
    "\x01",
    "\r",
    "\x7f",
    "\u{c3}\u{a9}",
];

/// The number that the first bytes are made from, what begins them, how many parts they have less
/// than, the parts, what ends them, and whether they stand for something.
type Making = (
    usize,
    &'static str,
    usize,
    &'static [&'static str],
    &'static str,
    bool,
);

const MADE: &[Making] = &[
    (20, "", 24, PARTS, "■", true),
    (21, "\x1b]0", 12, INSIDE, "\x1b\\■", false),
];

/// Makes bytes of parts.
fn made(alloc: Global, last: &mut usize, making: &Making) -> Result<String> {
    let (_, start, limit, parts, end, _) = making;
    let mut bytes = String::from_str(alloc, start)?;
    for _ in 0..below(last, *limit) {
        bytes.push_str(parts.get(below(last, parts.len())).unwrap_or(&""))?;
    }
    bytes.push_str(end)?;
    Ok(bytes)
}

/// Whether the next pasted texts of two queues are the same.
fn paste_the_same(one: &mut KeyQueue, other: &mut KeyQueue) -> bool {
    match (one.read_pasted_text(), other.read_pasted_text()) {
        (Ok(one), Ok(other)) => one.as_str() == other.as_str(),
        _ => false,
    }
}

/// Whether the next keys or pasted texts of two queues are the same.
fn give_the_same(one: &mut KeyQueue, other: &mut KeyQueue) -> bool {
    match (one.next_key(false), other.next_key(false)) {
        (Ok(one), Ok(other)) => one == other,
        _ => paste_the_same(one, other),
    }
}

/// Whether two queues have the same keys and pasted texts.
fn have_the_same(one: &mut KeyQueue, other: &mut KeyQueue) -> bool {
    for _ in 0..one.len() {
        if !give_the_same(one, other) {
            return false;
        }
    }
    one.is_empty() && other.is_empty()
}

/// Whether bytes come to the same in one piece and one by one, and to nothing where they are not to
/// stand for something.
fn come_to_the_same(alloc: Global, bytes: &str, can_stand: bool) -> bool {
    let mut whole = Ear::new(alloc);
    let mut single = Ear::new(alloc);
    feeds(alloc, &mut whole, bytes, 0)
        && feeds(alloc, &mut single, bytes, EACH)
        && (can_stand || whole.keys.is_empty())
        && have_the_same(&mut whole.keys, &mut single.keys)
}

#[test]
fn come_to_the_same_in_any_pieces(rt: HostRuntime) {
    for making in MADE {
        let mut last = making.0;
        for number in 0..2000 {
            let bytes = made(rt.alloc(), &mut last, making).expect(&rt, "memory");
            let is_so = come_to_the_same(rt.alloc(), &bytes, making.5);
            holds(&rt, is_so, making.4, number);
        }
    }
}
