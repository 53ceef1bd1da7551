//! Every key, with each set of modifiers, in both edit modes: alone, after a count, after each
//! operator, and as second key.

use super::bench::{CODES, Desk, Item, PLAIN, SETS, Way, agree, items};
use crate::{holds, is, sure};
use line_config::EditMode::{self, Emacs, Vi};
use line_keys::keys::{KeyCode as K, KeyEvent, Modifiers as M};
use std::alloc::Global;
use std::process::Abort;

/// The edit mode, what is typed before the key, and whether the key is executed as one of its own.
type Row = (EditMode, &'static str, bool);

const ROWS: &[Row] = &[
    (Emacs, "b", true),
    (Emacs, "b⌥3", true),
    (Emacs, "b⌥5", true),
    (Emacs, "b⌥-", true),
    (Emacs, "b⌥0", true),
    (Emacs, "b⌃X", false),
    (Emacs, "b⌃]", false),
    (Emacs, "b⌃⌥]", false),
    (Vi, "ab", true),
    (Vi, "ab\u{1b}", true),
    (Vi, "ab\u{1b}R", true),
    (Vi, "ab\u{1b}fb", true),
    (Vi, "ab\u{1b}3", true),
    (Vi, "ab\u{1b}30", true),
    (Vi, "ab\u{1b}c", false),
    (Vi, "ab\u{1b}d", false),
    (Vi, "(b)\u{1b}0c", false),
    (Vi, "ab\u{1b}y", false),
    (Vi, "ab\u{1b}<", false),
    (Vi, "ab\u{1b}>", false),
    (Vi, "ab\u{1b}2d3", false),
    (Vi, "ab\u{1b}c12345", false),
    (Vi, "ab\u{1b}f", false),
    (Vi, "ab\u{1b}T", false),
    (Vi, "ab\u{1b}r", false),
    (Vi, "ab\u{1b}yf", false),
    (Vi, "ab⌥d", false),
    (Vi, "ab⌥3", true),
    (Vi, "ab⌥5", true),
    (Vi, "ab\u{1b}⌥5", true),
    (Vi, "ab\u{1b}R⌥5", true),
    (Vi, "ab⌃X", true),
    (Vi, "ab\u{1b}⌃X", true),
    (Vi, "ab\u{1b}R⌃X", true),
    (Vi, "abd", true),
    (Vi, "ab\u{1b}Rd", true),
];

/// How a key of its own has to end: three submit or interrupt in both edit modes, and one submits
/// in Vi alone.
fn end_of(style: EditMode, key: KeyEvent) -> &'static str {
    match (key, style) {
        (KeyEvent(K::Enter, M::NONE), _) | (KeyEvent(K::Char('J'), M::CTRL), _) => "submits",
        (KeyEvent(K::Char('D'), M::CTRL), Vi) => "submits",
        (KeyEvent(K::Char('C'), M::CTRL), _) => "interrupted",
        _ => "eof",
    }
}

/// Types each key after what is typed before it, all at once and one by one: both leave the same,
/// by the end that is wanted. A failure has the key's number: eight sets of modifiers for each
/// code.
fn end_as_they_must(rt: &impl Abort, alloc: Global, (style, before, alone): Row) {
    let desk = Desk { style, ..PLAIN };
    let mut typed = sure(rt, items(alloc, before));
    let mut number = 0_usize;
    for code in CODES {
        for mods in SETS {
            let key = KeyEvent(*code, *mods);
            sure(rt, typed.push(Item::Key(key)));
            let end = agree(rt, alloc, &desk, &typed, Way::Run, &[Way::OneByOne]);
            let wanted = if alone { end_of(style, key) } else { "eof" };
            holds(rt, is(end, Some(wanted)), before, number);
            let _ = typed.pop();
            number = number.saturating_add(1);
        }
    }
}

#[test]
fn behind_other_keys(rt: HostRuntime) {
    for row in ROWS {
        end_as_they_must(&rt, rt.alloc(), *row);
    }
}
