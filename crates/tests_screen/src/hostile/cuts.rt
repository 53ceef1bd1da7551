//! Lists of keys that are cut at every place: what is left is what the last whole phrase leaves;
//! and where the keys of the phrase that was cut are read again with the rest after them, what the
//! whole list leaves.

use super::bench::{Desk, Item, PLAIN, To, VI, Way, Work, items, left_by};
use crate::{holds, is, same, sure};
use line_buffer::Unit;
use line_keys::keys::{KeyCode as K, KeyEvent, Modifiers as M};
use std::alloc::Global;
use std::process::Abort;

/// How often the keys of a phrase have drawn the line, after each of them but the last; the line
/// with a bar at its cursor that the phrase leaves; and what a yank would give then.
type Phrase = (&'static [u64], &'static str, Option<&'static str>);

/// The edit mode with what is bound, the keys, how many of them are typed first, each a phrase, the
/// phrases after these, how a run on all ends, where the cursor is drawn then, and how often all is
/// drawn.
#[derive(Clone, Copy)]
struct Row {
    desk: Desk,
    keys: &'static str,
    typed: usize,
    phrases: &'static [Phrase],
    end: &'static str,
    at: (Unit, Unit),
    redraws: u64,
}

/// A sequence that begins with C-X.
const BEHIND_X: &[KeyEvent] = &[
    KeyEvent(K::Char('X'), M::CTRL),
    KeyEvent(K::Char('a'), M::NONE),
];

const BOUND: Desk = Desk {
    bound: &[(BEHIND_X, To::Moves)],
    ..PLAIN
};

const COUNT: Row = Row {
    desk: PLAIN,
    keys: "xxxxxxxxxxxxxxxxxxxxxxxxxxxxxx⌃A⌥-23←\r",
    typed: 30,
    phrases: &[
        (&[], "|xxxxxxxxxxxxxxxxxxxxxxxxxxxxxx", None),
        (&[1, 2, 3], "xxxxxxxxxxxxxxxxxxxxxxx|xxxxxxx", None),
        (&[], "xxxxxxxxxxxxxxxxxxxxxxx|xxxxxxx", None),
    ],
    end: "submits",
    at: (0, 25),
    redraws: 5,
};

const KILL: Row = Row {
    desk: VI,
    keys: "a b c d e f g h\u{1b}02d3w",
    typed: 15,
    phrases: &[
        (&[], "a b c d e f g |h", None),
        (&[], "|a b c d e f g h", None),
        (&[1, 2, 3], "|g h", Some("a b c d e f ")),
    ],
    end: "eof",
    at: (0, 2),
    redraws: 6,
};

const UNDO: Row = Row {
    keys: "a b c d e f g h\u{1b}02d3wu",
    phrases: &[
        (&[], "a b c d e f g |h", None),
        (&[], "|a b c d e f g h", None),
        (&[1, 2, 3], "|g h", Some("a b c d e f ")),
        (&[], "a b c d e f |g h", Some("a b c d e f ")),
    ],
    at: (0, 14),
    redraws: 7,
    ..KILL
};

const NO_MOTION: Row = Row {
    desk: VI,
    keys: "ab\u{1b}d2d",
    typed: 2,
    phrases: &[(&[], "a|b", None), (&[0, 1], "a|b", None)],
    end: "eof",
    at: (0, 3),
    redraws: 3,
};

const WHOLE_LINE: Row = Row {
    keys: "ab\u{1b}d2d2dd",
    phrases: &[
        (&[], "a|b", None),
        (&[0, 1], "a|b", None),
        (&[1, 2], "|", Some("ab")),
    ],
    at: (0, 2),
    redraws: 5,
    ..NO_MOTION
};

const SEQUENCE: Row = Row {
    desk: BOUND,
    keys: "q⌃Xa",
    typed: 1,
    phrases: &[(&[0], "|q", None)],
    end: "eof",
    at: (0, 2),
    redraws: 1,
};

const IN_THE_TABLE: Row = Row {
    keys: "q⌃X⌃U",
    phrases: &[(&[0], "|", None)],
    redraws: 2,
    ..SEQUENCE
};

const IN_VAIN: Row = Row {
    keys: "q⌃Xb",
    phrases: &[(&[0], "q|", None)],
    at: (0, 3),
    ..SEQUENCE
};

/// Between the x and the Esc after it a group of changes is open.
const DOT: Row = Row {
    desk: VI,
    keys: "foo bar\u{1b}0cwx\u{1b}w.",
    typed: 7,
    phrases: &[
        (&[], "foo ba|r", None),
        (&[], "|foo bar", None),
        (&[0], "| bar", Some("foo")),
        (&[], "x| bar", Some("foo")),
        (&[], "|x bar", Some("foo")),
        (&[], "x |bar", Some("foo")),
        (&[], "x |x", Some("bar")),
    ],
    end: "eof",
    at: (0, 4),
    redraws: 4,
};

const BRACKET: Row = Row {
    desk: VI,
    keys: "f(a[b])\u{1b}%2d3%P",
    typed: 7,
    phrases: &[
        (&[], "f(a[b]|)", None),
        (&[], "f|(a[b])", None),
        (&[1, 2, 3], "f|", Some("(a[b])")),
        (&[], "f(a[b]|)", Some("(a[b])")),
    ],
    end: "eof",
    at: (0, 8),
    redraws: 7,
};

/// A phrase that leads from insert mode to command mode by Alt.
const BEHIND_ALT: Row = Row {
    desk: VI,
    keys: "ab cd⌥2bdw",
    typed: 5,
    phrases: &[(&[1], "|ab cd", None), (&[0], "|cd", Some("ab "))],
    end: "eof",
    at: (0, 2),
    redraws: 4,
};

/// How many keys the last whole phrase ends after, how often the keys after it have drawn the line,
/// the line before and after its cursor, and what a yank would give.
type Stage = (
    usize,
    u64,
    (&'static str, &'static str),
    Option<&'static str>,
);

/// The last whole phrase of the first keys, so many.
fn stage(row: &Row, cut: usize) -> Stage {
    let typed = row.typed.min(cut);
    let mut last: Stage = (typed, 0, (row.keys.get(..typed).unwrap_or("?"), ""), None);
    for (drawn, line, kill) in row.phrases {
        let left = cut.saturating_sub(last.0);
        if left == 0 {
            return last;
        }
        if let Some(drawn) = drawn.get(left.saturating_sub(1)) {
            return (last.0, *drawn, last.2, last.3);
        }
        let read = last.0.saturating_add(drawn.len()).saturating_add(1);
        last = (read, 0, line.split_once('|').unwrap_or(("?", "?")), *kill);
    }
    last
}

/// What is left after this work is what a phrase leaves, after so many keys and by this end, and
/// nothing is amiss. Returns whether the line is drawn as in a full redraw, where the cursor is
/// drawn, and how often all was drawn.
fn leaves(
    rt: &impl Abort,
    alloc: Global,
    row: &Row,
    work: Work<'_>,
    stage: Stage,
    end: (&str, usize),
) -> (bool, (Unit, Unit), u64) {
    let left = left_by(rt, alloc, &row.desk, work);
    let mut is_so = match left.line.as_str().split_at_checked(left.pos) {
        Some((before, behind)) => same(before, stage.2.0) && same(behind, stage.2.1),
        None => false,
    };
    is_so &= is(left.yanked.as_deref(), stage.3);
    is_so &= same(left.end, end.0) && left.given == end.1;
    is_so &= left.place == 0 && left.amiss.is_empty();
    holds(rt, is_so, row.keys, stage.0);
    (left.is_drawn, left.at, left.redraws)
}

/// Runs on the first keys: the input ends, unless they are all; and what is left is what the last
/// whole phrase leaves. Then these are read by turns, and with the rest after them those of the
/// phrase that was cut once more: what is left is what all leave, but that a count that was cut is
/// drawn once more.
fn cuts(rt: &impl Abort, alloc: Global, row: &Row, keys: &[Item], at: usize) {
    let last = stage(row, at);
    let end = if at < keys.len() { "eof" } else { row.end };
    let work = Work::Reads(Way::Run, keys.get(..at).unwrap_or(keys));
    let (is_drawn, _, _) = leaves(rt, alloc, row, work, last, (end, at));
    holds(rt, is_drawn || last.0 != at, row.keys, at);
    let (count, redraws) = (keys.len(), row.redraws.saturating_add(last.1));
    let work = Work::Reads(Way::CutAt(at), keys);
    let stage = stage(row, count);
    let (is_drawn, place, drawn) = leaves(rt, alloc, row, work, stage, (row.end, count));
    let is_placed = place.0 == row.at.0 && place.1 == row.at.1;
    holds(rt, is_drawn && is_placed && drawn == redraws, row.keys, at);
}

const ROWS: &[Row] = &[
    COUNT,
    KILL,
    UNDO,
    NO_MOTION,
    WHOLE_LINE,
    SEQUENCE,
    IN_THE_TABLE,
    IN_VAIN,
    DOT,
    BRACKET,
    BEHIND_ALT,
];

#[test]
fn at_every_place(rt: HostRuntime) {
    for row in ROWS {
        let keys = sure(&rt, items(rt.alloc(), row.keys));
        for at in 0..=keys.len() {
            cuts(&rt, rt.alloc(), row, keys.as_slice(), at);
        }
    }
}
