//! Each movement in each command that takes one, with the counts 0, 1 and 65535, and each command
//! with a count of its own, with these: on an empty line and at the start, in the middle and at the
//! end of two texts, in both edit modes and in Vi's command mode.

use super::bench::{Beside, Desk, PLAIN, Work, left_by};
use super::movements::{Cell, OF_LONG, OF_TWO, Row};
use crate::{holds, is, same, sure};
use line_buffer::Movement::{self, *};
use line_buffer::RepeatCount;
use line_config::EditMode;
use line_keys::cmd::{Anchor, Cmd};
use std::alloc::Global;
use std::process::Abort;

/// Where two words change places by a count: where the text begins that differs, how it goes on,
/// and the cursor then.
type Swap = (usize, &'static str, usize);

/// A text, a cursor in it, a count, and the words that change places by it.
type Place = (&'static str, usize, RepeatCount, Swap);

/// A text, a cursor in it, what was killed before, a movement with its cell, and a count with the
/// words that change places.
#[derive(Clone, Copy)]
struct Case<'m> {
    text: &'static str,
    cursor: usize,
    killed: &'static str,
    movement: &'m Movement,
    cell: Cell,
    count: RepeatCount,
    swap: Swap,
}

/// A command that takes a movement, or one with a count. What is killed or copied is yanked then.
/// An undo follows two characters that are typed.
#[derive(Clone, Copy)]
enum Op {
    Moves,
    Kills,
    Replaces,
    Copies,
    Indents,
    Dedents,
    Types,
    Puts,
    PutsOver,
    Yanks,
    YanksBehind,
    Undoes,
    GoesUp,
    GoesDown,
    Transposes,
}

/// Those that take a movement.
const WITH_MOVEMENTS: &[Op] = &[
    Op::Moves,
    Op::Kills,
    Op::Replaces,
    Op::Copies,
    Op::Indents,
    Op::Dedents,
];

/// Those with a count.
const WITH_COUNTS: &[Op] = &[
    Op::Types,
    Op::Puts,
    Op::PutsOver,
    Op::Yanks,
    Op::YanksBehind,
    Op::Undoes,
    Op::GoesUp,
    Op::GoesDown,
    Op::Transposes,
];

/// What was killed before a command with a count.
const KILLED: &str = "é";

/// The command of an operation.
fn command(rt: &impl Abort, alloc: Global, case: Case<'_>, op: Op) -> Cmd {
    let movement = sure(rt, case.movement.clone());
    let text = if matches!(op, Op::Puts) { "e" } else { "x" };
    let text = sure(rt, String::from_str(alloc, text));
    let n = case.count;
    match op {
        Op::Moves => Cmd::Move(movement),
        Op::Kills => Cmd::Kill(movement),
        Op::Replaces => Cmd::Replace(movement, Some(text)),
        Op::Copies => Cmd::ViYankTo(movement),
        Op::Indents => Cmd::Indent(movement),
        Op::Dedents => Cmd::Dedent(movement),
        Op::Types => Cmd::SelfInsert(n, '-'),
        Op::Puts => Cmd::Insert(n, text),
        Op::PutsOver => Cmd::ReplaceChar(n, 'x'),
        Op::Yanks => Cmd::Yank(n, Anchor::Before),
        Op::YanksBehind => Cmd::Yank(n, Anchor::After),
        Op::Undoes => Cmd::Undo(n),
        Op::GoesUp => Cmd::LineUpOrPreviousHistory(n),
        Op::GoesDown => Cmd::LineDownOrNextHistory(n),
        Op::Transposes => Cmd::TransposeWords(n),
    }
}

/// The line that an operation leaves, as a range of the text and so many copies of another text
/// that come in its place, and the cursor.
#[derive(Clone, Copy)]
struct Splice {
    from: usize,
    to: usize,
    by: &'static str,
    count: usize,
    pos: usize,
}

/// What an operation leaves; an empty range leaves the text. What a kill takes away is kept, unless
/// its movement goes by characters. A copy takes what a kill takes away, but for the newline before
/// the line at whose start the cursor is. By some movements the lines of the range are indented,
/// and by the others the cursor's alone.
fn wanted(case: Case<'_>, op: Op, takes_commands: bool) -> Splice {
    let (text, cursor, (place, from, to)) = (case.text, case.cursor, case.cell);
    let taken = text.get(from..to).unwrap_or("");
    let (from, to, by, pos) = match (op, case.movement) {
        (Op::Moves, _) => (0, 0, "", place),
        (Op::Kills, BackwardChar(_) | ForwardChar(_)) => (from, to, "", from),
        (Op::Kills, _) => (0, 0, "", behind(takes_commands, taken, to)),
        (Op::Replaces, _) => (from, to, "x", from),
        (Op::Copies, BeginningOfLine) if place == cursor => (0, 0, "", cursor),
        (Op::Copies, _) => {
            let end = cursor.saturating_add(taken.len());
            (cursor, cursor, taken, behind(takes_commands, taken, end))
        }
        (Op::Indents, movement) => {
            let has_lines = matches!(
                movement,
                BackwardWord(..)
                    | ForwardWord(..)
                    | LineUp(_)
                    | LineDown(_)
                    | WholeBuffer
                    | BeginningOfBuffer
                    | EndOfBuffer
            );
            let place = if has_lines && from < to { from } else { cursor };
            let start = match text.get(..place).unwrap_or("").rfind('\n') {
                Some(newline) => newline.saturating_add(1),
                None => 0,
            };
            (start, start, "  ", cursor.saturating_add(2))
        }
        (Op::Dedents, _) => (0, 0, "", cursor),
        (Op::Transposes, _) => {
            let (from, by, pos) = case.swap;
            (from, text.len(), by, pos)
        }
        _ => return counted(case, op, takes_commands),
    };
    Splice {
        from,
        to,
        by,
        count: 1,
        pos,
    }
}

/// The same of one with a count.
fn counted(case: Case<'_>, op: Op, takes_commands: bool) -> Splice {
    let (text, cursor, n) = (case.text, case.cursor, usize::from(case.count));
    let rest = text.get(cursor..).unwrap_or("");
    let behind_next = match rest.chars().next() {
        Some(c) => cursor.saturating_add(c.len_utf8()),
        None => cursor,
    };
    // one text alone has a second line, which is empty
    let has_two = text.ends_with('\n');
    let (from, by, count) = match op {
        Op::PutsOver => return over(cursor, rest, n),
        Op::Types => (cursor, "-", n),
        Op::Puts => (cursor, "e", n),
        Op::Yanks => (cursor, KILLED, n),
        Op::YanksBehind => (behind_next, KILLED, n),
        // two characters are two steps
        Op::Undoes if n < 2 => (cursor, "-", 1),
        Op::GoesUp if has_two && cursor == text.len() => (0, "", 0),
        Op::GoesDown if has_two => (text.len(), "", 0),
        _ => (cursor, "", 0),
    };
    let end = from.saturating_add(by.len().saturating_mul(count));
    let steps_back = takes_commands && matches!(op, Op::Puts | Op::Yanks | Op::YanksBehind);
    let before = text.get(..from).unwrap_or("");
    let last = if count > 0 { by } else { before };
    Splice {
        from,
        to: from,
        by,
        count,
        pos: behind(steps_back, last, end),
    }
}

/// An x comes for each of so many characters, or of as many as there are. The cursor is on the
/// last.
fn over(cursor: usize, rest: &str, n: usize) -> Splice {
    let count = rest.chars().count().min(n);
    let len = match rest.char_indices().nth(count) {
        Some((len, _)) => len,
        None => rest.len(),
    };
    Splice {
        from: cursor,
        to: cursor.saturating_add(len),
        by: "x",
        count,
        pos: cursor.saturating_add(count.saturating_sub(1)),
    }
}

/// Where the cursor is after a text that was yanked there: in Vi's command mode one character back.
fn behind(takes_commands: bool, text: &str, end: usize) -> usize {
    match text.chars().next_back() {
        Some(last) if takes_commands => end.saturating_sub(last.len_utf8()),
        _ => end,
    }
}

/// Executes a command with what is beside it: that leaves what is wanted, and nothing is amiss.
/// Copies are alike where each is as the one before.
fn leaves(rt: &impl Abort, alloc: Global, desk: &Desk, work: Work<'_>, wanted: Splice) {
    let left = left_by(rt, alloc, desk, work);
    let (text, by) = (desk.start.0, wanted.by);
    let before = text.get(..wanted.from).unwrap_or("?");
    let behind = text.get(wanted.to..).unwrap_or("?");
    let rest = left.line.as_str().strip_prefix(before).unwrap_or("?");
    let copies = rest.strip_suffix(behind).unwrap_or("?");
    let first = copies.len().saturating_sub(by.len());
    let are_alike = copies.is_empty()
        || (copies.starts_with(by) && is(copies.get(by.len()..), copies.get(..first)));
    let are_all = copies.len() == by.len().saturating_mul(wanted.count) && are_alike;
    let is_end = left.pos == wanted.pos && same(left.end, "proceeds");
    let is_well = is_end && left.amiss.is_empty();
    holds(rt, are_all && is_well, text, desk.start.1);
}

/// In each of these operations and each mode. What makes a long line is executed in command mode
/// alone, where the cursor steps back.
fn in_each(rt: &impl Abort, alloc: Global, case: Case<'_>, ops: &[Op]) {
    for op in ops {
        let beside = match op {
            Op::Undoes => Beside::Typed,
            Op::Kills | Op::Copies => Beside::Yanked,
            _ => Beside::Nothing,
        };
        let makes_long = matches!(op, Op::Types | Op::Puts | Op::Yanks | Op::YanksBehind);
        for (style, takes_commands) in MODES {
            let takes_commands = *takes_commands;
            if makes_long && case.count == 65535 && !takes_commands {
                continue;
            }
            let desk = Desk {
                style: *style,
                takes_commands,
                start: (case.text, case.cursor),
                killed: case.killed,
                ..PLAIN
            };
            let work = Work::Executes(command(rt, alloc, case, *op), beside);
            leaves(rt, alloc, &desk, work, wanted(case, *op, takes_commands));
        }
    }
}

/// The edit modes, and whether it is Vi's command mode.
const MODES: &[(EditMode, bool)] = &[
    (EditMode::Emacs, false),
    (EditMode::Vi, false),
    (EditMode::Vi, true),
];

/// A text, a cursor in it, and which of a movement's cells is that of this cursor. On an empty line
/// there is none, since each movement leads nowhere.
type Spot = (&'static str, usize, usize);

/// Each movement, from each of these cursors.
fn by_movements(rt: &impl Abort, alloc: Global, spots: &[Spot], rows: &[Row]) {
    for (movement, first, second, third) in rows {
        let cells = &[*first, *second, *third];
        for (text, cursor, index) in spots {
            let case = Case {
                text,
                cursor: *cursor,
                killed: "",
                movement,
                cell: *cells.get(*index).unwrap_or(&(0, 0, 0)),
                count: 0,
                swap: (0, "", 0),
            };
            in_each(rt, alloc, case, WITH_MOVEMENTS);
        }
    }
}

/// `ab, ` 75 times.
const LONG: &str =
    "ab, ab, ab, ab, ab, ab, ab, ab, ab, ab, ab, ab, ab, ab, ab, ab, ab, ab, ab, ab, ab, ab, ab, ab, ab, \
     ab, ab, ab, ab, ab, ab, ab, ab, ab, ab, ab, ab, ab, ab, ab, ab, ab, ab, ab, ab, ab, ab, ab, ab, ab, \
     ab, ab, ab, ab, ab, ab, ab, ab, ab, ab, ab, ab, ab, ab, ab, ab, ab, ab, ab, ab, ab, ab, ab, ab, ab, ";

/// The greatest count takes the first word of the text, and the last one with what is after it.
const SWAPPED: &str =
    "ab, , ab, ab, ab, ab, ab, ab, ab, ab, ab, ab, ab, ab, ab, ab, ab, ab, ab, ab, ab, ab, ab, ab, ab, ab, \
     ab, ab, ab, ab, ab, ab, ab, ab, ab, ab, ab, ab, ab, ab, ab, ab, ab, ab, ab, ab, ab, ab, ab, ab, \
     ab, ab, ab, ab, ab, ab, ab, ab, ab, ab, ab, ab, ab, ab, ab, ab, ab, ab, ab, ab, ab, ab, ab, ab, ab, ab";

/// At the start, in the middle and at the end of both texts, and on an empty line, with each count.
const PLACES: &[Place] = &[
    ("é日\n", 0, 0, (6, "", 5)),
    ("é日\n", 0, 1, (6, "", 5)),
    ("é日\n", 0, 65535, (6, "", 5)),
    (LONG, 0, 0, (300, "", 2)),
    (LONG, 0, 1, (300, "", 2)),
    (LONG, 0, 65535, (0, SWAPPED, 300)),
    ("é日\n", 2, 0, (6, "", 5)),
    ("é日\n", 2, 1, (6, "", 5)),
    ("é日\n", 2, 65535, (6, "", 5)),
    (LONG, 150, 0, (300, "", 150)),
    (LONG, 150, 1, (300, "", 154)),
    (LONG, 150, 65535, (0, SWAPPED, 300)),
    ("", 0, 0, (0, "", 0)),
    ("", 0, 1, (0, "", 0)),
    ("", 0, 65535, (0, "", 0)),
    ("é日\n", 6, 0, (6, "", 5)),
    ("é日\n", 6, 1, (6, "", 5)),
    ("é日\n", 6, 65535, (6, "", 5)),
    (LONG, 300, 0, (300, "", 298)),
    (LONG, 300, 1, (292, "ab, , ab", 300)),
    (LONG, 300, 65535, (0, SWAPPED, 300)),
];

/// At the start, in the middle and at the end of a text of two lines, and on an empty line.
const IN_SHORT_LINES: &[Spot] = &[("é日\n", 0, 0), ("é日\n", 2, 1), ("é日\n", 6, 2), ("", 0, 3)];

/// The same places of a long line.
const IN_A_LONG_LINE: &[Spot] = &[(LONG, 0, 0), (LONG, 150, 1), (LONG, 300, 2)];

#[test]
fn do_what_movements_say(rt: HostRuntime) {
    by_movements(&rt, rt.alloc(), IN_SHORT_LINES, OF_TWO);
    by_movements(&rt, rt.alloc(), IN_A_LONG_LINE, OF_LONG);
}

#[test]
fn do_what_counts_say(rt: HostRuntime) {
    for (text, cursor, count, swap) in PLACES {
        let case = Case {
            text,
            cursor: *cursor,
            killed: KILLED,
            movement: &WholeLine,
            cell: (0, 0, 0),
            count: *count,
            swap: *swap,
        };
        in_each(&rt, rt.alloc(), case, WITH_COUNTS);
    }
}
