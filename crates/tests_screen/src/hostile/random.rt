//! Lists of keys and pasted texts that are made from a number, in both edit modes, with bindings,
//! hints and brackets, on narrow and wide screens. What is promised of each turn is looked at on
//! the desk; a run leaves what turns leave, and so do items that come one by one; and where all is
//! taken back the text is that of the start.

use super::bench::{CODES, Desk, Item, SETS, To, Way, agree};
use crate::{holds, sure};
use line_buffer::Unit;
use line_config::EditMode;
use line_keys::keys::{KeyCode as K, KeyEvent, Modifiers as M};
use std::alloc::Global;
use std::process::Abort;

/// Numbers that look mixed, each from the one before by a linear congruence, of which the upper
/// bits are taken; and how many digits were made.
#[derive(Clone, Copy)]
struct Dice {
    last: usize,
    digits: usize,
}

impl Dice {
    /// A number below this one.
    fn below(&mut self, limit: usize) -> usize {
        self.last = self
            .last
            .wrapping_mul(1_664_525)
            .wrapping_add(1_013_904_223);
        (self.last >> 24).checked_rem(limit).unwrap_or(0)
    }

    /// One of these, or this one where there is none.
    fn pick<T: Copy>(&mut self, all: &[T], other: T) -> T {
        match all.get(self.below(all.len())) {
            Some(one) => *one,
            None => other,
        }
    }
}

const ENTER: KeyEvent = KeyEvent(K::Enter, M::NONE);

const ESC: KeyEvent = KeyEvent(K::Esc, M::NONE);

const PASTED: &[&str] = &[
    "",
    "a",
    "ab c",
    "é日",
    "\n",
    "\r\n",
    "e\u{301}\u{301}",
    "\u{1f1e9}\u{1f1ea}",
    "\u{1f469}\u{200d}\u{1f469}",
    "(]{",
    "one two\nthree",
    "\t \u{3000}",
    "\u{200d}",
    "\u{7f}\u{9b}",
];

/// What people type: letters, brackets, blanks, and characters that are wide or join others.
const TYPED: &[char] = &[
    'a',
    'b',
    'l',
    'i',
    'n',
    'e',
    'g',
    't',
    ' ',
    '(',
    ')',
    '[',
    ']',
    '-',
    '_',
    '.',
    'é',
    '日',
    '\u{301}',
    '\n',
    '\t',
    '\u{1f1e9}',
    '\u{200d}',
];

const DIGITS: &[char] = &['0', '1', '2', '3', '5', '9'];

/// Characters of Emacs that come with Ctrl, and with Alt.
const WITH_CTRL: &[char] = &[
    'A', 'B', 'C', 'D', 'E', 'F', 'G', 'H', 'J', 'K', 'L', 'M', 'N', 'P', 'T', 'U', 'W', 'X', 'Y',
    ']', '_',
];

const WITH_ALT: &[char] = &['b', 'c', 'd', 'f', 'l', 't', 'u', 'y', '<', '>', '-'];

const OF_VI: &[char] = &[
    'h', 'l', 'j', 'k', 'w', 'W', 'b', 'B', 'e', 'E', '$', '^', '%', '%', '%', 'f', 'F', 't', 'T',
    ';', ',', '.', 'a', 'A', 'i', 'I', 'c', 'C', 's', 'S', 'R', 'd', 'd', 'y', 'y', '<', '>', 'D',
    'x', 'X', 'p', 'P', 'r', 'u', '+', '-',
];

/// Keys without a character.
const OTHERS: &[K] = &[
    K::Left,
    K::Right,
    K::Up,
    K::Down,
    K::Home,
    K::End,
    K::Backspace,
    K::Delete,
    K::F(4),
    K::F(5),
];

/// A key: often one of a table of the edit mode, at times any one. The mark before a pasted text
/// then stands without one.
fn key(dice: &mut Dice, style: EditMode) -> KeyEvent {
    match dice.below(16) {
        0..=4 => KeyEvent(K::Char(dice.pick(TYPED, 'a')), M::NONE),
        // a key of the edit mode's own table
        5..=9 if matches!(style, EditMode::Vi) => KeyEvent(K::Char(dice.pick(OF_VI, 'w')), M::NONE),
        5..=9 if dice.below(3) == 0 => KeyEvent(K::Char(dice.pick(WITH_ALT, 'b')), M::ALT),
        5..=9 => KeyEvent(K::Char(dice.pick(WITH_CTRL, 'A')), M::CTRL),
        10..=11 => KeyEvent(dice.pick(OTHERS, K::Left), M::NONE),
        // mostly a digit of a count; a list has two digits at most, so that no text grows without
        // end
        12 if dice.digits == 2 => ESC,
        12 => {
            dice.digits = dice.digits.saturating_add(1);
            let digit = K::Char(dice.pick(DIGITS, '2'));
            let with_alt = matches!(style, EditMode::Emacs) != (dice.below(4) == 0);
            KeyEvent(digit, if with_alt { M::ALT } else { M::NONE })
        }
        13 => ESC,
        14 if dice.below(6) == 0 => ENTER,
        _ => KeyEvent(dice.pick(CODES, K::Tab), dice.pick(SETS, M::NONE)),
    }
}

const COLUMNS: &[Unit] = &[1, 2, 3, 4, 7, 10, 40, 80, 80, 80, 65535];

const PROMPTS: &[&str] = &["> ", "> ", "", "日> ", "0123456789"];

const STARTS: &[(&str, usize)] = &[
    ("", 0),
    ("", 0),
    ("line", 4),
    ("ab (c\né日] d", 3),
    ("f(a[日\n{b}])", 1),
    ("e\u{301}x\n\n  y", 4),
    ("git", 3),
];

const ENTRIES: &[&[&str]] = &[
    &[],
    &["line1", "line2", "line1 more"],
    &["a\nb", "日", "(", "git status"],
];

const F4: KeyEvent = KeyEvent(K::F(4), M::NONE);

const F5: KeyEvent = KeyEvent(K::F(5), M::NONE);

const A: KeyEvent = KeyEvent(K::Char('a'), M::NONE);

const CTRL_X: KeyEvent = KeyEvent(K::Char('X'), M::CTRL);

/// A key is bound to a text that comes again, one and a sequence that begins with it to an undo and
/// to a yank, and a sequence of C-X to a move.
const BOUND: &[(&[KeyEvent], To)] = &[
    (&[F5], To::PutsAgain),
    (&[F4, F4], To::Undoes(1)),
    (&[F4, A], To::Yanks(2)),
    (&[CTRL_X, A], To::Moves),
];

/// A desk of this mode. The first numbers look alike where the seeds are near, and are passed over.
fn laid(dice: &mut Dice, style: EditMode) -> Desk {
    for _ in 0..4 {
        let _ = dice.below(1);
    }
    Desk {
        style,
        takes_commands: false,
        columns: dice.pick(COLUMNS, 80),
        prompt: dice.pick(PROMPTS, "> "),
        start: dice.pick(STARTS, ("", 0)),
        killed: "",
        bound: if dice.below(2) == 0 { BOUND } else { &[] },
        hints: dice.below(2) == 0,
        brackets: dice.below(2) == 0,
        entries: dice.pick(ENTRIES, &[]),
    }
}

/// The list of this number, up to 32 items of which one in twelve is a pasted text, read in each
/// way: nothing is amiss, each leaves the same, and a run draws as often as turns.
fn plays(rt: &impl Abort, alloc: Global, style: EditMode, seed: usize) {
    let mut dice = Dice {
        last: seed,
        digits: 0,
    };
    let desk = laid(&mut dice, style);
    let mut items = Vec::new(alloc);
    for _ in 0..dice.below(32).saturating_add(1) {
        let item = if dice.below(12) == 0 {
            Item::Paste(dice.pick(PASTED, ""))
        } else {
            Item::Key(key(&mut dice, style))
        };
        sure(rt, items.push(item));
    }
    let others = &[Way::Run, Way::OneByOne];
    let end = agree(rt, alloc, &desk, items.as_slice(), Way::Turns, others);
    holds(rt, end.is_some(), "the list", seed);
}

#[test]
fn keep_what_is_promised(rt: HostRuntime) {
    for seed in 0..2000 {
        let style = if seed < 1000 {
            EditMode::Emacs
        } else {
            EditMode::Vi
        };
        plays(&rt, rt.alloc(), style, seed);
    }
}
