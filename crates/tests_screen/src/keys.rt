//! Keys and their modifiers.

use self::Made::*;
use self::With::*;
use crate::{holds, same, sure};
use bitflags::Flags;
use line_editor::binding::{Event, EventHandler, NoHandler};
use line_keys::cmd::Cmd;
use line_keys::keys::{KeyCode as K, KeyEvent, Modifiers as M};
use line_keys::refresher::Invoke;
use std::collections::HashMap;

/// Each set of modifiers; the same with Ctrl, with Shift and without Shift.
const SETS: &[(M, M, M, M)] = &[
    (M::NONE, M::CTRL, M::SHIFT, M::NONE),
    (M::SHIFT, M::CTRL_SHIFT, M::SHIFT, M::NONE),
    (M::ALT, M::CTRL_ALT, M::ALT_SHIFT, M::ALT),
    (M::ALT_SHIFT, M::CTRL_ALT_SHIFT, M::ALT_SHIFT, M::ALT),
    (M::CTRL, M::CTRL, M::CTRL_SHIFT, M::CTRL),
    (M::CTRL_SHIFT, M::CTRL_SHIFT, M::CTRL_SHIFT, M::CTRL),
    (M::CTRL_ALT, M::CTRL_ALT, M::CTRL_ALT_SHIFT, M::CTRL_ALT),
    (
        M::CTRL_ALT_SHIFT,
        M::CTRL_ALT_SHIFT,
        M::CTRL_ALT_SHIFT,
        M::CTRL_ALT,
    ),
];

/// How an event is made: of a character, with Ctrl or Alt or plain, or as the normal form of a key.
enum Made {
    New(char),
    Ctrl(char),
    Alt(char),
    Plain(char),
    Normal(K),
}

/// With which modifiers it is made, and what they become: each set of them, which stays, gets Ctrl
/// or Shift or loses Shift; or one set alone, and what that becomes.
enum With {
    Each,
    EachAndCtrl,
    EachAndShift,
    EachNotShift,
    Only(M, M),
}

/// How an event is made, its key, and its modifiers.
const EVENTS: &[(Made, K, With)] = &[
    (New(' '), K::Char(' '), EachNotShift),
    (New('a'), K::Char('a'), EachNotShift),
    (New('A'), K::Char('A'), EachNotShift),
    (New('['), K::Char('['), EachNotShift),
    (New('~'), K::Char('~'), EachNotShift),
    (New('\u{a0}'), K::Char('\u{a0}'), EachNotShift),
    (New('é'), K::Char('é'), EachNotShift),
    (New('\u{d7ff}'), K::Char('\u{d7ff}'), EachNotShift),
    (New('\u{10ffff}'), K::Char('\u{10ffff}'), EachNotShift),
    (New('\u{0}'), K::Char('@'), EachAndCtrl),
    (New('\u{1}'), K::Char('A'), EachAndCtrl),
    (New('\u{2}'), K::Char('B'), EachAndCtrl),
    (New('\u{3}'), K::Char('C'), EachAndCtrl),
    (New('\u{4}'), K::Char('D'), EachAndCtrl),
    (New('\u{5}'), K::Char('E'), EachAndCtrl),
    (New('\u{6}'), K::Char('F'), EachAndCtrl),
    (New('\u{7}'), K::Char('G'), EachAndCtrl),
    (New('\u{a}'), K::Char('J'), EachAndCtrl),
    (New('\u{b}'), K::Char('K'), EachAndCtrl),
    (New('\u{c}'), K::Char('L'), EachAndCtrl),
    (New('\u{e}'), K::Char('N'), EachAndCtrl),
    (New('\u{f}'), K::Char('O'), EachAndCtrl),
    (New('\u{10}'), K::Char('P'), EachAndCtrl),
    (New('\u{11}'), K::Char('Q'), EachAndCtrl),
    (New('\u{12}'), K::Char('R'), EachAndCtrl),
    (New('\u{13}'), K::Char('S'), EachAndCtrl),
    (New('\u{14}'), K::Char('T'), EachAndCtrl),
    (New('\u{15}'), K::Char('U'), EachAndCtrl),
    (New('\u{16}'), K::Char('V'), EachAndCtrl),
    (New('\u{17}'), K::Char('W'), EachAndCtrl),
    (New('\u{18}'), K::Char('X'), EachAndCtrl),
    (New('\u{19}'), K::Char('Y'), EachAndCtrl),
    (New('\u{1a}'), K::Char('Z'), EachAndCtrl),
    (New('\u{1c}'), K::Char('\\'), EachAndCtrl),
    (New('\u{1d}'), K::Char(']'), EachAndCtrl),
    (New('\u{1e}'), K::Char('^'), EachAndCtrl),
    (New('\u{1f}'), K::Char('_'), EachAndCtrl),
    (New('\u{8}'), K::Backspace, Each),
    (New('\u{7f}'), K::Backspace, Each),
    (New('\u{d}'), K::Enter, Each),
    (New('\u{1b}'), K::Esc, Each),
    (New('\u{80}'), K::Null, Each),
    (New('\u{9a}'), K::Null, Each),
    (New('\u{9c}'), K::Null, Each),
    (New('\u{9f}'), K::Null, Each),
    (New('\u{9b}'), K::Esc, EachAndShift),
    (New('\t'), K::Tab, Only(M::NONE, M::NONE)),
    (New('\t'), K::BackTab, Only(M::SHIFT, M::NONE)),
    (New('\t'), K::Tab, Only(M::ALT, M::ALT)),
    (New('\t'), K::BackTab, Only(M::ALT_SHIFT, M::ALT)),
    (New('\t'), K::Tab, Only(M::CTRL, M::CTRL)),
    (New('\t'), K::BackTab, Only(M::CTRL_SHIFT, M::CTRL)),
    (New('\t'), K::Tab, Only(M::CTRL_ALT, M::CTRL_ALT)),
    (New('\t'), K::BackTab, Only(M::CTRL_ALT_SHIFT, M::CTRL_ALT)),
    (Normal(K::Tab), K::Tab, Only(M::NONE, M::NONE)),
    (Normal(K::Tab), K::BackTab, Only(M::SHIFT, M::NONE)),
    (Normal(K::Tab), K::Tab, Only(M::ALT, M::ALT)),
    (Normal(K::Tab), K::BackTab, Only(M::ALT_SHIFT, M::ALT)),
    (Normal(K::Tab), K::Tab, Only(M::CTRL, M::CTRL)),
    (Normal(K::Tab), K::BackTab, Only(M::CTRL_SHIFT, M::CTRL)),
    (Normal(K::Tab), K::Tab, Only(M::CTRL_ALT, M::CTRL_ALT)),
    (
        Normal(K::Tab),
        K::BackTab,
        Only(M::CTRL_ALT_SHIFT, M::CTRL_ALT),
    ),
    (Normal(K::Enter), K::Enter, Each),
    (Normal(K::BackTab), K::BackTab, Each),
    (Normal(K::Left), K::Left, Each),
    (Normal(K::F(3)), K::F(3), Each),
    (Normal(K::Null), K::Null, Each),
    (
        Normal(K::Char('\u{1}')),
        K::Char('A'),
        Only(M::NONE, M::CTRL),
    ),
    (Normal(K::Char('\t')), K::BackTab, Only(M::SHIFT, M::NONE)),
    (
        Normal(K::Char('\u{7f}')),
        K::Backspace,
        Only(M::ALT, M::ALT),
    ),
    (
        Normal(K::Char('a')),
        K::Char('A'),
        Only(M::CTRL_SHIFT, M::CTRL_SHIFT),
    ),
    (
        Normal(K::Char('A')),
        K::Char('A'),
        Only(M::CTRL_SHIFT, M::CTRL),
    ),
    (
        Normal(K::Char('z')),
        K::Char('Z'),
        Only(M::CTRL_ALT, M::CTRL_ALT),
    ),
    (
        Normal(K::Char('z')),
        K::Char('z'),
        Only(M::ALT_SHIFT, M::ALT_SHIFT),
    ),
    (
        Normal(K::Char('Z')),
        K::Char('Z'),
        Only(M::ALT_SHIFT, M::ALT),
    ),
    (
        Normal(K::Char('1')),
        K::Char('1'),
        Only(M::CTRL_SHIFT, M::CTRL_SHIFT),
    ),
    (Normal(K::Char('é')), K::Char('é'), Only(M::CTRL, M::CTRL)),
    (Normal(K::Char('É')), K::Char('É'), Only(M::SHIFT, M::SHIFT)),
    (
        Normal(K::Char('\u{9b}')),
        K::Char('\u{9b}'),
        Only(M::NONE, M::NONE),
    ),
    (Ctrl('x'), K::Char('x'), Only(M::NONE, M::CTRL)),
    (Ctrl('\u{0}'), K::Char('@'), Only(M::NONE, M::CTRL)),
    (Alt('3'), K::Char('3'), Only(M::NONE, M::ALT)),
    (Alt('\u{4}'), K::Char('D'), Only(M::NONE, M::CTRL_ALT)),
    (Plain('\r'), K::Enter, Only(M::NONE, M::NONE)),
    (Plain('q'), K::Char('q'), Only(M::NONE, M::NONE)),
];

/// Whether an event is made of this key, with these modifiers.
fn is_made(made: &Made, code: K, with: &With, set: &(M, M, M, M)) -> bool {
    let (mods, and_ctrl, and_shift, not_shift) = *set;
    let (given, left) = match with {
        Each => (mods, mods),
        EachAndCtrl => (mods, and_ctrl),
        EachAndShift => (mods, and_shift),
        EachNotShift => (mods, not_shift),
        Only(given, left) => (*given, *left),
    };
    let event = match made {
        New(c) => KeyEvent::new(*c, given),
        Ctrl(c) => KeyEvent::ctrl(*c),
        Alt(c) => KeyEvent::alt(*c),
        Plain(c) => KeyEvent::from(*c),
        Normal(code) => KeyEvent::normalize(KeyEvent(*code, given)),
    };
    event == KeyEvent(code, left)
}

/// Each event is made, with each set of modifiers.
#[test]
fn are_made(rt: HostRuntime) {
    for (row, (made, code, with)) in EVENTS.iter().enumerate() {
        for set in SETS {
            holds(&rt, is_made(made, *code, with, set), "made of row", row);
        }
    }
}

/// Two sets: the bits of the first, the sets, what they have together, what both have, what one
/// alone has, what the first alone has, and what the first lacks.
type Sets = (u8, M, M, M, M, M, M, M);

const COMBINED: &[Sets] = &[
    (
        10,
        M::CTRL_SHIFT,
        M::CTRL_ALT,
        M::CTRL_ALT_SHIFT,
        M::CTRL,
        M::ALT_SHIFT,
        M::SHIFT,
        M::ALT,
    ),
    (
        12,
        M::CTRL_ALT,
        M::ALT,
        M::CTRL_ALT,
        M::ALT,
        M::CTRL,
        M::CTRL,
        M::SHIFT,
    ),
    (
        12,
        M::CTRL_ALT,
        M::SHIFT,
        M::CTRL_ALT_SHIFT,
        M::NONE,
        M::CTRL_ALT_SHIFT,
        M::CTRL_ALT,
        M::SHIFT,
    ),
    (
        0,
        M::NONE,
        M::NONE,
        M::NONE,
        M::NONE,
        M::NONE,
        M::NONE,
        M::CTRL_ALT_SHIFT,
    ),
    (
        2,
        M::SHIFT,
        M::SHIFT,
        M::SHIFT,
        M::SHIFT,
        M::NONE,
        M::NONE,
        M::CTRL_ALT,
    ),
    (
        4,
        M::ALT,
        M::ALT,
        M::ALT,
        M::ALT,
        M::NONE,
        M::NONE,
        M::CTRL_SHIFT,
    ),
    (
        6,
        M::ALT_SHIFT,
        M::ALT_SHIFT,
        M::ALT_SHIFT,
        M::ALT_SHIFT,
        M::NONE,
        M::NONE,
        M::CTRL,
    ),
    (
        8,
        M::CTRL,
        M::CTRL,
        M::CTRL,
        M::CTRL,
        M::NONE,
        M::NONE,
        M::ALT_SHIFT,
    ),
    (
        10,
        M::CTRL_SHIFT,
        M::CTRL_SHIFT,
        M::CTRL_SHIFT,
        M::CTRL_SHIFT,
        M::NONE,
        M::NONE,
        M::ALT,
    ),
    (
        12,
        M::CTRL_ALT,
        M::CTRL_ALT,
        M::CTRL_ALT,
        M::CTRL_ALT,
        M::NONE,
        M::NONE,
        M::SHIFT,
    ),
    (
        14,
        M::CTRL_ALT_SHIFT,
        M::CTRL_ALT_SHIFT,
        M::CTRL_ALT_SHIFT,
        M::CTRL_ALT_SHIFT,
        M::NONE,
        M::NONE,
        M::NONE,
    ),
];

/// Whether two sets are combined so, and one changes so where the other is put into it, taken from
/// it and changed round.
fn is_combined(sets: &Sets) -> bool {
    let (_, a, b, both, common, either, first, lacks) = *sets;
    let mut is_so = (a | b) == both;
    is_so &= (a & b) == common;
    is_so &= (a ^ b) == either;
    is_so &= (a - b) == first;
    is_so &= !a == lacks;
    let mut set = a;
    set.insert(b);
    is_so &= set == both;
    set.remove(b);
    is_so &= set == first;
    set.toggle(both);
    is_so && set == both - first
}

/// Whether a set has these bits, and these members alone.
fn has_members(sets: &Sets) -> bool {
    let (bits, a, b, _, common, _, _, _) = *sets;
    let mut is_so = a.contains(b) == (common == b);
    is_so &= a.intersects(b) == (common != M::NONE);
    is_so &= a.is_empty() == (a == M::NONE);
    is_so &= a.bits() == bits;
    is_so &= M::from_bits(bits) == Some(a);
    is_so && M::from_bits(bits | 1).is_none()
}

/// Sets have their bits and members, and two are combined so, also where one is put into the other,
/// taken from it and changed round.
#[test]
fn modifiers_are_sets(rt: HostRuntime) {
    for (row, sets) in COMBINED.iter().enumerate() {
        holds(
            &rt,
            is_combined(sets) && has_members(sets),
            "sets of row",
            row,
        );
    }
    let mut is_so = !M::from_bits_retain(0xf1) == M::CTRL_ALT_SHIFT;
    is_so &= M::from_bits(16).is_none();
    is_so &= M::empty() == M::NONE;
    is_so &= M::all() == M::CTRL_ALT_SHIFT;
    holds(&rt, is_so, "sets by their bits", 0);
}

/// Equal events are one key of a map, the keys of an event are got by their places, a command
/// becomes its own handler, a text is what is typed, and `Debug` writes what a key is.
#[test]
fn of_maps_and_events(rt: HostRuntime) {
    let alloc = rt.alloc();
    let mut commands: HashMap<KeyEvent, u8> = HashMap::new(alloc);
    let _ = sure(&rt, commands.insert(KeyEvent::ctrl('A'), 1));
    let _ = sure(&rt, commands.insert(KeyEvent::alt('A'), 2));
    let bound = commands.get(&KeyEvent::from('\u{1}')).copied();
    let is_alone = commands.get(&KeyEvent::from('A')).is_none();
    holds(&rt, bound == Some(1) && is_alone, "a map", 0);
    let key = KeyEvent::ctrl('x');
    let event = sure(&rt, Event::from_key(alloc, key));
    let is_got = event.get(0).copied() == Some(key) && event.get(1).is_none();
    holds(&rt, is_got && Event::Any.get(0).is_none(), "an event", 0);
    let handler: EventHandler<NoHandler> = EventHandler::from(Cmd::Noop);
    let is_simple = matches!(handler, EventHandler::Simple(Cmd::Noop));
    holds(
        &rt,
        is_simple && same((&"ab").input(), "ab"),
        "a handler",
        0,
    );
    let text = sure(&rt, format!(in alloc; "{:?}", KeyEvent::ctrl('A')));
    let is_shown = same(text.as_str(), "KeyEvent(Char('A'), Modifiers(8))");
    holds(&rt, is_shown, text.as_str(), 0);
}
