//! The tables of keys, and counts.

mod rows;

use self::rows::{Row, TABLES};
use crate::{holds, same, sure};
use line_buffer::{CharSearch, GraphemeClusterMode};
use line_config::{Config, EditMode};
use line_editor::Bindings;
use line_editor::edit::State;
use line_editor::input_state::InputState;
use line_keys::count::{Count, TypedCount, begins_count, continues_count};
use line_keys::keys::{KeyCode as K, KeyEvent, Modifiers as M};
use line_keys::refresher::InputMode;
use line_keys::tables::{Meaning, SearchKind, entry_of_key, second_key};
use line_parts::{Context, MemHistory};
use std::alloc::Global;
use std::process::Abort;
use tests_parties::advisor::Advisor;
use tests_steps::recorder::Recorder;
use tests_steps::typist::Typist;

/// A line, its cursor, and the hint after it.
type Line = (&'static str, usize, Option<&'static str>);

/// How a key is tried.
enum Way {
    /// It is looked up in the tables, and typed.
    Alone,
    /// It is looked up as a second key, and typed after Ctrl-X.
    Second,
    /// It is typed before é.
    Search,
    /// It is looked up in the tables.
    Listed,
}

/// A count: how it is handed to the tables, or else its keys; whether it is positive; and its
/// number.
type Counted = (Option<Count>, &'static str, bool, &'static str);

const COUNTS: &[Counted] = &[
    (Some(THREE), "", true, "3"),
    (Some(MINUS_THREE), "", false, "3"),
    (None, "", true, "1"),
    (None, "0", true, "1"),
    (None, "3", true, "3"),
    (None, "-3", false, "3"),
];

const THREE: Count = Count {
    n: 3,
    positive: true,
};

const MINUS_THREE: Count = Count {
    n: 3,
    positive: false,
};

const CONTROL_X: KeyEvent = KeyEvent(K::Char('X'), M::CTRL);

type Editor<'out, 'prompt> = State<'out, 'prompt, Recorder, Advisor, &'static str, MemHistory>;

/// A reader of the keys of a count, and a key after them.
fn typist(rt: &impl Abort, alloc: Global, digits: &str, way: &Way, key: KeyEvent) -> Typist {
    let mut typist = Typist::new(alloc);
    let mut mods = M::ALT;
    for digit in digits.chars() {
        let digit = KeyEvent(K::Char(digit), mods);
        sure(rt, typist.press(&[digit]));
        mods = M::NONE;
    }
    let outcome = match way {
        Way::Second => typist.press(&[CONTROL_X, key]),
        Way::Search => typist.press(&[key, KeyEvent(K::Char('é'), M::NONE)]),
        _ => typist.press(&[key]),
    };
    sure(rt, outcome);
    typist
}

/// What a key means: for a count that is handed over, or else the command where it is typed.
fn meant(
    rt: &impl Abort,
    alloc: Global,
    state: &mut Editor<'_, '_>,
    way: &Way,
    key: KeyEvent,
    count: &Counted,
) -> Meaning {
    match (count.0, way) {
        (None, _) => {
            let mut typist = typist(rt, alloc, count.1, way, key);
            let config = Config::builder(GraphemeClusterMode::Unicode).build();
            let bindings = Bindings::new(alloc);
            let mut input = InputState::new(&config, &bindings);
            Meaning::Command(sure(rt, state.next_cmd(&mut input, &mut typist, true)))
        }
        (Some(handed), Way::Second) => Meaning::Command(second_key(key, handed)),
        (handed, _) => {
            entry_of_key(EditMode::Emacs, InputMode::Insert, key, handed, state).meaning
        }
    }
}

/// What comes of a key on a line with a count.
fn found(
    rt: &impl Abort,
    alloc: Global,
    line: &Line,
    way: &Way,
    key: KeyEvent,
    count: &Counted,
) -> Meaning {
    let (text, cursor, hint) = *line;
    let history = MemHistory::new(alloc);
    let mut screen = Recorder::new(alloc, 80, false, 0);
    let mut helper = Advisor::new(hint, (true, true, None), None);
    let advisor = Some(&mut helper);
    let context = Context::new(&history);
    assert!(rt; text.is_char_boundary(cursor));
    let begun = State::with_line(alloc, &mut screen, &"> ", advisor, context, text, cursor);
    let mut state = sure(rt, begun);
    sure(rt, state.hint());
    meant(rt, alloc, &mut state, way, key, count)
}

/// Tries the key of a row on a line with a count.
fn tries(rt: &impl Abort, alloc: Global, line: &Line, row: &Row, count: &Counted) {
    let (way, code, mods, forth, back) = row;
    let wanted = if count.2 { forth } else { back };
    let wanted = sure(rt, wanted.replace(alloc, '#', count.3));
    let outcome = match found(rt, alloc, line, way, KeyEvent(*code, *mods), count) {
        Meaning::Command(command) => format!(in alloc; "{command:?}"),
        other => format!(in alloc; "{other:?}"),
    };
    let found = sure(rt, outcome);
    let is_so = same(found.as_str(), wanted.as_str());
    holds(rt, is_so, found.as_str(), count.1.len());
}

/// Tries the key of a row on a line with each count, but for one that it goes on with.
fn tries_each(rt: &impl Abort, alloc: Global, line: &Line, row: &Row) {
    let goes_on = continues_count(EditMode::Emacs, KeyEvent(row.1, row.2));
    for count in COUNTS {
        let is_tried = match (&row.0, count.0) {
            (Way::Search, Some(_)) | (Way::Listed, None) => false,
            (_, Some(_)) => true,
            (_, None) => count.1.is_empty() || !goes_on,
        };
        if is_tried {
            tries(rt, alloc, line, row, count);
        }
    }
}

#[test]
fn of_emacs(rt: HostRuntime) {
    for (line, rows) in TABLES {
        for row in *rows {
            tries_each(&rt, rt.alloc(), line, row);
        }
    }
}

/// What is typed of a count, whether the number is positive, the number, and the prompt.
type Typed = (&'static str, bool, u16, &'static str);

const TYPED: &[Typed] = &[
    ("5", true, 5, "(arg: 5) "),
    ("-", false, 1, "(arg: -1) "),
    ("-23", false, 23, "(arg: -23) "),
    ("2-3", true, 23, "(arg: 23) "),
    ("--", false, 1, "(arg: -1) "),
    ("0", true, 1, "(arg: 0) "),
    ("-0", true, 1, "(arg: 0) "),
    ("007", true, 7, "(arg: 7) "),
    ("9999", true, 9999, "(arg: 9999) "),
    ("9999999", true, 9999, "(arg: 9999) "),
    ("10005", true, 1000, "(arg: 1000) "),
    ("-099912", false, 9991, "(arg: -9991) "),
];

/// Types a count, which is this number then.
fn is_counted(rt: &impl Abort, alloc: Global, typed: &Typed) {
    let (text, positive, n, prompt) = *typed;
    let mut keys = text.chars();
    let first = keys.next().expect(rt, "a key is typed");
    let mut count = TypedCount::new(KeyEvent(K::Char(first), M::ALT));
    for key in keys {
        count.push(KeyEvent(K::Char(key), M::NONE));
    }
    let shown = sure(rt, count.prompt(alloc));
    let is_so = count.count() == Count { n, positive } && same(shown.as_str(), prompt);
    holds(rt, is_so, shown.as_str(), usize::from(n));
}

#[test]
fn of_counts(rt: HostRuntime) {
    for typed in TYPED {
        is_counted(&rt, rt.alloc(), typed);
    }
}

/// A key, and whether a count begins with it, and goes on with it, in Emacs and in Vi's command
/// mode.
type CountKey = (K, M, bool, bool, bool, bool);

const COUNT_KEYS: &[CountKey] = &[
    (K::Char('5'), M::ALT, true, true, false, false),
    (K::Char('5'), M::NONE, false, true, true, true),
    (K::Char('0'), M::ALT, true, true, false, false),
    (K::Char('0'), M::NONE, false, true, false, true),
    (K::Char('-'), M::ALT, true, true, false, false),
    (K::Char('-'), M::NONE, false, true, false, false),
    (K::Char('5'), M::CTRL, false, false, false, false),
    (K::Char('5'), M::CTRL_ALT, false, false, false, false),
    (K::Char('/'), M::ALT, false, false, false, false),
    (K::Char(':'), M::ALT, false, false, false, false),
    (K::Char('٣'), M::ALT, false, false, false, false),
    (K::F(5), M::ALT, false, false, false, false),
];

/// Whether the key is one of a count where it says so. None begins in Vi's other modes.
fn is_of_count(count_key: &CountKey) -> bool {
    let (code, mods, begins, goes_on, vi_begins, vi_goes_on) = *count_key;
    let key = KeyEvent(code, mods);
    let mut is_so = begins_count(EditMode::Emacs, InputMode::Insert, key) == begins;
    is_so &= begins_count(EditMode::Vi, InputMode::Command, key) == vi_begins;
    is_so &= !begins_count(EditMode::Vi, InputMode::Insert, key);
    is_so &= !begins_count(EditMode::Vi, InputMode::Replace, key);
    is_so &= continues_count(EditMode::Emacs, key) == goes_on;
    is_so && continues_count(EditMode::Vi, key) == vi_goes_on
}

/// Each kind of search with its character.
const SEARCHES: &[(SearchKind, CharSearch)] = &[
    (SearchKind::Forward, CharSearch::Forward('é')),
    (SearchKind::ForwardBefore, CharSearch::ForwardBefore('é')),
    (SearchKind::Backward, CharSearch::Backward('é')),
    (SearchKind::BackwardAfter, CharSearch::BackwardAfter('é')),
];

/// Which keys are those of a count; and each kind of search with its character.
#[test]
fn of_count_keys_and_searches(rt: HostRuntime) {
    for (row, count_key) in COUNT_KEYS.iter().enumerate() {
        holds(&rt, is_of_count(count_key), "key of row", row);
    }
    for (row, (kind, search)) in SEARCHES.iter().enumerate() {
        holds(&rt, kind.search('é') == *search, "search of row", row);
    }
}
