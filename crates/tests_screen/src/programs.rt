//! The programs, run once each.

use crate::by_keys::edit_by_keys;
use crate::caller::type_in;
use crate::read_line::read_line;
use crate::{holds, is, same, same_bytes, sure};
use line_config::ReadlineError;
use line_editor::State;
use line_keys::keys::{KeyCode, KeyEvent, Modifiers};
use line_parts::{Context, MemHistory};
use line_screen::{KeyQueue, Plain};

/// A line that is typed and submitted, and a character that a caller types.
#[test]
fn give_what_is_typed(rt: HostRuntime) {
    let line = sure(&rt, read_line(rt.alloc(), "caf\u{e9}"));
    holds(&rt, same(line.as_str(), "caf\u{e9}"), "a line", 0);
    let mut screen: Plain<KeyQueue> = Plain::new(rt.alloc(), 80);
    let history = MemHistory::new(rt.alloc());
    let mut helper = ();
    let context = Context::new(&history);
    let begun = State::new(rt.alloc(), &mut screen, &"> ", Some(&mut helper), context);
    let mut state = sure(&rt, begun);
    sure(&rt, type_in(&mut state, 'x'));
    holds(&rt, same(state.line(), "x"), "a character", 0);
}

const A: KeyEvent = KeyEvent(KeyCode::Char('a'), Modifiers::NONE);

/// Keys; the line that they submit, or none where the input ends; and what the terminal shows.
type Case = (&'static [KeyEvent], Option<&'static str>, &'static str);

const CASES: &[Case] = &[
    // a count is read again with its key
    (
        &[
            A,
            KeyEvent(KeyCode::Char('3'), Modifiers::ALT),
            KeyEvent(KeyCode::Char('b'), Modifiers::NONE),
            KeyEvent(KeyCode::Enter, Modifiers::NONE),
        ],
        Some("abbb"),
        "> a\n(arg: 3) a\n> abbb\n",
    ),
    // the keys run out
    (&[A], None, "> a\n"),
];

#[test]
fn edit_by_each_key(rt: HostRuntime) {
    for (keys, wanted, shown) in CASES {
        let mut terminal = Vec::new(rt.alloc());
        let outcome = edit_by_keys(rt.alloc(), keys, &mut terminal);
        let is_line = match &outcome {
            Ok(line) => is(Some(line.as_str()), *wanted),
            Err(ReadlineError::Eof) => wanted.is_none(),
            Err(_) => false,
        };
        let is_so = is_line && same_bytes(terminal.as_slice(), shown.as_bytes());
        holds(&rt, is_so, shown, keys.len());
    }
}
