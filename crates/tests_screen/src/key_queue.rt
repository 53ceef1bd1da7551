//! The queue of keys, by what it gives.

use crate::hostile::bench::ended;
use crate::{holds, same, sure};
use line_config::Result;
use line_keys::keys::{KeyCode, KeyEvent, Modifiers};
use line_keys::raw_reader::RawReader;
use line_screen::KeyQueue;
use std::alloc::Global;
use std::fmt::Debug;

const CTRL_A: KeyEvent = KeyEvent(KeyCode::Char('A'), Modifiers::CTRL);

const CTRL_C: KeyEvent = KeyEvent(KeyCode::Char('C'), Modifiers::CTRL);

const CTRL_D: KeyEvent = KeyEvent(KeyCode::Char('D'), Modifiers::CTRL);

const ENTER: KeyEvent = KeyEvent(KeyCode::Enter, Modifiers::NONE);

const PASTE_START: KeyEvent = KeyEvent(KeyCode::BracketedPasteStart, Modifiers::NONE);

/// A call of the queue: what is handed over, a mark or the way back to it, a read of a key, a
/// character, a pasted text or one that stands alone next, how many items there are and whether
/// there is none, and what a key is bound to.
enum Call {
    Press(KeyEvent),
    Type(&'static str),
    Paste(&'static str),
    Mark,
    Rewind,
    Key(bool),
    Char,
    Pasted,
    PasteNext,
    Len,
    Bound(KeyEvent),
}

/// What was answered, as text, or how the call ended.
fn shown<T: Debug + Drop>(alloc: Global, outcome: Result<T>) -> Result<String> {
    Ok(match outcome {
        Ok(value) => format!(in alloc; "{value:?}")?,
        Err(error) => String::from_str(alloc, ended(&Err(error)))?,
    })
}

/// Makes a call, and returns what is answered.
fn answer(alloc: Global, queue: &mut KeyQueue, call: &Call) -> Result<String> {
    match call {
        Call::Press(key) => shown(alloc, queue.press(*key)),
        Call::Type(text) => shown(alloc, queue.type_text(text)),
        Call::Paste(text) => shown(alloc, queue.paste(text)),
        Call::Mark => shown(alloc, Ok(queue.mark())),
        Call::Rewind => shown(alloc, Ok(queue.rewind())),
        Call::Key(single_esc_abort) => shown(alloc, queue.next_key(*single_esc_abort)),
        Call::Char => shown(alloc, queue.next_char()),
        Call::Pasted => shown(alloc, queue.read_pasted_text()),
        Call::PasteNext => shown(alloc, queue.next_paste()),
        Call::Len => shown(alloc, Ok((queue.len(), queue.is_empty()))),
        Call::Bound(key) => shown(alloc, Ok(queue.find_binding(key))),
    }
}

/// Whether the queue binds keys, calls with what is answered, and how many failures there were.
type Case = (bool, &'static [(Call, &'static str)], u64);

const CASES: &[Case] = &[
    (
        true,
        &[
            (Call::Len, "(0, true)"),
            (Call::Key(false), "eof"),
            (Call::Char, "eof"),
            (Call::Pasted, "eof"),
            (Call::Rewind, "()"),
            (Call::Mark, "()"),
            (Call::Len, "(0, true)"),
        ],
        0,
    ),
    (
        true,
        &[
            (Call::Press(CTRL_A), "()"),
            (Call::Len, "(1, false)"),
            (Call::Key(false), "KeyEvent(Char('A'), Modifiers(8))"),
            (Call::Len, "(0, true)"),
            (Call::Key(false), "eof"),
            (Call::Char, "eof"),
            (Call::Pasted, "eof"),
        ],
        0,
    ),
    // the end is one of what is there so far
    (
        true,
        &[
            (Call::Key(false), "eof"),
            (Call::Char, "eof"),
            (Call::Pasted, "eof"),
            (Call::Type("x"), "()"),
            (Call::Char, "'x'"),
            (Call::Key(false), "eof"),
            (Call::Char, "eof"),
            (Call::Pasted, "eof"),
        ],
        0,
    ),
    (
        true,
        &[
            (Call::Type("aé\n"), "()"),
            (Call::Type(""), "()"),
            (Call::Press(ENTER), "()"),
            (Call::Len, "(4, false)"),
            (Call::Char, "'a'"),
            (Call::Char, "'é'"),
            (Call::Char, "'\\n'"),
            (Call::Key(false), "KeyEvent(Enter, Modifiers(0))"),
            (Call::Key(false), "eof"),
            (Call::Char, "eof"),
            (Call::Pasted, "eof"),
        ],
        0,
    ),
    (
        true,
        &[
            (Call::Paste("t\n"), "()"),
            (Call::Len, "(2, false)"),
            (Call::Pasted, "fails"),
            (Call::Char, "fails"),
            (
                Call::Key(false),
                "KeyEvent(BracketedPasteStart, Modifiers(0))",
            ),
            (Call::Key(true), "fails"),
            (Call::Char, "fails"),
            (Call::Pasted, "\"t\\n\""),
            (Call::Key(false), "eof"),
            (Call::Char, "eof"),
            (Call::Pasted, "eof"),
        ],
        4,
    ),
    (
        true,
        &[
            (Call::Press(CTRL_A), "()"),
            (Call::Char, "fails"),
            (Call::Len, "(1, false)"),
        ],
        1,
    ),
    // a new queue has its mark at the start, and a pasted text can be read again
    (
        true,
        &[
            (Call::Paste("ab"), "()"),
            (
                Call::Key(false),
                "KeyEvent(BracketedPasteStart, Modifiers(0))",
            ),
            (Call::Pasted, "\"ab\""),
            (Call::Rewind, "()"),
            (Call::Len, "(2, false)"),
            (
                Call::Key(false),
                "KeyEvent(BracketedPasteStart, Modifiers(0))",
            ),
            (Call::Pasted, "\"ab\""),
            (Call::Key(false), "eof"),
            (Call::Char, "eof"),
            (Call::Pasted, "eof"),
        ],
        0,
    ),
    (
        true,
        &[
            (Call::Type("abc"), "()"),
            (Call::Char, "'a'"),
            (Call::Mark, "()"),
            (Call::Len, "(2, false)"),
            (Call::Char, "'b'"),
            (Call::Type("d"), "()"),
            (Call::Rewind, "()"),
            (Call::Len, "(3, false)"),
            (Call::Char, "'b'"),
            (Call::Rewind, "()"),
            (Call::Char, "'b'"),
            (Call::Char, "'c'"),
            (Call::Mark, "()"),
            (Call::Rewind, "()"),
            (Call::Char, "'d'"),
            (Call::Key(false), "eof"),
            (Call::Char, "eof"),
            (Call::Pasted, "eof"),
        ],
        0,
    ),
    // a pasted text that stands alone is no failure, and can be read again, too
    (
        true,
        &[
            (Call::PasteNext, "None"),
            (Call::Paste("ab"), "()"),
            (Call::PasteNext, "None"),
            (
                Call::Key(false),
                "KeyEvent(BracketedPasteStart, Modifiers(0))",
            ),
            (Call::PasteNext, "Some(\"ab\")"),
            (Call::PasteNext, "None"),
            (Call::Key(false), "eof"),
            (Call::Char, "eof"),
            (Call::Pasted, "eof"),
            (Call::Rewind, "()"),
            (
                Call::Key(false),
                "KeyEvent(BracketedPasteStart, Modifiers(0))",
            ),
            (Call::Mark, "()"),
            (Call::Type("c"), "()"),
            (Call::PasteNext, "Some(\"ab\")"),
            (Call::Char, "'c'"),
            (Call::Rewind, "()"),
            (Call::PasteNext, "Some(\"ab\")"),
            (Call::Char, "'c'"),
            (Call::Key(false), "eof"),
            (Call::Char, "eof"),
            (Call::Pasted, "eof"),
        ],
        0,
    ),
    // two keys are bound, or none
    (
        true,
        &[
            (Call::Bound(CTRL_C), "Some(Interrupt)"),
            (Call::Bound(CTRL_D), "Some(EndOfFile)"),
            (
                Call::Bound(KeyEvent(KeyCode::Char('c'), Modifiers::CTRL)),
                "None",
            ),
            (
                Call::Bound(KeyEvent(KeyCode::Char('C'), Modifiers::NONE)),
                "None",
            ),
            (Call::Bound(ENTER), "None"),
        ],
        0,
    ),
    (
        false,
        &[
            (Call::Bound(CTRL_C), "None"),
            (Call::Bound(CTRL_D), "None"),
            (
                Call::Bound(KeyEvent(KeyCode::Char('c'), Modifiers::CTRL)),
                "None",
            ),
            (
                Call::Bound(KeyEvent(KeyCode::Char('C'), Modifiers::NONE)),
                "None",
            ),
            (Call::Bound(ENTER), "None"),
        ],
        0,
    ),
];

#[test]
fn gives_what_was_handed_over(rt: HostRuntime) {
    for (binds, calls, failures) in CASES {
        let mut queue = if *binds {
            KeyQueue::new(rt.alloc())
        } else {
            KeyQueue::without_bindings(rt.alloc())
        };
        for (call, wanted) in *calls {
            let answered = sure(&rt, answer(rt.alloc(), &mut queue, call));
            holds(&rt, same(answered.as_str(), wanted), wanted, queue.len());
        }
        holds(&rt, queue.failures() == *failures, "failures", calls.len());
    }
}
