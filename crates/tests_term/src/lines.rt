//! What comes of bytes that are typed.

use crate::parties::NOBODY;
use crate::sessions::{ADD, ADD_VI, COLORLESS, Case, Desk, SEARCH, SEARCH_VI, comes_true};
use crate::terminal::Counted;
use crate::{completions, holds, searches};
use line_config::{ReadlineError, Result};
use line_editor::Bindings;
use line_parts::{Helper, History};
use line_session::editor::Editor;
use std::alloc::Global;
use std::io::{self, Read, Write};
use std::process::Abort;
use tests_parties::fault::GONE;

/// Asks a terminal to show what follows all at once.
const HELD: &str = "\x1b[?2026h";
/// Asks it to mark pasted texts.
const PASTE_MARKED: &str = "\x1b[?2004h";
/// Asks it to mark them no more.
const PASTE_TYPED: &str = "\x1b[?2004l";

const CASES: &[Case] = &[
    // keys and commands of both edit modes
    (ADD, "old", "»¦abc\r", "⏎abc", PASTE_TYPED),
    (ADD, "old", "»¦\r", "⏎", HELD),
    (ADD, "old", "»¦ab\x02c", "ac|b", PASTE_MARKED),
    (ADD, "old", "»¦é日\x02x", "éx|日", ""),
    (ADD, "old", "»¦\x04", "■", PASTE_TYPED),
    (ADD, "old", "»¦a\x03", "×", PASTE_TYPED),
    (ADD, "old", "»¦a\x1b[Db\r", "⏎ba", ""),
    (ADD, "old", "»¦\x10", "old|", ""),
    (ADD, "old", "»¦ab\x1b3x\r", "⏎abxxx", ""),
    (ADD, "old", "»¦ab\x18\x15", "|", ""),
    // what comes after a line begins below it
    (
        ADD,
        "old",
        "»¦abcdefghijklmnopqrst\x01\r",
        "⏎abcdefghijklmnopqrst",
        "\x1b[1B\r\n",
    ),
    // the program is suspended, and goes on with what was typed after that key
    (ADD, "old", "»¦ab\x02\x1a", "‖a|b", "\r\x1b[4C\r\n"),
    (ADD, "old", "»¦ab\x1a¦c", "abc|", ""),
    (ADD, "old", "»¦ab\x1ac¦…", "abc|", ""),
    (ADD, "old", "»¦ab\x1a¦↔30¦\x1b[200~c\x1b[201~", "abc|", ""),
    (ADD_VI, "old", "»¦ab\x1a¦c\r", "⏎abc", ""),
    // a count and an operator, cut anywhere
    (ADD_VI, "old", "»¦a b c d\x1b¦…¦0d3w", "|d", ""),
    (ADD_VI, "old", "»¦a b c d e f\x1b¦…¦02d2w", "|e f", ""),
    (ADD_VI, "old", "»¦abc\x1b¦…¦0fcx", "ab|", ""),
    // a lone Esc is a key once the bytes pause
    (ADD_VI, "old", "»¦ab\x1b", "ab|", ""),
    (ADD_VI, "old", "»¦ab\x1b¦…", "a|b", ""),
    (ADD_VI, "old", "»¦ab\x1b¦■", "a|b", ""),
    // Esc and P in one piece are both keys, also where a digit follows
    (ADD_VI, "old", "»¦abc\x1b¦…¦0Di\x1bP¦…¦\r", "⏎abc", ""),
    (ADD_VI, "old", "»¦abc\x1b¦…¦0Di\x1bP0iy¦…¦\r", "⏎yabc", ""),
    (ADD_VI, "old", "»¦ab\x1bP1$r0m\x1b\\c¦…¦\r", "⏎abc", ""),
    // a pasted text that pauses, and what never ends: keys are keys after a long silence
    (ADD, "old", "»¦\x1b[200~ab¦…¦c\x1b[201~d", "abcd|", ""),
    (ADD, "old", "»¦\x1b[200~a\r\x03b¦…", "a\nb|", ""),
    (
        ADD,
        "old",
        "»¦\x1b[200~ab¦…¦…¦…¦…¦…¦…¦…¦…¦…¦…¦…¦…¦…¦…¦…¦…¦…¦…¦…¦…¦\x02c\r",
        "⏎acb",
        "",
    ),
    (
        ADD,
        "old",
        "»¦ab\x1b]11;rgb:00¦…¦…¦…¦…¦…¦…¦…¦…¦…¦…¦…¦…¦…¦…¦…¦…¦…¦…¦…¦…¦\x02c\r",
        "⏎acb",
        "",
    ),
    // a pasted text, and one where a key is read: the text comes in
    (ADD, "old", "»¦a\x1b[200~x\ny\x1b[201~\r", "⏎ax\ny", ""),
    (ADD, "old", "»¦a\x18\x1b[200~x\x1b[201~b\r", "⏎axb", ""),
    (
        ADD_VI,
        "old",
        "»¦ab\x1b¦…¦d\x1b[200~xy\x1b[201~\r",
        "⏎axyb",
        "",
    ),
    // after a quoted insert the next item comes in as it is: a key's character, if it has one, or a
    // pasted text
    (ADD, "old", "»¦a\x16\tb\x11\x01\r", "⏎a\tb\x01", ""),
    (ADD, "old", "»¦a\x16\rb\x16\x7f", "a\rb\x7f|", ""),
    (ADD, "old", "»¦a\x16\x1b¦…¦b", "a\x1bb|", ""),
    (ADD, "old", "»¦ab\x16\x1b[Dc", "abc|", ""),
    (
        ADD,
        "old",
        "»¦a\x16\x1b[200~x\x1b[201~\x16\x16\r",
        "⏎ax\x16",
        "",
    ),
    (ADD_VI, "old", "»¦a\x16\x03b\r", "⏎a\x03b", ""),
    // what cannot be given up stays
    (ADD, "old", "»¦ab\x07c", "abc|", ""),
    // what is typed before a line begins and after its end is kept
    (ADD, "old", "a", "", ""),
    (ADD, "old", "a¦»x|y", "xa|y", ""),
    (ADD, "old", "a\rb\r¦»¦»", "⏎b", ""),
    (ADD, "old", "a\rb\r¦»¦»¦»", "|", ""),
    // a submitted line is in the history, and a line that is dropped is not
    (ADD, "old", "»¦a\r¦»¦\x10", "a|", ""),
    (ADD, "old", "»¦a¦»¦\x10", "old|", ""),
    // other columns
    (ADD, "old", "↔7", "", ""),
    (ADD, "old", "»¦abcdefgh\x02¦↔4¦x", "abcdefgx|h", ""),
];

#[test]
fn gives_the_line_in_whatever_pieces(rt: HostRuntime) {
    for cases in [CASES, completions::CASES, searches::CASES] {
        for case in cases {
            comes_true(&rt, rt.alloc(), case);
        }
    }
}

/// A prompt in bold type.
const STYLED: &str = "\x1b[1m> ";

/// An input that gives a piece each time that it is read: `…` stands for no bytes, and `!` for a
/// read that fails. It counts its reads.
#[derive(Drop)]
struct Pieces {
    pieces: &'static [&'static str],
    reads: usize,
}

impl Read for Pieces {
    fn read(&mut self, buf: &mut [u8]) -> io::Result<usize> {
        let piece = self.pieces.get(self.reads).copied();
        self.reads = self.reads.saturating_add(1);
        match piece {
            None | Some("…") => Ok(0),
            Some("!") => Err(GONE.cause()),
            Some(piece) => {
                let mut bytes = piece.as_bytes();
                bytes.read(buf)
            }
        }
    }
}

/// What is tried, the styled prompt, which write fails, whether no bytes are a pause, what the
/// input gives, how often it is read, and what each line comes to: `!` where a read or a write
/// fails, its text, or `×` where the person interrupts.
type Row = (
    &'static str,
    &'static str,
    u64,
    bool,
    &'static [&'static str],
    usize,
    &'static [&'static str],
);

/// What two runs below give.
const TYPED: &[&str] = &["abc\rde\x02\rh\x1ai\x1aj\rf\x03g"];

const READ: &[Row] = &[
    // Suspend stops no line; at its end the input is read once
    (SEARCH, "> ", 0, false, TYPED, 2, &["abc", "de", "hij", "×"]),
    // no colors are shown, and the first write fails
    (
        COLORLESS,
        STYLED,
        1,
        false,
        TYPED,
        2,
        &["!", "abc", "de", "hij", "×"],
    ),
    // a pause settles a lone Esc, and ends nothing
    (
        SEARCH_VI,
        "> ",
        0,
        true,
        &["ab\x1b", "…", "0x", "…", "\r", "…", "c\r\x04"],
        7,
        &["b", "c"],
    ),
    (
        SEARCH,
        "> ",
        0,
        true,
        &["…", "a", "…", "…", "b\x1a", "c\r", "\x04"],
        7,
        &["abc"],
    ),
    // nothing is read behind the end of a line
    (
        SEARCH,
        "> ",
        0,
        true,
        &["a\r", "b\r", "\x04"],
        3,
        &["a", "b"],
    ),
    // a read that fails ends a line, and the next one begins
    (
        SEARCH,
        "> ",
        0,
        true,
        &["ab", "!", "…", "c\r", "\x04"],
        5,
        &["!", "c"],
    ),
    (SEARCH, "> ", 0, false, &["ab", "!", "c\r"], 4, &["!", "c"]),
];

/// Whether a line or the end of one is what is wanted.
fn is_wanted(wanted: Option<&str>, read: &Result<String>) -> bool {
    match read {
        Ok(line) => wanted == Some(line.as_str()),
        Err(ReadlineError::Interrupted) => wanted == Some("×"),
        Err(ReadlineError::Io(_)) => wanted == Some("!"),
        Err(_) => false,
    }
}

/// Reads the lines of an input, each of which is as it is wanted. Returns how many there are.
fn reads_all<'a, O: Write + Drop, H: Helper + Drop, S: History + Drop, R: Read>(
    rt: &impl Abort,
    session: &'a mut Editor<O, H, S>,
    bindings: &'a Bindings,
    input: &'a mut R,
    prompt: &'a (&'a str, &'a str),
    pauses: bool,
    wanted: &[&str],
) -> usize {
    let mut lines: usize = 0;
    for read in session.iter(input, pauses, prompt, bindings) {
        let is_so = is_wanted(wanted.get(lines).copied(), &read);
        holds(rt, is_so, prompt.1, lines);
        lines = lines.saturating_add(1);
    }
    lines
}

/// Whether no line has begun, and prompts were without style.
fn has_ended(desk: &Desk) -> bool {
    let written = desk.written();
    let is_plain = written.contains("> ") && !written.contains(STYLED);
    is_plain && desk.line().is_none()
}

/// Reads the lines of the input of a row.
fn reads(rt: &impl Abort, desk: &mut Desk, input: &mut Pieces, row: &Row) {
    let lines = reads_all(
        rt,
        &mut desk.session,
        &desk.bindings,
        input,
        &("> ", row.1),
        row.3,
        row.6,
    );
    let are_all = lines == row.6.len();
    holds(rt, are_all && has_ended(desk), row.1, lines);
    holds(rt, input.reads == row.5, row.1, input.reads);
}

#[test]
fn reads_lines_of_an_input(rt: HostRuntime) {
    for row in READ {
        let failing = ("output", row.2);
        let mut desk = Desk::new(rt.alloc(), row.0, "", failing).expect(&rt, "a session");
        let mut input = Pieces {
            pieces: row.4,
            reads: 0,
        };
        reads(&rt, &mut desk, &mut input, row);
    }
}

/// Prompts, plain and styled, and how the line `abc` is shown after each.
const PROMPTS: &[(&str, &str)] = &[("> ", "> abc"), (STYLED, "\x1b[1m> \x1b[0m\x0fabc")];

/// Writes to another output from now on, and draws the line there unless it has only begun. Returns
/// the one before.
fn exchanged(alloc: Global, desk: &mut Desk, keys: &str) -> Result<Counted> {
    let other = Counted::new(alloc, usize::MAX, 0, &GONE)?;
    Ok(if keys == "ab" {
        desk.session.exchange_out(other)
    } else {
        desk.session.replace_out(other)
    })
}

/// Types keys. Returns whether this is shown then, and the prompt unless the output was emptied.
fn shows(desk: &mut Desk, keys: &str, shown: &str, prompt: &str) -> bool {
    let is_fed = desk.take(keys, 9).is_ok();
    let written = desk.written();
    is_fed && written.contains(shown) && written.contains(prompt) == (keys != "c")
}

/// Types keys, and then changes the output. The one before shows this.
fn draws(rt: &impl Abort, alloc: Global, desk: &mut Desk, keys: &str, shown: &str, prompt: &str) {
    let is_drawn = shows(desk, keys, shown, prompt);
    let has_left = keys != "…" || desk.session.abandon().is_ok();
    holds(rt, has_left, "the line is dropped", 0);
    let before = exchanged(alloc, desk, keys).expect(rt, "room");
    holds(rt, is_drawn && before.written().contains(shown), shown, 0);
}

/// Types a line after a prompt, with outputs that are changed.
fn draws_anew(rt: &impl Abort, alloc: Global, desk: &mut Desk, prompt: &str, line: &str) {
    let has_begun = desk.session.begin(&("> ", prompt), &desk.bindings).is_ok();
    holds(rt, has_begun, "a line begins", 0);
    draws(rt, alloc, desk, "ab", prompt, prompt);
    draws(rt, alloc, desk, "c", "c", prompt);
    draws(rt, alloc, desk, "…", line, prompt);
}

/// A line is drawn whole on its first output; what is typed then, on one that was emptied; and the
/// line anew on another one, which is given back after it.
#[test]
fn draws_anew_on_another_output(rt: HostRuntime) {
    for (prompt, line) in PROMPTS {
        let mut desk = Desk::new(rt.alloc(), SEARCH, "", NOBODY).expect(&rt, "a session");
        draws_anew(&rt, rt.alloc(), &mut desk, prompt, line);
    }
}
