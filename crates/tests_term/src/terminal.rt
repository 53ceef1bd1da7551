//! What a terminal asks of its output, and what comes of failures.

use crate::holds;
use crate::parties::{Failing, NOBODY, Party, failing_call};
use line_buffer::{GraphemeClusterMode, Layout, LineBuffer, Position};
use line_config::{ReadlineError, Result};
use line_keys::raw_reader::RawReader;
use line_parts::{CmdKind, DimHints, Highlighter, SteadyHighlighter};
use line_screen::KeyQueue;
use line_state::{Renderer, Resizable};
use line_term::Ansi;
use std::alloc::Global;
use std::io::{self, ErrorKind, Write};
use tests_parties::fault::Fault;

/// An output that counts what it is asked for. It takes at most so many bytes at once. Its write of
/// this number, from 1 on, fails; or each flush, where the number is the greatest.
pub(crate) struct Counted {
    bytes: Vec<u8>,
    /// How often it was asked to write.
    pub(crate) writes: u64,
    flushes: u64,
    most: usize,
    failing: u64,
    fault: &'static Fault,
}

impl Drop for Counted {
    fn drop(self) {
        let Counted {
            bytes: _,
            writes: _,
            flushes: _,
            most: _,
            failing: _,
            fault: _,
        } = self;
    }
}

impl Counted {
    /// An output that takes so many bytes at once, and whose write of this number fails by this
    /// fault. It has memory for what a session writes.
    pub(crate) fn new(
        alloc: Global,
        most: usize,
        failing: u64,
        fault: &'static Fault,
    ) -> Result<Counted> {
        Ok(Counted {
            bytes: Vec::with_capacity(alloc, 10_000)?,
            writes: 0,
            flushes: 0,
            most,
            failing,
            fault,
        })
    }

    /// What it has taken, if it is text.
    pub(crate) fn written(&self) -> &str {
        str::from_utf8(self.bytes.as_slice()).unwrap_or("")
    }
}

impl Write for Counted {
    fn write(&mut self, buf: &[u8]) -> io::Result<usize> {
        self.writes = self.writes.saturating_add(1);
        if self.writes == self.failing {
            return Err(self.fault.cause());
        }
        let count = buf.len().min(self.most);
        self.bytes.extend_from_slice(&buf[..count])?;
        Ok(count)
    }

    fn flush(&mut self) -> io::Result<()> {
        if self.failing == u64::MAX {
            return Err(self.fault.cause());
        }
        self.flushes = self.flushes.saturating_add(1);
        Ok(())
    }
}

/// Draws a line in full after a prompt with these styles, with a hint behind it.
fn redraw<R: Renderer, H: SteadyHighlighter>(
    terminal: &mut R,
    line: &LineBuffer,
    styled: &str,
    highlighter: &H,
) -> Result<()> {
    let begin = terminal.calculate_position("> ", Position { row: 0, col: 0 });
    let layout = terminal.compute_layout(begin, true, line, Some("c"));
    let prompt = ("> ", styled);
    terminal.refresh_line(&prompt, line, Some("c"), None, &layout, Some(highlighter))
}

/// Draws a line with the cursor at its end. The call of this number to the highlighter fails.
fn redraw_plain<R: Renderer>(
    alloc: Global,
    terminal: &mut R,
    text: &str,
    failing: u64,
) -> Result<()> {
    let line = LineBuffer::init(alloc, text, text.len())?;
    let highlighter = Party::new(alloc, failing);
    redraw(terminal, &line, "> ", &highlighter)
}

/// Draws a line in colors, with the cursor at its start or its end.
fn redraw_lit<R: Renderer>(
    alloc: Global,
    terminal: &mut R,
    text: &str,
    at_start: bool,
) -> Result<()> {
    let mut line = LineBuffer::init(alloc, text, text.len())?;
    if at_start {
        line.move_buffer_start();
    }
    let mut highlighter = DimHints::new(at_start);
    let _ = highlighter.highlight_char(text, 0, CmdKind::Other);
    redraw(terminal, &line, "\x1b[1m> ", &highlighter)
}

/// Clears the rows of a line with the cursor in the third one.
fn clear_rows<R: Renderer>(terminal: &mut R) -> Result<()> {
    let mut layout = Layout::new(GraphemeClusterMode::Unicode);
    layout.cursor = Position { row: 2, col: 1 };
    terminal.clear_rows(&layout)
}

/// A text of many bytes.
const LONG: &str =
    "xxxxxxxxxxxxxxxxxxxxxxxxxxxxxxxxxxxxxxxxxxxxxxxxxxxxxxxxxxxxxxxxxxxxxxxxxxxxxxxxxxxxxxxxxxxxxxxxxxxxxxxxxx";

/// A call, the text that it is given, and the bytes that it writes.
type Call = (&'static str, &'static str, &'static str);

const CALLS: &[Call] = &[
    ("beep", "", "\x07"),
    ("move_cursor", "", "\x1b[1B\r\x1b[2C"),
    ("write_and_flush", "xyz", "xyz"),
    ("clear_to_eol", "", "\x1b[K"),
    ("clear_rows", "", "\x1b[2A\r\x1b[J"),
    ("clear_screen", "", "\x1b[H\x1b[J"),
    ("enable_bracketed_paste", "", "\x1b[?2004h"),
    ("disable_bracketed_paste", "", "\x1b[?2004l"),
    ("begin_synchronized_update", "", "\x1b[?2026h"),
    ("end_synchronized_update", "", "\x1b[?2026l"),
    (
        "refresh_line",
        "ab",
        "\x1b[?2026h\r\x1b[J> abc\r\x1b[4C\x1b[?2026l",
    ),
    (
        "colors",
        "ab",
        "\x1b[?2026h\r\x1b[J\x0f\x1b[1m> \x1b[0m\x0fab\x0f\x1b[2mc\x1b[0m\x1b[0m\x0f\r\x1b[4C\x1b[?2026l",
    ),
    (
        "colors of a bracket",
        "()",
        "\x1b[?2026h\r\x1b[J\x0f\x1b[1m> \x1b[0m\x0f\x0f(\x1b[1;34m)\x1b[0m\x1b[0m\x0f\x0f\x1b[2mc\x1b[0m\x1b[0m\x0f\r\x1b[2C\x1b[?2026l",
    ),
    ("write_and_flush", LONG, LONG),
    (
        "write_and_flush",
        "e\u{301}日\t\u{85}\r\n",
        "\x0fe\u{301}日\x0f \x0f\x0f\u{fffd}\x0f\r\n\x0f",
    ),
    // nothing is written for a resize
    ("resize, beep", "", "\x07"),
];

/// Resizes a terminal of ten columns. Returns whether it had them, and has the columns and rows of
/// the resize then.
fn is_resized<R: Resizable>(terminal: &mut R) -> bool {
    let had_ten = terminal.get_columns() == 10 && terminal.get_rows() == 24;
    terminal.resize(3, 7);
    let end = terminal.calculate_position("abcd", Position { row: 0, col: 0 });
    let (columns, rows) = (terminal.get_columns(), terminal.get_rows());
    had_ten && columns == 3 && rows == 7 && end == (Position { row: 1, col: 1 })
}

/// Makes a call. That of this number to the highlighter of `refresh_line` fails.
fn call<O: Write + Drop, K: RawReader>(
    alloc: Global,
    terminal: &mut Ansi<O, K>,
    name: &str,
    text: &str,
    failing: u64,
) -> Result<()> {
    match name {
        "beep" => terminal.beep(),
        "move_cursor" => {
            terminal.move_cursor(Position { row: 0, col: 0 }, Position { row: 1, col: 2 })
        }
        "write_and_flush" => terminal.write_and_flush(text),
        "clear_to_eol" => terminal.clear_to_eol(),
        "clear_screen" => terminal.clear_screen(),
        "clear_rows" => clear_rows(terminal),
        "enable_bracketed_paste" => terminal.enable_bracketed_paste(),
        "disable_bracketed_paste" => terminal.disable_bracketed_paste(),
        "begin_synchronized_update" => terminal.begin_synchronized_update(),
        "end_synchronized_update" => terminal.end_synchronized_update(),
        "resize, beep" if is_resized(terminal) => terminal.beep(),
        "refresh_line" => redraw_plain(alloc, terminal, text, failing),
        "colors" => redraw_lit(alloc, terminal, text, false),
        "colors of a bracket" => redraw_lit(alloc, terminal, text, true),
        _ => Err(ReadlineError::Eof),
    }
}

/// An output that cannot be written to.
const CLOSED: &Fault = &Fault {
    kind: ErrorKind::PermissionDenied,
    text: "the output",
};

/// One that is to be asked again.
const INTERRUPTED: &Fault = &Fault {
    kind: ErrorKind::Interrupted,
    text: "the output",
};

/// How a call is asked: how many bytes an output takes at once, who fails, and by which fault, if
/// it is the output.
type How = (usize, Failing, &'static Fault);

/// What comes of a call: whether it is well, how often the output is asked to write, and how many
/// bytes it takes.
type Comes = (bool, u64, usize);

/// Makes a call on a terminal of ten columns. Returns what it answers, and the output.
fn called<O: Write + Drop>(
    alloc: Global,
    out: O,
    (name, text, _): Call,
    failing: u64,
) -> (Result<()>, O) {
    let mut terminal: Ansi<O, KeyQueue> = Ansi::new(alloc, out, 10, true, true);
    let answer = call(alloc, &mut terminal, name, text, failing);
    (answer, terminal.into_out())
}

/// Whether an answer is well, or else this fault.
fn is_answer(answer: &Result<()>, is_well: bool, fault: &Fault) -> bool {
    match answer {
        Ok(()) => is_well,
        Err(ReadlineError::Io(error)) => !is_well && error.kind() == fault.kind,
        Err(_) => false,
    }
}

/// Whether an output was asked so often, took so many of these bytes, and was flushed once if that
/// is well.
fn has_taken(out: &Counted, bytes: &str, (is_well, writes, taken): Comes) -> bool {
    let is_asked = out.writes == writes && out.flushes == u64::from(is_well);
    is_asked && out.bytes.as_slice() == bytes.as_bytes().get(..taken).unwrap_or(b"")
}

/// Whether that comes of a call: where it is well, the bytes are flushed once, and else it fails by
/// that fault and nothing is flushed.
fn does(alloc: Global, asked: Call, (most, failing, fault): How, comes: Comes) -> bool {
    let Ok(out) = Counted::new(alloc, most, failing_call(failing, "output"), fault) else {
        return false;
    };
    let (answer, out) = called(alloc, out, asked, failing_call(failing, "highlighter"));
    is_answer(&answer, comes.0, fault) && has_taken(&out, asked.2, comes)
}

/// Whether that comes of a call which is to come of it in the trial of this number: its bytes are
/// taken at once, and after an interruption; they are taken one by one, and the flush fails; and a
/// write fails, the first one in the third trial.
fn does_in_trial(alloc: Global, asked: Call, number: u64) -> bool {
    let whole = usize::MAX;
    let len = asked.2.len();
    let count = len as u64;
    let (next, taken) = (number.saturating_sub(2), number.saturating_sub(3));
    match number {
        0 => does(alloc, asked, (whole, NOBODY, CLOSED), (true, 1, len)),
        1 => {
            let how = (whole, ("output", 1), INTERRUPTED);
            does(alloc, asked, how, (true, 2, len))
        }
        2 => {
            let how = (1, ("output", u64::MAX), CLOSED);
            does(alloc, asked, how, (false, count, len))
        }
        _ => {
            let comes = (taken == count, next.min(count), taken as usize);
            does(alloc, asked, (1, ("output", next), CLOSED), comes)
        }
    }
}

/// Each call writes in one piece and flushes, an interrupted write is tried again, and a flush can
/// fail; where bytes are taken one by one, the write behind so many of them fails, and there is
/// none behind all of them. So can each call of a highlighter fail, which is asked for the prompt,
/// the line and the hint.
#[test]
fn writes_and_flushes_or_hands_on_the_failure(rt: HostRuntime) {
    for asked in CALLS {
        let count = asked.2.len() as u64;
        for number in 0..count.saturating_add(4) {
            let is_so = does_in_trial(rt.alloc(), *asked, number);
            holds(&rt, is_so, asked.0, number as usize);
        }
    }
    for number in 1..4 {
        let how = (usize::MAX, ("highlighter", number), CLOSED);
        let is_so = does(rt.alloc(), ("refresh_line", "ab", ""), how, (false, 0, 0));
        holds(&rt, is_so, "highlighter", number as usize);
    }
}
