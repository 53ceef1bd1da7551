//! Scripts that keys alone can't say: bad ones, statuses, streams that fail, and want of memory.

mod script;

use crate::{holds, same, same_bytes, sure};
use line_buffer::Position;
use line_script::play;
use line_script::report::{Outcome, Report};
use std::alloc::Global;
use std::io::{self, Read, Write};
use std::process::Abort;

/// Which stream of a script fails.
#[derive(Clone, Copy)]
enum Fails {
    Nothing,
    Input,
    Output,
}

/// The streams of a script: which of them fails, and how many bytes they give or take at once; of
/// what is printed, whether one write alone fails, or each from then on, and whether it can be
/// flushed; and whether it can be said why a line is bad.
#[derive(Clone, Copy)]
struct Streams {
    fails: Fails,
    at_once: usize,
    goes_on: bool,
    flushes: bool,
    complains: bool,
}

const AT_ONCE: Streams = Streams {
    fails: Fails::Nothing,
    at_once: usize::MAX,
    goes_on: false,
    flushes: true,
    complains: false,
};

/// All is given and taken, at once or byte by byte.
const WHOLE: &[Streams] = &[
    AT_ONCE,
    Streams {
        at_once: 1,
        ..AT_ONCE
    },
];

/// The same, at once, and it can be said why a line is bad.
const SAID: &[Streams] = &[Streams {
    complains: true,
    ..AT_ONCE
}];

/// The script is cut, its bytes together or one by one.
const CUT: &[Streams] = &[
    Streams {
        fails: Fails::Input,
        ..AT_ONCE
    },
    Streams {
        fails: Fails::Input,
        at_once: 1,
        ..AT_ONCE
    },
];

/// A byte can't be written: each from one on, that one alone, or each and no flush is made.
const BROKEN: &[Streams] = &[
    Streams {
        fails: Fails::Output,
        at_once: 1,
        ..AT_ONCE
    },
    Streams {
        fails: Fails::Output,
        at_once: 1,
        goes_on: true,
        ..AT_ONCE
    },
    Streams {
        fails: Fails::Output,
        at_once: 1,
        flushes: false,
        ..AT_ONCE
    },
];

/// The stream of a script, which at its end can't be read, or ends.
#[derive(Drop)]
struct Input {
    rest: &'static [u8],
    streams: Streams,
    is_cut: bool,
}

impl Read for Input {
    fn read(&mut self, buf: &mut [u8]) -> io::Result<usize> {
        if self.is_cut && self.rest.is_empty() {
            return Err(io::Error::from(io::ErrorKind::Other));
        }
        let count = self.streams.at_once.min(buf.len());
        self.rest.read(&mut buf[..count])
    }
}

/// The stream of what is printed, of which the write after so many fails.
#[derive(Drop)]
struct Output {
    bytes: Vec<u8>,
    streams: Streams,
    writes: usize,
    failing: usize,
}

impl Write for Output {
    fn write(&mut self, buf: &[u8]) -> io::Result<usize> {
        let failed = self.writes == self.failing;
        if !failed || self.streams.goes_on {
            self.writes = self.writes.saturating_add(1);
        }
        if failed {
            return Err(io::Error::from(io::ErrorKind::Other));
        }
        let count = self.streams.at_once.min(buf.len());
        self.bytes.extend_from_slice(&buf[..count])?;
        Ok(count)
    }

    fn flush(&mut self) -> io::Result<()> {
        if self.streams.flushes {
            Ok(())
        } else {
            Err(io::Error::from(io::ErrorKind::Other))
        }
    }
}

/// The streams of a script, the script, what is printed where they do not fail, what is said of a
/// bad line, and the status then.
type Case = (
    &'static [Streams],
    &'static str,
    &'static str,
    &'static str,
    u8,
);

/// Each outcome, bad lines, and what stands after a submit, which has to be good too.
const CASES: &[Case] = &[
    (
        WHOLE,
        "type ab\nkey Left\ntype c\nkey Enter\n",
        "outcome submitted\nline acb\ncursor 2\nplace 0\nat 0 4\nredraws 2\n",
        "",
        0,
    ),
    (
        WHOLE,
        "",
        "outcome eof\nline \ncursor 0\nplace 0\nat 0 2\nredraws 1\n",
        "",
        1,
    ),
    (
        WHOLE,
        "type ab\nkey C-a\nkey C-c\n",
        "outcome interrupted\nline ab\ncursor 0\nplace 0\nat 0 4\nredraws 1\n",
        "",
        2,
    ),
    (
        WHOLE,
        "key PasteStart\nkey C-d\n",
        "outcome fault\nline \ncursor 0\nplace 0\nat 0 2\nredraws 1\n",
        "",
        3,
    ),
    (
        WHOLE,
        "type a\nkey Left\nkey Foo\n",
        "bad script line 3\n",
        "",
        4,
    ),
    (WHOLE, "type a\nhistory a\n", "bad script line 2\n", "", 4),
    (WHOLE, "load x\\q\n", "bad script line 1\n", "", 4),
    (
        WHOLE,
        "type a\n\nkey Enter\nkey\n",
        "bad script line 4\n",
        "",
        4,
    ),
    (
        WHOLE,
        "paste a\\nb\n",
        "outcome eof\nline a\\nb\ncursor 3\nplace 0\nat 1 1\nredraws 2\n",
        "",
        1,
    ),
    // the ring has 60 slots: the 61st kill takes the first one's place, and the 60th step back
    // comes to where it began
    (
        WHOLE,
        "type 1\nkey C-u\ntype 2\nkey C-u\ntype 3\nkey C-u\ntype 4\nkey C-u\nkey C-y\nkey M-y\nkey M-y\n\
         key M-y\n",
        "outcome eof\nline 1\ncursor 1\nplace 0\nat 0 3\nredraws 5\n",
        "",
        1,
    ),
    (
        WHOLE,
        "type 1\nkey C-u\ntype 2\nkey C-u\ntype 3\nkey C-u\ntype 4\nkey C-u\ntype 5\nkey C-u\ntype 6\n\
         key C-u\ntype 7\nkey C-u\ntype 8\nkey C-u\ntype 9\nkey C-u\ntype 10\nkey C-u\ntype 11\nkey C-u\n\
         type 12\nkey C-u\ntype 13\nkey C-u\ntype 14\nkey C-u\ntype 15\nkey C-u\ntype 16\nkey C-u\ntype 17\n\
         key C-u\ntype 18\nkey C-u\ntype 19\nkey C-u\ntype 20\nkey C-u\ntype 21\nkey C-u\ntype 22\nkey C-u\n\
         type 23\nkey C-u\ntype 24\nkey C-u\ntype 25\nkey C-u\ntype 26\nkey C-u\ntype 27\nkey C-u\ntype 28\n\
         key C-u\ntype 29\nkey C-u\ntype 30\nkey C-u\ntype 31\nkey C-u\ntype 32\nkey C-u\ntype 33\nkey C-u\n\
         type 34\nkey C-u\ntype 35\nkey C-u\ntype 36\nkey C-u\ntype 37\nkey C-u\ntype 38\nkey C-u\ntype 39\n\
         key C-u\ntype 40\nkey C-u\ntype 41\nkey C-u\ntype 42\nkey C-u\ntype 43\nkey C-u\ntype 44\nkey C-u\n\
         type 45\nkey C-u\ntype 46\nkey C-u\ntype 47\nkey C-u\ntype 48\nkey C-u\ntype 49\nkey C-u\ntype 50\n\
         key C-u\ntype 51\nkey C-u\ntype 52\nkey C-u\ntype 53\nkey C-u\ntype 54\nkey C-u\ntype 55\nkey C-u\n\
         type 56\nkey C-u\ntype 57\nkey C-u\ntype 58\nkey C-u\ntype 59\nkey C-u\ntype 60\nkey C-u\nkey C-y\n\
         key M-y\nkey M-y\nkey M-y\nkey M-y\nkey M-y\nkey M-y\nkey M-y\nkey M-y\nkey M-y\nkey M-y\nkey M-y\n\
         key M-y\nkey M-y\nkey M-y\nkey M-y\nkey M-y\nkey M-y\nkey M-y\nkey M-y\nkey M-y\nkey M-y\nkey M-y\n\
         key M-y\nkey M-y\nkey M-y\nkey M-y\nkey M-y\nkey M-y\nkey M-y\nkey M-y\nkey M-y\nkey M-y\nkey M-y\n\
         key M-y\nkey M-y\nkey M-y\nkey M-y\nkey M-y\nkey M-y\nkey M-y\nkey M-y\nkey M-y\nkey M-y\nkey M-y\n\
         key M-y\nkey M-y\nkey M-y\nkey M-y\nkey M-y\nkey M-y\nkey M-y\nkey M-y\nkey M-y\nkey M-y\nkey M-y\n\
         key M-y\nkey M-y\nkey M-y\nkey M-y\n",
        "outcome eof\nline 1\ncursor 1\nplace 0\nat 0 3\nredraws 61\n",
        "",
        1,
    ),
    (
        WHOLE,
        "type 1\nkey C-u\ntype 2\nkey C-u\ntype 3\nkey C-u\ntype 4\nkey C-u\ntype 5\nkey C-u\ntype 6\n\
         key C-u\ntype 7\nkey C-u\ntype 8\nkey C-u\ntype 9\nkey C-u\ntype 10\nkey C-u\ntype 11\nkey C-u\n\
         type 12\nkey C-u\ntype 13\nkey C-u\ntype 14\nkey C-u\ntype 15\nkey C-u\ntype 16\nkey C-u\ntype 17\n\
         key C-u\ntype 18\nkey C-u\ntype 19\nkey C-u\ntype 20\nkey C-u\ntype 21\nkey C-u\ntype 22\nkey C-u\n\
         type 23\nkey C-u\ntype 24\nkey C-u\ntype 25\nkey C-u\ntype 26\nkey C-u\ntype 27\nkey C-u\ntype 28\n\
         key C-u\ntype 29\nkey C-u\ntype 30\nkey C-u\ntype 31\nkey C-u\ntype 32\nkey C-u\ntype 33\nkey C-u\n\
         type 34\nkey C-u\ntype 35\nkey C-u\ntype 36\nkey C-u\ntype 37\nkey C-u\ntype 38\nkey C-u\ntype 39\n\
         key C-u\ntype 40\nkey C-u\ntype 41\nkey C-u\ntype 42\nkey C-u\ntype 43\nkey C-u\ntype 44\nkey C-u\n\
         type 45\nkey C-u\ntype 46\nkey C-u\ntype 47\nkey C-u\ntype 48\nkey C-u\ntype 49\nkey C-u\ntype 50\n\
         key C-u\ntype 51\nkey C-u\ntype 52\nkey C-u\ntype 53\nkey C-u\ntype 54\nkey C-u\ntype 55\nkey C-u\n\
         type 56\nkey C-u\ntype 57\nkey C-u\ntype 58\nkey C-u\ntype 59\nkey C-u\ntype 60\nkey C-u\ntype 61\n\
         key C-u\nkey C-y\nkey M-y\nkey M-y\nkey M-y\nkey M-y\nkey M-y\nkey M-y\nkey M-y\nkey M-y\nkey M-y\n\
         key M-y\nkey M-y\nkey M-y\nkey M-y\nkey M-y\nkey M-y\nkey M-y\nkey M-y\nkey M-y\nkey M-y\nkey M-y\n\
         key M-y\nkey M-y\nkey M-y\nkey M-y\nkey M-y\nkey M-y\nkey M-y\nkey M-y\nkey M-y\nkey M-y\nkey M-y\n\
         key M-y\nkey M-y\nkey M-y\nkey M-y\nkey M-y\nkey M-y\nkey M-y\nkey M-y\nkey M-y\nkey M-y\nkey M-y\n\
         key M-y\nkey M-y\nkey M-y\nkey M-y\nkey M-y\nkey M-y\nkey M-y\nkey M-y\nkey M-y\nkey M-y\nkey M-y\n\
         key M-y\nkey M-y\nkey M-y\nkey M-y\nkey M-y\nkey M-y\n",
        "outcome eof\nline 2\ncursor 1\nplace 0\nat 0 3\nredraws 61\n",
        "",
        1,
    ),
    (
        WHOLE,
        "type 1\nkey C-u\ntype 2\nkey C-u\ntype 3\nkey C-u\ntype 4\nkey C-u\ntype 5\nkey C-u\ntype 6\n\
         key C-u\ntype 7\nkey C-u\ntype 8\nkey C-u\ntype 9\nkey C-u\ntype 10\nkey C-u\ntype 11\nkey C-u\n\
         type 12\nkey C-u\ntype 13\nkey C-u\ntype 14\nkey C-u\ntype 15\nkey C-u\ntype 16\nkey C-u\ntype 17\n\
         key C-u\ntype 18\nkey C-u\ntype 19\nkey C-u\ntype 20\nkey C-u\ntype 21\nkey C-u\ntype 22\nkey C-u\n\
         type 23\nkey C-u\ntype 24\nkey C-u\ntype 25\nkey C-u\ntype 26\nkey C-u\ntype 27\nkey C-u\ntype 28\n\
         key C-u\ntype 29\nkey C-u\ntype 30\nkey C-u\ntype 31\nkey C-u\ntype 32\nkey C-u\ntype 33\nkey C-u\n\
         type 34\nkey C-u\ntype 35\nkey C-u\ntype 36\nkey C-u\ntype 37\nkey C-u\ntype 38\nkey C-u\ntype 39\n\
         key C-u\ntype 40\nkey C-u\ntype 41\nkey C-u\ntype 42\nkey C-u\ntype 43\nkey C-u\ntype 44\nkey C-u\n\
         type 45\nkey C-u\ntype 46\nkey C-u\ntype 47\nkey C-u\ntype 48\nkey C-u\ntype 49\nkey C-u\ntype 50\n\
         key C-u\ntype 51\nkey C-u\ntype 52\nkey C-u\ntype 53\nkey C-u\ntype 54\nkey C-u\ntype 55\nkey C-u\n\
         type 56\nkey C-u\ntype 57\nkey C-u\ntype 58\nkey C-u\ntype 59\nkey C-u\ntype 60\nkey C-u\ntype 61\n\
         key C-u\nkey C-y\nkey M-y\nkey M-y\nkey M-y\nkey M-y\nkey M-y\nkey M-y\nkey M-y\nkey M-y\nkey M-y\n\
         key M-y\nkey M-y\nkey M-y\nkey M-y\nkey M-y\nkey M-y\nkey M-y\nkey M-y\nkey M-y\nkey M-y\nkey M-y\n\
         key M-y\nkey M-y\nkey M-y\nkey M-y\nkey M-y\nkey M-y\nkey M-y\nkey M-y\nkey M-y\nkey M-y\nkey M-y\n\
         key M-y\nkey M-y\nkey M-y\nkey M-y\nkey M-y\nkey M-y\nkey M-y\nkey M-y\nkey M-y\nkey M-y\nkey M-y\n\
         key M-y\nkey M-y\nkey M-y\nkey M-y\nkey M-y\nkey M-y\nkey M-y\nkey M-y\nkey M-y\nkey M-y\nkey M-y\n\
         key M-y\nkey M-y\nkey M-y\nkey M-y\nkey M-y\nkey M-y\nkey M-y\n",
        "outcome eof\nline 61\ncursor 2\nplace 0\nat 0 4\nredraws 62\n",
        "",
        1,
    ),
    // what is said of a bad line
    (
        SAID,
        "type a\nkey Left\nkey Foo\n",
        "bad script line 3\n",
        "line 3: no key is called Foo\n",
        4,
    ),
    (
        SAID,
        "key Enter\r\n",
        "bad script line 1\n",
        "line 1: it ends in a carriage return; lines end in a line feed alone\n",
        4,
    ),
    (
        SAID,
        "\r",
        "bad script line 1\n",
        "line 1: it ends in a carriage return; lines end in a line feed alone\n",
        4,
    ),
    (
        SAID,
        "\n\nfoo bar",
        "bad script line 3\n",
        "line 3: no line begins with \"foo\"\n",
        4,
    ),
    (
        SAID,
        "foo",
        "bad script line 1\n",
        "line 1: no line begins with \"foo\"\n",
        4,
    ),
    (
        SAID,
        " type a",
        "bad script line 1\n",
        "line 1: no line begins with \"\"\n",
        4,
    ),
    (
        SAID,
        "type a\n\nkey Enter\nkey\n",
        "bad script line 4\n",
        "line 4: key needs a blank and a text behind it\n",
        4,
    ),
    (
        SAID,
        "hints on\n",
        "bad script line 1\n",
        "line 1: hints takes no text\n",
        4,
    ),
    (
        SAID,
        "type a\nhints\n",
        "bad script line 2\n",
        "line 2: the setting hints stands behind items\n",
        4,
    ),
    (
        SAID,
        "paste a\nmode vi\n",
        "bad script line 2\n",
        "line 2: the setting mode stands behind items\n",
        4,
    ),
    (
        SAID,
        "load x\\q\n",
        "bad script line 1\n",
        "line 1: a backslash has neither n nor a backslash behind it\n",
        4,
    ),
    (
        SAID,
        "type x\\",
        "bad script line 1\n",
        "line 1: a backslash has neither n nor a backslash behind it\n",
        4,
    ),
    (
        SAID,
        "columns 9\n",
        "bad script line 1\n",
        "line 1: columns are a number from 10 to 1000, and not \"9\"\n",
        4,
    ),
    (
        SAID,
        "mode ed\n",
        "bad script line 1\n",
        "line 1: the mode is emacs or vi, and not \"ed\"\n",
        4,
    ),
    (
        SAID,
        "type a\n",
        "outcome eof\nline a\ncursor 1\nplace 0\nat 0 3\nredraws 1\n",
        "",
        1,
    ),
    // good or bad by where they are cut
    (CUT, "", "", "", 3),
    (CUT, "history é\n\ntype a\nkey Enter\n", "", "", 3),
    (CUT, "key\n", "", "", 3),
    // where no write fails
    (
        BROKEN,
        "type a\nkey Enter\n",
        "outcome submitted\nline a\ncursor 1\nplace 0\nat 0 3\nredraws 1\n",
        "",
        0,
    ),
    (BROKEN, "key\n", "bad script line 1\n", "", 4),
];

/// Plays a script, of whose streams one fails after so many bytes: what is printed is a beginning
/// of the whole, and nothing where the script can't be read; the status is that of a fault, if one
/// fails; and where it can be said why a line is bad, it is.
fn plays(rt: &impl Abort, alloc: Global, case: Case, streams: Streams, at: usize) {
    let (_, script, whole, said, status) = case;
    let (cut, failing) = match streams.fails {
        Fails::Nothing => (usize::MAX, usize::MAX),
        Fails::Input => (at, usize::MAX),
        Fails::Output => (usize::MAX, at),
    };
    let is_cut = cut <= script.len();
    let input = Input {
        rest: script.as_bytes().get(..cut).unwrap_or(script.as_bytes()),
        streams,
        is_cut,
    };
    let mut out = Output {
        bytes: Vec::new(alloc),
        streams,
        writes: 0,
        failing,
    };
    let mut errors = Output {
        bytes: Vec::new(alloc),
        streams: AT_ONCE,
        writes: 0,
        failing: if streams.complains { usize::MAX } else { 0 },
    };
    let ended = play(alloc, input, &mut out, &mut errors);
    let printed = if is_cut { 0 } else { failing.min(whole.len()) };
    let is_whole = !is_cut && printed == whole.len() && streams.flushes;
    let wanted = if is_whole { status } else { 3 };
    let is_printed = match whole.as_bytes().get(..printed) {
        Some(begun) => same_bytes(begun, out.bytes.as_slice()),
        None => false,
    };
    let said = if streams.complains { said } else { "" };
    let is_said = same_bytes(errors.bytes.as_slice(), said.as_bytes());
    holds(rt, is_printed && is_said && ended == wanted, script, at);
}

/// Plays each script with each of its streams, which fail after each number of bytes.
#[test]
fn ends_as_its_streams_let_it(rt: HostRuntime) {
    for case in CASES {
        for streams in case.0 {
            let last = match streams.fails {
                Fails::Nothing => 0,
                Fails::Input => case.1.len(),
                Fails::Output => case.2.len(),
            };
            for at in 0..=last {
                plays(&rt, rt.alloc(), *case, *streams, at);
            }
        }
    }
}

/// How each of the six lines begins.
const HEADS: &[&str] = &["outcome ", "line ", "cursor ", "place ", "at ", "redraws "];

/// Whether a text is a beginning of the six lines that are printed.
fn is_beginning(printed: &str) -> bool {
    let mut lines = printed.lines();
    for head in HEADS {
        let line = lines.next().unwrap_or("");
        if !line.starts_with(head) {
            return head.starts_with(line) && lines.next().is_none();
        }
    }
    lines.next().is_none()
}

/// Good scripts, and of those of which no outcome is a fault what is printed and the status.
const GOOD: &[(&str, &str, u8)] = &[
    (
        "columns 40\nhistory git status\nhistory a\\nb\nprompt lang: \nhints\nbrackets\ntype a\nkey Up\nkey Enter\n",
        "",
        0,
    ),
    (
        "type 日本日本日本日本日本\npaste one\\ntwo\nkey M-3\nkey C-b\nkey C-k\nkey C-y\nkey C-c\n",
        "",
        0,
    ),
    (
        "mode vi\nhistory one two\nkey Up\nkey Esc\ntype 0cwx\nkey Esc\ntype w.3p2y\nkey Esc\nkey Enter\n",
        "",
        0,
    ),
    (
        "hints\nhistory git status\ntype git\nkey Right\nkey Enter\n",
        "outcome submitted\nline git status\ncursor 10\nplace 1\nat 0 12\nredraws 5\n",
        0,
    ),
    (
        "paste a\\nb\n",
        "outcome eof\nline a\\nb\ncursor 3\nplace 0\nat 1 1\nredraws 2\n",
        1,
    ),
    (
        "history rustc\nhistory cargo\ntype a\nkey M-<\nkey M->\nkey Enter\n",
        "outcome submitted\nline a\ncursor 1\nplace 2\nat 0 3\nredraws 3\n",
        0,
    ),
];

/// Plays scripts without a bad line, and finds none. With ample memory a script prints its lines
/// and ends with its status. Where an allocation is refused the status may be that of a fault, and
/// what is printed is then a beginning of these lines or of those of a fault.
#[test]
fn ends_by_a_fault_alone_where_memory_is_refused(rt: HostRuntime) {
    for (script, whole, status) in GOOD {
        let mut out = Vec::new(rt.alloc());
        let mut errors = Vec::new(rt.alloc());
        let ended = play(rt.alloc(), script.as_bytes(), &mut out, &mut errors);
        let shown = str::from_utf8(&out).unwrap_or("no text");
        let is_good = ended < 4 && !shown.starts_with("bad") && !same(shown, "no text");
        let is_right = if whole.is_empty() {
            true
        } else if ended == 3 {
            let is_of_these = whole.starts_with(shown) || shown.starts_with("outcome fault\n");
            is_of_these && is_beginning(shown)
        } else {
            same(shown, whole) && ended == *status
        };
        holds(&rt, is_good && is_right, script, usize::from(ended));
    }
}

/// An outcome, a line, and what is printed.
const REPORTS: &[(Outcome, &str, &str)] = &[
    (
        Outcome::Eof,
        "",
        "outcome eof\nline \ncursor 3\nplace 7\nat 2 5\nredraws 9\n",
    ),
    (
        Outcome::Eof,
        "a\\\n世",
        "outcome eof\nline a\\\\\\n世\ncursor 3\nplace 7\nat 2 5\nredraws 9\n",
    ),
    // other control characters stand as they are
    (
        Outcome::Eof,
        "\r\t\u{1}\\n\0",
        "outcome eof\nline \r\t\u{1}\\\\n\0\ncursor 3\nplace 7\nat 2 5\nredraws 9\n",
    ),
    (
        Outcome::Submitted,
        "",
        "outcome submitted\nline \ncursor 3\nplace 7\nat 2 5\nredraws 9\n",
    ),
    (
        Outcome::Interrupted,
        "",
        "outcome interrupted\nline \ncursor 3\nplace 7\nat 2 5\nredraws 9\n",
    ),
    (
        Outcome::Fault,
        "",
        "outcome fault\nline \ncursor 3\nplace 7\nat 2 5\nredraws 9\n",
    ),
];

#[test]
fn names_the_outcome_and_escapes_the_line(rt: HostRuntime) {
    for (outcome, line, printed) in REPORTS {
        let report = Report {
            outcome: *outcome,
            line,
            cursor: 3,
            place: 7,
            at: Position { row: 2, col: 5 },
            redraws: 9,
        };
        let mut out = Vec::new(rt.alloc());
        sure(&rt, report.write_to(&mut out));
        holds(&rt, same_bytes(out.as_slice(), printed.as_bytes()), line, 0);
    }
}
