//! What is left where one of those who are asked fails, at each of its calls, and where memory runs
//! out: commands are read on.

use crate::holds;
use crate::parties::{Failing, NOBODY};
use crate::sessions::{
    ASK, ASK_AT_ONCE, CURSOR, Desk, LINES, LIST, LIST_AT_ONCE, MANY, PAUSE, ROUND, ROUND_VI,
    SEARCH, SEARCH_VI,
};
use line_config::{ReadlineError, Result};
use line_parts::History;
use line_parts::history::SearchDirection;
use std::alloc::Global;
use std::process::Abort;
use tests_parties::fault::GONE;
use tests_parties::shelf::Shelf;

/// Who fails in turn, what is tried, the words or the lines of the history, what is typed, the line
/// from before a completion or a search, and after which text of a list the line is drawn on a new
/// row.
type Case = (
    &'static str,
    &'static str,
    &'static str,
    &'static str,
    &'static str,
    &'static str,
);

/// Who is asked where a line is drawn.
const DRAWN: &str = "output hinter highlighter";

/// Who is asked in a completion.
const HELPED: &str = "output hinter highlighter completer";

/// Who is asked in a completion of a line that is submitted.
const CHECKED: &str = "output hinter highlighter completer validator";

/// Who is asked in a search.
const LED: &str = "output hinter highlighter history";

/// Stands among keys where the screen gets ten columns.
const RESIZED: &str = "\0";

const CASES: &[Case] = &[
    // candidates are gone through
    (HELPED, ROUND, "ab ac", "x a\t\t\t\t\x1b[Z\x07", "x a", ""),
    (HELPED, ROUND_VI, "ab ac", "x a\t\t\t\t\x1b[Zb", "x a", ""),
    (CHECKED, ROUND, "ab ac", "a\t\x02\r", "a", ""),
    // a list is offered
    (HELPED, LIST, "abc abd", "x a\t\t", "x a", ""),
    (HELPED, LIST_AT_ONCE, "abc abd", "x a\tz", "x a", ""),
    (CHECKED, LIST, "abc abd", "a\t\r", "a", ""),
    // it is asked whether to list
    (HELPED, ASK_AT_ONCE, "abc abd", "a\tqy", "a", "(y or n)"),
    (HELPED, ASK, "abc abd", "a\t\txyz", "a", "(y or n)"),
    (HELPED, ASK, "abc abd", "a\t\tn\t\t\x7f", "a", "(y or n)"),
    // a list goes on by pages and rows
    (HELPED, LIST, MANY, "a\t\tq\t\t", "a", "--More--"),
    (HELPED, LIST, MANY, "a\t\t\r\r ", "a", "--More--"),
    (HELPED, LIST, MANY, "a\t\tx z", "a", "--More--"),
    (HELPED, LIST, MANY, "a\t\t\rn", "a", "--More--"),
    // a history is searched
    (
        LED,
        SEARCH,
        "alpha|beta",
        "x\x12ap\x7f\x12\x13\x07\x12a\x1b[D",
        "x",
        "",
    ),
    (LED, SEARCH, LINES, "x\x12one\x12\x12z\x7f\x13", "x", ""),
    (LED, SEARCH_VI, LINES, "x\x12o\x1b[D", "x", ""),
    ("validator history", SEARCH, LINES, "x\x12o\r", "x", ""),
    // a history is walked through
    (LED, SEARCH, LINES, "ab\x10\x10\x0e\x0e", "ab", ""),
    // an item comes in as it is
    (DRAWN, ROUND, "ab", "a\x16\tb\x16\x01", "a", ""),
    (LED, SEARCH, LINES, "a\x12o\x16\tb", "a", ""),
    // the program is suspended
    (DRAWN, ROUND, "ab", "ab\x1acd", "ab", ""),
    // the input ends
    (DRAWN, ROUND, "ab", "\x04", "", ""),
    // the size changes, in an empty line and in a list
    (DRAWN, ROUND, "ab", RESIZED, "", ""),
    (HELPED, LIST, MANY, "a\t\t\0", "a", ""),
];

/// Two desks at which the same is typed.
struct Pair {
    /// The one where someone fails.
    desk: Desk,
    /// The one where nobody does.
    twin: Desk,
    /// The line of the latter from before the last key.
    before: String,
    /// What came of that key at the former.
    outcome: Result<()>,
}

impl Drop for Pair {
    fn drop(self) {
        let Pair {
            desk: _,
            twin: _,
            before: _,
            outcome: _,
        } = self;
    }
}

impl Pair {
    /// Two desks for a case, where nothing is typed yet.
    fn new(alloc: Global, case: &Case, failing: Failing) -> Result<Pair> {
        Ok(Pair {
            desk: Desk::new(alloc, case.1, case.2, failing)?,
            twin: Desk::new(alloc, case.1, case.2, NOBODY)?,
            before: String::new(alloc),
            outcome: Ok(()),
        })
    }

    /// Types a key at both.
    fn take(&mut self, alloc: Global, step: &str) -> Result<()> {
        self.before = line_of(alloc, &self.twin)?;
        self.outcome = self.desk.take(step, 1);
        self.twin.take(step, 1)
    }

    /// Types keys at both, up to the one at which someone fails.
    fn take_all(&mut self, alloc: Global, keys: &str) -> Result<()> {
        self.take(alloc, "»")?;
        for at in 0..keys.len() {
            if self.outcome.is_err() {
                break;
            }
            let key = keys.get(at..at.saturating_add(1)).unwrap_or("");
            self.take(alloc, if key == RESIZED { "↔10" } else { key })?;
        }
        Ok(())
    }

    /// Whether the error is that of refused memory, which can come where nobody fails.
    fn lacks_memory(&self, failing: Failing) -> bool {
        failing == NOBODY && matches!(&self.outcome, Err(ReadlineError::Memory))
    }

    /// Whether no line goes on, and the one that was to begin was empty.
    fn has_none(&self) -> bool {
        self.desk.line().is_none() && self.twin.line() == Some("")
    }

    /// Whether a line goes on, which is that from before or after the last key, or this one.
    fn has_line(&self, start: &str) -> bool {
        let line = self.desk.line();
        line.is_some()
            && (line == Some(self.before.as_str())
                || line == Some(start)
                || line == self.twin.line())
    }

    /// Whether a line goes on at the next calls, too.
    fn keeps_line(&mut self, start: &str) -> Result<bool> {
        for _ in 0..2 {
            if !self.has_line(start) {
                return Ok(false);
            }
            self.desk.take(PAUSE, 1)?;
        }
        Ok(true)
    }
}

/// A copy of the line that goes on, or nothing.
fn line_of(alloc: Global, desk: &Desk) -> Result<String> {
    Ok(String::from_str(alloc, desk.line().unwrap_or(""))?)
}

/// Whether a history has the lines of another.
fn has_lines(one: &Shelf, other: &Shelf) -> Result<bool> {
    let mut has = one.len() == other.len();
    for index in 0..one.len() {
        let line = one.get(index, SearchDirection::Forward)?;
        has = has && line == other.get(index, SearchDirection::Forward)?;
    }
    Ok(has)
}

/// Types a character at a desk. Returns whether it comes in at the cursor, as where commands are
/// read.
fn types_on(alloc: Global, desk: &mut Desk) -> Result<bool> {
    let line = desk.marked(alloc)?;
    let Some((before, behind)) = line.as_str().split_once(CURSOR) else {
        return Ok(false);
    };
    let wanted = format!(in alloc; "{before}z{CURSOR}{behind}")?;
    desk.take("z", 1)?;
    Ok(desk.marked(alloc)? == wanted)
}

/// Whether no new row begins behind the last one of these texts, if there is one.
fn breaks_list(written: &str, list: &str) -> bool {
    match written.rsplit_once(list) {
        Some((_, behind)) => !list.is_empty() && !behind.starts_with("\r\n"),
        None => false,
    }
}

/// What is wrong about what a failure left: an error that is not that of the one that fails or of
/// refused memory; or another line than that from before the key or after it, where nothing failed.
/// Of what was typed nothing is lost but that key: one that was not taken is taken at the next
/// call. Nothing is wrong where this is empty.
fn wrong(alloc: Global, case: &Case, failing: Failing, pair: &mut Pair) -> Result<&'static str> {
    let is_memory = pair.lacks_memory(failing);
    if !is_memory && !GONE.is_answer(alloc, &pair.outcome)? {
        return Ok("another error");
    }
    let can_be_none = is_memory || failing == ("output", 1);
    if can_be_none && pair.has_none() {
        return Ok("");
    }
    if !pair.keeps_line(case.4)? {
        return Ok("another line, or none");
    }
    if !has_lines(pair.desk.history(), pair.twin.history())? {
        return Ok("another history");
    }
    if !types_on(alloc, &mut pair.desk)? {
        return Ok("no command is read");
    }
    Ok(if breaks_list(pair.desk.written(), case.5) {
        "the row of a list"
    } else {
        ""
    })
}

/// Does what a case says with one that fails. Returns None where nothing failed, and else what is
/// wrong then.
fn failed(alloc: Global, case: &Case, failing: Failing) -> Result<Option<&'static str>> {
    let mut pair = Pair::new(alloc, case, failing)?;
    typed(alloc, case, failing, &mut pair)
}

/// Types what a case says at two desks. Returns None where nothing failed, and else what is wrong
/// then.
fn typed(
    alloc: Global,
    case: &Case,
    failing: Failing,
    pair: &mut Pair,
) -> Result<Option<&'static str>> {
    pair.take_all(alloc, case.3)?;
    if pair.outcome.is_err() {
        return Ok(Some(wrong(alloc, case, failing, pair)?));
    }
    let (name, call) = failing;
    let is_made = name == "output" && call <= pair.twin.session.out().writes;
    Ok(is_made.then_some("no failure"))
}

/// How many calls past the last one are tried.
const PAST: usize = 10;

/// Fails each call of one who is asked in a case; the first is made. What is left is right; and
/// each failure is reported, so after a call that is not made none is.
fn each_fails(rt: &impl Abort, alloc: Global, case: &Case, name: &'static str) {
    let mut past: usize = 0;
    for call in 1..200 {
        let failed = failed(alloc, case, (name, call)).expect(rt, "no other fault");
        let wrong = match failed {
            Some(_) if past > 0 => "a failure behind the last one",
            Some(wrong) => wrong,
            None if call == 1 => "no call",
            None => "",
        };
        assert!(rt; wrong == "", "{wrong}: {name} {call} of {:?}", case.3);
        past = past.saturating_add(usize::from(failed.is_none()));
        if past == PAST {
            break;
        }
    }
}

#[test]
fn goes_on_where_a_party_fails(rt: HostRuntime) {
    for case in CASES {
        for name in case.0.split(' ') {
            each_fails(&rt, rt.alloc(), case, name);
        }
    }
}

/// Run with any one allocation refused, this passes: what is left is right, or the refusal came
/// before the line began.
#[test]
fn goes_on_where_memory_runs_out(rt: HostRuntime) {
    for (number, case) in CASES.iter().enumerate() {
        let wrong = match failed(rt.alloc(), case, NOBODY) {
            Ok(None) | Err(ReadlineError::Memory) => "",
            Ok(Some(wrong)) => wrong,
            Err(_) => "another error",
        };
        holds(&rt, wrong == "", wrong, number);
    }
}
