//! Commands and calls of the edit state, executed one after another: where an allocation is
//! refused, on long lines and histories, and on the last row; and what `Debug` writes.

use crate::{holds, same, sure};
use line_buffer::{GraphemeClusterMode, KillRing, Unit};
use line_config::{Config, Prompt, ReadlineError, Result};
use line_editor::edit::State;
use line_editor::input_state::InputState;
use line_keys::refresher::Refresher;
use line_parts::{Context, History};
use std::alloc::Global;
use std::fmt::{Debug, Formatter};
use std::process::Abort;
use tests_parties::advisor::Advisor;
use tests_parties::shelf::Shelf;
use tests_steps::calls::{Editor, executed, letters};
use tests_steps::recorder::{Fixed, Recorder};

mod large;
mod refusals;

/// Commands and calls by their names, of which each is there, and ends well or ends the line. An
/// error that is not the end of the line is returned.
fn does(
    rt: &impl Abort,
    alloc: Global,
    state: &mut Editor<'_, '_>,
    input: &InputState<'_>,
    kills: &mut KillRing,
    steps: &str,
) -> Result<()> {
    let config = Config::new(GraphemeClusterMode::Unicode);
    for step in steps.split("; ") {
        match executed(alloc, state, input, kills, &config, step) {
            Some(Ok(_) | Err(ReadlineError::Interrupted | ReadlineError::Eof)) => {}
            Some(Err(error)) => return Err(error),
            None => holds(rt, false, step, 0),
        }
    }
    Ok(())
}

/// The line before and after its cursor, which is on a boundary.
fn at<'l>(rt: &impl Abort, state: &'l Editor<'_, '_>) -> (&'l str, &'l str) {
    let (line, pos) = (state.line(), state.pos());
    assert!(rt; line.is_char_boundary(pos));
    (&line[..pos], &line[pos..])
}

/// An editor of a line with its cursor, which is on a boundary, after these prompts.
fn edits<'out, 'prompt>(
    rt: &impl Abort,
    alloc: Global,
    screen: &'out mut Recorder,
    prompts: &'prompt (String, String),
    helper: &'out mut Advisor,
    history: &'out Shelf,
    (text, cursor): (&str, usize),
) -> Result<Editor<'out, 'prompt>> {
    assert!(rt; text.is_char_boundary(cursor));
    let context = Context::new(history);
    State::with_line(alloc, screen, prompts, Some(helper), context, text, cursor)
}

/// A prompt twice.
fn prompts(alloc: Global) -> Result<(String, String)> {
    Ok((
        String::from_str(alloc, "> ")?,
        String::from_str(alloc, "> ")?,
    ))
}

/// A history of so many lines: each is `line` and a number of four digits, the first 1000.
fn shelved(rt: &impl Abort, alloc: Global, lines: u64) -> Shelf {
    let mut history = Shelf::new(alloc, 0);
    sure(rt, history.set_max_len(5000));
    for line in 0..lines {
        let number = line.saturating_add(1000);
        let text = sure(rt, format!(in alloc; "line{number}"));
        let _ = sure(rt, history.add_owned(text));
    }
    history
}

/// The columns, what is typed after a prompt that ends on the last row there is, the calls of the
/// renderer, and the column that it leads to.
type Last = (Unit, &'static str, &'static str, Unit);

const ON_THE_LAST_ROW: &[Last] = &[(1, "x", "d", 0), (2, "xyz", "wdw", 1), (3, "xyz", "wwd", 0)];

#[test]
fn on_the_last_row(rt: HostRuntime) {
    let alloc = rt.alloc();
    let mut prompt = String::new(alloc);
    for _ in 0..65535 {
        sure(&rt, prompt.push('\n'));
    }
    for (columns, typed, calls, column) in ON_THE_LAST_ROW {
        let mut screen = Recorder::new(alloc, (*columns).max(1), false, 0);
        let history = Shelf::new(alloc, 0);
        let context = Context::new(&history);
        let begun = State::new(alloc, &mut screen, &prompt, None, context);
        let mut state: State<'_, '_, Recorder<Fixed>, Advisor, String, Shelf> = sure(&rt, begun);
        sure(&rt, state.refresh_line());
        for c in typed.chars() {
            sure(&rt, state.edit_insert(c, 1));
        }
        let cursor = state.layout().cursor;
        let letters = sure(&rt, letters(alloc, state.out().log(), 1));
        let is_placed = cursor.row == 65535 && cursor.col == *column;
        let is_so = is_placed && same(letters.as_str(), calls);
        holds(&rt, is_so, typed, usize::from(cursor.col));
    }
}

/// What `Debug` writes of a state has each of these pieces.
const PIECES: &[&str] = &["State", "\"日本\"", "pos: 3", "history_index: 2", "Layout"];

/// An editor whose prompt is borrowed.
type Written<'out, 'prompt> = State<'out, 'prompt, Recorder, Advisor, &'static str, Shelf>;

#[test]
fn is_written(rt: HostRuntime) {
    let alloc = rt.alloc();
    let history = shelved(&rt, alloc, 2);
    let mut screen = Recorder::new(alloc, 80, false, 0);
    let context = Context::new(&history);
    let text = "日本";
    assert!(rt; text.is_char_boundary(3));
    let begun = State::with_line(alloc, &mut screen, &"> ", None, context, text, 3);
    let state: Written<'_, '_> = sure(&rt, begun);
    let mut formatter = Formatter::new(String::new(alloc));
    sure(&rt, state.fmt(&mut formatter));
    let written = formatter.into_inner();
    for piece in PIECES {
        holds(&rt, written.as_str().contains(*piece), piece, 0);
    }
}
