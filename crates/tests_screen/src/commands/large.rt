//! What is large fails for no reason of its own: 1,000 groups of changes, 1,000 lines of a history.

use super::{at, does, edits, prompts, shelved};
use crate::{holds, sure};
use line_buffer::{GraphemeClusterMode, KillRing};
use line_config::Config;
use line_editor::Bindings;
use line_editor::input_state::InputState;
use std::alloc::Global;
use std::process::Abort;
use tests_parties::advisor::Advisor;
use tests_steps::calls::Editor;
use tests_steps::recorder::Recorder;

/// How many lines the history holds. What is done once, what so many times, and what once after it;
/// and the length of the line, the cursor and the place that are left.
type Case = (
    u64,
    &'static str,
    u64,
    &'static str,
    &'static str,
    (usize, usize, usize),
);

/// Does the steps of a case, none of which fails: those of the first text once, the next so many
/// times, the last once. Then the line has the length, the cursor and the place that are wanted.
fn lasts(rt: &impl Abort, alloc: Global, case: &Case) {
    let history = shelved(rt, alloc, case.0);
    let prompts = sure(rt, prompts(alloc));
    let mut screen = Recorder::new(alloc, 80, false, 0);
    let mut helper = Advisor::new(Some("!!"), (true, true, None), None);
    let begun = edits(
        rt,
        alloc,
        &mut screen,
        &prompts,
        &mut helper,
        &history,
        ("", 0),
    );
    let mut state = sure(rt, begun);
    repeats(rt, alloc, &mut state, case);
    let (before, behind) = at(rt, &state);
    let len = before.len().saturating_add(behind.len());
    let (wanted, cursor, place) = case.5;
    let is_so = len == wanted && before.len() == cursor && state.place() == place;
    holds(rt, is_so, case.3, len);
}

/// Does the steps of a case.
fn repeats(rt: &impl Abort, alloc: Global, state: &mut Editor<'_, '_>, case: &Case) {
    let config = Config::new(GraphemeClusterMode::Unicode);
    let bindings = Bindings::new(alloc);
    let input = InputState::new(&config, &bindings);
    let mut kills = KillRing::new(alloc, 60);
    for round in 0..case.2.saturating_add(2) {
        let steps = if round == 0 {
            case.1
        } else if round <= case.2 {
            case.3
        } else {
            case.4
        };
        if !steps.is_empty() {
            sure(rt, does(rt, alloc, state, &input, &mut kills, steps));
        }
    }
}

/// One step after the other and one kill; and walks through a history of 1,100 lines of eight
/// bytes.
const CASES: &[Case] = &[
    (
        0,
        "",
        1010,
        "doing_insert; SelfInsert(1, 'x'); done_inserting",
        "Undo(1000)",
        (10, 10, 0),
    ),
    (
        0,
        "",
        1010,
        "doing_insert",
        "SelfInsert(1200, 'x'); done_inserting; Undo(1)",
        (0, 0, 0),
    ),
    (
        0,
        "",
        1010,
        "SelfInsert(1, 'x'); Kill(BeginningOfLine)",
        "Yank(1, Before)",
        (1010, 1010, 0),
    ),
    (
        0,
        "",
        1010,
        "SelfInsert(1, 'x'); Kill(BeginningOfLine); reset",
        "Yank(1, Before); YankPop",
        (1, 1, 0),
    ),
    (
        0,
        "",
        1010,
        "Repaint",
        "SelfInsert(1200, 'x')",
        (1200, 1200, 0),
    ),
    (1100, "", 1050, "PreviousHistory", "", (8, 8, 50)),
    (
        1100,
        "SelfInsert(1, 'x')",
        1100,
        "PreviousHistory",
        "PreviousHistory",
        (8, 8, 0),
    ),
    (
        1100,
        "SelfInsert(1, 'x'); BeginningOfHistory",
        1100,
        "NextHistory",
        "",
        (1, 1, 1100),
    ),
    (
        1100,
        "SelfInsert(1, 'l')",
        1050,
        "HistorySearchBackward",
        "",
        (8, 1, 50),
    ),
    (
        1100,
        "BeginningOfHistory; Move(BeginningOfLine)",
        1050,
        "HistorySearchForward",
        "",
        (8, 0, 1050),
    ),
    (
        1100,
        "",
        1050,
        "LineUpOrPreviousHistory(1)",
        "EndOfHistory",
        (0, 0, 1100),
    ),
    (
        1100,
        "Insert(1, \"line1000\")",
        1,
        "HistorySearchBackward",
        "",
        (8, 8, 0),
    ),
];

#[test]
fn of_changes_and_histories(rt: HostRuntime) {
    for case in CASES {
        lasts(&rt, rt.alloc(), case);
    }
}
