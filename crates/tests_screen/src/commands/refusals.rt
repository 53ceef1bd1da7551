//! What a command leaves where a growth is refused. Run with any one allocation refused, each test
//! passes: it looks at what is left, or the command was not reached.

use super::{at, does, edits, prompts};
use crate::{holds, is_parted, same};
use line_buffer::{GraphemeClusterMode, KillRing};
use line_config::{Config, ReadlineError, Result};
use line_editor::Bindings;
use line_editor::input_state::InputState;
use line_parts::History;
use std::alloc::Global;
use std::process::Abort;
use tests_parties::advisor::Advisor;
use tests_parties::shelf::Shelf;
use tests_steps::calls::{Editor, executed, starts};
use tests_steps::recorder::Recorder;

/// What the editor stands on: nothing, a history of the line `one`, a hint, a helper that takes no
/// line, or a line to begin with and its cursor.
enum With {
    Nothing,
    History,
    Hint,
    Refusal,
    Line(&'static str, usize),
}

use With::*;

/// That, what is typed with a bar at the cursor, commands and calls, and the line that they leave
/// with ample memory.
type Case = (With, &'static str, &'static str, &'static str);

/// Does the steps, which leave the history as it was.
fn tries(rt: &impl Abort, alloc: Global, case: &Case) -> Result<()> {
    let mut history = Shelf::new(alloc, 0);
    if let History = case.0 {
        let _ = history.add("one")?;
    }
    let lines = history.len();
    let prompts = prompts(alloc)?;
    let mut screen = Recorder::new(alloc, 80, false, 0);
    let mut helper = asked(&case.0);
    let line = if let Line(text, cursor) = case.0 {
        (text, cursor)
    } else {
        ("", 0)
    };
    let outcome = match edits(
        rt,
        alloc,
        &mut screen,
        &prompts,
        &mut helper,
        &history,
        line,
    ) {
        Ok(mut state) => leaves(rt, alloc, case, &mut state),
        Err(error) => Err(error),
    };
    holds(rt, history.len() == lines, case.1, lines);
    outcome
}

/// The helper that a case asks.
fn asked(with: &With) -> Advisor {
    let hint = if let Hint = with { Some("日") } else { None };
    let verdict = if let Refusal = with {
        (true, false, Some("no"))
    } else {
        (true, true, None)
    };
    Advisor::new(hint, verdict, None)
}

/// Does the steps; where memory runs out in one of them, looks at what is left.
fn leaves(rt: &impl Abort, alloc: Global, case: &Case, state: &mut Editor<'_, '_>) -> Result<()> {
    let config = Config::new(GraphemeClusterMode::Unicode);
    let bindings = Bindings::new(alloc);
    let input = InputState::new(&config, &bindings);
    let mut kills = KillRing::new(alloc, 60);
    let (before, behind) = case.1.split_once('|').expect(rt, "a cursor");
    starts(state, &input, before, behind)?;
    match does(rt, alloc, state, &input, &mut kills, case.2) {
        Ok(()) => {
            let (before, behind) = at(rt, state);
            holds(rt, is_parted(before, behind, case.3), case.3, 0);
            Ok(())
        }
        Err(error) => {
            holds(rt, matches!(error, ReadlineError::Memory), case.1, 0);
            settled(rt, alloc, state, &input, &mut kills)
        }
    }
}

/// The line is text with its cursor on a boundary, and so it is when all changes are taken back, be
/// it all that were made, or none where they were dropped.
fn settled(
    rt: &impl Abort,
    alloc: Global,
    state: &mut Editor<'_, '_>,
    input: &InputState<'_>,
    kills: &mut KillRing,
) -> Result<()> {
    let len = length(rt, state);
    let config = Config::new(GraphemeClusterMode::Unicode);
    let outcome = executed(alloc, state, input, kills, &config, "Undo(65535)");
    let ended = outcome.expect(rt, "a command")?;
    let left = length(rt, state);
    let is_so = same(ended, "proceeds") && (left == 0 || left == len);
    holds(rt, is_so, "what was taken back", left);
    Ok(())
}

/// The length of the line, whose cursor is on a boundary.
fn length(rt: &impl Abort, state: &Editor<'_, '_>) -> usize {
    let (before, behind) = at(rt, state);
    before.len().saturating_add(behind.len())
}

/// Edits, commands of other kinds, moves, the calls of the state that no command makes as they
/// stand, and lines to begin with.
const CASES: &[Case] = &[
    (Nothing, "日|本", "SelfInsert(9, 'é')", "日ééééééééé|本"),
    (Nothing, "日|本", "Newline", "日\n|本"),
    (Nothing, "日|本", "Insert(9, \"ab\")", "日ababababababababab|本"),
    (Nothing, "|日本", "ReplaceChar(2, 'é')", "é|é"),
    (Nothing, "|日本", "Overwrite('é')", "é|本"),
    (Nothing, "日|本", "Replace(EndOfLine, Some(\"ab\"))", "日|ab"),
    (
        Nothing,
        "日|本",
        "Kill(WholeLine); Yank(3, Before)",
        "日本日本日本|",
    ),
    (
        Nothing,
        "日|本",
        "ViYankTo(WholeLine); Yank(1, After)",
        "日本日本|",
    ),
    (Nothing, "|(日)b", "KillToBracket; Yank(1, Before)", "(日)|b"),
    (
        Nothing,
        "|(日)b",
        "YankToBracket; Yank(1, Before)",
        "(日)|(日)b",
    ),
    (Nothing, "|(日)b", "ReplaceToBracket(Some(\"ab\"))", "|abb"),
    (Nothing, "日|本", "edit_yank_pop 3 \"abcdef\"", "abcdef|本"),
    (Nothing, "日本|", "TransposeChars", "本日|"),
    (Nothing, "日 本|", "TransposeWords(1)", "本 日|"),
    (Nothing, "|日a", "UpcaseWord", "日A|"),
    (Nothing, "|日A", "DowncaseWord", "日a|"),
    (Nothing, "|aBé", "CapitalizeWord", "Abé|"),
    (Nothing, "日|本", "Kill(BackwardChar(1))", "|本"),
    (Nothing, "日|本", "edit_yank 2 After \"é\"", "日本éé|"),
    (
        Nothing,
        "a é|",
        "Kill(BackwardChar(1)); Kill(BackwardWord(1, Emacs)); Yank(1, Before)",
        "a |",
    ),
    (
        Nothing,
        "日 本|",
        "Kill(BackwardWord(1, Emacs)); reset; Kill(BackwardWord(1, Emacs)); Yank(1, Before); YankPop",
        "本|",
    ),
    (Nothing, "日|\n本", "Indent(WholeBuffer)", "  日|\n  本"),
    (Nothing, "  日|\n 本", "Dedent(WholeBuffer)", "日|\n本"),
    (Nothing, "日|本", "Kill(EndOfLine); Undo(1)", "日本|"),
    (
        Nothing,
        "日|本",
        "doing_insert; ReplaceChar(1, 'x'); done_inserting; Undo(1)",
        "日本|",
    ),
    (History, "日|本", "PreviousHistory", "one|"),
    (History, "日|本", "PreviousHistory; NextHistory", "日|本"),
    (History, "日|本", "BeginningOfHistory; EndOfHistory", "日|本"),
    (History, "日|本", "LineUpOrPreviousHistory(1)", "one|"),
    (History, "o|本", "HistorySearchBackward", "o|ne"),
    (History, "日|本", "HistorySearchForward", "日|本"),
    (Hint, "日|本", "CompleteHint", "日本日|"),
    (Hint, "日|本", "AcceptLine", "日|本"),
    (Nothing, "日|本", "doing_insert; Newline; AcceptLine", "日\n|本"),
    (
        Refusal,
        "日|本",
        "AcceptOrInsertLine { accept_in_the_middle: true }",
        "日|本",
    ),
    (
        Hint,
        "日|本",
        "AcceptOrInsertLine { accept_in_the_middle: false }",
        "日\n|本",
    ),
    (Hint, "日|本", "ClearScreen", "日|本"),
    (Hint, "日|本", "Repaint", "日|本"),
    (Hint, "日|本", "EndOfFile", "日|本"),
    (Hint, "|", "EndOfFile", "|"),
    (Hint, "日|本", "Interrupt", "日|本"),
    (
        History,
        "日|",
        "PreviousHistory; LineDownOrNextHistory(1)",
        "日|",
    ),
    (Nothing, "日|本", "Move(BackwardChar(1))", "|日本"),
    (Nothing, "日|本", "Move(ForwardChar(1))", "日本|"),
    (Nothing, "日|本", "Move(BeginningOfLine)", "|日本"),
    (Nothing, "日|本", "Move(EndOfLine)", "日本|"),
    (Nothing, "a\n日|", "Move(BeginningOfBuffer)", "|a\n日"),
    (Nothing, "日|\na", "Move(EndOfBuffer)", "日\na|"),
    (Nothing, "a 日|", "Move(BackwardWord(1, Emacs))", "a |日"),
    (
        Nothing,
        "|日 a",
        "Move(ForwardWord(1, AfterEnd, Vi))",
        "日| a",
    ),
    (Nothing, "|日本", "Move(ViCharSearch(1, Forward('本')))", "日|本"),
    (Nothing, " 日|", "Move(ViFirstPrint)", " |日"),
    (Nothing, "a\n日|", "Move(LineUp(1))", "|a\n日"),
    (Nothing, "|日\na", "Move(LineDown(1))", "日\na|"),
    (Nothing, "a\n日|", "LineUpOrPreviousHistory(1)", "|a\n日"),
    (Nothing, "|日\na", "LineDownOrNextHistory(1)", "日\na|"),
    (Nothing, "日|本", "backup; restore", "日|本"),
    (Hint, "日|本", "hint", "日|本"),
    (Refusal, "日|本", "validate", "日|本"),
    (Nothing, "日|本", "last_insert", "日|本"),
    (Hint, "日|本", "repaint_all", "日|本"),
    (Hint, "日|本", "repaint_min", "日|本"),
    (Hint, "日|本", "refresh_line_with_msg Other \"é\"", "日|本"),
    (Hint, "日|本", "refresh_prompt_and_line \"? \"", "日|本"),
    (Nothing, "日|本", "clear_screen; repaint_all", "日|本"),
    (
        Nothing,
        "日|本",
        "move_cursor_at_leftmost; repaint_all",
        "日|本",
    ),
    (
        Nothing,
        "日|本",
        "move_cursor_to_end; move_cursor MoveCursor",
        "日|本",
    ),
    (Line("", 0), "|", "Noop", "|"),
    (Line("日本", 3), "|", "Noop", "日|本"),
    (Line("a\ne\u{301}", 5), "|", "Noop", "a\ne\u{301}|"),
];

/// A refusal in what comes before the steps is no failure of the test.
#[test]
fn of_steps(rt: HostRuntime) {
    for case in CASES {
        let outcome = tries(&rt, rt.alloc(), case);
        let is_so = matches!(outcome, Ok(()) | Err(ReadlineError::Memory));
        holds(&rt, is_so, case.2, 0);
    }
}
