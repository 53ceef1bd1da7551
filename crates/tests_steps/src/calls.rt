//! Commands and calls of an edit state, made by their names.

use crate::recorder::Recorder;
use crate::source::{ANCHORS, command};
use crate::typist::Typist;
use line_buffer::{KillRing, Movement};
use line_config::{Config, Result};
use line_editor::command::{Status, execute};
use line_editor::edit::State;
use line_editor::input_state::InputState;
use line_keys::cmd::Anchor;
use line_keys::refresher::Refresher;
use line_parts::CmdKind;
use line_state::RefreshKind;
use std::alloc::Global;
use tests_parties::advisor::Advisor;
use tests_parties::shelf::Shelf;
use tests_parties::source::Source;

/// An editor that asks the helper and the history of the bench.
pub type Editor<'out, 'prompt> = State<'out, 'prompt, Recorder, Advisor, (String, String), Shelf>;

/// How a command ended, in a word.
pub fn done(outcome: Result<Status>) -> Result<&'static str> {
    Ok(match outcome? {
        Status::Proceed => "proceeds",
        Status::Submit => "submitted",
    })
}

/// A call ended well, in a word.
pub fn proceeds(outcome: Result<()>) -> Result<&'static str> {
    outcome?;
    Ok("proceeds")
}

/// Executes commands and makes calls of the state, each after the other. None where a text is
/// neither.
pub fn executed(
    alloc: Global,
    state: &mut Editor<'_, '_>,
    input: &InputState<'_>,
    kills: &mut KillRing,
    config: &Config,
    text: &str,
) -> Option<Result<&'static str>> {
    let mut last = Ok("proceeds");
    for text in text.split("; ") {
        let command = command(&mut Source::new(text), alloc);
        last = match command {
            Ok(Some(command)) => done(execute(command, state, input, kills, config)),
            Ok(None) => proceeds(call(alloc, state, input, kills, text)?),
            Err(error) => Err(error),
        };
    }
    Some(last)
}

/// Draws the empty line, and puts a text before the cursor and one after it.
pub fn starts(
    state: &mut Editor<'_, '_>,
    input: &InputState<'_>,
    before: &str,
    behind: &str,
) -> Result<()> {
    state.refresh_line()?;
    state.edit_yank(input, before, Anchor::Before, 1)?;
    state.edit_insert_text(behind)
}

/// Makes the call of this name, with the arguments after it. None where there is no such call.
fn call(
    alloc: Global,
    state: &mut Editor<'_, '_>,
    input: &InputState<'_>,
    kills: &mut KillRing,
    text: &str,
) -> Option<Result<()>> {
    let mut source = Source::new(text);
    let name = source.word()?;
    match name {
        "reset" => kills.reset(),
        "edit_yank" => {
            let (n, anchor) = (source.count()?, source.named(ANCHORS)?);
            let text = source.plain_text(alloc).ok()??;
            return Some(state.edit_yank(input, &text, anchor, n));
        }
        "edit_indent" => {
            let movement = source.movement()?;
            let amount = source.word()?.parse().ok()?;
            let is_back = source.word()? == "back";
            return Some(state.edit_indent(&movement, amount, is_back));
        }
        "go" => return Some(goes(state, &source.movement()?)),
        "resized" => {
            let (columns, rows) = (source.count()?, source.count()?);
            return Some(state.resized(columns.max(1), rows));
        }
        "move_cursor_at_leftmost" => {
            return Some(state.move_cursor_at_leftmost(&mut Typist::new(alloc)));
        }
        name => return draws(alloc, state, name, &mut source),
    }
    Some(Ok(()))
}

const KINDS: &[(&str, CmdKind)] = &[
    ("MoveCursor", CmdKind::MoveCursor),
    ("Other", CmdKind::Other),
    ("ForcedRefresh", CmdKind::ForcedRefresh),
];

/// Makes the call of this name that draws with an argument of its own.
fn draws(
    alloc: Global,
    state: &mut Editor<'_, '_>,
    name: &str,
    source: &mut Source<'_>,
) -> Option<Result<()>> {
    let outcome = match name {
        "edit_yank_pop" => {
            let size = usize::from(source.count()?);
            let text = source.plain_text(alloc).ok()??;
            state.edit_yank_pop(size, &text)
        }
        "edit_insert_text" => state.edit_insert_text(&source.plain_text(alloc).ok()??),
        "refresh_line_with_msg" => {
            let kind = source.named(KINDS)?;
            state.refresh_line_with_msg(source.text(), kind)
        }
        "refresh_prompt_and_line" => state.refresh_prompt_and_line(source.text()?),
        "move_cursor" => state.move_cursor(source.named(KINDS)?),
        name => return asks(state, name),
    };
    Some(outcome)
}

/// Makes the call of this name, which has no argument.
fn asks(state: &mut Editor<'_, '_>, name: &str) -> Option<Result<()>> {
    let outcome = match name {
        "refresh_line" => state.refresh_line(),
        "doing_insert" => state.doing_insert(),
        "done_inserting" => state.done_inserting(),
        "backup" => state.backup(),
        "restore" => state.restore(),
        "repaint_all" => state.repaint(RefreshKind::All),
        "repaint_min" => state.repaint(RefreshKind::Min),
        "clear_screen" => state.clear_screen(),
        "hint" => state.hint(),
        "validate" => state.validate().and(Ok(())),
        "last_insert" => state.last_insert().and(Ok(())),
        "move_cursor_to_end" => state.move_cursor_to_end(),
        _ => return None,
    };
    Some(outcome)
}

/// Makes the state's own call of a movement.
fn goes(state: &mut Editor<'_, '_>, movement: &Movement) -> Result<()> {
    match movement {
        Movement::BackwardChar(n) => state.edit_move_backward(*n),
        Movement::ForwardChar(n) => state.edit_move_forward(*n),
        Movement::BeginningOfLine => state.edit_move_home(),
        Movement::EndOfLine => state.edit_move_end(),
        Movement::BeginningOfBuffer => state.edit_move_buffer_start(),
        Movement::EndOfBuffer => state.edit_move_buffer_end(CmdKind::ForcedRefresh),
        Movement::BackwardWord(n, word) => state.edit_move_to_prev_word(*word, *n),
        Movement::ForwardWord(n, at, word) => state.edit_move_to_next_word(*at, *word, *n),
        Movement::ViCharSearch(n, search) => state.edit_move_to(*search, *n),
        Movement::LineUp(n) => state.edit_move_line_up(*n).and(Ok(())),
        Movement::LineDown(n) => state.edit_move_line_down(*n).and(Ok(())),
        _ => Ok(()),
    }
}

/// The letter of a call of the renderer: all is drawn, the screen cursor moves, a text is written,
/// the rest of the row is cleared, the screen is cleared, the cursor goes to the first column, and
/// it beeps. A call that no editor makes has a question mark.
fn letter(call: &str) -> char {
    let mut words = call.split(' ');
    match (words.next(), words.next()) {
        (Some("draw"), _) => 'd',
        (Some("move"), Some("to")) => 'l',
        (Some("move"), _) => 'm',
        (Some("write"), _) => 'w',
        (Some("clear"), Some("to")) => 'c',
        (Some("clear"), Some("screen")) => 's',
        (Some("beep"), _) => 'b',
        _ => '?',
    }
}

/// The letters of the renderer's calls that are written down, but for so many at first.
pub fn letters(alloc: Global, log: &str, before: usize) -> Result<String> {
    let mut letters = String::new(alloc);
    for call in log.lines().skip(before) {
        letters.push(letter(call))?;
    }
    Ok(letters)
}
