//! Commands, read from text in the form that `Debug` writes them in.

use line_buffer::{Movement, RepeatCount};
use line_config::Result;
use line_keys::cmd::{Anchor, Cmd};
use std::alloc::Global;
use tests_parties::source::Source;

/// The sides of the cursor.
pub(crate) const ANCHORS: &[(&str, Anchor)] = &[
    ("After", Anchor::After),
    ("Before", Anchor::Before),
];

/// The next command. None where there is no such command.
pub fn command(source: &mut Source<'_>, alloc: Global) -> Result<Option<Cmd>> {
    let Some(name) = source.word() else {
        return Ok(None);
    };
    if let Some(command) = plain_command(name) {
        return Ok(Some(command));
    }
    match name {
        "Insert" | "Replace" | "ReplaceToBracket" => command_with_text(source, alloc, name),
        name => Ok(command_without_text(source, name)),
    }
}

/// The command of this name, which has a text of its own.
fn command_with_text(source: &mut Source<'_>, alloc: Global, name: &str) -> Result<Option<Cmd>> {
    let (count, movement) = match name {
        "Insert" => (source.count(), None),
        "Replace" => (None, source.movement()),
        _ => (None, None),
    };
    // the text of an Insert stands there as it is, the others have `Some` or `None` in front
    let front = match name {
        "Insert" => Some("Some"),
        _ => source.word(),
    };
    let text = match front {
        Some("Some") => source.plain_text(alloc)?,
        _ => None,
    };
    if text.is_none() && front != Some("None") {
        return Ok(None);
    }
    Ok(match (name, count, movement, text) {
        ("Insert", Some(n), _, Some(text)) => Some(Cmd::Insert(n, text)),
        ("Replace", _, Some(movement), text) => Some(Cmd::Replace(movement, text)),
        ("ReplaceToBracket", _, _, text) => Some(Cmd::ReplaceToBracket(text)),
        _ => None,
    })
}

/// The command of this name, which has a movement, a count, a character, a side or a yes or no.
fn command_without_text(source: &mut Source<'_>, name: &str) -> Option<Cmd> {
    match name {
        "Dedent" | "Indent" | "Kill" | "Move" | "ViYankTo" => {
            command_of_movement(name, source.movement()?)
        }
        "Overwrite" => Some(Cmd::Overwrite(source.character()?)),
        "AcceptOrInsertLine" => {
            let _field = source.word();
            Some(Cmd::AcceptOrInsertLine {
                accept_in_the_middle: source.word() == Some("true"),
            })
        }
        name => counted_command(source, name),
    }
}

/// The command of this name, which has a count.
fn counted_command(source: &mut Source<'_>, name: &str) -> Option<Cmd> {
    let n = source.count()?;
    match name {
        "ReplaceChar" => Some(Cmd::ReplaceChar(n, source.character()?)),
        "SelfInsert" => Some(Cmd::SelfInsert(n, source.character()?)),
        "Yank" => Some(Cmd::Yank(n, source.named(ANCHORS)?)),
        name => command_by(name, n),
    }
}

/// The command of this name, which has a movement.
fn command_of_movement(name: &str, movement: Movement) -> Option<Cmd> {
    match name {
        "Dedent" => Some(Cmd::Dedent(movement)),
        "Indent" => Some(Cmd::Indent(movement)),
        "Kill" => Some(Cmd::Kill(movement)),
        "Move" => Some(Cmd::Move(movement)),
        "ViYankTo" => Some(Cmd::ViYankTo(movement)),
        _ => None,
    }
}

/// The command of this name, which has a count alone.
fn command_by(name: &str, n: RepeatCount) -> Option<Cmd> {
    match name {
        "TransposeWords" => Some(Cmd::TransposeWords(n)),
        "Undo" => Some(Cmd::Undo(n)),
        "LineUpOrPreviousHistory" => Some(Cmd::LineUpOrPreviousHistory(n)),
        "LineDownOrNextHistory" => Some(Cmd::LineDownOrNextHistory(n)),
        _ => None,
    }
}

/// The command of this name, which has neither count nor movement nor text.
fn plain_command(name: &str) -> Option<Cmd> {
    let command = match name {
        "Abort" => Cmd::Abort,
        "AcceptLine" => Cmd::AcceptLine,
        "BeginningOfHistory" => Cmd::BeginningOfHistory,
        "CapitalizeWord" => Cmd::CapitalizeWord,
        "ClearScreen" => Cmd::ClearScreen,
        "Complete" => Cmd::Complete,
        "CompleteBackward" => Cmd::CompleteBackward,
        "CompleteHint" => Cmd::CompleteHint,
        "DowncaseWord" => Cmd::DowncaseWord,
        "EndOfFile" => Cmd::EndOfFile,
        "EndOfHistory" => Cmd::EndOfHistory,
        "ForwardSearchHistory" => Cmd::ForwardSearchHistory,
        "HistorySearchBackward" => Cmd::HistorySearchBackward,
        "HistorySearchForward" => Cmd::HistorySearchForward,
        "Interrupt" => Cmd::Interrupt,
        "NextHistory" => Cmd::NextHistory,
        "Noop" => Cmd::Noop,
        "Repaint" => Cmd::Repaint,
        "PreviousHistory" => Cmd::PreviousHistory,
        "QuotedInsert" => Cmd::QuotedInsert,
        "ReverseSearchHistory" => Cmd::ReverseSearchHistory,
        "Suspend" => Cmd::Suspend,
        "TransposeChars" => Cmd::TransposeChars,
        "Unknown" => Cmd::Unknown,
        "UpcaseWord" => Cmd::UpcaseWord,
        "YankPop" => Cmd::YankPop,
        "MoveToBracket" => Cmd::MoveToBracket,
        "KillToBracket" => Cmd::KillToBracket,
        "YankToBracket" => Cmd::YankToBracket,
        "Newline" => Cmd::Newline,
        _ => return None,
    };
    Some(command)
}
