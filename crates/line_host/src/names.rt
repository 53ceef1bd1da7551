//! Keys and commands by their names.
ghost use Rattle.std.specs.Prelude.{◌≡◌, option_map};
ghost use Rattle.line_config.specs.Error.{MemoryOnly};
ghost use Rattle.line_keys.specs.Command.{command_of};
ghost use Rattle.line_host.specs.Names.{command_named, kills, moves, of_history, of_name, others};

use line_buffer::{At, Movement, Word};
use line_config::Result;
use line_editor::Event;
use line_keys::cmd::{Anchor, Cmd};
use line_keys::key_named;
use std::alloc::Global;

/// Returns the input event of keys by their names, with spaces between them, as in `C-x C-e`. None
/// where there is no name, or a key is not called so.
///
/// # Errors
/// `Memory` if memory runs out.
pub fn event_named(alloc: Global, names: &str) -> Result<Option<Event>>
    ensures { MemoryOnly result }
{
    let mut keys = Vec::new(alloc);
    for name in names.split(' ') {
        if name.is_empty() {
            continue;
        }
        let Some(key) = key_named(name) else {
            return Ok(None);
        };
        keys.push(key)?;
    }
    if keys.is_empty() {
        return Ok(None);
    }
    Ok(Some(Event::KeySeq(keys)))
}

/// Returns the command of a name, as readline calls it.
pub fn command_named(name: &str) -> Option<Cmd>
    ensures { option_map command_of result ≡ command_named name.now }
{
    if let Some(movement) = movement_named(name) {
        return Some(Cmd::Move(movement));
    }
    if let Some(movement) = killed_by(name) {
        return Some(Cmd::Kill(movement));
    }
    match history_command(name) {
        Some(command) => Some(command),
        None => other_command(name),
    }
}

/// Returns the movement of a command that moves the cursor.
fn movement_named(name: &str) -> Option<Movement>
    ensures { result ≡ of_name moves name.now }
{
    Some(match name {
        "beginning-of-line" => Movement::BeginningOfLine,
        "end-of-line" => Movement::EndOfLine,
        "beginning-of-buffer" => Movement::BeginningOfBuffer,
        "end-of-buffer" => Movement::EndOfBuffer,
        "forward-char" => Movement::ForwardChar(1),
        "backward-char" => Movement::BackwardChar(1),
        "forward-word" => Movement::ForwardWord(1, At::AfterEnd, Word::Emacs),
        "backward-word" => Movement::BackwardWord(1, Word::Emacs),
        _ => return None,
    })
}

/// Returns the movement whose text a command kills.
fn killed_by(name: &str) -> Option<Movement>
    ensures { result ≡ of_name kills name.now }
{
    Some(match name {
        "kill-line" => Movement::EndOfLine,
        "backward-kill-line" | "unix-line-discard" => Movement::BeginningOfLine,
        "kill-whole-line" => Movement::WholeLine,
        "kill-word" => Movement::ForwardWord(1, At::AfterEnd, Word::Emacs),
        "backward-kill-word" => Movement::BackwardWord(1, Word::Emacs),
        "unix-word-rubout" => Movement::BackwardWord(1, Word::Big),
        "delete-char" => Movement::ForwardChar(1),
        "backward-delete-char" => Movement::BackwardChar(1),
        _ => return None,
    })
}

/// Returns the command of this name on lines of the history.
fn history_command(name: &str) -> Option<Cmd>
    ensures { option_map command_of result ≡ of_name of_history name.now }
{
    Some(match name {
        "previous-history" => Cmd::PreviousHistory,
        "next-history" => Cmd::NextHistory,
        "beginning-of-history" => Cmd::BeginningOfHistory,
        "end-of-history" => Cmd::EndOfHistory,
        "history-search-backward" => Cmd::HistorySearchBackward,
        "history-search-forward" => Cmd::HistorySearchForward,
        "reverse-search-history" => Cmd::ReverseSearchHistory,
        "forward-search-history" => Cmd::ForwardSearchHistory,
        "previous-line-or-history" => Cmd::LineUpOrPreviousHistory(1),
        "next-line-or-history" => Cmd::LineDownOrNextHistory(1),
        _ => return None,
    })
}

/// Returns another command of this name.
fn other_command(name: &str) -> Option<Cmd>
    ensures { option_map command_of result ≡ of_name others name.now }
{
    Some(match name {
        "abort" => Cmd::Abort,
        "accept-line" => Cmd::AcceptOrInsertLine {
            accept_in_the_middle: true,
        },
        "capitalize-word" => Cmd::CapitalizeWord,
        "clear-screen" => Cmd::ClearScreen,
        "complete" => Cmd::Complete,
        "complete-backward" => Cmd::CompleteBackward,
        "complete-hint" => Cmd::CompleteHint,
        "dedent" => Cmd::Dedent(Movement::WholeLine),
        "downcase-word" => Cmd::DowncaseWord,
        "end-of-file" => Cmd::EndOfFile,
        "indent" => Cmd::Indent(Movement::WholeLine),
        "interrupt" => Cmd::Interrupt,
        "newline" => Cmd::Newline,
        "no-op" => Cmd::Noop,
        "quoted-insert" => Cmd::QuotedInsert,
        "redraw-current-line" => Cmd::Repaint,
        "suspend" => Cmd::Suspend,
        "transpose-chars" => Cmd::TransposeChars,
        "transpose-words" => Cmd::TransposeWords(1),
        "undo" => Cmd::Undo(1),
        "upcase-word" => Cmd::UpcaseWord,
        "yank" => Cmd::Yank(1, Anchor::Before),
        "yank-pop" => Cmd::YankPop,
        _ => return None,
    })
}
