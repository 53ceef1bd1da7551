//! The table of keys of both edit modes.
ghost use Rattle.std.specs.Prelude.{◌≡◌, ◌==◌, if◌then◌else◌, true, length, option_map};
ghost use Rattle.line_keys.specs.Command.{accept_or_insert_line, command_of, unknown, yank};
ghost use Rattle.line_keys.specs.CommonTable.{common_ctrl_rows, common_row, deletes};
ghost use Rattle.line_keys.specs.Key.{bits_of};
ghost use Rattle.line_keys.specs.Meaning.{by_sign, row_at};
ghost use Rattle.line_keys.specs.Row.{entry_value};
ghost use Rattle.line_keys.specs.declared.cmd.Anchor.TheVariants.{Before};

use crate::cmd::{Anchor, Cmd};
use crate::count::Count;
use crate::keys::{KeyCode as K, KeyEvent, KeyEvent as E, Modifiers as M};
use crate::refresher::Refresher;
use crate::tables::moves::{chars_back, chars_on, to_start, words_back};
use crate::tables::{Entry, Meaning, command, staying};
use line_buffer::{Movement, Word};
use line_config::EditMode;

/// Returns what a key stands for in the table of both edit modes.
pub fn common_entry<W: Refresher>(
    mode: EditMode,
    key: KeyEvent,
    typed: Option<Count>,
    wrt: &W,
) -> Option<Entry>
    ensures { let row = common_row mode key.0 (bits_of key.1) (W.draft wrt.now) in
        option_map entry_value result ≡ option_map (λ r. r.entry typed) row }
{
    let count = Count::or_one(typed);
    match key {
        E(K::Char(c), M::CTRL) => common_ctrl(mode, c, typed, wrt),
        E(K::Home, M::NONE) => command(Cmd::Move(Movement::BeginningOfLine)),
        E(K::End, M::NONE) => command(Cmd::Move(Movement::EndOfLine)),
        E(K::Left, M::NONE) => command(Cmd::Move(chars_back(count))),
        E(K::Right, M::NONE) => command(Cmd::Move(chars_on(count))),
        E(K::Delete, M::NONE) => command(Cmd::Kill(chars_on(count))),
        E(K::Enter, M::NONE) => command(accept()),
        E(K::Down, M::NONE) => command(Cmd::LineDownOrNextHistory(1)),
        E(K::Up, M::NONE) => command(Cmd::LineUpOrPreviousHistory(1)),
        E(K::UnknownEscSeq, M::NONE) => command(Cmd::Noop),
        E(K::BracketedPasteStart, M::NONE) => staying(Meaning::Paste),
        _ => None,
    }
}

// Returns what is meant by a character with Ctrl in the table of both edit modes.
fn common_ctrl<W: Refresher>(
    mode: EditMode,
    c: char,
    typed: Option<Count>,
    wrt: &W,
) -> Option<Entry>
    ensures { option_map entry_value result
        ≡ option_map (λ r. r.entry typed) (row_at (common_ctrl_rows mode) c (W.draft wrt.now)) }
{
    let count = Count::or_one(typed);
    match c {
        'D' => command(delete(mode, count, wrt)),
        'J' | 'M' => command(accept()),
        'Q' | 'V' => command(Cmd::QuotedInsert),
        'R' => command(Cmd::ReverseSearchHistory),
        'S' => command(Cmd::ForwardSearchHistory),
        'T' => command(Cmd::TransposeChars),
        'U' => command(Cmd::Kill(to_start(count))),
        'W' => command(Cmd::Kill(words_back(Word::Big, count))),
        'Y' => command(yank(count)),
        '_' => command(Cmd::Undo(count.n)),
        _ => None,
    }
}

// Returns the command of C-D: on a line with a text Kill in Emacs and EndOfFile in Vi, and on an
// empty line Unknown.
fn delete<W: Refresher>(mode: EditMode, count: Count, wrt: &W) -> Cmd
    ensures { (if length (W.draft wrt.now).line.text == 0 then unknown else deletes mode count)
        ≡ command_of result }
{
    if wrt.line().is_empty() {
        return Cmd::Unknown;
    }
    match mode {
        EditMode::Emacs => Cmd::Kill(chars_on(count)),
        EditMode::Vi => Cmd::EndOfFile,
    }
}

// Returns the command that accepts the line where it is valid.
fn accept() -> Cmd
    ensures { command_of result ≡ accept_or_insert_line true }
{
    Cmd::AcceptOrInsertLine {
        accept_in_the_middle: true,
    }
}

// Returns the command that yanks, or none for a negative count.
fn yank(count: Count) -> Cmd
    ensures { command_of result ≡ by_sign (λ n. yank n Before) (λ _. unknown) count }
{
    if count.positive {
        return Cmd::Yank(count.n, Anchor::Before);
    }
    Cmd::Unknown
}
