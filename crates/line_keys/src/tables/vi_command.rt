//! The table of keys of Vi's command mode.
ghost use Rattle.std.specs.Prelude.{◌≡◌, Some, option_map};
ghost use Rattle.line_keys.specs.Command.{command_of};
ghost use Rattle.line_keys.specs.Key.{bits_of};
ghost use Rattle.line_keys.specs.Meaning.{gives, row_at};
ghost use Rattle.line_keys.specs.Row.{entry_value};
ghost use Rattle.line_keys.specs.ViTable.{vi_change_rows, vi_char_row, vi_command_row, vi_ctrl_rows, vi_enter_rows, vi_line_rows, vi_move_rows, vi_search_rows};
ghost use Rattle.line_keys.specs.declared.refresher.InputMode.{InputMode};

use crate::cmd::{Anchor, Cmd};
use crate::count::Count;
use crate::keys::{KeyCode as K, KeyEvent, KeyEvent as E, Modifiers as M};
use crate::refresher::{InputMode, Refresher};
use crate::tables::{Entry, Grouping, Meaning, Operator, SearchKind, command, staying};
use line_buffer::{At, Movement, RepeatCount, Word};

/// Returns what a key stands for in command mode.
pub fn vi_command_entry<W: Refresher>(key: KeyEvent, typed: Option<Count>, wrt: &W) -> Option<Entry>
    ensures { let row = vi_command_row key.0 (bits_of key.1) (W.draft wrt.now) in
        option_map entry_value result ≡ option_map (λ r. r.entry typed) row }
{
    let n = Count::or_one(typed).n;
    match key {
        E(K::Char(c), M::NONE) => vi_char(c, typed, wrt),
        E(K::Char(c), M::CTRL) => vi_ctrl(c, typed, wrt),
        E(K::Backspace, M::NONE) => command(Cmd::Move(Movement::BackwardChar(n))),
        E(K::End, M::NONE) => command(Cmd::Move(Movement::EndOfLine)),
        E(K::Esc, M::NONE) => command(Cmd::Noop),
        _ => None,
    }
}

// Returns what a plain character stands for.
fn vi_char<W: Refresher>(c: char, typed: Option<Count>, wrt: &W) -> Option<Entry>
    ensures { option_map entry_value result
        ≡ option_map (λ r. r.entry typed) (vi_char_row c (W.draft wrt.now)) }
{
    if let Some(entry) = vi_move(c, typed, wrt) {
        return Some(entry);
    }
    if let Some(entry) = vi_search(c, typed, wrt) {
        return Some(entry);
    }
    if let Some(entry) = vi_enter(c, typed, wrt) {
        return Some(entry);
    }
    if let Some(entry) = vi_change(c, typed, wrt) {
        return Some(entry);
    }
    vi_line(c, typed, wrt)
}

// Returns what a plain character stands for that moves.
fn vi_move<W: Refresher>(c: char, typed: Option<Count>, _wrt: &W) -> Option<Entry>
    ensures { option_map entry_value result
        ≡ option_map (λ r. r.entry typed) (row_at vi_move_rows c (W.draft _wrt.now)) }
{
    let n = Count::or_one(typed).n;
    let movement = match c {
        '$' => Movement::EndOfLine,
        '%' => return command(Cmd::MoveToBracket),
        '0' => Movement::BeginningOfLine,
        '^' => Movement::ViFirstPrint,
        'b' => Movement::BackwardWord(n, Word::Vi),
        'B' => Movement::BackwardWord(n, Word::Big),
        'e' => Movement::ForwardWord(n, At::BeforeEnd, Word::Vi),
        'E' => Movement::ForwardWord(n, At::BeforeEnd, Word::Big),
        'w' => Movement::ForwardWord(n, At::Start, Word::Vi),
        'W' => Movement::ForwardWord(n, At::Start, Word::Big),
        'h' => Movement::BackwardChar(n),
        'l' | ' ' => Movement::ForwardChar(n),
        _ => return None,
    };
    command(Cmd::Move(movement))
}

// Returns what a plain character stands for that searches.
fn vi_search<W: Refresher>(c: char, typed: Option<Count>, _wrt: &W) -> Option<Entry>
    ensures { option_map entry_value result
        ≡ option_map (λ r. r.entry typed) (row_at vi_search_rows c (W.draft _wrt.now)) }
{
    let n = Count::or_one(typed).n;
    match c {
        'f' => staying(Meaning::Search(n, SearchKind::Forward)),
        'F' => staying(Meaning::Search(n, SearchKind::Backward)),
        't' => staying(Meaning::Search(n, SearchKind::ForwardBefore)),
        'T' => staying(Meaning::Search(n, SearchKind::BackwardAfter)),
        ';' => staying(Meaning::SearchAgain(n)),
        ',' => staying(Meaning::SearchBack(n)),
        _ => None,
    }
}

// Returns what a plain character stands for that enters another mode.
fn vi_enter<W: Refresher>(c: char, typed: Option<Count>, _wrt: &W) -> Option<Entry>
    ensures { option_map entry_value result
        ≡ option_map (λ r. r.entry typed) (row_at vi_enter_rows c (W.draft _wrt.now)) }
{
    let n = Count::or_one(typed).n;
    match c {
        'a' => inserting(Cmd::Move(Movement::ForwardChar(n)), Grouping::Begin),
        'A' => inserting(Cmd::Move(Movement::EndOfLine), Grouping::Begin),
        'i' => inserting(Cmd::Noop, Grouping::Begin),
        'I' => inserting(Cmd::Move(Movement::BeginningOfLine), Grouping::Begin),
        'c' => Some(Entry {
            meaning: Meaning::Operator(Operator::Change, n),
            enters: Some(InputMode::Insert),
            group: Grouping::Stay,
        }),
        'C' => inserting(Cmd::Replace(Movement::EndOfLine, None), Grouping::Stay),
        's' => inserting(Cmd::Replace(Movement::ForwardChar(n), None), Grouping::Stay),
        'S' => inserting(Cmd::Replace(Movement::WholeLine, None), Grouping::Stay),
        'R' => Some(Entry {
            meaning: Meaning::Command(Cmd::Replace(Movement::ForwardChar(0), None)),
            enters: Some(InputMode::Replace),
            group: Grouping::Stay,
        }),
        _ => None,
    }
}

// Returns what a plain character stands for that changes the text or copies from it.
fn vi_change<W: Refresher>(c: char, typed: Option<Count>, _wrt: &W) -> Option<Entry>
    ensures { option_map entry_value result
        ≡ option_map (λ r. r.entry typed) (row_at vi_change_rows c (W.draft _wrt.now)) }
{
    let n = Count::or_one(typed).n;
    match c {
        'd' => staying(Meaning::Operator(Operator::Delete, n)),
        'y' => staying(Meaning::Operator(Operator::Yank, n)),
        '<' => staying(Meaning::Operator(Operator::Dedent, n)),
        '>' => staying(Meaning::Operator(Operator::Indent, n)),
        'D' => command(Cmd::Kill(Movement::EndOfLine)),
        'x' => command(Cmd::Kill(Movement::ForwardChar(n))),
        'X' => command(Cmd::Kill(Movement::BackwardChar(n))),
        'p' => command(Cmd::Yank(n, Anchor::After)),
        'P' => command(Cmd::Yank(n, Anchor::Before)),
        'r' => staying(Meaning::ReplaceChar(n)),
        'u' => command(Cmd::Undo(n)),
        '.' => staying(Meaning::Again(number(typed))),
        _ => None,
    }
}

// Returns what a plain character stands for that moves by lines, or through the history.
fn vi_line<W: Refresher>(c: char, typed: Option<Count>, _wrt: &W) -> Option<Entry>
    ensures { option_map entry_value result
        ≡ option_map (λ r. r.entry typed) (row_at vi_line_rows c (W.draft _wrt.now)) }
{
    let n = Count::or_one(typed).n;
    match c {
        '+' | 'j' => command(Cmd::LineDownOrNextHistory(n)),
        '-' | 'k' => command(Cmd::LineUpOrPreviousHistory(n)),
        _ => None,
    }
}

// Returns what a character with Ctrl stands for.
fn vi_ctrl<W: Refresher>(c: char, typed: Option<Count>, _wrt: &W) -> Option<Entry>
    ensures { option_map entry_value result
        ≡ option_map (λ r. r.entry typed) (row_at vi_ctrl_rows c (W.draft _wrt.now)) }
{
    let n = Count::or_one(typed).n;
    match c {
        'G' => command(Cmd::Abort),
        'H' => command(Cmd::Move(Movement::BackwardChar(n))),
        'K' => command(Cmd::Kill(Movement::EndOfLine)),
        'L' => command(Cmd::ClearScreen),
        'N' => command(Cmd::NextHistory),
        'P' => command(Cmd::PreviousHistory),
        'R' => inserting(Cmd::ReverseSearchHistory, Grouping::Stay),
        'S' => inserting(Cmd::ForwardSearchHistory, Grouping::Stay),
        _ => None,
    }
}

// Returns what a key of one command stands for that enters insert mode.
fn inserting(command: Cmd, group: Grouping) -> Option<Entry>
    ensures { option_map entry_value result ≡ Some (record {
      meaning = gives (command_of command);
      enters = Some InputMode.Insert;
      group = group;
    }) }
{
    Some(Entry {
        meaning: Meaning::Command(command),
        enters: Some(InputMode::Insert),
        group,
    })
}

// Returns the number of the count that is typed, if any.
fn number(typed: Option<Count>) -> Option<RepeatCount>
    ensures { result ≡ option_map (λ count. count.n) typed }
{
    match typed {
        Some(count) => Some(count.n),
        None => None,
    }
}
