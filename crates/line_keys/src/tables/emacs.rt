//! The table of keys of Emacs.
ghost use Rattle.std.specs.Prelude.{◌≡◌, Some, option_map};
ghost use Rattle.line_keys.specs.Command.{command_of, complete, complete_backward};
ghost use Rattle.line_keys.specs.EmacsTable.{emacs_alt_rows, emacs_ctrl_alt_rows, emacs_ctrl_rows, emacs_row, second_at, typed_row};
ghost use Rattle.line_keys.specs.Key.{bits_of};
ghost use Rattle.line_keys.specs.Meaning.{by_sign, row_at, search};
ghost use Rattle.line_keys.specs.Row.{entry_value, search_for};

use crate::cmd::Cmd;
use crate::count::Count;
use crate::keys::{KeyCode as K, KeyEvent, KeyEvent as E, Modifiers as M};
use crate::refresher::Refresher;
use crate::tables::moves::{chars_back, chars_on, to_end, to_start, words_back, words_on};
use crate::tables::{Entry, Meaning, SearchKind, command, staying};
use line_buffer::{Movement, Word};

/// Returns what a key stands for in the table of Emacs.
pub fn emacs_entry<W: Refresher>(key: KeyEvent, typed: Option<Count>, wrt: &W) -> Option<Entry>
    ensures { option_map entry_value result
        ≡ option_map (λ r. r.entry typed) (emacs_row key.0 (bits_of key.1) (W.draft wrt.now)) }
{
    let count = Count::or_one(typed);
    match key {
        E(K::Char(c), M::NONE) => plain(c, typed),
        E(K::Char(c), M::CTRL) => emacs_ctrl(c, typed, wrt),
        E(K::Char(c), M::ALT) => emacs_alt(c, typed, wrt),
        E(K::Char(c), M::CTRL_ALT) => emacs_ctrl_alt(c, typed, wrt),
        E(K::Right, M::NONE) if wrt.has_hint() && wrt.is_cursor_at_end() => {
            command(Cmd::CompleteHint)
        }
        E(K::Esc, M::NONE) => command(Cmd::Abort),
        E(K::Backspace, M::NONE) => command(Cmd::Kill(chars_back(count))),
        E(K::BackTab, M::NONE) => command(Cmd::CompleteBackward),
        E(K::Tab, M::NONE) => command(complete(count)),
        E(K::Backspace, M::ALT) => command(Cmd::Kill(words_back(Word::Emacs, count))),
        E(K::Left, M::ALT) => command(Cmd::Move(words_back(Word::Emacs, count))),
        E(K::Right, M::ALT) => command(Cmd::Move(words_on(Word::Emacs, count))),
        E(K::Left, M::CTRL) => command(Cmd::Move(words_back(Word::Emacs, count))),
        E(K::Right, M::CTRL) => command(Cmd::Move(words_on(Word::Emacs, count))),
        _ => None,
    }
}

// Returns what is meant by a plain character, which inserts itself.
fn plain(c: char, typed: Option<Count>) -> Option<Entry>
    ensures { option_map entry_value result ≡ Some ((typed_row c).entry typed) }
{
    let count = Count::or_one(typed);
    if count.positive {
        return command(Cmd::SelfInsert(count.n, c));
    }
    command(Cmd::Unknown)
}

// Returns what is meant by a character with Ctrl in the table of Emacs.
fn emacs_ctrl<W: Refresher>(c: char, typed: Option<Count>, _wrt: &W) -> Option<Entry>
    ensures { option_map entry_value result
        ≡ option_map (λ r. r.entry typed) (row_at emacs_ctrl_rows c (W.draft _wrt.now)) }
{
    let count = Count::or_one(typed);
    match c {
        'A' => command(Cmd::Move(Movement::BeginningOfLine)),
        'B' => command(Cmd::Move(chars_back(count))),
        'E' => command(Cmd::Move(Movement::EndOfLine)),
        'F' => command(Cmd::Move(chars_on(count))),
        'G' => command(Cmd::Abort),
        'H' => command(Cmd::Kill(chars_back(count))),
        'I' => command(complete(count)),
        'K' => command(Cmd::Kill(to_end(count))),
        'L' => command(Cmd::ClearScreen),
        'N' => command(Cmd::NextHistory),
        'P' => command(Cmd::PreviousHistory),
        'X' => staying(Meaning::SecondKey(count)),
        ']' => search(SearchKind::ForwardBefore, SearchKind::Backward, typed),
        _ => None,
    }
}

// Returns what is meant by a character with Alt in the table of Emacs.
fn emacs_alt<W: Refresher>(c: char, typed: Option<Count>, _wrt: &W) -> Option<Entry>
    ensures { option_map entry_value result
        ≡ option_map (λ r. r.entry typed) (row_at emacs_alt_rows c (W.draft _wrt.now)) }
{
    let count = Count::or_one(typed);
    match c {
        '<' => command(Cmd::BeginningOfHistory),
        '>' => command(Cmd::EndOfHistory),
        'B' | 'b' => command(Cmd::Move(words_back(Word::Emacs, count))),
        'C' | 'c' => command(Cmd::CapitalizeWord),
        'D' | 'd' => command(Cmd::Kill(words_on(Word::Emacs, count))),
        'F' | 'f' => command(Cmd::Move(words_on(Word::Emacs, count))),
        'L' | 'l' => command(Cmd::DowncaseWord),
        'T' | 't' => command(Cmd::TransposeWords(count.n)),
        'U' | 'u' => command(Cmd::UpcaseWord),
        'Y' | 'y' => command(Cmd::YankPop),
        _ => None,
    }
}

// Returns what is meant by a character with Ctrl and Alt in the table of Emacs.
fn emacs_ctrl_alt<W: Refresher>(c: char, typed: Option<Count>, _wrt: &W) -> Option<Entry>
    ensures { option_map entry_value result
        ≡ option_map (λ r. r.entry typed) (row_at emacs_ctrl_alt_rows c (W.draft _wrt.now)) }
{
    match c {
        'G' => command(Cmd::Abort),
        ']' => search(SearchKind::Backward, SearchKind::ForwardBefore, typed),
        _ => None,
    }
}

/// Returns the command of a second key after C-X.
pub fn second_key(key: KeyEvent, count: Count) -> Cmd
    ensures { command_of result ≡ second_at count key }
{
    match key {
        E(K::Char('G'), M::CTRL) => Cmd::Abort,
        E(K::Esc, M::NONE) => Cmd::Abort,
        E(K::Char('U'), M::CTRL) => Cmd::Undo(count.n),
        E(K::Backspace, M::NONE) => Cmd::Kill(to_start(count)),
        _ => Cmd::Unknown,
    }
}

// Returns the search of one kind, or of the other for a negative count.
fn search(forth: SearchKind, back: SearchKind, typed: Option<Count>) -> Option<Entry>
    ensures { let row = search (λ c. search_for forth c) (λ c. search_for back c) in
        option_map entry_value result ≡ Some (row.entry typed) }
{
    let count = Count::or_one(typed);
    let kind = if count.positive { forth } else { back };
    staying(Meaning::Search(count.n, kind))
}

// Returns the command that completes, on or back.
fn complete(count: Count) -> Cmd
    ensures { command_of result ≡ by_sign (λ _. complete) (λ _. complete_backward) count }
{
    if count.positive {
        return Cmd::Complete;
    }
    Cmd::CompleteBackward
}
