//! The table of keys of Vi's insert and replace mode.
ghost use Rattle.std.specs.Prelude.{◌≡◌, option_map};
ghost use Rattle.line_keys.specs.Command.{command_of};
ghost use Rattle.line_keys.specs.Key.{bits_of};
ghost use Rattle.line_keys.specs.Row.{entry_value};
ghost use Rattle.line_keys.specs.ViTable.{typed_char, vi_insert_row};

use crate::cmd::Cmd;
use crate::count::Count;
use crate::keys::{KeyCode as K, KeyEvent, KeyEvent as E, Modifiers as M};
use crate::refresher::{InputMode, Refresher};
use crate::tables::{Entry, Grouping, Meaning, command};
use line_buffer::Movement;

/// Returns what a key stands for in insert and replace mode.
pub fn vi_insert_entry<W: Refresher>(
    input_mode: InputMode,
    key: KeyEvent,
    _typed: Option<Count>,
    wrt: &W,
) -> Option<Entry>
    ensures { let row = vi_insert_row input_mode key.0 (bits_of key.1) (W.draft wrt.now) in
        option_map entry_value result ≡ option_map (λ r. r.entry _typed) row }
{
    match key {
        E(K::Char(c), M::NONE) => command(typed_char(input_mode, c)),
        E(K::Char('H'), M::CTRL) => command(Cmd::Kill(Movement::BackwardChar(1))),
        E(K::Char('I'), M::CTRL) => command(Cmd::Complete),
        E(K::Backspace, M::NONE) => command(Cmd::Kill(Movement::BackwardChar(1))),
        E(K::BackTab, M::NONE) => command(Cmd::CompleteBackward),
        E(K::Tab, M::NONE) => command(Cmd::Complete),
        E(K::Right, M::NONE) if wrt.has_hint() && wrt.is_cursor_at_end() => {
            command(Cmd::CompleteHint)
        }
        E(K::Esc, M::NONE) => Some(Entry {
            meaning: Meaning::Command(Cmd::Move(Movement::BackwardChar(1))),
            enters: Some(InputMode::Command),
            group: Grouping::End,
        }),
        _ => None,
    }
}

// Returns the command of a plain character.
fn typed_char(input_mode: InputMode, c: char) -> Cmd
    ensures { command_of result ≡ typed_char input_mode c }
{
    match input_mode {
        InputMode::Replace => Cmd::Overwrite(c),
        _ => Cmd::SelfInsert(1, c),
    }
}
