//! The tables of keys: what each key stands for.
ghost use Rattle.std.specs.Prelude.{◌≡◌, Some, option_map};
ghost use Rattle.line_keys.specs.Command.{command_of};
ghost use Rattle.line_keys.specs.Meaning.{gives, stays};
ghost use Rattle.line_keys.specs.Motion.{search_to};
ghost use Rattle.line_keys.specs.Row.{entry_value, meaning_of, search_for};
ghost use Rattle.line_keys.specs.Table.{own_row, row_of, stands_for};

mod common;
mod emacs;
mod motions;
mod moves;
mod vi_command;
mod vi_insert;

use crate::cmd::Cmd;
use crate::count::Count;
use crate::keys::{KeyCode, KeyEvent, Modifiers};
use crate::refresher::{InputMode, Refresher};
use common::common_entry;
use emacs::emacs_entry;
pub use emacs::second_key;
use line_buffer::{CharSearch, Movement, RepeatCount};
use line_config::EditMode;
pub use motions::{motion_of_key, multiplied, replaced_by};
use vi_command::vi_command_entry;
use vi_insert::vi_insert_entry;

/// Where a search for a character leads.
#[derive(Clone, Copy, Debug, PartialEq, Eq)]
pub enum SearchKind {
    /// To the character, after the cursor.
    Forward,
    /// To the place one character before it, after the cursor.
    ForwardBefore,
    /// To the character, before the cursor.
    Backward,
    /// To the place after it, before the cursor.
    BackwardAfter,
}

impl SearchKind {
    /// Returns the search of this kind for a character.
    pub fn search(self, c: char) -> CharSearch
        ensures { result ≡ search_for self c }
    {
        match self {
            SearchKind::Forward => CharSearch::Forward(c),
            SearchKind::ForwardBefore => CharSearch::ForwardBefore(c),
            SearchKind::Backward => CharSearch::Backward(c),
            SearchKind::BackwardAfter => CharSearch::BackwardAfter(c),
        }
    }

    /// Returns the search of this kind for the character of a key, if the key is a plain character.
    pub fn of_key(self, key: KeyEvent) -> Option<CharSearch>
        ensures { result ≡ search_to (λ c. search_for self c) key }
    {
        match key {
            KeyEvent(KeyCode::Char(c), Modifiers::NONE) => Some(self.search(c)),
            _ => None,
        }
    }
}

/// What is done to a part of the line; the key of a motion, which is read next, says which part.
#[derive(Clone, Copy, Debug, PartialEq, Eq)]
pub enum Operator {
    /// Kills the text, and goes on in insert mode.
    Change,
    /// Kills the text.
    Delete,
    /// Copies the text to the kill ring.
    Yank,
    /// Indents the lines.
    Indent,
    /// Takes indentation away from the lines.
    Dedent,
}

/// What becomes of the group of changes.
#[derive(Clone, Copy, Debug, PartialEq, Eq)]
pub enum Grouping {
    /// It stays as it is.
    Stay,
    /// A group begins.
    Begin,
    /// Every open group ends.
    End,
}

/// What a key stands for.
#[derive(Debug, PartialEq, Eq, Drop)]
pub enum Meaning {
    /// A command.
    Command(Cmd),
    /// The move to the n-th place of a character; the character is read next.
    Search(RepeatCount, SearchKind),
    /// The last search again, to the n-th place.
    SearchAgain(RepeatCount),
    /// The last search in the other direction, to the n-th place.
    SearchBack(RepeatCount),
    /// A pasted text, which is read next.
    Paste,
    /// A second key, which is read next, with the count.
    SecondKey(Count),
    /// A character in place of so many clusters; the character is read next.
    ReplaceChar(RepeatCount),
    /// An operator, with the count; the motion is read next.
    Operator(Operator, RepeatCount),
    /// The last change again, with the count that is typed, if any.
    Again(Option<RepeatCount>),
    /// Nothing: no table has the key.
    Unlisted,
}

/// What a key stands for, and what it changes besides.
#[derive(PartialEq, Eq, Drop)]
pub struct Entry {
    /// What the key stands for.
    pub meaning: Meaning,
    /// The mode that it enters, if it enters one.
    pub enters: Option<InputMode>,
    /// What becomes of the group of changes.
    pub group: Grouping,
}

/// What an operator is done to.
#[derive(Debug, PartialEq, Eq, Drop)]
pub enum Motion {
    /// What a movement covers.
    Covers(Movement),
    /// What a search for the n-th place of a character covers; the character is read next.
    Search(RepeatCount, SearchKind),
    /// What the last search covers, to its n-th place.
    SearchAgain(RepeatCount),
    /// What the last search in the other direction covers, to its n-th place.
    SearchBack(RepeatCount),
    /// The text from the bracket at the cursor to the one that matches it, with both.
    Bracket,
    /// Nothing: the key is no motion.
    None,
}

/// Returns what a key stands for, by the edit mode and the input mode, the count that is typed, if
/// any, and the line.
pub fn entry_of_key<W: Refresher>(
    mode: EditMode,
    input_mode: InputMode,
    key: KeyEvent,
    typed: Option<Count>,
    wrt: &W,
) -> Entry
    ensures { entry_value result ≡ (row_of mode input_mode key (W.draft wrt.now)).entry typed }
{
    if let Some(entry) = own_entry(mode, input_mode, key, typed, wrt) {
        return entry;
    }
    match common_entry(mode, key, typed, wrt) {
        Some(entry) => entry,
        None => Entry {
            meaning: Meaning::Unlisted,
            enters: None,
            group: Grouping::Stay,
        },
    }
}

// Returns what a key stands for in the table of the edit mode alone.
fn own_entry<W: Refresher>(
    mode: EditMode,
    input_mode: InputMode,
    key: KeyEvent,
    typed: Option<Count>,
    wrt: &W,
) -> Option<Entry>
    ensures { option_map entry_value result
        ≡ option_map (λ r. r.entry typed) (own_row mode input_mode key (W.draft wrt.now)) }
{
    match (mode, input_mode) {
        (EditMode::Emacs, _) => emacs_entry(key, typed, wrt),
        (EditMode::Vi, InputMode::Command) => vi_command_entry(key, typed, wrt),
        (EditMode::Vi, _) => vi_insert_entry(input_mode, key, typed, wrt),
    }
}

/// Returns the key of Vi's command mode that a key of another mode stands for: in insert and
/// replace mode a character with Alt alone stands for the plain character.
pub fn stands_for(mode: EditMode, input_mode: InputMode, key: KeyEvent) -> Option<KeyEvent>
    ensures { result ≡ stands_for mode input_mode key }
{
    match (mode, input_mode) {
        (EditMode::Emacs, _) | (EditMode::Vi, InputMode::Command) => return None,
        _ => {}
    }
    match key {
        KeyEvent(KeyCode::Char(c), Modifiers::ALT) => {
            Some(KeyEvent(KeyCode::Char(c), Modifiers::NONE))
        }
        _ => None,
    }
}

// Returns what a key of one meaning stands for that enters no mode.
fn staying(meaning: Meaning) -> Option<Entry>
    ensures { option_map entry_value result ≡ Some (stays (meaning_of meaning)) }
{
    Some(Entry {
        meaning,
        enters: None,
        group: Grouping::Stay,
    })
}

// Returns what a key of one command stands for that enters no mode.
fn command(command: Cmd) -> Option<Entry>
    ensures { option_map entry_value result ≡ Some (stays (gives (command_of command))) }
{
    staying(Meaning::Command(command))
}
