//! What the items of a line are read as.
ghost use Rattle.std.specs.Prelude.{◌≡◌, ◌≢◌, None, IfSome};
ghost use Rattle.line_keys.specs.Command.{command_of};
ghost use Rattle.line_session.specs.Steps.{as_it_is, character_of, is_suspended, plain_character, shows_line, reads_no_command, once_resized, with_control};
ghost use Rattle.line_session.specs.Taken.{item_as_it_is};

use crate::completing::Completing;
use crate::listing::Listing;
use crate::searching::Searching;
use line_keys::cmd::Cmd;
use line_keys::keys::{KeyCode, KeyEvent, Modifiers};
use line_parts::completion::Pair;
use std::mem;

/// What the items of a line are read as.
#[derive(Drop)]
pub enum Mode {
    /// Commands.
    Editing,
    /// Text, of one item: a quoted insert puts the next one in as it is.
    Quoting,
    /// Commands, of which some go through candidates.
    Completing(Completing),
    /// Commands: a Tab lists these candidates.
    Offering(Vec<Pair>),
    /// Keys, each by itself: candidates are listed, or it was asked whether to list them.
    Listing(Listing),
    /// Commands, of which some search through the history.
    Searching(Searching),
    /// Nothing, until the program goes on: it was asked to suspend itself.
    Suspended,
}

impl Mode {
    /// Returns whether no item is read as part of a command: each is taken by itself, or none.
    pub(crate) fn reads_no_command(&self) -> bool
        ensures { result ≡ reads_no_command self.now }
    {
        match self {
            Mode::Quoting | Mode::Listing(_) | Mode::Suspended => true,
            Mode::Editing | Mode::Completing(_) | Mode::Offering(_) | Mode::Searching(_) => false,
        }
    }

    /// Returns the same mode after a resize: a list ends, and a program that was suspended goes on.
    pub(crate) fn once_resized(self) -> Mode
        ensures { result ≡ once_resized self }
    {
        match self {
            Mode::Listing(_) | Mode::Suspended => Mode::Editing,
            other => other,
        }
    }

    /// Returns whether something else may stand below the line: a list, or what another program has
    /// written.
    pub(crate) fn is_above_others(&self) -> bool {
        match self {
            Mode::Listing(_) | Mode::Suspended => true,
            Mode::Editing | Mode::Quoting | Mode::Completing(_) => false,
            Mode::Offering(_) | Mode::Searching(_) => false,
        }
    }

    /// Takes the search out that is under way, if one is: commands are read then.
    pub(crate) fn take_search(&mut self) -> Option<Searching>
        ensures some { IfSome result (λ searching. (self.old ≡ Mode.Searching searching)
            × (self.new ≡ Mode.Editing)) }
        ensures none { result ≡ None → (self.new ≡ self.old)
            × ((searching : _) → self.old ≢ Mode.Searching searching) }
    {
        match self {
            Mode::Searching(_) => {}
            _ => return None,
        }
        match mem::replace(self, Mode::Editing) {
            Mode::Searching(searching) => Some(searching),
            other => {
                *self = other;
                None
            }
        }
    }

    /// Returns whether the program is suspended.
    pub(crate) fn is_suspended(&self) -> bool
        ensures { result ≡ is_suspended self.now }
    {
        match self {
            Mode::Suspended => true,
            Mode::Editing | Mode::Quoting | Mode::Completing(_) => false,
            Mode::Offering(_) | Mode::Listing(_) | Mode::Searching(_) => false,
        }
    }

    /// Returns whether the line is shown after its own prompt: not in a list, in a search, or while
    /// the program is suspended.
    pub(crate) fn shows_line(&self) -> bool
        ensures { result ≡ shows_line self.now }
    {
        match self {
            Mode::Listing(_) | Mode::Searching(_) | Mode::Suspended => false,
            Mode::Editing | Mode::Quoting | Mode::Completing(_) | Mode::Offering(_) => true,
        }
    }
}

/// An item that is taken by itself: it is put in as it is, or answers a list.
#[derive(Drop)]
pub(crate) enum AsItIs {
    /// A key.
    Key(KeyEvent),
    /// A pasted text.
    Text(String),
}

impl AsItIs {
    /// Returns the command that puts it in: nothing of a key that has no character.
    pub(crate) fn command(self) -> Cmd
        ensures { command_of result ≡ as_it_is (item_as_it_is self) }
    {
        match self {
            AsItIs::Text(text) => Cmd::Insert(1, text),
            AsItIs::Key(key) => match character(key) {
                Some(c) => Cmd::SelfInsert(1, c),
                None => Cmd::Unknown,
            },
        }
    }
}

/// Returns the character that a key stands for, if it stands for one: with Ctrl it is a control
/// character.
fn character(key: KeyEvent) -> Option<char>
    ensures { result ≡ character_of key }
{
    let KeyEvent(code, modifiers) = key;
    if modifiers == Modifiers::NONE {
        return plain_character(code);
    }
    if modifiers == Modifiers::CTRL {
        return control_character(code);
    }
    None
}

/// Returns the character of a key without modifiers.
fn plain_character(code: KeyCode) -> Option<char>
    ensures { result ≡ plain_character code }
{
    match code {
        KeyCode::Char(c) => Some(c),
        KeyCode::Backspace => Some('\u{7f}'),
        KeyCode::Enter => Some('\r'),
        KeyCode::Esc => Some('\u{1b}'),
        KeyCode::Tab => Some('\t'),
        _ => None,
    }
}

/// Returns the control character of a key with Ctrl: 64 places before the one that it is named for.
fn control_character(code: KeyCode) -> Option<char>
    ensures { result ≡ with_control code }
{
    match code {
        KeyCode::Char(c @ '@'..='_') => Some(char::from(c as u8 - b'@')),
        _ => None,
    }
}
