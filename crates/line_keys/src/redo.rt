//! Commands that are done again.
ghost use Rattle.std.specs.Prelude.{◌≡◌, true, IfOk, option_map, string_bytes};
ghost use Rattle.line_buffer.specs.Changes.{last_insert_of};
ghost use Rattle.line_config.specs.Error.{MemoryOnly};
ghost use Rattle.line_keys.specs.Command.{command_of};
ghost use Rattle.line_keys.specs.Redo.{becomes_change, becomes_change_typed, bound_anew, counted_anew, is_repeatable_change, is_typed_on, redone, replaced_again, with_count};

use crate::cmd::Cmd;
use crate::refresher::{InputMode, Refresher};
use line_buffer::{Movement, RepeatCount};
use line_config::Result;

impl Cmd {
    /// Returns the command as it is done for a key that a program bound to it. A repeatable change
    /// and a move take the new count, if there is one and they have a count, and a replacement
    /// without a text of its own the text that was inserted last. Each other command stays as it
    /// is, also one with a count.
    ///
    /// # Errors
    /// `Memory` if memory runs out.
    pub fn redo<W: Refresher>(self, new: Option<RepeatCount>, wrt: &W) -> Result<Cmd>
        ensures command { let last = last_insert_of (W.draft wrt.now).changes.entries in
            IfOk result (λ c. command_of c ≡ bound_anew new last (command_of self)) }
        ensures memory { MemoryOnly result }
    {
        Ok(match self {
            Cmd::Dedent(movement) => Cmd::Dedent(recounted(movement, new)),
            Cmd::Indent(movement) => Cmd::Indent(recounted(movement, new)),
            Cmd::Insert(n, text) => Cmd::Insert(new.unwrap_or(n), text),
            Cmd::Kill(movement) => Cmd::Kill(recounted(movement, new)),
            Cmd::Move(movement) => Cmd::Move(recounted(movement, new)),
            Cmd::ReplaceChar(n, c) => Cmd::ReplaceChar(new.unwrap_or(n), c),
            Cmd::Replace(movement, None) => {
                let text = wrt.last_insert()?;
                Cmd::Replace(over_text(movement, new, &text), text)
            }
            Cmd::Replace(movement, text) => Cmd::Replace(recounted(movement, new), text),
            Cmd::SelfInsert(n, c) => Cmd::SelfInsert(new.unwrap_or(n), c),
            Cmd::ViYankTo(movement) => Cmd::ViYankTo(recounted(movement, new)),
            Cmd::Yank(n, anchor) => Cmd::Yank(new.unwrap_or(n), anchor),
            Cmd::ReplaceToBracket(None) => Cmd::ReplaceToBracket(wrt.last_insert()?),
            command => command,
        })
    }

    /// Returns the command as the dot does it again. It is done as for a key that a program bound
    /// to it, but a typed character becomes the text that was inserted last, where there is one.
    ///
    /// # Errors
    /// `Memory` if memory runs out.
    pub fn repeat<W: Refresher>(self, new: Option<RepeatCount>, wrt: &W) -> Result<Cmd>
        ensures command { let last = last_insert_of (W.draft wrt.now).changes.entries in
            IfOk result (λ c. command_of c ≡ redone true new last (command_of self)) }
        ensures memory { MemoryOnly result }
    {
        match self {
            Cmd::SelfInsert(n, c) => match wrt.last_insert()? {
                Some(text) => Ok(Cmd::Insert(new.unwrap_or(n), text)),
                None => Ok(Cmd::SelfInsert(new.unwrap_or(n), c)),
            },
            command => command.redo(new, wrt),
        }
    }

    /// Returns whether the command changes the line or copies from it, and can be done again.
    pub fn is_repeatable_change(&self) -> bool
        ensures { result ≡ is_repeatable_change (command_of self.now) }
    {
        match self {
            Cmd::Dedent(_)
            | Cmd::Indent(_)
            | Cmd::Insert(_, _)
            | Cmd::Kill(_)
            | Cmd::ReplaceChar(_, _)
            | Cmd::Replace(_, _)
            | Cmd::SelfInsert(_, _)
            | Cmd::ViYankTo(_)
            | Cmd::Yank(_, _)
            | Cmd::KillToBracket
            | Cmd::ReplaceToBracket(_)
            | Cmd::YankToBracket => true,
            _ => false,
        }
    }

    /// Returns whether the command becomes Vi's last change, by the mode that its key is read in,
    /// and the last change so far. A repeatable change does, but in insert and replace mode not a
    /// typed character after a replacement or a typed one.
    pub fn becomes_change(&self, input_mode: InputMode, last: &Option<Cmd>) -> bool
        ensures { result
            ≡ becomes_change input_mode (option_map command_of last.now) (command_of self.now) }
    {
        match input_mode {
            InputMode::Command => return self.is_repeatable_change(),
            _ => {}
        }
        match self {
            Cmd::SelfInsert(_, _) => !is_typed_on(last),
            _ => self.is_repeatable_change(),
        }
    }
}

// Returns whether typed characters go on with the last change: a replacement, or a typed character.
fn is_typed_on(last: &Option<Cmd>) -> bool
    ensures { result ≡ is_typed_on (option_map command_of last.now) }
{
    match last {
        Some(Cmd::Replace(_, _) | Cmd::ReplaceToBracket(_) | Cmd::SelfInsert(_, _)) => true,
        _ => false,
    }
}

// Returns a movement with a new count, if there is one and the movement has a count.
fn recounted(movement: Movement, new: Option<RepeatCount>) -> Movement
    ensures { result ≡ with_count new movement }
{
    let Some(n) = new else {
        return movement;
    };
    match movement {
        Movement::BackwardWord(_, word) => Movement::BackwardWord(n, word),
        Movement::ForwardWord(_, at, word) => Movement::ForwardWord(n, at, word),
        Movement::ViCharSearch(_, search) => Movement::ViCharSearch(n, search),
        Movement::BackwardChar(_) => Movement::BackwardChar(n),
        Movement::ForwardChar(_) => Movement::ForwardChar(n),
        Movement::LineUp(_) => Movement::LineUp(n),
        Movement::LineDown(_) => Movement::LineDown(n),
        movement => movement,
    }
}

// Returns what is replaced by the text that was inserted last: as many clusters as it has bytes,
// where it was typed over the line.
fn over_text(movement: Movement, new: Option<RepeatCount>, text: &Option<String>) -> Movement
    ensures { result ≡ replaced_again new (option_map string_bytes text.now) movement }
{
    match (movement, text) {
        (Movement::ForwardChar(0), Some(text)) => {
            Movement::ForwardChar(RepeatCount::try_from(text.len()).unwrap_or(RepeatCount::MAX))
        }
        (Movement::ForwardChar(0), None) => Movement::ForwardChar(0),
        (movement, _) => recounted(movement, new),
    }
}
