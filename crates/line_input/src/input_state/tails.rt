//! What belongs to a key, by what the key means.
ghost use Rattle.line_input.specs.Reads.{FindsTail, ReadsTail, StopsInTail};
ghost use Rattle.std.specs.Prelude.{◌≡◌, IfOk, Option, false, option_map};
ghost use Rattle.line_buffer.specs.Changes.{last_insert_of};
ghost use Rattle.line_buffer.specs.Search.{opposite};
ghost use Rattle.line_buffer.specs.declared.movement.CharSearch.{CharSearch};
ghost use Rattle.line_buffer.specs.declared.movement.Movement.TheVariants.{ViCharSearch};
ghost use Rattle.line_config.specs.Error.{MemoryOnly};
ghost use Rattle.line_input.specs.InputState.{behind_input, input_of, keys_of};
ghost use Rattle.line_input.specs.Reading.{TakesItems};
ghost use Rattle.line_input.specs.Tail.{changed_again, is_operation, move_or};
ghost use Rattle.line_keys.specs.Command.{command_of};
ghost use Rattle.line_keys.specs.Row.{meaning_of};
ghost use Rattle.line_keys.specs.Table.{has_second, second_at, unlisted};
ghost use Rattle.line_keys.specs.declared.keys.KeyEvent.{KeyEvent};

use crate::binding::ConditionalEventHandler;
use crate::input_state::InputState;
use crate::input_state::phrases::Read;
use crate::input_state::sequences::Sequence;
use line_buffer::{CharSearch, Movement, RepeatCount};
use line_config::Result;
use line_keys::cmd::Cmd;
use line_keys::count::Count;
use line_keys::editor_state::EditorState;
use line_keys::keys::KeyEvent;
use line_keys::raw_reader::RawReader;
use line_keys::refresher::{InputMode, Refresher};
use line_keys::tables::{Meaning, replaced_by, second_key};

impl<C: ConditionalEventHandler> InputState<'_, C> {
    /// Reads what belongs to a key of a mode, which has this meaning, under the count that the
    /// tables took.
    #[inline(always)]
    pub(crate) fn read_tail<R: RawReader, W: Refresher>(
        &self,
        rdr: &mut R,
        wrt: &mut W,
        mode: InputMode,
        key: KeyEvent,
        count: Count,
        meaning: Meaning,
    ) -> Result<Read>
        ensures { ReadsTail W.EditorState R.RawReader mode key count (meaning_of meaning) result
            wrt.old rdr.old wrt.new rdr.new
            (keys_of C.ConditionalEventHandler self.now) }
    {
        match meaning {
            Meaning::Command(command) => Ok(self.behind(command)),
            Meaning::Operator(operator, n) => self.read_motion(rdr, wrt, operator, n),
            meaning => self.read_quietly(rdr, wrt, mode, key, count, meaning),
        }
    }

    // Reads what belongs to a key where nothing is drawn meanwhile: it is no operator's.
    #[inline(never)]
    fn read_quietly<R: RawReader, W: Refresher>(
        &self,
        rdr: &mut R,
        wrt: &W,
        mode: InputMode,
        key: KeyEvent,
        count: Count,
        meaning: Meaning,
    ) -> Result<Read>
        requires { is_operation (meaning_of meaning) ≡ false }
        ensures reads { FindsTail W.EditorState R.RawReader
            (λ b. command_of b.command) (λ b i. behind_input b i)
            mode key count (meaning_of meaning) result wrt.now rdr.old rdr.new
            (keys_of C.ConditionalEventHandler self.now) }
        ensures within { StopsInTail W.EditorState R.RawReader mode key count
            (meaning_of meaning) result wrt.now rdr.old rdr.new
            (keys_of C.ConditionalEventHandler self.now) }
        ensures items { TakesItems R.RawReader
            (keys_of C.ConditionalEventHandler self.now).bound
            result rdr.old rdr.new }
    {
        let last = self.remembered.last_char_search;
        match meaning {
            Meaning::Command(command) => Ok(self.behind(command)),
            Meaning::Search(n, kind) => {
                let found = kind.of_key(rdr.next_key(false)?);
                Ok(Read {
                    last_char_search: found.or(last),
                    ..self.behind(move_or(Cmd::Unknown, place_of(found, n)))
                })
            }
            Meaning::SearchAgain(n) => Ok(self.behind(move_or(Cmd::Noop, place_of(last, n)))),
            Meaning::SearchBack(n) => {
                Ok(self.behind(move_or(Cmd::Noop, place_of(opposite_of(last), n))))
            }
            Meaning::Paste => Ok(self.behind(Cmd::Insert(1, rdr.read_pasted_text()?))),
            Meaning::ReplaceChar(n) => Ok(self.behind(replaced_by(n, rdr.next_key(false)?))),
            Meaning::Again(new) => Ok(self.behind(self.again(wrt, new)?)),
            Meaning::SecondKey(by) => {
                Ok(self.behind(self.read_second(rdr, wrt, mode, key, count, by)?))
            }
            Meaning::Operator(_, _) | Meaning::Unlisted => {
                Ok(self.behind(self.read_unlisted(rdr, wrt, mode, key, count)?))
            }
        }
    }

    // Reads the keys of a bound sequence or a second key, and returns their command.
    fn read_second<R: RawReader, W: Refresher>(
        &self,
        rdr: &mut R,
        wrt: &W,
        mode: InputMode,
        key: KeyEvent,
        count: Count,
        by: Count,
    ) -> Result<Cmd>
        ensures reads { FindsTail W.EditorState R.RawReader (λ c. command_of c) (λ c i. i)
            mode key count (has_second (second_at by)) result wrt.now rdr.old rdr.new
            (keys_of C.ConditionalEventHandler self.now) }
        ensures within { StopsInTail W.EditorState R.RawReader mode key count
            (has_second (second_at by)) result wrt.now rdr.old rdr.new
            (keys_of C.ConditionalEventHandler self.now) }
        ensures items { TakesItems R.RawReader
            (keys_of C.ConditionalEventHandler self.now).bound
            result rdr.old rdr.new }
    {
        match self.custom_seq_binding(rdr, wrt, mode, key, count)? {
            Sequence::Command(command) => Ok(command),
            Sequence::InVain(Some(second)) => Ok(second_key(second, by)),
            Sequence::InVain(None) => Ok(second_key(rdr.next_key(true)?, by)),
        }
    }

    // Reads the keys of a bound sequence, and returns their command; keys that have none stand for
    // nothing.
    fn read_unlisted<R: RawReader, W: Refresher>(
        &self,
        rdr: &mut R,
        wrt: &W,
        mode: InputMode,
        key: KeyEvent,
        count: Count,
    ) -> Result<Cmd>
        ensures reads { FindsTail W.EditorState R.RawReader (λ c. command_of c) (λ c i. i)
            mode key count unlisted result wrt.now rdr.old rdr.new
            (keys_of C.ConditionalEventHandler self.now) }
        ensures within { StopsInTail W.EditorState R.RawReader mode key count unlisted result
            wrt.now rdr.old rdr.new
            (keys_of C.ConditionalEventHandler self.now) }
        ensures items { TakesItems R.RawReader
            (keys_of C.ConditionalEventHandler self.now).bound
            result rdr.old rdr.new }
    {
        match self.custom_seq_binding(rdr, wrt, mode, key, count)? {
            Sequence::Command(command) => Ok(command),
            Sequence::InVain(_) => Ok(Cmd::Unknown),
        }
    }

    /// Returns a command with the last search as it was. The mode and whether it is a change are
    /// set by `set_remembered`.
    #[inline(always)]
    pub(crate) fn behind(&self, command: Cmd) -> Read
        ensures command { command_of result.command ≡ command_of command }
        ensures search { result.last_char_search ≡ (input_of self.now).last_search }
    {
        Read {
            command,
            input_mode: self.remembered.input_mode,
            is_change: false,
            last_char_search: self.remembered.last_char_search,
        }
    }

    // Returns the last change as it is done again, with a new count if there is one; without a
    // change, Noop.
    fn again<W: Refresher>(&self, wrt: &W, new: Option<RepeatCount>) -> Result<Cmd>
        ensures command { let last = last_insert_of (W.draft wrt.now).changes.entries in
            IfOk result (λ c. command_of c
            ≡ changed_again new last (input_of self.now).last_change) }
        ensures memory { MemoryOnly result }
    {
        match &self.remembered.last_cmd {
            Some(change) => change.clone(self.bindings.alloc())?.repeat(new, wrt),
            None => Ok(Cmd::Noop),
        }
    }
}

/// Returns the n-th place of a search, if there is one.
pub(crate) fn place_of(search: Option<CharSearch>, n: RepeatCount) -> Option<Movement>
    ensures { result ≡ option_map (λ s. ViCharSearch n s) search }
{
    match search {
        Some(search) => Some(Movement::ViCharSearch(n, search)),
        None => None,
    }
}

/// Returns the opposite of a search, if there is one.
pub(crate) fn opposite_of(search: Option<CharSearch>) -> Option<CharSearch>
    ensures { result ≡ option_map (λ s. opposite s) search }
{
    search.map(CharSearch::opposite)
}

// Returns the move by a movement, or else another command.
fn move_or(other: Cmd, movement: Option<Movement>) -> Cmd
    ensures { command_of result ≡ move_or (command_of other) movement }
{
    match movement {
        Some(movement) => Cmd::Move(movement),
        None => other,
    }
}
