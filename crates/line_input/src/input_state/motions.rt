//! The motions of Vi's operators.
ghost use Rattle.line_input.specs.Reads.{ReadsMotion};
ghost use Rattle.std.specs.Prelude.{◌≡◌, ◌∷◌, [], OnErr, Option, false};
ghost use Rattle.line_input.specs.Input.{Input};
ghost use Rattle.line_input.specs.InputState.{behind_input, keys_of};
ghost use Rattle.line_input.specs.Operation.{Reaches, motion_behind, operated_if};
ghost use Rattle.line_input.specs.Reading.{EndsQuietly, GivesQuietly, OnRead, TakesItems};
ghost use Rattle.line_keys.specs.Command.{command_of};
ghost use Rattle.line_keys.specs.Model.Draft.{Draft};
ghost use Rattle.line_keys.specs.Item.{key};
ghost use Rattle.line_keys.specs.Row.{motion_value};

use crate::binding::ConditionalEventHandler;
use crate::input_state::InputState;
use crate::input_state::phrases::Read;
use crate::input_state::tails::{opposite_of, place_of};
use line_buffer::{Movement, RepeatCount};
use line_config::{EditMode, Result};
use line_keys::cmd::Cmd;
use line_keys::count::begins_count;
use line_keys::editor_state::EditorState;
use line_keys::keys::KeyEvent;
use line_keys::raw_reader::RawReader;
use line_keys::refresher::{InputMode, Refresher};
use line_keys::tables::{Motion, Operator, motion_of_key, multiplied};

impl<C: ConditionalEventHandler> InputState<'_, C> {
    /// Reads the motion of an operator with a count, and returns the operator's command. Without a
    /// motion it is unknown.
    pub(crate) fn read_motion<R: RawReader, W: Refresher>(
        &self,
        rdr: &mut R,
        wrt: &mut W,
        operator: Operator,
        n: RepeatCount,
    ) -> Result<Read>
        ensures { ReadsMotion W.EditorState R.RawReader operator n [] result
            wrt.old rdr.old wrt.new rdr.new
            (keys_of C.ConditionalEventHandler self.now) }
    {
        let first = rdr.next_key(false)?;
        self.read_motion_from(rdr, wrt, operator, n, first)
    }

    // Reads the rest of a motion that began with a key: its count, if it begins one, and what
    // belongs to the key after it.
    fn read_motion_from<R: RawReader, W: Refresher>(
        &self,
        rdr: &mut R,
        wrt: &mut W,
        operator: Operator,
        n: RepeatCount,
        first: KeyEvent,
    ) -> Result<Read>
        ensures { ReadsMotion W.EditorState R.RawReader operator n (key first ∷ []) result
            wrt.old rdr.old wrt.new rdr.new
            (keys_of C.ConditionalEventHandler self.now) }
    {
        if !begins_count(EditMode::Vi, InputMode::Command, first) {
            return self.reach(rdr, operator, motion_at_once(operator, first, n));
        }
        let (count, key) = self.read_count(rdr, wrt, EditMode::Vi, first)?;
        let motion = motion_of_key(operator, key, multiplied(n, count.n));
        self.reach(rdr, operator, motion)
    }

    // Reads what belongs to the key of a motion, and returns the operator's command.
    fn reach<R: RawReader>(&self, rdr: &mut R, operator: Operator, motion: Motion) -> Result<Read>
        ensures reads { let k =
            keys_of C.ConditionalEventHandler self.now in
            (draft : Draft) (i : Input) → i.last_search ≡ k.input.last_search →
            let Comes = Reaches draft i operator (motion_value motion) in
            OnRead result (λ b. GivesQuietly R.RawReader Comes draft (behind_input b i)
            (command_of b.command) rdr.old rdr.new)
            (EndsQuietly R.RawReader Comes rdr.old rdr.new) }
        ensures kept { OnErr result (R.rest rdr.new ≡ R.rest rdr.old) }
        ensures items { TakesItems R.RawReader
            (keys_of C.ConditionalEventHandler self.now).bound
            result rdr.old rdr.new }
    {
        let last = self.remembered.last_char_search;
        match motion {
            Motion::Covers(movement) => Ok(self.behind(operator.over(movement))),
            Motion::Search(n, kind) => {
                let found = kind.of_key(rdr.next_key(false)?);
                Ok(Read {
                    last_char_search: found.or(last),
                    ..self.behind(over_if(operator, place_of(found, n)))
                })
            }
            Motion::SearchAgain(n) => Ok(self.behind(over_if(operator, place_of(last, n)))),
            Motion::SearchBack(n) => {
                Ok(self.behind(over_if(operator, place_of(opposite_of(last), n))))
            }
            Motion::Bracket => Ok(self.behind(operator.to_bracket())),
            Motion::None => Ok(self.behind(Cmd::Unknown)),
        }
    }
}

// Returns the motion of a key at once after an operator: the operator's own key is the whole line.
fn motion_at_once(operator: Operator, first: KeyEvent, n: RepeatCount) -> Motion
    ensures { motion_value result ≡ motion_behind operator n [] first }
{
    if operator.is_own_key(first) {
        return Motion::Covers(Movement::WholeLine);
    }
    motion_of_key(operator, first, n)
}

// Returns the command of an operator over a movement, or Unknown without one.
fn over_if(operator: Operator, movement: Option<Movement>) -> Cmd
    ensures { command_of result ≡ operated_if operator movement }
{
    match movement {
        Some(movement) => operator.over(movement),
        None => Cmd::Unknown,
    }
}
