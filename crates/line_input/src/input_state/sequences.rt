//! Bound key sequences.
ghost use Rattle.line_input.specs.Reads.{ReadsSequence, sequences_here};
ghost use Rattle.std.specs.Prelude.{◌≡◌, Option, false, option_map, IfOk, OnErr};
ghost use Rattle.line_config.specs.Error.{FaultsOnly, IoOnlyIf};
ghost use Rattle.line_input.specs.Binding.{all_sure};
ghost use Rattle.line_input.specs.Input.{in_mode};
ghost use Rattle.line_input.specs.InputState.{input_of, keys_of};
ghost use Rattle.line_input.specs.Reading.{StopsInSequence, TakesItems};
ghost use Rattle.line_input.specs.Sequence.{sequences_of};
ghost use Rattle.line_keys.specs.Command.{Command, command_of};
ghost use Rattle.line_keys.specs.declared.keys.KeyEvent.{KeyEvent};

use crate::binding::ConditionalEventHandler;
use crate::input_state::InputState;
use line_config::Result;
use line_keys::cmd::Cmd;
use line_keys::count::Count;
use line_keys::editor_state::EditorState;
use line_keys::keys::KeyEvent;
use line_keys::raw_reader::RawReader;
use line_keys::refresher::{InputMode, Refresher};

/// What was read of a bound sequence.
pub(crate) enum Sequence {
    /// Keys that have a command.
    Command(Cmd),
    /// Keys that have none; with the second of them, if there was one.
    InVain(Option<KeyEvent>),
}

impl<C: ConditionalEventHandler> InputState<'_, C> {
    /// Reads the keys of a bound sequence that begins with a key, up to one that completes a
    /// command, or after which no bound sequence goes on.
    pub(crate) fn custom_seq_binding<R: RawReader, W: Refresher>(
        &self,
        rdr: &mut R,
        wrt: &W,
        mode: InputMode,
        first: KeyEvent,
        count: Count,
    ) -> Result<Sequence>
        ensures reads { ReadsSequence W.EditorState R.RawReader mode first count result
            wrt.now rdr.old rdr.new
            (keys_of C.ConditionalEventHandler self.now) }
        ensures within { OnErr result (StopsInSequence R.RawReader rdr.old rdr.new
            (sequences_here W.EditorState wrt.now mode count
            (keys_of C.ConditionalEventHandler self.now)) first) }
        ensures items { TakesItems R.RawReader
            (keys_of C.ConditionalEventHandler self.now).bound
            result rdr.old rdr.new }
    {
        if !self.bindings.leads_on(&[first]) {
            return Ok(Sequence::InVain(None));
        }
        let mut keys = Vec::new(self.bindings.alloc());
        keys.push(first)?;
        'keys: loop {
            keys.push(rdr.next_key(true)?)?;
            match self.sequence_command(wrt, mode, keys.as_slice(), count)? {
                Some(command) => return Ok(Sequence::Command(command)),
                None => {}
            }
            if !self.bindings.leads_on(keys.as_slice()) {
                return Ok(Sequence::InVain(keys.get(1).copied()));
            }
        }
    }

    // Returns the command of a key sequence, if it is bound and has one.
    fn sequence_command<W: Refresher>(
        &self,
        wrt: &W,
        mode: InputMode,
        sequence: &[KeyEvent],
        count: Count,
    ) -> Result<Option<Cmd>>
        ensures command { let g = C.ConditionalEventHandler in
            let bound = (keys_of g self.now).bound in let i = in_mode mode (input_of self.now) in
            IfOk result (λ c. option_map command_of c
            ≡ (sequences_of bound (W.draft wrt.now) i count).command sequence.now) }
        ensures io { let k = keys_of C.ConditionalEventHandler in
            IoOnlyIf result (all_sure (k self.now).bound ≡ false) }
        ensures faults { FaultsOnly result }
    {
        match self.bindings.of_keys(sequence) {
            Some(handler) => self.answer(wrt, mode, handler, sequence, count),
            None => Ok(None),
        }
    }
}
