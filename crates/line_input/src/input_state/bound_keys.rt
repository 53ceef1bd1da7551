//! The commands that keys are bound to: by the program, and by the reader.
ghost use Rattle.std.specs.Prelude.{◌≡◌, Option, Some, false, option_map, IfOk};
ghost use Rattle.line_config.specs.Error.{FaultsOnly, IoOnlyIf};
ghost use Rattle.line_input.specs.Binding.{all_sure, handled};
ghost use Rattle.line_input.specs.Event.{chord_of, keys};
ghost use Rattle.line_input.specs.Input.{in_mode};
ghost use Rattle.line_input.specs.InputState.{input_of, keys_of};
ghost use Rattle.line_input.specs.Keymap.{bound_command, key_handler, keymap_of, on_line};
ghost use Rattle.line_input.specs.Moment.{moment_in, moment_of};
ghost use Rattle.line_keys.specs.Command.{Command, command_of};
ghost use Rattle.line_keys.specs.declared.keys.KeyEvent.{KeyEvent};

use crate::binding::{ConditionalEventHandler, Event, EventContext, EventHandler};
use crate::input_state::InputState;
use line_config::Result;
use line_keys::cmd::Cmd;
use line_keys::count::Count;
use line_keys::editor_state::EditorState;
use line_keys::keys::KeyEvent;
use line_keys::raw_reader::RawReader;
use line_keys::refresher::{InputMode, Refresher};
use std::alloc::Global;

impl<C: ConditionalEventHandler> InputState<'_, C> {
    /// Returns the command that the program's bindings have for a key of a mode under the count
    /// that was typed, done again where it can be.
    #[inline(always)]
    pub(crate) fn custom_binding<W: Refresher>(
        &self,
        wrt: &W,
        mode: InputMode,
        key: KeyEvent,
        typed: Option<Count>,
    ) -> Result<Option<Cmd>>
        ensures command { let k = keys_of C.ConditionalEventHandler in
            (own : KeyEvent → Option Command) → IfOk result (λ c. option_map command_of c
            ≡ bound_command (keymap_of (k self.now) own) (W.draft wrt.now)
            (in_mode mode (input_of self.now)) typed key) }
        ensures io { let k = keys_of C.ConditionalEventHandler in
            IoOnlyIf result (all_sure (k self.now).bound ≡ false) }
        ensures faults { FaultsOnly result }
    {
        match self.bindings.of_key(key) {
            Some(handler) => self.bound(wrt, mode, handler, key, typed),
            None => Ok(None),
        }
    }

    // Returns the command that the handler of a key answers, done again where it can be.
    #[inline(never)]
    fn bound<W: Refresher>(
        &self,
        wrt: &W,
        mode: InputMode,
        handler: &EventHandler<C>,
        key: KeyEvent,
        typed: Option<Count>,
    ) -> Result<Option<Cmd>>
        requires { let g = C.ConditionalEventHandler in
            key_handler (keys_of g self.now).bound key ≡ Some (handled g handler.now) }
        ensures command { let k = keys_of C.ConditionalEventHandler in
            (own : KeyEvent → Option Command) → IfOk result (λ c. option_map command_of c
            ≡ bound_command (keymap_of (k self.now) own) (W.draft wrt.now)
            (in_mode mode (input_of self.now)) typed key) }
        ensures io { let g = C.ConditionalEventHandler in
            IoOnlyIf result ((handled g handler.now).sure ≡ false) }
        ensures faults { FaultsOnly result }
    {
        let count = self.handed(mode, typed);
        match self.answer(wrt, mode, handler, &[key], count)? {
            Some(command) => Ok(Some(command.redo(self.new_count(typed), wrt)?)),
            None => Ok(None),
        }
    }

    /// Returns what a handler answers to keys of a mode under a count.
    pub(crate) fn answer<W: Refresher>(
        &self,
        wrt: &W,
        mode: InputMode,
        handler: &EventHandler<C>,
        sequence: &[KeyEvent],
        count: Count,
    ) -> Result<Option<Cmd>>
        ensures command { let g = C.ConditionalEventHandler in
            IfOk result (λ c. option_map command_of c ≡ (handled g handler.now).answer (record {
              event = keys sequence.now;
              count = count;
              moment = moment_in (W.draft wrt.now) (in_mode mode (input_of self.now));
            })) }
        ensures io { let g = C.ConditionalEventHandler in
            IoOnlyIf result ((handled g handler.now).sure ≡ false) }
        ensures faults { FaultsOnly result }
    {
        let alloc = self.bindings.alloc();
        match handler {
            EventHandler::Simple(command) => Ok(Some(command.clone(alloc)?)),
            EventHandler::Conditional(handler) => {
                let event = Event::of_keys(alloc, sequence)?;
                let context = EventContext::new(self.remembered.mode, mode, wrt);
                handler.handle(alloc, &event, count.n, count.positive, &context)
            }
        }
    }
}

/// Returns the command that the reader itself has for the key; `EndOfFile` counts on an empty line
/// alone.
#[inline(always)]
pub(crate) fn own_command<R: RawReader, W: Refresher>(
    rdr: &R,
    wrt: &W,
    key: &KeyEvent,
) -> Option<Cmd>
    ensures { option_map command_of result
        ≡ on_line (W.draft wrt.now).line.text (R.own_binding (R.kept rdr.now) key.now) }
{
    match rdr.find_binding(key) {
        Some(Cmd::EndOfFile) if !wrt.line().is_empty() => None,
        command => command,
    }
}
