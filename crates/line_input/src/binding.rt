//! The keys that a program gives commands of its own.
ghost use Rattle.std.specs.Prelude.{◌≡◌, Bool, false, true, ◌∷◌, [], IfOk, None, Option, is_some, map, option_and_then, option_copied, option_map, slice_get};
ghost use Rattle.line_config.specs.Error.{FaultsOnly, IoOnlyIf, MemoryOnly};
ghost use Rattle.line_input.specs.Asked.{Asked};
ghost use Rattle.line_input.specs.declared.binding.EventHandler.TheVariants.{Simple};
ghost use Rattle.line_input.specs.Event.{chord_of, event_keys, keys, normal_chord};
ghost use Rattle.line_input.specs.Moment.{moment_of};
ghost use Rattle.line_keys.specs.Command.{Command, command_of};
ghost use Rattle.line_keys.specs.Key.{normalized};

use line_buffer::RepeatCount;
use line_config::{EditMode, Result};
use line_keys::cmd::Cmd;
use line_keys::keys::KeyEvent;
use line_keys::refresher::{InputMode, Refresher};
use std::alloc::Global;

/// What a command can be bound to.
#[derive(Debug, PartialEq, Eq, Hash, Drop)]
pub enum Event {
    /// Each key that has no binding of its own.
    Any,
    /// A key, or keys one after another.
    KeySeq(Vec<KeyEvent>),
    /// The mouse. It can be bound, but no reader returns it yet: such a binding is never asked.
    Mouse,
}

impl Event {
    /// Returns the input event of one key.
    ///
    /// # Errors
    /// `Memory` if memory runs out.
    pub fn from_key(alloc: Global, key: KeyEvent) -> Result<Event>
        ensures event { IfOk result (λ event. chord_of event ≡ keys (key ∷ [])) }
        ensures memory { MemoryOnly result }
    {
        let mut keys = Vec::new(alloc);
        keys.push(key)?;
        Ok(Event::KeySeq(keys))
    }

    /// Returns an equal input event, whose keys grow from `alloc`.
    ///
    /// # Errors
    /// `Memory` if memory runs out.
    pub fn clone(&self, alloc: Global) -> Result<Event>
        ensures equal { IfOk result (λ event. chord_of event ≡ chord_of self.now) }
        ensures memory { MemoryOnly result }
    {
        match self {
            Event::Any => Ok(Event::Any),
            Event::KeySeq(keys) => Event::of_keys(alloc, keys),
            Event::Mouse => Ok(Event::Mouse),
        }
    }

    // Returns the input event of a key sequence.
    pub(crate) fn of_keys(alloc: Global, sequence: &[KeyEvent]) -> Result<Event>
        ensures event { IfOk result (λ event. chord_of event ≡ keys sequence.now) }
        ensures memory { MemoryOnly result }
    {
        Ok(Event::KeySeq(sequence.to_vec(alloc)?))
    }

    /// Returns the input event with each of its keys in normal form, as `KeyEvent::normalize` gives
    /// it.
    pub fn normalize(self) -> Event
        ensures { chord_of result ≡ normal_chord (chord_of self) }
    {
        match self {
            Event::KeySeq(mut keys) => {
                normalize_each(keys.as_mut_slice());
                Event::KeySeq(keys)
            }
            event => event,
        }
    }

    /// Returns the `i`-th key of a sequence, counted from 0, or None where there is none.
    pub fn get(&self, i: usize) -> Option<&KeyEvent>
        ensures { option_copied result ≡ slice_get (event_keys (chord_of self.now)) i }
    {
        match self {
            Event::KeySeq(keys) => keys.get(i),
            _ => None,
        }
    }
}

// Puts each key into normal form.
fn normalize_each(keys: &mut [KeyEvent])
    ensures { keys.new ≡ map normalized keys.old }
{
    for key in keys.iter_mut() {
        *key = KeyEvent::normalize(*key);
    }
}

/// What a handler is shown of the moment in which its key was read: edit mode, input mode, hint,
/// text and cursor.
#[derive(Clone, Copy)]
pub struct EventContext<'r> {
    mode: EditMode,
    input_mode: InputMode,
    has_hint: bool,
    hint_text: Option<&'r str>,
    line: &'r str,
    pos: usize,
}

impl<'r> EventContext<'r> {
    // Returns what is shown of an edit mode, an input mode and the editor.
    pub(crate) fn new<W: Refresher>(mode: EditMode, input_mode: InputMode, wrt: &'r W) -> Self
        ensures { let draft = W.draft wrt.now in (moment_of result ≡ record {
          style = mode;
          mode = input_mode;
          has_hint = is_some draft.hint;
          hint_text = option_and_then (λ hint. hint.completion) draft.hint;
          text = draft.line.text;
          cursor = draft.line.cursor;
        }) }
    {
        EventContext {
            mode,
            input_mode,
            has_hint: wrt.has_hint(),
            hint_text: wrt.hint_text(),
            line: wrt.line(),
            pos: wrt.pos(),
        }
    }

    /// Returns the edit mode.
    pub fn mode(&self) -> EditMode
        ensures { result ≡ (moment_of self.now).style }
    {
        self.mode
    }

    /// Returns Vi's input mode; in Emacs it is `Insert`.
    pub fn input_mode(&self) -> InputMode
        ensures { result ≡ (moment_of self.now).mode }
    {
        self.input_mode
    }

    /// Returns whether there is a hint.
    pub fn has_hint(&self) -> bool
        ensures { result ≡ (moment_of self.now).has_hint }
    {
        self.has_hint
    }

    /// Returns what the hint completes the line with, if there is one and it can be taken.
    pub fn hint_text(&self) -> Option<&'r str>
        ensures { option_map (λ s. s.now) result ≡ (moment_of self.now).hint_text }
    {
        self.hint_text
    }

    /// Returns the whole text.
    pub fn line(&self) -> &'r str
        ensures { result.now ≡ (moment_of self.now).text }
    {
        self.line
    }

    /// Returns the cursor's byte offset.
    pub fn pos(&self) -> usize
        ensures { result ≡ (moment_of self.now).cursor }
    {
        self.pos
    }
}

/// Answers a key or a key sequence with a command that may depend on the moment, or with none. A
/// lawful handler's answer is a function of what it is handed.
pub trait ConditionalEventHandler: Drop {
    ghost sure: { Self → Bool };

    ghost answer: { Self → Asked → Option Command };

    /// Returns the command for the input event `evt`, typed with the count `n`, or with its
    /// opposite where `positive` is false. With None a key is looked up in the reader's own
    /// bindings, and then in the tables; after a key sequence one more key is read.
    ///
    /// # Errors
    /// `Io` if this handler fails, and `Memory` if memory runs out. No `Io` comes if the handler is
    /// sure.
    fn handle(
        &self,
        alloc: Global,
        evt: &Event,
        n: RepeatCount,
        positive: bool,
        ctx: &EventContext<'_>,
    ) -> Result<Option<Cmd>>
        ensures answer { IfOk result (λ c. option_map command_of c ≡ answer self.now (record {
          event = chord_of evt.now;
          count = record { n = n; positive = positive };
          moment = moment_of ctx.now;
        })) }
        ensures io { IoOnlyIf result (sure self.now ≡ false) }
        ensures faults { FaultsOnly result };
}

/// A handler in a box answers as the one that it holds.
impl ConditionalEventHandler for Box<dyn ConditionalEventHandler> {
    ghost sure = { λ b. (ConditionalEventHandler-box b).sure b.value };

    ghost answer = { λ b. (ConditionalEventHandler-box b).answer b.value };

    fn handle(
        &self,
        alloc: Global,
        evt: &Event,
        n: RepeatCount,
        positive: bool,
        ctx: &EventContext<'_>,
    ) -> Result<Option<Cmd>> {
        (**self).handle(alloc, evt, n, positive, ctx)
    }
}

/// A handler that has no command for any key: for bindings of nothing but commands.
#[derive(Drop)]
pub struct NoHandler;

impl ConditionalEventHandler for NoHandler {
    ghost sure = { λ handler. true };

    ghost answer = { λ handler asked. None };

    fn handle(
        &self,
        _alloc: Global,
        _evt: &Event,
        _n: RepeatCount,
        _positive: bool,
        _ctx: &EventContext<'_>,
    ) -> Result<Option<Cmd>> {
        Ok(None)
    }
}

/// What an input event is bound to.
///
/// Handlers are of any types, each in a box. A program whose handlers are all of one type can name
/// it instead, and one that binds commands alone names `NoHandler`.
#[derive(Drop)]
pub enum EventHandler<C = Box<dyn ConditionalEventHandler>> {
    /// The same command at each moment.
    Simple(Cmd),
    /// A command that may depend on the moment.
    Conditional(C),
}

impl<C> From<Cmd> for EventHandler<C> {
    ghost from_gives = { λ command handler. handler ≡ Simple command };

    fn from(command: Cmd) -> EventHandler<C> {
        EventHandler::Simple(command)
    }
}
