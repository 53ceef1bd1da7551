//! The map of a program's bindings.
ghost use Rattle.std.specs.Prelude.{◌≡◌, [], IfOk, OnErr, OnOk, option_map};
ghost use Rattle.line_config.specs.Error.{MemoryOnly};
ghost use Rattle.line_input.specs.Binding.{Rebinds, begins, bound_of, handled, handler_of, leads_on, node_count};
ghost use Rattle.line_input.specs.Event.{chord_of, keys};
ghost use Rattle.line_input.specs.Keymap.{key_handler};

use crate::binding::{ConditionalEventHandler, Event, EventHandler};
use line_config::Result;
use line_keys::keys::KeyEvent;
use std::alloc::Global;
use tree::KeyTree;

mod tree;

/// The commands that a program binds to events: a map from input event to handler.
///
/// A key is looked up as it is read, and the map keeps an event as it was bound. Where a reader
/// returns its keys in normal form, bind events in normal form too (`Event::normalize`).
///
/// Key sequences are kept as a tree, in which those that begin with the same keys share the nodes
/// of these keys. A look-up walks from node to node by its keys, and looks at no more than the
/// children of each.
pub struct Bindings<C = Box<dyn ConditionalEventHandler>> {
    any: Option<EventHandler<C>>,
    mouse: Option<EventHandler<C>>,
    sequences: KeyTree<EventHandler<C>>,
}

impl<C: Drop> Drop for Bindings<C> {
    fn drop(self) {
        let Bindings {
            any: _,
            mouse: _,
            sequences: _,
        } = self;
    }
}

impl Bindings {
    /// Returns a map without a binding, for handlers in boxes. It grows from `alloc`.
    pub fn new(alloc: Global) -> Bindings
        ensures { bound_of ⟦<Box<dyn ConditionalEventHandler> as ConditionalEventHandler>⟧ result
            ≡ [] }
    {
        Bindings::of_handlers(alloc)
    }
}

impl<C: ConditionalEventHandler> Bindings<C> {
    /// Returns a map without a binding, for handlers of one type. It grows from `alloc`.
    pub fn of_handlers(alloc: Global) -> Bindings<C>
        ensures { bound_of C.ConditionalEventHandler result ≡ [] }
    {
        Bindings {
            any: None,
            mouse: None,
            sequences: KeyTree::new(alloc),
        }
    }

    /// Binds an input event to a handler. Returns the handler that it was bound to before, if it
    /// was.
    ///
    /// # Errors
    /// `Memory` if memory runs out. The map is then as it was.
    pub fn insert(
        &mut self,
        event: Event,
        handler: EventHandler<C>,
    ) -> Result<Option<EventHandler<C>>>
        ensures bound { let g = C.ConditionalEventHandler in OnOk result
            (Rebinds (bound_of g self.old) (bound_of g self.new) (chord_of event)
            (handled g handler)) }
        ensures old { let g = C.ConditionalEventHandler in IfOk result (λ old.
            option_map (handled g) old ≡ handler_of (bound_of g self.old) (chord_of event)) }
        ensures err { OnErr result (self.new ≡ self.old) }
        ensures memory { MemoryOnly result }
    {
        match event {
            Event::Any => Ok(self.any.replace(handler)),
            Event::KeySeq(keys) => self.sequences.insert(&keys, handler),
            Event::Mouse => Ok(self.mouse.replace(handler)),
        }
    }

    /// Returns the handler that an input event is bound to, if it is.
    pub fn get(&self, event: &Event) -> Option<&EventHandler<C>>
        ensures { let g = C.ConditionalEventHandler in
            option_map (λ handler. handled g handler.now) result
            ≡ handler_of (bound_of g self.now) (chord_of event.now) }
    {
        match event {
            Event::Any => self.any.as_ref(),
            Event::KeySeq(keys) => self.of_keys(keys),
            Event::Mouse => self.mouse.as_ref(),
        }
    }

    /// Returns whether an input event is bound, or is keys that a bound sequence begins with.
    pub fn begins(&self, event: &Event) -> bool
        ensures { let g = C.ConditionalEventHandler in
            result ≡ begins (bound_of g self.now) (chord_of event.now) }
    {
        match event {
            Event::KeySeq(keys) => self.leads_on(keys),
            event => self.get(event).is_some(),
        }
    }

    /// Returns the number of different beginnings of the key sequences that are bound. A sequence
    /// is one of its own beginnings, and the empty one is not counted.
    pub fn nodes(&self) -> usize
        ensures { let g = C.ConditionalEventHandler in
            result ≡ node_count (bound_of g self.now) }
    {
        self.sequences.beginnings()
    }

    // Returns whether a bound sequence is these keys, or begins with them.
    pub(crate) fn leads_on(&self, front: &[KeyEvent]) -> bool
        ensures { let g = C.ConditionalEventHandler in
            result ≡ leads_on (bound_of g self.now) front.now }
    {
        self.sequences.leads_on(front)
    }

    // Returns the handler of a key sequence.
    pub(crate) fn of_keys(&self, sequence: &[KeyEvent]) -> Option<&EventHandler<C>>
        ensures { let g = C.ConditionalEventHandler in
            option_map (λ handler. handled g handler.now) result
            ≡ handler_of (bound_of g self.now) (keys sequence.now) }
    {
        self.sequences.get(sequence)
    }

    // Returns the handler of a key: that of its own, or else that of each key.
    pub(crate) fn of_key(&self, key: KeyEvent) -> Option<&EventHandler<C>>
        ensures { let g = C.ConditionalEventHandler in
            option_map (λ handler. handled g handler.now) result
            ≡ key_handler (bound_of g self.now) key }
    {
        match self.of_keys(&[key]) {
            Some(handler) => Some(handler),
            None => self.get(&Event::Any),
        }
    }

    // Where the map grows from.
    pub(crate) fn alloc(&self) -> Global {
        self.sequences.alloc()
    }
}
