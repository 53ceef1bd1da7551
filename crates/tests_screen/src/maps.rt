//! Bindings as a map, and key sequences that share their beginnings. Run with any one allocation
//! refused, `forty_keys_are_bound_or_none` passes: it looks at what is left, or the refusal came
//! before the call.

mod pairs;

use self::Does::{Becomes, Binds, Finds, Starts};
use self::On::{Each, Keys, Mouse};
use crate::{holds, sure};
use line_config::{ReadlineError, Result};
use line_editor::Bindings;
use line_editor::binding::{Event, EventHandler};
use line_keys::cmd::Cmd;
use line_keys::keys::{KeyCode, KeyEvent, Modifiers};
use std::alloc::Global;
use std::process::Abort;

/// An event.
#[derive(Drop)]
enum On {
    Each,
    Mouse,
    /// Keys one after another: those that a text writes, where a letter x stands for that letter
    /// with Ctrl; and after them so many of 500 different keys, from the one of a number on. The
    /// next 500 are these again.
    Keys(&'static str, usize, usize),
}

/// The key of a letter.
fn typed(c: char) -> KeyEvent {
    let mods = if c == 'X' || c == 'x' {
        Modifiers::CTRL
    } else {
        Modifiers::NONE
    };
    KeyEvent(KeyCode::Char(c), mods)
}

/// The key of a number.
fn numbered(i: usize) -> KeyEvent {
    let mods = if i % 500 < 250 {
        Modifiers::NONE
    } else {
        Modifiers::CTRL
    };
    KeyEvent(KeyCode::F((i % 250) as u8), mods)
}

fn event(alloc: Global, on: &On) -> Result<Event> {
    let (text, from, len) = match on {
        Each => return Ok(Event::Any),
        Mouse => return Ok(Event::Mouse),
        Keys(text, from, len) => (*text, *from, *len),
    };
    let mut keys = Vec::new(alloc);
    for c in text.chars() {
        keys.push(typed(c))?;
    }
    for i in from..from.saturating_add(len) {
        keys.push(numbered(i))?;
    }
    Ok(Event::KeySeq(keys))
}

/// The number that an event is bound to: how often its command types an x.
fn number(handler: Option<&EventHandler>) -> Option<u16> {
    match handler {
        Some(EventHandler::Simple(Cmd::SelfInsert(n, 'x'))) => Some(*n),
        _ => None,
    }
}

/// What is done with a map: another one is begun; an event is bound to a number; or it is looked
/// up, and is or begins a bound one, or not. Or it is copied, and its normal form is another event.
#[derive(Drop)]
enum Does {
    Starts,
    Binds(u16),
    Finds(bool),
    Becomes(On),
}

/// What is done with an event, the number that the map answers for it, and how many nodes the map
/// has then.
type Step = (Does, On, Option<u16>, usize);

const STEPS: &[Step] = &[
    (Starts, Each, None, 0),
    (Finds(false), Keys("", 0, 0), None, 0),
    (Binds(1), Keys("Xa", 0, 0), None, 2),
    (Binds(2), Keys("Xbc", 0, 0), None, 4),
    (Binds(3), Mouse, None, 4),
    (Finds(true), Keys("", 0, 0), None, 4),
    (Finds(true), Keys("X", 0, 0), None, 4),
    (Finds(true), Keys("Xa", 0, 0), Some(1), 4),
    (Finds(true), Keys("Xb", 0, 0), None, 4),
    (Finds(true), Keys("Xbc", 0, 0), Some(2), 4),
    (Finds(false), Keys("Xbca", 0, 0), None, 4),
    (Finds(false), Keys("Xc", 0, 0), None, 4),
    (Finds(false), Keys("a", 0, 0), None, 4),
    (Finds(false), Each, None, 4),
    (Finds(true), Mouse, Some(3), 4),
    // The old handler comes back.
    (Starts, Each, None, 0),
    (Binds(1), Keys("Xa", 0, 0), None, 2),
    (Binds(2), Keys("Xa", 0, 0), Some(1), 2),
    (Binds(3), Keys("Xa", 0, 0), Some(2), 2),
    (Finds(true), Keys("Xa", 0, 0), Some(3), 2),
    // Nodes are shared.
    (Starts, Each, None, 0),
    (Binds(1), Each, None, 0),
    (Binds(1), Keys("", 0, 0), None, 0),
    (Binds(1), Keys("Xa", 0, 0), None, 2),
    (Binds(1), Keys("Xbc", 0, 0), None, 4),
    (Binds(1), Keys("Xa", 0, 0), Some(1), 4),
    (Binds(1), Mouse, None, 4),
    (Binds(1), Keys("X", 0, 0), None, 4),
    (Binds(1), Keys("a", 0, 0), None, 5),
    // A thousand keys are bound at once.
    (Starts, Each, None, 0),
    (Binds(1), Keys("", 0, 1000), None, 1000),
    (Finds(true), Keys("", 0, 1000), Some(1), 1000),
    // Events are copied and put into normal form.
    (Starts, Each, None, 0),
    (Becomes(Keys("Xa", 0, 0)), Keys("xa", 0, 0), None, 0),
    (Becomes(Each), Each, None, 0),
    (Becomes(Mouse), Mouse, None, 0),
];

/// Whether the copy of an event is that event, and this is its normal form.
fn is_copied(alloc: Global, on: &On, normal: &On) -> Result<bool> {
    let original = event(alloc, on)?;
    let copy = original.clone(alloc)?;
    let is_same = copy == original;
    let is_normal = copy.normalize() == event(alloc, normal)?;
    Ok(is_same && is_normal)
}

/// Binds an event to a number, and answers the one that it had. Where memory runs out, the number
/// of nodes is as it was.
fn binds(
    rt: &impl Abort,
    alloc: Global,
    bindings: &mut Bindings,
    on: &On,
    n: u16,
) -> Result<Option<u16>> {
    let event = event(alloc, on)?;
    let before = bindings.nodes();
    match bindings.insert(event, EventHandler::from(Cmd::SelfInsert(n, 'x'))) {
        Ok(old) => Ok(number(old.as_ref())),
        Err(error) => {
            holds(rt, bindings.nodes() == before, "nodes", before);
            Err(error)
        }
    }
}

/// Does a step.
fn takes(rt: &impl Abort, alloc: Global, bindings: &mut Bindings, step: &Step) -> Result<()> {
    let (does, on, wanted, nodes) = step;
    let is_so = match does {
        Starts => {
            *bindings = Bindings::new(alloc);
            wanted.is_none()
        }
        Binds(n) => binds(rt, alloc, bindings, on, *n)? == *wanted,
        Finds(begins) => {
            let event = event(alloc, on)?;
            number(bindings.get(&event)) == *wanted && bindings.begins(&event) == *begins
        }
        Becomes(normal) => is_copied(alloc, on, normal)? && wanted.is_none(),
    };
    let left = bindings.nodes();
    holds(rt, is_so && left == *nodes, "nodes", left);
    Ok(())
}

/// Each of the 500 keys after these others is bound to a number of its own, and then found.
fn share_a_node(rt: &impl Abort, alloc: Global, front: &'static str) {
    let mut bindings = Bindings::new(alloc);
    for i in 0..1000u16 {
        let own = i % 500;
        let (does, wanted) = if i < 500 {
            (Binds(own), None)
        } else {
            (Finds(true), Some(own))
        };
        let keys = Keys(front, usize::from(own), 1);
        let nodes = front.len().saturating_add(usize::from(i.min(499)));
        let step = (does, keys, wanted, nodes.saturating_add(1));
        sure(rt, takes(rt, alloc, &mut bindings, &step));
    }
}

/// Events are bound, found and copied; and five hundred keys share a node.
#[test]
fn events_are_keys_of_a_map(rt: HostRuntime) {
    let mut bindings = Bindings::new(rt.alloc());
    for step in STEPS {
        sure(&rt, takes(&rt, rt.alloc(), &mut bindings, step));
    }
    share_a_node(&rt, rt.alloc(), "");
    share_a_node(&rt, rt.alloc(), "X");
}

/// How many of forty keys are bound to 1, and how many to 2; or 0, where none are.
type Bound = (usize, usize);

/// How many keys are bound to a number, what is bound before that, and then. Where nothing is bound
/// before, a new map is begun.
type Binding = (usize, u16, Bound, Bound);

const FORTY: &[Binding] = &[
    (3, 1, (0, 0), (3, 0)),
    (40, 2, (3, 0), (3, 40)),
    (40, 2, (0, 0), (0, 40)),
];

/// What is bound of forty keys is found, and nothing else.
fn are_found(rt: &impl Abort, alloc: Global, bindings: &mut Bindings, bound: Bound) -> Result<()> {
    let (first, second) = bound;
    let longest = first.max(second);
    for len in 0..41 {
        let wanted = if len == 0 {
            None
        } else if len == first {
            Some(1)
        } else if len == second {
            Some(2)
        } else {
            None
        };
        let leads = longest > 0 && len <= longest;
        let step = (Finds(leads), Keys("", 0, len), wanted, longest);
        takes(rt, alloc, bindings, &step)?;
    }
    Ok(())
}

/// Binds beginnings of forty keys one after another; where memory runs out, the map is as it was.
fn forty(rt: &impl Abort, alloc: Global) -> Result<()> {
    let mut bindings = Bindings::new(alloc);
    for (len, n, before, after) in FORTY {
        if before.0 == 0 && before.1 == 0 {
            bindings = Bindings::new(alloc);
        }
        let step = (Binds(*n), Keys("", 0, *len), None, *len);
        let outcome = takes(rt, alloc, &mut bindings, &step);
        let bound = if outcome.is_ok() { *after } else { *before };
        are_found(rt, alloc, &mut bindings, bound)?;
        outcome?;
    }
    Ok(())
}

/// Memory runs out no more than once: then they are bound anew.
#[test]
fn forty_keys_are_bound_or_none(rt: HostRuntime) {
    let outcome = match forty(&rt, rt.alloc()) {
        Err(ReadlineError::Memory) => forty(&rt, rt.alloc()),
        outcome => outcome,
    };
    outcome.expect(&rt, "no other error");
}
