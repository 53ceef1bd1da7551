//! The map of bindings beside a list of pairs that answers the same.

use super::number;
use crate::{holds, sure};
use line_editor::Bindings;
use line_editor::binding::{Event, EventHandler};
use line_keys::cmd::Cmd;
use line_keys::keys::{KeyCode, KeyEvent, Modifiers};
use std::alloc::Global;
use std::process::Abort;

/// Events with their numbers, of which the last counts.
type Pairs = Vec<(Event, u16)>;

/// The number of an event, and whether it is there, or is keys that one there begins with.
fn looked_up(pairs: &[(Event, u16)], event: &Event) -> (Option<u16>, bool) {
    let mut found = None;
    let mut begins = false;
    for (own, number) in pairs {
        if own == event {
            found = Some(*number);
        }
        begins = begins
            || match (own, event) {
                (Event::KeySeq(keys), Event::KeySeq(front)) => keys.starts_with(front),
                (own, event) => own == event,
            };
    }
    (found, begins)
}

/// An event out of a number: each key, the mouse, or up to four of three keys.
fn drawn(rt: &impl Abort, alloc: Global, seed: u32) -> Event {
    let kind = (seed >> 8) % 8;
    if kind == 0 {
        return Event::Any;
    }
    if kind == 1 {
        return Event::Mouse;
    }
    let mut keys = Vec::new(alloc);
    let mut rest = seed >> 12;
    for _ in 0..(seed >> 28) % 5 {
        let code = match rest % 3 {
            0 => KeyCode::Tab,
            1 => KeyCode::Enter,
            _ => KeyCode::Char('a'),
        };
        rest /= 3;
        sure(rt, keys.push(KeyEvent(code, Modifiers::NONE)));
    }
    Event::KeySeq(keys)
}

/// Gives an event a number in both, and answers the one that the map had.
fn binds(
    rt: &impl Abort,
    alloc: Global,
    bindings: &mut Bindings,
    pairs: &mut Pairs,
    event: Event,
    own: u16,
) -> Option<u16> {
    let copy = sure(rt, event.clone(alloc));
    sure(rt, pairs.push((copy, own)));
    let handler = EventHandler::from(Cmd::SelfInsert(own, 'x'));
    let old = sure(rt, bindings.insert(event, handler));
    number(old.as_ref())
}

/// Both answer the same of an event. One time in three they give it a number, and answer the one
/// that it had.
fn answer(
    rt: &impl Abort,
    alloc: Global,
    bindings: &mut Bindings,
    pairs: &mut Pairs,
    event: Event,
    own: u16,
) {
    let found = number(bindings.get(&event));
    let (last, begins) = looked_up(pairs, &event);
    let is_same = last == found && begins == bindings.begins(&event);
    holds(rt, is_same, "a look-up", pairs.len());
    if own % 3 == 0 {
        let old = binds(rt, alloc, bindings, pairs, event, own);
        holds(rt, old == found, "a number", pairs.len());
    }
}

/// Events and numbers come of the numbers of a linear congruence, whose upper bits look mixed.
#[test]
fn a_list_of_pairs_answers_the_same(rt: HostRuntime) {
    let alloc = rt.alloc();
    let mut bindings = Bindings::new(alloc);
    let mut pairs: Pairs = Vec::new(alloc);
    let mut last = 7u32;
    for _ in 0..2001 {
        let next = last.wrapping_mul(1_664_525).wrapping_add(1_013_904_223);
        let event = drawn(&rt, alloc, next);
        answer(
            &rt,
            alloc,
            &mut bindings,
            &mut pairs,
            event,
            (last >> 16) as u16,
        );
        last = next;
    }
}
