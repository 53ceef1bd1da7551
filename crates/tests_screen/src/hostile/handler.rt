//! A handler of which a call can fail.
ghost use Rattle.std.specs.Prelude.{Some, None, if◌then◌else◌};
ghost use Rattle.line_buffer.specs.declared.movement.Movement.TheVariants.{BeginningOfLine};
ghost use Rattle.line_keys.specs.Command.{move};

use line_buffer::{Movement, RepeatCount};
use line_config::Result;
use line_editor::binding::{ConditionalEventHandler, Event, EventContext};
use line_keys::cmd::Cmd;
use std::alloc::Global;
use tests_parties::countdown::Countdown;

/// A handler that answers a move to the line's beginning, or nothing, and counts its calls, one of
/// which may fail.
#[derive(Drop)]
pub(crate) struct Handler {
    pub(crate) moves: bool,
    pub(crate) countdown: Countdown,
}

impl ConditionalEventHandler for Handler {
    ghost use Rattle.std.specs.Prelude.{false};

    ghost sure = { λ _. false };

    ghost answer = { λ handler _. if handler.moves then Some (move BeginningOfLine) else None };

    fn handle(
        &self,
        _alloc: Global,
        _evt: &Event,
        _n: RepeatCount,
        _positive: bool,
        _ctx: &EventContext<'_>,
    ) -> Result<Option<Cmd>> {
        self.countdown.call()?;
        if self.moves {
            return Ok(Some(Cmd::Move(Movement::BeginningOfLine)));
        }
        Ok(None)
    }
}
