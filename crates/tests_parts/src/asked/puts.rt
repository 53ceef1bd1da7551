//! Completers that put an elected text into the line, and may fail.
ghost use Rattle.std.specs.Prelude.{false};

use super::{FAULTS, broken_history, plain, told};
use crate::report::shown;
use line_buffer::{Changeset, LineBuffer};
use line_config::Result;
use line_parts::{Completer, Context, History, offer_nothing, put_to_cursor};
use std::alloc::Global;
use tests_parties::fault::Fault;
use tests_parties::source::Source;

/// Offers nothing, and puts an elected text into the line; each of the two may fail.
#[derive(Drop)]
struct Stubborn {
    completes: Option<Fault>,
    updates: Option<Fault>,
}

impl Completer for Stubborn {
    type Candidate = &'static str;

    ghost sure = { λ _. false };

    fn complete<S: History>(
        &self,
        alloc: Global,
        line: &str,
        pos: usize,
        _ctx: &Context<'_, S>,
    ) -> Result<(usize, Vec<&'static str>)> {
        match self.completes {
            Some(fault) => fault.answer(),
            None => Ok(offer_nothing(alloc, line, pos)),
        }
    }

    fn update(
        &self,
        line: &mut LineBuffer,
        start: usize,
        elected: &str,
        changes: &mut Changeset,
    ) -> Result<()> {
        match self.updates {
            Some(fault) => fault.answer(),
            None => put_to_cursor(line, start, elected, changes),
        }
    }
}

/// What a call gives. It names the completer, which stands alone, in a box or in two, and its
/// faults to complete and to update.
pub fn says(alloc: Global, source: &mut Source<'_>) -> Result<Option<String>> {
    let call = source.word().unwrap_or("");
    let stubborn = Stubborn {
        completes: source.named(FAULTS),
        updates: source.named(FAULTS),
    };
    match call {
        "unit" => elects(alloc, &(), source),
        "boxed_unit" => elects(alloc, &Box::new(alloc, ())?, source),
        "alone" => elects(alloc, &stubborn, source),
        "boxed" => elects(alloc, &Box::new(alloc, stubborn)?, source),
        "twice_boxed" => elects(alloc, &Box::new(alloc, Box::new(alloc, stubborn)?)?, source),
        _ => Ok(None),
    }
}

/// Where a completer begins and how many candidates it has, beside a history of which each call
/// fails; how it takes an elected text at the start of the line; and the line, its cursor and how
/// many changes there are then.
fn elects<C: Completer>(
    alloc: Global,
    completer: &C,
    source: &mut Source<'_>,
) -> Result<Option<String>> {
    let owned = plain(alloc, source)?;
    let (text, pos) = (owned.as_str(), source.number());
    let elected = plain(alloc, source)?;
    if !text.is_char_boundary(0) || !text.is_char_boundary(pos) {
        return Ok(None);
    }
    let history = broken_history(alloc);
    let offered = match completer.complete(alloc, text, pos, &Context::new(&history)) {
        Ok((start, candidates)) => Ok((start, candidates.len())),
        Err(error) => Err(error),
    };
    let mut line = LineBuffer::init(alloc, text, pos)?;
    let mut changes = Changeset::new(alloc);
    let outcome = completer.update(&mut line, 0, elected.as_str(), &mut changes);
    let left = (line.as_str(), line.pos(), changes.len());
    shown(alloc, (told(offered)?, told(outcome)?, left))
}
