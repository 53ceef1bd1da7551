//! A completer of what stands after a command.
ghost use Rattle.std.specs.Prelude.{◌≡◌, ◌&&◌, map, take, if◌then◌else◌, IfOk, string_bytes};
ghost use Rattle.line_config.specs.Error.{MemoryOnly};
ghost use Rattle.line_parts.specs.Arguments.{is_argument};

use crate::completion::{Candidate, Completer};
use crate::context::Context;
use crate::history::History;
use ArgumentOrOther::{Argument, Other};
use line_buffer::{Changeset, LineBuffer};
use line_config::Result;
use std::alloc::Global;

/// Completes what stands after a command and a space by one completer, and anything else by
/// another. Only white space may stand before the command.
#[derive(Drop)]
pub struct CommandArguments<A: Completer + Drop, B: Completer + Drop> {
    /// The command.
    pub command: String,
    /// Completes what stands after it.
    pub arguments: A,
    /// Completes anything else.
    pub others: B,
}

/// A candidate of one completer or of another.
#[derive(Drop)]
pub enum ArgumentOrOther<X, Y> {
    /// One for what stands after the command.
    Argument(X),
    /// One for anything else.
    Other(Y),
}

impl<X: Candidate, Y: Candidate> Candidate for ArgumentOrOther<X, Y> {
    ghost use Rattle.line_parts.specs.Arguments.{text_of};

    ghost display_text = { text_of X.display_text Y.display_text };

    ghost replacement_text = { text_of X.replacement_text Y.replacement_text };

    fn display(&self) -> &str {
        match self {
            Argument(candidate) => candidate.display(),
            Other(candidate) => candidate.display(),
        }
    }

    fn replacement(&self) -> &str {
        match self {
            Argument(candidate) => candidate.replacement(),
            Other(candidate) => candidate.replacement(),
        }
    }
}

impl<A: Completer + Drop, B: Completer + Drop> Completer for CommandArguments<A, B> {
    type Candidate = ArgumentOrOther<A::Candidate, B::Candidate>;

    ghost sure = { λ completer. A.sure completer.arguments && B.sure completer.others };

    ghost completion_at = { λ completer shown.
        if is_argument (string_bytes completer.command) (take shown.cursor shown.text)
        then A.completion_at completer.arguments shown
        else B.completion_at completer.others shown };

    ghost updated = { λ completer written start elected.
        if is_argument (string_bytes completer.command) (take written.line.cursor written.line.text)
        then A.updated completer.arguments written start elected
        else B.updated completer.others written start elected };

    fn complete<S: History>(
        &self,
        alloc: Global,
        line: &str,
        pos: usize,
        ctx: &Context<'_, S>,
    ) -> Result<(usize, Vec<Self::Candidate>)> {
        if is_argument(self.command.as_str(), &line[..pos]) {
            let (start, found) = self.arguments.complete(alloc, line, pos, ctx)?;
            return Ok((start, as_arguments(alloc, found)?));
        }
        let (start, found) = self.others.complete(alloc, line, pos, ctx)?;
        Ok((start, as_others(alloc, found)?))
    }

    fn update(
        &self,
        line: &mut LineBuffer,
        start: usize,
        elected: &str,
        changes: &mut Changeset,
    ) -> Result<()> {
        if is_argument(self.command.as_str(), &line.as_str()[..line.pos()]) {
            return self.arguments.update(line, start, elected, changes);
        }
        self.others.update(line, start, elected, changes)
    }
}

/// Returns whether the text before the cursor begins, but for white space, with the command and a
/// space.
fn is_argument(command: &str, before: &str) -> bool
    ensures { result ≡ is_argument command.now before.now }
{
    match before.trim_start().strip_prefix(command) {
        Some(rest) => rest.starts_with(' '),
        None => false,
    }
}

/// Returns candidates for what stands after the command.
fn as_arguments<X: Drop, Y: Drop>(
    alloc: Global,
    found: Vec<X>,
) -> Result<Vec<ArgumentOrOther<X, Y>>>
    ensures each { IfOk result (λ each. each.items ≡ map ArgumentOrOther.Argument found.items) }
    ensures memory { MemoryOnly result }
{
    let mut each = Vec::new(alloc);
    for candidate in found {
        each.push(Argument(candidate))?;
    }
    Ok(each)
}

/// Returns candidates for anything else.
fn as_others<X: Drop, Y: Drop>(alloc: Global, found: Vec<Y>) -> Result<Vec<ArgumentOrOther<X, Y>>>
    ensures each { IfOk result (λ each. each.items ≡ map ArgumentOrOther.Other found.items) }
    ensures memory { MemoryOnly result }
{
    let mut each = Vec::new(alloc);
    for candidate in found {
        each.push(Other(candidate))?;
    }
    Ok(each)
}
