//! A helper that is put together from parts.

use crate::completion::Completer;
use crate::context::Context;
use crate::helper::Helper;
use crate::highlight::{CmdKind, Highlighter, SteadyHighlighter};
use crate::hint::Hinter;
use crate::history::History;
use crate::validate::{ValidationContext, ValidationResult, Validator};
use line_buffer::{Changeset, LineBuffer};
use line_config::{CompletionType, Result};
use std::alloc::Global;
use std::borrow::CowStr;

/// A helper of four parts, each of which does what it does alone. Where one is `()`, nothing is
/// completed, hinted at, lit or refused.
#[derive(Drop)]
pub struct Parts<
    C: Completer + Drop,
    N: Hinter + Drop,
    L: SteadyHighlighter + Drop,
    V: Validator + Drop,
> {
    /// Completes a part of the line.
    pub completer: C,
    /// Offers the hints.
    pub hinter: N,
    /// Adds the colors.
    pub highlighter: L,
    /// Says whether a line may be submitted.
    pub validator: V,
}

impl<
    C: Completer + Drop,
    N: Hinter + Drop,
    L: SteadyHighlighter + Drop,
    V: Validator + Drop,
> Completer for Parts<C, N, L, V> {
    type Candidate = C::Candidate;

    ghost sure = { λ parts. C.sure parts.completer };

    ghost completion_at = { λ parts. C.completion_at parts.completer };

    ghost updated = { λ parts. C.updated parts.completer };

    fn complete<S: History>(
        &self,
        alloc: Global,
        line: &str,
        pos: usize,
        ctx: &Context<'_, S>,
    ) -> Result<(usize, Vec<C::Candidate>)> {
        self.completer.complete(alloc, line, pos, ctx)
    }

    fn update(
        &self,
        line: &mut LineBuffer,
        start: usize,
        elected: &str,
        changes: &mut Changeset,
    ) -> Result<()> {
        self.completer.update(line, start, elected, changes)
    }
}

impl<C: Completer + Drop, N: Hinter + Drop, L: SteadyHighlighter + Drop, V: Validator + Drop> Hinter
    for Parts<C, N, L, V> {
    type Hint = N::Hint;

    ghost sure = { λ parts. N.sure parts.hinter };

    ghost hint_at = { λ parts. N.hint_at parts.hinter };

    fn hint<S: History>(
        &self,
        alloc: Global,
        line: &str,
        pos: usize,
        ctx: &Context<'_, S>,
    ) -> Result<Option<N::Hint>> {
        self.hinter.hint(alloc, line, pos, ctx)
    }
}

impl<
    C: Completer + Drop,
    N: Hinter + Drop,
    L: SteadyHighlighter + Drop,
    V: Validator + Drop,
> Highlighter for Parts<C, N, L, V> {
    ghost sure = { λ parts. L.sure parts.highlighter };

    ghost highlighted = { λ parts. L.highlighted parts.highlighter };

    ghost highlighted_prompt = { λ parts. L.highlighted_prompt parts.highlighter };

    ghost highlighted_hint = { λ parts. L.highlighted_hint parts.highlighter };

    ghost highlighted_candidate = { λ parts. L.highlighted_candidate parts.highlighter };

    ghost lights = { λ parts. L.lights parts.highlighter };

    ghost steady = { λ parts. record parts { highlighter = L.steady parts.highlighter } };

    fn highlight<'l>(&self, alloc: Global, line: &'l str, pos: usize) -> Result<CowStr<'l>> {
        self.highlighter.highlight(alloc, line, pos)
    }

    fn highlight_prompt<'b, 's: 'b, 'p: 'b>(
        &'s self,
        alloc: Global,
        prompt: &'p str,
        default: bool,
    ) -> Result<CowStr<'b>> {
        self.highlighter.highlight_prompt(alloc, prompt, default)
    }

    fn highlight_hint<'h>(&self, alloc: Global, hint: &'h str) -> Result<CowStr<'h>> {
        self.highlighter.highlight_hint(alloc, hint)
    }

    fn highlight_candidate<'c>(
        &self,
        alloc: Global,
        candidate: &'c str,
        completion: CompletionType,
    ) -> Result<CowStr<'c>> {
        self.highlighter
            .highlight_candidate(alloc, candidate, completion)
    }

    fn highlight_char(&mut self, line: &str, pos: usize, kind: CmdKind) -> bool {
        self.highlighter.highlight_char(line, pos, kind)
    }
}

impl<
    C: Completer + Drop,
    N: Hinter + Drop,
    L: SteadyHighlighter + Drop,
    V: Validator + Drop,
> Validator for Parts<C, N, L, V> {
    ghost sure = { λ parts. V.sure parts.validator };

    ghost verdict_at = { λ parts. V.verdict_at parts.validator };

    ghost checks_typing = { λ parts. V.checks_typing parts.validator };

    fn validate(&self, alloc: Global, ctx: &ValidationContext<'_>) -> Result<ValidationResult> {
        self.validator.validate(alloc, ctx)
    }

    fn validate_while_typing(&self) -> bool {
        self.validator.validate_while_typing()
    }
}

impl<C: Completer + Drop, N: Hinter + Drop, L: SteadyHighlighter + Drop, V: Validator + Drop> Helper
    for Parts<C, N, L, V> {
    ghost use Rattle.std.proofs.Common.{ap};

    ghost hints_kept = { λ _ _ same. ap (λ parts. N.hint_at parts.hinter) same };

    ghost verdicts_kept = { λ _ _ same. ap (λ parts. V.verdict_at parts.validator) same };

    ghost lights_kept = { λ one other same. L.lights_steady one.highlighter other.highlighter
        (ap (λ parts. parts.highlighter) same) };

    ghost completions_kept = { λ _ _ same. ap (λ parts. C.completion_at parts.completer) same };

    ghost updates_kept = { λ _ _ same. ap (λ parts. C.updated parts.completer) same };

    ghost hinter_kept = { λ _ _ same. ap (λ parts. N.sure parts.hinter) same };

    ghost validator_kept = { λ _ _ same. ap (λ parts. V.sure parts.validator) same };

    ghost completer_kept = { λ _ _ same. ap (λ parts. C.sure parts.completer) same };
}
