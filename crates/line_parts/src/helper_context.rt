//! A helper and the context that it is asked in.
ghost use Rattle.std.specs.Prelude.{◌≡◌, ◌≤◌, ◌&&◌, true, false};
ghost use Rattle.std.specs.Prelude.{is_some, length, map, option_map, IfOk, IfSome, MatchOption, Some};
ghost use Rattle.line_config.specs.Error.{FaultsOnly, IoOnlyIf};
ghost use Rattle.line_parts.specs.Asks.{for_hint, for_look_up, for_verdict, is_sure};
ghost use Rattle.line_parts.specs.Consulted.{Unchanged};
ghost use Rattle.line_parts.specs.Candidate.{BeginsIn, offer_of};
ghost use Rattle.line_parts.specs.Environment.{hint_for, shown_at, verdict_on};
ghost use Rattle.line_parts.specs.Helped.{environment_by, sure_by};
ghost use Rattle.line_parts.specs.Hint.{Suggests, suggestion_of, visible};
ghost use Rattle.line_parts.specs.Verdict.{verdict_of};

use crate::completion::Completer;
use crate::consulted::Consulted;
use crate::context::Context;
use crate::helper::Helper;
use crate::highlight::{CmdKind, Highlighter};
use crate::hint::{Hint, Hinter};
use crate::history::History;
use crate::validate::{ValidationContext, ValidationResult, Validator};
use line_buffer::LineBuffer;
use line_config::Result;
use std::alloc::Global;

/// A helper, if there is one, and the context that it is asked in: the history, and the index of the
/// line in it.
pub struct HelperContext<'out, H: Helper, S: History> {
    helper: Option<&'out mut H>,
    ctx: Context<'out, S>,
}

impl<H: Helper, S: History> Drop for HelperContext<'_, H, S> {
    fn drop(self) {
        let HelperContext { helper: _, ctx: _ } = self;
    }
}

impl<'out, H: Helper, S: History> Consulted for HelperContext<'out, H, S> {
    ghost environment = { λ p. environment_by H.hint_at H.verdict_at H.lights H.Completer
        p.helper (S.lines p.ctx.history) };

    ghost index = { λ p. p.ctx.index };

    ghost sure = { λ p.
        sure_by H.Hinter.sure H.Validator.sure H.Completer.sure
        (S.sure p.ctx.history) p.helper };

    ghost loan = { λ p. option_map (λ h. h.ghost_name) p.helper };
}

// Returns the hint, or None where it displays nothing.
fn visible_hint<T: Hint + Drop>(hint: Option<T>) -> Option<T>
    ensures { option_map (suggestion_of T.Hint) result
        ≡ visible (option_map (suggestion_of T.Hint) hint) }
{
    match hint {
        Some(h) if h.display().is_empty() => None,
        other => other,
    }
}

impl<'out, H: Helper, S: History> HelperContext<'out, H, S> {
    /// Returns those who are asked about a line at the position `ctx` in the history.
    pub fn new(helper: Option<&'out mut H>, ctx: Context<'out, S>) -> Self
        ensures environment { ⟦<Self as Consulted>⟧.environment result ≡ environment_by
            H.hint_at H.verdict_at H.lights H.Completer helper.entry (S.lines ctx.entry.history) }
        ensures index { ⟦<Self as Consulted>⟧.index result ≡ ctx.entry.index }
        ensures sure { ⟦<Self as Consulted>⟧.sure result ≡ sure_by H.Hinter.sure H.Validator.sure
            H.Completer.sure (S.sure ctx.entry.history) helper.entry }
        ensures loan { ⟦<Self as Consulted>⟧.loan result
            ≡ option_map (λ h. h.ghost_name) helper.entry }
    {
        HelperContext { helper, ctx }
    }

    /// Returns the helper, if there is one, and the position in the history, which answer as they
    /// did.
    pub fn release(self) -> (Option<&'out mut H>, Context<'out, S>)
        ensures environment { ⟦<Self as Consulted>⟧.environment self.entry ≡ environment_by
            H.hint_at H.verdict_at H.lights H.Completer result.0 (S.lines result.1.history) }
        ensures index { result.1.index ≡ ⟦<Self as Consulted>⟧.index self.entry }
        ensures sure { ⟦<Self as Consulted>⟧.sure self.entry ≡ sure_by H.Hinter.sure
            H.Validator.sure H.Completer.sure (S.sure result.1.history) result.0 }
        ensures loan { option_map (λ h. h.ghost_name) result.0
            ≡ ⟦<Self as Consulted>⟧.loan self.entry }
    {
        let HelperContext { helper, ctx } = self;
        (helper, ctx)
    }

    /// Returns the helper's hint for `line`, or None where there is no hint or it displays nothing.
    /// Without a helper there is none.
    ///
    /// # Errors
    /// `Io` if the hinter or the history fails, and `Memory` if memory runs out. No `Io` comes if
    /// both are sure.
    #[tactic(auto, unfolding(crate::specs::Helped::hint_by, crate::specs::Helped::is_sure_with))]
    pub fn hint(&self, alloc: Global, line: &LineBuffer) -> Result<Option<H::Hint>>
        ensures answer { let p = ⟦<Self as Consulted>⟧ in Suggests H.Hint.Hint result
            (hint_for (p.environment self.now) line.now.text line.now.cursor (p.index self.now)) }
        ensures io { IoOnlyIf result
            (is_sure (⟦<Self as Consulted>⟧.sure self.now) for_hint ≡ false) }
        ensures faults { FaultsOnly result }
    {
        match &self.helper {
            Some(h) => Ok(visible_hint(h.hint(alloc, line.as_str(), line.pos(), &self.ctx)?)),
            None => Ok(None),
        }
    }

    /// Returns where the part of `line` that can be completed begins, which ends at the cursor, and
    /// the helper's candidates for it. Without a helper there are none.
    ///
    /// # Errors
    /// `Io` if the completer or the history fails, and `Memory` if memory runs out. No `Io` comes if
    /// both are sure.
    #[tactic(auto, unfolding(crate::specs::Helped::completion_by, crate::specs::Helped::is_sure_with))]
    pub fn complete(&self, alloc: Global, line: &LineBuffer) -> Result<(usize, Vec<H::Candidate>)>
        ensures start { IfOk result (λ r. BeginsIn line.now.text line.now.cursor r.0) }
        ensures answer { let p = ⟦<Self as Consulted>⟧ in let w = p.environment self.now in
            IfOk result (λ r.
            record { start = r.0; offers = map (offer_of H.Candidate.Candidate) r.1.items }
            ≡ w.completion_at (shown_at w line.now.text line.now.cursor (p.index self.now))) }
        ensures io { IoOnlyIf result
            ((⟦<Self as Consulted>⟧.sure self.now).completions ≡ false) }
        ensures faults { FaultsOnly result }
    {
        let text = line.as_str();
        match &self.helper {
            Some(h) => h.complete(alloc, text, line.pos(), &self.ctx),
            None => Ok((0, Vec::new(alloc))),
        }
    }

    /// Returns whether there is a helper, which validates lines.
    #[tactic(auto, unfolding(crate::specs::Helped::verdict_by))]
    pub fn has_validator(&self) -> bool
        ensures { result ≡ is_some (⟦<Self as Consulted>⟧.environment self.now).verdict_at }
    {
        self.helper.is_some()
    }

    /// Returns the helper's validation result for the text of `line`. Without a helper the text is
    /// valid.
    ///
    /// # Errors
    /// `Io` if the validator fails, and `Memory` if memory runs out. No `Io` comes if the validator
    /// is sure.
    #[tactic(auto, unfolding(crate::specs::Helped::is_sure_by, crate::specs::Helped::verdict_by))]
    pub fn validate(&self, alloc: Global, line: &LineBuffer) -> Result<ValidationResult>
        ensures answer { IfOk result (λ r. verdict_of r
            ≡ verdict_on (⟦<Self as Consulted>⟧.environment self.now) line.now.text) }
        ensures io { IoOnlyIf result
            (is_sure (⟦<Self as Consulted>⟧.sure self.now) for_verdict ≡ false) }
        ensures faults { FaultsOnly result }
    {
        match &self.helper {
            Some(h) => h.validate(alloc, &ValidationContext::new(line.as_str())),
            None => Ok(ValidationResult::Valid(None)),
        }
    }

    /// Returns whether the helper asks for a full drawing of `line` for its colors. `kind` says why
    /// it is asked. Without a helper the answer is false. This changes no hint, no validation
    /// result and no later answer of this call.
    #[tactic(auto, unfolding(crate::specs::Helped::hint_by, crate::specs::Helped::is_sure_with, crate::specs::Helped::is_sure_by, crate::specs::Helped::lights_by, crate::specs::Helped::verdict_by, crate::specs::Helped::completion_by, crate::specs::Helped::update_by))]
    pub fn highlight_char(&mut self, line: &LineBuffer, kind: CmdKind) -> bool
        ensures lit { result ≡ (⟦<Self as Consulted>⟧.environment self.old).lights
            line.now.text line.now.cursor kind }
        ensures unchanged { Unchanged ⟦<Self as Consulted>⟧ self.old self.new }
    {
        match &mut self.helper {
            Some(h) => h.highlight_char(line.as_str(), line.pos(), kind),
            None => false,
        }
    }

    /// Returns the helper, if there is one: its answers are those that an editor gets here.
    #[tactic(auto, unfolding(crate::specs::Helped::hint_by, crate::specs::Helped::verdict_by, crate::specs::Helped::lights_by, crate::specs::Helped::update_by, crate::specs::Helped::is_sure_with))]
    pub fn helper(&self) -> Option<&H>
        ensures some { is_some result
            ≡ is_some (⟦<Self as Consulted>⟧.environment self.now).verdict_at }
        ensures answers { let w = ⟦<Self as Consulted>⟧.environment self.now in
            IfSome result (λ h. (w.hint_at ≡ H.hint_at h.now)
            × (w.verdict_at ≡ Some (H.verdict_at h.now)) × (w.lights ≡ H.lights h.now)) }
        ensures updates { let w = ⟦<Self as Consulted>⟧.environment self.now in
            MatchOption result (w.updated ≡ (λ written _ _. written))
            (λ h. w.updated ≡ H.updated h.now) }
        ensures sure { (⟦<Self as Consulted>⟧.sure self.now).completions ≡ true
            → IfSome result (λ h. H.Completer.sure h.now ≡ true) }
    {
        match &self.helper {
            Some(h) => Some(h),
            None => None,
        }
    }

    /// Returns the helper if there is one and colors are on.
    #[tactic(auto, unfolding(crate::specs::Helped::verdict_by))]
    pub fn highlighter(&self, colors: bool) -> Option<&H>
        ensures { is_some result
            ≡ (colors && is_some (⟦<Self as Consulted>⟧.environment self.now).verdict_at) }
    {
        match &self.helper {
            Some(h) if colors => Some(h),
            _ => None,
        }
    }

    /// Returns the history.
    pub fn history(&self) -> &'out S
        ensures lines { S.lines result.now ≡ (⟦<Self as Consulted>⟧.environment self.now).lines }
        ensures sure { is_sure (⟦<Self as Consulted>⟧.sure self.now) for_look_up ≡ true
            → S.sure result.now ≡ true }
    {
        self.ctx.history()
    }

    /// Returns the history index, which is at most the number of the history's lines.
    pub fn history_index(&self) -> usize
        ensures value { result ≡ ⟦<Self as Consulted>⟧.index self.now }
        ensures within { result ≤ length (⟦<Self as Consulted>⟧.environment self.now).lines }
    {
        self.ctx.history_index()
    }

    /// Sets the history index.
    pub fn set_history_index(&mut self, index: usize)
        requires { index ≤ length (⟦<Self as Consulted>⟧.environment self.old).lines }
        ensures index { ⟦<Self as Consulted>⟧.index self.new ≡ index }
        ensures environment { let p = ⟦<Self as Consulted>⟧ in
            p.environment self.new ≡ p.environment self.old }
        ensures sure { let p = ⟦<Self as Consulted>⟧ in p.sure self.new ≡ p.sure self.old }
        ensures loan { let p = ⟦<Self as Consulted>⟧ in p.loan self.new ≡ p.loan self.old }
    {
        self.ctx.set_history_index(index);
    }
}
