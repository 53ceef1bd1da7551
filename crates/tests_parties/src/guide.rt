//! A helper that hints from the history and checks brackets, and of which a call can fail.
ghost use Rattle.std.specs.Prelude.{true, false, None, option_map, if◌then◌else◌};
ghost use Rattle.line_parts.specs.BracketVerdict.{bracket_verdict};
ghost use Rattle.line_parts.specs.Hint.{suggested};
ghost use Rattle.line_parts.specs.HistoryHint.{history_hint};
ghost use Rattle.line_parts.specs.Verdict.{valid};

use crate::countdown::Countdown;
use crate::fault::{Fault, USUAL};
use line_buffer::{Changeset, LineBuffer};
use line_config::{CompletionType, Result};
use line_parts::{
    CmdKind, Completer, Context, Helper, Highlighter, Hinter, History, HistoryHinter,
    MatchingBracketValidator, ValidationContext, ValidationResult, Validator, offer_nothing,
    put_to_cursor,
};
use std::alloc::Global;
use std::borrow::CowStr;

/// A helper that hints from the history and checks the brackets of a line, each where it is to, and
/// highlights nothing. One of the calls for a hint or a validation result can fail.
#[derive(Drop)]
pub struct Guide {
    hints: bool,
    brackets: bool,
    countdown: Countdown,
}

impl Guide {
    /// A helper that hints, or does not, and checks brackets, or takes each line.
    pub fn new(hints: bool, brackets: bool) -> Guide {
        Guide {
            hints,
            brackets,
            countdown: Countdown::with(0, USUAL),
        }
    }

    /// Its hint or validation result of the number `failing`, from 1 on, fails by this fault; none
    /// does where that is 0.
    pub fn fail_by(&mut self, failing: u64, fault: Fault) {
        self.countdown = Countdown::with(failing, fault);
    }
}

impl Completer for Guide {
    type Candidate = String;

    ghost sure = { λ _. true };

    fn complete<S: History>(
        &self,
        alloc: Global,
        line: &str,
        pos: usize,
        _ctx: &Context<'_, S>,
    ) -> Result<(usize, Vec<String>)> {
        Ok(offer_nothing(alloc, line, pos))
    }

    fn update(
        &self,
        line: &mut LineBuffer,
        start: usize,
        elected: &str,
        changes: &mut Changeset,
    ) -> Result<()> {
        put_to_cursor(line, start, elected, changes)
    }
}

impl Hinter for Guide {
    type Hint = String;

    ghost sure = { λ _. false };

    ghost hint_at = { λ guide shown.
        if guide.hints then option_map suggested (history_hint shown) else None };

    fn hint<S: History>(
        &self,
        alloc: Global,
        line: &str,
        pos: usize,
        ctx: &Context<'_, S>,
    ) -> Result<Option<String>> {
        self.countdown.call()?;
        if self.hints {
            HistoryHinter::new().hint(alloc, line, pos, ctx)
        } else {
            Ok(None)
        }
    }
}

impl Highlighter for Guide {
    ghost sure = { λ _. true };

    ghost lights = { λ _ _ _ _. false };

    fn highlight<'l>(&self, _alloc: Global, line: &'l str, _pos: usize) -> Result<CowStr<'l>> {
        Ok(CowStr::Borrowed(line))
    }

    fn highlight_prompt<'b, 's: 'b, 'p: 'b>(
        &'s self,
        _alloc: Global,
        prompt: &'p str,
        _default: bool,
    ) -> Result<CowStr<'b>> {
        Ok(CowStr::Borrowed(prompt))
    }

    fn highlight_hint<'h>(&self, _alloc: Global, hint: &'h str) -> Result<CowStr<'h>> {
        Ok(CowStr::Borrowed(hint))
    }

    fn highlight_candidate<'c>(
        &self,
        _alloc: Global,
        candidate: &'c str,
        _completion: CompletionType,
    ) -> Result<CowStr<'c>> {
        Ok(CowStr::Borrowed(candidate))
    }

    fn highlight_char(&mut self, _line: &str, _pos: usize, _kind: CmdKind) -> bool {
        false
    }
}

impl Validator for Guide {
    ghost sure = { λ _. false };

    ghost verdict_at = { λ guide text.
        if guide.brackets then bracket_verdict text else valid None };

    fn validate(&self, alloc: Global, ctx: &ValidationContext<'_>) -> Result<ValidationResult> {
        self.countdown.call()?;
        if self.brackets {
            MatchingBracketValidator::new().validate(alloc, ctx)
        } else {
            Ok(ValidationResult::Valid(None))
        }
    }
}

impl Helper for Guide {
    ghost use Rattle.std.proofs.Common.{ap, refl};

    ghost hints_kept = { λ _ _ same. ap Self.hint_at same };

    ghost verdicts_kept = { λ _ _ same. ap Self.verdict_at same };

    ghost lights_kept = { λ _ _ _. refl };

    ghost completions_kept = { λ _ _ _. refl };

    ghost updates_kept = { λ _ _ _. refl };

    ghost hinter_kept = { λ _ _ _. refl };

    ghost validator_kept = { λ _ _ _. refl };

    ghost completer_kept = { λ _ _ _. refl };
}
