//! A helper whose answers are set beforehand, which notes what it is asked.
ghost use Rattle.std.specs.Prelude.{◌≡◌, true, false, Some, None, option_map, if◌then◌else◌};
ghost use Rattle.line_parts.specs.Verdict.{incomplete, invalid, valid};
ghost use Rattle.tests_parties.specs.Advisor.{is_lit_for, shown_after};

use crate::countdown::Countdown;
use crate::fault::{Fault, USUAL};
use line_buffer::{Changeset, LineBuffer};
use line_config::{CompletionType, Result};
use line_parts::{
    CmdKind, Completer, Context, Helper, Highlighter, Hint, Hinter, History, ValidationContext,
    ValidationResult, Validator, offer_nothing,
};
use std::alloc::Global;
use std::borrow::CowStr;

/// The last four kinds that it was asked, the newest first.
pub type Kinds = (
    Option<CmdKind>,
    Option<CmdKind>,
    Option<CmdKind>,
    Option<CmdKind>,
);

/// A hint: what it displays, and what it completes the line with, if it can be taken.
#[derive(Clone, Copy)]
pub struct Tip(pub &'static str, pub Option<&'static str>);

impl Hint for Tip {
    ghost display_text = { λ tip. tip.0.now };

    ghost completion_text = { λ tip. option_map (λ text. text.now) tip.1 };

    fn display(&self) -> &str {
        self.0
    }

    fn completion(&self) -> Option<&str> {
        self.1
    }
}

/// A helper: its answers, which are the same for each line, and what it was asked. It asks for a
/// full drawing of one kind alone, shows for each line what it was asked last, and one of its hints
/// and validation results can fail.
#[derive(Drop)]
pub struct Advisor {
    /// What it hints for each line.
    pub hint: Option<Tip>,
    verdict: Verdict,
    lit: Option<CmdKind>,
    kinds: Kinds,
    countdown: Countdown,
}

/// Whether a line is whole, whether it is valid then, and the message.
pub type Verdict = (bool, bool, Option<&'static str>);

impl Advisor {
    /// A helper with these answers, which was asked nothing yet. Its hint completes the line with
    /// what it displays.
    pub fn new(hint: Option<&'static str>, verdict: Verdict, lit: Option<CmdKind>) -> Advisor {
        let hint = match hint {
            Some(text) => Some(Tip(text, Some(text))),
            None => None,
        };
        Advisor {
            hint,
            verdict,
            lit,
            kinds: (None, None, None, None),
            countdown: Countdown::with(0, USUAL),
        }
    }

    /// Its hint or validation result of the number `failing`, from 1 on, fails by this fault; none
    /// does where that is 0.
    pub fn fail_by(&mut self, failing: u64, fault: Fault) {
        self.countdown = Countdown::with(failing, fault);
    }

    /// The last four kinds that it was asked, the newest first.
    pub fn kinds(&self) -> Kinds {
        self.kinds
    }
}

impl Completer for Advisor {
    type Candidate = String;

    ghost sure = { λ _. true };

    ghost updated = { λ _ written _ _. written };

    fn complete<S: History>(
        &self,
        alloc: Global,
        line: &str,
        pos: usize,
        _ctx: &Context<'_, S>,
    ) -> Result<(usize, Vec<String>)> {
        Ok(offer_nothing(alloc, line, pos))
    }

    fn update(
        &self,
        _line: &mut LineBuffer,
        _start: usize,
        _elected: &str,
        _changes: &mut Changeset,
    ) -> Result<()> {
        Ok(())
    }
}

impl Hinter for Advisor {
    type Hint = Tip;

    ghost sure = { λ _. false };

    ghost hint_at = { λ advisor _.
        option_map (λ tip. record {
          display = tip.0.now;
          completion = option_map (λ text. text.now) tip.1;
        }) advisor.hint };

    fn hint<S: History>(
        &self,
        _alloc: Global,
        _line: &str,
        _pos: usize,
        _ctx: &Context<'_, S>,
    ) -> Result<Option<Tip>> {
        self.countdown.call()?;
        Ok(self.hint)
    }
}

impl Highlighter for Advisor {
    ghost sure = { λ _. true };

    ghost lights = { λ advisor _ _ kind. is_lit_for advisor.lit kind };

    ghost steady = { λ advisor. record advisor { kinds = (None, None, None, None) } };

    ghost highlighted = { λ advisor _ _. shown_after advisor.kinds.0 };

    fn highlight<'l>(&self, _alloc: Global, _line: &'l str, _pos: usize) -> Result<CowStr<'l>> {
        match self.kinds.0 {
            None => Ok(CowStr::Borrowed("unasked")),
            Some(CmdKind::MoveCursor) => Ok(CowStr::Borrowed("after a move")),
            Some(CmdKind::Other) => Ok(CowStr::Borrowed("after an edit")),
            Some(CmdKind::ForcedRefresh) => Ok(CowStr::Borrowed("for the last time")),
        }
    }

    fn highlight_prompt<'b, 's: 'b, 'p: 'b>(
        &'s self,
        _alloc: Global,
        prompt: &'p str,
        _default: bool,
    ) -> Result<CowStr<'b>> {
        Ok(CowStr::Borrowed(prompt))
    }

    fn highlight_hint<'h>(&self, _alloc: Global, hint: &'h str) -> Result<CowStr<'h>> {
        Ok(CowStr::Borrowed(hint))
    }

    fn highlight_candidate<'c>(
        &self,
        _alloc: Global,
        candidate: &'c str,
        _completion: CompletionType,
    ) -> Result<CowStr<'c>> {
        Ok(CowStr::Borrowed(candidate))
    }

    fn highlight_char(&mut self, _line: &str, _pos: usize, kind: CmdKind) -> bool {
        let (first, second, third, _) = self.kinds;
        self.kinds = (Some(kind), first, second, third);
        match (self.lit, kind) {
            (Some(CmdKind::MoveCursor), CmdKind::MoveCursor) => true,
            (Some(CmdKind::Other), CmdKind::Other) => true,
            (Some(CmdKind::ForcedRefresh), CmdKind::ForcedRefresh) => true,
            _ => false,
        }
    }
}

impl Validator for Advisor {
    ghost sure = { λ _. false };

    ghost verdict_at = { λ advisor _. if advisor.verdict.0
        then (if advisor.verdict.1 then valid (option_map (λ text. text.now) advisor.verdict.2)
        else invalid (option_map (λ text. text.now) advisor.verdict.2))
        else incomplete };

    fn validate(&self, alloc: Global, _ctx: &ValidationContext<'_>) -> Result<ValidationResult> {
        self.countdown.call()?;
        let (whole, is_valid, message) = self.verdict;
        let message = match message {
            Some(text) => Some(String::from_str(alloc, text)?),
            None => None,
        };
        if !whole {
            Ok(ValidationResult::Incomplete)
        } else if is_valid {
            Ok(ValidationResult::Valid(message))
        } else {
            Ok(ValidationResult::Invalid(message))
        }
    }
}

impl Helper for Advisor {
    ghost use Rattle.std.proofs.Common.{ap, refl};

    ghost hints_kept = { λ _ _ same. ap Self.hint_at same };

    ghost verdicts_kept = { λ _ _ same. ap Self.verdict_at same };

    ghost lights_kept = { λ _ _ same. ap Self.lights same };

    ghost completions_kept = { λ _ _ _. refl };

    ghost updates_kept = { λ _ _ _. refl };

    ghost hinter_kept = { λ _ _ _. refl };

    ghost validator_kept = { λ _ _ _. refl };

    ghost completer_kept = { λ _ _ _. refl };
}
