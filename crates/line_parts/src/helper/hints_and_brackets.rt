//! A helper with two switches: hints from the history, and the check of brackets.
ghost use Rattle.std.specs.Prelude.{◌≡◌, true, false, None, option_map, if◌then◌else◌};
ghost use Rattle.line_parts.specs.BracketVerdict.{bracket_verdict};
ghost use Rattle.line_parts.specs.Hint.{suggested};
ghost use Rattle.line_parts.specs.HistoryHint.{history_hint};
ghost use Rattle.line_parts.specs.Verdict.{valid};

use crate::completion::{Completer, offer_nothing, put_to_cursor};
use crate::context::Context;
use crate::helper::Helper;
use crate::highlight::{CmdKind, Highlighter};
use crate::hint::{Hinter, HistoryHinter};
use crate::history::History;
use crate::validate::{MatchingBracketValidator, ValidationContext, ValidationResult, Validator};
use line_buffer::{Changeset, LineBuffer};
use line_config::{CompletionType, Result};
use std::alloc::Global;
use std::borrow::CowStr;

/// Hints from the history and checks the brackets of a line, each where it is switched on.
#[derive(Clone, Copy)]
pub struct HintsAndBrackets {
    /// Whether there are hints.
    pub hints: bool,
    /// Whether brackets are checked.
    pub brackets: bool,
}

impl HintsAndBrackets {
    /// A helper with both switches off.
    pub fn new() -> HintsAndBrackets
        ensures { result ≡ record { hints = false; brackets = false } }
    {
        HintsAndBrackets {
            hints: false,
            brackets: false,
        }
    }
}

impl Completer for HintsAndBrackets {
    type Candidate = String;

    ghost sure = { λ _. true };

    fn complete<S: History>(
        &self,
        alloc: Global,
        line: &str,
        pos: usize,
        _ctx: &Context<'_, S>,
    ) -> Result<(usize, Vec<String>)> {
        Ok(offer_nothing(alloc, line, pos))
    }

    fn update(
        &self,
        line: &mut LineBuffer,
        start: usize,
        elected: &str,
        changes: &mut Changeset,
    ) -> Result<()> {
        put_to_cursor(line, start, elected, changes)
    }
}

impl Hinter for HintsAndBrackets {
    type Hint = String;

    ghost sure = { λ _. true };

    ghost hint_at = { λ helper shown.
        if helper.hints then option_map suggested (history_hint shown) else None };

    fn hint<S: History>(
        &self,
        alloc: Global,
        line: &str,
        pos: usize,
        ctx: &Context<'_, S>,
    ) -> Result<Option<String>> {
        if self.hints {
            HistoryHinter::new().hint(alloc, line, pos, ctx)
        } else {
            Ok(None)
        }
    }
}

impl Highlighter for HintsAndBrackets {
    ghost sure = { λ _. true };

    ghost lights = { λ _ _ _ _. false };

    fn highlight<'l>(&self, _alloc: Global, line: &'l str, _pos: usize) -> Result<CowStr<'l>> {
        Ok(CowStr::Borrowed(line))
    }

    fn highlight_prompt<'b, 's: 'b, 'p: 'b>(
        &'s self,
        _alloc: Global,
        prompt: &'p str,
        _default: bool,
    ) -> Result<CowStr<'b>> {
        Ok(CowStr::Borrowed(prompt))
    }

    fn highlight_hint<'h>(&self, _alloc: Global, hint: &'h str) -> Result<CowStr<'h>> {
        Ok(CowStr::Borrowed(hint))
    }

    fn highlight_candidate<'c>(
        &self,
        _alloc: Global,
        candidate: &'c str,
        _completion: CompletionType,
    ) -> Result<CowStr<'c>> {
        Ok(CowStr::Borrowed(candidate))
    }

    fn highlight_char(&mut self, _line: &str, _pos: usize, _kind: CmdKind) -> bool {
        false
    }
}

impl Validator for HintsAndBrackets {
    ghost sure = { λ _. true };

    ghost verdict_at = { λ helper text.
        if helper.brackets then bracket_verdict text else valid None };

    fn validate(&self, alloc: Global, ctx: &ValidationContext<'_>) -> Result<ValidationResult> {
        if self.brackets {
            MatchingBracketValidator::new().validate(alloc, ctx)
        } else {
            Ok(ValidationResult::Valid(None))
        }
    }
}

impl Helper for HintsAndBrackets {
    ghost use Rattle.std.proofs.Common.{ap, refl};

    ghost hints_kept = { λ _ _ same. ap Self.hint_at same };

    ghost verdicts_kept = { λ _ _ same. ap Self.verdict_at same };

    ghost lights_kept = { λ _ _ _. refl };

    ghost completions_kept = { λ _ _ _. refl };

    ghost updates_kept = { λ _ _ _. refl };

    ghost hinter_kept = { λ _ _ _. refl };

    ghost validator_kept = { λ _ _ _. refl };

    ghost completer_kept = { λ _ _ _. refl };
}
