//! Whether a line may be submitted.
ghost use Rattle.std.specs.Prelude.{◌≡◌, ℕ, Bool, true, false, List, None};
ghost use Rattle.std.specs.Prelude.{◌<◌, IfOk, IsTrue, string_bytes};
ghost use Rattle.line_config.specs.Error.{IoOnlyIf, FaultsOnly, MemoryOnly};
ghost use Rattle.line_parts.specs.Brackets.{IsVerdict, unclosed_message, unpaired_message};
ghost use Rattle.line_parts.specs.Verdict.{Verdict, verdict_of, valid};

use crate::brackets::{is_close, is_open, partner};
use line_config::Result;
use std::alloc::Global;
use std::marker::Model;

/// The result of validating a line.
#[derive(Drop)]
pub enum ValidationResult {
    /// The line is not complete: a newline is inserted.
    Incomplete,
    /// The line can't be submitted. A message may say why.
    Invalid(Option<String>),
    /// The line is submitted. A message may be shown with it.
    Valid(Option<String>),
}

/// The text that is to be validated.
pub struct ValidationContext<'i> {
    input: &'i str,
}

impl<'i> Model for ValidationContext<'i> {
    ghost use Rattle.std.specs.Prelude.{ℕ, List};

    ghost Value = { List ℕ };

    ghost view = { λ c. c.input.now };
}

impl Drop for ValidationContext<'_> {
    fn drop(self) {
        let ValidationContext { input: _ } = self;
    }
}

impl<'i> ValidationContext<'i> {
    /// Returns a context that borrows the text of a line.
    pub fn new(input: &'i str) -> Self
        ensures { result ≡ input.now }
    {
        ValidationContext { input }
    }

    /// Returns the text.
    pub fn input(&self) -> &'i str
        ensures { result.now ≡ self.now }
    {
        self.input
    }
}

/// Says whether a line may be submitted.
pub trait Validator {
    // Whether no error of input or output comes from it.
    ghost sure: { Self → Bool };

    // The validation result for a text.
    ghost verdict_at: { Self → List ℕ → Verdict };

    // Whether it may ask to validate with each key.
    ghost checks_typing: { Self → Bool } = { λ _. false };

    /// Returns the validation result for the text.
    ///
    /// # Errors
    /// `Io` if this validator fails, and `Memory` if memory runs out. No `Io` comes if this
    /// validator is sure.
    fn validate(&self, alloc: Global, ctx: &ValidationContext<'_>) -> Result<ValidationResult>
        ensures answer { IfOk result (λ r. verdict_of r ≡ verdict_at self.now ctx.now) }
        ensures io { IoOnlyIf result (sure self.now ≡ false) }
        ensures faults { FaultsOnly result };

    /// Returns whether a line is to be validated with each key. This layer validates only when the
    /// line is submitted.
    fn validate_while_typing(&self) -> bool
        ensures { IsTrue result → IsTrue (checks_typing self.now) }
    {
        false
    }
}

impl Validator for () {
    ghost sure = { λ _. true };

    ghost verdict_at = { λ _ _. valid None };

    fn validate(&self, _alloc: Global, _ctx: &ValidationContext<'_>) -> Result<ValidationResult>
        ensures { result ≡ Ok (ValidationResult.Valid None) }
    {
        Ok(ValidationResult::Valid(None))
    }
}

/// Validates a text by its brackets, round, square and curly: it is taken where they are balanced,
/// incomplete where closing ones can still balance them, and else refused.
#[derive(Drop)]
pub struct MatchingBracketValidator {}

impl MatchingBracketValidator {
    /// Returns a validator of brackets.
    pub fn new() -> Self {
        MatchingBracketValidator {}
    }
}

impl Default for MatchingBracketValidator {
    /// Returns a validator of brackets, as `new` does.
    fn default() -> Self {
        MatchingBracketValidator::new()
    }
}

impl Validator for MatchingBracketValidator {
    ghost use Rattle.line_parts.specs.BracketVerdict.{bracket_verdict};

    ghost sure = { λ _. true };

    ghost verdict_at = { λ _ text. bracket_verdict text };

    /// Returns the validation result for the brackets of the text: valid where they are balanced,
    /// incomplete where closing brackets after it balance them, else invalid with a message. The
    /// message names the bracket at fault, or the last bracket before it that is open.
    ///
    /// # Errors
    /// `Memory` if memory runs out.
    #[tactic(auto, using(crate::proofs::BracketLemmas::judged_so))]
    fn validate(&self, alloc: Global, ctx: &ValidationContext<'_>) -> Result<ValidationResult>
        ensures answer { IfOk result (λ r. verdict_of r ≡ bracket_verdict ctx.now) }
        ensures verdict { IfOk result (λ r. IsVerdict ctx.now (verdict_of r)) }
        ensures memory { MemoryOnly result }
    {
        check_brackets(alloc, ctx.input())
    }
}

// Returns the validation result for the brackets of a text.
fn check_brackets(alloc: Global, text: &str) -> Result<ValidationResult>
    ensures verdict { IfOk result (λ r. IsVerdict text.now (verdict_of r)) }
    ensures memory { MemoryOnly result }
{
    let mut open = Vec::new(alloc);
    for byte in text.as_bytes() {
        if is_open(*byte) {
            open.push(*byte)?;
        } else if is_close(*byte) {
            match open.pop() {
                Some(last) if partner(last) == *byte => {}
                Some(last) => return Ok(ValidationResult::Invalid(Some(unclosed(alloc, last)?))),
                None => return Ok(ValidationResult::Invalid(Some(unpaired(alloc, *byte)?))),
            }
        }
    }
    if open.is_empty() {
        Ok(ValidationResult::Valid(None))
    } else {
        Ok(ValidationResult::Incomplete)
    }
}

// Returns the message on a bracket at fault where no other is open.
fn unpaired(alloc: Global, bracket: u8) -> Result<String>
    requires { bracket < 128 }
    ensures text { IfOk result (λ t. string_bytes t ≡ unpaired_message bracket) }
    ensures memory { MemoryOnly result }
{
    let shown = char::from(bracket);
    Ok(format!(in alloc; "Mismatched brackets: '{shown}' is unpaired")?)
}

// Returns the message on the open bracket that the one at fault doesn't close.
fn unclosed(alloc: Global, bracket: u8) -> Result<String>
    requires { bracket < 128 }
    ensures text { IfOk result (λ t. string_bytes t ≡ unclosed_message bracket) }
    ensures memory { MemoryOnly result }
{
    let shown = char::from(bracket);
    Ok(format!(in alloc; "Mismatched brackets: '{shown}' is not properly closed")?)
}
