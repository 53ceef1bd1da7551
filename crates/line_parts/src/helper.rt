//! The helper of a line editor, and ready ones: of parts, and with two switches.
ghost use Rattle.std.specs.Prelude.{◌≡◌, refl};

mod hints_and_brackets;
mod parts;

use crate::completion::Completer;
use crate::highlight::Highlighter;
use crate::hint::Hinter;
use crate::validate::Validator;
pub use hints_and_brackets::HintsAndBrackets;
pub use parts::Parts;

/// Completes, hints, highlights and validates. A call of `highlight_char` may change what the
/// helper remembers, but no hint, no validation result, no completion, nothing that it makes of
/// an elected text by itself, and no later answer of that call.
pub trait Helper: Completer + Hinter + Highlighter + Validator {
    // Two values that differ only in what `highlight_char` may change answer alike.
    ghost hints_kept: { (one other : Self) → Self.steady one ≡ Self.steady other
        → Self.hint_at one ≡ Self.hint_at other };

    ghost verdicts_kept: { (one other : Self) → Self.steady one ≡ Self.steady other
        → Self.verdict_at one ≡ Self.verdict_at other };

    ghost lights_kept: { (one other : Self) → Self.steady one ≡ Self.steady other
        → Self.lights one ≡ Self.lights other };

    ghost completions_kept: { (one other : Self) → Self.steady one ≡ Self.steady other
        → Self.completion_at one ≡ Self.completion_at other };

    ghost updates_kept: { (one other : Self) → Self.steady one ≡ Self.steady other
        → Self.updated one ≡ Self.updated other };

    ghost hinter_kept: { (one other : Self) → Self.steady one ≡ Self.steady other
        → Self.Hinter.sure one ≡ Self.Hinter.sure other };

    ghost validator_kept: { (one other : Self) → Self.steady one ≡ Self.steady other
        → Self.Validator.sure one ≡ Self.Validator.sure other };

    ghost completer_kept: { (one other : Self) → Self.steady one ≡ Self.steady other
        → Self.Completer.sure one ≡ Self.Completer.sure other };
}

impl Helper for () {
    ghost hints_kept = { λ _ _ _. refl };

    ghost verdicts_kept = { λ _ _ _. refl };

    ghost lights_kept = { λ _ _ _. refl };

    ghost completions_kept = { λ _ _ _. refl };

    ghost updates_kept = { λ _ _ _. refl };

    ghost hinter_kept = { λ _ _ _. refl };

    ghost validator_kept = { λ _ _ _. refl };

    ghost completer_kept = { λ _ _ _. refl };
}
