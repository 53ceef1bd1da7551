//! Highlighters that answer alike, whatever they remember.
ghost use Rattle.std.specs.Prelude.{◌≡◌};

use crate::highlight::{Highlighter, MatchingBracketHighlighter};

/// A highlighter whose `highlight_char` answers alike, whatever it remembers.
pub trait SteadyHighlighter: Highlighter {
    // Two values that differ only in what `highlight_char` may change answer alike.
    ghost lights_steady: { (one other : Self) → Self.steady one ≡ Self.steady other
        → Self.lights one ≡ Self.lights other };
}

impl SteadyHighlighter for () {
    ghost use Rattle.std.proofs.Common.{refl};

    ghost lights_steady = { λ _ _ _. refl };
}

impl SteadyHighlighter for MatchingBracketHighlighter {
    ghost use Rattle.std.proofs.Common.{refl};

    ghost lights_steady = { λ _ _ _. refl };
}
