//! What contracts see of those who are asked about a line.
ghost use Rattle.std.specs.Prelude.{ℕ, Option};
ghost use Rattle.std.specs.Borrow.{GName};
ghost use Rattle.line_parts.specs.Asks.{Sureness};
ghost use Rattle.line_parts.specs.Environment.{Environment};

/// A type whose values answer for a line while it is edited.
pub trait Consulted {
    // All answers.
    ghost environment: { Self → Environment };

    // The history index of the line.
    ghost index: { Self → ℕ };

    // Which of its answers come without an error of input or output.
    ghost sure: { Self → Sureness };

    // What tells the loan of the helper from another, if there is a helper.
    ghost loan: { Self → Option GName };
}
