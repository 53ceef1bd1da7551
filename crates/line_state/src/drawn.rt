//! What contracts see of a drawn line.
ghost use Rattle.std.specs.Prelude.{ℕ};
ghost use Rattle.std.specs.Borrow.{GName};
ghost use Rattle.line_keys.specs.Model.Display.{Beside, Display};

/// What contracts see of a drawn line, and no code reads: the display, what the renderer was asked
/// to do beside drawing, its counts of full redraws and of failures, and what tells the loan of the
/// renderer from another.
pub trait Drawn {
    ghost display: { Self → Display };

    ghost beside: { Self → Beside };

    ghost redraws: { Self → ℕ };

    ghost failures: { Self → ℕ };

    ghost loan: { Self → GName };
}
