//! What contracts see of a renderer.
ghost use Rattle.std.specs.Prelude.{ℕ};
ghost use Rattle.line_keys.specs.Model.Display.{Beside, Screen, Surface};

/// What contracts see of a renderer, and no code reads: what of its screen no drawing changes, what
/// the screen shows, what it was asked to do beside drawing the line, and the counts of full
/// redraws and of failures. A count stays at its greatest value. A renderer that keeps no account
/// of what is done beside drawing says `uncounted`.
pub trait ScreenState {
    ghost surface: { Self → Surface };

    ghost screen: { Self → Screen };

    ghost beside: { Self → Beside };

    ghost redraws: { Self → ℕ };

    ghost failures: { Self → ℕ };
}
