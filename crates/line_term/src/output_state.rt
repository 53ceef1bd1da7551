//! What contracts see of what is written to a terminal.
ghost use Rattle.std.specs.Prelude.{ℕ, Bool, List, Option};

/// What contracts see of a screen that is drawn by writing bytes, and no code reads: the bytes that
/// its output holds, where they are known, and whether a full redraw is shown all at once.
pub trait Output {
    ghost written: { Self → Option (List ℕ) };

    ghost synchronized: { Self → Bool };
}
