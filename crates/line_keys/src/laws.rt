//! Laws of keys: each function's contract is a law, and its body does nothing.

ghost use Rattle.std.specs.Prelude.{◌≡◌};
ghost use Rattle.bitflags.specs.Sets.{known_bits};
ghost use Rattle.line_keys.specs.BracketKeys.{BracketTakesNoCount};
ghost use Rattle.line_keys.specs.Key.{AreNamedBits, AreSetsOfBits, bits_of};
ghost use Rattle.line_keys.specs.Key.{SettlesWithoutShift, SettlesAfterTwo};

use crate::keys::Modifiers;
use bitflags::Flags;

/// Ctrl is bit 3, Alt bit 2 and Shift bit 1. The other named sets are made of these, and `Flags`
/// knows these three.
#[tactic(auto, unfolding(bitflags::specs::Sets::known_from))]
pub fn modifiers_are_named_bits()
    ensures named { AreNamedBits }
    ensures known { known_bits ⟦<Modifiers as Flags>⟧.table ≡ bits_of Modifiers.CTRL_ALT_SHIFT }
{}

/// The operators of `Modifiers` are those of sets of bits, bit by bit.
pub fn modifiers_are_sets_of_bits()
    ensures { AreSetsOfBits }
{}

/// Normalizing an event without Shift twice is normalizing it once.
pub fn normal_form_settles_without_shift()
    ensures { SettlesWithoutShift }
{}

/// Normalizing an event three times is normalizing it twice.
pub fn normal_form_settles_after_two()
    ensures { SettlesAfterTwo }
{}

/// In Vi's command mode % stands for the same command whatever the count, and after each operator
/// for the same motion.
pub fn the_bracket_key_takes_no_count()
    ensures { BracketTakesNoCount }
{}
