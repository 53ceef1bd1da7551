//! Laws of comparisons, of clones and of defaults.
ghost use Rattle.line_buffer.specs.Comparison.{ClonesAreSame, IsOnlyDefault, IsSameness};
ghost use Rattle.line_config.specs.declared.config.Behavior.TheVariants.{Stdio};
ghost use Rattle.line_config.specs.declared.config.BellStyle.TheVariants.{Audible};

use crate::config::{
    Behavior, BellStyle, Builder, ColorMode, CompletionType, Config, EditMode, HistoryDuplicates,
};

/// Settings are equal just where each of them is the same.
pub fn equal_is_same()
    ensures config { IsSameness ⟦<Config as PartialEq>⟧.eq }
    ensures duplicates { IsSameness ⟦<HistoryDuplicates as PartialEq>⟧.eq }
    ensures completion { IsSameness ⟦<CompletionType as PartialEq>⟧.eq }
    ensures edit_mode { IsSameness ⟦<EditMode as PartialEq>⟧.eq }
    ensures bell { IsSameness ⟦<BellStyle as PartialEq>⟧.eq }
    ensures colors { IsSameness ⟦<ColorMode as PartialEq>⟧.eq }
    ensures behavior { IsSameness ⟦<Behavior as PartialEq>⟧.eq }
{}

/// A clone of settings has all of them, also of settings in the making.
pub fn clones_are_same()
    ensures config { ClonesAreSame ⟦<Config as Clone>⟧ }
    ensures builder { ClonesAreSame ⟦<Builder as Clone>⟧ }
{}

/// By default the terminal's bell sounds, and a line is read from standard input.
pub fn types_have_one_default()
    ensures bell { IsOnlyDefault ⟦<BellStyle as Default>⟧.is_default Audible }
    ensures behavior { IsOnlyDefault ⟦<Behavior as Default>⟧.is_default Stdio }
{}
