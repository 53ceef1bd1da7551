//! Laws over the definitions that the contracts cite.
ghost use Rattle.line_buffer.specs.Comparison.{ClonesAreSame, IsOnlyDefault, IsReadingOrder, IsSameness};
ghost use Rattle.line_buffer.specs.Laws.{ClosedGroupIsOneStep, KilledIsYanked, KillsInARowAreYanked, KillsInARowShareASlot, LastFittingIsLast, NoneCountedNoneOpen, PlacesAreBetweenClusters, TakingAllBack, UndoingStepByStep, YankPopsComeRound};

use crate::kill_ring::Mode;
use crate::layout::{GraphemeClusterMode, Position};
use crate::line_buffer::{Direction, WordAction};
use crate::movement::{At, CharSearch, Movement, Word};

/// Taking back a whole list of changes restores the text that it began with.
pub fn taking_all_back()
    ensures { TakingAllBack }
{}

/// Where no group is open, taking so many steps back at once is taking one step back as often.
pub fn undoing_step_by_step()
    ensures { UndoingStepByStep }
{}

/// After a reset of the kill ring, what is killed is what is yanked.
pub fn killed_is_yanked()
    ensures { KilledIsYanked }
{}

/// A place by clusters or words lies between clusters of the text on that side of the cursor.
pub fn places_are_between_clusters()
    ensures { PlacesAreBetweenClusters }
{}

/// Where groups fit, as `Changeset::len` says that they do, and none is counted as open, none is
/// open.
pub fn none_counted_none_open()
    ensures { NoneCountedNoneOpen }
{}

/// Kills in a row leave their texts in one slot of the ring, and the others as they were.
pub fn kills_in_a_row_share_a_slot()
    ensures { KillsInARowShareASlot }
{}

/// After a reset of the kill ring a yank returns all that was killed in a row.
pub fn kills_in_a_row_are_yanked()
    ensures { KillsInARowAreYanked }
{}

/// As many yank-pops as slots are held come round to the slot that they began at.
pub fn yank_pops_come_round()
    ensures { YankPopsComeRound }
{}

/// A group with an entry of text, begun where none was open and closed, is one step of undo.
pub fn closed_group_is_one_step()
    ensures { ClosedGroupIsOneStep }
{}

/// Of places that fit, a move by lines and the character before a place take the last.
pub fn last_fitting_is_last()
    ensures { LastFittingIsLast }
{}

/// Values are equal just where they are the same.
pub fn equal_is_same()
    ensures word { IsSameness ⟦<Word as PartialEq>⟧.eq }
    ensures at { IsSameness ⟦<At as PartialEq>⟧.eq }
    ensures search { IsSameness ⟦<CharSearch as PartialEq>⟧.eq }
    ensures movement { IsSameness ⟦<Movement as PartialEq>⟧.eq }
    ensures mode { IsSameness ⟦<Mode as PartialEq>⟧.eq }
    ensures width { IsSameness ⟦<GraphemeClusterMode as PartialEq>⟧.eq }
    ensures position { IsSameness ⟦<Position as PartialEq>⟧.eq }
    ensures action { IsSameness ⟦<WordAction as PartialEq>⟧.eq }
    ensures direction { IsSameness ⟦<Direction as PartialEq>⟧.eq }
{}

/// A clone of a movement is that movement.
pub fn clones_are_same()
    ensures { ClonesAreSame ⟦<Movement as Clone>⟧ }
{}

/// Positions are ordered by row, then by column, and the first of all is the default.
pub fn positions_are_read_in_order()
    ensures order { IsReadingOrder ⟦<Position as Ord>⟧.cmp }
    ensures first { IsOnlyDefault ⟦<Position as Default>⟧.is_default (record { row = 0; col = 0 }) }
{}
