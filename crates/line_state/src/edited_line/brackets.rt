//! From a bracket to the one that matches it.
ghost use Rattle.std.specs.Prelude.{◌≡◌, is_some, IfSome};
ghost use Rattle.line_buffer.specs.Offset.{IsRangeIfAny};
ghost use Rattle.line_parts.specs.BracketMatch.{matching_bracket};
ghost use Rattle.line_state.specs.Edited.{FindsToEdit, GoesTo, HasOneByteAt, bracket_range, with_nothing_for};
ghost use Rattle.line_state.specs.Moves.{bracket_place};

use super::EditedLine;
use line_buffer::{OutOfMemory, cluster_start};
use line_parts::brackets::{bracket_at, find_match};

#[tactic(auto, using(crate::proofs::EditedLemmas::kept, crate::proofs::EditedLemmas::first_kept, crate::proofs::EditedLemmas::first_stays))]
impl EditedLine {
    /// Moves the cursor to the bracket that matches the one at the cursor: to the start of the
    /// cluster that holds it. Returns whether there is such a bracket.
    pub fn move_to_bracket(&mut self) -> bool
        ensures { GoesTo result self.old self.new (bracket_place self.old.line) }
    {
        let text = self.line.as_str();
        let Some(at) = matching_bracket(text, self.line.pos()) else {
            return false;
        };
        let start = cluster_start(text, at);
        self.line.set_pos(start);
        true
    }

    /// Returns the range of the bracket at the cursor, the one that matches it and what stands
    /// between the two, in bytes. `None` where no bracket stands at the cursor, or it has no match.
    pub fn bracket_range(&self) -> Option<(usize, usize)>
        ensures { IsRangeIfAny result self.now.line (bracket_range self.now.line) }
    {
        let pos = self.line.pos();
        let at = matching_bracket(self.line.as_str(), pos)?;
        if pos < at {
            return Some((pos, at + 1));
        }
        Some((at, pos + 1))
    }

    /// Replaces that range by the empty text, and puts the cursor at its start. Returns whether
    /// there is such a range.
    ///
    /// # Errors
    /// `OutOfMemory` if memory runs out. There are then no changes to undo, and the line may be any
    /// text with its cursor on a boundary.
    pub fn remove_to_bracket(&mut self) -> Result<bool, OutOfMemory>
        ensures { let range = bracket_range self.old.line in FindsToEdit result self.old self.new
            (with_nothing_for range self.old) (is_some range) }
    {
        let Some((from, to)) = self.bracket_range() else {
            return Ok(false);
        };
        self.line.replace(from..to, "", &mut self.changes)?;
        Ok(true)
    }
}

// Returns the place of the bracket that matches the one at a place, if a bracket stands there and
// has a match.
fn matching_bracket(text: &str, place: usize) -> Option<usize>
    ensures place { result ≡ matching_bracket text.now place }
    ensures here { IfSome result (λ at. HasOneByteAt text.now place) }
    ensures there { IfSome result (λ at. HasOneByteAt text.now at) }
{
    let line = text.as_bytes();
    find_match(line, bracket_at(line, place)?)
}
