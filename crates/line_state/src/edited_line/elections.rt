//! Candidates that are put into the line.
ghost use Rattle.std.specs.Prelude.{IsCharBoundary, ◌≡◌, ◌≤◌, ◌⊎◌, false, OnErr, OnOk};
ghost use Rattle.line_buffer.specs.Changes.{no_changes};
ghost use Rattle.line_config.specs.Error.{FaultsOnly, IoOnlyIf};
ghost use Rattle.line_state.specs.Edited.{IsElected, KeepsFirst};

use super::EditedLine;
use line_config::Result;
use line_parts::Completer;

#[tactic(auto, using(crate::proofs::EditedLemmas::told_or_gone, crate::proofs::EditedLemmas::first_told, crate::proofs::EditedLemmas::first_or_gone))]
impl EditedLine {
    /// Puts the text of an elected candidate in place of what stands from byte `start` to the
    /// cursor, or does with it what the completer does by itself.
    ///
    /// # Errors
    /// `Io` if the completer fails, and `Memory` if memory runs out. The line may then be any text
    /// with its cursor on a boundary. Its changes still lead back to the text that it began with,
    /// or there are none. No `Io` comes if the completer is sure.
    pub fn elect<C: Completer>(&mut self, completer: &C, start: usize, elected: &str) -> Result<()>
        requires before { start ≤ self.old.line.cursor }
        requires boundary { IsCharBoundary self.old.line.text start }
        ensures elected { OnOk result
            (IsElected (C.updated completer.now) start elected.now self.old self.new) }
        ensures first { OnOk result (KeepsFirst self.old self.new) }
        ensures err { OnErr result
            (KeepsFirst self.old self.new ⊎ (self.new.changes ≡ no_changes)) }
        ensures io { IoOnlyIf result (C.sure completer.now ≡ false) }
        ensures faults { FaultsOnly result }
    {
        completer.update(&mut self.line, start, elected, &mut self.changes)
    }
}
