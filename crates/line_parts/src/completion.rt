//! Completions of a part of the line.
ghost use Rattle.std.specs.Prelude.{◌≡◌, ◌≤◌, ℕ, Bool, true, false, List, Option, Some, None};
ghost use Rattle.std.specs.Prelude.{[], map, IfOk, IsOk, OnOk, IsCharBoundary, string_bytes};
ghost use Rattle.line_buffer.specs.Undo.{StillTellsOrGone};
ghost use Rattle.line_config.specs.Error.{IoOnlyIf, FaultsOnly};
ghost use Rattle.line_parts.specs.Written.{PutsToCursor, put_to_cursor, written_as};

mod arguments;
mod chars;
mod escapes;
mod filename;
mod pair;
mod paths;
mod prefix;
mod quotes;
mod word_list;

use crate::context::Context;
use crate::history::History;
pub use arguments::{ArgumentOrOther, CommandArguments};
pub use escapes::{Quote, escape, extract_word, unescape};
pub use filename::{Entry, FilenameCompleter, Lister};
use line_buffer::{Changeset, LineBuffer};
use line_config::Result;
pub use pair::Pair;
pub use prefix::longest_common_prefix;
use std::alloc::Global;
pub use word_list::Words;

/// A text that may complete a part of the line.
pub trait Candidate {
    // The text that is displayed.
    ghost display_text: { Self → List ℕ };

    // The text that is put into the line.
    ghost replacement_text: { Self → List ℕ };

    /// Returns the text that is shown in a list of candidates.
    fn display(&self) -> &str
        ensures { result.now ≡ display_text self.now };

    /// Returns the text that is put into the line.
    fn replacement(&self) -> &str
        ensures { result.now ≡ replacement_text self.now };
}

impl Candidate for String {
    ghost display_text = { λ s. string_bytes s };

    ghost replacement_text = { λ s. string_bytes s };

    fn display(&self) -> &str {
        self.as_str()
    }

    fn replacement(&self) -> &str {
        self.display()
    }
}

impl Candidate for &str {
    ghost display_text = { λ s. s.now };

    ghost replacement_text = { λ s. s.now };

    fn display(&self) -> &str {
        *self
    }

    fn replacement(&self) -> &str {
        Candidate::display(self)
    }
}

/// Completes a part of the line.
pub trait Completer {
    ghost use Rattle.line_parts.specs.Candidate.{BeginsIn, Completion, no_completion, offer_of};
    ghost use Rattle.line_parts.specs.Written.{Written, put_to_cursor};
    ghost use Rattle.line_parts.specs.Context.{shown_in};
    ghost use Rattle.line_parts.specs.Shown.{Shown, NotBoth};

    /// The type of the candidates.
    type Candidate: Candidate + Drop;

    // Whether no error of input or output comes from it, where none comes from the history.
    ghost sure: { Self → Bool };

    // The completion for what it is shown: left out, nothing is offered.
    ghost completion_at: { Self → Shown → Completion } = { λ _ _. no_completion };

    // The line and the changes that it makes of an elected text: left out, the text replaces what
    // stands from the start to the cursor.
    ghost updated: { Self → Written → ℕ → List ℕ → Written } = { λ _ written start elected. put_to_cursor written start elected };

    /// Returns where the part of `line` that can be completed begins, and the candidates for it.
    /// That part ends at the cursor, which is at byte `pos`.
    ///
    /// # Errors
    /// `Io` if this completer or the history fails, and `Memory` if memory runs out. No `Io` comes
    /// if both are sure.
    fn complete<S: History>(
        &self,
        alloc: Global,
        line: &str,
        pos: usize,
        ctx: &Context<'_, S>,
    ) -> Result<(usize, Vec<Self::Candidate>)>
        requires { IsCharBoundary line.now pos }
        ensures start { IfOk result (λ r. BeginsIn line.now pos r.0) }
        ensures answer { IfOk result (λ r. record {
          start = r.0;
          offers = map (offer_of Self.Candidate.Candidate) r.1.items;
        } ≡ completion_at self.now (shown_in S.History ctx.now line.now pos)) }
        ensures io { IoOnlyIf result (NotBoth (sure self.now) (S.sure ctx.now.history)) }
        ensures faults { FaultsOnly result };

    /// Puts the text of the elected candidate in place of what stands from `start` to the cursor,
    /// as `put_to_cursor` does, or does something else with it.
    ///
    /// # Errors
    /// `Io` if this completer fails, and `Memory` if memory runs out. The line may then be any text
    /// with its cursor on a boundary. The changes still record the line, or there are none. No `Io`
    /// comes if this completer is sure.
    fn update(
        &self,
        line: &mut LineBuffer,
        start: usize,
        elected: &str,
        changes: &mut Changeset,
    ) -> Result<()>
        requires before { start ≤ line.old.cursor }
        requires boundary { IsCharBoundary line.old.text start }
        ensures written { OnOk result (written_as line.new changes.new
            ≡ updated self.now (written_as line.old changes.old) start elected.now) }
        ensures told { StillTellsOrGone result changes.old line.old changes.new line.new }
        ensures io { IoOnlyIf result (sure self.now ≡ false) }
        ensures faults { FaultsOnly result };
}

/// Replaces what stands from `start` to the cursor by a text, as a completer usually does. The
/// cursor then stands after that text.
///
/// # Errors
/// `Memory` if memory runs out. The line may then be any text with its cursor on a boundary. The
/// changes still record the line, or there are none.
pub fn put_to_cursor(
    line: &mut LineBuffer,
    start: usize,
    text: &str,
    changes: &mut Changeset,
) -> Result<()>
    requires before { start ≤ line.old.cursor }
    requires boundary { IsCharBoundary line.old.text start }
    ensures { PutsToCursor result start text.now line.old changes.old line.new changes.new }
{
    let end = line.pos();
    Ok(line.replace(start..end, text, changes)?)
}

/// Returns a completion that offers nothing for a line and its cursor, as `complete` answers where a
/// completer has no candidates.
pub fn offer_nothing<C>(alloc: Global, line: &str, pos: usize) -> (usize, Vec<C>)
    ensures before { result.0 ≤ pos }
    ensures boundary { IsCharBoundary line.now result.0 }
    ensures start { result.0 ≡ 0 }
    ensures offers { result.1.items ≡ [] }
{
    let _ = line;
    let _ = pos;
    (0, Vec::new(alloc))
}

impl Completer for () {
    type Candidate = String;

    ghost sure = { λ _. true };

    ghost updated = { λ _ written _ _. written };

    fn complete<S: History>(
        &self,
        alloc: Global,
        line: &str,
        pos: usize,
        _ctx: &Context<'_, S>,
    ) -> Result<(usize, Vec<String>)> {
        Ok(offer_nothing(alloc, line, pos))
    }

    /// Leaves the line as it is.
    fn update(
        &self,
        _line: &mut LineBuffer,
        _start: usize,
        _elected: &str,
        _changes: &mut Changeset,
    ) -> Result<()>
        ensures kept { _line.new ≡ _line.old }
        ensures untold { _changes.new ≡ _changes.old }
        ensures ok { IsOk result }
    {
        Ok(())
    }
}

impl<C: Completer> Completer for Box<C> {
    type Candidate = C::Candidate;

    ghost sure = { λ completer. C.sure completer.value };

    ghost completion_at = { λ completer. C.completion_at completer.value };

    ghost updated = { λ completer. C.updated completer.value };

    fn complete<S: History>(
        &self,
        alloc: Global,
        line: &str,
        pos: usize,
        ctx: &Context<'_, S>,
    ) -> Result<(usize, Vec<Self::Candidate>)> {
        C::complete(&**self, alloc, line, pos, ctx)
    }

    fn update(
        &self,
        line: &mut LineBuffer,
        start: usize,
        elected: &str,
        changes: &mut Changeset,
    ) -> Result<()> {
        C::update(&**self, line, start, elected, changes)
    }
}
