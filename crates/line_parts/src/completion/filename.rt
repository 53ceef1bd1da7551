//! Completion of the names of files and folders.
ghost use Rattle.std.specs.Prelude.{◌≡◌, ◌≤◌, ℕ, Bool, false, List, Option, Some, chars, map, option_map, IfOk};
ghost use Rattle.std.specs.Prelude.{IsCharBoundary, string_bytes};
ghost use Rattle.std.specs.Cmp.Lexicographic.{slice_cmp};
ghost use Rattle.std.specs.Ordering.{nat_cmp};
ghost use Rattle.line_parts.specs.Candidate.{BeginsIn, pair_offer};
ghost use Rattle.line_parts.specs.Written.{PutsToCursor};
ghost use Rattle.line_config.specs.Error.{FaultsOnly, IoOnlyIf};

use crate::completion::escapes::Quote;
use crate::completion::pair::Pair;
use crate::completion::paths::{candidates, path_before, split_path};
use crate::completion::{Completer, put_to_cursor};
use crate::context::Context;
use crate::history::History;
use line_buffer::{Changeset, LineBuffer};
use line_config::Result;
use std::alloc::Global;

/// A name in a folder.
#[derive(Drop)]
pub struct Entry {
    /// The name.
    pub name: String,
    /// Whether it is the name of a folder.
    pub folder: bool,
}

/// Lists the names in folders.
pub trait Lister {
    ghost use Rattle.line_parts.specs.Completed.{Listed, listed_of};

    // Whether no error of input or output comes from it.
    ghost sure: { Self → Bool };

    // The names in a folder, by the text of its path, if it can be listed.
    ghost listing: { Self → List ℕ → Option (List Listed) };

    /// Returns the names in a folder, in an order of its own, or None where the folder can't be
    /// listed. `dir` is a path up to its last `/`, as it was typed but for its escapes; it is empty
    /// where the path has no `/`.
    ///
    /// # Errors
    /// `Io` if this lister fails, and `Memory` if memory runs out. No `Io` comes if this lister is
    /// sure.
    fn list(&self, alloc: Global, dir: &str) -> Result<Option<Vec<Entry>>>
        ensures answer { IfOk result (λ names. option_map (λ v. map listed_of v.items) names
            ≡ listing self.now dir.now) }
        ensures io { IoOnlyIf result (sure self.now ≡ false) }
        ensures faults { FaultsOnly result };
}

/// Completes the names of files and folders, which a lister returns.
#[derive(Drop)]
pub struct FilenameCompleter<L> {
    lister: L,
}

impl<L: Lister> FilenameCompleter<L> {
    ghost use Rattle.line_parts.specs.Completed.{InOrder, completed_by, lister_of, offered_at};

    /// Returns a completer that asks `lister` for the names in a folder.
    pub fn new(lister: L) -> Self
        ensures { lister_of result ≡ lister }
    {
        FilenameCompleter { lister }
    }

    /// Returns the byte offset where the path begins that ends at the cursor, at byte `pos` of
    /// `line`, and its candidates: the names in its folder that start with the path's last part, in
    /// the order of their bytes. A path in open quotes begins after the quote. A candidate inserts
    /// the folder's text and the name, escaped as these quotes ask for it, and a `/` after the name
    /// of a folder.
    ///
    /// # Errors
    /// `Io` if the lister fails, and `Memory` if memory runs out. No `Io` comes if the lister is
    /// sure.
    pub fn complete_path(&self, alloc: Global, line: &str, pos: usize) -> Result<(usize, Vec<Pair>)>
        requires { IsCharBoundary line.now pos }
        ensures start { IfOk result (λ r. BeginsIn line.now pos r.0) }
        ensures answer { let found = completed_by L.listing self.now line.now pos in
            IfOk result (λ r. (r.0 ≡ found.start)
            × InOrder found.offers (map pair_offer r.1.items)) }
        ensures io { IoOnlyIf result (L.sure (lister_of self.now) ≡ false) }
        ensures faults { FaultsOnly result }
    {
        let (start, mut pairs) = self.complete_path_unsorted(alloc, line, pos)?;
        pairs.sort_by(
            |one, other|
                ensures { result ≡ slice_cmp nat_cmp (string_bytes one.entry.now.display)
                    (string_bytes other.entry.now.display) }
            { one.display.cmp(&other.display) },
        )?;
        Ok((start, pairs))
    }

    /// Returns the same with the candidates in the order in which the lister returned the names.
    ///
    /// # Errors
    /// `Io` if the lister fails, and `Memory` if memory runs out. No `Io` comes if the lister is
    /// sure.
    pub fn complete_path_unsorted(
        &self,
        alloc: Global,
        line: &str,
        pos: usize,
    ) -> Result<(usize, Vec<Pair>)>
        requires { IsCharBoundary line.now pos }
        ensures start { IfOk result (λ r. BeginsIn line.now pos r.0) }
        ensures answer { IfOk result (λ r.
            record { start = r.0; offers = map pair_offer r.1.items }
            ≡ completed_by L.listing self.now line.now pos) }
        ensures io { IoOnlyIf result (L.sure (lister_of self.now) ≡ false) }
        ensures faults { FaultsOnly result }
    {
        let (start, path, quote) = path_before(alloc, &line[..pos])?;
        let pairs = self.offered(alloc, path.as_str(), quote)?;
        Ok((start, pairs))
    }

    // Returns the candidates for a path in quotes of a kind.
    fn offered(&self, alloc: Global, path: &str, quote: Quote) -> Result<Vec<Pair>>
        ensures offers { IfOk result (λ pairs. map pair_offer pairs.items
            ≡ offered_at (L.listing (lister_of self.now)) quote (chars path.now)) }
        ensures io { IoOnlyIf result (L.sure (lister_of self.now) ≡ false) }
        ensures faults { FaultsOnly result }
    {
        let (folder, name) = split_path(path);
        match self.lister.list(alloc, folder)? {
            Some(entries) => candidates(alloc, folder, name, entries, quote),
            None => Ok(Vec::new(alloc)),
        }
    }
}

impl<L: Lister> Completer for FilenameCompleter<L> {
    ghost use Rattle.line_parts.specs.Completed.{completed_by, lister_of, ordered};

    type Candidate = Pair;

    ghost sure = { λ completer. L.sure (lister_of completer) };

    ghost completion_at = { λ completer shown.
        ordered (completed_by L.listing completer shown.text shown.cursor) };

    fn complete<S: History>(
        &self,
        alloc: Global,
        line: &str,
        pos: usize,
        _ctx: &Context<'_, S>,
    ) -> Result<(usize, Vec<Pair>)>
        requires { IsCharBoundary line.now pos }
        ensures start { IfOk result (λ r. BeginsIn line.now pos r.0) }
        ensures answer { let found = ordered (completed_by L.listing self.now line.now pos) in
            IfOk result (λ r. found ≡ record { start = r.0; offers = map pair_offer r.1.items }) }
        ensures io { IoOnlyIf result (L.sure (lister_of self.now) ≡ false) }
        ensures faults { FaultsOnly result }
    {
        self.complete_path(alloc, line, pos)
    }

    /// Replaces what stands from `start` to the cursor by the text of the elected candidate. The
    /// cursor then stands after that text.
    ///
    /// # Errors
    /// `Memory` if memory runs out. The line may then be any text with its cursor on a boundary.
    /// The changes still record the line, or there are none.
    fn update(
        &self,
        line: &mut LineBuffer,
        start: usize,
        elected: &str,
        changes: &mut Changeset,
    ) -> Result<()>
        requires before { start ≤ line.old.cursor }
        requires boundary { IsCharBoundary line.old.text start }
        ensures { PutsToCursor result start elected.now line.old changes.old line.new changes.new }
    {
        put_to_cursor(line, start, elected, changes)
    }
}
