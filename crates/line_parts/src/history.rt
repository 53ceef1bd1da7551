//! The lines that were entered before.
ghost use Rattle.std.specs.Prelude.{◌≡◌, ℕ, Bool, false, List, [], length, if◌then◌else◌, ◌↔◌};
ghost use Rattle.std.specs.Prelude.{IsTrue, is_ok, string_bytes, IfOk};
ghost use Rattle.line_config.specs.Error.{FaultsOnly, IoOnlyIf, MemoryOnly};

mod file;
mod lines;
mod mem;
mod search;
mod text;

pub use file::FileHistory;
use line_config::Result;
pub use mem::MemHistory;
use std::borrow::CowStr;

/// The history that an editor uses by default.
pub type DefaultHistory = FileHistory;

/// The direction of a search in a history.
#[derive(Debug, Clone, Copy, PartialEq, Eq)]
pub enum SearchDirection {
    /// Towards the newer lines.
    Forward,
    /// Towards the older lines.
    Reverse,
}

/// A line that was found in a history.
#[derive(Debug, PartialEq, Eq, Drop)]
pub struct SearchResult<'a> {
    /// The line.
    pub entry: CowStr<'a>,
    /// The index of the line.
    pub idx: usize,
    /// A byte offset in the line: where the term first stands for `search`, after it for
    /// `starts_with`, 0 for `get`.
    pub pos: usize,
}

impl<'a> SearchResult<'a> {
    ghost use Rattle.line_parts.specs.History.{found_of};

    /// Returns an equal result. A borrowed line stays borrowed.
    ///
    /// # Errors
    /// `Memory` if memory runs out.
    pub fn clone(&self) -> Result<Self>
        ensures answer { IfOk result (λ copy. found_of copy ≡ found_of self.now) }
        ensures memory { MemoryOnly result }
    {
        Ok(SearchResult {
            entry: self.entry.clone()?,
            idx: self.idx,
            pos: self.pos,
        })
    }
}

/// Lines that were entered before, the oldest first.
pub trait History {
    ghost use Rattle.line_parts.specs.History.{Finds, HistoryRules, TellsTaken, added, entry_at};
    ghost use Rattle.line_parts.specs.History.{last_of, search_in, starting_with};

    // The lines, the oldest first.
    ghost lines: { Self → List (List ℕ) };

    // Which lines it takes.
    ghost rules: { Self → HistoryRules };

    // Whether no error of input or output comes from it.
    ghost sure: { Self → Bool };

    /// Returns the line at `index`, with 0 as the place in it, or None from the number of lines on,
    /// whatever the direction.
    ///
    /// # Errors
    /// `Io` if the history fails, and `Memory` if memory runs out. No `Io` comes if the history is
    /// sure.
    fn get(&self, index: usize, dir: SearchDirection) -> Result<Option<SearchResult<'_>>>
        ensures answer { Finds result (entry_at (lines self.now) index) }
        ensures io { IoOnlyIf result (sure self.now ≡ false) }
        ensures faults { FaultsOnly result };

    /// Adds a copy of `line` as the newest one, and drops the oldest where there are too many.
    /// Returns whether it was added: it is left out where it is empty, where no line is kept, where
    /// it begins with white space or equals the newest line and such lines are ignored.
    ///
    /// # Errors
    /// `Io` if the history fails, and `Memory` if memory runs out. The lines then stay as they
    /// were. No `Io` comes if the history is sure.
    fn add(&mut self, line: &str) -> Result<bool>
        ensures answer { TellsTaken result (rules self.old) (lines self.old) line.now }
        ensures lines { lines self.new ≡ (if is_ok result
            then added (rules self.old) (lines self.old) line.now else lines self.old) }
        ensures rules { rules self.new ≡ rules self.old }
        ensures sure { sure self.new ≡ sure self.old }
        ensures io { IoOnlyIf result (sure self.old ≡ false) }
        ensures faults { FaultsOnly result };

    /// Adds `line` as `add` adds a copy of it.
    ///
    /// # Errors
    /// `Io` if the history fails, and `Memory` if memory runs out. The lines then stay as they
    /// were. No `Io` comes if the history is sure.
    fn add_owned(&mut self, line: String) -> Result<bool>
        ensures answer { TellsTaken result (rules self.old) (lines self.old) (string_bytes line) }
        ensures lines { lines self.new ≡ (if is_ok result
            then added (rules self.old) (lines self.old) (string_bytes line) else lines self.old) }
        ensures rules { rules self.new ≡ rules self.old }
        ensures sure { sure self.new ≡ sure self.old }
        ensures io { IoOnlyIf result (sure self.old ≡ false) }
        ensures faults { FaultsOnly result };

    /// Returns the number of lines.
    fn len(&self) -> usize
        ensures { result ≡ length (lines self.now) };

    /// Returns whether there is no line.
    fn is_empty(&self) -> bool
        ensures { IsTrue result ↔ (lines self.now ≡ []) }
    {
        self.len() == 0
    }

    /// Sets how many lines are kept at most. Where there are more, the oldest are dropped.
    ///
    /// # Errors
    /// `Io` if the history fails, and `Memory` if memory runs out. Nothing has then changed. No
    /// `Io` comes if the history is sure.
    fn set_max_len(&mut self, len: usize) -> Result<()>
        ensures lines { lines self.new
            ≡ (if is_ok result then last_of len (lines self.old) else lines self.old) }
        ensures rules { rules self.new
            ≡ (if is_ok result then record (rules self.old) { max_len = len } else rules self.old) }
        ensures sure { sure self.new ≡ sure self.old }
        ensures io { IoOnlyIf result (sure self.old ≡ false) }
        ensures faults { FaultsOnly result };

    /// Sets whether a line that equals the newest one is left out.
    ///
    /// # Errors
    /// `Io` if the history fails, and `Memory` if memory runs out. Nothing has then changed. No
    /// `Io` comes if the history is sure.
    fn ignore_dups(&mut self, yes: bool) -> Result<()>
        ensures lines { lines self.new ≡ lines self.old }
        ensures rules { rules self.new ≡ (if is_ok result
            then record (rules self.old) { ignore_dups = yes } else rules self.old) }
        ensures sure { sure self.new ≡ sure self.old }
        ensures io { IoOnlyIf result (sure self.old ≡ false) }
        ensures faults { FaultsOnly result };

    /// Sets whether a line that begins with white space is left out.
    fn ignore_space(&mut self, yes: bool)
        ensures lines { lines self.new ≡ lines self.old }
        ensures rules { rules self.new ≡ record (rules self.old) { ignore_space = yes } }
        ensures sure { sure self.new ≡ sure self.old };

    /// Drops all lines.
    ///
    /// # Errors
    /// `Io` if the history fails, and `Memory` if memory runs out. Nothing has then changed. No
    /// `Io` comes if the history is sure.
    fn clear(&mut self) -> Result<()>
        ensures lines { lines self.new ≡ (if is_ok result then [] else lines self.old) }
        ensures rules { rules self.new ≡ rules self.old }
        ensures sure { sure self.new ≡ sure self.old }
        ensures io { IoOnlyIf result (sure self.old ≡ false) }
        ensures faults { FaultsOnly result };

    /// Returns the line that contains `term` and is nearest to the index `start`, itself included,
    /// in this direction, with the byte offset of the first occurrence. None for an empty term, and
    /// where `start` is not the index of a line.
    ///
    /// # Errors
    /// `Io` if the history fails, and `Memory` if memory runs out. No `Io` comes if the history is
    /// sure.
    fn search(
        &self,
        term: &str,
        start: usize,
        dir: SearchDirection,
    ) -> Result<Option<SearchResult<'_>>>
        ensures answer { Finds result (search_in (lines self.now) term.now start dir) }
        ensures io { IoOnlyIf result (sure self.now ≡ false) }
        ensures faults { FaultsOnly result };

    /// Returns the line that begins with `term` and is nearest to the index `start`, itself
    /// included, in this direction, with the byte offset after `term`. None for an empty term, and
    /// where `start` is not the index of a line.
    ///
    /// # Errors
    /// `Io` if the history fails, and `Memory` if memory runs out. No `Io` comes if the history is
    /// sure.
    fn starts_with(
        &self,
        term: &str,
        start: usize,
        dir: SearchDirection,
    ) -> Result<Option<SearchResult<'_>>>
        ensures answer { Finds result (starting_with (lines self.now) term.now start dir) }
        ensures io { IoOnlyIf result (sure self.now ≡ false) }
        ensures faults { FaultsOnly result };
}
