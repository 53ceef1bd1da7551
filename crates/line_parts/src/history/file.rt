//! A history that counts its new lines.
ghost use Rattle.std.specs.Prelude.{◌≡◌, ◌-◌, ◌<◌, ◌≤◌, true, [], length, is_ok};
ghost use Rattle.std.specs.Prelude.{string_bytes, IsOk, if◌then◌else◌};
ghost use Rattle.line_config.specs.Error.{MemoryOnly};
ghost use Rattle.line_parts.specs.History.{Finds, FindsBorrowed, TellsTaken, entry_at, filed};
ghost use Rattle.line_parts.specs.History.{filed_with_limit, line_at, lines_to_come, rules_of};
ghost use Rattle.line_parts.specs.History.{search_in, settled, starting_with, usual_rules};

use crate::history::{History, MemHistory, SearchDirection, SearchResult};
use line_config::{Config, Result};
use std::alloc::Global;
use std::collections::vec_deque::Iter;
use std::marker::Model;

/// A history that can be saved and loaded. It counts its new lines, those that were added since the
/// last save or load that succeeded.
pub struct FileHistory {
    mem: MemHistory,
    new_entries: usize,
}

impl Drop for FileHistory {
    fn drop(self) {
        let FileHistory {
            mem: _,
            new_entries: _,
        } = self;
    }
}

impl Model for FileHistory {
    ghost use Rattle.std.specs.Prelude.{◌≤◌, length};
    ghost use Rattle.line_parts.specs.History.{FiledHistory};

    ghost Value = { FiledHistory };

    ghost view = { λ h. record {
      lines = h.mem.lines;
      rules = h.mem.rules;
      new_lines = h.new_entries;
    } };

    ghost invariant = { λ h. (h.new_entries ≤ length h.mem.lines)
        × (length h.mem.lines ≤ h.mem.rules.max_len) };
}

impl FileHistory {
    /// Returns a history without lines, which keeps at most 100. It leaves out a line that equals
    /// the newest one, and keeps those that begin with white space. It grows from `alloc`.
    pub fn new(alloc: Global) -> FileHistory
        ensures { result ≡ record { lines = []; rules = usual_rules; new_lines = 0 } }
    {
        FileHistory {
            mem: MemHistory::new(alloc),
            new_entries: 0,
        }
    }

    /// Returns a history without lines, which takes lines as `config` says. It grows from `alloc`.
    pub fn with_config(alloc: Global, config: &Config) -> FileHistory
        ensures { result ≡ record { lines = []; rules = rules_of config.now; new_lines = 0 } }
    {
        FileHistory {
            mem: MemHistory::with_config(alloc, config),
            new_entries: 0,
        }
    }

    /// Returns the line at `index`.
    pub fn entry(&self, index: usize) -> &str
        requires { index < length self.now.lines }
        ensures { result.now ≡ line_at self.now.lines index }
    {
        self.mem.entry(index)
    }

    // Returns what the history grows from.
    pub(super) fn alloc(&self) -> Global {
        self.mem.alloc()
    }

    // Returns the index of the first new line: the length where there is none.
    pub(super) fn first_new(&self) -> usize
        ensures value { result ≡ length self.now.lines - self.now.new_lines }
        ensures within { result ≤ length self.now.lines }
    {
        self.mem.len().saturating_sub(self.new_entries)
    }

    // Counts no line as new.
    pub(super) fn settle(&mut self)
        ensures { self.new ≡ settled self.old }
    {
        self.new_entries = 0;
    }

    /// Returns the lines in order, the oldest first, from either end.
    pub fn iter(&self) -> Iter<'_, String>
        ensures { lines_to_come result ≡ self.now.lines }
    {
        self.mem.iter()
    }
}

impl History for FileHistory {
    ghost lines = { λ h. h.lines };

    ghost rules = { λ h. h.rules };

    ghost sure = { λ _. true };

    fn get(&self, index: usize, dir: SearchDirection) -> Result<Option<SearchResult<'_>>>
        ensures ok { IsOk result }
        ensures answer { Finds result (entry_at self.now.lines index) }
        ensures borrowed { FindsBorrowed result }
    {
        self.mem.get(index, dir)
    }

    #[tactic(auto, using(crate::proofs::HistoryLemmas::added_fits, crate::proofs::HistoryLemmas::added_left_out))]
    fn add(&mut self, line: &str) -> Result<bool>
        ensures answer { TellsTaken result self.old.rules self.old.lines line.now }
        ensures filed { self.new ≡ (if is_ok result then filed self.old line.now else self.old) }
        ensures faults { MemoryOnly result }
    {
        let taken = self.mem.add(line)?;
        if taken {
            self.new_entries = self.new_entries.saturating_add(1).min(self.mem.len());
        }
        Ok(taken)
    }

    #[tactic(auto, using(crate::proofs::HistoryLemmas::added_fits, crate::proofs::HistoryLemmas::added_left_out))]
    fn add_owned(&mut self, line: String) -> Result<bool>
        ensures answer { TellsTaken result self.old.rules self.old.lines (string_bytes line) }
        ensures filed { self.new
            ≡ (if is_ok result then filed self.old (string_bytes line) else self.old) }
        ensures faults { MemoryOnly result }
    {
        let taken = self.mem.add_owned(line)?;
        if taken {
            self.new_entries = self.new_entries.saturating_add(1).min(self.mem.len());
        }
        Ok(taken)
    }

    fn len(&self) -> usize
        ensures count { result ≡ length self.now.lines }
        ensures limit { result ≤ self.now.rules.max_len }
        ensures new_lines { self.now.new_lines ≤ result }
    {
        self.mem.len()
    }

    fn set_max_len(&mut self, len: usize) -> Result<()>
        ensures ok { IsOk result }
        ensures left { self.new ≡ filed_with_limit len self.old }
    {
        self.mem.set_max_len(len)?;
        self.new_entries = self.new_entries.min(len);
        Ok(())
    }

    fn ignore_dups(&mut self, yes: bool) -> Result<()>
        ensures ok { IsOk result }
        ensures left { self.new
            ≡ record self.old { rules = record self.old.rules { ignore_dups = yes } } }
    {
        self.mem.ignore_dups(yes)
    }

    fn ignore_space(&mut self, yes: bool)
        ensures { self.new
            ≡ record self.old { rules = record self.old.rules { ignore_space = yes } } }
    {
        self.mem.ignore_space(yes);
    }

    fn clear(&mut self) -> Result<()>
        ensures ok { IsOk result }
        ensures left { self.new ≡ record self.old { lines = []; new_lines = 0 } }
    {
        self.mem.clear()?;
        self.new_entries = 0;
        Ok(())
    }

    fn search(
        &self,
        term: &str,
        start: usize,
        dir: SearchDirection,
    ) -> Result<Option<SearchResult<'_>>>
        ensures ok { IsOk result }
        ensures answer { Finds result (search_in self.now.lines term.now start dir) }
        ensures borrowed { FindsBorrowed result }
    {
        self.mem.search(term, start, dir)
    }

    fn starts_with(
        &self,
        term: &str,
        start: usize,
        dir: SearchDirection,
    ) -> Result<Option<SearchResult<'_>>>
        ensures ok { IsOk result }
        ensures answer { Finds result (starting_with self.now.lines term.now start dir) }
        ensures borrowed { FindsBorrowed result }
    {
        self.mem.starts_with(term, start, dir)
    }
}

impl<'a> IntoIterator for &'a FileHistory {
    type Item = &'a String;

    type IntoIter = Iter<'a, String>;

    ghost into_iter_gives = { λ h lines. lines_to_come lines ≡ h.now.lines };

    /// Returns the lines in order, the oldest first, from either end.
    fn into_iter(self) -> Iter<'a, String> {
        self.iter()
    }
}
