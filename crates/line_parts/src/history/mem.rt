//! A history that is kept in memory.
ghost use Rattle.std.specs.Prelude.{◌≡◌, ◌<◌, ◌≤◌, true, [], ◌∷◌, ◌++◌, length, map, is_ok};
ghost use Rattle.std.specs.Prelude.{string_bytes, IsOk, if◌then◌else◌};
ghost use Rattle.line_config.specs.Error.{MemoryOnly};
ghost use Rattle.line_parts.specs.History.{Finds, FindsBorrowed, entry_at, last_of, line_at};
ghost use Rattle.line_parts.specs.History.{lines_to_come, leaves_out, rules_of, search_in};
ghost use Rattle.line_parts.specs.History.{starting_with, usual_rules, is_newest, begins_blank};

use crate::history::search::{Place, nearest_match};
use crate::history::{History, SearchDirection, SearchResult};
use line_config::{Config, HistoryDuplicates, Result};
use std::alloc::Global;
use std::borrow::CowStr;
use std::collections::VecDeque;
use std::collections::vec_deque::Iter;
use std::marker::Model;

/// A history that is kept in memory.
pub struct MemHistory {
    entries: VecDeque<String>,
    max_len: usize,
    ignore_dups: bool,
    ignore_space: bool,
}

impl Drop for MemHistory {
    fn drop(self) {
        let MemHistory {
            entries: _,
            max_len: _,
            ignore_dups: _,
            ignore_space: _,
        } = self;
    }
}

impl Model for MemHistory {
    ghost use Rattle.std.specs.Prelude.{◌≤◌, length, map, string_bytes};
    ghost use Rattle.line_parts.specs.History.{PlainHistory};

    ghost Value = { PlainHistory };

    ghost view = { λ h. record {
      lines = map string_bytes h.entries.items;
      rules = record {
        max_len = h.max_len;
        ignore_dups = h.ignore_dups;
        ignore_space = h.ignore_space;
      };
    } };

    ghost invariant = { λ h. length h.entries.items ≤ h.max_len };
}

impl MemHistory {
    /// Returns a history without lines, which keeps at most 100. It leaves out a line that equals
    /// the newest one, and keeps those that begin with white space. It grows from `alloc`.
    pub fn new(alloc: Global) -> MemHistory
        ensures { result ≡ record { lines = []; rules = usual_rules } }
    {
        MemHistory {
            entries: VecDeque::new(alloc),
            max_len: 100,
            ignore_dups: true,
            ignore_space: false,
        }
    }

    /// Returns a history without lines, which takes lines as `config` says. It grows from `alloc`.
    pub fn with_config(alloc: Global, config: &Config) -> MemHistory
        ensures { result ≡ record { lines = []; rules = rules_of config.now } }
    {
        MemHistory {
            entries: VecDeque::new(alloc),
            max_len: config.max_history_size(),
            ignore_dups: config.history_duplicates() == HistoryDuplicates::IgnoreConsecutive,
            ignore_space: config.history_ignore_space(),
        }
    }

    /// Returns the line at `index`.
    pub fn entry(&self, index: usize) -> &str
        requires { index < length self.now.lines }
        ensures { result.now ≡ line_at self.now.lines index }
    {
        self.entries[index].as_str()
    }

    // Returns the lines in order, the oldest first.
    pub(crate) fn iter(&self) -> Iter<'_, String>
        ensures { lines_to_come result ≡ self.now.lines }
    {
        self.entries.iter()
    }

    // Returns what the history grows from.
    pub(super) fn alloc(&self) -> Global {
        *self.entries.allocator()
    }

    // Returns whether `line` is left out.
    fn ignores(&self, line: &str) -> bool
        ensures { result ≡ leaves_out self.now.rules self.now.lines line.now }
    {
        if self.max_len == 0 || line.is_empty() {
            return true;
        }
        if self.ignore_space && begins_with_space(line) {
            return true;
        }
        self.ignore_dups && self.is_newest(line)
    }

    // Returns whether the newest line is this one.
    #[tactic(auto, using(crate::proofs::HistoryLemmas::newest_is))]
    fn is_newest(&self, line: &str) -> bool
        ensures { result ≡ is_newest self.now.lines line.now }
    {
        match self.entries.back() {
            Some(newest) => line == newest.as_str(),
            None => false,
        }
    }

    // Puts a line after the others, and drops the oldest where there is one too many.
    #[tactic(auto, using(crate::proofs::HistoryLemmas::pushed, crate::proofs::HistoryLemmas::pushed_past))]
    fn insert(&mut self, line: String) -> Result<()>
        requires { 0 < self.old.rules.max_len }
        ensures lines { self.new.lines ≡ (if is_ok result
            then last_of self.old.rules.max_len (self.old.lines ++ string_bytes line ∷ [])
            else self.old.lines) }
        ensures rules { self.new.rules ≡ self.old.rules }
        ensures memory { MemoryOnly result }
    {
        self.entries.push_back(line)?;
        if self.max_len < self.entries.len() {
            self.entries.pop_front();
        }
        Ok(())
    }
}

// Returns whether a text begins with white space.
fn begins_with_space(text: &str) -> bool
    ensures { result ≡ begins_blank text.now }
{
    match text.chars().next() {
        Some(first) => first.is_whitespace(),
        None => false,
    }
}

impl History for MemHistory {
    ghost lines = { λ h. h.lines };

    ghost rules = { λ h. h.rules };

    ghost sure = { λ _. true };

    fn get(&self, index: usize, _dir: SearchDirection) -> Result<Option<SearchResult<'_>>>
        ensures ok { IsOk result }
        ensures answer { Finds result (entry_at self.now.lines index) }
        ensures borrowed { FindsBorrowed result }
    {
        match self.entries.get(index) {
            Some(entry) => Ok(Some(SearchResult {
                entry: CowStr::Borrowed(entry.as_str()),
                idx: index,
                pos: 0,
            })),
            None => Ok(None),
        }
    }

    fn add(&mut self, line: &str) -> Result<bool> {
        if self.ignores(line) {
            return Ok(false);
        }
        let copy = String::from_str(*self.entries.allocator(), line)?;
        self.insert(copy)?;
        Ok(true)
    }

    fn add_owned(&mut self, line: String) -> Result<bool> {
        if self.ignores(line.as_str()) {
            return Ok(false);
        }
        self.insert(line)?;
        Ok(true)
    }

    fn len(&self) -> usize
        ensures count { result ≡ length self.now.lines }
        ensures limit { result ≤ self.now.rules.max_len }
    {
        self.entries.len()
    }

    #[tactic(auto, using(crate::proofs::HistoryLemmas::last_of_values))]
    fn set_max_len(&mut self, len: usize) -> Result<()>
        ensures ok { IsOk result }
        ensures lines { self.new.lines ≡ last_of len self.old.lines }
        ensures rules { self.new.rules ≡ record self.old.rules { max_len = len } }
    {
        let excess = self.entries.len().saturating_sub(len);
        self.entries.drain(..excess);
        self.max_len = len;
        Ok(())
    }

    fn ignore_dups(&mut self, yes: bool) -> Result<()>
        ensures ok { IsOk result }
        ensures lines { self.new.lines ≡ self.old.lines }
        ensures rules { self.new.rules ≡ record self.old.rules { ignore_dups = yes } }
    {
        self.ignore_dups = yes;
        Ok(())
    }

    fn ignore_space(&mut self, yes: bool) {
        self.ignore_space = yes;
    }

    fn clear(&mut self) -> Result<()>
        ensures ok { IsOk result }
        ensures lines { self.new.lines ≡ [] }
        ensures rules { self.new.rules ≡ self.old.rules }
    {
        self.entries.clear();
        Ok(())
    }

    fn search(
        &self,
        term: &str,
        start: usize,
        dir: SearchDirection,
    ) -> Result<Option<SearchResult<'_>>>
        ensures ok { IsOk result }
        ensures answer { Finds result (search_in self.now.lines term.now start dir) }
        ensures borrowed { FindsBorrowed result }
    {
        Ok(nearest_match(&self.entries, Place::Inside, term, start, dir))
    }

    fn starts_with(
        &self,
        term: &str,
        start: usize,
        dir: SearchDirection,
    ) -> Result<Option<SearchResult<'_>>>
        ensures ok { IsOk result }
        ensures answer { Finds result (starting_with self.now.lines term.now start dir) }
        ensures borrowed { FindsBorrowed result }
    {
        Ok(nearest_match(&self.entries, Place::Start, term, start, dir))
    }
}

impl<'a> IntoIterator for &'a MemHistory {
    type Item = &'a String;

    type IntoIter = Iter<'a, String>;

    ghost into_iter_gives = { λ h lines. lines_to_come lines ≡ h.now.lines };

    /// Returns the lines in order, the oldest first, from either end.
    fn into_iter(self) -> Iter<'a, String> {
        self.iter()
    }
}
