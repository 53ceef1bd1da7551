//! A history of which a call can fail.
ghost use Rattle.line_config.specs.Error.{FaultsOnly};

use crate::countdown::Countdown;
use crate::fault::{Fault, USUAL};
use line_config::Result;
use line_parts::history::{SearchDirection, SearchResult};
use line_parts::{History, MemHistory};
use std::alloc::Global;

/// A look-up, with the index that is looked at first.
#[derive(Clone, Copy, PartialEq, Eq)]
pub enum Call {
    Get(usize),
    Search(usize),
    StartsWith(usize),
}

/// Which look-ups fail.
#[derive(Clone, Copy)]
pub enum Failing {
    /// This one alone.
    Only(Call),
    /// All others.
    AllBut(Call),
    /// All.
    All,
}

/// A history: lines that are kept in memory, and how many look-ups come up to the one that fails.
pub struct Shelf {
    lines: MemHistory,
    countdown: Countdown,
    /// The look-ups that fail each time, and by which fault.
    pub failing: Option<(Failing, Fault)>,
}

impl Drop for Shelf {
    fn drop(self) {
        let Shelf {
            lines: _,
            countdown: _,
            failing: _,
        } = self;
    }
}

impl Shelf {
    /// A history without lines. Its look-up of the number `failing`, from 1 on, fails; none does
    /// where that is 0.
    pub fn new(alloc: Global, failing: u64) -> Shelf {
        Shelf {
            lines: MemHistory::new(alloc),
            countdown: Countdown::with(failing, USUAL),
            failing: None,
        }
    }

    /// Its look-up of the number `failing`, from 1 on, fails by this fault; none does where that is
    /// 0.
    pub fn fail_by(&mut self, failing: u64, fault: Fault) {
        self.countdown = Countdown::with(failing, fault);
    }

    /// Counts a look-up, and fails where it is to fail.
    fn called(&self, call: Call) -> Result<()>
        ensures { FaultsOnly result }
    {
        match self.failing {
            Some((Failing::Only(one), fault)) if one == call => fault.answer(),
            Some((Failing::AllBut(one), fault)) if one != call => fault.answer(),
            Some((Failing::All, fault)) => fault.answer(),
            _ => self.countdown.call(),
        }
    }
}

impl History for Shelf {
    ghost use Rattle.std.specs.Prelude.{false};

    ghost lines = { λ s. s.lines.lines };

    ghost rules = { λ s. s.lines.rules };

    ghost sure = { λ _. false };

    fn get(&self, index: usize, dir: SearchDirection) -> Result<Option<SearchResult<'_>>> {
        self.called(Call::Get(index))?;
        self.lines.get(index, dir)
    }

    fn add(&mut self, line: &str) -> Result<bool> {
        self.lines.add(line)
    }

    fn add_owned(&mut self, line: String) -> Result<bool> {
        self.lines.add_owned(line)
    }

    fn len(&self) -> usize {
        self.lines.len()
    }

    fn set_max_len(&mut self, len: usize) -> Result<()> {
        self.lines.set_max_len(len)
    }

    fn ignore_dups(&mut self, yes: bool) -> Result<()> {
        self.lines.ignore_dups(yes)
    }

    fn ignore_space(&mut self, yes: bool) {
        self.lines.ignore_space(yes);
    }

    fn clear(&mut self) -> Result<()> {
        self.lines.clear()
    }

    fn search(
        &self,
        term: &str,
        start: usize,
        dir: SearchDirection,
    ) -> Result<Option<SearchResult<'_>>> {
        self.called(Call::Search(start))?;
        self.lines.search(term, start, dir)
    }

    fn starts_with(
        &self,
        term: &str,
        start: usize,
        dir: SearchDirection,
    ) -> Result<Option<SearchResult<'_>>> {
        self.called(Call::StartsWith(start))?;
        self.lines.starts_with(term, start, dir)
    }
}
