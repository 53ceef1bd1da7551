//! A count of the calls that a helper or a history gets, one of which fails.
ghost use Rattle.line_config.specs.Error.{FaultsOnly};

use crate::fault::Fault;
use line_config::Result;
use std::cell::Cell;

/// How many calls come up to the one that fails, itself included, 0 where none is to fail; and what
/// it answers.
#[derive(Drop)]
pub struct Countdown {
    left: Cell<u64>,
    fault: Fault,
}

impl Countdown {
    /// The call of the number `failing`, from 1 on, fails by this fault; none does where that is 0.
    pub fn with(failing: u64, fault: Fault) -> Countdown {
        Countdown {
            left: Cell::new(failing),
            fault,
        }
    }

    /// Counts a call, and fails where it is the one that is to fail.
    pub fn call(&self) -> Result<()>
        ensures { FaultsOnly result }
    {
        let left = self.left.get();
        self.left.set(left.saturating_sub(1));
        if left == 1 {
            return self.fault.answer();
        }
        Ok(())
    }
}
