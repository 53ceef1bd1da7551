//! The errors of input and output of those who are asked, and how an answer is known to be one.
ghost use Rattle.std.specs.Prelude.{IsErr};
ghost use Rattle.line_config.specs.Error.{FaultsOnly};

use line_config::{ReadlineError, Result};
use std::alloc::Global;
use std::io::{Error, ErrorKind};

/// An error of input or output: its kind, and the text that it displays.
#[derive(Clone, Copy)]
pub struct Fault {
    pub kind: ErrorKind,
    pub text: &'static str,
}

/// The fault of a helper or a history that has no other.
pub const USUAL: Fault = Fault {
    kind: ErrorKind::Other,
    text: "a party failed",
};

/// One of another kind, with a text of its own.
pub const GONE: Fault = Fault {
    kind: ErrorKind::PermissionDenied,
    text: "the disk is gone",
};

/// One of a kind that a loop over a stream may look for.
pub const CUT: Fault = Fault {
    kind: ErrorKind::UnexpectedEof,
    text: "the answer broke off",
};

/// The fault of one that does not answer.
pub const ASLEEP: Fault = Fault {
    kind: ErrorKind::PermissionDenied,
    text: "the party is asleep",
};

impl Fault {
    /// The error of a stream that fails by it.
    pub fn cause(self) -> Error {
        Error::new(self.kind, self.text)
    }

    /// The answer of one that fails by it.
    pub fn answer<T>(self) -> Result<T>
        ensures faults { FaultsOnly result }
        ensures err { IsErr result }
    {
        Err(ReadlineError::Io(self.cause()))
    }

    /// Whether this is the answer: an error of this kind, which displays this text.
    pub fn is_answer<T>(self, alloc: Global, outcome: &Result<T>) -> Result<bool> {
        let Err(ReadlineError::Io(cause)) = outcome else {
            return Ok(false);
        };
        let shown = format!(in alloc; "{cause}")?;
        Ok(cause.kind() == self.kind && shown.as_str() == self.text)
    }
}
