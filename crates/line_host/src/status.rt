//! How a call of a session ended.
ghost use Rattle.std.specs.Prelude.{◌≡◌, true, IfErr, OnErr, OnOk};
ghost use Rattle.line_config.specs.Error.{FaultsOnly, is_fault, is_memory};
ghost use Rattle.line_host.specs.Status.{ReportsFault, code_of, status_of};

use line_config::{ReadlineError, Result};
use std::io::ErrorKind;

/// How a call of a session ended. Each has a number, which the host gets.
#[derive(Clone, Copy, Debug, PartialEq, Eq)]
pub enum Status {
    /// It is done; of a line: it goes on, and more bytes are wanted.
    Done = 0,
    /// The line was submitted.
    Submitted = 1,
    /// The input ended.
    Ended = 2,
    /// The person interrupted.
    Interrupted = 3,
    /// The person asked to suspend the program. The next call that reads keys goes on.
    Suspended = 4,
    /// An allocation failed.
    NoMemory = 16,
    /// Input or output failed.
    Failed = 17,
    /// Bytes are not UTF-8.
    NotText = 18,
    /// No line goes on.
    NoLine = 19,
    /// A line goes on.
    HasLine = 20,
    /// A buffer is too small.
    TooSmall = 21,
    /// No key is called so.
    NoKey = 22,
    /// No command is called so.
    NoCommand = 23,
    /// There is no session.
    Empty = 24,
    /// There is a session already.
    InUse = 25,
    /// A setting is out of its range.
    BadSetting = 27,
}

impl Status {
    /// Returns the number of the status.
    pub fn code(self) -> u32
        ensures { result ≡ code_of self }
    {
        self as u32
    }

    /// Returns `Done`, or the status of an error.
    pub(crate) fn of<T: Drop>(done: Result<T>) -> Status
        requires { FaultsOnly done }
        ensures done { OnOk done (result ≡ Status.Done) }
        ensures status { IfErr done (λ error. result ≡ status_of error) }
        ensures fault { OnErr done (ReportsFault result) }
    {
        match done {
            Ok(_) => Status::Done,
            Err(error) => Status::of_error(error),
        }
    }

    /// Returns the status of an error: a stream that wants memory is a want of memory.
    pub(crate) fn of_error(error: ReadlineError) -> Status
        ensures status { result ≡ status_of error }
        ensures fault { is_fault error ≡ true → ReportsFault result }
        ensures memory { is_memory error ≡ true → result ≡ Status.NoMemory }
    {
        match error {
            ReadlineError::Eof => Status::Ended,
            ReadlineError::Interrupted => Status::Interrupted,
            ReadlineError::Memory => Status::NoMemory,
            ReadlineError::Io(cause) if cause.kind() == ErrorKind::OutOfMemory => Status::NoMemory,
            ReadlineError::Io(_) => Status::Failed,
        }
    }
}
