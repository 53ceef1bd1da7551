//! The error of every call that can fail.
ghost use Rattle.std.specs.Prelude.{◌≡◌};
ghost use Rattle.std.specs.declared.io.ErrorKind.TheVariants.{Other};
ghost use Rattle.line_config.specs.Error.{IsIoOfKind};
ghost use Rattle.line_config.specs.declared.error.ReadlineError.TheVariants.{Io, Memory};

use line_buffer::OutOfMemory;
use std::alloc::{AllocError, AllocFailed};
use std::{fmt, io};
use thiserror::Error;

/// Why a line could not be read, or a call could not do its work.
#[derive(Debug, Drop, Error)]
pub enum ReadlineError {
    /// The input has ended, or the end-of-file command was given on an empty line.
    #[error("EOF")]
    Eof,
    /// The line was interrupted, as by Ctrl-C.
    #[error("Interrupted")]
    Interrupted,
    /// The reader, the renderer, the helper, a handler, the history or a stream failed.
    #[error(transparent)]
    Io(io::Error),
    /// An allocation failed.
    #[error("out of memory")]
    Memory,
}

/// The result of a call of the line editor that can fail.
pub type Result<T> = std::result::Result<T, ReadlineError>;

impl From<io::Error> for ReadlineError {
    ghost from_gives = { λ cause e. e ≡ Io cause };

    fn from(cause: io::Error) -> ReadlineError {
        ReadlineError::Io(cause)
    }
}

impl From<io::ErrorKind> for ReadlineError {
    ghost from_gives = { λ kind e. IsIoOfKind e kind };

    fn from(kind: io::ErrorKind) -> ReadlineError {
        ReadlineError::Io(io::Error::from(kind))
    }
}

impl From<fmt::Error> for ReadlineError {
    ghost from_gives = { λ _ e. IsIoOfKind e Other };

    fn from(_cause: fmt::Error) -> ReadlineError {
        ReadlineError::Io(io::Error::from(io::ErrorKind::Other))
    }
}

impl From<AllocError> for ReadlineError {
    ghost from_gives = { λ _ e. e ≡ Memory };

    fn from(_refused: AllocError) -> ReadlineError {
        ReadlineError::Memory
    }
}

impl<T: Drop> From<AllocFailed<T>> for ReadlineError {
    ghost from_gives = { λ _ e. e ≡ Memory };

    fn from(_refused: AllocFailed<T>) -> ReadlineError {
        ReadlineError::Memory
    }
}

impl From<OutOfMemory> for ReadlineError {
    ghost from_gives = { λ _ e. e ≡ Memory };

    fn from(_refused: OutOfMemory) -> ReadlineError {
        ReadlineError::Memory
    }
}
