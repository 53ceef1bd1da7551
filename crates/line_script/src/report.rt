//! What is printed of a run.
ghost use Rattle.std.specs.Prelude.{◌≡◌, ◌≤◌};
ghost use Rattle.line_script.specs.Outcome.{outcome_of, status_of};

use line_buffer::Position;
use line_config::{ReadlineError, Result};
use line_parts::Escapes;
use memchr::memchr2;
use std::fmt::{Display, Formatter};
use std::io::Write;
use std::{fmt, io};

/// How a run ended.
#[derive(Clone, Copy, Debug, PartialEq, Eq)]
pub enum Outcome {
    /// The line was submitted.
    Submitted,
    /// The input ended.
    Eof,
    /// The line was interrupted.
    Interrupted,
    /// Input, output, the helper, a handler or the history failed, or memory ran out.
    Fault,
}

impl Outcome {
    /// How a run ended that had this answer.
    pub fn of(answer: Result<()>) -> Outcome
        ensures { result ≡ outcome_of answer }
    {
        match answer {
            Ok(()) => Outcome::Submitted,
            Err(ReadlineError::Eof) => Outcome::Eof,
            Err(ReadlineError::Interrupted) => Outcome::Interrupted,
            Err(ReadlineError::Io(_) | ReadlineError::Memory) => Outcome::Fault,
        }
    }
}

impl Display for Outcome {
    fn fmt<W: fmt::Write>(&self, f: &mut Formatter<W>) -> fmt::Result {
        f.write_str(match self {
            Outcome::Submitted => "submitted",
            Outcome::Eof => "eof",
            Outcome::Interrupted => "interrupted",
            Outcome::Fault => "fault",
        })
    }
}

/// What the program did.
#[derive(Clone, Copy)]
pub enum Ending {
    /// It ran the script, which ended so.
    Ran(Outcome),
    /// It named the script's first bad line.
    BadScript,
}

/// The status that the program ends with. An error is a fault of memory, or of one of the program's
/// own streams.
pub fn exit_status(answer: Result<Ending>) -> u8
    ensures value { result ≡ status_of answer }
    ensures bound { result ≤ 4 }
{
    match answer {
        Ok(Ending::Ran(Outcome::Submitted)) => 0,
        Ok(Ending::Ran(Outcome::Eof)) => 1,
        Ok(Ending::Ran(Outcome::Interrupted)) => 2,
        Ok(Ending::Ran(Outcome::Fault)) | Err(_) => 3,
        Ok(Ending::BadScript) => 4,
    }
}

/// What became of the line.
#[derive(Clone, Copy, Debug)]
pub struct Report<'a> {
    /// How the run ended.
    pub outcome: Outcome,
    /// The line's text.
    pub line: &'a str,
    /// The cursor's place in it, in bytes.
    pub cursor: usize,
    /// The history index.
    pub place: usize,
    /// Where the cursor was drawn.
    pub at: Position,
    /// How many full redraws there were.
    pub redraws: u64,
}

impl Report<'_> {
    /// Writes the report, a line for each part of it.
    ///
    /// # Errors
    /// The error of `out`, if that fails. It may then have a part of the report.
    pub fn write_to<O: Write>(&self, out: &mut O) -> io::Result<()> {
        writeln!(out, "outcome {}", self.outcome)?;
        out.write_all(b"line ")?;
        write_escaped(self.line, out)?;
        writeln!(out)?;
        writeln!(out, "cursor {}", self.cursor)?;
        writeln!(out, "place {}", self.place)?;
        writeln!(out, "at {} {}", self.at.row, self.at.col)?;
        writeln!(out, "redraws {}", self.redraws)
    }
}

/// Writes the text with its backslashes and newlines escaped, and what stands between them as it
/// is.
///
/// # Errors
/// The error of `out`, if that fails. It may then have a part of the text.
pub fn write_escaped<O: Write>(text: &str, out: &mut O) -> io::Result<()> {
    let mut rest = text.as_bytes();
    while let Some(at) = memchr2(b'\\', b'\n', rest) {
        let (run, behind) = rest.split_at(at);
        out.write_all(run)?;
        match Escapes::V2.escape_of(behind[0]) {
            Some(escape) => out.write_all(escape.as_bytes())?,
            None => out.write_all(&behind[..1])?,
        }
        rest = &behind[1..];
    }
    out.write_all(rest)
}
