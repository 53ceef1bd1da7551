//! The lines of a text that is loaded, and why one is not loaded to its end.
ghost use Rattle.std.specs.Prelude.{◌≡◌, ◌∷◌, [], false, IfOk, IfSome, if◌then◌else◌};
ghost use Rattle.std.specs.Io.BufRead.{ends_with_byte, strip_last};
ghost use Rattle.line_parts.specs.HistoryText.{GoesOn, lines_of};
ghost use Rattle.line_parts.specs.LoadStop.{StopsOnlyIf, cause_of};

use std::io::BufRead;
use std::{io, result};

/// The error of a reader. It is made where a line is read, and nowhere else.
#[derive(Drop)]
pub(super) struct ReaderFault {
    cause: io::Error,
}

impl ReaderFault {
    /// Returns the error.
    pub(super) fn cause(self) -> io::Error
        ensures { result ≡ cause_of self }
    {
        self.cause
    }
}

/// Why a text is not loaded to its end.
#[derive(Drop)]
pub(super) enum Stop {
    /// Its reader fails.
    Reader(ReaderFault),
    /// A line says no text in UTF-8.
    NotText,
    /// It has more lines than a `u64` can count.
    TooLong,
    /// An allocation fails.
    Memory,
}

/// What a part of a load answers.
pub(super) type Loaded<T> = result::Result<T, Stop>;

/// Takes the last byte off, where it is `byte`, and returns whether it was.
fn pop_if_last(bytes: &mut Vec<u8>, byte: u8) -> bool
    ensures popped { result ≡ ends_with_byte byte bytes.old.items }
    ensures rest { bytes.new.items ≡ strip_last byte bytes.old.items }
{
    if bytes.last() != Some(&byte) {
        return false;
    }
    bytes.pop();
    true
}

/// Reads the next line into `line`, without its line feed and one carriage return before that.
/// Returns whether there was one.
#[tactic(auto, using(crate::proofs::LoadLemmas::read_none, crate::proofs::LoadLemmas::ended_none, crate::proofs::LoadLemmas::read_one, crate::proofs::LoadLemmas::trimmed_kept, crate::proofs::LoadLemmas::trimmed_cut))]
pub(super) fn read_line<B: BufRead>(reader: &mut B, line: &mut Vec<u8>) -> Loaded<bool>
    ensures goes_on { IfOk result (λ more. GoesOn (B.remaining reader.old) (B.remaining reader.new)
        (if more then line.new.items ∷ [] else [])) }
    ensures ended { IfOk result (λ more. more ≡ false
        → IfSome (B.remaining reader.old) (λ text. lines_of text ≡ [])) }
    ensures stops { StopsOnlyIf result ⊥ ⊥ }
{
    line.clear();
    match reader.read_until(b'\n', line) {
        Ok(0) => return Ok(false),
        Ok(_) => {}
        Err(cause) => return Err(Stop::Reader(ReaderFault { cause })),
    }
    if !pop_if_last(line, b'\n') {
        return Ok(true);
    }
    pop_if_last(line, b'\r');
    Ok(true)
}
