//! The text in which a history is saved and loaded.
ghost use Rattle.std.specs.Prelude.{◌≡◌, ◌≢◌, ◌≤◌, ◌∷◌, [], length, drop, true};
ghost use Rattle.std.specs.Prelude.{OnOk, OnErr, IfOk, IfSome, MatchOption};
ghost use Rattle.std.specs.Str.{IsUtf8};
ghost use Rattle.std.specs.IoError.{error_kind};
ghost use Rattle.std.specs.declared.io.ErrorKind.TheVariants.{InvalidData, OutOfMemory};
ghost use Rattle.line_config.specs.Error.{FaultsOnly, IoOnlyOfKind};
ghost use Rattle.line_config.specs.Error.{is_fault, is_io};
ghost use Rattle.line_config.specs.declared.error.ReadlineError.TheVariants.{Io, Memory};
ghost use Rattle.line_parts.specs.declared.escaped_line.Escapes.TheVariants.{V2, V3};
ghost use Rattle.std.specs.Io.KnownBytes.{append_known, Appends};
ghost use Rattle.line_parts.specs.History.{TellsTaken, filed};
ghost use Rattle.line_parts.specs.HistoryText.{header, lines_of, written};
ghost use Rattle.line_parts.specs.HistoryText.{AddsFirst, AddsLines, AddsSome, AddsWhole, ReadsHeader, FilesSome};
ghost use Rattle.line_parts.specs.HistoryText.{LoadsFirst, LoadsWhole, Saves};
ghost use Rattle.line_parts.specs.LoadStop.{AddsToNoText, HasTooManyLines, LoadsToNoText, SaysNoText, StopsBy, StopsOnlyIf, StopsReading};

use crate::escaped_line::{Escapes, push_escaped_line, unescape_line};
use crate::history::lines::{Loaded, Stop, read_line};
use crate::history::{FileHistory, History};
use line_config::{ReadlineError, Result};
use std::io::{BufRead, BufReader, Read, Write};
use std::{io, str};

// Returns the first line of a text with these escapes.
fn header_of(escapes: Escapes) -> &'static [u8]
    ensures { result.now ≡ header escapes }
{
    match escapes {
        Escapes::V2 => b"#V2",
        Escapes::V3 => b"#V3",
    }
}

// Returns the escapes of a text that begins with this line: `None` where it is no header.
fn escapes_of_header(line: &[u8]) -> Option<Escapes>
    ensures { MatchOption result ((escapes : Escapes) → line.now ≢ header escapes)
        (λ escapes. line.now ≡ header escapes) }
{
    if line == header_of(Escapes::V2) {
        return Some(Escapes::V2);
    }
    if line == header_of(Escapes::V3) {
        return Some(Escapes::V3);
    }
    None
}

// How long a text grows before it is handed to the writer.
const BUFFERED: usize = 8192;

// Returns the error of a stream: a refused allocation is a want of memory.
fn stream_fault(cause: io::Error) -> ReadlineError
    ensures fault { is_fault result ≡ true }
    ensures kept { is_io result ≡ true → result ≡ Io cause }
    ensures memory { error_kind cause ≡ OutOfMemory → result ≡ Memory }
    ensures other { error_kind cause ≢ OutOfMemory → result ≡ Io cause }
{
    if cause.kind() == io::ErrorKind::OutOfMemory {
        return ReadlineError::Memory;
    }
    ReadlineError::Io(cause)
}

// Returns the error of a load that stops so.
fn load_fault(stop: Stop) -> ReadlineError
    ensures { StopsBy stop result }
{
    match stop {
        Stop::Reader(fault) => stream_fault(fault.cause()),
        Stop::NotText => ReadlineError::from(io::ErrorKind::InvalidData),
        Stop::TooLong => ReadlineError::from(io::ErrorKind::FileTooLarge),
        Stop::Memory => ReadlineError::Memory,
    }
}

// Writes a text, and empties it.
fn write_out<T: Write>(text: &mut Vec<u8>, out: &mut T) -> Result<()>
    ensures text { OnOk result (Appends (T.contents out.old) (T.contents out.new) text.old.items) }
    ensures empty { OnOk result (text.new.items ≡ []) }
    ensures kind { IoOnlyOfKind result (λ kind. kind ≢ OutOfMemory) }
    ensures faults { FaultsOnly result }
{
    out.write_all(text.as_slice()).map_err(stream_fault)?;
    text.clear();
    Ok(())
}

impl FileHistory {
    // Writes the lines from an index on after a text that waits to be written, and leaves the last
    // of them waiting.
    #[tactic(auto, using(crate::proofs::SaveLemmas::written_none, crate::proofs::SaveLemmas::written_more, crate::proofs::SaveLemmas::written_out, crate::proofs::SaveLemmas::written_all))]
    fn write_lines<T: Write>(
        &self,
        first: usize,
        escapes: Escapes,
        text: &mut Vec<u8>,
        out: &mut T,
    ) -> Result<()>
        requires { first ≤ length self.now.lines }
        ensures text { OnOk result (Appends
            (append_known (T.contents out.old) text.old.items)
            (append_known (T.contents out.new) text.new.items)
            (written escapes (drop first self.now.lines))) }
        ensures kind { IoOnlyOfKind result (λ kind. kind ≢ OutOfMemory) }
        ensures faults { FaultsOnly result }
    {
        for index in first..self.len() {
            push_escaped_line(text, self.entry(index), escapes)?;
            text.push(b'\n')?;
            if text.len() >= BUFFERED {
                write_out(text, out)?;
            }
        }
        Ok(())
    }

    // Saves with these escapes, as `save_to` and `save_v3_to` say.
    fn save_by<T: Write>(&mut self, escapes: Escapes, out: &mut T, append: bool) -> Result<()>
        ensures { Saves escapes append result
            (T.contents out.old) (T.contents out.new) self.old self.new }
    {
        let mut text = Vec::new(self.alloc());
        let mut first = self.first_new();
        if !append {
            text.extend_from_slice(header_of(escapes))?;
            text.push(b'\n')?;
            first = 0;
        }
        self.write_lines(first, escapes, &mut text, out)?;
        write_out(&mut text, out)?;
        out.flush().map_err(stream_fault)?;
        self.settle();
        Ok(())
    }

    /// Writes the header line `#V2` and all lines to `out`, with a line feed after each, and
    /// flushes it. In a line a backslash is written as `\\`, and a newline as `\n`. With `append`
    /// only the new lines are written, those that were added since the last save or load that
    /// succeeded, and no header. After that no line counts as new.
    ///
    /// A line that ends in a carriage return is loaded without it: `save_v3_to` keeps it.
    ///
    /// # Errors
    /// `Io` if the writer fails, and `Memory` if memory runs out. The history and its new lines
    /// then stay as they were, and `out` may have a part of the text.
    pub fn save_to<T: Write>(&mut self, out: &mut T, append: bool) -> Result<()>
        ensures { Saves V2 append result
            (T.contents out.old) (T.contents out.new) self.old self.new }
    {
        self.save_by(Escapes::V2, out, append)
    }

    /// Writes what `save_to` does, with the header line `#V3` and a carriage return as `\r`, so
    /// that each line is loaded as it was.
    ///
    /// A text keeps one form: what is appended after `#V2` is read with the escapes of `#V2`, and
    /// the other way round.
    ///
    /// # Errors
    /// `Io` if the writer fails, and `Memory` if memory runs out. The history and its new lines
    /// then stay as they were, and `out` may have a part of the text.
    pub fn save_v3_to<T: Write>(&mut self, out: &mut T, append: bool) -> Result<()>
        ensures { Saves V3 append result
            (T.contents out.old) (T.contents out.new) self.old self.new }
    {
        self.save_by(Escapes::V3, out, append)
    }
}

impl FileHistory {
    // Adds a line that was read, which has to be UTF-8.
    fn add_bytes(&mut self, line: &[u8]) -> Loaded<bool>
        ensures answer { TellsTaken result self.old.rules self.old.lines line.now }
        ensures filed { OnOk result (self.new ≡ filed self.old line.now) }
        ensures unchanged { OnErr result (self.new ≡ self.old) }
        ensures stops { StopsOnlyIf result (¬ (IsUtf8 line.now)) ⊥ }
    {
        match str::from_utf8(line) {
            Ok(line) => self.add(line).map_err(|_| Stop::Memory),
            Err(_) => Err(Stop::NotText),
        }
    }

    // Adds what a line says, unless it is empty. Its text is built in `text`.
    #[tactic(auto, using(crate::proofs::LoadLemmas::adds_empty, crate::proofs::LoadLemmas::adds_plain, crate::proofs::LoadLemmas::adds_unescaped, crate::proofs::LoadLemmas::adds_as_it_stands))]
    fn load_line(
        &mut self,
        line: &[u8],
        headed: Option<Escapes>,
        text: &mut Vec<u8>,
    ) -> Loaded<bool>
        ensures adds { IfOk result (AddsLines headed (line.now ∷ []) self.old self.new) }
        ensures unchanged { OnErr result (self.new ≡ self.old) }
        ensures stops { StopsOnlyIf result (SaysNoText headed line.now) ⊥ }
    {
        if line.is_empty() {
            return Ok(true);
        }
        let Some(escapes) = headed else {
            return self.add_bytes(line);
        };
        match unescape_line(line, escapes, text) {
            Ok(true) => self.add_bytes(text.as_slice()),
            Ok(false) => self.add_bytes(line),
            Err(_) => Err(Stop::Memory),
        }
    }

    // Reads a header, or else the first line, and adds that. Returns the escapes of the header.
    #[tactic(auto, using(crate::proofs::LoadLemmas::begins_empty, crate::proofs::LoadLemmas::begins_header, crate::proofs::LoadLemmas::begins_line, crate::proofs::LoadLemmas::begins_blank))]
    fn load_first<B: BufRead>(&mut self, reader: &mut B) -> Loaded<Option<Escapes>>
        ensures begins { IfOk result
            (ReadsHeader (B.remaining reader.old) (B.remaining reader.new) self.old self.new) }
        ensures unchanged { OnErr result (self.new ≡ self.old) }
        ensures stops { StopsOnlyIf result (IfSome (B.remaining reader.old)
            (λ text. LoadsToNoText text self.old self.new)) ⊥ }
    {
        let mut line = Vec::new(self.alloc());
        if !read_line(reader, &mut line)? {
            return Ok(None);
        }
        if let Some(escapes) = escapes_of_header(line.as_slice()) {
            return Ok(Some(escapes));
        }
        if !line.is_empty() {
            self.add_bytes(line.as_slice())?;
        }
        Ok(None)
    }

    // Reads the lines after the first one and adds them. Returns whether all were taken.
    #[tactic(auto, using(crate::proofs::LoadLemmas::loading_none, crate::proofs::LoadLemmas::loading_more, crate::proofs::LoadLemmas::loading_ended, crate::proofs::LoadLemmas::loading_beginning, crate::proofs::LoadLemmas::loading_some))]
    fn load_rest<B: BufRead>(&mut self, reader: &mut B, headed: Option<Escapes>) -> Loaded<bool>
        ensures all { AddsWhole result headed (B.remaining reader.old) self.old self.new }
        ensures beginning { AddsFirst result headed (B.remaining reader.old) self.old self.new }
        ensures some { AddsSome self.old self.new }
        ensures stops { let text = B.remaining reader.old in StopsOnlyIf result
            (IfSome text (λ t. AddsToNoText headed (lines_of t) self.old self.new))
            (IfSome text HasTooManyLines) }
    {
        let mut line = Vec::new(self.alloc());
        let mut text = Vec::new(self.alloc());
        let mut taken = true;
        for _ in 0..u64::MAX {
            if !read_line(reader, &mut line)? {
                return Ok(taken);
            }
            let added = self.load_line(line.as_slice(), headed, &mut text)?;
            taken = taken && added;
        }
        Err(Stop::TooLong)
    }

    // Reads a whole text and adds its lines, as `load_from` says.
    #[tactic(auto, using(crate::proofs::LoadLemmas::loads_headed, crate::proofs::LoadLemmas::loads_bare, crate::proofs::LoadLemmas::adds_some_none, crate::proofs::LoadLemmas::adds_some_more))]
    fn load_text<B: BufRead>(&mut self, reader: &mut B) -> Loaded<bool>
        ensures loads { LoadsWhole result (B.remaining reader.old) self.old self.new }
        ensures beginning { LoadsFirst result (B.remaining reader.old) self.old self.new }
        ensures adds { FilesSome result self.old self.new }
        ensures stops { let text = B.remaining reader.old in StopsOnlyIf result
            (IfSome text (λ t. LoadsToNoText t self.old self.new)) (IfSome text HasTooManyLines) }
    {
        let headed = self.load_first(reader)?;
        let taken = self.load_rest(reader, headed)?;
        self.settle();
        if headed.is_none() {
            return Ok(false);
        }
        Ok(taken)
    }

    /// Reads lines from `reader` to its end, and adds each. A text that begins with the line `#V2`
    /// has escapes, as `save_to` writes them, and one that begins with `#V3` those of `save_v3_to`;
    /// in any other each line is added as it stands. A line with a backslash that begins none of
    /// the escapes is added as it stands too. Empty lines are skipped. Returns whether the text
    /// began so, and every line was taken. After that no line counts as new.
    ///
    /// # Errors
    /// `Io` if the reader fails, with the reader's own error. `Io` of kind `InvalidData` if what a
    /// line says is not UTF-8, and of kind `FileTooLarge` if there are more lines than a `u64` can
    /// count. `Memory` if memory runs out, also where the reader says so. The lines before the
    /// fault are then in the history, and count as new.
    #[tactic(auto, using(crate::proofs::LoadLemmas::nothing_read, crate::proofs::LoadLemmas::adds_some_none, crate::proofs::LoadLemmas::reader_known))]
    pub fn load_from<T: Read + Drop>(&mut self, reader: T) -> Result<bool>
        ensures loads { LoadsWhole result (T.remaining reader) self.old self.new }
        ensures beginning { LoadsFirst result (T.remaining reader) self.old self.new }
        ensures adds { FilesSome result self.old self.new }
        ensures kind { IoOnlyOfKind result StopsReading }
        ensures faults { FaultsOnly result }
    {
        match BufReader::new(self.alloc(), reader) {
            Ok(mut reader) => self.load_text(&mut reader).map_err(load_fault),
            Err(cause) => Err(stream_fault(cause)),
        }
    }
}
