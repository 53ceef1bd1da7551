//! Lines of text whose backslashes and line ends are escaped.
ghost use Rattle.std.specs.Prelude.{◌≡◌, ◌≢◌, ◌+◌, ◌<◌, ℕ, length, take, drop, slice_index};
ghost use Rattle.std.specs.Prelude.{◌++◌, ◌∷◌, [], true, false, List, OnOk, IfOk, IfSome, MatchOption};
ghost use Rattle.line_config.specs.Error.{MemoryOnly};
ghost use Rattle.memchr.specs.Find.{is_byte2};
ghost use Rattle.line_parts.specs.EscapedLine.{HasBadEscape, Unescapes, escaped_byte, escaped_line};

use line_config::Result;
use memchr::{memchr2, memchr3};

/// The characters of a line that are escaped.
#[derive(Clone, Copy, Debug, PartialEq, Eq)]
pub enum Escapes {
    /// A backslash as `\\` and a newline as `\n`, as in history text that begins with `#V2`.
    V2,
    /// A carriage return as `\r` too, as in history text that begins with `#V3`.
    V3,
}

impl Escapes {
    /// Returns how a byte is escaped. `None` where it stands as it is.
    pub fn escape_of(self, byte: u8) -> Option<&'static str>
        ensures escape { MatchOption result (escaped_byte self byte ≡ byte ∷ [])
            (λ escape. escape.now ≡ escaped_byte self byte) }
        ensures known { IfSome result (λ _. escaped_byte self byte ≢ byte ∷ []) }
    {
        match (byte, self) {
            (b'\\', _) => Some(r"\\"),
            (b'\n', _) => Some(r"\n"),
            (b'\r', Escapes::V3) => Some(r"\r"),
            _ => None,
        }
    }

    /// Returns the byte that a letter after a backslash stands for: `None` where it stands for
    /// none.
    fn byte_of(self, letter: u8) -> Option<u8>
        ensures { MatchOption result ((b : ℕ) → escaped_byte self b ≢ 92 ∷ letter ∷ [])
            (λ b. escaped_byte self b ≡ 92 ∷ letter ∷ []) }
    {
        match (letter, self) {
            (b'\\', _) => Some(b'\\'),
            (b'n', _) => Some(b'\n'),
            (b'r', Escapes::V3) => Some(b'\r'),
            _ => None,
        }
    }

    /// Returns the index of the first byte that is escaped.
    fn find_in(self, line: &[u8]) -> Option<usize>
        ensures within { IfSome result (λ at. at < length line.now) }
        ensures plain { MatchOption result (escaped_line self line.now ≡ line.now) (λ at.
            escaped_line self line.now ≡ take at line.now ++ escaped_line self (drop at line.now)) }
    {
        match self {
            Escapes::V2 => memchr2(b'\\', b'\n', line),
            Escapes::V3 => memchr3(b'\\', b'\n', b'\r', line),
        }
    }
}

/// Puts a byte after a text, with its escape.
fn push_escaped(text: &mut Vec<u8>, byte: u8, escapes: Escapes) -> Result<()>
    ensures text { OnOk result (text.new.items ≡ text.old.items ++ escaped_byte escapes byte) }
    ensures faults { MemoryOnly result }
{
    match escapes.escape_of(byte) {
        Some(escape) => text.extend_from_slice(escape.as_bytes())?,
        None => text.push(byte)?,
    }
    Ok(())
}

/// Puts a line after a text, with these escapes.
///
/// # Errors
/// `Memory` if memory runs out. `text` may then have a part of the line after it.
pub fn push_escaped_line(text: &mut Vec<u8>, line: &str, escapes: Escapes) -> Result<()>
    ensures text { OnOk result
        (text.new.items ≡ text.old.items ++ escaped_line escapes line.now) }
    ensures faults { MemoryOnly result }
{
    let mut rest = line.as_bytes();
    while let Some(at) = escapes.find_in(rest) {
        text.extend_from_slice(&rest[..at])?;
        push_escaped(text, rest[at], escapes)?;
        rest = &rest[at + 1..];
    }
    text.extend_from_slice(rest)?;
    Ok(())
}

/// Returns the byte that the escape at `at` stands for: `None` where none stands there.
fn read_escape(line: &[u8], at: usize, escapes: Escapes) -> Option<u8>
    requires within { at < length line.now }
    requires special { is_byte2 92 10 (slice_index line.now at) ≡ true }
    ensures { MatchOption result
        ((b : ℕ) (rest : List ℕ) → escaped_byte escapes b ++ rest ≢ drop at line.now)
        (λ b. drop at line.now ≡ escaped_byte escapes b ++ drop (at + 2) line.now) }
{
    match &line[at..] {
        [b'\\', letter, ..] => escapes.byte_of(*letter),
        _ => None,
    }
}

/// Reads a line with these escapes into `text`, which is emptied first. A carriage return may stand
/// as it is. Returns false, and leaves open what `text` holds, where the line has a newline, or
/// where, read from the left, a backslash begins none of the escapes.
///
/// # Errors
/// `Memory` if memory runs out. `text` may then hold anything.
pub fn unescape_line(line: &[u8], escapes: Escapes, text: &mut Vec<u8>) -> Result<bool>
    ensures good { IfOk result (λ good. good ≡ true → Unescapes escapes line.now text.new.items) }
    ensures bad { IfOk result (λ good. good ≡ false
        → HasBadEscape escapes line.now) }
    ensures faults { MemoryOnly result }
{
    text.clear();
    let mut rest = line;
    while let Some(at) = memchr2(b'\\', b'\n', rest) {
        text.extend_from_slice(&rest[..at])?;
        let Some(byte) = read_escape(rest, at, escapes) else {
            return Ok(false);
        };
        text.push(byte)?;
        rest = &rest[at + 2..];
    }
    text.extend_from_slice(rest)?;
    Ok(true)
}
