//! Words of a line, and escapes in them.
ghost use Rattle.std.specs.Prelude.{◌≡◌, ◌++◌, ◌∷◌, [], ◌<◌, IfOk, IsCharBoundary, OnOk};
ghost use Rattle.std.specs.Prelude.{chars, drop, encode_utf8_all, if◌then◌else◌};
ghost use Rattle.std.specs.Prelude.{string_bytes, take, length, IfSome, MatchOption};
ghost use Rattle.std.specs.Cow.{cow_str_bytes};
ghost use Rattle.std.specs.List.{flat_map};
ghost use Rattle.std.specs.Str.{IsUtf8};
ghost use Rattle.std.specs.Str.Iter.{chars_rest};
ghost use Rattle.line_config.specs.Error.{MemoryOnly};
ghost use Rattle.line_parts.specs.Candidate.{BeginsIn};
ghost use Rattle.line_parts.specs.Escape.{EndsInEscape, EndsInNoEscape, ForTest, escaped, escaped_char};
ghost use Rattle.line_parts.specs.Escape.{is_escape, kept_of, on_chars, unescaped, word_offset};

use crate::completion::chars::split_last;
use line_config::Result;
use std::alloc::Global;
use std::borrow::CowStr;
use std::str::Chars;

/// The quotes in which a text stands.
#[derive(Clone, Copy, Debug, PartialEq, Eq)]
pub enum Quote {
    /// Double quotes: `"`.
    Double,
    /// Single quotes: `'`.
    Single,
    /// No quotes.
    None,
}

// Puts a character after a text, with the escape character before it where it breaks words.
fn push_escaped(text: &mut String, esc_char: char, c: char, breaks: bool) -> Result<()>
    ensures text { OnOk result (string_bytes text.new ≡ string_bytes text.old
        ++ encode_utf8_all (if breaks then esc_char ∷ c ∷ [] else c ∷ [])) }
    ensures faults { MemoryOnly result }
{
    if breaks {
        text.push(esc_char)?;
    }
    text.push(c)?;
    Ok(())
}

// Returns the text with the escape character before each break character.
fn escape_chars<F: Fn(char) -> bool>(
    input: &String,
    esc_char: char,
    is_break_char: F,
) -> Result<String>
    requires { F.IsAlwaysCallable is_break_char }
    ensures text { IfOk result (λ text. ForTest F.Fn is_break_char (λ is_break. string_bytes text
        ≡ on_chars (flat_map (escaped_char esc_char is_break)) (string_bytes input.now))) }
    ensures faults { MemoryOnly result }
{
    let mut text = String::new(*input.allocator());
    for c in input.chars() {
        push_escaped(&mut text, esc_char, c, is_break_char(c))?;
    }
    Ok(text)
}

/// Returns the text with the escape character before each character that `is_break_char` answers
/// true for. In single quotes, and without an escape character, that is the text itself.
///
/// # Errors
/// `Memory` if memory runs out.
pub fn escape<F: Fn(char) -> bool>(
    input: String,
    esc_char: Option<char>,
    is_break_char: F,
    quote: Quote,
) -> Result<String>
    requires { F.IsAlwaysCallable is_break_char }
    ensures text { IfOk result (λ text. ForTest F.Fn is_break_char (λ is_break. string_bytes text
        ≡ on_chars (escaped esc_char is_break quote) (string_bytes input))) }
    ensures faults { MemoryOnly result }
{
    match (esc_char, quote) {
        (None, _) => Ok(input),
        (Some(_), Quote::Single) => Ok(input),
        (Some(esc_char), _) => escape_chars(&input, esc_char, is_break_char),
    }
}

// Takes the next character that unescaping keeps, if there is one.
fn next_kept(rest: &mut Chars<'_>, esc_char: char) -> Option<char>
    requires { IsUtf8 (chars_rest rest.old) }
    ensures kept { let old = kept_of esc_char (chars_rest rest.old) in
        MatchOption result (old ≡ []) (λ c. old ≡ c ∷ kept_of esc_char (chars_rest rest.new)) }
    ensures utf8 { IfSome result (λ _. IsUtf8 (chars_rest rest.new)) }
    ensures shorter { IfSome result
        (λ _. length (chars_rest rest.new) < length (chars_rest rest.old)) }
{
    let c = rest.next()?;
    if c == esc_char {
        return rest.next();
    }
    Some(c)
}

// Returns the text without its escape characters, each of which keeps the character after it.
fn unescape_chars(alloc: Global, input: &str, esc_char: char) -> Result<String>
    ensures text { IfOk result
        (λ text. string_bytes text ≡ on_chars (unescaped (Some esc_char)) input.now) }
    ensures faults { MemoryOnly result }
{
    let mut text = String::new(alloc);
    let mut rest = input.chars();
    while let Some(c) = next_kept(&mut rest, esc_char) {
        text.push(c)?;
    }
    Ok(text)
}

/// Returns the text without its escape characters; the character after each of them stays. Without
/// an escape character that is the text itself.
///
/// # Errors
/// `Memory` if memory runs out.
pub fn unescape(alloc: Global, input: &str, esc_char: Option<char>) -> Result<CowStr<'_>>
    ensures text { IfOk result
        (λ text. cow_str_bytes text ≡ on_chars (unescaped esc_char) input.now) }
    ensures faults { MemoryOnly result }
{
    match esc_char {
        None => Ok(CowStr::Borrowed(input)),
        Some(esc_char) if !input.contains(esc_char) => Ok(CowStr::Borrowed(input)),
        Some(esc_char) => Ok(CowStr::Owned(unescape_chars(alloc, input, esc_char)?)),
    }
}

// Returns whether a character is the escape character.
fn is_escape(esc_char: Option<char>, c: char) -> bool
    ensures { result ≡ is_escape esc_char c }
{
    match esc_char {
        Some(escape) => c == escape,
        None => false,
    }
}

// Returns a text without the escape character at its end, if it stands there.
fn strip_escape(text: &str, esc_char: Option<char>) -> Option<&str>
    ensures stripped { MatchOption result (EndsInNoEscape esc_char text.now)
        (λ front. EndsInEscape esc_char text.now front.now) }
    ensures utf8 { IfSome result (λ front. IsUtf8 front.now) }
{
    match split_last(text) {
        None => None,
        Some((front, last)) if is_escape(esc_char, last) => Some(front),
        Some(_) => None,
    }
}

// Returns the byte offset where the last word of a text begins.
fn last_word<F: Fn(char) -> bool>(text: &str, esc_char: Option<char>, is_break_char: F) -> usize
    requires { F.IsAlwaysCallable is_break_char }
    ensures boundary { IsCharBoundary text.now result }
    ensures start { ForTest F.Fn is_break_char (λ is_break. result
        ≡ word_offset esc_char is_break (chars text.now)) }
{
    let mut rest = text;
    while let Some((before, c)) = split_last(rest) {
        if !is_break_char(c) {
            rest = before;
            continue;
        }
        match strip_escape(before, esc_char) {
            Some(front) => rest = front,
            None => return rest.len(),
        }
    }
    0
}

/// Returns the word that ends at the cursor, which is at byte `pos`, and the byte offset where it
/// begins. Going back from the cursor, a character that `is_break_char` answers true for is passed
/// together with the escape character right before it; the word begins after the first one that has
/// none, or else at the start of the line.
pub fn extract_word<F: Fn(char) -> bool>(
    line: &str,
    pos: usize,
    esc_char: Option<char>,
    is_break_char: F,
) -> (usize, &str)
    requires cursor { IsCharBoundary line.now pos }
    requires callable { F.IsAlwaysCallable is_break_char }
    ensures within { BeginsIn line.now pos result.0 }
    ensures text { result.1.now ≡ drop result.0 (take pos line.now) }
    ensures start { ForTest F.Fn is_break_char (λ is_break. result.0
        ≡ word_offset esc_char is_break (chars (take pos line.now))) }
{
    let before = &line[..pos];
    let start = last_word(before, esc_char, is_break_char);
    (start, &before[start..])
}
