//! The tokens of a text.
ghost use Rattle.std.specs.Prelude.{◌≡◌, ◌≢◌, ◌↔◌, ◌+◌, ◌<◌, ◌≤◌, [], true, Some};
ghost use Rattle.std.specs.Prelude.{drop, length, slice_index};
ghost use Rattle.std.specs.Prelude.{IfErr, IfNone, IfOk, IfSome, IsCharBoundary, IsTrue, OnErr};
ghost use Rattle.std.specs.List.{prefix_len};
ghost use Rattle.console.specs.Grammar.{Symbol};
ghost use Rattle.console.specs.Spelling.{IsBlank, begins_name, mark_of, passes};
ghost use Rattle.console.specs.Tokens.{EndsAt, IsReadAt, IsScanOf, IsScanRefusal, IsTooLargeAt};
ghost use Rattle.console.specs.Tokens.{IsUnblankAt, SpellsOnlyUpTo, SpellsUpTo, symbol_of};

use crate::arithmetic::complaint::{Complaint, Refusal};
use crate::arithmetic::operator::Operator;
use std::alloc::Global;

/// A part of a text that stands for itself.
#[derive(Clone, Copy)]
pub enum Token<'a> {
    /// A number.
    Number(i64),
    /// A name.
    Name(&'a str),
    /// An operator, or the sign of a negation.
    Operator(Operator),
    /// `(`
    Opening,
    /// `)`
    Closing,
    /// `=`
    Equals,
}

/// A token, and the place in the text where it begins.
#[derive(Clone, Copy)]
pub struct Placed<'a> {
    /// The token.
    pub token: Token<'a>,
    /// Its first byte.
    pub place: usize,
}

/// The tokens at the front of a text.
#[derive(Drop)]
pub struct Scanned<'a> {
    /// The tokens.
    pub tokens: Vec<Placed<'a>>,
    /// Where no token begins: the end of the text, or a character that is foreign to arithmetic.
    pub end: usize,
}

// What the bytes of a run have in common.
#[derive(Clone, Copy)]
enum Kind {
    // Spaces, tabs and newlines.
    Blank,
    // Decimal digits.
    Digit,
    // Letters, `_` and digits.
    Word,
}

// Returns whether a byte is of a kind.
fn passes(kind: Kind, byte: u8) -> bool
    ensures { result ≡ passes kind byte }
{
    match kind {
        Kind::Blank => matches!(byte, b' ' | b'\t' | b'\n'),
        Kind::Digit => byte.is_ascii_digit(),
        Kind::Word => byte.is_ascii_alphabetic() || byte == b'_' || byte.is_ascii_digit(),
    }
}

// Returns how many bytes at the front are of a kind.
fn run_len(bytes: &[u8], kind: Kind) -> usize
    ensures { result ≡ prefix_len (passes kind) bytes.now }
{
    let mut len = 0;
    for byte in bytes {
        if !passes(kind, *byte) {
            break;
        }
        len += 1;
    }
    len
}

// Returns the end of the bytes of a kind from a place on.
fn run_end(text: &str, at: usize, kind: Kind) -> usize
    requires { IsCharBoundary text.now at }
    ensures end { result ≡ at + prefix_len (passes kind) (drop at text.now) }
    ensures boundary { IsCharBoundary text.now result }
    ensures within { result ≤ length text.now }
{
    at + run_len(&text.as_bytes()[at..], kind)
}

// Returns where the blanks from a place on end.
#[tactic(auto, using(crate::proofs::SpellingLemmas::leads_past_blanks))]
fn skip_blanks(text: &str, at: usize) -> usize
    requires { IsCharBoundary text.now at }
    ensures leads { SpellsUpTo text.now at [] result }
    ensures boundary { IsCharBoundary text.now result }
    ensures only { SpellsOnlyUpTo text.now at [] result }
    ensures stops { IsUnblankAt text.now result }
    ensures forward { at ≤ result }
{
    run_end(text, at, Kind::Blank)
}

// A token that was read, and the place after it.
#[derive(Clone, Copy)]
struct Read<'a> {
    token: Token<'a>,
    end: usize,
}

// Reads the name at a place.
fn read_name<'a>(text: &'a str, at: usize) -> Read<'a>
    requires within { at < length text.now }
    requires boundary { IsCharBoundary text.now at }
    requires begins { begins_name (slice_index text.now at) ≡ true }
    ensures { IsReadAt text.now at result }
{
    let end = run_end(text, at, Kind::Word);
    Read {
        token: Token::Name(&text[at..end]),
        end,
    }
}

// Reads the number at a place.
fn read_number<'a>(text: &'a str, at: usize) -> Result<Read<'a>, Refusal>
    requires within { at < length text.now }
    requires boundary { IsCharBoundary text.now at }
    requires begins { passes Kind.Digit (slice_index text.now at) ≡ true }
    ensures ok { IfOk result (IsReadAt text.now at) }
    ensures too_large { OnErr result (IsTooLargeAt text.now at) }
    ensures err { IfErr result (λ r. r ≡ record { complaint = Complaint.TooLarge; at = at }) }
{
    let end = run_end(text, at, Kind::Digit);
    match text[at..end].parse::<i64>() {
        Ok(number) => Ok(Read {
            token: Token::Number(number),
            end,
        }),
        Err(_) => Err(Refusal {
            complaint: Complaint::TooLarge,
            at,
        }),
    }
}

// Reads the token of one byte, if it is one.
fn read_mark<'a>(byte: u8, at: usize) -> Option<Read<'a>>
    requires { at < usize.MAX }
    ensures some { IfSome result
        (λ r. (mark_of (symbol_of r.token) ≡ Some byte) × (r.end ≡ at + 1)) }
    ensures none { IfNone result ((s : Symbol) → mark_of s ≢ Some byte) }
{
    let token = match byte {
        b'+' => Token::Operator(Operator::Plus),
        b'-' => Token::Operator(Operator::Minus),
        b'*' => Token::Operator(Operator::Times),
        b'/' => Token::Operator(Operator::Divide),
        b'%' => Token::Operator(Operator::Remainder),
        b'(' => Token::Opening,
        b')' => Token::Closing,
        b'=' => Token::Equals,
        _ => return None,
    };
    Some(Read { token, end: at + 1 })
}

// Returns whether a name begins with a byte.
fn begins_name(byte: u8) -> bool
    ensures { result ≡ begins_name byte }
{
    byte.is_ascii_alphabetic() || byte == b'_'
}

// Reads the token at a place, if one begins there.
fn read_token<'a>(text: &'a str, at: usize) -> Result<Option<Read<'a>>, Refusal>
    requires boundary { IsCharBoundary text.now at }
    requires unblank { IsUnblankAt text.now at }
    ensures ok { IfOk result (λ o. IfSome o (IsReadAt text.now at)) }
    ensures none { IfOk result (λ o. IfNone o (EndsAt text.now at)) }
    ensures too_large { OnErr result (IsTooLargeAt text.now at) }
    ensures err { IfErr result (λ r. r ≡ record { complaint = Complaint.TooLarge; at = at }) }
{
    let Some(byte) = text.as_bytes().get(at).copied() else {
        return Ok(None);
    };
    if passes(Kind::Digit, byte) {
        Ok(Some(read_number(text, at)?))
    } else if begins_name(byte) {
        Ok(Some(read_name(text, at)))
    } else {
        Ok(read_mark(byte, at))
    }
}

/// Returns the tokens at the front of a text.
///
/// # Errors
/// `TooLarge` and `Memory`.
pub fn scan<'a>(alloc: Global, text: &'a str) -> Result<Scanned<'a>, Refusal>
    ensures ok { IfOk result (IsScanOf text.now) }
    ensures refused { IfErr result (λ r. IsScanRefusal text.now r.complaint) }
    ensures err { IfErr result (λ r. IsCharBoundary text.now r.at) }
{
    let mut tokens = Vec::new(alloc);
    let mut at = skip_blanks(text, 0);
    while let Some(read) = read_token(text, at)? {
        tokens.push(Placed {
            token: read.token,
            place: at,
        })?;
        at = skip_blanks(text, read.end);
    }
    Ok(Scanned { tokens, end: at })
}

/// Returns whether a text has blanks alone.
pub fn is_blank(text: &str) -> bool
    ensures { IsTrue result ↔ IsBlank text.now }
{
    text.as_bytes()
        .iter()
        .all(|byte| passes(Kind::Blank, *byte))
}
