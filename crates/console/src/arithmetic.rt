//! Arithmetic of whole numbers and names.
ghost use Rattle.std.specs.Prelude.{◌≡◌, ◌<◌, ◌≤◌, ◌↔◌, length, None, Ok};
ghost use Rattle.std.specs.Prelude.{IfErr, IfNone, IfOk, IfSome, IsCharBoundary, OnErr, OnOk};
ghost use Rattle.console.specs.Grammar.{equals, word};
ghost use Rattle.console.specs.Line.{HasValue, IsExplained, IsOnlyValue};
ghost use Rattle.console.specs.Names.{AreKept, value_in};
ghost use Rattle.console.specs.Parts.{AssignsNoName, IsSymbolAt, IsWorth, SettlesLine};
ghost use Rattle.console.specs.Spelling.{IsBlank};
ghost use Rattle.console.specs.Tokens.{IsScanOf};

pub mod complaint;
pub mod names;
pub mod operator;
pub mod parts;
pub mod token;

use crate::arithmetic::parts::{MOST_NESTED, token_at, value_from};
use crate::arithmetic::token::{Placed, Scanned, Token, is_blank, scan};
pub use complaint::{Complaint, Refusal};
pub use names::Names;
use std::alloc::Global;

/// Returns the value of a line under the values of names: that of an expression, or of the
/// expression in `name = expression`, which gives the name that value. A blank line has no value.
/// An error leaves the names as they were.
///
/// # Errors
/// Each complaint, with the place of the token or of the operator at fault.
pub fn evaluate(alloc: Global, text: &str, names: &mut Names) -> Result<Option<i64>, Refusal>
    ensures value { IfOk result (λ o. IfSome o (HasValue names.old names.new text.now)) }
    ensures only { IfOk result (λ o. IfSome o (IsOnlyValue names.old text.now)) }
    ensures refused { IfErr result (λ r. IsExplained names.old text.now r.complaint) }
    ensures deep { IfErr result
        (λ r. r.complaint ≡ Complaint.TooDeep → MOST_NESTED < length text.now) }
    ensures blank { result ≡ Ok None ↔ IsBlank text.now }
    ensures none { result ≡ Ok None → AreKept names.old names.new }
    ensures err { OnErr result (AreKept names.old names.new) }
    ensures at { IfErr result (λ r. IsCharBoundary text.now r.at) }
{
    if is_blank(text) {
        return Ok(None);
    }
    let line = scan(alloc, text)?;
    match assigned_name(line.tokens.as_slice()) {
        Some(name) => {
            let value = line_value(text, &line, 2, names)?;
            names.set(alloc, name, value)?;
            Ok(Some(value))
        }
        None => Ok(Some(line_value(text, &line, 0, names)?)),
    }
}

// Returns the name that a line gives a value.
fn assigned_name<'a>(tokens: &[Placed<'a>]) -> Option<&'a str>
    ensures some { IfSome result
        (λ name. IsSymbolAt tokens.now 0 (word name.now) × IsSymbolAt tokens.now 1 equals) }
    ensures none { IfNone result (AssignsNoName tokens.now) }
{
    match token_at(tokens, 0) {
        Some(Token::Name(name)) if matches!(token_at(tokens, 1), Some(Token::Equals)) => Some(name),
        _ => None,
    }
}

// Returns the value of the expression that the tokens from a place on write.
fn line_value(text: &str, line: &Scanned<'_>, start: usize, names: &Names) -> Result<i64, Refusal>
    requires scanned { IsScanOf text.now line.now }
    requires within { start ≤ length line.now.tokens.items }
    ensures whole { OnOk result (line.now.end ≡ length text.now) }
    ensures ok { IfOk result (IsWorth line.now.tokens.items (value_in names.now) start) }
    ensures settled { line.now.end ≡ length text.now
        → SettlesLine line.now.tokens.items (value_in names.now) start result }
    ensures deep { IfErr result
        (λ r. r.complaint ≡ Complaint.TooDeep → MOST_NESTED < length text.now) }
    ensures err { IfErr result (λ r. IsCharBoundary text.now r.at) }
{
    match value_from(line.tokens.as_slice(), names, start) {
        Ok(value) if line.end == text.len() => Ok(value),
        Ok(_) => Err(Refusal {
            complaint: Complaint::ExpectedOperator,
            at: line.end,
        }),
        Err(fault) => Err(Refusal {
            complaint: fault.complaint,
            at: place_of(text, line, fault.token),
        }),
    }
}

// Returns the place of a token in the text, or that of the end of the tokens.
fn place_of(text: &str, line: &Scanned<'_>, token: usize) -> usize
    requires { IsScanOf text.now line.now }
    ensures { IsCharBoundary text.now result }
{
    match line.tokens.get(token) {
        Some(placed) => placed.place,
        None => line.end,
    }
}
