//! The parts of an expression, and their values.
ghost use Rattle.std.specs.Prelude.{◌≡◌, ◌+◌, ◌<◌, ◌≤◌, length, Err, None, Ok, Some};
ghost use Rattle.std.specs.Prelude.{IfErr, IfNone, IfOk, IfSome, MatchOption, OnErr};
ghost use Rattle.console.specs.Expression.{result_of};
ghost use Rattle.console.specs.Grammar.{figure, opening, rank_of, sign, tighter, word};
ghost use Rattle.console.specs.Names.{value_in};
ghost use Rattle.console.specs.Parts.{HasNoOperatorAt, IsSymbolAt, IsPart, IsWorth, Settles, SettlesAll};
ghost use Rattle.console.specs.Refusals.{complaint_of};
ghost use Rattle.console.specs.Tokens.{symbol_of};

use crate::arithmetic::complaint::Complaint;
use crate::arithmetic::names::Names;
use crate::arithmetic::operator::{Operator, Rank, negate};
use crate::arithmetic::token::{Placed, Token};

/// The most brackets and signs round a part of a line.
pub const MOST_NESTED: usize = 200;

/// The value of a part of a line of tokens.
#[derive(Clone, Copy)]
pub struct Part {
    /// Its value.
    pub value: i64,
    /// The place of the token after it.
    pub next: usize,
}

/// A complaint about a line of tokens.
#[derive(Clone, Copy)]
pub struct Fault {
    /// What is wrong.
    pub complaint: Complaint,
    /// The place of the token at fault, or that of the end.
    pub token: usize,
}

// Returns a fault.
fn fail<T>(complaint: Complaint, token: usize) -> Result<T, Fault>
    ensures { result ≡ Err (record { complaint = complaint; token = token }) }
{
    Err(Fault { complaint, token })
}

/// Returns the token at a place.
pub fn token_at<'a>(tokens: &[Placed<'a>], place: usize) -> Option<Token<'a>>
    ensures { MatchOption result (length tokens.now ≤ place)
        (λ t. IsSymbolAt tokens.now place (symbol_of t)) }
{
    match tokens.get(place) {
        Some(placed) => Some(placed.token),
        None => None,
    }
}

// Returns the operator at a place, if it makes expressions of a rank.
fn operator_at(tokens: &[Placed<'_>], place: usize, rank: Rank) -> Option<Operator>
    ensures some { IfSome result (λ o. IsSymbolAt tokens.now place (sign o) × (rank_of o ≡ rank)) }
    ensures none { IfNone result (HasNoOperatorAt tokens.now place rank) }
{
    match token_at(tokens, place) {
        Some(Token::Operator(operator)) if operator.rank() == rank => Some(operator),
        _ => None,
    }
}

// Returns how deep a nested part may go.
fn deeper(depth: usize, token: usize) -> Result<usize, Fault>
    ensures ok { IfOk result (λ inner. inner + 1 ≡ depth) }
    ensures none { OnErr result (depth ≡ 0) }
    ensures err { IfErr result (λ f. f ≡ record { complaint = Complaint.TooDeep; token = token }) }
{
    if depth == 0 {
        return fail(Complaint::TooDeep, token);
    }
    Ok(depth - 1)
}

// Returns the part that is a number.
fn number_part(tokens: &[Placed<'_>], names: &Names, at: usize, value: i64) -> Part
    requires { IsSymbolAt tokens.now at (figure value) }
    ensures part { IsPart tokens.now (value_in names.now) Rank.Factor at result }
    ensures settled { Settles tokens.now (value_in names.now) Rank.Factor at (Ok result) }
{
    Part {
        value,
        next: at + 1,
    }
}

// Returns the part that is a name.
fn name_part(tokens: &[Placed<'_>], names: &Names, at: usize, name: &str) -> Result<Part, Fault>
    requires { IsSymbolAt tokens.now at (word name.now) }
    ensures ok { IfOk result (IsPart tokens.now (value_in names.now) Rank.Factor at) }
    ensures settled { Settles tokens.now (value_in names.now) Rank.Factor at result }
    ensures err { IfErr result (λ f. f ≡ record { complaint = Complaint.NoValue; token = at }) }
{
    match names.value(name) {
        Some(value) => Ok(Part {
            value,
            next: at + 1,
        }),
        None => fail(Complaint::NoValue, at),
    }
}

// Returns the part that is the negation of another one.
fn negation_part(
    tokens: &[Placed<'_>],
    names: &Names,
    at: usize,
    inner: Part,
) -> Result<Part, Fault>
    requires minus { IsSymbolAt tokens.now at (sign Operator.Minus) }
    requires inner { IsPart tokens.now (value_in names.now) Rank.Factor (at + 1) inner }
    requires settled { Settles tokens.now (value_in names.now) Rank.Factor (at + 1) (Ok inner) }
    ensures ok { IfOk result (IsPart tokens.now (value_in names.now) Rank.Factor at) }
    ensures settled { Settles tokens.now (value_in names.now) Rank.Factor at result }
    ensures err { IfErr result (λ f. f ≡ record { complaint = Complaint.Overflow; token = at }) }
{
    match negate(inner.value) {
        Ok(value) => Ok(Part {
            value,
            next: inner.next,
        }),
        Err(complaint) => fail(complaint, at),
    }
}

// Returns the part that is another one in brackets.
fn bracket_part(tokens: &[Placed<'_>], names: &Names, at: usize, inner: Part) -> Result<Part, Fault>
    requires opening { IsSymbolAt tokens.now at opening }
    requires inner { IsPart tokens.now (value_in names.now) Rank.Sum (at + 1) inner }
    requires settled { Settles tokens.now (value_in names.now) Rank.Sum (at + 1) (Ok inner) }
    ensures ok { IfOk result (IsPart tokens.now (value_in names.now) Rank.Factor at) }
    ensures settled { Settles tokens.now (value_in names.now) Rank.Factor at result }
    ensures err { IfErr result
        (λ f. f ≡ record { complaint = Complaint.ExpectedClosing; token = inner.next }) }
{
    match token_at(tokens, inner.next) {
        Some(Token::Closing) => Ok(Part {
            value: inner.value,
            next: inner.next + 1,
        }),
        _ => fail(Complaint::ExpectedClosing, inner.next),
    }
}

// Returns the part that is two others with an operator between them.
fn operation_part(
    tokens: &[Placed<'_>],
    names: &Names,
    at: usize,
    operator: Operator,
    left: Part,
    right: Part,
) -> Result<Part, Fault>
    requires left { IsPart tokens.now (value_in names.now) (rank_of operator) at left }
    requires operator { IsSymbolAt tokens.now left.next (sign operator) }
    requires right { IsPart tokens.now (value_in names.now) (tighter (rank_of operator))
        (left.next + 1) right }
    ensures ok { IfOk result (IsPart tokens.now (value_in names.now) (rank_of operator) at) }
    ensures next { IfOk result (λ p. p.next ≡ right.next) }
    ensures worth { IfOk result
        (λ p. result_of operator left.value right.value ≡ Some p.value) }
    ensures none { OnErr result (result_of operator left.value right.value ≡ None) }
    ensures err { IfErr result
        (λ f. f ≡ record { complaint = complaint_of operator right.value; token = left.next }) }
{
    match operator.apply(left.value, right.value) {
        Ok(value) => Ok(Part {
            value,
            next: right.next,
        }),
        Err(complaint) => fail(complaint, left.next),
    }
}

// Reads the part of a rank that begins at a place.
#[cycle(parts)]
fn read_part(
    tokens: &[Placed<'_>],
    names: &Names,
    rank: Rank,
    at: usize,
    depth: usize,
) -> Result<Part, Fault>
    requires within { at ≤ length tokens.now }
    requires room { MOST_NESTED ≤ depth + at }
    ensures ok { IfOk result (IsPart tokens.now (value_in names.now) rank at) }
    ensures settled { Settles tokens.now (value_in names.now) rank at result }
    ensures deep { IfErr result
        (λ f. f.complaint ≡ Complaint.TooDeep → MOST_NESTED < length tokens.now) }
    ensures err { IfErr result (λ f. f.token ≤ length tokens.now) }
{
    let Some(inner) = rank.tighter() else {
        return read_factor(tokens, names, at, depth);
    };
    let mut part = read_part(tokens, names, inner, at, depth)?;
    while let Some(operator) = operator_at(tokens, part.next, rank) {
        let right = read_part(tokens, names, inner, part.next + 1, depth)?;
        part = operation_part(tokens, names, at, operator, part, right)?;
    }
    Ok(part)
}

// Reads the factor that begins at a place.
#[cycle(parts)]
fn read_factor(tokens: &[Placed<'_>], names: &Names, at: usize, depth: usize) -> Result<Part, Fault>
    requires within { at ≤ length tokens.now }
    requires room { MOST_NESTED ≤ depth + at }
    ensures ok { IfOk result (IsPart tokens.now (value_in names.now) Rank.Factor at) }
    ensures settled { Settles tokens.now (value_in names.now) Rank.Factor at result }
    ensures deep { IfErr result
        (λ f. f.complaint ≡ Complaint.TooDeep → MOST_NESTED < length tokens.now) }
    ensures err { IfErr result (λ f. f.token ≤ length tokens.now) }
{
    match token_at(tokens, at) {
        Some(Token::Number(value)) => Ok(number_part(tokens, names, at, value)),
        Some(Token::Name(name)) => name_part(tokens, names, at, name),
        Some(Token::Operator(Operator::Minus)) => {
            let inner = read_factor(tokens, names, at + 1, deeper(depth, at)?)?;
            negation_part(tokens, names, at, inner)
        }
        Some(Token::Opening) => {
            let inner = read_part(tokens, names, Rank::Sum, at + 1, deeper(depth, at)?)?;
            bracket_part(tokens, names, at, inner)
        }
        _ => fail(Complaint::ExpectedOperand, at),
    }
}

/// Returns the value of the tokens from a place to their end.
///
/// # Errors
/// The first fault.
pub fn value_from(tokens: &[Placed<'_>], names: &Names, start: usize) -> Result<i64, Fault>
    requires { start ≤ length tokens.now }
    ensures ok { IfOk result (IsWorth tokens.now (value_in names.now) start) }
    ensures settled { SettlesAll tokens.now (value_in names.now) start result }
    ensures deep { IfErr result
        (λ f. f.complaint ≡ Complaint.TooDeep → MOST_NESTED < length tokens.now) }
    ensures err { IfErr result (λ f. f.token ≤ length tokens.now) }
{
    let whole = read_part(tokens, names, Rank::Sum, start, MOST_NESTED)?;
    if whole.next < tokens.len() {
        return fail(Complaint::ExpectedOperator, whole.next);
    }
    Ok(whole.value)
}
