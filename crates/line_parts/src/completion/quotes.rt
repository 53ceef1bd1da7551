//! Quotes in a text, and the one that stands open at its end.
ghost use Rattle.std.specs.Prelude.{◌≡◌, ◌∷◌, chars, IfSome, MatchOption, None};
ghost use Rattle.std.specs.Str.{IsUtf8};
ghost use Rattle.line_parts.specs.Quoting.{BeginsClosed, ClosesBefore, IsUnpaired, NeverCloses, OpensAt, double, open_quote, single};
ghost use Rattle.line_parts.specs.declared.completion.escapes.Quote.TheVariants as quote;

use crate::completion::chars::split_first;
use crate::completion::escapes::Quote;

// Returns what stands after the double quote that closes, in a text that stands in double quotes.
fn behind_double(text: &str) -> Option<&str>
    ensures closed { MatchOption result (NeverCloses quote.Double double (chars text.now))
        (λ rest. ClosesBefore quote.Double double (chars text.now) (chars rest.now)) }
    ensures utf8 { IfSome result (λ rest. IsUtf8 rest.now) }
{
    let mut rest = text;
    while let Some((c, more)) = split_first(rest) {
        match c {
            '"' => return Some(more),
            '\\' => rest = split_first(more)?.1,
            _ => rest = more,
        }
    }
    None
}

// Returns what stands after the single quote that closes, in a text that stands in single quotes.
fn behind_single(text: &str) -> Option<&str>
    ensures closed { MatchOption result (NeverCloses quote.Single single (chars text.now))
        (λ rest. ClosesBefore quote.Single single (chars text.now) (chars rest.now)) }
    ensures utf8 { IfSome result (λ rest. IsUtf8 rest.now) }
{
    let mut rest = text;
    while let Some((c, more)) = split_first(rest) {
        if c == '\'' {
            return Some(more);
        }
        rest = more;
    }
    None
}

// Returns what stands after the first piece of a text: a character, an escaped one, or what stands
// in quotes with these.
fn behind_piece(first: char, more: &str) -> Option<&str>
    ensures closed { MatchOption result (IsUnpaired (first ∷ chars more.now))
        (λ rest. BeginsClosed (first ∷ chars more.now) (chars rest.now)) }
    ensures utf8 { IfSome result (λ rest. IsUtf8 rest.now) }
{
    match first {
        '"' => behind_double(more),
        '\'' => behind_single(more),
        '\\' => Some(split_first(more)?.1),
        _ => Some(more),
    }
}

// Returns the quote that stands open at the end of a text, and what stands after it.
pub(crate) fn find_unclosed_quote(text: &str) -> Option<(Quote, &str)>
    ensures open { MatchOption result
        ((open_quote quote.Double (chars text.now) ≡ None)
        × (open_quote quote.Single (chars text.now) ≡ None))
        (λ found. OpensAt (chars text.now) found.0 (chars found.1.now)) }
    ensures utf8 { IfSome result (λ found. IsUtf8 found.1.now) }
{
    let mut rest = text;
    while let Some((first, more)) = split_first(rest) {
        match (behind_piece(first, more), first) {
            (Some(behind), _) => rest = behind,
            (None, '"') => return Some((Quote::Double, more)),
            (None, '\'') => return Some((Quote::Single, more)),
            (None, _) => return None,
        }
    }
    None
}
