//! What candidates begin with in common.
ghost use Rattle.std.specs.Prelude.{◌≡◌, ◌∷◌, [], map, option_map};
ghost use Rattle.std.specs.Prelude.{IfSome, MatchOption};
ghost use Rattle.std.specs.Str.{IsUtf8};
ghost use Rattle.line_parts.specs.Prefix.{BeginWithNone, BeginWithOne, IsCommonStart, IsLongestCommon, some_text};

use crate::completion::Candidate;
use crate::completion::chars::split_first;

// Returns what stands after the first character of two texts, where that is the same.
fn strip_same<'a, 'b>(one: &'a str, other: &'b str) -> Option<(&'a str, &'b str)>
    ensures same { MatchOption result (BeginWithNone one.now other.now)
        (λ rests. BeginWithOne one.now other.now rests.0.now rests.1.now) }
    ensures utf8 { IfSome result (λ rests. IsUtf8 rests.0.now × IsUtf8 rests.1.now) }
{
    match split_first(one) {
        None => None,
        Some((c, rest)) => match split_first(other) {
            None => None,
            Some((d, other_rest)) if c == d => Some((rest, other_rest)),
            Some(_) => None,
        },
    }
}

// Returns the whole characters with which two texts begin in common.
fn common_start<'a>(one: &'a str, other: &str) -> &'a str
    ensures { IsLongestCommon (one.now ∷ other.now ∷ []) result.now }
{
    let mut rest = one;
    let mut other_rest = other;
    while let Some((behind, more)) = strip_same(rest, other_rest) {
        rest = behind;
        other_rest = more;
    }
    &one[..one.len() - rest.len()]
}

// Returns the whole characters with which a text and the replacements of candidates begin in
// common.
fn common_with<'a, C: Candidate>(first: &'a str, others: &[C]) -> &'a str
    ensures { IsLongestCommon (first.now ∷ map (λ c. C.replacement_text c) others.now) result.now }
{
    let mut common = first;
    for other in others {
        common = common_start(common, other.replacement());
    }
    common
}

// Returns a text, unless it is empty.
fn some_text(text: &str) -> Option<&str>
    ensures { option_map (λ t. t.now) result ≡ some_text text.now }
{
    if text.is_empty() {
        return None;
    }
    Some(text)
}

/// Returns the longest text of whole characters with which the replacements of two or more
/// candidates begin, or None where that is empty. Of one candidate it is the replacement, of none
/// None.
pub fn longest_common_prefix<C: Candidate>(candidates: &[C]) -> Option<&str>
    ensures { IsCommonStart (map (λ c. C.replacement_text c) candidates.now)
        (option_map (λ text. text.now) result) }
{
    match candidates.split_first() {
        None => None,
        Some((first, others)) => {
            let text = first.replacement();
            if others.is_empty() {
                return Some(text);
            }
            some_text(common_with(text, others))
        }
    }
}
