//! Characters of a text, found one after another.
ghost use Rattle.line_buffer.specs.Offset.{IsOffsetIfAny};
ghost use Rattle.std.specs.Prelude.{◌≡◌, ◌≤◌, length, reverse, IfSome, IsCharBoundary};
ghost use Rattle.line_buffer.specs.Search.{behind_char, nth_or_last, places_of};

use crate::movement::RepeatCount;

/// Returns where the `n`-th `c` of the text begins, counted from 1, or the last where there are
/// fewer; `None` for `n` = 0 and where there is none.
pub(crate) fn nth_char(text: &str, c: char, n: RepeatCount) -> Option<usize>
    ensures offset { IsOffsetIfAny result text.now (nth_or_last (places_of c text.now) n) }
    ensures behind { IfSome result (λ place. IsCharBoundary text.now (behind_char c place)) }
{
    let mut found = None;
    let mut from = 0;
    for _ in 0..n {
        let Some(bytes) = text[from..].find(c) else {
            return found;
        };
        found = Some(from + bytes);
        from += bytes + c.len_utf8();
    }
    found
}

/// Returns where the `n`-th `c` of the text begins, counted back from 1 at its end, or the first
/// where there are fewer; `None` for `n` = 0 and where there is none.
pub(crate) fn nth_char_back(text: &str, c: char, n: RepeatCount) -> Option<usize>
    ensures offset { let places = reverse (places_of c text.now) in
        IsOffsetIfAny result text.now (nth_or_last places n) }
    ensures behind { IfSome result (λ place. IsCharBoundary text.now (behind_char c place)) }
{
    let mut found = None;
    let mut to = text.len();
    for _ in 0..n {
        let Some(place) = text[..to].rfind(c) else {
            return found;
        };
        found = Some(place);
        to = place;
    }
    found
}
