//! Places in a text where the columns before them and those from them add up.
ghost use Rattle.std.specs.Prelude.{◌≡◌, ◌<◌, ◌&&◌, nat_le, ◌∷◌, ◌++◌, [], true, length, drop, chars, encode_utf8, IfSome, IsUtf8};
ghost use Rattle.std.specs.List.{list_all, list_any};
ghost use Rattle.line_buffer.specs.declared.seams.TheConstants.{LETTERS};
ghost use Rattle.line_buffer.specs.Width.{BeginsAnew, EndsInFlag, IsSeam, PartsAt};
ghost use Rattle.unicode_width.specs.Width.{is_indicator};

/// The zero width joiner, which makes one cluster of several.
pub(crate) const JOINER: char = '\u{200d}';

/// Characters past the controls that take columns by themselves and join nothing but, by a zero
/// width joiner, an emoji: from the first of each range to the last.
#[rattlefmt::skip]
static LETTERS: [(u32, u32); 29] = [
    (0xA1, 0xAC), (0xAE, 0x2FF), (0x370, 0x482), (0x48A, 0x590), (0x5CA, 0x5DB),
    (0x5DD, 0x604), (0x628, 0x64A), (0x676, 0x6D5), (0x903, 0x939), (0xE01, 0xE30),
    (0xE3F, 0xE46), (0x1200, 0x135C), (0x1360, 0x1711), (0x1E00, 0x200A), (0x2010, 0x2027),
    (0x2030, 0x205E), (0x2070, 0x20CF), (0x20F1, 0x2CEE), (0x2E00, 0x3029), (0x3030, 0x3098),
    (0x309B, 0x3163), (0x3165, 0xA4FB), (0xABEE, 0xD7AF), (0xF900, 0xFB1D), (0xFF01, 0xFF9F),
    (0xFFA1, 0xFFEF), (0x1F000, 0x1F1E5), (0x1F200, 0x1F3FA), (0x1F400, 0x3FFFD),
];

/// Returns the last place in `front` from which on its columns add up to those before it, with
/// `behind` after it and without. It need not find every such place.
pub(crate) fn seam(front: &str, behind: &str) -> usize
    ensures { PartsAt front.now behind.now result }
{
    if ends_in_flag(front) && is_of_indicators(behind) {
        return front.len();
    }
    let Some(mut first) = first_char(behind) else {
        return 0;
    };
    let mut rest = front;
    while let Some((before, shorter)) = split_last(rest) {
        if is_seam(before, first) {
            return rest.len();
        }
        rest = shorter;
        first = before;
    }
    0
}

/// Returns whether columns add up wherever the two characters meet.
fn is_seam(before: char, behind: char) -> bool
    ensures { result ≡ true → IsSeam before behind }
{
    before != JOINER && begins_anew(behind)
}

/// Returns whether columns add up before the character wherever no joiner stands there. It knows
/// what stands first in most clusters.
fn begins_anew(c: char) -> bool
    ensures { result ≡ true → BeginsAnew c }
{
    if c <= '\u{a0}' {
        c != '\n'
    } else {
        is_letter(c as u32)
    }
}

/// Returns whether the character is in one of the ranges of letters.
fn is_letter(c: u32) -> bool
    ensures { result ≡ list_any (λ range. nat_le range.0 c && nat_le c range.1) LETTERS }
{
    LETTERS.iter().any(|range| range.0 <= c && c <= range.1)
}

/// Returns whether the text ends in two regional indicators.
fn ends_in_flag(text: &str) -> bool
    ensures { result ≡ true → EndsInFlag text.now }
{
    let Some((second, rest)) = split_last(text) else {
        return false;
    };
    let Some((first, _)) = split_last(rest) else {
        return false;
    };
    is_indicator(first) && is_indicator(second)
}

/// Returns whether all characters of the text are regional indicators.
fn is_of_indicators(text: &str) -> bool
    ensures { result ≡ list_all is_indicator (chars text.now) }
{
    text.chars().all(is_indicator)
}

/// Returns whether the character is a regional indicator, of which two make a flag.
fn is_indicator(c: char) -> bool
    ensures { result ≡ is_indicator c }
{
    matches!(c, '\u{1f1e6}'..='\u{1f1ff}')
}

/// Returns the text's first character, if it has one.
fn first_char(text: &str) -> Option<char>
    ensures { IfSome result (λ c. chars text.now ≡ c ∷ drop 1 (chars text.now)) }
{
    text.chars().next()
}

/// Returns the text's last character and what stands before it, if it has one.
fn split_last(text: &str) -> Option<(char, &str)>
    ensures chars { IfSome result (λ last. chars text.now ≡ chars last.1.now ++ last.0 ∷ []) }
    ensures bytes { IfSome result (λ last. text.now ≡ last.1.now ++ encode_utf8 last.0) }
    ensures text { IfSome result (λ last. IsUtf8 last.1.now) }
    ensures shorter { IfSome result (λ last. length last.1.now < length text.now) }
{
    let mut rest = text.chars();
    let last = rest.next_back()?;
    Some((last, rest.as_str()))
}
