//! The first and the last character of a text.
ghost use Rattle.std.specs.Prelude.{◌≡◌, ◌++◌, [], IfSome, MatchOption};
ghost use Rattle.std.specs.Char.{encode_utf8};
ghost use Rattle.std.specs.Str.{IsUtf8};

// Returns the first character of a text, and what stands after it.
pub(crate) fn split_first(text: &str) -> Option<(char, &str)>
    ensures first { MatchOption result (text.now ≡ [])
        (λ split. text.now ≡ encode_utf8 split.0 ++ split.1.now) }
    ensures utf8 { IfSome result (λ split. IsUtf8 split.1.now) }
{
    let mut chars = text.chars();
    let first = chars.next()?;
    Some((first, chars.as_str()))
}

// Returns a text without its last character, and that character.
pub(crate) fn split_last(text: &str) -> Option<(&str, char)>
    ensures last { MatchOption result (text.now ≡ [])
        (λ split. text.now ≡ split.0.now ++ encode_utf8 split.1) }
    ensures utf8 { IfSome result (λ split. IsUtf8 split.0.now) }
{
    let mut chars = text.chars();
    let last = chars.next_back()?;
    Some((chars.as_str(), last))
}
