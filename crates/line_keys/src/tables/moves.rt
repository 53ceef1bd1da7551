//! Movements by a count, which go the other way for a negative one.
ghost use Rattle.std.specs.Prelude.{◌≡◌};
ghost use Rattle.line_keys.specs.Meaning.{chars_back, chars_on, to_end, to_start, words_back, words_on};

use crate::count::Count;
use line_buffer::{At, Movement, Word};

/// Returns so many clusters on, or back for a negative count.
pub fn chars_on(count: Count) -> Movement
    ensures { result ≡ chars_on count }
{
    if count.positive {
        return Movement::ForwardChar(count.n);
    }
    Movement::BackwardChar(count.n)
}

/// Returns so many clusters back, or on for a negative count.
pub fn chars_back(count: Count) -> Movement
    ensures { result ≡ chars_back count }
{
    if count.positive {
        return Movement::BackwardChar(count.n);
    }
    Movement::ForwardChar(count.n)
}

/// Returns so many words on, or back for a negative count.
pub fn words_on(word: Word, count: Count) -> Movement
    ensures { result ≡ words_on word count }
{
    if count.positive {
        return Movement::ForwardWord(count.n, At::AfterEnd, word);
    }
    Movement::BackwardWord(count.n, word)
}

/// Returns so many words back, or on for a negative count.
pub fn words_back(word: Word, count: Count) -> Movement
    ensures { result ≡ words_back word count }
{
    if count.positive {
        return Movement::BackwardWord(count.n, word);
    }
    Movement::ForwardWord(count.n, At::AfterEnd, word)
}

/// Returns the end of the line, or its start for a negative count.
pub fn to_end(count: Count) -> Movement
    ensures { result ≡ to_end count }
{
    if count.positive {
        return Movement::EndOfLine;
    }
    Movement::BeginningOfLine
}

/// Returns the start of the line, or its end for a negative count.
pub fn to_start(count: Count) -> Movement
    ensures { result ≡ to_start count }
{
    if count.positive {
        return Movement::BeginningOfLine;
    }
    Movement::EndOfLine
}
