//! Words and their escapes, candidates, and what these begin with in common.

use super::plain;
use crate::report::shown;
use line_config::Result;
use line_parts::{
    Candidate, Hint, Pair, Quote, escape, extract_word, longest_common_prefix, unescape,
};
use std::alloc::Global;
use std::borrow::CowStr;
use tests_parties::source::Source;

/// The quotes in which a text stands.
const QUOTES: &[(&str, Quote)] = &[
    ("None", Quote::None),
    ("Double", Quote::Double),
    ("Single", Quote::Single),
];

/// Whether words break at a character in these tests.
fn breaks(c: char) -> bool {
    matches!(c, ' ' | '\\' | '"' | '\'' | 'é')
}

/// What a call gives. None where there is no such call.
pub fn says(alloc: Global, source: &mut Source<'_>) -> Result<Option<String>> {
    let call = source.word().unwrap_or("");
    let owned = plain(alloc, source)?;
    let text = owned.as_str();
    match call {
        "word" => {
            let pos = source.number();
            if !text.is_char_boundary(pos) {
                return Ok(None);
            }
            shown(alloc, extract_word(text, pos, source.character(), breaks))
        }
        "escape" => {
            let quote = source.named(QUOTES).unwrap_or(Quote::None);
            shown(alloc, escape(owned, source.character(), breaks, quote)?)
        }
        "unescape" => {
            let found = unescape(alloc, text, source.character())?;
            let is_itself = matches!(found, CowStr::Borrowed(_));
            shown(alloc, (found.as_str(), is_itself))
        }
        "alike" => {
            let texts: Vec<&str> = text.split('|').take(source.number()).collect(alloc)?;
            shown(alloc, longest_common_prefix(texts.as_slice()))
        }
        "pair" => paired(alloc, owned, source),
        "text" => stands(alloc, &text),
        "string" => stands(alloc, &owned),
        _ => Ok(None),
    }
}

/// A copy of a pair that displays a text, and what its replacement and that of another pair begin
/// with in common.
fn paired(alloc: Global, display: String, source: &mut Source<'_>) -> Result<Option<String>> {
    let pair = Pair {
        display,
        replacement: plain(alloc, source)?,
    };
    let other = Pair {
        display: String::new(alloc),
        replacement: plain(alloc, source)?,
    };
    let copy = pair.clone()?;
    let pairs = [pair, other];
    let common = longest_common_prefix(&pairs);
    shown(alloc, (copy.display(), copy.replacement(), common))
}

/// The texts of a candidate and a hint.
fn stands<T: Candidate + Hint>(alloc: Global, value: &T) -> Result<Option<String>> {
    let displayed = (Candidate::display(value), Hint::display(value));
    shown(alloc, (displayed, value.replacement(), value.completion()))
}
