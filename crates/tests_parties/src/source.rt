//! Words, numbers, texts and movements, read from text in the form that `Debug` writes them in.

use crate::pieces::built;
use line_buffer::{At, CharSearch, Movement, RepeatCount, Word};
use line_config::Result;
use std::alloc::Global;

/// A text of which a part was read. Brackets, commas, colons and blanks only part what stands
/// between them.
#[derive(Drop)]
pub struct Source<'t> {
    rest: &'t str,
}

/// The kinds of words.
pub const WORDS: &[(&str, Word)] = &[("Big", Word::Big), ("Emacs", Word::Emacs), ("Vi", Word::Vi)];

/// The places at a word.
pub const PLACES: &[(&str, At)] = &[
    ("Start", At::Start),
    ("BeforeEnd", At::BeforeEnd),
    ("AfterEnd", At::AfterEnd),
];

/// Whether a character only parts others.
fn parts(c: char) -> bool {
    matches!(c, ' ' | '(' | ')' | '{' | '}' | ',' | ':' | ';')
}

impl<'t> Source<'t> {
    /// The whole text, of which nothing was read.
    pub fn new(text: &'t str) -> Source<'t> {
        Source {
            rest: text.trim_matches(parts),
        }
    }

    /// What is left after so many bytes, which were read.
    fn skip(&mut self, len: usize) {
        self.rest = self.rest.get(len..).unwrap_or("").trim_start_matches(parts);
    }

    /// The next word, or number.
    pub fn word(&mut self) -> Option<&'t str> {
        let text = self.rest;
        let len = text.find(parts).unwrap_or(text.len());
        let word = text.get(..len)?;
        self.skip(len);
        Some(word)
    }

    /// What a table has under the next word.
    pub fn named<T: Copy>(&mut self, table: &[(&str, T)]) -> Option<T> {
        let word = self.word()?;
        for (name, value) in table {
            if *name == word {
                return Some(*value);
            }
        }
        None
    }

    /// The next number.
    pub fn count(&mut self) -> Option<RepeatCount> {
        self.word()?.parse().ok()
    }

    /// The next character, between single quotes.
    pub fn character(&mut self) -> Option<char> {
        let text = self.rest.strip_prefix('\'')?;
        if let Some(escaped) = text.strip_prefix('\\') {
            let c = escaped.chars().next()?;
            self.skip(c.len_utf8() + 3);
            return Some(if c == 'n' { '\n' } else { c });
        }
        let c = text.chars().next()?;
        self.skip(c.len_utf8() + 2);
        Some(c)
    }

    /// The next text, between double quotes; there is none in it.
    pub fn text(&mut self) -> Option<&'t str> {
        let text = self.rest.strip_prefix('"')?.split('"').next()?;
        self.skip(text.len() + 2);
        Some(text)
    }

    /// The next text, between double quotes, without its escapes.
    pub fn plain_text(&mut self, alloc: Global) -> Result<Option<String>> {
        match self.text() {
            Some(text) => Ok(Some(unescaped(alloc, text)?)),
            None => Ok(None),
        }
    }

    /// The same, or the text that is built of the pieces of the next word.
    pub fn built_text(&mut self, alloc: Global) -> Result<String> {
        match self.plain_text(alloc)? {
            Some(text) => Ok(text),
            None => built(alloc, self.word().unwrap_or("")),
        }
    }

    /// The next number, or 0.
    pub fn number(&mut self) -> usize {
        self.word().unwrap_or("").parse().unwrap_or(0)
    }

    /// The next search for a character.
    pub fn search(&mut self) -> Option<CharSearch> {
        let direction = self.word()?;
        let c = self.character()?;
        match direction {
            "Forward" => Some(CharSearch::Forward(c)),
            "ForwardBefore" => Some(CharSearch::ForwardBefore(c)),
            "Backward" => Some(CharSearch::Backward(c)),
            "BackwardAfter" => Some(CharSearch::BackwardAfter(c)),
            _ => None,
        }
    }

    /// The next movement.
    pub fn movement(&mut self) -> Option<Movement> {
        let name = self.word()?;
        match plain_movement(name) {
            Some(movement) => Some(movement),
            None => self.counted_movement(name),
        }
    }

    /// The movement of this name, which has a count.
    fn counted_movement(&mut self, name: &str) -> Option<Movement> {
        let n = self.count()?;
        match name {
            "BackwardWord" => Some(Movement::BackwardWord(n, self.named(WORDS)?)),
            "ForwardWord" => {
                let place = self.named(PLACES)?;
                Some(Movement::ForwardWord(n, place, self.named(WORDS)?))
            }
            "ViCharSearch" => Some(Movement::ViCharSearch(n, self.search()?)),
            name => movement_by(name, n),
        }
    }
}

/// The movement of this name, which has no count.
fn plain_movement(name: &str) -> Option<Movement> {
    match name {
        "WholeLine" => Some(Movement::WholeLine),
        "BeginningOfLine" => Some(Movement::BeginningOfLine),
        "EndOfLine" => Some(Movement::EndOfLine),
        "ViFirstPrint" => Some(Movement::ViFirstPrint),
        "WholeBuffer" => Some(Movement::WholeBuffer),
        "BeginningOfBuffer" => Some(Movement::BeginningOfBuffer),
        "EndOfBuffer" => Some(Movement::EndOfBuffer),
        _ => None,
    }
}

/// The movement of this name by characters or lines.
fn movement_by(name: &str, n: RepeatCount) -> Option<Movement> {
    match name {
        "BackwardChar" => Some(Movement::BackwardChar(n)),
        "ForwardChar" => Some(Movement::ForwardChar(n)),
        "LineUp" => Some(Movement::LineUp(n)),
        "LineDown" => Some(Movement::LineDown(n)),
        _ => None,
    }
}

/// A text without its escapes: after a backslash, `n`, `r` and `t` are a newline, a carriage return
/// and a tab, `u{7f}` is the character of this number, and any other character is itself.
fn unescaped(alloc: Global, text: &str) -> Result<String> {
    let mut plain = String::new(alloc);
    let mut is_plain = true;
    for piece in text.split('\\') {
        if is_plain {
            plain.push_str(piece)?;
            is_plain = false;
        } else if piece.is_empty() {
            plain.push('\\')?;
            is_plain = true;
        } else {
            let (c, rest) = escaped(piece);
            plain.push(c)?;
            plain.push_str(rest)?;
        }
    }
    Ok(plain)
}

/// The character that a text begins with behind a backslash, and the rest.
fn escaped(text: &str) -> (char, &str) {
    let Some(c) = text.chars().next() else {
        return ('?', "");
    };
    let rest = text.get(c.len_utf8()..).unwrap_or("");
    match c {
        'n' => ('\n', rest),
        'r' => ('\r', rest),
        't' => ('\t', rest),
        'u' => numbered(rest),
        c => (c, rest),
    }
}

/// The character whose number stands between braces at the beginning of a text, and the rest.
fn numbered(text: &str) -> (char, &str) {
    let (code, rest) = text.split_once('}').unwrap_or(("", text));
    let digits = code.strip_prefix('{').unwrap_or("");
    let number = u32::from_str_radix(digits, 16).unwrap_or(0xfffd);
    (char::from_u32(number).unwrap_or('?'), rest)
}
