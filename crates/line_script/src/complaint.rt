//! Why a line of a script is bad.

use std::fmt::{self, Display, Formatter};

/// Why a line of a script is bad.
#[derive(Clone, Copy, Debug, PartialEq, Eq)]
pub enum Complaint<'l> {
    /// It is not UTF-8.
    NotUtf8,
    /// It ends in a carriage return.
    CarriageReturn,
    /// No line begins with this word.
    NoSuchLine(&'l str),
    /// This word wants a text after it.
    NeedsText(&'l str),
    /// This word takes no text.
    TakesNoText(&'l str),
    /// This setting stands after items.
    BehindItems(&'l str),
    /// No key has this name.
    NoSuchKey(&'l str),
    /// A backslash has something else after it than `n` or a backslash.
    BadEscape,
    /// This is no number of columns.
    NoColumns(&'l str),
    /// No edit mode has this name.
    NoSuchMode(&'l str),
}

impl<'l> Complaint<'l> {
    /// Returns why a line is bad. `behind_items` says whether items stand before it.
    pub fn of(line: &'l [u8], behind_items: bool) -> Complaint<'l> {
        let Ok(line) = str::from_utf8(line) else {
            return Complaint::NotUtf8;
        };
        if line.ends_with('\r') {
            return Complaint::CarriageReturn;
        }
        match line.split_once(' ') {
            Some((kind, text)) => of_text(kind, text, behind_items),
            None => of_word(line),
        }
    }
}

/// Why a line is bad that has a text after a word.
fn of_text<'l>(kind: &'l str, text: &'l str, behind_items: bool) -> Complaint<'l> {
    match kind {
        "type" | "paste" => Complaint::BadEscape,
        "key" => Complaint::NoSuchKey(text),
        "hints" | "brackets" => Complaint::TakesNoText(kind),
        "history" | "load" | "prompt" | "columns" | "mode" if behind_items => {
            Complaint::BehindItems(kind)
        }
        "history" | "load" | "prompt" => Complaint::BadEscape,
        "columns" => Complaint::NoColumns(text),
        "mode" => Complaint::NoSuchMode(text),
        _ => Complaint::NoSuchLine(kind),
    }
}

/// Why a line is bad that is one word.
fn of_word(word: &str) -> Complaint<'_> {
    match word {
        "hints" | "brackets" => Complaint::BehindItems(word),
        "type" | "key" | "paste" | "history" | "load" | "prompt" | "columns" | "mode" => {
            Complaint::NeedsText(word)
        }
        _ => Complaint::NoSuchLine(word),
    }
}

/// Returns why the line of this number, from 1 on, is bad, if the script has so many.
pub(crate) fn complaint_at(script: &[u8], number: usize) -> Option<Complaint<'_>> {
    let mut behind_items = false;
    let mut place: usize = 1;
    for line in script.split(|byte| *byte == b'\n') {
        if place == number {
            return Some(Complaint::of(line, behind_items));
        }
        behind_items |= is_item(line);
        place = place.saturating_add(1);
    }
    None
}

/// Returns whether a line adds items.
fn is_item(line: &[u8]) -> bool {
    line.starts_with(b"type ") || line.starts_with(b"key ") || line.starts_with(b"paste ")
}

impl Display for Complaint<'_> {
    fn fmt<W: fmt::Write>(&self, f: &mut Formatter<W>) -> fmt::Result {
        match *self {
            Complaint::NotUtf8 => f.write_str("it is not UTF-8"),
            Complaint::CarriageReturn => {
                f.write_str("it ends in a carriage return; lines end in a line feed alone")
            }
            Complaint::NoSuchLine(word) => write!(f, "no line begins with {word:?}"),
            Complaint::NeedsText(word) => write!(f, "{word} needs a blank and a text behind it"),
            Complaint::TakesNoText(word) => write!(f, "{word} takes no text"),
            Complaint::BehindItems(word) => write!(f, "the setting {word} stands behind items"),
            Complaint::NoSuchKey(name) => write!(f, "no key is called {name}"),
            Complaint::BadEscape => {
                f.write_str("a backslash has neither n nor a backslash behind it")
            }
            Complaint::NoColumns(text) => {
                write!(f, "columns are a number from 10 to 1000, and not {text:?}")
            }
            Complaint::NoSuchMode(name) => write!(f, "the mode is emacs or vi, and not {name:?}"),
        }
    }
}
