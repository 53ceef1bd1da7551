//! Keys by their names, as scripts and hosts write them.

use crate::keys::{KeyCode, KeyEvent, Modifiers};

/// Returns the key of this name, in normal form: `C-`, `M-` and `S-` in this order, each where
/// something follows it, and then one character or the name of a key. None where no key is called
/// so.
pub fn key_named(name: &str) -> Option<KeyEvent> {
    let prefixes = [
        ("C-", Modifiers::CTRL),
        ("M-", Modifiers::ALT),
        ("S-", Modifiers::SHIFT),
    ];
    let mut modifiers = Modifiers::NONE;
    let mut rest = name;
    for (prefix, modifier) in prefixes {
        if let Some(inner) = rest.strip_prefix(prefix)
            && !inner.is_empty()
        {
            modifiers = modifiers | modifier;
            rest = inner;
        }
    }
    let code = code_named(rest)?;
    Some(KeyEvent::normalize(KeyEvent(code, modifiers)))
}

/// The keys that have a name.
const NAMED: [(&str, KeyCode); 20] = [
    ("Enter", KeyCode::Enter),
    ("Esc", KeyCode::Esc),
    ("Tab", KeyCode::Tab),
    ("BackTab", KeyCode::BackTab),
    ("Backspace", KeyCode::Backspace),
    ("Delete", KeyCode::Delete),
    ("Insert", KeyCode::Insert),
    ("Home", KeyCode::Home),
    ("End", KeyCode::End),
    ("Left", KeyCode::Left),
    ("Right", KeyCode::Right),
    ("Up", KeyCode::Up),
    ("Down", KeyCode::Down),
    ("PageUp", KeyCode::PageUp),
    ("PageDown", KeyCode::PageDown),
    ("Null", KeyCode::Null),
    ("Unknown", KeyCode::UnknownEscSeq),
    ("PasteStart", KeyCode::BracketedPasteStart),
    ("PasteEnd", KeyCode::BracketedPasteEnd),
    ("Space", KeyCode::Char(' ')),
];

/// The key of one character, or of this name.
fn code_named(name: &str) -> Option<KeyCode> {
    let mut chars = name.chars();
    if let Some(c) = chars.next()
        && chars.next().is_none()
    {
        return Some(KeyCode::Char(c));
    }
    for (named, code) in NAMED {
        if named == name {
            return Some(code);
        }
    }
    function_key(name)
}

/// The function key of a name from `F1` to `F24`.
fn function_key(name: &str) -> Option<KeyCode> {
    let digits = name.strip_prefix('F')?;
    if !digits.starts_with(|c| matches!(c, '1'..='9')) {
        return None;
    }
    match digits.parse() {
        Ok(number @ 1..=24) => Some(KeyCode::F(number)),
        _ => None,
    }
}
