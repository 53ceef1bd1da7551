//! Keys as a person presses them: a key code with its modifiers.

ghost use Rattle.std.specs.Prelude.{⊤, ◌≡◌, [], ◌∷◌, codes};
ghost use Rattle.line_keys.specs.Key.{bits_of, event_of, normalized};
ghost use Rattle.line_keys.specs.Key.{union, intersection, symmetric_difference, difference, complement};
ghost use Rattle.line_keys.specs.declared.keys.TheConstants.Modifiers.{NONE};

use bitflags::{Flag, Flags};
use std::ops::{BitAnd, BitOr, BitXor, Not, Sub};

/// A key with the modifiers that were held with it. Two events are equal where both key and
/// modifiers are.
#[derive(Debug, Clone, Copy, PartialEq, Eq, Hash)]
pub struct KeyEvent(pub KeyCode, pub Modifiers);

impl KeyEvent {
    /// Returns the event that the character `c` stands for, with the modifiers `mods`.
    ///
    /// A character that is not a control character is its own key, without Shift. The control
    /// characters are keys too:
    ///
    /// - U+0008 and U+007F are Backspace, U+000D is Enter, U+001B is Esc, U+009B is Esc with Shift.
    /// - U+0009 is Tab. With Shift it is BackTab, without Shift.
    /// - Every other one up to U+001F is Ctrl with the character 64 places on: U+0001 is Ctrl with
    ///   A.
    /// - Every other one from U+0080 on is Null.
    pub fn new(c: char, mods: Modifiers) -> Self
        ensures { result ≡ event_of c mods }
    {
        if !c.is_control() {
            return Self(KeyCode::Char(c), mods - Modifiers::SHIFT);
        }
        match c {
            '\u{8}' | '\u{7f}' => Self(KeyCode::Backspace, mods),
            '\t' if mods.contains(Modifiers::SHIFT) => {
                Self(KeyCode::BackTab, mods - Modifiers::SHIFT)
            }
            '\t' => Self(KeyCode::Tab, mods),
            '\r' => Self(KeyCode::Enter, mods),
            '\u{1b}' => Self(KeyCode::Esc, mods),
            '\u{9b}' => Self(KeyCode::Esc, mods | Modifiers::SHIFT),
            '\0'..='\u{1f}' => {
                let sign = char::from(b'@' + c as u8);
                Self(KeyCode::Char(sign), mods | Modifiers::CTRL)
            }
            _ => Self(KeyCode::Null, mods),
        }
    }

    /// Returns the event of the character `c` with Ctrl, as `new` does.
    pub fn ctrl(c: char) -> Self
        ensures { result ≡ event_of c Modifiers.CTRL }
    {
        Self::new(c, Modifiers::CTRL)
    }

    /// Returns the event of the character `c` with Alt, as `new` does.
    pub fn alt(c: char) -> Self
        ensures { result ≡ event_of c Modifiers.ALT }
    {
        Self::new(c, Modifiers::ALT)
    }

    /// Returns the event `e` in normal form, so that two names of one key press become equal.
    ///
    /// - An ASCII control character becomes what `new` makes of it.
    /// - A lower case ASCII letter with Ctrl becomes upper case.
    /// - An upper case ASCII letter loses Shift.
    /// - Tab with Shift becomes BackTab without it.
    ///
    /// Every other event stays as it is. A lower case letter with Ctrl and Shift takes two calls to
    /// lose its Shift. A third call never changes anything.
    pub fn normalize(e: Self) -> Self
        ensures { result ≡ normalized e }
    {
        let Self(code, mods) = e;
        match code {
            KeyCode::Char(c) if c.is_ascii_control() => Self::new(c, mods),
            KeyCode::Char(c) if c.is_ascii_lowercase() && mods.contains(Modifiers::CTRL) => {
                Self(KeyCode::Char(c.to_ascii_uppercase()), mods)
            }
            KeyCode::Char(c) if c.is_ascii_uppercase() => Self(code, mods - Modifiers::SHIFT),
            KeyCode::Tab if mods.contains(Modifiers::SHIFT) => {
                Self(KeyCode::BackTab, mods - Modifiers::SHIFT)
            }
            _ => e,
        }
    }
}

/// The event of a character with no modifier, as `KeyEvent::new` makes it.
impl From<char> for KeyEvent {
    ghost from_gives = { λ c e. e ≡ event_of c NONE };

    fn from(c: char) -> Self {
        Self::new(c, Modifiers::NONE)
    }
}

/// The key itself, without its modifiers.
#[derive(Debug, Clone, Copy, PartialEq, Eq, Hash)]
pub enum KeyCode {
    /// An escape sequence of no known key.
    UnknownEscSeq,
    /// Backspace, or Ctrl with H.
    Backspace,
    /// Tab with Shift.
    BackTab,
    /// The mark before a pasted text.
    BracketedPasteStart,
    /// The mark after a pasted text.
    BracketedPasteEnd,
    /// The key of one character.
    Char(char),
    /// Delete.
    Delete,
    /// The arrow down.
    Down,
    /// End.
    End,
    /// Enter, or Ctrl with M.
    Enter,
    /// Escape, or Ctrl with an opening bracket.
    Esc,
    /// The function key of this number.
    F(u8),
    /// Home.
    Home,
    /// Insert.
    Insert,
    /// The arrow to the left.
    Left,
    /// A control character of no key.
    Null,
    /// Page down.
    PageDown,
    /// Page up.
    PageUp,
    /// The arrow to the right.
    Right,
    /// Tab, or Ctrl with I.
    Tab,
    /// The arrow up.
    Up,
}

/// The modifier keys that are held with a key: a set of bits, where bit 1 is Shift, bit 2 Alt and
/// bit 3 Ctrl.
///
/// Its methods are those of `bitflags::Flags`. `|`, `&`, `^` and `-` are union, intersection,
/// symmetric difference and difference. `!` gives those of the three named modifiers that are not
/// in the set.
#[derive(Debug, Clone, Copy, PartialEq, Eq, Hash)]
pub struct Modifiers(u8);

impl Modifiers {
    /// Ctrl, bit 3.
    pub const CTRL: Self = Self(1 << 3);
    /// Alt, or Escape typed before the key, bit 2.
    pub const ALT: Self = Self(1 << 2);
    /// Shift, bit 1.
    pub const SHIFT: Self = Self(1 << 1);

    /// No modifier.
    pub const NONE: Self = Self(0);
    /// Ctrl and Shift.
    pub const CTRL_SHIFT: Self = Self(Self::CTRL.0 | Self::SHIFT.0);
    /// Alt and Shift.
    pub const ALT_SHIFT: Self = Self(Self::ALT.0 | Self::SHIFT.0);
    /// Ctrl and Alt.
    pub const CTRL_ALT: Self = Self(Self::CTRL.0 | Self::ALT.0);
    /// Ctrl, Alt and Shift.
    pub const CTRL_ALT_SHIFT: Self = Self(Self::CTRL.0 | Self::ALT.0 | Self::SHIFT.0);

    // The three modifiers by name, as `Flags` lists them.
    const NAMED: &'static [Flag<Self>] = &[
        Flag {
            name: "CTRL",
            value: Self::CTRL,
        },
        Flag {
            name: "ALT",
            value: Self::ALT,
        },
        Flag {
            name: "SHIFT",
            value: Self::SHIFT,
        },
    ];
}

impl Flags for Modifiers {
    type Bits = u8;

    ghost exact = { ⊤ };

    ghost table = { (codes "CTRL", 8) ∷ (codes "ALT", 4) ∷ (codes "SHIFT", 2) ∷ [] };

    ghost set_of = { bits_of };

    fn flags<'a>() -> &'a [Flag<Self>] {
        Self::NAMED
    }

    fn bits(&self) -> u8 {
        self.0
    }

    fn from_bits_retain(bits: u8) -> Self {
        Self(bits)
    }
}

impl BitOr for Modifiers {
    type Output = Self;

    ghost bitor_gives = { λ a b r. r ≡ union a b };

    fn bitor(self, other: Self) -> Self {
        Self(self.0 | other.0)
    }
}

impl BitAnd for Modifiers {
    type Output = Self;

    ghost bitand_gives = { λ a b r. r ≡ intersection a b };

    fn bitand(self, other: Self) -> Self {
        Self(self.0 & other.0)
    }
}

impl BitXor for Modifiers {
    type Output = Self;

    ghost bitxor_gives = { λ a b r. r ≡ symmetric_difference a b };

    fn bitxor(self, other: Self) -> Self {
        Self(self.0 ^ other.0)
    }
}

impl Sub for Modifiers {
    type Output = Self;

    ghost sub_gives = { λ a b r. r ≡ difference a b };

    fn sub(self, other: Self) -> Self {
        Self(self.0 & !other.0)
    }
}

impl Not for Modifiers {
    type Output = Self;

    ghost not_gives = { λ a r. r ≡ complement a };

    fn not(self) -> Self {
        Self::CTRL_ALT_SHIFT - self
    }
}
