//! Counts: how often a command is done.
ghost use Rattle.std.specs.Prelude.{◌≡◌, ◌≤◌, ◌++◌, ◌∷◌, [], ◌||◌, ℕ, List, IfOk, IfSome, string_bytes};
ghost use Rattle.line_config.specs.Error.{MemoryOnly};
ghost use Rattle.line_keys.specs.Count.{IsCountOf, begins_count, continues_count, count_of, count_prompt, digit_of, digits_of, is_digit, is_minus, number_of};
ghost use Rattle.line_keys.specs.Meaning.{count_or_one, one};
ghost use Rattle.line_keys.specs.declared.keys.KeyEvent.{KeyEvent};

use crate::keys::{KeyCode, KeyEvent, Modifiers};
use crate::refresher::InputMode;
use line_buffer::RepeatCount;
use line_config::{EditMode, Result};
use std::alloc::Global;

/// How often a command is done, and whether in its own direction or the opposite one.
#[derive(Clone, Copy, Debug, PartialEq, Eq)]
pub struct Count {
    /// How often.
    pub n: RepeatCount,
    /// Whether the direction is the command's own: the first key was no minus sign, or the number
    /// is 0.
    pub positive: bool,
}

impl Count {
    /// Returns the count where none is typed: once, in the command's own direction.
    pub fn one() -> Self
        ensures { result ≡ one }
    {
        Count {
            n: 1,
            positive: true,
        }
    }

    /// Returns the count that is typed, or else one.
    pub fn or_one(typed: Option<Count>) -> Self
        ensures { result ≡ count_or_one typed }
    {
        typed.unwrap_or(Count::one())
    }
}

/// Returns whether a count begins with a key: in Emacs with a digit or a minus sign with Alt, in
/// Vi's command mode with a plain digit from 1 on.
pub fn begins_count(mode: EditMode, input_mode: InputMode, key: KeyEvent) -> bool
    ensures { result ≡ begins_count mode input_mode key }
{
    match (mode, input_mode) {
        (EditMode::Emacs, _) => key.1 == Modifiers::ALT && is_sign(key),
        (EditMode::Vi, InputMode::Command) => {
            key.1 == Modifiers::NONE && digit(key).unwrap_or(0) >= 1
        }
        (EditMode::Vi, _) => false,
    }
}

/// Returns whether a count goes on with a key: in Emacs with digits and minus signs, plain or with
/// Alt, in Vi with plain digits.
pub fn continues_count(mode: EditMode, key: KeyEvent) -> bool
    ensures { result ≡ continues_count mode key }
{
    match mode {
        EditMode::Emacs => { (key.1 == Modifiers::NONE || key.1 == Modifiers::ALT) && is_sign(key) }
        EditMode::Vi => key.1 == Modifiers::NONE && digit(key).is_some(),
    }
}

// Returns whether a key is a digit or a minus sign, with any modifiers.
fn is_sign(key: KeyEvent) -> bool
    ensures { result ≡ (is_digit key || is_minus key) }
{
    digit(key).is_some() || is_minus(key)
}

// Returns whether a key is the minus sign, with any modifiers.
fn is_minus(key: KeyEvent) -> bool
    ensures { result ≡ is_minus key }
{
    match key.0 {
        KeyCode::Char(c) => c == '-',
        _ => false,
    }
}

// Returns the digit of a key, with any modifiers.
fn digit(key: KeyEvent) -> Option<RepeatCount>
    ensures value { result ≡ digit_of key }
    ensures bound { IfSome result (λ digit. digit ≤ 9) }
{
    match key.0 {
        KeyCode::Char(c) if c >= '0' && c <= '9' => Some(c as RepeatCount - 48),
        _ => None,
    }
}

/// A count while its keys are read: its sign, and the number that its digits write.
#[derive(Drop)]
pub struct TypedCount {
    negative: bool,
    number: Option<RepeatCount>,
}

impl TypedCount {
    /// Returns the count of one key.
    pub fn new(first: KeyEvent) -> Self
        ensures { IsCountOf result (first ∷ []) }
    {
        TypedCount {
            negative: is_minus(first),
            number: with_key(None, first),
        }
    }

    /// Adds a key. Digits that come after a number of at least 1000, and minus signs, are passed
    /// over.
    pub fn push(&mut self, key: KeyEvent)
        ensures { (keys : List KeyEvent)
            → IsCountOf self.old keys → IsCountOf self.new (keys ++ key ∷ []) }
    {
        self.number = with_key(self.number, key);
    }

    /// Returns the count.
    pub fn count(&self) -> Count
        ensures { (keys : List KeyEvent) → IsCountOf self.now keys → result ≡ count_of keys }
    {
        match self.number {
            None => Count {
                n: 1,
                positive: !self.negative,
            },
            Some(0) => Count::one(),
            Some(n) => Count {
                n,
                positive: !self.negative,
            },
        }
    }

    /// Returns the prompt that shows the count: `(arg: N) `, where N is -1 for a minus sign alone.
    ///
    /// # Errors
    /// `Memory` if memory runs out.
    pub fn prompt(&self, alloc: Global) -> Result<String>
        ensures text { (keys : List KeyEvent) → IsCountOf self.now keys
            → IfOk result (λ prompt. string_bytes prompt ≡ count_prompt keys) }
        ensures memory { MemoryOnly result }
    {
        let number = self.number.unwrap_or(1);
        let sign = if self.negative && number != 0 {
            "-"
        } else {
            ""
        };
        Ok(format!(in alloc; "(arg: {sign}{number}) ")?)
    }
}

// Returns a number with the digit of a key after it, if the key is one.
fn with_key(number: Option<RepeatCount>, key: KeyEvent) -> Option<RepeatCount>
    ensures { (digits : List ℕ) → number ≡ number_of digits
        → result ≡ number_of (digits ++ digits_of (key ∷ [])) }
{
    let Some(digit) = digit(key) else {
        return number;
    };
    with_digit(number, digit)
}

// Returns a number with a digit after it; a number of at least 1000 stays.
fn with_digit(number: Option<RepeatCount>, digit: RepeatCount) -> Option<RepeatCount>
    requires { digit ≤ 9 }
    ensures { (digits : List ℕ) → number ≡ number_of digits
        → result ≡ number_of (digits ++ digit ∷ []) }
{
    match number {
        None => Some(digit),
        Some(n) if n < 1000 => Some(n * 10 + digit),
        Some(n) => Some(n),
    }
}
