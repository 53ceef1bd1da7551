//! How texts are drawn, so that no control character in them acts on a terminal, and their clusters
//! are those that they are measured by.
ghost use Rattle.std.specs.Prelude.{◌≡◌, ◌++◌, nat_lt, IfOk, OnOk, chars, encode_utf8, string_bytes, if◌then◌else◌};
ghost use Rattle.line_config.specs.Error.{MemoryOnly};
ghost use Rattle.line_term.specs.Painted.{is_coloring};
ghost use Rattle.line_term.specs.Drawn.{begins_below, cleaned, color_length, colored, colored_from, drawn, drawn_char, is_control, is_parameter, passing_behind, shift_in, uncolored_from, visible_char};

use crate::escape::push_if;
use line_buffer::{is_plain_text, is_printable_text};
use line_config::Result;

/// Shift in: terminals do nothing at it, and clusters part there.
const SHIFT_IN: &str = "\x0f";

/// Appends a text without colors as it is drawn.
#[tactic(auto, using(crate::proofs::PlainLemmas::cleaned_printable))]
pub(crate) fn push_cleaned(bytes: &mut String, text: &str) -> Result<()>
    ensures appends { OnOk result
        (string_bytes bytes.new ≡ string_bytes bytes.old ++ cleaned text.now) }
    ensures memory { MemoryOnly result }
{
    if is_printable_text(text) {
        bytes.push_str(text)?;
        return Ok(());
    }
    let joins = !is_plain_text(text);
    push_if(bytes, joins, SHIFT_IN)?;
    push_chars(bytes, text)?;
    push_if(bytes, joins, SHIFT_IN)
}

/// Appends the characters of a text as they are drawn.
fn push_chars(bytes: &mut String, text: &str) -> Result<()>
    ensures appends { OnOk result
        (string_bytes bytes.new ≡ string_bytes bytes.old ++ drawn (chars text.now)) }
    ensures memory { MemoryOnly result }
{
    let mut chars = text.chars();
    while let Some(c) = chars.next() {
        push_char(bytes, c, begins_below(chars.as_str()))?;
    }
    Ok(())
}

/// Appends a text with colors as it is drawn, and leaves no color on after it.
pub(crate) fn push_colored(bytes: &mut String, text: &str) -> Result<()>
    ensures appends { OnOk result
        (string_bytes bytes.new ≡ string_bytes bytes.old ++ colored text.now) }
    ensures memory { MemoryOnly result }
{
    bytes.push_str(SHIFT_IN)?;
    push_color_chars(bytes, text)?;
    bytes.push_str("\x1b[0m\x0f")?;
    Ok(())
}

/// Appends the characters of a text with colors as they are drawn.
fn push_color_chars(bytes: &mut String, text: &str) -> Result<()>
    ensures appends { OnOk result (string_bytes bytes.new
        ≡ string_bytes bytes.old ++ colored_from 0 (chars text.now)) }
    ensures memory { MemoryOnly result }
{
    let mut chars = text.chars();
    let mut passing = 0;
    while let Some(c) = chars.next() {
        if passing > 0 {
            bytes.push(c)?;
            passing -= 1;
        } else {
            passing = push_first(bytes, c, chars.as_str())?;
        }
    }
    Ok(())
}

/// Appends a character of a text with colors, and returns how many of those after it pass with it.
fn push_first(bytes: &mut String, c: char, behind: &str) -> Result<usize>
    ensures appends { let below = begins_below (uncolored_from 0 (chars behind.now)) in
        IfOk result (λ n. string_bytes bytes.new ≡ string_bytes bytes.old
        ++ (if nat_lt 0 n then encode_utf8 c else drawn_char c below)) }
    ensures passing { IfOk result (λ n. n ≡ passing_behind c (chars behind.now)) }
    ensures memory { MemoryOnly result }
{
    let passing = passing_behind(c, behind);
    if passing > 0 {
        bytes.push(c)?;
    } else {
        push_char(bytes, c, begins_below_colors(behind))?;
    }
    Ok(passing)
}

/// Returns how many of the characters after one pass with it: those of a color sequence.
fn passing_behind(c: char, behind: &str) -> usize
    ensures { result ≡ passing_behind c (chars behind.now) }
{
    if c == '\x1b' { color_length(behind) } else { 0 }
}

/// Appends a character as it is drawn before a newline or another one.
fn push_char(bytes: &mut String, c: char, below: bool) -> Result<()>
    ensures appends { OnOk result
        (string_bytes bytes.new ≡ string_bytes bytes.old ++ drawn_char c below) }
    ensures memory { MemoryOnly result }
{
    if c == '\n' {
        bytes.push_str("\r\n")?;
    } else if c == '\r' && below {
        return Ok(());
    } else if is_control(c) {
        push_control(bytes, c)?;
    } else {
        bytes.push(c)?;
    }
    Ok(())
}

/// Appends what is drawn for a control character, as a cluster of its own.
fn push_control(bytes: &mut String, c: char) -> Result<()>
    ensures appends { OnOk result (string_bytes bytes.new
        ≡ string_bytes bytes.old ++ (shift_in ++ encode_utf8 (visible_char c) ++ shift_in)) }
    ensures memory { MemoryOnly result }
{
    bytes.push_str(SHIFT_IN)?;
    bytes.push(visible(c))?;
    bytes.push_str(SHIFT_IN)?;
    Ok(())
}

/// Returns whether a character is a control character.
fn is_control(c: char) -> bool
    ensures { result ≡ is_control c }
{
    matches!(c, '\0'..' ' | '\x7f'..'\u{a0}')
}

/// Returns the character that is drawn for one.
fn visible(c: char) -> char
    ensures { result ≡ visible_char c }
{
    match c {
        '\t' => ' ',
        '\0'..' ' | '\x7f'..'\u{a0}' => '\u{fffd}',
        _ => c,
    }
}

/// Returns whether a newline stands in front.
fn begins_below(text: &str) -> bool
    ensures { result ≡ begins_below (chars text.now) }
{
    text.chars().next() == Some('\n')
}

/// Returns whether a newline stands in front, after color sequences.
fn begins_below_colors(text: &str) -> bool
    ensures { result ≡ begins_below (uncolored_from 0 (chars text.now)) }
{
    let mut chars = text.chars();
    let mut passing = 0;
    while let Some(c) = chars.next() {
        if passing > 0 {
            passing -= 1;
            continue;
        }
        passing = passing_behind(c, chars.as_str());
        if passing == 0 {
            return c == '\n';
        }
    }
    false
}

/// Returns whether a text is another one but for color sequences.
pub(crate) fn is_coloring(shown: &str, text: &str) -> bool
    ensures { result ≡ is_coloring shown.now text.now }
{
    let mut left = text.chars();
    let mut chars = shown.chars();
    let mut passing = 0;
    while let Some(c) = chars.next() {
        if passing > 0 {
            passing -= 1;
            continue;
        }
        passing = passing_behind(c, chars.as_str());
        if passing == 0 && left.next() != Some(c) {
            return false;
        }
    }
    left.next().is_none()
}

/// Returns how many characters make a color sequence with an ESC before them: `[`, parameters and
/// `m`. 0 where none do.
fn color_length(behind: &str) -> usize
    ensures { result ≡ color_length (chars behind.now) }
{
    let mut chars = behind.chars();
    let Some('[') = chars.next() else {
        return 0;
    };
    let mut place = 1;
    while let Some(c) = chars.next() {
        if c == 'm' {
            return place + 1;
        }
        if !is_parameter(c) {
            return 0;
        }
        place += 1;
    }
    0
}

/// Returns whether a character is a parameter of a color sequence, or parts two.
fn is_parameter(c: char) -> bool
    ensures { result ≡ is_parameter c }
{
    matches!(c, '0'..=';')
}
