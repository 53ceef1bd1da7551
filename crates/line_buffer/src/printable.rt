//! Printable ASCII, of which each character takes one column, and newlines between it.
ghost use Rattle.std.specs.Prelude.{◌≡◌};
ghost use Rattle.std.specs.List.{list_all};
ghost use Rattle.line_buffer.specs.Printable as printable;

/// Returns whether the character is printable ASCII.
pub fn is_printable(c: char) -> bool
    ensures { result ≡ printable.is_printable c }
{
    matches!(c, ' '..='~')
}

/// Returns whether the text is printable ASCII alone. All bytes are looked at, many at once.
pub fn is_printable_text(text: &str) -> bool
    ensures { result ≡ list_all printable.is_printable text.now }
{
    let mut printable = true;
    for byte in text.as_bytes() {
        printable &= is_printable_byte(*byte);
    }
    printable
}

/// Returns whether the text is printable ASCII and newlines alone.
pub fn is_plain_text(text: &str) -> bool
    ensures { result ≡ list_all printable.is_plain text.now }
{
    are_plain(text.as_bytes())
}

/// Returns whether the bytes are printable ASCII and newlines alone. All are looked at, many at
/// once.
pub(crate) fn are_plain(bytes: &[u8]) -> bool
    ensures { result ≡ list_all printable.is_plain bytes.now }
{
    let mut plain = true;
    for byte in bytes {
        plain &= is_plain_byte(*byte);
    }
    plain
}

/// Returns whether the byte is printable ASCII.
fn is_printable_byte(byte: u8) -> bool
    ensures { result ≡ printable.is_printable byte }
{
    matches!(byte, b' '..=b'~')
}

/// Returns whether the byte is printable ASCII or a newline.
pub(crate) fn is_plain_byte(byte: u8) -> bool
    ensures { result ≡ printable.is_plain byte }
{
    byte == b'\n' || is_printable_byte(byte)
}
