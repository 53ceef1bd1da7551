//! Characters that join no other, and the columns that they take.
ghost use Rattle.std.specs.Prelude.{◌≡◌, ◌&&◌, nat_le, true, IfSome};
ghost use Rattle.std.specs.List.{list_any};
ghost use Rattle.line_buffer.specs.Width.{IsLone};
ghost use Rattle.line_buffer.specs.declared.lone.TheConstants.{NARROW, WIDE};

use crate::printable::is_printable;

/// Characters past ASCII that stand alone and take one column: from the first of each range to the
/// last.
#[rattlefmt::skip]
static NARROW: [(u32, u32); 10] = [
    (0xA1, 0xAC), (0xAE, 0x2FF), (0x370, 0x377), (0x37A, 0x37F), (0x384, 0x482), (0x48A, 0x52F),
    (0x1E00, 0x1F15), (0x2010, 0x2027), (0x2030, 0x205E), (0x2500, 0x25FC),
];

/// The same of two columns.
#[rattlefmt::skip]
static WIDE: [(u32, u32); 11] = [
    (0x3001, 0x3029), (0x3041, 0x3096), (0x309B, 0x30FF), (0x3105, 0x312F), (0x3250, 0xA48C), (0xF900, 0xFAFF),
    (0xFF01, 0xFF60), (0x1F400, 0x1F43E), (0x1F442, 0x1F4FC), (0x1F5FB, 0x1F64F), (0x20000, 0x2FFFD),
];

/// The first of the characters in `WIDE`; those in `NARROW` stand before it.
const FIRST_WIDE: char = '\u{3001}';

/// Returns the columns of a character that joins no other, by itself. `None` for the others, and
/// for those of which this is not known.
pub fn lone_width(c: char) -> Option<usize>
    ensures { IfSome result (λ width. IsLone c width) }
{
    if is_printable(c) {
        return Some(1);
    }
    if c < FIRST_WIDE {
        return if is_narrow(c as u32) { Some(1) } else { None };
    }
    if is_wide(c as u32) { Some(2) } else { None }
}

fn is_narrow(c: u32) -> bool
    ensures { result ≡ list_any (λ range. nat_le range.0 c && nat_le c range.1) NARROW }
{
    NARROW.iter().any(|range| range.0 <= c && c <= range.1)
}

fn is_wide(c: u32) -> bool
    ensures { result ≡ list_any (λ range. nat_le range.0 c && nat_le c range.1) WIDE }
{
    WIDE.iter().any(|range| range.0 <= c && c <= range.1)
}
