//! Where texts end on a screen.

use crate::{holds, sure};
use line_buffer::{LineBuffer, Position, Unit};
use line_screen::{KeyQueue, Plain, measured};
use line_state::Renderer;

/// A row and a column.
type Place = (Unit, Unit);

/// The columns, a text, its origin and its end.
const ENDS: &[(Unit, &str, Place, Place)] = &[
    (80, "", (0, 2), (0, 2)),
    (10, "abcdefg", (0, 2), (0, 9)),
    (10, "abcdefgh", (0, 2), (1, 0)),
    (10, "abcdefgh\n", (0, 2), (1, 0)),
    (10, "abcdefgh\nx", (0, 2), (1, 1)),
    (10, "a\r\nb", (0, 2), (1, 1)),
    (80, "\n", (0, 2), (1, 0)),
    (80, "e\u{301}", (0, 2), (0, 3)),
    (80, "世", (0, 2), (0, 4)),
    (10, "世", (3, 8), (4, 0)),
    (10, "世", (3, 9), (4, 2)),
    (1, "世", (0, 0), (1, 0)),
    (1, "ab", (0, 0), (2, 0)),
    (10, "ab\n", (65535, 8), (65535, 0)),
    // runs of printable ASCII, beside others and alone
    (10, "abcdefgh世", (0, 2), (1, 2)),
    (10, "世abcdefghij", (0, 0), (1, 2)),
    (10, "abce\u{301}fgh\nij", (0, 2), (1, 2)),
    (10, "ab\u{301}\ncd", (0, 0), (1, 2)),
    (3, "ab\nabc\nabcd", (0, 0), (3, 1)),
    (3, "ab\nabc\nabcd世\n", (0, 0), (4, 0)),
    (5, "abcdefghijklmnopq", (0, 3), (4, 0)),
    (10, "abcdefghijklmnopqrstuvwxy", (65534, 0), (65535, 5)),
    // characters that join no other, beside some that do
    (10, "世世世世世世", (0, 0), (1, 2)),
    (10, "世か。ー字a", (0, 0), (1, 1)),
    (3, "世世", (0, 0), (1, 2)),
    (2, "é世é", (0, 0), (2, 1)),
    (1, "世é", (0, 0), (2, 0)),
    (10, "\u{301}世", (0, 2), (0, 4)),
    (10, "世\u{301}世", (0, 0), (0, 4)),
    (10, "👍👍🏽a", (0, 0), (0, 5)),
    (10, "世\n世é", (0, 0), (1, 3)),
    // a place past the columns, and no columns at all
    (3, "ab", (0, 7), (1, 2)),
    (0, "ab", (0, 0), (1, 0)),
    (0, "a\nb", (0, 0), (2, 0)),
];

/// The columns, a text after a prompt of two columns, the cursor in bytes and a text after the
/// line; where the cursor is, and where what is shown ends.
type Layout = (
    Unit,
    &'static str,
    usize,
    Option<&'static str>,
    Place,
    Place,
);

const LAYOUTS: &[Layout] = &[
    (10, "", 0, None, (0, 2), (0, 2)),
    (10, "abcdefgh", 8, None, (1, 0), (1, 0)),
    // the end is not measured from the cursor that went to the next row
    (10, "abcdefgh\nx", 8, None, (1, 0), (1, 1)),
    (10, "é\nabcdefghij\nx", 13, None, (2, 0), (2, 1)),
    (10, "abcdefg世", 7, None, (0, 9), (1, 2)),
    (10, "ab世cd", 5, None, (0, 6), (0, 8)),
    // a cursor within a cluster
    (10, "e\u{301}x", 1, None, (0, 3), (0, 4)),
    (10, "abe\u{301}", 3, None, (0, 5), (0, 5)),
    (10, "a👨\u{200d}👩\u{200d}👧b", 5, None, (0, 5), (0, 6)),
    (10, "ab", 1, Some("cd世"), (0, 3), (0, 8)),
    (10, "é", 0, Some("\n"), (0, 2), (1, 0)),
];

/// Texts end where they are to, and lines are laid out so.
#[test]
fn puts_clusters_on_rows(rt: HostRuntime) {
    for (columns, text, (row, col), end) in ENDS {
        let origin = Position {
            row: *row,
            col: *col,
        };
        let place = measured(*columns, text, origin);
        let is_so = place.row == end.0 && place.col == end.1;
        holds(&rt, is_so, text, usize::from(*columns));
    }
    for (columns, text, pos, info, cursor, end) in LAYOUTS {
        assert!(rt; *columns > 0 && text.is_char_boundary(*pos));
        let screen: Plain<KeyQueue> = Plain::new(rt.alloc(), *columns);
        let line = sure(&rt, LineBuffer::init(rt.alloc(), text, *pos));
        let layout = screen.compute_layout(Position { row: 0, col: 2 }, true, &line, *info);
        let mut is_so = layout.cursor.row == cursor.0 && layout.cursor.col == cursor.1;
        is_so &= layout.end.row == end.0 && layout.end.col == end.1;
        is_so &= layout.default_prompt && layout.has_info == info.is_some();
        holds(&rt, is_so, text, *pos);
    }
}
