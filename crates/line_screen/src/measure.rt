//! Where a text ends on a screen, measured cluster by cluster. In printable ASCII and newlines each
//! character is one.
ghost use Rattle.std.specs.Prelude.{◌≡◌, ◌≤◌, true, IfSome, take, IsCharBoundary};
ghost use Rattle.std.specs.List.{fold, list_all};
ghost use Rattle.line_buffer.specs.Cluster.{PartsClusters};
ghost use Rattle.line_buffer.specs.Printable.{is_plain};
ghost use Rattle.line_keys.specs.Model.Display.{cursor_position};
ghost use Rattle.unicode_segmentation.specs.Grapheme.{graphemes};
ghost use Rattle.line_screen.specs.Measure.{advanced, after_cluster, columns_after, measured, start_below, wrapped};
ghost use Rattle.line_screen.specs.MeasureLaws.{after_char};

use line_buffer::{
    LineBuffer, Position, Unit, first_parting, is_plain_text, is_printable_text, last_parting,
    lone_width,
};
use memchr::memchr;
use unicode_segmentation::UnicodeSegmentation;
use unicode_width::UnicodeWidthStr;

/// Returns where the text ends that begins at `origin`, on a screen of so many columns.
#[tactic(auto, unfolding(crate::specs::Measure::measured))]
pub fn measured(columns: Unit, text: &str, origin: Position) -> Position
    ensures { result ≡ measured columns text.now origin }
{
    if is_printable_text(text) {
        return wrapped(columns, after_printable(columns, origin, text.len()));
    }
    wrapped(columns, after_text(columns, origin, text))
}

/// Returns where the line's cursor is, and where its text ends, after a prompt that ends at
/// `origin`. With the cursor at the end the line is measured once; else what stands before a
/// parting, at or before the cursor, is.
pub(crate) fn measured_line(
    columns: Unit,
    line: &LineBuffer,
    origin: Position,
) -> (Position, Position)
    ensures cursor { result.0 ≡ cursor_position (measured columns) origin line.now }
    ensures end { result.1 ≡ measured columns line.now.text origin }
{
    let text = line.as_str();
    if line.is_cursor_at_end() {
        let end = wrapped(columns, after_line(columns, origin, line));
        return (end, end);
    }
    let before = &text[..line.pos()];
    let parting = parting_before(line);
    let place = after_text(columns, origin, &text[..parting]);
    let cursor = after_text(columns, place, &before[parting..]);
    let end = after_text(columns, place, &text[parting..]);
    (wrapped(columns, cursor), wrapped(columns, end))
}

/// Returns the place after the text of a line.
fn after_line(columns: Unit, place: Position, line: &LineBuffer) -> Position
    ensures { result ≡ fold (after_cluster columns) place (graphemes true line.now.text) }
{
    if line.is_plain() {
        return after_plain(columns, place, line.as_str());
    }
    after_text(columns, place, line.as_str())
}

/// Returns a place up to the cursor where the clusters of the line part, and so do those before the
/// cursor.
fn parting_before(line: &LineBuffer) -> usize
    ensures place { IsCharBoundary line.now.text result }
    ensures within { result ≤ line.now.cursor }
    ensures parts { PartsClusters line.now.text result }
    ensures before { PartsClusters (take line.now.cursor line.now.text) result }
{
    if line.is_plain() {
        line.pos()
    } else {
        last_parting(line.as_str(), line.pos())
    }
}

/// The greatest length, in bytes, of a text that is tried character by character before it is cut
/// into parts.
const SHORT: usize = 128;

/// Returns the place after more text.
fn after_text(columns: Unit, place: Position, text: &str) -> Position
    ensures { result ≡ fold (after_cluster columns) place (graphemes true text.now) }
{
    if is_plain_text(text) {
        return after_plain(columns, place, text);
    }
    match after_short(columns, place, text) {
        Some(place) => place,
        None => after_parts(columns, place, text),
    }
}

/// The place after a short text in which no character joins another. `None` where one may, and for
/// a longer text.
fn after_short(columns: Unit, place: Position, text: &str) -> Option<Position>
    ensures { IfSome result (λ end. end
        ≡ fold (after_cluster columns) place (graphemes true text.now)) }
{
    if text.len() > SHORT {
        return None;
    }
    after_lone(columns, place, text)
}

/// The same, part by part.
fn after_parts(columns: Unit, place: Position, text: &str) -> Position
    ensures { result ≡ fold (after_cluster columns) place (graphemes true text.now) }
{
    let mut place = place;
    let mut rest = text;
    while !rest.is_empty() {
        let (part, behind) = rest.split_at(first_parting(rest));
        place = after_part(columns, place, part);
        rest = behind;
    }
    place
}

/// The same of one part.
fn after_part(columns: Unit, place: Position, part: &str) -> Position
    ensures { result ≡ fold (after_cluster columns) place (graphemes true part.now) }
{
    if is_plain_text(part) {
        return after_plain(columns, place, part);
    }
    match after_lone(columns, place, part) {
        Some(place) => place,
        None => after_clusters(columns, place, part),
    }
}

/// The same of characters of which none joins another. `None` where one may.
fn after_lone(columns: Unit, place: Position, text: &str) -> Option<Position>
    ensures { IfSome result (λ end. end
        ≡ fold (after_cluster columns) place (graphemes true text.now)) }
{
    let room = usize::from(columns);
    let mut place = place;
    for c in text.chars() {
        let width = lone_width(c)?;
        place = advanced(columns, place, width.min(room));
    }
    Some(place)
}

/// The same, cluster by cluster.
fn after_clusters(columns: Unit, place: Position, text: &str) -> Position
    ensures { result ≡ fold (after_cluster columns) place (graphemes true text.now) }
{
    let mut place = place;
    for cluster in text.graphemes(true) {
        place = after_cluster(columns, place, cluster);
    }
    place
}

/// The place after more printable ASCII and newlines.
fn after_plain(columns: Unit, place: Position, text: &str) -> Position
    requires { list_all is_plain text.now ≡ true }
    ensures { result ≡ fold (after_char columns) place text.now }
{
    if is_printable_text(text) {
        return after_printable(columns, place, text.len());
    }
    let mut place = place;
    let mut rest = text.as_bytes();
    while let Some(newline) = memchr(b'\n', rest) {
        let (row, behind) = rest.split_at(newline);
        place = start_below(after_printable(columns, place, row.len()));
        rest = &behind[1..];
    }
    after_printable(columns, place, rest.len())
}

/// The place after so many more printable ASCII characters.
fn after_printable(columns: Unit, place: Position, count: usize) -> Position
    ensures { result ≡ columns_after columns count place }
{
    let mut place = place;
    let mut left = count;
    while left > 0 {
        let room = usize::from(columns.saturating_sub(place.col));
        if room == 0 {
            place = advanced(columns, place, 1.min(usize::from(columns)));
            left -= 1;
        } else {
            let fitting = left.min(room);
            place.col += fitting as Unit;
            left -= fitting;
        }
    }
    place
}

/// The place, or the start of the row below where the row is exactly full.
fn wrapped(columns: Unit, place: Position) -> Position
    ensures { result ≡ wrapped columns place }
{
    if place.col == columns {
        start_below(place)
    } else {
        place
    }
}

/// The place after one more cluster.
fn after_cluster(columns: Unit, place: Position, cluster: &str) -> Position
    ensures { result ≡ after_cluster columns place cluster.now }
{
    if cluster.ends_with('\n') {
        return start_below(place);
    }
    let room = usize::from(columns);
    let width = cluster.width().min(room);
    advanced(columns, place, width)
}

/// The place after a cluster of this width, on the row or, where it doesn't fit there, on a new
/// one.
fn advanced(columns: Unit, place: Position, width: usize) -> Position
    requires { width ≤ columns }
    ensures { result ≡ advanced columns width place }
{
    let col = usize::from(place.col) + width;
    if col <= usize::from(columns) {
        Position {
            col: col as Unit,
            row: place.row,
        }
    } else {
        Position {
            col: width as Unit,
            row: start_below(place).row,
        }
    }
}

/// The start of the row below. Rows stop at the greatest one.
fn start_below(place: Position) -> Position
    ensures { result ≡ start_below place }
{
    Position {
        col: 0,
        row: place.row.saturating_add(1),
    }
}
