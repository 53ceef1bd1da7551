//! Where the clusters of what is shown stand.

use line_buffer::{Position, Unit};
use line_config::Result;
use line_screen::{Plain, measured};
use line_script::Script;
use std::io::Write;
use unicode_segmentation::UnicodeSegmentation;

/// Prints the places of prompt, line and hint, a line for each cluster: row, column, and its bytes
/// as hexadecimal numbers. The hint comes right after the line. The last line is the cursor's
/// place.
pub fn print_cells<O: Write>(screen: &Plain<Script>, columns: Unit, out: &mut O) -> Result<()> {
    let mut place = Position { row: 0, col: 0 };
    place = print_text(screen.prompt(), place, columns, out)?;
    place = print_text(screen.text(), place, columns, out)?;
    if let Some(hint) = screen.hint() {
        print_text(hint, place, columns, out)?;
    }
    let Position { row, col } = screen.cursor();
    writeln!(out, "cursor {row} {col}")?;
    Ok(())
}

/// Prints the places of a text that begins at a place. Returns where it ends.
fn print_text<O: Write>(
    text: &str,
    begin: Position,
    columns: Unit,
    out: &mut O,
) -> Result<Position> {
    let mut place = begin;
    let mut len: usize = 0;
    for cluster in text.graphemes(true) {
        len = len.saturating_add(cluster.len());
        let end = measured(columns, text.get(..len).unwrap_or(text), begin);
        let Position { row, col } = first_place(place, end);
        if cluster != "\n" && cluster != "\r\n" && end != place {
            write!(out, "cell {row} {col} ")?;
            print_bytes(cluster.as_bytes(), out)?;
        }
        place = end;
    }
    Ok(place)
}

/// Where a cluster stands that is written at a place and ends at another: there, or where it does
/// not fit, on the next row.
fn first_place(place: Position, end: Position) -> Position {
    // where it fills the row, it ends on the row below
    let row = if end.col == 0 {
        end.row.saturating_sub(1)
    } else {
        end.row
    };
    if row == place.row {
        return place;
    }
    Position { row, col: 0 }
}

/// Prints bytes as hexadecimal numbers, and a line end.
pub fn print_bytes<O: Write>(bytes: &[u8], out: &mut O) -> Result<()> {
    for byte in bytes {
        write!(out, "{byte:02x}")?;
    }
    writeln!(out, "")?;
    Ok(())
}
