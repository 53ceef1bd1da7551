//! Moves of the cursor, and what a text has by itself.

use crate::caller::type_in;
use crate::report::{Report, Row, shown};
use line_buffer::{
    Changeset, GraphemeClusterMode, Layout, LineBuffer, first_parting, is_plain_text, is_printable,
    is_printable_text, last_parting, lone_width,
};
use line_config::Result;
use std::alloc::Global;
use tests_parties::source::{PLACES, Source, WORDS};

/// Makes the calls of a case, one after another, on a screen whose prompt takes two columns.
pub fn plays(alloc: Global, rows: &[Row<'_>], report: &mut Report) -> Result<()> {
    let mut layout = Layout::new(GraphemeClusterMode::Unicode);
    layout.prompt_size.col = 2;
    let mut line = LineBuffer::new(alloc);
    for row in rows {
        let given = moves(alloc, &mut line, &layout, &mut Source::new(row.call()));
        let _ = report.takes(*row, given)?;
    }
    Ok(())
}

/// What a call gives: whether it moves, and the cursor then. None where there is no such call.
fn moves(
    alloc: Global,
    line: &mut LineBuffer,
    layout: &Layout,
    source: &mut Source<'_>,
) -> Result<Option<String>> {
    let name = source.word().unwrap_or("");
    let has_moved = match name {
        "line" => {
            let (text, pos) = (source.built_text(alloc)?, source.number());
            if !text.is_char_boundary(pos) {
                return Ok(None);
            }
            *line = LineBuffer::init(alloc, &text, pos)?;
            true
        }
        "type_in" => {
            let c = source.character().unwrap_or('?');
            type_in(line, &mut Changeset::new(alloc), c)?;
            true
        }
        "move_home" => line.move_home(),
        "move_end" => line.move_end(),
        "move_buffer_start" => line.move_buffer_start(),
        "move_buffer_end" => line.move_buffer_end(),
        "move_forward" => line.move_forward(source.count().unwrap_or(0)),
        "move_backward" => line.move_backward(source.count().unwrap_or(0)),
        "move_to_line_up" => line.move_to_line_up(source.count().unwrap_or(0), layout),
        "move_to_line_down" => line.move_to_line_down(source.count().unwrap_or(0), layout),
        "move_to" | "move_to_prev_word" | "move_to_next_word" => {
            match moves_to(line, name, source) {
                Some(has_moved) => has_moved,
                None => return Ok(None),
            }
        }
        name => return has(alloc, line, name, source),
    };
    shown(alloc, (has_moved, line.pos(), line.len(), line.is_empty()))
}

/// Moves to a character or by words. None where its arguments are of another form.
fn moves_to(line: &mut LineBuffer, name: &str, source: &mut Source<'_>) -> Option<bool> {
    let n = source.count()?;
    match name {
        "move_to" => Some(line.move_to(source.search()?, n)),
        "move_to_prev_word" => Some(line.move_to_prev_word(source.named(WORDS)?, n)),
        _ => {
            let at = source.named(PLACES)?;
            Some(line.move_to_next_word(at, source.named(WORDS)?, n))
        }
    }
}

/// What the line has by itself: the places one cluster on and back, whether the cursor is at its
/// end, and whether only white space stands from it on; or what a text has.
fn has(
    alloc: Global,
    line: &LineBuffer,
    name: &str,
    source: &mut Source<'_>,
) -> Result<Option<String>> {
    if name != "stands" {
        return asks(alloc, name, source);
    }
    let (next, before) = (line.next_pos(1), line.prev_pos(1));
    let is_white = line.is_end_of_input();
    shown(alloc, (next, before, line.is_cursor_at_end(), is_white))
}

/// What a text has: where its first part ends, and where the last one before a place begins; whether
/// it is printable ASCII, and whether newlines aside it is; and its widths. Of a character: its
/// columns if it is known to join no other, and whether it is printable ASCII.
fn asks(alloc: Global, name: &str, source: &mut Source<'_>) -> Result<Option<String>> {
    if name == "lone_width" {
        let c = source.plain_text(alloc)?.unwrap_or(String::new(alloc));
        let c = c.chars().next().unwrap_or('?');
        return shown(alloc, (lone_width(c), is_printable(c)));
    }
    let text = source.built_text(alloc)?;
    match name {
        "first_parting" => shown(alloc, first_parting(&text)),
        "last_parting" => {
            let end = source.number();
            if !text.is_char_boundary(end) {
                return Ok(None);
            }
            shown(alloc, last_parting(&text, end))
        }
        "is_printable_text" => shown(alloc, (is_printable_text(&text), is_plain_text(&text))),
        "width" => shown(
            alloc,
            (
                GraphemeClusterMode::Unicode.width(&text),
                GraphemeClusterMode::WcWidth.width(&text),
                GraphemeClusterMode::NoZwj.width(&text),
                Layout::new(GraphemeClusterMode::NoZwj).width(&text),
            ),
        ),
        _ => Ok(None),
    }
}
