//! Calls of a line buffer with its changes and its kill ring.
ghost use Rattle.std.specs.Prelude.{OnOk};
ghost use Rattle.line_buffer.specs.Undo.{Tells};

use crate::report::{Report, Row, gives, shown, text_shown};
use line_buffer::{Changeset, KillRing, LineBuffer, WordAction};
use line_config::Result;
use std::alloc::Global;
use tests_parties::source::Source;

/// Makes the calls of a case, one after another. Behind a call that was refused, none is made up to
/// the next line.
pub fn plays(alloc: Global, rows: &[Row<'_>], report: &mut Report) -> Result<()> {
    let mut line = LineBuffer::new(alloc);
    let mut changes = Changeset::new(alloc);
    let mut ring = KillRing::new(alloc, 2);
    let mut goes_on = true;
    for row in rows {
        if goes_on || row.line.starts_with("line ") {
            goes_on = steps(alloc, &mut line, &mut changes, &mut ring, *row, report)?;
        }
    }
    Ok(())
}

/// Makes a call, and compares what it gives and leaves with what is wanted. A call that is refused
/// leaves a line with its cursor on a boundary, and no changes, or leaves all as it was. Returns
/// whether the case goes on.
fn steps(
    alloc: Global,
    line: &mut LineBuffer,
    changes: &mut Changeset,
    ring: &mut KillRing,
    row: Row<'_>,
    report: &mut Report,
) -> Result<bool>
    requires { Tells changes.old.entries line.old.text }
    ensures { Tells changes.new.entries line.new.text }
{
    let count = changes.len();
    match repeats(alloc, line, changes, ring, row.call()) {
        Ok(given) => report.takes(row, left(alloc, given, line, changes)),
        Err(error) => {
            let is_open = !matches!(changes.end(), Ok(false));
            let is_settled = changes.len() == count || changes.is_empty() && !is_open;
            *changes = Changeset::new(alloc);
            if !is_settled || !line.as_str().is_char_boundary(line.pos()) {
                let _ = report.differs(row, "what is not settled", false)?;
            }
            report.takes(row, Err(error))
        }
    }
}

/// Makes a call, so many times where that stands before it. What it gives at last.
fn repeats(
    alloc: Global,
    line: &mut LineBuffer,
    changes: &mut Changeset,
    ring: &mut KillRing,
    call: &str,
) -> Result<Option<String>>
    requires { Tells changes.old.entries line.old.text }
    ensures { OnOk result (Tells changes.new.entries line.new.text) }
{
    let (times, call) = match call.strip_prefix("times ") {
        Some(rest) => rest.split_once(' ').unwrap_or(("0", rest)),
        None => ("1", call),
    };
    let mut given = None;
    for _ in 0..times.parse().unwrap_or(0_usize) {
        given = makes(alloc, line, changes, ring, &mut Source::new(call))?;
    }
    Ok(given)
}

/// What a call gave and left: the answer, the text, the cursor and how many changes there are.
fn left(
    alloc: Global,
    given: Option<String>,
    line: &LineBuffer,
    changes: &Changeset,
) -> Result<Option<String>> {
    let Some(answer) = given else {
        return Ok(None);
    };
    let text = text_shown(alloc, line.as_str())?;
    let (pos, count) = (line.pos(), changes.len());
    Ok(Some(format!(in alloc; "{answer} {text} {pos} {count}")?))
}

/// Makes a call, or begins a new line. What it gives; None where there is no such call.
fn makes(
    alloc: Global,
    line: &mut LineBuffer,
    changes: &mut Changeset,
    ring: &mut KillRing,
    source: &mut Source<'_>,
) -> Result<Option<String>>
    requires { Tells changes.old.entries line.old.text }
    ensures { OnOk result (Tells changes.new.entries line.new.text) }
{
    let name = source.word().unwrap_or("");
    match name {
        "line" => {
            let (text, pos) = (source.built_text(alloc)?, source.number());
            if !text.is_char_boundary(pos) {
                return Ok(None);
            }
            *line = LineBuffer::init(alloc, &text, pos)?;
            *changes = Changeset::new(alloc);
            *ring = KillRing::new(alloc, 2);
        }
        "go" => {
            let pos = source.number();
            if !line.as_str().is_char_boundary(pos) {
                return Ok(None);
            }
            line.set_pos(pos);
        }
        "state" => {}
        "kill" | "cut" | "copy" | "kept" => return kills(alloc, line, changes, ring, name, source),
        "group" => return groups(alloc, line, changes),
        "begin" | "end" | "undo" | "last_insert" => return undoes(
            alloc, line, changes, name, source,
        ),
        "insert_str" | "update" | "replace" => return puts(alloc, line, changes, name, source),
        name => return edits(alloc, line, changes, name, source),
    }
    shown(alloc, ())
}

/// Makes a call that takes a text away, or gives it.
fn kills(
    alloc: Global,
    line: &mut LineBuffer,
    changes: &mut Changeset,
    ring: &mut KillRing,
    name: &str,
    source: &mut Source<'_>,
) -> Result<Option<String>>
    requires { Tells changes.old.entries line.old.text }
    ensures { OnOk result (Tells changes.new.entries line.new.text) }
{
    if name == "kept" {
        return gives(alloc, ring.yank());
    }
    let Some(movement) = source.movement() else {
        return Ok(None);
    };
    match name {
        "copy" => gives(alloc, line.copy(&movement)?.as_deref()),
        "cut" => shown(alloc, line.cut(&movement, changes, ring)?),
        _ => match line.kill(&movement, changes, ring)? {
            Some((place, text, side)) => {
                let text = text_shown(alloc, &text)?;
                Ok(Some(format!(in alloc; "{place} {text} {side:?}")?))
            }
            None => shown(alloc, ()),
        },
    }
}

/// Makes a call of the changes.
fn undoes(
    alloc: Global,
    line: &mut LineBuffer,
    changes: &mut Changeset,
    name: &str,
    source: &mut Source<'_>,
) -> Result<Option<String>>
    requires { Tells changes.old.entries line.old.text }
    ensures { OnOk result (Tells changes.new.entries line.new.text) }
{
    match name {
        "begin" => shown(alloc, changes.begin()?),
        "end" => shown(alloc, changes.end()?),
        "undo" => shown(alloc, changes.undo(line, source.count().unwrap_or(0))?),
        _ => gives(alloc, changes.last_insert()?.as_deref()),
    }
}

/// Makes a group with a character typed in it.
fn groups(alloc: Global, line: &mut LineBuffer, changes: &mut Changeset) -> Result<Option<String>>
    requires { Tells changes.old.entries line.old.text }
    ensures { OnOk result (Tells changes.new.entries line.new.text) }
{
    changes.begin()?;
    let _ = line.insert('a', 1, changes)?;
    shown(alloc, changes.end()?)
}

/// Makes a call that puts a text at a place.
fn puts(
    alloc: Global,
    line: &mut LineBuffer,
    changes: &mut Changeset,
    name: &str,
    source: &mut Source<'_>,
) -> Result<Option<String>>
    requires { Tells changes.old.entries line.old.text }
    ensures { OnOk result (Tells changes.new.entries line.new.text) }
{
    let (start, end) = (source.number(), source.number());
    let text = source.built_text(alloc)?;
    let (is_start, is_end) = (
        line.as_str().is_char_boundary(start),
        line.as_str().is_char_boundary(end),
    );
    match name {
        "insert_str" if is_start && line.pos() <= start => line.insert_str(start, &text, changes)?,
        "update" if text.is_char_boundary(start) => line.update(&text, start, changes)?,
        "replace" if is_start && is_end && start <= end => {
            line.replace(start..end, &text, changes)?
        }
        _ => return Ok(None),
    }
    shown(alloc, ())
}

const ACTIONS: &[(&str, WordAction)] = &[
    ("Capitalize", WordAction::Capitalize),
    ("Lowercase", WordAction::Lowercase),
    ("Uppercase", WordAction::Uppercase),
];

/// Makes a call that edits at the cursor.
fn edits(
    alloc: Global,
    line: &mut LineBuffer,
    changes: &mut Changeset,
    name: &str,
    source: &mut Source<'_>,
) -> Result<Option<String>>
    requires { Tells changes.old.entries line.old.text }
    ensures { OnOk result (Tells changes.new.entries line.new.text) }
{
    match name {
        "insert" => {
            let c = source.character().unwrap_or('?');
            shown(alloc, line.insert(c, source.count().unwrap_or(0), changes)?)
        }
        "yank" | "yank_pop" => yanks(alloc, line, changes, name, source),
        "indent" | "dedent" => indents(alloc, line, changes, name, source),
        "transpose_chars" => shown(alloc, line.transpose_chars(changes)?),
        "edit_word" => match source.named(ACTIONS) {
            Some(action) => shown(alloc, line.edit_word(action, changes)?),
            None => Ok(None),
        },
        name => takes(alloc, line, changes, name, source.count().unwrap_or(0)),
    }
}

/// Makes a call that puts a yanked text.
fn yanks(
    alloc: Global,
    line: &mut LineBuffer,
    changes: &mut Changeset,
    name: &str,
    source: &mut Source<'_>,
) -> Result<Option<String>>
    requires { Tells changes.old.entries line.old.text }
    ensures { OnOk result (Tells changes.new.entries line.new.text) }
{
    let count = source.count().unwrap_or(0);
    let text = source.built_text(alloc)?;
    if name == "yank" {
        return shown(alloc, line.yank(&text, count, changes)?);
    }
    shown(alloc, line.yank_pop(usize::from(count), &text, changes)?)
}

/// Indents or dedents the lines of a movement.
fn indents(
    alloc: Global,
    line: &mut LineBuffer,
    changes: &mut Changeset,
    name: &str,
    source: &mut Source<'_>,
) -> Result<Option<String>>
    requires { Tells changes.old.entries line.old.text }
    ensures { OnOk result (Tells changes.new.entries line.new.text) }
{
    let Some(movement) = source.movement() else {
        return Ok(None);
    };
    let amount = source.number();
    shown(
        alloc,
        line.indent(&movement, amount, name == "dedent", changes)?,
    )
}

/// Makes a call that has a count.
fn takes(
    alloc: Global,
    line: &mut LineBuffer,
    changes: &mut Changeset,
    name: &str,
    n: u16,
) -> Result<Option<String>>
    requires { Tells changes.old.entries line.old.text }
    ensures { OnOk result (Tells changes.new.entries line.new.text) }
{
    match name {
        "delete" => gives(alloc, line.delete(n, changes)?.as_deref()),
        "discard" => shown(alloc, line.discard(n, changes)?),
        "transpose_words" => shown(alloc, line.transpose_words(n, changes)?),
        _ => Ok(None),
    }
}
