//! A file of cases, line by line.

use crate::history::stream::{MANNERS, ONE};
use crate::report::{Report, Row};
use crate::{asked, buffer, history, moves, ring, values};
use line_config::Result;
use std::alloc::Global;
use std::io::{Read, Write};

/// Makes the calls of a file, prints each that gives something else than it is to, and how many
/// there were.
///
/// Returns the status to end with: 0, or 3 after a fault of a stream, and where memory ran out in a
/// call and nothing differs, so that a run with an allocation refused that ends with 0 has to print
/// what one without does.
pub fn play<R: Read + Drop, O: Write>(alloc: Global, input: R, out: &mut O) -> u8 {
    match play_file(alloc, input, out) {
        Ok(false) => 0,
        Ok(true) | Err(_) => 3,
    }
}

/// The same; the answer is whether memory ran out in a call and nothing differs.
fn play_file<R: Read + Drop, O: Write>(alloc: Global, mut input: R, out: &mut O) -> Result<bool> {
    let mut bytes = Vec::new(alloc);
    input.read_to_end(&mut bytes)?;
    let mut report = Report::new(alloc);
    plays_text(
        alloc,
        str::from_utf8(&bytes).unwrap_or("not UTF-8"),
        &mut report,
    )?;
    out.write_all(&report.text)?;
    writeln!(out, "{} rows, {} differ", report.rows, report.differing)?;
    out.flush()?;
    Ok(report.is_refused && report.differing == 0)
}

/// Makes the calls of a text. A case begins with a line of its area, as `# buffer: NAME`; `##`
/// begins a remark.
fn plays_text(alloc: Global, text: &str, report: &mut Report) -> Result<()> {
    let mut area = "";
    let mut rows: Vec<Row<'_>> = Vec::new(alloc);
    let mut number = 0_usize;
    for line in text.split('\n') {
        number = number.saturating_add(1);
        if let Some(name) = line.strip_prefix("# ") {
            plays_case(alloc, area, &rows, report)?;
            rows.clear();
            area = name.split(':').next().unwrap_or("");
        } else if !line.is_empty() && !line.starts_with("## ") {
            rows.push(Row { number, line })?;
        }
    }
    plays_case(alloc, area, &rows, report)
}

/// Makes the calls of a case, which are those of an area.
fn plays_case(alloc: Global, area: &str, rows: &[Row<'_>], report: &mut Report) -> Result<()> {
    match area {
        "word" | "put" | "path" | "bracket" | "party" => asked::plays(alloc, area, rows, report),
        "buffer" => buffer::plays(alloc, rows, report),
        "history" => history::plays(alloc, rows, report, ONE),
        "moves" => moves::plays(alloc, rows, report),
        "ring" => ring::plays(alloc, rows, report),
        "stream" => history::plays(alloc, rows, report, MANNERS),
        "values" => values::plays(alloc, rows, report),
        _ => report.misses(rows),
    }
}
