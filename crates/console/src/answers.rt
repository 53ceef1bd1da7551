//! What is answered to a line.
ghost use Rattle.std.specs.Prelude.{IsCharBoundary};

use crate::arithmetic::{Names, Refusal, evaluate};
use crate::key_tables::key_tables;
use line_config::Result;
use line_parts::completion::unescape;
use std::alloc::Global;
use std::fs;
use std::rt::Files;

/// Adds what is answered to a line, or to the lines of the file that it loads, a line for each;
/// nothing where all of them are blank. A name that a line gives a value has it from then on.
///
/// # Errors
/// `Memory`.
pub(crate) fn answer_to<R: Files + AllocGlobal>(
    rt: &R,
    line: &str,
    names: &mut Names,
    vi: bool,
    answers: &mut String,
) -> Result<()> {
    match line.trim().strip_prefix(":load ") {
        Some(name) => answer_to_file(rt, name.trim_start(), names, vi, answers),
        None => answer_to_line(rt.alloc(), line, names, vi, answers),
    }
}

/// Adds what is answered to the lines of a file, by its name as it was typed, or that it cannot be
/// read.
fn answer_to_file<R: Files + AllocGlobal>(
    rt: &R,
    name: &str,
    names: &mut Names,
    vi: bool,
    answers: &mut String,
) -> Result<()> {
    let path = unescape(rt.alloc(), name, Some('\\'))?;
    let Ok(text) = fs::read_to_string(rt, &*path) else {
        return add(answers, &[":load ", name, ": cannot be read"]);
    };
    for line in text.lines() {
        answer_to_line(rt.alloc(), line, names, vi, answers)?;
    }
    Ok(())
}

/// Adds what is answered to a line that loads no file: the value of its expression, what is wrong
/// with it, or what a word after a colon asks for.
fn answer_to_line(
    alloc: Global,
    line: &str,
    names: &mut Names,
    vi: bool,
    answers: &mut String,
) -> Result<()> {
    if let Some(word) = line.trim().strip_prefix(':') {
        return answer_to_word(word, vi, answers);
    }
    match evaluate(alloc, line, names) {
        Ok(Some(value)) => add(answers, &[format!(in alloc; "{value}")?.as_str()]),
        Ok(None) => Ok(()),
        Err(refusal) => tell(alloc, line, &refusal, answers),
    }
}

/// Adds an answer, by its parts, on a line of its own.
fn add(answers: &mut String, parts: &[&str]) -> Result<()> {
    if !answers.is_empty() {
        answers.push('\n')?;
    }
    for part in parts {
        answers.push_str(part)?;
    }
    Ok(())
}

/// Adds what is answered to a word after a colon.
fn answer_to_word(word: &str, vi: bool, answers: &mut String) -> Result<()> {
    match word {
        "keys" => {
            let (common, style) = key_tables(vi);
            add(answers, &[common, style])
        }
        "load" => add(answers, &[":load needs the name of a file"]),
        _ if word.starts_with("load ") => add(
            answers,
            &[":", word, ": a file cannot load another"],
        ),
        _ => add(
            answers,
            &["no command is called :", word, "; :keys lists the keys"],
        ),
    }
}

/// Adds what is wrong with a line, and where; the line of it too, where there is more than one.
fn tell(alloc: Global, line: &str, refusal: &Refusal, answers: &mut String) -> Result<()>
    requires { IsCharBoundary line.now refusal.now.at }
{
    let (row, column) = place_behind(&line[..refusal.at]);
    let message = refusal.complaint.message();
    let told = if line.contains('\n') {
        format!(in alloc; "line {row}, column {column}: {message}")?
    } else {
        format!(in alloc; "column {column}: {message}")?
    };
    add(answers, &[told.as_str()])
}

/// Returns the line and the column that a text ends at, both counted from 1.
fn place_behind(text: &str) -> (usize, usize) {
    let (mut row, mut column) = (1_usize, 1_usize);
    for c in text.chars() {
        column = column.saturating_add(1);
        if c == '\n' {
            row = row.saturating_add(1);
            column = 1;
        }
    }
    (row, column)
}
