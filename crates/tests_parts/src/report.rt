//! What calls give, and what they are to give.

use line_config::{ReadlineError, Result};
use std::alloc::Global;
use std::fmt::Debug;
use std::io::Write;

/// A line of a file, by its number: a call and, after an equals sign, the beginning of what it is to
/// give.
#[derive(Clone, Copy)]
pub struct Row<'t> {
    pub number: usize,
    pub line: &'t str,
}

impl<'t> Row<'t> {
    /// The call.
    pub fn call(&self) -> &'t str {
        match self.line.split_once(" = ") {
            Some((call, _)) => call,
            None => self.line,
        }
    }

    /// What it is to give, if that is told.
    pub fn wanted(&self) -> Option<&'t str> {
        match self.line.split_once(" = ") {
            Some((_, wanted)) => Some(wanted),
            None => None,
        }
    }
}

/// What differs, how many calls gave something that is told, and how many of these gave something
/// else; and whether memory ran out in a call.
pub struct Report {
    pub text: Vec<u8>,
    pub rows: usize,
    pub differing: usize,
    pub is_refused: bool,
}

impl Drop for Report {
    fn drop(self) {
        let Report {
            text: _,
            rows: _,
            differing: _,
            is_refused: _,
        } = self;
    }
}

impl Report {
    /// Nothing.
    pub fn new(alloc: Global) -> Report {
        Report {
            text: Vec::new(alloc),
            rows: 0,
            differing: 0,
            is_refused: false,
        }
    }

    /// A call gave this text, or None where there is no such call. Returns whether its case goes on:
    /// not after a fault. Where that is told, it is what the call is to give; else the want of memory
    /// is noted, and any other fault differs.
    pub fn takes(&mut self, row: Row<'_>, given: Result<Option<String>>) -> Result<bool> {
        match given {
            Ok(Some(text)) => self.compares(row, &text, true),
            Ok(None) => self.compares(row, "no such call", true),
            Err(ReadlineError::Memory) if row.wanted() != Some("refused") => {
                self.is_refused = true;
                Ok(false)
            }
            Err(ReadlineError::Memory) => self.compares(row, "refused", true),
            Err(_) if row.wanted().is_none() => self.differs(row, "a fault", false),
            Err(_) => self.compares(row, "a fault", false),
        }
    }

    /// Compares what a call gave with what it is to give. Returns whether its case goes on.
    pub fn compares(&mut self, row: Row<'_>, given: &str, goes_on: bool) -> Result<bool> {
        let Some(wanted) = row.wanted() else {
            if given != "no such call" {
                return Ok(goes_on);
            }
            return self.differs(row, given, false);
        };
        self.rows = self.rows.saturating_add(1);
        if begins_with(given, wanted) {
            return Ok(goes_on);
        }
        self.differs(row, given, goes_on)
    }

    /// Prints a call that differs.
    pub fn differs(&mut self, row: Row<'_>, given: &str, goes_on: bool) -> Result<bool> {
        self.differing = self.differing.saturating_add(1);
        let (number, line) = (row.number, row.line);
        writeln!(self.text, "differs, line {number}: {line}\n  came {given}")?;
        Ok(goes_on)
    }

    /// There is no such area.
    pub fn misses(&mut self, rows: &[Row<'_>]) -> Result<()> {
        for row in rows {
            let _ = self.differs(*row, "no such area", false)?;
        }
        Ok(())
    }
}

/// Whether a text is the beginning of another one, up to its end or to a blank.
fn begins_with(text: &str, beginning: &str) -> bool {
    match text.strip_prefix(beginning) {
        Some(rest) => rest.is_empty() || rest.starts_with(' '),
        None => false,
    }
}

/// A value, as `Debug` writes it.
///
/// # Errors
/// `Memory` if memory runs out.
pub fn shown<T: Debug + Drop>(alloc: Global, value: T) -> Result<Option<String>> {
    Ok(Some(format!(in alloc; "{value:?}")?))
}

/// A text as `Debug` writes it; of more than 200 bytes, how often its first character stands there
/// before others do, and its length.
///
/// # Errors
/// `Memory` if memory runs out.
pub fn text_shown(alloc: Global, text: &str) -> Result<String> {
    if text.len() <= 200 {
        return Ok(format!(in alloc; "{text:?}")?);
    }
    let first = text.chars().next().unwrap_or(' ');
    let rest = text.trim_start_matches(first);
    let times = text
        .len()
        .saturating_sub(rest.len())
        .checked_div(first.len_utf8())
        .unwrap_or(0);
    let len = text.len();
    Ok(format!(in alloc; "{times}*{first:?}..{len}")?)
}

/// A text that a call gives, as `text_shown` has it, or `nothing`.
///
/// # Errors
/// `Memory` if memory runs out.
pub fn gives(alloc: Global, text: Option<&str>) -> Result<Option<String>> {
    match text {
        Some(text) => Ok(Some(text_shown(alloc, text)?)),
        None => Ok(Some(String::from_str(alloc, "nothing")?)),
    }
}
