//! What is seen of an editor after a row, and how it is compared with what the row wants.

use line_buffer::{Layout, Movement, Position};
use line_config::{ReadlineError, Result};
use line_editor::input_state::InputState;
use line_keys::cmd::Cmd;
use line_keys::refresher::Refresher;
use line_script::report::write_escaped;
use std::alloc::Global;
use std::fmt::{Debug, Display};
use std::io::{self, ErrorKind, Write};
use tests_steps::calls::{Editor, letters};
use tests_steps::typist::Typist;

/// A case: its name and the number of the line that ends it, what is done, each line with its
/// number, the keys that are read as one phrase, whether the lines type keys and do nothing else,
/// the calls of the renderer that are wanted, and what else is.
pub struct Row<'t> {
    pub name: &'t str,
    pub number: usize,
    pub items: Vec<(usize, &'t str)>,
    pub phrase: Option<&'t str>,
    pub is_keys_alone: bool,
    pub log: Vec<&'t str>,
    pub wanted: &'t str,
}

impl Drop for Row<'_> {
    fn drop(self) {
        let Row {
            name: _,
            number: _,
            items: _,
            phrase: _,
            is_keys_alone: _,
            log: _,
            wanted: _,
        } = self;
    }
}

impl<'t> Row<'t> {
    /// A case of this name, in which nothing is done and nothing wanted.
    pub fn new(alloc: Global, name: &'t str) -> Row<'t> {
        Row {
            name,
            number: 0,
            items: Vec::new(alloc),
            phrase: None,
            is_keys_alone: true,
            log: Vec::new(alloc),
            wanted: "",
        }
    }

    /// The line of this place, with its number; after the last one stands `run`.
    pub fn step(&self, place: usize) -> (usize, &'t str) {
        match self.items.get(place) {
            Some(item) => *item,
            None => (self.number, "run"),
        }
    }
}

/// What was seen of an editor on the bench.
pub struct Seen {
    /// How the last step ended, in a word.
    pub outcome: &'static str,
    /// What its error says.
    says: String,
    /// The command that was read last.
    reads: String,
    /// The command that x stands for after it.
    next: String,
    /// The mode that x was read in.
    mode: &'static str,
    /// The calls of the renderer that do not count.
    pub calls_before: usize,
    /// A line for each value, as `name value`.
    pub lines: Vec<u8>,
    /// The number of the line that can't be done.
    pub bad_line: Option<usize>,
}

impl Drop for Seen {
    fn drop(self) {
        let Seen {
            outcome: _,
            says: _,
            reads: _,
            next: _,
            mode: _,
            calls_before: _,
            lines: _,
            bad_line: _,
        } = self;
    }
}

impl Seen {
    /// Nothing.
    pub fn new(alloc: Global) -> Seen {
        Seen {
            outcome: "proceeds",
            says: String::new(alloc),
            reads: String::new(alloc),
            next: String::new(alloc),
            mode: "no mode",
            calls_before: 0,
            lines: Vec::new(alloc),
            bad_line: None,
        }
    }

    /// A step ended so.
    pub fn ends(&mut self, alloc: Global, outcome: Result<&'static str>) -> Result<()> {
        match outcome {
            Ok(word) => self.outcome = word,
            Err(error) => {
                self.says = format!(in alloc; "{error}")?;
                self.outcome = word_of(&error);
            }
        }
        Ok(())
    }

    /// The keys have run out, which is how a run ends.
    pub fn runs_out(&mut self) {
        match self.outcome {
            "proceeds" | "needs more" => self.outcome = "eof",
            _ => {}
        }
    }

    /// A command was read, which is written down.
    pub fn read(&mut self, alloc: Global, outcome: Result<Cmd>) -> Result<&'static str> {
        let command = outcome?;
        self.reads = format!(in alloc; "{command:?}")?;
        Ok("proceeds")
    }

    /// A read ended so: with `left` 0 it was one of the key x after the phrase, with 1 of the whole
    /// phrase, and with more of a phrase that is cut short, which is to end for want of keys.
    pub fn reads(&mut self, alloc: Global, left: usize, outcome: Result<Cmd>) -> Result<()> {
        match left {
            0 => self.stands_for(alloc, outcome),
            1 => match self.read(alloc, outcome) {
                Ok(_) => Ok(()),
                Err(error) => self.ends(alloc, Err(error)),
            },
            _ => {
                if !matches!(outcome, Err(ReadlineError::Eof)) {
                    self.outcome = "read too soon";
                }
                Ok(())
            }
        }
    }

    /// The key x stands for a command, which shows the mode.
    fn stands_for(&mut self, alloc: Global, outcome: Result<Cmd>) -> Result<()> {
        let command = match outcome {
            Ok(command) => command,
            Err(error) => return self.ends(alloc, Err(error)),
        };
        self.mode = match &command {
            Cmd::SelfInsert(1, 'x') => "insert",
            Cmd::Overwrite('x') => "replace",
            Cmd::Kill(Movement::ForwardChar(1)) => "command",
            _ => "another",
        };
        self.next = format!(in alloc; "{command:?}")?;
        Ok(())
    }
}

/// The word of an error.
fn word_of(error: &ReadlineError) -> &'static str {
    let cause = match error {
        ReadlineError::Eof => return "eof",
        ReadlineError::Interrupted => return "interrupted",
        ReadlineError::Memory => return "out of memory",
        ReadlineError::Io(cause) => cause.kind(),
    };
    match cause {
        ErrorKind::Other => "fails",
        ErrorKind::PermissionDenied => "is denied",
        ErrorKind::InvalidData => "is misread",
        _ => "fails otherwise",
    }
}

/// What is written down of an editor, a line for each value.
struct Notes {
    text: Vec<u8>,
    /// Why something could not be written, if anything could not.
    fault: Option<ReadlineError>,
}

impl Drop for Notes {
    fn drop(self) {
        let Notes { text: _, fault: _ } = self;
    }
}

impl Notes {
    /// Nothing.
    fn new(alloc: Global) -> Notes {
        Notes {
            text: Vec::new(alloc),
            fault: None,
        }
    }

    /// Keeps why something could not be written.
    fn keep(&mut self, outcome: io::Result<()>) {
        if let Err(fault) = outcome {
            self.fault = Some(ReadlineError::from(fault));
        }
    }

    /// Writes down a value.
    fn note<T: Display + Drop>(&mut self, name: &str, value: T) {
        let outcome = writeln!(self.text, "{name} {value}");
        self.keep(outcome);
    }

    /// Writes down a value as `Debug` has it.
    fn note_debug<T: Debug + Drop>(&mut self, name: &str, value: T) {
        let outcome = writeln!(self.text, "{name} {value:?}");
        self.keep(outcome);
    }

    /// Writes down a place on the screen.
    fn note_place(&mut self, name: &str, place: Position) {
        let outcome = writeln!(self.text, "{name} {} {}", place.row, place.col);
        self.keep(outcome);
    }

    /// Writes down a line, as scripts write it.
    fn escape(&mut self, line: &str) {
        let outcome = write_escaped(line, &mut self.text);
        self.keep(outcome);
    }

    /// Writes down a text as it is.
    fn push(&mut self, text: &str) {
        let outcome = self.text.write_all(text.as_bytes());
        self.keep(outcome);
    }

    /// Returns what was written down, where all could be written.
    fn end(self) -> Result<Vec<u8>> {
        let Notes { text, fault } = self;
        match fault {
            Some(fault) => Err(fault),
            None => Ok(text),
        }
    }
}

/// Writes down what is seen of an editor.
pub fn looks_at(
    alloc: Global,
    state: &Editor<'_, '_>,
    input: &InputState<'_>,
    typist: &Typist,
    seen: &mut Seen,
) -> Result<()> {
    let mut notes = Notes::new(alloc);
    note_seen(seen, style_of(input), &mut notes);
    note_line(state.line(), state.pos(), &mut notes);
    note_layout(state.layout(), &mut notes);
    notes.note("redraws", state.out().redraws());
    note_state(state, &mut notes)?;
    note_calls(alloc, state.out().log(), seen.calls_before, &mut notes)?;
    note_flags(typist.flags(), &mut notes);
    seen.lines = notes.end()?;
    Ok(())
}

/// The edit mode, and for Vi whether commands are read.
fn style_of(input: &InputState<'_>) -> &'static str {
    if input.is_emacs_mode() {
        "emacs"
    } else if input.is_vi_cmd_mode() {
        "vi, command mode"
    } else {
        "vi"
    }
}

/// Writes down the edit mode, how the last step ended and what its error says, what was read, and
/// the mode.
fn note_seen(seen: &Seen, style: &str, notes: &mut Notes) {
    notes.note("outcome", seen.outcome);
    notes.note("style", style);
    notes.note("says", seen.says.as_str());
    notes.note("reads", seen.reads.as_str());
    notes.note("mode", seen.mode);
    notes.note("then", seen.next.as_str());
}

/// Writes down the line, with a mark at its cursor too, its numbers, and its character where it has
/// one alone, however often.
fn note_line(line: &str, pos: usize, notes: &mut Notes) {
    let (before, behind) = line.split_at_checked(pos).unwrap_or(("?", "?"));
    notes.push("line ");
    notes.escape(line);
    notes.push("\nshows ");
    notes.escape(before);
    notes.push("^");
    notes.escape(behind);
    notes.push("\n");
    notes.note("cursor", pos);
    notes.note("len", line.len());
    if let Some(first) = line.chars().next()
        && line.trim_start_matches(first).is_empty()
    {
        notes.note("all", first);
    }
}

/// Writes down what is kept of the layout.
fn note_layout(layout: &Layout, notes: &mut Notes) {
    notes.note_place("at", layout.cursor);
    notes.note_place("end", layout.end);
    notes.note_place("prompt", layout.prompt_size);
    notes.note_debug("widths", layout.grapheme_cluster_mode);
    notes.note("trails", layout.has_info);
    if layout.cursor == layout.end {
        notes.push("at the end of what is drawn\n");
    }
}

/// Writes down the place in the history, whether there is a highlighter, whose prompt stands there,
/// whether the cursor is at the end of the line, the hint, and the last insert.
fn note_state(state: &Editor<'_, '_>, notes: &mut Notes) -> Result<()> {
    notes.note("place", state.place());
    notes.note("highlighter", state.highlighter().is_some());
    notes.note("own prompt", state.is_default_prompt());
    notes.note("behind the line", state.is_cursor_at_end());
    let name = if state.has_hint() {
        "hint true"
    } else {
        "hint false"
    };
    notes.note_debug(name, state.hint_text());
    let last = state.last_insert()?;
    notes.note_debug("last insert", last.as_deref());
    Ok(())
}

/// Writes down the calls of the renderer, but for those before, and their letters.
fn note_calls(alloc: Global, log: &str, before: usize, notes: &mut Notes) -> Result<()> {
    for call in log.lines().skip(before) {
        notes.note("log", call);
    }
    let calls = letters(alloc, log, before)?;
    notes.note("calls", or_none(calls.as_str()));
    Ok(())
}

/// The text, or a word for none.
fn or_none(text: &str) -> &str {
    if text.is_empty() { "none" } else { text }
}

/// Writes down the flags that the reader was handed.
fn note_flags(flags: &[bool], notes: &mut Notes) {
    notes.push("flags ");
    for flag in flags {
        notes.push(if *flag { "y" } else { "n" });
    }
    notes.push(if flags.is_empty() { "none\n" } else { "\n" });
}

/// Compares what a row wants with what was seen, a line for each value, and prints what differs.
/// Returns whether anything does.
pub fn differs<O: Write>(row: &Row<'_>, seen: &str, out: &mut O) -> Result<bool> {
    let mut before = false;
    for field in row.wanted.split(" | ") {
        let field = if field == "empty" { "line " } else { field };
        if !is_seen(seen, field) {
            shows(row, before, field, came(seen, field), out)?;
            before = true;
        }
    }
    if let Some((next, came)) = log_difference(row.log.as_slice(), seen) {
        shows(row, before, next, came, out)?;
        before = true;
    }
    Ok(before)
}

/// Whether a value was seen, or is the word of the outcome.
fn is_seen(seen: &str, field: &str) -> bool {
    for line in seen.split('\n') {
        if line.strip_prefix("outcome ").unwrap_or(line) == field {
            return true;
        }
    }
    false
}

/// The value that was seen, of the kind that a field is of.
fn came<'s>(seen: &'s str, field: &str) -> &'s str {
    let kind = first_word(field);
    for line in seen.split('\n') {
        if first_word(line) == kind {
            return line;
        }
    }
    seen.split('\n').next().unwrap_or("")
}

/// The first word of a text.
pub fn first_word(text: &str) -> &str {
    text.split(' ').next().unwrap_or("")
}

/// The first call of the renderer that is another than a row names, where it names any: what is
/// wanted, and what was called.
fn log_difference<'w, 's>(log: &[&'w str], seen: &'s str) -> Option<(&'w str, &'s str)> {
    if log.is_empty() {
        return None;
    }
    let mut count = 0_usize;
    for line in seen.split('\n') {
        if line.starts_with("log ") {
            let next = log.get(count).copied().unwrap_or("no more calls");
            if line != next {
                return Some((next, line));
            }
            count = count.saturating_add(1);
        }
    }
    Some((*log.get(count)?, "no more calls"))
}

/// Prints a value that differs, after the row's name where it is the first.
fn shows<O: Write>(
    row: &Row<'_>,
    before: bool,
    wanted: &str,
    came: &str,
    out: &mut O,
) -> Result<()> {
    if !before {
        writeln!(out, "differs, line {}: {}", row.number, row.name)?;
    }
    writeln!(out, "  wanted {wanted}\n  came   {came}")?;
    Ok(())
}
