//! A renderer that writes down each call that it gets, and can fail one of them.
ghost use Rattle.std.specs.Prelude.{◌≡◌, ◌≤◌, ◌<◌, true, option_map, string_bytes, IfOk, OnOk};
ghost use Rattle.line_config.specs.Error.{FaultsOnly, MemoryOnly};
ghost use Rattle.line_config.specs.Failures.{CountsFailures};
ghost use Rattle.tests_steps.specs.Screen.{after_byte, measured_by_bytes};

use crate::typist::Typist;
use line_buffer::{GraphemeClusterMode, Layout, LineBuffer, Position, Unit};
use line_config::{Prompt, ReadlineError, Result};
use line_parts::Highlighter;
use line_state::{Renderer, Resizable, ScreenState};
use std::alloc::Global;
use std::borrow::CowStr;
use std::fmt::{Display, Formatter};
use std::marker::PhantomData;
use std::{fmt, io};

const ORIGIN: Position = Position { row: 0, col: 0 };

/// What a renderer says of a call that fails by an error of its own.
pub const CUT: &str = "the screen is cut";

/// A screen that can be given another size.
pub struct Sizable;

/// A screen that keeps its size: no call gives it another one, so an editor that draws on it has no
/// `resized`.
pub struct Fixed;

/// A renderer: a screen of so many columns, each of one byte, that keeps a line of text for each
/// call that can fail. It is `Resizable` where its screen is `Sizable`, and else a renderer with
/// what `Renderer` asks for alone.
pub struct Recorder<S = Sizable> {
    alloc: Global,
    columns: Unit,
    rows: Unit,
    colors: bool,
    place: Position,
    prompt: String,
    text: String,
    origin: Position,
    hint: Option<String>,
    redraws: u64,
    failures: u64,
    calls: u64,
    failing: u64,
    is_cut: bool,
    log: String,
    size: PhantomData<S>,
    ghost some_columns: { 0 < columns },
}

impl<S> Drop for Recorder<S> {
    fn drop(self) {
        let Recorder {
            alloc: _,
            columns: _,
            rows: _,
            colors: _,
            place: _,
            prompt: _,
            text: _,
            origin: _,
            hint: _,
            redraws: _,
            failures: _,
            calls: _,
            failing: _,
            is_cut: _,
            log: _,
            size: _,
        } = self;
    }
}

impl<S> Recorder<S> {
    /// An empty screen. Its call of the number `failing`, from 1 on, fails; none does where that is
    /// 0.
    pub fn new(alloc: Global, columns: Unit, colors: bool, failing: u64) -> Recorder<S>
        requires { 0 < columns }
    {
        Recorder {
            alloc,
            columns,
            rows: 24,
            colors,
            place: ORIGIN,
            prompt: String::new(alloc),
            text: String::new(alloc),
            origin: ORIGIN,
            hint: None,
            redraws: 0,
            failures: 0,
            calls: 0,
            failing,
            is_cut: false,
            log: String::new(alloc),
            size: PhantomData,
        }
    }

    /// Its call of the number `failing`, from 1 on, fails by an error of its own.
    pub fn cut_at(&mut self, failing: u64) {
        self.failing = failing;
        self.is_cut = true;
    }

    /// What was written down, a line for each call that can fail.
    pub fn log(&self) -> &str {
        self.log.as_str()
    }

    /// What it shows: the text after the prompt, where the cursor is, and where the prompt ends.
    pub fn shows(&self) -> (&str, Position, Position) {
        (self.text.as_str(), self.place, self.origin)
    }

    /// How often all was drawn.
    pub fn redraws(&self) -> u64 {
        self.redraws
    }

    /// Counts a call, writes it down, and fails where it is the one that is to fail.
    fn note(&mut self, call: &str) -> Result<()>
        ensures columns { self.new.columns ≡ self.old.columns }
        ensures rows { self.new.rows ≡ self.old.rows }
        ensures colors { self.new.colors ≡ self.old.colors }
        ensures place { self.new.place ≡ self.old.place }
        ensures prompt { self.new.prompt ≡ self.old.prompt }
        ensures text { self.new.text ≡ self.old.text }
        ensures origin { self.new.origin ≡ self.old.origin }
        ensures hint { self.new.hint ≡ self.old.hint }
        ensures redraws { self.new.redraws ≡ self.old.redraws }
        ensures counts { CountsFailures result self.old.failures self.new.failures }
        ensures faults { FaultsOnly result }
    {
        self.log.push_str(call)?;
        self.log.push('\n')?;
        self.calls = self.calls.saturating_add(1);
        if self.calls == self.failing {
            self.failures = self.failures.saturating_add(1);
            let cause = if self.is_cut {
                io::Error::new(io::ErrorKind::PermissionDenied, CUT)
            } else {
                io::Error::from(io::ErrorKind::Other)
            };
            return Err(ReadlineError::Io(cause));
        }
        Ok(())
    }

    /// Forgets what is shown. The cursor goes to the first place.
    fn clear(&mut self)
        ensures columns { self.new.columns ≡ self.old.columns }
        ensures rows { self.new.rows ≡ self.old.rows }
        ensures colors { self.new.colors ≡ self.old.colors }
        ensures redraws { self.new.redraws ≡ self.old.redraws }
        ensures failures { self.new.failures ≡ self.old.failures }
    {
        self.prompt.clear();
        self.text.clear();
        self.origin = ORIGIN;
        self.hint = None;
        self.place = ORIGIN;
    }
}

/// A part of what is written down of a call.
#[derive(Drop)]
enum Part<'p> {
    /// Where the prompt ends, where the cursor is and where what is shown ends, by row and column,
    /// and a `+` where something is shown after the line; or that nothing was drawn.
    Places(Option<&'p Layout>),
    /// The prompt, and where it has styles the form with them.
    Prompt(&'p str, &'p str),
}

impl Display for Part<'_> {
    fn fmt<W: fmt::Write>(&self, f: &mut Formatter<W>) -> fmt::Result {
        match self {
            Part::Places(Some(layout)) => {
                let (prompt, cursor, end) = (layout.prompt_size, layout.cursor, layout.end);
                write!(f, "{}:{}", prompt.row, prompt.col)?;
                write!(f, " {}:{}", cursor.row, cursor.col)?;
                write!(f, " {}:{}", end.row, end.col)?;
                f.write_str(if layout.has_info { "+" } else { "" })
            }
            Part::Places(None) => f.write_str("none"),
            Part::Prompt(raw, styled) if *raw == *styled => write!(f, "{raw:?}"),
            Part::Prompt(raw, styled) => write!(f, "{raw:?} as {styled:?}"),
        }
    }
}

/// How a highlighter shows a line.
fn shown<'l, H: Highlighter>(
    alloc: Global,
    line: &'l LineBuffer,
    highlighter: Option<&H>,
) -> CowStr<'l> {
    let Some(highlighter) = highlighter else {
        return CowStr::Borrowed("plain");
    };
    match highlighter.highlight(alloc, line.as_str(), line.pos()) {
        Ok(text) => text,
        Err(_) => CowStr::Borrowed("not shown"),
    }
}

/// A text of its own.
fn owned(alloc: Global, text: Option<&str>) -> Result<Option<String>>
    ensures value { IfOk result (λ t.
        option_map string_bytes t ≡ option_map (λ s. s.now) text.entry) }
    ensures memory { MemoryOnly result }
{
    match text {
        Some(text) => Ok(Some(String::from_str(alloc, text)?)),
        None => Ok(None),
    }
}

/// Where the text ends that begins at `origin`.
#[tactic(auto, unfolding(crate::specs::Screen::measured_by_bytes))]
pub(crate) fn measured(columns: Unit, text: &str, origin: Position) -> Position
    ensures { result ≡ measured_by_bytes columns text.now origin }
{
    let mut place = origin;
    for byte in text.as_bytes() {
        place = after_byte(columns, place, *byte);
    }
    place
}

/// The place after one more byte.
fn after_byte(columns: Unit, place: Position, byte: u8) -> Position
    ensures { result ≡ after_byte columns place byte }
{
    if byte != b'\n' && usize::from(place.col) + 1 < usize::from(columns) {
        return Position {
            row: place.row,
            col: place.col + 1,
        };
    }
    Position {
        row: place.row.saturating_add(1),
        col: 0,
    }
}

impl<S> ScreenState for Recorder<S> {
    ghost use Rattle.std.specs.Prelude.{true, option_map, string_bytes};
    ghost use Rattle.line_buffer.specs.declared.layout.GraphemeClusterMode.TheVariants.{Unicode};
    ghost use Rattle.line_keys.specs.Model.Display.{uncounted};
    ghost use Rattle.tests_steps.specs.Screen.{measured_by_bytes};

    ghost surface = { λ r. record {
      measure = measured_by_bytes r.columns;
      columns = r.columns;
      rows = r.rows;
      colors = r.colors;
      mode = Unicode;
    } };

    ghost screen = { λ r. record {
      position = r.place;
      prompt = string_bytes r.prompt;
      text = string_bytes r.text;
      origin = r.origin;
      behind = option_map string_bytes r.hint;
      known = true;
    } };

    ghost beside = { λ _. uncounted };

    ghost redraws = { λ r. r.redraws };

    ghost failures = { λ r. r.failures };
}

impl<S> Renderer for Recorder<S> {
    type Reader = Typist;

    ghost use Rattle.tests_steps.specs.ScreenLaws as laws;

    fn move_cursor(&mut self, old: Position, new: Position) -> Result<()> {
        let (from, to) = ((old.row, old.col), (new.row, new.col));
        let call = format!(in self.alloc; "move {from:?} to {to:?}")?;
        self.note(&call)?;
        self.place = new;
        Ok(())
    }

    fn refresh_line<P: Prompt, H: Highlighter>(
        &mut self,
        prompt: &P,
        line: &LineBuffer,
        hint: Option<&str>,
        old_layout: Option<&Layout>,
        new_layout: &Layout,
        highlighter: Option<&H>,
    ) -> Result<()> {
        let call = format!(in self.alloc;
            "draw {} {:?} {} {hint:?} old {} new {} {}",
            Part::Prompt(prompt.raw(), prompt.styled()),
            line.as_str(),
            line.pos(),
            Part::Places(old_layout),
            Part::Places(Some(new_layout)),
            shown(self.alloc, line, highlighter).as_str(),
        )?;
        self.note(&call)?;
        self.prompt.clear();
        self.prompt.push_str(prompt.raw())?;
        self.text.clear();
        self.text.push_str(line.as_str())?;
        self.hint = owned(self.alloc, hint)?;
        self.place = new_layout.cursor;
        self.origin = new_layout.prompt_size;
        self.redraws = self.redraws.saturating_add(1);
        Ok(())
    }

    fn calculate_position(&self, s: &str, orig: Position) -> Position {
        measured(self.columns, s, orig)
    }

    fn write_and_flush(&mut self, buf: &str) -> Result<()> {
        let call = format!(in self.alloc; "write {buf:?}")?;
        self.note(&call)?;
        self.text.push_str(buf)?;
        self.place = measured(self.columns, buf, self.place);
        Ok(())
    }

    fn beep(&mut self) -> Result<()> {
        self.note("beep")
    }

    fn clear_screen(&mut self) -> Result<()> {
        self.note("clear screen")?;
        self.clear();
        Ok(())
    }

    fn clear_rows(&mut self, layout: &Layout) -> Result<()> {
        let call = format!(in self.alloc; "clear rows of {}", Part::Places(Some(layout)))?;
        self.note(&call)?;
        self.clear();
        Ok(())
    }

    fn clear_to_eol(&mut self) -> Result<()> {
        self.note("clear to the end of the row")?;
        let end = measured(self.columns, self.text.as_str(), self.origin);
        let gone = usize::from(end.col.saturating_sub(self.place.col));
        let kept = self.text.len().saturating_sub(gone);
        if end.row == self.place.row && self.text.is_char_boundary(kept) {
            self.text.truncate(kept);
        }
        Ok(())
    }

    fn update_size(&mut self) {}

    fn get_columns(&self) -> Unit {
        self.columns
    }

    fn get_rows(&self) -> Unit {
        self.rows
    }

    fn colors_enabled(&self) -> bool {
        self.colors
    }

    fn grapheme_cluster_mode(&self) -> GraphemeClusterMode {
        GraphemeClusterMode::Unicode
    }

    fn move_cursor_at_leftmost(&mut self, rdr: &mut Typist) -> Result<()> {
        if !rdr.flags().is_empty() {
            self.note("a key was read")?;
        }
        self.note("move to the first column")?;
        self.place.col = 0;
        Ok(())
    }

    fn begin_synchronized_update(&mut self) -> Result<()> {
        self.note("begin to hold back")
    }

    fn end_synchronized_update(&mut self) -> Result<()> {
        self.note("show what was held back")
    }

    ghost column_below = { λ r. laws.measured_by_bytes-below r.columns };

    ghost one_column = { λ r. laws.measured_by_bytes-push r.columns };
}

impl Resizable for Recorder {
    fn resize(&mut self, columns: Unit, rows: Unit) {
        self.columns = columns;
        self.rows = rows;
    }
}
