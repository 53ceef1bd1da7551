//! A screen that keeps what it shows, from which a program draws.
ghost use Rattle.std.specs.Prelude.{◌≡◌, ℕ, ◌+◌, ◌<◌, ◌≤◌, min, [], ◌∷◌, ◌++◌, List, length, take, true, false, Ok, Some, None, IfOk, IfSome, OnOk, OnErr, option_map, string_bytes, string_capacity};
ghost use Rattle.std.specs.List.{list_all};
ghost use Rattle.std.specs.Option.{ForSome};
ghost use Rattle.line_config.specs.Error.{MemoryOnly, max_count};
ghost use Rattle.line_buffer.specs.Printable.{is_plain, is_printable};
ghost use Rattle.line_buffer.specs.declared.layout.GraphemeClusterMode.TheVariants.{Unicode};
ghost use Rattle.line_state.specs.ScreenState.{EndsBehind, HasRoom, Tries, shown_by, with_shown};
ghost use Rattle.line_screen.specs.Measure.{PlainTextEndsAt, measured};
ghost use Rattle.line_screen.specs.Cleared.{Clears, KeepsCounts, LosesEnd, blank_screen};

use crate::measure::{measured, measured_line};
use line_buffer::{
    GraphemeClusterMode, Layout, LineBuffer, Position, Unit, is_plain_text, is_printable_text,
};
use line_config::{Prompt, Result};
use line_keys::raw_reader::RawReader;
use line_parts::Highlighter;
use line_state::{Renderer, Resizable, ScreenState};
use std::alloc::Global;
use std::marker::PhantomData;

const ORIGIN: Position = Position { row: 0, col: 0 };

/// A screen without colors, for any reader of keys. It writes nothing: it keeps what is shown, and
/// counts its full redraws, for a program that draws by itself. The memory of its longest line and
/// prompt is kept for the next ones.
pub struct Plain<R: RawReader> {
    alloc: Global,
    columns: Unit,
    rows: Unit,
    place: Position,
    text: String,
    origin: Position,
    // Where the text ends, if this is known, and the text to be printable ASCII and newlines.
    end: Option<Position>,
    prompt: String,
    hint: Option<String>,
    redraws: u64,
    failures: u64,
    reader: PhantomData<R>,
    ghost some_columns: { 0 < columns },
    ghost ends: { ForSome end (λ e. PlainTextEndsAt columns (string_bytes text) origin e) },
}

impl<R: RawReader> Drop for Plain<R> {
    fn drop(self) {
        let Plain {
            alloc: _,
            columns: _,
            rows: _,
            place: _,
            text: _,
            origin: _,
            end: _,
            prompt: _,
            hint: _,
            redraws: _,
            failures: _,
            reader: _,
        } = self;
    }
}

impl<R: RawReader> Plain<R> {
    /// Returns an empty screen of so many columns and of 24 rows, with the cursor at its first
    /// place. What it shows is kept in memory of `alloc`.
    pub fn new(alloc: Global, columns: Unit) -> Plain<R>
        requires { 0 < columns }
        ensures surface { ⟦<Self as ScreenState>⟧.surface result
            ≡ record {
              measure = measured columns;
              columns = columns;
              rows = 24;
              colors = false;
              mode = Unicode;
            } }
        ensures screen { ⟦<Self as ScreenState>⟧.screen result ≡ blank_screen }
        ensures redraws { ⟦<Self as ScreenState>⟧.redraws result ≡ 0 }
        ensures failures { ⟦<Self as ScreenState>⟧.failures result ≡ 0 }
    {
        Plain {
            alloc,
            columns,
            rows: 24,
            place: ORIGIN,
            text: String::new(alloc),
            origin: ORIGIN,
            end: Some(ORIGIN),
            prompt: String::new(alloc),
            hint: None,
            redraws: 0,
            failures: 0,
            reader: PhantomData,
        }
    }

    /// Returns the line that is shown, without its prompt and its hint.
    pub fn text(&self) -> &str
        ensures { result.now ≡ (⟦<Self as ScreenState>⟧.screen self.now).text }
    {
        self.text.as_str()
    }

    /// Returns where the cursor stands, in rows and columns from 0.
    pub fn cursor(&self) -> Position
        ensures { result ≡ (⟦<Self as ScreenState>⟧.screen self.now).position }
    {
        self.place
    }

    /// Returns the prompt of the last full redraw, without styles. After the screen was cleared it
    /// is empty.
    pub fn prompt(&self) -> &str
        ensures { result.now ≡ (⟦<Self as ScreenState>⟧.screen self.now).prompt }
    {
        self.prompt.as_str()
    }

    /// Returns the text after the line of the last full redraw, if there was one: a hint, or a
    /// validation message. After the screen was cleared there is none.
    pub fn hint(&self) -> Option<&str>
        ensures { option_map (λ s. s.now) result
            ≡ (⟦<Self as ScreenState>⟧.screen self.now).behind }
    {
        match &self.hint {
            Some(hint) => Some(hint.as_str()),
            None => None,
        }
    }

    /// Returns how many full redraws there were. The count stays at its greatest value.
    pub fn redraws(&self) -> u64
        ensures { result ≡ ⟦<Self as ScreenState>⟧.redraws self.now }
    {
        self.redraws
    }

    /// Forgets what is shown. The cursor goes to the first place.
    fn clear(&mut self)
        ensures text { string_bytes self.new.text ≡ [] }
        ensures place { self.new.place ≡ ORIGIN }
        ensures origin { self.new.origin ≡ ORIGIN }
        ensures prompt { string_bytes self.new.prompt ≡ [] }
        ensures hint { self.new.hint ≡ None }
        ensures columns { self.new.columns ≡ self.old.columns }
        ensures rows { self.new.rows ≡ self.old.rows }
        ensures redraws { self.new.redraws ≡ self.old.redraws }
        ensures failures { self.new.failures ≡ self.old.failures }
    {
        self.text.clear();
        self.origin = ORIGIN;
        self.end = Some(ORIGIN);
        self.place = ORIGIN;
        self.prompt.clear();
        self.hint = None;
    }

    /// Returns where the text ends. It is measured where this is not known.
    fn text_end(&self) -> Position
        ensures { result
            ≡ measured self.now.columns (string_bytes self.now.text) self.now.origin }
    {
        match self.end {
            Some(end) => end,
            None => measured(self.columns, self.text.as_str(), self.origin),
        }
    }

    /// Returns where the text ends with `more` after it, if this is known. `from_cursor` is where
    /// `more` ends when written at the cursor. It looks at `more` alone.
    fn end_with(&self, more: &str, from_cursor: Position) -> Option<Position>
        requires { from_cursor ≡ measured self.now.columns more.now self.now.place }
        ensures { IfSome result (λ e. PlainTextEndsAt self.now.columns
            (string_bytes self.now.text ++ more.now) self.now.origin e) }
    {
        let end = self.end?;
        if !is_printable_text(more) {
            return None;
        }
        if end == self.place {
            return Some(from_cursor);
        }
        Some(measured(self.columns, more, end))
    }

    /// Returns whether the text is printable ASCII and newlines, and begins at a column of a row.
    /// Where its end is known, this is known too.
    fn is_plain(&self) -> bool
        ensures { result ≡ true → (list_all is_plain (string_bytes self.now.text) ≡ true)
            × (self.now.origin.col < self.now.columns) }
    {
        if self.end.is_some() {
            return true;
        }
        self.origin.col < self.columns && is_plain_text(self.text.as_str())
    }

    /// Returns where the first `kept` bytes of the text end, which ends at `end`. `None` where they
    /// end on another row, and where the text has more than printable ASCII and newlines.
    fn end_of_first(&self, kept: usize, end: Position) -> Option<Position>
        requires { end ≡ measured self.now.columns (string_bytes self.now.text) self.now.origin }
        ensures { IfSome result (λ e. PlainTextEndsAt self.now.columns
            (take kept (string_bytes self.now.text)) self.now.origin e) }
    {
        let gone = self.text.as_str().get(kept..)?;
        let columns = Unit::try_from(gone.len()).ok()?;
        if !self.is_plain() || !is_printable_text(gone) || end.col < columns {
            return None;
        }
        Some(Position {
            row: end.row,
            col: end.col - columns,
        })
    }
}

/// Gives the kept text room for another one, and leaves it as it is.
fn make_room(kept: &mut String, text: &str) -> Result<()>
    ensures room { OnOk result (length text.now ≤ string_capacity kept.new) }
    ensures stays { string_bytes kept.new ≡ string_bytes kept.old }
    ensures memory { MemoryOnly result }
{
    kept.reserve(text.len().saturating_sub(kept.len()))?;
    Ok(())
}

/// Replaces the kept text, which has room for the new one.
fn put(kept: &mut String, text: &str)
    requires { length text.now ≤ string_capacity kept.old }
    ensures { string_bytes kept.new ≡ text.now }
{
    kept.clear();
    // there is room, so this does not fail
    let _ = kept.push_str(text);
}

/// Returns the hint as text of its own.
fn owned(alloc: Global, hint: Option<&str>) -> Result<Option<String>>
    ensures value { IfOk result (λ h.
        option_map string_bytes h ≡ option_map (λ s. s.now) hint.entry) }
    ensures memory { MemoryOnly result }
{
    match hint {
        Some(hint) => Ok(Some(String::from_str(alloc, hint)?)),
        None => Ok(None),
    }
}

impl<R: RawReader> ScreenState for Plain<R> {
    ghost use Rattle.std.specs.Prelude.{false, true, option_map, string_bytes};
    ghost use Rattle.line_buffer.specs.declared.layout.GraphemeClusterMode.TheVariants.{Unicode};
    ghost use Rattle.line_keys.specs.Model.Display.{uncounted};
    ghost use Rattle.line_screen.specs.Measure.{measured};

    ghost surface = { λ p. record {
      measure = measured p.columns;
      columns = p.columns;
      rows = p.rows;
      colors = false;
      mode = Unicode;
    } };

    ghost screen = { λ p. record {
      position = p.place;
      prompt = string_bytes p.prompt;
      text = string_bytes p.text;
      origin = p.origin;
      behind = option_map string_bytes p.hint;
      known = true;
    } };

    ghost beside = { λ _. uncounted };

    ghost redraws = { λ p. p.redraws };

    ghost failures = { λ p. p.failures };
}

impl<R: RawReader> Renderer for Plain<R> {
    type Reader = R;

    ghost use Rattle.line_screen.specs.MeasureLaws as laws;

    fn move_cursor(&mut self, old: Position, new: Position) -> Result<()>
        ensures ok { result ≡ Ok tt }
        ensures screen { ⟦<Self as ScreenState>⟧.screen self.new
            ≡ record (⟦<Self as ScreenState>⟧.screen self.old) { position = new } }
        ensures keeps { KeepsCounts ⟦<Self as ScreenState>⟧ self.old self.new }
    {
        let _ = old;
        self.place = new;
        Ok(())
    }

    /// Where memory is refused, nothing that is kept changes.
    fn refresh_line<P: Prompt, H: Highlighter>(
        &mut self,
        prompt: &P,
        line: &LineBuffer,
        hint: Option<&str>,
        old_layout: Option<&Layout>,
        new_layout: &Layout,
        highlighter: Option<&H>,
    ) -> Result<()>
        ensures shown { OnOk result (⟦<Self as ScreenState>⟧.screen self.new
            ≡ shown_by new_layout.now (P.raw_text prompt.now) line.now
            (option_map (λ s. s.now) hint.entry)) }
        ensures redraws { OnOk result (⟦<Self as ScreenState>⟧.redraws self.new
            ≡ min max_count (⟦<Self as ScreenState>⟧.redraws self.old + 1)) }
        ensures tries { Tries ⟦<Self as ScreenState>⟧ result self.old self.new }
        ensures refused { OnErr result ((⟦<Self as ScreenState>⟧.screen self.new
            ≡ ⟦<Self as ScreenState>⟧.screen self.old)
            × KeepsCounts ⟦<Self as ScreenState>⟧ self.old self.new) }
        ensures memory { MemoryOnly result }
    {
        let _ = old_layout;
        let _ = highlighter;
        let hint = owned(self.alloc, hint)?;
        make_room(&mut self.text, line.as_str())?;
        make_room(&mut self.prompt, prompt.raw())?;
        self.end = None;
        put(&mut self.text, line.as_str());
        put(&mut self.prompt, prompt.raw());
        self.hint = hint;
        self.place = new_layout.cursor;
        self.origin = new_layout.prompt_size;
        self.redraws = self.redraws.saturating_add(1);
        Ok(())
    }

    fn compute_layout(
        &self,
        prompt_size: Position,
        default_prompt: bool,
        line: &LineBuffer,
        info: Option<&str>,
    ) -> Layout {
        let (cursor, end) = measured_line(self.columns, line, prompt_size);
        Layout {
            grapheme_cluster_mode: self.grapheme_cluster_mode(),
            prompt_size,
            default_prompt,
            cursor,
            end: match info {
                Some(info) => measured(self.columns, info, end),
                None => end,
            },
            has_info: info.is_some(),
        }
    }

    fn calculate_position(&self, s: &str, orig: Position) -> Position {
        measured(self.columns, s, orig)
    }

    /// The text is shown after what is shown already, and the cursor goes to its end. Where memory
    /// is refused, nothing changes.
    fn write_and_flush(&mut self, buf: &str) -> Result<()>
        ensures shown { (c : ℕ) → buf.now ≡ c ∷ [] → is_printable c ≡ true
            → HasRoom (⟦<Self as ScreenState>⟧.surface self.old)
            (⟦<Self as ScreenState>⟧.screen self.old)
            → OnOk result (⟦<Self as ScreenState>⟧.screen self.new
            ≡ with_shown (⟦<Self as ScreenState>⟧.screen self.old) c) }
        ensures written { let screen = ⟦<Self as ScreenState>⟧.screen self.old in
            OnOk result (⟦<Self as ScreenState>⟧.screen self.new ≡ record screen {
              position = (⟦<Self as ScreenState>⟧.surface self.old).measure buf.now screen.position;
              text = screen.text ++ buf.now;
            }) }
        ensures keeps { KeepsCounts ⟦<Self as ScreenState>⟧ self.old self.new }
        ensures memory { MemoryOnly result }
        ensures refused { OnErr result (⟦<Self as ScreenState>⟧.screen self.new
            ≡ ⟦<Self as ScreenState>⟧.screen self.old) }
    {
        let place = measured(self.columns, buf, self.place);
        let end = self.end_with(buf, place);
        self.text.push_str(buf)?;
        self.end = end;
        self.place = place;
        Ok(())
    }

    fn beep(&mut self) -> Result<()>
        ensures ok { result ≡ Ok tt }
        ensures stays { self.new ≡ self.old }
    {
        Ok(())
    }

    fn clear_screen(&mut self) -> Result<()>
        ensures ok { result ≡ Ok tt }
        ensures clears { Clears ⟦<Self as ScreenState>⟧ self.old self.new }
    {
        self.clear();
        Ok(())
    }

    /// Clears the whole screen, as `clear_screen` does.
    fn clear_rows(&mut self, layout: &Layout) -> Result<()>
        ensures ok { result ≡ Ok tt }
        ensures clears { Clears ⟦<Self as ScreenState>⟧ self.old self.new }
    {
        let _ = layout;
        self.clear();
        Ok(())
    }

    fn clear_to_eol(&mut self) -> Result<()>
        ensures ok { result ≡ Ok tt }
        ensures position { (⟦<Self as ScreenState>⟧.screen self.new).position
            ≡ (⟦<Self as ScreenState>⟧.screen self.old).position }
        ensures cleared { (kept gone : List ℕ)
            → (⟦<Self as ScreenState>⟧.screen self.old).text ≡ kept ++ gone
            → list_all is_printable gone ≡ true
            → EndsBehind (⟦<Self as ScreenState>⟧.surface self.old)
            (⟦<Self as ScreenState>⟧.screen self.old) (length gone)
            → OnOk result (⟦<Self as ScreenState>⟧.screen self.new
            ≡ record (⟦<Self as ScreenState>⟧.screen self.old) { text = kept }) }
        ensures loses { LosesEnd (⟦<Self as ScreenState>⟧.screen self.old)
            (⟦<Self as ScreenState>⟧.screen self.new) }
        ensures keeps { KeepsCounts ⟦<Self as ScreenState>⟧ self.old self.new }
    {
        let end = self.text_end();
        let gone = usize::from(end.col.saturating_sub(self.place.col));
        let kept = self.text.len().saturating_sub(gone);
        if end.row == self.place.row && self.text.is_char_boundary(kept) {
            self.end = self.end_of_first(kept, end);
            self.text.truncate(kept);
        }
        Ok(())
    }

    fn update_size(&mut self)
        ensures { self.new ≡ self.old }
    {}

    fn get_columns(&self) -> Unit {
        self.columns
    }

    fn get_rows(&self) -> Unit {
        self.rows
    }

    fn colors_enabled(&self) -> bool {
        false
    }

    fn grapheme_cluster_mode(&self) -> GraphemeClusterMode {
        GraphemeClusterMode::Unicode
    }

    /// Takes the cursor to the first column of its row. The reader is not asked.
    fn move_cursor_at_leftmost(&mut self, rdr: &mut R) -> Result<()>
        ensures ok { result ≡ Ok tt }
        ensures screen { let screen = ⟦<Self as ScreenState>⟧.screen self.old in
            ⟦<Self as ScreenState>⟧.screen self.new
            ≡ record screen { position = record screen.position { col = 0 } } }
        ensures keeps { KeepsCounts ⟦<Self as ScreenState>⟧ self.old self.new }
        ensures reader { rdr.new ≡ rdr.old }
    {
        let _ = rdr;
        self.place.col = 0;
        Ok(())
    }

    ghost column_below = { λ p. laws.measured-below p.columns };

    ghost one_column = { λ p. laws.measured-push p.columns };
}

impl<R: RawReader> Resizable for Plain<R> {
    /// What is shown stays, and so do the prompt and the text after the line.
    fn resize(&mut self, columns: Unit, rows: Unit)
        requires { 0 < columns }
        ensures surface { ⟦<Self as ScreenState>⟧.surface self.new
            ≡ record (⟦<Self as ScreenState>⟧.surface self.old) {
              measure = measured columns;
              columns = columns;
              rows = rows;
            } }
        ensures screen { ⟦<Self as ScreenState>⟧.screen self.new
            ≡ ⟦<Self as ScreenState>⟧.screen self.old }
        ensures redraws { ⟦<Self as ScreenState>⟧.redraws self.new
            ≡ ⟦<Self as ScreenState>⟧.redraws self.old }
        ensures failures { ⟦<Self as ScreenState>⟧.failures self.new
            ≡ ⟦<Self as ScreenState>⟧.failures self.old }
    {
        self.end = None;
        self.columns = columns;
        self.rows = rows;
    }
}
