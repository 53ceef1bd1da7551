//! What is drawn of a line: the renderer, the prompt, and the layout that is kept of them.
ghost use Rattle.std.specs.Prelude.{◌≡◌, ◌↔◌, ◌+◌, ◌-◌, ◌<◌, ◌≤◌, nat_lt, if◌then◌else◌, Some, None, ℕ, Bool, true, false, List, length, drop, Option, is_some, option_map, IsOk, IfSome, OnOk, OnErr, IsTrue};
ghost use Rattle.line_buffer.specs.declared.layout.Position.{Position};
ghost use Rattle.std.specs.List.{list_all};
ghost use Rattle.line_buffer.specs.Line.{with_cursor};
ghost use Rattle.line_buffer.specs.Printable.{is_plain, is_printable};
ghost use Rattle.line_keys.specs.Model.Display.{GoesToPosition, GoesToShownEnd, HasCursorAt, columns_back, corner, cursor_position, never_drawn};
ghost use Rattle.line_state.specs.Drawn.{ColorsAreOn, DrawsInFull, DrawsNoneInFull, DrawsResized, RedrawsKept, TakesBack, Writes, cleared};
ghost use Rattle.line_state.specs.ScreenState.{BeepsAtMost, ResizesTo, WritesAtMost};
ghost use Rattle.line_state.specs.Shown.{IsShownPlain, KnowsEnd, StandsAtEnd};

pub mod drawn_line;

use crate::drawn::Drawn;
use crate::renderer::Renderer;
use crate::resizable::Resizable;
use crate::screen_state::ScreenState;
use drawn_line::DrawnLine;
use line_buffer::{Layout, LineBuffer, Position, Unit, is_printable_text};
use line_config::{Prompt, Result};
use line_parts::Highlighter;

/// How much of the layout is measured anew for a drawing.
#[derive(PartialEq, Eq)]
pub enum RefreshKind {
    /// Nothing: the kept layout is drawn again.
    Min,
    /// All of it.
    All,
}

/// The view of a line: the renderer, the prompt, and the line as it is drawn.
pub struct View<'out, 'prompt, W: Renderer, P: Prompt> {
    out: &'out mut W,
    prompt: &'prompt P,
    drawn: DrawnLine,
    ghost measured: { (W.surface out.now).measure (P.raw_text prompt.now) corner
        ≡ drawn.prompt_size },
    ghost placed: { drawn.in_place ≡ true
        → (W.screen out.now).position ≡ drawn.layout.cursor },
    ghost known: { drawn.shows_plain ≡ true
        → IsShownPlain (W.surface out.now) (W.screen out.now) drawn.layout
        drawn.printable_at_end },
}

impl<W: Renderer, P: Prompt> Drop for View<'_, '_, W, P> {
    fn drop(self) {
        let View {
            out: _,
            prompt: _,
            drawn: _,
        } = self;
    }
}

impl<'out, 'prompt, W: Renderer, P: Prompt> Drawn for View<'out, 'prompt, W, P> {
    ghost display = { λ v. record {
      surface = W.surface v.out.now;
      prompt = P.raw_text v.prompt.now;
      prompt_end = v.drawn.prompt_size;
      layout = v.drawn.layout;
      screen = W.screen v.out.now;
      lit = v.drawn.highlight_char;
    } };

    ghost beside = { λ v. W.beside v.out.now };

    ghost redraws = { λ v. W.redraws v.out.now };

    ghost failures = { λ v. W.failures v.out.now };

    ghost loan = { λ v. v.out.ghost_name };
}

// Returns the layout, where it is drawn.
fn if_drawn(drawn: bool, layout: &Layout) -> Option<&Layout>
    ensures { option_map (λ l. l.now) result ≡ if drawn then Some layout.now else None }
{
    if drawn { Some(layout) } else { None }
}

// Returns the length of the text's last line if that is printable ASCII, and else 0.
fn printable_at_end(text: &str) -> usize
    ensures fits { result ≤ length text.now }
    ensures printable { list_all is_printable (drop (length text.now - result) text.now) ≡ true }
{
    if is_printable_text(text) {
        return text.len();
    }
    let last_line = match text.rfind('\n') {
        Some(newline) => &text[newline + 1..],
        None => text,
    };
    if is_printable_text(last_line) {
        last_line.len()
    } else {
        0
    }
}

// Returns whether two layouts are the same but for whose prompt stands there.
fn has_places_of(layout: &Layout, other: &Layout) -> bool
    ensures { IsTrue result
        ↔ (layout.now ≡ record other.now { default_prompt = layout.now.default_prompt }) }
{
    layout.grapheme_cluster_mode == other.grapheme_cluster_mode
        && layout.prompt_size == other.prompt_size
        && layout.cursor == other.cursor
        && layout.end == other.end
        && layout.has_info == other.has_info
}

impl<'out, 'prompt, W: Renderer, P: Prompt> View<'out, 'prompt, W, P> {
    /// Returns the view of a renderer and a prompt, with nothing drawn yet.
    pub fn new(out: &'out mut W, prompt: &'prompt P) -> Self
        ensures display { ⟦<Self as Drawn>⟧.display result
            ≡ never_drawn (W.surface out.old) (W.screen out.old) (P.raw_text prompt.now) }
        ensures redraws { ⟦<Self as Drawn>⟧.redraws result ≡ W.redraws out.old }
        ensures failures { ⟦<Self as Drawn>⟧.failures result ≡ W.failures out.old }
        ensures loan { ⟦<Self as Drawn>⟧.loan result ≡ out.entry.ghost_name }
    {
        let prompt_size = out.calculate_position(prompt.raw(), Position { row: 0, col: 0 });
        let mut layout = Layout::new(out.grapheme_cluster_mode());
        layout.prompt_size = prompt_size;
        let drawn = DrawnLine {
            prompt_size,
            layout,
            in_place: false,
            at_cursor: false,
            shows_plain: false,
            printable_at_end: 0,
            highlight_char: false,
        };
        View { out, prompt, drawn }
    }

    /// Draws the line in full after the prompt, with `info` after it, if there is one. Pass a
    /// highlighter only where colors are shown.
    ///
    /// # Errors
    /// `Io` if the renderer fails, and `Memory` if memory runs out. The kept layout then stays.
    /// What the screen shows is not specified: a full redraw is to follow.
    pub fn refresh_line<H: Highlighter>(
        &mut self,
        line: &LineBuffer,
        info: Option<&str>,
        highlighter: Option<&H>,
    ) -> Result<()>
        requires { ColorsAreOn ⟦<Self as Drawn>⟧ self.old (is_some highlighter) }
        ensures { let d = ⟦<Self as Drawn>⟧ in DrawsInFull d result self.old self.new
            (d.display self.old).prompt (d.display self.old).prompt_end true line.now
            (option_map (λ s. s.now) info.entry) }
    {
        self.redraw(
            self.prompt,
            self.drawn.prompt_size,
            true,
            line,
            info,
            highlighter,
        )
    }

    /// Draws the line in full after another prompt, with `info` after it, if there is one. Pass a
    /// highlighter only where colors are shown.
    ///
    /// # Errors
    /// `Io` if the renderer fails, and `Memory` if memory runs out. The kept layout then stays.
    /// What the screen shows is not specified: a full redraw is to follow.
    pub fn refresh_prompt_and_line<H: Highlighter>(
        &mut self,
        prompt: &str,
        line: &LineBuffer,
        info: Option<&str>,
        highlighter: Option<&H>,
    ) -> Result<()>
        requires { ColorsAreOn ⟦<Self as Drawn>⟧ self.old (is_some highlighter) }
        ensures { let d = ⟦<Self as Drawn>⟧ in DrawsInFull d result self.old self.new
            prompt.now ((d.display self.old).surface.measure prompt.now corner) false line.now
            (option_map (λ s. s.now) info.entry) }
    {
        let corner = Position { row: 0, col: 0 };
        let prompt_size = self.out.calculate_position(prompt, corner);
        self.redraw(&prompt, prompt_size, false, line, info, highlighter)
    }

    // Draws all again, and keeps the layout that is drawn.
    fn redraw<Q: Prompt, H: Highlighter>(
        &mut self,
        prompt: &Q,
        prompt_size: Position,
        default_prompt: bool,
        line: &LineBuffer,
        info: Option<&str>,
        highlighter: Option<&H>,
    ) -> Result<()>
        requires measured { let d = ⟦<Self as Drawn>⟧ in
            (d.display self.old).surface.measure (Q.raw_text prompt.now) corner ≡ prompt_size }
        requires colored { ColorsAreOn ⟦<Self as Drawn>⟧ self.old (is_some highlighter) }
        ensures { let d = ⟦<Self as Drawn>⟧ in DrawsInFull d result self.old self.new
            (Q.raw_text prompt.now) prompt_size default_prompt line.now
            (option_map (λ s. s.now) info.entry) }
    {
        let new_layout = self
            .out
            .compute_layout(prompt_size, default_prompt, line, info);
        let old_layout = if_drawn(self.drawn.in_place, &self.drawn.layout);
        self.drawn.in_place = false;
        self.drawn.shows_plain = false;
        self.out
            .refresh_line(prompt, line, info, old_layout, &new_layout, highlighter)?;
        self.drawn.layout = new_layout;
        self.drawn.in_place = true;
        self.drawn.at_cursor = default_prompt;
        self.drawn.shows_plain = line.is_plain();
        self.drawn.printable_at_end = if self.drawn.shows_plain {
            printable_at_end(line.as_str())
        } else {
            0
        };
        Ok(())
    }

    /// Draws the kept layout again after the prompt, with `info` after the line, if there is one,
    /// and keeps it. Pass a highlighter only where colors are shown.
    ///
    /// # Errors
    /// `Io` if the renderer fails, and `Memory` if memory runs out. The kept layout then stays.
    /// What the screen shows is not specified: a full redraw is to follow.
    pub fn repaint_kept<H: Highlighter>(
        &mut self,
        line: &LineBuffer,
        info: Option<&str>,
        highlighter: Option<&H>,
    ) -> Result<()>
        requires { ColorsAreOn ⟦<Self as Drawn>⟧ self.old (is_some highlighter) }
        ensures { let d = ⟦<Self as Drawn>⟧ in
            RedrawsKept d result self.old self.new line.now (option_map (λ s. s.now) info.entry) }
    {
        let own_prompt = self.drawn.layout.default_prompt;
        let measured = self
            .out
            .compute_layout(self.drawn.prompt_size, own_prompt, line, info);
        self.drawn.in_place = false;
        self.drawn.shows_plain = false;
        self.out.refresh_line(
            self.prompt,
            line,
            info,
            None,
            &self.drawn.layout,
            highlighter,
        )?;
        self.drawn.in_place = has_places_of(&self.drawn.layout, &measured);
        self.drawn.at_cursor = self.drawn.in_place;
        self.drawn.shows_plain = self.drawn.in_place && line.is_plain();
        self.drawn.printable_at_end = printable_at_end(line.as_str());
        Ok(())
    }

    /// Returns where the cursor of the line is in a full redraw after the own prompt.
    pub fn cursor_position(&self, line: &LineBuffer) -> Position
        ensures { let d = ⟦<Self as Drawn>⟧.display self.now in
            result ≡ cursor_position d.surface.measure d.prompt_end line.now }
    {
        let before = &line.as_str()[..line.pos()];
        self.out.calculate_position(before, self.drawn.prompt_size)
    }

    /// Returns where the cursor of the line is in a full redraw after the own prompt, if the kept
    /// cursor is where that of byte `from` is. In a line of printable ASCII and newlines it looks
    /// at no more than what stands between the two, where that has no newline and the cursor stays
    /// on its row.
    pub fn cursor_position_from(&self, line: &LineBuffer, from: usize) -> Position
        ensures { let d = ⟦<Self as Drawn>⟧.display self.now in
            HasCursorAt d (with_cursor line.now from)
            → result ≡ cursor_position d.surface.measure d.prompt_end line.now }
    {
        match self.position_near(line, from) {
            Some(position) => position,
            None => self.cursor_position(line),
        }
    }

    // Returns where the cursor of the line is, on the row of the kept cursor, which is that of byte
    // `from`. `None` where it is on another row, where more than printable ASCII stands between the
    // two, where the line has more than that and newlines, and where the kept cursor was not drawn
    // as a line's.
    fn position_near(&self, line: &LineBuffer, from: usize) -> Option<Position>
        ensures { let d = ⟦<Self as Drawn>⟧.display self.now in
            IfSome result (λ position. HasCursorAt d (with_cursor line.now from)
            → position ≡ cursor_position d.surface.measure d.prompt_end line.now) }
    {
        if !self.drawn.in_place || !self.drawn.at_cursor || !line.is_plain() {
            return None;
        }
        if line.pos() < from {
            self.position_back(line, from)
        } else {
            self.position_on(line, from)
        }
    }

    // The same where the line's cursor is before byte `from`.
    fn position_back(&self, line: &LineBuffer, from: usize) -> Option<Position>
        requires { list_all is_plain line.now.text ≡ true }
        ensures { let d = ⟦<Self as Drawn>⟧.display self.now in
            IfSome result (λ position. HasCursorAt d (with_cursor line.now from)
            → position ≡ cursor_position d.surface.measure d.prompt_end line.now) }
    {
        let _columns = self.out.get_columns();
        let between = line.as_str().get(line.pos()..from)?;
        let columns = Unit::try_from(between.len()).ok()?;
        if !is_printable_text(between) || self.drawn.layout.cursor.col < columns {
            return None;
        }
        Some(Position {
            row: self.drawn.layout.cursor.row,
            col: self.drawn.layout.cursor.col - columns,
        })
    }

    // The same where the line's cursor is not before byte `from`.
    fn position_on(&self, line: &LineBuffer, from: usize) -> Option<Position>
        requires { list_all is_plain line.now.text ≡ true }
        ensures { let d = ⟦<Self as Drawn>⟧.display self.now in
            IfSome result (λ position. HasCursorAt d (with_cursor line.now from)
            → position ≡ cursor_position d.surface.measure d.prompt_end line.now) }
    {
        let between = line.as_str().get(from..line.pos())?;
        let columns = Unit::try_from(between.len()).ok()?;
        let col = self.drawn.layout.cursor.col.checked_add(columns)?;
        if !is_printable_text(between) || self.out.get_columns() <= col {
            return None;
        }
        Some(Position {
            row: self.drawn.layout.cursor.row,
            col,
        })
    }

    /// Returns whether the kept cursor's row has a column left after the one where it stands.
    pub fn has_free_column(&self) -> bool
        ensures { let d = ⟦<Self as Drawn>⟧.display self.now in
            result ≡ nat_lt (d.layout.cursor.col + 1) d.surface.columns }
    {
        self.drawn.layout.cursor.col < self.out.get_columns() - 1
    }

    /// Moves the kept cursor to a position, and the screen cursor with it. Nothing is drawn where
    /// it is there already.
    ///
    /// # Errors
    /// `Io` if the renderer fails, and `Memory` if memory runs out. The kept layout then stays.
    /// Where the screen cursor stands is not specified: a full redraw is to follow.
    pub fn move_cursor(&mut self, position: Position) -> Result<()>
        ensures moved { let d = ⟦<Self as Drawn>⟧.display in
            GoesToPosition result (d self.old) (d self.new) position }
        ensures still { (⟦<Self as Drawn>⟧.display self.old).layout.cursor ≡ position
            → IsOk result }
        ensures beside { let d = ⟦<Self as Drawn>⟧ in d.beside self.new ≡ d.beside self.old }
        ensures part { DrawsNoneInFull ⟦<Self as Drawn>⟧ result self.old self.new }
    {
        if self.drawn.layout.cursor == position {
            return Ok(());
        }
        let in_place = self.drawn.in_place;
        self.drawn.in_place = false;
        self.out.move_cursor(self.drawn.layout.cursor, position)?;
        self.drawn.layout.cursor = position;
        self.drawn.in_place = in_place;
        Ok(())
    }

    /// Moves the screen cursor to where what is shown ends, a text after the line included.
    ///
    /// # Errors
    /// `Io` if the renderer fails, and `Memory` if memory runs out. The kept layout then stays.
    /// Where the screen cursor stands is not specified: a full redraw is to follow.
    pub fn move_cursor_to_end(&mut self) -> Result<()>
        ensures moved { let d = ⟦<Self as Drawn>⟧.display in
            GoesToShownEnd result (d self.old) (d self.new) }
        ensures still { let layout = (⟦<Self as Drawn>⟧.display self.old).layout in
            layout.cursor ≡ layout.end → IsOk result }
        ensures beside { let d = ⟦<Self as Drawn>⟧ in d.beside self.new ≡ d.beside self.old }
        ensures part { DrawsNoneInFull ⟦<Self as Drawn>⟧ result self.old self.new }
    {
        self.drawn.at_cursor = false;
        self.move_cursor(self.drawn.layout.end)
    }

    // Returns whether the renderer is known to stand at the end of what is shown, printable ASCII
    // and newlines.
    fn stands_at_end(&self) -> bool
        ensures { result ≡ true → StandsAtEnd (W.surface self.now.out.now)
            (W.screen self.now.out.now) self.now.drawn.layout self.now.drawn.printable_at_end }
    {
        self.knows_end(0) && self.drawn.layout.cursor == self.drawn.layout.end
    }

    // Returns whether the renderer is known to stand at the kept cursor, and what is shown to be
    // printable ASCII and newlines with nothing after it, of which at least `count` characters at
    // the end are printable.
    fn knows_end(&self, count: usize) -> bool
        ensures { result ≡ true → KnowsEnd (W.surface self.now.out.now) (W.screen self.now.out.now)
            self.now.drawn.layout self.now.drawn.printable_at_end count }
    {
        self.drawn.in_place
            && self.drawn.shows_plain
            && !self.drawn.layout.has_info
            && count <= self.drawn.printable_at_end
    }

    /// Writes one printable ASCII character where the kept cursor is, at the line's end, with a
    /// column left after it. The kept cursor and end move one column on.
    ///
    /// # Errors
    /// `Io` if the renderer fails, and `Memory` if memory runs out. The kept layout then stays.
    /// What the screen shows is not specified: a full redraw is to follow.
    pub fn write_char(&mut self, c: char) -> Result<()>
        requires printable { is_printable c ≡ true }
        requires free { let d = ⟦<Self as Drawn>⟧.display self.old in
            nat_lt (d.layout.cursor.col + 1) d.surface.columns ≡ true }
        ensures { Writes ⟦<Self as Drawn>⟧ result self.old self.new c }
    {
        let _columns = self.out.get_columns();
        let known = self.stands_at_end();
        self.drawn.in_place = false;
        self.drawn.shows_plain = false;
        self.out.write_and_flush(c.encode_utf8(&mut [0; 4]))?;
        self.drawn.layout.cursor.col += 1;
        self.drawn.layout.end = self.drawn.layout.cursor;
        self.drawn.printable_at_end = self.drawn.printable_at_end.saturating_add(1);
        self.drawn.in_place = known;
        self.drawn.shows_plain = known;
        Ok(())
    }

    /// Takes away the last `count` characters of what is shown, printable ASCII on the row of the
    /// kept end. The kept cursor and end move to where they began.
    ///
    /// # Errors
    /// `Io` if the renderer fails, and `Memory` if memory runs out. The kept cursor may then have
    /// moved; all else of the kept layout stays. What the screen shows is not specified: a full
    /// redraw is to follow.
    pub fn take_back(&mut self, count: usize) -> Result<()>
        requires { count ≤ (⟦<Self as Drawn>⟧.display self.old).layout.end.col }
        ensures { TakesBack ⟦<Self as Drawn>⟧ result self.old self.new count }
    {
        let columns = self.end_column();
        self.move_cursor(Position {
            row: self.drawn.layout.end.row,
            col: columns - count as Unit,
        })?;
        self.clear_behind(count)
    }

    // Returns the column of the kept end.
    fn end_column(&self) -> Unit
        ensures { result ≡ self.now.drawn.layout.end.col }
    {
        self.drawn.layout.end.col
    }

    // Takes away the last `count` characters of what is shown, which stand after the kept cursor.
    // The kept end moves there.
    fn clear_behind(&mut self, count: usize) -> Result<()>
        requires fits { count ≤ (⟦<Self as Drawn>⟧.display self.old).layout.end.col }
        requires placed { let layout = (⟦<Self as Drawn>⟧.display self.old).layout in
            layout.cursor ≡ columns_back count layout.end }
        ensures { TakesBack ⟦<Self as Drawn>⟧ result self.old self.new count }
    {
        let _columns = self.out.get_columns();
        let known = self.knows_end(count);
        let in_place = self.drawn.in_place;
        self.drawn.in_place = false;
        self.drawn.shows_plain = false;
        self.out.clear_to_eol()?;
        self.drawn.layout.end = self.drawn.layout.cursor;
        self.drawn.printable_at_end = self.drawn.printable_at_end.saturating_sub(count);
        self.drawn.in_place = in_place;
        self.drawn.shows_plain = known;
        Ok(())
    }

    /// Tells the person that nothing could be done. Nothing drawn changes.
    ///
    /// # Errors
    /// `Io` if the renderer fails, and `Memory` if memory runs out. The kept layout and what the
    /// screen shows then stay.
    pub fn beep(&mut self) -> Result<()>
        ensures display { let d = ⟦<Self as Drawn>⟧.display in d self.new ≡ d self.old }
        ensures beside { let d = ⟦<Self as Drawn>⟧ in
            BeepsAtMost (d.beside self.old) (d.beside self.new) }
        ensures part { DrawsNoneInFull ⟦<Self as Drawn>⟧ result self.old self.new }
    {
        self.out.beep()
    }

    /// Clears the whole screen, and moves the kept cursor and end to the first column of the first
    /// row. What is shown then is not specified: a full redraw is to follow.
    ///
    /// # Errors
    /// `Io` if the renderer fails, and `Memory` if memory runs out. The kept layout then stays.
    /// What the screen shows is not specified: a full redraw is to follow.
    pub fn clear_screen(&mut self) -> Result<()>
        ensures layout { let d = ⟦<Self as Drawn>⟧.display in
            OnOk result ((d self.new).layout ≡ cleared (d self.old).layout) }
        ensures err { let d = ⟦<Self as Drawn>⟧.display in
            OnErr result ((d self.new).layout ≡ (d self.old).layout) }
        ensures beside { let d = ⟦<Self as Drawn>⟧ in d.beside self.new ≡ d.beside self.old }
        ensures part { DrawsNoneInFull ⟦<Self as Drawn>⟧ result self.old self.new }
    {
        self.drawn.in_place = false;
        self.drawn.shows_plain = false;
        self.out.clear_screen()?;
        self.drawn.layout.cursor = Position { row: 0, col: 0 };
        self.drawn.layout.end = Position { row: 0, col: 0 };
        Ok(())
    }

    /// Moves the screen cursor to the first column, below what is there. What is shown then is not
    /// specified, and the kept layout stays.
    ///
    /// # Errors
    /// `Io` if the renderer fails, and `Memory` if memory runs out. The kept layout then stays.
    /// What the screen shows is not specified: a full redraw is to follow.
    pub fn move_cursor_at_leftmost(&mut self, rdr: &mut W::Reader) -> Result<()>
        ensures layout { let d = ⟦<Self as Drawn>⟧.display in
            (d self.new).layout ≡ (d self.old).layout }
        ensures beside { let d = ⟦<Self as Drawn>⟧ in d.beside self.new ≡ d.beside self.old }
        ensures part { DrawsNoneInFull ⟦<Self as Drawn>⟧ result self.old self.new }
    {
        self.drawn.in_place = false;
        self.drawn.shows_plain = false;
        self.out.move_cursor_at_leftmost(rdr)
    }

    /// Writes a text by itself below what is shown, from the first column on. What the screen shows
    /// then is not specified, and the kept layout stays: a full redraw is to follow, below the
    /// text.
    ///
    /// # Errors
    /// `Io` if the renderer fails, and `Memory` if memory runs out. The kept layout then stays. How
    /// much of the text was written, and what the screen shows, is not specified: a full redraw is
    /// to follow.
    pub fn write_above(&mut self, text: &str, rdr: &mut W::Reader) -> Result<()>
        ensures layout { let d = ⟦<Self as Drawn>⟧.display in
            (d self.new).layout ≡ (d self.old).layout }
        ensures beside { let d = ⟦<Self as Drawn>⟧ in
            WritesAtMost (d.beside self.old) (d.beside self.new) }
        ensures part { DrawsNoneInFull ⟦<Self as Drawn>⟧ result self.old self.new }
    {
        let in_place = self.drawn.in_place;
        self.drawn.in_place = false;
        self.drawn.shows_plain = false;
        if in_place {
            self.out
                .move_cursor(self.drawn.layout.cursor, self.drawn.layout.end)?;
        }
        self.out.move_cursor_at_leftmost(rdr)?;
        self.out.write_and_flush(text)
    }

    /// Returns whether colors are shown.
    pub fn colors_enabled(&self) -> bool
        ensures { result ≡ (⟦<Self as Drawn>⟧.display self.now).surface.colors }
    {
        self.out.colors_enabled()
    }

    /// Returns whether characters are highlighted that the next drawing has to show without their
    /// colors.
    pub fn highlight_char(&self) -> bool
        ensures { result ≡ (⟦<Self as Drawn>⟧.display self.now).lit }
    {
        self.drawn.highlight_char
    }

    /// Keeps whether characters are highlighted.
    pub fn set_highlight_char(&mut self, lit: bool)
        ensures display { let d = ⟦<Self as Drawn>⟧.display in
            d self.new ≡ record (d self.old) { lit = lit } }
        ensures stays { let d = ⟦<Self as Drawn>⟧ in (d.redraws self.new ≡ d.redraws self.old)
            × (d.failures self.new ≡ d.failures self.old) × (d.loan self.new ≡ d.loan self.old)
            × (d.beside self.new ≡ d.beside self.old) }
    {
        self.drawn.highlight_char = lit;
    }

    /// Returns the renderer, as the last drawing left it.
    pub fn out(&self) -> &W
        ensures surface { W.surface result.now ≡ (⟦<Self as Drawn>⟧.display self.now).surface }
        ensures screen { W.screen result.now ≡ (⟦<Self as Drawn>⟧.display self.now).screen }
        ensures redraws { W.redraws result.now ≡ ⟦<Self as Drawn>⟧.redraws self.now }
        ensures failures { W.failures result.now ≡ ⟦<Self as Drawn>⟧.failures self.now }
    {
        &*self.out
    }

    /// Returns the kept layout: where the prompt ends, and where the cursor and the end of what is
    /// shown are.
    pub fn layout(&self) -> &Layout
        ensures { result.now ≡ (⟦<Self as Drawn>⟧.display self.now).layout }
    {
        &self.drawn.layout
    }
}

impl<'out, 'prompt, W: Resizable, P: Prompt> View<'out, 'prompt, W, P> {
    /// Gives the screen another number of columns and of rows, measures the prompt anew, and draws
    /// the line in full after it, with `info` after the line, if there is one. The rows of the kept
    /// layout are cleared. Pass a highlighter only where colors are shown.
    ///
    /// # Errors
    /// `Io` if the renderer fails, and `Memory` if memory runs out. Columns and rows are then the
    /// new ones, and the prompt is measured anew. The kept layout is still that of the old columns.
    /// What the screen shows is not specified: a full redraw is to follow.
    pub fn resized<H: Highlighter>(
        &mut self,
        columns: Unit,
        rows: Unit,
        line: &LineBuffer,
        info: Option<&str>,
        highlighter: Option<&H>,
    ) -> Result<()>
        requires columns { 0 < columns }
        requires colors { ColorsAreOn ⟦<Self as Drawn>⟧ self.old (is_some highlighter) }
        ensures { DrawsResized ⟦<Self as Drawn>⟧ result self.old self.new columns rows
            line.now (option_map (λ s. s.now) info.entry) }
    {
        self.resize(columns, rows);
        self.refresh_line(line, info, highlighter)
    }

    // Gives the screen another number of columns and of rows, and measures the prompt anew. Nothing
    // is drawn.
    fn resize(&mut self, columns: Unit, rows: Unit)
        requires { 0 < columns }
        ensures surface { let d = ⟦<Self as Drawn>⟧.display in
            ResizesTo columns rows (d self.old).surface (d self.new).surface }
        ensures prompt_end { let d = ⟦<Self as Drawn>⟧.display self.new in
            d.prompt_end ≡ d.surface.measure d.prompt corner }
        ensures display { let d = ⟦<Self as Drawn>⟧.display in d self.new ≡ record (d self.old) {
          surface = (d self.new).surface;
          prompt_end = (d self.new).prompt_end;
          screen = (d self.new).screen;
        } }
        ensures beside { let d = ⟦<Self as Drawn>⟧ in d.beside self.new ≡ d.beside self.old }
        ensures redraws { let d = ⟦<Self as Drawn>⟧ in d.redraws self.new ≡ d.redraws self.old }
        ensures failures { let d = ⟦<Self as Drawn>⟧ in d.failures self.new ≡ d.failures self.old }
        ensures loan { let d = ⟦<Self as Drawn>⟧ in d.loan self.new ≡ d.loan self.old }
    {
        self.drawn.shows_plain = false;
        self.out.resize(columns, rows);
        let corner = Position { row: 0, col: 0 };
        self.drawn.prompt_size = self.out.calculate_position(self.prompt.raw(), corner);
    }
}
