//! A screen that is drawn by writing bytes to a terminal.
ghost use Rattle.std.specs.Prelude.{◌≡◌, nat_lt, ℕ, ◌<◌, ◌&&◌, ◌++◌, List, length, [], ◌∷◌, true, false, not, OnOk, OnErr, is_some, option_map, string_bytes, if◌then◌else◌, None};
ghost use Rattle.std.specs.List.{list_all};
ghost use Rattle.std.specs.Io.KnownBytes.{Appends};
ghost use Rattle.line_config.specs.Error.{FaultsOnly, IsOneMore};
ghost use Rattle.line_buffer.specs.Printable.{is_plain, is_printable};
ghost use Rattle.line_buffer.specs.declared.layout.GraphemeClusterMode.TheVariants.{Unicode};
ghost use Rattle.line_keys.specs.Model.Display.{KeepsShown, uncounted};
ghost use Rattle.line_state.specs.ScreenState.{Agrees, BeepsAtMost, DrawsNoLine, EndsBehind, HasRoom, HoldsAtMost, Tries, WritesAtMost, shown_by, with_shown};
ghost use Rattle.line_screen.specs.Measure.{measured};
ghost use Rattle.line_term.specs.Drawn.{cleaned};
ghost use Rattle.line_term.specs.Escape.{bell, clear_all, clear_from, clear_row, hold, move_bytes, row_break, paste_marked, paste_typed, release};
ghost use Rattle.line_term.specs.Output.{ResizesScreen, StaysWith, unknown_screen, WritesBytes, WritesAside, WritesPart, WritesSome, holds_back};
ghost use Rattle.line_term.specs.Painted.{AppendsSome, Draws, RedrawsInFull, asked, wrap};
ghost use Rattle.line_term.specs.Shown.{EndsInRows, IsOnTerminal, TellsKnown};

use crate::drawn::push_cleaned;
use crate::escape::push_move;
use crate::output::{counted, send, send_if};
use crate::output_state::Output;
use crate::painted::{ORIGIN, asked, push_clear_from};
use crate::parts::{follows, goes_on_in_row, rest_of_row};
use crate::redraw::{Handed, push_redraw};
use crate::wrap::push_wrap;
use line_buffer::{GraphemeClusterMode, Layout, LineBuffer, Position, Unit, is_plain_text};
use line_config::{Prompt, Result};
use line_keys::raw_reader::RawReader;
use line_parts::Highlighter;
use line_screen::Plain;
use line_state::{Renderer, Resizable, ScreenState};
use std::alloc::Global;
use std::io::Write;
use std::mem;

/// A terminal that understands the usual control sequences, drawn by writing to `O`. What is to be
/// shown is kept as `Plain` keeps it, with its measure; each call writes what changes, in one
/// piece, and flushes it. After a text that fills a row exactly, by a layout of its own, a new row
/// is begun, so that the cursor does not wait at a row's end between two calls.
pub struct Ansi<O: Write + Drop, R: RawReader> {
    alloc: Global,
    out: O,
    shown: Plain<R>,
    // The bytes of the call that is under way. Their memory is kept.
    bytes: String,
    colors: bool,
    synchronized: bool,
    // Whether the terminal was asked to hold back what is written.
    held: bool,
    // Where what is shown ends, by the layout of the last full redraw, and what was drawn in part
    // since.
    end: Position,
    // Whether all of this was written, and the cursor moved from where it stood.
    whole: bool,
    // Whether the text is printable ASCII and newlines.
    plain: bool,
    redraws: u64,
    failures: u64,
    ghost text_is_plain: { plain ≡ list_all is_plain (string_bytes shown.text) },
    // Where it is known, by `whole` and `end`, that the terminal shows what is kept of the screen,
    // the bytes that were written show it.
    ghost told: { TellsKnown O.contents shown.columns whole end out (record {
      position = shown.place;
      prompt = string_bytes shown.prompt;
      text = string_bytes shown.text;
      origin = shown.origin;
      behind = option_map string_bytes shown.hint;
      known = true;
    }) },
}

impl<O: Write + Drop, R: RawReader> Drop for Ansi<O, R> {
    fn drop(self) {
        let Ansi {
            alloc: _,
            out: _,
            shown: _,
            bytes: _,
            colors: _,
            synchronized: _,
            held: _,
            end: _,
            whole: _,
            plain: _,
            redraws: _,
            failures: _,
        } = self;
    }
}

impl<O: Write + Drop, R: RawReader> ScreenState for Ansi<O, R> {
    ghost use Rattle.line_keys.specs.Model.Display.{uncounted};
    ghost use Rattle.line_term.specs.Shown.{known_screen};

    ghost surface = { λ a. record (⟦<Plain<R> as ScreenState>⟧.surface a.shown) {
      colors = a.colors;
    } };

    ghost screen = { λ a. known_screen (⟦<Plain<R> as ScreenState>⟧.surface a.shown).columns
        a.whole a.end (⟦<Plain<R> as ScreenState>⟧.screen a.shown) };

    ghost beside = { λ a. record uncounted { held = a.held } };

    ghost redraws = { λ a. a.redraws };

    ghost failures = { λ a. a.failures };
}

impl<O: Write + Drop, R: RawReader> Output for Ansi<O, R> {
    ghost written = { λ a. O.contents a.out };

    ghost synchronized = { λ a. a.synchronized };
}

impl<O: Write + Drop, R: RawReader> Ansi<O, R> {
    /// Returns a terminal of so many columns and of 24 rows. What it shows is not known: a full
    /// redraw is to follow, which begins at the first column of the cursor's row and clears what
    /// stands there and below. `colors` says whether highlighters are asked, and `synchronized`
    /// whether a full redraw is shown all at once.
    pub fn new(alloc: Global, out: O, columns: Unit, colors: bool, synchronized: bool) -> Self
        requires { 0 < columns }
        ensures surface { ⟦<Self as ScreenState>⟧.surface result
            ≡ record {
              measure = measured columns;
              columns = columns;
              rows = 24;
              colors = colors;
              mode = Unicode;
            } }
        ensures screen { ⟦<Self as ScreenState>⟧.screen result ≡ unknown_screen }
        ensures beside { ⟦<Self as ScreenState>⟧.beside result ≡ uncounted }
        ensures redraws { ⟦<Self as ScreenState>⟧.redraws result ≡ 0 }
        ensures failures { ⟦<Self as ScreenState>⟧.failures result ≡ 0 }
        ensures written { ⟦<Self as Output>⟧.written result ≡ O.contents out }
        ensures synchronized { ⟦<Self as Output>⟧.synchronized result ≡ synchronized }
    {
        Ansi {
            alloc,
            out,
            shown: Plain::new(alloc, columns),
            bytes: String::new(alloc),
            colors,
            synchronized,
            held: false,
            end: ORIGIN,
            whole: false,
            plain: true,
            redraws: 0,
            failures: 0,
        }
    }

    /// Returns what is written to. Where it is known what the screen shows, and the drawing ends
    /// above row 65535, the bytes that were written end in some that show it on each terminal that
    /// is ready for them.
    pub fn out(&self) -> &O
        ensures written { O.contents result.now ≡ ⟦<Self as Output>⟧.written self.now }
        ensures shown { let screen = ⟦<Self as ScreenState>⟧.screen self.now in
            let surface = ⟦<Self as ScreenState>⟧.surface self.now in
            screen.known ≡ true → EndsInRows surface.measure screen
            → IsOnTerminal O.contents surface.columns result.now screen }
    {
        &self.out
    }

    /// Writes to `out` from now on. Returns what was written to before, which shows what `out`
    /// says. A full redraw is to follow.
    pub fn replace_out(&mut self, out: O) -> O
        ensures before { O.contents result ≡ ⟦<Self as Output>⟧.written self.old }
        ensures shown { let screen = ⟦<Self as ScreenState>⟧.screen self.old in
            let surface = ⟦<Self as ScreenState>⟧.surface self.old in
            screen.known ≡ true → EndsInRows surface.measure screen
            → IsOnTerminal O.contents surface.columns result screen }
        ensures written { ⟦<Self as Output>⟧.written self.new ≡ O.contents out }
        ensures stays { StaysWith ⟦<Self as ScreenState>⟧ ⟦<Self as Output>⟧ self.old self.new
            (record (⟦<Self as ScreenState>⟧.screen self.old) { known = false }) }
    {
        self.whole = false;
        mem::replace(&mut self.out, out)
    }

    /// Writes to `out` from now on, whose bytes go to the same terminal. Returns what was written
    /// to before. It is for an output that is emptied now and then, of whose bytes no contract
    /// speaks.
    pub fn exchange_out(&mut self, out: O) -> O
        requires { (any : O) → O.contents any ≡ None }
        ensures stays { StaysWith ⟦<Self as ScreenState>⟧ ⟦<Self as Output>⟧ self.old self.new
            (⟦<Self as ScreenState>⟧.screen self.old) }
    {
        mem::replace(&mut self.out, out)
    }

    /// Returns what is written to, and forgets what is shown.
    pub fn into_out(self) -> O
        ensures { O.contents result ≡ ⟦<Self as Output>⟧.written self }
    {
        let Ansi {
            alloc: _,
            out,
            shown: _,
            bytes: _,
            colors: _,
            synchronized: _,
            held: _,
            end: _,
            whole: _,
            plain: _,
            redraws: _,
            failures: _,
        } = self;
        out
    }

    /// Asks the terminal to put marks round a text that is pasted.
    ///
    /// # Errors
    /// `Io` if the output fails. What is kept of the screen then stays, but may no longer be what
    /// the terminal shows: a full redraw is to follow.
    pub fn enable_bracketed_paste(&mut self) -> Result<()>
        ensures writes { WritesAside ⟦<Self as ScreenState>⟧ ⟦<Self as Output>⟧ result
            self.old self.new paste_marked }
        ensures beside { ⟦<Self as ScreenState>⟧.beside self.new
            ≡ ⟦<Self as ScreenState>⟧.beside self.old }
    {
        send(
            &mut self.out,
            b"\x1b[?2004h",
            &mut self.whole,
            &mut self.failures,
        )
    }

    /// Asks the terminal to hand on a pasted text as if it were typed.
    ///
    /// # Errors
    /// `Io` if the output fails. What is kept of the screen then stays, but may no longer be what
    /// the terminal shows: a full redraw is to follow.
    pub fn disable_bracketed_paste(&mut self) -> Result<()>
        ensures writes { WritesAside ⟦<Self as ScreenState>⟧ ⟦<Self as Output>⟧ result
            self.old self.new paste_typed }
        ensures beside { ⟦<Self as ScreenState>⟧.beside self.new
            ≡ ⟦<Self as ScreenState>⟧.beside self.old }
    {
        send(
            &mut self.out,
            b"\x1b[?2004l",
            &mut self.whole,
            &mut self.failures,
        )
    }
}

impl<O: Write + Drop, R: RawReader> Renderer for Ansi<O, R> {
    type Reader = R;

    ghost use Rattle.line_screen.specs.MeasureLaws as laws;

    /// Moves the cursor from `old`, where it stands, to `new`.
    ///
    /// # Errors
    /// `Io` if the output fails: a beginning of the bytes may then have been written. What is kept
    /// of the screen stays, and a full redraw is to follow. `Memory` if memory runs out: nothing is
    /// then written, and what is shown stays.
    fn move_cursor(&mut self, old: Position, new: Position) -> Result<()>
        ensures moved { OnOk result ((⟦<Self as ScreenState>⟧.screen self.new).position ≡ new) }
        ensures known { (⟦<Self as ScreenState>⟧.screen self.old).position ≡ old
            → OnOk result ((⟦<Self as ScreenState>⟧.screen self.new).known
            ≡ (⟦<Self as ScreenState>⟧.screen self.old).known) }
        ensures shown { KeepsShown (⟦<Self as ScreenState>⟧.screen self.old)
            (⟦<Self as ScreenState>⟧.screen self.new) }
        ensures writes { WritesPart ⟦<Self as ScreenState>⟧ ⟦<Self as Output>⟧ result
            self.old self.new (move_bytes old new) }
    {
        self.bytes.clear();
        push_move(&mut self.bytes, old, new)?;
        self.whole &= self.shown.cursor() == old;
        send(
            &mut self.out,
            self.bytes.as_bytes(),
            &mut self.whole,
            &mut self.failures,
        )?;
        self.shown.move_cursor(old, new)
    }

    /// Writes a full redraw. A highlighter is asked where colors are shown.
    ///
    /// # Errors
    /// `Io` if the output or the highlighter fails: what is shown is then not known, and a full
    /// redraw is to follow. `Memory` if memory runs out: nothing is then written, and what is shown
    /// stays. The count of full redraws stays after both.
    fn refresh_line<P: Prompt, H: Highlighter>(
        &mut self,
        prompt: &P,
        line: &LineBuffer,
        hint: Option<&str>,
        old_layout: Option<&Layout>,
        new_layout: &Layout,
        highlighter: Option<&H>,
    ) -> Result<()>
        ensures shown { Agrees (⟦<Self as ScreenState>⟧.surface self.old)
            (⟦<Self as ScreenState>⟧.screen self.old)
            (P.raw_text prompt.now) line.now (option_map (λ s. s.now) hint.entry)
            (option_map (λ l. l.now) old_layout.entry) new_layout.now (is_some highlighter.entry)
            → OnOk result (⟦<Self as ScreenState>⟧.screen self.new
            ≡ shown_by new_layout.now (P.raw_text prompt.now) line.now
            (option_map (λ s. s.now) hint.entry)) }
        ensures redraws { OnOk result (IsOneMore (⟦<Self as ScreenState>⟧.redraws self.old)
            (⟦<Self as ScreenState>⟧.redraws self.new)) }
        ensures uncounted { OnErr result (⟦<Self as ScreenState>⟧.redraws self.new
            ≡ ⟦<Self as ScreenState>⟧.redraws self.old) }
        ensures beside { ⟦<Self as ScreenState>⟧.beside self.new
            ≡ ⟦<Self as ScreenState>⟧.beside self.old }
        ensures tries { Tries ⟦<Self as ScreenState>⟧ result self.old self.new }
        ensures writes { WritesSome ⟦<Self as ScreenState>⟧ ⟦<Self as Output>⟧ result
            self.old self.new (RedrawsInFull P.Prompt H.Highlighter
            (⟦<Self as ScreenState>⟧.surface self.old).measure
            (holds_back ⟦<Self as ScreenState>⟧ ⟦<Self as Output>⟧ self.old)
            (option_map (λ l. l.now) old_layout.entry) (record {
              prompt = prompt.now;
              line = line.now;
              behind = option_map (λ s. s.now) hint.entry;
              layout = new_layout.now;
              highlighter = asked (⟦<Self as ScreenState>⟧.surface self.old).colors
                  (option_map (λ h. h.now) highlighter.entry);
            })) }
    {
        self.bytes.clear();
        let at_once = self.synchronized & !self.held;
        let handed = Handed {
            prompt,
            line,
            behind: hint,
            layout: new_layout,
            highlighter: asked(self.colors, highlighter),
        };
        let drawn = push_redraw(
            &mut self.bytes,
            self.alloc,
            &self.shown,
            at_once,
            old_layout,
            handed,
        );
        counted(&mut self.failures, drawn)?;
        self.shown
            .refresh_line(prompt, line, hint, old_layout, new_layout, None::<&()>)?;
        self.plain = is_plain_text(line.as_str());
        send(
            &mut self.out,
            self.bytes.as_bytes(),
            &mut self.whole,
            &mut self.failures,
        )?;
        self.end = new_layout.end;
        self.whole = true;
        self.redraws = self.redraws.saturating_add(1);
        Ok(())
    }

    fn compute_layout(
        &self,
        prompt_size: Position,
        default_prompt: bool,
        line: &LineBuffer,
        info: Option<&str>,
    ) -> Layout {
        self.shown
            .compute_layout(prompt_size, default_prompt, line, info)
    }

    fn calculate_position(&self, s: &str, orig: Position) -> Position {
        self.shown.calculate_position(s, orig)
    }

    /// Writes a text without colors at the cursor, which goes to its end.
    ///
    /// # Errors
    /// `Io` if the output fails: what is shown is then not known, and a full redraw is to follow.
    /// `Memory` if memory runs out: nothing is then written, and what is shown stays.
    fn write_and_flush(&mut self, buf: &str) -> Result<()>
        ensures shown { (c : ℕ) → buf.now ≡ c ∷ [] → is_printable c ≡ true
            → HasRoom (⟦<Self as ScreenState>⟧.surface self.old)
            (⟦<Self as ScreenState>⟧.screen self.old)
            → OnOk result (⟦<Self as ScreenState>⟧.screen self.new
            ≡ with_shown (⟦<Self as ScreenState>⟧.screen self.old) c) }
        ensures written { let screen = ⟦<Self as ScreenState>⟧.screen self.old in
            OnOk result (⟦<Self as ScreenState>⟧.screen self.new ≡ record screen {
              position = (⟦<Self as ScreenState>⟧.surface self.old).measure buf.now screen.position;
              text = screen.text ++ buf.now;
              known = (⟦<Self as ScreenState>⟧.screen self.new).known;
            }) }
        ensures beside { WritesAtMost (⟦<Self as ScreenState>⟧.beside self.old)
            (⟦<Self as ScreenState>⟧.beside self.new) }
        ensures part { DrawsNoLine ⟦<Self as ScreenState>⟧ result self.old self.new }
        ensures writes { WritesBytes ⟦<Self as ScreenState>⟧ ⟦<Self as Output>⟧ result
            self.old self.new (cleaned buf.now
            ++ wrap (⟦<Self as ScreenState>⟧.surface self.old).measure buf.now
            (⟦<Self as ScreenState>⟧.screen self.old).position) }
    {
        if self.plain && goes_on_in_row(&self.shown, self.end, buf) {
            self.shown.write_and_flush(buf)?;
            self.end = self.shown.cursor();
            return send(
                &mut self.out,
                buf.as_bytes(),
                &mut self.whole,
                &mut self.failures,
            );
        }
        self.bytes.clear();
        push_cleaned(&mut self.bytes, buf)?;
        let place = self.shown.cursor();
        let end = self.shown.calculate_position(buf, place);
        push_wrap(&mut self.bytes, self.alloc, &self.shown, buf, place, end)?;
        let follows = self.plain & follows(&self.shown, self.end, buf);
        self.shown.write_and_flush(buf)?;
        self.plain &= is_plain_text(buf);
        self.whole &= follows;
        self.end = end;
        send(
            &mut self.out,
            self.bytes.as_bytes(),
            &mut self.whole,
            &mut self.failures,
        )?;
        Ok(())
    }

    fn beep(&mut self) -> Result<()>
        ensures screen { ⟦<Self as ScreenState>⟧.screen self.new
            ≡ ⟦<Self as ScreenState>⟧.screen self.old }
        ensures beside { BeepsAtMost (⟦<Self as ScreenState>⟧.beside self.old)
            (⟦<Self as ScreenState>⟧.beside self.new) }
        ensures writes { WritesAside ⟦<Self as ScreenState>⟧ ⟦<Self as Output>⟧ result
            self.old self.new bell }
    {
        // A bell is one byte: no part of it can be left out.
        let mut whole = self.whole;
        send(&mut self.out, b"\x07", &mut whole, &mut self.failures)
    }

    /// Clears the whole screen. The cursor goes to its first place.
    fn clear_screen(&mut self) -> Result<()>
        ensures cleared { OnOk result (⟦<Self as ScreenState>⟧.screen self.new ≡ unknown_screen) }
        ensures writes { WritesPart ⟦<Self as ScreenState>⟧ ⟦<Self as Output>⟧ result
            self.old self.new clear_all }
    {
        self.whole = false;
        send(
            &mut self.out,
            b"\x1b[H\x1b[J",
            &mut self.whole,
            &mut self.failures,
        )?;
        self.plain = true;
        self.shown.clear_screen()
    }

    /// Clears the rows of a drawn layout, from its first one. The cursor goes there.
    fn clear_rows(&mut self, layout: &Layout) -> Result<()>
        ensures cleared { OnOk result (⟦<Self as ScreenState>⟧.screen self.new ≡ unknown_screen) }
        ensures writes { WritesPart ⟦<Self as ScreenState>⟧ ⟦<Self as Output>⟧ result
            self.old self.new (clear_from layout.now.cursor) }
    {
        self.bytes.clear();
        push_clear_from(&mut self.bytes, layout.cursor)?;
        self.whole = false;
        send(
            &mut self.out,
            self.bytes.as_bytes(),
            &mut self.whole,
            &mut self.failures,
        )?;
        self.plain = true;
        self.shown.clear_rows(layout)
    }

    fn clear_to_eol(&mut self) -> Result<()>
        ensures position { (⟦<Self as ScreenState>⟧.screen self.new).position
            ≡ (⟦<Self as ScreenState>⟧.screen self.old).position }
        ensures cleared { (kept gone : List ℕ)
            → (⟦<Self as ScreenState>⟧.screen self.old).text ≡ kept ++ gone
            → list_all is_printable gone ≡ true
            → EndsBehind (⟦<Self as ScreenState>⟧.surface self.old)
            (⟦<Self as ScreenState>⟧.screen self.old) (length gone)
            → OnOk result (⟦<Self as ScreenState>⟧.screen self.new
            ≡ record (⟦<Self as ScreenState>⟧.screen self.old) { text = kept }) }
        ensures writes { WritesPart ⟦<Self as ScreenState>⟧ ⟦<Self as Output>⟧ result
            self.old self.new clear_row }
    {
        let rest = rest_of_row(&self.shown, self.end);
        let length = self.shown.text().len();
        send(
            &mut self.out,
            b"\x1b[K",
            &mut self.whole,
            &mut self.failures,
        )?;
        self.shown.clear_to_eol()?;
        let gone = length.saturating_sub(self.shown.text().len());
        self.whole &= self.plain & (rest == Some(gone));
        self.plain = is_plain_text(self.shown.text());
        self.end = self.shown.cursor();
        Ok(())
    }

    fn update_size(&mut self)
        ensures { self.new ≡ self.old }
    {}

    fn get_columns(&self) -> Unit {
        self.shown.get_columns()
    }

    fn get_rows(&self) -> Unit {
        self.shown.get_rows()
    }

    fn colors_enabled(&self) -> bool {
        self.colors
    }

    fn grapheme_cluster_mode(&self) -> GraphemeClusterMode {
        self.shown.grapheme_cluster_mode()
    }

    /// Takes the cursor to the first column: of a new row, unless it stands there already. What
    /// stands there is not known then. The reader is not asked.
    fn move_cursor_at_leftmost(&mut self, rdr: &mut R) -> Result<()>
        ensures cleared { OnOk result (⟦<Self as ScreenState>⟧.screen self.new ≡ unknown_screen) }
        ensures writes { WritesPart ⟦<Self as ScreenState>⟧ ⟦<Self as Output>⟧ result
            self.old self.new
            (if nat_lt 0 (⟦<Self as ScreenState>⟧.screen self.old).position.col then row_break
            else []) }
        ensures reader { rdr.new ≡ rdr.old }
    {
        let _ = rdr;
        let is_behind = self.shown.cursor().col > 0;
        self.whole = false;
        send_if(
            &mut self.out,
            is_behind,
            b"\r\n",
            &mut self.whole,
            &mut self.failures,
        )?;
        self.plain = true;
        self.shown.clear_screen()
    }

    /// Asks the terminal to hold back what is written, where full redraws are to be shown all at
    /// once.
    fn begin_synchronized_update(&mut self) -> Result<()>
        ensures beside { HoldsAtMost (⟦<Self as ScreenState>⟧.beside self.old)
            (⟦<Self as ScreenState>⟧.beside self.new) }
        ensures held { OnOk result ((⟦<Self as ScreenState>⟧.beside self.new).held
            ≡ ⟦<Self as Output>⟧.synchronized self.old) }
        ensures failed { OnErr result (⟦<Self as ScreenState>⟧.beside self.new
            ≡ ⟦<Self as ScreenState>⟧.beside self.old) }
        ensures writes { WritesAside ⟦<Self as ScreenState>⟧ ⟦<Self as Output>⟧ result
            self.old self.new (if ⟦<Self as Output>⟧.synchronized self.old then hold else []) }
    {
        send_if(
            &mut self.out,
            self.synchronized,
            b"\x1b[?2026h",
            &mut self.whole,
            &mut self.failures,
        )?;
        self.held = self.synchronized;
        Ok(())
    }

    /// Asks the terminal to show what it held back.
    fn end_synchronized_update(&mut self) -> Result<()>
        ensures beside { HoldsAtMost (⟦<Self as ScreenState>⟧.beside self.old)
            (⟦<Self as ScreenState>⟧.beside self.new) }
        ensures held { OnOk result ((⟦<Self as ScreenState>⟧.beside self.new).held ≡ false) }
        ensures failed { OnErr result (⟦<Self as ScreenState>⟧.beside self.new
            ≡ ⟦<Self as ScreenState>⟧.beside self.old) }
        ensures writes { WritesAside ⟦<Self as ScreenState>⟧ ⟦<Self as Output>⟧ result
            self.old self.new (if ⟦<Self as Output>⟧.synchronized self.old then release else []) }
    {
        send_if(
            &mut self.out,
            self.synchronized,
            b"\x1b[?2026l",
            &mut self.whole,
            &mut self.failures,
        )?;
        self.held = false;
        Ok(())
    }

    ghost column_below = { λ a. laws.measured-below a.shown.columns };

    ghost one_column = { λ a. laws.measured-push a.shown.columns };
}

impl<O: Write + Drop, R: RawReader> Resizable for Ansi<O, R> {
    fn resize(&mut self, columns: Unit, rows: Unit)
        requires { 0 < columns }
        ensures { ResizesScreen ⟦<Self as ScreenState>⟧ ⟦<Self as Output>⟧ self.old self.new
            columns rows }
    {
        self.whole = false;
        self.shown.resize(columns, rows);
    }
}
