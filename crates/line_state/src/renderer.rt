//! What draws the prompt, the line and the cursor.
ghost use Rattle.std.specs.Prelude.{◌≡◌, ℕ, ◌+◌, ◌<◌, List, [], ◌∷◌, ◌++◌, length, true, Option, is_some, option_map, OnOk};
ghost use Rattle.std.specs.List.{list_all};
ghost use Rattle.line_config.specs.Error.{IsOneMore};
ghost use Rattle.line_buffer.specs.Printable.{is_plain, is_printable};
ghost use Rattle.line_buffer.specs.declared.layout.Position.{Position};
ghost use Rattle.line_keys.specs.Model.Display.{IsFullRedraw, KeepsShown, next_column};
ghost use Rattle.line_state.specs.ScreenState.{Agrees, BeepsAtMost, DrawsNoLine, DrawsPart, EndsBehind, HasRoom, HoldsAtMost, Tries, WritesAtMost, shown_by, with_shown};

use crate::screen_state::ScreenState;
use line_buffer::{GraphemeClusterMode, Layout, LineBuffer, Position, Unit};
use line_config::{Prompt, Result};
use line_keys::raw_reader::RawReader;
use line_parts::Highlighter;

/// Draws the prompt, the line and the cursor, and says where a text ends.
///
/// A `refresh_line` that succeeds raises the count of full redraws by one; one that fails may leave
/// any count. No other call changes it. A beep, a text that `write_and_flush` writes, and a
/// synchronized update are what a renderer does beside drawing; each call says which of them it may
/// do.
///
/// # Errors
/// `Io` if input or output fails, and the count of failures has then risen, if it was not at its
/// greatest value. `Memory` if memory runs out, and that count then stays. Columns, rows, colors
/// and how texts are measured stay in any case. What the screen shows after an error is specified
/// only where the call says so.
pub trait Renderer: ScreenState {
    /// What reads the keys of this terminal.
    type Reader: RawReader;

    /// Moves the screen cursor from `old`, where it stands, to `new`.
    fn move_cursor(&mut self, old: Position, new: Position) -> Result<()>
        ensures moved { (Self.screen self.old).position ≡ old
            → OnOk result ((Self.screen self.new).position ≡ new) }
        ensures known { (Self.screen self.old).position ≡ old
            → OnOk result ((Self.screen self.new).known ≡ (Self.screen self.old).known) }
        ensures shown { KeepsShown (Self.screen self.old) (Self.screen self.new) }
        ensures part { DrawsPart Self.ScreenState result self.old self.new };

    /// Draws the prompt, the line and the text after it in full. That text, `hint`, is a hint or a
    /// validation message.
    ///
    /// These are then known to be shown, with the cursor where `new_layout` has it, if what is
    /// handed over agrees: the prompt ends at the prompt end of `new_layout`, which is the layout
    /// of a full redraw; the cursor of `old_layout` is the screen cursor; and a highlighter is
    /// passed only where colors are shown. `old_layout` says which rows were drawn before, if any
    /// were.
    fn refresh_line<P: Prompt, H: Highlighter>(
        &mut self,
        prompt: &P,
        line: &LineBuffer,
        hint: Option<&str>,
        old_layout: Option<&Layout>,
        new_layout: &Layout,
        highlighter: Option<&H>,
    ) -> Result<()>
        ensures shown { Agrees (Self.surface self.old) (Self.screen self.old)
            (P.raw_text prompt.now) line.now (option_map (λ s. s.now) hint.entry)
            (option_map (λ l. l.now) old_layout.entry) new_layout.now (is_some highlighter.entry)
            → OnOk result (Self.screen self.new ≡ shown_by new_layout.now
            (P.raw_text prompt.now) line.now (option_map (λ s. s.now) hint.entry)) }
        ensures redraws { OnOk result (IsOneMore (Self.redraws self.old) (Self.redraws self.new)) }
        ensures beside { Self.beside self.new ≡ Self.beside self.old }
        ensures tries { Tries Self.ScreenState result self.old self.new };

    /// Returns the layout of a full redraw, with each position measured from scratch.
    fn compute_layout(
        &self,
        prompt_size: Position,
        default_prompt: bool,
        line: &LineBuffer,
        info: Option<&str>,
    ) -> Layout
        ensures full { IsFullRedraw (Self.surface self.now) prompt_size line.now
            (option_map (λ s. s.now) info.entry) result }
        ensures prompt { result.default_prompt ≡ default_prompt }
    {
        let text = line.as_str();
        let cursor = self.calculate_position(&text[..line.pos()], prompt_size);
        let mut end = self.calculate_position(text, prompt_size);
        if let Some(info) = info {
            end = self.calculate_position(info, end);
        }
        Layout {
            grapheme_cluster_mode: self.grapheme_cluster_mode(),
            prompt_size,
            default_prompt,
            cursor,
            end,
            has_info: info.is_some(),
        }
    }

    /// Returns the position where `s` ends, which begins at `orig`.
    fn calculate_position(&self, s: &str, orig: Position) -> Position
        ensures { result ≡ (Self.surface self.now).measure s.now orig };

    /// Writes a text where the cursor stands. Where that is the end of the shown text, which is
    /// printable ASCII and newlines with nothing after it, a column is free there, and the text is
    /// one printable ASCII character, the character is shown and the cursor moves one column on.
    fn write_and_flush(&mut self, buf: &str) -> Result<()>
        ensures shown { (c : ℕ) → buf.now ≡ c ∷ [] → is_printable c ≡ true
            → HasRoom (Self.surface self.old) (Self.screen self.old)
            → OnOk result (Self.screen self.new ≡ with_shown (Self.screen self.old) c) }
        ensures beside { WritesAtMost (Self.beside self.old) (Self.beside self.new) }
        ensures part { DrawsNoLine Self.ScreenState result self.old self.new };

    /// Tells the person that nothing could be done. Nothing shown changes.
    fn beep(&mut self) -> Result<()>
        ensures screen { Self.screen self.new ≡ Self.screen self.old }
        ensures beside { BeepsAtMost (Self.beside self.old) (Self.beside self.new) }
        ensures part { DrawsNoLine Self.ScreenState result self.old self.new };

    /// Clears the whole screen. What is shown then is not specified: a full redraw is to follow.
    fn clear_screen(&mut self) -> Result<()>
        ensures part { DrawsPart Self.ScreenState result self.old self.new };

    /// Clears the rows of a drawn layout. What is shown then is not specified: a full redraw is to
    /// follow.
    fn clear_rows(&mut self, layout: &Layout) -> Result<()>
        ensures part { DrawsPart Self.ScreenState result self.old self.new };

    /// Clears the rest of the cursor's row. Where the shown text is printable ASCII and newlines
    /// with nothing after it, and ends on that row, the part of it from the cursor on is taken
    /// away.
    fn clear_to_eol(&mut self) -> Result<()>
        ensures position { (Self.screen self.new).position ≡ (Self.screen self.old).position }
        ensures cleared { (kept gone : List ℕ) → (Self.screen self.old).text ≡ kept ++ gone
            → list_all is_printable gone ≡ true
            → EndsBehind (Self.surface self.old) (Self.screen self.old) (length gone)
            → OnOk result (Self.screen self.new ≡ record (Self.screen self.old) { text = kept }) }
        ensures part { DrawsPart Self.ScreenState result self.old self.new };

    /// Asks the terminal for its size again. Columns and rows stay what they were: `Resizable` sets
    /// others.
    fn update_size(&mut self)
        ensures screen { Self.screen self.new ≡ Self.screen self.old }
        ensures surface { Self.surface self.new ≡ Self.surface self.old }
        ensures beside { Self.beside self.new ≡ Self.beside self.old }
        ensures redraws { Self.redraws self.new ≡ Self.redraws self.old }
        ensures failures { Self.failures self.new ≡ Self.failures self.old };

    /// Returns how many columns a row has, at least one.
    fn get_columns(&self) -> Unit
        ensures value { result ≡ (Self.surface self.now).columns }
        ensures positive { 0 < result };

    /// Returns how many rows the terminal has.
    fn get_rows(&self) -> Unit
        ensures { result ≡ (Self.surface self.now).rows };

    /// Returns whether colors are shown.
    fn colors_enabled(&self) -> bool
        ensures { result ≡ (Self.surface self.now).colors };

    /// Returns how the columns of clusters are counted.
    fn grapheme_cluster_mode(&self) -> GraphemeClusterMode
        ensures { result ≡ (Self.surface self.now).mode };

    /// Takes the cursor to the first column, below what is there. What is shown then is not
    /// specified.
    fn move_cursor_at_leftmost(&mut self, rdr: &mut Self::Reader) -> Result<()>
        ensures part { DrawsPart Self.ScreenState result self.old self.new };

    /// What is drawn from here on may be held back. What is shown stays; after an error it may no
    /// longer be known.
    fn begin_synchronized_update(&mut self) -> Result<()>
        ensures screen { OnOk result (Self.screen self.new ≡ Self.screen self.old) }
        ensures position { (Self.screen self.new).position ≡ (Self.screen self.old).position }
        ensures shown { KeepsShown (Self.screen self.old) (Self.screen self.new) }
        ensures beside { HoldsAtMost (Self.beside self.old) (Self.beside self.new) }
        ensures part { DrawsNoLine Self.ScreenState result self.old self.new }
    {
        // Nothing is held back.
        Ok(())
    }

    /// What was held back is shown, and stays; after an error it may no longer be known.
    fn end_synchronized_update(&mut self) -> Result<()>
        ensures screen { OnOk result (Self.screen self.new ≡ Self.screen self.old) }
        ensures position { (Self.screen self.new).position ≡ (Self.screen self.old).position }
        ensures shown { KeepsShown (Self.screen self.old) (Self.screen self.new) }
        ensures beside { HoldsAtMost (Self.beside self.old) (Self.beside self.new) }
        ensures part { DrawsNoLine Self.ScreenState result self.old self.new }
    {
        // Nothing was held back.
        Ok(())
    }

    // From a position on a row, each text ends on a row.
    ghost column_below: { (r : Self) (s : List ℕ) (o : Position) → o.col < (Self.surface r).columns
        → ((Self.surface r).measure s o).col < (Self.surface r).columns };

    // After printable ASCII and newlines, a printable ASCII character takes one column.
    ghost one_column: { (r : Self) (s : List ℕ) (c : ℕ) (o : Position)
        → o.col < (Self.surface r).columns → list_all is_plain s ≡ true → is_printable c ≡ true
        → (Self.surface r).measure (s ++ c ∷ []) o
        ≡ next_column (Self.surface r).columns ((Self.surface r).measure s o) };
}
