//! Drawing again, and what is asked of the screen.
ghost use Rattle.line_editor.specs.Outcomes.{DoesCommand};
ghost use Rattle.line_editor.specs.Resized.{Resizes};
ghost use Rattle.line_keys.specs.Command as commands;
ghost use Rattle.std.specs.Prelude.{◌≡◌, ◌<◌, ◌&&◌, true, false, is_some, OnOk, OnErr};
ghost use Rattle.line_keys.specs.Model.Draft.{hint_shown};
ghost use Rattle.line_keys.specs.Model.Drawing.{Paints};
ghost use Rattle.line_keys.specs.Model.ShownLine.{Shows, ShowsByLayout, info_kept};
ghost use Rattle.line_state.specs.Drawn.{cleared};

use crate::edit::{Info, State, info_text};
use line_buffer::Unit;
use line_config::{Prompt, Result};
use line_keys::editor_state::EditorState;
use line_keys::refresher::Refresher;
use line_parts::{Helper, History};
use line_state::{RefreshKind, Renderer, Resizable};
use std::fmt::{self, Debug, Formatter};

impl<'out, 'prompt, W: Renderer, H: Helper, P: Prompt, S: History> State<
    'out,
    'prompt,
    W,
    H,
    P,
    S,
> {
    /// Returns the helper as a highlighter, if there is one and colors are shown.
    pub fn highlighter(&self) -> Option<&H>
        ensures { let e = ⟦<Self as EditorState>⟧ in is_some result
            ≡ ((e.display self.now).surface.colors && is_some (e.environment self.now).verdict_at) }
    {
        self.context.highlighter(self.view.colors_enabled())
    }

    /// Draws the line again after its own prompt. `All` draws it in full, with the hint that is
    /// there. `Min` keeps the layout of what is drawn and draws by it, with nothing cleared before
    /// and with the hint where the layout has one: it is for a screen that lost what it showed.
    ///
    /// # Errors
    /// `Io` if the renderer fails, and `Memory` if memory runs out. The line, its changes, the hint
    /// and the kept layout then stay. What the screen shows is not specified: draw the line again.
    #[tactic(auto, using(crate::proofs::EditLemmas::shown_hint))]
    pub fn repaint(&mut self, kind: RefreshKind) -> Result<()>
        ensures shown { let e = ⟦<Self as EditorState>⟧ in kind ≡ RefreshKind.All
            → OnOk result (Shows e self.new (hint_shown (e.draft self.old))) }
        ensures by_layout { let e = ⟦<Self as EditorState>⟧ in
            kind ≡ RefreshKind.Min → ShowsByLayout e self.old → OnOk result
            (Shows e self.new (info_kept (e.display self.old).layout (e.draft self.old))) }
        ensures kept { let e = ⟦<Self as EditorState>⟧ in kind ≡ RefreshKind.Min
            → OnOk result ((e.display self.new).layout ≡ (e.display self.old).layout) }
        ensures paints { Paints ⟦<Self as EditorState>⟧ true result self.old self.new }
    {
        match kind {
            RefreshKind::All => self.draw(Info::Hint),
            RefreshKind::Min => self.draw_kept(),
        }
    }

    // Draws the kept layout again, with the hint where the layout has an info.
    #[tactic(auto, using(crate::proofs::EditLemmas::shown_hint))]
    fn draw_kept(&mut self) -> Result<()>
        ensures shown { let e = ⟦<Self as EditorState>⟧ in ShowsByLayout e self.old → OnOk result
            (Shows e self.new (info_kept (e.display self.old).layout (e.draft self.old))) }
        ensures layout { let d = ⟦<Self as EditorState>⟧.display in
            (d self.new).layout ≡ (d self.old).layout }
        ensures paints { Paints ⟦<Self as EditorState>⟧ true result self.old self.new }
    {
        let colors = self.view.colors_enabled();
        let info = if self.view.layout().has_info {
            Info::Hint
        } else {
            Info::Nothing
        };
        self.view.repaint_kept(
            self.line.edited.line(),
            info_text(info, &self.line.hint),
            self.context.highlighter(colors),
        )
    }

    /// Clears the screen. The kept cursor and end are then in the first column of the first row,
    /// and what the screen shows is not specified: `refresh_line` is to follow.
    ///
    /// # Errors
    /// `Io` if the renderer fails, and `Memory` if memory runs out. The line, its changes, the hint
    /// and the kept layout then stay. What the screen shows is not specified: draw the line again.
    pub fn clear_screen(&mut self) -> Result<()>
        ensures layout { let d = ⟦<Self as EditorState>⟧.display in
            OnOk result ((d self.new).layout ≡ cleared (d self.old).layout) }
        ensures err { let d = ⟦<Self as EditorState>⟧.display in
            OnErr result ((d self.new).layout ≡ (d self.old).layout) }
        ensures paints { Paints ⟦<Self as EditorState>⟧ false result self.old self.new }
    {
        self.view.clear_screen()
    }

    /// Takes the terminal's cursor to the first column, below what is there. The kept layout stays,
    /// and what the screen shows is not specified.
    ///
    /// # Errors
    /// `Io` if the renderer fails, and `Memory` if memory runs out. The line, its changes, the hint
    /// and the kept layout then stay. What the screen shows is not specified: draw the line again.
    pub fn move_cursor_at_leftmost(&mut self, rdr: &mut W::Reader) -> Result<()>
        ensures layout { let d = ⟦<Self as EditorState>⟧.display in
            (d self.new).layout ≡ (d self.old).layout }
        ensures paints { Paints ⟦<Self as EditorState>⟧ false result self.old self.new }
    {
        self.view.move_cursor_at_leftmost(rdr)
    }

    /// Writes a text by itself below what is shown, from the first column on. The kept layout
    /// stays, and what the screen shows is not specified: `refresh_line` is to follow, which draws
    /// the line below a text that ends a row. After any other text, write an empty text first.
    ///
    /// # Errors
    /// `Io` if the renderer fails, and `Memory` if memory runs out. The line, its changes, the hint
    /// and the kept layout then stay. How much of the text was written, and what the screen shows,
    /// is not specified: draw the line again.
    pub fn write_above(&mut self, text: &str, rdr: &mut W::Reader) -> Result<()>
        ensures layout { let d = ⟦<Self as EditorState>⟧.display in
            (d self.new).layout ≡ (d self.old).layout }
        ensures paints { Paints ⟦<Self as EditorState>⟧ false result self.old self.new }
    {
        self.view.write_above(text, rdr)
    }

    // Clears the screen and draws the line again, with the hint asked for.
    pub(crate) fn clear_and_redraw(&mut self) -> Result<()>
        ensures { DoesCommand ⟦<Self as EditorState>⟧ result self.old self.new
            commands.clear_screen }
    {
        self.clear_screen()?;
        self.refresh_line()
    }
}

impl<'out, 'prompt, W: Resizable, H: Helper, P: Prompt, S: History> State<
    'out,
    'prompt,
    W,
    H,
    P,
    S,
> {
    /// Gives the screen another number of columns and of rows, measures the prompt anew, and draws
    /// the line in full after it, with the hint that is there; a message or another prompt that is
    /// shown disappears. The line, its changes, the hint and the history index stay. The rows that
    /// were drawn before are cleared; a terminal that wraps lines anew by itself may keep some of
    /// them above.
    ///
    /// # Errors
    /// `Io` if the renderer fails, and `Memory` if memory runs out. Columns and rows are then the
    /// new ones, and the prompt is measured anew. The line, its changes, the hint and the history
    /// index stay, and so does the kept layout, which is that of the old columns. Another full
    /// redraw is to follow.
    #[tactic(auto, using(crate::proofs::EditLemmas::shown_hint))]
    pub fn resized(&mut self, columns: Unit, rows: Unit) -> Result<()>
        requires { 0 < columns }
        ensures { Resizes ⟦<Self as EditorState>⟧ result self.old self.new columns rows }
    {
        let colors = self.view.colors_enabled();
        self.view.resized(
            columns,
            rows,
            self.line.edited.line(),
            info_text(Info::Hint, &self.line.hint),
            self.context.highlighter(colors),
        )
    }
}

impl<W: Renderer, H: Helper, P: Prompt, S: History> Debug for State<'_, '_, W, H, P, S> {
    fn fmt<F: fmt::Write>(&self, f: &mut Formatter<F>) -> fmt::Result {
        f.debug_struct("State")
            .field("line", &self.line())
            .field("pos", &self.pos())
            .field("history_index", &self.place())
            .field("layout", self.layout())
            .finish()
    }
}
