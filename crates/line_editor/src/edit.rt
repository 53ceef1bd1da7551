//! The line while it is edited, and how it is drawn.
ghost use Rattle.std.specs.Prelude.{IsCharBoundary, ◌≡◌, ◌≤◌, ◌+◌, ◌++◌, ◌∷◌, [], ℕ, nat_lt, List, true, false, Option, Some, None, option_map, is_some, length, IfOk, IfSome, OnOk, OnErr, IsOk};
ghost use Rattle.std.specs.Borrow.{GName};
ghost use Rattle.line_config.specs.Error.{MemoryOnly};
ghost use Rattle.line_editor.specs.Editor.{EditorBegins};
ghost use Rattle.line_editor.specs.Info.{shown_info};
ghost use Rattle.std.specs.List.{list_all};
ghost use Rattle.line_buffer.specs.Line.{Line, inserted_at_cursor, is_at_end};
ghost use Rattle.line_buffer.specs.Printable.{is_plain, is_printable};
ghost use Rattle.line_keys.specs.Model.Display.{IsRight, ShowsText, columns_back, columns_on, lit_after, never_drawn};
ghost use Rattle.line_keys.specs.Model.Draft.{empty_draft, hinted, KeepsText};
ghost use Rattle.line_keys.specs.Model.Drawing.{Paints, ShowsEdit, ShowsEnd};
ghost use Rattle.line_keys.specs.Model.Frame.{FailsOnlyIf, Frame};
ghost use Rattle.line_keys.specs.Model.Plainly.{has_highlighting, leaves_bare};
ghost use Rattle.line_keys.specs.Model.ShownLine.{HasRightLayout, Shows};
ghost use Rattle.line_parts.specs.Asks.{for_hint, is_sure};
ghost use Rattle.line_parts.specs.Helped.{environment_by, sure_by};
ghost use Rattle.line_parts.specs.Hint.{suggestion_of};
ghost use Rattle.line_parts.specs.declared.highlight.CmdKind.TheVariants.{Other};

mod completions;
mod drawing;
mod hints;
mod history_moves;
mod inserts;
mod kills;
mod moves;
pub mod open_line;
mod reading;
mod validation;
mod words;

use line_buffer::{Layout, LineBuffer};
use line_config::{Prompt, Result};
use line_keys::editor_state::EditorState;
use line_keys::refresher::{Invoke, Refresher};
use line_parts::consulted::Consulted;
use line_parts::helper_context::HelperContext;
use line_parts::{CmdKind, Context, Helper, Hint, History};
use line_state::{Drawn, EditedLine, Renderer, ScreenState, View};
use open_line::OpenLine;
use std::alloc::Global;

/// The line while it is edited: the open line, what is drawn, and those who are asked.
pub struct State<'out, 'prompt, W: Renderer, H: Helper, P: Prompt, S: History> {
    alloc: Global,
    line: OpenLine<H>,
    view: View<'out, 'prompt, W, P>,
    context: HelperContext<'out, H, S>,
}

impl<W: Renderer, H: Helper, P: Prompt, S: History> Drop for State<'_, '_, W, H, P, S> {
    fn drop(self) {
        let State {
            alloc: _,
            line: _,
            view: _,
            context: _,
        } = self;
    }
}

impl<'out, 'prompt, W: Renderer, H: Helper, P: Prompt, S: History> EditorState
    for State<'out, 'prompt, W, H, P, S> {
    ghost Loan = { GName × Option GName };

    ghost draft = { λ s. record {
      line = s.line.edited.line;
      saved = s.line.saved_line_for_history;
      index = ⟦<HelperContext<'out, H, S> as Consulted>⟧.index s.context;
      hint = option_map (suggestion_of H.Hint.Hint) s.line.hint;
      changes = s.line.edited.changes;
    } };

    ghost environment = { λ s. ⟦<HelperContext<'out, H, S> as Consulted>⟧.environment s.context };

    ghost display = { λ s. ⟦<View<'out, 'prompt, W, P> as Drawn>⟧.display s.view };

    ghost loan = { λ s. (
      ⟦<View<'out, 'prompt, W, P> as Drawn>⟧.loan s.view,
      ⟦<HelperContext<'out, H, S> as Consulted>⟧.loan s.context,
    ) };

    ghost sure = { λ s. ⟦<HelperContext<'out, H, S> as Consulted>⟧.sure s.context };

    ghost failures = { λ s. ⟦<View<'out, 'prompt, W, P> as Drawn>⟧.failures s.view };

    ghost redraws = { λ s. ⟦<View<'out, 'prompt, W, P> as Drawn>⟧.redraws s.view };
}

// What is shown after the line.
#[derive(Clone, Copy)]
enum Info<'m> {
    Nothing,
    Hint,
    Message(Option<&'m str>),
}

fn info_text<'m, T: Hint>(info: Info<'m>, hint: &'m Option<T>) -> Option<&'m str>
    ensures { option_map (λ s. s.now) result
        ≡ shown_info info.entry (option_map T.display_text hint.now) }
{
    match info {
        Info::Nothing => None,
        Info::Hint => match hint {
            Some(h) => Some(h.display()),
            None => None,
        },
        Info::Message(message) => message,
    }
}

impl<'out, 'prompt, W: Renderer, H: Helper, P: Prompt, S: History> State<
    'out,
    'prompt,
    W,
    H,
    P,
    S,
> {
    /// Returns the edit state of an empty line after the prompt, with nothing drawn yet.
    ///
    /// # Errors
    /// None: an empty line takes no memory.
    pub fn new(
        alloc: Global,
        out: &'out mut W,
        prompt: &'prompt P,
        helper: Option<&'out mut H>,
        ctx: Context<'out, S>,
    ) -> Result<Self>
        ensures made { IsOk result }
        ensures begins { IfOk result (λ s. EditorBegins ⟦<Self as EditorState>⟧ s
            (empty_draft ctx.entry.index)
            (environment_by H.hint_at H.verdict_at H.lights H.Completer helper.entry
            (S.lines ctx.entry.history))
            (sure_by H.Hinter.sure H.Validator.sure H.Completer.sure (S.sure ctx.entry.history) helper.entry)
            (never_drawn (W.surface out.old) (W.screen out.old) (P.raw_text prompt.now))
            (W.failures out.old) (W.redraws out.old)
            (out.entry.ghost_name, option_map (λ h. h.ghost_name) helper.entry)) }
    {
        let edited = EditedLine::new(alloc);
        Ok(State::with_edited(alloc, out, prompt, helper, ctx, edited))
    }

    /// Returns the edit state of a line after the prompt, with the cursor at byte `cursor` of it,
    /// with no changes and with nothing drawn yet.
    ///
    /// # Errors
    /// `Memory` if memory runs out.
    pub fn with_line(
        alloc: Global,
        out: &'out mut W,
        prompt: &'prompt P,
        helper: Option<&'out mut H>,
        ctx: Context<'out, S>,
        text: &str,
        cursor: usize,
    ) -> Result<Self>
        requires { IsCharBoundary text.now cursor }
        ensures begins { IfOk result (λ s. EditorBegins ⟦<Self as EditorState>⟧ s
            (record (empty_draft ctx.entry.index) {
              line = record { text = text.now; cursor = cursor };
            })
            (environment_by H.hint_at H.verdict_at H.lights H.Completer helper.entry
            (S.lines ctx.entry.history))
            (sure_by H.Hinter.sure H.Validator.sure H.Completer.sure (S.sure ctx.entry.history) helper.entry)
            (never_drawn (W.surface out.old) (W.screen out.old) (P.raw_text prompt.now))
            (W.failures out.old) (W.redraws out.old)
            (out.entry.ghost_name, option_map (λ h. h.ghost_name) helper.entry)) }
        ensures memory { MemoryOnly result }
    {
        let edited = EditedLine::with_line(alloc, text, cursor)?;
        Ok(State::with_edited(alloc, out, prompt, helper, ctx, edited))
    }

    /// Returns the edit state of a line with its changes after the prompt, with nothing drawn yet.
    /// It takes no memory.
    pub fn with_edited(
        alloc: Global,
        out: &'out mut W,
        prompt: &'prompt P,
        helper: Option<&'out mut H>,
        ctx: Context<'out, S>,
        edited: EditedLine,
    ) -> Self
        ensures { EditorBegins ⟦<Self as EditorState>⟧ result
            (record (empty_draft ctx.entry.index) { line = edited.line; changes = edited.changes })
            (environment_by H.hint_at H.verdict_at H.lights H.Completer helper.entry
            (S.lines ctx.entry.history))
            (sure_by H.Hinter.sure H.Validator.sure H.Completer.sure (S.sure ctx.entry.history) helper.entry)
            (never_drawn (W.surface out.old) (W.screen out.old) (P.raw_text prompt.now))
            (W.failures out.old) (W.redraws out.old)
            (out.entry.ghost_name, option_map (λ h. h.ghost_name) helper.entry) }
    {
        let line = OpenLine {
            edited,
            saved_line_for_history: LineBuffer::new(alloc),
            hint: None,
        };
        State {
            alloc,
            line,
            view: View::new(out, prompt),
            context: HelperContext::new(helper, ctx),
        }
    }

    /// Returns the whole text.
    pub fn line(&self) -> &str
        ensures { result.now ≡ (⟦<Self as EditorState>⟧.draft self.now).line.text }
    {
        self.line.edited.line().as_str()
    }

    /// Returns the cursor's byte offset, which is on a character boundary.
    pub fn pos(&self) -> usize
        ensures { result ≡ (⟦<Self as EditorState>⟧.draft self.now).line.cursor }
    {
        self.line.edited.line().pos()
    }

    /// Returns the kept layout: where the prompt ends, and where the cursor and the end of what is
    /// shown are.
    pub fn layout(&self) -> &Layout
        ensures { result.now ≡ (⟦<Self as EditorState>⟧.display self.now).layout }
    {
        self.view.layout()
    }

    /// Returns the allocator of the line's memory.
    pub fn allocator(&self) -> Global {
        self.alloc
    }

    /// Returns the renderer, as the last drawing left it.
    pub fn out(&self) -> &W
        ensures surface { W.surface result.now
            ≡ (⟦<Self as EditorState>⟧.display self.now).surface }
        ensures screen { W.screen result.now ≡ (⟦<Self as EditorState>⟧.display self.now).screen }
        ensures redraws { W.redraws result.now ≡ ⟦<Self as EditorState>⟧.redraws self.now }
        ensures failures { W.failures result.now ≡ ⟦<Self as EditorState>⟧.failures self.now }
    {
        self.view.out()
    }

    /// Returns the helper, if there is one: the edit state uses its answers.
    pub fn helper(&self) -> Option<&H>
        ensures some { is_some result
            ≡ is_some (⟦<Self as EditorState>⟧.environment self.now).verdict_at }
        ensures answers { let w = ⟦<Self as EditorState>⟧.environment self.now in
            IfSome result (λ h. (w.hint_at ≡ H.hint_at h.now)
            × (w.verdict_at ≡ Some (H.verdict_at h.now)) × (w.lights ≡ H.lights h.now)) }
    {
        self.context.helper()
    }

    /// Returns the history.
    pub fn history(&self) -> &S
        ensures { S.lines result.now ≡ (⟦<Self as EditorState>⟧.environment self.now).lines }
    {
        self.context.history()
    }

    /// Returns the history index: which line of the history is edited. For the line that is being
    /// written it is the number of the history's lines.
    pub fn place(&self) -> usize
        ensures within { result ≤ length (⟦<Self as EditorState>⟧.environment self.now).lines }
        ensures value { result ≡ (⟦<Self as EditorState>⟧.draft self.now).index }
    {
        self.context.history_index()
    }

    /// Returns whether the line was last drawn after its own prompt.
    pub fn is_default_prompt(&self) -> bool
        ensures { result ≡ (⟦<Self as EditorState>⟧.display self.now).layout.default_prompt }
    {
        self.view.layout().default_prompt
    }

    // Asks whether characters of the line are highlighted, where colors are on.
    fn ask_highlight(&mut self, kind: CmdKind)
        ensures display { let e = ⟦<Self as EditorState>⟧ in
            let line = (e.draft self.old).line in
            let lit = lit_after (e.environment self.old) (e.display self.old) line kind in
            e.display self.new ≡ record (e.display self.old) { lit = lit } }
        ensures stays { let e = ⟦<Self as EditorState>⟧ in (e.draft self.new ≡ e.draft self.old)
            × (e.redraws self.new ≡ e.redraws self.old)
            × (e.failures self.new ≡ e.failures self.old) }
        ensures hint { self.new.line.hint ≡ self.old.line.hint }
        ensures frame { Frame ⟦<Self as EditorState>⟧ self.old self.new }
    {
        if self.view.colors_enabled() {
            let lit = self.context.highlight_char(self.line.edited.line(), kind);
            self.view.set_highlight_char(lit);
        }
    }

    // Asks `highlight_char`, where colors are on. Returns whether there is highlighting.
    fn has_highlighting(&mut self, kind: CmdKind) -> bool
        ensures answer { let e = ⟦<Self as EditorState>⟧ in result ≡ has_highlighting
            (e.environment self.old) (e.display self.old) (e.draft self.old).line kind }
        ensures display { let e = ⟦<Self as EditorState>⟧ in
            let line = (e.draft self.old).line in
            let lit = lit_after (e.environment self.old) (e.display self.old) line kind in
            e.display self.new ≡ record (e.display self.old) { lit = lit } }
        ensures stays { let e = ⟦<Self as EditorState>⟧ in (e.draft self.new ≡ e.draft self.old)
            × (e.redraws self.new ≡ e.redraws self.old)
            × (e.failures self.new ≡ e.failures self.old) }
        ensures hint { self.new.line.hint ≡ self.old.line.hint }
        ensures frame { Frame ⟦<Self as EditorState>⟧ self.old self.new }
    {
        let was_lit = self.view.highlight_char();
        self.ask_highlight(kind);
        self.highlighter().is_some() && (was_lit || self.view.highlight_char())
    }

    // Asks for the hint and `highlight_char`. Returns whether there is no hint and no highlighting.
    #[tactic(auto, using(crate::proofs::EditLemmas::shown_hint))]
    fn leaves_bare(&mut self) -> Result<bool>
        ensures draft { let e = ⟦<Self as EditorState>⟧ in OnOk result
            (e.draft self.new ≡ hinted (e.environment self.old) (e.draft self.old)) }
        ensures err { let d = ⟦<Self as EditorState>⟧.draft in
            OnErr result (d self.new ≡ d self.old) }
        ensures answer { let e = ⟦<Self as EditorState>⟧ in IfOk result (λ bare. bare
            ≡ leaves_bare (e.environment self.old) (e.display self.old) (e.draft self.new)) }
        ensures display { let e = ⟦<Self as EditorState>⟧ in
            let line = (e.draft self.old).line in
            let lit = lit_after (e.environment self.old) (e.display self.old) line Other in
            OnOk result (e.display self.new ≡ record (e.display self.old) { lit = lit }) }
        ensures layout { let d = ⟦<Self as EditorState>⟧.display in
            (d self.new).layout ≡ (d self.old).layout }
        ensures text { let d = ⟦<Self as EditorState>⟧.draft in
            KeepsText (d self.old) (d self.new) }
        ensures redraws { let e = ⟦<Self as EditorState>⟧ in
            e.redraws self.new ≡ e.redraws self.old }
        ensures frame { Frame ⟦<Self as EditorState>⟧ self.old self.new }
        ensures fails { let e = ⟦<Self as EditorState>⟧ in FailsOnlyIf result
            (is_sure (e.sure self.old) for_hint ≡ true → ⊥)
            (e.failures self.old) (e.failures self.new) }
        ensures quiet { let e = ⟦<Self as EditorState>⟧ in
            e.failures self.new ≡ e.failures self.old }
    {
        self.hint()?;
        let lit = self.has_highlighting(CmdKind::Other);
        Ok(self.line.hint.is_none() && !lit)
    }

    // Asks for the hint of a line that got a character at its end, and draws that character, or all
    // again.
    #[tactic(auto, using(crate::proofs::EditLemmas::shown_hint))]
    pub(crate) fn show_typed(&mut self, c: char) -> Result<()>
        requires printable { is_printable c ≡ true }
        requires free { let d = ⟦<Self as EditorState>⟧.display self.old in
            nat_lt (d.layout.cursor.col + 1) d.surface.columns ≡ true }
        ensures shows { let e = ⟦<Self as EditorState>⟧ in ShowsEnd e result self.old self.new
            (columns_on 1 (e.display self.old).layout.cursor) }
        ensures right { let e = ⟦<Self as EditorState>⟧ in (line : Line) → is_at_end line ≡ true
            → list_all is_plain line.text ≡ true → (e.display self.old).layout.has_info ≡ false
            → IsRight (e.display self.old) line
            → (e.draft self.old).line ≡ inserted_at_cursor line (c ∷ [])
            → OnOk result (HasRightLayout e self.new) }
    {
        if !self.leaves_bare()? {
            return self.draw(Info::Hint);
        }
        self.view.write_char(c)?;
        Ok(())
    }

    // Asks for the hint of a line that lost so many printable characters at its end, and clears
    // them, or draws all again.
    #[tactic(auto, using(crate::proofs::EditLemmas::shown_hint))]
    pub(crate) fn show_killed(&mut self, count: usize) -> Result<()>
        requires { count ≤ (⟦<Self as EditorState>⟧.display self.old).layout.end.col }
        ensures shows { let e = ⟦<Self as EditorState>⟧ in ShowsEnd e result self.old self.new
            (columns_back count (e.display self.old).layout.end) }
        ensures right { let e = ⟦<Self as EditorState>⟧ in (front gone : List ℕ)
            → list_all is_plain front ≡ true → list_all is_printable gone ≡ true
            → length gone ≡ count → (e.display self.old).layout.has_info ≡ false
            → ShowsText (e.display self.old) (front ++ gone)
            → (e.draft self.old).line ≡ record { text = front; cursor = length front }
            → OnOk result (HasRightLayout e self.new) }
    {
        if !self.leaves_bare()? {
            return self.draw(Info::Hint);
        }
        self.view.take_back(count)
    }

    // Asks for the hint and draws the line again where an edit was reported. Else the screen cursor
    // moves to the line's cursor.
    pub(crate) fn show_edit(&mut self, reported: bool) -> Result<()>
        ensures { ShowsEdit ⟦<Self as EditorState>⟧ reported result self.old self.new }
    {
        if reported {
            return self.refresh_line();
        }
        self.move_cursor(CmdKind::MoveCursor)
    }

    // Draws all again after the own prompt, with an info after the line.
    fn draw(&mut self, info: Info<'_>) -> Result<()>
        ensures shown { OnOk result (Shows ⟦<Self as EditorState>⟧ self.new
            (shown_info info.entry (option_map H.Hint.display_text self.old.line.hint))) }
        ensures paints { Paints ⟦<Self as EditorState>⟧ true result self.old self.new }
    {
        let colors = self.view.colors_enabled();
        self.view.refresh_line(
            self.line.edited.line(),
            info_text(info, &self.line.hint),
            self.context.highlighter(colors),
        )
    }
}

impl<'out, 'prompt, W: Renderer, H: Helper, P: Prompt, S: History> Refresher
    for State<'out, 'prompt, W, H, P, S> {
    #[tactic(auto, using(crate::proofs::EditLemmas::shown_hint))]
    fn refresh_line(&mut self) -> Result<()> {
        self.hint()?;
        self.ask_highlight(CmdKind::Other);
        self.draw(Info::Hint)
    }

    fn refresh_line_with_msg(&mut self, msg: Option<&str>, kind: CmdKind) -> Result<()> {
        self.line.hint = None;
        self.ask_highlight(kind);
        self.draw(Info::Message(msg))
    }

    #[tactic(auto, using(crate::proofs::EditLemmas::shown_hint))]
    fn refresh_prompt_and_line(&mut self, prompt: &str) -> Result<()> {
        self.hint()?;
        self.ask_highlight(CmdKind::Other);
        let colors = self.view.colors_enabled();
        self.view.refresh_prompt_and_line(
            prompt,
            self.line.edited.line(),
            info_text(Info::Hint, &self.line.hint),
            self.context.highlighter(colors),
        )
    }

    fn doing_insert(&mut self) -> Result<()> {
        Ok(self.line.edited.begin_group()?)
    }

    fn done_inserting(&mut self) -> Result<()> {
        let _ = self.line.edited.end_groups()?;
        Ok(())
    }

    fn last_insert(&self) -> Result<Option<String>> {
        Ok(self.line.edited.last_insert()?)
    }

    fn is_cursor_at_end(&self) -> bool {
        self.line.edited.line().is_cursor_at_end()
    }

    fn hint_text(&self) -> Option<&str> {
        match &self.line.hint {
            Some(hint) => hint.completion(),
            None => None,
        }
    }

    fn has_hint(&self) -> bool {
        self.line.hint.is_some()
    }

    fn line(&self) -> &str {
        self.line.edited.line().as_str()
    }

    fn pos(&self) -> usize {
        self.line.edited.line().pos()
    }
}

impl<'out, 'prompt, W: Renderer, H: Helper, P: Prompt, S: History> Invoke
    for State<'out, 'prompt, W, H, P, S> {
    ghost input_text = { λ s. s.line.edited.line.text };

    fn input(&self) -> &str {
        self.line.edited.line().as_str()
    }
}
