//! A line that has begun, and is kept between two calls.
ghost use Rattle.std.specs.Prelude.{IsCharBoundary, ◌≡◌, ◌<◌, ℕ, List, None, Ok, Some, false, true, length, not, IfOk, OnErr, OnOk, if◌then◌else◌, string_bytes};
ghost use Rattle.line_config.specs.Error.{FaultsOnly, MemoryOnly};
ghost use Rattle.line_editor.specs.Binding.{bound_of};
ghost use Rattle.line_editor.specs.Editor.{EditorBegins};
ghost use Rattle.line_editor.specs.Input.{first_input};
ghost use Rattle.line_editor.specs.InputState.{remembered_input};
ghost use Rattle.line_buffer.specs.Changes.{no_changes};
ghost use Rattle.line_keys.specs.Model.Frame.{Frame};
ghost use Rattle.line_keys.specs.Item.{Item};
ghost use Rattle.line_keys.specs.Model.Display.{corner, never_drawn};
ghost use Rattle.line_keys.specs.Model.Draft.{empty_draft};
ghost use Rattle.line_parts.specs.Helped.{environment_by, sure_by};
ghost use Rattle.line_parts.specs.History.{added};
ghost use Rattle.line_screen.specs.KeyQueue.{queue_binding};
ghost use Rattle.line_session.specs.Kept.{FitsScreen, answers_of};
ghost use Rattle.line_session.specs.Sitting.{line_with, rules_for, standing_with};
ghost use Rattle.line_session.specs.Steps.{starting, once_resized};
ghost use Rattle.line_session.specs.Taken.{TurnsComeTo, is_settled};

use crate::modal::{Line, Modal};
use crate::mode::Mode;
use crate::setup::Setup;
use crate::turns::take_turns;
use line_buffer::{KillRing, Unit};
use line_config::{Config, Prompt, Result};
use line_editor::binding::ConditionalEventHandler;
use line_editor::edit::State;
use line_editor::edit::open_line::KeptLine;
use line_editor::input_state::remembered::Remembered;
use line_editor::{Bindings, InputState, Turned};
use line_keys::editor_state::EditorState;
use line_parts::{Context, Helper, History};
use line_screen::KeyQueue;
use line_state::{EditedLine, ScreenState};
use line_term::Ansi;
use std::alloc::Global;
use std::io::Write;

/// A line that has begun, between two calls.
pub(crate) struct Begun<H: Helper> {
    pub(crate) line: KeptLine<H>,
    pub(crate) input: Remembered,
    /// What the next item is read as.
    pub(crate) mode: Mode,
    /// Whether the line is to be drawn before the next key is read.
    pub(crate) draws: bool,
}

impl<H: Helper> Drop for Begun<H> {
    fn drop(self) {
        let Begun {
            line: _,
            input: _,
            mode: _,
            draws: _,
        } = self;
    }
}

/// Ends two loans.
fn give_back<T, U>(one: &mut T, other: &mut U)
    ensures one { one.new ≡ one.old }
    ensures other { other.new ≡ other.old }
{
    let _ = one;
    let _ = other;
}

/// Leaves the terminal's cursor below a line that has ended. Returns how it ended. Where the line
/// awaits more items, all stays.
fn leave<E: Modal>(turned: Result<Turned>, state: &mut E) -> Result<Turned>
    ensures ended { IfOk result (λ done. turned ≡ Ok done) }
    ensures display { result ≡ Ok Turned.NeedsMore → E.display state.new ≡ E.display state.old }
    ensures draft { E.draft state.new ≡ E.draft state.old }
    ensures frame { Frame E.EditorState state.old state.new }
    ensures faults { FaultsOnly turned → FaultsOnly result }
{
    let done = turned?;
    if done == Turned::NeedsMore {
        return Ok(done);
    }
    state.move_cursor_to_end()?;
    state.move_cursor_at_leftmost()?;
    Ok(done)
}

/// Takes the terminal's cursor to the first column, below what stands there of a list or of another
/// program, if something may.
fn leave_others<E: Modal>(mode: &Mode, state: &mut E) -> Result<()>
    ensures draft { E.draft state.new ≡ E.draft state.old }
    ensures frame { Frame E.EditorState state.old state.new }
    ensures faults { FaultsOnly result }
{
    if !mode.is_above_others() {
        return Ok(());
    }
    state.move_cursor_at_leftmost()
}

/// Returns whether the line is to be drawn before the next key is read: unless more keys are
/// awaited after its own prompt, or for a list.
fn is_to_be_drawn<E: Modal>(mode: &Mode, turned: &Result<Turned>, state: &E) -> bool
    ensures more { result ≡ false → turned.now ≡ Ok Turned.NeedsMore }
    ensures prompt { turned.now ≡ Ok Turned.NeedsMore → not result ≡ is_settled mode.now
        (E.display state.now).layout.default_prompt }
{
    match turned {
        Ok(Turned::NeedsMore) => mode.shows_line() && !state.is_default_prompt(),
        _ => true,
    }
}

/// Returns a line without changes, with these texts before and after the cursor.
///
/// # Errors
/// `Memory` if memory runs out.
pub(crate) fn line_of(alloc: Global, left: &str, right: &str) -> Result<EditedLine>
    ensures line { IfOk result (λ edited. edited
        ≡ record { line = line_with left.now right.now; changes = no_changes }) }
    ensures memory { MemoryOnly result }
{
    let mut text = String::from_str(alloc, left)?;
    text.push_str(right)?;
    Ok(EditedLine::with_line(alloc, text.as_str(), left.len())?)
}

/// Begins a line after the prompt. It is to be drawn.
pub(crate) fn begin<O: Write + Drop, H: Helper + Drop, S: History + Drop>(
    screen: &mut Ansi<O, KeyQueue>,
    helper: &mut H,
    setup: &Setup<S>,
    edited: EditedLine,
) -> Begun<H>
    ensures fits { (items : List Item) → FitsScreen result.line result.mode result.draws items
        (⟦<Ansi<O, KeyQueue> as ScreenState>⟧.surface screen.new)
        (⟦<Ansi<O, KeyQueue> as ScreenState>⟧.screen screen.new)
        (string_bytes setup.now.prompt.0)
        (answers_of H.hint_at H.verdict_at H.lights H.Completer
        helper.new (S.lines setup.now.history)) }
    ensures draft { result.line.draft
        ≡ record (empty_draft (length (S.lines setup.now.history))) {
          line = edited.line;
          changes = edited.changes;
        } }
    ensures input { remembered_input result.input ≡ first_input setup.now.config.edit_mode }
    ensures mode { result.mode ≡ Mode.Editing }
    ensures draws { result.draws ≡ true }
    ensures prompt { result.line.drawing.prompt_end
        ≡ (⟦<Ansi<O, KeyQueue> as ScreenState>⟧.surface screen.old).measure
        (string_bytes setup.now.prompt.0) corner }
    ensures surface { ⟦<Ansi<O, KeyQueue> as ScreenState>⟧.surface screen.new
        ≡ ⟦<Ansi<O, KeyQueue> as ScreenState>⟧.surface screen.old }
    ensures answers { (lines : List (List ℕ))
        → answers_of H.hint_at H.verdict_at H.lights H.Completer helper.new lines
        ≡ answers_of H.hint_at H.verdict_at H.lights H.Completer helper.old lines }
{
    let state = state_of(screen, helper, setup, edited);
    let (line, out, lent) = state.release();
    let lent = lent.unwrap();
    let begun = Begun {
        line,
        input: Remembered::new(&setup.config),
        mode: Mode::Editing,
        draws: true,
    };
    give_back(out, lent);
    begun
}

/// Returns the state of a line that begins.
fn state_of<'out, O: Write + Drop, H: Helper, S: History + Drop>(
    screen: &'out mut Ansi<O, KeyQueue>,
    helper: &'out mut H,
    setup: &'out Setup<S>,
    edited: EditedLine,
) -> Line<'out, 'out, O, H, (String, String), S>
    ensures { let e = ⟦<Line<'out, 'out, O, H, (String, String), S> as EditorState>⟧ in
        let w = ⟦<Ansi<O, KeyQueue> as ScreenState>⟧ in
        EditorBegins e result
        (record (empty_draft (length (S.lines setup.now.history))) {
          line = edited.line;
          changes = edited.changes;
        })
        (environment_by H.hint_at H.verdict_at H.lights H.Completer
        (Some helper.entry) (S.lines setup.now.history))
        (sure_by H.Hinter.sure H.Validator.sure H.Completer.sure (S.sure setup.now.history) (Some helper.entry))
        (never_drawn (w.surface screen.entry.now) (w.screen screen.entry.now)
        (string_bytes setup.now.prompt.0))
        (w.failures screen.entry.now) (w.redraws screen.entry.now)
        (screen.entry.ghost_name, Some helper.entry.ghost_name) }
{
    let ctx = Context::new(&setup.history);
    State::with_edited(
        setup.alloc,
        screen,
        &setup.prompt,
        Some(helper),
        ctx,
        edited,
    )
}

impl<H: Helper + Drop> Begun<H> {
    /// Gives the screen of a line another number of columns and of rows, draws the line, and keeps
    /// it again. A list ends, and a program that was suspended goes on: the line is drawn below
    /// what stands there. Where drawing fails, the line is to be drawn.
    pub(crate) fn resized<'out, O: Write + Drop, S: History + Drop>(
        self,
        screen: &'out mut Ansi<O, KeyQueue>,
        helper: &'out mut H,
        setup: &'out Setup<S>,
        columns: Unit,
        rows: Unit,
    ) -> (Begun<H>, Result<()>)
        requires columns { 0 < columns }
        requires fits { (items : List Item) × FitsScreen self.line self.mode self.draws items
            (⟦<Ansi<O, KeyQueue> as ScreenState>⟧.surface screen.old)
            (⟦<Ansi<O, KeyQueue> as ScreenState>⟧.screen screen.old)
            (string_bytes setup.now.prompt.0)
            (answers_of H.hint_at H.verdict_at H.lights H.Completer
            helper.old (S.lines setup.now.history)) }
        ensures fits { (items : List Item)
            → FitsScreen result.0.line result.0.mode result.0.draws items
            (⟦<Ansi<O, KeyQueue> as ScreenState>⟧.surface screen.new)
            (⟦<Ansi<O, KeyQueue> as ScreenState>⟧.screen screen.new)
            (string_bytes setup.now.prompt.0)
            (answers_of H.hint_at H.verdict_at H.lights H.Completer
            helper.new (S.lines setup.now.history)) }
        ensures draft { result.0.line.draft ≡ self.line.draft }
        ensures input { result.0.input ≡ self.input }
        ensures mode { result.0.mode ≡ once_resized self.mode }
        ensures columns { let w = ⟦<Ansi<O, KeyQueue> as ScreenState>⟧ in
            (w.surface screen.new).columns ≡ columns }
        ensures rows { let w = ⟦<Ansi<O, KeyQueue> as ScreenState>⟧ in
            (w.surface screen.new).rows ≡ rows }
        ensures answers { (lines : List (List ℕ))
            → answers_of H.hint_at H.verdict_at H.lights H.Completer helper.new lines
            ≡ answers_of H.hint_at H.verdict_at H.lights H.Completer helper.old lines }
        ensures faults { FaultsOnly result.1 }
    {
        let Begun {
            line,
            input,
            mode,
            draws: _,
        } = self;
        let mut state = State::resume(
            setup.alloc,
            line,
            screen,
            &setup.prompt,
            Some(helper),
            &setup.history,
        );
        let left = leave_others(&mode, &mut state);
        let drawn = state.resized(columns, rows);
        let (line, out, lent) = state.release();
        let lent = lent.unwrap();
        let begun = Begun {
            line,
            input,
            mode: mode.once_resized(),
            draws: true,
        };
        give_back(out, lent);
        (begun, left.and(drawn))
    }

    /// Takes turns of a line, as `take_turns` does, and keeps it again.
    pub(crate) fn go_on<'out, O: Write + Drop, S: History + Drop, C: ConditionalEventHandler>(
        self,
        screen: &'out mut Ansi<O, KeyQueue>,
        helper: &'out mut H,
        setup: &'out Setup<S>,
        bindings: &Bindings<C>,
        keys: &mut KeyQueue,
        kill_ring: &mut KillRing,
    ) -> (Begun<H>, Result<Turned>)
        requires { FitsScreen self.line self.mode self.draws keys.old.rest
            (⟦<Ansi<O, KeyQueue> as ScreenState>⟧.surface screen.old)
            (⟦<Ansi<O, KeyQueue> as ScreenState>⟧.screen screen.old)
            (string_bytes setup.now.prompt.0)
            (answers_of H.hint_at H.verdict_at H.lights H.Completer
            helper.old (S.lines setup.now.history)) }
        ensures fits { FitsScreen result.0.line result.0.mode result.0.draws keys.new.rest
            (⟦<Ansi<O, KeyQueue> as ScreenState>⟧.surface screen.new)
            (⟦<Ansi<O, KeyQueue> as ScreenState>⟧.screen screen.new)
            (string_bytes setup.now.prompt.0)
            (answers_of H.hint_at H.verdict_at H.lights H.Completer
            helper.new (S.lines setup.now.history)) }
        ensures comes { let g = C.ConditionalEventHandler in
            let lines = S.lines setup.now.history in
            let asked = answers_of H.hint_at H.verdict_at H.lights H.Completer helper.old lines in
            IfOk result.1 (TurnsComeTo (not result.0.draws)
            (rules_for (bound_of g bindings.now) keys.old.binds
            setup.now.config self.line.drawing.prompt_end.col asked)
            (starting asked self.draws
            (standing_with self.line.draft (remembered_input self.input) self.mode
            keys.old.rest kill_ring.old))
            (standing_with result.0.line.draft (remembered_input result.0.input) result.0.mode
            keys.new.rest kill_ring.new)) }
        ensures surface { ⟦<Ansi<O, KeyQueue> as ScreenState>⟧.surface screen.new
            ≡ ⟦<Ansi<O, KeyQueue> as ScreenState>⟧.surface screen.old }
        ensures prompt { result.0.line.drawing.prompt_end ≡ self.line.drawing.prompt_end }
        ensures own { queue_binding keys.new.binds ≡ queue_binding keys.old.binds }
        ensures answers { (lines : List (List ℕ))
            → answers_of H.hint_at H.verdict_at H.lights H.Completer helper.new lines
            ≡ answers_of H.hint_at H.verdict_at H.lights H.Completer helper.old lines }
        ensures faults { FaultsOnly result.1 }
    {
        let Begun {
            line,
            input,
            mut mode,
            draws,
        } = self;
        let mut state = State::resume(
            setup.alloc,
            line,
            screen,
            &setup.prompt,
            Some(helper),
            &setup.history,
        );
        let mut input_state = InputState::resume(input, bindings);
        let turned = take_turns(
            draws,
            &mut mode,
            &mut state,
            &mut input_state,
            keys,
            kill_ring,
            &setup.config,
        );
        let turned = leave(turned, &mut state);
        let draws = is_to_be_drawn(&mode, &turned, &state);
        let input = input_state.release();
        let (line, out, lent) = state.release();
        let lent = lent.unwrap();
        let begun = Begun {
            line,
            input,
            mode,
            draws,
        };
        give_back(out, lent);
        (begun, turned)
    }
}

/// Has a line drawn before its next key is read, if one has begun.
pub(crate) fn draw_anew<H: Helper>(line: &mut Option<Begun<H>>)
    ensures none { line.old ≡ None → line.new ≡ None }
    ensures some { (begun : _) → line.old ≡ Some begun
        → line.new ≡ Some (record begun { draws = true }) }
{
    if let Some(begun) = line {
        begun.draws = true;
    }
}

/// Returns a copy of a prompt's texts, without styles and with them.
pub(crate) fn copied_prompt<P: Prompt>(alloc: Global, prompt: &P) -> Result<(String, String)>
    ensures raw { IfOk result (λ copy. string_bytes copy.0 ≡ P.raw_text prompt.now) }
    ensures memory { MemoryOnly result }
{
    let raw = String::from_str(alloc, prompt.raw())?;
    let styled = String::from_str(alloc, prompt.styled())?;
    Ok((raw, styled))
}

/// Adds a line to a history where `adds` says so.
pub(crate) fn add<S: History>(adds: bool, line: &str, history: &mut S) -> Result<()>
    ensures added { OnOk result (S.lines history.new ≡
        (if adds then added (S.rules history.old) (S.lines history.old) line.now
        else S.lines history.old)) }
    ensures kept { OnErr result (S.lines history.new ≡ S.lines history.old) }
    ensures rules { S.rules history.new ≡ S.rules history.old }
    ensures faults { FaultsOnly result }
{
    if adds {
        history.add(line)?;
    }
    Ok(())
}
