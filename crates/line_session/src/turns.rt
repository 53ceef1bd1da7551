//! Turns that are taken one after another, for as long as there are items.
ghost use Rattle.std.specs.Prelude.{◌≡◌, ◌⊎◌, ◌<◌, true, false, List, length, IfOk, None, OnErr, OnOk, Some, option_map};
ghost use Rattle.line_config.specs.Error.{FaultsOnly};
ghost use Rattle.line_config.specs.Settings.{Settings};
ghost use Rattle.line_editor.specs.InputState.{input_of, keys_of};
ghost use Rattle.line_editor.specs.Keymap.{Keymap};
ghost use Rattle.line_editor.specs.Outcomes.{AnswersAs, editor_of, session};
ghost use Rattle.line_editor.specs.Reading.{KeepsReading};
ghost use Rattle.line_keys.specs.Command.{command_of};
ghost use Rattle.line_keys.specs.Model.Draft.{hinted};
ghost use Rattle.line_keys.specs.Model.Frame.{Frame};
ghost use Rattle.line_keys.specs.Item.{Item};
ghost use Rattle.line_session.specs.Searching.{search_cmd, search_value};
ghost use Rattle.line_buffer.specs.KillRing.{Ring};
ghost use Rattle.line_editor.specs.Input.{Input};
ghost use Rattle.line_session.specs.Sitting.{standing_with};
ghost use Rattle.line_session.specs.Steps.{AnswersCommand, DoesInSearch, comes_in, shows_line, reads_no_command, starting};
ghost use Rattle.line_session.specs.Taken.{TurnsComeTo, DrawnBehind, DrawnOnce, IsLineShown, IsShownIn, IsShownWith, KeepsRules, PutsIn, TakesAsItIs, TakesItem, TakesOne, is_settled, item_as_it_is, rules_by, session_rules, standing_of, start_of};

use crate::completing::complete;
use crate::listing::list;
use crate::modal::{Line, Modal};
use crate::mode::{AsItIs, Mode};
use crate::searching::{SearchCmd, Searching, search};
use line_buffer::KillRing;
use line_config::{Config, Prompt, ReadlineError, Result};
use line_editor::binding::ConditionalEventHandler;
use line_editor::{Deferred, InputState, Turned, do_turn, execute, read_turn, take_turn};
use line_keys::cmd::Cmd;
use line_keys::editor_state::EditorState;
use line_keys::raw_reader::RawReader;
use line_keys::refresher::Refresher;
use line_parts::history::SearchDirection;
use line_parts::{Helper, History};
use line_screen::KeyQueue;
use std::io::Write;
use std::mem;

/// Takes turns until the line ends, or more items are awaited: where those that are left are no
/// phrase yet, they are left to be read again, with more after them; where each is taken by itself,
/// as after a quoted insert and in a list, none is left. Where `draws` says so, the line is drawn
/// first. Returns how the last turn ended, which is never `Proceeds`.
///
/// After a quoted insert an item is put in as it is: a key as its character, if it has one. A
/// pasted text that stands alone is put in as any pasted text is: the key before it was read for
/// something else, such as the motion of an operator. Where a command asks to suspend the program,
/// the items after it are left for the next call, which draws the line first.
///
/// # Errors
/// `Io` if the output, a handler, the helper or the history fails, and `Memory` if memory runs out.
/// The line, its changes, the hint and the kill ring may then be any, and so may what the screen
/// shows. The kill ring keeps its size. An item that was taken is not taken again. Unless the first
/// drawing failed, commands are read next: a completion, a list, a search and a quoted insert have
/// ended.
pub(crate) fn take_turns<
    'out,
    'prompt,
    O: Write + Drop,
    H: Helper,
    P: Prompt,
    S: History,
    C: ConditionalEventHandler,
>(
    draws: bool,
    mode: &mut Mode,
    state: &mut Line<'out, 'prompt, O, H, P, S>,
    input_state: &mut InputState<'_, C>,
    keys: &mut KeyQueue,
    kill_ring: &mut KillRing,
    config: &Config,
) -> Result<Turned>
    requires shown { let e = ⟦<Line<'out, 'prompt, O, H, P, S> as EditorState>⟧ in
        draws ≡ false → IsShownWith e mode.old keys.old.rest state.old }
    ensures comes { let k = keys_of C.ConditionalEventHandler in
        let e = ⟦<Line<'out, 'prompt, O, H, P, S> as EditorState>⟧ in
        let r = ⟦<KeyQueue as RawReader>⟧ in
        let before = session state.old (k input_state.old) keys.old kill_ring.old in
        let after = session state.new (k input_state.new) keys.new kill_ring.new in
        IfOk result (TurnsComeTo (is_settled mode.new (e.display state.new).layout.default_prompt)
        (session_rules e r config.now before)
        (start_of e r draws mode.old before) (standing_of e r mode.new after)) }
    ensures drawn { let e = ⟦<Line<'out, 'prompt, O, H, P, S> as EditorState>⟧ in
        IfOk result (λ turned. DrawnOnce e mode.new keys.new.rest turned state.new) }
    ensures keeps { let k = keys_of C.ConditionalEventHandler in
        KeepsRules ⟦<Line<'out, 'prompt, O, H, P, S> as EditorState>⟧
        ⟦<KeyQueue as RawReader>⟧
        (session state.old (k input_state.old) keys.old kill_ring.old)
        (session state.new (k input_state.new) keys.new kill_ring.new) }
    ensures faults { FaultsOnly result }
    ensures ring { kill_ring.new.size ≡ kill_ring.old.size }
{
    draw_first(draws, mode, state)?;
    let turned = turns(mode, state, input_state, keys, kill_ring, config);
    if turned.is_err() {
        *mode = Mode::Editing;
    }
    turned
}

/// Draws the line, where `draws` says so or a program that was suspended goes on: commands are read
/// then.
///
/// # Errors
/// `Io` if the output, the helper or the history fails, and `Memory` if memory runs out. The mode
/// is then as it was. The line, its changes and the hint may be any, and so may what the screen
/// shows.
fn draw_first<E: Modal>(draws: bool, mode: &mut Mode, state: &mut E) -> Result<()>
    ensures starts { (input : Input) (items : List Item) (kills : Ring) →
        OnOk result (starting (E.environment state.old) draws
        (standing_with (E.draft state.old) input mode.old items kills)
        ≡ standing_with (E.draft state.new) input mode.new items kills) }
    ensures shown { (items : List Item) →
        (draws ≡ false → IsShownWith E.EditorState mode.old items state.old)
        → OnOk result (IsShownWith E.EditorState mode.new items state.new) }
    ensures frame { Frame E.EditorState state.old state.new }
    ensures faults { FaultsOnly result }
{
    if mode.is_suspended() {
        resume(state)?;
        *mode = Mode::Editing;
        return Ok(());
    }
    if draws {
        draw(mode, state)?;
    }
    Ok(())
}

/// Draws the line of a program that goes on: below what the terminal shows meanwhile.
///
/// # Errors
/// `Io` if the output, the helper or the history fails, and `Memory` if memory runs out. The line,
/// its changes and the hint may then be any, and so may what the screen shows.
fn resume<E: Modal>(state: &mut E) -> Result<()>
    ensures draft { OnOk result (E.draft state.new ≡ hinted (E.environment state.old)
        (E.draft state.old)) }
    ensures shown { OnOk result (IsLineShown E.EditorState state.new) }
    ensures frame { Frame E.EditorState state.old state.new }
    ensures faults { FaultsOnly result }
{
    state.move_cursor_at_leftmost()?;
    state.refresh_line()
}

/// Draws the line: in a search after its prompt, and else after its own.
///
/// # Errors
/// `Io` if the output, the helper or the history fails, and `Memory` if memory runs out. The line,
/// its changes and the hint may then be any, and so may what the screen shows.
fn draw<E: Modal>(mode: &Mode, state: &mut E) -> Result<()>
    ensures draft { OnOk result (E.draft state.new ≡ hinted (E.environment state.old)
        (E.draft state.old)) }
    ensures shown { OnOk result (IsShownIn E.EditorState mode.now state.new) }
    ensures frame { Frame E.EditorState state.old state.new }
    ensures faults { FaultsOnly result }
{
    match mode {
        Mode::Searching(searching) => searching.draw(state),
        _ => state.refresh_line(),
    }
}

/// Takes turns as `take_turns` does, of a line that is shown.
fn turns<
    'out,
    'prompt,
    O: Write + Drop,
    H: Helper,
    P: Prompt,
    S: History,
    C: ConditionalEventHandler,
>(
    mode: &mut Mode,
    state: &mut Line<'out, 'prompt, O, H, P, S>,
    input_state: &mut InputState<'_, C>,
    keys: &mut KeyQueue,
    kill_ring: &mut KillRing,
    config: &Config,
) -> Result<Turned>
    requires { let e = ⟦<Line<'out, 'prompt, O, H, P, S> as EditorState>⟧ in
        IsShownWith e mode.old keys.old.rest state.old }
    ensures comes { let k = keys_of C.ConditionalEventHandler in
        let e = ⟦<Line<'out, 'prompt, O, H, P, S> as EditorState>⟧ in
        let r = ⟦<KeyQueue as RawReader>⟧ in
        let before = session state.old (k input_state.old) keys.old kill_ring.old in
        let after = session state.new (k input_state.new) keys.new kill_ring.new in
        IfOk result (TurnsComeTo (is_settled mode.new (e.display state.new).layout.default_prompt)
        (session_rules e r config.now before)
        (standing_of e r mode.old before) (standing_of e r mode.new after)) }
    ensures drawn { let e = ⟦<Line<'out, 'prompt, O, H, P, S> as EditorState>⟧ in
        IfOk result (λ turned. DrawnOnce e mode.new keys.new.rest turned state.new) }
    ensures keeps { let k = keys_of C.ConditionalEventHandler in
        KeepsRules ⟦<Line<'out, 'prompt, O, H, P, S> as EditorState>⟧
        ⟦<KeyQueue as RawReader>⟧
        (session state.old (k input_state.old) keys.old kill_ring.old)
        (session state.new (k input_state.new) keys.new kill_ring.new) }
    ensures faults { FaultsOnly result }
    ensures ring { kill_ring.new.size ≡ kill_ring.old.size }
{
    'turns: loop {
        keys.mark();
        if let Some(item) = next_as_it_is(mode, keys)? {
            take_item(mode, item, state, input_state, kill_ring, config)?;
            continue;
        }
        if mode.reads_no_command() {
            return Ok(Turned::NeedsMore);
        }
        let turned = turn(mode, state, input_state, keys, kill_ring, config)?;
        match turned {
            Turned::Proceeds => {}
            Turned::NeedsMore => {
                keys.rewind();
                return Ok(Turned::NeedsMore);
            }
            _ => return Ok(turned),
        }
    }
}

/// Takes the next item and returns it, where it is taken by itself. Returns None, and takes
/// nothing, where it is read as part of a command, nothing is left, or the program is suspended.
///
/// # Errors
/// `Memory` if memory runs out, and `Io` if the queue fails. Nothing is then taken.
fn next_as_it_is(mode: &Mode, keys: &mut KeyQueue) -> Result<Option<AsItIs>>
    ensures takes { IfOk result (λ taken.
        TakesAsItIs mode.now (option_map item_as_it_is taken) keys.old.rest keys.new.rest) }
    ensures none { IfOk result (λ taken. taken ≡ None → keys.new ≡ keys.old) }
    ensures err { OnErr result (keys.new.rest ≡ keys.old.rest) }
    ensures binds { keys.new.binds ≡ keys.old.binds }
    ensures faults { FaultsOnly result }
{
    if mode.is_suspended() {
        return Ok(None);
    }
    if let Some(text) = keys.next_paste()? {
        return Ok(Some(AsItIs::Text(text)));
    }
    if !mode.reads_no_command() {
        return Ok(None);
    }
    match keys.next_key(false) {
        Ok(key) => Ok(Some(AsItIs::Key(key))),
        Err(ReadlineError::Eof) => Ok(None),
        Err(error) => Err(error),
    }
}

/// Takes one turn, of keys that are read as a command. Returns how it ended.
///
/// # Errors
/// `Io` if the output, a handler, the helper or the history fails, and `Memory` if memory runs out.
/// The line, its changes, the hint, the mode, the kill ring and the items that are left may then be
/// any, and so may what the screen shows. The kill ring keeps its size.
fn turn<
    'out,
    'prompt,
    O: Write + Drop,
    H: Helper,
    P: Prompt,
    S: History,
    C: ConditionalEventHandler,
>(
    mode: &mut Mode,
    state: &mut Line<'out, 'prompt, O, H, P, S>,
    input_state: &mut InputState<'_, C>,
    keys: &mut KeyQueue,
    kill_ring: &mut KillRing,
    config: &Config,
) -> Result<Turned>
    requires reads { reads_no_command mode.old ≡ false }
    requires shown { let e = ⟦<Line<'out, 'prompt, O, H, P, S> as EditorState>⟧ in
        IsShownWith e mode.old keys.old.rest state.old }
    ensures takes { let k = keys_of C.ConditionalEventHandler in
        let e = ⟦<Line<'out, 'prompt, O, H, P, S> as EditorState>⟧ in
        let r = ⟦<KeyQueue as RawReader>⟧ in
        IfOk result (λ turned. TakesOne e r config.now mode.old
        (session state.old (k input_state.old) keys.old kill_ring.old) turned mode.new
        (session state.new (k input_state.new) keys.new kill_ring.new)) }
    ensures drawn { let e = ⟦<Line<'out, 'prompt, O, H, P, S> as EditorState>⟧ in
        IfOk result (λ turned. DrawnBehind e keys.old.rest mode.new turned state.new) }
    ensures fewer { IfOk result (λ turned. turned ≡ Turned.Proceeds
        → length keys.new.rest < length keys.old.rest) }
    ensures keeps { let k = keys_of C.ConditionalEventHandler in
        KeepsReading ⟦<Line<'out, 'prompt, O, H, P, S> as EditorState>⟧
        ⟦<KeyQueue as RawReader>⟧ state.old (k input_state.old) keys.old
        state.new (k input_state.new) keys.new }
    ensures faults { FaultsOnly result }
    ensures ring { kill_ring.new.size ≡ kill_ring.old.size }
{
    if let Some(searching) = mode.take_search() {
        let (turned, next) = search_turn(searching, state, input_state, keys, kill_ring, config)?;
        *mode = next;
        return Ok(turned);
    }
    edit_turn(mode, state, input_state, keys, kill_ring, config)
}

/// Takes one turn outside of a search: reads a command, executes it, and answers what it left to
/// the program.
fn edit_turn<
    'out,
    'prompt,
    O: Write + Drop,
    H: Helper,
    P: Prompt,
    S: History,
    C: ConditionalEventHandler,
>(
    mode: &mut Mode,
    state: &mut Line<'out, 'prompt, O, H, P, S>,
    input_state: &mut InputState<'_, C>,
    keys: &mut KeyQueue,
    kill_ring: &mut KillRing,
    config: &Config,
) -> Result<Turned>
    requires reads { reads_no_command mode.old ≡ false }
    requires edits { shows_line mode.old ≡ true }
    requires shown { let e = ⟦<Line<'out, 'prompt, O, H, P, S> as EditorState>⟧ in
        IsLineShown e state.old }
    ensures takes { let k = keys_of C.ConditionalEventHandler in
        let e = ⟦<Line<'out, 'prompt, O, H, P, S> as EditorState>⟧ in
        let r = ⟦<KeyQueue as RawReader>⟧ in
        IfOk result (λ turned. TakesOne e r config.now mode.old
        (session state.old (k input_state.old) keys.old kill_ring.old) turned mode.new
        (session state.new (k input_state.new) keys.new kill_ring.new)) }
    ensures drawn { let e = ⟦<Line<'out, 'prompt, O, H, P, S> as EditorState>⟧ in
        IfOk result (λ turned. DrawnBehind e keys.old.rest mode.new turned state.new) }
    ensures fewer { IfOk result (λ turned. turned ≡ Turned.Proceeds
        → length keys.new.rest < length keys.old.rest) }
    ensures keeps { let k = keys_of C.ConditionalEventHandler in
        KeepsReading ⟦<Line<'out, 'prompt, O, H, P, S> as EditorState>⟧
        ⟦<KeyQueue as RawReader>⟧ state.old (k input_state.old) keys.old
        state.new (k input_state.new) keys.new }
    ensures faults { FaultsOnly result }
    ensures ring { kill_ring.new.size ≡ kill_ring.old.size }
{
    let (turned, left) = take_turn(state, input_state, keys, kill_ring, config)?;
    match turned {
        Turned::Proceeds => {
            if let Some(left) = left {
                let was = mem::replace(mode, Mode::Editing);
                *mode = answer(left, was, state, config)?;
                return Ok(Turned::Proceeds);
            }
            *mode = Mode::Editing;
            Ok(Turned::Proceeds)
        }
        Turned::NeedsMore => Ok(Turned::NeedsMore),
        _ => {
            *mode = Mode::Editing;
            Ok(turned)
        }
    }
}

/// Takes one turn in a search: reads a command, and does what it says to the search. Another
/// command ends it, and is executed.
fn search_turn<
    'out,
    'prompt,
    O: Write + Drop,
    H: Helper,
    P: Prompt,
    S: History,
    C: ConditionalEventHandler,
>(
    searching: Searching,
    state: &mut Line<'out, 'prompt, O, H, P, S>,
    input_state: &mut InputState<'_, C>,
    keys: &mut KeyQueue,
    kill_ring: &mut KillRing,
    config: &Config,
) -> Result<(Turned, Mode)>
    requires reads { reads_no_command (Mode.Searching searching) ≡ false }
    requires shown { let e = ⟦<Line<'out, 'prompt, O, H, P, S> as EditorState>⟧ in
        IsShownWith e (Mode.Searching searching) keys.old.rest state.old }
    ensures takes { let k = keys_of C.ConditionalEventHandler in
        let e = ⟦<Line<'out, 'prompt, O, H, P, S> as EditorState>⟧ in
        let r = ⟦<KeyQueue as RawReader>⟧ in
        IfOk result (λ done. TakesOne e r config.now (Mode.Searching searching)
        (session state.old (k input_state.old) keys.old kill_ring.old) done.0 done.1
        (session state.new (k input_state.new) keys.new kill_ring.new)) }
    ensures drawn { let e = ⟦<Line<'out, 'prompt, O, H, P, S> as EditorState>⟧ in
        IfOk result (λ done. DrawnBehind e keys.old.rest done.1 done.0 state.new) }
    ensures fewer { IfOk result (λ done. done.0 ≡ Turned.Proceeds
        → length keys.new.rest < length keys.old.rest) }
    ensures keeps { let k = keys_of C.ConditionalEventHandler in
        KeepsReading ⟦<Line<'out, 'prompt, O, H, P, S> as EditorState>⟧
        ⟦<KeyQueue as RawReader>⟧ state.old (k input_state.old) keys.old
        state.new (k input_state.new) keys.new }
    ensures faults { FaultsOnly result }
    ensures ring { kill_ring.new.size ≡ kill_ring.old.size }
{
    let Some(command) = read_turn(state, input_state, keys, kill_ring, true)? else {
        return Ok((Turned::NeedsMore, Mode::Searching(searching)));
    };
    let (turned, next) = do_in_search(searching, command, state, input_state, kill_ring, config)?;
    Ok((turned, next))
}

/// Does what a command says to a search; another one ends it, and is executed. Returns how the turn
/// ended, and what the next items are read as.
fn do_in_search<
    'out,
    'prompt,
    O: Write + Drop,
    H: Helper,
    P: Prompt,
    S: History,
    C: ConditionalEventHandler,
>(
    searching: Searching,
    command: Cmd,
    state: &mut Line<'out, 'prompt, O, H, P, S>,
    input_state: &InputState<'_, C>,
    kill_ring: &mut KillRing,
    config: &Config,
) -> Result<(Turned, Mode)>
    ensures does { let e = ⟦<Line<'out, 'prompt, O, H, P, S> as EditorState>⟧ in
        (keymap : Keymap) → IfOk result (λ done. AnswersAs done.0 (DoesInSearch
        (rules_by e keymap config.now state.old) (search_value searching)
        (search_cmd (command_of command)) (command_of command) (input_of input_state.now)
        (editor_of e state.old kill_ring.old) (editor_of e state.new kill_ring.new) done.1)) }
    ensures drawn { let e = ⟦<Line<'out, 'prompt, O, H, P, S> as EditorState>⟧ in
        (items : List Item) → IfOk result (λ done.
        DrawnBehind e items done.1 done.0 state.new) }
    ensures mode { IfOk result (λ done. done.0 ≡ Turned.Proceeds ⊎ done.1 ≡ Mode.Editing) }
    ensures frame { let e = ⟦<Line<'out, 'prompt, O, H, P, S> as EditorState>⟧ in
        Frame e state.old state.new }
    ensures faults { FaultsOnly result }
    ensures ring { kill_ring.new.size ≡ kill_ring.old.size }
{
    if let Some(says) = SearchCmd::by(&command) {
        return Ok((Turned::Proceeds, searching.take(says, state)?));
    }
    state.refresh_line()?;
    let (turned, left) = do_turn(command, state, input_state, kill_ring, config)?;
    match turned {
        Turned::Proceeds => {
            if let Some(left) = left {
                let next = answer(left, Mode::Editing, state, config)?;
                return Ok((Turned::Proceeds, next));
            }
            Ok((Turned::Proceeds, Mode::Editing))
        }
        _ => Ok((turned, Mode::Editing)),
    }
}

/// Answers what a command left to the program: begins a search or a completion, or goes on with
/// one; beeps where nothing can be given up; and takes the cursor below the line where the program
/// is asked to suspend itself. Returns what the next items are read as.
///
/// # Errors
/// `Io` if the output, the helper or the history fails, and `Memory` if memory runs out. The line,
/// its changes and the hint may then be any, and so may what the screen shows.
fn answer<E: Modal>(left: Deferred, mode: Mode, state: &mut E, config: &Config) -> Result<Mode>
    requires { IsLineShown E.EditorState state.old }
    ensures answers { IfOk result (AnswersCommand config.now (E.environment state.old) (Some left)
        mode (E.draft state.old) (E.draft state.new)) }
    ensures shown { IfOk result (λ mode. IsShownIn E.EditorState mode state.new) }
    ensures frame { Frame E.EditorState state.old state.new }
    ensures faults { FaultsOnly result }
{
    match left {
        Deferred::QuotedInsert => Ok(Mode::Quoting),
        Deferred::Complete => complete_on(mode, state, config),
        Deferred::CompleteBackward => match mode {
            Mode::Completing(going) => going.show_previous(state),
            _ => Ok(Mode::Editing),
        },
        Deferred::Abort => give_up(mode, state),
        Deferred::ReverseSearchHistory => search(SearchDirection::Reverse, state),
        Deferred::ForwardSearchHistory => search(SearchDirection::Forward, state),
        Deferred::Suspend => suspend(state),
    }
}

/// Begins a completion, or goes on with one: shows its next candidate, or lists the candidates that
/// it offered.
fn complete_on<E: Modal>(mode: Mode, state: &mut E, config: &Config) -> Result<Mode>
    requires { IsLineShown E.EditorState state.old }
    ensures answers { IfOk result (AnswersCommand config.now (E.environment state.old)
        (Some Deferred.Complete) mode (E.draft state.old) (E.draft state.new)) }
    ensures shown { IfOk result (λ mode. IsShownIn E.EditorState mode state.new) }
    ensures frame { Frame E.EditorState state.old state.new }
    ensures faults { FaultsOnly result }
{
    match mode {
        Mode::Completing(going) => going.show_next(state),
        Mode::Offering(candidates) => list(candidates, state, config),
        _ => complete(state, config),
    }
}

/// Gives a completion up, or beeps where there is none.
fn give_up<E: Modal>(mode: Mode, state: &mut E) -> Result<Mode>
    requires { IsLineShown E.EditorState state.old }
    ensures answers { (settings : Settings) → IfOk result
        (AnswersCommand settings (E.environment state.old) (Some Deferred.Abort) mode
        (E.draft state.old) (E.draft state.new)) }
    ensures shown { IfOk result (λ mode. IsShownIn E.EditorState mode state.new) }
    ensures frame { Frame E.EditorState state.old state.new }
    ensures faults { FaultsOnly result }
{
    if let Mode::Completing(going) = mode {
        return going.give_up(state);
    }
    state.beep()?;
    Ok(Mode::Editing)
}

/// Takes the cursor below the line, where a program writes that goes on in its place.
fn suspend<E: Modal>(state: &mut E) -> Result<Mode>
    ensures draft { IfOk result (λ mode. (E.draft state.new ≡ E.draft state.old) ×
        (mode ≡ Mode.Suspended)) }
    ensures frame { Frame E.EditorState state.old state.new }
    ensures faults { FaultsOnly result }
{
    state.move_cursor_to_end()?;
    state.move_cursor_at_leftmost()?;
    Ok(Mode::Suspended)
}

/// Takes an item by itself: it answers a list, or is put in as it is.
///
/// # Errors
/// `Io` if the output, the helper or the history fails, and `Memory` if memory runs out. Commands
/// are then read next. The line, its changes, the hint and the kill ring may be any, and so may
/// what the screen shows. The kill ring keeps its size.
fn take_item<
    'out,
    'prompt,
    O: Write + Drop,
    H: Helper,
    P: Prompt,
    S: History,
    C: ConditionalEventHandler,
>(
    mode: &mut Mode,
    item: AsItIs,
    state: &mut Line<'out, 'prompt, O, H, P, S>,
    input_state: &InputState<'_, C>,
    kill_ring: &mut KillRing,
    config: &Config,
) -> Result<()>
    requires taken { comes_in mode.old (item_as_it_is item) ≡ true }
    requires shown { let e = ⟦<Line<'out, 'prompt, O, H, P, S> as EditorState>⟧ in
        shows_line mode.old ≡ true → IsLineShown e state.old }
    ensures takes { let e = ⟦<Line<'out, 'prompt, O, H, P, S> as EditorState>⟧ in
        OnOk result (TakesItem e config.now (input_of input_state.now) mode.old (item_as_it_is item)
        state.old kill_ring.old state.new kill_ring.new mode.new) }
    ensures shown { let e = ⟦<Line<'out, 'prompt, O, H, P, S> as EditorState>⟧ in
        OnOk result (IsShownIn e mode.new state.new) }
    ensures frame { let e = ⟦<Line<'out, 'prompt, O, H, P, S> as EditorState>⟧ in
        Frame e state.old state.new }
    ensures faults { FaultsOnly result }
    ensures ring { kill_ring.new.size ≡ kill_ring.old.size }
{
    match mem::replace(mode, Mode::Editing) {
        Mode::Listing(listing) => {
            *mode = listing.answer(&item, state)?;
            Ok(())
        }
        Mode::Searching(_) => {
            state.refresh_line()?;
            put_in(item, state, input_state, kill_ring, config)
        }
        _ => put_in(item, state, input_state, kill_ring, config),
    }
}

/// Puts in an item as it is.
///
/// # Errors
/// As `execute`, but neither `Eof` nor `Interrupted`. The line, its changes, the hint and the kill
/// ring may then be any, and so may what the screen shows. The kill ring keeps its size.
fn put_in<
    'out,
    'prompt,
    O: Write + Drop,
    H: Helper,
    P: Prompt,
    S: History,
    C: ConditionalEventHandler,
>(
    item: AsItIs,
    state: &mut Line<'out, 'prompt, O, H, P, S>,
    input_state: &InputState<'_, C>,
    kill_ring: &mut KillRing,
    config: &Config,
) -> Result<()>
    requires { let e = ⟦<Line<'out, 'prompt, O, H, P, S> as EditorState>⟧ in
        IsLineShown e state.old }
    ensures puts { let e = ⟦<Line<'out, 'prompt, O, H, P, S> as EditorState>⟧ in
        OnOk result (PutsIn e config.now (input_of input_state.now) (item_as_it_is item)
        state.old (e.draft state.old) kill_ring.old state.new kill_ring.new) }
    ensures shown { let e = ⟦<Line<'out, 'prompt, O, H, P, S> as EditorState>⟧ in
        OnOk result (IsLineShown e state.new) }
    ensures frame { let e = ⟦<Line<'out, 'prompt, O, H, P, S> as EditorState>⟧ in
        Frame e state.old state.new }
    ensures faults { FaultsOnly result }
    ensures ring { kill_ring.new.size ≡ kill_ring.old.size }
{
    kill_ring.reset();
    execute(item.command(), state, input_state, kill_ring, config)?;
    Ok(())
}
