//! Reads commands and executes them, until the line is submitted or the input ends.
ghost use Rattle.std.specs.Prelude.{◌≡◌, false, IfErr};
ghost use Rattle.line_config.specs.Error.{FaultsOnly, is_fault};
ghost use Rattle.line_editor.specs.Outcomes.{Advances, DoesTurn, ReadsTurn, Runs, TellsDeferred, command_read, ended_so, kills_read, session};
ghost use Rattle.line_input.specs.InputState.{input_of, keys_of};
ghost use Rattle.line_input.specs.Reading.{BeforeKey};
ghost use Rattle.line_keys.specs.Command.{command_of};

use crate::command::{Status, execute};
use crate::deferred::Deferred;
use crate::edit::State;
use line_buffer::KillRing;
use line_config::{Config, Prompt, ReadlineError, Result};
use line_input::{ConditionalEventHandler, InputState};
use line_keys::cmd::Cmd;
use line_keys::editor_state::EditorState;
use line_keys::keys::KeyEvent;
use line_keys::raw_reader::RawReader;
use line_keys::refresher::Refresher;
use line_parts::{Helper, History};
use line_state::Renderer;

/// How a turn ended that did not fail.
#[derive(Clone, Copy, Debug, PartialEq, Eq)]
pub enum Turned {
    /// The command was executed: the next one is to be read.
    Proceeds,
    /// The line is submitted.
    Submitted,
    /// The input ended, by a command on an empty line.
    Ended,
    /// The person interrupted.
    Interrupted,
    /// The items ran out before a phrase or inside of one. The items of such a phrase are to be
    /// read again, with more after them.
    NeedsMore,
}

/// Reads the keys of one command, as `next_cmd` of the state does, and resets the kill ring where
/// the command says so. Returns None where the items ran out before a phrase or inside of one: its
/// items are to be read again, with more after them.
///
/// # Errors
/// `Io` if the reader, the renderer, a handler, the helper or the history fails, and `Memory` if
/// memory runs out. The line and its cursor, the saved line, the history index, what is remembered
/// of the keys and the kill ring are then as they were, and no item past the phrase that was begun
/// is read. After `Io` the changes are as they were, too, but open groups of them may have ended;
/// after `Memory` they may be any. The hint may be another one. Draw the line again.
pub fn read_turn<
    'out,
    'prompt,
    W: Renderer,
    H: Helper,
    P: Prompt,
    S: History,
    C: ConditionalEventHandler,
>(
    state: &mut State<'out, 'prompt, W, H, P, S>,
    input_state: &mut InputState<'_, C>,
    rdr: &mut W::Reader,
    kill_ring: &mut KillRing,
    single_esc_abort: bool,
) -> Result<Option<Cmd>>
    ensures reads { let k = keys_of C.ConditionalEventHandler in
        ReadsTurn ⟦<State<'out, 'prompt, W, H, P, S> as EditorState>⟧ W.Reader.RawReader result
        (session state.old (k input_state.old) rdr.old kill_ring.old)
        (session state.new (k input_state.new) rdr.new kill_ring.new) }
    ensures ring { kill_ring.new.size ≡ kill_ring.old.size }
{
    as_turn(
        state.next_cmd(input_state, rdr, single_esc_abort),
        kill_ring,
    )
}

// Returns the command that was read, and resets the kill ring where it says so; or None, where the
// items ran out.
fn as_turn(read: Result<Cmd>, kill_ring: &mut KillRing) -> Result<Option<Cmd>>
    ensures read { command_read result ≡ read }
    ensures reset { kill_ring.new ≡ kills_read result kill_ring.old }
    ensures faults { IfErr read (λ error. is_fault error ≡ false → error ≡ ReadlineError.Eof)
        → FaultsOnly result }
    ensures ring { kill_ring.new.size ≡ kill_ring.old.size }
{
    match read {
        Ok(command) => {
            if command.should_reset_kill_ring() {
                kill_ring.reset();
            }
            Ok(Some(command))
        }
        Err(ReadlineError::Eof) => Ok(None),
        Err(error) => Err(error),
    }
}

/// Executes a command that was read for a turn. Returns how the turn ended, and, where it proceeds,
/// what the command leaves to the program.
///
/// # Errors
/// As `execute`, but for `Eof` and `Interrupted`, which are ways for a turn to end: the line, its
/// changes, the saved line, the history index and the kill ring are those of one moment of the
/// command; where memory ran out the line may also be any text, without changes, and the kill ring
/// may be the one from before. What the screen shows is not specified: draw the line again.
pub fn do_turn<
    'out,
    'prompt,
    W: Renderer,
    H: Helper,
    P: Prompt,
    S: History,
    C: ConditionalEventHandler,
>(
    command: Cmd,
    state: &mut State<'out, 'prompt, W, H, P, S>,
    input_state: &InputState<'_, C>,
    kill_ring: &mut KillRing,
    config: &Config,
) -> Result<(Turned, Option<Deferred>)>
    ensures does { DoesTurn ⟦<State<'out, 'prompt, W, H, P, S> as EditorState>⟧ result state.old
        (input_of input_state.now) config.now.indent_size kill_ring.old (command_of command)
        state.new kill_ring.new }
    ensures ring { kill_ring.new.size ≡ kill_ring.old.size }
{
    let left = Deferred::by(&command);
    match execute(command, state, input_state, kill_ring, config) {
        Ok(Status::Proceed) => Ok((Turned::Proceeds, left)),
        Ok(Status::Submit) => Ok((Turned::Submitted, None)),
        Err(ReadlineError::Eof) => Ok((Turned::Ended, None)),
        Err(ReadlineError::Interrupted) => Ok((Turned::Interrupted, None)),
        Err(error) => Err(error),
    }
}

/// Reads one command and executes it. Returns how the turn ended.
///
/// A program that gets its keys one after another draws the line once by `refresh_line`, and then
/// calls this for as long as the reader has items. After `NeedsMore` no item is left unread: hand
/// the reader the items of the phrase that was cut short again, with more after them.
///
/// # Errors
/// `Io` if the reader, the renderer, a handler, the helper or the history fails, and `Memory` if
/// memory runs out. The error does not say whether reading failed or the command.
///
/// If reading failed, the line and its cursor, the saved line, the history index, what is
/// remembered of the keys and the kill ring are as they were, and no item past the phrase that was
/// begun is read. If the command failed, its phrase is read and no item more, and the line, its
/// changes and the kill ring are left as `execute` leaves them. What the screen shows is not
/// specified in either case: draw the line again.
pub fn advance<
    'out,
    'prompt,
    W: Renderer,
    H: Helper,
    P: Prompt,
    S: History,
    C: ConditionalEventHandler,
>(
    state: &mut State<'out, 'prompt, W, H, P, S>,
    input_state: &mut InputState<'_, C>,
    rdr: &mut W::Reader,
    kill_ring: &mut KillRing,
    config: &Config,
) -> Result<Turned>
    ensures advances { let k = keys_of C.ConditionalEventHandler in
        Advances ⟦<State<'out, 'prompt, W, H, P, S> as EditorState>⟧ W.Reader.RawReader
        config.now.indent_size result
        (session state.old (k input_state.old) rdr.old kill_ring.old)
        (session state.new (k input_state.new) rdr.new kill_ring.new) }
    ensures ring { kill_ring.new.size ≡ kill_ring.old.size }
{
    let (turned, _) = take_turn(state, input_state, rdr, kill_ring, config)?;
    Ok(turned)
}

/// Reads one command and executes it, as `advance` does. Returns how the turn ended, and, where it
/// proceeds, what its command leaves to the program.
///
/// # Errors
/// As `advance`: either reading failed, and the line, the history index, what is remembered of the
/// keys and the kill ring are as they were; or the command failed, and all is left as `execute`
/// leaves it.
pub fn take_turn<
    'out,
    'prompt,
    W: Renderer,
    H: Helper,
    P: Prompt,
    S: History,
    C: ConditionalEventHandler,
>(
    state: &mut State<'out, 'prompt, W, H, P, S>,
    input_state: &mut InputState<'_, C>,
    rdr: &mut W::Reader,
    kill_ring: &mut KillRing,
    config: &Config,
) -> Result<(Turned, Option<Deferred>)>
    ensures advances { let k = keys_of C.ConditionalEventHandler in
        Advances ⟦<State<'out, 'prompt, W, H, P, S> as EditorState>⟧ W.Reader.RawReader
        config.now.indent_size (ended_so result)
        (session state.old (k input_state.old) rdr.old kill_ring.old)
        (session state.new (k input_state.new) rdr.new kill_ring.new) }
    ensures left { let k = keys_of C.ConditionalEventHandler in
        TellsDeferred ⟦<State<'out, 'prompt, W, H, P, S> as EditorState>⟧ W.Reader.RawReader result
        (session state.old (k input_state.old) rdr.old kill_ring.old)
        (session state.new (k input_state.new) rdr.new kill_ring.new) }
    ensures ring { kill_ring.new.size ≡ kill_ring.old.size }
{
    let first = match rdr.next_key(false) {
        Ok(first) => first,
        Err(ReadlineError::Eof) => return Ok((Turned::NeedsMore, None)),
        Err(error) => return Err(error),
    };
    let Some(c) = input_state.typed_by(rdr, first) else {
        return take_turn_from(first, state, input_state, rdr, kill_ring, config);
    };
    kill_ring.reset();
    state.edit_insert(c, 1)?;
    Ok((Turned::Proceeds, None))
}

// Takes a turn whose first key was read.
fn take_turn_from<
    'out,
    'prompt,
    W: Renderer,
    H: Helper,
    P: Prompt,
    S: History,
    C: ConditionalEventHandler,
>(
    first: KeyEvent,
    state: &mut State<'out, 'prompt, W, H, P, S>,
    input_state: &mut InputState<'_, C>,
    rdr: &mut W::Reader,
    kill_ring: &mut KillRing,
    config: &Config,
) -> Result<(Turned, Option<Deferred>)>
    ensures advances { let k = keys_of C.ConditionalEventHandler in
        BeforeKey W.Reader.RawReader first rdr.old (λ reader.
        Advances ⟦<State<'out, 'prompt, W, H, P, S> as EditorState>⟧ W.Reader.RawReader
        config.now.indent_size (ended_so result)
        (session state.old (k input_state.old) reader kill_ring.old)
        (session state.new (k input_state.new) rdr.new kill_ring.new)) }
    ensures left { let k = keys_of C.ConditionalEventHandler in
        BeforeKey W.Reader.RawReader first rdr.old (λ reader.
        TellsDeferred ⟦<State<'out, 'prompt, W, H, P, S> as EditorState>⟧ W.Reader.RawReader result
        (session state.old (k input_state.old) reader kill_ring.old)
        (session state.new (k input_state.new) rdr.new kill_ring.new)) }
    ensures ring { kill_ring.new.size ≡ kill_ring.old.size }
{
    let read = state.cmd_from(input_state, rdr, first);
    match as_turn(read, kill_ring) {
        Ok(Some(command)) => do_turn(command, state, input_state, kill_ring, config),
        Ok(None) => Ok((Turned::NeedsMore, None)),
        Err(error) => Err(error),
    }
}

/// Reads commands and executes them until the line is submitted, and leaves the line in `state`. It
/// draws the line first, and after each command what it changed.
///
/// # Errors
/// `Eof` if the items end, or for the end of the input on an empty line, and `Interrupted` for an
/// interrupt, with the screen cursor at the end of what is shown. After both the line is as the
/// commands that were read leave it. `Io` if the reader, the renderer, a handler, the helper or the
/// history fails, and `Memory` if memory runs out.
///
/// After `Io` or `Memory` either the first drawing failed: nothing was read, and of the line at
/// most the hint has changed. Or turns were taken up to one that failed, and all is left as
/// `advance` leaves it. What the screen shows is not specified: draw the line again.
pub fn run<
    'out,
    'prompt,
    W: Renderer,
    H: Helper,
    P: Prompt,
    S: History,
    C: ConditionalEventHandler,
>(
    state: &mut State<'out, 'prompt, W, H, P, S>,
    input_state: &mut InputState<'_, C>,
    rdr: &mut W::Reader,
    kill_ring: &mut KillRing,
    config: &Config,
) -> Result<()>
    ensures runs { let k = keys_of C.ConditionalEventHandler in
        Runs ⟦<State<'out, 'prompt, W, H, P, S> as EditorState>⟧ W.Reader.RawReader
        config.now.indent_size result
        (session state.old (k input_state.old) rdr.old kill_ring.old)
        (session state.new (k input_state.new) rdr.new kill_ring.new) }
    ensures ring { kill_ring.new.size ≡ kill_ring.old.size }
{
    state.refresh_line()?;
    'turns: loop {
        match advance(state, input_state, rdr, kill_ring, config)? {
            Turned::Proceeds => {}
            Turned::Submitted => return Ok(()),
            Turned::Ended => return Err(ReadlineError::Eof),
            Turned::NeedsMore => return Err(ReadlineError::Eof),
            Turned::Interrupted => return Err(ReadlineError::Interrupted),
        }
    }
}
