//! Commands, executed.
ghost use Rattle.std.specs.Prelude.{◌≡◌, ◌||◌, ℕ};
ghost use Rattle.line_buffer.specs.KillRing.{Ring};
ghost use Rattle.line_editor.specs.Accept.{reply_to};
ghost use Rattle.line_editor.specs.Outcomes.{DoesCommand, DoesCommandBy, Executes};
ghost use Rattle.line_input.specs.Input.{Input};
ghost use Rattle.line_input.specs.InputState.{input_of};
ghost use Rattle.line_keys.specs.Command as commands;
ghost use Rattle.line_keys.specs.Command.{command_of};
ghost use Rattle.line_keys.specs.Model.Drawing.{Does};
ghost use Rattle.line_parts.specs.Verdict.{verdict_of};

use crate::edit::State;
use line_buffer::{KillRing, WordAction};
use line_config::{Config, Prompt, ReadlineError, Result};
use line_input::{ConditionalEventHandler, InputState};
use line_keys::cmd::{Anchor, Cmd};
use line_keys::editor_state::EditorState;
use line_keys::refresher::Refresher;
use line_parts::history::SearchDirection;
use line_parts::{Helper, History, ValidationResult};
use line_state::Renderer;

/// How a command ended that did not fail.
#[derive(Clone, Copy, Debug, PartialEq, Eq)]
pub enum Status {
    /// The next command is to be read.
    Proceed,
    /// The line is submitted.
    Submit,
}

/// Does what a command says, on the line, its history and the kill ring, and draws what changed.
/// Returns whether the next command is to be read or the line is submitted. Abort, Complete,
/// CompleteBackward, ForwardSearchHistory, QuotedInsert, ReverseSearchHistory and Suspend do
/// nothing here: they are left to the program above.
///
/// # Errors
/// `Eof` for the end of the input on an empty line alone, and `Interrupted` for an interrupt alone,
/// with the kept cursor at the kept end. `Io` if the renderer fails, or if the helper or the
/// history fails where the command asks it. `Memory` if memory runs out.
///
/// After `Io` the line, its cursor, its changes, the saved line and the history index are those of
/// one moment of the command: before it, halfway or after it. The kill ring is the one of that
/// moment. The hint may be an earlier one or none.
///
/// After `Memory` the line is of one moment, too; or it may be any text, without changes, and the
/// saved line and the history index are those of one moment. The hint may be any. The kill ring is
/// the one that the command leaves, the one from before, or that one with a kill as its last
/// action.
///
/// The kept layout and what the screen shows are not specified after `Io` and `Memory`: draw the
/// line again.
pub fn execute<
    'out,
    'prompt,
    W: Renderer,
    H: Helper,
    P: Prompt,
    S: History,
    C: ConditionalEventHandler,
>(
    cmd: Cmd,
    state: &mut State<'out, 'prompt, W, H, P, S>,
    input_state: &InputState<'_, C>,
    kill_ring: &mut KillRing,
    config: &Config,
) -> Result<Status>
    ensures executes { Executes ⟦<State<'out, 'prompt, W, H, P, S> as EditorState>⟧ result state.old
        (input_of input_state.now) config.now.indent_size kill_ring.old (command_of cmd)
        state.new kill_ring.new }
    ensures ring { kill_ring.new.size ≡ kill_ring.old.size }
{
    match cmd {
        Cmd::EndOfFile => return state.end_of_file(input_state),
        Cmd::AcceptLine => return state.accept_line(),
        Cmd::AcceptOrInsertLine {
            accept_in_the_middle,
        } => return state.accept_or_insert_line(accept_in_the_middle),
        Cmd::Interrupt => return state.interrupt(),
        Cmd::Kill(movement) => {
            state.edit_kill(&movement, kill_ring)?;
            return Ok(Status::Proceed);
        }
        Cmd::Replace(movement, text) => {
            state.replace(&movement, text.as_deref(), kill_ring)?;
            return Ok(Status::Proceed);
        }
        Cmd::ViYankTo(movement) => {
            state.copy_to(&movement, kill_ring)?;
            return Ok(Status::Proceed);
        }
        Cmd::KillToBracket => {
            state.kill_to_bracket(kill_ring)?;
            return Ok(Status::Proceed);
        }
        Cmd::ReplaceToBracket(text) => {
            state.replace_to_bracket(text.as_deref(), kill_ring)?;
            return Ok(Status::Proceed);
        }
        Cmd::YankToBracket => {
            state.copy_to_bracket(kill_ring)?;
            return Ok(Status::Proceed);
        }
        Cmd::Yank(n, anchor) => {
            state.yank_killed(input_state, anchor, n, kill_ring)?;
            return Ok(Status::Proceed);
        }
        Cmd::YankPop => {
            state.pop_killed(kill_ring)?;
            return Ok(Status::Proceed);
        }
        other => {
            state.edit_by(other, input_state, config.indent_size())?;
            return Ok(Status::Proceed);
        }
    }
}

impl<'out, 'prompt, W: Renderer, H: Helper, P: Prompt, S: History> State<
    'out,
    'prompt,
    W,
    H,
    P,
    S,
> {
    // Does what a command says that neither ends the run nor looks at the kill ring.
    fn edit_by<C: ConditionalEventHandler>(
        &mut self,
        cmd: Cmd,
        input_state: &InputState<'_, C>,
        indent_size: u8,
    ) -> Result<()>
        ensures { DoesCommandBy ⟦<Self as EditorState>⟧ result self.old self.new indent_size
            (input_of input_state.now) (command_of cmd) }
    {
        match cmd {
            Cmd::SelfInsert(n, c) => self.edit_insert(c, n),
            Cmd::Newline => self.type_newline(),
            Cmd::Insert(n, text) => self.edit_yank(input_state, &text, Anchor::Before, n),
            Cmd::ReplaceChar(n, c) => self.edit_replace_char(c, n),
            Cmd::Overwrite(c) => self.edit_overwrite_char(c),
            Cmd::Move(movement) => self.move_by(&movement),
            Cmd::MoveToBracket => self.move_to_bracket(),
            Cmd::LineUpOrPreviousHistory(n) => self.up_or_previous(n),
            Cmd::LineDownOrNextHistory(n) => self.down_or_next(n),
            Cmd::Undo(n) => self.undo(n),
            Cmd::Indent(movement) => self.edit_indent(&movement, indent_size, false),
            Cmd::Dedent(movement) => self.edit_indent(&movement, indent_size, true),
            Cmd::TransposeChars => self.edit_transpose_chars(),
            Cmd::TransposeWords(n) => self.edit_transpose_words(n),
            Cmd::CapitalizeWord => self.edit_word(WordAction::Capitalize),
            Cmd::DowncaseWord => self.edit_word(WordAction::Lowercase),
            Cmd::UpcaseWord => self.edit_word(WordAction::Uppercase),
            Cmd::PreviousHistory => self.edit_history_next(true),
            Cmd::NextHistory => self.edit_history_next(false),
            Cmd::BeginningOfHistory => self.edit_history(true),
            Cmd::EndOfHistory => self.edit_history(false),
            Cmd::HistorySearchBackward => self.edit_history_search(SearchDirection::Reverse),
            Cmd::HistorySearchForward => self.edit_history_search(SearchDirection::Forward),
            Cmd::CompleteHint => self.complete_hint(),
            Cmd::ClearScreen => self.clear_and_redraw(),
            Cmd::Repaint => self.refresh_line(),
            // These do nothing here: what they mean, if anything, is left to the program above.
            Cmd::Abort
            | Cmd::Complete
            | Cmd::CompleteBackward
            | Cmd::ForwardSearchHistory
            | Cmd::Noop
            | Cmd::QuotedInsert
            | Cmd::ReverseSearchHistory
            | Cmd::Suspend
            | Cmd::Unknown => Ok(()),
            // This function never gets these: `execute` does them.
            Cmd::AcceptLine
            | Cmd::AcceptOrInsertLine { .. }
            | Cmd::EndOfFile
            | Cmd::Interrupt
            | Cmd::Kill(_)
            | Cmd::KillToBracket
            | Cmd::Replace(_, _)
            | Cmd::ReplaceToBracket(_)
            | Cmd::ViYankTo(_)
            | Cmd::Yank(_, _)
            | Cmd::YankPop
            | Cmd::YankToBracket => Ok(()),
        }
    }

    // Takes the hint away, and puts a newline at the cursor.
    fn type_newline(&mut self) -> Result<()>
        ensures { DoesCommand ⟦<Self as EditorState>⟧ result self.old self.new commands.newline }
    {
        self.drop_hint()?;
        self.edit_insert('\n', 1)
    }

    // Ends the input on an empty line; submits another line in Vi mode.
    fn end_of_file<C: ConditionalEventHandler>(
        &mut self,
        input_state: &InputState<'_, C>,
    ) -> Result<Status>
        ensures { let e = ⟦<Self as EditorState>⟧ in (indent : ℕ) → (kills : Ring)
            → Executes e result self.old (input_of input_state.now) indent kills
            commands.end_of_file self.new kills }
    {
        self.drop_hint()?;
        if self.line().is_empty() {
            return Err(ReadlineError::Eof);
        }
        if input_state.is_emacs_mode() {
            Ok(Status::Proceed)
        } else {
            Ok(Status::Submit)
        }
    }

    // Moves the screen cursor to the end of what is shown, and interrupts.
    fn interrupt(&mut self) -> Result<Status>
        ensures { let e = ⟦<Self as EditorState>⟧ in (input : Input) → (indent : ℕ) → (kills : Ring)
            → Executes e result self.old input indent kills commands.interrupt self.new kills }
    {
        self.move_cursor_to_end()?;
        Err(ReadlineError::Interrupted)
    }

    // Validates the line, and submits it whatever the result is.
    fn accept_line(&mut self) -> Result<Status>
        ensures { let e = ⟦<Self as EditorState>⟧ in (input : Input) → (indent : ℕ) → (kills : Ring)
            → Executes e result self.old input indent kills commands.accept_line self.new kills }
    {
        self.drop_hint()?;
        let _ = self.validate()?;
        Ok(Status::Submit)
    }

    // Submits a valid line, and puts a newline into another one unless a message says why it is
    // refused.
    fn accept_or_insert_line(&mut self, accept_in_the_middle: bool) -> Result<Status>
        ensures { let e = ⟦<Self as EditorState>⟧ in (input : Input) → (indent : ℕ) → (kills : Ring)
            → Executes e result self.old input indent kills
            (commands.accept_or_insert_line accept_in_the_middle) self.new kills }
    {
        self.drop_hint()?;
        let verdict = self.validate()?;
        match reply_for(&verdict, accept_in_the_middle, self.is_end_of_input()) {
            Reply::Submits => Ok(Status::Submit),
            Reply::Stays => Ok(Status::Proceed),
            Reply::GoesOn => {
                self.edit_insert('\n', 1)?;
                Ok(Status::Proceed)
            }
        }
    }
}

// What becomes of a line that was validated.
enum Reply {
    // It is submitted.
    Submits,
    // It stays as it is.
    Stays,
    // A newline is put into it.
    GoesOn,
}

// Returns what becomes of a line by its validation result. A valid one is submitted in the middle,
// where that is allowed, or at the end of the input.
fn reply_for(verdict: &ValidationResult, in_the_middle: bool, at_end: bool) -> Reply
    ensures { result ≡ reply_to (verdict_of verdict.now) (in_the_middle || at_end) }
{
    match verdict {
        ValidationResult::Valid(_) if in_the_middle || at_end => Reply::Submits,
        ValidationResult::Invalid(Some(_)) => Reply::Stays,
        _ => Reply::GoesOn,
    }
}
