//! Scripts of keys: how one is read and run through the line editor, and what is printed of the
//! line.
#![tactic(auto)]

ghost use Rattle.std.specs.Prelude.{◌≡◌, ◌≤◌};
ghost use Rattle.line_script.specs.Outcome.{ReportsState};

pub mod complaint;
pub mod report;
pub mod script;

pub use complaint::Complaint;
use complaint::complaint_at;
use line_buffer::{GraphemeClusterMode, KillRing};
use line_config::{Config, Prompt, Result};
use line_editor::Bindings;
use line_editor::edit::State;
use line_editor::input_state::InputState;
use line_editor::run::run;
use line_keys::RawReader;
use line_keys::editor_state::EditorState;
use line_keys::refresher::Refresher;
use line_parts::{Context, Helper, History};
use line_screen::Plain;
pub use report::{Ending, Outcome, Report, exit_status};
use script::parse_script;
pub use script::{Parsed, Script, ScriptError, read_script};
use std::alloc::Global;
use std::io::{Read, Write};

/// The slots of the kill ring where nobody asks for others.
pub const KILL_RING_SIZE: usize = 60;

/// Runs a script and prints what became of the line, in six lines, or the script's first bad line,
/// in one. Why that line is bad is written to `errors`; where that fails, nothing else changes.
///
/// Returns the status to end with: 0 where the line was submitted, 1 where the input ended, 2 where
/// the line was interrupted, 3 after a fault of the editor, of memory or of a stream, and 4 where
/// the script has a bad line.
pub fn play<R: Read + Drop, O: Write, E: Write>(
    alloc: Global,
    input: R,
    out: &mut O,
    errors: &mut E,
) -> u8
    ensures { result ≤ 4 }
{
    exit_status(play_script(alloc, input, out, errors))
}

/// The same, and the answer is what was done. An error is a fault of memory, or of one of the
/// streams.
fn play_script<R: Read + Drop, O: Write, E: Write>(
    alloc: Global,
    mut input: R,
    out: &mut O,
    errors: &mut E,
) -> Result<Ending> {
    let mut script = Vec::new(alloc);
    input.read_to_end(&mut script)?;
    match parse_script(alloc, &script) {
        Ok(mut parsed) => run_script(alloc, &mut parsed, out),
        Err(ScriptError::BadLine(line)) => refuse(&script, line, out, errors),
        Err(ScriptError::Fault(error)) => Err(error),
    }
}

/// Runs a script that was read.
fn run_script<O: Write>(alloc: Global, parsed: &mut Parsed, out: &mut O) -> Result<Ending> {
    let bindings = Bindings::new(alloc);
    let outcome = edit(alloc, parsed, &bindings, KILL_RING_SIZE, out);
    flushed(outcome, out)
}

/// Flushes what a run has printed, unless it failed.
fn flushed<O: Write>(outcome: Result<Outcome>, out: &mut O) -> Result<Ending> {
    let outcome = outcome?;
    out.flush()?;
    Ok(Ending::Ran(outcome))
}

/// Prints that the line of this number is bad, and writes why.
fn refuse<O: Write, E: Write>(
    script: &[u8],
    line: usize,
    out: &mut O,
    errors: &mut E,
) -> Result<Ending> {
    writeln!(out, "bad script line {line}")?;
    out.flush()?;
    // the status says that a line is bad, also where no more can be said
    let _ = complain(script, line, errors);
    Ok(Ending::BadScript)
}

/// Writes why the line of this number is bad.
fn complain<E: Write>(script: &[u8], line: usize, errors: &mut E) -> Result<()> {
    if let Some(complaint) = complaint_at(script, line) {
        writeln!(errors, "line {line}: {complaint}")?;
        errors.flush()?;
    }
    Ok(())
}

/// Edits a line as a script says, with these bindings and a kill ring of so many slots, and prints
/// what became of it.
///
/// Returns how the run ended. What the script types is read then.
///
/// # Errors
///
/// `Memory` if memory runs out before the run or while it is printed, and `Io` if `out` fails. A
/// beginning of the six lines may then have been printed, and what the script types may have been
/// read.
pub fn edit<O: Write>(
    alloc: Global,
    parsed: &mut Parsed,
    bindings: &Bindings,
    kill_ring_size: usize,
    out: &mut O,
) -> Result<Outcome> {
    let mut screen = Plain::new(alloc, parsed.columns);
    let prompt = parsed.prompt.as_str();
    let config = Config::builder(GraphemeClusterMode::Unicode)
        .edit_mode(parsed.edit_mode)
        .build();
    let mut input = InputState::new(&config, bindings);
    let mut kill_ring = KillRing::new(alloc, kill_ring_size);
    let context = Context::new(&parsed.history);
    let mut state = State::new(
        alloc,
        &mut screen,
        &prompt,
        Some(&mut parsed.helper),
        context,
    )?;
    let answer = run(
        &mut state,
        &mut input,
        &mut parsed.items,
        &mut kill_ring,
        &config,
    );
    let report = report_of(&state, Outcome::of(answer));
    report.write_to(out)?;
    Ok(report.outcome)
}

/// What became of a line whose run ended so.
fn report_of<'s, 'out, 'prompt, R: RawReader, H: Helper, P: Prompt, S: History>(
    state: &'s State<'out, 'prompt, Plain<R>, H, P, S>,
    outcome: Outcome,
) -> Report<'s>
    ensures outcome { result.outcome ≡ outcome }
    ensures reports { ReportsState ⟦<State<'out, 'prompt, Plain<R>, H, P, S> as EditorState>⟧
        state.now result }
{
    Report {
        outcome,
        line: state.line(),
        cursor: state.pos(),
        place: state.place(),
        at: state.layout().cursor,
        redraws: state.out().redraws(),
    }
}
