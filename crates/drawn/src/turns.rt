//! A script that runs twice: on a terminal, and on a screen in memory.

ghost use Rattle.std.specs.Prelude.{◌<◌, IfSome};

use crate::printed::Printed;
use line_buffer::{GraphemeClusterMode, KillRing, Unit};
use line_config::{Config, Prompt, ReadlineError, Result};
use line_editor::edit::State;
use line_editor::{Bindings, InputState, Turned, advance};
use line_keys::refresher::Refresher;
use line_parts::{Context, Helper, History};
use line_screen::Plain;
use line_script::{Parsed, Script, ScriptError, read_script};
use line_term::Ansi;
use std::alloc::Global;
use std::io::{Read, Write};

/// The slots of the kill ring.
const KILL_RING_SIZE: usize = 60;

/// The rows of a screen that was resized.
const ROWS: Unit = 200;

/// How many turns a screen keeps its columns, where it is resized at all.
const TURNS: u64 = 3;

/// Runs a script, and prints what each turn wrote and what is shown.
pub fn play<R: Read + Drop, O: Write>(alloc: Global, mut input: R, out: &mut O) -> Result<()> {
    let mut script = Vec::new(alloc);
    input.read_to_end(&mut script)?;
    print_script(alloc, script.as_slice(), out)
}

/// Prints the turns of a script on its own columns, on two and on one, and where the screen is
/// resized.
fn print_script<O: Write>(alloc: Global, script: &[u8], out: &mut O) -> Result<()> {
    let columns = parsed(alloc, script)?.columns;
    for (first, other) in [
        (columns, columns),
        (2, 2),
        (1, 1),
        (columns, columns / 4 + 1),
    ] {
        print_turns(alloc, script, first.max(1), other, out)?;
    }
    out.flush()?;
    Ok(())
}

/// Prints the turns of a script on a screen that begins with so many columns, and has the other
/// ones after every other resize: what each wrote, and then what each shows.
fn print_turns<O: Write>(
    alloc: Global,
    script: &[u8],
    columns: Unit,
    other: Unit,
    out: &mut O,
) -> Result<()>
    requires { 0 < columns }
{
    writeln!(out, "columns {columns}")?;
    let terminal = Ansi::new(alloc, Vec::new(alloc), columns, true, true);
    print_run(alloc, terminal, &mut parsed(alloc, script)?, other, out)?;
    let screen = Plain::new(alloc, columns);
    print_run(alloc, screen, &mut parsed(alloc, script)?, other, out)
}

/// What a script says. A bad line is a fault.
fn parsed(alloc: Global, script: &[u8]) -> Result<Parsed> {
    match read_script(alloc, script) {
        Ok(parsed) => Ok(parsed),
        Err(ScriptError::Fault(error)) => Err(error),
        Err(ScriptError::BadLine(_)) => Err(ReadlineError::Eof),
    }
}

/// Takes the turns of a script on a screen, after a prompt in bold green, and prints what it tells
/// of each. A turn that fails ends the run.
fn print_run<W: Printed + Drop, O: Write>(
    alloc: Global,
    mut screen: W,
    parsed: &mut Parsed,
    other: Unit,
    out: &mut O,
) -> Result<()> {
    let first = screen.get_columns();
    let styled = format!(in alloc; "\x1b[1;32m{}\x1b[0m", parsed.prompt)?;
    let prompt = (parsed.prompt.as_str(), styled.as_str());
    let config = Config::builder(GraphemeClusterMode::Unicode)
        .edit_mode(parsed.edit_mode)
        .build();
    let bindings = Bindings::new(alloc);
    let mut input = InputState::new(&config, &bindings);
    let mut kills = KillRing::new(alloc, KILL_RING_SIZE);
    let context = Context::new(&parsed.history);
    let helper = Some(&mut parsed.helper);
    let mut state = State::new(alloc, &mut screen, &prompt, helper, context)?;
    state.refresh_line()?;
    let mut printed = 0;
    for turn in 1..u64::MAX {
        let columns = resize_before(turn, first, other);
        printed = print_turn(&mut state, columns, printed, out)?;
        let items = &mut parsed.items;
        let turned = advance(&mut state, &mut input, items, &mut kills, &config);
        if !matches!(turned, Ok(Turned::Proceeds)) {
            break;
        }
    }
    Ok(())
}

/// Returns the columns that a screen has from this turn on, if it is resized before it: these, or
/// after every other resize the other ones.
fn resize_before(turn: u64, first: Unit, other: Unit) -> Option<Unit>
    ensures { IfSome result (λ columns. 0 < columns) }
{
    if first == other || turn % TURNS != 0 {
        return None;
    }
    let columns = if turn % (2 * TURNS) == 0 {
        first
    } else {
        other
    };
    Some(columns.max(1))
}

/// Prints what the last turn did, and what a resize to these columns does, if there is one. Returns
/// how many bytes have been printed.
fn print_turn<'out, 'prompt, W: Printed, H: Helper, P: Prompt, S: History, O: Write>(
    state: &mut State<'out, 'prompt, W, H, P, S>,
    columns: Option<Unit>,
    printed: usize,
    out: &mut O,
) -> Result<usize>
    requires { IfSome columns (λ columns. 0 < columns) }
{
    let printed = state.out().print(false, printed, out)?;
    let Some(columns) = columns else {
        return Ok(printed);
    };
    state.resized(columns, ROWS)?;
    state.out().print(true, printed, out)
}
