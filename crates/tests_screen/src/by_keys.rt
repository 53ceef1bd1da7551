//! The program in the CALLING.md of line_editor that gets its keys one by one.

use line_buffer::{GraphemeClusterMode, KillRing};
use line_config::{Config, ReadlineError, Result};
use line_editor::{Bindings, InputState, State, Turned, advance};
use line_keys::keys::KeyEvent;
use line_keys::refresher::Refresher;
use line_parts::{Context, MemHistory};
use line_screen::{KeyQueue, Plain};
use std::alloc::Global;
use std::io::Write;

/// Edits a line key by key, and writes it to the terminal after each key. Returns the line once it
/// is submitted.
pub fn edit_by_keys<O: Write>(
    alloc: Global,
    typed: &[KeyEvent],
    terminal: &mut O,
) -> Result<String> {
    let mut screen = Plain::new(alloc, 80);
    let bindings = Bindings::new(alloc);
    let history = MemHistory::new(alloc);
    edit_on(alloc, &mut screen, &bindings, &history, typed, terminal)
}

/// The same on this screen, by these bindings and with this history.
fn edit_on<O: Write>(
    alloc: Global,
    screen: &mut Plain<KeyQueue>,
    bindings: &Bindings,
    history: &MemHistory,
    typed: &[KeyEvent],
    terminal: &mut O,
) -> Result<String> {
    let mut keys = KeyQueue::new(alloc);
    let config = Config::new(GraphemeClusterMode::Unicode);
    let mut input = InputState::new(&config, bindings);
    let mut kill_ring = KillRing::new(alloc, 60);
    let mut helper = ();
    let context = Context::new(history);
    let mut state = State::new(alloc, screen, &"> ", Some(&mut helper), context)?;
    state.refresh_line()?;
    for key in typed {
        keys.press(*key)?;
        match advance(&mut state, &mut input, &mut keys, &mut kill_ring, &config)? {
            Turned::Proceeds => keys.mark(),
            Turned::NeedsMore => keys.rewind(),
            Turned::Submitted => return Ok(String::from_str(alloc, state.line())?),
            Turned::Ended => return Err(ReadlineError::Eof),
            Turned::Interrupted => return Err(ReadlineError::Interrupted),
        }
        show(state.out(), terminal)?;
    }
    Err(ReadlineError::Eof)
}

fn show<O: Write>(screen: &Plain<KeyQueue>, terminal: &mut O) -> Result<()> {
    writeln!(terminal, "{}{}", screen.prompt(), screen.text())?;
    Ok(())
}
