//! The caller in the CALLING.md of line_screen.

use line_buffer::{GraphemeClusterMode, KillRing};
use line_config::{Config, Result};
use line_editor::run::run;
use line_editor::{Bindings, InputState, State};
use line_keys::keys::{KeyCode, KeyEvent, Modifiers};
use line_parts::{Context, MemHistory};
use line_screen::{KeyQueue, Plain};
use std::alloc::Global;

/// Types a text and presses Enter. Returns the line that is submitted.
pub fn read_line(alloc: Global, typed: &str) -> Result<String> {
    let mut keys = KeyQueue::new(alloc);
    keys.type_text(typed)?;
    keys.press(KeyEvent(KeyCode::Enter, Modifiers::NONE))?;
    let mut screen = Plain::new(alloc, 80);
    let config = Config::new(GraphemeClusterMode::Unicode);
    let bindings = Bindings::new(alloc);
    let history = MemHistory::new(alloc);
    let mut input = InputState::new(&config, &bindings);
    let mut kill_ring = KillRing::new(alloc, 60);
    let mut helper = ();
    let context = Context::new(&history);
    let mut state = State::new(alloc, &mut screen, &"> ", Some(&mut helper), context)?;
    run(&mut state, &mut input, &mut keys, &mut kill_ring, &config)?;
    Ok(String::from_str(alloc, state.line())?)
}
