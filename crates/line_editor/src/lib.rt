//! The line editor: reads commands from keys by `line_input`, executes them on a line and keeps
//! the screen cursor right.
#![tactic(auto)]

pub mod command;
pub mod deferred;
pub mod edit;
pub mod laws;
pub mod run;

pub use command::{Status, execute};
pub use deferred::Deferred;
pub use edit::State;
pub use edit::open_line::KeptLine;
pub use line_buffer as buffer;
pub use line_config as config;
pub use line_input::{
    Bindings, ConditionalEventHandler, Event, EventContext, EventHandler, InputState, NoHandler,
    Read, Remembered, binding, bindings, input_state,
};
pub use line_keys as keys;
pub use line_parts as parts;
pub use line_state::{
    Drawn, EditedLine, RefreshKind, Renderer, Resizable, ScreenState, View, renderer,
};
pub use run::{Turned, advance, do_turn, read_turn, take_turn};
