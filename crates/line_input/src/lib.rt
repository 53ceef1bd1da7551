//! Reads keys as commands, by a program's bindings, the reader's own and the tables.
#![tactic(auto)]

pub mod binding;
pub mod bindings;
pub mod input_state;
pub mod laws;

pub use binding::{ConditionalEventHandler, Event, EventContext, EventHandler, NoHandler};
pub use bindings::Bindings;
pub use input_state::InputState;
pub use input_state::phrases::Read;
pub use input_state::remembered::Remembered;
