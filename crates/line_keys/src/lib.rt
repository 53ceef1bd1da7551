//! Keys, commands and the tables that lead from one to the other: what reads keys without naming
//! the bindings of a program.
#![tactic(auto)]

pub mod cmd;
pub mod count;
pub mod editor_state;
pub mod keys;
pub mod laws;
pub mod names;
pub mod raw_reader;
pub mod redo;
pub mod refresher;
pub mod tables;

pub use cmd::{Anchor, Cmd};
pub use count::Count;
pub use keys::{KeyCode, KeyEvent, Modifiers};
pub use names::key_named;
pub use raw_reader::RawReader;
pub use refresher::{InputMode, Invoke, Refresher};
pub use tables::{
    Entry, Grouping, Meaning, Motion, Operator, SearchKind, entry_of_key, motion_of_key,
    multiplied, replaced_by, second_key, stands_for,
};
