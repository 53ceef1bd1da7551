//! A screen and a reader of keys for programs that draw by themselves: no terminal is needed.
#![tactic(auto)]

pub mod key_queue;
pub mod measure;
pub mod plain;

pub use key_queue::KeyQueue;
pub use measure::measured;
pub use plain::Plain;
