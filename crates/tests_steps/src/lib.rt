//! What the tests of an editor stand on: commands and calls that are read from text and made, a
//! handler, and a reader and a renderer that write down what they are handed.
#![tactic(auto)]

pub mod calls;
pub mod recorder;
pub mod source;
pub mod typist;
pub mod watcher;
