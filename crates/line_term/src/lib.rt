//! What stands between the line editor and a terminal: its bytes as keys and pasted texts, and
//! drawings as bytes.
#![tactic(auto)]

pub mod ansi;
pub mod begun;
pub mod decoder;
mod drawn;
mod escape;
pub mod laws;
mod output;
pub mod output_state;
mod painted;
mod parts;
mod redraw;
pub mod sequence;
pub mod tables;
pub mod utf8;
mod wrap;

pub use ansi::Ansi;
pub use decoder::Decoder;
pub use output_state::Output;
pub use sequence::Size;
