//! The layer below a line editor: a line with its cursor, the changes that can be taken back, the
//! texts that were killed, and the places and widths of a layout.
#![tactic(auto)]

mod char_search;
pub mod clusters;
pub mod kill_ring;
pub mod laws;
pub mod layout;
pub mod line_buffer;
pub mod lone;
pub mod movement;
pub mod partings;
pub mod printable;
mod seams;
pub mod undo;
mod word_edges;

pub use clusters::cluster_start;
pub use kill_ring::{KillRing, Mode};
pub use layout::{GraphemeClusterMode, Layout, Position, Unit};
pub use line_buffer::{Direction, LineBuffer, OutOfMemory, WordAction};
pub use lone::lone_width;
pub use movement::{At, CharSearch, Movement, RepeatCount, Word};
pub use partings::{first_parting, last_parting};
pub use printable::{is_plain_text, is_printable, is_printable_text};
pub use undo::Changeset;
