//! The edit state of a line: the line with its changes, and what is drawn of it.
#![tactic(auto)]

pub mod drawn;
pub mod edited_line;
pub mod renderer;
pub mod resizable;
pub mod screen_state;
pub mod view;

pub use drawn::Drawn;
pub use edited_line::EditedLine;
pub use renderer::Renderer;
pub use resizable::Resizable;
pub use screen_state::ScreenState;
pub use view::drawn_line::DrawnLine;
pub use view::{RefreshKind, View};
