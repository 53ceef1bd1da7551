//! What an editor is set up with.
use line_config::Config;
use line_parts::History;
use std::alloc::Global;

/// What an editor is set up with: its settings, the prompt of the line, and the history.
pub(crate) struct Setup<S: History + Drop> {
    pub(crate) alloc: Global,
    pub(crate) config: Config,
    /// The prompt's texts, without styles and with them.
    pub(crate) prompt: (String, String),
    pub(crate) history: S,
}

impl<S: History + Drop> Drop for Setup<S> {
    fn drop(self) {
        let Setup {
            alloc: _,
            config: _,
            prompt: _,
            history: _,
        } = self;
    }
}
