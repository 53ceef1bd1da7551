//! Settings, prompts, and the error that every crate of the line editor answers with.
#![tactic(auto)]

pub mod config;
pub mod error;
pub mod laws;
pub mod prompt;

pub use config::{
    Behavior, BellStyle, Builder, ColorMode, CompletionType, Config, Configurer, EditMode,
    HistoryDuplicates,
};
pub use error::{ReadlineError, Result};
pub use prompt::Prompt;
