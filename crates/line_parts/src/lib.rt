//! What a line editor asks about a line: history, hints, validation, highlighting, completion.
#![tactic(auto)]

pub mod brackets;
pub mod completion;
pub mod consulted;
pub mod context;
mod escaped_line;
pub mod helper;
pub mod helper_context;
pub mod highlight;
pub mod hint;
pub mod history;
pub mod laws;
pub mod validate;

pub use completion::{
    ArgumentOrOther, Candidate, CommandArguments, Completer, Entry, FilenameCompleter, Lister,
    Pair, Quote, Words, escape, extract_word, longest_common_prefix, offer_nothing, put_to_cursor,
    unescape,
};
pub use consulted::Consulted;
pub use context::Context;
pub use escaped_line::{Escapes, push_escaped_line, unescape_line};
pub use helper::{Helper, HintsAndBrackets, Parts};
pub use helper_context::HelperContext;
pub use highlight::{
    CmdKind, DimHints, Highlighter, MatchingBracketHighlighter, SteadyHighlighter,
};
pub use hint::{Hint, Hinter, HistoryHinter};
pub use history::{
    DefaultHistory, FileHistory, History, MemHistory, SearchDirection, SearchResult,
};
pub use validate::{MatchingBracketValidator, ValidationContext, ValidationResult, Validator};
