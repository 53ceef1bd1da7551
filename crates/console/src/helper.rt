//! Hints from the history, shown dim; brackets that are matched, and lit; words and names of files
//! that are completed.

use crate::arithmetic::Names;
use crate::folder::Folder;
use line_config::Result;
use line_parts::{
    CommandArguments, DimHints, FilenameCompleter, HistoryHinter, MatchingBracketValidator, Parts,
    Words,
};
use std::alloc::Global;

/// The helper of the console.
pub(crate) type ConsoleHelper = Parts<
    CommandArguments<FilenameCompleter<Folder>, Words>,
    HistoryHinter,
    DimHints,
    MatchingBracketValidator,
>;

/// Returns the helper of the console, which completes the names in a folder after the command that
/// loads a file.
///
/// # Errors
/// `Memory`.
pub(crate) fn console_helper(alloc: Global, folder: Folder) -> Result<ConsoleHelper> {
    let completer = CommandArguments {
        command: String::from_str(alloc, ":load")?,
        arguments: FilenameCompleter::new(folder),
        others: Words {
            words: Names::new(alloc).words(alloc)?,
        },
    };
    Ok(Parts {
        completer,
        hinter: HistoryHinter::new(),
        highlighter: DimHints::new(true),
        validator: MatchingBracketValidator::new(),
    })
}
