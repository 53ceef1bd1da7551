//! The file of the history.

use line_buffer::GraphemeClusterMode;
use line_config::{CompletionType, Config, EditMode, Result};
use line_parts::FileHistory;
use std::alloc::Global;
use std::fs::{self, OpenOptions};
use std::io::{ErrorKind, Write};
use std::rt::Files;

/// How many lines of the file are there to go back to.
const LINES_KEPT: usize = 1000;

/// The first line of the file.
const HEADER: &str = "#V3\n";

/// Returns the settings of the console, with the keys of Vi or of Emacs, and with completions that
/// are listed or gone through.
pub(crate) fn settings(vi: bool, list: bool) -> Result<Config> {
    let edit_mode = if vi { EditMode::Vi } else { EditMode::Emacs };
    let completion = if list {
        CompletionType::List
    } else {
        CompletionType::Circular
    };
    let builder = Config::builder(GraphemeClusterMode::Unicode)
        .max_history_size(LINES_KEPT)?
        .history_ignore_dups(true)?
        .history_ignore_space(true)
        .auto_add_history(true)
        .edit_mode(edit_mode)
        .completion_type(completion);
    Ok(builder.build())
}

/// Loads the history of a file, or begins it with its header. Returns the file, to which new lines
/// are appended; no other line of it is ever written.
///
/// # Errors
/// `Io`, where the file cannot be read or written, or where it has another header, with the kind
/// `InvalidData`; and `Memory`. The file is then as it was.
pub(crate) fn open<R: Files + AllocGlobal>(
    rt: &R,
    path: &str,
    history: &mut FileHistory,
) -> Result<R::File> {
    let mut file = OpenOptions::new().append(true).create(true).open(rt, path)?;
    let text = fs::read_to_string(rt, path)?;
    if text.is_empty() {
        history.save_v3_to(&mut file, false)?;
    } else if text.starts_with(HEADER) {
        history.load_from(text.as_bytes())?;
    } else {
        return Err(ErrorKind::InvalidData.into());
    }
    Ok(file)
}

/// Appends the lines of the history that are not in its file yet.
///
/// # Errors
/// `Io`, where the file cannot be written, and `Memory`.
pub(crate) fn keep<F: Write>(history: &mut FileHistory, file: &mut Option<F>) -> Result<()> {
    match file {
        Some(file) => history.save_v3_to(file, true),
        None => Ok(()),
    }
}
