//! Completion of the names of files and folders, over folders that are listed from memory.

use super::folders::folder_of;
use super::{broken_history, plain, told};
use crate::report::shown;
use line_config::Result;
use line_parts::{Completer, Context, FilenameCompleter, Pair};
use std::alloc::Global;
use tests_parties::source::Source;

/// What a call gives: `folder` tells the folder that each of the next calls has anew, with no call
/// made yet. The history fails in each call.
pub fn says(alloc: Global, folder: &mut String, call: &str) -> Result<Option<String>> {
    let mut source = Source::new(call);
    let name = source.word().unwrap_or("");
    if name == "folder" {
        folder.clear();
        folder.push_str(call)?;
        return shown(alloc, ());
    }
    let text = plain(alloc, &mut source)?;
    let (line, pos) = (text.as_str(), source.number());
    if !line.is_char_boundary(pos) {
        return Ok(None);
    }
    let mut told_folder = Source::new(folder.as_str());
    let _ = told_folder.word();
    let completer = FilenameCompleter::new(folder_of(alloc, &mut told_folder)?);
    let history = broken_history(alloc);
    let ctx = Context::new(&history);
    match name {
        "sorted" => offered(alloc, completer.complete_path(alloc, line, pos)),
        "unsorted" => offered(alloc, completer.complete_path_unsorted(alloc, line, pos)),
        "by_trait" => offered(alloc, completer.complete(alloc, line, pos, &ctx)),
        "boxed" => {
            let boxed = Box::new(alloc, completer)?;
            offered(alloc, boxed.complete(alloc, line, pos, &ctx))
        }
        _ => Ok(None),
    }
}

/// Where a path begins, and the candidates for it: what each displays, and what it puts in; of more
/// than a hundred, how many they are, and the last.
fn offered(alloc: Global, outcome: Result<(usize, Vec<Pair>)>) -> Result<Option<String>> {
    let (start, pairs) = match told(outcome)? {
        Ok(found) => found,
        Err(fault) => return shown(alloc, fault),
    };
    let skipped = if pairs.len() > 100 {
        pairs.len().saturating_sub(1)
    } else {
        0
    };
    let texts: Vec<(&str, &str)> = pairs
        .iter()
        .skip(skipped)
        .map(|pair| (pair.display.as_str(), pair.replacement.as_str()))
        .collect(alloc)?;
    shown(alloc, (start, pairs.len(), texts))
}
