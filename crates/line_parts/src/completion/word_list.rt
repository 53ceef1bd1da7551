//! A completer of the words of a list.
ghost use Rattle.std.specs.Prelude.{◌≡◌, true, map, IfOk, string_bytes};
ghost use Rattle.line_config.specs.Error.{MemoryOnly};
ghost use Rattle.line_parts.specs.WordList.{beginning_with, breaks_words};

use crate::completion::escapes::extract_word;
use crate::completion::{Completer, put_to_cursor};
use crate::context::Context;
use crate::history::History;
use line_buffer::{Changeset, LineBuffer};
use line_config::Result;
use std::alloc::Global;

/// Completes the word before the cursor by those of a list that begin with it, in the list's order.
/// Letters, digits, `_` and all characters past ASCII make a word.
#[derive(Drop)]
pub struct Words {
    /// The words.
    pub words: Vec<String>,
}

impl Completer for Words {
    ghost use Rattle.line_parts.specs.WordList.{completed_among};

    type Candidate = String;

    ghost sure = { λ _. true };

    ghost completion_at = { λ words shown.
        completed_among (map string_bytes words.words.items) shown.text shown.cursor };

    fn complete<S: History>(
        &self,
        alloc: Global,
        line: &str,
        pos: usize,
        _ctx: &Context<'_, S>,
    ) -> Result<(usize, Vec<String>)> {
        let (start, word) = extract_word(
            line,
            pos,
            None,
            |c|
                ensures { result ≡ breaks_words c }
            { breaks_words(c) },
        );
        Ok((start, beginning_with(alloc, self.words.as_slice(), word)?))
    }

    fn update(
        &self,
        line: &mut LineBuffer,
        start: usize,
        elected: &str,
        changes: &mut Changeset,
    ) -> Result<()> {
        put_to_cursor(line, start, elected, changes)
    }
}

/// Returns copies of the words that begin with `start`.
fn beginning_with(alloc: Global, words: &[String], start: &str) -> Result<Vec<String>>
    ensures words { IfOk result (λ found. map string_bytes found.items
        ≡ beginning_with start.now (map string_bytes words.now)) }
    ensures memory { MemoryOnly result }
{
    let mut found = Vec::new(alloc);
    for word in words {
        if word.starts_with(start) {
            found.push(word.clone()?)?;
        }
    }
    Ok(found)
}

/// Returns whether a character is no part of a word.
fn breaks_words(c: char) -> bool
    ensures { result ≡ breaks_words c }
{
    if c.is_ascii_alphanumeric() || c == '_' {
        return false;
    }
    c.is_ascii()
}
