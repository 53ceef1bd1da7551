//! Those whom a session asks, of whose calls one can fail.
ghost use Rattle.std.specs.Prelude.{false, map, string_bytes};

use line_buffer::{Changeset, LineBuffer};
use line_config::{CompletionType, Result};
use line_parts::{CmdKind, Completer, Context, Highlighter, History, SteadyHighlighter, Words};
use std::alloc::Global;
use std::borrow::CowStr;
use tests_parties::countdown::Countdown;
use tests_parties::fault::GONE;

/// Who fails, and at which of its calls, from 1 on; at none where that is 0.
pub(crate) type Failing = (&'static str, u64);

/// Nobody fails.
pub(crate) const NOBODY: Failing = ("", 0);

/// Which of its calls fails of the one of this name, from 1 on; none where that is 0.
pub(crate) fn failing_call((name, call): Failing, of: &str) -> u64 {
    if name == of { call } else { 0 }
}

/// A part of a helper: a completer of words, or a highlighter without colors. One of its calls can
/// fail.
pub(crate) struct Party {
    pub(crate) words: Words,
    calls: Countdown,
}

impl Drop for Party {
    fn drop(self) {
        let Party { words: _, calls: _ } = self;
    }
}

impl Party {
    /// A part without words, whose call of this number fails; none does where that is 0.
    pub(crate) fn new(alloc: Global, failing: u64) -> Party {
        Party {
            words: Words {
                words: Vec::new(alloc),
            },
            calls: Countdown::with(failing, GONE),
        }
    }
}

impl Completer for Party {
    ghost use Rattle.line_parts.specs.WordList.{completed_among};

    type Candidate = String;

    ghost sure = { λ _. false };

    ghost completion_at = { λ party shown.
        completed_among (map string_bytes party.words.words.items) shown.text shown.cursor };

    fn complete<S: History>(
        &self,
        alloc: Global,
        line: &str,
        pos: usize,
        ctx: &Context<'_, S>,
    ) -> Result<(usize, Vec<String>)> {
        self.calls.call()?;
        self.words.complete(alloc, line, pos, ctx)
    }

    fn update(
        &self,
        line: &mut LineBuffer,
        start: usize,
        elected: &str,
        changes: &mut Changeset,
    ) -> Result<()> {
        self.calls.call()?;
        self.words.update(line, start, elected, changes)
    }
}

impl Highlighter for Party {
    ghost sure = { λ _. false };

    ghost lights = { λ _ _ _ _. false };

    fn highlight<'l>(&self, _alloc: Global, line: &'l str, _pos: usize) -> Result<CowStr<'l>> {
        self.calls.call()?;
        Ok(CowStr::Borrowed(line))
    }

    fn highlight_prompt<'b, 's: 'b, 'p: 'b>(
        &'s self,
        _alloc: Global,
        prompt: &'p str,
        _default: bool,
    ) -> Result<CowStr<'b>> {
        self.calls.call()?;
        Ok(CowStr::Borrowed(prompt))
    }

    fn highlight_hint<'h>(&self, _alloc: Global, hint: &'h str) -> Result<CowStr<'h>> {
        self.calls.call()?;
        Ok(CowStr::Borrowed(hint))
    }

    fn highlight_candidate<'c>(
        &self,
        _alloc: Global,
        candidate: &'c str,
        _completion: CompletionType,
    ) -> Result<CowStr<'c>> {
        Ok(CowStr::Borrowed(candidate))
    }

    fn highlight_char(&mut self, _line: &str, _pos: usize, _kind: CmdKind) -> bool {
        false
    }
}

impl SteadyHighlighter for Party {
    ghost use Rattle.std.proofs.Common.{refl};

    ghost lights_steady = { λ _ _ _. refl };
}
