//! A highlighter for a line with hints.
ghost use Rattle.std.specs.Prelude.{◌≡◌, Some, None, true, if◌then◌else◌, ◌&&◌};

use crate::highlight::{CmdKind, Highlighter, MatchingBracketHighlighter, SteadyHighlighter};
use line_config::{CompletionType, Result};
use std::alloc::Global;
use std::borrow::CowStr;

/// Shows hints dim, and lights the match of the bracket at the cursor where that is wanted.
#[derive(Drop)]
pub struct DimHints {
    brackets: MatchingBracketHighlighter,
    /// Whether the match of the bracket at the cursor is lit.
    pub lights_brackets: bool,
}

impl DimHints {
    /// Returns a highlighter that shows hints dim. `lights_brackets` says whether it lights the
    /// match of a bracket.
    pub fn new(lights_brackets: bool) -> DimHints
        ensures { result.lights_brackets ≡ lights_brackets }
    {
        DimHints {
            brackets: MatchingBracketHighlighter::new(),
            lights_brackets,
        }
    }
}

impl Highlighter for DimHints {
    ghost use Rattle.line_parts.specs.Dim.{dim};

    ghost sure = { λ _. true };

    ghost highlighted = { λ h text cursor. if h.lights_brackets
        then ⟦<MatchingBracketHighlighter as Highlighter>⟧.highlighted h.brackets text cursor
        else text };

    ghost highlighted_hint = { λ _ hint. dim hint };

    ghost lights = { λ h text cursor kind. h.lights_brackets
        && ⟦<MatchingBracketHighlighter as Highlighter>⟧.lights h.brackets text cursor kind };

    ghost steady = { λ h. record h {
      brackets = ⟦<MatchingBracketHighlighter as Highlighter>⟧.steady h.brackets;
    } };

    fn highlight<'l>(&self, alloc: Global, line: &'l str, pos: usize) -> Result<CowStr<'l>> {
        if self.lights_brackets {
            return self.brackets.highlight(alloc, line, pos);
        }
        Ok(CowStr::Borrowed(line))
    }

    fn highlight_prompt<'b, 's: 'b, 'p: 'b>(
        &'s self,
        _alloc: Global,
        prompt: &'p str,
        _default: bool,
    ) -> Result<CowStr<'b>> {
        Ok(CowStr::Borrowed(prompt))
    }

    fn highlight_hint<'h>(&self, alloc: Global, hint: &'h str) -> Result<CowStr<'h>> {
        Ok(CowStr::Owned(format!(in alloc; "\x1b[2m{hint}\x1b[0m")?))
    }

    fn highlight_candidate<'c>(
        &self,
        _alloc: Global,
        candidate: &'c str,
        _completion: CompletionType,
    ) -> Result<CowStr<'c>> {
        Ok(CowStr::Borrowed(candidate))
    }

    fn highlight_char(&mut self, line: &str, pos: usize, kind: CmdKind) -> bool {
        self.lights_brackets && self.brackets.highlight_char(line, pos, kind)
    }
}

impl SteadyHighlighter for DimHints {
    ghost use Rattle.std.proofs.Common.{ap};

    ghost lights_steady = { λ one other same. ap (λ h text cursor kind. h.lights_brackets
        && ⟦<MatchingBracketHighlighter as Highlighter>⟧.lights h.brackets text cursor kind) same };
}
