//! How a line, its prompt and its hint are shown.
ghost use Rattle.std.specs.Prelude.{◌≡◌, ℕ, Bool, List, Option, None, IfOk, true, false};
ghost use Rattle.std.specs.Prelude.{◌<◌, is_some, length, slice_index, string_bytes, unwrap_or};
ghost use Rattle.std.specs.Prelude.{IfSome};
ghost use Rattle.std.specs.Cow.{cow_str_bytes};
ghost use Rattle.line_config.specs.Error.{IoOnlyIf, FaultsOnly, MemoryOnly};
ghost use Rattle.line_config.specs.declared.config.CompletionType.{CompletionType};
ghost use Rattle.line_parts.specs.Colored.{IsShownAs};
ghost use Rattle.line_parts.specs.BracketMatch.{lit_at, lit_place, remembered, with_match_lit};
ghost use Rattle.line_parts.specs.declared.highlight.CmdKind.{CmdKind};

mod dim_hints;
mod steady;

use crate::brackets::{Seen, find_match, look_at};
pub use dim_hints::DimHints;
use line_config::{CompletionType, Result};
use std::alloc::Global;
use std::borrow::CowStr;
use std::marker::Model;
pub use steady::SteadyHighlighter;

/// Why the line is highlighted again.
#[derive(Clone, Copy, Debug, PartialEq, Eq)]
pub enum CmdKind {
    /// The cursor moved.
    MoveCursor,
    /// Something else changed.
    Other,
    /// The line is drawn without a hint and without highlighted brackets, as before it is
    /// submitted.
    ForcedRefresh,
}

/// Adds colors to a line, its prompt, its hint and its candidates. What is shown has to be as wide
/// as the text.
pub trait Highlighter {
    // Whether no error of input or output comes from it.
    ghost sure: { Self → Bool };

    // What it shows for a line and its cursor, for a prompt and whether it is the line's own, for a
    // hint, and for a candidate: left out, the text as it stands.
    ghost highlighted: { Self → List ℕ → ℕ → List ℕ } = { λ _ line _. line };

    ghost highlighted_prompt: { Self → List ℕ → Bool → List ℕ } = { λ _ prompt _. prompt };

    ghost highlighted_hint: { Self → List ℕ → List ℕ } = { λ _ hint. hint };

    ghost highlighted_candidate: { Self → List ℕ → CompletionType → List ℕ } = { λ _ candidate _. candidate };

    // Whether it asks for a full drawing of a line with its cursor, by what happened to the line.
    ghost lights: { Self → List ℕ → ℕ → CmdKind → Bool };

    // What no call of `highlight_char` changes of it.
    ghost steady: { Self → Self } = { λ h. h };

    /// Returns the line as it is shown with the cursor at byte `pos`.
    ///
    /// # Errors
    /// `Io` if this highlighter fails, and `Memory` if memory runs out. No `Io` comes if this
    /// highlighter is sure.
    fn highlight<'l>(&self, alloc: Global, line: &'l str, pos: usize) -> Result<CowStr<'l>>
        ensures text { IsShownAs result (highlighted self.now line.now pos) }
        ensures io { IoOnlyIf result (sure self.now ≡ false) }
        ensures faults { FaultsOnly result };

    /// Returns the prompt as it is shown. `default` says whether it is the line's own prompt.
    ///
    /// # Errors
    /// `Io` if this highlighter fails, and `Memory` if memory runs out. No `Io` comes if this
    /// highlighter is sure.
    fn highlight_prompt<'b, 's: 'b, 'p: 'b>(
        &'s self,
        alloc: Global,
        prompt: &'p str,
        default: bool,
    ) -> Result<CowStr<'b>>
        ensures text { IsShownAs result (highlighted_prompt self.now prompt.now default) }
        ensures io { IoOnlyIf result (sure self.now ≡ false) }
        ensures faults { FaultsOnly result };

    /// Returns the hint as it is shown.
    ///
    /// # Errors
    /// `Io` if this highlighter fails, and `Memory` if memory runs out. No `Io` comes if this
    /// highlighter is sure.
    fn highlight_hint<'h>(&self, alloc: Global, hint: &'h str) -> Result<CowStr<'h>>
        ensures text { IsShownAs result (highlighted_hint self.now hint.now) }
        ensures io { IoOnlyIf result (sure self.now ≡ false) }
        ensures faults { FaultsOnly result };

    /// Returns a candidate of a completion as it is shown.
    ///
    /// # Errors
    /// `Io` if this highlighter fails, and `Memory` if memory runs out. No `Io` comes if this
    /// highlighter is sure.
    fn highlight_candidate<'c>(
        &self,
        alloc: Global,
        candidate: &'c str,
        completion: CompletionType,
    ) -> Result<CowStr<'c>>
        ensures text { IsShownAs result (highlighted_candidate self.now candidate.now completion) }
        ensures io { IoOnlyIf result (sure self.now ≡ false) }
        ensures faults { FaultsOnly result };

    /// Returns whether the line, with the cursor at byte `pos`, has to be drawn in full for its
    /// colors. `kind` says why the line is highlighted again.
    ///
    /// The answer depends on this highlighter, the line, the cursor and `kind` alone. The call may
    /// change what this highlighter remembers.
    fn highlight_char(&mut self, line: &str, pos: usize, kind: CmdKind) -> bool
        ensures lit { result ≡ lights self.old line.now pos kind }
        ensures steady { steady self.new ≡ steady self.old }
        ensures sure { sure self.new ≡ sure self.old };
}

impl Highlighter for () {
    ghost sure = { λ _. true };

    ghost lights = { λ _ _ _ _. false };

    fn highlight<'l>(&self, _alloc: Global, line: &'l str, _pos: usize) -> Result<CowStr<'l>> {
        Ok(CowStr::Borrowed(line))
    }

    fn highlight_prompt<'b, 's: 'b, 'p: 'b>(
        &'s self,
        _alloc: Global,
        prompt: &'p str,
        _default: bool,
    ) -> Result<CowStr<'b>> {
        Ok(CowStr::Borrowed(prompt))
    }

    fn highlight_hint<'h>(&self, _alloc: Global, hint: &'h str) -> Result<CowStr<'h>> {
        Ok(CowStr::Borrowed(hint))
    }

    fn highlight_candidate<'c>(
        &self,
        _alloc: Global,
        candidate: &'c str,
        _completion: CompletionType,
    ) -> Result<CowStr<'c>> {
        Ok(CowStr::Borrowed(candidate))
    }

    fn highlight_char(&mut self, _line: &str, _pos: usize, _kind: CmdKind) -> bool {
        false
    }
}

/// Shows the match of the bracket at the cursor in bold blue.
#[derive(Drop)]
pub struct MatchingBracketHighlighter {
    // The bracket whose match is shown, as it was seen last.
    seen: Option<Seen>,
}

impl Model for MatchingBracketHighlighter {
    ghost use Rattle.std.specs.Prelude.{◌≡◌, true, Option, IfSome};
    ghost use Rattle.line_parts.specs.Brackets.{is_bracket};
    ghost use Rattle.line_parts.specs.declared.brackets.Seen.{Seen};

    ghost Value = { Option Seen };

    ghost view = { λ h. h.seen };

    ghost invariant = { λ h. IfSome h.seen (λ s. is_bracket s.bracket ≡ true) };
}

impl MatchingBracketHighlighter {
    /// Returns a highlighter that remembers no bracket.
    pub fn new() -> Self
        ensures { result ≡ None }
    {
        MatchingBracketHighlighter { seen: None }
    }

    // Returns the place in a line that is shown in color, if there is one.
    fn lit_place(&self, line: &str) -> Option<usize>
        ensures place { result ≡ lit_place self.now line.now }
        ensures within { IfSome result (λ at. at < length line.now) }
        ensures bracket { IfSome result (λ at. slice_index line.now at < 128) }
    {
        match self.seen {
            Some(seen) if line.len() > 1 && seen.place < line.len() => {
                find_match(line.as_bytes(), seen)
            }
            _ => None,
        }
    }
}

impl Default for MatchingBracketHighlighter {
    /// Returns a highlighter that remembers no bracket, as `new` does.
    fn default() -> Self
        ensures { result ≡ None }
    {
        MatchingBracketHighlighter::new()
    }
}

impl Highlighter for MatchingBracketHighlighter {
    ghost sure = { λ _. true };

    ghost highlighted = { λ h text _. unwrap_or (with_match_lit h text) text };

    ghost lights = { λ _ text cursor kind. is_some (remembered text cursor kind) };

    ghost steady = { λ _. None };

    /// Returns the line with the match of the remembered bracket in bold blue. The line stays as it
    /// stands where there is no match, where the place of the bracket is past its end, and where
    /// it has at most one byte.
    ///
    /// # Errors
    /// `Memory` if memory runs out.
    fn highlight<'l>(&self, alloc: Global, line: &'l str, _pos: usize) -> Result<CowStr<'l>>
        ensures text { IsShownAs result
            (unwrap_or (with_match_lit self.now line.now) line.now) }
        ensures memory { MemoryOnly result }
    {
        match self.lit_place(line) {
            Some(at) => Ok(CowStr::Owned(lit(alloc, line, at)?)),
            None => Ok(CowStr::Borrowed(line)),
        }
    }

    fn highlight_prompt<'b, 's: 'b, 'p: 'b>(
        &'s self,
        _alloc: Global,
        prompt: &'p str,
        _default: bool,
    ) -> Result<CowStr<'b>> {
        Ok(CowStr::Borrowed(prompt))
    }

    fn highlight_hint<'h>(&self, _alloc: Global, hint: &'h str) -> Result<CowStr<'h>> {
        Ok(CowStr::Borrowed(hint))
    }

    fn highlight_candidate<'c>(
        &self,
        _alloc: Global,
        candidate: &'c str,
        _completion: CompletionType,
    ) -> Result<CowStr<'c>> {
        Ok(CowStr::Borrowed(candidate))
    }

    /// Remembers the bracket at the cursor and returns whether there is one: the bracket under the
    /// cursor, else the one before it, unless nothing stands on the side of its match; at the end
    /// of the line a closing bracket before the cursor. `ForcedRefresh` forgets the bracket.
    fn highlight_char(&mut self, line: &str, pos: usize, kind: CmdKind) -> bool
        ensures remembers { self.new ≡ remembered line.now pos kind }
        ensures lit { result ≡ is_some (remembered line.now pos kind) }
    {
        self.seen = match kind {
            CmdKind::ForcedRefresh => None,
            CmdKind::MoveCursor | CmdKind::Other => look_at(line.as_bytes(), pos),
        };
        self.seen.is_some()
    }
}

// Returns a text with the byte at a place in bold blue.
fn lit(alloc: Global, line: &str, at: usize) -> Result<String>
    requires within { at < length line.now }
    requires single { slice_index line.now at < 128 }
    ensures text { IfOk result (λ t. string_bytes t ≡ lit_at line.now at) }
    ensures memory { MemoryOnly result }
{
    let (before, bracket, behind) = (&line[..at], &line[at..at + 1], &line[at + 1..]);
    Ok(format!(in alloc; "{before}\x1b[1;34m{bracket}\x1b[0m{behind}")?)
}
