//! Hints: texts that are shown after the line as its likely end.
ghost use Rattle.std.specs.Prelude.{◌≡◌, ℕ, Bool, true, false, List, [], Option, Some, None};
ghost use Rattle.std.specs.Prelude.{option_map, IfOk, IsOk, string_bytes, IsTrue, length};
ghost use Rattle.std.specs.Prelude.{◌==◌, ◌<◌};
ghost use Rattle.std.specs.List.{starts_with};
ghost use Rattle.line_config.specs.Error.{IoOnlyIf, FaultsOnly, MemoryOnly};
ghost use Rattle.line_parts.specs.HistoryHint.{rest_behind, start_in};

use crate::context::Context;
use crate::history::{History, SearchDirection};
use line_config::Result;
use std::alloc::Global;

/// A text that is shown after the line.
pub trait Hint {
    // The text that is displayed.
    ghost display_text: { Self → List ℕ };

    // The text that completes the line, if the hint can be taken.
    ghost completion_text: { Self → Option (List ℕ) };

    /// Returns the text that is shown after the line.
    fn display(&self) -> &str
        ensures { result.now ≡ display_text self.now };

    /// Returns the text that completes the line, or None where the hint can't be taken.
    fn completion(&self) -> Option<&str>
        ensures { option_map (λ s. s.now) result ≡ completion_text self.now };
}

impl Hint for String {
    ghost display_text = { λ s. string_bytes s };

    ghost completion_text = { λ s. Some (string_bytes s) };

    fn display(&self) -> &str {
        self.as_str()
    }

    fn completion(&self) -> Option<&str> {
        Some(self.display())
    }
}

impl Hint for &str {
    ghost display_text = { λ s. s.now };

    ghost completion_text = { λ s. Some s.now };

    fn display(&self) -> &str {
        *self
    }

    fn completion(&self) -> Option<&str> {
        Some(self)
    }
}

/// Offers hints.
pub trait Hinter {
    ghost use Rattle.line_parts.specs.Context.{shown_in};
    ghost use Rattle.line_parts.specs.Hint.{Suggestion, Suggests};
    ghost use Rattle.line_parts.specs.Shown.{Shown, NotBoth};

    /// The type of the hints.
    type Hint: Hint + Drop;

    // Whether no error of input or output comes from it, where none comes from the history.
    ghost sure: { Self → Bool };

    // The hint for what it is shown.
    ghost hint_at: { Self → Shown → Option Suggestion };

    /// Returns the hint for `line` with the cursor at byte `pos`, or None where there is none.
    ///
    /// # Errors
    /// `Io` if this hinter or the history fails, and `Memory` if memory runs out. No `Io` comes if
    /// both are sure.
    fn hint<S: History>(
        &self,
        alloc: Global,
        line: &str,
        pos: usize,
        ctx: &Context<'_, S>,
    ) -> Result<Option<Self::Hint>>
        ensures answer { Suggests Self.Hint.Hint result
            (hint_at self.now (shown_in S.History ctx.now line.now pos)) }
        ensures io { IoOnlyIf result (NotBoth (sure self.now) (S.sure ctx.now.history)) }
        ensures faults { FaultsOnly result };
}

impl Hinter for () {
    type Hint = String;

    ghost sure = { λ _. true };

    ghost hint_at = { λ _ _. None };

    fn hint<S: History>(
        &self,
        _alloc: Global,
        _line: &str,
        _pos: usize,
        _ctx: &Context<'_, S>,
    ) -> Result<Option<String>>
        ensures { result ≡ Ok None }
    {
        Ok(None)
    }
}

/// Hints at the rest of the nearest line of the history that begins with the line.
#[derive(Drop)]
pub struct HistoryHinter {}

impl HistoryHinter {
    /// Returns a hinter from the history.
    pub fn new() -> Self {
        HistoryHinter {}
    }
}

impl Default for HistoryHinter {
    /// Returns a hinter from the history, as `new` does.
    fn default() -> Self {
        HistoryHinter::new()
    }
}

impl Hinter for HistoryHinter {
    ghost use Rattle.line_parts.specs.Context.{shown_in};
    ghost use Rattle.line_parts.specs.Hint.{Suggests, suggested};
    ghost use Rattle.line_parts.specs.HistoryHint.{history_hint};

    type Hint = String;

    ghost sure = { λ _. true };

    ghost hint_at = { λ _ shown. option_map suggested (history_hint shown) };

    /// Returns what the nearest line of the history that begins with `line` has after it, going
    /// back from the history index, or from the newest line where that is the index of the line
    /// that is being written. None for an empty line, for a cursor before the end, where no line
    /// begins so, and where the nearest one equals `line`.
    ///
    /// # Errors
    /// `Io` if the history fails, and `Memory` if memory runs out. No `Io` comes if the history is
    /// sure.
    fn hint<S: History>(
        &self,
        alloc: Global,
        line: &str,
        pos: usize,
        ctx: &Context<'_, S>,
    ) -> Result<Option<String>>
        ensures answer { Suggests ⟦<String as Hint>⟧ result
            (option_map suggested (history_hint (shown_in S.History ctx.now line.now pos))) }
        ensures empty { line.now ≡ [] → IsOk result }
        ensures inside { pos < length line.now → IsOk result }
        ensures io { IoOnlyIf result (S.sure ctx.now.history ≡ false) }
        ensures faults { FaultsOnly result }
    {
        if line.is_empty() || pos < line.len() {
            return Ok(None);
        }
        let found = ctx
            .history()
            .starts_with(line, start(ctx), SearchDirection::Reverse)?;
        match found {
            Some(found) => rest_behind(alloc, line, found.entry.as_str()),
            None => Ok(None),
        }
    }
}

// Returns the index from which a hint is looked for.
fn start<S: History>(ctx: &Context<'_, S>) -> usize
    ensures { result ≡ start_in ctx.now.index (S.lines ctx.now.history) }
{
    let newest = ctx.history().len().saturating_sub(1);
    ctx.history_index().min(newest)
}

// Returns what a line of the history has after a text that it begins with, where it is more.
fn rest_behind(alloc: Global, text: &str, line: &str) -> Result<Option<String>>
    requires { IsTrue (starts_with (λ a b. a == b) line.now text.now) }
    ensures answer { IfOk result (λ rest.
        option_map string_bytes rest ≡ rest_behind text.now line.now) }
    ensures memory { MemoryOnly result }
{
    match line.strip_prefix(text) {
        Some(rest) if !rest.is_empty() => Ok(Some(String::from_str(alloc, rest)?)),
        _ => Ok(None),
    }
}
