//! The bytes of a full redraw.
ghost use Rattle.std.specs.Prelude.{IfSome, OnOk, option_map, string_bytes};
ghost use Rattle.line_config.specs.Error.{FaultsOnly};
ghost use Rattle.line_term.specs.Painted.{AppendsSome, Draws, RedrawsInFull};
ghost use Rattle.line_term.specs.Shown.{AreTexts, IsPlace};

use crate::escape::{push_if, push_move};
use crate::painted::{ORIGIN, push_behind, push_clear, push_line, push_prompt};
use crate::wrap::{line_end, push_wrap, push_wrap_behind};
use line_buffer::{Layout, LineBuffer};
use line_config::{Prompt, Result};
use line_keys::raw_reader::RawReader;
use line_parts::Highlighter;
use line_screen::Plain;
use line_state::ScreenState;
use std::alloc::Global;

/// What is handed over for a drawing: the layout is its own, and no highlighter means no colors.
pub(crate) struct Handed<'d, P: Prompt, H: Highlighter> {
    pub(crate) prompt: &'d P,
    pub(crate) line: &'d LineBuffer,
    /// The text after the line.
    pub(crate) behind: Option<&'d str>,
    pub(crate) layout: &'d Layout,
    pub(crate) highlighter: Option<&'d H>,
}

impl<P: Prompt, H: Highlighter> Drop for Handed<'_, P, H> {
    fn drop(self) {
        let Handed {
            prompt: _,
            line: _,
            behind: _,
            layout: _,
            highlighter: _,
        } = self;
    }
}

/// Appends the bytes of a full redraw, which is shown all at once where this is wanted.
///
/// # Errors
/// `Io` if the highlighter fails, and `Memory` if memory runs out. A beginning of the bytes may
/// then have been appended.
pub(crate) fn push_redraw<P: Prompt, H: Highlighter, R: RawReader>(
    bytes: &mut String,
    alloc: Global,
    screen: &Plain<R>,
    at_once: bool,
    old_layout: Option<&Layout>,
    handed: Handed<'_, P, H>,
) -> Result<()>
    ensures draws { OnOk result (AppendsSome (string_bytes bytes.old)
        (string_bytes bytes.new) (RedrawsInFull P.Prompt H.Highlighter
        (⟦<Plain<R> as ScreenState>⟧.surface screen.now).measure at_once
        (option_map (λ l. l.now) old_layout.entry) (record {
          prompt = handed.entry.prompt.now;
          line = handed.entry.line.now;
          behind = option_map (λ s. s.now) handed.entry.behind;
          layout = handed.entry.layout.now;
          highlighter = option_map (λ h. h.now) handed.entry.highlighter;
        }))) }
    ensures texts { OnOk result (AreTexts (P.raw_text handed.entry.prompt.now)
        handed.entry.line.now.text (option_map (λ s. s.now) handed.entry.behind)) }
    ensures cursor { OnOk result (IsPlace handed.entry.layout.now.cursor) }
    ensures before { OnOk result (IfSome (option_map (λ l. l.now) old_layout.entry)
        (λ l. IsPlace l.cursor)) }
    ensures faults { FaultsOnly result }
{
    push_if(bytes, at_once, "\x1b[?2026h")?;
    push_clear(bytes, old_layout)?;
    push_drawing(bytes, alloc, screen, handed)?;
    push_if(bytes, at_once, "\x1b[?2026l")?;
    Ok(())
}

/// Appends the bytes of a drawing.
///
/// # Errors
/// As `push_redraw`: a beginning of the bytes may have been appended.
fn push_drawing<P: Prompt, H: Highlighter, R: RawReader>(
    bytes: &mut String,
    alloc: Global,
    screen: &Plain<R>,
    handed: Handed<'_, P, H>,
) -> Result<()>
    ensures draws { OnOk result (AppendsSome (string_bytes bytes.old)
        (string_bytes bytes.new) (Draws P.Prompt H.Highlighter
        (⟦<Plain<R> as ScreenState>⟧.surface screen.now).measure (record {
          prompt = handed.entry.prompt.now;
          line = handed.entry.line.now;
          behind = option_map (λ s. s.now) handed.entry.behind;
          layout = handed.entry.layout.now;
          highlighter = option_map (λ h. h.now) handed.entry.highlighter;
        }))) }
    ensures texts { OnOk result (AreTexts (P.raw_text handed.entry.prompt.now)
        handed.entry.line.now.text (option_map (λ s. s.now) handed.entry.behind)) }
    ensures cursor { OnOk result (IsPlace handed.entry.layout.now.cursor) }
    ensures faults { FaultsOnly result }
{
    let (layout, highlighter) = (handed.layout, handed.highlighter);
    let (text, behind) = (handed.line.as_str(), handed.behind);
    let (begin, end) = (layout.prompt_size, line_end(screen, text, behind, layout));
    push_prompt(
        bytes,
        alloc,
        handed.prompt,
        layout.default_prompt,
        highlighter,
    )?;
    push_wrap(bytes, alloc, screen, handed.prompt.raw(), ORIGIN, begin)?;
    push_line(bytes, alloc, handed.line, highlighter)?;
    push_wrap(bytes, alloc, screen, text, begin, end)?;
    push_behind(bytes, alloc, behind, highlighter)?;
    push_wrap_behind(bytes, alloc, screen, behind, end, layout.end)?;
    push_move(bytes, layout.end, layout.cursor)?;
    Ok(())
}
