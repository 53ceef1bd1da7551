//! The parts of a drawing, plain or as a highlighter shows them.
ghost use Rattle.std.specs.Prelude.{◌≡◌, ◌++◌, [], IfSome, OnOk, option_map, string_bytes, if◌then◌else◌};
ghost use Rattle.line_config.specs.Error.{FaultsOnly, MemoryOnly};
ghost use Rattle.line_term.specs.Escape.{clear_from};
ghost use Rattle.line_term.specs.Shown.{IsPlace};
ghost use Rattle.line_term.specs.Painted.{AppendsSome, PaintsText, PaintsBehind, asked, clear_drawn, shown_as};

use crate::drawn::{is_coloring, push_cleaned, push_colored};
use crate::escape::push_steps;
use line_buffer::{Layout, LineBuffer, Position};
use line_config::{Prompt, Result};
use line_parts::Highlighter;
use std::alloc::Global;

/// The first column of the first row.
pub(crate) const ORIGIN: Position = Position { row: 0, col: 0 };

/// Appends a prompt: the raw one, or how a highlighter shows the one with styles. `default` says
/// whether it is the line's own.
pub(crate) fn push_prompt<P: Prompt, H: Highlighter>(
    bytes: &mut String,
    alloc: Global,
    prompt: &P,
    default: bool,
    highlighter: Option<&H>,
) -> Result<()>
    ensures appends { OnOk result (AppendsSome (string_bytes bytes.old) (string_bytes bytes.new)
        (PaintsText (option_map (λ h. H.highlighted_prompt h (P.styled_text prompt.now) default)
        (option_map (λ h. h.now) highlighter.entry)) (P.raw_text prompt.now))) }
    ensures faults { FaultsOnly result }
{
    match highlighter {
        Some(highlighter) => {
            let shown = highlighter.highlight_prompt(alloc, prompt.styled(), default)?;
            push_shown(bytes, prompt.raw(), shown.as_str())
        }
        None => push_cleaned(bytes, prompt.raw()),
    }
}

/// Appends a line: its text, or how a highlighter shows it.
pub(crate) fn push_line<H: Highlighter>(
    bytes: &mut String,
    alloc: Global,
    line: &LineBuffer,
    highlighter: Option<&H>,
) -> Result<()>
    ensures appends { OnOk result (AppendsSome (string_bytes bytes.old) (string_bytes bytes.new)
        (PaintsText (option_map (λ h. H.highlighted h line.now.text line.now.cursor)
        (option_map (λ h. h.now) highlighter.entry)) line.now.text)) }
    ensures faults { FaultsOnly result }
{
    match highlighter {
        Some(highlighter) => {
            let shown = highlighter.highlight(alloc, line.as_str(), line.pos())?;
            push_shown(bytes, line.as_str(), shown.as_str())
        }
        None => push_cleaned(bytes, line.as_str()),
    }
}

/// Appends a text after the line, if there is one: that text, or how a highlighter shows it.
pub(crate) fn push_behind<H: Highlighter>(
    bytes: &mut String,
    alloc: Global,
    text: Option<&str>,
    highlighter: Option<&H>,
) -> Result<()>
    ensures appends { OnOk result (AppendsSome (string_bytes bytes.old) (string_bytes bytes.new)
        (PaintsBehind (option_map H.highlighted_hint (option_map (λ h. h.now) highlighter.entry))
        (option_map (λ s. s.now) text.entry))) }
    ensures faults { FaultsOnly result }
{
    match text {
        Some(text) => push_text(bytes, alloc, text, highlighter),
        None => Ok(()),
    }
}

/// Appends a text, or how a highlighter shows it as a hint.
fn push_text<H: Highlighter>(
    bytes: &mut String,
    alloc: Global,
    text: &str,
    highlighter: Option<&H>,
) -> Result<()>
    ensures appends { OnOk result (AppendsSome (string_bytes bytes.old) (string_bytes bytes.new)
        (PaintsText (option_map (λ h. H.highlighted_hint h text.now)
        (option_map (λ h. h.now) highlighter.entry)) text.now)) }
    ensures faults { FaultsOnly result }
{
    match highlighter {
        Some(highlighter) => {
            let shown = highlighter.highlight_hint(alloc, text)?;
            push_shown(bytes, text, shown.as_str())
        }
        None => push_cleaned(bytes, text),
    }
}

/// Appends a text that is shown as another. Where that does more than color it, or nothing, the
/// text is drawn without colors.
fn push_shown(bytes: &mut String, text: &str, shown: &str) -> Result<()>
    ensures appends { OnOk result
        (string_bytes bytes.new ≡ string_bytes bytes.old ++ shown_as text.now shown.now) }
    ensures memory { MemoryOnly result }
{
    if shown != text && is_coloring(shown, text) {
        return push_colored(bytes, shown);
    }
    push_cleaned(bytes, text)
}

/// Returns the highlighter that is asked: none where no colors are shown.
pub(crate) fn asked<'h, H: Highlighter>(colors: bool, highlighter: Option<&'h H>) -> Option<&'h H>
    ensures { option_map (λ h. h.now) result
        ≡ asked colors (option_map (λ h. h.now) highlighter.entry) }
{
    if colors { highlighter } else { None }
}

/// Appends what clears the rows of a layout that was drawn; where none was, those from the cursor's
/// on.
pub(crate) fn push_clear(bytes: &mut String, drawn: Option<&Layout>) -> Result<()>
    ensures appends { OnOk result (string_bytes bytes.new
        ≡ string_bytes bytes.old ++ clear_drawn (option_map (λ l. l.now) drawn.entry)) }
    ensures places { IfSome (option_map (λ l. l.now) drawn.entry) (λ l. IsPlace l.cursor) }
    ensures memory { MemoryOnly result }
{
    match drawn {
        Some(drawn) => push_clear_from(bytes, drawn.cursor),
        None => push_clear_from(bytes, ORIGIN),
    }
}

/// Appends what clears the rows of a drawing with its cursor at a place.
pub(crate) fn push_clear_from(bytes: &mut String, cursor: Position) -> Result<()>
    ensures appends { OnOk result
        (string_bytes bytes.new ≡ string_bytes bytes.old ++ clear_from cursor) }
    ensures place { IsPlace cursor }
    ensures memory { MemoryOnly result }
{
    push_steps(bytes, cursor.row, 'A')?;
    bytes.push_str("\r\x1b[J")?;
    Ok(())
}
