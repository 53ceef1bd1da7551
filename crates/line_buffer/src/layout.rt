ghost use Rattle.std.specs.Prelude.{◌≡◌, ◌≤◌, ◌*◌, false, chars, length, take, IsCharBoundary, IsUtf8};
ghost use Rattle.std.specs.List.{slice_split, sum_by};
ghost use Rattle.line_buffer.specs.Width.{columns_as_one, columns_of_char, is_joiner, text_width, unit_width};

use crate::printable::is_printable_text;
use crate::seams::{JOINER, seam};
use unicode_width::{UnicodeWidthChar, UnicodeWidthStr};

/// A count of columns or of rows.
pub type Unit = u16;

/// How the columns of a text are counted.
#[derive(Debug, Clone, Copy, PartialEq, Eq)]
pub enum GraphemeClusterMode {
    /// The width of the text by its clusters.
    Unicode,
    /// The sum of the widths of its characters.
    WcWidth,
    /// The sum of the widths of its pieces between zero width joiners.
    NoZwj,
}

/// A place on the screen, ordered by row, then by column.
#[derive(Debug, Clone, Copy, PartialEq, Eq, PartialOrd, Ord, Default)]
pub struct Position {
    /// Rows below the first.
    pub row: Unit,
    /// Columns right of the first.
    pub col: Unit,
}

/// Where the prompt, the line and its cursor were drawn.
#[derive(Debug, Drop)]
pub struct Layout {
    /// How widths are counted.
    pub grapheme_cluster_mode: GraphemeClusterMode,
    /// Where the prompt ends.
    pub prompt_size: Position,
    /// Whether the prompt is the editor's own.
    pub default_prompt: bool,
    /// Where the cursor is.
    pub cursor: Position,
    /// Where what is shown ends, a text after the line included.
    pub end: Position,
    /// Whether something is shown after the line.
    pub has_info: bool,
}

impl Layout {
    /// Returns a layout with every place at the first column of the first row, and no info.
    pub fn new(grapheme_cluster_mode: GraphemeClusterMode) -> Layout
        ensures mode { result.grapheme_cluster_mode ≡ grapheme_cluster_mode }
        ensures prompt { result.prompt_size ≡ record { row = 0; col = 0 } }
        ensures default_prompt { result.default_prompt ≡ false }
        ensures cursor { result.cursor ≡ record { row = 0; col = 0 } }
        ensures end { result.end ≡ record { row = 0; col = 0 } }
        ensures info { result.has_info ≡ false }
    {
        let origin = Position { row: 0, col: 0 };
        Layout {
            grapheme_cluster_mode,
            prompt_size: origin,
            default_prompt: false,
            cursor: origin,
            end: origin,
            has_info: false,
        }
    }

    /// Returns the columns that the text takes by this layout's mode, at most the greatest `Unit`.
    pub fn width(&self, text: &str) -> Unit
        ensures { result ≡ unit_width self.now.grapheme_cluster_mode text.now }
    {
        self.grapheme_cluster_mode.width(text)
    }
}

impl GraphemeClusterMode {
    /// Returns the columns that the text takes, at most the greatest `Unit`.
    pub fn width(&self, text: &str) -> Unit
        ensures { result ≡ unit_width self.now text.now }
    {
        self.columns(text).min(65535) as Unit
    }

    /// Returns the columns that the text takes, however many.
    pub(crate) fn columns(&self, text: &str) -> usize
        ensures { result ≡ text_width self.now text.now }
    {
        if is_printable_text(text) {
            return text.len();
        }
        match self {
            GraphemeClusterMode::Unicode => columns_of(text),
            GraphemeClusterMode::WcWidth => columns_of_chars(text),
            GraphemeClusterMode::NoZwj => columns_between_joiners(text),
        }
    }

    /// Returns the columns that the text takes up to `end`, given those of all of it.
    pub(crate) fn columns_to(&self, text: &str, end: usize, columns: usize) -> usize
        requires end { IsCharBoundary text.now end }
        requires columns { columns ≡ text_width self.now text.now }
        ensures { result ≡ text_width self.now (take end text.now) }
    {
        let place = seam(&text[..end], &text[end..]);
        let with = self.columns(&text[place..]);
        let without = self.columns(&text[place..end]);
        if without <= with {
            columns - (with - without)
        } else {
            self.columns(&text[..end])
        }
    }
}

/// Returns the columns of the text.
fn columns_of(text: &str) -> usize
    ensures columns { result ≡ columns_as_one (chars text.now) }
    ensures bound { result ≤ 2 * length text.now }
    ensures text { IsUtf8 text.now }
{
    text.width()
}

/// Returns the columns of the text's characters, each by itself.
fn columns_of_chars(text: &str) -> usize
    ensures { result ≡ sum_by columns_of_char (chars text.now) }
{
    let mut columns: usize = 0;
    for c in text.chars() {
        columns = columns.saturating_add(c.width().unwrap_or(0));
    }
    columns
}

/// Returns the columns of the text's pieces between zero width joiners.
fn columns_between_joiners(text: &str) -> usize
    ensures { result ≡ sum_by columns_as_one (slice_split is_joiner (chars text.now)) }
{
    let mut columns = 0;
    let mut rest = text;
    while let Some((piece, behind)) = rest.split_once(JOINER) {
        columns += columns_of(piece);
        rest = behind;
    }
    columns + columns_of(rest)
}
