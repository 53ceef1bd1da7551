//! The size of a terminal, which is asked for again and again.

use crate::helper::ConsoleHelper;
use line_config::Result;
use line_editor::Bindings;
use line_parts::{FileHistory, Helper, History};
use line_session::editor::Editor;
use line_term::Size;
use std::io::{Read, Write};

/// Asks a terminal for its size, which it answers as it sends keys.
const SIZE_WANTED: &[u8] = b"\x1b[18t";

/// At every which pause the size is asked for; a pause is a tenth of a second.
const PAUSES_BETWEEN: u32 = 10;

/// How many pauses are waited for an answer before the size is asked for again.
const PAUSES_UNANSWERED: u32 = 50;

/// After how many pauses the input counts as ended: eleven days of a terminal, and seconds of an
/// input that is at its end.
const PAUSES_AT_MOST: u32 = 10_000_000;

/// How often is read at the end for an answer that has not arrived yet.
const READS_AT_END: usize = 5;

/// How many bytes are read at once.
pub(crate) const BUFFER_SIZE: usize = 1024;

/// An editor of lines with the history and the helper of the console.
pub(crate) type LineEditor<O> = Editor<O, ConsoleHelper, FileHistory>;

/// What is known of a terminal that is asked for its size.
#[derive(Drop)]
pub(crate) struct Watch {
    size: Size,
    /// Whether it takes rows for columns in its answers, as tmux 3.3 does; known from its first
    /// answer on in which they differ.
    exchanges: Option<bool>,
    /// Whether an answer has not arrived yet.
    asked: bool,
    /// How many pauses there were since keys arrived.
    pauses: u32,
}

impl Watch {
    /// Returns the watch of a terminal of this size.
    pub(crate) fn new(size: Size) -> Watch {
        Watch {
            size,
            exchanges: None,
            asked: false,
            pauses: 0,
        }
    }

    /// Asks for the size, unless an answer is awaited.
    pub(crate) fn ask<W: Write>(&mut self, out: &mut W) -> Result<()> {
        if self.asked {
            return Ok(());
        }
        out.write_all(SIZE_WANTED)?;
        self.asked = true;
        Ok(())
    }

    /// Takes a pause: asks for the size at the first one, and then at every so many, unless an
    /// answer is awaited.
    pub(crate) fn pause<W: Write>(&mut self, out: &mut W) -> Result<()> {
        let pauses = self.pauses;
        self.pauses = pauses.saturating_add(1);
        if self.pauses % PAUSES_UNANSWERED == 0 {
            self.asked = false;
        }
        if pauses % PAUSES_BETWEEN != 0 {
            return Ok(());
        }
        self.ask(out)
    }

    /// Returns whether nothing was typed for so long that the input counts as ended.
    pub(crate) fn is_silent(&self) -> bool {
        self.pauses >= PAUSES_AT_MOST
    }

    /// Gives the editor the size that the terminal reported after what was read, if it did and it
    /// is another one.
    pub(crate) fn follow<O: Write + Drop, H: Helper + Drop, S: History + Drop>(
        &mut self,
        editor: &mut Editor<O, H, S>,
    ) -> Result<()> {
        let Some(answer) = editor.take_size() else {
            self.pauses = 0;
            return Ok(());
        };
        let size = self.meant(answer);
        if size == self.size || size.columns == 0 {
            return Ok(());
        }
        self.size = size;
        editor.resize(size.columns, size.rows)
    }

    /// Returns the size that an answer means.
    fn meant(&mut self, answer: Size) -> Size {
        let other = Size {
            rows: answer.columns,
            columns: answer.rows,
        };
        self.asked = false;
        if other == answer {
            return answer;
        }
        let exchanges = self.exchanges.unwrap_or(other == self.size);
        self.exchanges = Some(exchanges);
        if exchanges { other } else { answer }
    }

    /// Waits a moment for an answer that has not arrived yet, so that it is not left to whoever
    /// reads next.
    pub(crate) fn settle<R: Read, O: Write + Drop, H: Helper + Drop, S: History + Drop>(
        &mut self,
        input: &mut R,
        editor: &mut Editor<O, H, S>,
        bindings: &Bindings,
    ) -> Result<()> {
        let mut buffer = [0; BUFFER_SIZE];
        for _ in 0..READS_AT_END {
            if !self.asked {
                return Ok(());
            }
            let count = input.read(&mut buffer)?;
            editor.feed(&buffer[..count], bindings)?;
            self.asked = editor.take_size().is_none();
        }
        Ok(())
    }
}
