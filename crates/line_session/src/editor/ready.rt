//! What an editor can do whose history is saved, or whose helper is put together from parts.
ghost use Rattle.std.specs.Prelude.{◌≡◌, None, true, is_some, not, IfOk};
ghost use Rattle.line_config.specs.Error.{FaultsOnly};
ghost use Rattle.line_parts.specs.HistoryText.{Saves};
ghost use Rattle.line_parts.specs.declared.escaped_line.Escapes.TheVariants.{V3};
ghost use Rattle.line_session.specs.Filed.{Files, LoadsText};

use crate::editor::Editor;
use line_config::Result;
use line_parts::{
    Completer, FileHistory, Helper, Hinter, History, Parts, SteadyHighlighter, Validator,
};
use std::io::{Read, Write};

impl<O: Write + Drop, H: Helper + Drop> Editor<O, H, FileHistory> {
    /// Reads lines from `reader` to its end, and adds each to the history, as
    /// `FileHistory::load_from` does. Returns what that answers; None while a line goes on, and
    /// nothing is read then.
    ///
    /// # Errors
    /// As `FileHistory::load_from`: `Io` if the reader fails, if a line is not UTF-8, or if there
    /// are too many lines to count, and `Memory` if memory runs out. The lines before the fault are
    /// then in the history. All else of the editor stays.
    pub fn load_history<R: Read + Drop>(&mut self, reader: R) -> Result<Option<bool>>
        ensures loads { self.old.line ≡ None
            → Files (LoadsText result (R.remaining reader)) self.old self.new }
        ensures refused { is_some self.old.line ≡ true → IfOk result (λ loaded. loaded ≡ None) }
        ensures kept { is_some self.old.line ≡ true → self.new ≡ self.old }
        ensures faults { FaultsOnly result }
    {
        if self.line.is_some() {
            return Ok(None);
        }
        let taken = self.setup.history.load_from(reader)?;
        Ok(Some(taken))
    }

    /// Writes the history to `out`, as `FileHistory::save_v3_to` does. Returns whether it was
    /// written: not while a line goes on.
    ///
    /// # Errors
    /// As `FileHistory::save_v3_to`: `Io` if the writer fails, and `Memory` if memory runs out. The
    /// history and all else of the editor then stay, and `out` may have a part of the text.
    pub fn save_history<W: Write>(&mut self, out: &mut W, append: bool) -> Result<bool>
        ensures saves { self.old.line ≡ None → Files (Saves V3 append result
            (W.contents out.old) (W.contents out.new)) self.old self.new }
        ensures answer { IfOk result (λ saved. saved ≡ not (is_some self.old.line)) }
        ensures kept { is_some self.old.line ≡ true → self.new ≡ self.old }
        ensures faults { FaultsOnly result }
    {
        if self.line.is_some() {
            return Ok(false);
        }
        self.setup.history.save_v3_to(out, append)?;
        Ok(true)
    }
}

impl<
    O: Write + Drop,
    C: Completer + Drop,
    N: Hinter + Drop,
    L: SteadyHighlighter + Drop,
    V: Validator + Drop,
    S: History + Drop,
> Editor<O, Parts<C, N, L, V>, S> {
    /// Puts another completer in place of the helper's. Candidates that were offered stay.
    pub fn set_completer(&mut self, completer: C)
        ensures { self.new ≡ record self.old {
          helper = record self.old.helper { completer = completer };
        } }
    {
        self.helper.completer = completer;
    }
}
