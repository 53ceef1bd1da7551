//! What is printed of a screen after a turn.

use crate::cells::{print_bytes, print_cells};
use line_config::Result;
use line_screen::Plain;
use line_script::Script;
use line_state::{Renderer, Resizable};
use line_term::Ansi;
use std::io::Write;

/// A screen that prints what a turn did.
pub trait Printed: Renderer<Reader = Script> + Resizable {
    /// Prints what was written after the first `printed` bytes, or what is shown; and before it
    /// that the screen was resized, where it was and this is to be printed. Returns how many bytes
    /// there are.
    fn print<O: Write>(&self, resized: bool, printed: usize, out: &mut O) -> Result<usize>;
}

impl Printed for Ansi<Vec<u8>, Script> {
    fn print<O: Write>(&self, resized: bool, printed: usize, out: &mut O) -> Result<usize> {
        if resized {
            writeln!(out, "resize {}", self.get_columns())?;
        }
        let bytes = self.out();
        write!(out, "bytes ")?;
        print_bytes(bytes.get(printed..).unwrap_or(&[]), out)?;
        Ok(bytes.len())
    }
}

impl Printed for Plain<Script> {
    fn print<O: Write>(&self, _resized: bool, printed: usize, out: &mut O) -> Result<usize> {
        print_cells(self, self.get_columns(), out)?;
        Ok(printed)
    }
}
