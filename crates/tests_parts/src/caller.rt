//! The caller in the CALLING.md of `line_buffer`.
ghost use Rattle.std.specs.Prelude.{◌≡◌, OnOk, encode_utf8};
ghost use Rattle.std.specs.List.{repeat};
ghost use Rattle.line_buffer.specs.Line.{inserted_at_cursor};

use line_buffer::{Changeset, LineBuffer, OutOfMemory};

/// Types a character, and says what the line is then.
pub fn type_in(line: &mut LineBuffer, changes: &mut Changeset, c: char) -> Result<(), OutOfMemory>
    ensures { OnOk result (line.new ≡ inserted_at_cursor line.old (repeat 1 (encode_utf8 c))) }
{
    line.insert(c, 1, changes)?;
    Ok(())
}
