//! What contracts see of an editor.
ghost use Rattle.std.specs.Prelude.{ℕ};
ghost use Rattle.line_keys.specs.Model.Display.{Display};
ghost use Rattle.line_keys.specs.Model.Draft.{Draft};
ghost use Rattle.line_parts.specs.Asks.{Sureness};
ghost use Rattle.line_parts.specs.Environment.{Environment};

/// What contracts see of an editor, and no code reads: the line that is edited, what answers for
/// it, what is drawn, and the counts of failures and of full redraws.
pub trait EditorState {
    // What distinguishes the loans of the renderer and of the helper from others.
    ghost Loan: { Type 0 };

    ghost draft: { Self → Draft };

    ghost environment: { Self → Environment };

    ghost display: { Self → Display };

    ghost loan: { Self → Loan };

    // Which answers of the helper and the history come without an error of input or output.
    ghost sure: { Self → Sureness };

    ghost failures: { Self → ℕ };

    ghost redraws: { Self → ℕ };
}
