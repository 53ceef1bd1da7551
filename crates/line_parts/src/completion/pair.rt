//! Candidates that show one text and put another into the line.
ghost use Rattle.std.specs.Prelude.{◌≡◌, IfOk, string_bytes};
ghost use Rattle.line_config.specs.Error.{MemoryOnly};

use crate::completion::Candidate;
use line_config::Result;

/// A candidate with a text to show and a text to put into the line.
pub struct Pair {
    /// The text that is shown in a list of candidates.
    pub display: String,
    /// The text that is put into the line.
    pub replacement: String,
}

impl Drop for Pair {
    fn drop(self) {
        let Pair {
            display: _,
            replacement: _,
        } = self;
    }
}

impl Pair {
    ghost use Rattle.line_parts.specs.Candidate.{pair_offer};

    /// Returns an equal pair.
    ///
    /// # Errors
    /// `Memory` if memory runs out.
    pub fn clone(&self) -> Result<Self>
        ensures answer { IfOk result (λ copy. pair_offer copy ≡ pair_offer self.now) }
        ensures memory { MemoryOnly result }
    {
        Ok(Pair {
            display: self.display.clone()?,
            replacement: self.replacement.clone()?,
        })
    }
}

impl Candidate for Pair {
    ghost display_text = { λ pair. string_bytes pair.display };

    ghost replacement_text = { λ pair. string_bytes pair.replacement };

    fn display(&self) -> &str {
        self.display.as_str()
    }

    fn replacement(&self) -> &str {
        self.replacement.as_str()
    }
}
