//! The text before the line.
ghost use Rattle.std.specs.Prelude.{◌≡◌, ℕ, List, string_bytes};

/// What is shown before the line, in two forms of the same width: plain, and with styles.
pub trait Prompt {
    // The text without styles.
    ghost raw_text: { Self → List ℕ };

    // The text with styles, or the same text where it has none.
    ghost styled_text: { Self → List ℕ };

    /// Returns the text without styles, by which the prompt is measured.
    fn raw(&self) -> &str
        ensures { result.now ≡ raw_text self.now };

    /// Returns the text with styles, or the raw text where it has none.
    fn styled(&self) -> &str
        ensures { result.now ≡ styled_text self.now };
}

impl Prompt for &str {
    ghost raw_text = { λ text. text.now };

    ghost styled_text = { λ text. text.now };

    fn raw(&self) -> &str {
        *self
    }

    fn styled(&self) -> &str {
        self.raw()
    }
}

impl Prompt for String {
    ghost raw_text = { λ text. string_bytes text };

    ghost styled_text = { λ text. string_bytes text };

    fn raw(&self) -> &str {
        self.as_str()
    }

    fn styled(&self) -> &str {
        self.raw()
    }
}

/// A pair of the raw text and the same text with styles.
impl Prompt for (&str, &str) {
    ghost raw_text = { λ pair. pair.0.now };

    ghost styled_text = { λ pair. pair.1.now };

    fn raw(&self) -> &str {
        let (raw, _) = self;
        raw
    }

    fn styled(&self) -> &str {
        let (_, styled) = self;
        styled
    }
}

/// A pair of the raw text and the same text with styles.
impl Prompt for (String, String) {
    ghost raw_text = { λ pair. string_bytes pair.0 };

    ghost styled_text = { λ pair. string_bytes pair.1 };

    fn raw(&self) -> &str {
        self.0.as_str()
    }

    fn styled(&self) -> &str {
        self.1.as_str()
    }
}
