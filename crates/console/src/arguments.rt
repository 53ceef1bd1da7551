//! The arguments of the console.

use line_term::Size;
use std::env::Args;

/// How the console is called.
pub(crate) const USAGE: &str =
    "usage: console [--vi] [--list] [--history FILE] [--terminal COLUMNS ROWS]";

/// What the arguments say.
pub(crate) struct Arguments {
    /// Whether keys are those of Vi.
    pub(crate) vi: bool,
    /// Whether completions are listed.
    pub(crate) list: bool,
    /// The file of the history.
    pub(crate) history: Option<String>,
    /// The size of the terminal, where lines are read from one.
    pub(crate) size: Option<Size>,
}

impl Drop for Arguments {
    fn drop(self) {
        let Arguments {
            vi: _,
            list: _,
            history: _,
            size: _,
        } = self;
    }
}

/// What the next argument is.
#[derive(Clone, Copy)]
enum Next {
    Word,
    History,
    Columns,
    Rows { columns: u16 },
}

impl Arguments {
    /// Returns what the arguments say, of which the first is the program's name; None where they
    /// say nothing that is known.
    pub(crate) fn of(mut words: Args) -> Option<Arguments> {
        words.next();
        let mut arguments = Arguments {
            vi: false,
            list: false,
            history: None,
            size: None,
        };
        let mut next = Next::Word;
        for word in words {
            next = arguments.take(next, word)?;
        }
        match next {
            Next::Word => Some(arguments),
            _ => None,
        }
    }

    /// Takes an argument. Returns what the one after it is; None where this one is not known.
    fn take(&mut self, next: Next, word: String) -> Option<Next> {
        match next {
            Next::Word => return self.take_word(word.as_str()),
            Next::History => self.history = Some(word),
            Next::Columns => {
                return Some(Next::Rows {
                    columns: word.parse().ok()?,
                });
            }
            Next::Rows { columns } => {
                self.size = Some(Size {
                    rows: word.parse().ok()?,
                    columns,
                });
            }
        }
        Some(Next::Word)
    }

    /// Takes an argument that stands alone, or before others.
    fn take_word(&mut self, word: &str) -> Option<Next> {
        match word {
            "--vi" => {
                self.vi = true;
                Some(Next::Word)
            }
            "--list" => {
                self.list = true;
                Some(Next::Word)
            }
            "--history" => Some(Next::History),
            "--terminal" => Some(Next::Columns),
            _ => None,
        }
    }
}
