//! The position of a line in the history.
ghost use Rattle.std.specs.Prelude.{◌≡◌, ◌≤◌, length};

use crate::history::History;
use std::marker::Model;

/// A history, and the index of the line in it. The number of the history's lines is the index of
/// the line that is being written.
pub struct Context<'h, S: History> {
    history: &'h S,
    history_index: usize,
}

impl<'h, S: History> Model for Context<'h, S> {
    ghost use Rattle.std.specs.Prelude.{◌≤◌, length};
    ghost use Rattle.line_parts.specs.Context.{HistoryPosition};

    ghost Value = { HistoryPosition S };

    ghost view = { λ c. record { history = c.history.now; index = c.history_index } };

    ghost invariant = { λ c. c.history_index ≤ length (S.lines c.history.now) };
}

impl<S: History> Drop for Context<'_, S> {
    fn drop(self) {
        let Context {
            history: _,
            history_index: _,
        } = self;
    }
}

impl<'h, S: History> Context<'h, S> {
    /// Returns the position of the line that is being written.
    pub fn new(history: &'h S) -> Self
        ensures { result ≡ record { history = history.now; index = length (S.lines history.now) } }
    {
        let history_index = history.len();
        Context {
            history,
            history_index,
        }
    }

    /// Returns the history.
    pub fn history(&self) -> &'h S
        ensures { result.now ≡ self.now.history }
    {
        self.history
    }

    /// Returns the history index, which is at most the number of the history's lines.
    pub fn history_index(&self) -> usize
        ensures value { result ≡ self.now.index }
        ensures within { result ≤ length (S.lines self.now.history) }
    {
        self.history_index
    }

    /// Sets the history index.
    pub fn set_history_index(&mut self, index: usize)
        requires { index ≤ length (S.lines self.old.history) }
        ensures { self.new ≡ record self.old { index = index } }
    {
        self.history_index = index;
    }
}
