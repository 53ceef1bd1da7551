//! The lines of an input, one after another.
ghost use Rattle.std.specs.Prelude.{◌≡◌};
ghost use Rattle.std.specs.Iterator.{at_most};
ghost use Rattle.line_editor.specs.Binding.{bound_of};
ghost use Rattle.line_session.specs.Kept.{answers_of};
ghost use Rattle.line_session.specs.Lines.{GivesNext};

use crate::editor::Editor;
use line_config::{Prompt, ReadlineError, Result};
use line_editor::{Bindings, ConditionalEventHandler};
use line_parts::{Helper, History};
use std::io::{Read, Write};

/// Reads a line of an input each time, as `readline` does, until the input ends.
pub struct Iter<
    'a,
    O: Write + Drop,
    H: Helper + Drop,
    S: History + Drop,
    R: Read,
    P: Prompt,
    C: ConditionalEventHandler,
> {
    editor: &'a mut Editor<O, H, S>,
    input: &'a mut R,
    pauses: bool,
    prompt: &'a P,
    bindings: &'a Bindings<C>,
    /// How many lines are read at most.
    turns: u64,
}

impl<
    O: Write + Drop,
    H: Helper + Drop,
    S: History + Drop,
    R: Read,
    P: Prompt,
    C: ConditionalEventHandler,
> Drop for Iter<'_, O, H, S, R, P, C> {
    fn drop(self) {
        let Iter {
            editor: _,
            input: _,
            pauses: _,
            prompt: _,
            bindings: _,
            turns: _,
        } = self;
    }
}

impl<O: Write + Drop, H: Helper + Drop, S: History + Drop> Editor<O, H, S> {
    /// Returns the lines of an input, each of which is read, with the prompt before it, when it is
    /// asked for.
    pub fn iter<'a, R: Read, P: Prompt, C: ConditionalEventHandler>(
        &'a mut self,
        input: &'a mut R,
        pauses: bool,
        prompt: &'a P,
        bindings: &'a Bindings<C>,
    ) -> Iter<'a, O, H, S, R, P, C> {
        Iter {
            editor: self,
            input,
            pauses,
            prompt,
            bindings,
            turns: u64::MAX,
        }
    }
}

impl<
    'a,
    O: Write + Drop,
    H: Helper + Drop,
    S: History + Drop,
    R: Read,
    P: Prompt,
    C: ConditionalEventHandler,
> Iterator for Iter<'a, O, H, S, R, P, C> {
    type Item = Result<String>;

    ghost remaining = { λ s. at_most s.turns };

    ghost next_gives = { λ old given new. let g = C.ConditionalEventHandler in
        (new.pauses ≡ old.pauses) × GivesNext (answers_of H.hint_at H.verdict_at H.lights H.Completer)
        (bound_of g old.bindings.now) old.pauses
        (R.remaining old.input.now) (R.remaining new.input.now) (P.raw_text old.prompt.now)
        old.editor.now new.editor.now old.turns new.turns given };

    /// Returns the next line, or why there is none, as `readline` answers; None where that is `Eof`,
    /// and from then on.
    fn next(&mut self) -> Option<Result<String>> {
        if self.turns == 0 {
            return None;
        }
        self.turns -= 1;
        match self
            .editor
            .readline(self.input, self.pauses, self.prompt, self.bindings)
        {
            Err(ReadlineError::Eof) => {
                self.turns = 0;
                None
            }
            line => Some(line),
        }
    }
}
