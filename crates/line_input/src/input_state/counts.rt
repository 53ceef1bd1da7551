//! Counts: how they are read, and which one a binding is handed.
ghost use Rattle.std.specs.Prelude.{◌≡◌, Option};
ghost use Rattle.line_input.specs.InputState.{input_of};
ghost use Rattle.line_input.specs.Keymap.{handed, new_count};
ghost use Rattle.line_input.specs.Reading.{ReadsCount, ReadsUnderCount};
ghost use Rattle.line_keys.specs.declared.keys.KeyEvent.{KeyEvent};

use crate::binding::ConditionalEventHandler;
use crate::input_state::InputState;
use line_buffer::RepeatCount;
use line_config::{EditMode, Result};
use line_keys::count::{Count, TypedCount, continues_count};
use line_keys::editor_state::EditorState;
use line_keys::keys::KeyEvent;
use line_keys::raw_reader::RawReader;
use line_keys::refresher::{InputMode, Refresher};

impl<C: ConditionalEventHandler> InputState<'_, C> {
    /// Reads the rest of a count of an edit mode that began with a key, and the key that ends it,
    /// and draws the line again. Returns the count and that key.
    pub(crate) fn read_count<R: RawReader, W: Refresher>(
        &self,
        rdr: &mut R,
        wrt: &mut W,
        mode: EditMode,
        first: KeyEvent,
    ) -> Result<(Count, KeyEvent)>
        ensures { ReadsCount W.EditorState R.RawReader mode first result
            wrt.old rdr.old wrt.new rdr.new }
    {
        let mut typed = TypedCount::new(first);
        'keys: loop {
            let key = self.read_under(rdr, wrt, &typed)?;
            if !continues_count(mode, key) {
                wrt.refresh_line()?;
                return Ok((typed.count(), key));
            }
            typed.push(key);
        }
    }

    // Shows a count in place of the prompt, and reads a key.
    fn read_under<R: RawReader, W: Refresher>(
        &self,
        rdr: &mut R,
        wrt: &mut W,
        typed: &TypedCount,
    ) -> Result<KeyEvent>
        ensures { ReadsUnderCount W.EditorState R.RawReader typed.now result
            wrt.old rdr.old wrt.new rdr.new }
    {
        let prompt = typed.prompt(self.bindings.alloc())?;
        wrt.refresh_prompt_and_line(prompt.as_str())?;
        rdr.next_key(true)
    }

    /// Returns the count that a key's binding is handed: 0 in Vi's insert and replace modes.
    pub(crate) fn handed(&self, mode: InputMode, typed: Option<Count>) -> Count
        ensures { result ≡ handed (input_of self.now).style mode typed }
    {
        match (self.remembered.mode, mode) {
            (EditMode::Vi, InputMode::Insert | InputMode::Replace) => Count {
                n: 0,
                positive: true,
            },
            _ => typed.unwrap_or(Count::one()),
        }
    }

    /// Returns the count that a bound command is done again with, if there is one.
    pub(crate) fn new_count(&self, typed: Option<Count>) -> Option<RepeatCount>
        ensures { result ≡ new_count (input_of self.now).style typed }
    {
        match (self.remembered.mode, typed) {
            (_, Some(count)) => Some(count.n),
            (EditMode::Emacs, None) => Some(1),
            (EditMode::Vi, None) => None,
        }
    }
}
