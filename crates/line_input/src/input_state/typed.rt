//! Characters that are typed, and of which nothing is remembered.
ghost use Rattle.std.specs.Prelude.{◌≡◌, IfSome};
ghost use Rattle.line_input.specs.InputState.{input_of, keys_of};
ghost use Rattle.line_input.specs.Keymap.{keymap_of};
ghost use Rattle.line_input.specs.Phrase.{TypesChar, types_chars};

use crate::binding::ConditionalEventHandler;
use crate::input_state::InputState;
use line_config::EditMode;
use line_keys::cmd::Cmd;
use line_keys::keys::{KeyCode, KeyEvent, Modifiers};
use line_keys::raw_reader::RawReader;
use line_keys::refresher::InputMode;

impl<C: ConditionalEventHandler> InputState<'_, C> {
    /// Returns the character that a key types by itself, with nothing to remember of it: a plain
    /// one that neither the program nor the reader binds, in a mode that takes characters. `None`
    /// where the key may stand for something else, or where something is remembered of it.
    #[inline(always)]
    pub fn typed_by<R: RawReader>(&self, rdr: &R, key: KeyEvent) -> Option<char>
        ensures { let k =
            keys_of C.ConditionalEventHandler self.now in
            let own = R.own_binding (R.kept rdr.now) in
            IfSome result (λ c. TypesChar (keymap_of k own) k.input key c) }
    {
        match key {
            KeyEvent(KeyCode::Char(c), Modifiers::NONE) if self.types(c) => {
                if self.bindings.of_key(key).is_some() || rdr.find_binding(&key).is_some() {
                    return None;
                }
                Some(c)
            }
            _ => None,
        }
    }

    // Returns whether a plain key inserts its character, and nothing is remembered of it.
    #[inline(always)]
    fn types(&self, c: char) -> bool
        ensures { result ≡ types_chars (input_of self.now) }
    {
        match (self.remembered.mode, self.remembered.input_mode) {
            (EditMode::Emacs, _) => true,
            (EditMode::Vi, InputMode::Insert) => {
                !Cmd::SelfInsert(1, c).becomes_change(InputMode::Insert, &self.remembered.last_cmd)
            }
            (EditMode::Vi, _) => false,
        }
    }
}
