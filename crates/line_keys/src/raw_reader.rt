//! What reads keys.
ghost use Rattle.std.specs.Prelude.{◌≡◌, ◌∷◌, ℕ, List, Option, IfOk, IfErr, OnErr, option_map, string_bytes};
ghost use Rattle.line_config.specs.Failures.{CountsFailures};
ghost use Rattle.line_keys.specs.Command.{Command, command_of};
ghost use Rattle.line_keys.specs.Item.{Item, key, paste, ReadFault};
ghost use Rattle.line_keys.specs.Key.{event};
ghost use Rattle.line_keys.specs.declared.keys.KeyEvent.{KeyEvent};

use crate::cmd::Cmd;
use crate::keys::{KeyCode, KeyEvent, Modifiers};
use line_config::ReadlineError;

/// A source of keys and pasted texts: a finite list of items, of which each call takes the next
/// one.
///
/// # Errors
/// A failed call takes nothing. `Eof` comes only at the end of the list, where no call succeeds,
/// and `Interrupted` never. `Io` if the reader fails: the count of failures has then risen, if it
/// was not at its greatest value. `Memory` if memory runs out. After `Eof` and `Memory` the count
/// is as before.
pub trait RawReader {
    ghost rest: { Self → List Item };

    ghost failures: { Self → ℕ };

    // What no reading changes, and of it the commands that the reader itself has for keys.
    ghost Kept: { Type 0 };

    ghost kept: { Self → Kept };

    ghost own_binding: { Kept → KeyEvent → Option Command };

    /// Takes the next item, which is a key, and returns it. A pasted text there is a failure, and
    /// stays.
    ///
    /// `single_esc_abort` says that an escape key is not to wait for more keys: what is read is the
    /// same.
    fn next_key(&mut self, single_esc_abort: bool) -> Result<KeyEvent, ReadlineError>
        ensures took { IfOk result (λ k. rest self.old ≡ key k ∷ rest self.new) }
        ensures kept { OnErr result (rest self.new ≡ rest self.old) }
        ensures fault { IfErr result (λ e. ReadFault e (rest self.old)) }
        ensures counts { CountsFailures result (failures self.old) (failures self.new) }
        ensures stays { kept self.new ≡ kept self.old };

    /// Takes the next item, which is the key of a character without a modifier, and returns the
    /// character. Another item there is a failure, and stays.
    fn next_char(&mut self) -> Result<char, ReadlineError>
        ensures took { IfOk result (λ c.
            rest self.old ≡ key (event (KeyCode.Char c) Modifiers.NONE) ∷ rest self.new) }
        ensures kept { OnErr result (rest self.new ≡ rest self.old) }
        ensures fault { IfErr result (λ e. ReadFault e (rest self.old)) }
        ensures counts { CountsFailures result (failures self.old) (failures self.new) }
        ensures stays { kept self.new ≡ kept self.old };

    /// Takes the next item, which is a pasted text, and returns it. A key there is a failure, and
    /// stays.
    fn read_pasted_text(&mut self) -> Result<String, ReadlineError>
        ensures took { IfOk result (λ t. rest self.old ≡ paste (string_bytes t) ∷ rest self.new) }
        ensures kept { OnErr result (rest self.new ≡ rest self.old) }
        ensures fault { IfErr result (λ e. ReadFault e (rest self.old)) }
        ensures counts { CountsFailures result (failures self.old) (failures self.new) }
        ensures stays { kept self.new ≡ kept self.old };

    /// Returns the command that the reader itself has for the key, if it has one.
    fn find_binding(&self, key: &KeyEvent) -> Option<Cmd>
        ensures { option_map command_of result ≡ own_binding (kept self.now) key.now };
}
