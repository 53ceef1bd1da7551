//! What reading keys remembers, which stays while no bindings are lent to it.
ghost use Rattle.std.specs.Prelude.{◌≡◌};
ghost use Rattle.line_input.specs.Binding.{bound_of};
ghost use Rattle.line_input.specs.Input.{first_input};
ghost use Rattle.line_input.specs.InputState.{input_of, keys_of, remembered_input};

use crate::binding::ConditionalEventHandler;
use crate::bindings::Bindings;
use crate::input_state::InputState;
use line_buffer::CharSearch;
use line_config::{Config, EditMode};
use line_keys::cmd::Cmd;
use line_keys::refresher::InputMode;

/// What reading keys remembers for the next commands.
pub struct Remembered {
    pub(crate) mode: EditMode,
    pub(crate) input_mode: InputMode,
    pub(crate) last_cmd: Option<Cmd>,
    pub(crate) last_char_search: Option<CharSearch>,
}

impl Drop for Remembered {
    fn drop(self) {
        let Remembered {
            mode: _,
            input_mode: _,
            last_cmd: _,
            last_char_search: _,
        } = self;
    }
}

impl Remembered {
    /// Returns what is remembered before the first key, in the configured edit mode; Vi begins in
    /// insert mode.
    pub fn new(config: &Config) -> Remembered
        ensures { remembered_input result ≡ first_input config.now.edit_mode }
    {
        Remembered {
            mode: config.edit_mode(),
            input_mode: InputMode::Insert,
            last_cmd: None,
            last_char_search: None,
        }
    }
}

impl<'b, C: ConditionalEventHandler> InputState<'b, C> {
    /// Returns what is remembered, which `resume` takes up again.
    pub fn release(self) -> Remembered
        ensures { remembered_input result ≡ input_of self.entry }
    {
        let InputState {
            bindings: _,
            remembered,
        } = self;
        remembered
    }

    /// Returns the state that remembers this, and reads keys by these bindings.
    pub fn resume(remembered: Remembered, bindings: &'b Bindings<C>) -> Self
        ensures input { input_of result ≡ remembered_input remembered }
        ensures bindings { let g = C.ConditionalEventHandler in
            (keys_of g result).bound ≡ bound_of g bindings.now }
    {
        InputState {
            bindings,
            remembered,
        }
    }
}
