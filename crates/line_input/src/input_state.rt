//! Reads keys, and returns the commands that they stand for.
ghost use Rattle.std.specs.Prelude.{◌≡◌, ◌↔◌, Option, false, IfOk, OnOk, OnErr, IsTrue};
ghost use Rattle.line_config.specs.Error.{MemoryOnly};
ghost use Rattle.line_input.specs.Binding.{bound_of};
ghost use Rattle.line_input.specs.Input.{first_input, is_vi_command};
ghost use Rattle.line_input.specs.InputState.{input_of, keys_of, read_command, read_input};
ghost use Rattle.line_input.specs.Reading.{ReadsCommand};
ghost use Rattle.line_keys.specs.Command.{command_of};

mod bound_keys;
mod counts;
mod motions;
pub mod phrases;
pub mod remembered;
mod sequences;
mod tails;
mod typed;

use crate::binding::ConditionalEventHandler;
use crate::bindings::Bindings;
use line_config::{Config, EditMode, Result};
use line_keys::cmd::Cmd;
use line_keys::editor_state::EditorState;
use line_keys::raw_reader::RawReader;
use line_keys::refresher::{InputMode, Refresher};
use phrases::Read;
use remembered::Remembered;

/// Reads keys as commands, by the program's bindings, the reader's own and the tables, and
/// remembers what the next commands depend on.
pub struct InputState<'b, C = Box<dyn ConditionalEventHandler>> {
    bindings: &'b Bindings<C>,
    remembered: Remembered,
}

impl<C> Drop for InputState<'_, C> {
    fn drop(self) {
        let InputState {
            bindings: _,
            remembered: _,
        } = self;
    }
}

impl<'b, C: ConditionalEventHandler> InputState<'b, C> {
    /// Returns the state before the first key, in the configured edit mode; Vi begins in insert
    /// mode.
    pub fn new(config: &Config, bindings: &'b Bindings<C>) -> Self
        ensures input { input_of result ≡ first_input config.now.edit_mode }
        ensures bindings { let g = C.ConditionalEventHandler in
            (keys_of g result).bound ≡ bound_of g bindings.now }
    {
        InputState {
            bindings,
            remembered: Remembered::new(config),
        }
    }

    /// Returns whether the edit mode is Emacs.
    pub fn is_emacs_mode(&self) -> bool
        ensures { IsTrue result ↔ ((input_of self.now).style ≡ EditMode.Emacs) }
    {
        self.remembered.mode == EditMode::Emacs
    }

    /// Returns whether the edit mode is Vi, in command mode.
    pub fn is_vi_cmd_mode(&self) -> bool
        ensures { result ≡ is_vi_command (input_of self.now) }
    {
        match (self.remembered.mode, self.remembered.input_mode) {
            (EditMode::Vi, InputMode::Command) => true,
            _ => false,
        }
    }

    /// Reads the keys of one phrase, and nothing past it, and returns the command that they stand
    /// for.
    ///
    /// `single_esc_abort` is handed on to the reader for the first key, in Emacs mode alone.
    ///
    /// # Errors
    /// `Eof` if the items end inside a phrase or before one; a phrase that was cut short can be
    /// read again with more items after it. `Io` if the reader or the drawing fails, or a handler,
    /// or the helper or the history where it is asked for a hint. `Memory` if memory runs out.
    ///
    /// After any error the line, its cursor, the saved line, the history index and what is
    /// remembered of the keys stay, and no item past the phrase that was begun is read. After `Eof`
    /// and `Io` the changes stay, too, but open groups of them may have ended, and the hint may be
    /// an earlier one, none or that of the line. After `Memory` changes and hint may be any. After
    /// `Io` and `Memory` draw the line again.
    pub fn next_cmd<R: RawReader, W: Refresher>(
        &mut self,
        rdr: &mut R,
        wrt: &mut W,
        single_esc_abort: bool,
    ) -> Result<Cmd>
        ensures { let k = keys_of C.ConditionalEventHandler in
            ReadsCommand W.EditorState R.RawReader (λ command draft. draft) result
            wrt.old (k self.old) rdr.old wrt.new (k self.new) rdr.new }
    {
        let first = rdr.next_key(single_esc_abort && self.is_emacs_mode())?;
        let read = self.read_phrase(rdr, wrt, first)?;
        self.remember(read)
    }

    /// Remembers what was read of a phrase. Returns its command, of which a copy is kept where it
    /// becomes the last change.
    ///
    /// # Errors
    /// `Memory` if memory runs out. Nothing is then remembered.
    #[inline(always)]
    pub fn remember(&mut self, read: Read) -> Result<Cmd>
        ensures command { IfOk result (λ c. command_of c ≡ read_command read) }
        ensures keys { let k = keys_of C.ConditionalEventHandler in
            OnOk result (k self.new
            ≡ record (k self.old) { input = read_input read (input_of self.old) }) }
        ensures err { let k = keys_of C.ConditionalEventHandler in
            OnErr result (k self.new ≡ k self.old) }
        ensures memory { MemoryOnly result }
    {
        if read.is_change {
            self.remembered.last_cmd = Some(read.command.clone(self.bindings.alloc())?);
        }
        self.remembered.input_mode = read.input_mode;
        self.remembered.last_char_search = read.last_char_search;
        Ok(read.command)
    }
}
