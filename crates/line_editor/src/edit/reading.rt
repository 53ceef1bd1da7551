//! How the next command is read.
ghost use Rattle.std.specs.Prelude.{◌≡◌, OnOk};
ghost use Rattle.line_config.specs.Error.{MemoryOnly};
ghost use Rattle.line_input.specs.InputState.{keys_of};
ghost use Rattle.line_input.specs.Reading.{BeforeKey, ReadsCommand};
ghost use Rattle.line_input.specs.Ruler.{grouped};
ghost use Rattle.line_keys.specs.Command.{command_of};
ghost use Rattle.line_keys.specs.Model.Draft.{KeepsLine, start_text};
ghost use Rattle.line_keys.specs.Model.Drawing.{Undrawn};
ghost use Rattle.line_keys.specs.Model.ShownLine.{KeepsDrawn};

use crate::edit::State;
use line_config::{Prompt, Result};
use line_input::{ConditionalEventHandler, InputState};
use line_keys::cmd::Cmd;
use line_keys::editor_state::EditorState;
use line_keys::keys::KeyEvent;
use line_keys::raw_reader::RawReader;
use line_keys::refresher::Refresher;
use line_parts::{Helper, History};
use line_state::Renderer;

impl<'out, 'prompt, W: Renderer, H: Helper, P: Prompt, S: History> State<
    'out,
    'prompt,
    W,
    H,
    P,
    S,
> {
    /// Reads the next command, by the program's bindings, the reader's and the tables, and begins a
    /// group of changes for a replacement.
    ///
    /// # Errors
    /// `Eof` if the items end inside a phrase or before one; a phrase that was cut short can be
    /// read again with more items after it. `Io` if the reader, the renderer, a handler, the helper
    /// or the history fails. `Memory` if memory runs out.
    ///
    /// After any error the line, its cursor, the saved line, the history index and what is
    /// remembered of the keys stay, and no item past the phrase that was begun is read. After `Eof`
    /// and `Io` the changes stay, too, but open groups of them may have ended, and the hint may be
    /// an earlier one, none or that of the line. After `Memory` changes and hint may be any. After
    /// `Io` and `Memory` draw the line again.
    pub fn next_cmd<C: ConditionalEventHandler>(
        &mut self,
        input_state: &mut InputState<'_, C>,
        rdr: &mut W::Reader,
        single_esc_abort: bool,
    ) -> Result<Cmd>
        ensures { let k = keys_of C.ConditionalEventHandler in
            ReadsCommand ⟦<Self as EditorState>⟧ W.Reader.RawReader grouped result
            self.old (k input_state.old) rdr.old self.new (k input_state.new) rdr.new }
    {
        let first = rdr.next_key(single_esc_abort && input_state.is_emacs_mode())?;
        self.cmd_from(input_state, rdr, first)
    }

    // Reads the rest of the next command, whose first key was read.
    pub(crate) fn cmd_from<C: ConditionalEventHandler>(
        &mut self,
        input_state: &mut InputState<'_, C>,
        rdr: &mut W::Reader,
        first: KeyEvent,
    ) -> Result<Cmd>
        ensures { let k = keys_of C.ConditionalEventHandler in
            BeforeKey W.Reader.RawReader first rdr.old (λ reader.
            ReadsCommand ⟦<Self as EditorState>⟧ W.Reader.RawReader grouped result
            self.old (k input_state.old) reader self.new (k input_state.new) rdr.new) }
    {
        let read = input_state.read_phrase(rdr, self, first)?;
        self.begin_group(read.command())?;
        input_state.remember(read)
    }

    // Begins a group of changes for a replacement.
    #[tactic(auto, using(crate::proofs::DrawnLemmas::line_stays))]
    fn begin_group(&mut self, command: &Cmd) -> Result<()>
        ensures draft { let d = ⟦<Self as EditorState>⟧.draft in OnOk result
            ((d self.new ≡ grouped (command_of command.now) (d self.old))
            × (start_text (d self.new) ≡ start_text (d self.old))) }
        ensures line { let d = ⟦<Self as EditorState>⟧.draft in
            KeepsLine (d self.old) (d self.new) × ((d self.new).hint ≡ (d self.old).hint) }
        ensures undrawn { Undrawn ⟦<Self as EditorState>⟧ self.old self.new }
        ensures drawn { KeepsDrawn ⟦<Self as EditorState>⟧ self.old self.new }
        ensures memory { MemoryOnly result }
    {
        match command {
            Cmd::Replace(_, _) | Cmd::ReplaceToBracket(_) => self.doing_insert(),
            _ => Ok(()),
        }
    }
}
