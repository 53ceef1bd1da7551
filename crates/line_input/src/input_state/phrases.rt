//! Phrases: an optional count, a key and what belongs to it; in Vi also a phrase of command mode
//! after Alt.
ghost use Rattle.line_input.specs.Reads.{ReadsKeyed, ReadsPhrase, ReadsSpelled};
ghost use Rattle.std.specs.Prelude.{◌≡◌, true, None, Option, Some, OnOk};
ghost use Rattle.line_config.specs.Error.{MemoryOnly};
ghost use Rattle.line_input.specs.Input.{in_mode};
ghost use Rattle.line_input.specs.InputState.{input_of, keys_of, read_command, read_input};
ghost use Rattle.line_input.specs.Phrase.{changed_by, remembered_behind, with_group};
ghost use Rattle.line_keys.specs.Command.{command_of};
ghost use Rattle.line_keys.specs.Count.{begins_count};
ghost use Rattle.line_keys.specs.Model.Draft.{KeepsLine, start_text};
ghost use Rattle.line_keys.specs.Model.Drawing.{Undrawn};
ghost use Rattle.line_keys.specs.Item.{key};
ghost use Rattle.line_keys.specs.Table.{stands_for};
ghost use Rattle.line_keys.specs.declared.count.Count.{Count};
ghost use Rattle.line_keys.specs.declared.keys.KeyEvent.{KeyEvent};

use crate::binding::ConditionalEventHandler;
use crate::input_state::InputState;
use crate::input_state::bound_keys::own_command;
use line_buffer::CharSearch;
use line_config::{EditMode, Result};
use line_keys::cmd::Cmd;
use line_keys::count::{Count, begins_count};
use line_keys::editor_state::EditorState;
use line_keys::keys::KeyEvent;
use line_keys::raw_reader::RawReader;
use line_keys::refresher::{InputMode, Refresher};
use line_keys::tables::{Entry, Grouping, entry_of_key, stands_for};

/// What was read of a phrase: its command, the mode and the search that it leaves, and whether the
/// command becomes the last change.
#[derive(Drop)]
pub struct Read {
    pub(crate) command: Cmd,
    pub(crate) input_mode: InputMode,
    pub(crate) is_change: bool,
    pub(crate) last_char_search: Option<CharSearch>,
}

impl Read {
    /// Returns the command that the phrase stands for.
    #[inline(always)]
    pub fn command(&self) -> &Cmd
        ensures { command_of result.now ≡ read_command self.now }
    {
        &self.command
    }
}

impl<C: ConditionalEventHandler> InputState<'_, C> {
    /// Reads the rest of a phrase whose first key was read. Returns what was read, which `remember`
    /// takes; nothing is remembered yet.
    ///
    /// # Errors
    /// `Eof` if the items end inside the phrase. `Io` and `Memory` come as from `next_cmd`, which
    /// also says what is left after an error.
    #[inline(always)]
    pub fn read_phrase<R: RawReader, W: Refresher>(
        &self,
        rdr: &mut R,
        wrt: &mut W,
        first: KeyEvent,
    ) -> Result<Read>
        ensures { ReadsPhrase W.EditorState R.RawReader first result
            wrt.old rdr.old wrt.new rdr.new
            (keys_of C.ConditionalEventHandler self.now) }
    {
        match stands_for(self.remembered.mode, self.remembered.input_mode, first) {
            Some(plain) => self.read_alt(rdr, wrt, first, plain),
            None => self.read_spelled(rdr, wrt, self.remembered.input_mode, first),
        }
    }

    // Reads the rest of a phrase of command mode after a key with Alt, which stands for a plain key
    // there. The groups of changes end first, unless a binding or the reader has a command for the
    // key.
    #[inline(never)]
    fn read_alt<R: RawReader, W: Refresher>(
        &self,
        rdr: &mut R,
        wrt: &mut W,
        first: KeyEvent,
        plain: KeyEvent,
    ) -> Result<Read>
        requires { let i = input_of self.now in stands_for i.style i.mode first ≡ Some plain }
        ensures { ReadsPhrase W.EditorState R.RawReader first result
            wrt.old rdr.old wrt.new rdr.new
            (keys_of C.ConditionalEventHandler self.now) }
    {
        if let Some(command) = self.custom_binding(wrt, self.remembered.input_mode, first, None)? {
            return Ok(self.at_once(self.remembered.input_mode, command));
        }
        if let Some(command) = own_command(rdr, wrt, &first) {
            return Ok(self.at_once(self.remembered.input_mode, command));
        }
        wrt.done_inserting()?;
        let read = self.read_spelled(rdr, wrt, InputMode::Command, plain)?;
        Ok(self.behind_alt(read))
    }

    // Reads the rest of a phrase of a mode that began with a key: its count, if it begins one, and
    // what belongs to the key after it.
    #[inline(always)]
    fn read_spelled<R: RawReader, W: Refresher>(
        &self,
        rdr: &mut R,
        wrt: &mut W,
        mode: InputMode,
        first: KeyEvent,
    ) -> Result<Read>
        requires { stands_for (input_of self.now).style mode first ≡ None }
        ensures { ReadsSpelled W.EditorState R.RawReader mode first result
            wrt.old rdr.old wrt.new rdr.new
            (keys_of C.ConditionalEventHandler self.now) }
    {
        if begins_count(self.remembered.mode, mode, first) {
            return self.read_counted(rdr, wrt, mode, first);
        }
        self.read_behind(rdr, wrt, mode, first, None)
    }

    // The same where the key begins a count.
    #[inline(never)]
    fn read_counted<R: RawReader, W: Refresher>(
        &self,
        rdr: &mut R,
        wrt: &mut W,
        mode: InputMode,
        first: KeyEvent,
    ) -> Result<Read>
        requires { begins_count (input_of self.now).style mode first ≡ true }
        ensures { ReadsSpelled W.EditorState R.RawReader mode first result
            wrt.old rdr.old wrt.new rdr.new
            (keys_of C.ConditionalEventHandler self.now) }
    {
        let (count, key) = self.read_count(rdr, wrt, self.remembered.mode, first)?;
        self.read_behind(rdr, wrt, mode, key, Some(count))
    }

    // Reads what belongs to a key of a mode, under the count that was typed.
    //
    // The way of a key: `State::cmd_from` of `line_editor` hands the state in as `wrt`; a plain
    // character that is typed does not get here. The program's bindings are asked first, then the
    // reader's own, and then the tables of `line_keys`. A table gives a meaning, which says what
    // else is to be read, and `read_tail` reads it. The command goes back through `State::next_cmd`
    // to `execute`, which finds the edit that it names.
    #[inline(always)]
    fn read_behind<R: RawReader, W: Refresher>(
        &self,
        rdr: &mut R,
        wrt: &mut W,
        mode: InputMode,
        key: KeyEvent,
        typed: Option<Count>,
    ) -> Result<Read>
        requires { stands_for (input_of self.now).style mode key ≡ None }
        ensures { ReadsKeyed W.EditorState R.RawReader mode typed key result
            wrt.old rdr.old wrt.new rdr.new
            (keys_of C.ConditionalEventHandler self.now) }
    {
        if let Some(command) = self.custom_binding(wrt, mode, key, typed)? {
            return Ok(self.at_once(mode, command));
        }
        if let Some(command) = own_command(rdr, wrt, &key) {
            return Ok(self.at_once(mode, command));
        }
        let Entry {
            meaning,
            enters,
            group,
        } = entry_of_key(self.remembered.mode, mode, key, typed, wrt);
        let count = typed.unwrap_or(Count::one());
        let mut read = self.read_tail(rdr, wrt, mode, key, count, meaning)?;
        change_group(wrt, group)?;
        self.set_remembered(mode, enters, &mut read);
        Ok(read)
    }

    // Returns what a command of the bindings or of the reader is read as: it leaves the mode, the
    // last change and the search.
    #[inline(always)]
    fn at_once(&self, mode: InputMode, command: Cmd) -> Read
        ensures command { command_of result.command ≡ command_of command }
        ensures input { let i = input_of self.now in read_input result i ≡ in_mode mode i }
    {
        Read {
            command,
            input_mode: mode,
            is_change: false,
            last_char_search: self.remembered.last_char_search,
        }
    }

    // Sets what is remembered of a command of the tables: in Vi the mode that its key enters and
    // whether it becomes the last change, in Emacs nothing.
    #[inline(always)]
    fn set_remembered(&self, mode: InputMode, enters: Option<InputMode>, read: &mut Read)
        ensures command { command_of read.new.command ≡ command_of read.old.command }
        ensures input { let i = input_of self.now in let command = command_of read.old.command in
            read_input read.new i ≡ remembered_behind i.style enters (in_mode mode i) command
            read.old.last_char_search }
    {
        match self.remembered.mode {
            EditMode::Emacs => {
                read.input_mode = mode;
                read.is_change = false;
                read.last_char_search = self.remembered.last_char_search;
            }
            EditMode::Vi => {
                read.input_mode = enters.unwrap_or(mode);
                read.is_change = read.command.becomes_change(mode, &self.remembered.last_cmd);
            }
        }
    }

    // Returns what a phrase of command mode is read as after Alt: its command goes through the rule
    // of this mode, too.
    fn behind_alt(&self, read: Read) -> Read
        ensures command { command_of result.command ≡ command_of read.command }
        ensures input { let i = input_of self.now in let within = read_input read i in
            let change = changed_by i.mode within.last_change (command_of read.command) in
            read_input result i ≡ record within { last_change = change } }
    {
        let is_change = read
            .command
            .becomes_change(self.remembered.input_mode, &self.remembered.last_cmd);
        Read {
            is_change: read.is_change | is_change,
            ..read
        }
    }
}

// Begins a group of changes, or ends every open one, or does neither.
fn change_group<W: Refresher>(wrt: &mut W, group: Grouping) -> Result<()>
    ensures draft { OnOk result (W.draft wrt.new ≡ with_group group (W.draft wrt.old)) }
    ensures line { KeepsLine (W.draft wrt.old) (W.draft wrt.new)
        × ((W.draft wrt.new).hint ≡ (W.draft wrt.old).hint) }
    ensures start { OnOk result (start_text (W.draft wrt.new) ≡ start_text (W.draft wrt.old)) }
    ensures undrawn { Undrawn W.EditorState wrt.old wrt.new }
    ensures memory { MemoryOnly result }
{
    match group {
        Grouping::Stay => Ok(()),
        Grouping::Begin => wrt.doing_insert(),
        Grouping::End => wrt.done_inserting(),
    }
}
