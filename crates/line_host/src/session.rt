//! A session over bytes.
ghost use Rattle.std.specs.Prelude.{◌≡◌, ◌≢◌, ◌∷◌, ◌++◌, [], None, Some, Err, map, option_map, string_bytes, IfOk, MatchResult, OnErr};
ghost use Rattle.line_config.specs.Error.{FaultsOnly, MemoryOnly};
ghost use Rattle.line_host.specs.Bound.{bound};
ghost use Rattle.line_host.specs.Copied.{CopiesIfAny, TakesBytes, TakesOutput};
ghost use Rattle.line_host.specs.Helped.{SetsWords, answers_by, words_in};
ghost use Rattle.line_host.specs.Hosted.{Abandons, AddsLine, BeginsLine, Drops, Finishes, BindsKeys, LoadsHistory, ResizesSession, SavesHistory, ReadsItems, TellsStatus, TellsCursor, line_of, with_editor};
ghost use Rattle.line_host.specs.New.{IsNew, Refuses};
ghost use Rattle.line_session.specs.Heard.{BeginsReading, Feeds, turn_of};
ghost use Rattle.line_term.specs.Decoder.{finished, flushed, is_waiting, read};

use crate::bound::BoundCommands;
use crate::names::{command_named, event_named};
use crate::pending::Pending;
use crate::pieces::{Pieces, copy_text};
use crate::settings::{Settings, is_yes};
use crate::status::Status;
use line_buffer::Unit;
use line_config::{ReadlineError, Result};
use line_parts::{DimHints, FileHistory, HintsAndBrackets, Parts, Words};
use line_session::editor::{Editor, Fed, Heard};
use std::alloc::Global;
use std::io::ErrorKind;
use std::marker::Model;
use std::mem;

/// What helps a session: words are completed; there are hints from the history, and brackets are
/// checked and lit, each where it is switched on.
pub type HostHelper = Parts<Words, HintsAndBrackets, DimHints, HintsAndBrackets>;

/// A session that reads lines from bytes, and leaves the bytes that are to be written to be taken.
pub struct Session {
    alloc: Global,
    editor: Editor<Pending, HostHelper, FileHistory>,
    commands: BoundCommands,
    submitted: Option<String>,
    output: Pieces,
    saved: Pieces,
}

impl Drop for Session {
    fn drop(self) {
        let Session {
            alloc: _,
            editor: _,
            commands: _,
            submitted: _,
            output: _,
            saved: _,
        } = self;
    }
}

impl Model for Session {
    ghost use Rattle.std.specs.Prelude.{option_map, string_bytes};
    ghost use Rattle.line_host.specs.Hosted.{Hosted};
    ghost use Rattle.line_host.specs.Helped.{Helped};

    ghost Value = { Hosted Helped };

    ghost view = { λ s. record {
      editor = s.editor;
      commands = s.commands;
      submitted = option_map string_bytes s.submitted;
      output = s.output;
      saved = s.saved;
    } };
}

impl Session {
    /// Returns a session in which no line has begun.
    ///
    /// # Errors
    /// `BadSetting` if there are no columns, and `NoMemory` if memory runs out.
    pub fn new(alloc: Global, settings: &Settings) -> std::result::Result<Session, Status>
        ensures { MatchResult result (IsNew settings.now) (Refuses settings.now) }
    {
        if settings.columns == 0 {
            return Err(Status::BadSetting);
        }
        let config = settings.config().map_err(Status::of_error)?;
        let history = FileHistory::with_config(alloc, &config);
        let switches = HintsAndBrackets {
            hints: is_yes(settings.hints),
            brackets: is_yes(settings.brackets),
        };
        let helper = Parts {
            completer: Words {
                words: Vec::new(alloc),
            },
            hinter: switches,
            highlighter: DimHints::new(is_yes(settings.brackets)),
            validator: switches,
        };
        let out = Pending::new(alloc);
        let mut editor = Editor::new(alloc, config, out, settings.columns, helper, history);
        editor
            .resize(settings.columns, settings.rows)
            .map_err(Status::of_error)?;
        Ok(Session {
            alloc,
            editor,
            commands: BoundCommands::new(alloc),
            submitted: None,
            output: Pieces::new(alloc),
            saved: Pieces::new(alloc),
        })
    }

    /// Begins a line after the prompt, without styles and with them, with these texts before and
    /// after the cursor, draws it, and reads the keys that were typed ahead. A line that goes on is
    /// dropped.
    ///
    /// Returns `Done`, where the line goes on; `Suspended`; `Submitted`; `Ended`; `Interrupted`; or
    /// a fault, `NoMemory` or `Failed`: if the line has begun by then, it goes on at the next call;
    /// if not, the line before goes on unchanged, if there was one, but may be drawn anew. Returns
    /// `NotText`, where one of these texts is not UTF-8, and nothing changes then.
    pub fn begin(&mut self, prompt: &[u8], styled: &[u8], left: &[u8], right: &[u8]) -> Status
        ensures { BeginsLine answers_by prompt.now styled.now left.now right.now self.old self.new
            result }
    {
        let (Ok(prompt), Ok(styled)) = (str::from_utf8(prompt), str::from_utf8(styled)) else {
            return Status::NotText;
        };
        let (Ok(left), Ok(right)) = (str::from_utf8(left), str::from_utf8(right)) else {
            return Status::NotText;
        };
        let fed = self.try_begin((prompt, styled), (left, right));
        self.tell(fed)
    }

    /// Reads bytes of the terminal, which may be cut anywhere. Keys after the end of the line are
    /// kept for the next one.
    ///
    /// Returns `Done`, where the line goes on; `Suspended`; `Submitted`; `Ended`; `Interrupted`; a
    /// fault, `NoMemory` or `Failed`: the line goes on at the next call; or `NoLine`, and nothing
    /// is read then.
    pub fn feed(&mut self, bytes: &[u8]) -> Status
        ensures { ReadsItems answers_by (read self.old.editor.decoder bytes.now) self.old self.new
            result }
    {
        self.hear(Heard::Bytes(bytes))
    }

    /// Settles what bytes have begun, as none have arrived for a moment: a lone Esc is the Esc key
    /// then, and of a pasted text what has arrived is put in. The twentieth such call behind the
    /// last byte ends what has not ended. Returns what `feed` does.
    pub fn flush(&mut self) -> Status
        ensures { ReadsItems answers_by (flushed self.old.editor.decoder) self.old self.new result }
    {
        self.hear(Heard::Pause)
    }

    /// Reads the end of all bytes. Returns what `feed` does, but for `Done`: a line that would go
    /// on ends, as no more can arrive. After `Suspended` it goes on at the next call.
    pub fn finish(&mut self) -> Status
        ensures { Finishes answers_by (finished self.old.editor.decoder) self.old self.new result }
    {
        match self.hear(Heard::End) {
            Status::Done => self.end(Status::Ended),
            status => status,
        }
    }

    /// Drops the line that goes on. Keys that were typed ahead are kept for the next one.
    ///
    /// Returns `Done`; `NoLine`, where no line goes on; or `NoMemory` or `Failed`: the line goes on
    /// then, and is drawn at the next call.
    pub fn abandon(&mut self) -> Status
        ensures { Abandons self.old self.new result }
    {
        if self.editor.line().is_none() {
            return Status::NoLine;
        }
        self.end(Status::Done)
    }

    /// Drops the line that goes on, if one does. Returns this status, or a fault: the line goes on
    /// then, and is drawn at the next call.
    fn end(&mut self, status: Status) -> Status
        ensures { Drops status self.old self.new result }
    {
        if let Err(error) = self.editor.abandon() {
            return Status::of_error(error);
        }
        status
    }

    /// Reads what is heard of the terminal.
    fn hear(&mut self, heard: Heard<'_>) -> Status
        ensures { ReadsItems answers_by (turn_of heard.entry self.old.editor.decoder)
            self.old self.new result }
    {
        if self.editor.line().is_none() {
            return Status::NoLine;
        }
        let fed = self.try_hear(heard);
        self.tell(fed)
    }

    /// Begins a line after a prompt, which is given without styles and with them, with these texts
    /// before and after the cursor.
    fn try_begin(&mut self, prompt: (&str, &str), initial: (&str, &str)) -> Result<Fed>
        ensures begins { BeginsReading answers_by (bound self.old.commands) prompt.entry.0.now
            initial.entry.0.now initial.entry.1.now self.old.editor self.new.editor result }
        ensures stays { self.new ≡ with_editor self.new.editor self.old }
    {
        let bindings = self.commands.bindings();
        self.editor.begin_with(&prompt, initial, bindings)
    }

    /// Has the editor read what is heard of the terminal.
    fn try_hear(&mut self, heard: Heard<'_>) -> Result<Fed>
        ensures feeds { Feeds answers_by (bound self.old.commands)
            (turn_of heard.entry self.old.editor.decoder) self.old.editor self.new.editor result }
        ensures stays { self.new ≡ with_editor self.new.editor self.old }
    {
        let bindings = self.commands.bindings();
        self.editor.hear(heard, bindings)
    }

    /// Returns the status of what became of a line, and keeps the text of one that was submitted.
    fn tell(&mut self, fed: Result<Fed>) -> Status
        requires { FaultsOnly fed }
        ensures { TellsStatus fed self.old self.new result }
    {
        match fed {
            Ok(Fed::More) if self.editor.is_suspended() => Status::Suspended,
            Ok(Fed::More) => Status::Done,
            Ok(Fed::Submitted(text)) => {
                self.submitted = Some(text);
                Status::Submitted
            }
            Ok(Fed::Ended) => Status::Ended,
            Ok(Fed::Interrupted) => Status::Interrupted,
            Err(error) => Status::of_error(error),
        }
    }

    /// Gives the terminal another number of columns and of rows, and draws the line that goes on,
    /// if one does.
    ///
    /// Returns `Done`; `BadSetting`, where there are no columns, and nothing changes; or `NoMemory`
    /// or `Failed`: columns and rows are the new ones then, and the line is drawn at the next call.
    pub fn resize(&mut self, columns: Unit, rows: Unit) -> Status
        ensures { ResizesSession answers_by columns rows self.old self.new result }
    {
        if columns == 0 {
            return Status::BadSetting;
        }
        let drawn = self.editor.resize(columns, rows);
        Status::of(drawn)
    }

    /// Returns whether bytes have begun something: a host then waits for more only a moment, and
    /// calls `flush` if none have arrived, as long as this says so.
    pub fn is_waiting(&self) -> bool
        ensures { result ≡ is_waiting self.now.editor.decoder }
    {
        self.editor.is_waiting()
    }

    /// Takes bytes that are to be written to the terminal into `buffer`, as many as there are and
    /// it has room for. Returns how many: none where all were taken.
    pub fn take_output(&mut self, buffer: &mut [u8]) -> usize
        ensures takes { TakesOutput self.old.output self.new.output buffer.old buffer.new result }
        ensures stays { self.new ≡ record self.old { output = self.new.output } }
    {
        if self.output.is_empty() {
            let taken = mem::replace(&mut self.output, Pieces::new(self.alloc));
            let pending = Pending::of(taken.into_memory());
            self.output = self.editor.exchange_out(pending).into_pieces();
        }
        self.output.take(buffer)
    }

    /// Copies the text of the line that goes on, or else of the one that was submitted last, into
    /// `buffer`. Reports its length, in bytes.
    ///
    /// Returns `Done`; `TooSmall`, where the buffer has no room for all of it; or `NoLine`, where
    /// no line goes on and none was submitted. Nothing is copied then.
    pub fn copy_line(&self, buffer: &mut [u8], len: &mut usize) -> Status
        ensures { CopiesIfAny (line_of self.now) buffer.old buffer.new len.new result }
    {
        *len = 0;
        match self.line() {
            Some(line) => copy_text(line, buffer, len),
            None => Status::NoLine,
        }
    }

    /// Returns the text of the line that goes on, or else of the one that was submitted last, if
    /// one was.
    fn line(&self) -> Option<&str>
        ensures { option_map (λ text. text.now) result ≡ line_of self.now }
    {
        match self.editor.line() {
            Some(line) => Some(line),
            None => text_of(&self.submitted),
        }
    }

    /// Reports the cursor of the line that goes on: a byte offset, on a character boundary.
    ///
    /// Returns `Done`, or `NoLine`, where no line goes on, and nothing is reported then.
    pub fn tell_cursor(&self, cursor: &mut usize) -> Status
        ensures { TellsCursor self.now cursor.old cursor.new result }
    {
        let Some(pos) = self.editor.pos() else {
            return Status::NoLine;
        };
        *cursor = pos;
        Status::Done
    }

    /// Adds a line to the history as the newest one, by its rules.
    ///
    /// Returns `Done`; `HasLine`, where a line goes on; `NotText`, where this is not UTF-8; or
    /// `NoMemory`. Nothing has changed then.
    pub fn add_history(&mut self, line: &[u8]) -> Status
        ensures { AddsLine line.now self.old self.new result }
    {
        if self.editor.line().is_some() {
            return Status::HasLine;
        }
        let Ok(line) = str::from_utf8(line) else {
            return Status::NotText;
        };
        let added = self.editor.add_history_entry(line);
        Status::of(added)
    }

    /// Adds the lines of a text to the history: one that `save_history` made, or one of plain
    /// lines.
    ///
    /// Returns `Done`; `HasLine`, where a line goes on, and nothing is added then; or `NotText`,
    /// where what a line says is not UTF-8, or `NoMemory`: the lines before it are added then.
    pub fn load_history(&mut self, text: &[u8]) -> Status
        ensures { LoadsHistory text.now self.old self.new result }
    {
        if self.editor.line().is_some() {
            return Status::HasLine;
        }
        match self.editor.load_history(text) {
            Ok(_) => Status::Done,
            Err(ReadlineError::Io(cause)) if cause.kind() == ErrorKind::InvalidData =>
                Status::NotText,
            Err(error) => Status::of_error(error),
        }
    }

    /// Makes the text of the history, to be taken by `take_saved`: a header and all lines, or with
    /// `append` only the lines that were added since the history was last saved or loaded.
    ///
    /// Returns `Done`; `HasLine`, where a line goes on; or `NoMemory`. The text from before is
    /// there then.
    pub fn save_history(&mut self, append: bool) -> Status
        ensures { SavesHistory append self.old self.new result }
    {
        if self.editor.line().is_some() {
            return Status::HasLine;
        }
        let mut text = Vec::new(self.alloc);
        match self.editor.save_history(&mut text, append) {
            Ok(_) => {
                self.saved = Pieces::of(text);
                Status::Done
            }
            Err(error) => Status::of_error(error),
        }
    }

    /// Takes bytes of the text that `save_history` made into `buffer`, as many as there are and it
    /// has room for. Returns how many: none where all were taken.
    pub fn take_saved(&mut self, buffer: &mut [u8]) -> usize
        ensures takes { TakesBytes self.old.saved self.new.saved buffer.old buffer.new result }
        ensures stays { self.new ≡ record self.old { saved = self.new.saved } }
    {
        self.saved.take(buffer)
    }

    /// Completes words by those of a text from now on, one a line.
    ///
    /// Returns `Done`; `NotText`, where this is not UTF-8; or `NoMemory`. The words from before
    /// stay then.
    pub fn set_words(&mut self, text: &[u8]) -> Status
        ensures { SetsWords text.now self.old self.new result }
    {
        let Ok(text) = str::from_utf8(text) else {
            return Status::NotText;
        };
        match words_of(self.alloc, text) {
            Ok(words) => {
                self.editor.set_completer(Words { words });
                Status::Done
            }
            Err(error) => Status::of_error(error),
        }
    }

    /// Binds keys to a command, by their names, from the next call that reads keys on.
    ///
    /// Returns `Done`; `NoKey`, where a key is not called so; `NoCommand`, where no command is;
    /// `NotText`, where a name is not UTF-8; or `NoMemory`. Nothing was bound then.
    pub fn bind(&mut self, keys: &[u8], command: &[u8]) -> Status
        ensures { BindsKeys keys.now command.now self.old self.new result }
    {
        let (Ok(keys), Ok(command)) = (str::from_utf8(keys), str::from_utf8(command)) else {
            return Status::NotText;
        };
        let event = match event_named(self.alloc, keys) {
            Ok(Some(event)) => event,
            Ok(None) => return Status::NoKey,
            Err(error) => return Status::of_error(error),
        };
        let Some(command) = command_named(command) else {
            return Status::NoCommand;
        };
        match self.commands.bind(event, command) {
            Ok(()) => Status::Done,
            Err(error) => Status::of_error(error),
        }
    }
}

/// Returns a text that is kept, if one is.
fn text_of(kept: &Option<String>) -> Option<&str>
    ensures { option_map (λ text. text.now) result ≡ option_map string_bytes kept.now }
{
    match kept {
        Some(text) => Some(text.as_str()),
        None => None,
    }
}

/// Returns the lines of a text that are not empty.
///
/// # Errors
/// `Memory` if memory runs out.
fn words_of(alloc: Global, text: &str) -> Result<Vec<String>>
    ensures words { IfOk result (λ words. map string_bytes words.items ≡ words_in text.now) }
    ensures memory { MemoryOnly result }
{
    let mut words = Vec::new(alloc);
    for word in text.lines() {
        if !word.is_empty() {
            words.push(String::from_str(alloc, word)?)?;
        }
    }
    Ok(words)
}
