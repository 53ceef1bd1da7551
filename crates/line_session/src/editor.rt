//! An editor that reads lines from a terminal: what is kept between two lines, and between two
//! pieces of one.
ghost use Rattle.std.specs.Prelude.{◌≡◌, ◌<◌, ◌≤◌, ◌↔◌, true, false, [], length, None, Some, Ok, is_some, option_map, IfSome, IfOk, OnOk, OnErr, string_bytes};
ghost use Rattle.line_config.specs.Error.{FaultsOnly, MemoryOnly, UnlessFault};
ghost use Rattle.line_editor.specs.Binding.{bound_of};
ghost use Rattle.line_parts.specs.History.{TellsTaken, added};
ghost use Rattle.line_session.specs.Kept.{answers_of};
ghost use Rattle.line_session.specs.OnTerminal.{ShowsBegun};
ghost use Rattle.line_session.specs.Reading.{AfterFault, FailsToRead, HearsOnce, ReadsLine, most_at_once, readline_answer};
ghost use Rattle.line_session.specs.Heard.{AddsItems, BeginsReading, Feeds, turn_of};
ghost use Rattle.line_session.specs.Sitting.{BeginsOrStays, BegunLine, Came, CameBegun, LineEndsAs, Keeps, LosesNothing, StartsWith, StaysOrDraws, to_be_drawn, suspends, with_turn, written_so_far};
ghost use Rattle.line_buffer.specs.KillRing.{empty_ring};
ghost use Rattle.line_term.specs.Decoder.{Enqueues, finished, flushed, fresh, is_waiting, read};

use crate::begun::{Begun, add, begin, copied_prompt, draw_anew, line_of};
use crate::setup::Setup;
use line_buffer::{KillRing, Unit};
use line_config::{ColorMode, Config, Prompt, ReadlineError, Result};
use line_editor::binding::ConditionalEventHandler;
use line_editor::{Bindings, Turned};
use line_parts::{Helper, History};
use line_screen::KeyQueue;
use line_state::{Renderer, Resizable};
use line_term::{Ansi, Decoder, Size};
use std::alloc::Global;
use std::io::{self, Read, Write};
use std::marker::Model;

mod ready;

/// The slots of the kill ring.
const KILL_RING_SIZE: usize = 60;

/// How many bytes `readline` reads at once.
const BUFFER_SIZE: usize = 1024;

/// How a line stands once bytes were read.
#[derive(Debug, PartialEq, Eq, Drop)]
pub enum Fed {
    /// The line goes on: more bytes are to be read, or the program is to suspend itself, where
    /// `Editor::is_suspended` says so.
    More,
    /// The line was submitted.
    Submitted(String),
    /// The input ended, by a command on an empty line.
    Ended,
    /// The person interrupted.
    Interrupted,
}

/// What is heard of the terminal.
#[derive(Clone, Copy)]
pub enum Heard<'t> {
    /// These bytes have arrived.
    Bytes(&'t [u8]),
    /// None have arrived for a moment.
    Pause,
    /// No more arrive at all.
    End,
}

/// An editor that reads lines from a terminal, and draws them by writing to `O`.
///
/// A program with a loop of its own begins a line, feeds it the bytes that come, and flushes it
/// when none have come for a moment, until the line is submitted or ends.
pub struct Editor<O: Write + Drop, H: Helper + Drop, S: History + Drop> {
    setup: Setup<S>,
    screen: Ansi<O, KeyQueue>,
    helper: H,
    kill_ring: KillRing,
    decoder: Decoder,
    keys: KeyQueue,
    line: Option<Begun<H>>,
}

impl<O: Write + Drop, H: Helper + Drop, S: History + Drop> Drop for Editor<O, H, S> {
    fn drop(self) {
        let Editor {
            setup: _,
            screen: _,
            helper: _,
            kill_ring: _,
            decoder: _,
            keys: _,
            line: _,
        } = self;
    }
}

impl<O: Write + Drop, H: Helper + Drop, S: History + Drop> Model for Editor<O, H, S> {
    ghost use Rattle.std.specs.Prelude.{true, option_map, IfSome, string_bytes};
    ghost use Rattle.line_buffer.specs.declared.layout.GraphemeClusterMode.TheVariants.{Unicode};
    ghost use Rattle.line_editor.specs.InputState.{remembered_input};
    ghost use Rattle.line_screen.specs.Measure.{measured};
    ghost use Rattle.line_session.specs.Kept.{FitsScreen, answers_of};
    ghost use Rattle.line_session.specs.Sitting.{Sitting};
    ghost use Rattle.line_term.specs.Shown.{known_screen};

    ghost Value = { Sitting H };

    ghost view = { λ e. record {
      line = option_map (λ begun. record {
        kept = begun.line;
        input = remembered_input begun.input;
        mode = begun.mode;
        draws = begun.draws;
      }) e.line;
      prompt = string_bytes e.setup.prompt.0;
      lines = S.lines e.setup.history;
      takes = S.rules e.setup.history;
      kills = e.kill_ring;
      items = e.keys.rest;
      binds = e.keys.binds;
      decoder = e.decoder;
      helper = e.helper;
      settings = e.setup.config;
      columns = e.screen.shown.columns;
      rows = e.screen.shown.rows;
    } };

    // The line that has begun fits the screen, its prompt, and those who answer.
    ghost invariant = { λ e. let screen = e.screen in let shown = screen.shown in IfSome e.line (λ begun.
        FitsScreen begun.line begun.mode begun.draws e.keys.rest
        (record {
          measure = measured shown.columns;
          columns = shown.columns;
          rows = shown.rows;
          colors = screen.colors;
          mode = Unicode;
        })
        (known_screen shown.columns screen.whole screen.end (record {
          position = shown.place;
          prompt = string_bytes shown.prompt;
          text = string_bytes shown.text;
          origin = shown.origin;
          behind = option_map string_bytes shown.hint;
          known = true;
        }))
        (string_bytes e.setup.prompt.0)
        (answers_of H.hint_at H.verdict_at H.lights H.Completer e.helper
        (S.lines e.setup.history))) };
}

impl<O: Write + Drop, H: Helper + Drop, S: History + Drop> Editor<O, H, S> {
    /// Returns an editor that draws on a terminal of so many columns and of 24 rows by writing to
    /// `out`. No line has begun.
    pub fn new(alloc: Global, config: Config, out: O, columns: Unit, helper: H, history: S) -> Self
        requires { 0 < columns }
        ensures line { result.line ≡ None }
        ensures prompt { result.prompt ≡ [] }
        ensures lines { result.lines ≡ S.lines history }
        ensures takes { result.takes ≡ S.rules history }
        ensures binds { result.binds ≡ true }
        ensures items { result.items ≡ [] }
        ensures decoder { result.decoder ≡ fresh }
        ensures kills { result.kills ≡ empty_ring 60 }
        ensures helper { result.helper ≡ helper }
        ensures settings { result.settings ≡ config }
        ensures columns { result.columns ≡ columns }
        ensures rows { result.rows ≡ 24 }
    {
        let colors = config.color_mode(None) != ColorMode::Disabled;
        let synchronized = config.enable_synchronized_output();
        let setup = Setup {
            alloc,
            config,
            prompt: (String::new(alloc), String::new(alloc)),
            history,
        };
        Editor {
            setup,
            screen: Ansi::new(alloc, out, columns, colors, synchronized),
            helper,
            kill_ring: KillRing::new(alloc, KILL_RING_SIZE),
            decoder: Decoder::new(alloc),
            keys: KeyQueue::new(alloc),
            line: None,
        }
    }

    /// Returns whether the person asked to suspend the program and it has not gone on since. The
    /// next call that reads keys or resizes goes on: it draws the line below what stands there. A
    /// call that reads keys then reads what was typed after the key that suspends; `feed` without
    /// bytes does only that.
    pub fn is_suspended(&self) -> bool
        ensures { result ≡ suspends self.now }
    {
        match &self.line {
            Some(begun) => begun.mode.is_suspended(),
            None => false,
        }
    }

    /// Returns the text of the line that has begun, if one has.
    pub fn line(&self) -> Option<&str>
        ensures { option_map (λ text. text.now) result
            ≡ option_map (λ begun. begun.kept.draft.line.text) self.now.line }
    {
        match &self.line {
            Some(begun) => Some(begun.line.line()),
            None => None,
        }
    }

    /// Returns the cursor of the line that has begun, if one has: a byte offset, on a character
    /// boundary.
    pub fn pos(&self) -> Option<usize>
        ensures { result ≡ option_map (λ begun. begun.kept.draft.line.cursor) self.now.line }
    {
        match &self.line {
            Some(begun) => Some(begun.line.pos()),
            None => None,
        }
    }

    /// Returns the history.
    pub fn history(&self) -> &S
        ensures lines { S.lines result.now ≡ self.now.lines }
        ensures takes { S.rules result.now ≡ self.now.takes }
    {
        &self.setup.history
    }

    /// Returns the history, so that it may be changed; None while a line goes on, which has its
    /// place in it.
    pub fn history_mut(&mut self) -> Option<&mut S>
        ensures none { result ≡ None ↔ is_some self.old.line ≡ true }
        ensures lines { IfSome result (λ history. S.lines history.now ≡ self.old.lines) }
        ensures takes { IfSome result (λ history. S.rules history.now ≡ self.old.takes) }
    {
        match self.line {
            Some(_) => None,
            None => Some(&mut self.setup.history),
        }
    }

    /// Adds a line to the history as the newest one, by its rules, while no line goes on. Returns
    /// whether it was added.
    ///
    /// # Errors
    /// `Io` if the history fails, and `Memory` if memory runs out. Nothing has then changed.
    pub fn add_history_entry(&mut self, line: &str) -> Result<bool>
        ensures answer { self.old.line ≡ None
            → TellsTaken result self.old.takes self.old.lines line.now }
        ensures added { self.old.line ≡ None → OnOk result (self.new
            ≡ record self.old { lines = added self.old.takes self.old.lines line.now }) }
        ensures refused { is_some self.old.line ≡ true → IfOk result (λ added. added ≡ false) }
        ensures kept { is_some self.old.line ≡ true → self.new ≡ self.old }
        ensures failed { OnErr result (self.new ≡ self.old) }
        ensures faults { FaultsOnly result }
    {
        if self.line.is_some() {
            return Ok(false);
        }
        self.setup.history.add(line)
    }

    /// Forgets what was killed, and keeps so many killed texts from now on.
    pub fn set_kill_ring_size(&mut self, size: usize)
        ensures { self.new ≡ record self.old { kills = empty_ring size } }
    {
        self.kill_ring = KillRing::new(self.setup.alloc, size);
    }

    /// Returns the helper, so that it may be changed; None while a line goes on, which shows its
    /// hint and colors.
    pub fn helper_mut(&mut self) -> Option<&mut H>
        ensures none { result ≡ None ↔ is_some self.old.line ≡ true }
        ensures helper { IfSome result (λ helper. helper.now ≡ self.old.helper) }
    {
        match self.line {
            Some(_) => None,
            None => Some(&mut self.helper),
        }
    }

    /// Returns the helper.
    pub fn helper(&self) -> &H
        ensures { result.now ≡ self.now.helper }
    {
        &self.helper
    }

    /// Returns what is written to. Where the bytes of such an output are known, those that were
    /// written end in some that show the line that has begun on each terminal that is ready for
    /// them, with its cursor: the prompt, the line, and the hint, a message or nothing after it,
    /// above row 65535. So it is unless the line is drawn anew at the next call, and but for a
    /// list, a program that is suspended, and a search with keys left.
    pub fn out(&self) -> &O
        ensures shown { ShowsBegun O.contents
            (answers_of H.hint_at H.verdict_at H.lights H.Completer) self.now result.now }
    {
        self.screen.out()
    }

    /// Writes to `out` from now on, and draws the line that has begun at the next call. Returns
    /// what was written to before, which shows what `out` says.
    pub fn replace_out(&mut self, out: O) -> O
        ensures stays { self.new ≡ to_be_drawn self.old }
        ensures shown { ShowsBegun O.contents
            (answers_of H.hint_at H.verdict_at H.lights H.Completer) self.old result }
    {
        draw_anew(&mut self.line);
        self.screen.replace_out(out)
    }

    /// Writes to `out` from now on, whose bytes go to the same terminal, and draws nothing for it.
    /// Returns what was written to before. It is for an output that is emptied now and then, of
    /// whose bytes no contract speaks.
    pub fn exchange_out(&mut self, out: O) -> O
        requires { (any : O) → O.contents any ≡ None }
        ensures { self.new ≡ self.old }
    {
        self.screen.exchange_out(out)
    }

    /// Returns whether bytes have begun something. A program then waits for more only a moment,
    /// some 50 ms, and calls `flush` if none have come; and so on, as long as this says so.
    pub fn is_waiting(&self) -> bool
        ensures { result ≡ is_waiting self.now.decoder }
    {
        self.decoder.is_waiting()
    }

    /// Takes the size that the terminal reported last, if it reported one since the last call.
    pub fn take_size(&mut self) -> Option<Size>
        ensures size { result ≡ self.old.decoder.size }
        ensures stays { self.new
            ≡ record self.old { decoder = record self.old.decoder { size = None } } }
    {
        self.decoder.take_size()
    }

    /// Begins a line after the prompt, with these texts before and after the cursor, draws it, and
    /// takes the turns of the keys that were typed ahead. A line that had begun before is dropped.
    ///
    /// # Errors
    /// `Io` if the output, a handler, the helper or the history fails, and `Memory` if memory runs
    /// out. If the line had begun by then, it goes on, and `line` returns its text. If not, the one
    /// before goes on unchanged, if any, but may be drawn anew. The history's lines stay.
    pub fn begin_with<P: Prompt, C: ConditionalEventHandler>(
        &mut self,
        prompt: &P,
        initial: (&str, &str),
        bindings: &Bindings<C>,
    ) -> Result<Fed>
        ensures { let g = C.ConditionalEventHandler in
            BeginsReading (answers_of H.hint_at H.verdict_at H.lights H.Completer)
            (bound_of g bindings.now) (P.raw_text prompt.now)
            initial.entry.0.now initial.entry.1.now self.old self.new result }
    {
        self.start(prompt, initial)?;
        self.take_turns(bindings)
    }

    /// Begins an empty line, as `begin_with` does.
    ///
    /// # Errors
    /// As `begin_with`: the line goes on if it had begun, and else the one before, if any.
    pub fn begin<P: Prompt, C: ConditionalEventHandler>(
        &mut self,
        prompt: &P,
        bindings: &Bindings<C>,
    ) -> Result<Fed>
        ensures { let g = C.ConditionalEventHandler in
            BeginsReading (answers_of H.hint_at H.verdict_at H.lights H.Completer)
            (bound_of g bindings.now) (P.raw_text prompt.now) [] [] self.old self.new result }
    {
        self.begin_with(prompt, ("", ""), bindings)
    }

    /// Reads bytes of the terminal, and takes the turns of their keys. Keys after the end of the
    /// line are kept for the next one.
    ///
    /// # Errors
    /// `Io` if the output, a handler, the helper or the history fails, and `Memory` if memory runs
    /// out. The line goes on at the next call; `line` returns its text, which may be another. The
    /// history's lines stay. How many of the bytes were read is not specified.
    pub fn feed<C: ConditionalEventHandler>(
        &mut self,
        bytes: &[u8],
        bindings: &Bindings<C>,
    ) -> Result<Fed>
        ensures { let g = C.ConditionalEventHandler in
            Feeds (answers_of H.hint_at H.verdict_at H.lights H.Completer)
            (bound_of g bindings.now) (read self.old.decoder bytes.now) self.old self.new result }
    {
        self.hear(Heard::Bytes(bytes), bindings)
    }

    /// Settles what bytes have begun, as none have come for a moment: a lone Esc is the Esc key
    /// then, and of a pasted text what has come is put in. The twentieth such call behind the last
    /// byte ends what has not ended: a pasted text, a control string, a sequence.
    ///
    /// # Errors
    /// As `feed`: the line goes on at the next call, and its text may be another.
    pub fn flush<C: ConditionalEventHandler>(&mut self, bindings: &Bindings<C>) -> Result<Fed>
        ensures { let g = C.ConditionalEventHandler in
            Feeds (answers_of H.hint_at H.verdict_at H.lights H.Completer)
            (bound_of g bindings.now) (flushed self.old.decoder) self.old self.new result }
    {
        self.hear(Heard::Pause, bindings)
    }

    /// Settles what bytes have begun, as no more come at all.
    ///
    /// # Errors
    /// As `feed`: the line goes on at the next call, and its text may be another.
    pub fn finish<C: ConditionalEventHandler>(&mut self, bindings: &Bindings<C>) -> Result<Fed>
        ensures { let g = C.ConditionalEventHandler in
            Feeds (answers_of H.hint_at H.verdict_at H.lights H.Completer)
            (bound_of g bindings.now) (finished self.old.decoder) self.old self.new result }
    {
        self.hear(Heard::End, bindings)
    }

    /// Does what `feed`, `flush` or `finish` does, by what is heard.
    ///
    /// # Errors
    /// As `feed`: the line goes on at the next call, and its text may be another.
    pub fn hear<C: ConditionalEventHandler>(
        &mut self,
        heard: Heard<'_>,
        bindings: &Bindings<C>,
    ) -> Result<Fed>
        ensures { let g = C.ConditionalEventHandler in
            Feeds (answers_of H.hint_at H.verdict_at H.lights H.Completer)
            (bound_of g bindings.now) (turn_of heard.entry self.old.decoder)
            self.old self.new result }
    {
        self.read(heard)?;
        self.take_turns(bindings)
    }

    /// Drops the line that goes on, if one does, and asks the terminal to mark pasted texts no
    /// more, where the settings say so. Keys that were typed ahead are kept.
    ///
    /// # Errors
    /// `Io` if the output fails. All stays, but the line that goes on is drawn at the next call.
    pub fn abandon(&mut self) -> Result<()>
        ensures gone { OnOk result (self.new ≡ record self.old { line = None }) }
        ensures kept { OnErr result (self.new ≡ to_be_drawn self.old) }
        ensures faults { FaultsOnly result }
    {
        if self.line.is_none() {
            return Ok(());
        }
        self.leave(Fed::Ended).and(Ok(()))
    }

    /// Gives the terminal another number of columns and of rows, and draws the line that has begun,
    /// if one has.
    ///
    /// # Errors
    /// `Io` if the output fails, and `Memory` if memory runs out. Columns and rows are then the new
    /// ones. The line stays, and is drawn at the next call.
    pub fn resize(&mut self, columns: Unit, rows: Unit) -> Result<()>
        requires { 0 < columns }
        ensures written { written_so_far self.new ≡ written_so_far self.old }
        ensures lines { self.new.lines ≡ self.old.lines }
        ensures kills { self.new.kills ≡ self.old.kills }
        ensures items { self.new.items ≡ self.old.items }
        ensures keeps { Keeps (answers_of H.hint_at H.verdict_at H.lights H.Completer)
            (record self.old { columns = columns; rows = rows }) self.new }
        ensures faults { FaultsOnly result }
    {
        let Some(begun) = self.line.take() else {
            self.screen.resize(columns, rows);
            return Ok(());
        };
        let (begun, drawn) = begun.resized(
            &mut self.screen,
            &mut self.helper,
            &self.setup,
            columns,
            rows,
        );
        self.line = Some(begun);
        drawn
    }

    /// Reads a line after the prompt from `input`, at most 1,024 bytes between two turns, and only
    /// while the line goes on. A read of no bytes is a pause where `pauses` says so, as on a
    /// terminal that waits only for a while, and else the end of the input, which is read once.
    ///
    /// # Errors
    /// `Eof` if the input ends, or by a command on an empty line; `Interrupted` if the person
    /// interrupts: no line goes on then. `Io` if the input, the output, a handler, the helper or
    /// the history fails, or after 2^64 - 1 reads, and `Memory` if memory runs out: `line` and
    /// `pos` then return the line, or, if it could not begin, the one before. To go on, hand it to
    /// `readline_with_initial`.
    pub fn readline<R: Read, P: Prompt, C: ConditionalEventHandler>(
        &mut self,
        input: &mut R,
        pauses: bool,
        prompt: &P,
        bindings: &Bindings<C>,
    ) -> Result<String>
        ensures reads { let g = C.ConditionalEventHandler in
            UnlessFault result
            (ReadsLine (answers_of H.hint_at H.verdict_at H.lights H.Completer)
            (bound_of g bindings.now)
            pauses (R.remaining input.old) (R.remaining input.new)
            (P.raw_text prompt.now) [] [] self.old self.new result) }
        ensures left { let g = C.ConditionalEventHandler in
            AfterFault result
            (FailsToRead (answers_of H.hint_at H.verdict_at H.lights H.Completer)
            (bound_of g bindings.now) pauses (R.remaining input.old)
            (P.raw_text prompt.now) [] [] self.old self.new) }
    {
        self.readline_with_initial(input, pauses, prompt, ("", ""), bindings)
    }

    /// Reads a line as `readline` does, which begins with these texts before and after the cursor.
    ///
    /// # Errors
    /// As `readline`: after `Io` and `Memory` the line goes on, or else the one before, if any.
    pub fn readline_with_initial<R: Read, P: Prompt, C: ConditionalEventHandler>(
        &mut self,
        input: &mut R,
        pauses: bool,
        prompt: &P,
        initial: (&str, &str),
        bindings: &Bindings<C>,
    ) -> Result<String>
        ensures reads { let g = C.ConditionalEventHandler in
            UnlessFault result
            (ReadsLine (answers_of H.hint_at H.verdict_at H.lights H.Completer)
            (bound_of g bindings.now)
            pauses (R.remaining input.old) (R.remaining input.new)
            (P.raw_text prompt.now) initial.entry.0.now initial.entry.1.now
            self.old self.new result) }
        ensures left { let g = C.ConditionalEventHandler in
            AfterFault result
            (FailsToRead (answers_of H.hint_at H.verdict_at H.lights H.Completer)
            (bound_of g bindings.now) pauses (R.remaining input.old)
            (P.raw_text prompt.now) initial.entry.0.now initial.entry.1.now self.old self.new) }
    {
        let mut buffer = [0; BUFFER_SIZE];
        let mut fed = self.begin_with(prompt, initial, bindings)?;
        let mut goes_on = true;
        for _ in 0..u64::MAX {
            if !self.awaits_more(&fed, goes_on) {
                break;
            }
            (fed, goes_on) = self.read_on(input, goes_on, pauses, &mut buffer, bindings)?;
        }
        if self.awaits_more(&fed, goes_on) {
            return Err(io::Error::from(io::ErrorKind::Other).into());
        }
        self.answered(fed)
    }

    /// Returns whether the line is to be read on: it goes on, and so does the input, or the program
    /// was asked to suspend itself.
    fn awaits_more(&self, fed: &Fed, goes_on: bool) -> bool
        ensures yes { result ≡ true → fed.now ≡ Fed.More }
        ensures on { result ≡ true → suspends self.now ≡ false → goes_on ≡ true }
        ensures no { result ≡ false → fed.now ≡ Fed.More
            → (goes_on ≡ false) × (suspends self.now ≡ false) }
    {
        match fed {
            Fed::More => goes_on || self.is_suspended(),
            _ => false,
        }
    }

    /// Returns what a line is answered with. No line goes on then.
    ///
    /// # Errors
    /// `Eof` if the line goes on or has ended, and `Interrupted`: no line goes on then. `Io` if the
    /// output fails: the line goes on, and is drawn at the next call.
    fn answered(&mut self, fed: Fed) -> Result<String>
        ensures told { UnlessFault result ((result ≡ readline_answer fed)
            × (self.new ≡ record self.old { line = None })) }
        ensures left { AfterFault result ((fed ≡ Fed.More) × (self.new ≡ to_be_drawn self.old)) }
    {
        match fed {
            Fed::More => {
                self.leave(Fed::Ended)?;
                Err(ReadlineError::Eof)
            }
            fed => {
                self.line = None;
                answer_of(fed)
            }
        }
    }

    /// Reads from the input once, and takes the turns of what was read. After Suspend it reads
    /// nothing, and takes the turns of what was typed after that key. Returns how the line stands
    /// then, and whether the input goes on.
    ///
    /// # Errors
    /// `Io` if the input, the output, a handler, the helper or the history fails, and `Memory` if
    /// memory runs out. The line goes on, and its text may be another.
    fn read_on<R: Read, C: ConditionalEventHandler>(
        &mut self,
        input: &mut R,
        goes_on: bool,
        pauses: bool,
        buffer: &mut [u8],
        bindings: &Bindings<C>,
    ) -> Result<(Fed, bool)>
        requires some { 0 < length buffer.old }
        requires most { length buffer.old ≤ most_at_once }
        requires on { suspends self.old ≡ false → goes_on ≡ true }
        ensures hears { (begun : BegunLine) → self.old.line ≡ Some begun →
            let g = C.ConditionalEventHandler in
            IfOk result (λ told. HearsOnce (answers_of H.hint_at H.verdict_at H.lights H.Completer)
            (bound_of g bindings.now) pauses (R.remaining input.old) (R.remaining input.new)
            goes_on told.1 self.old begun self.new told.0) }
        ensures left { OnErr result (LosesNothing self.old self.new) }
        ensures faults { FaultsOnly result }
    {
        if self.is_suspended() {
            return Ok((self.feed(&[], bindings)?, goes_on));
        }
        let count = input.read(buffer)?;
        if count > 0 {
            return Ok((self.feed(&buffer[..count], bindings)?, true));
        }
        if pauses {
            return Ok((self.flush(bindings)?, true));
        }
        Ok((self.finish(bindings)?, false))
    }

    /// Begins a line after the prompt, with these texts before and after the cursor. It is to be
    /// drawn.
    fn start<P: Prompt>(&mut self, prompt: &P, initial: (&str, &str)) -> Result<()>
        ensures starts { OnOk result
            (StartsWith (answers_of H.hint_at H.verdict_at H.lights H.Completer)
            (P.raw_text prompt.now) initial.entry.0.now initial.entry.1.now self.old self.new) }
        ensures stays { OnErr result (StaysOrDraws self.old self.new) }
        ensures faults { FaultsOnly result }
    {
        let prompt = copied_prompt(self.setup.alloc, prompt)?;
        let edited = line_of(self.setup.alloc, initial.0, initial.1)?;
        self.mark_pastes(true)?;
        self.setup.prompt = prompt;
        self.line = None;
        self.kill_ring.reset();
        let begun = begin(&mut self.screen, &mut self.helper, &self.setup, edited);
        self.line = Some(begun);
        Ok(())
    }

    /// Asks the terminal to mark pasted texts, or to mark them no more, where the settings say that
    /// they are marked.
    ///
    /// # Errors
    /// `Io` if the output fails. All stays, but the line that has begun is drawn at the next call.
    fn mark_pastes(&mut self, marked: bool) -> Result<()>
        ensures stays { OnOk result (self.new ≡ self.old) }
        ensures failed { OnErr result (self.new ≡ to_be_drawn self.old) }
        ensures faults { FaultsOnly result }
    {
        if !self.setup.config.enable_bracketed_paste() {
            return Ok(());
        }
        let told = if marked {
            self.screen.enable_bracketed_paste()
        } else {
            self.screen.disable_bracketed_paste()
        };
        if told.is_err() {
            draw_anew(&mut self.line);
        }
        told
    }

    /// Appends the items of what is heard to those that are left.
    fn read(&mut self, heard: Heard<'_>) -> Result<()>
        ensures reads { OnOk result
            (self.new ≡ with_turn (turn_of heard.entry self.old.decoder) self.old) }
        ensures left { OnErr result (LosesNothing self.old self.new) }
        ensures faults { FaultsOnly result }
    {
        decode(heard, &mut self.decoder, &mut self.keys)
    }

    /// Takes turns of the line that has begun, if one has.
    fn take_turns<C: ConditionalEventHandler>(&mut self, bindings: &Bindings<C>) -> Result<Fed>
        ensures came { (begun : BegunLine) → self.old.line ≡ Some begun →
            let g = C.ConditionalEventHandler in
            IfOk result (Came (answers_of H.hint_at H.verdict_at H.lights H.Completer)
            (bound_of g bindings.now)
            self.old begun self.new) }
        ensures keeps { Keeps (answers_of H.hint_at H.verdict_at H.lights H.Completer)
            self.old self.new }
        ensures idle { self.old.line ≡ None
            → IfOk result (λ fed. (fed ≡ Fed.More) × (self.new ≡ self.old)) }
        ensures left { OnErr result (LosesNothing self.old self.new) }
        ensures faults { FaultsOnly result }
    {
        let Some(begun) = self.line.take() else {
            return Ok(Fed::More);
        };
        let (begun, turned) = begun.go_on(
            &mut self.screen,
            &mut self.helper,
            &self.setup,
            bindings,
            &mut self.keys,
            &mut self.kill_ring,
        );
        self.line = Some(begun);
        self.end(turned)
    }

    /// Ends the line that has begun, if its last command ended it. Where that fails, the line goes
    /// on.
    fn end(&mut self, turned: Result<Turned>) -> Result<Fed>
        requires line { is_some self.old.line ≡ true }
        requires faults { FaultsOnly turned }
        ensures ends { IfOk result (LineEndsAs turned self.old self.new) }
        ensures stays { self.new
            ≡ record self.old { line = self.new.line; lines = self.new.lines } }
        ensures kept { OnErr result (StaysOrDraws self.old self.new) }
        ensures faults { FaultsOnly result }
    {
        match turned? {
            Turned::Proceeds | Turned::NeedsMore => Ok(Fed::More),
            Turned::Submitted => self.submit(),
            Turned::Ended => self.leave(Fed::Ended),
            Turned::Interrupted => self.leave(Fed::Interrupted),
        }
    }

    /// Drops the line that has begun. Where that fails, the line goes on, and is drawn at the next
    /// call.
    fn leave(&mut self, fed: Fed) -> Result<Fed>
        ensures answer { IfOk result (λ answer. answer ≡ fed) }
        ensures gone { OnOk result (self.new ≡ record self.old { line = None }) }
        ensures kept { OnErr result (self.new ≡ to_be_drawn self.old) }
        ensures faults { FaultsOnly result }
    {
        self.mark_pastes(false)?;
        self.line = None;
        Ok(fed)
    }

    /// Submits the line that has begun, and adds it to the history where the settings say so. Where
    /// that fails, the line goes on.
    fn submit(&mut self) -> Result<Fed>
        requires { is_some self.old.line ≡ true }
        ensures submits { IfOk result (LineEndsAs (Ok Turned.Submitted) self.old self.new) }
        ensures stays { self.new
            ≡ record self.old { line = self.new.line; lines = self.new.lines } }
        ensures kept { OnErr result (StaysOrDraws self.old self.new) }
        ensures faults { FaultsOnly result }
    {
        let Some(begun) = &self.line else {
            return Ok(Fed::More);
        };
        let text = String::from_str(self.setup.alloc, begun.line.line())?;
        self.mark_pastes(false)?;
        add(
            self.setup.config.auto_add_history(),
            text.as_str(),
            &mut self.setup.history,
        )?;
        self.line = None;
        Ok(Fed::Submitted(text))
    }
}

/// Appends the items of what is heard to a queue.
fn decode(heard: Heard<'_>, decoder: &mut Decoder, keys: &mut KeyQueue) -> Result<()>
    ensures gives { OnOk result
        (Enqueues (turn_of heard.entry decoder.old) decoder.new keys.old keys.new) }
    ensures left { OnErr result (AddsItems keys.old keys.new) }
    ensures memory { MemoryOnly result }
{
    match heard {
        Heard::Bytes(bytes) => decoder.feed(bytes, keys),
        Heard::Pause => decoder.flush(keys),
        Heard::End => decoder.finish(keys),
    }
}

/// Returns what a line is answered with.
fn answer_of(fed: Fed) -> Result<String>
    ensures { result ≡ readline_answer fed }
{
    match fed {
        Fed::Submitted(line) => Ok(line),
        Fed::Interrupted => Err(ReadlineError::Interrupted),
        Fed::Ended | Fed::More => Err(ReadlineError::Eof),
    }
}
