//! An editor on a bench: a helper, a history and others that write down what they are asked, and
//! can fail.

use crate::report::{Row, Seen, looks_at};
use crate::setup::{Failing, Setup, keys_named};
use line_buffer::{GraphemeClusterMode, KillRing};
use line_config::{Config, Result};
use line_editor::command::execute;
use line_editor::edit::State;
use line_editor::input_state::InputState;
use line_editor::run::run;
use line_editor::{Bindings, Turned, advance};
use line_keys::cmd::Cmd;
use line_keys::keys::{KeyCode, KeyEvent, Modifiers};
use line_keys::raw_reader::RawReader;
use line_keys::refresher::Refresher;
use line_parts::{Context, History};
use line_script::script::unescape;
use std::alloc::Global;
use std::io::Write;
use tests_parties::advisor::Advisor;
use tests_parties::fault::{ASLEEP, USUAL};
use tests_parties::shelf::Shelf;
use tests_steps::calls::{Editor, done, executed, proceeds, starts};
use tests_steps::recorder::Recorder;
use tests_steps::typist::Typist;

/// The key x.
const X: &[KeyEvent] = &[KeyEvent(KeyCode::Char('x'), Modifiers::NONE)];

/// What lies on the bench beside the editor: its reader, its kill ring, its settings, and what was
/// seen.
pub struct Bench {
    typist: Typist,
    kills: KillRing,
    config: Config,
    pub seen: Seen,
}

impl Drop for Bench {
    fn drop(self) {
        let Bench {
            typist: _,
            kills: _,
            config: _,
            seen: _,
        } = self;
    }
}

impl Bench {
    /// A bench for these settings, where nothing was seen yet.
    pub fn new(alloc: Global, setup: &Setup<'_>) -> Bench {
        let config = Config::builder(GraphemeClusterMode::Unicode)
            .edit_mode(setup.parsed.edit_mode)
            .build();
        let mut typist = Typist::new(alloc);
        typist.cut_at(setup.failing[3].call);
        Bench {
            typist,
            kills: KillRing::new(alloc, setup.kill_ring_size),
            config,
            seen: Seen::new(alloc),
        }
    }

    /// Does what a row says.
    pub fn tries(
        &mut self,
        alloc: Global,
        setup: &Setup<'_>,
        bindings: &Bindings,
        row: &Row<'_>,
    ) -> Result<()> {
        let mut screen = screen_of(alloc, setup);
        let mut helper = helper_of(setup);
        let history = shelved(alloc, setup)?;
        let asked = Some(&mut helper).filter(|_| setup.helped);
        self.makes(alloc, setup, bindings, &mut screen, asked, &history, row)?;
        let (kinds, entries) = (helper.kinds(), history.len());
        writeln!(self.seen.lines, "kinds {kinds:?}\nentries {entries}")?;
        Ok(())
    }

    /// Makes the editor of the line of the settings, and does what a row says.
    fn makes(
        &mut self,
        alloc: Global,
        setup: &Setup<'_>,
        bindings: &Bindings,
        screen: &mut Recorder,
        helper: Option<&mut Advisor>,
        history: &Shelf,
        row: &Row<'_>,
    ) -> Result<()> {
        let mut text = String::new(alloc);
        let cursor = match fill(alloc, setup, &mut text)? {
            Some(cursor) if text.is_char_boundary(cursor) => cursor,
            _ => {
                self.seen.bad_line = Some(row.number);
                return Ok(());
            }
        };
        let prompt = prompt_of(alloc, setup)?;
        let context = Context::new(history);
        let mut state = State::with_line(alloc, screen, &prompt, helper, context, &text, cursor)?;
        match row.phrase {
            Some(names) => self.reads(alloc, &mut state, bindings, row, names),
            None if setup.both_ways => self.one_by_one(alloc, &mut state, bindings, row),
            None => self.goes_through(alloc, &mut state, bindings, row),
        }
    }

    /// Goes through the lines of a row, and reads what they type where none of them does. Looks at
    /// what is left and, after a fault, at whether the line recovers.
    fn goes_through(
        &mut self,
        alloc: Global,
        state: &mut Editor<'_, '_>,
        bindings: &Bindings,
        row: &Row<'_>,
    ) -> Result<()> {
        let mut input = InputState::new(&self.config, bindings);
        let count = row
            .items
            .len()
            .saturating_add(usize::from(row.is_keys_alone));
        for place in 0..count {
            let (number, line) = row.step(place);
            let (typist, kills) = (&mut self.typist, &mut self.kills);
            let outcome = match line {
                "run" => Some(ran(run(state, &mut input, typist, kills, &self.config))),
                "turn" => Some(turned(advance(state, &mut input, typist, kills, &self.config))),
                "next" | "next abort" | "read" => {
                    let command = state.next_cmd(&mut input, typist, line == "next abort");
                    Some(self.takes(alloc, state, &input, command, line == "read"))
                }
                line => self.step(alloc, state, &input, line),
            };
            if !self.ends(alloc, state, outcome, number, line)? {
                return Ok(());
            }
        }
        self.looks(alloc, state, &input)
    }

    /// Takes a command that was read: writes it down, or else executes it. Returns how that ended,
    /// in a word.
    fn takes(
        &mut self,
        alloc: Global,
        state: &mut Editor<'_, '_>,
        input: &InputState<'_>,
        command: Result<Cmd>,
        is_read: bool,
    ) -> Result<&'static str> {
        if is_read {
            return self.seen.read(alloc, command);
        }
        done(execute(command?, state, input, &mut self.kills, &self.config))
    }

    /// A line of a row ended so; None where there is no such line: then its number is noted, and
    /// this returns false.
    fn ends(
        &mut self,
        alloc: Global,
        state: &Editor<'_, '_>,
        outcome: Option<Result<&'static str>>,
        number: usize,
        line: &str,
    ) -> Result<bool> {
        let Some(outcome) = outcome else {
            self.seen.bad_line = Some(number);
            return Ok(false);
        };
        self.seen.ends(alloc, outcome)?;
        if line.starts_with("start ") || line == "from here" {
            self.seen.calls_before = state.out().log().lines().count();
        }
        Ok(true)
    }

    /// Looks at what is left and, after a fault, at whether the line recovers.
    fn looks(
        &mut self,
        alloc: Global,
        state: &mut Editor<'_, '_>,
        input: &InputState<'_>,
    ) -> Result<()> {
        looks_at(alloc, state, input, &self.typist, &mut self.seen)?;
        let is_fault = matches!(self.seen.outcome, "fails" | "is denied");
        if is_fault && self.recovers(alloc, state, input)? {
            self.seen.lines.write_all(b"recovers\n")?;
        }
        Ok(())
    }

    /// After a fault the cursor is on a boundary, and all changes can be taken back, which leaves
    /// the empty line, and it can be drawn again. Returns whether that is so.
    fn recovers(
        &mut self,
        alloc: Global,
        state: &mut Editor<'_, '_>,
        input: &InputState<'_>,
    ) -> Result<bool> {
        if !state.line().is_char_boundary(state.pos()) {
            return Ok(false);
        }
        for command in ["Undo(65535)", "Repaint"] {
            match executed(alloc, state, input, &mut self.kills, &self.config, command) {
                Some(Ok("proceeds")) => {}
                Some(Err(error)) => return Err(error),
                _ => return Ok(false),
            }
        }
        let layout = state.layout();
        let starts = layout.cursor == layout.prompt_size;
        Ok(starts && state.line().is_empty())
    }

    /// Reads what the lines of a row type as phrases, and then keys that are one phrase: cut
    /// anywhere they are none yet, and they are read again whole. Sees the phrase's command, and
    /// what x stands for then.
    fn reads(
        &mut self,
        alloc: Global,
        state: &mut Editor<'_, '_>,
        bindings: &Bindings,
        row: &Row<'_>,
        names: &str,
    ) -> Result<()> {
        state.hint()?;
        let Some((before, keys)) = phrase_of(alloc, row, names)? else {
            self.seen.bad_line = Some(row.number);
            return Ok(());
        };
        let mut input = InputState::new(&self.config, bindings);
        for count in 0..=keys.len() {
            self.typist.press(pressed(keys.as_slice(), before, count))?;
            let command = state.next_cmd(&mut input, &mut self.typist, false);
            if count >= before {
                self.seen
                    .reads(alloc, keys.len().saturating_sub(count), command)?;
            }
        }
        looks_at(alloc, state, &input, &self.typist, &mut self.seen)
    }

    /// Gives the keys of a row one by one, those of a phrase so far again with each new one. Looks
    /// at what is left.
    fn one_by_one(
        &mut self,
        alloc: Global,
        state: &mut Editor<'_, '_>,
        bindings: &Bindings,
        row: &Row<'_>,
    ) -> Result<()> {
        let Some(keys) = keys_of(alloc, row.items.as_slice())? else {
            self.seen.bad_line = Some(row.number);
            return Ok(());
        };
        state.refresh_line()?;
        let mut input = InputState::new(&self.config, bindings);
        let mut start = 0;
        for end in 1..=keys.len() {
            self.typist
                .press(keys.as_slice().get(start..end).unwrap_or(&[]))?;
            let (typist, kills) = (&mut self.typist, &mut self.kills);
            let outcome = advance(state, &mut input, typist, kills, &self.config);
            let proceeds = matches!(outcome, Ok(Turned::Proceeds));
            let goes_on = proceeds || matches!(outcome, Ok(Turned::NeedsMore));
            self.seen.ends(alloc, turned(outcome))?;
            if !goes_on {
                break;
            }
            if proceeds {
                start = end;
            }
        }
        self.seen.runs_out();
        looks_at(alloc, state, &input, &self.typist, &mut self.seen)
    }

    /// Does a step that reads nothing. None where there is no such step.
    fn step(
        &mut self,
        alloc: Global,
        state: &mut Editor<'_, '_>,
        input: &InputState<'_>,
        line: &str,
    ) -> Option<Result<&'static str>> {
        match line {
            "from here" => return Some(Ok("proceeds")),
            "take pasted" => return Some(taken(self.typist.read_pasted_text())),
            _ => {}
        }
        let (kind, text) = line.split_once(' ')?;
        let outcome = match kind {
            "do" => return executed(alloc, state, input, &mut self.kills, &self.config, text),
            "start" => {
                let plain = unescape(alloc, text).ok()??;
                let (before, behind) = plain.split_once('^')?;
                starts(state, input, before, behind)
            }
            kind => match types(alloc, &mut self.typist, kind, text) {
                Ok(true) => Ok(()),
                Ok(false) => return None,
                Err(error) => Err(error),
            },
        };
        Some(proceeds(outcome))
    }
}

/// Adds to a text the line of the settings. Returns its cursor, None where it is no line.
fn fill(alloc: Global, setup: &Setup<'_>, text: &mut String) -> Result<Option<usize>> {
    let (before, behind) = setup.line;
    let (Some(before), Some(behind)) = (unescape(alloc, before)?, unescape(alloc, behind)?) else {
        return Ok(None);
    };
    text.push_str(&before)?;
    text.push_str(&behind)?;
    Ok(Some(before.len()))
}

/// The prompt of the settings, and its form with styles.
fn prompt_of(alloc: Global, setup: &Setup<'_>) -> Result<(String, String)> {
    let raw = setup.parsed.prompt.as_str();
    let styled = setup.styled.unwrap_or(raw);
    Ok((
        String::from_str(alloc, raw)?,
        String::from_str(alloc, styled)?,
    ))
}

/// A helper that answers and fails as the settings say.
fn helper_of(setup: &Setup<'_>) -> Advisor {
    let mut helper = Advisor::new(None, setup.verdict, setup.lit);
    helper.hint = setup.hint;
    let Failing { call, by_its_own } = setup.failing[1];
    helper.fail_by(call, if by_its_own { ASLEEP } else { USUAL });
    helper
}

/// A screen of the columns of the settings, which fails as they say.
fn screen_of(alloc: Global, setup: &Setup<'_>) -> Recorder {
    let columns = setup.screen.unwrap_or(1).max(1);
    let Failing { call, by_its_own } = setup.failing[0];
    if !by_its_own {
        return Recorder::new(alloc, columns, setup.colors, call);
    }
    let mut screen = Recorder::new(alloc, columns, setup.colors, 0);
    screen.cut_at(call);
    screen
}

/// A history of the lines of the settings, which fails as they say.
fn shelved(alloc: Global, setup: &Setup<'_>) -> Result<Shelf> {
    let Failing { call, by_its_own } = setup.failing[2];
    let mut history = Shelf::new(alloc, call);
    if by_its_own {
        history.fail_by(call, ASLEEP);
    }
    for line in setup.parsed.history.iter() {
        let _ = history.add(line.as_str())?;
    }
    Ok(history)
}

/// How a run ended, in a word.
fn ran(outcome: Result<()>) -> Result<&'static str> {
    outcome?;
    Ok("submitted")
}

/// How a turn ended, in a word.
fn turned(outcome: Result<Turned>) -> Result<&'static str> {
    Ok(match outcome? {
        Turned::Proceeds => "proceeds",
        Turned::Submitted => "submitted",
        Turned::NeedsMore => "needs more",
        Turned::Ended => "eof",
        Turned::Interrupted => "interrupted",
    })
}

/// A pasted text was taken, in a word.
fn taken(outcome: Result<String>) -> Result<&'static str> {
    let _ = outcome?;
    Ok("proceeds")
}

/// The keys that the lines of a row type. None where a line is of another kind.
fn keys_of(alloc: Global, items: &[(usize, &str)]) -> Result<Option<Vec<KeyEvent>>> {
    let mut keys = Vec::new(alloc);
    for (_, line) in items {
        let (kind, text) = line.split_once(' ').unwrap_or(("", ""));
        match kind {
            "type" => {
                for c in text.chars() {
                    keys.push(KeyEvent(KeyCode::Char(c), Modifiers::NONE))?;
                }
            }
            "key" | "keys" => match keys_named(alloc, text)? {
                Some(named) => keys.extend_from_slice(named.as_slice())?,
                None => return Ok(None),
            },
            _ => return Ok(None),
        }
    }
    Ok(Some(keys))
}

/// The keys that the lines of a row type and then those of a phrase, after the number of the first
/// ones. None where a line or a name is of another kind.
fn phrase_of(alloc: Global, row: &Row<'_>, names: &str) -> Result<Option<(usize, Vec<KeyEvent>)>> {
    let Some(mut keys) = keys_of(alloc, row.items.as_slice())? else {
        return Ok(None);
    };
    let Some(phrase) = keys_named(alloc, names)? else {
        return Ok(None);
    };
    let before = keys.len();
    keys.extend_from_slice(phrase.as_slice())?;
    Ok(Some((before, keys)))
}

/// The keys that are pressed before the read of this number: at first all of those before the
/// phrase, then none until these are read, then more and more of the phrase, and x.
fn pressed(keys: &[KeyEvent], before: usize, count: usize) -> &[KeyEvent] {
    let (start, end) = match count {
        count if count >= before => (before, count.saturating_add(1)),
        0 => (0, before),
        _ => (0, 0),
    };
    keys.get(start..end).unwrap_or(X)
}

/// Gives the reader what a line types. False where it types nothing.
fn types(alloc: Global, typist: &mut Typist, kind: &str, text: &str) -> Result<bool> {
    match kind {
        "type" => types_text(alloc, typist, text)?,
        "key" | "keys" => match keys_named(alloc, text)? {
            Some(keys) => typist.press(keys.as_slice())?,
            None => return Ok(false),
        },
        "paste" => pastes(alloc, typist, text, true)?,
        "pasted" => pastes(alloc, typist, text, false)?,
        _ => return Ok(false),
    }
    Ok(true)
}

/// Types each character.
fn types_text(alloc: Global, typist: &mut Typist, text: &str) -> Result<()> {
    if let Some(typed) = unescape(alloc, text)? {
        for c in typed.chars() {
            typist.press(&[KeyEvent(KeyCode::Char(c), Modifiers::NONE)])?;
        }
    }
    Ok(())
}

/// Pastes a text, with the mark before it or without.
fn pastes(alloc: Global, typist: &mut Typist, text: &str, marked: bool) -> Result<()> {
    if marked {
        typist.press(&[KeyEvent(KeyCode::BracketedPasteStart, Modifiers::NONE)])?;
    }
    if let Some(pasted) = unescape(alloc, text)? {
        typist.paste(pasted.as_str())?;
    }
    Ok(())
}
