//! The settings of rows that scripts lack.

use crate::file::is_among;
use line_buffer::Unit;
use line_config::Result;
use line_editor::binding::Event;
use line_keys::cmd::Cmd;
use line_keys::key_named;
use line_keys::keys::KeyEvent;
use line_parts::{CmdKind, History};
use line_script::{KILL_RING_SIZE, Parsed};
use std::alloc::Global;
use tests_parties::advisor::{Tip, Verdict};
use tests_parties::source::Source;
use tests_steps::source::command;
use tests_steps::watcher::Watcher;

/// Which call of one of those who are asked fails, from 1 on, or 0 for none, and whether it fails
/// by an error of its own.
#[derive(Clone, Copy)]
pub struct Failing {
    pub call: u64,
    pub by_its_own: bool,
}

const NEVER: Failing = Failing {
    call: 0,
    by_its_own: false,
};

/// What a row's settings say.
pub struct Setup<'t> {
    /// The settings that scripts have.
    pub parsed: Parsed,
    /// The columns of a screen that writes down what it is asked for, each byte of a text one
    /// column.
    pub screen: Option<Unit>,
    /// The form of the prompt with styles.
    pub styled: Option<&'t str>,
    /// Whether that screen has colors.
    pub colors: bool,
    /// Whether there is a helper.
    pub helped: bool,
    /// What it hints for each line.
    pub hint: Option<Tip>,
    /// What it says of each line.
    pub verdict: Verdict,
    /// For which kind it asks for a full drawing.
    pub lit: Option<CmdKind>,
    /// The failing calls of the screen, the helper, the history and the reader.
    pub failing: [Failing; 4],
    /// The slots of the kill ring.
    pub kill_ring_size: usize,
    /// Whether keys are also handed over one by one.
    pub both_ways: bool,
    /// The line that the editor is made of: the text before its cursor, and the text after it.
    pub line: (&'t str, &'t str),
    /// What keys are bound to.
    pub bound: Vec<(Event, Target)>,
}

impl Drop for Setup<'_> {
    fn drop(self) {
        let Setup {
            parsed: _,
            screen: _,
            styled: _,
            colors: _,
            helped: _,
            hint: _,
            verdict: _,
            lit: _,
            failing: _,
            kill_ring_size: _,
            both_ways: _,
            line: _,
            bound: _,
        } = self;
    }
}

impl<'t> Setup<'t> {
    /// What holds without a setting.
    pub fn new(alloc: Global) -> Result<Setup<'t>> {
        Ok(Setup {
            parsed: Parsed::new(alloc)?,
            screen: None,
            styled: None,
            colors: false,
            helped: true,
            hint: None,
            verdict: (true, true, None),
            lit: None,
            failing: [NEVER; 4],
            kill_ring_size: KILL_RING_SIZE,
            both_ways: false,
            line: ("", ""),
            bound: Vec::new(alloc),
        })
    }

    /// Adds what a setting says. Returns false where there is no such setting.
    pub fn push(&mut self, alloc: Global, line: &'t str) -> Result<bool> {
        if self.switch(line) {
            return Ok(true);
        }
        let Some((name, text)) = line.split_once(' ') else {
            return self.parsed.push_line(alloc, line);
        };
        if name == "bind" {
            self.binds(alloc, text)
        } else if is_among(name, "screen|ring|dups|lines") {
            self.set_number(name, text)
        } else if is_among(name, "hint|verdict") {
            Ok(self.set_lasting(name, lasting(alloc, text)?))
        } else if is_among(name, "line|styled|lit|fails|cut") {
            Ok(self.set(name, text))
        } else {
            self.parsed.push_line(alloc, line)
        }
    }

    /// Binds the keys of these names to what stands after them. False where the text is of no such
    /// form.
    fn binds(&mut self, alloc: Global, text: &str) -> Result<bool> {
        let Some((names, target)) = text.split_once(" = ") else {
            return Ok(false);
        };
        let Some(event) = event_named(alloc, names)? else {
            return Ok(false);
        };
        let Some(target) = target_named(alloc, target)? else {
            return Ok(false);
        };
        self.bound.push((event, target))?;
        Ok(true)
    }

    /// Switches on or off what the setting of this name asks for. False where there is no such
    /// setting.
    fn switch(&mut self, name: &str) -> bool {
        match name {
            "colors" => self.colors = true,
            "alone" => self.helped = false,
            "both ways" => self.both_ways = true,
            _ => return false,
        }
        true
    }

    /// Sets what this number is for. False where it is no number.
    fn set_number(&mut self, name: &str, text: &str) -> Result<bool> {
        let Ok(number) = text.parse::<u16>() else {
            return Ok(false);
        };
        match name {
            "screen" if number > 0 => self.screen = Some(number),
            "ring" => self.kill_ring_size = usize::from(number),
            name => return set_history(&mut self.parsed, name, number),
        }
        Ok(true)
    }

    /// Sets what this text is for. False where it is none of its kind.
    fn set(&mut self, name: &str, text: &'t str) -> bool {
        match name {
            "line" => match text.split_once('^') {
                Some(line) => self.line = line,
                None => return false,
            },
            "styled" => self.styled = Some(text),
            "lit" => return self.set_lit(text),
            _ => return self.set_failing(text, name == "cut"),
        }
        true
    }

    /// Takes what the helper hints, or else what it says of each line.
    fn set_lasting(&mut self, name: &str, text: &'static str) -> bool {
        if name == "hint" {
            self.hint = Some(tip(text));
            return true;
        }
        self.set_verdict(text)
    }

    /// Takes what the helper says of each line.
    fn set_verdict(&mut self, text: &'static str) -> bool {
        let (name, message) = match text.split_once(' ') {
            Some((name, message)) => (name, Some(message)),
            None => (text, None),
        };
        let (is_whole, is_valid) = match name {
            "incomplete" => (false, false),
            "valid" => (true, true),
            "invalid" => (true, false),
            _ => return false,
        };
        self.verdict = (is_whole, is_valid, message);
        true
    }

    /// Takes the kind for which the helper asks for a full drawing.
    fn set_lit(&mut self, name: &str) -> bool {
        self.lit = match name {
            "moves" => Some(CmdKind::MoveCursor),
            "edits" => Some(CmdKind::Other),
            "the last" => Some(CmdKind::ForcedRefresh),
            _ => return false,
        };
        true
    }

    /// Takes which call of one of those who are asked fails.
    fn set_failing(&mut self, text: &str, by_its_own: bool) -> bool {
        let Some((party, number)) = text.split_once(' ') else {
            return false;
        };
        let Ok(call) = number.parse() else {
            return false;
        };
        let place = match party {
            "screen" => 0,
            "helper" => 1,
            "history" => 2,
            "reader" => 3,
            _ => return false,
        };
        self.failing[place] = Failing { call, by_its_own };
        true
    }
}

/// What keys are bound to.
#[derive(Drop)]
pub enum Target {
    Does(Cmd),
    Asks(Box<Watcher>),
}

/// The command of a text, or the handler after `asks`.
fn target_named(alloc: Global, text: &str) -> Result<Option<Target>> {
    if let Some(handler) = text.strip_prefix("asks ") {
        return Ok(match watcher(&mut Source::new(handler)) {
            Some(watcher) => Some(Target::Asks(Box::new(alloc, watcher)?)),
            None => None,
        });
    }
    Ok(match command(&mut Source::new(text), alloc)? {
        Some(command) => Some(Target::Does(command)),
        None => None,
    })
}

/// Sets a limit of the history, or whether it keeps a line that is the same as the one before it.
/// False where it is neither.
fn set_history(parsed: &mut Parsed, name: &str, number: u16) -> Result<bool> {
    match name {
        "lines" => parsed.history.set_max_len(usize::from(number))?,
        "dups" => parsed.history.ignore_dups(number == 0)?,
        _ => return Ok(false),
    }
    Ok(true)
}

/// A copy of a text that lasts as long as the program, as the helper wants its answers.
fn lasting(alloc: Global, text: &str) -> Result<&'static str> {
    let mut bytes = Vec::new(alloc);
    bytes.extend_from_slice(text.as_bytes())?;
    Ok(str::from_utf8(bytes.leak()).unwrap_or(""))
}

/// A hint that displays a text, and completes the line with it; with another one after ` -> `; or
/// with none after ` !`.
fn tip(text: &'static str) -> Tip {
    if let Some((shown, completion)) = text.split_once(" -> ") {
        return Tip(shown, Some(completion));
    }
    match text.strip_suffix(" !") {
        Some(shown) => Tip(shown, None),
        None => Tip(text, Some(text)),
    }
}

/// The event of `any`, `mouse`, or of the names of keys.
fn event_named(alloc: Global, names: &str) -> Result<Option<Event>> {
    match names {
        "any" => Ok(Some(Event::Any)),
        "mouse" => Ok(Some(Event::Mouse)),
        "nothing" => Ok(Some(Event::KeySeq(Vec::new(alloc)))),
        names => match keys_named(alloc, names)? {
            Some(keys) => Ok(Some(Event::KeySeq(keys))),
            None => Ok(None),
        },
    }
}

/// The keys of these names, with a blank between two. None where one is no key's.
pub fn keys_named(alloc: Global, names: &str) -> Result<Option<Vec<KeyEvent>>> {
    let mut keys = Vec::new(alloc);
    for name in names.split(' ') {
        match key_named(name) {
            Some(key) => keys.push(key)?,
            None => return Ok(None),
        }
    }
    Ok(Some(keys))
}

/// The handler of the next word, with its numbers.
fn watcher(source: &mut Source<'_>) -> Option<Watcher> {
    let name = source.word().unwrap_or("");
    let first = source.word().unwrap_or("");
    let second = source.word().unwrap_or("");
    let third = source.word().unwrap_or("");
    match name {
        "nothing" => Some(Watcher::Nothing),
        "count" => Some(Watcher::ForCount(number(first)?, second == "forth")),
        "at" => watcher_at(
            first,
            second,
            third,
            source.word().unwrap_or("") == "hinted",
        ),
        "sees" => {
            let len = usize::from(number(third)?);
            Some(Watcher::Sees(first == "emacs", second == "inserting", len))
        }
        "fails" => Some(Watcher::Fails),
        _ => None,
    }
}

/// The handler that is handed so many keys, and shown a line of a length with the cursor at a
/// place.
fn watcher_at(count: &str, len: &str, pos: &str, is_hinted: bool) -> Option<Watcher> {
    match (number(count), number(len), number(pos)) {
        (Some(count), Some(len), Some(pos)) => {
            Some(Watcher::At(
                usize::from(count),
                usize::from(len),
                usize::from(pos),
                is_hinted,
            ))
        }
        _ => None,
    }
}

/// The number that a text writes.
fn number(text: &str) -> Option<u16> {
    text.parse().ok()
}
