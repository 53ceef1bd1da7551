//! Sessions that are typed into, whole and in pieces, and what comes of it.

use crate::holds;
use crate::parties::{Failing, NOBODY, Party, failing_call};
use crate::terminal::Counted;
use line_buffer::GraphemeClusterMode;
use line_config::{ColorMode, CompletionType, Config, Configurer, EditMode, Result};
use line_editor::{Bindings, Event, EventHandler};
use line_keys::cmd::Cmd;
use line_keys::keys::KeyEvent;
use line_parts::{Helper, History, Parts};
use line_session::editor::{Editor, Fed, Heard};
use std::alloc::Global;
use std::io::Write;
use std::process::Abort;
use tests_parties::fault::GONE;
use tests_parties::guide::Guide;
use tests_parties::shelf::Shelf;

/// Those who help in a session: they complete words, hint nothing, show no colors and take each
/// line.
type Helpers = Parts<Party, Guide, Party, Guide>;

/// Where a line is typed: a session in which those who are asked can fail, the bindings of its
/// keys, and how its line stands.
pub(crate) struct Desk {
    pub(crate) session: Editor<Counted, Helpers, Shelf>,
    pub(crate) bindings: Bindings,
    fed: Fed,
}

impl Drop for Desk {
    fn drop(self) {
        let Desk {
            session: _,
            bindings: _,
            fed: _,
        } = self;
    }
}

/// What is tried, the words or the lines of the history, what is typed, what comes of it, and what
/// is written to the terminal on the way.
pub(crate) type Case = (
    &'static str,
    &'static str,
    &'static str,
    &'static str,
    &'static str,
);

// What is tried.
/// Candidates come one after another, in Emacs mode.
pub(crate) const ROUND: &str = "round";
/// The same in Vi mode.
pub(crate) const ROUND_VI: &str = "round vi";
/// Candidates are listed at another Tab.
pub(crate) const LIST: &str = "list";
/// They are listed at once.
pub(crate) const LIST_AT_ONCE: &str = "list at once";
/// Past one candidate it is asked whether to list them.
pub(crate) const ASK: &str = "list, ask";
/// Past one candidate it is asked at once.
pub(crate) const ASK_AT_ONCE: &str = "list, ask at once";
/// A history is searched, in Emacs mode.
pub(crate) const SEARCH: &str = "search";
/// The same in Vi mode.
pub(crate) const SEARCH_VI: &str = "search vi";
/// Nothing is shown in colors.
pub(crate) const COLORLESS: &str = "no colors";
/// A history takes the lines that are submitted, in Emacs mode.
pub(crate) const ADD: &str = "add";
/// The same in Vi mode.
pub(crate) const ADD_VI: &str = "add vi";

/// The lines of a history.
pub(crate) const LINES: &str = "alpha one|beta two|gamma one|delta";

/// Words in six rows of two columns.
pub(crate) const MANY: &str = "a1 a2 a3 a4 a5 a6 a7 a8 a9 aa ab abcdefgh";

// What is typed is cut into steps, each of which is fed at once, but for those that begin so.
/// Ends a step.
const CUT: char = '¦';
/// Begins a line, whose texts before and after the cursor follow.
const BEGIN: char = '»';
/// Gives the screen the number of columns that follows.
const SIZE: char = '↔';
/// The bytes pause.
pub(crate) const PAUSE: &str = "…";
/// The bytes end.
const END: &str = "■";

// What comes of it begins so, unless the line goes on: then it is the line alone, or nothing where
// none goes on.
/// The line was submitted.
const SUBMITTED: &str = "⏎";
/// The input ended.
const ENDED: &str = "■";
/// The person interrupted.
const INTERRUPTED: &str = "×";
/// The program is suspended.
const SUSPENDED: &str = "‖";

/// Stands at the cursor of a line.
pub(crate) const CURSOR: char = '|';

/// How many bytes are fed at once: all, or so many.
const PIECES: &[usize] = &[usize::MAX, 1, 3];

/// Bindings of C-z, which suspends.
fn bindings(alloc: Global) -> Result<Bindings> {
    let mut bindings = Bindings::new(alloc);
    let key = Event::from_key(alloc, KeyEvent::ctrl('Z'))?;
    bindings.insert(key, EventHandler::from(Cmd::Suspend))?;
    Ok(bindings)
}

/// Those who help, of whose calls one can fail.
fn helpers(alloc: Global, failing: Failing) -> Helpers {
    let (mut hinter, mut validator) = (Guide::new(false, false), Guide::new(false, false));
    hinter.fail_by(failing_call(failing, "hinter"), GONE);
    validator.fail_by(failing_call(failing, "validator"), GONE);
    Parts {
        completer: Party::new(alloc, failing_call(failing, "completer")),
        hinter,
        highlighter: Party::new(alloc, failing_call(failing, "highlighter")),
        validator,
    }
}

/// Gives the completer a word, or the history a line.
fn give(
    alloc: Global,
    completes: bool,
    part: &str,
    completer: &mut Party,
    history: &mut Shelf,
) -> Result<()> {
    if completes {
        completer.words.words.push(String::from_str(alloc, part)?)?;
    } else {
        history.add(part)?;
    }
    Ok(())
}

/// Gives the completer the words of a text, or the history its lines.
fn give_all(
    alloc: Global,
    how: &str,
    text: &str,
    completer: &mut Party,
    history: &mut Shelf,
) -> Result<()> {
    let completes = how.starts_with("list") || how.starts_with("round");
    for part in text.split(if completes { ' ' } else { '|' }) {
        give(alloc, completes, part, completer, history)?;
    }
    Ok(())
}

/// Those who are asked: the completer has the words of a text, or the history its lines.
fn asked(alloc: Global, how: &str, text: &str, failing: Failing) -> Result<(Helpers, Shelf)> {
    let mut history = Shelf::new(alloc, 0);
    let mut helpers = helpers(alloc, failing);
    give_all(alloc, how, text, &mut helpers.completer, &mut history)?;
    history.fail_by(failing_call(failing, "history"), GONE);
    Ok((helpers, history))
}

/// The settings of a session.
fn settings(how: &str) -> Config {
    let edit_mode = if how.ends_with("vi") {
        EditMode::Vi
    } else {
        EditMode::Emacs
    };
    let completion_type = if how.starts_with("list") {
        CompletionType::List
    } else {
        CompletionType::Circular
    };
    let color_mode = if how == COLORLESS {
        ColorMode::Disabled
    } else {
        ColorMode::Enabled
    };
    let limit = if how.contains("ask") { 1 } else { 100 };
    let mut config = Config::new(GraphemeClusterMode::Unicode);
    config.set_edit_mode(edit_mode);
    config.set_completion_type(completion_type);
    config.set_completion_prompt_limit(limit);
    config.set_completion_show_all_if_ambiguous(how.ends_with("at once"));
    config.set_auto_add_history(how.starts_with("add"));
    config.set_color_mode(color_mode);
    config
}

/// A session on a screen of 20 columns and 5 rows.
fn session<O: Write + Drop, H: Helper + Drop, S: History + Drop>(
    alloc: Global,
    how: &str,
    out: O,
    (helpers, history): (H, S),
) -> Editor<O, H, S> {
    let mut session = Editor::new(alloc, settings(how), out, 20, helpers, history);
    let _ = session.resize(20, 5);
    session
}

impl Desk {
    /// A desk with a session on a screen of 20 columns and 5 rows.
    pub(crate) fn new(alloc: Global, how: &str, text: &str, failing: Failing) -> Result<Desk> {
        let bindings = bindings(alloc)?;
        let out = Counted::new(alloc, usize::MAX, failing_call(failing, "output"), &GONE)?;
        Ok(Desk {
            session: session(alloc, how, out, asked(alloc, how, text, failing)?),
            bindings,
            fed: Fed::More,
        })
    }

    /// Begins a line with these texts before and after the cursor.
    fn begin(&mut self, texts: (&str, &str)) -> Result<()> {
        self.fed = self.session.begin_with(&"> ", texts, &self.bindings)?;
        Ok(())
    }

    /// Hears something of the terminal.
    fn hear(&mut self, heard: Heard<'_>) -> Result<()> {
        self.fed = self.session.hear(heard, &self.bindings)?;
        Ok(())
    }

    /// Feeds a step by pieces of at most this length.
    fn feed(&mut self, step: &str, piece: usize) -> Result<()> {
        for bytes in step.as_bytes().chunks(piece.max(1)) {
            self.hear(Heard::Bytes(bytes))?;
        }
        Ok(())
    }

    /// Does a step. What is fed goes in by pieces of at most this length.
    pub(crate) fn take(&mut self, step: &str, piece: usize) -> Result<()> {
        self.fed = Fed::More;
        if let Some(texts) = step.strip_prefix(BEGIN) {
            return self.begin(texts.split_once(CURSOR).unwrap_or(("", "")));
        }
        if let Some(columns) = step.strip_prefix(SIZE) {
            let columns: u16 = columns.parse().unwrap_or(20);
            return self.session.resize(columns.max(1), 5);
        }
        match step {
            PAUSE => self.hear(Heard::Pause),
            END => self.hear(Heard::End),
            _ => self.feed(step, piece),
        }
    }

    /// The line that goes on, if one does.
    pub(crate) fn line(&self) -> Option<&str> {
        self.session.line()
    }

    /// The history.
    pub(crate) fn history(&self) -> &Shelf {
        self.session.history()
    }

    /// What was written, if it is text.
    pub(crate) fn written(&self) -> &str {
        self.session.out().written()
    }

    /// The line with its cursor, and nothing where none goes on.
    pub(crate) fn marked(&self, alloc: Global) -> Result<String> {
        let Some(pos) = self.session.pos() else {
            return Ok(String::new(alloc));
        };
        let line = self.line().unwrap_or("");
        let (before, behind) = line.split_at_checked(pos).unwrap_or(("", ""));
        Ok(format!(in alloc; "{before}{CURSOR}{behind}")?)
    }

    /// How the line stands, and the text of one that was submitted.
    fn outcome(&self) -> (&'static str, &str) {
        match &self.fed {
            Fed::Submitted(text) => (SUBMITTED, text.as_str()),
            Fed::Ended => (ENDED, ""),
            Fed::Interrupted => (INTERRUPTED, ""),
            Fed::More if self.session.is_suspended() => (SUSPENDED, ""),
            Fed::More => ("", ""),
        }
    }
}

/// Whether this has come of what was typed, and this was written on the way.
fn has_come(alloc: Global, desk: &Desk, wanted: &str, written: &str) -> Result<bool> {
    let line = desk.marked(alloc)?;
    let (mark, text) = desk.outcome();
    let came = format!(in alloc; "{mark}{text}{line}")?;
    Ok(came.as_str() == wanted && desk.written().contains(written))
}

/// Does steps, with the bytes of each by pieces of at most this length.
fn take_all(desk: &mut Desk, keys: &str, piece: usize) -> Result<()> {
    for step in keys.split(CUT) {
        desk.take(step, piece)?;
    }
    Ok(())
}

/// Does what a case says by pieces of at most this length. Returns whether it comes true.
fn comes_by(alloc: Global, case: &Case, piece: usize) -> Result<bool> {
    let mut desk = Desk::new(alloc, case.0, case.1, NOBODY)?;
    take_all(&mut desk, case.2, piece)?;
    has_come(alloc, &desk, case.3, case.4)
}

/// Does what a case says, with the bytes of a step whole and in pieces.
pub(crate) fn comes_true(rt: &impl Abort, alloc: Global, case: &Case) {
    for piece in PIECES {
        let is_so = comes_by(alloc, case, *piece).expect(rt, "no fault");
        holds(rt, is_so, case.2, *piece);
    }
}
