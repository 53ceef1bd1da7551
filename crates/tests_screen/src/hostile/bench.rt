//! An editor on a bench: what it stands on, keys that are written as text, how they are read, and
//! what is left.

use super::handler::Handler;
use crate::{is, same, sure};
use line_buffer::{
    GraphemeClusterMode, KillRing, Layout, LineBuffer, Mode as Side, Movement, Position,
    RepeatCount, Unit,
};
use line_config::{Config, EditMode, ReadlineError, Result};
use line_editor::binding::{Event, EventHandler};
use line_editor::command::{Status, execute};
use line_editor::run::run;
use line_editor::{Bindings, InputState, State, Turned, advance};
use line_keys::cmd::{Anchor, Cmd};
use line_keys::keys::{KeyCode as K, KeyEvent, Modifiers as M};
use line_keys::refresher::Refresher;
use line_parts::{Context, History};
use line_screen::{KeyQueue, Plain};
use line_state::Renderer;
use std::alloc::Global;
use std::process::Abort;
use tests_parties::countdown::Countdown;
use tests_parties::fault::Fault;
use tests_parties::guide::Guide;
use tests_parties::shelf::Shelf;

/// All kinds of keys, and the characters that stand for something in an edit mode.
pub(crate) const CODES: &[K] = &[
    K::UnknownEscSeq,
    K::Backspace,
    K::BackTab,
    K::BracketedPasteStart,
    K::BracketedPasteEnd,
    K::Char('a'),
    K::Char('c'),
    K::Char('d'),
    K::Char('0'),
    K::Char('7'),
    K::Char('-'),
    K::Char('%'),
    K::Char('.'),
    K::Char(';'),
    K::Char('w'),
    K::Char('A'),
    K::Char('C'),
    K::Char('D'),
    K::Char('J'),
    K::Char('U'),
    K::Char('X'),
    K::Char(']'),
    K::Char('_'),
    K::Char('é'),
    K::Delete,
    K::Down,
    K::End,
    K::Enter,
    K::Esc,
    K::F(0),
    K::F(4),
    K::F(255),
    K::Home,
    K::Insert,
    K::Left,
    K::Null,
    K::PageDown,
    K::PageUp,
    K::Right,
    K::Tab,
    K::Up,
];

/// All sets of modifiers.
pub(crate) const SETS: &[M] = &[
    M::NONE,
    M::SHIFT,
    M::ALT,
    M::ALT_SHIFT,
    M::CTRL,
    M::CTRL_SHIFT,
    M::CTRL_ALT,
    M::CTRL_ALT_SHIFT,
];

/// A key, or a pasted text with the mark before it.
#[derive(Clone, Copy)]
pub(crate) enum Item {
    Key(KeyEvent),
    Paste(&'static str),
}

/// The keys that a text writes: ⌃ and ⌥ stand for Ctrl and Alt with the next one, or both of them,
/// arrows for the keys that show them, and a control character for the key that sends it.
pub(crate) fn items(alloc: Global, text: &str) -> Result<Vec<Item>> {
    let mut items = Vec::new(alloc);
    let mut mods = M::NONE;
    for c in text.chars() {
        let key = match c {
            '⌃' | '⌥' => {
                mods = mods | if c == '⌃' { M::CTRL } else { M::ALT };
                continue;
            }
            '←' => KeyEvent(K::Left, mods),
            '→' => KeyEvent(K::Right, mods),
            c if mods == M::NONE => KeyEvent::new(c, mods),
            c => KeyEvent(K::Char(c), mods),
        };
        items.push(Item::Key(key))?;
        mods = M::NONE;
    }
    Ok(items)
}

/// What keys are bound to. A move goes to the line's beginning, a text that is put again is the one
/// that came in last, and a yanked one is put after the cursor. A handler that is asked answers
/// such a move or nothing; its call of this number fails, by this fault.
#[derive(Clone, Copy)]
pub(crate) enum To {
    Moves,
    PutsAgain,
    Undoes(RepeatCount),
    Yanks(RepeatCount),
    Asks(bool, u64, Fault),
}

/// What is done by the keys that are bound so.
fn handler(alloc: Global, to: To) -> Result<EventHandler> {
    Ok(match to {
        To::Moves => EventHandler::Simple(Cmd::Move(Movement::BeginningOfLine)),
        To::PutsAgain => EventHandler::Simple(Cmd::Replace(Movement::ForwardChar(0), None)),
        To::Undoes(n) => EventHandler::Simple(Cmd::Undo(n)),
        To::Yanks(n) => EventHandler::Simple(Cmd::Yank(n, Anchor::After)),
        To::Asks(moves, failing, fault) => {
            let countdown = Countdown::with(failing, fault);
            EventHandler::Conditional(Box::new(alloc, Handler { moves, countdown })?)
        }
    })
}

/// Binds keys, each one or a sequence, in a map of bindings. No keys stand for every key.
pub(crate) fn bind_all(
    alloc: Global,
    bindings: &mut Bindings,
    bound: &[(&[KeyEvent], To)],
) -> Result<()> {
    for (keys, to) in bound {
        let mut sequence = Vec::new(alloc);
        sequence.extend_from_slice(keys)?;
        let event = if keys.is_empty() {
            Event::Any
        } else {
            Event::KeySeq(sequence)
        };
        let _ = bindings.insert(event, handler(alloc, *to)?)?;
    }
    Ok(())
}

/// What an editor stands on: its edit mode and whether it is in Vi's command mode, the screen's
/// columns, the prompt, the text that is on the line with the cursor in it, what was killed before,
/// what keys are bound to, whether there are hints, whether brackets are checked, and the lines of
/// the history.
#[derive(Clone, Copy)]
pub(crate) struct Desk {
    pub(crate) style: EditMode,
    pub(crate) takes_commands: bool,
    pub(crate) columns: Unit,
    pub(crate) prompt: &'static str,
    pub(crate) start: (&'static str, usize),
    pub(crate) killed: &'static str,
    pub(crate) bound: &'static [(&'static [KeyEvent], To)],
    pub(crate) hints: bool,
    pub(crate) brackets: bool,
    pub(crate) entries: &'static [&'static str],
}

/// An empty line in Emacs mode, on a screen of 80 columns, with nothing else.
pub(crate) const PLAIN: Desk = Desk {
    style: EditMode::Emacs,
    takes_commands: false,
    columns: 80,
    prompt: "> ",
    start: ("", 0),
    killed: "",
    bound: &[],
    hints: false,
    brackets: false,
    entries: &[],
};

/// The same in Vi's insert mode.
pub(crate) const VI: Desk = Desk {
    style: EditMode::Vi,
    ..PLAIN
};

/// A history of these lines, of which no call fails.
pub(crate) fn shelf(alloc: Global, entries: &[&str]) -> Result<Shelf> {
    let mut history = Shelf::new(alloc, 0);
    for entry in entries {
        let _ = history.add(entry)?;
    }
    Ok(history)
}

/// How items are read: by a run; by turns; by turns where they come one by one; or where so many
/// come first. Where a phrase is cut in turns, its items are read again.
#[derive(Clone, Copy)]
pub(crate) enum Way {
    Run,
    Turns,
    OneByOne,
    CutAt(usize),
}

/// What is executed beside a command: two characters that are typed before it, or a yank behind it.
#[derive(Clone, Copy)]
pub(crate) enum Beside {
    Nothing,
    Typed,
    Yanked,
}

/// What an editor does: it reads items, or executes a command that does not submit, with what is
/// beside it.
pub(crate) enum Work<'w> {
    Reads(Way, &'w [Item]),
    Executes(Cmd, Beside),
}

/// What is left: the line and its cursor, the history index, what a yank would give, where the
/// cursor is drawn, how often all was drawn, how it ended, how many items were handed over, whether
/// the line is drawn as in a full redraw, and what was amiss on the way, if anything was.
pub(crate) struct Left {
    pub(crate) line: String,
    pub(crate) pos: usize,
    pub(crate) place: usize,
    pub(crate) yanked: Option<String>,
    pub(crate) at: (Unit, Unit),
    pub(crate) redraws: u64,
    pub(crate) end: &'static str,
    pub(crate) given: usize,
    pub(crate) is_drawn: bool,
    pub(crate) amiss: &'static str,
}

impl Drop for Left {
    fn drop(self) {
        let Left {
            line: _,
            pos: _,
            place: _,
            yanked: _,
            at: _,
            redraws: _,
            end: _,
            given: _,
            is_drawn: _,
            amiss: _,
        } = self;
    }
}

/// How a turn or a run ended, in a word.
pub(crate) fn ended(outcome: &Result<()>) -> &'static str {
    match outcome {
        Ok(()) => "submits",
        Err(ReadlineError::Eof) => "eof",
        Err(ReadlineError::Interrupted) => "interrupted",
        Err(ReadlineError::Io(_)) => "fails",
        Err(ReadlineError::Memory) => "out of memory",
    }
}

/// An editor of which a call may fail.
pub(crate) type Editor<'out, 'prompt, W> = State<'out, 'prompt, W, Guide, &'static str, Shelf>;

/// What an editor has: the line with its cursor, the history index, the kept layout, and the screen
/// as the last drawing left it.
#[derive(Drop)]
pub(crate) struct Seen<'s, W> {
    pub(crate) line: &'s str,
    pub(crate) pos: usize,
    pub(crate) place: usize,
    pub(crate) layout: &'s Layout,
    pub(crate) screen: &'s W,
}

/// What an editor has.
pub(crate) fn look<'s, W: Renderer>(state: &'s Editor<'_, '_, W>) -> Seen<'s, W> {
    Seen {
        line: state.line(),
        pos: state.pos(),
        place: state.place(),
        layout: state.layout(),
        screen: state.out(),
    }
}

/// Reads items in one way and in others, and returns how that ended where nothing is amiss, each
/// way leaves the same, and a run draws as often as the first.
pub(crate) fn agree(
    rt: &impl Abort,
    alloc: Global,
    desk: &Desk,
    items: &[Item],
    first: Way,
    others: &[Way],
) -> Option<&'static str> {
    let left = left_by(rt, alloc, desk, Work::Reads(first, items));
    let mut is_well = left.amiss.is_empty();
    for way in others {
        let other = left_by(rt, alloc, desk, Work::Reads(*way, items));
        is_well &= same(other.line.as_str(), left.line.as_str()) && other.pos == left.pos;
        is_well &= is(other.yanked.as_deref(), left.yanked.as_deref());
        is_well &= other.place == left.place && same(other.end, left.end);
        is_well &= !matches!(way, Way::Run) || other.redraws == left.redraws;
        is_well &= other.amiss.is_empty();
    }
    is_well.then_some(left.end)
}

/// Lets an editor do its work, and returns what is left. What is looked at on the way: after each
/// turn the cursor is on a boundary, the place within the history, and the redraws within their
/// bound; after one that proceeds, and after each command, the layout is a full redraw's and the
/// screen shows the line; a run or a turn fails where the reader counts a failure. At the end,
/// where all is taken back, the text is that of the start.
pub(crate) fn left_by(rt: &impl Abort, alloc: Global, desk: &Desk, work: Work<'_>) -> Left {
    let (text, cursor) = desk.start;
    assert!(rt; desk.columns > 0 && text.is_char_boundary(cursor));
    let history = sure(rt, shelf(alloc, desk.entries));
    let mut bindings = Bindings::new(alloc);
    sure(rt, bind_all(alloc, &mut bindings, desk.bound));
    let mut screen = Plain::new(alloc, desk.columns);
    let mut helper = Guide::new(desk.hints, desk.brackets);
    let (helper, context) = (Some(&mut helper), Context::new(&history));
    let prompt = &desk.prompt;
    let state = State::with_line(alloc, &mut screen, prompt, helper, context, text, cursor);
    let config = Config::builder(GraphemeClusterMode::Unicode)
        .edit_mode(desk.style)
        .build();
    let mut bench = Bench {
        alloc,
        desk: *desk,
        state: sure(rt, state),
        input: InputState::new(&config, &bindings),
        keys: KeyQueue::new(alloc),
        kills: KillRing::new(alloc, 60),
        config,
        given: 0,
        amiss: "",
    };
    bench.does(rt, work)
}

/// Where a prompt begins.
const ORIGIN: Position = Position { row: 0, col: 0 };

/// What is amiss where the line is not drawn as in a full redraw.
const UNDRAWN: &str = "what is drawn";

/// How a turn ended that needs more items.
const UNREAD: &str = "needs more";

/// An editor with all that it needs, how many items it was handed, and what was amiss.
struct Bench<'b, 'out, 'prompt> {
    alloc: Global,
    desk: Desk,
    state: Editor<'out, 'prompt, Plain<KeyQueue>>,
    input: InputState<'b>,
    keys: KeyQueue,
    kills: KillRing,
    config: Config,
    given: usize,
    amiss: &'static str,
}

impl Drop for Bench<'_, '_, '_> {
    fn drop(self) {
        let Bench {
            alloc: _,
            desk: _,
            state: _,
            input: _,
            keys: _,
            kills: _,
            config: _,
            given: _,
            amiss: _,
        } = self;
    }
}

impl Bench<'_, '_, '_> {
    /// Does its work, and returns what is left. The Esc that leads to Vi's command mode is read
    /// first, where that is wanted, and the move that it stands for is not executed. Before a run
    /// nothing is drawn.
    fn does(&mut self, rt: &impl Abort, work: Work<'_>) -> Left {
        if !self.desk.killed.is_empty() {
            sure(rt, self.kills.kill(self.desk.killed, Side::Append));
        }
        if self.desk.takes_commands {
            let esc = KeyEvent(K::Esc, M::NONE);
            sure(rt, self.keys.press(esc));
            let read = self.state.next_cmd(&mut self.input, &mut self.keys, false);
            let _ = sure(rt, read);
            self.keys.mark();
        }
        if !matches!(&work, Work::Reads(Way::Run, _)) {
            sure(rt, self.state.refresh_line());
            if !self.is_drawn(rt) {
                self.amiss = UNDRAWN;
            }
        }
        let end = match work {
            Work::Reads(way, items) => self.reads(rt, way, items),
            Work::Executes(command, beside) => self.executes(rt, command, beside),
        };
        self.leaves(rt, end)
    }

    /// Hands items over, and reads where this way has it. How that ended.
    fn reads(&mut self, rt: &impl Abort, way: Way, items: &[Item]) -> &'static str {
        for index in 0..=items.len() {
            let is_read = match way {
                Way::OneByOne => index > 0,
                Way::CutAt(at) => index == at,
                Way::Run | Way::Turns => false,
            };
            self.given = index;
            if is_read || index == items.len() {
                let end = self.turns(rt, way);
                if !same(end, UNREAD) {
                    return end;
                }
            }
            let handed = match items.get(index) {
                Some(Item::Key(key)) => self.keys.press(*key),
                Some(Item::Paste(text)) => self.keys.paste(text),
                None => Ok(()),
            };
            sure(rt, handed);
        }
        "eof"
    }

    /// Runs, or makes turns until one does not proceed, from the mark on, and looks at what each
    /// left. Each reads an item at least. Returns how the last one ended.
    fn turns(&mut self, rt: &impl Abort, way: Way) -> &'static str {
        if matches!(way, Way::Run) {
            let (input, keys, kills) = (&mut self.input, &mut self.keys, &mut self.kills);
            return ended(&run(&mut self.state, input, keys, kills, &self.config));
        }
        self.keys.rewind();
        for _ in 0..70 {
            let before = (look(&self.state).screen.redraws(), self.keys.len());
            let (input, keys, kills) = (&mut self.input, &mut self.keys, &mut self.kills);
            let end = match advance(&mut self.state, input, keys, kills, &self.config) {
                Ok(Turned::Proceeds) => "proceeds",
                Ok(Turned::NeedsMore) => UNREAD,
                Ok(Turned::Submitted) => "submits",
                Ok(Turned::Ended) => "eof",
                Ok(Turned::Interrupted) => "interrupted",
                Err(error) => ended(&Err(error)),
            };
            self.amiss = self.sees(before);
            if !same(end, "proceeds") {
                return end;
            }
            self.keys.mark();
            if !self.is_drawn(rt) {
                self.amiss = UNDRAWN;
            }
        }
        "proceeds"
    }

    /// What is amiss after a turn that began with so many redraws and so many items unread.
    fn sees(&self, before: (u64, usize)) -> &'static str {
        let Seen {
            line,
            pos,
            place,
            layout: _,
            screen,
        } = look(&self.state);
        let read = before.1.saturating_sub(self.keys.len()) as u64;
        let drawn = screen.redraws().saturating_sub(before.0);
        if drawn > read.saturating_add(3) {
            "the number of redraws"
        } else if place > self.desk.entries.len() {
            "the place in the history"
        } else if !line.is_char_boundary(pos) {
            "the cursor"
        } else {
            self.amiss
        }
    }

    /// Executes a command. Whether it proceeds.
    fn makes(&mut self, rt: &impl Abort, command: Cmd) -> bool {
        let (input, kills) = (&self.input, &mut self.kills);
        let status = execute(command, &mut self.state, input, kills, &self.config);
        matches!(sure(rt, status), Status::Proceed)
    }

    /// The same, and looks at what is drawn then.
    fn proceeds(&mut self, rt: &impl Abort, command: Cmd) -> bool {
        let proceeds = self.makes(rt, command);
        if proceeds && !self.is_drawn(rt) {
            self.amiss = UNDRAWN;
        }
        proceeds
    }

    /// Executes commands that proceed: one with what is beside it.
    fn executes(&mut self, rt: &impl Abort, command: Cmd, beside: Beside) -> &'static str {
        let mut proceed = true;
        if matches!(beside, Beside::Typed) {
            for _ in 0..2 {
                proceed &= self.proceeds(rt, Cmd::SelfInsert(1, '-'));
            }
        }
        proceed &= self.proceeds(rt, command);
        if matches!(beside, Beside::Yanked) {
            proceed &= self.proceeds(rt, Cmd::Yank(1, Anchor::Before));
        }
        if proceed { "proceeds" } else { "submits" }
    }

    /// Whether the layout is a full redraw's with what stands after the line, and the screen shows
    /// the line after the prompt, with its cursor there.
    fn is_drawn(&self, rt: &impl Abort) -> bool {
        let Seen {
            line,
            pos,
            place: _,
            layout: kept,
            screen,
        } = look(&self.state);
        if !line.is_char_boundary(pos) {
            return false;
        }
        let buffer = sure(rt, LineBuffer::init(self.alloc, line, pos));
        let prompt_end = screen.calculate_position(self.desk.prompt, ORIGIN);
        let layout = screen.compute_layout(prompt_end, true, &buffer, screen.hint());
        let shows_so = same(screen.prompt(), self.desk.prompt) && same(screen.text(), line);
        let is_placed = screen.cursor() == kept.cursor && kept.prompt_size == prompt_end;
        let is_laid = kept.cursor == layout.cursor && kept.end == layout.end;
        shows_so && is_placed && is_laid && kept.has_info == layout.has_info
    }

    /// What is left after this end. Then all is taken back. What proceeded was looked at last.
    fn leaves(&mut self, rt: &impl Abort, end: &'static str) -> Left {
        if (self.keys.failures() > 0) != same(end, "fails") {
            self.amiss = "a failure of the reader";
        }
        let is_drawn = same(end, "proceeds") || self.is_drawn(rt);
        let Seen {
            line,
            pos,
            place,
            layout,
            screen,
        } = look(&self.state);
        let redraws = screen.redraws();
        let at = (layout.cursor.row, layout.cursor.col);
        let line = sure(rt, String::from_str(self.alloc, line));
        let _ = self.makes(rt, Cmd::Undo(65535));
        if !same(self.state.line(), self.desk.start.0) {
            self.amiss = "what was taken back";
        }
        let yanked = match self.kills.yank() {
            Some(text) => Some(sure(rt, String::from_str(self.alloc, text))),
            None => None,
        };
        Left {
            line,
            pos,
            place,
            yanked,
            at,
            redraws,
            end,
            given: self.given,
            is_drawn,
            amiss: self.amiss,
        }
    }
}
