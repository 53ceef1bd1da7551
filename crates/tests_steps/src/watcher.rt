//! Handlers of bindings whose answers are set beforehand.
ghost use Rattle.std.specs.Prelude.{◌≡◌, length};
ghost use Rattle.line_editor.specs.Event.{chord_of, event_keys};
ghost use Rattle.tests_steps.specs.Watcher.{never_fails, watched};

use line_buffer::RepeatCount;
use line_config::{EditMode, ReadlineError, Result};
use line_editor::binding::{ConditionalEventHandler, Event, EventContext};
use line_keys::cmd::Cmd;
use line_keys::refresher::InputMode;
use std::alloc::Global;
use std::io::{Error, ErrorKind};

/// What a handler says where it fails.
pub const REFUSED: &str = "the handler is asleep";

/// What a handler answers.
#[derive(Clone, Copy, Drop)]
pub enum Watcher {
    /// Nothing.
    Nothing,
    /// A k that is inserted, where it is handed this count in this direction; else a command that
    /// does nothing.
    ForCount(RepeatCount, bool),
    /// A k that is inserted, where it is handed so many keys and shown a line of this length with
    /// the cursor at this place, with or without a hint; else nothing.
    At(usize, usize, usize, bool),
    /// A k that is inserted, where it is shown the edit mode of Emacs or not, the mode of inserting
    /// or not, and a hint of which so many bytes complete the line; else nothing.
    Sees(bool, bool, usize),
    /// An error of input or output.
    Fails,
}

impl ConditionalEventHandler for Watcher {
    ghost sure = { λ watcher. never_fails watcher };

    ghost answer = { λ watcher asked. watched watcher asked };

    fn handle(
        &self,
        alloc: Global,
        evt: &Event,
        n: RepeatCount,
        positive: bool,
        ctx: &EventContext<'_>,
    ) -> Result<Option<Cmd>> {
        let is_met = match self {
            Watcher::Nothing => false,
            Watcher::ForCount(wanted, forth) => n == *wanted && positive == *forth,
            Watcher::At(count, len, pos, hinted) => {
                let there = ctx.line().len() == *len && ctx.pos() == *pos;
                count_of(evt) == *count && there && ctx.has_hint() == *hinted
            }
            Watcher::Sees(emacs, inserting, len) => {
                let style = matches!(ctx.mode(), EditMode::Emacs) == *emacs;
                let mode = matches!(ctx.input_mode(), InputMode::Insert) == *inserting;
                style && mode && ctx.hint_text().unwrap_or("").len() == *len
            }
            Watcher::Fails => {
                return Err(ReadlineError::Io(Error::new(ErrorKind::PermissionDenied, REFUSED)));
            }
        };
        if is_met {
            return Ok(Some(Cmd::Insert(1, String::from_str(alloc, "k")?)));
        }
        Ok(match self {
            Watcher::ForCount(..) => Some(Cmd::Noop),
            _ => None,
        })
    }
}

/// How many keys an event has.
fn count_of(event: &Event) -> usize
    ensures { result ≡ length (event_keys (chord_of event.now)) }
{
    match event {
        Event::KeySeq(keys) => keys.len(),
        _ => 0,
    }
}
