//! Each call of those who are asked fails once, and each run answers the error of the one that
//! failed. Once nothing fails, what is left is drawn as an editor that is made of it draws it.

use super::bench::{self, Desk, Item, PLAIN, Seen, To, VI, bind_all, ended, items, look, shelf};
use crate::{holds, is, is_parted, same, sure};
use line_buffer::{GraphemeClusterMode, KillRing, Unit};
use line_config::{Config, ReadlineError, Result};
use line_editor::run::run;
use line_editor::{Bindings, InputState, State};
use line_keys::keys::{KeyCode as K, KeyEvent, Modifiers as M};
use line_keys::refresher::Refresher;
use line_parts::{Context, History};
use std::alloc::Global;
use std::io::ErrorKind;
use std::process::Abort;
use tests_parties::fault::{Fault, USUAL};
use tests_parties::guide::Guide;
use tests_steps::recorder::{self, Recorder};
use tests_steps::typist::{self, Typist};

type Editor<'out, 'prompt> = bench::Editor<'out, 'prompt, Recorder>;

// Who is asked in a run, by number: the handlers are one of each key and one of a sequence.
const OF_SCREEN: usize = 0;

const OF_READER: usize = 1;

const OF_HELPER: usize = 2;

const OF_EACH_KEY: usize = 3;

const OF_SEQUENCE: usize = 4;

const OF_HISTORY: usize = 5;

/// The faults by which these fail. No two are of one kind.
const FAULTS: [Fault; 6] = [
    Fault {
        kind: ErrorKind::PermissionDenied,
        text: recorder::CUT,
    },
    Fault {
        kind: ErrorKind::UnexpectedEof,
        text: typist::CUT,
    },
    Fault {
        kind: ErrorKind::Other,
        text: "the helper is asleep",
    },
    Fault {
        kind: ErrorKind::InvalidInput,
        text: "no key is handled",
    },
    Fault {
        kind: ErrorKind::NotFound,
        text: "no sequence is handled",
    },
    Fault {
        kind: ErrorKind::InvalidData,
        text: "the history is torn",
    },
];

/// A run: the desk with the edit mode, the history's lines and whether there are hints, and what is
/// typed; how it ends where nothing fails; the line that is left then with a bar at its cursor, the
/// history index, where the cursor is drawn, and how often all was drawn; and how many calls each
/// of those who are asked gets, by its number.
///
/// The reader is asked for each key, and once more where the input ends. The screen draws all, or
/// writes a character or moves the cursor. The helper is asked for a hint where the text changes or
/// all is drawn, and for a validation result by Enter. The handler of each key is asked for no key
/// of a count, and for no further key after an operator or of a sequence.
#[derive(Clone, Copy)]
struct Scene {
    desk: Desk,
    typed: &'static str,
    end: &'static str,
    left: &'static str,
    place: usize,
    at: (Unit, Unit),
    redraws: u64,
    calls: [u64; 6],
}

const OUT_AND_BACK: Scene = Scene {
    desk: Desk {
        entries: &["rustc", "cargo"],
        ..PLAIN
    },
    typed: "a⌥<⌥>\r",
    end: "submits",
    left: "a|",
    place: 2,
    at: (0, 3),
    redraws: 3,
    calls: [3 + 1, 4, 3 + 1 + 1, 4, 0, 1],
};

const COUNTED_KILL: Scene = Scene {
    desk: VI,
    typed: "a b c d e f g h\u{1b}02d3w",
    end: "eof",
    left: "|g h",
    place: 0,
    at: (0, 2),
    redraws: 6,
    calls: [6 + 15 + 2, 15 + 6 + 1, 6 + 15, 15 + 3, 0, 0],
};

/// The handler's move, and an undo by two keys that begin as the bound ones do.
const SEQUENCE: Scene = Scene {
    desk: PLAIN,
    typed: "q⌃Xa⌃X⌃U",
    end: "eof",
    left: "|",
    place: 0,
    at: (0, 2),
    redraws: 2,
    calls: [2 + 1 + 1, 5 + 1, 2 + 1, 3, 1, 0],
};

/// The history is asked for the hint of each line but the empty one.
const TAKEN_HINT: Scene = Scene {
    desk: Desk {
        entries: &["git status"],
        hints: true,
        ..PLAIN
    },
    typed: "git→\r",
    end: "submits",
    left: "git status|",
    place: 1,
    at: (0, 12),
    redraws: 5,
    calls: [5, 5, 5 + 1, 5, 0, 4],
};

/// The screen is asked for a drawing of each typed character, since a hint stands after it; for the
/// two moves; and for what goes and comes back.
const TO_THE_MATCH: Scene = Scene {
    desk: Desk {
        entries: &["(a)bc"],
        hints: true,
        ..VI
    },
    typed: "(a)\u{1b}%d%P",
    end: "eof",
    left: "(a|)",
    place: 1,
    at: (0, 4),
    redraws: 6,
    calls: [1 + 3 + 2 + 2, 8 + 1, 1 + 3 + 2, 7, 0, 3],
};

/// How a run is to end.
#[derive(Clone, Copy)]
enum Ending {
    Fails,
    Well,
    WellOrByMemory,
}

/// A scene; the number of the one whose call fails, and the call's number among that one's calls,
/// from 1 on, or 0 where none does; and how the run is to end.
#[derive(Clone, Copy)]
struct Take<'s> {
    scene: &'s Scene,
    party: usize,
    call: u64,
    ending: Ending,
}

impl Take<'_> {
    /// Which of the calls of one who is asked fails, and by which fault.
    fn failing(&self, party: usize) -> (u64, Fault) {
        let call = if self.party == party { self.call } else { 0 };
        (call, *FAULTS.get(party).unwrap_or(&USUAL))
    }
}

/// Plays a scene, and returns whether what is left is right.
fn plays(alloc: Global, take: Take<'_>) -> Result<bool> {
    let scene = take.scene;
    let mut history = shelf(alloc, scene.desk.entries)?;
    let (call, fault) = take.failing(OF_HISTORY);
    history.fail_by(call, fault);
    let mut screen = Recorder::new(alloc, 80, false, 0);
    screen.cut_at(take.failing(OF_SCREEN).0);
    let mut helper = Guide::new(scene.desk.hints, false);
    let (call, fault) = take.failing(OF_HELPER);
    helper.fail_by(call, fault);
    let context = Context::new(&history);
    // What is alive is dropped here once, and not in each arm.
    let is_right = match State::new(alloc, &mut screen, &"> ", Some(&mut helper), context) {
        Ok(state) => is_right(alloc, take, state),
        Err(error) => Err(error),
    };
    is_right
}

/// The keys of the sequence that is bound.
const BEHIND_X: &[KeyEvent] = &[
    KeyEvent(K::Char('X'), M::CTRL),
    KeyEvent(K::Char('a'), M::NONE),
];

/// Binds the handlers of the sequence and of each key, and makes a reader of what is typed.
fn prepared(alloc: Global, take: Take<'_>, bindings: &mut Bindings) -> Result<Typist> {
    let (call, fault) = take.failing(OF_SEQUENCE);
    let sequence = To::Asks(true, call, fault);
    let (call, fault) = take.failing(OF_EACH_KEY);
    let each_key = To::Asks(false, call, fault);
    bind_all(alloc, bindings, &[(BEHIND_X, sequence), (&[], each_key)])?;
    let mut typist = Typist::new(alloc);
    for item in items(alloc, take.scene.typed)?.as_slice() {
        if let Item::Key(key) = item {
            typist.press(&[*key])?;
        }
    }
    typist.cut_at(take.failing(OF_READER).0);
    Ok(typist)
}

/// Whether a run on what is typed ended as it is to end: by the fault of the one that failed, after
/// which the line is mended, or as it does where nothing fails, and left what the scene has.
fn is_right(alloc: Global, take: Take<'_>, mut state: Editor<'_, '_>) -> Result<bool> {
    let mut bindings = Bindings::new(alloc);
    let is_right = match prepared(alloc, take, &mut bindings) {
        Ok(mut typist) => {
            let config = Config::builder(GraphemeClusterMode::Unicode)
                .edit_mode(take.scene.desk.style)
                .build();
            let mut input = InputState::new(&config, &bindings);
            let mut kills = KillRing::new(alloc, 60);
            let outcome = run(&mut state, &mut input, &mut typist, &mut kills, &config);
            judged(alloc, take, &mut state, &outcome)
        }
        Err(error) => Err(error),
    };
    is_right
}

/// The same of a run with this outcome.
fn judged(
    alloc: Global,
    take: Take<'_>,
    state: &mut Editor<'_, '_>,
    outcome: &Result<()>,
) -> Result<bool> {
    let is_cut = match (take.ending, outcome) {
        (Ending::Fails, _) => {
            if !take.failing(take.party).1.is_answer(alloc, outcome)? {
                return Ok(false);
            }
            true
        }
        (Ending::WellOrByMemory, Err(ReadlineError::Memory)) => true,
        _ => false,
    };
    if is_cut {
        is_mended(alloc, take.scene, state)
    } else {
        Ok(is_left(take.scene, state, ended(outcome)))
    }
}

/// Whether a run that ended so left what the scene has.
fn is_left(scene: &Scene, state: &Editor<'_, '_>, end: &str) -> bool {
    let Seen {
        line,
        pos,
        place,
        layout,
        screen,
    } = look(state);
    let mut is_so = match line.split_at_checked(pos) {
        Some((before, behind)) => is_parted(before, behind, scene.left),
        None => false,
    };
    is_so &= layout.cursor.row == scene.at.0 && layout.cursor.col == scene.at.1;
    is_so &= screen.redraws() == scene.redraws;
    is_so && place == scene.place && same(end, scene.end)
}

/// Whether the place is within the history, and the line is drawn again as an editor that is made
/// of it draws it.
fn is_mended(alloc: Global, scene: &Scene, state: &mut Editor<'_, '_>) -> Result<bool> {
    state.refresh_line()?;
    let Seen {
        line,
        pos,
        place,
        layout: _,
        screen: _,
    } = look(state);
    let history = state.history();
    if place > scene.desk.entries.len() || place > history.len() || !line.is_char_boundary(pos) {
        return Ok(false);
    }
    let mut screen = Recorder::new(alloc, 80, false, 0);
    let mut helper = Guide::new(scene.desk.hints, false);
    let mut context = Context::new(history);
    context.set_history_index(place);
    let advisor = Some(&mut helper);
    let is_mended = match State::with_line(alloc, &mut screen, &"> ", advisor, context, line, pos) {
        Ok(anew) => draws_alike(anew, state),
        Err(error) => Err(error),
    };
    is_mended
}

/// Whether an editor that has drawn nothing draws what another one shows, on its screen too.
fn draws_alike(mut anew: Editor<'_, '_>, state: &Editor<'_, '_>) -> Result<bool> {
    anew.refresh_line()?;
    let is_hinted = anew.has_hint() == state.has_hint();
    let is_so = is_hinted && is(anew.hint_text(), state.hint_text());
    Ok(is_so && are_alike(look(&anew), look(state)))
}

/// Whether two editors have the same line, place and layout, and their screens show the same, and
/// were handed the same last.
fn are_alike(one: Seen<'_, Recorder>, other: Seen<'_, Recorder>) -> bool {
    let (kept, second) = (one.layout, other.layout);
    let mut is_so = kept.prompt_size == second.prompt_size;
    is_so &= kept.cursor == second.cursor && kept.end == second.end;
    is_so &= kept.has_info == second.has_info && kept.default_prompt == second.default_prompt;
    is_so &= kept.grapheme_cluster_mode == second.grapheme_cluster_mode;
    is_so &= same(one.line, other.line) && one.pos == other.pos && one.place == other.place;
    is_so &= match (
        handed_last(one.screen.log()),
        handed_last(other.screen.log()),
    ) {
        (Some((before, behind)), Some((front, rest))) => same(before, front) && same(behind, rest),
        _ => false,
    };
    let (text, place, origin) = one.screen.shows();
    let (shown, cursor, beginning) = other.screen.shows();
    is_so && same(text, shown) && place == cursor && origin == beginning
}

/// What a screen was handed last, before and after the old layout. A line of its log can miss its
/// end, where memory ran out.
fn handed_last(log: &str) -> Option<(&str, &str)> {
    let (_, last) = log.rsplit_once("draw ")?;
    let (before, rest) = last.split_once(" old ")?;
    let (_, behind) = rest.split_once(" new ")?;
    Some((before, behind))
}

const SCENES: &[Scene] = &[
    OUT_AND_BACK,
    COUNTED_KILL,
    SEQUENCE,
    TAKEN_HINT,
    TO_THE_MATCH,
];

/// Fails each call of those who are asked in a scene in turn, and the one after the last of each,
/// which is never made.
fn fails_each(rt: &impl Abort, alloc: Global, scene: &Scene) {
    for (party, calls) in scene.calls.iter().enumerate() {
        for call in 1..calls.saturating_add(2) {
            let ending = if call > *calls {
                Ending::Well
            } else {
                Ending::Fails
            };
            let take = Take {
                scene,
                party,
                call,
                ending,
            };
            let is_right = sure(rt, plays(alloc, take));
            holds(rt, is_right, scene.typed, call as usize);
        }
    }
}

#[test]
fn after_each_fault(rt: HostRuntime) {
    for scene in SCENES {
        fails_each(&rt, rt.alloc(), scene);
    }
}

/// Nothing fails in a scene: it ends well, and where an allocation is refused, by `Memory` alone.
#[test]
fn scenes_or_memory(rt: HostRuntime) {
    for scene in SCENES {
        let take = Take {
            scene,
            party: OF_SCREEN,
            call: 0,
            ending: Ending::WellOrByMemory,
        };
        let outcome = plays(rt.alloc(), take);
        let is_so = matches!(&outcome, Ok(true) | Err(ReadlineError::Memory));
        holds(&rt, is_so, scene.typed, 0);
    }
}
