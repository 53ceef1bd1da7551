//! The screen, by what it shows.

use crate::{holds, is, same, sure};
use line_buffer::{LineBuffer, Position, Unit};
use line_screen::{KeyQueue, Plain};
use line_state::Renderer;
use std::alloc::Global;
use std::process::Abort;

/// A call of the screen. A line is drawn in full, with the cursor at this place in it, after a
/// prompt and before a hint. The last makes two calls that are as the trait has them: nothing is
/// held back.
enum Call {
    Draw(&'static str, usize, &'static str, Option<&'static str>),
    Move(Unit, Unit),
    Write(&'static str),
    ClearToEnd,
    Clear,
    HoldBack,
}

/// A line of two rows with something after it.
const DRAW: Call = Call::Draw("ab\nc", 3, "> ", Some("de"));

const DRAW_PLAIN: Call = Call::Draw("é", 2, "", None);

fn called(rt: &impl Abort, alloc: Global, screen: &mut Plain<KeyQueue>, call: &Call) {
    let answer = match call {
        Call::Draw(text, pos, prompt, hint) => {
            assert!(rt; text.is_char_boundary(*pos));
            let line = sure(rt, LineBuffer::init(alloc, text, *pos));
            let prompt_end = screen.calculate_position(prompt, Position { row: 0, col: 0 });
            let layout = screen.compute_layout(prompt_end, true, &line, *hint);
            screen.refresh_line(prompt, &line, *hint, None, &layout, None::<&()>)
        }
        Call::Move(row, col) => {
            let place = Position {
                row: *row,
                col: *col,
            };
            screen.move_cursor(screen.cursor(), place)
        }
        Call::Write(text) => screen.write_and_flush(text),
        Call::ClearToEnd => screen.clear_to_eol(),
        Call::Clear => screen.clear_screen(),
        Call::HoldBack => {
            sure(rt, screen.begin_synchronized_update());
            screen.end_synchronized_update()
        }
    };
    sure(rt, answer);
}

/// What a screen shows: the text, with the row and the column of its cursor, the prompt and the
/// hint.
type Shown = (
    &'static str,
    (Unit, Unit),
    &'static str,
    Option<&'static str>,
);

/// Calls, what the screen shows then, and how many full redraws there were.
type Case = (&'static [Call], Shown, u64);

const CALLS: &[Case] = &[
    (&[], ("", (0, 0), "", None), 0),
    (&[DRAW], ("ab\nc", (1, 0), "> ", Some("de")), 1),
    (
        &[DRAW, Call::Move(1, 1), Call::Write("x")],
        ("ab\ncx", (1, 2), "> ", Some("de")),
        1,
    ),
    (
        &[DRAW, Call::ClearToEnd],
        ("ab\n", (1, 0), "> ", Some("de")),
        1,
    ),
    (
        &[DRAW, Call::Move(1, 1), Call::ClearToEnd],
        ("ab\nc", (1, 1), "> ", Some("de")),
        1,
    ),
    (&[DRAW, Call::Clear], ("", (0, 0), "", None), 1),
    (
        &[DRAW, Call::HoldBack],
        ("ab\nc", (1, 0), "> ", Some("de")),
        1,
    ),
    (&[DRAW, DRAW_PLAIN], ("é", (0, 1), "", None), 2),
    (&[DRAW_PLAIN, DRAW], ("ab\nc", (1, 0), "> ", Some("de")), 2),
];

#[test]
fn keeps_what_it_shows(rt: HostRuntime) {
    for (calls, (text, place, prompt, hint), redraws) in CALLS {
        let mut screen: Plain<KeyQueue> = Plain::new(rt.alloc(), 10);
        for call in *calls {
            called(&rt, rt.alloc(), &mut screen, call);
        }
        let cursor = screen.cursor();
        let mut is_so = same(screen.text(), text);
        is_so &= cursor.row == place.0 && cursor.col == place.1;
        is_so &= same(screen.prompt(), prompt) && is(screen.hint(), *hint);
        is_so &= screen.redraws() == *redraws && screen.get_columns() == 10;
        holds(&rt, is_so, text, calls.len());
    }
}
