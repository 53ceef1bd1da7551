//! Laws of the definitions that the contracts cite. No call of the editor is made here.
ghost use Rattle.line_editor.specs.BracketLaws.{GoingToTheMatchTwice, KilledToTheMatchComesBack};
ghost use Rattle.line_editor.specs.Laws.{ComingBack, EnoughUndo, ExecutesNoMoreThanKeys, HasOneEnd, InsertionIsOneStep, ReadFromTheCut, ReadingAgain, TurnsAndRun, TurnsBeforeMore, TurnsFollow, TurnsReadKeys, TwoRenderers};

use crate::edit::State;
use line_config::Prompt;
pub use line_input::laws::{
    each_key_begins_a_phrase, events_are_compared_by_value, phrases_are_prefix_free,
    what_a_cut_drew_is_drawn_again,
};
use line_keys::editor_state::EditorState;
use line_parts::{Helper, History};
use line_state::Renderer;

/// From one editor, one input and one list of items there is at most one run: it ends in one way,
/// and leaves one line, history index, kill ring and input value, and the same items unread.
pub fn runs_have_one_end()
    ensures { HasOneEnd }
{}

/// A run executes at most as many commands as it reads keys.
pub fn a_run_executes_no_more_commands_than_keys()
    ensures { ExecutesNoMoreThanKeys }
{}

/// Turns that proceed read at least one key each. With what `run` says of the turn that failed, a
/// run that a fault ends has executed at most as many commands as it read keys, too.
pub fn turns_read_keys<
    'out,
    'prompt,
    W: Renderer + 'out,
    H: Helper + 'out,
    P: Prompt + 'prompt,
    S: History + 'out,
>()
    ensures { TurnsReadKeys ⟦<State<'out, 'prompt, W, H, P, S> as EditorState>⟧ W.Reader.RawReader }
{}

/// Turns that proceed, and more such turns after them, are one list of turns.
pub fn turns_follow_each_other()
    ensures { TurnsFollow }
{}

/// Turns that proceed leave unread what stands after their items. So turns over items that arrived
/// in parts are one list of turns over all of them.
pub fn turns_leave_more_unread()
    ensures { TurnsBeforeMore }
{}

/// Turns that proceed, and a run after them, are one run.
pub fn turns_and_a_run_are_a_run()
    ensures { TurnsAndRun }
{}

/// Where a phrase was cut short, reading it again with more items after it makes the whole phrase's
/// turn: where the cut left the hint as it was, the phrase begins with a count, or it has another
/// count and the bindings asked before that look at no hint.
pub fn reading_again_gives_the_turn()
    ensures { ReadingAgain }
{}

/// A turn read from the draft that a cut left is the whole phrase's turn from the draft before it:
/// where the cut left the hint as it was, the phrase begins with a count, or it has another count
/// and the bindings asked before that look at no hint.
pub fn a_turn_read_again_is_the_whole_phrases()
    ensures { ReadFromTheCut }
{}

/// An undo of at least as many steps as there are changes leaves the text that taking back all of
/// them gives.
pub fn enough_undo_gives_the_start()
    ensures { EnoughUndo }
{}

/// In Vi's command mode, with no group of changes open and none of these keys bound: one of the
/// keys a, A, i and I, then keys of characters without modifiers, at least one, and Esc, and then u
/// leave the text that was there before.
pub fn an_insertion_is_one_step()
    ensures { InsertionIsOneStep }
{}

/// Where no command searches the history, the line that is being written comes back from the
/// history as it was left, with its cursor, whatever was edited in between.
pub fn coming_back_restores_the_line()
    ensures { ComingBack }
{}

/// `MoveToBracket`, executed twice, leaves the draft as it was, if the bracket at the cursor and
/// its match begin their clusters.
pub fn going_to_the_match_twice_comes_back()
    ensures { GoingToTheMatchTwice }
{}

/// `KillToBracket` at a bracket that has a match, and then `Yank(1, Before)`, leave the text as it
/// was, if the kill ring has a slot at least and the last action was no kill.
pub fn what_is_killed_to_the_match_comes_back()
    ensures { KilledToTheMatchComesBack }
{}

/// Two runs over renderers of the same prompt end and cluster mode, which start alike, leave the
/// same line, cursor, history index, kill ring and outcome, whatever the columns and colors are.
pub fn two_renderers_leave_the_same<
    'out,
    'prompt,
    W: Renderer + 'out,
    V: Renderer + 'out,
    H: Helper + 'out,
    P: Prompt + 'prompt,
    S: History + 'out,
>()
    ensures { TwoRenderers ⟦<State<'out, 'prompt, W, H, P, S> as EditorState>⟧ W.Reader.RawReader
        ⟦<State<'out, 'prompt, V, H, P, S> as EditorState>⟧ V.Reader.RawReader }
{}
