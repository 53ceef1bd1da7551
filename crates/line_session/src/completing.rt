//! Completions: candidates come into the line one after another, or as far as they agree.
ghost use Rattle.std.specs.Prelude.{◌≡◌, ◌-◌, ◌==◌, ◌||◌, nat_lt, true, false, [], length, map, option_map, if◌then◌else◌, IfOk, OnOk};
ghost use Rattle.line_config.specs.Error.{FaultsOnly, MemoryOnly};
ghost use Rattle.line_editor.specs.Completing.{taken_back_once};
ghost use Rattle.line_keys.specs.Model.Frame.{Frame};
ghost use Rattle.line_parts.specs.Candidate.{offer_of, pair_offer};
ghost use Rattle.line_session.specs.Completing.{Agree, BeginsCompletion, Elects, GivesUp, GoesOnTo, PutsInCommon, ShowsCandidate, index_before, index_behind};
ghost use Rattle.line_session.specs.Taken.{IsLineShown, IsShownIn};

use crate::listing::list;
use crate::modal::Modal;
use crate::mode::Mode;
use line_config::{CompletionType, Config, Result};
use line_keys::editor_state::EditorState;
use line_keys::refresher::Refresher;
use line_parts::completion::{Candidate, Pair, longest_common_prefix};
use std::alloc::Global;

/// Candidates that are gone through.
pub struct Completing {
    /// Where the completed part of the line begins: a byte offset.
    pub start: usize,
    /// The candidates, in the helper's order.
    pub candidates: Vec<Pair>,
    /// The index of the shown candidate; where the line from before is shown, how many candidates
    /// there are.
    pub shown: usize,
    /// Whether the changes have grown by the shown one.
    pub grown: bool,
}

impl Drop for Completing {
    fn drop(self) {
        let Completing {
            start: _,
            candidates: _,
            shown: _,
            grown: _,
        } = self;
    }
}

/// Asks the helper for candidates; where it has none, it beeps. By the settings it shows the first
/// one, to go through them; or puts in what all of them begin with, which is all of a single one.
/// Several beep then, and are listed at once or at another Tab.
///
/// # Errors
/// `Io` if the output, the helper or the history fails, and `Memory` if memory runs out. The line,
/// its changes and the hint may then be any, and so may what the screen shows.
pub(crate) fn complete<E: Modal>(state: &mut E, config: &Config) -> Result<Mode>
    requires { IsLineShown E.EditorState state.old }
    ensures begins { IfOk result (BeginsCompletion config.now (E.environment state.old)
        (E.draft state.old) (E.draft state.new)) }
    ensures shown { IfOk result (λ mode. IsShownIn E.EditorState mode state.new) }
    ensures frame { Frame E.EditorState state.old state.new }
    ensures faults { FaultsOnly result }
{
    let (start, candidates) = state.completions()?;
    let candidates = pairs(&candidates)?;
    if is_nothing(&candidates) {
        state.beep()?;
        return Ok(Mode::Editing);
    }
    match config.completion_type() {
        CompletionType::List => complete_in_common(start, candidates, state, config),
        CompletionType::Circular => {
            let shown = candidates.len();
            let before = Completing {
                start,
                candidates,
                shown,
                grown: false,
            };
            before.show(0, state)
        }
    }
}

/// Returns whether there is no candidate.
fn is_nothing(candidates: &[Pair]) -> bool
    ensures nothing { result ≡ true → candidates.now ≡ [] }
    ensures some { result ≡ false → candidates.now ≡ [] → ⊥ }
{
    candidates.is_empty()
}

/// Returns candidates as pairs of texts.
fn pairs<C: Candidate>(candidates: &Vec<C>) -> Result<Vec<Pair>>
    ensures pairs { IfOk result (λ pairs.
        map pair_offer pairs.items ≡ map (offer_of C.Candidate) candidates.now.items) }
    ensures memory { MemoryOnly result }
{
    let alloc = *candidates.allocator();
    let mut pairs = Vec::new(alloc);
    for candidate in candidates {
        pairs.push(pair(alloc, candidate)?)?;
    }
    Ok(pairs)
}

/// Returns a candidate as a pair of texts.
fn pair<C: Candidate>(alloc: Global, candidate: &C) -> Result<Pair>
    ensures pair { IfOk result (λ pair. pair_offer pair ≡ offer_of C.Candidate candidate.now) }
    ensures memory { MemoryOnly result }
{
    Ok(Pair {
        display: String::from_str(alloc, candidate.display())?,
        replacement: String::from_str(alloc, candidate.replacement())?,
    })
}

/// Puts candidates in as far as they agree. A single one is done then; several beep, and are listed
/// at once or at another Tab.
fn complete_in_common<E: Modal>(
    start: usize,
    candidates: Vec<Pair>,
    state: &mut E,
    config: &Config,
) -> Result<Mode>
    requires { IsLineShown E.EditorState state.old }
    ensures puts { IfOk result (PutsInCommon config.now (E.environment state.old) start candidates
        (E.draft state.old) (E.draft state.new)) }
    ensures shown { IfOk result (λ mode. IsShownIn E.EditorState mode state.new) }
    ensures frame { Frame E.EditorState state.old state.new }
    ensures faults { FaultsOnly result }
{
    agree(start, &candidates, state)?;
    if candidates.len() == 1 {
        return Ok(Mode::Editing);
    }
    state.beep()?;
    if config.completion_show_all_if_ambiguous() {
        return list(candidates, state, config);
    }
    Ok(Mode::Offering(candidates))
}

/// Puts in what candidates begin with in common, where that is longer than what stands there, or
/// all of the only one.
fn agree<E: Modal>(start: usize, candidates: &[Pair], state: &mut E) -> Result<()>
    requires { IsLineShown E.EditorState state.old }
    ensures agree { OnOk result (Agree (E.environment state.old) start candidates.now
        (E.draft state.old) (E.draft state.new)) }
    ensures shown { OnOk result (IsLineShown E.EditorState state.new) }
    ensures frame { Frame E.EditorState state.old state.new }
    ensures faults { FaultsOnly result }
{
    let Some(common) = longest_common_prefix(candidates) else {
        return Ok(());
    };
    if is_put_in(state.pos(), start, common, candidates.len()) {
        elect(start, common, state)?;
    }
    Ok(())
}

/// Returns whether what so many candidates begin with in common replaces what stands from `start`
/// to the cursor.
fn is_put_in(cursor: usize, start: usize, common: &str, count: usize) -> bool
    ensures { result ≡ (nat_lt (cursor - start) (length common.now) || (count == 1)) }
{
    cursor.saturating_sub(start) < common.len() || count == 1
}

/// Puts in the text of an elected candidate, and draws the line. Returns whether the changes have
/// grown by it.
fn elect<E: Modal>(start: usize, elected: &str, state: &mut E) -> Result<bool>
    ensures elects { IfOk result (λ grown. Elects (E.environment state.old) start elected.now grown
        (E.draft state.old) (E.draft state.new)) }
    ensures shown { OnOk result (IsLineShown E.EditorState state.new) }
    ensures frame { Frame E.EditorState state.old state.new }
    ensures faults { FaultsOnly result }
{
    let grown = state.update_completion(start, elected)?;
    state.refresh_line()?;
    Ok(grown)
}

impl Completing {
    /// Shows the candidate after the shown one: the line from before follows the last one, and then
    /// the first one.
    ///
    /// # Errors
    /// `Io` if the output, the helper or the history fails, and `Memory` if memory runs out. The
    /// line, its changes and the hint may then be any, and so may what the screen shows.
    pub(crate) fn show_next<E: Modal>(self, state: &mut E) -> Result<Mode>
        ensures goes { IfOk result (GoesOnTo (E.environment state.old) self (index_behind self)
            (E.draft state.old) (E.draft state.new)) }
        ensures shown { IfOk result (λ mode. IsShownIn E.EditorState mode state.new) }
        ensures frame { Frame E.EditorState state.old state.new }
        ensures faults { FaultsOnly result }
    {
        let index = if self.shown < self.candidates.len() {
            self.shown + 1
        } else {
            0
        };
        self.show(index, state)
    }

    /// Shows the candidate before the shown one, the other way round.
    ///
    /// # Errors
    /// As `show_next`: the line, its changes and the hint may be any, and so may what the screen
    /// shows.
    pub(crate) fn show_previous<E: Modal>(self, state: &mut E) -> Result<Mode>
        ensures goes { IfOk result (GoesOnTo (E.environment state.old) self (index_before self)
            (E.draft state.old) (E.draft state.new)) }
        ensures shown { IfOk result (λ mode. IsShownIn E.EditorState mode state.new) }
        ensures frame { Frame E.EditorState state.old state.new }
        ensures faults { FaultsOnly result }
    {
        let index = if self.shown == 0 {
            self.candidates.len()
        } else {
            self.shown - 1
        };
        self.show(index, state)
    }

    /// Shows the candidate at an index in place of the shown one; past the last one, with a beep,
    /// the line from before.
    fn show<E: Modal>(self, index: usize, state: &mut E) -> Result<Mode>
        ensures goes { IfOk result (GoesOnTo (E.environment state.old) self index
            (E.draft state.old) (E.draft state.new)) }
        ensures shown { IfOk result (λ mode. IsShownIn E.EditorState mode state.new) }
        ensures frame { Frame E.EditorState state.old state.new }
        ensures faults { FaultsOnly result }
    {
        let Completing {
            start,
            candidates,
            shown: _,
            grown,
        } = self;
        take_back(grown, state)?;
        let grown = show(start, candidates.get(index), state)?;
        Ok(Mode::Completing(Completing {
            start,
            candidates,
            shown: index,
            grown,
        }))
    }

    /// Gives up the candidates: shows the line from before them.
    ///
    /// # Errors
    /// `Io` if the output, the helper or the history fails, and `Memory` if memory runs out. The
    /// line, its changes and the hint may then be any, and so may what the screen shows.
    pub(crate) fn give_up<E: Modal>(self, state: &mut E) -> Result<Mode>
        ensures gives { IfOk result (GivesUp (E.environment state.old) self (E.draft state.old)
            (E.draft state.new)) }
        ensures shown { IfOk result (λ mode. IsShownIn E.EditorState mode state.new) }
        ensures frame { Frame E.EditorState state.old state.new }
        ensures faults { FaultsOnly result }
    {
        take_back(self.grown, state)?;
        state.refresh_line()?;
        Ok(Mode::Editing)
    }
}

/// Takes the change of the shown candidate back, if the changes have grown by it. Nothing is drawn.
fn take_back<E: Modal>(grown: bool, state: &mut E) -> Result<()>
    ensures draft { OnOk result (E.draft state.new
        ≡ (if grown then taken_back_once (E.draft state.old) else E.draft state.old)) }
    ensures frame { Frame E.EditorState state.old state.new }
    ensures faults { FaultsOnly result }
{
    if grown {
        state.take_back()?;
    }
    Ok(())
}

/// Shows a candidate, or, with a beep, the line as it is. Returns whether the changes have grown by
/// it.
fn show<E: Modal>(start: usize, candidate: Option<&Pair>, state: &mut E) -> Result<bool>
    ensures shows { IfOk result (λ grown. ShowsCandidate (E.environment state.old) start
        (option_map (λ pair. pair.now) candidate.entry) grown (E.draft state.old)
        (E.draft state.new)) }
    ensures shown { OnOk result (IsLineShown E.EditorState state.new) }
    ensures frame { Frame E.EditorState state.old state.new }
    ensures faults { FaultsOnly result }
{
    match candidate {
        Some(candidate) => elect(start, candidate.replacement(), state),
        None => {
            state.beep()?;
            state.refresh_line()?;
            Ok(false)
        }
    }
}
