//! Searches through the history: a term grows and shrinks, and the line of the history that
//! contains it is shown.
ghost use Rattle.std.specs.Prelude.{◌≡◌, true, false, None, Some, if◌then◌else◌, option_and_then, string_bytes, IfOk, OnOk};
ghost use Rattle.line_config.specs.Error.{FaultsOnly, MemoryOnly};
ghost use Rattle.line_keys.specs.Command.{command_of};
ghost use Rattle.line_keys.specs.Model.Draft.{hinted};
ghost use Rattle.line_keys.specs.Model.Drawing.{Undrawn};
ghost use Rattle.line_keys.specs.Model.Frame.{Frame};
ghost use Rattle.line_parts.specs.History.{search_in};
ghost use Rattle.line_session.specs.Searching.{Searches, BeginsSearch, IsShownBehind, ShowsSearch, before_search, extended, gone_on, grown_by, led_to, next_place, next_start, place_put, search_cmd, search_value, search_prompt, shortened};
ghost use Rattle.line_session.specs.Taken.{IsLineShown, IsShownIn};

use crate::modal::Modal;
use crate::mode::Mode;
use line_buffer::Movement;
use line_config::Result;
use line_keys::cmd::Cmd;
use line_keys::editor_state::EditorState;
use line_keys::refresher::Refresher;
use line_parts::history::SearchDirection;

/// Where a search stands.
#[derive(Clone, Copy)]
pub struct Place {
    /// The index of the history's line.
    pub index: usize,
    /// Where the term begins that was found in that line, a byte offset; None where none was found
    /// yet.
    pub pos: Option<usize>,
    /// Whether the last search for the term failed: what was found before is shown then.
    pub failed: bool,
}

/// A search that is under way.
pub struct Searching {
    /// The term.
    pub term: String,
    /// Where it stands.
    pub place: Place,
    /// Where it stood with each shorter term, from the empty one on.
    pub shorter: Vec<Place>,
    /// Its direction.
    pub direction: SearchDirection,
    /// The cursor from before, a byte offset of the line from before.
    pub pos: usize,
    /// The history index from before.
    pub index: usize,
    /// Whether the changes have grown by the line that is shown.
    pub grown: bool,
}

impl Drop for Searching {
    fn drop(self) {
        let Searching {
            term: _,
            place: _,
            shorter: _,
            direction: _,
            pos: _,
            index: _,
            grown: _,
        } = self;
    }
}

/// What a command says to a search.
#[derive(Clone, Copy, Debug, PartialEq, Eq)]
pub enum SearchCmd {
    /// The term gets a character.
    Extend(char),
    /// The term loses its last character.
    Shorten,
    /// The search goes on in a direction, from the line beside the one where it stands.
    GoOn(SearchDirection),
    /// The line from before is shown.
    GiveUp,
}

impl SearchCmd {
    /// Returns what a command says to a search, if it says anything: any other one ends it.
    pub(crate) fn by(command: &Cmd) -> Option<SearchCmd>
        ensures { result ≡ search_cmd (command_of command.now) }
    {
        match command {
            Cmd::SelfInsert(_, c) => Some(SearchCmd::Extend(*c)),
            Cmd::Kill(Movement::BackwardChar(_)) => Some(SearchCmd::Shorten),
            Cmd::ReverseSearchHistory => Some(SearchCmd::GoOn(SearchDirection::Reverse)),
            Cmd::ForwardSearchHistory => Some(SearchCmd::GoOn(SearchDirection::Forward)),
            Cmd::Abort => Some(SearchCmd::GiveUp),
            _ => None,
        }
    }
}

/// Begins a search in a direction, at the history's newest line, and shows its prompt. In an empty
/// history it only beeps.
///
/// # Errors
/// `Io` if the output, the helper or the history fails, and `Memory` if memory runs out. The line,
/// its changes and the hint may then be any, and so may what the screen shows.
pub(crate) fn search<E: Modal>(direction: SearchDirection, state: &mut E) -> Result<Mode>
    requires { IsLineShown E.EditorState state.old }
    ensures begins { IfOk result (BeginsSearch (E.environment state.old) direction
        (E.draft state.old) (E.draft state.new)) }
    ensures shown { IfOk result (λ mode. IsShownIn E.EditorState mode state.new) }
    ensures frame { Frame E.EditorState state.old state.new }
    ensures faults { FaultsOnly result }
{
    let count = state.history_len();
    if count == 0 {
        state.beep()?;
        return Ok(Mode::Editing);
    }
    let alloc = state.allocator();
    let searching = Searching {
        term: String::new(alloc),
        place: Place {
            index: count - 1,
            pos: None,
            failed: false,
        },
        shorter: Vec::new(alloc),
        direction,
        pos: state.pos(),
        index: state.place(),
        grown: false,
    };
    searching.draw(state)?;
    Ok(Mode::Searching(searching))
}

impl Searching {
    /// Does what a command says to the search, and draws. Returns what the next items are read as.
    ///
    /// # Errors
    /// `Io` if the output, the helper or the history fails, and `Memory` if memory runs out. The
    /// line, its changes and the hint may then be any, and so may what the screen shows.
    pub(crate) fn take<E: Modal>(mut self, command: SearchCmd, state: &mut E) -> Result<Mode>
        ensures takes { IfOk result (Searches (E.environment state.old) (search_value self) command
            (E.draft state.old) (E.draft state.new)) }
        ensures shown { IfOk result (λ mode. IsShownIn E.EditorState mode state.new) }
        ensures frame { Frame E.EditorState state.old state.new }
        ensures faults { FaultsOnly result }
    {
        match command {
            SearchCmd::GiveUp => self.give_up(state),
            other => {
                self.lead(other, state)?;
                self.show(state)
            }
        }
    }

    // Leads the search to where a command says, unless that gives it up.
    fn lead<E: Modal>(&mut self, command: SearchCmd, state: &E) -> Result<()>
        ensures led { OnOk result (search_value self.new
            ≡ led_to (E.environment state.now) command (search_value self.old)) }
        ensures faults { FaultsOnly result }
    {
        match command {
            SearchCmd::Extend(c) => self.extend(c, state),
            SearchCmd::Shorten => {
                self.shorten();
                Ok(())
            }
            SearchCmd::GoOn(direction) => self.go_on(direction, state),
            SearchCmd::GiveUp => Ok(()),
        }
    }

    // The term gets a character: the search goes on from the line where it stands, that line
    // included.
    fn extend<E: Modal>(&mut self, c: char, state: &E) -> Result<()>
        ensures extended { OnOk result (search_value self.new
            ≡ extended (E.environment state.now) c (search_value self.old)) }
        ensures faults { FaultsOnly result }
    {
        let before = self.place;
        self.term.push(c)?;
        self.shorter.push(before)?;
        self.place = self.seek(Some(before.index), self.direction, state)?;
        Ok(())
    }

    // The term loses its last character: the search stands where it stood with the shorter one. The
    // empty term stays.
    fn shorten(&mut self)
        ensures { search_value self.new ≡ shortened (search_value self.old) }
    {
        if let Some(place) = self.shorter.pop() {
            self.term.pop();
            self.place = place;
        }
    }

    // The search goes on in a direction, from the line beside the one where it stands.
    fn go_on<E: Modal>(&mut self, direction: SearchDirection, state: &E) -> Result<()>
        ensures goes { OnOk result (search_value self.new
            ≡ gone_on (E.environment state.now) direction (search_value self.old)) }
        ensures faults { FaultsOnly result }
    {
        let start = next_start(direction, state.history_len(), self.place.index);
        self.place = self.seek(start, direction, state)?;
        self.direction = direction;
        Ok(())
    }

    // Returns where the search stands once it goes on from a line, that line included: where it
    // finds its term, there, and else where it stood before.
    fn seek<E: Modal>(
        &self,
        start: Option<usize>,
        direction: SearchDirection,
        state: &E,
    ) -> Result<Place>
        ensures seeks { let term = string_bytes self.now.term in
            IfOk result (λ place. place ≡ next_place self.now.place (option_and_then
            (λ start. search_in (E.environment state.now).lines term start direction) start)) }
        ensures faults { FaultsOnly result }
    {
        let failed = Place {
            failed: true,
            ..self.place
        };
        let Some(start) = start else {
            return Ok(failed);
        };
        let Some(found) = state.search_history(self.term.as_str(), start, direction)? else {
            return Ok(failed);
        };
        Ok(Place {
            index: found.idx,
            pos: Some(found.pos),
            failed: false,
        })
    }

    // Gives up the search: shows the line from before, with its cursor, as the line of the history
    // that it was.
    fn give_up<E: Modal>(self, state: &mut E) -> Result<Mode>
        ensures gives { IfOk result (Searches (E.environment state.old) (search_value self)
            SearchCmd.GiveUp (E.draft state.old) (E.draft state.new)) }
        ensures shown { IfOk result (λ mode. IsShownIn E.EditorState mode state.new) }
        ensures frame { Frame E.EditorState state.old state.new }
        ensures faults { FaultsOnly result }
    {
        self.take_back(state)?;
        state.refresh_line()?;
        Ok(Mode::Editing)
    }

    // Shows the line that was found, or the one from before, after the prompt of the search.
    fn show<E: Modal>(mut self, state: &mut E) -> Result<Mode>
        ensures shows { IfOk result (ShowsSearch (E.environment state.old) (search_value self)
            (before_search (E.environment state.old) (search_value self) (E.draft state.old))
            (E.draft state.new)) }
        ensures shown { IfOk result (λ mode. IsShownIn E.EditorState mode state.new) }
        ensures frame { Frame E.EditorState state.old state.new }
        ensures faults { FaultsOnly result }
    {
        self.take_back(state)?;
        self.grown = self.place.put(state)?;
        self.draw(state)?;
        Ok(Mode::Searching(self))
    }

    // Puts the line from before in place of the one that is shown, with its cursor, as the line of
    // the history that it was.
    fn take_back<E: Modal>(&self, state: &mut E) -> Result<()>
        ensures draft { OnOk result (E.draft state.new
            ≡ before_search (E.environment state.old) (search_value self.now) (E.draft state.old)) }
        ensures still { Undrawn E.EditorState state.old state.new }
        ensures memory { MemoryOnly result }
    {
        if self.grown {
            state.take_back()?;
        }
        state.return_to(self.pos, self.index);
        Ok(())
    }

    /// Draws the line after the prompt of the search.
    ///
    /// # Errors
    /// `Io` if the output, the helper or the history fails, and `Memory` if memory runs out. The
    /// line, its changes and the hint may then be any, and so may what the screen shows.
    pub(crate) fn draw<E: Modal>(&self, state: &mut E) -> Result<()>
        ensures draft { OnOk result (E.draft state.new ≡ hinted (E.environment state.old)
            (E.draft state.old)) }
        ensures drawn { OnOk result (IsShownBehind (search_prompt (search_value self.now))
            (E.display state.new) (E.draft state.new)) }
        ensures frame { Frame E.EditorState state.old state.new }
        ensures faults { FaultsOnly result }
    {
        let prompt = self.prompt()?;
        state.refresh_prompt_and_line(prompt.as_str())
    }

    // Returns the prompt of the search.
    fn prompt(&self) -> Result<String>
        ensures text { IfOk result (λ text.
            string_bytes text ≡ search_prompt (search_value self.now)) }
        ensures memory { MemoryOnly result }
    {
        let mut prompt = String::new(*self.shorter.allocator());
        prompt.push_str(if self.place.failed {
            "(failed reverse-i-search)`"
        } else {
            "(reverse-i-search)`"
        })?;
        prompt.push_str(self.term.as_str())?;
        prompt.push_str("': ")?;
        Ok(prompt)
    }
}

impl Place {
    // Puts the line that was found in the line's place, with the cursor where the term begins.
    // Returns whether the changes have grown by it.
    fn put<E: Modal>(self, state: &mut E) -> Result<bool>
        ensures draft { OnOk result (E.draft state.new
            ≡ place_put (E.environment state.old) self (E.draft state.old)) }
        ensures grown { IfOk result (λ grown.
            grown ≡ grown_by (E.environment state.old) self (E.draft state.old)) }
        ensures still { Undrawn E.EditorState state.old state.new }
        ensures faults { FaultsOnly result }
    {
        match self.pos {
            Some(pos) => state.put_entry(pos, self.index),
            None => Ok(false),
        }
    }
}

// Returns where a search that stands at one of so many lines goes on: backward at the line before
// it, if there is one; forward at the line after it, where past the newest line nothing is found.
fn next_start(direction: SearchDirection, count: usize, index: usize) -> Option<usize>
    ensures { result ≡ next_start direction count index }
{
    match direction {
        SearchDirection::Reverse if index > 0 => Some(index - 1),
        SearchDirection::Forward if index < count => Some(index + 1),
        _ => None,
    }
}
