//! Lists of candidates, in columns and by pages, above the line.
ghost use Rattle.std.specs.Prelude.{◌≡◌, ◌<◌, None, Some, true, IfOk, OnOk};
ghost use Rattle.line_config.specs.Error.{FaultsOnly, MemoryOnly};
ghost use Rattle.line_keys.specs.Model.Frame.{Frame};
ghost use Rattle.line_session.specs.Completing.{EndsList, Lists, ListsPage, ListsRows, Replies, reply_by, reply_of, reply_to_more, reply_to_question, unctrled};
ghost use Rattle.line_session.specs.Taken.{IsShownIn, item_as_it_is};

use crate::modal::Modal;
use crate::mode::{AsItIs, Mode};
use line_config::{Config, Result};
use line_keys::editor_state::EditorState;
use line_keys::keys::{KeyCode, KeyEvent, Modifiers};
use line_keys::refresher::Refresher;
use line_parts::completion::Pair;

/// Candidates that are listed row by row: down the first column, then down the next.
pub struct Listing {
    /// The candidates, in the helper's order.
    pub candidates: Vec<Pair>,
    /// How wide a column of the list is, in columns of the screen.
    width: usize,
    /// How many columns the list has.
    columns: usize,
    /// How many rows it has.
    pub rows: usize,
    /// The row that is listed next; None where it was asked whether to list at all.
    pub next: Option<usize>,
}

impl Drop for Listing {
    fn drop(self) {
        let Listing {
            candidates: _,
            width: _,
            columns: _,
            rows: _,
            next: _,
        } = self;
    }
}

/// What a key says to a list.
#[derive(Clone, Copy, Debug, PartialEq, Eq)]
pub enum Reply {
    /// To list a page: one row fewer than the screen has, and at least one.
    Page,
    /// To list one row.
    Row,
    /// To list nothing more.
    Stop,
    /// Nothing.
    Nothing,
}

/// Lists candidates above the line; where they are more than the settings' limit, it asks first.
///
/// # Errors
/// `Io` if the output, the helper or the history fails, and `Memory` if memory runs out. The line,
/// its changes and the hint may then be any, and so may what the screen shows. A part of the list
/// may have been written: draw the line again, below it.
pub(crate) fn list<E: Modal>(candidates: Vec<Pair>, state: &mut E, config: &Config) -> Result<Mode>
    ensures lists { IfOk result (Lists config.now (E.environment state.old) candidates
        (E.draft state.old) (E.draft state.new)) }
    ensures shown { IfOk result (λ mode. IsShownIn E.EditorState mode state.new) }
    ensures frame { Frame E.EditorState state.old state.new }
    ensures faults { FaultsOnly result }
{
    let asks = config.completion_prompt_limit() < candidates.as_slice().len();
    let listing = Listing::new(candidates, state);
    if asks {
        return listing.ask(state);
    }
    listing.list_page(state)
}

impl Listing {
    /// Returns a list of candidates on a screen.
    fn new<E: Modal>(candidates: Vec<Pair>, state: &E) -> Listing
        ensures candidates { result.candidates ≡ candidates }
        ensures next { result.next ≡ None }
    {
        let screen_columns = state.columns();
        let mut widest = 0;
        for candidate in &candidates {
            widest = widest.max(width_of(candidate, state));
        }
        let width = screen_columns.min(widest.saturating_add(2));
        let columns = screen_columns / width;
        let rows = candidates.len() / columns + usize::from(candidates.len() % columns > 0);
        Listing {
            candidates,
            width,
            columns,
            rows,
            next: None,
        }
    }

    /// Asks whether to list the candidates.
    fn ask<E: Modal>(self, state: &mut E) -> Result<Mode>
        ensures asks { IfOk result (λ mode. (mode ≡ Mode.Listing self) ×
            (E.draft state.new ≡ E.draft state.old)) }
        ensures frame { Frame E.EditorState state.old state.new }
        ensures faults { FaultsOnly result }
    {
        let alloc = *self.candidates.allocator();
        let count = self.candidates.len();
        let question = format!(in alloc; "Display all {count} possibilities? (y or n)")?;
        write_above(question.as_str(), state)?;
        Ok(Mode::Listing(self))
    }

    /// Answers an item: lists more, or ends the list and draws the line below it.
    ///
    /// # Errors
    /// As `list`: the line, its changes and the hint may be any. A part of the list may have been
    /// written: draw the line again, below it.
    pub(crate) fn answer<E: Modal>(self, item: &AsItIs, state: &mut E) -> Result<Mode>
        ensures reply { IfOk result (Replies (E.environment state.old) self
            (reply_by self.next (item_as_it_is item.now)) (E.draft state.old) (E.draft state.new)) }
        ensures shown { IfOk result (λ mode. IsShownIn E.EditorState mode state.new) }
        ensures frame { Frame E.EditorState state.old state.new }
        ensures faults { FaultsOnly result }
    {
        match reply_by(self.next, item) {
            Reply::Page => self.list_page(state),
            Reply::Row => self.list_rows(1, state),
            Reply::Stop => end(state),
            Reply::Nothing => Ok(Mode::Listing(self)),
        }
    }

    /// Lists a page more.
    fn list_page<E: Modal>(self, state: &mut E) -> Result<Mode>
        ensures lists { IfOk result (ListsPage (E.environment state.old) self (E.draft state.old)
            (E.draft state.new)) }
        ensures shown { IfOk result (λ mode. IsShownIn E.EditorState mode state.new) }
        ensures frame { Frame E.EditorState state.old state.new }
        ensures faults { FaultsOnly result }
    {
        self.list_rows(state.rows().saturating_sub(1).max(1), state)
    }

    /// Lists so many rows more, or as many as there are. Below the last row of the list the line is
    /// drawn.
    fn list_rows<E: Modal>(self, count: usize, state: &mut E) -> Result<Mode>
        ensures lists { IfOk result (ListsRows (E.environment state.old) self count
            (E.draft state.old) (E.draft state.new)) }
        ensures shown { IfOk result (λ mode. IsShownIn E.EditorState mode state.new) }
        ensures frame { Frame E.EditorState state.old state.new }
        ensures faults { FaultsOnly result }
    {
        let from = self.next.unwrap_or(0);
        let until = from.saturating_add(count).min(self.rows);
        write_above("", state)?;
        let text = self.text(state, from, until)?;
        write_above(text.as_str(), state)?;
        if until < self.rows {
            return Ok(self.paused(until));
        }
        end(state)
    }

    /// Returns the mode of a list that goes on with this row.
    fn paused(self, next: usize) -> Mode
        ensures { result ≡ Mode.Listing (record self { next = Some next }) }
    {
        let Listing {
            candidates,
            width,
            columns,
            rows,
            next: _,
        } = self;
        Mode::Listing(Listing {
            candidates,
            width,
            columns,
            rows,
            next: Some(next),
        })
    }

    /// Returns the text of the rows from one to before another, each on a line of its own; and
    /// where these are not the last, `--More--` below them.
    fn text<E: Modal>(&self, state: &E, from: usize, until: usize) -> Result<String>
        ensures memory { MemoryOnly result }
    {
        let mut text = String::new(*self.candidates.allocator());
        for row in from..until {
            self.push_row(&mut text, state, row)?;
            text.push('\n')?;
        }
        if until < self.rows {
            text.push_str("--More--")?;
        }
        Ok(text)
    }

    /// Appends a row: the candidates that stand in it, each of them but the last filled up with
    /// blanks to the width of a column.
    fn push_row<E: Modal>(&self, text: &mut String, state: &E, row: usize) -> Result<()>
        ensures memory { MemoryOnly result }
    {
        let mut index = row;
        let mut blanks = 0;
        for _ in 0..self.columns {
            if let Some(candidate) = self.candidates.get(index) {
                push_blanks(text, blanks)?;
                text.push_str(candidate.display.as_str())?;
                blanks = self.width.saturating_sub(width_of(candidate, state));
            }
            index = index.saturating_add(self.rows);
        }
        Ok(())
    }
}

/// Appends so many blanks.
fn push_blanks(text: &mut String, count: usize) -> Result<()>
    ensures memory { MemoryOnly result }
{
    for _ in 0..count {
        text.push(' ')?;
    }
    Ok(())
}

/// Returns how many columns of a screen a candidate takes in a list: all of them, where it needs
/// more than a row.
fn width_of<E: Modal>(candidate: &Pair, state: &E) -> usize {
    let end = state.end_of(candidate.display.as_str());
    if end.row > 0 {
        return state.columns();
    }
    end.col.into()
}

/// Writes a text above the line, which is to be drawn below it. Where that fails, the cursor goes
/// below what was written, if it can.
fn write_above<E: Modal>(text: &str, state: &mut E) -> Result<()>
    ensures draft { E.draft state.new ≡ E.draft state.old }
    ensures frame { Frame E.EditorState state.old state.new }
    ensures faults { FaultsOnly result }
{
    match state.write_above(text) {
        Ok(()) => Ok(()),
        Err(error) => {
            let _ = state.move_cursor_at_leftmost();
            Err(error)
        }
    }
}

/// Ends a list: draws the line below it.
fn end<E: Modal>(state: &mut E) -> Result<Mode>
    ensures ends { IfOk result (EndsList (E.environment state.old) (E.draft state.old)
        (E.draft state.new)) }
    ensures shown { IfOk result (λ mode. IsShownIn E.EditorState mode state.new) }
    ensures frame { Frame E.EditorState state.old state.new }
    ensures faults { FaultsOnly result }
{
    write_above("", state)?;
    state.refresh_line()?;
    Ok(Mode::Editing)
}

/// Returns the reply of an item to a list that goes on with a row, or to the question whether to
/// list.
fn reply_by(next: Option<usize>, item: &AsItIs) -> Reply
    ensures { result ≡ reply_by next (item_as_it_is item.now) }
{
    match item {
        AsItIs::Text(_) => Reply::Nothing,
        AsItIs::Key(KeyEvent(code, modifiers)) => {
            if *modifiers == Modifiers::NONE {
                return reply_of(next, *code);
            }
            if *modifiers == Modifiers::CTRL {
                return reply_of(next, unctrled(*code));
            }
            Reply::Nothing
        }
    }
}

/// Returns the key that one with Ctrl is read as: C-j as Enter.
fn unctrled(code: KeyCode) -> KeyCode
    ensures { result ≡ unctrled code }
{
    match code {
        KeyCode::Char('J') => KeyCode::Enter,
        _ => KeyCode::Null,
    }
}

/// Returns the reply of a key to the question, or to `--More--`.
fn reply_of(next: Option<usize>, code: KeyCode) -> Reply
    ensures { result ≡ reply_of next code }
{
    match next {
        None => reply_to_question(code),
        Some(_) => reply_to_more(code),
    }
}

/// Returns the reply of a key to the question whether to list.
fn reply_to_question(code: KeyCode) -> Reply
    ensures { result ≡ reply_to_question code }
{
    match code {
        KeyCode::Char('y') | KeyCode::Char('Y') => Reply::Page,
        KeyCode::Char('n') | KeyCode::Char('N') | KeyCode::Backspace => Reply::Stop,
        _ => Reply::Nothing,
    }
}

/// Returns the reply of a key to `--More--`.
fn reply_to_more(code: KeyCode) -> Reply
    ensures { result ≡ reply_to_more code }
{
    match code {
        KeyCode::Char('y') | KeyCode::Char('Y') | KeyCode::Char(' ') => Reply::Page,
        KeyCode::Char('n') | KeyCode::Char('N') | KeyCode::Char('q') | KeyCode::Char('Q') => {
            Reply::Stop
        }
        KeyCode::Backspace => Reply::Stop,
        KeyCode::Enter => Reply::Row,
        _ => Reply::Nothing,
    }
}
