//! The commands that keys stand for.
ghost use Rattle.std.specs.Prelude.{◌≡◌, IfOk, option_map, string_bytes};
ghost use Rattle.line_config.specs.Error.{MemoryOnly};
ghost use Rattle.line_keys.specs.Command.{command_of, resets_kill_ring};

use line_buffer::{Movement, RepeatCount};
use line_config::Result;
use std::alloc::Global;

/// Where a yanked text is put.
#[derive(Clone, Copy, Debug, PartialEq, Eq)]
pub enum Anchor {
    /// Puts the text after the cluster under the cursor.
    After,
    /// Puts the text before the cluster under the cursor.
    Before,
}

/// What the editor is asked to do. A count says how often, a movement how far.
#[derive(Debug, PartialEq, Eq, Drop)]
pub enum Cmd {
    /// Gives up what is in progress, as a search.
    Abort,
    /// Submits the line as it is.
    AcceptLine,
    /// Shows the oldest entry of the history.
    BeginningOfHistory,
    /// Makes the first character of the next word upper case, and the rest of it lower case.
    CapitalizeWord,
    /// Clears the screen and draws the line again.
    ClearScreen,
    /// Completes the word before the cursor.
    Complete,
    /// Goes back among the candidates of a completion.
    CompleteBackward,
    /// Puts the completion of the hint that is shown into the line.
    CompleteHint,
    /// Takes up to one step of indentation away from each line of the movement.
    Dedent(Movement),
    /// Makes the next word lower case.
    DowncaseWord,
    /// Ends the input on an empty line.
    EndOfFile,
    /// Leaves the history for the line that was being typed.
    EndOfHistory,
    /// Searches the history forward while a term is typed.
    ForwardSearchHistory,
    /// Shows the last entry before this one that begins with the text before the cursor.
    HistorySearchBackward,
    /// Shows the next entry that begins with the text before the cursor.
    HistorySearchForward,
    /// Indents each line of the movement by one step.
    Indent(Movement),
    /// Inserts the text so many times.
    Insert(RepeatCount, String),
    /// Gives up the line, as by Ctrl-C.
    Interrupt,
    /// Deletes the text of the movement, and puts it into the kill ring unless the movement is by
    /// single clusters.
    Kill(Movement),
    /// Moves the cursor.
    Move(Movement),
    /// Shows the next entry of the history.
    NextHistory,
    /// Does nothing.
    Noop,
    /// Draws the line again.
    Repaint,
    /// Puts the character in place of the cluster under the cursor.
    Overwrite(char),
    /// Shows the entry of the history before this one.
    PreviousHistory,
    /// Inserts the next key as it is typed.
    QuotedInsert,
    /// Puts so many copies of the character in place of as many clusters.
    ReplaceChar(RepeatCount, char),
    /// Kills the text of the movement, and inserts another where one is given.
    Replace(Movement, Option<String>),
    /// Searches the history backward while a term is typed.
    ReverseSearchHistory,
    /// Inserts the character so many times.
    SelfInsert(RepeatCount, char),
    /// Suspends the program, as by Ctrl-Z.
    Suspend,
    /// Exchanges the clusters before and under the cursor.
    TransposeChars,
    /// Exchanges the word that ends so many words on from the cursor with the one as many words
    /// before it.
    TransposeWords(RepeatCount),
    /// Undoes so many changes.
    Undo(RepeatCount),
    /// Does nothing: the command of a key that stands for no other.
    Unknown,
    /// Makes the next word upper case.
    UpcaseWord,
    /// Copies the text of the movement to the kill ring.
    ViYankTo(Movement),
    /// Inserts the text of the kill ring's current slot so many times.
    Yank(RepeatCount, Anchor),
    /// Puts the text that was killed before the yanked one in its place.
    YankPop,
    /// Goes so many lines up, or from the first line to the entry of the history before this one.
    LineUpOrPreviousHistory(RepeatCount),
    /// Goes so many lines down, or from the last line to the next entry of the history.
    LineDownOrNextHistory(RepeatCount),
    /// Inserts a newline.
    Newline,
    /// Submits the line where it is valid. Else inserts a newline, or shows the message of what is
    /// wrong with the line.
    AcceptOrInsertLine {
        /// Whether a valid line is submitted also where the cursor is not at its end.
        accept_in_the_middle: bool,
    },
    /// Moves the cursor to the bracket that matches the one at the cursor.
    MoveToBracket,
    /// Kills the text from the bracket at the cursor to the one that matches it, with both.
    KillToBracket,
    /// Kills that text, and inserts another where one is given.
    ReplaceToBracket(Option<String>),
    /// Copies that text to the kill ring.
    YankToBracket,
}

impl Cmd {
    /// Returns an equal command, whose text grows from `alloc`.
    ///
    /// # Errors
    /// `Memory` if memory runs out.
    pub fn clone(&self, alloc: Global) -> Result<Cmd>
        ensures equal { IfOk result (λ command. command_of command ≡ command_of self.now) }
        ensures memory { MemoryOnly result }
    {
        Ok(match self {
            Cmd::Abort => Cmd::Abort,
            Cmd::AcceptLine => Cmd::AcceptLine,
            Cmd::BeginningOfHistory => Cmd::BeginningOfHistory,
            Cmd::CapitalizeWord => Cmd::CapitalizeWord,
            Cmd::ClearScreen => Cmd::ClearScreen,
            Cmd::Complete => Cmd::Complete,
            Cmd::CompleteBackward => Cmd::CompleteBackward,
            Cmd::CompleteHint => Cmd::CompleteHint,
            Cmd::Dedent(movement) => Cmd::Dedent(movement.clone()?),
            Cmd::DowncaseWord => Cmd::DowncaseWord,
            Cmd::EndOfFile => Cmd::EndOfFile,
            Cmd::EndOfHistory => Cmd::EndOfHistory,
            Cmd::ForwardSearchHistory => Cmd::ForwardSearchHistory,
            Cmd::HistorySearchBackward => Cmd::HistorySearchBackward,
            Cmd::HistorySearchForward => Cmd::HistorySearchForward,
            Cmd::Indent(movement) => Cmd::Indent(movement.clone()?),
            Cmd::Insert(n, text) => Cmd::Insert(*n, String::from_str(alloc, text)?),
            Cmd::Interrupt => Cmd::Interrupt,
            Cmd::Kill(movement) => Cmd::Kill(movement.clone()?),
            Cmd::Move(movement) => Cmd::Move(movement.clone()?),
            Cmd::NextHistory => Cmd::NextHistory,
            Cmd::Noop => Cmd::Noop,
            Cmd::Repaint => Cmd::Repaint,
            Cmd::Overwrite(c) => Cmd::Overwrite(*c),
            Cmd::PreviousHistory => Cmd::PreviousHistory,
            Cmd::QuotedInsert => Cmd::QuotedInsert,
            Cmd::ReplaceChar(n, c) => Cmd::ReplaceChar(*n, *c),
            Cmd::Replace(movement, text) => Cmd::Replace(movement.clone()?, copied(alloc, text)?),
            Cmd::ReverseSearchHistory => Cmd::ReverseSearchHistory,
            Cmd::SelfInsert(n, c) => Cmd::SelfInsert(*n, *c),
            Cmd::Suspend => Cmd::Suspend,
            Cmd::TransposeChars => Cmd::TransposeChars,
            Cmd::TransposeWords(n) => Cmd::TransposeWords(*n),
            Cmd::Undo(n) => Cmd::Undo(*n),
            Cmd::Unknown => Cmd::Unknown,
            Cmd::UpcaseWord => Cmd::UpcaseWord,
            Cmd::ViYankTo(movement) => Cmd::ViYankTo(movement.clone()?),
            Cmd::Yank(n, anchor) => Cmd::Yank(*n, *anchor),
            Cmd::YankPop => Cmd::YankPop,
            Cmd::LineUpOrPreviousHistory(n) => Cmd::LineUpOrPreviousHistory(*n),
            Cmd::LineDownOrNextHistory(n) => Cmd::LineDownOrNextHistory(*n),
            Cmd::Newline => Cmd::Newline,
            Cmd::AcceptOrInsertLine {
                accept_in_the_middle,
            } => Cmd::AcceptOrInsertLine {
                accept_in_the_middle: *accept_in_the_middle,
            },
            Cmd::MoveToBracket => Cmd::MoveToBracket,
            Cmd::KillToBracket => Cmd::KillToBracket,
            Cmd::ReplaceToBracket(text) => Cmd::ReplaceToBracket(copied(alloc, text)?),
            Cmd::YankToBracket => Cmd::YankToBracket,
        })
    }

    /// Returns whether the kill ring is to be reset before this command, so that no killed text
    /// joins the one before.
    pub const fn should_reset_kill_ring(&self) -> bool
        ensures { result ≡ resets_kill_ring (command_of self.now) }
    {
        match self {
            Cmd::Kill(Movement::BackwardChar(_) | Movement::ForwardChar(_)) => true,
            Cmd::ClearScreen
            | Cmd::Kill(_)
            | Cmd::Replace(_, _)
            | Cmd::Noop
            | Cmd::Suspend
            | Cmd::Yank(_, _)
            | Cmd::YankPop
            | Cmd::KillToBracket
            | Cmd::ReplaceToBracket(_) => false,
            _ => true,
        }
    }
}

// Returns a copy of a text, if there is one.
fn copied(alloc: Global, text: &Option<String>) -> Result<Option<String>>
    ensures equal { IfOk result
        (λ copy. option_map string_bytes copy ≡ option_map string_bytes text.now) }
    ensures memory { MemoryOnly result }
{
    match text {
        Some(text) => Ok(Some(String::from_str(alloc, text)?)),
        None => Ok(None),
    }
}
