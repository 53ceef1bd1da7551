//! Commands that are deferred to the program.
ghost use Rattle.std.specs.Prelude.{◌≡◌};
ghost use Rattle.line_editor.specs.Deferred.{deferred_by};
ghost use Rattle.line_keys.specs.Command.{command_of};

use line_keys::cmd::Cmd;

/// A command that is deferred to the program: `execute` does nothing for it.
#[derive(Clone, Copy, Debug, PartialEq, Eq)]
pub enum Deferred {
    /// Whatever was begun is given up.
    Abort,
    /// The word before the cursor is completed.
    Complete,
    /// The candidate before this one is shown.
    CompleteBackward,
    /// The history is searched towards its newest line.
    ForwardSearchHistory,
    /// The next key is put in as it is.
    QuotedInsert,
    /// The history is searched towards its oldest line.
    ReverseSearchHistory,
    /// The program is suspended.
    Suspend,
}

impl Deferred {
    /// Returns what a command defers to the program, if it defers anything.
    pub fn by(command: &Cmd) -> Option<Deferred>
        ensures { result ≡ deferred_by (command_of command.now) }
    {
        match command {
            Cmd::Abort => Some(Deferred::Abort),
            Cmd::Complete => Some(Deferred::Complete),
            Cmd::CompleteBackward => Some(Deferred::CompleteBackward),
            Cmd::ForwardSearchHistory => Some(Deferred::ForwardSearchHistory),
            Cmd::QuotedInsert => Some(Deferred::QuotedInsert),
            Cmd::ReverseSearchHistory => Some(Deferred::ReverseSearchHistory),
            Cmd::Suspend => Some(Deferred::Suspend),
            _ => None,
        }
    }
}
