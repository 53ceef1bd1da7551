//! The settings of a session.
ghost use Rattle.std.specs.Prelude.{◌≡◌, IfOk, if◌then◌else◌};
ghost use Rattle.line_host.specs.Settings.{config_of, is_yes};
ghost use Rattle.line_config.specs.Error.{MemoryOnly};

use line_buffer::{GraphemeClusterMode, Unit};
use line_config::{ColorMode, CompletionType, Config, Configurer, EditMode, Result};

/// The settings of a session, as a host hands them over. Of those that are yes or no, 0 says no,
/// and any other number yes.
#[repr(C)]
#[derive(Clone, Copy, Debug)]
pub struct Settings {
    /// How many lines the history keeps.
    pub max_history_size: usize,
    /// How many candidates are listed without asking.
    pub completion_prompt_limit: usize,
    /// The columns of the terminal, at least one.
    pub columns: Unit,
    /// The rows of the terminal.
    pub rows: Unit,
    /// Whether keys stand for the commands of Vi, not of Emacs.
    pub vi: u8,
    /// Whether candidates are listed, not gone through.
    pub list_completions: u8,
    /// Whether they are listed at the first Tab.
    pub show_all_if_ambiguous: u8,
    /// Whether there are hints from the history.
    pub hints: u8,
    /// Whether Enter breaks a line in which a bracket is open, and the match of a bracket is lit.
    pub brackets: u8,
    /// Whether colors are shown.
    pub colors: u8,
    /// Whether submitted lines go into the history.
    pub auto_add_history: u8,
    /// Whether a line that equals the newest one is left out.
    pub history_ignore_dups: u8,
    /// Whether a line that begins with white space is left out.
    pub history_ignore_space: u8,
    /// Whether the terminal is asked to mark pasted texts.
    pub bracketed_paste: u8,
    /// Whether the terminal is asked to show each redraw at once.
    pub synchronized_output: u8,
    /// How many spaces a step of indentation has.
    pub indent_size: u8,
}

impl Settings {
    /// Returns the settings of the editor.
    pub(crate) fn config(&self) -> Result<Config>
        ensures config { IfOk result (λ config. config ≡ config_of self.now) }
        ensures memory { MemoryOnly result }
    {
        let builder = Config::builder(GraphemeClusterMode::Unicode)
            .max_history_size(self.max_history_size)?
            .history_ignore_dups(is_yes(self.history_ignore_dups))?
            .history_ignore_space(is_yes(self.history_ignore_space))
            .completion_type(self.completion_type())
            .completion_prompt_limit(self.completion_prompt_limit)
            .completion_show_all_if_ambiguous(is_yes(self.show_all_if_ambiguous))
            .edit_mode(self.edit_mode())
            .auto_add_history(is_yes(self.auto_add_history))
            .color_mode(self.color_mode())
            .indent_size(self.indent_size)
            .bracketed_paste(is_yes(self.bracketed_paste));
        let mut config = builder.build();
        Configurer::enable_synchronized_output(&mut config, is_yes(self.synchronized_output));
        Ok(config)
    }

    /// Returns how candidates are offered.
    fn completion_type(&self) -> CompletionType
        ensures { result ≡ (if is_yes self.now.list_completions then CompletionType.List
            else CompletionType.Circular) }
    {
        if is_yes(self.list_completions) {
            CompletionType::List
        } else {
            CompletionType::Circular
        }
    }

    /// Returns the edit mode.
    fn edit_mode(&self) -> EditMode
        ensures { result ≡ (if is_yes self.now.vi then EditMode.Vi else EditMode.Emacs) }
    {
        if is_yes(self.vi) {
            EditMode::Vi
        } else {
            EditMode::Emacs
        }
    }

    /// Returns whether colors are shown.
    fn color_mode(&self) -> ColorMode
        ensures { result ≡ (if is_yes self.now.colors then ColorMode.Enabled
            else ColorMode.Disabled) }
    {
        if is_yes(self.colors) {
            ColorMode::Enabled
        } else {
            ColorMode::Disabled
        }
    }
}

/// Returns whether a number says yes.
pub fn is_yes(number: u8) -> bool
    ensures { result ≡ is_yes number }
{
    number != 0
}
