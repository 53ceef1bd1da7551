//! The settings of a line editor: how they are set, and read back.
ghost use Rattle.std.specs.Prelude.{⊤, ◌≡◌, IsOk, IsOkAnd, option_map};

use crate::error::Result;
use line_buffer::GraphemeClusterMode;
use std::alloc::AllocError;
use std::marker::Model;

/// How the terminal beeps.
#[derive(Clone, Copy, Debug, Default, PartialEq, Eq)]
pub enum BellStyle {
    /// Sounds the terminal's bell.
    #[default]
    Audible,
    /// Neither sounds nor flashes.
    None,
    /// Flashes the screen.
    Visible,
}

/// What becomes of a line that equals the newest entry of the history.
#[derive(Clone, Copy, Debug, PartialEq, Eq)]
pub enum HistoryDuplicates {
    /// Adds the line like any other.
    AlwaysAdd,
    /// Leaves the line out of the history.
    IgnoreConsecutive,
}

/// How the candidates of a completion are offered.
#[derive(Clone, Copy, Debug, PartialEq, Eq)]
pub enum CompletionType {
    /// Puts the candidates into the line one after another, the next one at each Tab.
    Circular,
    /// Completes the longest common prefix of the candidates, and then lists them.
    List,
}

/// The edit mode: which commands the keys stand for.
#[derive(Clone, Copy, Debug, PartialEq, Eq)]
pub enum EditMode {
    /// Gives the keys the commands of Emacs.
    Emacs,
    /// Gives the keys the commands of Vi, with its modes.
    Vi,
}

/// On which terminals colors are shown.
#[derive(Clone, Copy, Debug, PartialEq, Eq)]
pub enum ColorMode {
    /// Shows colors where the terminal supports them.
    Enabled,
    /// Shows colors on every terminal.
    Forced,
    /// Shows no colors.
    Disabled,
}

/// Where a line is read from, and where it is drawn.
#[derive(Clone, Copy, Debug, Default, PartialEq, Eq)]
pub enum Behavior {
    /// Uses standard input and standard output.
    #[default]
    Stdio,
    /// Uses the terminal where there is one, also where standard input or output is redirected.
    PreferTerm,
}

/// The settings of a line editor. They are values to be read back: what a setting does is up to the
/// code that reads it.
#[derive(Debug, Drop, PartialEq, Eq)]
pub struct Config {
    max_history_size: usize,
    history_duplicates: HistoryDuplicates,
    history_ignore_space: bool,
    completion_type: CompletionType,
    completion_prompt_limit: usize,
    completion_show_all_if_ambiguous: bool,
    keyseq_timeout: Option<u16>,
    edit_mode: EditMode,
    auto_add_history: bool,
    bell_style: BellStyle,
    color_mode: ColorMode,
    grapheme_cluster_mode: GraphemeClusterMode,
    behavior: Behavior,
    tab_stop: u8,
    indent_size: u8,
    check_cursor_position: bool,
    enable_bracketed_paste: bool,
    enable_synchronized_output: bool,
    enable_signals: bool,
}

impl Model for Config {
    ghost use Rattle.line_config.specs.Settings.{Settings};

    ghost Value = { Settings };

    ghost view = { λ c. record {
      max_history_size = c.max_history_size;
      history_duplicates = c.history_duplicates;
      history_ignore_space = c.history_ignore_space;
      completion_type = c.completion_type;
      completion_prompt_limit = c.completion_prompt_limit;
      completion_show_all_if_ambiguous = c.completion_show_all_if_ambiguous;
      keyseq_timeout = c.keyseq_timeout;
      edit_mode = c.edit_mode;
      auto_add_history = c.auto_add_history;
      bell_style = c.bell_style;
      color_mode = c.color_mode;
      grapheme_cluster_mode = c.grapheme_cluster_mode;
      behavior = c.behavior;
      tab_stop = c.tab_stop;
      indent_size = c.indent_size;
      check_cursor_position = c.check_cursor_position;
      enable_bracketed_paste = c.enable_bracketed_paste;
      enable_synchronized_output = c.enable_synchronized_output;
      enable_signals = c.enable_signals;
    } };

    ghost inverse = { λ c. record {
      max_history_size = c.max_history_size;
      history_duplicates = c.history_duplicates;
      history_ignore_space = c.history_ignore_space;
      completion_type = c.completion_type;
      completion_prompt_limit = c.completion_prompt_limit;
      completion_show_all_if_ambiguous = c.completion_show_all_if_ambiguous;
      keyseq_timeout = c.keyseq_timeout;
      edit_mode = c.edit_mode;
      auto_add_history = c.auto_add_history;
      bell_style = c.bell_style;
      color_mode = c.color_mode;
      grapheme_cluster_mode = c.grapheme_cluster_mode;
      behavior = c.behavior;
      tab_stop = c.tab_stop;
      indent_size = c.indent_size;
      check_cursor_position = c.check_cursor_position;
      enable_bracketed_paste = c.enable_bracketed_paste;
      enable_synchronized_output = c.enable_synchronized_output;
      enable_signals = c.enable_signals;
    } };
}

impl Clone for Config {
    ghost is_clone = { λ config copy. copy ≡ config };

    ghost is_infallible = { λ _. ⊤ };

    fn clone(&self) -> std::result::Result<Self, AllocError> {
        Ok(Config { ..*self })
    }
}

impl Config {
    ghost use Rattle.line_config.specs.Settings.{defaults, colors_under};

    /// Returns a builder that begins with the defaults, with clusters measured by `mode`.
    pub fn builder(mode: GraphemeClusterMode) -> Builder
        ensures { result ≡ defaults mode }
    {
        Builder::new(mode)
    }

    /// Returns the default settings, with clusters measured by `mode`.
    pub fn new(mode: GraphemeClusterMode) -> Self
        ensures { result ≡ defaults mode }
    {
        Config {
            max_history_size: 100,
            history_duplicates: HistoryDuplicates::IgnoreConsecutive,
            history_ignore_space: false,
            completion_type: CompletionType::Circular,
            completion_prompt_limit: 100,
            completion_show_all_if_ambiguous: false,
            keyseq_timeout: None,
            edit_mode: EditMode::Emacs,
            auto_add_history: false,
            bell_style: BellStyle::Audible,
            color_mode: ColorMode::Enabled,
            grapheme_cluster_mode: mode,
            behavior: Behavior::Stdio,
            tab_stop: 8,
            indent_size: 2,
            check_cursor_position: false,
            enable_bracketed_paste: true,
            enable_synchronized_output: true,
            enable_signals: false,
        }
    }

    /// Returns the greatest number of lines that the history keeps. The default is 100.
    pub fn max_history_size(&self) -> usize
        ensures { result ≡ self.now.max_history_size }
    {
        self.max_history_size
    }

    /// Returns what becomes of a line that equals the newest entry of the history. The default is
    /// `IgnoreConsecutive`.
    pub fn history_duplicates(&self) -> HistoryDuplicates
        ensures { result ≡ self.now.history_duplicates }
    {
        self.history_duplicates
    }

    /// Returns whether a line that begins with white space is left out of the history. The default
    /// is false.
    pub fn history_ignore_space(&self) -> bool
        ensures { result ≡ self.now.history_ignore_space }
    {
        self.history_ignore_space
    }

    /// Returns how the candidates of a completion are offered. The default is `Circular`.
    pub fn completion_type(&self) -> CompletionType
        ensures { result ≡ self.now.completion_type }
    {
        self.completion_type
    }

    /// Returns how many candidates are listed without asking the user first. The default is 100.
    pub fn completion_prompt_limit(&self) -> usize
        ensures { result ≡ self.now.completion_prompt_limit }
    {
        self.completion_prompt_limit
    }

    /// Returns whether the candidates are listed at the first Tab, and not at the second. The
    /// default is false.
    pub fn completion_show_all_if_ambiguous(&self) -> bool
        ensures { result ≡ self.now.completion_show_all_if_ambiguous }
    {
        self.completion_show_all_if_ambiguous
    }

    /// Returns how many milliseconds the rest of a key sequence is waited for; None means no limit.
    /// The default is None.
    pub fn keyseq_timeout(&self) -> Option<u16>
        ensures { result ≡ self.now.keyseq_timeout }
    {
        self.keyseq_timeout
    }

    /// Returns the edit mode. The default is `Emacs`.
    pub fn edit_mode(&self) -> EditMode
        ensures { result ≡ self.now.edit_mode }
    {
        self.edit_mode
    }

    /// Returns whether each submitted line is added to the history. The default is false.
    pub fn auto_add_history(&self) -> bool
        ensures { result ≡ self.now.auto_add_history }
    {
        self.auto_add_history
    }

    /// Returns how the terminal beeps. The default is `Audible`.
    pub fn bell_style(&self) -> BellStyle
        ensures { result ≡ self.now.bell_style }
    {
        self.bell_style
    }

    /// Returns on which terminals colors are shown. The default is `Enabled`.
    ///
    /// `no_color` is the value of the environment variable `NO_COLOR`: where there is one and it is
    /// not empty, `Enabled` becomes `Disabled`.
    pub fn color_mode(&self, no_color: Option<&str>) -> ColorMode
        ensures { result ≡ colors_under self.now.color_mode
            (option_map (λ value. value.now) no_color.entry) }
    {
        match (self.color_mode, no_color) {
            (ColorMode::Enabled, Some(value)) if !value.is_empty() => ColorMode::Disabled,
            (mode, _) => mode,
        }
    }

    /// Returns how the columns of a text are counted. There is no default: `new` takes the mode.
    pub fn grapheme_cluster_mode(&self) -> GraphemeClusterMode
        ensures { result ≡ self.now.grapheme_cluster_mode }
    {
        self.grapheme_cluster_mode
    }

    /// Returns where a line is read from, and where it is drawn. The default is `Stdio`.
    pub fn behavior(&self) -> Behavior
        ensures { result ≡ self.now.behavior }
    {
        self.behavior
    }

    /// Returns how many columns a tab takes. The default is 8.
    pub fn tab_stop(&self) -> u8
        ensures { result ≡ self.now.tab_stop }
    {
        self.tab_stop
    }

    /// Returns how many spaces one step of indentation has. The default is 2.
    pub fn indent_size(&self) -> u8
        ensures { result ≡ self.now.indent_size }
    {
        self.indent_size
    }

    /// Returns whether the cursor is brought to the first column before the prompt is drawn. The
    /// default is false.
    pub fn check_cursor_position(&self) -> bool
        ensures { result ≡ self.now.check_cursor_position }
    {
        self.check_cursor_position
    }

    /// Returns whether the terminal is asked to mark pasted text. The default is true.
    pub fn enable_bracketed_paste(&self) -> bool
        ensures { result ≡ self.now.enable_bracketed_paste }
    {
        self.enable_bracketed_paste
    }

    /// Returns whether the terminal is asked to show each redraw at once. The default is true.
    pub fn enable_synchronized_output(&self) -> bool
        ensures { result ≡ self.now.enable_synchronized_output }
    {
        self.enable_synchronized_output
    }

    /// Returns whether the terminal turns keys such as Ctrl-C into signals. The default is false.
    pub fn enable_signals(&self) -> bool
        ensures { result ≡ self.now.enable_signals }
    {
        self.enable_signals
    }
}

/// A holder of settings, which lets them be set.
pub trait Configurer {
    ghost use Rattle.std.specs.Borrow.{sem, Lends};
    ghost use Rattle.line_config.specs.Settings.{Settings, duplicates_of, timeout_of};
    ghost use Rattle.line_config.specs.contracts.config.Config.{the_row as config_row};

    // The settings.
    ghost settings: { Self → Settings };

    // The value with other settings, and all else as it is.
    ghost with_settings: { Self → Settings → Self };

    /// Returns the settings, to be changed in place.
    fn config_mut(&mut self) -> &mut Config
        ensures* lends { sem 𝓛
            (Lends Self.row config_row self.entry result (with_settings self.old)) }
        ensures value { result.now ≡ settings self.old };

    /// Sets the greatest number of lines that the history keeps.
    ///
    /// # Errors
    ///
    /// There are none: the result is always Ok.
    fn set_max_history_size(&mut self, max_size: usize) -> Result<()>
        ensures ok { IsOk result }
        ensures set { self.new ≡ with_settings self.old
            (record (settings self.old) { max_history_size = max_size }) }
    {
        let config = self.config_mut();
        config.max_history_size = max_size;
        Ok(())
    }

    /// Sets whether a line that equals the newest entry of the history is left out of it.
    ///
    /// # Errors
    ///
    /// There are none: the result is always Ok.
    fn set_history_ignore_dups(&mut self, yes: bool) -> Result<()>
        ensures ok { IsOk result }
        ensures set { self.new ≡ with_settings self.old
            (record (settings self.old) { history_duplicates = duplicates_of yes }) }
    {
        let config = self.config_mut();
        config.history_duplicates = if yes {
            HistoryDuplicates::IgnoreConsecutive
        } else {
            HistoryDuplicates::AlwaysAdd
        };
        Ok(())
    }

    /// Sets whether a line that begins with white space is left out of the history.
    fn set_history_ignore_space(&mut self, yes: bool)
        ensures { self.new ≡ with_settings self.old
            (record (settings self.old) { history_ignore_space = yes }) }
    {
        let config = self.config_mut();
        config.history_ignore_space = yes;
    }

    /// Sets how the candidates of a completion are offered.
    fn set_completion_type(&mut self, completion_type: CompletionType)
        ensures { self.new ≡ with_settings self.old
            (record (settings self.old) { completion_type = completion_type }) }
    {
        let config = self.config_mut();
        config.completion_type = completion_type;
    }

    /// Sets whether the candidates are listed at the first Tab, and not at the second.
    fn set_completion_show_all_if_ambiguous(&mut self, yes: bool)
        ensures { self.new ≡ with_settings self.old
            (record (settings self.old) { completion_show_all_if_ambiguous = yes }) }
    {
        let config = self.config_mut();
        config.completion_show_all_if_ambiguous = yes;
    }

    /// Sets how many candidates are listed without asking the user first.
    fn set_completion_prompt_limit(&mut self, limit: usize)
        ensures { self.new ≡ with_settings self.old
            (record (settings self.old) { completion_prompt_limit = limit }) }
    {
        let config = self.config_mut();
        config.completion_prompt_limit = limit;
    }

    /// Sets how many milliseconds the rest of a key sequence is waited for; None means no limit.
    fn set_keyseq_timeout(&mut self, milliseconds: Option<u16>)
        ensures { self.new ≡ with_settings self.old
            (record (settings self.old) { keyseq_timeout = milliseconds }) }
    {
        let config = self.config_mut();
        config.keyseq_timeout = milliseconds;
    }

    /// Sets the edit mode, and with it how long the rest of a key sequence is waited for:
    /// without limit for Emacs, 500 milliseconds for Vi.
    fn set_edit_mode(&mut self, edit_mode: EditMode)
        ensures { self.new ≡ with_settings self.old
            (record (settings self.old) {
              edit_mode = edit_mode;
              keyseq_timeout = timeout_of edit_mode;
            }) }
    {
        let config = self.config_mut();
        config.edit_mode = edit_mode;
        config.keyseq_timeout = match edit_mode {
            EditMode::Emacs => None,
            EditMode::Vi => Some(500),
        };
    }

    /// Sets whether each submitted line is added to the history.
    fn set_auto_add_history(&mut self, yes: bool)
        ensures { self.new ≡ with_settings self.old
            (record (settings self.old) { auto_add_history = yes }) }
    {
        let config = self.config_mut();
        config.auto_add_history = yes;
    }

    /// Sets how the terminal beeps.
    fn set_bell_style(&mut self, bell_style: BellStyle)
        ensures { self.new ≡ with_settings self.old
            (record (settings self.old) { bell_style = bell_style }) }
    {
        let config = self.config_mut();
        config.bell_style = bell_style;
    }

    /// Sets on which terminals colors are shown.
    fn set_color_mode(&mut self, color_mode: ColorMode)
        ensures { self.new ≡ with_settings self.old
            (record (settings self.old) { color_mode = color_mode }) }
    {
        let config = self.config_mut();
        config.color_mode = color_mode;
    }

    /// Sets how the columns of a text are counted.
    fn set_grapheme_cluster_mode(&mut self, mode: GraphemeClusterMode)
        ensures { self.new ≡ with_settings self.old
            (record (settings self.old) { grapheme_cluster_mode = mode }) }
    {
        let config = self.config_mut();
        config.grapheme_cluster_mode = mode;
    }

    /// Sets how many columns a tab takes.
    fn set_tab_stop(&mut self, columns: u8)
        ensures { self.new ≡ with_settings self.old
            (record (settings self.old) { tab_stop = columns }) }
    {
        let config = self.config_mut();
        config.tab_stop = columns;
    }

    /// Sets whether the cursor is brought to the first column before the prompt is drawn.
    fn set_check_cursor_position(&mut self, yes: bool)
        ensures { self.new ≡ with_settings self.old
            (record (settings self.old) { check_cursor_position = yes }) }
    {
        let config = self.config_mut();
        config.check_cursor_position = yes;
    }

    /// Sets how many spaces one step of indentation has.
    fn set_indent_size(&mut self, spaces: u8)
        ensures { self.new ≡ with_settings self.old
            (record (settings self.old) { indent_size = spaces }) }
    {
        let config = self.config_mut();
        config.indent_size = spaces;
    }

    /// Sets whether the terminal is asked to mark pasted text.
    fn enable_bracketed_paste(&mut self, yes: bool)
        ensures { self.new ≡ with_settings self.old
            (record (settings self.old) { enable_bracketed_paste = yes }) }
    {
        let config = self.config_mut();
        config.enable_bracketed_paste = yes;
    }

    /// Sets whether the terminal is asked to show each redraw at once.
    fn enable_synchronized_output(&mut self, yes: bool)
        ensures { self.new ≡ with_settings self.old
            (record (settings self.old) { enable_synchronized_output = yes }) }
    {
        let config = self.config_mut();
        config.enable_synchronized_output = yes;
    }

    /// Sets whether the terminal turns keys such as Ctrl-C into signals.
    fn set_enable_signals(&mut self, yes: bool)
        ensures { self.new ≡ with_settings self.old
            (record (settings self.old) { enable_signals = yes }) }
    {
        let config = self.config_mut();
        config.enable_signals = yes;
    }

    ghost reads_back: { (holder : Self) (set : Settings)
        → settings (with_settings holder set) ≡ set };

    ghost last_stands: { (holder : Self) (first last : Settings)
        → with_settings (with_settings holder first) last ≡ with_settings holder last };

    ghost keeps_the_rest: { (holder : Self) → with_settings holder (settings holder) ≡ holder };
}

impl Configurer for Config {
    ghost use Rattle.std.specs.Prelude.{refl};

    ghost settings = { λ config. config };

    ghost with_settings = { λ _ set. set };

    ghost reads_back = { λ _ _. refl };

    ghost last_stands = { λ _ _ _. refl };

    ghost keeps_the_rest = { λ _. refl };

    fn config_mut(&mut self) -> &mut Config {
        self
    }
}

impl Configurer for Builder {
    ghost use Rattle.std.specs.Prelude.{refl};

    ghost settings = { λ builder. builder };

    ghost with_settings = { λ _ set. set };

    ghost reads_back = { λ _ _. refl };

    ghost last_stands = { λ _ _ _. refl };

    ghost keeps_the_rest = { λ _. refl };

    fn config_mut(&mut self) -> &mut Config {
        &mut self.config
    }
}

/// Settings in the making: each call sets one, and `build` returns them all.
#[derive(Clone, Debug, Drop)]
pub struct Builder {
    config: Config,
}

impl Model for Builder {
    ghost use Rattle.line_config.specs.Settings.{Settings};

    ghost Value = { Settings };

    ghost view = { λ b. b.config };

    ghost inverse = { λ b. record { config = b } };
}

impl Builder {
    ghost use Rattle.line_config.specs.Settings.{defaults, duplicates_of, timeout_of};

    /// Returns a builder that begins with the defaults, with clusters measured by `mode`.
    pub fn new(mode: GraphemeClusterMode) -> Self
        ensures { result ≡ defaults mode }
    {
        Builder {
            config: Config::new(mode),
        }
    }

    /// Sets the greatest number of lines that the history keeps.
    ///
    /// # Errors
    ///
    /// There are none: the result is always Ok.
    pub fn max_history_size(mut self, max_size: usize) -> Result<Self>
        ensures { IsOkAnd result (λ builder.
            builder ≡ record self { max_history_size = max_size }) }
    {
        self.set_max_history_size(max_size)?;
        Ok(self)
    }

    /// Sets whether a line that equals the newest entry of the history is left out of it.
    ///
    /// # Errors
    ///
    /// There are none: the result is always Ok.
    pub fn history_ignore_dups(mut self, yes: bool) -> Result<Self>
        ensures { IsOkAnd result (λ builder.
            builder ≡ record self { history_duplicates = duplicates_of yes }) }
    {
        self.set_history_ignore_dups(yes)?;
        Ok(self)
    }

    /// Sets whether a line that begins with white space is left out of the history.
    pub fn history_ignore_space(mut self, yes: bool) -> Self
        ensures { result ≡ record self { history_ignore_space = yes } }
    {
        self.set_history_ignore_space(yes);
        self
    }

    /// Sets how the candidates of a completion are offered.
    pub fn completion_type(mut self, completion_type: CompletionType) -> Self
        ensures { result ≡ record self { completion_type = completion_type } }
    {
        self.set_completion_type(completion_type);
        self
    }

    /// Sets how many candidates are listed without asking the user first.
    pub fn completion_prompt_limit(mut self, limit: usize) -> Self
        ensures { result ≡ record self { completion_prompt_limit = limit } }
    {
        self.set_completion_prompt_limit(limit);
        self
    }

    /// Sets whether the candidates are listed at the first Tab, and not at the second.
    pub fn completion_show_all_if_ambiguous(mut self, yes: bool) -> Self
        ensures { result ≡ record self { completion_show_all_if_ambiguous = yes } }
    {
        self.set_completion_show_all_if_ambiguous(yes);
        self
    }

    /// Sets how many milliseconds the rest of a key sequence is waited for; None means no limit.
    pub fn keyseq_timeout(mut self, milliseconds: Option<u16>) -> Self
        ensures { result ≡ record self { keyseq_timeout = milliseconds } }
    {
        self.set_keyseq_timeout(milliseconds);
        self
    }

    /// Sets the edit mode, and with it how long the rest of a key sequence is waited for:
    /// without limit for Emacs, 500 milliseconds for Vi.
    pub fn edit_mode(mut self, edit_mode: EditMode) -> Self
        ensures { result ≡ record self {
          edit_mode = edit_mode;
          keyseq_timeout = timeout_of edit_mode;
        } }
    {
        self.set_edit_mode(edit_mode);
        self
    }

    /// Sets whether each submitted line is added to the history.
    pub fn auto_add_history(mut self, yes: bool) -> Self
        ensures { result ≡ record self { auto_add_history = yes } }
    {
        self.set_auto_add_history(yes);
        self
    }

    /// Sets how the terminal beeps.
    pub fn bell_style(mut self, bell_style: BellStyle) -> Self
        ensures { result ≡ record self { bell_style = bell_style } }
    {
        self.set_bell_style(bell_style);
        self
    }

    /// Sets on which terminals colors are shown.
    pub fn color_mode(mut self, color_mode: ColorMode) -> Self
        ensures { result ≡ record self { color_mode = color_mode } }
    {
        self.set_color_mode(color_mode);
        self
    }

    /// Sets how the columns of a text are counted.
    pub fn grapheme_cluster_mode(mut self, mode: GraphemeClusterMode) -> Self
        ensures { result ≡ record self { grapheme_cluster_mode = mode } }
    {
        self.set_grapheme_cluster_mode(mode);
        self
    }

    /// Sets where a line is read from, and where it is drawn.
    pub fn behavior(mut self, behavior: Behavior) -> Self
        ensures { result ≡ record self { behavior = behavior } }
    {
        self.config.behavior = behavior;
        self
    }

    /// Sets how many columns a tab takes.
    pub fn tab_stop(mut self, columns: u8) -> Self
        ensures { result ≡ record self { tab_stop = columns } }
    {
        self.set_tab_stop(columns);
        self
    }

    /// Sets whether the cursor is brought to the first column before the prompt is drawn.
    pub fn check_cursor_position(mut self, yes: bool) -> Self
        ensures { result ≡ record self { check_cursor_position = yes } }
    {
        self.set_check_cursor_position(yes);
        self
    }

    /// Sets how many spaces one step of indentation has.
    pub fn indent_size(mut self, spaces: u8) -> Self
        ensures { result ≡ record self { indent_size = spaces } }
    {
        self.set_indent_size(spaces);
        self
    }

    /// Sets whether the terminal is asked to mark pasted text.
    pub fn bracketed_paste(mut self, yes: bool) -> Self
        ensures { result ≡ record self { enable_bracketed_paste = yes } }
    {
        Configurer::enable_bracketed_paste(&mut self, yes);
        self
    }

    /// Sets whether the terminal turns keys such as Ctrl-C into signals.
    pub fn enable_signals(mut self, yes: bool) -> Self
        ensures { result ≡ record self { enable_signals = yes } }
    {
        self.set_enable_signals(yes);
        self
    }

    /// Returns the settings as they were set.
    pub fn build(self) -> Config
        ensures { result ≡ self }
    {
        let Builder { config } = self;
        config
    }
}
