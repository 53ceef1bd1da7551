//! Calls of configurations and their builders, of errors and of prompts.

use crate::report::shown;
use line_buffer::{GraphemeClusterMode, OutOfMemory};
use line_config::{
    Behavior, BellStyle, Builder, ColorMode, CompletionType, Config, Configurer, EditMode, Prompt,
    ReadlineError, Result,
};
use std::alloc::{AllocError, AllocFailed, Global};
use std::io::{self, ErrorKind};
use std::{fmt, mem};
use tests_parties::source::Source;

/// A builder, a configuration, and the configurations that were kept.
#[derive(Drop)]
pub struct Held {
    pub builder: Builder,
    pub config: Config,
    pub kept: Vec<Config>,
}

const LISTS: &[(&str, CompletionType)] = &[
    ("Circular", CompletionType::Circular),
    ("List", CompletionType::List),
];

const STYLES: &[(&str, EditMode)] = &[("Emacs", EditMode::Emacs), ("Vi", EditMode::Vi)];

const BELLS: &[(&str, BellStyle)] = &[
    ("Audible", BellStyle::Audible),
    ("None", BellStyle::None),
    ("Visible", BellStyle::Visible),
];

const COLORS: &[(&str, ColorMode)] = &[
    ("Enabled", ColorMode::Enabled),
    ("Forced", ColorMode::Forced),
    ("Disabled", ColorMode::Disabled),
];

const BEHAVIORS: &[(&str, Behavior)] = &[
    ("Stdio", Behavior::Stdio),
    ("PreferTerm", Behavior::PreferTerm),
];

const UNICODE: GraphemeClusterMode = GraphemeClusterMode::Unicode;

const CLUSTERS: &[(&str, GraphemeClusterMode)] = &[
    ("Unicode", UNICODE),
    ("WcWidth", GraphemeClusterMode::WcWidth),
    ("NoZwj", GraphemeClusterMode::NoZwj),
];

/// What a call of this name gives, which looks at what is held, or asks an error or a prompt.
pub fn looks(
    alloc: Global,
    name: &str,
    source: &mut Source<'_>,
    held: &mut Held,
) -> Result<Option<String>> {
    match name {
        "get" => read_back(alloc, &held.config),
        "show_builder" => shown(alloc, &held.builder),
        "color_mode" => shown(alloc, held.config.color_mode(source.text())),
        "error" => told(alloc, source),
        "out_of_memory" => Ok(Some(OutOfMemory.to_string(alloc)?)),
        "prompts" => {
            let pair = (source.text().unwrap_or(""), source.text().unwrap_or(""));
            shown(alloc, (forms(&pair.0), forms(&pair)))
        }
        "own_prompts" => {
            let pair = (source.built_text(alloc)?, source.built_text(alloc)?);
            shown(alloc, (forms(&pair.0), forms(&pair)))
        }
        name => makes(alloc, name, source, held),
    }
}

/// What every getter gives.
fn read_back(alloc: Global, config: &Config) -> Result<Option<String>> {
    let history = (
        config.max_history_size(),
        config.history_duplicates(),
        config.history_ignore_space(),
        config.auto_add_history(),
    );
    let completion = (
        config.completion_type(),
        config.completion_prompt_limit(),
        config.completion_show_all_if_ambiguous(),
    );
    let keys = (
        config.keyseq_timeout(),
        config.edit_mode(),
        config.enable_bracketed_paste(),
        config.enable_signals(),
    );
    let screen = (
        config.bell_style(),
        config.color_mode(None),
        config.grapheme_cluster_mode(),
        config.behavior(),
        config.check_cursor_position(),
        config.enable_synchronized_output(),
    );
    let columns = (config.tab_stop(), config.indent_size());
    shown(alloc, (history, completion, keys, screen, columns))
}

/// Makes a builder or a configuration by a call of this name, or keeps the configuration. What it
/// takes away has a new one in its place.
fn makes(
    alloc: Global,
    name: &str,
    source: &mut Source<'_>,
    held: &mut Held,
) -> Result<Option<String>> {
    let (config, builder) = (&mut held.config, &mut held.builder);
    match name {
        "new_config" => *config = Config::new(source.named(CLUSTERS).unwrap_or(UNICODE)),
        "new_builder" => *builder = Builder::new(source.named(CLUSTERS).unwrap_or(UNICODE)),
        "config_builder" => *builder = Config::builder(source.named(CLUSTERS).unwrap_or(UNICODE)),
        "with" => *builder = built(source, mem::replace(builder, Builder::new(UNICODE)))?,
        "set_all_of_builder" => set_all(builder)?,
        "set_all_of_config" => set_all(config)?,
        "build" => *config = mem::replace(builder, Builder::new(UNICODE)).build(),
        "build_clone" => *config = builder.clone()?.build(),
        "clone" => *config = config.clone()?,
        "keep" => held.kept.push(mem::replace(config, Config::new(UNICODE)))?,
        _ => return Ok(None),
    }
    Ok(Some(String::new(alloc)))
}

/// Whether the next word is "true".
fn yes(source: &mut Source<'_>) -> bool {
    matches!(source.word(), Some("true"))
}

/// Each setting but the behavior away from its default, by the calls of whatever holds them.
fn set_all<C: Configurer>(holder: &mut C) -> Result<()> {
    holder.set_max_history_size(7)?;
    holder.set_history_ignore_dups(false)?;
    holder.set_history_ignore_space(true);
    holder.set_completion_type(CompletionType::List);
    holder.set_completion_prompt_limit(9);
    holder.set_completion_show_all_if_ambiguous(true);
    holder.set_edit_mode(EditMode::Vi);
    holder.set_keyseq_timeout(Some(11));
    holder.set_auto_add_history(true);
    holder.set_bell_style(BellStyle::None);
    holder.set_color_mode(ColorMode::Forced);
    holder.set_grapheme_cluster_mode(GraphemeClusterMode::NoZwj);
    holder.set_tab_stop(4);
    holder.set_indent_size(3);
    holder.set_check_cursor_position(true);
    holder.enable_bracketed_paste(false);
    holder.enable_synchronized_output(false);
    holder.set_enable_signals(true);
    Ok(())
}

/// The builder after a call of its own, or one that lets the synchronized output be set.
fn built(source: &mut Source<'_>, mut builder: Builder) -> Result<Builder> {
    Ok(match source.word().unwrap_or("") {
        "max_history_size" => builder.max_history_size(source.number())?,
        "history_ignore_dups" => builder.history_ignore_dups(yes(source))?,
        "history_ignore_space" => builder.history_ignore_space(yes(source)),
        "completion_type" => {
            builder.completion_type(source.named(LISTS).unwrap_or(CompletionType::Circular))
        }
        "completion_prompt_limit" => builder.completion_prompt_limit(source.number()),
        "completion_show_all_if_ambiguous" => {
            builder.completion_show_all_if_ambiguous(yes(source))
        }
        "keyseq_timeout" => builder.keyseq_timeout(source.count()),
        "edit_mode" => builder.edit_mode(source.named(STYLES).unwrap_or(EditMode::Emacs)),
        "auto_add_history" => builder.auto_add_history(yes(source)),
        "bell_style" => builder.bell_style(source.named(BELLS).unwrap_or(BellStyle::Audible)),
        "color_mode" => builder.color_mode(source.named(COLORS).unwrap_or(ColorMode::Enabled)),
        "grapheme_cluster_mode" => {
            builder.grapheme_cluster_mode(source.named(CLUSTERS).unwrap_or(UNICODE))
        }
        "behavior" => builder.behavior(source.named(BEHAVIORS).unwrap_or(Behavior::Stdio)),
        "tab_stop" => builder.tab_stop(source.word().unwrap_or("").parse().unwrap_or(0)),
        "indent_size" => builder.indent_size(source.word().unwrap_or("").parse().unwrap_or(0)),
        "check_cursor_position" => builder.check_cursor_position(yes(source)),
        "bracketed_paste" => builder.bracketed_paste(yes(source)),
        "enable_synchronized_output" => {
            builder.enable_synchronized_output(yes(source));
            builder
        }
        "enable_signals" => builder.enable_signals(yes(source)),
        _ => builder,
    })
}

/// The kind of an error of input or output, and how an error of this cause is told and shown.
fn told(alloc: Global, source: &mut Source<'_>) -> Result<Option<String>> {
    let error = match source.word().unwrap_or("") {
        "Eof" => ReadlineError::Eof,
        "Interrupted" => ReadlineError::Interrupted,
        "on_fire" => ReadlineError::Io(io::Error::other("the disk is on fire")),
        "Memory" => ReadlineError::Memory,
        "broken" => ReadlineError::from(io::Error::new(ErrorKind::BrokenPipe, "gone")),
        "invalid" => ReadlineError::from(ErrorKind::InvalidData),
        "format" => ReadlineError::from(fmt::Error),
        "AllocError" => ReadlineError::from(AllocError),
        "AllocFailed" => ReadlineError::from(AllocFailed { value: 7u8 }),
        "OutOfMemory" => ReadlineError::from(OutOfMemory),
        _ => return Ok(None),
    };
    let kind = match &error {
        ReadlineError::Io(cause) => Some(cause.kind()),
        _ => None,
    };
    Ok(Some(format!(in alloc; "{kind:?} {error} {error:?}")?))
}

/// Both forms of a prompt.
fn forms<P: Prompt>(prompt: &P) -> (&str, &str) {
    (prompt.raw(), prompt.styled())
}
