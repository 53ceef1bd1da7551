//! A console for integer arithmetic with names: a line is typed, and its value is printed.
#![tactic(auto)]

mod answers;
mod arguments;
mod arithmetic;
mod folder;
mod helper;
mod history_file;
mod key_tables;
mod terminal;
mod watch;

use crate::answers::answer_to;
use crate::arguments::Arguments;
use crate::arithmetic::Names;
use crate::folder::Folder;
use crate::helper::console_helper;
use crate::history_file::{open, settings};
use crate::terminal::converse;
use line_config::Result;
use line_parts::FileHistory;
use line_session::editor::Editor;
use line_term::Size;
use std::env;
use std::io::{self, BufRead, Write};
use std::process::ExitCode;

fn main(rt: HostRuntime) -> ExitCode {
    match run(&rt) {
        Ok(code) => code,
        Err(fault) => {
            let _ = writeln!(rt.stderr(), "console: {fault}");
            ExitCode::FAILURE
        }
    }
}

/// Reads lines of a terminal where its size is given, and else of a text.
fn run(rt: &HostRuntime) -> Result<ExitCode> {
    let Some(arguments) = Arguments::of(env::args(rt)?) else {
        let _ = writeln!(rt.stderr(), "{}", arguments::USAGE);
        return Ok(ExitCode::from(2));
    };
    match arguments.size {
        Some(size) => on_terminal(rt, &arguments, size),
        None => on_text(rt, arguments.vi),
    }
}

/// Reads and answers lines of a terminal of this size.
fn on_terminal(rt: &HostRuntime, arguments: &Arguments, size: Size) -> Result<ExitCode> {
    let config = settings(arguments.vi, arguments.list)?;
    let mut history = FileHistory::with_config(rt.alloc(), &config);
    let mut file = match &arguments.history {
        Some(path) => match open(rt, path.as_str(), &mut history) {
            Ok(file) => Some(file),
            Err(fault) => {
                let _ = writeln!(rt.stderr(), "console: {path}: {fault}");
                return Ok(ExitCode::FAILURE);
            }
        },
        None => None,
    };
    let mut editor = Editor::new(
        rt.alloc(),
        config,
        io::writer(rt),
        size.columns.max(1),
        console_helper(rt.alloc(), Folder::read(rt)?)?,
        history,
    );
    editor.resize(size.columns.max(1), size.rows)?;
    converse(
        rt,
        &mut rt.reader(),
        &mut io::writer(rt),
        &mut editor,
        &mut file,
        size,
        arguments.vi,
    )?;
    Ok(ExitCode::SUCCESS)
}

/// Reads and answers the lines of standard input.
fn on_text(rt: &HostRuntime, vi: bool) -> Result<ExitCode> {
    let mut names = Names::new(rt.alloc());
    let mut out = io::writer(rt);
    let mut answer = String::new(rt.alloc());
    for line in rt.lines(rt.alloc()) {
        answer_to(rt, line?.as_str(), &mut names, vi, &mut answer)?;
        if !answer.is_empty() {
            answer.push('\n')?;
            out.write_all(answer.as_bytes())?;
            answer.clear();
        }
    }
    Ok(ExitCode::SUCCESS)
}
