//! Lines of a terminal, and their answers.

use crate::answers::answer_to;
use crate::arithmetic::Names;
use crate::folder::Folder;
use crate::history_file::keep;
use crate::watch::{BUFFER_SIZE, LineEditor, Watch};
use line_config::Result;
use line_editor::Bindings;
use line_parts::{FilenameCompleter, Helper, History};
use line_session::editor::{Editor, Fed};
use line_term::Size;
use std::io::{Read, Write};
use std::rt::Files;

/// The prompt, without styles and with them.
const PROMPT: (&str, &str) = ("> ", "\x1b[1;32m> \x1b[0m");

/// What is said first.
const WELCOME: &str = "Comvizga: :keys lists the keys, C-d ends.";

/// Reads lines and answers them, until the input ends. A line is in the file before it is answered.
///
/// # Errors
/// `Io`, where the input, the output or the file fails, and `Memory`.
pub(crate) fn converse<
    R: Files + AllocGlobal + Clone + Drop,
    I: Read,
    W: Write,
    O: Write + Drop,
    F: Write,
>(
    rt: &R,
    input: &mut I,
    out: &mut W,
    editor: &mut LineEditor<O>,
    file: &mut Option<F>,
    size: Size,
    vi: bool,
) -> Result<()> {
    write_lines(out, WELCOME)?;
    let bindings = Bindings::new(rt.alloc());
    let mut watch = Watch::new(size);
    let mut names = Names::new(rt.alloc());
    for _ in 0..u64::MAX {
        let fed = read_line(input, out, editor, &bindings, &mut watch)?;
        if fed == Fed::Ended {
            return watch.settle(input, editor, &bindings);
        }
        answer(rt, fed, out, editor, file, &mut names, vi)?;
    }
    Ok(())
}

/// Answers a line that was submitted, once it is in the file.
fn answer<R: Files + AllocGlobal + Clone + Drop, W: Write, O: Write + Drop, F: Write>(
    rt: &R,
    fed: Fed,
    out: &mut W,
    editor: &mut LineEditor<O>,
    file: &mut Option<F>,
    names: &mut Names,
    vi: bool,
) -> Result<()> {
    let Fed::Submitted(line) = fed else {
        return Ok(());
    };
    if let Some(history) = editor.history_mut() {
        keep(history, file)?;
    }
    let mut answer = String::new(rt.alloc());
    answer_to(rt, line.as_str(), names, vi, &mut answer)?;
    if !answer.is_empty() {
        write_lines(out, answer.as_str())?;
    }
    if let Some(helper) = editor.helper_mut() {
        helper.completer.arguments = FilenameCompleter::new(Folder::read(rt)?);
        helper.completer.others.words = names.words(rt.alloc())?;
    }
    Ok(())
}

/// Reads a line. A read of no bytes is a pause.
fn read_line<R: Read, W: Write, O: Write + Drop, H: Helper + Drop, S: History + Drop>(
    input: &mut R,
    out: &mut W,
    editor: &mut Editor<O, H, S>,
    bindings: &Bindings,
    watch: &mut Watch,
) -> Result<Fed> {
    let mut buffer = [0; BUFFER_SIZE];
    watch.ask(out)?;
    let mut fed = editor.begin(&PROMPT, bindings)?;
    for _ in 0..u64::MAX {
        if fed != Fed::More {
            return Ok(fed);
        }
        fed = match input.read(&mut buffer)? {
            0 if watch.is_silent() => Fed::Ended,
            0 => {
                watch.pause(out)?;
                editor.flush(bindings)?
            }
            count => {
                let fed = editor.feed(&buffer[..count], bindings)?;
                watch.follow(editor)?;
                fed
            }
        };
    }
    Ok(fed)
}

/// Writes the lines of a text, each with the end that a raw terminal needs.
fn write_lines<W: Write>(out: &mut W, text: &str) -> Result<()> {
    for line in text.lines() {
        out.write_all(line.as_bytes())?;
        out.write_all(b"\r\n")?;
    }
    out.flush()?;
    Ok(())
}
