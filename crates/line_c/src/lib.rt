//! The line editor for C: each function takes the handle of a session. The header of `hosts/c` says
//! what it does.
#![tactic(auto)]

ghost use Rattle.std.specs.Prelude.{◌≡◌, [], None, Some, IfNone, MatchOption, if◌then◌else◌};
ghost use Rattle.line_host.specs.Copied.{CopiesIfAny, TakesBytes, TakesOutput};
ghost use Rattle.line_host.specs.Helped.{answers_by, SetsWords};
ghost use Rattle.line_host.specs.Hosted.{Abandons, AddsLine, BeginsLine, BindsKeys, Finishes, LoadsHistory, ResizesSession, SavesHistory, ReadsItems, TellsCursor, line_of};
ghost use Rattle.line_host.specs.Settings.{is_yes};
ghost use Rattle.line_host.specs.Status.{code_of};
ghost use Rattle.line_term.specs.Decoder.{finished, flushed, is_waiting, read};
ghost use Rattle.line_c.specs.OnSession.{Makes, OnSession};

mod handle;
mod loose;

use handle::Handle;
use line_host::session::Session;
use line_host::settings::{Settings, is_yes};
use line_host::status::Status;
use std::alloc::Global;

/// Makes a call of the session that a handle holds, and returns the number of its status.
macro_rules! on_session {
    ($handle:ident, $alloc:ident, |$session:ident| $call:expr) => {{
        let Some(mut $session) = $handle.take($alloc) else {
            return Status::Empty.code();
        };
        let status = $call;
        $handle.put($session);
        status.code()
    }};
}

/// Takes bytes of the session that a handle holds by a call of it, and reports how many.
macro_rules! take_bytes {
    ($handle:ident, $alloc:ident, $buffer:ident, $taken:ident, $take:ident) => {
        on_session!($handle, $alloc, |session| {
            *$taken = session.$take($buffer);
            Status::Done
        })
    };
}

/// Makes a session in a handle that holds none.
#[unsafe(no_mangle)]
pub extern "C" fn line_c_new(settings: &Settings, handle: &mut Handle, alloc: Global) -> u32
    ensures { MatchOption handle.old.session (Makes settings.now handle.new.session result)
        (λ old. (result ≡ code_of Status.InUse) × (handle.new.session ≡ Some old)) }
{
    if let Some(session) = handle.take(alloc) {
        handle.put(session);
        return Status::InUse.code();
    }
    let session = match Session::new(alloc, settings) {
        Ok(session) => session,
        Err(status) => return status.code(),
    };
    match Box::new(alloc, session) {
        Ok(session) => {
            handle.put(session);
            Status::Done.code()
        }
        Err(_) => Status::NoMemory.code(),
    }
}

/// Drops the session, and leaves the handle with none.
#[unsafe(no_mangle)]
pub extern "C" fn line_c_free(handle: &mut Handle, alloc: Global) -> u32
    ensures empty { handle.new.session ≡ None }
    ensures status { MatchOption handle.old.session (result ≡ code_of Status.Empty)
        (λ _. result ≡ code_of Status.Done) }
{
    match handle.take(alloc) {
        Some(session) => {
            drop(session);
            Status::Done.code()
        }
        None => Status::Empty.code(),
    }
}

/// Begins an empty line after a prompt.
#[unsafe(no_mangle)]
pub extern "C" fn line_c_begin(handle: &mut Handle, alloc: Global, prompt: &[u8]) -> u32
    ensures { OnSession handle.old handle.new result
        (BeginsLine answers_by prompt.now prompt.now [] []) }
{
    on_session!(
        handle,
        alloc,
        |session| session.begin(prompt, prompt, &[], &[])
    )
}

/// Begins a line after a prompt, without styles and with them, with these texts before and after
/// the cursor.
#[unsafe(no_mangle)]
pub extern "C" fn line_c_begin_with(
    handle: &mut Handle,
    alloc: Global,
    prompt: &[u8],
    styled: &[u8],
    left: &[u8],
    right: &[u8],
) -> u32
    ensures { OnSession handle.old handle.new result
        (BeginsLine answers_by prompt.now styled.now left.now right.now) }
{
    on_session!(
        handle,
        alloc,
        |session| session.begin(prompt, styled, left, right)
    )
}

/// Reads bytes of the terminal.
#[unsafe(no_mangle)]
pub extern "C" fn line_c_feed(handle: &mut Handle, alloc: Global, bytes: &[u8]) -> u32
    ensures { OnSession handle.old handle.new result
        (λ old. ReadsItems answers_by (read old.editor.decoder bytes.now) old) }
{
    on_session!(handle, alloc, |session| session.feed(bytes))
}

/// Settles what bytes have begun, as none have arrived for a moment.
#[unsafe(no_mangle)]
pub extern "C" fn line_c_flush(handle: &mut Handle, alloc: Global) -> u32
    ensures { OnSession handle.old handle.new result
        (λ old. ReadsItems answers_by (flushed old.editor.decoder) old) }
{
    on_session!(handle, alloc, |session| session.flush())
}

/// Reads the end of all bytes.
#[unsafe(no_mangle)]
pub extern "C" fn line_c_finish(handle: &mut Handle, alloc: Global) -> u32
    ensures { OnSession handle.old handle.new result
        (λ old. Finishes answers_by (finished old.editor.decoder) old) }
{
    on_session!(handle, alloc, |session| session.finish())
}

/// Drops the line that goes on.
#[unsafe(no_mangle)]
pub extern "C" fn line_c_abandon(handle: &mut Handle, alloc: Global) -> u32
    ensures { OnSession handle.old handle.new result Abandons }
{
    on_session!(handle, alloc, |session| session.abandon())
}

/// Gives the terminal another number of columns and of rows.
#[unsafe(no_mangle)]
pub extern "C" fn line_c_resize(handle: &mut Handle, alloc: Global, columns: u16, rows: u16) -> u32
    ensures { OnSession handle.old handle.new result
        (ResizesSession answers_by columns rows) }
{
    on_session!(handle, alloc, |session| session.resize(columns, rows))
}

/// Reports whether bytes have begun something, which calls of `line_c_flush` would settle: 1 where
/// they have, and else 0.
#[unsafe(no_mangle)]
pub extern "C" fn line_c_is_waiting(handle: &mut Handle, alloc: Global, waiting: &mut u8) -> u32
    ensures session { OnSession handle.old handle.new result (λ old new came.
        (came ≡ Status.Done) × (new ≡ old)
        × (waiting.new ≡ (if is_waiting old.editor.decoder then 1 else 0))) }
    ensures none { IfNone handle.old.session (waiting.new ≡ waiting.old) }
{
    on_session!(handle, alloc, |session| {
        *waiting = u8::from(session.is_waiting());
        Status::Done
    })
}

/// Takes bytes that are to be written to the terminal, as many as the buffer has room for. Reports
/// how many: 0 where all were taken.
#[unsafe(no_mangle)]
pub extern "C" fn line_c_output(
    handle: &mut Handle,
    alloc: Global,
    buffer: &mut [u8],
    taken: &mut usize,
) -> u32
    ensures session { OnSession handle.old handle.new result (λ old new came.
        (came ≡ Status.Done) × (new ≡ record old { output = new.output })
        × TakesOutput old.output new.output buffer.old buffer.new taken.new) }
    ensures none { IfNone handle.old.session
        ((buffer.new ≡ buffer.old) × (taken.new ≡ taken.old)) }
{
    take_bytes!(handle, alloc, buffer, taken, take_output)
}

/// Copies the text of the line that goes on, or else of the one that was submitted last. Reports
/// its length in bytes.
#[unsafe(no_mangle)]
pub extern "C" fn line_c_line(
    handle: &mut Handle,
    alloc: Global,
    buffer: &mut [u8],
    length: &mut usize,
) -> u32
    ensures session { OnSession handle.old handle.new result (λ old new came.
        (new ≡ old) × CopiesIfAny (line_of old) buffer.old buffer.new length.new came) }
    ensures none { IfNone handle.old.session
        ((buffer.new ≡ buffer.old) × (length.new ≡ length.old)) }
{
    on_session!(handle, alloc, |session| session.copy_line(buffer, length))
}

/// Reports the cursor of the line that goes on: a byte offset.
#[unsafe(no_mangle)]
pub extern "C" fn line_c_cursor(handle: &mut Handle, alloc: Global, cursor: &mut usize) -> u32
    ensures session { OnSession handle.old handle.new result (λ old new came.
        (new ≡ old) × TellsCursor old cursor.old cursor.new came) }
    ensures none { IfNone handle.old.session (cursor.new ≡ cursor.old) }
{
    on_session!(handle, alloc, |session| session.tell_cursor(cursor))
}

/// Adds a line to the history.
#[unsafe(no_mangle)]
pub extern "C" fn line_c_history_add(handle: &mut Handle, alloc: Global, line: &[u8]) -> u32
    ensures { OnSession handle.old handle.new result (AddsLine line.now) }
{
    on_session!(handle, alloc, |session| session.add_history(line))
}

/// Adds the lines of a text to the history.
#[unsafe(no_mangle)]
pub extern "C" fn line_c_history_load(handle: &mut Handle, alloc: Global, text: &[u8]) -> u32
    ensures { OnSession handle.old handle.new result (LoadsHistory text.now) }
{
    on_session!(handle, alloc, |session| session.load_history(text))
}

/// Makes the text of the history, to be taken by `line_c_saved`: of all lines, or where `append` is
/// not 0 of the new ones.
#[unsafe(no_mangle)]
pub extern "C" fn line_c_history_save(handle: &mut Handle, alloc: Global, append: u8) -> u32
    ensures { OnSession handle.old handle.new result
        (SavesHistory (is_yes append)) }
{
    on_session!(
        handle,
        alloc,
        |session| session.save_history(is_yes(append))
    )
}

/// Takes bytes of the text of the history, as many as the buffer has room for. Reports how many: 0
/// where all were taken.
#[unsafe(no_mangle)]
pub extern "C" fn line_c_saved(
    handle: &mut Handle,
    alloc: Global,
    buffer: &mut [u8],
    taken: &mut usize,
) -> u32
    ensures session { OnSession handle.old handle.new result (λ old new came.
        (came ≡ Status.Done) × (new ≡ record old { saved = new.saved })
        × TakesBytes old.saved new.saved buffer.old buffer.new taken.new) }
    ensures none { IfNone handle.old.session
        ((buffer.new ≡ buffer.old) × (taken.new ≡ taken.old)) }
{
    take_bytes!(handle, alloc, buffer, taken, take_saved)
}

/// Completes words by those of a text from now on, one a line.
#[unsafe(no_mangle)]
pub extern "C" fn line_c_set_words(handle: &mut Handle, alloc: Global, words: &[u8]) -> u32
    ensures { OnSession handle.old handle.new result (SetsWords words.now) }
{
    on_session!(handle, alloc, |session| session.set_words(words))
}

/// Binds keys to a command, by their names.
#[unsafe(no_mangle)]
pub extern "C" fn line_c_bind(
    handle: &mut Handle,
    alloc: Global,
    keys: &[u8],
    command: &[u8],
) -> u32
    ensures { OnSession handle.old handle.new result
        (BindsKeys keys.now command.now) }
{
    on_session!(handle, alloc, |session| session.bind(keys, command))
}
