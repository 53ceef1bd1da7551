//! The calls of a history.

use super::stream::{Stream, WHOLE};
use crate::report::shown;
use SearchDirection::{Forward, Reverse};
use line_buffer::GraphemeClusterMode;
use line_config::{Config, Configurer, ReadlineError, Result};
use line_parts::{FileHistory, History, MemHistory, SearchDirection, SearchResult};
use std::alloc::Global;
use std::borrow::CowStr;
use std::collections::vec_deque::Iter;
use std::fmt::Debug;
use std::io::ErrorKind;
use tests_parties::fault::Fault;
use tests_parties::pieces::built;
use tests_parties::source::Source;

/// A call: its name, a text, a number and a word.
#[derive(Drop)]
pub struct Call<'t> {
    name: &'t str,
    text: String,
    first: usize,
    word: &'t str,
}

impl<'t> Call<'t> {
    /// Reads a call. Its text is built of the pieces between quotes; with none it has the lines
    /// `n0.`, `n1.` and so on from its number up to the one in place of its word, a bar after each.
    pub fn read(alloc: Global, line: &'t str) -> Result<Call<'t>> {
        let mut source = Source::new(line);
        let name = source.word().unwrap_or("");
        let pieces = source.plain_text(alloc)?;
        let first = source.number();
        let word = source.word().unwrap_or("");
        let (mut text, end) = match pieces {
            Some(pieces) => (built(alloc, &pieces)?, 0),
            None => (String::new(alloc), word.parse().unwrap_or(0)),
        };
        for number in first..end {
            write!(text, "n{number}.|")?;
        }
        Ok(Call {
            name,
            text,
            first,
            word,
        })
    }

    /// The settings that the call names: how many lines are kept, and what is left out.
    fn settings(&self) -> Result<Config> {
        let mut config = Config::new(GraphemeClusterMode::Unicode);
        config.set_max_history_size(self.first)?;
        config.set_history_ignore_dups(self.word == "dups")?;
        config.set_history_ignore_space(self.word == "space");
        Ok(config)
    }
}

/// What a call of a history in memory gives; None where there is no such call.
pub fn mem_says(alloc: Global, mem: &mut MemHistory, call: &Call<'_>) -> Result<Option<String>> {
    match call.name {
        "with" => {
            *mem = MemHistory::with_config(alloc, &call.settings()?);
            shown(alloc, ())
        }
        "ends" => {
            let mem = &*mem;
            ends(alloc, mem.into_iter(), mem.into_iter(), mem.into_iter())
        }
        "entry" if call.first < mem.len() => shown(alloc, mem.entry(call.first)),
        _ => says(alloc, mem, call),
    }
}

/// What a call of a history that can be saved gives; None where there is no such call. `out` takes
/// what is saved.
pub fn file_says(
    alloc: Global,
    file: &mut FileHistory,
    out: &mut Stream<'_>,
    call: &Call<'_>,
) -> Result<Option<String>> {
    match call.name {
        "new" => {
            *file = FileHistory::new(alloc);
            shown(alloc, ())
        }
        "with" => {
            *file = FileHistory::with_config(alloc, &call.settings()?);
            shown(alloc, ())
        }
        "ends" => ends(alloc, file.iter(), (&*file).into_iter(), file.iter()),
        "entry" if call.first < file.len() => shown(alloc, file.entry(call.first)),
        "erase" => shown(alloc, out.taken.clear()),
        "put" => shown(alloc, out.taken.extend_from_slice(call.text.as_bytes())?),
        "byte" => shown(
            alloc,
            out.taken.push(u8::try_from(call.first).unwrap_or(0))?,
        ),
        "load" | "load_at" | "reload" => loads(alloc, file, out, call),
        _ => match saves(alloc, file, out, call)? {
            Some(answer) => Ok(Some(answer)),
            None => says(alloc, file, call),
        },
    }
}

/// What a call of any history gives; None where there is no such call. Memory is there for the
/// answer before the call is made.
fn says<H: History>(alloc: Global, history: &mut H, call: &Call<'_>) -> Result<Option<String>> {
    let mut answer = String::with_capacity(alloc, 20)?;
    let (text, first) = (&call.text, call.first);
    let dir = if call.word == "Reverse" {
        Reverse
    } else {
        Forward
    };
    match call.name {
        "add" => write!(answer, "{:?}", history.add(text)?)?,
        "add_owned" => {
            let owned = String::from_str(alloc, text)?;
            write!(answer, "{:?}", history.add_owned(owned)?)?;
        }
        "many" => write!(answer, "{}", fills(alloc, history, text)?)?,
        "limit" => history.set_max_len(first)?,
        "dups" => history.ignore_dups(call.word == "true")?,
        "space" => history.ignore_space(call.word == "true"),
        "clear" => history.clear()?,
        "get" => answer = got(alloc, history, first)?,
        "lines" => answer = has(alloc, history, text)?,
        "search" => answer = found(alloc, history.search(text, first, dir)?)?,
        "starts" => answer = found(alloc, history.starts_with(text, first, dir)?)?,
        "copy" => answer = copied(alloc, text)?,
        _ => return Ok(None),
    }
    if answer.is_empty() {
        answer.push_str("()")?;
    }
    Ok(Some(answer))
}

/// Adds lines, which have a bar between two, every other one owned. Returns how many are taken.
fn fills<H: History>(alloc: Global, history: &mut H, lines: &str) -> Result<usize> {
    let mut taken = 0_usize;
    let mut owned = false;
    for line in lines.split_terminator('|') {
        let is_taken = if owned {
            history.add_owned(String::from_str(alloc, line)?)?
        } else {
            history.add(line)?
        };
        taken = taken.saturating_add(usize::from(is_taken));
        owned = !owned;
    }
    Ok(taken)
}

/// What is found: the index, the place in the line and the line; a dash for nothing. It is
/// borrowed, and so is its clone, which equals it.
fn found(alloc: Global, found: Option<SearchResult<'_>>) -> Result<String> {
    let Some(found) = found else {
        return Ok(String::from_str(alloc, "-")?);
    };
    let copy = found.clone()?;
    let are_borrowed = matches!(
        (&found.entry, &copy.entry),
        (CowStr::Borrowed(_), CowStr::Borrowed(_))
    );
    let mark = if are_borrowed && copy == found {
        ""
    } else {
        "unlike its clone "
    };
    let (index, place) = (found.idx, found.pos);
    Ok(format!(in alloc; "{mark}{index}:{place} {}", found.entry.as_str())?)
}

/// The line by an index: in both directions the same.
fn got<H: History>(alloc: Global, history: &H, index: usize) -> Result<String> {
    let one = found(alloc, history.get(index, Forward)?)?;
    let other = found(alloc, history.get(index, Reverse)?)?;
    if one == other {
        return Ok(one);
    }
    Ok(format!(in alloc; "{one} but {other}")?)
}

/// Whether a history has these lines, a bar between two, and no others; and whether it is empty. A
/// line that is not there is given instead.
fn has<H: History>(alloc: Global, history: &H, lines: &str) -> Result<String> {
    let mut count = 0_usize;
    for line in lines.split_terminator('|') {
        let line_got = got(alloc, history, count)?;
        if line_got != format!(in alloc; "{count}:0 {line}")? {
            return Ok(line_got);
        }
        count = count.saturating_add(1);
    }
    let is_whole = count == history.len();
    Ok(format!(in alloc; "{is_whole} {}", history.is_empty())?)
}

/// The lines that come from the front, from the back, and from both ends at once.
fn ends(
    alloc: Global,
    mut front: Iter<'_, String>,
    mut back: Iter<'_, String>,
    mut both: Iter<'_, String>,
) -> Result<Option<String>> {
    let mut text = String::new(alloc);
    for _ in 0..=front.len() {
        let step = (
            front.next(),
            back.next_back(),
            both.next(),
            both.next_back(),
        );
        write!(text, "{step:?}")?;
    }
    Ok(Some(text))
}

/// Whether the clone of a result that owns a line equals it. The result stays as it was.
fn copied(alloc: Global, text: &str) -> Result<String> {
    let result = SearchResult {
        entry: CowStr::Owned(String::from_str(alloc, text)?),
        idx: 7,
        pos: 3,
    };
    let copy = result.clone();
    if result.entry.as_str() != text || (result.idx, result.pos) != (7, 3) {
        return Ok(String::from_str(alloc, "changed")?);
    }
    Ok(format!(in alloc; "{}", copy? == result)?)
}

/// What a load answers: of a text, of what was saved, or of a stream that fails at a place.
fn loads(
    alloc: Global,
    file: &mut FileHistory,
    out: &Stream<'_>,
    call: &Call<'_>,
) -> Result<Option<String>> {
    let answer = String::with_capacity(alloc, 100)?;
    let mut stream = Stream::new(alloc, &call.text, call.first, &out.manner);
    let outcome = match call.name {
        "load" => file.load_from(call.text.as_bytes()),
        "reload" => file.load_from(out.taken.as_slice()),
        _ => file.load_from(&mut stream),
    };
    let has_failed = stream.place != call.first;
    Ok(Some(told(alloc, answer, outcome, &stream, has_failed)?))
}

/// What a save answers, and what it writes: of more than 100 bytes, whether that is the text of the
/// call, or their number; None where there is no such call. It fails at a place that the call has.
fn saves(
    alloc: Global,
    file: &mut FileHistory,
    out: &mut Stream<'_>,
    call: &Call<'_>,
) -> Result<Option<String>> {
    let mut answer = String::with_capacity(alloc, 400)?;
    let start = out.taken.len();
    let (name, place) = match call.name.strip_suffix("_at") {
        Some(name) => (name, call.first.saturating_add(start)),
        None => (call.name, WHOLE),
    };
    out.place = place;
    let outcome = match name {
        "save" => file.save_to(out, false),
        "append" => file.save_to(out, true),
        "save_v3" => file.save_v3_to(out, false),
        "append_v3" => file.save_v3_to(out, true),
        _ => return Ok(None),
    };
    let has_failed = out.place != place;
    answer = told(alloc, answer, outcome, out, has_failed)?;
    let taken = out.taken.as_slice().get(start..).unwrap_or(&[]);
    let len = taken.len();
    match str::from_utf8(taken) {
        Ok(taken) if len <= 100 => write!(answer, " {taken:?}")?,
        Ok(taken) if taken == call.text.as_str() => write!(answer, " the text")?,
        _ => write!(answer, " {len} bytes")?,
    }
    Ok(Some(answer))
}

/// What a call of a stream answers: `fails` where that is the stream's fault, and else the kind and
/// the text of the fault.
fn told<T: Debug + Drop>(
    alloc: Global,
    mut answer: String,
    outcome: Result<T>,
    stream: &Stream<'_>,
    has_failed: bool,
) -> Result<String> {
    let (kind, text, _) = stream.manner;
    let is_fault = match &outcome {
        Err(ReadlineError::Io(cause)) if text.is_empty() => cause.kind() == kind,
        Err(ReadlineError::Memory) => has_failed && kind == ErrorKind::OutOfMemory,
        outcome => Fault { kind, text }.is_answer(alloc, outcome)?,
    };
    match outcome {
        Err(_) if is_fault => answer.push_str("fails")?,
        Err(ReadlineError::Io(cause)) => write!(answer, "{:?} {cause}", cause.kind())?,
        outcome => write!(answer, "{:?}", outcome?)?,
    }
    Ok(answer)
}
