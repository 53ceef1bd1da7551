//! The script: lines of text that stand for settings and for what a person types.
ghost use Rattle.std.specs.Prelude.{◌≡◌, ◌<◌, IfOk, IfSome, string_bytes};
ghost use Rattle.line_parts.specs.EscapedLine.{Unescapes};
ghost use Rattle.line_parts.specs.declared.escaped_line.Escapes.TheVariants.{V2};
ghost use Rattle.line_script.specs.Script.{AddsKey, AddsToHistory, AddsPasted, AddsTyped, lacks_escapes};

use line_buffer::Unit;
use line_config::{EditMode, ReadlineError};
use line_keys::key_named;
use line_parts::{Escapes, FileHistory, HintsAndBrackets, History, unescape_line};
use line_screen::KeyQueue;
use memchr::memchr;
use std::alloc::Global;
use std::io;
use std::io::Read;

/// The prompt where no line sets another.
const PROMPT: &str = "> ";

/// The columns of the screen where no line sets others.
const COLUMNS: Unit = 80;

/// The reader of what a script types.
pub type Script = KeyQueue;

/// What the lines of a script set and type.
pub struct Parsed {
    /// The history that the settings fill.
    pub history: FileHistory,
    /// The helper that the settings switch on.
    pub helper: HintsAndBrackets,
    /// The prompt.
    pub prompt: String,
    /// The columns of the screen, at least one.
    pub columns: Unit,
    /// The edit mode.
    pub edit_mode: EditMode,
    /// What the editor reads.
    pub items: Script,
    /// Whether a line of items was read, after which no setting may stand.
    has_item_lines: bool,
    ghost some_columns: { 0 < columns },
}

impl Drop for Parsed {
    fn drop(self) {
        let Parsed {
            history: _,
            helper: _,
            prompt: _,
            columns: _,
            edit_mode: _,
            items: _,
            has_item_lines: _,
        } = self;
    }
}

impl Parsed {
    /// What a script without lines stands for: the defaults of the settings, and no items.
    ///
    /// # Errors
    ///
    /// `Memory` if memory runs out.
    pub fn new(alloc: Global) -> Result<Parsed, ReadlineError> {
        Ok(Parsed {
            history: FileHistory::new(alloc),
            helper: HintsAndBrackets::new(),
            prompt: String::from_str(alloc, PROMPT)?,
            columns: COLUMNS,
            edit_mode: EditMode::Emacs,
            items: Script::new(alloc),
            has_item_lines: false,
        })
    }

    /// Adds what the lines of a script stand for.
    fn push_lines(&mut self, alloc: Global, script: &[u8]) -> Result<(), ScriptError> {
        let mut number = 1;
        let mut rest = script;
        while let Some(end) = memchr(b'\n', rest) {
            let (line, behind) = rest.split_at(end);
            self.push_bytes(alloc, line, number)?;
            rest = &behind[1..];
            number = number.saturating_add(1);
        }
        self.push_bytes(alloc, rest, number)
    }

    /// Adds what a line stands for; an empty one adds nothing. The number is for the error.
    ///
    /// # Errors
    ///
    /// `BadLine` if it is not UTF-8, of no known form, or a setting after a line of items: nothing
    /// is then added. `Fault` if memory runs out: a part may then have been added.
    fn push_bytes(
        &mut self,
        alloc: Global,
        bytes: &[u8],
        number: usize,
    ) -> Result<(), ScriptError> {
        let is_known = match str::from_utf8(bytes) {
            Ok("") => true,
            Ok(line) => self.push_line(alloc, line)?,
            Err(_) => false,
        };
        if is_known {
            Ok(())
        } else {
            Err(ScriptError::BadLine(number))
        }
    }

    /// Adds what one line stands for. Returns false, and adds nothing, where the line is of no
    /// known form, or is a setting after a line of items, even a bad one.
    ///
    /// # Errors
    ///
    /// `Memory` if memory runs out. A part of what the line stands for may then have been added.
    pub fn push_line(&mut self, alloc: Global, line: &str) -> Result<bool, ReadlineError> {
        let Some((kind, text)) = line.split_once(' ') else {
            return Ok(!self.has_item_lines && switch_on(line, &mut self.helper));
        };
        let items = &mut self.items;
        let is_known = match kind {
            "type" => push_typed(alloc, text, items)?,
            "key" => push_key(text, items)?,
            "paste" => push_pasted(alloc, text, items)?,
            _ if self.has_item_lines => false,
            _ => return self.push_setting(alloc, kind, text),
        };
        self.has_item_lines = true;
        Ok(is_known)
    }

    /// Adds the setting of this name, with the text after the name. False where there is no such
    /// setting.
    fn push_setting(
        &mut self,
        alloc: Global,
        name: &str,
        text: &str,
    ) -> Result<bool, ReadlineError> {
        match name {
            "history" => push_history(alloc, text, &mut self.history),
            "load" => load_history(alloc, text, &mut self.history),
            "prompt" => set_prompt(alloc, text, &mut self.prompt),
            "columns" => Ok(set_columns(text, self)),
            "mode" => Ok(set_edit_mode(text, &mut self.edit_mode)),
            _ => Ok(false),
        }
    }
}

/// Why there is no script.
#[derive(Debug, Drop)]
pub enum ScriptError {
    /// The first bad line, by its number from 1.
    BadLine(usize),
    /// The input could not be read, or there was no memory for the script.
    Fault(ReadlineError),
}

impl From<io::Error> for ScriptError {
    ghost use Rattle.line_config.specs.declared.error.ReadlineError.TheVariants.{Io};
    ghost use Rattle.line_script.specs.declared.script.ScriptError.TheVariants.{Fault};

    ghost from_gives = { λ error e. e ≡ Fault (Io error) };

    fn from(error: io::Error) -> Self {
        ScriptError::Fault(ReadlineError::from(error))
    }
}

impl From<ReadlineError> for ScriptError {
    ghost use Rattle.line_script.specs.declared.script.ScriptError.TheVariants.{Fault};

    ghost from_gives = { λ error e. e ≡ Fault error };

    fn from(error: ReadlineError) -> Self {
        ScriptError::Fault(error)
    }
}

/// Reads a whole script, to the end of the input.
///
/// # Errors
/// `BadLine` for the first line that is not UTF-8, is of no known form, or is a setting after a
/// line of items. `Fault` if the input fails, or if memory runs out.
pub fn read_script<R: Read + Drop>(alloc: Global, mut input: R) -> Result<Parsed, ScriptError> {
    let mut bytes = Vec::new(alloc);
    input.read_to_end(&mut bytes)?;
    parse_script(alloc, &bytes)
}

/// Reads a script, whose lines end in line feeds, the last one possibly in none. Empty lines add
/// nothing.
pub(crate) fn parse_script(alloc: Global, script: &[u8]) -> Result<Parsed, ScriptError> {
    let mut parsed = Parsed::new(alloc)?;
    parsed.push_lines(alloc, script)?;
    Ok(parsed)
}

/// Switches on what the setting of this name asks for. False where there is no such setting.
fn switch_on(name: &str, helper: &mut HintsAndBrackets) -> bool {
    match name {
        "hints" => helper.hints = true,
        "brackets" => helper.brackets = true,
        _ => return false,
    }
    true
}

/// Adds the text to the history, which may leave it out. False where an escape is bad.
fn push_history(alloc: Global, text: &str, history: &mut FileHistory) -> Result<bool, ReadlineError>
    ensures { AddsToHistory result text.now history.old history.new }
{
    let Some(line) = unescape(alloc, text)? else {
        return Ok(false);
    };
    let _ = history.add_owned(line)?;
    Ok(true)
}

/// Loads the text into the history, which may leave lines out. False where an escape is bad.
fn load_history(
    alloc: Global,
    text: &str,
    history: &mut FileHistory,
) -> Result<bool, ReadlineError> {
    let Some(text) = unescape(alloc, text)? else {
        return Ok(false);
    };
    let _ = history.load_from(text.as_bytes())?;
    Ok(true)
}

/// Takes the text as the prompt. False where an escape is bad.
fn set_prompt(alloc: Global, text: &str, prompt: &mut String) -> Result<bool, ReadlineError> {
    let Some(text) = unescape(alloc, text)? else {
        return Ok(false);
    };
    *prompt = text;
    Ok(true)
}

/// Takes the number as the columns of the screen. False where it is none from 10 to 1000.
fn set_columns(digits: &str, parsed: &mut Parsed) -> bool {
    let Some(columns) = columns_in(digits) else {
        return false;
    };
    parsed.columns = columns;
    true
}

/// The number of decimal digits alone, from 10 to 1000.
fn columns_in(digits: &str) -> Option<Unit>
    ensures { IfSome result (λ columns. 0 < columns) }
{
    if !digits.bytes().all(|digit| digit.is_ascii_digit()) {
        return None;
    }
    match digits.parse() {
        Ok(columns @ 10..=1000) => Some(columns),
        _ => None,
    }
}

/// Takes the edit mode of this name. False where there is no such edit mode.
fn set_edit_mode(name: &str, edit_mode: &mut EditMode) -> bool {
    *edit_mode = match name {
        "emacs" => EditMode::Emacs,
        "vi" => EditMode::Vi,
        _ => return false,
    };
    true
}

/// Adds the mark before a pasted text, and the text. False where an escape is bad.
fn push_pasted(alloc: Global, text: &str, items: &mut Script) -> Result<bool, ReadlineError>
    ensures { AddsPasted result text.now items.old items.new }
{
    let Some(pasted) = unescape(alloc, text)? else {
        return Ok(false);
    };
    items.paste(pasted.as_str())?;
    Ok(true)
}

/// Adds a key for each character of the text, as it is. False where an escape is bad.
fn push_typed(alloc: Global, text: &str, items: &mut Script) -> Result<bool, ReadlineError>
    ensures { AddsTyped result text.now items.old items.new }
{
    let Some(typed) = unescape(alloc, text)? else {
        return Ok(false);
    };
    items.type_text(typed.as_str())?;
    Ok(true)
}

/// Adds the key of this name. False where no key has the name.
fn push_key(name: &str, items: &mut Script) -> Result<bool, ReadlineError>
    ensures { AddsKey result items.old items.new }
{
    let Some(key) = key_named(name) else {
        return Ok(false);
    };
    items.press(key)?;
    Ok(true)
}

/// Returns the text that an escaped one stands for: `\n` is a newline and `\\` a backslash. None
/// where an escape is bad.
///
/// # Errors
///
/// `Memory` if memory runs out.
pub fn unescape(alloc: Global, text: &str) -> Result<Option<String>, ReadlineError>
    ensures { IfOk result (λ plain.
        IfSome plain (λ plain. Unescapes V2 text.now (string_bytes plain))) }
{
    let bytes = text.as_bytes();
    if lacks_escapes(bytes) {
        return Ok(Some(String::from_str(alloc, text)?));
    }
    let mut plain = Vec::new(alloc);
    if unescape_line(bytes, Escapes::V2, &mut plain)? {
        Ok(String::from_utf8(plain).ok())
    } else {
        Ok(None)
    }
}

/// Returns whether no byte of a text is a backslash or a newline. All are looked at, many at once.
fn lacks_escapes(text: &[u8]) -> bool
    ensures { result ≡ lacks_escapes text.now }
{
    let mut lacks = true;
    for byte in text {
        lacks &= *byte != b'\\' && *byte != b'\n';
    }
    lacks
}
