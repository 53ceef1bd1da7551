//! A file of cases, line by line.

use crate::bench::Bench;
use crate::report::{Row, differs, first_word};
use crate::setup::{Setup, Target};
use line_config::{ReadlineError, Result};
use line_editor::Bindings;
use line_editor::binding::EventHandler;
use line_script::edit;
use std::alloc::Global;
use std::io::{Read, Write};
use std::mem;

/// The lines that a file may hold, in short, printed for a file whose first line is `help`.
const HELP: &str = "\
# NAME               begins cases, and forgets the settings before it; ## begins a remark
= VALUE | VALUE ..   ends a case: what is wanted of the lines before it
Settings hold up to the next name; they are those of a script, and
bind KEYS = COMMAND  keys, `any` or `mouse` stand for a command, or for `asks HANDLER`
ring N               the slots of the kill ring
dups 1               the history keeps a line that is the same as the one before it
lines N              the most lines of the history
with A B N           the cases are done with the keys of the counts A for @ and B for & (- is none), and N for #
screen N             a screen of N columns, a byte each, that writes down its calls; what follows is for it
line A^B             the editor is made of a line with its cursor at the mark
colors, alone        the screen has colors; there is no helper
hint T, verdict T    what the helper hints, and says of each line: incomplete, valid T or invalid T
lit KIND             the helper asks for a full drawing of moves, edits or the last
styled T             the prompt's form with styles
fails PARTY N        the Nth call of screen, helper, history or reader fails; cut PARTY N by an error of its own
both ways            keys are also given one by one
Items are those of a script, and
keys NAME NAME ..    keys by their names
pasted T             a pasted text without the mark before it
start A^B            the empty line is drawn and filled; calls count from there, or from a line `from here`
do COMMAND; ..       commands are executed, and calls of the editor's state made, by their names
run, turn, next      what was typed is read by a run, by a turn, or by a command
phrase NAME NAME ..  keys that are one phrase, which is read and not executed
log CALL             the next call of the screen that is wanted
";

/// How the reading of a file ended: with so many cases, of which so many differ; at a bad line; or
/// with the help.
#[derive(Clone, Copy)]
enum Ending {
    Rows(usize, usize),
    BadLine(usize),
    Help,
}

/// Why no more cases are tried: a bad line, by its number, or a fault of memory or of a stream.
#[derive(Drop)]
enum Stop {
    BadLine(usize),
    Fault(ReadlineError),
}

/// What is tried until a line is bad or a fault comes.
type Tried<T> = std::result::Result<T, Stop>;

impl From<ReadlineError> for Stop {
    fn from(fault: ReadlineError) -> Stop {
        Stop::Fault(fault)
    }
}

/// Reads a file of cases, and prints each that differs and how many there are; or the number of its
/// first bad line.
///
/// Returns the status to end with: 0 where none differs, 1 where one does, 3 after a fault of
/// memory or of a stream, and 4 where a line is bad.
pub fn play<R: Read + Drop, O: Write>(alloc: Global, input: R, out: &mut O) -> u8 {
    match play_file(alloc, input, out) {
        Ok(Ending::Rows(_, 0) | Ending::Help) => 0,
        Ok(Ending::Rows(_, _)) => 1,
        Ok(Ending::BadLine(_)) => 4,
        Err(_) => 3,
    }
}

/// The same, and the answer is what was done.
fn play_file<R: Read + Drop, O: Write>(alloc: Global, mut input: R, out: &mut O) -> Result<Ending> {
    let mut bytes = Vec::new(alloc);
    input.read_to_end(&mut bytes)?;
    let ending = play_bytes(alloc, bytes.as_slice(), out)?;
    end(&ending, out)?;
    Ok(ending)
}

/// Tries each case of the bytes of a file, where they do not ask for help.
fn play_bytes<O: Write>(alloc: Global, bytes: &[u8], out: &mut O) -> Result<Ending> {
    match str::from_utf8(bytes) {
        Ok(text) if text.starts_with("help\n") => Ok(Ending::Help),
        Ok(text) => ended(read_rows(alloc, text, out)),
        Err(error) => Ok(Ending::BadLine(line_at(bytes, error.valid_up_to()))),
    }
}

/// How the reading ended, where it is no fault.
fn ended(tried: Tried<Tally>) -> Result<Ending> {
    match tried {
        Ok(tally) => Ok(Ending::Rows(tally.rows, tally.differing)),
        Err(Stop::BadLine(number)) => Ok(Ending::BadLine(number)),
        Err(Stop::Fault(fault)) => Err(fault),
    }
}

/// The number of the line of the byte at a place.
fn line_at(bytes: &[u8], place: usize) -> usize {
    let mut number = 1_usize;
    for byte in bytes.get(..place).unwrap_or(&[]) {
        if *byte == b'\n' {
            number = number.saturating_add(1);
        }
    }
    number
}

/// Prints how the reading of a file ended.
fn end<O: Write>(ending: &Ending, out: &mut O) -> Result<()> {
    match ending {
        Ending::Rows(rows, differing) => writeln!(out, "{rows} rows, {differing} differ")?,
        Ending::BadLine(number) => writeln!(out, "bad line {number}")?,
        Ending::Help => out.write_all(HELP.as_bytes())?,
    }
    out.flush()?;
    Ok(())
}

/// What the lines of a file say: the name, the settings and the ways of the cases that follow, and
/// the lines of the case that is begun.
struct Begun<'t> {
    name: &'t str,
    settings: Vec<(usize, &'t str)>,
    ways: Vec<&'t str>,
    lines: Vec<(usize, &'t str)>,
    /// The number of the last line that no case has used yet.
    open: Option<usize>,
}

impl Drop for Begun<'_> {
    fn drop(self) {
        let Begun {
            name: _,
            settings: _,
            ways: _,
            lines: _,
            open: _,
        } = self;
    }
}

/// How many cases there were, and how many differ.
#[derive(Clone, Copy)]
struct Tally {
    rows: usize,
    differing: usize,
}

/// Tries each case of a text, up to the first bad line.
fn read_rows<O: Write>(alloc: Global, text: &str, out: &mut O) -> Tried<Tally> {
    let mut begun = Begun {
        name: "",
        settings: Vec::new(alloc),
        ways: Vec::new(alloc),
        lines: Vec::new(alloc),
        open: None,
    };
    let mut tally = Tally {
        rows: 0,
        differing: 0,
    };
    let mut number = 0_usize;
    for line in text.split('\n') {
        number = number.saturating_add(1);
        begun.takes(alloc, number, line, &mut tally, out)?;
    }
    match begun.open {
        Some(open) => Err(Stop::BadLine(open)),
        None => Ok(tally),
    }
}

impl<'t> Begun<'t> {
    /// Adds what a line says, and tries the case that it ends.
    fn takes<O: Write>(
        &mut self,
        alloc: Global,
        number: usize,
        line: &'t str,
        tally: &mut Tally,
        out: &mut O,
    ) -> Tried<()> {
        if line.is_empty() || line.starts_with("## ") {
            return Ok(());
        }
        if let Some(name) = line.strip_prefix("# ") {
            return self.begins(name);
        }
        self.adds(number, line)?;
        if line.starts_with("= ") {
            tries_ways(alloc, self, tally, out)?;
            self.lines.clear();
            self.open = None;
        }
        Ok(())
    }

    /// Begins the cases of a name. What no case has used yet is a bad line.
    fn begins(&mut self, name: &'t str) -> Tried<()> {
        if let Some(open) = self.open {
            return Err(Stop::BadLine(open));
        }
        self.name = name;
        self.settings.clear();
        self.ways.clear();
        Ok(())
    }

    /// Adds a way, a line of a case, or a setting.
    fn adds(&mut self, number: usize, line: &'t str) -> Result<()> {
        self.open = Some(number);
        if let Some(way) = line.strip_prefix("with ") {
            self.ways.push(way)?;
        } else if is_item(line) {
            self.lines.push((number, line))?;
        } else {
            self.settings.push((number, line))?;
        }
        Ok(())
    }
}

/// The kinds of lines that type something.
const TYPED: &str = "type|key|keys|paste|pasted";

/// The kinds of lines with a text that are no settings.
const ITEMS: &str = "type|key|keys|paste|pasted|start|do|phrase|log|=";

/// The lines without a text that are no settings.
const ALONE: &str = "run|turn|next|next abort|read|from here|take pasted";

/// Whether a word is one of these, between which a bar stands.
pub fn is_among(word: &str, words: &str) -> bool {
    for other in words.split('|') {
        if other == word {
            return true;
        }
    }
    false
}

/// Whether a line is of one of these kinds.
fn is_of(line: &str, kinds: &str) -> bool {
    match line.split_once(' ') {
        Some((kind, _)) => is_among(kind, kinds),
        None => false,
    }
}

/// Whether a line is no setting.
fn is_item(line: &str) -> bool {
    is_of(line, ITEMS) || is_among(line, ALONE)
}

/// Adds to a case what a line says.
fn adds_line<'t>(row: &mut Row<'t>, number: usize, line: &'t str) -> Result<()> {
    if let Some(wanted) = line.strip_prefix("= ") {
        row.wanted = wanted;
        row.number = number;
    } else if let Some(names) = line.strip_prefix("phrase ") {
        row.phrase = Some(names);
    } else if line.starts_with("log ") {
        row.log.push(line)?;
    } else {
        row.is_keys_alone = row.is_keys_alone && is_of(line, TYPED);
        row.items.push((number, line))?;
    }
    Ok(())
}

/// Tries a case in each way that it has, and counts it.
fn tries_ways<O: Write>(
    alloc: Global,
    begun: &Begun<'_>,
    tally: &mut Tally,
    out: &mut O,
) -> Tried<()> {
    if begun.ways.is_empty() {
        return tries_plain(alloc, begun, tally, out);
    }
    for way in begun.ways.as_slice() {
        tries_way(alloc, begun, way, tally, out)?;
    }
    Ok(())
}

/// Tries a case as its lines are, and counts it.
fn tries_plain<O: Write>(
    alloc: Global,
    begun: &Begun<'_>,
    tally: &mut Tally,
    out: &mut O,
) -> Tried<()> {
    let mut row = Row::new(alloc, begun.name);
    for (number, line) in begun.lines.as_slice() {
        adds_line(&mut row, *number, line)?;
    }
    tallies(alloc, begun, &row, tally, out)
}

/// Tries a case in one way, and counts it.
fn tries_way<O: Write>(
    alloc: Global,
    begun: &Begun<'_>,
    way: &str,
    tally: &mut Tally,
    out: &mut O,
) -> Tried<()> {
    let mut text = String::new(alloc);
    fill_all(&mut text, begun.lines.as_slice(), way)?;
    let mut row = Row::new(alloc, begun.name);
    adds_lines(&mut row, begun.lines.as_slice(), text.as_str())?;
    tallies(alloc, begun, &row, tally, out)
}

/// Adds the lines as they are in one way.
fn fill_all(text: &mut String, lines: &[(usize, &str)], way: &str) -> Result<()> {
    for (_, line) in lines {
        fill(text, line, way)?;
    }
    Ok(())
}

/// Adds to a case what the lines of a text say, which have the numbers of others.
fn adds_lines<'t>(row: &mut Row<'t>, lines: &[(usize, &str)], text: &'t str) -> Result<()> {
    let mut filled = text.lines();
    for (number, _) in lines {
        adds_line(row, *number, filled.next().unwrap_or(""))?;
    }
    Ok(())
}

/// Adds a line, in which the keys of the first count of a way stand for `@`, those of the second
/// for `&`, and its number for `#`. A count that is not typed is written as `-`.
fn fill(text: &mut String, line: &str, way: &str) -> Result<()> {
    let mut parts = way.split(' ');
    let first = parts.next().unwrap_or("-");
    let second = parts.next().unwrap_or("-");
    let number = parts.next().unwrap_or("-");
    for c in line.chars() {
        match c {
            '@' => types_count(text, first)?,
            '&' => types_count(text, second)?,
            '#' => text.push_str(number)?,
            c => text.push(c)?,
        }
    }
    text.push('\n')?;
    Ok(())
}

/// Adds the names of the keys of a count, with a blank after each.
fn types_count(text: &mut String, count: &str) -> Result<()> {
    for digit in count.chars() {
        if digit != '-' {
            text.push(digit)?;
            text.push(' ')?;
        }
    }
    Ok(())
}

/// How the values begin that a case can want.
const VALUES: &str =
    "all|at|behind|calls|cursor|empty|end|entries|eof|fails|fault|flags|highlighter|\
hint|interrupted|is|kinds|last|len|line|mode|needs|own|place|proceeds|prompt|reads|recovers|\
redraws|says|shows|style|submitted|then|trails|widths";

/// Whether each value that a case wants is one that there is.
fn are_values(wanted: &str) -> bool {
    for field in wanted.split(" | ") {
        if !is_among(first_word(field), VALUES) {
            return false;
        }
    }
    true
}

/// Tries a case, and counts it.
fn tallies<O: Write>(
    alloc: Global,
    begun: &Begun<'_>,
    row: &Row<'_>,
    tally: &mut Tally,
    out: &mut O,
) -> Tried<()> {
    if !are_values(row.wanted) {
        return Err(Stop::BadLine(row.number));
    }
    if tries(alloc, begun.settings.as_slice(), row, out)? {
        tally.differing = tally.differing.saturating_add(1);
    }
    tally.rows = tally.rows.saturating_add(1);
    Ok(())
}

/// Tries a case with these settings. Returns whether it differs.
fn tries<O: Write>(
    alloc: Global,
    settings: &[(usize, &str)],
    row: &Row<'_>,
    out: &mut O,
) -> Tried<bool> {
    let mut setup = Setup::new(alloc)?;
    sets_up(alloc, &mut setup, settings)?;
    tries_set_up(alloc, &mut setup, row, out)
}

/// Takes the settings.
fn sets_up<'t>(alloc: Global, setup: &mut Setup<'t>, settings: &[(usize, &'t str)]) -> Tried<()> {
    for (number, line) in settings {
        if !setup.push(alloc, line)? {
            return Err(Stop::BadLine(*number));
        }
    }
    Ok(())
}

/// Tries a case with what its settings say. Returns whether it differs.
fn tries_set_up<O: Write>(
    alloc: Global,
    setup: &mut Setup<'_>,
    row: &Row<'_>,
    out: &mut O,
) -> Tried<bool> {
    let mut bindings = Bindings::new(alloc);
    for (event, target) in mem::replace(&mut setup.bound, Vec::new(alloc)) {
        let handler: EventHandler = match target {
            Target::Does(command) => EventHandler::Simple(command),
            Target::Asks(watcher) => EventHandler::Conditional(watcher),
        };
        let _ = bindings.insert(event, handler)?;
    }
    if setup.screen.is_none() {
        return tries_script(alloc, setup, &bindings, row, out);
    }
    tries_on_bench(alloc, setup, &bindings, row, out)
}

/// Tries a case on the bench, in both ways where it is to be.
fn tries_on_bench<O: Write>(
    alloc: Global,
    setup: &mut Setup<'_>,
    bindings: &Bindings,
    row: &Row<'_>,
    out: &mut O,
) -> Tried<bool> {
    let both_ways = setup.both_ways;
    setup.both_ways = false;
    let differs = tries_one_way(alloc, setup, bindings, row, out)?;
    if differs || !both_ways {
        return Ok(differs);
    }
    setup.both_ways = true;
    tries_one_way(alloc, setup, bindings, row, out)
}

/// Tries a case on the bench, in the way that its settings ask for.
fn tries_one_way<O: Write>(
    alloc: Global,
    setup: &Setup<'_>,
    bindings: &Bindings,
    row: &Row<'_>,
    out: &mut O,
) -> Tried<bool> {
    let mut bench = Bench::new(alloc, setup);
    bench.tries(alloc, setup, bindings, row)?;
    match bench.seen.bad_line {
        Some(number) => Err(Stop::BadLine(number)),
        None => compares(row, &bench.seen.lines, out),
    }
}

/// Tries a case by a script. Returns whether it differs.
fn tries_script<O: Write>(
    alloc: Global,
    setup: &mut Setup<'_>,
    bindings: &Bindings,
    row: &Row<'_>,
    out: &mut O,
) -> Tried<bool> {
    for (number, line) in row.items.as_slice() {
        if !setup.parsed.push_line(alloc, line)? {
            return Err(Stop::BadLine(*number));
        }
    }
    let mut printed = Vec::new(alloc);
    let _ = edit(
        alloc,
        &mut setup.parsed,
        bindings,
        setup.kill_ring_size,
        &mut printed,
    )?;
    compares(row, &printed, out)
}

/// Compares what was seen with what a case wants. Returns whether it differs.
fn compares<O: Write>(row: &Row<'_>, seen: &[u8], out: &mut O) -> Tried<bool> {
    Ok(differs(row, str::from_utf8(seen).unwrap_or(""), out)?)
}
