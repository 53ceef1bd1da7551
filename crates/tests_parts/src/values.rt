//! Calls of values that are compared, ordered, copied and shown.

use crate::report::{Report, Row, shown};
use crate::settings::{Held, looks};
use line_buffer::{
    At, Changeset, CharSearch, Direction, GraphemeClusterMode, KillRing, Layout, LineBuffer, Mode,
    Movement, OutOfMemory, Position, Word, WordAction,
};
use line_config::{
    Behavior, BellStyle, Builder, ColorMode, CompletionType, Config, EditMode, HistoryDuplicates,
    Result,
};
use line_parts::{CmdKind, Escapes, Quote, SearchDirection, SearchResult};
use std::alloc::Global;
use std::borrow::CowStr;
use std::fmt::Debug;
use tests_parties::source::Source;

/// Movements.
const MOVEMENTS: &[Movement] = &[
    Movement::WholeLine,
    Movement::BeginningOfLine,
    Movement::EndOfLine,
    Movement::BackwardWord(1, Word::Big),
    Movement::BackwardWord(2, Word::Big),
    Movement::BackwardWord(1, Word::Vi),
    Movement::ForwardWord(1, At::Start, Word::Vi),
    Movement::ForwardWord(2, At::Start, Word::Vi),
    Movement::ForwardWord(1, At::AfterEnd, Word::Vi),
    Movement::ForwardWord(1, At::Start, Word::Big),
    Movement::ViCharSearch(1, CharSearch::Forward('a')),
    Movement::ViCharSearch(2, CharSearch::Forward('a')),
    Movement::ViCharSearch(1, CharSearch::Backward('a')),
    Movement::ViFirstPrint,
    Movement::BackwardChar(1),
    Movement::BackwardChar(2),
    Movement::ForwardChar(1),
    Movement::ForwardChar(2),
    Movement::LineUp(1),
    Movement::LineUp(2),
    Movement::LineDown(1),
    Movement::LineDown(2),
    Movement::WholeBuffer,
    Movement::BeginningOfBuffer,
    Movement::EndOfBuffer,
];

/// Searches for a character.
const SEARCHES: &[CharSearch] = &[
    CharSearch::Forward('a'),
    CharSearch::ForwardBefore('a'),
    CharSearch::Backward('a'),
    CharSearch::BackwardAfter('a'),
    CharSearch::Forward('b'),
    CharSearch::ForwardBefore('b'),
    CharSearch::Backward('b'),
    CharSearch::BackwardAfter('b'),
];

/// Places, in their order.
const POSITIONS: &[Position] = &[
    Position { row: 0, col: 0 },
    Position { row: 0, col: 1 },
    Position { row: 0, col: 9 },
    Position { row: 0, col: 65535 },
    Position { row: 1, col: 0 },
    Position { row: 1, col: 1 },
    Position { row: 1, col: 2 },
    Position { row: 2, col: 0 },
    Position { row: 65535, col: 0 },
];

const CLUSTERS: &[GraphemeClusterMode] = &[
    GraphemeClusterMode::Unicode,
    GraphemeClusterMode::WcWidth,
    GraphemeClusterMode::NoZwj,
];

const ACTIONS: &[WordAction] = &[
    WordAction::Capitalize,
    WordAction::Lowercase,
    WordAction::Uppercase,
];

const DUPLICATES: &[HistoryDuplicates] = &[
    HistoryDuplicates::AlwaysAdd,
    HistoryDuplicates::IgnoreConsecutive,
];

const COMPLETIONS: &[CompletionType] = &[CompletionType::Circular, CompletionType::List];

const DIRECTIONS: &[SearchDirection] = &[SearchDirection::Forward, SearchDirection::Reverse];

const BELLS: &[BellStyle] = &[BellStyle::Audible, BellStyle::None, BellStyle::Visible];

const COLORS: &[ColorMode] = &[ColorMode::Enabled, ColorMode::Forced, ColorMode::Disabled];

const KINDS: &[CmdKind] = &[CmdKind::MoveCursor, CmdKind::Other, CmdKind::ForcedRefresh];

/// Makes the calls of a case.
pub fn plays(alloc: Global, rows: &[Row<'_>], report: &mut Report) -> Result<()> {
    let mut held = Held {
        builder: Builder::new(GraphemeClusterMode::Unicode),
        config: Config::new(GraphemeClusterMode::Unicode),
        kept: Vec::new(alloc),
    };
    for row in rows {
        let given = says(alloc, &mut Source::new(row.call()), &mut held);
        if !report.takes(*row, given)? {
            return Ok(());
        }
    }
    Ok(())
}

/// What a call gives: where its first word is a type, which values of this type equal the one of
/// the number that follows; for a default, which of the first value and the default do.
fn says(alloc: Global, source: &mut Source<'_>, held: &mut Held) -> Result<Option<String>> {
    match source.word().unwrap_or("") {
        "Config" => alike(alloc, source, &held.kept),
        "Word" => alike(alloc, source, &[Word::Big, Word::Emacs, Word::Vi]),
        "At" => alike(alloc, source, &[At::Start, At::BeforeEnd, At::AfterEnd]),
        "CharSearch" => alike(alloc, source, SEARCHES),
        "Mode" => alike(alloc, source, &[Mode::Append, Mode::Prepend]),
        "GraphemeClusterMode" => alike(alloc, source, CLUSTERS),
        "WordAction" => alike(alloc, source, ACTIONS),
        "Direction" => alike(alloc, source, &[Direction::Forward, Direction::Backward]),
        "Position" => alike(alloc, source, POSITIONS),
        "Movement" => alike(alloc, source, MOVEMENTS),
        "OutOfMemory" => alike(alloc, source, &[OutOfMemory]),
        "BellStyle" => alike(alloc, source, BELLS),
        "default_bell" => alike(alloc, source, &[BellStyle::Audible, BellStyle::default()]),
        "HistoryDuplicates" => alike(alloc, source, DUPLICATES),
        "CompletionType" => alike(alloc, source, COMPLETIONS),
        "EditMode" => alike(alloc, source, &[EditMode::Emacs, EditMode::Vi]),
        "ColorMode" => alike(alloc, source, COLORS),
        "Behavior" => alike(alloc, source, &[Behavior::Stdio, Behavior::PreferTerm]),
        "default_behavior" => alike(alloc, source, &[Behavior::Stdio, Behavior::default()]),
        "CmdKind" => alike(alloc, source, KINDS),
        "SearchDirection" => alike(alloc, source, DIRECTIONS),
        "Quote" => alike(alloc, source, &[Quote::Double, Quote::Single, Quote::None]),
        "Escapes" => alike(alloc, source, &[Escapes::V2, Escapes::V3]),
        name => of_parts(alloc, name, source, held),
    }
}

/// What a call of this name gives, which looks at values that are made of parts.
fn of_parts(
    alloc: Global,
    name: &str,
    source: &mut Source<'_>,
    held: &mut Held,
) -> Result<Option<String>> {
    match name {
        "order" => {
            let (one, other) = (position(source), position(source));
            let order = (one.cmp(&other), one.partial_cmp(&other));
            shown(alloc, (one == other, one < other, order))
        }
        "SearchResult" => shown(alloc, found(source)),
        "results" => {
            let (one, other) = (found(source), found(source));
            let (copy, owned) = (one.clone()?, owning(alloc, &one)?.clone()?);
            let of_copies = (copy == owning(alloc, &other)?, owned == other);
            shown(alloc, (one == other, one != other, of_copies))
        }
        "line" => {
            let mut line = LineBuffer::init(alloc, "ab日", 2)?;
            let mut changes = Changeset::new(alloc);
            line.yank("xyz", 1, &mut changes)?;
            shown(alloc, (line, changes))
        }
        "ring" => {
            let mut ring = KillRing::new(alloc, source.number());
            ring.kill(source.text().unwrap_or(""), Mode::Append)?;
            shown(alloc, ring)
        }
        "layout" => {
            let mut layout = Layout::new(GraphemeClusterMode::NoZwj);
            layout.end = position(source);
            shown(alloc, layout)
        }
        name => looks(alloc, name, source, held),
    }
}

/// The position of the next two numbers, or the default.
fn position(source: &mut Source<'_>) -> Position {
    match source.count() {
        Some(row) => Position {
            row,
            col: source.count().unwrap_or(0),
        },
        None => Position::default(),
    }
}

/// The result of a search that has the next text, and the next two numbers.
fn found<'t>(source: &mut Source<'t>) -> SearchResult<'t> {
    SearchResult {
        entry: CowStr::Borrowed(source.text().unwrap_or("")),
        idx: source.number(),
        pos: source.number(),
    }
}

/// An equal result, which owns its line.
fn owning(alloc: Global, found: &SearchResult<'_>) -> Result<SearchResult<'static>> {
    Ok(SearchResult {
        entry: CowStr::Owned(String::from_str(alloc, &found.entry)?),
        idx: found.idx,
        pos: found.pos,
    })
}

/// Which copies of values equal the value of the next number, with a sign for each: an equals sign,
/// a point where it is another one, or a question mark where both `==` and `!=` hold, or none. Then
/// how that value is shown.
fn alike<T: Clone + Drop + PartialEq + Debug>(
    alloc: Global,
    source: &mut Source<'_>,
    values: &[T],
) -> Result<Option<String>> {
    let Some(one) = values.get(source.number()) else {
        return Ok(None);
    };
    let mut signs = String::new(alloc);
    for other in values {
        let copy = other.clone()?;
        signs.push(match (*one == copy, *one != copy) {
            (true, false) => '=',
            (false, true) => '.',
            _ => '?',
        })?;
    }
    Ok(Some(format!(in alloc; "{signs} {one:?}")?))
}
