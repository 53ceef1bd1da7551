//! The search for a term in the lines of a history.
ghost use Rattle.std.specs.Prelude.{◌≡◌, ◌<◌, map, option_map, string_bytes, IfSome};
ghost use Rattle.std.specs.Cow.{IsBorrowedStr};
ghost use Rattle.line_parts.specs.History.{away as side_index, count_on_side as side_count};
ghost use Rattle.line_parts.specs.History.{found_of, nearest_match};
ghost use Rattle.line_parts.specs.HistoryPlace.{place_of};

use crate::history::{SearchDirection, SearchResult};
use std::borrow::CowStr;
use std::collections::VecDeque;

// Where a term has to stand in a line.
#[derive(Clone, Copy)]
pub(crate) enum Place {
    Inside,
    Start,
}

impl Place {
    // Returns the byte offset that a search for `term` finds in `line`, if it finds one.
    fn find(self, term: &str, line: &str) -> Option<usize>
        ensures { result ≡ place_of self term.now line.now }
    {
        match self {
            Place::Inside => line.find(term),
            Place::Start if line.starts_with(term) => Some(term.len()),
            Place::Start => None,
        }
    }
}

// Returns how many of `count` lines stand on a side of one, itself included.
fn count_on_side(count: usize, start: usize, dir: SearchDirection) -> usize
    requires { start < count }
    ensures { result ≡ side_count dir count start }
{
    match dir {
        SearchDirection::Forward => count - start,
        SearchDirection::Reverse => start + 1,
    }
}

// Returns the index so many lines away from another.
fn away(count: usize, start: usize, distance: usize, dir: SearchDirection) -> usize
    requires line { start < count }
    requires side { distance < side_count dir count start }
    ensures index { result ≡ side_index dir start distance }
    ensures within { result < count }
{
    match dir {
        SearchDirection::Forward => start + distance,
        SearchDirection::Reverse => start - distance,
    }
}

// Returns the line in which a term has its place, and which is nearest to one in a direction.
pub(crate) fn nearest_match<'a>(
    entries: &'a VecDeque<String>,
    place: Place,
    term: &str,
    start: usize,
    dir: SearchDirection,
) -> Option<SearchResult<'a>>
    ensures answer { option_map found_of result
        ≡ nearest_match (place_of place) (map string_bytes entries.now.items) term.now start dir }
    ensures borrowed { IfSome result (λ f. IsBorrowedStr f.entry) }
{
    if term.is_empty() || entries.len() <= start {
        return None;
    }
    let count = count_on_side(entries.len(), start, dir);
    for distance in 0..count {
        let idx = away(entries.len(), start, distance, dir);
        let entry = entries[idx].as_str();
        if let Some(pos) = place.find(term, entry) {
            return Some(SearchResult {
                entry: CowStr::Borrowed(entry),
                idx,
                pos,
            });
        }
    }
    None
}
