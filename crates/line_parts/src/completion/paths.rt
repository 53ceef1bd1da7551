//! The path that ends at a cursor, and the names in a folder that complete it.
ghost use Rattle.std.specs.Prelude.{◌≡◌, ◌==◌, Some, chars, drop, encode_utf8_all, length, map, take};
ghost use Rattle.std.specs.Prelude.{IfOk};
ghost use Rattle.std.specs.Cow.{cow_str_bytes};
ghost use Rattle.line_config.specs.Error.{MemoryOnly};
ghost use Rattle.line_parts.specs.Candidate.{BeginsIn, pair_offer};
ghost use Rattle.line_parts.specs.Completed.{breaks_in, breaks_word, listed_of, name_start, offered, offered_for, path_before};
ghost use Rattle.line_parts.specs.Escape.{offset_at};

use crate::completion::escapes::{Quote, escape, extract_word, unescape};
use crate::completion::filename::Entry;
use crate::completion::pair::Pair;
use crate::completion::quotes::find_unclosed_quote;
use line_config::Result;
use std::alloc::Global;
use std::borrow::CowStr;

/// The escape character of a path.
const ESCAPE: Option<char> = Some('\\');

// Returns whether words break at a character outside quotes.
fn breaks_word(c: char) -> bool
    ensures { result ≡ breaks_word c }
{
    matches!(
        c,
        ' ' | '\t'
            | '\n'
            | '"'
            | '\\'
            | '\''
            | '`'
            | '@'
            | '$'
            | '>'
            | '<'
            | '='
            | ';'
            | '|'
            | '&'
            | '{'
            | '('
            | '\0'
    )
}

// Returns whether a character is escaped in quotes of a kind.
fn breaks_in(quote: Quote, c: char) -> bool
    ensures { result ≡ breaks_in quote c }
{
    match quote {
        Quote::Double => matches!(c, '"' | '$' | '\\' | '`'),
        _ => breaks_word(c),
    }
}

// Returns where the path that ends a text begins, the path without its escapes, and its quotes.
pub(crate) fn path_before(alloc: Global, text: &str) -> Result<(usize, CowStr<'_>, Quote)>
    ensures path { IfOk result (λ r. let found = path_before (chars text.now) in
        (r.0 ≡ offset_at (chars text.now) found.start)
        × (cow_str_bytes r.1 ≡ encode_utf8_all found.path) × (r.2 ≡ found.quote)) }
    ensures within { IfOk result (λ r. BeginsIn text.now (length text.now) r.0) }
    ensures memory { MemoryOnly result }
{
    let Some((quote, path)) = find_unclosed_quote(text) else {
        let (start, word) = extract_word(
            text,
            text.len(),
            ESCAPE,
            |c|
                ensures { result ≡ breaks_word c }
            { breaks_word(c) },
        );
        return Ok((start, unescape(alloc, word, ESCAPE)?, Quote::None));
    };
    let start = text.len() - path.len();
    match quote {
        Quote::Double => Ok((start, unescape(alloc, path, ESCAPE)?, quote)),
        _ => Ok((start, CowStr::Borrowed(path), quote)),
    }
}

// Returns a path up to its last `/`, and the name after it.
pub(crate) fn split_path(path: &str) -> (&str, &str)
    ensures folder { let cs = chars path.now in
        result.0.now ≡ encode_utf8_all (take (name_start cs) cs) }
    ensures name { let cs = chars path.now in
        result.1.now ≡ encode_utf8_all (drop (name_start cs) cs) }
{
    let (start, name) = extract_word(
        path,
        path.len(),
        None,
        |c|
            ensures { result ≡ (c == 47) }
        { c == '/' },
    );
    (&path[..start], name)
}

// Returns a name in a folder as a candidate.
fn candidate(alloc: Global, folder: &str, entry: Entry, quote: Quote) -> Result<Pair>
    ensures offer { IfOk result
        (λ pair. pair_offer pair ≡ offered quote folder.now (listed_of entry)) }
    ensures memory { MemoryOnly result }
{
    let path = format!(in alloc; "{folder}{}", entry.name)?;
    let mut replacement = escape(path, ESCAPE, |c| breaks_in(quote, c), quote)?;
    if entry.folder {
        replacement.push('/')?;
    }
    Ok(Pair {
        display: entry.name,
        replacement,
    })
}

// Returns the candidates among the names in a folder: those that start with a name.
pub(crate) fn candidates(
    alloc: Global,
    folder: &str,
    name: &str,
    entries: Vec<Entry>,
    quote: Quote,
) -> Result<Vec<Pair>>
    ensures offers { IfOk result (λ pairs. map pair_offer pairs.items
        ≡ offered_for quote folder.now name.now (Some (map listed_of entries.items))) }
    ensures memory { MemoryOnly result }
{
    let mut pairs = Vec::new(alloc);
    for entry in entries {
        if entry.name.starts_with(name) {
            pairs.push(candidate(alloc, folder, entry, quote)?)?;
        }
    }
    Ok(pairs)
}
