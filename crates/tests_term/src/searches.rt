//! What comes of searches through a history, by the bytes that are typed, whole and in pieces.

use crate::sessions::{Case, LINES, SEARCH, SEARCH_VI};

pub(crate) const CASES: &[Case] = &[
    // the newest line that contains the term, with the cursor at it, and older and newer ones
    (
        SEARCH,
        LINES,
        "»¦\x12one",
        "gamma |one",
        "(reverse-i-search)`one': ",
    ),
    (SEARCH, LINES, "»¦\x12a\x12", "g|amma one", ""),
    (SEARCH, LINES, "»¦\x12a\x12\x12", "bet|a two", ""),
    (
        SEARCH,
        LINES,
        "»¦\x12one\x12",
        "alpha |one",
        "(reverse-i-search)`one': ",
    ),
    (
        SEARCH,
        LINES,
        "»¦\x12one\x12\x12",
        "alpha |one",
        "(failed reverse-i-search)`one': ",
    ),
    (SEARCH, LINES, "»¦\x12one\x12\x13", "gamma |one", ""),
    (
        SEARCH,
        LINES,
        "»¦\x12one\x12\x13\x13",
        "gamma |one",
        "(failed reverse-i-search)`one': ",
    ),
    (
        SEARCH,
        LINES,
        "»¦\x12onez",
        "gamma |one",
        "(failed reverse-i-search)`onez': ",
    ),
    (
        SEARCH,
        "日本 é one|one",
        "»¦\x12é",
        "日本 |é one",
        "(reverse-i-search)`é': ",
    ),
    (SEARCH, LINES, "»¦\x13one\x12", "gamma |one", ""),
    // the empty term is found nowhere
    (
        SEARCH,
        LINES,
        "»¦\x12\x12",
        "|",
        "(failed reverse-i-search)`': ",
    ),
    (SEARCH, LINES, "»¦\x12\x12a", "delt|a", ""),
    // a shorter term stands where it stood
    (SEARCH, LINES, "»¦\x12al\x7f", "delt|a", ""),
    (SEARCH, LINES, "»¦abc\x12al\x7f\x7f", "abc|", ""),
    (SEARCH, LINES, "»¦abc\x02\x12\x7f", "ab|c", ""),
    (SEARCH, LINES, "»¦\x12onez\x7f\x12", "alpha |one", ""),
    // Abort restores the line from before, with its cursor
    (SEARCH, LINES, "»¦abc\x02\x12o\x07", "ab|c", ""),
    (SEARCH, LINES, "»¦abc\x02\x12o\x07X", "abX|c", ""),
    (SEARCH, LINES, "»¦abc\x12o¦\x1b¦…", "abc|", ""),
    (SEARCH, LINES, "»¦abc\x12o\x07\x1f", "|", ""),
    (SEARCH, LINES, "»¦\x10\x12one\x07\x10", "gamma one|", ""),
    // one undo brings the line back
    (SEARCH, LINES, "»¦abc\x12o\x1b[C\x1f", "abc|", ""),
    (SEARCH, LINES, "»¦abc\x12a\x12\x12\x13l\x7f\x1f", "abc|", ""),
    // anything else ends a search, and is done with the line that was found
    (SEARCH, LINES, "»¦\x12o\r", "⏎gamma one", ""),
    (SEARCH, LINES, "»¦\x12one\x1b[DX", "gammaX| one", ""),
    (SEARCH, LINES, "»¦\x12one\x0b\x19", "gamma one|", ""),
    (SEARCH, LINES, "»¦\x12one\x04", "gamma |ne", ""),
    (SEARCH, LINES, "»¦\x12\x04", "■", ""),
    (SEARCH, LINES, "»¦\x12one\x03", "×", ""),
    (SEARCH, LINES, "»¦\x12one\tX", "gamma X|one", ""),
    (SEARCH, LINES, "»¦\x12one\x16\x01", "gamma \x01|one", ""),
    (
        SEARCH,
        LINES,
        "»¦\x12one\x1b[200~ab\x1b[201~",
        "gamma ab|one",
        "",
    ),
    (
        SEARCH,
        LINES,
        "»¦\x12\x1b3o",
        "gamma |one",
        "(reverse-i-search)`o': ",
    ),
    // the history goes on from the line that was found, and comes back to the line that was written
    (SEARCH, LINES, "»¦\x12one\x10", "beta two|", ""),
    (SEARCH, LINES, "»¦abc\x12one\x10\x0e\x0e\x0e", "abc|", ""),
    // a search goes on where the size changes
    (
        SEARCH,
        LINES,
        "»¦\x12o¦↔30¦n",
        "gamma |one",
        "(reverse-i-search)`on': ",
    ),
    // an empty history only beeps
    (SEARCH, "", "»¦\x12", "|", "\x07"),
    (SEARCH, "", "»¦\x12o", "o|", ""),
    (SEARCH, "", "»¦\x13o", "o|", "\x07"),
    // in Vi mode
    (SEARCH_VI, LINES, "»¦\x12one\r", "⏎gamma one", ""),
    (SEARCH_VI, LINES, "»¦\x12one¦\x1b¦…", "gamma| one", ""),
    (SEARCH_VI, LINES, "»¦abc\x12o¦\x1b¦…¦u", "abc|", ""),
    (SEARCH_VI, LINES, "»¦abc¦\x1b¦…¦\x12o\r", "⏎gamma one", ""),
];
