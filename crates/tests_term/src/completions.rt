//! What comes of completions, by the bytes that are typed, whole and in pieces.

use crate::sessions::{ASK, Case, LIST, LIST_AT_ONCE, MANY, ROUND, ROUND_VI};

pub(crate) const CASES: &[Case] = &[
    // round by way of the line from before, and back
    (ROUND, "ab ac", "»¦x a\t", "x ab|", ""),
    (ROUND, "ab ac", "»¦x a\t\t", "x ac|", ""),
    (ROUND, "ab ac", "»¦x a\t\t\t", "x a|", "\x07"),
    (ROUND, "ab ac", "»¦x a\t\t\t\t", "x ab|", ""),
    (ROUND, "ab ac", "»¦a\t\x1b[Z", "a|", "\x07"),
    (ROUND, "ab ac", "»¦a\t\x1b[Z\x1b[Z", "ac|", ""),
    (ROUND, "ab ac", "»a|z¦\t\t", "ac|z", ""),
    // Abort gives up the candidates, and anything else keeps the shown one
    (ROUND, "ab ac", "»¦x a\t\t\x07", "x a|", ""),
    (ROUND, "ab ac", "»¦a\t\x07\t", "ab|", ""),
    (ROUND, "ab ac", "»¦a\tx", "abx|", ""),
    (ROUND, "ab ac", "»¦a\t\x02", "a|b", ""),
    (ROUND, "ab ac", "»¦a\t\r", "⏎ab", ""),
    (ROUND, "ab ac", "»¦a\t\x16\tb", "ab\tb|", ""),
    (ROUND, "ab ac", "»¦a\t\x1b[200~z\x1b[201~", "abz|", ""),
    (ROUND, "ab ac", "»¦a\t¦↔10¦\t", "ac|", ""),
    // one undo takes it back, whatever way it was gone through
    (ROUND, "ab ac", "»¦x a\t\t\x1f", "x a|", ""),
    (ROUND, "ab ac", "»¦x a\t\t\t\t\x1f", "x a|", ""),
    (ROUND, "ab ac", "»a|z¦\t\x1f", "a|z", ""),
    (ROUND, "ab ac", "»¦x a\t\t\t\x1f", "x|", ""),
    // Vi: in insert mode
    (ROUND_VI, "ab ac", "»¦x a\t\t", "x ac|", ""),
    (ROUND_VI, "ab ac", "»¦x a\t\t\t", "x a|", "\x07"),
    (ROUND_VI, "ab ac", "»¦x a\t\x1b¦…¦u", "x a|", ""),
    // one candidate, and none
    (ROUND, "ab/", "»¦a\t", "ab/|", ""),
    (ROUND, "日本", "»¦日\t", "日本|", ""),
    (ROUND, "ab ac", "»¦b\tc", "bc|", "\x07"),
    (ROUND, "ab ac", "»¦a\x1b[Zb", "ab|", ""),
    // as far as they agree
    (LIST, "abc abd", "»¦x a\t", "x ab|", "\x07"),
    (LIST, "abc abd", "»¦x a\t\x1f", "x a|", ""),
    (LIST, "abc abd", "»¦ab\t", "ab|", "\x07"),
    (LIST, "abc", "»¦a\t\x1f", "a|", ""),
    (LIST, "abc", "»¦abc\tz", "abcz|", ""),
    (LIST, "abc abd", "»¦b\tc", "bc|", "\x07"),
    // another Tab lists them, sorted down the columns
    (LIST, "abc abd", "»¦a\t\tz", "abz|", "\r\nabc  abd\r\n"),
    (
        LIST,
        "a1 a2 a3 a4 a5 a6",
        "»¦a\t\tz",
        "az|",
        "a1  a3  a5\r\na2  a4  a6\r\n",
    ),
    (LIST, "aé a日 ab", "»¦a\t\tz", "az|", "aé   a日  ab\r\n"),
    // below the last row of the line, wherever the cursor is
    (
        LIST,
        "abc abd",
        "»a|xxxxxxxxxxxxxxxxxxxxxxxxxxxxxx¦\t\tz",
        "abz|xxxxxxxxxxxxxxxxxxxxxxxxxxxxxx",
        "\x1b[1B\r\x1b[14C\r\nabc  abd\r\n",
    ),
    (LIST, "abc abd", "»¦a\tx\t\t", "abx|", "\x07"),
    (LIST_AT_ONCE, "abc abd", "»¦a\tz", "abz|", "abc  abd\r\n"),
    // past the limit it is asked
    (
        ASK,
        "abc abd",
        "»¦a\t\t",
        "ab|",
        "Display all 2 possibilities? (y or n)",
    ),
    (
        ASK,
        "abc abd",
        "»¦a\t\txqyz",
        "abz|",
        "(y or n)\r\nabc  abd\r\n",
    ),
    (ASK, "abc abd", "»¦a\t\tnz", "abz|", "(y or n)\r\n"),
    (ASK, "abc abd", "»¦a\t\t\x7fz", "abz|", "(y or n)\r\n"),
    // by pages of four rows
    (
        LIST,
        MANY,
        "»¦a\t\t",
        "a|",
        "a3        a9\r\na4        aa\r\n--More--",
    ),
    (
        LIST,
        MANY,
        "»¦a\t\tx z",
        "az|",
        "--More--\r\na5        ab\r\na6        abcdefgh\r\n",
    ),
    (
        LIST,
        MANY,
        "»¦a\t\t\rnz",
        "az|",
        "--More--\r\na5        ab\r\n--More--\r\n",
    ),
    (
        LIST,
        MANY,
        "»¦a\t\t\n\nz",
        "az|",
        "--More--\r\na6        abcdefgh\r\n",
    ),
    (LIST, MANY, "»¦a\t\tqz", "az|", "--More--\r\n"),
    // a list ends where the size changes
    (LIST, MANY, "»¦a\t\t¦↔12¦z", "az|", "--More--\r\n"),
];
