//! Texts and pasted texts, by their bytes.

use crate::sequences::Rows;

/// Bytes, and the characters that they type.
pub(crate) const TYPED: Rows = &[
    ("az09", "a z 0 9"),
    (
        "\u{c3}\u{a9}\u{e6}\u{97}\u{a5}\u{f0}\u{9f}\u{98}\u{80}",
        "é 日 😀",
    ),
    ("e\u{cc}\u{81}", "e \u{301}"),
    // the first and the last of each length
    ("\u{c2}\u{a0}\u{df}\u{bf}", "\u{a0} \u{7ff}"),
    ("\u{e0}\u{a0}\u{80}\u{ef}\u{bf}\u{bd}", "\u{800} \u{fffd}"),
    ("\u{ed}\u{9f}\u{bf}\u{ee}\u{80}\u{80}", "\u{d7ff} \u{e000}"),
    (
        "\u{f0}\u{90}\u{80}\u{80}\u{f4}\u{8f}\u{bf}\u{bf}",
        "\u{10000} \u{10ffff}",
    ),
    // longer than they need be, one U+FFFD a byte
    ("\u{c0}\u{80}x", "\u{fffd} \u{fffd} x"),
    ("\u{e0}\u{80}\u{80}x", "\u{fffd} \u{fffd} \u{fffd} x"),
    (
        "\u{f0}\u{80}\u{80}\u{80}x",
        "\u{fffd} \u{fffd} \u{fffd} \u{fffd} x",
    ),
    // surrogates, and past the last character
    ("\u{ed}\u{a0}\u{80}x", "\u{fffd} \u{fffd} \u{fffd} x"),
    (
        "\u{f4}\u{90}\u{80}\u{80}x",
        "\u{fffd} \u{fffd} \u{fffd} \u{fffd} x",
    ),
    ("\u{f5}\u{80}x\u{ff}", "\u{fffd} \u{fffd} x \u{fffd}"),
    // a byte that goes on with nothing
    ("\u{80}x\u{bf}", "\u{fffd} x \u{fffd}"),
    // what breaks off is one U+FFFD, and the byte that broke it is read anew
    ("\u{c3}x", "\u{fffd} x"),
    ("\u{e6}\u{97}x", "\u{fffd} x"),
    ("\u{f0}\u{9f}\u{98}x", "\u{fffd} x"),
    ("\u{e6}\u{c3}\u{a9}", "\u{fffd} é"),
    ("\u{f0}\u{9f}\u{e6}\u{97}\u{a5}", "\u{fffd} 日"),
    ("\u{e6}\u{97}\x1b[A", "\u{fffd} Up"),
    // a text that ends before its last character does
    ("a\u{c3}", "a \u{fffd}"),
    ("a\u{e6}\u{97}", "a \u{fffd}"),
    ("a\u{f0}\u{9f}\u{98}", "a \u{fffd}"),
];

/// Bytes with the marks of a pasted text, and that text.
pub(crate) const PASTED: Rows = &[
    ("\x1b[200~abc\x1b[201~", "“abc"),
    ("\x1b[200~\u{c3}\u{a9}\u{e6}\u{97}\u{a5}\x1b[201~", "“é日"),
    // each kind of line end is a newline
    (
        "\x1b[200~a\rb\r\nc\nd\r\r\n\n\r\x1b[201~",
        "“a\nb\nc\nd\n\n\n\n",
    ),
    // control characters beside newline and tab are left out
    (
        "\x1b[200~a\tb\x00\x03\x04\x07\x7fc\u{c2}\u{9b}d\x1b[201~",
        "“a\tbcd",
    ),
    ("\x1b[200~a\r\x01\nb\x1b[201~", "“a\n\nb"),
    // an Esc is left out, and what is after it is text, unless it is the mark
    ("\x1b[200~a\x1b[31mb\x1b[201~", "“a[31mb"),
    ("\x1b[200~\x1b[200~a\x1b[201~", "“[200~a"),
    ("\x1b[200~a\x1b[20\x1b[201~", "“a[20"),
    (
        "\x1b[200~a\x1b[201b\x1b[2\u{c3}\u{a9}\x1b[201~",
        "“a[201b[2é",
    ),
    ("\x1b[200~a\x1b\rb\x1b[201~", "“a\nb"),
    // what is no UTF-8 is U+FFFD
    (
        "\x1b[200~a\u{ff}b\u{e6}\u{97}\x1b[201~",
        "“a\u{fffd}b\u{fffd}",
    ),
    ("\x1b[200~ls\r\x1b[201~", "“ls\n"),
];

// Pasted texts that are given at a bound of so many bytes, and the last one where the input ends.

pub(crate) const BY_FOUR: Rows = &[
    ("\x1b[200~abcdefgh\x1b[201~", "“abcd “efgh"),
    ("\x1b[200~abcdefgh\x1b[201~…■", "“abcd “efgh"),
    ("\x1b[200~abcdefghi⋯", "“abcd “efgh “i"),
    ("\x1b[200~abcdefghi■", "“abcd “efgh “i"),
    ("\x1b[200~abc⋯defghi■", "“abc “defg “hi"),
];

pub(crate) const BY_THREE: Rows = &[
    ("\x1b[200~a\u{e6}\u{97}\u{a5}bc\x1b[201~", "“a日 “bc"),
    ("\x1b[200~a\u{e6}\u{97}\u{a5}bc\x1b[201~…■", "“a日 “bc"),
];

pub(crate) const BY_A_HUNDRED: Rows = &[
    ("\x1b[200~abc\x1b[20⋯", "“abc"),
    ("\x1b[200~abc\x1b[20■", "“abc"),
];

pub(crate) const BY_NONE: Rows = &[
    ("\x1b[200~ab\x1b[201~", "“a “b"),
    ("\x1b[200~ab\x1b[201~…■", "“a “b"),
];

pub(crate) const BY_ONE: Rows = &[("\x1b[200~\x1b[201~", ""), ("\x1b[200~\x1b[201~…■", "")];
