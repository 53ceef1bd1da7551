//! The rows of the tables of Emacs and of both edit modes.

use super::Line;
use super::Way::{self, Alone, Listed, Search, Second};
use line_keys::keys::{KeyCode as K, Modifiers as M};

/// How a key is tried, the key, and what it means for a count and for one with a minus sign, with #
/// for the number.
pub(super) type Row = (Way, K, M, &'static str, &'static str);

/// Lines, and the rows that hold on each.
pub(super) const TABLES: &[(Line, &[Row])] = &[
    (("ab", 1, None), INSIDE),
    (("", 0, None), EMPTY),
    (("ab", 2, None), MOVES),
    (("ab", 1, Some("c")), MOVES),
    (("ab", 2, Some("c")), TAKES),
    (("", 0, Some("c")), TAKES),
];

/// The command of a key that submits a valid line.
const ACCEPT: &str = "AcceptOrInsertLine { accept_in_the_middle: true }";

/// Where the cursor is not at the end.
const INSIDE: &[Row] = &[
    // Emacs.
    (
        Alone,
        K::Char('x'),
        M::NONE,
        "SelfInsert(#, 'x')",
        "Unknown",
    ),
    (
        Alone,
        K::Char('-'),
        M::NONE,
        "SelfInsert(#, '-')",
        "Unknown",
    ),
    (
        Alone,
        K::Right,
        M::NONE,
        "Move(ForwardChar(#))",
        "Move(BackwardChar(#))",
    ),
    (Alone, K::Esc, M::NONE, "Abort", "Abort"),
    (
        Alone,
        K::Backspace,
        M::NONE,
        "Kill(BackwardChar(#))",
        "Kill(ForwardChar(#))",
    ),
    (
        Alone,
        K::BackTab,
        M::NONE,
        "CompleteBackward",
        "CompleteBackward",
    ),
    (Alone, K::Tab, M::NONE, "Complete", "CompleteBackward"),
    (
        Alone,
        K::Char('A'),
        M::CTRL,
        "Move(BeginningOfLine)",
        "Move(BeginningOfLine)",
    ),
    (
        Alone,
        K::Char('E'),
        M::CTRL,
        "Move(EndOfLine)",
        "Move(EndOfLine)",
    ),
    (
        Alone,
        K::Char('B'),
        M::CTRL,
        "Move(BackwardChar(#))",
        "Move(ForwardChar(#))",
    ),
    (
        Alone,
        K::Char('F'),
        M::CTRL,
        "Move(ForwardChar(#))",
        "Move(BackwardChar(#))",
    ),
    (Alone, K::Char('G'), M::CTRL, "Abort", "Abort"),
    (Alone, K::Char('G'), M::CTRL_ALT, "Abort", "Abort"),
    (
        Alone,
        K::Char('H'),
        M::CTRL,
        "Kill(BackwardChar(#))",
        "Kill(ForwardChar(#))",
    ),
    (Alone, K::Char('I'), M::CTRL, "Complete", "CompleteBackward"),
    (
        Alone,
        K::Char('K'),
        M::CTRL,
        "Kill(EndOfLine)",
        "Kill(BeginningOfLine)",
    ),
    (Alone, K::Char('L'), M::CTRL, "ClearScreen", "ClearScreen"),
    (Alone, K::Char('N'), M::CTRL, "NextHistory", "NextHistory"),
    (
        Alone,
        K::Char('P'),
        M::CTRL,
        "PreviousHistory",
        "PreviousHistory",
    ),
    // Emacs, with Alt or Ctrl.
    (
        Alone,
        K::Backspace,
        M::ALT,
        "Kill(BackwardWord(#, Emacs))",
        "Kill(ForwardWord(#, AfterEnd, Emacs))",
    ),
    (
        Alone,
        K::Char('D'),
        M::ALT,
        "Kill(ForwardWord(#, AfterEnd, Emacs))",
        "Kill(BackwardWord(#, Emacs))",
    ),
    (
        Alone,
        K::Char('d'),
        M::ALT,
        "Kill(ForwardWord(#, AfterEnd, Emacs))",
        "Kill(BackwardWord(#, Emacs))",
    ),
    (
        Alone,
        K::Char('<'),
        M::ALT,
        "BeginningOfHistory",
        "BeginningOfHistory",
    ),
    (Alone, K::Char('>'), M::ALT, "EndOfHistory", "EndOfHistory"),
    (
        Alone,
        K::Char('B'),
        M::ALT,
        "Move(BackwardWord(#, Emacs))",
        "Move(ForwardWord(#, AfterEnd, Emacs))",
    ),
    (
        Alone,
        K::Char('b'),
        M::ALT,
        "Move(BackwardWord(#, Emacs))",
        "Move(ForwardWord(#, AfterEnd, Emacs))",
    ),
    (
        Alone,
        K::Left,
        M::ALT,
        "Move(BackwardWord(#, Emacs))",
        "Move(ForwardWord(#, AfterEnd, Emacs))",
    ),
    (
        Alone,
        K::Left,
        M::CTRL,
        "Move(BackwardWord(#, Emacs))",
        "Move(ForwardWord(#, AfterEnd, Emacs))",
    ),
    (
        Alone,
        K::Char('F'),
        M::ALT,
        "Move(ForwardWord(#, AfterEnd, Emacs))",
        "Move(BackwardWord(#, Emacs))",
    ),
    (
        Alone,
        K::Char('f'),
        M::ALT,
        "Move(ForwardWord(#, AfterEnd, Emacs))",
        "Move(BackwardWord(#, Emacs))",
    ),
    (
        Alone,
        K::Right,
        M::ALT,
        "Move(ForwardWord(#, AfterEnd, Emacs))",
        "Move(BackwardWord(#, Emacs))",
    ),
    (
        Alone,
        K::Right,
        M::CTRL,
        "Move(ForwardWord(#, AfterEnd, Emacs))",
        "Move(BackwardWord(#, Emacs))",
    ),
    (
        Alone,
        K::Char('C'),
        M::ALT,
        "CapitalizeWord",
        "CapitalizeWord",
    ),
    (
        Alone,
        K::Char('c'),
        M::ALT,
        "CapitalizeWord",
        "CapitalizeWord",
    ),
    (Alone, K::Char('L'), M::ALT, "DowncaseWord", "DowncaseWord"),
    (Alone, K::Char('l'), M::ALT, "DowncaseWord", "DowncaseWord"),
    (Alone, K::Char('U'), M::ALT, "UpcaseWord", "UpcaseWord"),
    (Alone, K::Char('u'), M::ALT, "UpcaseWord", "UpcaseWord"),
    (
        Alone,
        K::Char('T'),
        M::ALT,
        "TransposeWords(#)",
        "TransposeWords(#)",
    ),
    (
        Alone,
        K::Char('t'),
        M::ALT,
        "TransposeWords(#)",
        "TransposeWords(#)",
    ),
    (Alone, K::Char('Y'), M::ALT, "YankPop", "YankPop"),
    (Alone, K::Char('y'), M::ALT, "YankPop", "YankPop"),
    // Both edit modes.
    (
        Alone,
        K::Home,
        M::NONE,
        "Move(BeginningOfLine)",
        "Move(BeginningOfLine)",
    ),
    (Alone, K::End, M::NONE, "Move(EndOfLine)", "Move(EndOfLine)"),
    (
        Alone,
        K::Left,
        M::NONE,
        "Move(BackwardChar(#))",
        "Move(ForwardChar(#))",
    ),
    (
        Alone,
        K::Delete,
        M::NONE,
        "Kill(ForwardChar(#))",
        "Kill(BackwardChar(#))",
    ),
    (
        Alone,
        K::Char('D'),
        M::CTRL,
        "Kill(ForwardChar(#))",
        "Kill(BackwardChar(#))",
    ),
    (Alone, K::Char('J'), M::CTRL, ACCEPT, ACCEPT),
    (Alone, K::Char('M'), M::CTRL, ACCEPT, ACCEPT),
    (Alone, K::Enter, M::NONE, ACCEPT, ACCEPT),
    (
        Alone,
        K::Down,
        M::NONE,
        "LineDownOrNextHistory(1)",
        "LineDownOrNextHistory(1)",
    ),
    (
        Alone,
        K::Up,
        M::NONE,
        "LineUpOrPreviousHistory(1)",
        "LineUpOrPreviousHistory(1)",
    ),
    (
        Alone,
        K::Char('R'),
        M::CTRL,
        "ReverseSearchHistory",
        "ReverseSearchHistory",
    ),
    (
        Alone,
        K::Char('S'),
        M::CTRL,
        "ForwardSearchHistory",
        "ForwardSearchHistory",
    ),
    (
        Alone,
        K::Char('T'),
        M::CTRL,
        "TransposeChars",
        "TransposeChars",
    ),
    (Alone, K::Char('Q'), M::CTRL, "QuotedInsert", "QuotedInsert"),
    (Alone, K::Char('V'), M::CTRL, "QuotedInsert", "QuotedInsert"),
    (Alone, K::Char('_'), M::CTRL, "Undo(#)", "Undo(#)"),
    (
        Alone,
        K::Char('U'),
        M::CTRL,
        "Kill(BeginningOfLine)",
        "Kill(EndOfLine)",
    ),
    (
        Alone,
        K::Char('W'),
        M::CTRL,
        "Kill(BackwardWord(#, Big))",
        "Kill(ForwardWord(#, AfterEnd, Big))",
    ),
    (Alone, K::Char('Y'), M::CTRL, "Yank(#, Before)", "Unknown"),
    (Alone, K::UnknownEscSeq, M::NONE, "Noop", "Noop"),
    // After Ctrl-X.
    (Second, K::Char('G'), M::CTRL, "Abort", "Abort"),
    (Second, K::Esc, M::NONE, "Abort", "Abort"),
    (Second, K::Char('U'), M::CTRL, "Undo(#)", "Undo(#)"),
    (
        Second,
        K::Backspace,
        M::NONE,
        "Kill(BeginningOfLine)",
        "Kill(EndOfLine)",
    ),
    (Second, K::Char('G'), M::NONE, "Unknown", "Unknown"),
    (Second, K::Char('H'), M::CTRL, "Unknown", "Unknown"),
    (Second, K::Esc, M::ALT, "Unknown", "Unknown"),
    (Second, K::Backspace, M::CTRL, "Unknown", "Unknown"),
    (Second, K::Enter, M::NONE, "Unknown", "Unknown"),
    // Before é.
    (
        Search,
        K::Char(']'),
        M::CTRL,
        "Move(ViCharSearch(#, ForwardBefore('é')))",
        "Move(ViCharSearch(#, Backward('é')))",
    ),
    (
        Search,
        K::Char(']'),
        M::CTRL_ALT,
        "Move(ViCharSearch(#, Backward('é')))",
        "Move(ViCharSearch(#, ForwardBefore('é')))",
    ),
];

/// On an empty line without a hint.
const EMPTY: &[Row] = &[
    // No table has these.
    (Listed, K::Enter, M::ALT, "Unlisted", "Unlisted"),
    (Listed, K::Right, M::SHIFT, "Unlisted", "Unlisted"),
    (Listed, K::Home, M::CTRL, "Unlisted", "Unlisted"),
    (Listed, K::Esc, M::SHIFT, "Unlisted", "Unlisted"),
    (Listed, K::Tab, M::ALT, "Unlisted", "Unlisted"),
    (Listed, K::Delete, M::ALT, "Unlisted", "Unlisted"),
    (Listed, K::F(1), M::NONE, "Unlisted", "Unlisted"),
    (Listed, K::Insert, M::NONE, "Unlisted", "Unlisted"),
    (Listed, K::Null, M::NONE, "Unlisted", "Unlisted"),
    (Listed, K::PageUp, M::NONE, "Unlisted", "Unlisted"),
    (Listed, K::PageDown, M::NONE, "Unlisted", "Unlisted"),
    (
        Listed,
        K::BracketedPasteEnd,
        M::NONE,
        "Unlisted",
        "Unlisted",
    ),
    (Listed, K::Char('a'), M::CTRL, "Unlisted", "Unlisted"),
    (Listed, K::Char('x'), M::ALT, "Unlisted", "Unlisted"),
    (Listed, K::Char('G'), M::ALT, "Unlisted", "Unlisted"),
    (Listed, K::Char('A'), M::CTRL_SHIFT, "Unlisted", "Unlisted"),
    (Listed, K::Char('B'), M::ALT_SHIFT, "Unlisted", "Unlisted"),
    (Listed, K::Char('H'), M::CTRL_ALT, "Unlisted", "Unlisted"),
    (Listed, K::Char('C'), M::CTRL, "Unlisted", "Unlisted"),
    (Listed, K::Char('O'), M::CTRL, "Unlisted", "Unlisted"),
    (Listed, K::Char('Z'), M::CTRL, "Unlisted", "Unlisted"),
    (Listed, K::Backspace, M::CTRL, "Unlisted", "Unlisted"),
    (Listed, K::Up, M::CTRL, "Unlisted", "Unlisted"),
    (Listed, K::Down, M::ALT, "Unlisted", "Unlisted"),
    // What these mean depends on what is read next.
    (
        Listed,
        K::Char(']'),
        M::CTRL,
        "Search(#, ForwardBefore)",
        "Search(#, Backward)",
    ),
    (
        Listed,
        K::Char(']'),
        M::CTRL_ALT,
        "Search(#, Backward)",
        "Search(#, ForwardBefore)",
    ),
    (
        Listed,
        K::Char('X'),
        M::CTRL,
        "SecondKey(Count { n: #, positive: true })",
        "SecondKey(Count { n: #, positive: false })",
    ),
    (Listed, K::BracketedPasteStart, M::NONE, "Paste", "Paste"),
    // By the table Ctrl-D does nothing there.
    (Listed, K::Char('D'), M::CTRL, "Unknown", "Unknown"),
];

/// Where there is no hint to be taken.
const MOVES: &[Row] = &[(
    Alone,
    K::Right,
    M::NONE,
    "Move(ForwardChar(#))",
    "Move(BackwardChar(#))",
)];

/// Where a hint is shown after the cursor.
const TAKES: &[Row] = &[(Alone, K::Right, M::NONE, "CompleteHint", "CompleteHint")];
