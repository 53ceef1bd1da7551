//! The sequences that terminals send, by what they come to: those of the keys that terminfo has for
//! each terminal, and those of other protocols; each whole, cut at each place, and the keys after
//! an Esc. Texts, too.

use crate::by_bytes::{Ear, first_wrong};
use crate::holds;
use crate::texts::{BY_A_HUNDRED, BY_FOUR, BY_NONE, BY_ONE, BY_THREE, PASTED, TYPED};
use line_keys::keys::Modifiers;
use line_term::decoder::PASTE_BOUND;
use std::alloc::Global;

/// Bytes, and the names of what they come to.
pub(crate) type Rows = &'static [(&'static str, &'static str)];

/// Bytes, and the key that they are.
const KEYS: Rows = &[
    // xterm
    ("\x1bOA", "Up"),
    ("\x1bOB", "Down"),
    ("\x1bOC", "Right"),
    ("\x1bOD", "Left"),
    ("\x1bOF", "End"),
    ("\x1bOH", "Home"),
    ("\x1bOP", "F1"),
    ("\x1bOQ", "F2"),
    ("\x1bOR", "F3"),
    ("\x1bOS", "F4"),
    ("\x1b[15;2~", "S-F5"),
    ("\x1b[15~", "F5"),
    ("\x1b[17;2~", "S-F6"),
    ("\x1b[17~", "F6"),
    ("\x1b[18;2~", "S-F7"),
    ("\x1b[18~", "F7"),
    ("\x1b[19;2~", "S-F8"),
    ("\x1b[19~", "F8"),
    ("\x1b[1;2A", "S-Up"),
    ("\x1b[1;2B", "S-Down"),
    ("\x1b[1;2C", "S-Right"),
    ("\x1b[1;2D", "S-Left"),
    ("\x1b[1;2F", "S-End"),
    ("\x1b[1;2H", "S-Home"),
    ("\x1b[1;2P", "S-F1"),
    ("\x1b[1;2Q", "S-F2"),
    ("\x1b[1;2R", "S-F3"),
    ("\x1b[1;2S", "S-F4"),
    ("\x1b[1;3A", "M-Up"),
    ("\x1b[1;3B", "M-Down"),
    ("\x1b[1;3C", "M-Right"),
    ("\x1b[1;3D", "M-Left"),
    ("\x1b[1;3F", "M-End"),
    ("\x1b[1;3H", "M-Home"),
    ("\x1b[1;4A", "M-S-Up"),
    ("\x1b[1;4B", "M-S-Down"),
    ("\x1b[1;4C", "M-S-Right"),
    ("\x1b[1;4D", "M-S-Left"),
    ("\x1b[1;4F", "M-S-End"),
    ("\x1b[1;4H", "M-S-Home"),
    ("\x1b[1;5A", "C-Up"),
    ("\x1b[1;5B", "C-Down"),
    ("\x1b[1;5C", "C-Right"),
    ("\x1b[1;5D", "C-Left"),
    ("\x1b[1;5F", "C-End"),
    ("\x1b[1;5H", "C-Home"),
    ("\x1b[1;6A", "C-S-Up"),
    ("\x1b[1;6B", "C-S-Down"),
    ("\x1b[1;6C", "C-S-Right"),
    ("\x1b[1;6D", "C-S-Left"),
    ("\x1b[1;6F", "C-S-End"),
    ("\x1b[1;6H", "C-S-Home"),
    ("\x1b[1;7A", "C-M-Up"),
    ("\x1b[1;7B", "C-M-Down"),
    ("\x1b[1;7C", "C-M-Right"),
    ("\x1b[1;7D", "C-M-Left"),
    ("\x1b[1;7F", "C-M-End"),
    ("\x1b[1;7H", "C-M-Home"),
    ("\x1b[20~", "F9"),
    ("\x1b[21~", "F10"),
    ("\x1b[23~", "F11"),
    ("\x1b[24~", "F12"),
    ("\x1b[2;2~", "S-Insert"),
    ("\x1b[2;3~", "M-Insert"),
    ("\x1b[2;4~", "M-S-Insert"),
    ("\x1b[2;5~", "C-Insert"),
    ("\x1b[2;6~", "C-S-Insert"),
    ("\x1b[2;7~", "C-M-Insert"),
    ("\x1b[2~", "Insert"),
    ("\x1b[3;2~", "S-Delete"),
    ("\x1b[3;3~", "M-Delete"),
    ("\x1b[3;4~", "M-S-Delete"),
    ("\x1b[3;5~", "C-Delete"),
    ("\x1b[3;6~", "C-S-Delete"),
    ("\x1b[3;7~", "C-M-Delete"),
    ("\x1b[3~", "Delete"),
    ("\x1b[5;2~", "S-PageUp"),
    ("\x1b[5;3~", "M-PageUp"),
    ("\x1b[5;4~", "M-S-PageUp"),
    ("\x1b[5;5~", "C-PageUp"),
    ("\x1b[5;6~", "C-S-PageUp"),
    ("\x1b[5;7~", "C-M-PageUp"),
    ("\x1b[5~", "PageUp"),
    ("\x1b[6;2~", "S-PageDown"),
    ("\x1b[6;3~", "M-PageDown"),
    ("\x1b[6;4~", "M-S-PageDown"),
    ("\x1b[6;5~", "C-PageDown"),
    ("\x1b[6;6~", "C-S-PageDown"),
    ("\x1b[6;7~", "C-M-PageDown"),
    ("\x1b[6~", "PageDown"),
    ("\x1b[Z", "BackTab"),
    // rxvt
    ("\x1bOa", "C-Up"),
    ("\x1bOb", "C-Down"),
    ("\x1bOc", "C-Right"),
    ("\x1bOd", "C-Left"),
    ("\x1b[11~", "F1"),
    ("\x1b[12~", "F2"),
    ("\x1b[13~", "F3"),
    ("\x1b[14~", "F4"),
    ("\x1b[2$", "S-Insert"),
    ("\x1b[25~", "F13"),
    ("\x1b[26~", "F14"),
    ("\x1b[28~", "F15"),
    ("\x1b[29~", "F16"),
    ("\x1b[2@", "C-S-Insert"),
    ("\x1b[2^", "C-Insert"),
    ("\x1b[3$", "S-Delete"),
    ("\x1b[31~", "F17"),
    ("\x1b[32~", "F18"),
    ("\x1b[33~", "F19"),
    ("\x1b[34~", "F20"),
    ("\x1b[3@", "C-S-Delete"),
    ("\x1b[3^", "C-Delete"),
    ("\x1b[5$", "S-PageUp"),
    ("\x1b[5@", "C-S-PageUp"),
    ("\x1b[5^", "C-PageUp"),
    ("\x1b[6$", "S-PageDown"),
    ("\x1b[6@", "C-S-PageDown"),
    ("\x1b[6^", "C-PageDown"),
    ("\x1b[7$", "S-Home"),
    ("\x1b[7@", "C-S-Home"),
    ("\x1b[7^", "C-Home"),
    ("\x1b[7~", "Home"),
    ("\x1b[8$", "S-End"),
    ("\x1b[8@", "C-S-End"),
    ("\x1b[8^", "C-End"),
    ("\x1b[8~", "End"),
    ("\x1b[A", "Up"),
    ("\x1b[B", "Down"),
    ("\x1b[C", "Right"),
    ("\x1b[D", "Left"),
    ("\x1b[c", "S-Right"),
    ("\x1b[d", "S-Left"),
    // the Linux console
    ("\x1b[1~", "Home"),
    ("\x1b[4~", "End"),
    ("\x1b[[A", "F1"),
    ("\x1b[[B", "F2"),
    ("\x1b[[C", "F3"),
    ("\x1b[[D", "F4"),
    ("\x1b[[E", "F5"),
    // konsole
    ("\x1bO2P", "S-F1"),
    ("\x1bO2Q", "S-F2"),
    ("\x1bO2R", "S-F3"),
    ("\x1bO2S", "S-F4"),
];

/// The keys of characters with modifiers, and of Ctrl and Alt with characters.
const CHARS: Rows = &[
    // as xterm sends other keys with modifiers
    ("\x1b[27;5;97~", "C-A"),
    ("\x1b[27;2;13~", "S-Enter"),
    ("\x1b[27;5;9~", "C-Tab"),
    ("\x1b[27;2;9~", "BackTab"),
    ("\x1b[27;7;233~", "C-M-é"),
    ("\x1b[27;1;120~", "x"),
    // and by their number before a u
    ("\x1b[97;5u", "C-A"),
    ("\x1b[97;4u", "M-A"),
    ("\x1b[97;2u", "A"),
    ("\x1b[97;65u", "a"),
    ("\x1b[97;9u", "M-a"),
    ("\x1b[1;9D", "M-Left"),
    ("\x1b[13;2u", "S-Enter"),
    ("\x1b[127;3u", "M-Backspace"),
    ("\x1b[27u", "Esc"),
    ("\x1b[26085;3u", "M-日"),
    ("\x1b[105;69u", "C-I"),
    ("\x1b[57376u", "F13"),
    ("\x1b[57377u", "F14"),
    ("\x1b[57378u", "F15"),
    ("\x1b[57379u", "F16"),
    ("\x1b[57380u", "F17"),
    ("\x1b[57381u", "F18"),
    ("\x1b[57382u", "F19"),
    ("\x1b[57383u", "F20"),
    ("\x1b[57384u", "F21"),
    ("\x1b[57385u", "F22"),
    ("\x1b[57386u", "F23"),
    ("\x1b[57387u", "F24"),
    ("\x1b[57387;2u", "S-F24"),
    // modifiers that no table has a row for
    ("\x1b[1;8D", "C-M-S-Left"),
    ("\x1b[1;6P", "C-S-F1"),
    ("\x1b[6;8~", "C-M-S-PageDown"),
    ("\x1b[11^", "C-F1"),
    ("\x1b[23$", "S-F11"),
    ("\x1b[23@", "C-S-F11"),
    ("\x1bO5P", "C-F1"),
    ("\x1bO1;2S", "S-F4"),
    ("\x1b[5A", "C-Up"),
    ("\x1b[1;5R", "C-F3"),
    ("\x1b[1;1H", "Home"),
    ("\x1bOM", "Enter"),
];

/// Bytes of no sequence, and their keys.
const PLAIN: Rows = &[
    ("", ""),
    ("\x01", "C-A"),
    ("\x08", "Backspace"),
    ("\x7f", "Backspace"),
    ("\t", "Tab"),
    ("\r", "Enter"),
    ("\n", "C-J"),
    ("\x1b", "Esc"),
    ("\x1b\x1b", "Esc Esc"),
    ("\x1b\x1b\x1b", "Esc Esc Esc"),
    ("\x1bx", "M-x"),
    ("\x1b\x1bx", "M-x"),
    ("\x1b\u{c3}\u{a9}", "M-\u{e9}"),
    ("\x1b\x7f", "M-Backspace"),
    ("\x1b\r", "M-Enter"),
    ("\x1b\t", "M-Tab"),
    ("\x1b\x01", "C-M-A"),
    // what a sequence begins by is a key too, where nothing follows
    ("\x1b[", "M-["),
    ("\x1bO", "M-O"),
    ("\x1bP", "M-P"),
    ("\x1b]", "M-]"),
    ("\x1b_", "M-_"),
    ("\x1bX", "M-X"),
    ("\x1b^", "M-^"),
    // two sequences, one after the other
    ("\x1b[A\x1b[B", "Up Down"),
    ("a\x1b[3~b", "a Delete b"),
];

/// Reports and unknown sequences, and the keys that they come to.
const OTHERS: Rows = &[
    // the mouse: as X10 reports it, with numbers, and marked
    ("\x1b[M !!x", "x"),
    ("\x1b[M abc", "c"),
    ("\x1b[32;10;20Mx", "x"),
    ("\x1b[<0;10;20Mx", "x"),
    ("\x1b[<0;10;20mx", "x"),
    // the focus, the cursor's place, the terminal's name and state
    ("\x1b[Ix\x1b[Oy", "x y"),
    ("\x1b[12;40Rx", "x"),
    ("\x1b[2;5Rx", "x"),
    ("\x1b[?1;2cx", "x"),
    ("\x1b[>0;276;0cx", "x"),
    ("\x1b[0nx", "x"),
    ("\x1b[?2026;2$yx", "x"),
    ("\x1b[8;24;80tx", "x"),
    ("\x1b[4;600;800tx", "x"),
    // an Esc in front of what is no key is a key of its own
    ("\x1b\x1b[Ix", "Esc x"),
    ("\x1b\x1b[M !!x", "Esc x"),
    ("\x1b\x1b]11;a\x07x", "Esc x"),
    ("\x1b\x1b[8;24;80tx", "Esc x"),
    ("\x1b\x1b[12;40Rx", "Esc x"),
    ("\x1b\x1b[1;\x18x", "Esc x"),
    ("\x1b\x1b[\x1ax", "Esc x"),
    ("\x1b\x1b\x1b[Ix", "Esc Esc x"),
    // texts, to their end by BEL, by ESC and a backslash, or cancelled
    ("\x1b]11;rgb:0/0/0\x07x", "x"),
    ("\x1b]11;rgb:0/0/0\x1b\\x", "x"),
    ("\x1bP>|tmux 3.3a\x1b\\x", "x"),
    ("\x1b_Gi=31;OK\x1b\\x", "x"),
    ("\x1b]l;rm -rf\r\nls\x07x", "x"),
    ("\x1b]0;\u{c3}\u{a9}\u{ff}\x18x", "x"),
    ("\x1b]0;a\x1b[Ax", "Up x"),
    // what opens a text is a key with Alt where no text follows
    ("\x1bPdd", "M-P d d"),
    ("\x1b]x\r", "M-] x Enter"),
    ("\x1b_q\x03", "M-_ q C-C"),
    ("\x1b]\x1b[A", "M-] Up"),
    ("\x1bP\x1b\x1b[A", "M-P M-Up"),
    // sequences that no key has
    ("\x1b[Kx", "Unknown x"),
    ("\x1b[99~x", "Unknown x"),
    ("\x1b[1;2;3;4Ax", "S-Up x"),
    ("\x1bOyx", "Unknown x"),
    ("\x1b[[Fx", "Unknown x"),
    ("\x1b[55296;5ux", "Unknown x"),
    ("\x1b[1114112ux", "Unknown x"),
    ("\x1b[99999999999999999999ux", "Unknown x"),
    ("\x1b[ux", "Unknown x"),
    ("\x1b[57414ux", "Unknown x"),
    ("\x1b[57388;5ux", "Unknown x"),
    ("\x1b[97:65;5ux", "x"),
    // sequences that are cut off, cancelled, or end by what none has
    ("\x1b[1\x1b[B", "Unknown Down"),
    ("\x1b[\x1b[B", "M-[ Down"),
    ("\x1b[0\x1b[B", "Unknown Down"),
    ("\x1b[0Mx", "x"),
    ("\x1b[1;\x18x", "x"),
    ("\x1b[1;\x1ax", "x"),
    ("\x1b[1;\rx", "Unknown x"),
    ("\x1b[1\u{c3}\u{a9}x", "Unknown x"),
    ("\x1b[1\x7fx", "Unknown x"),
    ("\x1b[1;5⋯", ""),
    ("\x1b[200~⋯", ""),
    ("\x1b[201~x", "x"),
    // an empty pasted text is none
    ("\x1b[200~\x1b[201~x", "x"),
    ("\x1b[200~\x1b\x01\x1b[201~x", "x"),
];

/// Bytes with a pause between them, and the keys that they come to.
const PAUSED: Rows = &[
    ("\x1b…[A", "Esc [ A"),
    ("\x1b\x1b…x", "Esc Esc x"),
    ("\x1b[…A", "M-[ A"),
    ("\x1b\x1b[…A", "M-[ A"),
    ("\x1b\x1b]…A", "Esc M-] A"),
    ("\x1b]…0", "M-] 0"),
    // more than the beginning of a sequence, a report, a control string
    ("\x1b[1;5⋯A", "C-Up"),
    ("\x1b[1;5⋯⋯A", "C-Up"),
    ("\x1b[M ⋯abx", "x"),
    ("\x1b[M⋯abcx", "x"),
    ("\x1b]0;a⋯b\x07x", "x"),
    ("\x1b]0;a\x1b⋯\\x", "x"),
    ("\x1b]0;a⋯⋯⋯⋯⋯⋯⋯⋯⋯⋯⋯⋯⋯⋯⋯⋯⋯⋯⋯b\x07x", "x"),
    ("\x1b]0;a⋯⋯⋯⋯⋯⋯⋯⋯⋯⋯b⋯⋯⋯⋯⋯⋯⋯⋯⋯⋯\x07x", "x"),
    // and what never ends
    ("\x1b[1;5‖A", "A"),
    ("\x1b[?1;‖2cx", "2 c x"),
    ("\x1b[M ‖abx", "a b x"),
    ("\x1b]11;rgb:00‖abc\r", "a b c Enter"),
    ("\x1b]11;rgb:00\x1b‖\\x", "\\ x"),
    ("\x1b]11;rgb:00\u{e6}‖x", "x"),
    ("\x1b_Gi=31;O‖\x03", "C-C"),
    // ESC P and what follows is keys, unless it is a control string that ends before a pause
    ("\x1bP…0", "M-P 0"),
    ("\x1bP0…x", "M-P 0 x"),
    ("\x1bP0ix\r\u{e6}…y", "M-P 0 i x Enter \u{fffd} y"),
    ("\x1bP0\x1bj", "M-P 0 M-j"),
    ("\x1bP0\x1b[Aj", "M-P 0 Up j"),
    ("\x1bP0\x1b…\\", "M-P 0 Esc \\"),
    ("\x1b\x1bP0…x", "Esc M-P 0 x"),
    ("\x1bP1$r0m\x1b\\\x1bP2…", "M-P 2"),
    ("\x1bP1$r0m\x18x…", "x"),
    ("\x1bP1$r0m\x07x…", "x"),
    ("\x1bP1$r…0m\x1b\\", "M-P 1 $ r 0 m M-\\"),
    // a pasted text comes in parts, by its characters, and its end alone ends it
    ("\x1b[200~abc⋯def\x1b[201~x", "“abc “def x"),
    ("\x1b[200~⋯\x1b⋯[20⋯1~x", "x"),
    ("\x1b[200~ab\x1b[2⋯01~x", "“ab x"),
    ("\x1b[200~ab\x1b[2⋯\x03x\x1b[201~", "“ab “[2x"),
    ("\x1b[200~a\r⋯\nb\x1b[201~", "“a\n “b"),
    ("\x1b[200~a\u{e6}⋯\u{97}⋯\u{a5}\x1b[201~", "“a “日"),
    ("\x1b[200~a⋯⋯⋯⋯⋯⋯⋯⋯⋯⋯⋯⋯⋯⋯⋯⋯⋯⋯⋯b\x1b[201~x", "“a “b x"),
    ("\x1b[200~a\r\x03\x1b⋯\x04\x1bOM\r⋯", "“a\n “OM\n"),
    // where it never comes, silence does
    ("\x1b[200~abc‖def\r", "“abc d e f Enter"),
    ("\x1b[200~‖\x03", "C-C"),
    ("\x1b[200~abc\x1b[20‖1~", "“abc 1 ~"),
    ("\x1b[200~a\u{e6}\u{97}‖\u{a5}x", "“a \u{fffd} x"),
    ("\x1b[200~abc‖\x1b[201~x", "“abc x"),
    ("\x1b[200~abc⋯def■x", "“abc “def x"),
    // a character is cut off
    ("\u{e6}\u{97}…\u{a5}x", "\u{fffd} \u{fffd} x"),
];

/// Where a row is wrong first, also behind an Esc if one can stand in front, which is Alt then.
fn wrong_in_row(
    alloc: Global,
    bound: usize,
    are_keys: bool,
    (bytes, names): (&str, &str),
) -> Option<usize> {
    let wrong = first_wrong(alloc, (bound, "", Modifiers::NONE), bytes, names);
    if wrong.is_some() || !are_keys {
        return wrong;
    }
    first_wrong(alloc, (bound, "\x1b", Modifiers::ALT), bytes, names)
}

/// Each row comes to its names; and the keys to those with Alt, where an Esc stands in front.
#[test]
fn come_to_keys_and_texts(rt: HostRuntime) {
    for (bound, are_keys, rows) in [
        (PASTE_BOUND, true, KEYS),
        (PASTE_BOUND, false, CHARS),
        (PASTE_BOUND, false, PLAIN),
        (PASTE_BOUND, false, OTHERS),
        (PASTE_BOUND, false, PAUSED),
        (PASTE_BOUND, false, TYPED),
        (PASTE_BOUND, false, PASTED),
        (4, false, BY_FOUR),
        (3, false, BY_THREE),
        (100, false, BY_A_HUNDRED),
        (0, false, BY_NONE),
        (1, false, BY_ONE),
    ] {
        for row in rows {
            let wrong = wrong_in_row(rt.alloc(), bound, are_keys, *row);
            holds(&rt, wrong.is_none(), row.1, wrong.unwrap_or(0));
        }
    }
}

/// Bytes, and the rows and columns of the size that they report, or 0 where they report none.
const SIZES: &[(&str, u16, u16)] = &[
    ("", 0, 0),
    ("\x1b[8;24;80t", 24, 80),
    ("\x1b[8;1;65535t", 1, 65535),
    ("\x1b[8;24;80t\x1b[8;25;81t", 25, 81),
    ("\x1b[8;0;80t", 0, 0),
    ("\x1b[8;24;65536t", 0, 0),
    ("\x1b[8;24t", 0, 0),
    ("\x1b[4;24;80t", 0, 0),
    ("\x1b[?8;24;80t", 0, 0),
];

/// Whether bytes report a size of these rows and columns, and come to nothing else.
fn report(ear: &mut Ear, bytes: &str, rows: u16, columns: u16) -> bool {
    let is_fed = ear.reads(bytes.as_bytes()) && ear.keys.is_empty();
    let is_so = match ear.decoder.take_size() {
        Some(size) => rows > 0 && (size.rows, size.columns) == (rows, columns),
        None => rows == 0,
    };
    is_fed && is_so && ear.decoder.take_size().is_none()
}

#[test]
fn report_sizes(rt: HostRuntime) {
    for (bytes, rows, columns) in SIZES {
        let mut ear = Ear::new(rt.alloc());
        holds(&rt, report(&mut ear, bytes, *rows, *columns), bytes, 0);
    }
}
