//! Scripts, line by line.

use crate::{holds, sure};
use line_keys::keys::{KeyCode, KeyEvent, Modifiers};
use line_keys::raw_reader::RawReader;
use line_parts::History;
use line_script::{Parsed, Script, ScriptError, read_script};
use std::alloc::Global;
use std::io::Write;
use std::process::Abort;

/// Writes down what a script gives, a line for each kind, between two ends of lines.
fn shows(rt: &impl Abort, alloc: Global, parsed: &mut Parsed, out: &mut Vec<u8>) {
    let mut lines = Vec::new(alloc);
    for line in parsed.history.iter() {
        sure(rt, lines.push(line.as_str()));
    }
    let (style, prompt, columns) = (parsed.edit_mode, parsed.prompt.as_str(), parsed.columns);
    let (hints, brackets) = (parsed.helper.hints, parsed.helper.brackets);
    let written = write!(
        out,
        "\nhistory {lines:?}\nstyle {style:?}\nprompt {prompt:?} columns {columns}\nhints {hints} brackets {brackets}\nitems"
    );
    sure(rt, written);
    drop(lines);
    let items = &mut parsed.items;
    for _ in 0..items.len() {
        if !items.is_empty() {
            shows_item(rt, out, items);
        }
    }
}

/// Writes down the next item: a typed character alone, a key, or a pasted text with the key that
/// comes before it.
fn shows_item(rt: &impl Abort, out: &mut Vec<u8>, items: &mut Script) {
    let written = match sure(rt, items.next_key(false)) {
        KeyEvent(KeyCode::Char(c), Modifiers::NONE) => write!(out, " {c:?}"),
        KeyEvent(KeyCode::BracketedPasteStart, Modifiers::NONE) => {
            let pasted = sure(rt, items.read_pasted_text());
            write!(out, " pasted {pasted:?}")
        }
        key => write!(out, " {key:?}"),
    };
    sure(rt, written);
}

/// One of the lines that are written down of a script is this one, or the script is refused by the
/// number of a line.
fn gives(rt: &impl Abort, alloc: Global, script: &[u8], wanted: &str) {
    let mut out = Vec::new(alloc);
    match read_script(alloc, script) {
        Ok(mut parsed) => shows(rt, alloc, &mut parsed, &mut out),
        Err(ScriptError::BadLine(number)) => {
            sure(rt, write!(out, "bad line {number}"));
        }
        Err(ScriptError::Fault(_)) => {}
    }
    let text = str::from_utf8(&out).unwrap_or("no text");
    let is_line = match text.split_once(wanted) {
        Some((before, behind)) => {
            let begins = before.is_empty() || before.ends_with('\n');
            begins && (behind.is_empty() || behind.starts_with('\n'))
        }
        None => false,
    };
    holds(rt, is_line, text, script.len());
}

/// A script, and one of the lines that say what it gives, or its first bad line.
const CASES: &[(&str, &str)] = &[
    ("", "items"),
    ("\n\n", "items"),
    ("type ", "items"),
    ("type aB", "items 'a' 'B'"),
    ("type aB\n", "items 'a' 'B'"),
    ("type  é", "items ' ' 'é'"),
    (r"type C-a\n\\", "items 'C' '-' 'a' '\\n' '\\\\'"),
    (r"type \\n", "items '\\\\' 'n'"),
    ("type a\r\n", "items 'a' '\\r'"),
    ("type \t\u{3}", "items '\\t' '\\u{3}'"),
    ("type type a", "items 't' 'y' 'p' 'e' ' ' 'a'"),
    ("key  \n", "items ' '"),
    ("key \r\n", "items KeyEvent(Enter, Modifiers(0))"),
    ("key é", "items 'é'"),
    ("key a\n\n\n", "items 'a'"),
    (
        "\nkey C-a\n\ntype x\nkey Enter",
        "items KeyEvent(Char('A'), Modifiers(8)) 'x' KeyEvent(Enter, Modifiers(0))",
    ),
    ("type a", "history []"),
    ("history a", "history [\"a\"]"),
    (
        "history a\n\nhistory b\nhistory a\ntype x",
        "history [\"a\", \"b\", \"a\"]",
    ),
    ("history \nhistory a\nhistory a\n", "history [\"a\"]"),
    ("history  a \nhistory é\r\n", "history [\" a \", \"é\\r\"]"),
    (r"history a\nb\\n", "history [\"a\\nb\\\\n\"]"),
    ("load ", "history []"),
    ("load a", "history [\"a\"]"),
    (r"load a\n\na\nb", "history [\"a\", \"b\"]"),
    ("load  a \r\n", "history [\" a \\r\"]"),
    (r"load #V2\nb\\nc\n", "history [\"b\\nc\"]"),
    (r"load #V2\nb\\rc", "history [\"b\\\\rc\"]"),
    (r"load #V3\nb\\rc\\r", "history [\"b\\rc\\r\"]"),
    (r"load #V3\nb\\tc", "history [\"b\\\\tc\"]"),
    ("load #V3\r\n", "history [\"#V3\\r\"]"),
    ("load #V3\nload b\\\\rc", "history [\"b\\\\rc\"]"),
    (
        "history a\nload #V3\\nb\\nc\n\nhistory c\nhistory d\nload d\\na\n",
        "history [\"a\", \"b\", \"c\", \"d\", \"a\"]",
    ),
    ("", "hints false brackets false"),
    ("history hints\ntype brackets", "hints false brackets false"),
    ("hints", "hints true brackets false"),
    ("brackets\n", "hints false brackets true"),
    ("hints\nhints", "hints true brackets false"),
    ("brackets\nbrackets", "hints false brackets true"),
    (
        "brackets\nhints\nbrackets\nhints\n",
        "hints true brackets true",
    ),
    (
        "\nhints\n\nhistory a\nbrackets\nhints\ntype (",
        "hints true brackets true",
    ),
    ("", "prompt \"> \" columns 80"),
    ("prompt ", "prompt \"\" columns 80"),
    ("prompt  a \ntype prompt b", "prompt \" a \" columns 80"),
    (r"prompt a\nb\\", "prompt \"a\\nb\\\\\" columns 80"),
    ("prompt a\r\n", "prompt \"a\\r\" columns 80"),
    ("prompt columns 70", "prompt \"columns 70\" columns 80"),
    (
        "prompt a\nprompt b\ncolumns 70\n\ncolumns 10",
        "prompt \"b\" columns 10",
    ),
    (
        "columns 10\nprompt b\ncolumns 70\nprompt ",
        "prompt \"\" columns 70",
    ),
    ("columns 0080", "prompt \"> \" columns 80"),
    (
        "columns 000000000000000000000000000080",
        "prompt \"> \" columns 80",
    ),
    ("columns 10", "prompt \"> \" columns 10"),
    ("columns 1000", "prompt \"> \" columns 1000"),
    ("", "style Emacs"),
    ("mode emacs", "style Emacs"),
    ("mode vi", "style Vi"),
    ("mode vi\ntype a", "style Vi"),
    ("\nhints\nmode vi\ncolumns 70\n", "style Vi"),
    ("mode emacs\nmode vi", "style Vi"),
    ("mode vi\nmode emacs\n", "style Emacs"),
    ("mode vi\nmode vi\n", "style Vi"),
    ("mode vi\n\nmode emacs\nhistory a\nmode vi\n", "style Vi"),
    (
        "prompt mode vi\nhistory mode vi\ntype mode vi",
        "style Emacs",
    ),
    ("mode vi\ntype \\nmode emacs\npaste mode emacs", "style Vi"),
    ("paste ", "items pasted \"\""),
    ("paste a", "items pasted \"a\""),
    (r"paste a\nb\\", "items pasted \"a\\nb\\\\\""),
    ("paste  é\n", "items pasted \" é\""),
    ("paste a\r\n", "items pasted \"a\\r\""),
    (r"paste a\\nb", "items pasted \"a\\\\nb\""),
    ("key Foo", "bad line 1"),
    ("type a\nkey Left\nkey Foo\ntype b\n", "bad line 3"),
    ("\n\nkey\n", "bad line 3"),
    ("key ", "bad line 1"),
    ("type", "bad line 1"),
    ("type\ta", "bad line 1"),
    (" type a", "bad line 1"),
    ("Type a", "bad line 1"),
    ("types a", "bad line 1"),
    ("\r\n", "bad line 1"),
    (" ", "bad line 1"),
    (" \ntype a", "bad line 1"),
    ("\n\n\ntype a\n\nfoo bar\n\nfoo", "bad line 6"),
    ("# a", "bad line 1"),
    ("\u{feff}type a", "bad line 1"),
    ("key Enter\r\n", "bad line 1"),
    ("type \\t", "bad line 1"),
    ("type a\\", "bad line 1"),
    ("type \\\\\\", "bad line 1"),
    ("mode", "bad line 1"),
    ("mode ", "bad line 1"),
    ("mode  ", "bad line 1"),
    ("mode  vi", "bad line 1"),
    ("mode vi ", "bad line 1"),
    ("mode  emacs", "bad line 1"),
    ("mode emacs ", "bad line 1"),
    ("mode VI", "bad line 1"),
    ("mode Vi", "bad line 1"),
    ("mode Emacs", "bad line 1"),
    ("mode EMACS", "bad line 1"),
    ("mode v", "bad line 1"),
    ("mode vim", "bad line 1"),
    ("mode vi emacs", "bad line 1"),
    ("mode emacs vi", "bad line 1"),
    ("mode v\\i", "bad line 1"),
    ("mode\tvi", "bad line 1"),
    ("mode vi\r\n", "bad line 1"),
    ("Mode vi", "bad line 1"),
    (" mode vi", "bad line 1"),
    ("modes vi", "bad line 1"),
    ("mode=vi", "bad line 1"),
    ("vi", "bad line 1"),
    ("emacs", "bad line 1"),
    ("mode vi\nmode emacs\nmode vi \n", "bad line 3"),
    ("mode vi\nmode\nmode emacs", "bad line 2"),
    ("type a\nmode vi", "bad line 2"),
    ("mode vi\n\ntype \nmode vi", "bad line 4"),
    ("mode emacs\nkey Enter\nmode emacs\nkey Foo", "bad line 3"),
    ("paste a\nmode vi", "bad line 2"),
    ("history", "bad line 1"),
    ("history\ta", "bad line 1"),
    ("history a\nhistory \\q", "bad line 2"),
    ("history a\\", "bad line 1"),
    ("history a\n history a", "bad line 2"),
    ("type a\nhistory a", "bad line 2"),
    ("history a\ntype \n\nhistory b", "bad line 4"),
    ("key Enter\nhistory a\nkey Foo", "bad line 2"),
    ("load", "bad line 1"),
    ("load\ta", "bad line 1"),
    ("load\r\n", "bad line 1"),
    ("Load a", "bad line 1"),
    ("loads a", "bad line 1"),
    (" load a", "bad line 1"),
    ("load x\\q", "bad line 1"),
    ("load #V3\\na\\r", "bad line 1"),
    ("load a\nload a\\", "bad line 2"),
    ("type a\nload a", "bad line 2"),
    ("load a\nkey Enter\nload b", "bad line 3"),
    ("hints ", "bad line 1"),
    ("hints x", "bad line 1"),
    ("Hints", "bad line 1"),
    ("hint", "bad line 1"),
    ("hints\r\n", "bad line 1"),
    ("brackets ", "bad line 1"),
    ("brackets ()", "bad line 1"),
    ("hints brackets", "bad line 1"),
    ("bracket", "bad line 1"),
    ("columns", "bad line 1"),
    ("columns ", "bad line 1"),
    ("columns 0", "bad line 1"),
    ("columns 000", "bad line 1"),
    ("columns 9", "bad line 1"),
    ("columns 1001", "bad line 1"),
    ("columns 65536", "bad line 1"),
    ("columns 65616", "bad line 1"),
    ("columns 4294967376", "bad line 1"),
    ("columns 18446744073709551696", "bad line 1"),
    ("columns ٣٠", "bad line 1"),
    ("type a\ncolumns 9", "bad line 2"),
    ("columns +80", "bad line 1"),
    ("columns -1", "bad line 1"),
    ("columns 8 0", "bad line 1"),
    ("columns 80 ", "bad line 1"),
    ("columns  80", "bad line 1"),
    ("columns 80\ncolumns 9", "bad line 2"),
    ("columns 80\r\n", "bad line 1"),
    ("columns ten", "bad line 1"),
    ("type a\ncolumns 80", "bad line 2"),
    ("prompt", "bad line 1"),
    ("prompt \\t", "bad line 1"),
    ("prompt a\\", "bad line 1"),
    ("paste a\nprompt $", "bad line 2"),
    ("paste \nhistory a", "bad line 2"),
    ("type a\nprompt \\t", "bad line 2"),
    ("paste", "bad line 1"),
    ("paste \\t", "bad line 1"),
    ("key a\npaste a\\\nkey Foo", "bad line 2"),
    ("hints\n\ntype a\nhints", "bad line 4"),
    ("key Enter\nbrackets\nkey Foo", "bad line 2"),
];

/// The same of scripts that are no texts.
const BYTES: &[(&[u8], &str)] = &[
    (b"type \xff", "bad line 1"),
    (b"type a\n\xc3\n", "bad line 2"),
    (b"key Foo\n\xff", "bad line 1"),
    (b"\n\xff\nkey Foo", "bad line 2"),
    (b"load \xff", "bad line 1"),
];

#[test]
fn gives_what_its_lines_say(rt: HostRuntime) {
    for (script, wanted) in CASES {
        gives(&rt, rt.alloc(), script.as_bytes(), wanted);
    }
    for (script, wanted) in BYTES {
        gives(&rt, rt.alloc(), script, wanted);
    }
}
