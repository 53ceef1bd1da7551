//! What bytes come to, whole and in pieces. Bytes are written as texts: a character is the byte of
//! its number, `…` a pause behind which nothing has begun, `⋯` one behind which something goes on,
//! `‖` the longest silence, and `■` the end of the input.

use line_keys::key_named;
use line_keys::keys::{KeyCode, KeyEvent, Modifiers};
use line_keys::raw_reader::RawReader;
use line_screen::KeyQueue;
use line_term::Decoder;
use line_term::decoder::LONGEST_SILENCE;
use std::alloc::Global;

const SHORT_PAUSE: char = '⋯';

const SILENCE: char = '‖';

const END: char = '■';

/// A place that cuts bytes at each place.
pub const EACH: usize = usize::MAX;

/// Names of keys, with blanks between them; one that begins so is a pasted text.
const TEXT: char = '“';

const PASTE_START: KeyEvent = KeyEvent(KeyCode::BracketedPasteStart, Modifiers::NONE);

/// What a pasted text may have before its end, the bytes in front of those of a row, and the
/// modifiers that the keys of its names have besides.
pub type Way = (usize, &'static str, Modifiers);

/// What reads bytes: a decoder, and the queue of what it gives.
pub struct Ear {
    pub decoder: Decoder,
    pub keys: KeyQueue,
}

impl Drop for Ear {
    fn drop(self) {
        let Ear {
            decoder: _,
            keys: _,
        } = self;
    }
}

impl Ear {
    /// One that has read nothing.
    pub fn new(alloc: Global) -> Ear {
        Ear {
            decoder: Decoder::new(alloc),
            keys: KeyQueue::new(alloc),
        }
    }

    /// Reads bytes. Returns whether that is well.
    pub fn reads(&mut self, bytes: &[u8]) -> bool {
        self.decoder.feed(bytes, &mut self.keys).is_ok()
    }

    /// Takes pauses. Returns whether that is well.
    fn pauses(&mut self, count: u32) -> bool {
        for _ in 0..count {
            if self.decoder.flush(&mut self.keys).is_err() {
                return false;
            }
        }
        true
    }
}

/// Does what a mark between bytes says. Returns whether no call fails, and something is left
/// waiting behind a short pause, and nothing behind another one.
fn settles(ear: &mut Ear, mark: char) -> bool {
    if mark == END {
        return ear.decoder.finish(&mut ear.keys).is_ok();
    }
    let count = if mark == SILENCE { LONGEST_SILENCE } else { 1 };
    ear.pauses(count) && ear.decoder.is_waiting() == (mark == SHORT_PAUSE)
}

/// Takes a character, which is a byte that is put to those of a piece, or a mark behind them. The
/// piece is read before a cut, and before a mark.
fn takes(ear: &mut Ear, piece: &mut Vec<u8>, c: char, is_cut: bool) -> bool {
    let byte = u8::try_from(u32::from(c)).ok();
    if is_cut || byte.is_none() {
        if !ear.reads(piece) {
            return false;
        }
        piece.clear();
    }
    match byte {
        Some(byte) => piece.push(byte).is_ok(),
        None => settles(ear, c),
    }
}

/// Feeds bytes, cut at a place. Returns whether no call fails, and no pause leaves more or less
/// waiting than it says.
pub fn feeds(alloc: Global, ear: &mut Ear, bytes: &str, cut: usize) -> bool {
    let mut piece = Vec::new(alloc);
    for (place, c) in bytes.chars().enumerate() {
        let is_cut = place == cut || cut == EACH;
        if !takes(ear, &mut piece, c, is_cut) {
            return false;
        }
    }
    ear.reads(&piece)
}

/// Whether bytes, cut at a place and followed by a pause, come to these names and nothing else, and
/// nothing is left waiting; and what is typed behind the longest silence is typed. Bytes that go on
/// behind a pause end with it, and no other follows them.
fn come_to(
    alloc: Global,
    ear: &mut Ear,
    way: Way,
    (bytes, cut): (&str, usize),
    names: &str,
) -> bool {
    let (bound, front, modifiers) = way;
    let pause = if bytes.ends_with(SHORT_PAUSE) {
        ""
    } else {
        "…"
    };
    ear.decoder.set_paste_bound(bound);
    feeds(alloc, ear, front, 0)
        && feeds(alloc, ear, bytes, cut)
        && feeds(alloc, ear, pause, 0)
        && are(&mut ear.keys, names, modifiers)
        && feeds(alloc, ear, "‖x", 0)
        && are(&mut ear.keys, "x", Modifiers::NONE)
}

/// The first place where bytes, cut there, do not come to these names.
pub fn first_wrong(alloc: Global, way: Way, bytes: &str, names: &str) -> Option<usize> {
    for cut in 0..bytes.len().saturating_add(1) {
        let mut ear = Ear::new(alloc);
        if !come_to(alloc, &mut ear, way, (bytes, cut), names) {
            return Some(cut);
        }
    }
    None
}

/// Whether the next key of a queue is this one.
fn is_key(keys: &mut KeyQueue, wanted: KeyEvent) -> bool {
    match keys.next_key(false) {
        Ok(key) => key == wanted,
        Err(_) => false,
    }
}

/// Whether the next of a queue is this pasted text.
fn is_pasted(keys: &mut KeyQueue, text: &str) -> bool {
    match keys.read_pasted_text() {
        Ok(pasted) => pasted.as_str() == text,
        Err(_) => false,
    }
}

/// Whether the next of a queue is the key of this name with these modifiers, or the pasted text.
fn is_next(keys: &mut KeyQueue, name: &str, modifiers: Modifiers) -> bool {
    if let Some(text) = name.strip_prefix(TEXT) {
        return is_key(keys, PASTE_START) && is_pasted(keys, text);
    }
    match key_named(name) {
        Some(KeyEvent(code, named)) => is_key(keys, KeyEvent(code, named | modifiers)),
        None => false,
    }
}

/// Whether a queue has the keys of these names with these modifiers and the pasted texts, and
/// nothing else.
fn are(keys: &mut KeyQueue, names: &str, modifiers: Modifiers) -> bool {
    for name in names.split(' ') {
        if !name.is_empty() && !is_next(keys, name, modifiers) {
            return false;
        }
    }
    keys.is_empty()
}
