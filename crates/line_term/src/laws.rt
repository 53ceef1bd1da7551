//! Laws of the bytes that come from a terminal, and of those that are written to it. Each
//! function's contract is a law, and its body does nothing.
ghost use Rattle.line_term.specs.DecoderLaws.{ComesBack, ComesInPieces, EscapesAreKept, FlushSettles, HeldIsTyped, PasteComesWhole, PastesGiveNoKey, PausesKeepPastes, RowsAreKeys, SequencesNeverType, SilenceSettles, TextIsTyped, TextIsTypedAfterSilence, TextsAreSilent};
ghost use Rattle.line_term.specs.Laws.{MovesArrive, OthersStay, PartsShow, RedrawsShow, TerminalsStayReady, TextsAreShown, TextsArrive};

use line_config::Prompt;
use line_parts::Highlighter;

/// However bytes are cut into pieces, they stand for the same items, and the same has begun.
pub fn comes_in_pieces()
    ensures { ComesInPieces }
{}

/// The UTF-8 of a text without Esc stands for the key of each of its characters.
pub fn text_is_typed()
    ensures { TextIsTyped }
{}

/// ESC P and what goes on with it as a control string that a pause cuts off stand for Alt with P
/// and the key of each character.
pub fn held_is_typed()
    ensures { HeldIsTyped }
{}

/// A pasted text without Esc is handed over whole, cleaned of carriage returns and control
/// characters.
pub fn paste_comes_whole()
    ensures { PasteComesWhole }
{}

/// The tables of sequences have the rows that are written in the law, and each row stands for its
/// key, with each of its modifiers.
pub fn rows_are_keys()
    ensures { RowsAreKeys }
{}

/// Where something has begun, no character is typed, but by a sequence that names it.
pub fn sequences_never_type()
    ensures { SequencesNeverType }
{}

/// A control string and a report of the mouse stand for no item, as long as they go on.
pub fn texts_are_silent()
    ensures { TextsAreSilent }
{}

/// An Esc in front of a sequence that is no key is a key of its own.
pub fn escapes_are_kept()
    ensures { EscapesAreKept }
{}

/// A pasted text stands for no key, and has no control characters but newlines and tabs. Its mark
/// alone ends it, and a pause hands over what has come of it, as text.
pub fn pastes_give_no_key()
    ensures { PastesGiveNoKey }
{}

/// A pasted text that pauses is the same text, and what is behind it the same items, unless it
/// pauses for too long.
pub fn pauses_keep_pastes()
    ensures { PausesKeepPastes }
{}

/// Whatever was read, the six bytes that end a pasted text lead back to where nothing has begun.
pub fn comes_back()
    ensures { ComesBack }
{}

/// After a flush there is nothing left to wait for, unless it may last: a pasted text, a control
/// string or a sequence of which more than its beginning was read.
pub fn flush_settles()
    ensures { FlushSettles }
{}

/// After so many pauses one behind the other nothing is left of what had begun.
pub fn silence_settles()
    ensures { SilenceSettles }
{}

/// The UTF-8 of a text without Esc stands for the key of each of its characters then.
pub fn text_is_typed_after_silence()
    ensures { TextIsTypedAfterSilence }
{}

/// The bytes of a cursor move take a terminal's cursor from the one place to the other, and change
/// no cell.
pub fn moves_arrive()
    ensures { MovesArrive }
{}

/// What is written for a text puts its clusters down, and takes a terminal's cursor where the text
/// is measured to end. It does not wait there at a row's end.
pub fn texts_arrive()
    ensures { TextsArrive }
{}

/// A bell and what is asked of a terminal change nothing that it shows, and what clears a part of
/// it leaves its cursor.
pub fn others_stay()
    ensures { OthersStay }
{}

/// After a full redraw, of which a highlighter changes colors alone, a terminal shows prompt, line
/// and the text after it, nothing else from the prompt's row on, and its cursor is in its place.
/// The rows begin where those of the drawing before did, and where there was none in the cursor's
/// row.
pub fn redraws_show<P: Prompt, H: Highlighter>()
    ensures { RedrawsShow P.Prompt H.Highlighter }
{}

/// All that a call writes which does not fail leaves a terminal ready for the next one, where it
/// was ready before.
pub fn terminals_stay_ready<P: Prompt, H: Highlighter>()
    ensures { TerminalsStayReady P.Prompt H.Highlighter }
{}

/// A text that is put down shows each cluster that has columns where the clusters before it are
/// measured to end, and leaves the cells before its start and from its end on as they were.
pub fn texts_are_shown()
    ensures { TextsAreShown }
{}

/// So it is after a move of the cursor, a character that is written at the line's end, and a
/// clearing of the rest of its row.
pub fn parts_show()
    ensures { PartsShow }
{}
