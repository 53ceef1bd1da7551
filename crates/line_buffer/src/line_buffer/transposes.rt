//! Calls that exchange characters or words, or change the case of letters.
ghost use Rattle.line_buffer.specs.Edit.{Edits, EditsIfOk, on_entries};
ghost use Rattle.line_buffer.specs.Offset.{IsOffset, IsSpan};
ghost use Rattle.std.specs.Prelude.{◌≡◌, ◌≤◌, true, map, if◌then◌else◌, is_some, string_bytes, slice_range, IfOk, IfSome, OnOk, OnErr, IsCharBoundary};
ghost use Rattle.std.specs.Char.{to_ascii_lowercase, to_ascii_uppercase};
ghost use Rattle.line_buffer.specs.Changes.{with_entries};
ghost use Rattle.line_buffer.specs.Line.{with_cursor};
ghost use Rattle.line_buffer.specs.Transpose.{chars_exchanged, parts, with_chars_exchanged, with_word_cased, with_words_exchanged, word_cased, words_exchanged, are_apart, between_chars, cased, chars_beside, exchanged, has_two_chars, next_alphanumeric, with_case, with_cased, with_exchange, with_exchanged, word_end_from, word_start_from, words_beside};
ghost use Rattle.line_buffer.specs.Word.{word_back, word_on};

use super::{LineBuffer, OutOfMemory, WordAction};
use crate::clusters::{first_alphanumeric, first_len, has_two_clusters};
use crate::movement::{At, RepeatCount, Word};
use crate::undo::Changeset;
use std::alloc::Global;

impl LineBuffer {
    /// Exchanges the cluster before the cursor with the one at it, at the text's end the last two,
    /// and puts the cursor after both. Returns false, and changes nothing, at the text's start and
    /// where the text has fewer than two clusters.
    ///
    /// # Errors
    ///
    /// `OutOfMemory` if memory runs out. The list of changes is then empty, with no open group, and
    /// the line may be any text with its cursor on a boundary.
    pub fn transpose_chars(&mut self, changes: &mut Changeset) -> Result<bool, OutOfMemory>
        ensures answer { IfOk result (λ done. done ≡ has_two_chars self.old) }
        ensures edit { Edits result self.old self.new changes.old changes.new
            (chars_exchanged self.old) (on_entries (with_chars_exchanged self.old)) }
    {
        self.cursor_is_on_boundary();
        if self.pos == 0 || !has_two_clusters(self.as_str()) {
            return Ok(false);
        }
        if self.is_cursor_at_end() {
            self.move_backward(1);
        }
        let outcome = self.exchange_chars(changes);
        changes.settled(outcome)
    }

    /// Exchanges the clusters before and at the cursor.
    fn exchange_chars(&mut self, changes: &mut Changeset) -> Result<bool, OutOfMemory>
        ensures answer { IfOk result (λ done. done ≡ true) }
        ensures edit { EditsIfOk result self.old self.new changes.old changes.new
            (with_exchanged self.old (chars_beside self.old self.old.cursor))
            (on_entries (with_exchange self.old.text (chars_beside self.old self.old.cursor))) }
    {
        let place = self.pos();
        let before = self.prev_pos(1).unwrap_or(place);
        let after = self.next_pos(1).unwrap_or(place);
        self.exchange(before, place, place, after, changes)?;
        Ok(true)
    }

    /// Exchanges two parts of the text, records one replace, and puts the cursor after both.
    fn exchange(
        &mut self,
        from1: usize,
        to1: usize,
        from2: usize,
        to2: usize,
        changes: &mut Changeset,
    ) -> Result<(), OutOfMemory>
        requires between { to1 ≤ from2 }
        requires first { IsSpan self.old.text from1 to1 }
        requires second { IsSpan self.old.text from2 to2 }
        ensures { EditsIfOk result self.old self.new changes.old changes.new
            (with_exchanged self.old (parts from1 to1 from2 to2))
            (on_entries (with_exchange self.old.text (parts from1 to1 from2 to2))) }
    {
        self.cursor_is_on_boundary();
        let mut text = self.copy_range(from2, to2)?;
        text.push_str(&self.buf.as_str()[to1..from2])?;
        text.push_str(&self.buf.as_str()[from1..to1])?;
        self.try_replace(from1, to2, text.as_str(), changes)
    }

    /// Exchanges words: the one that ends at the end of the `n`-th word from the cursor, and the
    /// `n`-th before it, with the cursor after both. Returns false where these are not two words;
    /// then the cursor alone moves: to after the first.
    ///
    /// # Errors
    ///
    /// `OutOfMemory` if memory runs out. The list of changes is then empty, with no open group, and
    /// the line may be any text with its cursor on a boundary.
    pub fn transpose_words(
        &mut self,
        n: RepeatCount,
        changes: &mut Changeset,
    ) -> Result<bool, OutOfMemory>
        ensures answer { IfOk result (λ done. done ≡ are_apart (words_beside self.old n)) }
        ensures edit { Edits result self.old self.new changes.old changes.new
            (words_exchanged self.old n) (on_entries (with_words_exchanged self.old n)) }
    {
        let to2 = self.word_end_from(self.pos(), n);
        let from2 = self.word_start_from(to2, 1);
        let from1 = self.word_start_from(from2, n);
        let to1 = self.word_end_from(from1, 1);
        self.set_pos(to1);
        if from1 == from2 || from2 < to1 {
            return Ok(false);
        }
        let outcome = self.exchange(from1, to1, from2, to2, changes);
        changes.settled(outcome)?;
        Ok(true)
    }

    /// Returns the end of the `n`-th word on from a place, or that place. The cursor moves there.
    fn word_end_from(&mut self, place: usize, n: RepeatCount) -> usize
        requires { IsCharBoundary self.old.text place }
        ensures end { IsOffset result self.old.text (word_end_from self.old place n) }
        ensures on { place ≤ result }
        ensures line { self.new ≡ with_cursor self.old result }
    {
        self.pos = place;
        let end = self
            .next_word_pos(At::AfterEnd, Word::Emacs, n)
            .unwrap_or(place);
        self.pos = end;
        end
    }

    /// Returns the start of the `n`-th word back from a place, or that place. The cursor moves
    /// there.
    fn word_start_from(&mut self, place: usize, n: RepeatCount) -> usize
        requires { IsCharBoundary self.old.text place }
        ensures start { IsOffset result self.old.text (word_start_from self.old place n) }
        ensures back { result ≤ place }
        ensures line { self.new ≡ with_cursor self.old result }
    {
        self.pos = place;
        let start = self.prev_word_pos(Word::Emacs, n).unwrap_or(place);
        self.pos = start;
        start
    }

    /// Changes the case of the ASCII letters from the first alphanumeric cluster at or after the
    /// cursor to that word's end, and puts the cursor there. Returns false, and changes nothing,
    /// where there is no such cluster.
    ///
    /// # Errors
    ///
    /// `OutOfMemory` if memory runs out. The list of changes is then empty, with no open group, and
    /// the line may be any text with its cursor on a boundary.
    pub fn edit_word(
        &mut self,
        action: WordAction,
        changes: &mut Changeset,
    ) -> Result<bool, OutOfMemory>
        ensures answer { IfOk result (λ done. done ≡ is_some (next_alphanumeric self.old)) }
        ensures edit { Edits result self.old self.new changes.old changes.new
            (word_cased action self.old) (on_entries (with_word_cased action self.old)) }
    {
        let from = match first_alphanumeric(self.after()) {
            Some(bytes) => self.pos + bytes,
            None => return Ok(false),
        };
        let to = self.word_end_from(from, 1);
        let alloc = *self.buf.allocator();
        let text = changes.settled(cased(alloc, action, &self.buf.as_str()[from..to]))?;
        self.replace(from..to, text.as_str(), changes)?;
        Ok(true)
    }
}

/// Returns the text with the case of its ASCII letters changed.
fn cased(alloc: Global, action: WordAction, text: &str) -> Result<String, OutOfMemory>
    ensures { IfOk result (λ changed. string_bytes changed ≡ cased action text.now) }
{
    match action {
        WordAction::Lowercase => lower(alloc, text),
        WordAction::Uppercase => upper(alloc, text),
        WordAction::Capitalize => {
            let first = first_len(text, 1);
            let mut changed = upper(alloc, &text[..first])?;
            let rest = lower(alloc, &text[first..])?;
            changed.push_str(rest.as_str())?;
            Ok(changed)
        }
    }
}

fn upper(alloc: Global, text: &str) -> Result<String, OutOfMemory>
    ensures { IfOk result (λ changed. string_bytes changed ≡ map to_ascii_uppercase text.now) }
{
    let mut changed = String::from_str(alloc, text)?;
    changed.make_ascii_uppercase();
    Ok(changed)
}

fn lower(alloc: Global, text: &str) -> Result<String, OutOfMemory>
    ensures { IfOk result (λ changed. string_bytes changed ≡ map to_ascii_lowercase text.now) }
{
    let mut changed = String::from_str(alloc, text)?;
    changed.make_ascii_lowercase();
    Ok(changed)
}
