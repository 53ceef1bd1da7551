//! Characters, words and lines that change in their place.
ghost use Rattle.std.specs.Prelude.{◌≡◌, false, is_some, length, min, IfOk};
ghost use Rattle.line_buffer.specs.Cluster.{clusters, place_on};
ghost use Rattle.line_buffer.specs.Line.{after};
ghost use Rattle.line_buffer.specs.Range.{from_cursor};
ghost use Rattle.line_buffer.specs.Transpose.{are_apart, chars_exchanged, has_two_chars, next_alphanumeric, with_chars_exchanged, with_word_cased, with_words_exchanged, word_cased, words_beside, words_exchanged};
ghost use Rattle.line_state.specs.Edited.{EditsTo, FindsToEdit, Reports, edited_to, with_char_for, with_chars_swapped, with_copies_to, with_lines_shifted, with_next_word, with_overwritten, with_words_swapped, without_range};

use super::EditedLine;
use line_buffer::{Movement, OutOfMemory, RepeatCount, WordAction};
use unicode_segmentation::UnicodeSegmentation;

#[tactic(auto, using(crate::proofs::EditedLemmas::kept, crate::proofs::EditedLemmas::first_kept, crate::proofs::EditedLemmas::first_stays))]
impl EditedLine {
    /// Puts a character in the place of the cluster at the cursor, which then stands after it.
    /// Returns whether there is one.
    ///
    /// # Errors
    /// `OutOfMemory` if memory runs out. There are then no changes to undo, and the line may be any
    /// text with its cursor on a boundary.
    pub fn overwrite(&mut self, c: char) -> Result<bool, OutOfMemory>
        ensures { let stop = place_on self.old.line 1 in
            Reports result self.old self.new (with_overwritten c stop self.old) (is_some stop) }
    {
        let Some(stop) = self.line.next_pos(1) else {
            return Ok(false);
        };
        let mut bytes = [0; 4];
        let text = c.encode_utf8(&mut bytes);
        self.line
            .replace(self.line.pos()..stop, text, &mut self.changes)?;
        Ok(true)
    }

    /// Puts a character in the place of each of `n` clusters from the cursor on, or of as many as
    /// there are, in one group of changes, with the cursor on the last. Returns whether there is
    /// one.
    ///
    /// # Errors
    /// `OutOfMemory` if memory runs out. There are then no changes to undo, and the line may be any
    /// text with its cursor on a boundary.
    pub fn replace_char(&mut self, c: char, n: RepeatCount) -> Result<bool, OutOfMemory>
        ensures { Reports result self.old self.new (with_char_for c n self.old)
            (is_some (place_on self.old.line n)) }
    {
        self.begin_group()?;
        let replaced = self.replace_clusters(c, n)?;
        self.end_groups()?;
        Ok(replaced)
    }

    // Puts a character in the place of each of `n` clusters from the cursor on, with the cursor on
    // the last.
    fn replace_clusters(&mut self, c: char, n: RepeatCount) -> Result<bool, OutOfMemory>
        ensures { let count = min n (length (clusters (after self.old.line))) in
            let stop = place_on self.old.line n in
            FindsToEdit result self.old self.new
            (with_copies_to c count stop self.old) (is_some stop) }
    {
        let count = self.count_clusters(n);
        if !self.delete(n)? {
            return Ok(false);
        }
        self.insert(c, count)?;
        self.move_backward(1);
        Ok(true)
    }

    // Returns how many clusters stand from the cursor on, at most `n`.
    fn count_clusters(&self, n: RepeatCount) -> RepeatCount
        ensures { result ≡ min n (length (clusters (after self.now.line))) }
    {
        let rest = &self.line.as_str()[self.line.pos()..];
        rest.graphemes(true).take(n as usize).count() as RepeatCount
    }

    // Takes away `n` clusters from the cursor on, or as many as there are. Returns whether there is
    // one.
    fn delete(&mut self, n: RepeatCount) -> Result<bool, OutOfMemory>
        ensures { let stop = place_on self.old.line n in FindsToEdit result self.old self.new
            (without_range (from_cursor self.old.line stop) self.old) (is_some stop) }
    {
        self.line.discard(n, &mut self.changes)
    }

    /// Exchanges the clusters before and at the cursor, at the end of the text the last two, in one
    /// group of changes, with the cursor after both. Returns whether there are two.
    ///
    /// # Errors
    /// `OutOfMemory` if memory runs out. There are then no changes to undo, and the line may be any
    /// text with its cursor on a boundary.
    pub fn transpose_chars(&mut self) -> Result<bool, OutOfMemory>
        ensures { Reports result self.old self.new (with_chars_swapped self.old)
            (has_two_chars self.old.line) }
    {
        self.begin_group()?;
        let exchanged = self.exchange_chars()?;
        self.end_groups()?;
        Ok(exchanged)
    }

    // Exchanges the clusters before and at the cursor.
    fn exchange_chars(&mut self) -> Result<bool, OutOfMemory>
        ensures { let line = self.old.line in FindsToEdit result self.old self.new
            (edited_to (chars_exchanged line) (with_chars_exchanged line) self.old)
            (has_two_chars line) }
    {
        self.line.transpose_chars(&mut self.changes)
    }

    /// Exchanges the word that ends `n` words on from the cursor with the `n`-th before it, in one
    /// group of changes, with the cursor after both. Returns whether these are two words; if not,
    /// the cursor alone moves: to after the first.
    ///
    /// # Errors
    /// `OutOfMemory` if memory runs out. There are then no changes to undo, and the line may be any
    /// text with its cursor on a boundary.
    pub fn transpose_words(&mut self, n: RepeatCount) -> Result<bool, OutOfMemory>
        ensures reports { FindsToEdit result self.old self.new (with_words_swapped n self.old)
            (are_apart (words_beside self.old.line n)) }
        ensures unreported { IfOk result (λ done.
            done ≡ false → self.new.line.text ≡ self.old.line.text) }
    {
        self.begin_group()?;
        let exchanged = self.exchange_words(n)?;
        self.end_groups()?;
        Ok(exchanged)
    }

    // Exchanges the word that ends `n` words on from the cursor with the `n`-th before it.
    fn exchange_words(&mut self, n: RepeatCount) -> Result<bool, OutOfMemory>
        ensures { let line = self.old.line in FindsToEdit result self.old self.new
            (edited_to (words_exchanged line n) (with_words_exchanged line n) self.old)
            (are_apart (words_beside line n)) }
    {
        self.line.transpose_words(n, &mut self.changes)
    }

    /// Changes the case of the next word, in one group of changes, with the cursor after it.
    /// Returns whether there is one.
    ///
    /// # Errors
    /// `OutOfMemory` if memory runs out. There are then no changes to undo, and the line may be any
    /// text with its cursor on a boundary.
    pub fn edit_word(&mut self, action: WordAction) -> Result<bool, OutOfMemory>
        ensures { Reports result self.old self.new (with_next_word action self.old)
            (is_some (next_alphanumeric self.old.line)) }
    {
        self.begin_group()?;
        let changed = self.change_word(action)?;
        self.end_groups()?;
        Ok(changed)
    }

    // Changes the case of the next word.
    fn change_word(&mut self, action: WordAction) -> Result<bool, OutOfMemory>
        ensures { let line = self.old.line in FindsToEdit result self.old self.new
            (edited_to (word_cased action line) (with_word_cased action line) self.old)
            (is_some (next_alphanumeric line)) }
    {
        self.line.edit_word(action, &mut self.changes)
    }

    /// Puts `amount` spaces before the lines of a movement, or with `dedent` takes away up to as
    /// many white-space characters at their front. The cursor stays with its character.
    ///
    /// # Errors
    /// `OutOfMemory` if memory runs out. There are then no changes to undo, and the line may be any
    /// text with its cursor on a boundary.
    pub fn indent(
        &mut self,
        movement: &Movement,
        amount: usize,
        dedent: bool,
    ) -> Result<(), OutOfMemory>
        ensures { EditsTo result self.old self.new
            (with_lines_shifted dedent amount movement.now self.old) }
    {
        let _ = self
            .line
            .indent(movement, amount, dedent, &mut self.changes)?;
        Ok(())
    }
}
