//! Texts that are put into the line.
ghost use Rattle.std.specs.Prelude.{◌≡◌, ◌==◌, not, false, length, IfOk, IsCharBoundary};
ghost use Rattle.line_buffer.specs.Yank.{can_pop, line_yank_popped, with_yank_pop};
ghost use Rattle.line_state.specs.Edited.{EditsTo, FindsToEdit, KeepsFirst, Reports, edited_to, in_one_group, pops_text, with_popped, with_text, with_update_to, with_yanked, yanked_at, at_anchor, stepped_back};

use super::EditedLine;
use line_buffer::{OutOfMemory, RepeatCount};
use line_keys::cmd::Anchor;

#[tactic(auto, using(crate::proofs::EditedLemmas::kept, crate::proofs::EditedLemmas::first_kept, crate::proofs::EditedLemmas::first_stays, crate::proofs::EditedLemmas::first_moved, crate::proofs::EditedLemmas::moved_text))]
impl EditedLine {
    /// Inserts a text at the cursor, which stays before it.
    ///
    /// # Errors
    /// `OutOfMemory` if memory runs out. There are then no changes to undo, and the line may be any
    /// text with its cursor on a boundary.
    pub fn insert_text(&mut self, text: &str) -> Result<(), OutOfMemory>
        ensures { EditsTo result self.old self.new (with_text text.now self.old) }
    {
        self.line
            .insert_str(self.line.pos(), text, &mut self.changes)
    }

    /// Inserts `n` copies of a text at the cursor, which then stands after them. Returns whether
    /// there was a text.
    ///
    /// # Errors
    /// `OutOfMemory` if memory runs out. There are then no changes to undo, and the line may be any
    /// text with its cursor on a boundary.
    pub fn yank(&mut self, text: &str, n: RepeatCount) -> Result<bool, OutOfMemory>
        ensures { Reports result self.old self.new (with_yanked text.now n self.old)
            (not (length text.now == 0)) }
    {
        let yanked = self.line.yank(text, n, &mut self.changes)?;
        Ok(yanked.is_some())
    }

    /// Puts `n` copies of a text before the cluster at the cursor, or after it, and the cursor
    /// after them, or with `step_back` one cluster before that. With the empty text only the cursor
    /// moves: for `After`, to after the cluster. Returns whether there was a text.
    ///
    /// # Errors
    /// `OutOfMemory` if memory runs out. There are then no changes to undo, and the line may be any
    /// text with its cursor on a boundary.
    pub fn yank_at(
        &mut self,
        anchor: Anchor,
        text: &str,
        n: RepeatCount,
        step_back: bool,
    ) -> Result<bool, OutOfMemory>
        ensures reports { FindsToEdit result self.old self.new
            (yanked_at anchor text.now n step_back self.old) (not (length text.now == 0)) }
        ensures unreported { IfOk result (λ done.
            done ≡ false → self.new.line.text ≡ self.old.line.text) }
    {
        self.go_to(anchor);
        if text.is_empty() {
            return Ok(false);
        }
        self.yank(text, n)?;
        self.step_back(step_back);
        Ok(true)
    }

    // Moves the cursor to where a text is put: before the cluster at it, or after that.
    fn go_to(&mut self, anchor: Anchor)
        ensures line { self.new ≡ at_anchor anchor self.old }
        ensures text { self.new.line.text ≡ self.old.line.text }
        ensures first { KeepsFirst self.old self.new }
    {
        match anchor {
            Anchor::Before => {}
            Anchor::After => {
                self.move_forward(1);
            }
        }
    }

    // Moves the cursor one cluster back, if it is to.
    fn step_back(&mut self, back: bool)
        ensures line { self.new ≡ stepped_back back self.old }
        ensures first { KeepsFirst self.old self.new }
    {
        if back {
            self.move_backward(1);
        }
    }

    /// Puts a text in the place of `size` bytes before the cursor, in one group of changes, with
    /// the cursor after it. Returns whether a text was removed or inserted: none is where fewer
    /// bytes stand there, or they would cut a character.
    ///
    /// # Errors
    /// `OutOfMemory` if memory runs out. There are then no changes to undo, and the line may be any
    /// text with its cursor on a boundary.
    pub fn yank_pop(&mut self, size: usize, text: &str) -> Result<bool, OutOfMemory>
        ensures reports { FindsToEdit result self.old self.new (with_popped size text.now self.old)
            (pops_text self.old.line size text.now) }
        ensures unreported { IfOk result (λ done.
            done ≡ false → self.new.line.text ≡ self.old.line.text) }
    {
        self.begin_group()?;
        let popped = self.pops_text(size, text);
        self.pop(size, text)?;
        self.end_groups()?;
        Ok(popped)
    }

    // Returns whether `size` bytes can be removed before the cursor, and these or the text are not
    // empty.
    fn pops_text(&self, size: usize, text: &str) -> bool
        ensures { result ≡ pops_text self.now.line size text.now }
    {
        if size == 0 && text.is_empty() {
            return false;
        }
        self.can_pop(size)
    }

    // Returns whether `size` bytes stand before the cursor, and cut no character.
    fn can_pop(&self, size: usize) -> bool
        ensures { result ≡ can_pop self.now.line size }
    {
        let end = self.line.pos();
        size <= end && self.line.as_str().is_char_boundary(end - size)
    }

    // Puts a text in the place of `size` bytes before the cursor, if they can be removed.
    fn pop(&mut self, size: usize, text: &str) -> Result<(), OutOfMemory>
        ensures { EditsTo result self.old self.new
            (edited_to (line_yank_popped self.old.line size text.now)
            (with_yank_pop self.old.line size text.now) self.old) }
    {
        let _ = self.line.yank_pop(size, text, &mut self.changes)?;
        Ok(())
    }

    /// Puts a text in the place of the whole line, and the cursor at byte `pos` of it.
    ///
    /// # Errors
    /// `OutOfMemory` if memory runs out. There are then no changes to undo, and the line may be any
    /// text with its cursor on a boundary.
    pub fn update(&mut self, text: &str, pos: usize) -> Result<(), OutOfMemory>
        requires { IsCharBoundary text.now pos }
        ensures { EditsTo result self.old self.new (with_update_to text.now pos self.old) }
    {
        self.line.update(text, pos, &mut self.changes)
    }

    /// Puts a text in the place of the whole line, in one group of changes, and the cursor at byte
    /// `pos` of it.
    ///
    /// # Errors
    /// `OutOfMemory` if memory runs out. There are then no changes to undo, and the line may be any
    /// text with its cursor on a boundary.
    pub fn update_in_group(&mut self, text: &str, pos: usize) -> Result<(), OutOfMemory>
        requires { IsCharBoundary text.now pos }
        ensures { EditsTo result self.old self.new
            (in_one_group (with_update_to text.now pos) self.old) }
    {
        self.begin_group()?;
        self.update(text, pos)?;
        self.end_groups()?;
        Ok(())
    }
}
