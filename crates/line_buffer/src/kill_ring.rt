ghost use Rattle.std.specs.Prelude.{◌≡◌, ◌<◌, ◌≤◌, length, slice_set, string_bytes, is_some, option_copied, option_map, OnErr, OnOk};
ghost use Rattle.line_buffer.specs.KillRing.{KeepsSize, with_current, with_current_text, killed, other, empty_ring, with_last, after_kill, joined, current_text, with_slot, next_slot, with_kept, yanked_text, after_yank, after_yank_pop, back_one, yank_pop_size, yank_popped};

use crate::line_buffer::OutOfMemory;
use std::alloc::Global;
use std::marker::Model;

/// On which side a killed text joins the current slot.
#[derive(Debug, Clone, Copy, PartialEq, Eq)]
pub enum Mode {
    /// At its end.
    Append,
    /// At its front.
    Prepend,
}

#[derive(Debug, Clone, Copy, PartialEq, Eq)]
enum Action {
    Kill,
    Yank(usize),
    Other,
}

/// The last texts that were killed, at most so many as its size, and the one that is yanked.
#[derive(Debug)]
pub struct KillRing {
    size: usize,
    slots: Vec<String>,
    current: usize,
    last: Action,
}

impl Drop for KillRing {
    fn drop(self) {
        let KillRing {
            size: _,
            slots: _,
            current: _,
            last: _,
        } = self;
    }
}

impl Model for KillRing {
    ghost use Rattle.std.specs.Prelude.{◌≡◌, ◌<◌, ◌≤◌, length, map};
    ghost use Rattle.std.specs.String.{string_bytes};
    ghost use Rattle.line_buffer.specs.KillRing.{Ring};

    ghost Value = { Ring };

    ghost use Rattle.line_buffer.specs.RingAction.{action_of};

    ghost view = { λ r. record {
      size = r.size;
      slots = map string_bytes r.slots.items;
      current = r.current;
      last = action_of r.last;
    } };

    ghost invariant = { λ r. (length r.slots.items ≤ r.size)
        × (0 < length r.slots.items → r.current < length r.slots.items) };
}

impl KillRing {
    ghost use Rattle.std.specs.Borrow.{sem};
    ghost use Rattle.line_buffer.specs.RingLoan.{LoanEndsAs};

    /// Returns a ring of `size` slots that holds nothing yet. It grows from `alloc`.
    pub fn new(alloc: Global, size: usize) -> KillRing
        ensures { result ≡ empty_ring size }
    {
        KillRing {
            size,
            slots: Vec::new(alloc),
            current: 0,
            last: Action::Other,
        }
    }

    /// Ends a row of kills or yanks: the next kill takes a slot of its own.
    pub fn reset(&mut self)
        ensures { self.new ≡ with_last self.old other }
    {
        self.last = Action::Other;
    }

    /// Keeps a text that was killed: right after a kill it joins the current slot, on the side that
    /// `mode` says; else it takes the next slot, which becomes the current one. A ring of size 0
    /// keeps nothing.
    ///
    /// # Errors
    ///
    /// `OutOfMemory` if memory runs out. The ring is then as before, with a kill as its last
    /// action.
    pub fn kill(&mut self, text: &str, mode: Mode) -> Result<(), OutOfMemory>
        ensures ring { OnOk result (self.new ≡ after_kill self.old text.now mode) }
        ensures err { OnErr result (self.new ≡ with_last self.old killed) }
        ensures fits { KeepsSize self.old self.new }
    {
        let joins = self.last == Action::Kill && !self.slots.is_empty();
        self.last = Action::Kill;
        if self.size == 0 {
            return Ok(());
        }
        if joins {
            return self.join(text, mode);
        }
        self.take_next(text)
    }

    /// Gives the text of the current slot, and records that it was yanked. `None` where nothing is
    /// held; then nothing changes.
    pub fn yank(&mut self) -> Option<&str>
        ensures* ring { sem 𝓛 (LoanEndsAs self.entry (after_yank self.entry.now)) }
        ensures answer { option_copied result ≡ yanked_text self.entry.now }
    {
        self.record_yank();
        self.current_text()
    }

    /// Right after a yank goes one slot back, from the first to the last that is held, and gives
    /// the bytes of the yank before and the text that is there now, which is recorded as yanked.
    /// `None` where the last action was no yank or nothing is held; then nothing changes.
    pub fn yank_pop(&mut self) -> Option<(usize, &str)>
        ensures* ring { sem 𝓛 (LoanEndsAs self.entry (after_yank_pop self.entry.now)) }
        ensures answer { option_map (λ popped. (popped.0, popped.1.now)) result
            ≡ yank_popped self.entry.now }
    {
        let size = self.record_yank_pop()?;
        let text = self.current_text()?;
        Some((size, text))
    }

    fn current_text(&self) -> Option<&str>
        ensures { option_copied result ≡ yanked_text self.now }
    {
        Some(self.slots.get(self.current)?.as_str())
    }

    fn record_yank(&mut self)
        ensures { self.new ≡ after_yank self.old }
    {
        if !self.slots.is_empty() {
            self.last = Action::Yank(self.slots[self.current].len());
        }
    }

    fn record_yank_pop(&mut self) -> Option<usize>
        ensures answer { result ≡ yank_pop_size self.old }
        ensures ring { self.new ≡ after_yank_pop self.old }
    {
        let Action::Yank(size) = self.last else {
            return None;
        };
        if self.slots.is_empty() {
            return None;
        }
        self.go_back();
        self.record_yank();
        Some(size)
    }

    /// Goes one slot back, from the first to the last that is held.
    fn go_back(&mut self)
        requires { 0 < length self.old.slots }
        ensures { self.new ≡ back_one self.old }
    {
        if self.current == 0 {
            self.current = self.slots.len() - 1;
        } else {
            self.current -= 1;
        }
    }

    /// Keeps a text that was killed, if there is a mode by which to keep it.
    pub(crate) fn keep(&mut self, text: &str, mode: Option<Mode>) -> Result<(), OutOfMemory>
        ensures ring { OnOk result (self.new ≡ with_kept self.old text.now mode) }
        ensures err { OnErr result (self.new ≡ with_last self.old killed) }
        ensures fits { KeepsSize self.old self.new }
    {
        self.slots_fit();
        match mode {
            Some(mode) => self.kill(text, mode),
            None => Ok(()),
        }
    }

    /// Does nothing. Its contract gives a proof that at most so many texts are held as the size.
    fn slots_fit(&self)
        ensures { length self.now.slots ≤ self.now.size }
    {
        let _ = &self.slots;
    }

    /// Puts a text on one side of the current slot's.
    fn join(&mut self, text: &str, mode: Mode) -> Result<(), OutOfMemory>
        requires { 0 < length self.old.slots }
        ensures ring { OnOk result (self.new
            ≡ with_current_text self.old (joined mode (current_text self.old) text.now)) }
        ensures err { OnErr result (self.new ≡ self.old) }
        ensures fits { KeepsSize self.old self.new }
    {
        let slot = &mut self.slots[self.current];
        join_text(slot, text, mode)?;
        Ok(())
    }

    /// Puts a text into the next slot.
    fn take_next(&mut self, text: &str) -> Result<(), OutOfMemory>
        requires { 0 < self.old.size }
        ensures ring { OnOk result (self.new
            ≡ with_current self.old (next_slot self.old) text.now) }
        ensures err { OnErr result (self.new ≡ self.old) }
        ensures fits { KeepsSize self.old self.new }
    {
        let next = self.next_slot();
        let text = String::from_str(*self.slots.allocator(), text)?;
        self.put(next, text)
    }

    /// Returns the slot after the current one: 0 on an empty ring and after the last that there may
    /// be.
    fn next_slot(&self) -> usize
        ensures slot { result ≡ next_slot self.now }
        ensures within { result ≤ length self.now.slots }
        ensures fits { 0 < self.now.size → result < self.now.size }
    {
        if self.slots.is_empty() || self.current + 1 == self.size {
            return 0;
        }
        self.current + 1
    }

    /// Puts a text into a slot, which becomes the current one.
    fn put(&mut self, slot: usize, text: String) -> Result<(), OutOfMemory>
        requires within { slot ≤ length self.old.slots }
        requires fits { slot < self.old.size }
        ensures ring { OnOk result (self.new ≡ with_current self.old slot (string_bytes text)) }
        ensures err { OnErr result (self.new ≡ self.old) }
        ensures fits { KeepsSize self.old self.new }
    {
        if slot == self.slots.len() {
            self.slots.push(text)?;
            self.current = slot;
            return Ok(());
        }
        self.slots[slot] = text;
        self.current = slot;
        Ok(())
    }
}

/// Puts a text after another or before it.
fn join_text(text: &mut String, more: &str, mode: Mode) -> Result<(), OutOfMemory>
    ensures text { OnOk result
        (string_bytes text.new ≡ joined mode (string_bytes text.old) more.now) }
    ensures err { OnErr result (string_bytes text.new ≡ string_bytes text.old) }
{
    match mode {
        Mode::Append => Ok(text.push_str(more)?),
        Mode::Prepend => Ok(text.insert_str(0, more)?),
    }
}
