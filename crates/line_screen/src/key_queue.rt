//! A reader of the keys and pasted texts that a program hands over.
ghost use Rattle.std.specs.Prelude.{◌≡◌, ℕ, ◌+◌, ◌≤◌, min, ◌==◌, ◌∷◌, [], List, true, false, length, map, chars, Err, is_some, IfOk, IfErr, IfSome, OnOk, OnErr, string_bytes};
ghost use Rattle.line_config.specs.Error.{MemoryOnly, is_io, max_count};
ghost use Rattle.line_config.specs.declared.error.ReadlineError.TheVariants.{Eof};
ghost use Rattle.line_keys.specs.Item as input;
ghost use Rattle.line_screen.specs.KeyQueue.{Appends, AppendsTyped, Reads, Takes, item_of, paste_start, plain_key, standing};

use line_config::{ReadlineError, Result};
use line_keys::cmd::Cmd;
use line_keys::keys::{KeyCode, KeyEvent, Modifiers};
use line_keys::raw_reader::RawReader;
use std::alloc::Global;
use std::collections::VecDeque;
use std::marker::Model;
use std::{io, mem};

/// Something that is read.
#[derive(Debug, Drop)]
enum Item {
    /// A key.
    Key(KeyEvent),
    /// A pasted text.
    Paste(String),
}

/// A reader of the keys and pasted texts that a program hands over, in that order.
///
/// At the end of what is there so far a call answers `Eof`, and the program can hand over more.
/// What was read since the mark stays in the queue, so that it can be read again; a new queue has
/// its mark at the start.
pub struct KeyQueue {
    alloc: Global,
    items: VecDeque<Item>,
    read: usize,
    failures: u64,
    binds: bool,
}

impl Drop for KeyQueue {
    fn drop(self) {
        let KeyQueue {
            alloc: _,
            items: _,
            read: _,
            failures: _,
            binds: _,
        } = self;
    }
}

impl Model for KeyQueue {
    ghost use Rattle.std.specs.Prelude.{◌≤◌, drop, length, map, take};
    ghost use Rattle.line_screen.specs.KeyQueue.{Queued, item_of};

    ghost Value = { Queued };

    ghost view = { λ q. record {
      read = map item_of (take q.read q.items.items);
      rest = map item_of (drop q.read q.items.items);
      failures = q.failures;
      binds = q.binds;
    } };

    ghost invariant = { λ q. q.read ≤ length q.items.items };
}

impl KeyQueue {
    /// Returns an empty queue, kept in memory of `alloc`, which binds Ctrl-C to an interrupt and
    /// Ctrl-D to the end of the input.
    pub fn new(alloc: Global) -> KeyQueue
        ensures { result ≡ record { read = []; rest = []; failures = 0; binds = true } }
    {
        KeyQueue {
            alloc,
            items: VecDeque::new(alloc),
            read: 0,
            failures: 0,
            binds: true,
        }
    }

    /// Returns an empty queue, kept in memory of `alloc`, which binds no key.
    pub fn without_bindings(alloc: Global) -> KeyQueue
        ensures { result ≡ record { read = []; rest = []; failures = 0; binds = false } }
    {
        KeyQueue {
            alloc,
            items: VecDeque::new(alloc),
            read: 0,
            failures: 0,
            binds: false,
        }
    }

    /// Appends a key.
    ///
    /// # Errors
    /// `Memory` if memory runs out. Nothing is then appended.
    #[tactic(auto, using(crate::proofs::QueueLemmas::appended, crate::proofs::QueueLemmas::appended_behind))]
    pub fn press(&mut self, key: KeyEvent) -> Result<()>
        ensures { Appends result (input.key key ∷ []) self.old self.new }
    {
        self.items.push_back(Item::Key(key))?;
        Ok(())
    }

    /// Appends a key without modifiers for each character of the text.
    ///
    /// # Errors
    /// `Memory` if memory runs out. Nothing is then appended.
    #[tactic(auto, using(crate::proofs::QueueLemmas::typed, crate::proofs::QueueLemmas::typed_behind))]
    pub fn type_text(&mut self, text: &str) -> Result<()>
        ensures { Appends result (map plain_key (chars text.now)) self.old self.new }
    {
        push_typed(&mut self.items, text)
    }

    /// Appends the key that stands before a pasted text, and the text.
    ///
    /// # Errors
    /// `Memory` if memory runs out. Nothing is then appended.
    pub fn paste(&mut self, text: &str) -> Result<()>
        ensures { Appends result
            (input.key paste_start ∷ input.paste text.now ∷ []) self.old self.new }
    {
        let mut pasted = String::from_str(self.alloc, text)?;
        self.append_paste(&mut pasted)
    }

    /// Appends the key that stands before a pasted text, and the text, which is moved out of `text`.
    ///
    /// # Errors
    /// `Memory` if memory runs out. Nothing is then appended, and `text` stays.
    #[tactic(auto, using(crate::proofs::QueueLemmas::appended, crate::proofs::QueueLemmas::appended_behind))]
    pub fn append_paste(&mut self, text: &mut String) -> Result<()>
        ensures appends { Appends result
            (input.key paste_start ∷ input.paste (string_bytes text.old) ∷ []) self.old self.new }
        ensures moved { OnOk result (string_bytes text.new ≡ []) }
        ensures stays { OnErr result (text.new ≡ text.old) }
    {
        self.items.reserve(2)?;
        // there is room, so these do not fail
        let start = KeyEvent(KeyCode::BracketedPasteStart, Modifiers::NONE);
        self.items.push_back(Item::Key(start))?;
        let pasted = mem::replace(text, String::new(self.alloc));
        self.items.push_back(Item::Paste(pasted))?;
        Ok(())
    }

    /// Returns how many items are left to read.
    pub fn len(&self) -> usize
        ensures { result ≡ length self.now.rest }
    {
        self.items.len() - self.read
    }

    /// Returns whether no item is left to read.
    pub fn is_empty(&self) -> bool
        ensures { result ≡ (length self.now.rest == 0) }
    {
        self.len() == 0
    }

    /// Returns how often the next item was of another kind than the one that was asked for. The
    /// count stays at its greatest value.
    pub fn failures(&self) -> u64
        ensures { result ≡ self.now.failures }
    {
        self.failures
    }

    /// Sets the mark here. What was read before is forgotten.
    pub fn mark(&mut self)
        ensures { self.new ≡ record self.old { read = [] } }
    {
        for _ in 0..self.read {
            self.items.pop_front();
        }
        self.read = 0;
    }

    /// Takes the next item, where it is a pasted text, and returns the text: it stands alone, as
    /// the key before it was read as the key of something else. Returns None, and takes nothing,
    /// where the next item is a key or nothing is left.
    ///
    /// # Errors
    /// `Memory` if memory runs out. Nothing is then taken.
    pub fn next_paste(&mut self) -> Result<Option<String>>
        ensures took { IfOk result (λ next. IfSome next
            (λ t. self.old.rest ≡ input.paste (string_bytes t) ∷ self.new.rest)) }
        ensures takes { (t : List ℕ) (more : List input.Item) → self.old.rest ≡ input.paste t ∷ more
            → IfOk result (λ next. is_some next ≡ true) }
        ensures none { IfOk result (λ next. is_some next ≡ false → self.new ≡ self.old) }
        ensures err { OnErr result (self.new ≡ self.old) }
        ensures memory { MemoryOnly result }
        ensures stands { standing self.new ≡ standing self.old }
        ensures stays { self.new
            ≡ record self.old { read = self.new.read; rest = self.new.rest } }
    {
        match self.items.get(self.read) {
            Some(Item::Paste(text)) => {
                let text = String::from_str(self.alloc, text.as_str())?;
                self.read += 1;
                Ok(Some(text))
            }
            _ => Ok(None),
        }
    }

    /// Goes back to the mark: what was read since then is read again.
    #[tactic(auto, using(crate::proofs::QueueLemmas::rewound))]
    pub fn rewind(&mut self)
        ensures { self.new ≡ record self.old { read = []; rest = standing self.old } }
    {
        self.read = 0;
    }

    /// Counts the failure that the next item is of the wrong kind, and returns its error.
    fn wrong_item(&mut self) -> io::Error
        ensures rest { self.new ≡ record self.old { failures = self.new.failures } }
        ensures counts { self.new.failures ≡ min max_count (self.old.failures + 1) }
    {
        self.failures = self.failures.saturating_add(1);
        io::Error::from(io::ErrorKind::InvalidData)
    }
}

/// Appends a key without modifiers for each character of the text: all, or none.
fn push_typed(items: &mut VecDeque<Item>, text: &str) -> Result<()>
    ensures ok { OnOk result (AppendsTyped items.old.items items.new.items text.now) }
    ensures err { OnErr result (items.new.items ≡ items.old.items) }
    ensures memory { MemoryOnly result }
{
    let before = items.len();
    for c in text.chars() {
        let key = KeyEvent(KeyCode::Char(c), Modifiers::NONE);
        if items.push_back(Item::Key(key)).is_err() {
            items.truncate(before);
            return Err(ReadlineError::Memory);
        }
    }
    Ok(())
}

impl RawReader for KeyQueue {
    ghost use Rattle.line_keys.specs.Item as input;
    ghost use Rattle.line_screen.specs.KeyQueue.{kept_by, queue_binding};
    ghost use Rattle.std.specs.Prelude.{Bool, List};

    ghost rest = { λ q. q.rest };

    ghost failures = { λ q. q.failures };

    // Whether keys are bound, and all that stands in the queue since the mark.
    ghost Kept = { Bool × List input.Item };

    ghost kept = { kept_by };

    ghost own_binding = { λ kept. queue_binding kept.0 };

    fn next_key(&mut self, single_esc_abort: bool) -> Result<KeyEvent>
        ensures takes { Takes result (λ k. input.key k) self.old self.new }
        ensures reads { Reads result (λ k. input.key k) self.old.rest }
    {
        let _ = single_esc_abort;
        match self.items.get(self.read) {
            Some(Item::Key(key)) => {
                let key = *key;
                self.read += 1;
                Ok(key)
            }
            Some(Item::Paste(_)) => Err(ReadlineError::Io(self.wrong_item())),
            None => Err(ReadlineError::Eof),
        }
    }

    fn next_char(&mut self) -> Result<char>
        ensures takes { Takes result plain_key self.old self.new }
        ensures reads { Reads result plain_key self.old.rest }
    {
        match self.items.get(self.read) {
            Some(Item::Key(KeyEvent(KeyCode::Char(c), Modifiers::NONE))) => {
                let c = *c;
                self.read += 1;
                Ok(c)
            }
            Some(_) => Err(ReadlineError::Io(self.wrong_item())),
            None => Err(ReadlineError::Eof),
        }
    }

    /// The text is a copy: where there is no memory for it, nothing is read.
    fn read_pasted_text(&mut self) -> Result<String>
        ensures takes { Takes result (λ t. input.paste (string_bytes t)) self.old self.new }
        ensures ends { self.old.rest ≡ [] → result ≡ Err Eof }
        ensures refused { (t : List ℕ) (more : List input.Item)
            → self.old.rest ≡ input.paste t ∷ more → MemoryOnly result }
        ensures wrong { (k : KeyEvent) (more : List input.Item)
            → self.old.rest ≡ input.key k ∷ more → IfErr result (λ e. is_io e ≡ true) }
    {
        match self.items.get(self.read) {
            Some(Item::Paste(text)) => {
                let text = String::from_str(self.alloc, text.as_str())?;
                self.read += 1;
                Ok(text)
            }
            Some(Item::Key(_)) => Err(ReadlineError::Io(self.wrong_item())),
            None => Err(ReadlineError::Eof),
        }
    }

    fn find_binding(&self, key: &KeyEvent) -> Option<Cmd> {
        if !self.binds {
            return None;
        }
        match key {
            KeyEvent(KeyCode::Char('C'), Modifiers::CTRL) => Some(Cmd::Interrupt),
            KeyEvent(KeyCode::Char('D'), Modifiers::CTRL) => Some(Cmd::EndOfFile),
            _ => None,
        }
    }
}
