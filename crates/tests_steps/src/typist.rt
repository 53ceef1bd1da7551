//! A reader of keys and pasted texts that were written down before, which notes how it is asked.
ghost use Rattle.std.specs.Prelude.{◌≡◌, ◌≤◌};
ghost use Rattle.line_config.specs.Error.{Rose};

use line_config::ReadlineError;
use line_keys::cmd::Cmd;
use line_keys::keys::{KeyCode, KeyEvent, Modifiers};
use line_keys::raw_reader::RawReader;
use std::alloc::{AllocError, Global};
use std::collections::VecDeque;
use std::io;

/// What a reader says of an item of the wrong kind.
pub const WRONG: &str = "another item stands there";

/// What a reader says of a call that fails by an error of its own.
pub const CUT: &str = "the keyboard is cut";

/// A key, or else a pasted text.
#[derive(Drop)]
struct Item {
    key: Option<KeyEvent>,
    pasted: String,
}

/// A reader: the items that are left, and the flag that came with each key that was asked for. One
/// call of it can fail.
pub struct Typist {
    alloc: Global,
    items: VecDeque<Item>,
    flags: Vec<bool>,
    failures: u64,
    calls: u64,
    failing: u64,
}

impl Drop for Typist {
    fn drop(self) {
        let Typist {
            alloc: _,
            items: _,
            flags: _,
            failures: _,
            calls: _,
            failing: _,
        } = self;
    }
}

impl Typist {
    /// A reader with nothing to read.
    pub fn new(alloc: Global) -> Typist {
        Typist {
            alloc,
            items: VecDeque::new(alloc),
            flags: Vec::new(alloc),
            failures: 0,
            calls: 0,
            failing: 0,
        }
    }

    /// Its call of the number `failing`, from 1 on, fails by an error of its own, and takes
    /// nothing; none does where that is 0. These are the calls that ask for a key, a character or a
    /// pasted text.
    pub fn cut_at(&mut self, failing: u64) {
        self.failing = failing;
    }

    /// Adds keys.
    pub fn press(&mut self, keys: &[KeyEvent]) -> Result<(), AllocError> {
        for key in keys {
            self.items.push_back(Item {
                key: Some(*key),
                pasted: String::new(self.alloc),
            })?;
        }
        Ok(())
    }

    /// Adds a pasted text.
    pub fn paste(&mut self, text: &str) -> Result<(), AllocError> {
        self.items.push_back(Item {
            key: None,
            pasted: String::from_str(self.alloc, text)?,
        })?;
        Ok(())
    }

    /// The flags that came with the keys that were asked for.
    pub fn flags(&self) -> &[bool] {
        self.flags.as_slice()
    }

    /// Counts a call, and returns whether it is the one that is to fail.
    fn is_cut(&mut self) -> bool
        ensures items { self.new.items ≡ self.old.items }
        ensures failures { self.new.failures ≡ self.old.failures }
    {
        self.calls = self.calls.saturating_add(1);
        self.calls == self.failing
    }

    /// Counts the failure of the call that is to fail, or else that the next item is of the wrong
    /// kind, and gives its error.
    fn fault(&mut self, is_cut: bool) -> io::Error
        ensures items { self.new.items ≡ self.old.items }
        ensures rose { Rose self.old.failures self.new.failures }
        ensures counts { self.old.failures ≤ self.new.failures }
    {
        self.failures = self.failures.saturating_add(1);
        if is_cut {
            io::Error::new(io::ErrorKind::UnexpectedEof, CUT)
        } else {
            io::Error::new(io::ErrorKind::InvalidData, WRONG)
        }
    }
}

impl RawReader for Typist {
    ghost use Rattle.std.specs.Prelude.{map, option_map, unwrap_or, string_bytes};
    ghost use Rattle.line_keys.specs.Item.{key, paste};
    ghost use Rattle.tests_steps.specs.Typist.{typed_binding};

    ghost rest = { λ t.
        map (λ i. unwrap_or (option_map key i.key) (paste (string_bytes i.pasted))) t.items.items };

    ghost failures = { λ t. t.failures };

    ghost Kept = { Unit };

    ghost kept = { λ _. tt };

    ghost own_binding = { λ _. typed_binding };

    fn next_key(&mut self, single_esc_abort: bool) -> Result<KeyEvent, ReadlineError> {
        self.flags.push(single_esc_abort)?;
        if self.is_cut() {
            return Err(ReadlineError::Io(self.fault(true)));
        }
        match self.items.front() {
            Some(Item { key: Some(key), .. }) => {
                let key = *key;
                let _ = self.items.pop_front();
                Ok(key)
            }
            Some(_) => Err(ReadlineError::Io(self.fault(false))),
            None => Err(ReadlineError::Eof),
        }
    }

    fn next_char(&mut self) -> Result<char, ReadlineError> {
        if self.is_cut() {
            return Err(ReadlineError::Io(self.fault(true)));
        }
        match self.items.front() {
            Some(
                Item {
                    key: Some(KeyEvent(KeyCode::Char(c), Modifiers::NONE)),
                    ..
                },
            ) => {
                let c = *c;
                let _ = self.items.pop_front();
                Ok(c)
            }
            Some(_) => Err(ReadlineError::Io(self.fault(false))),
            None => Err(ReadlineError::Eof),
        }
    }

    fn read_pasted_text(&mut self) -> Result<String, ReadlineError> {
        if self.is_cut() {
            return Err(ReadlineError::Io(self.fault(true)));
        }
        match self.items.front() {
            Some(Item { key: None, .. }) => match self.items.pop_front() {
                Some(Item { pasted, .. }) => Ok(pasted),
                _ => unreachable!(),
            },
            Some(_) => Err(ReadlineError::Io(self.fault(false))),
            None => Err(ReadlineError::Eof),
        }
    }

    fn find_binding(&self, key: &KeyEvent) -> Option<Cmd> {
        match key {
            KeyEvent(KeyCode::Char('C'), Modifiers::CTRL) => Some(Cmd::Interrupt),
            KeyEvent(KeyCode::Char('D'), Modifiers::CTRL) => Some(Cmd::EndOfFile),
            _ => None,
        }
    }
}
