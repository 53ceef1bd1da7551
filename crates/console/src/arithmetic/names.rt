//! Names with their values.
ghost use Rattle.std.specs.Prelude.{◌≡◌, ℕ, List, None, OnErr, OnOk};
ghost use Rattle.console.specs.Names.{AreKept, AreSet, value_in};

use std::alloc::{AllocError, Global};
use std::collections::BTreeMap;

/// Names with their values.
pub struct Names {
    values: BTreeMap<String, i64>,
}

impl Drop for Names {
    fn drop(self) {
        let Names { values: _ } = self;
    }
}

impl Names {
    /// Returns no names.
    pub fn new(alloc: Global) -> Names
        ensures { (word : List ℕ) → value_in result word ≡ None }
    {
        Names {
            values: BTreeMap::new(alloc),
        }
    }

    /// Returns the value of a name.
    pub fn value(&self, name: &str) -> Option<i64>
        ensures { result ≡ value_in self.now name.now }
    {
        self.values.get(name).copied()
    }

    /// Returns what can be completed: the names, and the words of the commands.
    ///
    /// # Errors
    /// `Memory`.
    pub fn words(&self, alloc: Global) -> line_config::Result<Vec<String>> {
        let mut words = Vec::new(alloc);
        words.push(String::from_str(alloc, "keys")?)?;
        words.push(String::from_str(alloc, "load")?)?;
        for name in self.values.keys() {
            words.push(name.clone()?)?;
        }
        Ok(words)
    }

    /// Gives a name a value.
    ///
    /// # Errors
    /// `AllocError`, where an allocation fails.
    pub fn set(&mut self, alloc: Global, name: &str, value: i64) -> Result<(), AllocError>
        ensures ok { OnOk result (AreSet self.old self.new name.now value) }
        ensures err { OnErr result (AreKept self.old self.new) }
    {
        let key = String::from_str(alloc, name)?;
        self.values.insert(key, value)?;
        Ok(())
    }
}
