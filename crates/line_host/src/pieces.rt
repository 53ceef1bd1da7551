//! Bytes that are taken in pieces.
ghost use Rattle.std.specs.Prelude.{◌≡◌, ◌↔◌, ◌≤◌, List, ℕ, [], true, drop, length, min, take};
ghost use Rattle.line_host.specs.Copied.{Copies, TakesBytes};

use crate::status::Status;
use std::alloc::Global;
use std::marker::Model;

/// Bytes of which some were taken.
#[derive(Drop)]
pub struct Pieces {
    bytes: Vec<u8>,
    taken: usize,
}

impl Model for Pieces {
    ghost Value = { List ℕ };

    ghost view = { λ p. drop p.taken p.bytes.items };

    ghost invariant = { λ p. p.taken ≤ length p.bytes.items };
}

impl Pieces {
    /// Returns no bytes.
    pub fn new(alloc: Global) -> Pieces
        ensures { result ≡ [] }
    {
        Pieces::of(Vec::new(alloc))
    }

    /// Returns these bytes, of which none was taken.
    pub fn of(bytes: Vec<u8>) -> Pieces
        ensures { result ≡ bytes.items }
    {
        Pieces { bytes, taken: 0 }
    }

    /// Returns whether all bytes were taken.
    pub fn is_empty(&self) -> bool
        ensures { result ≡ true ↔ self.now ≡ [] }
    {
        self.taken == self.bytes.len()
    }

    /// Returns an empty vector in the memory of these bytes, which are dropped.
    pub fn into_memory(self) -> Vec<u8>
        ensures { result.items ≡ [] }
    {
        let Pieces {
            mut bytes,
            taken: _,
        } = self;
        bytes.clear();
        bytes
    }

    /// Takes bytes from the front into `buffer`, as many as there are and it has room for. Returns
    /// how many were taken.
    pub fn take(&mut self, buffer: &mut [u8]) -> usize
        ensures { TakesBytes self.old self.new buffer.old buffer.new result }
    {
        let left = &self.bytes[self.taken..];
        let count = copy_start(left, buffer);
        self.taken += count;
        count
    }
}

/// Copies bytes into a buffer, as many as there are and it has room for. Returns how many.
fn copy_start(bytes: &[u8], buffer: &mut [u8]) -> usize
    ensures count { result ≡ min (length bytes.now) (length buffer.old) }
    ensures copied { take result buffer.new ≡ take result bytes.now }
    ensures rest { drop result buffer.new ≡ drop result buffer.old }
{
    let count = bytes.len().min(buffer.len());
    buffer[..count].copy_from_slice(&bytes[..count]);
    count
}

/// Copies a text into a buffer, where that has room for all of it. Reports its length in any case.
pub(crate) fn copy_text(text: &str, buffer: &mut [u8], len: &mut usize) -> Status
    ensures { Copies text.now buffer.old buffer.new len.new result }
{
    *len = text.len();
    if text.len() > buffer.len() {
        return Status::TooSmall;
    }
    copy_start(text.as_bytes(), buffer);
    Status::Done
}
