//! Bytes that wait to be written to a terminal.
ghost use Rattle.std.specs.Prelude.{◌≡◌};

use crate::pieces::Pieces;
use std::alloc::Global;
use std::io::{self, Write};

/// Bytes that a host is to write to its terminal, until it takes them.
#[derive(Drop)]
pub struct Pending {
    bytes: Vec<u8>,
}

impl Pending {
    /// Returns no bytes.
    pub fn new(alloc: Global) -> Pending {
        Pending::of(Vec::new(alloc))
    }

    /// Returns these bytes. Those that are written come after them, in the same memory.
    pub fn of(bytes: Vec<u8>) -> Pending
        ensures { result.bytes ≡ bytes }
    {
        Pending { bytes }
    }

    /// Returns the bytes, of which none was taken.
    pub fn into_pieces(self) -> Pieces
        ensures { result ≡ self.bytes.items }
    {
        Pieces::of(self.bytes)
    }
}

impl Write for Pending {
    fn write(&mut self, buf: &[u8]) -> io::Result<usize> {
        self.bytes.write(buf)
    }

    fn flush(&mut self) -> io::Result<()> {
        self.bytes.flush()
    }
}
