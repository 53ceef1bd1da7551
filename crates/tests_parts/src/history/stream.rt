//! Streams that give and take little at once, that are interrupted, and that fail at a byte, once
//! or from there on.

use How::{Always, Full, Interrupted, Once};
use std::alloc::Global;
use std::io::{self, Error, ErrorKind, Read, Write};

/// How a stream fails that gives one byte a call.
#[derive(Clone, Copy)]
pub enum How {
    /// Once, by an error with a text. It takes all bytes before that place at once.
    Once,
    /// From a place on, by an error of a kind alone. It takes one byte a call.
    Always,
    /// The same, interrupted before each byte.
    Interrupted,
    /// From a place on it takes nothing; before it, one byte a call.
    Full,
}

/// The kind of an error, what it displays, and how a stream fails by it.
pub type Manner = (ErrorKind, &'static str, How);

/// A stream that gives a text or takes one, and fails before the byte at a place, or at a flush
/// there. Where it fails once, a second try would succeed.
#[derive(Drop)]
pub struct Stream<'t> {
    text: &'t str,
    at: usize,
    pub taken: Vec<u8>,
    pub place: usize,
    pub manner: Manner,
    interrupted: bool,
}

impl<'t> Stream<'t> {
    pub fn new(alloc: Global, text: &'t str, place: usize, manner: &Manner) -> Stream<'t> {
        Stream {
            text,
            at: 0,
            taken: Vec::new(alloc),
            place,
            manner: *manner,
            interrupted: false,
        }
    }

    /// The error where it fails after so many bytes, or is interrupted.
    fn broken(&mut self, done: usize) -> io::Result<()> {
        let (kind, text, how) = self.manner;
        if matches!(how, Interrupted) && !self.interrupted {
            self.interrupted = true;
            return Err(Error::from(ErrorKind::Interrupted));
        }
        self.interrupted = false;
        if done < self.place {
            return Ok(());
        }
        if matches!(how, Once) {
            self.place = WHOLE;
            return Err(Error::new(kind, text));
        }
        Err(Error::from(kind))
    }
}

impl Read for Stream<'_> {
    fn read(&mut self, buf: &mut [u8]) -> io::Result<usize> {
        self.broken(self.at)?;
        let Some(byte) = self.text.as_bytes().get(self.at) else {
            return Ok(0);
        };
        let Some(first) = buf.first_mut() else {
            return Ok(0);
        };
        *first = *byte;
        self.at = self.at.saturating_add(1);
        Ok(1)
    }
}

impl Write for Stream<'_> {
    fn write(&mut self, buf: &[u8]) -> io::Result<usize> {
        let done = self.taken.len();
        let left = self.place.saturating_sub(done);
        let room = match self.manner.2 {
            Full if left == 0 => return Ok(0),
            Once if left > 0 => left.min(buf.len()),
            _ => 1,
        };
        self.broken(done)?;
        let Some(bytes) = buf.get(..room) else {
            return Ok(0);
        };
        self.taken.extend_from_slice(bytes)?;
        Ok(bytes.len())
    }

    /// A flush is not interrupted, and fails where all bytes before the place were taken.
    fn flush(&mut self) -> io::Result<()> {
        let done = self.taken.len();
        self.interrupted = true;
        self.broken(done)
    }
}

/// No place of a text.
pub const WHOLE: usize = usize::MAX;

/// One that fails once.
const GONE: Manner = (ErrorKind::PermissionDenied, "the disk is gone", Once);

/// The same alone.
pub const ONE: &[Manner] = &[GONE];

/// Each kind that a stream can answer, but for `Interrupted`, after which it is asked again, and
/// three faults of their own. What a stream tells of memory is the want of it.
pub const MANNERS: &[Manner] = &[
    (ErrorKind::BrokenPipe, "", Always),
    (ErrorKind::BrokenPipe, "", Interrupted),
    (ErrorKind::WriteZero, "", Full),
    (ErrorKind::Other, "a party failed", Once),
    GONE,
    (ErrorKind::UnexpectedEof, "the answer broke off", Once),
    (ErrorKind::OutOfMemory, "a buffer is full", Once),
    (ErrorKind::NotFound, "the stream broke", Once),
    (ErrorKind::PermissionDenied, "the stream broke", Once),
    (ErrorKind::ConnectionRefused, "the stream broke", Once),
    (ErrorKind::ConnectionReset, "the stream broke", Once),
    (ErrorKind::HostUnreachable, "the stream broke", Once),
    (ErrorKind::NetworkUnreachable, "the stream broke", Once),
    (ErrorKind::ConnectionAborted, "the stream broke", Once),
    (ErrorKind::NotConnected, "the stream broke", Once),
    (ErrorKind::AddrInUse, "the stream broke", Once),
    (ErrorKind::AddrNotAvailable, "the stream broke", Once),
    (ErrorKind::NetworkDown, "the stream broke", Once),
    (ErrorKind::BrokenPipe, "the stream broke", Once),
    (ErrorKind::AlreadyExists, "the stream broke", Once),
    (ErrorKind::WouldBlock, "the stream broke", Once),
    (ErrorKind::NotADirectory, "the stream broke", Once),
    (ErrorKind::IsADirectory, "the stream broke", Once),
    (ErrorKind::DirectoryNotEmpty, "the stream broke", Once),
    (ErrorKind::ReadOnlyFilesystem, "the stream broke", Once),
    (ErrorKind::StaleNetworkFileHandle, "the stream broke", Once),
    (ErrorKind::InvalidInput, "the stream broke", Once),
    (ErrorKind::InvalidData, "the stream broke", Once),
    (ErrorKind::TimedOut, "the stream broke", Once),
    (ErrorKind::WriteZero, "the stream broke", Once),
    (ErrorKind::StorageFull, "the stream broke", Once),
    (ErrorKind::NotSeekable, "the stream broke", Once),
    (ErrorKind::QuotaExceeded, "the stream broke", Once),
    (ErrorKind::FileTooLarge, "the stream broke", Once),
    (ErrorKind::ResourceBusy, "the stream broke", Once),
    (ErrorKind::ExecutableFileBusy, "the stream broke", Once),
    (ErrorKind::Deadlock, "the stream broke", Once),
    (ErrorKind::CrossesDevices, "the stream broke", Once),
    (ErrorKind::TooManyLinks, "the stream broke", Once),
    (ErrorKind::InvalidFilename, "the stream broke", Once),
    (ErrorKind::ArgumentListTooLong, "the stream broke", Once),
    (ErrorKind::Unsupported, "the stream broke", Once),
    (ErrorKind::UnexpectedEof, "the stream broke", Once),
    (ErrorKind::Other, "the stream broke", Once),
];
