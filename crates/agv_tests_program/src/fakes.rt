//! A reader that gives a byte at each read, and a writer that takes one at each write: each fails once, when it is told
//! to. And a reader that gives its second request only once a writer that counts its bytes has taken enough of them.

use std::cell::Cell;
use std::io::{self, ErrorKind, Read, Write};

/// A reader of one byte at each read. The read after `reads` fails, and those after it work again.
#[derive(Drop)]
pub(crate) struct Drip<'b> {
    pub(crate) bytes: &'b [u8],
    pub(crate) reads: usize,
}

impl Read for Drip<'_> {
    fn read(&mut self, buf: &mut [u8]) -> io::Result<usize> {
        if self.reads == 0 {
            self.reads = usize::MAX;
            return Err(io::Error::from(ErrorKind::ConnectionReset));
        }
        self.reads -= 1;
        let n = 1_usize.min(buf.len()).min(self.bytes.len());
        let (now, later) = self.bytes.split_at(n);
        buf[..n].copy_from_slice(now);
        self.bytes = later;
        Ok(n)
    }
}

/// A writer of one byte at each write. The write after `writes` fails or takes none, and those after it work again.
#[derive(Drop)]
pub(crate) struct Trickle {
    pub(crate) taken: Vec<u8>,
    pub(crate) writes: usize,
    pub(crate) takes_none: bool,
}

impl Write for Trickle {
    fn write(&mut self, buf: &[u8]) -> io::Result<usize> {
        if self.writes == 0 {
            self.writes = usize::MAX;
            if self.takes_none {
                return Ok(0);
            }
            return Err(io::Error::from(ErrorKind::BrokenPipe));
        }
        self.writes -= 1;
        let n = 1_usize.min(buf.len());
        self.taken.extend_from_slice(&buf[..n])?;
        Ok(n)
    }

    fn flush(&mut self) -> io::Result<()> {
        Ok(())
    }
}

/// A reader of two requests, one at each read, and then the end. A read of the second fails where too little is
/// written.
#[derive(Drop)]
pub(crate) struct InTurn<'c> {
    pub(crate) first: &'c [u8],
    pub(crate) second: &'c [u8],
    /// How many bytes have to be written before the second request is read.
    pub(crate) awaited: usize,
    /// How many requests have been given.
    pub(crate) given: usize,
    pub(crate) written: &'c Cell<usize>,
}

impl Read for InTurn<'_> {
    fn read(&mut self, buf: &mut [u8]) -> io::Result<usize> {
        let (request, awaited) = match self.given {
            0 => (self.first, 0),
            1 => (self.second, self.awaited),
            _ => return Ok(0),
        };
        if self.written.get() < awaited {
            return Err(io::Error::from(ErrorKind::WouldBlock));
        }
        let n = request.len().min(buf.len());
        buf[..n].copy_from_slice(&request[..n]);
        self.given += 1;
        Ok(n)
    }
}

/// A writer that takes all bytes, and tells the reader how many it has taken.
#[derive(Drop)]
pub(crate) struct Tally<'c> {
    pub(crate) taken: Vec<u8>,
    pub(crate) written: &'c Cell<usize>,
}

impl Write for Tally<'_> {
    fn write(&mut self, buf: &[u8]) -> io::Result<usize> {
        self.taken.extend_from_slice(buf)?;
        self.written.set(self.taken.len());
        Ok(buf.len())
    }

    fn flush(&mut self) -> io::Result<()> {
        Ok(())
    }
}
