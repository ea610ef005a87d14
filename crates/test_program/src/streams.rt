//! Readers and writers that fail.
use std::alloc::Global;
use std::io;
use std::io::{ErrorKind, Read, Write};

/// A reader that gives some bytes one at a time, and then fails.
#[derive(Drop)]
pub struct FailingReader<'a> {
    /// The bytes that are left.
    pub bytes: &'a [u8],
    /// What it fails with after them.
    pub kind: ErrorKind,
}

impl Read for FailingReader<'_> {
    fn read(&mut self, buf: &mut [u8]) -> io::Result<usize> {
        let Some((first, others)) = self.bytes.split_first() else {
            return Err(io::Error::from(self.kind));
        };
        if buf.is_empty() {
            return Ok(0);
        }
        buf[0] = *first;
        self.bytes = others;
        Ok(1)
    }
}

/// A writer that takes some bytes, one at a time, and then fails or takes none.
#[derive(Drop)]
pub struct FailingWriter {
    /// How many bytes it still takes.
    pub room: usize,
    /// What it took.
    pub taken: Vec<u8>,
    /// What it fails with after them, if it fails.
    pub kind: Option<ErrorKind>,
    /// Whether it is interrupted before each byte.
    pub is_interrupted: bool,
    /// Whether the next call is interrupted.
    pub is_next_interrupted: bool,
}

impl FailingWriter {
    /// A writer with this room, which fails so after it, and isn't interrupted.
    pub fn new(alloc: Global, room: usize, kind: Option<ErrorKind>) -> FailingWriter {
        FailingWriter {
            room,
            taken: Vec::new(alloc),
            kind,
            is_interrupted: false,
            is_next_interrupted: false,
        }
    }

    /// A writer with this room, which is interrupted before each byte.
    pub fn interrupted(alloc: Global, room: usize) -> FailingWriter {
        FailingWriter {
            is_interrupted: true,
            is_next_interrupted: true,
            ..FailingWriter::new(alloc, room, None)
        }
    }
}

impl Write for FailingWriter {
    fn write(&mut self, buf: &[u8]) -> io::Result<usize> {
        if self.is_next_interrupted {
            self.is_next_interrupted = false;
            return Err(io::Error::from(ErrorKind::Interrupted));
        }
        self.is_next_interrupted = self.is_interrupted;
        let Some(first) = buf.first() else {
            return Ok(0);
        };
        if self.room == 0 {
            return match self.kind {
                Some(kind) => Err(io::Error::from(kind)),
                None => Ok(0),
            };
        }
        self.room -= 1;
        if self.taken.push(*first).is_err() {
            return Err(io::Error::from(ErrorKind::OutOfMemory));
        }
        Ok(1)
    }

    fn flush(&mut self) -> io::Result<()> {
        Ok(())
    }
}

/// A writer that takes all bytes and can't flush them.
#[derive(Drop)]
pub struct FailingFlush;

impl Write for FailingFlush {
    fn write(&mut self, buf: &[u8]) -> io::Result<usize> {
        Ok(buf.len())
    }

    fn flush(&mut self) -> io::Result<()> {
        Err(io::Error::from(ErrorKind::BrokenPipe))
    }
}
