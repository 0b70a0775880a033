//! Readers and writers that are slow, or fail.

use std::alloc::Global;
use std::io;
use std::io::{Read, Write};

/// Gives its text in pieces of at most this many bytes. A count of reads may stand before one that fails.
#[derive(Drop)]
pub struct Pieces<'a> {
    /// What is left of it.
    pub text: &'a [u8],
    /// How many bytes one read gives at most.
    pub most: usize,
    /// How many reads come before all fail, if they do.
    pub before: Option<usize>,
    /// How many reads failed.
    pub faults: usize,
}

impl<'a> Pieces<'a> {
    /// A reader of this text that never fails.
    pub fn new(text: &'a [u8], most: usize) -> Pieces<'a> {
        Pieces {
            text,
            most,
            before: None,
            faults: 0,
        }
    }
}

impl Read for Pieces<'_> {
    fn read(&mut self, buf: &mut [u8]) -> io::Result<usize> {
        match self.before {
            Some(0) => {
                self.faults = self.faults.saturating_add(1);
                return Err(io::ErrorKind::Interrupted.into());
            }
            Some(left) => self.before = Some(left - 1),
            None => {}
        }
        let len = self.text.len().min(self.most).min(buf.len());
        let (piece, rest) = self.text.split_at(len);
        buf[..len].copy_from_slice(piece);
        self.text = rest;
        Ok(len)
    }
}

/// Takes at most this many bytes at once. A count of writes may stand before one that fails, or takes nothing.
#[derive(Drop)]
pub struct Sink {
    /// What was written.
    pub bytes: Vec<u8>,
    /// How many bytes one write takes at most.
    pub most: usize,
    /// How many writes come before all fail, if they do.
    pub before: Option<usize>,
    /// Whether a write that fails takes nothing, in place of an error.
    pub takes_nothing: bool,
    /// How many writes failed, or took nothing.
    pub faults: usize,
}

impl Sink {
    /// An empty writer that never fails.
    pub fn new(alloc: Global, most: usize) -> Sink {
        Sink {
            bytes: Vec::new(alloc),
            most,
            before: None,
            takes_nothing: false,
            faults: 0,
        }
    }
}

impl Write for Sink {
    fn write(&mut self, buf: &[u8]) -> io::Result<usize> {
        match self.before {
            Some(0) => {
                self.faults = self.faults.saturating_add(1);
                if self.takes_nothing {
                    return Ok(0);
                }
                return Err(io::ErrorKind::Interrupted.into());
            }
            Some(left) => self.before = Some(left - 1),
            None => {}
        }
        let len = self.most.min(buf.len());
        self.bytes.extend_from_slice(&buf[..len])?;
        Ok(len)
    }

    fn flush(&mut self) -> io::Result<()> {
        Ok(())
    }
}
