//! What one piece gives is written before the next one is read.

use super::{QUIET, QUIET_PRINTED};
use schedule::replay;
use std::cell::Cell;
use std::io;
use std::io::{Read, Write};

/// What the reader and the writer of one replay have seen.
#[derive(Drop)]
struct Pace {
    /// How many bytes were written.
    written: Cell<usize>,
    /// A read came before the answers to what was read were written, or asked for more than 4,096 bytes.
    is_broken: Cell<bool>,
}

/// Gives its text in pieces of 7 bytes. Each line after the header is answered by two bytes.
#[derive(Drop)]
struct PacedReader<'a> {
    text: &'a [u8],
    line_feeds: usize,
    pace: &'a Pace,
}

impl Read for PacedReader<'_> {
    fn read(&mut self, buf: &mut [u8]) -> io::Result<usize> {
        let due = self.line_feeds.saturating_sub(1).saturating_mul(2);
        if self.pace.written.get() != due || buf.len() > 4096 {
            self.pace.is_broken.set(true);
        }
        let len = self.text.len().min(7).min(buf.len());
        let (piece, rest) = self.text.split_at(len);
        buf[..len].copy_from_slice(piece);
        if piece.contains(&b'\n') {
            self.line_feeds = self.line_feeds.saturating_add(1);
        }
        self.text = rest;
        Ok(len)
    }
}

#[derive(Drop)]
struct PacedWriter<'a> {
    pace: &'a Pace,
}

impl Write for PacedWriter<'_> {
    fn write(&mut self, buf: &[u8]) -> io::Result<usize> {
        let written = self.pace.written.get();
        self.pace.written.set(written.saturating_add(buf.len()));
        Ok(buf.len())
    }

    fn flush(&mut self) -> io::Result<()> {
        Ok(())
    }
}

#[test]
fn answers_are_written_before_the_next_read(rt: HostRuntime) {
    let pace = Pace {
        written: Cell::new(0),
        is_broken: Cell::new(false),
    };
    let mut reader = PacedReader {
        text: QUIET,
        line_feeds: 0,
        pace: &pace,
    };
    let mut writer = PacedWriter { pace: &pace };
    assert!(rt; replay(rt.alloc(), &mut reader, &mut writer).is_ok());
    assert_eq!(rt; pace.written.get(), QUIET_PRINTED.len());
    assert!(rt; !pace.is_broken.get());
}
