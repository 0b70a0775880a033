//! Readers and writers that fail at each byte in turn. None is called again.

use super::{Pieces, QUIET, QUIET_PRINTED, Sink};
use schedule::{ReplayFault, read_whole, replay, write_whole};
use std::alloc::Global;
use std::io;
use std::io::{Read, Write};
use std::process::Abort;

/// Gives this many pieces, and then fails.
#[derive(Drop)]
struct Broken<'a> {
    pieces: Pieces<'a>,
    left: usize,
    /// How many reads failed.
    faults: usize,
}

impl<'a> Broken<'a> {
    /// Its pieces are single bytes.
    fn after(left: usize, text: &'a [u8]) -> Broken<'a> {
        Broken {
            pieces: Pieces { text, most: 1 },
            left,
            faults: 0,
        }
    }
}

impl Read for Broken<'_> {
    fn read(&mut self, buf: &mut [u8]) -> io::Result<usize> {
        if self.left == 0 {
            self.faults = self.faults.saturating_add(1);
            return Err(io::ErrorKind::Interrupted.into());
        }
        self.left -= 1;
        self.pieces.read(buf)
    }
}

/// Takes this many pieces, and then fails, or takes nothing.
#[derive(Drop)]
struct Full {
    sink: Sink,
    left: usize,
    takes_nothing: bool,
    /// How many writes failed.
    faults: usize,
}

impl Full {
    /// Its pieces are single bytes.
    fn after(left: usize, takes_nothing: bool, alloc: Global) -> Full {
        Full {
            sink: Sink {
                bytes: Vec::new(alloc),
                most: 1,
            },
            left,
            takes_nothing,
            faults: 0,
        }
    }
}

impl Write for Full {
    fn write(&mut self, buf: &[u8]) -> io::Result<usize> {
        if self.left == 0 {
            self.faults = self.faults.saturating_add(1);
            if self.takes_nothing {
                return Ok(0);
            }
            return Err(io::ErrorKind::Interrupted.into());
        }
        self.left -= 1;
        self.sink.write(buf)
    }

    fn flush(&mut self) -> io::Result<()> {
        Ok(())
    }
}

/// After this many bytes, of which these ended a line that is answered.
fn check_broken(rt: &impl Abort, alloc: Global, given: usize) {
    let line_feeds = QUIET.iter().take(given).filter(|it| **it == b'\n').count();
    let mut reader = Broken::after(given, QUIET);
    let mut out: Vec<u8> = Vec::new(alloc);
    assert_eq!(rt;
        replay(alloc, &mut reader, &mut out),
        Err(ReplayFault::Read)
    );
    assert_eq!(rt; reader.faults, 1, "after {given} bytes");
    // Each line after the header is answered by two bytes.
    let answered = line_feeds.saturating_sub(1).saturating_mul(2);
    assert_eq!(rt; out.len(), answered, "after {given} bytes");
    assert!(rt; QUIET_PRINTED.starts_with(out.as_slice()));
}

#[test]
fn a_read_that_fails_leaves_the_lines_before_it(rt: HostRuntime) {
    for given in 0..=QUIET.len() {
        check_broken(&rt, rt.alloc(), given);
    }
}

#[test]
fn what_fails_in_the_middle_is_not_whole(rt: HostRuntime) {
    for given in 0..=QUIET.len() {
        let mut reader = Broken::after(given, QUIET);
        match read_whole(rt.alloc(), &mut reader) {
            Ok(_) => assert!(rt; false),
            Err(fault) => assert_eq!(rt; fault, ReplayFault::Read),
        }
        assert_eq!(rt; reader.faults, 1, "after {given} bytes");
    }
}

/// What was taken is a beginning of this length, and no write came after the one that failed.
fn check_full(rt: &impl Abort, writer: &Full, taken: usize) {
    assert_eq!(rt; writer.faults, 1, "after {taken} bytes");
    assert_eq!(rt; writer.sink.bytes.len(), taken);
    assert!(rt; QUIET_PRINTED.starts_with(writer.sink.bytes.as_slice()));
}

fn check_replay_to(rt: &impl Abort, alloc: Global, taken: usize, takes_nothing: bool) {
    let mut reader = QUIET;
    let mut writer = Full::after(taken, takes_nothing, alloc);
    let replayed = replay(alloc, &mut reader, &mut writer);
    assert_eq!(rt; replayed, Err(ReplayFault::Write));
    check_full(rt, &writer, taken);
}

fn check_write_to(rt: &impl Abort, alloc: Global, taken: usize, takes_nothing: bool) {
    let mut writer = Full::after(taken, takes_nothing, alloc);
    let written = write_whole(&mut writer, QUIET_PRINTED);
    assert_eq!(rt; written, Err(ReplayFault::Write));
    check_full(rt, &writer, taken);
}

#[test]
fn a_write_that_fails_leaves_a_beginning(rt: HostRuntime) {
    for taken in 0..QUIET_PRINTED.len() {
        check_replay_to(&rt, rt.alloc(), taken, false);
        check_replay_to(&rt, rt.alloc(), taken, true);
        check_write_to(&rt, rt.alloc(), taken, false);
        check_write_to(&rt, rt.alloc(), taken, true);
    }
}
