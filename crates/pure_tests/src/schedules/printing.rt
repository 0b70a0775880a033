//! Headers and lines as they are printed, and streams that are read and written whole.

use super::{Pieces, Sink};
use rcu_model::ObjectId;
use schedule::{Schedule, print_header, print_line, read_schedule, read_whole, write_whole};
use std::alloc::Global;
use std::process::Abort;
use std::test::Fail;
use world::{Config, Flavour, Layout, Line, ReaderVerb, UpdaterVerb, WorkerVerb};

const LINES: [(Line, &[u8]); 11] = [
    (Line::Reader(0, ReaderVerb::Lock), b"r0 lock\n"),
    (Line::Reader(63, ReaderVerb::First(7)), b"r63 first c7\n"),
    (Line::Reader(1, ReaderVerb::Quiescent), b"r1 quiescent\n"),
    (Line::Reader(1, ReaderVerb::GoOn), b"r1 .\n"),
    (Line::Updater(2, UpdaterVerb::Push(10)), b"u2 push c10\n"),
    (
        Line::Updater(2, UpdaterVerb::Replace(ObjectId(0))),
        b"u2 replace o0\n",
    ),
    (
        Line::Updater(2, UpdaterVerb::Cut(ObjectId(999_999_999))),
        b"u2 cut o999999999\n",
    ),
    (
        Line::Updater(2, UpdaterVerb::Retire(ObjectId(3))),
        b"u2 retire o3\n",
    ),
    (Line::Updater(15, UpdaterVerb::Barrier), b"u15 barrier\n"),
    (Line::Worker(7, WorkerVerb::Take), b"w7 take\n"),
    (Line::Worker(0, WorkerVerb::GoOn), b"w0 .\n"),
];

/// Asserts that the line has this text.
fn expect_text(rt: &impl Abort, alloc: Global, line: &Line, text: &[u8]) -> Result<(), Fail> {
    let mut out: Vec<u8> = Vec::new(alloc);
    print_line(alloc, line, &mut out)?;
    assert_eq!(rt; out.as_slice(), text);
    Ok(())
}

#[test]
fn each_line_has_its_text(rt: HostRuntime) -> Result<(), Fail> {
    for (line, text) in &LINES {
        expect_text(&rt, rt.alloc(), line, text)?;
    }
    Ok(())
}

fn print_lines(alloc: Global, out: &mut Vec<u8>) -> Result<(), Fail> {
    for (line, _) in &LINES {
        print_line(alloc, line, out)?;
    }
    Ok(())
}

/// The schedule has the lines, in order.
fn check_lines(rt: &impl Abort, schedule: &Schedule) {
    for (at, (line, _)) in LINES.iter().enumerate() {
        assert_eq!(rt; schedule.lines.get(at), Some(line));
    }
}

#[test]
fn what_is_printed_is_read_again(rt: HostRuntime) -> Result<(), Fail> {
    let config = Config {
        layout: Layout::Wide,
        flavour: Flavour::Qsbr,
        readers: 64,
        updaters: 16,
        workers: 8,
        chains: 1,
    };
    let mut out: Vec<u8> = Vec::new(rt.alloc());
    print_header(rt.alloc(), &config, &mut out)?;
    assert_eq!(rt; out.as_slice(), b"schedule 2 qsbr 64 16 8 1\n".as_slice());
    print_lines(rt.alloc(), &mut out)?;
    let schedule = read_schedule(rt.alloc(), &out)?;
    assert_eq!(rt; schedule.config, config);
    check_lines(&rt, &schedule);
    Ok(())
}

#[test]
fn streams_are_read_and_written_whole(rt: HostRuntime) {
    for most in [1, 7, 4096] {
        let mut reader = Pieces {
            text: b"one text",
            most,
        };
        let text = read_whole(rt.alloc(), &mut reader).expect(&rt, "a good reader");
        assert_eq!(rt; text.as_slice(), b"one text".as_slice());
        let mut sink = Sink {
            bytes: Vec::new(rt.alloc()),
            most,
        };
        assert!(rt; write_whole(&mut sink, b"one text").is_ok());
        assert_eq!(rt; sink.bytes.as_slice(), b"one text".as_slice());
    }
}
