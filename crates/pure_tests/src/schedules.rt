//! Texts and what they print, whole and in pieces, and what fails in the middle.

mod failing;
mod paced;
mod printing;
mod reading_back;
mod rows;
mod verbs;

use rcu_model::{Event, ObjectId, SectionId};
use schedule::{
    Counts, Replay, ReplayFault, TextFault, print_event, read_line, read_schedule, replay,
};
use std::alloc::Global;
use std::io;
use std::io::{Read, Write};
use std::test::Fail;
use world::{Config, Flavour, Layout, Line, ReaderVerb, UpdaterVerb, WorkerVerb};

/// A text, what it prints, and the text of its fault, which is empty where the schedule is good.
#[derive(Drop)]
struct Row<'a> {
    text: &'a [u8],
    printed: &'a [u8],
    fault: &'a str,
}

/// Gives its text in pieces of at most this many bytes.
#[derive(Drop)]
struct Pieces<'a> {
    text: &'a [u8],
    most: usize,
}

impl Read for Pieces<'_> {
    fn read(&mut self, buf: &mut [u8]) -> io::Result<usize> {
        let len = self.text.len().min(self.most).min(buf.len());
        let (piece, rest) = self.text.split_at(len);
        buf[..len].copy_from_slice(piece);
        self.text = rest;
        Ok(len)
    }
}

/// Takes at most this many bytes at once.
#[derive(Drop)]
struct Sink {
    bytes: Vec<u8>,
    most: usize,
}

impl Write for Sink {
    fn write(&mut self, buf: &[u8]) -> io::Result<usize> {
        let len = buf.len().min(self.most);
        self.bytes.extend_from_slice(&buf[..len])?;
        Ok(len)
    }

    fn flush(&mut self) -> io::Result<()> {
        Ok(())
    }
}

/// What a replay answers: the counts or the text of the fault, and what it wrote.
fn replayed(alloc: Global, mut reader: Pieces) -> Result<(String, Vec<u8>), Fail> {
    let mut sink = Sink {
        bytes: Vec::new(alloc),
        most: 4096,
    };
    let fault = match replay(alloc, &mut reader, &mut sink) {
        Ok(_) => String::new(alloc),
        Err(fault) => fault.to_string(alloc)?,
    };
    Ok((fault, sink.bytes))
}

/// Each line is answered by `.`.
const QUIET: &[u8] = b"schedule 1 memb 2 2 1 2\nr0 lock\nr1 lock\nu0 push c0\nu1 push c1\n";

const QUIET_PRINTED: &[u8] = b".\n.\n.\n.\nend open=0 waiting=0 run=0\n";

#[test]
fn a_fault_is_answered_at_its_byte_and_again(rt: HostRuntime) {
    let mut replay = Replay::new(rt.alloc());
    let mut out = Vec::new(rt.alloc());
    assert_eq!(rt; replay.feed(QUIET, &mut out), Ok(()));
    assert_eq!(rt;
        replay.feed(b"r0 lx", &mut out),
        Err(ReplayFault::BadText { line: 6, column: 5 })
    );
    assert_eq!(rt;
        replay.feed(b"r0 lock\n", &mut out),
        Err(ReplayFault::BadText { line: 6, column: 5 })
    );
    assert_eq!(rt;
        replay.finish(&mut out),
        Err(ReplayFault::BadText { line: 6, column: 5 })
    );
    assert_eq!(rt; out.as_slice(), b".\n.\n.\n.\n".as_slice());
}

#[test]
fn a_whole_schedule_is_read(rt: HostRuntime) {
    let text = b"schedule 2 memb 3 2 1 4\nr2 first c3\nu1 replace o17\nw0 .\n";
    let config = Config {
        layout: Layout::Wide,
        flavour: Flavour::Memb,
        readers: 3,
        updaters: 2,
        workers: 1,
        chains: 4,
    };
    let lines = [
        Line::Reader(2, ReaderVerb::First(3)),
        Line::Updater(1, UpdaterVerb::Replace(ObjectId(17))),
        Line::Worker(0, WorkerVerb::GoOn),
    ];
    let schedule = read_schedule(rt.alloc(), text).expect(&rt, "a good text");
    assert_eq!(rt; schedule.config, config);
    assert_eq!(rt; schedule.lines.as_slice(), lines.as_slice());
    assert_eq!(rt;
        read_line(b"u0 cut o0\n"),
        Ok(Line::Updater(0, UpdaterVerb::Cut(ObjectId(0))))
    );
    assert_eq!(rt; read_line(b"w0 push c0\n"), Err(TextFault { column: 4 }));
}

const SECTION: SectionId = SectionId {
    reader: 3,
    ordinal: 2,
};

#[test]
fn a_log_is_counted(rt: HostRuntime) {
    let log = [
        Event::Open(SECTION),
        Event::Retire(ObjectId(1)),
        Event::Retire(ObjectId(2)),
        Event::Run(ObjectId(1)),
    ];
    let counts = Counts {
        sections: 1,
        waiting: 1,
        runs: 1,
    };
    assert_eq!(rt; Counts::of(&log), counts);
}

const EVENTS: [Event; 3] = [
    Event::First {
        section: SECTION,
        chain: 0,
        found: None,
    },
    Event::Next {
        section: SECTION,
        from: ObjectId(4),
        found: Some(ObjectId(5)),
    },
    Event::Queue {
        object: ObjectId(18_446_744_073_709_551_615),
        queue: 7,
    },
];

#[test]
fn events_have_their_texts(rt: HostRuntime) -> Result<(), Fail> {
    let mut out = String::new(rt.alloc());
    for event in &EVENTS {
        print_event(rt.alloc(), event, &mut out)?;
    }
    let texts = "first r3.2 c0 nonenext r3.2 o4 o5queue o18446744073709551615 q7";
    assert_eq!(rt; out.as_str(), texts);
    Ok(())
}
