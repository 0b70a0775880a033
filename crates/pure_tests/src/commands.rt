//! What commands write, tell and end with.

mod streams;

use std::alloc::Global;
use std::io::{Read, Write};
use std::process::Abort;
use streams::{Pieces, Sink};
use torture_commands::{Command, Walk, execute};
use world::{Config, Flavour, Layout};

/// What the words say where they say nothing.
const DEFAULT: Walk = Walk {
    config: Config {
        layout: Layout::Narrow,
        flavour: Flavour::Memb,
        readers: 2,
        updaters: 1,
        workers: 1,
        chains: 1,
    },
    lines: 1000,
    seed: 1,
    schedule: false,
    stop: None,
};

/// What a command writes, tells and ends with.
#[derive(Drop)]
struct Ended {
    printed: Vec<u8>,
    told: Vec<u8>,
    status: u8,
}

/// Executes a command that is within its limits. No command ends with 9.
fn executed_on<R: Read, W: Write>(
    alloc: Global,
    command: Command,
    reader: &mut R,
    writer: &mut W,
    told: &mut Vec<u8>,
) -> u8 {
    if command.is_within_limits() {
        execute(alloc, command, reader, writer, told)
    } else {
        9
    }
}

/// Executes a command on a text that is read whole.
fn executed(alloc: Global, command: Command, text: &[u8]) -> Ended {
    let mut reader = text;
    let mut printed: Vec<u8> = Vec::new(alloc);
    let mut told: Vec<u8> = Vec::new(alloc);
    let status = executed_on(alloc, command, &mut reader, &mut printed, &mut told);
    Ended {
        printed,
        told,
        status,
    }
}

#[test]
fn a_follow_reads_no_more_after_a_wrong_event(rt: HostRuntime) {
    let text = b"wait\nopen r0.1\nopen r0.1\nclose r0.1\n";
    let mut reader = Pieces {
        before: Some(25),
        ..Pieces::new(text, 1)
    };
    let mut out: Vec<u8> = Vec::new(rt.alloc());
    let mut faults: Vec<u8> = Vec::new(rt.alloc());
    let status = execute(
        rt.alloc(),
        Command::Follow,
        &mut reader,
        &mut out,
        &mut faults,
    );
    assert_eq!(rt; status, 1);
    assert_eq!(rt; out.as_slice(), b"no event=2 rule=D3\n".as_slice());
    assert!(rt; faults.is_empty());
}

/// What a command that gets a text byte by byte leaves of it, and its status.
fn left_of(alloc: Global, command: Command, text: &[u8]) -> (&[u8], u8) {
    let mut reader = Pieces::new(text, 1);
    let mut printed: Vec<u8> = Vec::new(alloc);
    let mut told: Vec<u8> = Vec::new(alloc);
    let status = executed_on(alloc, command, &mut reader, &mut printed, &mut told);
    (reader.text, status)
}

#[test]
fn nothing_is_read_after_a_bad_line(rt: HostRuntime) {
    let answers = b"wait\nidlf\nwait\n";
    let left: (&[u8], u8) = (b"\nwait\n", 2);
    assert_eq!(rt; left_of(rt.alloc(), Command::Check, answers), left);
    assert_eq!(rt; left_of(rt.alloc(), Command::Follow, answers), left);
    let schedule = b"schedule 1 memb 1 1 1 1\nr0 lonk\nr0 lock\n";
    let left: (&[u8], u8) = (b"k\nr0 lock\n", 2);
    assert_eq!(rt; left_of(rt.alloc(), Command::Replay, schedule), left);
    let header = b"schedulx 1 memb 1 1 1 1\nr0 lock\n";
    let left: (&[u8], u8) = (b" 1 memb 1 1 1 1\nr0 lock\n", 2);
    assert_eq!(rt; left_of(rt.alloc(), Command::Replay, header), left);
}

#[test]
fn a_walk_reads_nothing(rt: HostRuntime) {
    let text = b"schedule 1 memb 1 1 1 1\n";
    let left: (&[u8], u8) = (text, 0);
    assert_eq!(rt; left_of(rt.alloc(), Command::Walk(DEFAULT), text), left);
}

/// The commands that write, each with a text that it is read.
const WRITERS: [(Command, &[u8]); 5] = [
    (Command::Replay, b"schedule 1 memb 1 1 1 1\n"),
    (Command::Check, b".\n"),
    (Command::Follow, b"wait\n"),
    (Command::Walk(DEFAULT), b""),
    (
        Command::Walk(Walk {
            schedule: true,
            ..DEFAULT
        }),
        b"",
    ),
];

/// A walk that writes a short text.
const SHORT: Walk = Walk {
    lines: 12,
    ..DEFAULT
};

/// The same, which write short texts.
const SHORT_WRITERS: [(Command, &[u8]); 5] = [
    (Command::Replay, b"schedule 1 memb 1 1 1 1\nr0 lock\nr0 .\n"),
    (Command::Check, b"open r0.1\n"),
    (Command::Follow, b"close r0.1\n"),
    (Command::Walk(SHORT), b""),
    (
        Command::Walk(Walk {
            schedule: true,
            ..SHORT
        }),
        b"",
    ),
];

#[test]
fn writers_may_take_one_byte_at_a_time(rt: HostRuntime) {
    for (command, text) in WRITERS {
        let whole = executed(rt.alloc(), command, text);
        let mut reader = Pieces::new(text, 1);
        let mut slow = Sink::new(rt.alloc(), 1);
        let mut told: Vec<u8> = Vec::new(rt.alloc());
        let status = executed_on(rt.alloc(), command, &mut reader, &mut slow, &mut told);
        assert_eq!(rt; status, 0);
        assert_eq!(rt; slow.bytes.as_slice(), whole.printed.as_slice());
        assert!(rt; told.is_empty());
    }
}

/// The command ends with 3 where its writer fails after this many bytes, or takes nothing then, and is not called
/// again.
fn check_broken(
    rt: &impl Abort,
    alloc: Global,
    command: Command,
    text: &[u8],
    printed: &[u8],
    before: usize,
) {
    for takes_nothing in [false, true] {
        let mut reader = text;
        let mut broken = Sink {
            before: Some(before),
            takes_nothing,
            ..Sink::new(alloc, 1)
        };
        let mut told: Vec<u8> = Vec::new(alloc);
        let status = executed_on(alloc, command, &mut reader, &mut broken, &mut told);
        assert_eq!(rt; status, 3);
        assert_eq!(rt; told.as_slice(), b"write fault\n".as_slice());
        assert_eq!(rt; broken.faults, 1, "after {before} bytes");
        assert_eq!(rt; broken.bytes.len(), before);
        assert!(rt; printed.starts_with(&broken.bytes));
    }
}

/// Each place of a short text.
fn check_each_place(rt: &impl Abort, alloc: Global, command: Command, text: &[u8]) {
    let whole = executed(alloc, command, text);
    for before in 0..whole.printed.len() {
        check_broken(rt, alloc, command, text, &whole.printed, before);
    }
}

/// Some places of a long text, which is written in two pieces.
fn check_long_text(rt: &impl Abort, alloc: Global) {
    let long = Command::Walk(Walk {
        schedule: true,
        ..DEFAULT
    });
    let whole = executed(alloc, long, b"");
    for before in [0, 4095, 4096, 5000] {
        check_broken(rt, alloc, long, b"", &whole.printed, before);
    }
}

#[test]
fn writers_that_fail_end_with_three(rt: HostRuntime) {
    for (command, text) in SHORT_WRITERS {
        check_each_place(&rt, rt.alloc(), command, text);
    }
    check_long_text(&rt, rt.alloc());
}

/// The command ends with 3 where its reader fails after this many bytes, each of them read alone.
fn check_cut_off(
    rt: &impl Abort,
    alloc: Global,
    command: Command,
    text: &[u8],
    before: usize,
    wanted: &[u8],
) {
    let mut reader = Pieces {
        before: Some(before),
        ..Pieces::new(text, 1)
    };
    let mut out: Vec<u8> = Vec::new(alloc);
    let mut told: Vec<u8> = Vec::new(alloc);
    let status = executed_on(alloc, command, &mut reader, &mut out, &mut told);
    assert_eq!(rt; status, 3);
    assert_eq!(rt; told.as_slice(), b"read fault\n".as_slice());
    assert_eq!(rt; reader.faults, 1, "after {before} bytes");
    assert_eq!(rt; out.as_slice(), wanted);
}

/// Nothing is printed where the text is cut off, and this where the fault comes after all of it.
fn check_each_cut(rt: &impl Abort, alloc: Global, command: Command, text: &[u8], printed: &[u8]) {
    for before in 0..text.len() {
        check_cut_off(rt, alloc, command, text, before, b"");
    }
    check_cut_off(rt, alloc, command, text, text.len(), printed);
}

#[test]
fn readers_that_fail_end_with_three(rt: HostRuntime) {
    let rows: [(Command, &[u8], &[u8]); 3] = [
        (
            Command::Replay,
            b"schedule 1 memb 1 1 1 1\nr0 lock\n",
            b".\n",
        ),
        (Command::Check, b"open r0.1\nclose r0.1\n", b""),
        (Command::Follow, b"open r0.1\nclose r0.1\n", b""),
    ];
    for (command, text, printed) in rows {
        check_each_cut(&rt, rt.alloc(), command, text, printed);
    }
}

#[test]
fn a_fault_that_cannot_be_told_is_passed_over(rt: HostRuntime) {
    let mut reader = Pieces {
        before: Some(0),
        ..Pieces::new(b"", 1)
    };
    let mut out: Vec<u8> = Vec::new(rt.alloc());
    let mut broken = Sink::new(rt.alloc(), 0);
    let status = execute(
        rt.alloc(),
        Command::Check,
        &mut reader,
        &mut out,
        &mut broken,
    );
    assert_eq!(rt; status, 3);
    assert!(rt; out.is_empty());
}
