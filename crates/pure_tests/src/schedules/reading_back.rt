//! Answers read back: the log of the world that gave them, each form of a line, and the place of the first bad byte.

use super::{Pieces, replayed, rows};
use rcu_model::{Event, ObjectId, SectionId};
use schedule::{read_answers, read_schedule};
use std::alloc::Global;
use std::process::Abort;
use std::test::Fail;
use world::{Line, StepError, World};

/// Plays the line, without what `World::step` tells of it. Whether there was memory.
fn plays(world: &mut World, line: &Line) -> bool {
    world.step(line) != Err(StepError::Memory)
}

/// What `replay` writes of the schedule is read back as the log of a world in which its lines were played.
fn check_log(rt: &impl Abort, alloc: Global, text: &[u8]) -> Result<(), Fail> {
    let schedule = read_schedule(alloc, text)?;
    let mut world = World::new(alloc, schedule.config)?;
    for line in &schedule.lines {
        assert!(rt; plays(&mut world, line));
    }
    let reader = Pieces { text, most: 4096 };
    let (fault, printed) = replayed(alloc, reader)?;
    assert_eq!(rt; fault.as_str(), "");
    let log = read_answers(alloc, printed.as_slice())?;
    assert_eq!(rt; log.as_slice(), world.log());
    Ok(())
}

#[test]
fn what_is_written_tells_the_log(rt: HostRuntime) -> Result<(), Fail> {
    for row in &rows::GOOD {
        check_log(&rt, rt.alloc(), row.text)?;
    }
    Ok(())
}

const SECTION: SectionId = SectionId {
    reader: 3,
    ordinal: 2,
};

/// Each form of a line, and the events of them all.
const FORMS: &[u8] = b"\
    open r3.2\nclose r3.2\nfirst r3.2 c4 o5\nfirst r3.2 c4 none\nnext r3.2 o5 o6\nnext r3.2 o5 none\n\
    touch r3.2 o5\npush c4 o5\nreplace c4 o5 o6\ncut c4 o5\nretire o5\nqueue o5 q7\nrun o5\nask a8\n\
    answer a8\nbar b9\nclear b9\n.\nwait\nblocked\nidle\nrefused E6\nclose r3.2; open r3.2\n\
    end open=1 waiting=20 run=300\n";

const EVENTS: [Event; 19] = [
    Event::Open(SECTION),
    Event::Close(SECTION),
    Event::First {
        section: SECTION,
        chain: 4,
        found: Some(ObjectId(5)),
    },
    Event::First {
        section: SECTION,
        chain: 4,
        found: None,
    },
    Event::Next {
        section: SECTION,
        from: ObjectId(5),
        found: Some(ObjectId(6)),
    },
    Event::Next {
        section: SECTION,
        from: ObjectId(5),
        found: None,
    },
    Event::Touch {
        section: SECTION,
        object: ObjectId(5),
    },
    Event::Push {
        chain: 4,
        object: ObjectId(5),
    },
    Event::Replace {
        chain: 4,
        old: ObjectId(5),
        new: ObjectId(6),
    },
    Event::Cut {
        chain: 4,
        object: ObjectId(5),
    },
    Event::Retire(ObjectId(5)),
    Event::Queue {
        object: ObjectId(5),
        queue: 7,
    },
    Event::Run(ObjectId(5)),
    Event::Ask(8),
    Event::Answer(8),
    Event::Bar(9),
    Event::Clear(9),
    Event::Close(SECTION),
    Event::Open(SECTION),
];

#[test]
fn each_form_of_a_line_is_read(rt: HostRuntime) -> Result<(), Fail> {
    let log = read_answers(rt.alloc(), FORMS)?;
    assert_eq!(rt; log.as_slice(), EVENTS.as_slice());
    Ok(())
}

/// 0, and the most digits that a number has in its place.
const NUMBERS: &[u8] = b"\
    open r0.0\nopen r999999999.9999999999999999999\npush c0 o0\npush c999999999 o9999999999999999999\n\
    queue o0 q0\nqueue o1 q999999999\nask a9999999999999999999\n";

#[test]
fn numbers_are_read(rt: HostRuntime) -> Result<(), Fail> {
    let log = read_answers(rt.alloc(), NUMBERS)?;
    let events = [
        Event::Open(SectionId {
            reader: 0,
            ordinal: 0,
        }),
        Event::Open(SectionId {
            reader: 999_999_999,
            ordinal: 9_999_999_999_999_999_999,
        }),
        Event::Push {
            chain: 0,
            object: ObjectId(0),
        },
        Event::Push {
            chain: 999_999_999,
            object: ObjectId(9_999_999_999_999_999_999),
        },
        Event::Queue {
            object: ObjectId(0),
            queue: 0,
        },
        Event::Queue {
            object: ObjectId(1),
            queue: 999_999_999,
        },
        Event::Ask(9_999_999_999_999_999_999),
    ];
    assert_eq!(rt; log.as_slice(), events.as_slice());
    Ok(())
}
