//! Worlds made by their callers, to the end of the sequence numbers, and the worked rows of retirements, barriers
//! and drains.

use rcu_model::{Event, ObjectId, Refusal};
use std::alloc::Global;
use std::process::Abort;
use world::{
    Actor, Answer, Config, Flavour, Layout, Line, ReaderVerb, UpdaterVerb, WorkerVerb, World,
};

const SMALL: Config = Config {
    layout: Layout::Narrow,
    flavour: Flavour::Memb,
    readers: 1,
    updaters: 1,
    workers: 1,
    chains: 1,
};

/// What a step answers that tells one event.
fn told(event: Event) -> Result<Answer, Refusal> {
    Ok(Answer::Events {
        first: event,
        second: None,
    })
}

/// `World::step`, without what it tells of the world: each clause that a test hears costs time.
fn step(world: &mut World, line: &Line) -> Result<Answer, Refusal> {
    world.step(line)
}

/// A line, how often it is stepped, and what each of these steps answers.
type Row = (Line, u32, Result<Answer, Refusal>);

fn check_steps(rt: &impl Abort, world: &mut World, row: Row) {
    let (line, steps, answer) = row;
    for _ in 0..steps {
        assert_eq!(rt; step(world, &line), answer);
    }
}

fn check_rows(rt: &impl Abort, world: &mut World, rows: &[Row]) {
    for row in rows {
        check_steps(rt, world, *row);
    }
}

#[test]
fn some_worlds_are_refused(rt: HostRuntime) {
    let too_many = Config {
        readers: 65,
        ..SMALL
    };
    for (config, seq) in [
        (too_many, 0),
        (SMALL, 1),
        (SMALL, 4_611_686_018_427_387_906),
    ] {
        match World::new_at(rt.alloc(), config, seq) {
            Ok(_) => assert!(rt; false),
            Err(refusal) => assert_eq!(rt; refusal, Refusal::BadConfig),
        }
    }
}

#[test]
fn the_last_grace_period_is_answered(rt: HostRuntime) {
    let sync = Line::Updater(0, UpdaterVerb::Sync);
    let on = Line::Updater(0, UpdaterVerb::GoOn);
    let mut world = World::new_at(rt.alloc(), SMALL, 4_611_686_018_427_387_902).expect(
        &rt,
        "ample memory",
    );
    assert_eq!(rt; step(&mut world, &sync), told(Event::Ask(1)));
    for _ in 0..7 {
        assert_eq!(rt; step(&mut world, &on), Ok(Answer::Quiet));
    }
    assert_eq!(rt; step(&mut world, &on), told(Event::Answer(1)));
    assert_eq!(rt; step(&mut world, &on), Ok(Answer::Quiet));
    assert_eq!(rt; step(&mut world, &sync), Err(Refusal::Exhausted));
    assert_eq!(rt; world.log(), [Event::Ask(1), Event::Answer(1)].as_slice());
}

#[test]
fn the_greatest_start_leaves_no_ask(rt: HostRuntime) {
    let mut world = World::new_at(rt.alloc(), SMALL, 4_611_686_018_427_387_904).expect(
        &rt,
        "ample memory",
    );
    for verb in [UpdaterVerb::Sync, UpdaterVerb::Start] {
        let answer = step(&mut world, &Line::Updater(0, verb));
        assert_eq!(rt; answer, Err(Refusal::Exhausted));
    }
    assert!(rt; world.log().is_empty());
}

/// What the last grace periods tell.
const LAST_EVENTS: [Event; 4] = [
    Event::Ask(1),
    Event::Ask(2),
    Event::Answer(1),
    Event::Answer(2),
];

/// Two updaters share the last grace periods; each row has the answer of this many steps. The plan of the flavour makes
/// this many steps between its two stores of the sequence number.
fn check_the_end(rt: &impl Abort, alloc: Global, flavour: Flavour, between: u32) {
    let config = Config {
        flavour,
        updaters: 2,
        ..SMALL
    };
    let quiet = Ok(Answer::Quiet);
    let exhausted = Err(Refusal::Exhausted);
    let first = Line::Updater(0, UpdaterVerb::GoOn);
    let second = Line::Updater(1, UpdaterVerb::GoOn);
    let rows = [
        (Line::Updater(0, UpdaterVerb::Sync), 1, told(Event::Ask(1))),
        (first, 3, quiet),
        (Line::Updater(1, UpdaterVerb::Sync), 1, told(Event::Ask(2))),
        (first, between, quiet),
        (first, 1, told(Event::Answer(1))),
        (first, 1, quiet),
        (Line::Updater(0, UpdaterVerb::Sync), 1, exhausted),
        (second, 3, quiet),
        (second, between, quiet),
        (second, 1, told(Event::Answer(2))),
        (second, 1, quiet),
        (Line::Updater(0, UpdaterVerb::Start), 1, exhausted),
        (Line::Updater(1, UpdaterVerb::Sync), 1, exhausted),
    ];
    let mut world = World::new_at(alloc, config, 4_611_686_018_427_387_902).expect(
        rt,
        "ample memory",
    );
    check_rows(rt, &mut world, &rows);
    assert_eq!(rt; world.log(), LAST_EVENTS.as_slice());
}

/// With one reader, the phase is flipped, the slot scanned, and both once more.
#[test]
fn sequence_numbers_end(rt: HostRuntime) {
    check_the_end(&rt, rt.alloc(), Flavour::Memb, 4);
}

/// With one reader, the number is raised and the slot scanned.
#[test]
fn sequence_numbers_end_in_the_quiescent_state_flavour(rt: HostRuntime) {
    check_the_end(&rt, rt.alloc(), Flavour::Qsbr, 2);
}

const FIRST: ObjectId = ObjectId(1);

const SECOND: ObjectId = ObjectId(2);

/// The updater pushes the object into the chain of its own number.
fn push_rows(updater: u32, object: ObjectId) -> [Row; 2] {
    let pushed = Event::Push {
        chain: updater,
        object,
    };
    [
        (
            Line::Updater(updater, UpdaterVerb::Push(updater)),
            1,
            Ok(Answer::Quiet),
        ),
        (Line::Updater(updater, UpdaterVerb::GoOn), 1, told(pushed)),
    ]
}

/// The updater cuts the object from that chain.
fn cut_rows(updater: u32, object: ObjectId) -> [Row; 1] {
    let cut = Event::Cut {
        chain: updater,
        object,
    };
    [(
        Line::Updater(updater, UpdaterVerb::Cut(object)),
        1,
        told(cut),
    )]
}

/// The updater retires the object, into the queue of its own number.
fn retire_rows(updater: u32, object: ObjectId) -> [Row; 5] {
    let quiet = Ok(Answer::Quiet);
    let on = Line::Updater(updater, UpdaterVerb::GoOn);
    let queued = Event::Queue {
        object,
        queue: updater,
    };
    [
        (
            Line::Updater(updater, UpdaterVerb::Retire(object)),
            1,
            quiet,
        ),
        (on, 1, told(Event::Retire(object))),
        (on, 1, quiet),
        (on, 1, told(queued)),
        (on, 1, quiet),
    ]
}

fn take_rows(worker: u32) -> [Row; 1] {
    [(Line::Worker(worker, WorkerVerb::Take), 1, Ok(Answer::Quiet))]
}

/// A worker that asks too late stays before its ask, with its batch.
#[test]
fn a_worker_asks_too_late(rt: HostRuntime) {
    let exhausted = Err(Refusal::Exhausted);
    let on = [(Line::Worker(0, WorkerVerb::GoOn), 2, exhausted)];
    let busy = [(Line::Worker(0, WorkerVerb::Take), 1, Err(Refusal::Busy))];
    let mut world = World::new_at(rt.alloc(), SMALL, 4_611_686_018_427_387_904).expect(
        &rt,
        "ample memory",
    );
    check_rows(&rt, &mut world, &push_rows(0, FIRST));
    check_rows(&rt, &mut world, &cut_rows(0, FIRST));
    check_rows(&rt, &mut world, &retire_rows(0, FIRST));
    check_rows(&rt, &mut world, &take_rows(0));
    check_rows(&rt, &mut world, &on);
    check_rows(&rt, &mut world, &busy);
    assert_eq!(rt; world.log().len(), 4);
}

/// The first updater pushes, cuts and retires the object.
fn retire_one(rt: &impl Abort, world: &mut World, object: ObjectId) {
    check_rows(rt, world, &push_rows(0, object));
    check_rows(rt, world, &cut_rows(0, object));
    check_rows(rt, world, &retire_rows(0, object));
}

#[test]
fn one_item_is_drained(rt: HostRuntime) {
    let mut world = World::new(rt.alloc(), SMALL).expect(&rt, "ample memory");
    retire_one(&rt, &mut world, FIRST);
    assert_eq!(rt; world.drain(0), Ok(13));
    let object = FIRST;
    let log = [
        Event::Push { chain: 0, object },
        Event::Cut { chain: 0, object },
        Event::Retire(object),
        Event::Queue { object, queue: 0 },
        Event::Ask(1),
        Event::Answer(1),
        Event::Run(object),
    ];
    assert_eq!(rt; world.log(), log.as_slice());
    assert_eq!(rt; world.drain(0), Ok(0));
}

#[test]
fn two_items_are_drained_past_offline_readers(rt: HostRuntime) {
    let config = Config {
        flavour: Flavour::Qsbr,
        readers: 3,
        ..SMALL
    };
    let mut world = World::new(rt.alloc(), config).expect(&rt, "ample memory");
    retire_one(&rt, &mut world, FIRST);
    retire_one(&rt, &mut world, SECOND);
    assert_eq!(rt; world.drain(0), Ok(15));
    assert_eq!(rt; world.drain(0), Ok(0));
}

#[test]
fn no_drain_past_an_open_section(rt: HostRuntime) {
    let mut world = World::new(rt.alloc(), SMALL).expect(&rt, "ample memory");
    retire_one(&rt, &mut world, FIRST);
    assert!(rt; step(&mut world, &Line::Reader(0, ReaderVerb::Lock)).is_ok());
    assert!(rt; step(&mut world, &Line::Reader(0, ReaderVerb::GoOn)).is_ok());
    assert_eq!(rt; world.drain(0), Err(Refusal::Busy));
    assert_eq!(rt; world.drain(1), Err(Refusal::NoActor));
    assert!(rt; step(&mut world, &Line::Reader(0, ReaderVerb::Unlock)).is_ok());
    assert_eq!(rt; world.drain(0), Ok(13));
}

#[test]
fn no_drain_beside_an_operation(rt: HostRuntime) {
    let mut world = World::new(rt.alloc(), SMALL).expect(&rt, "ample memory");
    assert_eq!(rt; world.drain(0), Ok(0));
    retire_one(&rt, &mut world, FIRST);
    assert_eq!(rt;
        step(&mut world, &Line::Worker(0, WorkerVerb::Take)),
        Ok(Answer::Quiet)
    );
    assert_eq!(rt; world.drain(0), Err(Refusal::Busy));
}

#[test]
fn no_drain_at_the_end_of_the_numbers(rt: HostRuntime) {
    let mut world = World::new_at(rt.alloc(), SMALL, 4_611_686_018_427_387_904).expect(
        &rt,
        "ample memory",
    );
    assert_eq!(rt; world.drain(0), Ok(0));
    retire_one(&rt, &mut world, FIRST);
    assert_eq!(rt; world.drain(0), Err(Refusal::Exhausted));
}

#[test]
fn actors_are_in_operations_between_their_steps(rt: HostRuntime) {
    let rows = [
        (
            Actor::Reader(0),
            Line::Reader(0, ReaderVerb::Lock),
            Line::Reader(0, ReaderVerb::GoOn),
            0,
        ),
        (
            Actor::Updater(0),
            Line::Updater(0, UpdaterVerb::Push(0)),
            Line::Updater(0, UpdaterVerb::GoOn),
            1,
        ),
    ];
    for (actor, begins, ends, objects) in rows {
        let mut world = World::new(rt.alloc(), SMALL).expect(&rt, "ample memory");
        assert!(rt; !world.is_in_operation(actor));
        assert!(rt; step(&mut world, &begins).is_ok());
        assert!(rt; world.is_in_operation(actor));
        assert!(rt; !world.is_in_operation(Actor::Reader(1)));
        // The first step gives the number.
        assert_eq!(rt; world.objects_given(), objects);
        assert!(rt; step(&mut world, &ends).is_ok());
        assert!(rt; !world.is_in_operation(actor));
        assert_eq!(rt; world.objects_given(), objects);
    }
}
