//! Worlds that are made, stepped and drained.

use crate::answers::AnswerText;
use crate::ledger::{Call, Finding, Ledger};
use crate::rows::{Row, Spare, Worked, schedule_of};
use crate::stepping::Stepped;
use rcu_model::{Event, ObjectId};
use schedule::{read_answers, read_line};
use std::alloc::Global;
use world::{Answer, Config, Flavour, Layout, Line, UpdaterVerb, World};

/// As many actors and chains as there may be.
const LARGE: Config = Config {
    layout: Layout::Wide,
    flavour: Flavour::Memb,
    readers: 64,
    updaters: 16,
    workers: 8,
    chains: 64,
};

/// How many objects are drained: the log grows for them alone.
const OBJECTS: u64 = 60;

/// Whether nothing has happened in the world.
fn is_fresh(world: &World) -> bool {
    world.log().is_empty() && world.objects_given() == 0
}

/// Makes large worlds, two in each flavour.
pub fn make_worlds(alloc: Global, ledger: &mut Ledger) -> Result<u64, Finding> {
    let mut made = 0u64;
    for flavour in [Flavour::Memb, Flavour::Qsbr] {
        let config = Config { flavour, ..LARGE };
        let zero = ledger.again(Call::New, || World::new(alloc, config))?;
        let later = ledger.again(Call::NewAt, || World::new_at(alloc, config, 2))?;
        if !is_fresh(&zero) || !is_fresh(&later) {
            return Err(Finding::Wrong(Call::New));
        }
        made = made.saturating_add(2);
    }
    Ok(made)
}

/// Steps the line, and compares its answer with the text.
fn step_row(ledger: &mut Ledger, world: &mut Stepped, row: Row) -> Result<(), Finding> {
    let (line, wanted) = row;
    let Ok(line) = read_line(line.as_bytes()) else {
        return Err(Finding::Wrong(Call::ReadLine));
    };
    let answer = world.step(ledger, &line)?;
    if AnswerText(answer).is(wanted) {
        Ok(())
    } else {
        Err(Finding::Wrong(Call::Step))
    }
}

/// Steps a section of the spare reader that tells this many events, at least two. Answers how many lines that were.
fn step_spare(
    ledger: &mut Ledger,
    world: &mut Stepped,
    spare: Spare,
    events: usize,
) -> Result<u64, Finding> {
    let [begin, open] = spare.begin;
    step_row(ledger, world, begin)?;
    step_row(ledger, world, open)?;
    for _ in 2..events {
        step_row(ledger, world, spare.look)?;
    }
    step_row(ledger, world, spare.end)?;
    Ok((events as u64).saturating_add(1))
}

/// Steps the rows.
fn step_rows(
    ledger: &mut Ledger,
    world: &mut Stepped,
    rows: &'static [Row],
) -> Result<u64, Finding> {
    for row in rows {
        step_row(ledger, world, *row)?;
    }
    Ok(rows.len() as u64)
}

/// Steps the worked schedule after this many other events. The log then has them, and the events of its answers.
fn step_after(
    alloc: Global,
    ledger: &mut Ledger,
    worked: &Worked,
    told: &[Event],
    earlier: usize,
) -> Result<u64, Finding> {
    let room = earlier.saturating_add(worked.events);
    let mut world = Stepped::new(alloc, ledger, worked.config, room)?;
    let before = step_spare(ledger, &mut world, worked.spare, earlier)?;
    let lines = step_rows(ledger, &mut world, worked.rows)?;
    if world.log().len() == room && world.log().ends_with(told) {
        Ok(before.saturating_add(lines))
    } else {
        Err(Finding::Wrong(Call::Log))
    }
}

/// Steps the worked schedule after 2, 3 and so on to 17 other events. The log grows by doubling: it is full with 16 or
/// 32 events, so that each event of a schedule which tells at most 31 meets a full log once.
pub fn step_worked(alloc: Global, ledger: &mut Ledger, flavour: Flavour) -> Result<u64, Finding> {
    let worked = schedule_of(flavour);
    let printed = ledger.again(Call::Own, || worked.printed(alloc))?;
    let told = ledger.again(Call::ReadAnswers, || read_answers(alloc, &printed))?;
    let mut lines = 0u64;
    for earlier in 2..=17 {
        let more = step_after(alloc, ledger, &worked, &told, earlier)?;
        lines = lines.saturating_add(more);
    }
    Ok(lines)
}

/// Steps a line of updater 0, which tells this event, or none.
fn step_told(
    ledger: &mut Ledger,
    world: &mut Stepped,
    verb: UpdaterVerb,
    told: Option<Event>,
) -> Result<(), Finding> {
    let wanted = match told {
        Some(first) => Answer::Events {
            first,
            second: None,
        },
        None => Answer::Quiet,
    };
    if world.step(ledger, &Line::Updater(0, verb))? == Ok(wanted) {
        Ok(())
    } else {
        Err(Finding::Wrong(Call::Step))
    }
}

/// Publishes an object, cuts and retires it: eight steps, four events.
fn retire_one(ledger: &mut Ledger, world: &mut Stepped, object: ObjectId) -> Result<(), Finding> {
    let chain = 0;
    let queue = 0;
    let rows = [
        (UpdaterVerb::Push(chain), None),
        (UpdaterVerb::GoOn, Some(Event::Push { chain, object })),
        (UpdaterVerb::Cut(object), Some(Event::Cut { chain, object })),
        (UpdaterVerb::Retire(object), None),
        (UpdaterVerb::GoOn, Some(Event::Retire(object))),
        (UpdaterVerb::GoOn, None),
        (UpdaterVerb::GoOn, Some(Event::Queue { object, queue })),
        (UpdaterVerb::GoOn, None),
    ];
    for (verb, told) in rows {
        step_told(ledger, world, verb, told)?;
    }
    Ok(())
}

/// Retires many objects, and drains their queue: with `n` objects and R readers `2R + 9 + 2n` steps, or `R + 8 + 2n`.
pub fn drain_worked(alloc: Global, ledger: &mut Ledger, flavour: Flavour) -> Result<u64, Finding> {
    let config = schedule_of(flavour).config;
    let mut world = Stepped::new(alloc, ledger, config, 4 * OBJECTS as usize)?;
    for object in 0..OBJECTS {
        retire_one(ledger, &mut world, ObjectId(object + 1))?;
    }
    let readers = u64::from(config.readers);
    let steps = match flavour {
        Flavour::Memb => 2 * readers + 9 + 2 * OBJECTS,
        Flavour::Qsbr => readers + 8 + 2 * OBJECTS,
    };
    let (drained, answer) = world.drain(ledger)?;
    if answer == Ok(steps) && drained.log().len() as u64 == 5 * OBJECTS + 2 {
        Ok(8 * OBJECTS + steps)
    } else {
        Err(Finding::Wrong(Call::Drain))
    }
}
