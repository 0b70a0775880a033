//! Lookups in lists and tables, each in a section of its own.

ghost use Rattle.std.specs.Prelude.{◌≡◌, IfSome};
ghost use Rattle.std.specs.List.{All};
ghost use Rattle.calls.specs.Standing.{Stands};

use crate::codes::Code;
use crate::maps::{Maps, Table};
use crate::walker::Walker;
use call_text::{Answer, Verb};
use gp_memb::GracePlan;
use rcu_hash::{ListView, RcuHash, Reader, Site, Tabled};
use rcu_model::Refusal;
use std::alloc::Global;

/// How many locks and sections a reader may have open at once.
const GREATEST_DEPTH: u64 = 2_147_483_647;

/// The value of a key of a list, or none.
fn get_in_list<P: GracePlan, B: Site>(
    reader: &mut Reader<P, Tabled, B>,
    view: ListView<B>,
    key: u64,
) -> Result<Option<u64>, Refusal> {
    let mut section = reader.section()?;
    Ok(view.get(&mut section, key))
}

/// The value of a key of a table, or none.
fn get_in_table<P: GracePlan + Drop, B: Site>(
    reader: &mut Reader<P, Tabled, B>,
    table: &RcuHash<'_, P, B, Code>,
    key: u64,
) -> Result<Option<u64>, Refusal> {
    let mut section = reader.section()?;
    Ok(table.get(&mut section, key))
}

/// Each key of a list, with its value.
fn walk_list<P: GracePlan, B: Site>(
    reader: &mut Reader<P, Tabled, B>,
    view: ListView<B>,
    room: Vec<(u64, u64)>,
) -> Result<Vec<(u64, u64)>, Refusal> {
    let mut met = room;
    let mut full = false;
    let mut visit = |key: u64, value: u64| {
        full = met.push((key, value)).is_err() || full;
    };
    let mut section = reader.section()?;
    view.for_each(&mut section, &mut visit);
    if full { Err(Refusal::Memory) } else { Ok(met) }
}

/// Each key of a table, with its value.
fn walk_table<P: GracePlan + Drop, B: Site>(
    reader: &mut Reader<P, Tabled, B>,
    table: &RcuHash<'_, P, B, Code>,
    room: Vec<(u64, u64)>,
) -> Result<Vec<(u64, u64)>, Refusal> {
    let mut met = room;
    let mut full = false;
    let mut visit = |key: u64, value: u64| {
        full = met.push((key, value)).is_err() || full;
    };
    let mut section = reader.section()?;
    table.for_each(&mut section, &mut visit);
    if full { Err(Refusal::Memory) } else { Ok(met) }
}

/// What a lookup is answered.
fn value(found: Result<Option<u64>, Refusal>) -> Answer {
    match found {
        Ok(Some(value)) => Answer::Number(value),
        Ok(None) => Answer::Nothing,
        Err(refusal) => Answer::Refused(refusal),
    }
}

/// What a walk is answered.
fn met(met: Result<Vec<(u64, u64)>, Refusal>) -> Answer {
    match met {
        Ok(met) => Answer::Met(met),
        Err(refusal) => Answer::Refused(refusal),
    }
}

/// A lookup in a list.
fn in_list<P: GracePlan + Drop, B: Site>(
    reader: &mut Reader<P, Tabled, B>,
    view: ListView<B>,
    room: Option<Vec<(u64, u64)>>,
    key: u64,
) -> Answer {
    match room {
        None => value(get_in_list(reader, view, key)),
        Some(room) => met(walk_list(reader, view, room)),
    }
}

/// A lookup in a table.
fn in_table<P: GracePlan + Drop, B: Site>(
    reader: &mut Reader<P, Tabled, B>,
    table: &RcuHash<'_, P, B, Code>,
    room: Option<Vec<(u64, u64)>>,
    key: u64,
) -> Answer {
    match room {
        None => value(get_in_table(reader, table, key)),
        Some(room) => met(walk_table(reader, table, room)),
    }
}

/// A lookup of a reader, after which it has found nothing: refused with `NoActor` where there is no such list or table,
/// with `NotOpen` where no lock is open, and with `NestFull` where no more may be; then it has what it had.
fn look<P: GracePlan + Drop, B: Site>(
    alloc: Global,
    maps: &Maps<'_, P, B>,
    walker: &mut Walker<P, Tabled, B>,
    records: usize,
    verb: Verb,
    numbers: [u64; 4],
) -> Answer
    requires stands { Stands walker.old.reader.core walker.old.held }
    ensures { Stands walker.new.reader.core walker.new.held }
{
    let number = numbers[0] as usize;
    let is_list = verb == Verb::GetInList || verb == Verb::WalkList;
    if !is_there(maps, is_list, number) {
        return Answer::Refused(Refusal::NoActor);
    }
    if walker.reader.depth() == 0 {
        return Answer::Refused(Refusal::NotOpen);
    }
    let room = if verb == Verb::WalkList || verb == Verb::WalkTable {
        match Vec::with_capacity(alloc, records) {
            Ok(room) => Some(room),
            Err(_) => return Answer::Refused(Refusal::Memory),
        }
    } else {
        None
    };
    if walker.reader.depth() == GREATEST_DEPTH {
        return Answer::Refused(Refusal::NestFull);
    }
    walker.held = None;
    look_in(maps, &mut walker.reader, is_list, number, room, numbers[1])
}

/// Whether there is such a list, or such a table.
fn is_there<P: GracePlan + Drop, B: Site>(
    maps: &Maps<'_, P, B>,
    is_list: bool,
    number: usize,
) -> bool {
    if is_list {
        matches!(maps.lists.get(number), Some(Some(_)))
    } else {
        matches!(maps.tables.get(number), Some(Some(_)))
    }
}

/// A lookup in a list or a table.
fn look_in<P: GracePlan + Drop, B: Site>(
    maps: &Maps<'_, P, B>,
    reader: &mut Reader<P, Tabled, B>,
    is_list: bool,
    number: usize,
    room: Option<Vec<(u64, u64)>>,
    key: u64,
) -> Answer {
    if is_list {
        match maps.lists.get(number) {
            Some(Some(list)) => in_list(reader, list.view(), room, key),
            _ => Answer::Refused(Refusal::NoActor),
        }
    } else {
        match maps.tables.get(number) {
            Some(Some(table)) => in_table(reader, &table.map, room, key),
            _ => Answer::Refused(Refusal::NoActor),
        }
    }
}

/// A lookup of the reader at this place, with these numbers.
pub(crate) fn look_line<P: GracePlan + Drop, B: Site>(
    alloc: Global,
    maps: &Maps<'_, P, B>,
    places: &mut Vec<Option<Walker<P, Tabled, B>>>,
    records: usize,
    reader: usize,
    verb: Verb,
    numbers: [u64; 4],
) -> Answer
    requires stand { All (λ o. IfSome o (λ w. Stands w.reader.core w.held)) places.old.items }
    ensures { All (λ o. IfSome o (λ w. Stands w.reader.core w.held)) places.new.items }
{
    if reader >= places.len() {
        return Answer::Refused(Refusal::NoActor);
    }
    match &mut places[reader] {
        Some(walker) => look(alloc, maps, walker, records, verb, numbers),
        None => Answer::Refused(Refusal::NoActor),
    }
}
