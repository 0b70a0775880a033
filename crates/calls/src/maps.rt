//! Lists and tables, by their writers.

use crate::chains::ticket;
use crate::codes::Code;
use crate::plain;
use crate::session::Session;
use crate::walker::done;
use call_text::{Answer, Call, Verb};
use gp_memb::GracePlan;
use rcu_hash::{Domain, Handle, RcuHash, RcuList, Site, Tabled};
use rcu_model::Refusal;
use std::alloc::{AllocError, Global};
use std::sync::Wait;

/// How many lists, and how many tables, a script may name.
const MAPS: usize = 16;

/// The most callbacks that a tidying is given.
const MOST_CALLBACKS: u64 = 65_536;

/// A table, and whether an earlier directory of it left something.
#[derive(Drop)]
pub(crate) struct Table<'d, P: GracePlan + Drop, B: Site> {
    pub(crate) map: RcuHash<'d, P, B, Code>,
    left: bool,
}

/// The lists and the tables that are there.
#[derive(Drop)]
pub(crate) struct Maps<'d, P: GracePlan + Drop, B: Site> {
    pub(crate) lists: Vec<Option<RcuList<'d, P, Tabled, B, Code>>>,
    pub(crate) tables: Vec<Option<Table<'d, P, B>>>,
}

impl<'d, P: GracePlan + Drop, B: Site> Maps<'d, P, B> {
    /// None is there.
    pub(crate) fn new(alloc: Global) -> Result<Maps<'d, P, B>, AllocError> {
        let mut lists = Vec::new(alloc);
        let mut tables = Vec::new(alloc);
        for _ in 0..MAPS {
            lists.push(None)?;
            tables.push(None)?;
        }
        Ok(Maps { lists, tables })
    }

    /// A call of a list: refused with `NoActor` where there is no such place.
    pub(crate) fn list_line<R: Wait>(
        &mut self,
        rt: &R,
        session: &mut Session<'d, P, Tabled, B>,
        list: usize,
        call: &Call,
    ) -> Answer {
        let domain = session.domain;
        let record = &mut session.record;
        match self.lists.get_mut(list) {
            Some(place) => list_line(rt, domain, record, place, call.verb, call.numbers),
            None => Answer::Refused(Refusal::NoActor),
        }
    }

    /// A call of a table: refused with `NoActor` where there is no such place.
    pub(crate) fn table_line<R: Wait>(
        &mut self,
        rt: &R,
        alloc: Global,
        session: &mut Session<'d, P, Tabled, B>,
        inside: bool,
        table: usize,
        call: &Call,
    ) -> Answer {
        let domain = session.domain;
        let record = &mut session.record;
        match self.tables.get_mut(table) {
            Some(place) => {
                let (verb, numbers) = (call.verb, call.numbers);
                table_line(rt, alloc, domain, record, inside, place, verb, numbers)
            }
            None => Answer::Refused(Refusal::NoActor),
        }
    }
}

/// A list over a chain.
fn made_list<'d, P: GracePlan + Drop, B: Site>(
    domain: &'d Domain<P, Tabled, B, Code>,
    record: &mut Handle<B>,
    chain: usize,
) -> Result<RcuList<'d, P, Tabled, B, Code>, Refusal> {
    let chain = plain::chain(domain, record, chain)?;
    plain::new_list(chain)
}

/// Puts a list at its place: refused with `Busy` where one is there.
fn new_list<'d, P: GracePlan + Drop, B: Site>(
    domain: &'d Domain<P, Tabled, B, Code>,
    record: &mut Handle<B>,
    place: &mut Option<RcuList<'d, P, Tabled, B, Code>>,
    chain: usize,
) -> Answer {
    if place.is_some() {
        return Answer::Refused(Refusal::Busy);
    }
    match made_list(domain, record, chain) {
        Ok(list) => {
            *place = Some(list);
            Answer::Done
        }
        Err(refusal) => Answer::Refused(refusal),
    }
}

/// The value of a key, or none.
fn value<P: GracePlan + Drop, B: Site>(
    list: &mut RcuList<'_, P, Tabled, B, Code>,
    key: u64,
) -> Answer {
    match plain::value(list, key) {
        Some(value) => Answer::Number(value),
        None => Answer::Nothing,
    }
}

/// A call of a list, with these numbers.
fn list_line<'d, P: GracePlan + Drop, B: Site, R: Wait>(
    rt: &R,
    domain: &'d Domain<P, Tabled, B, Code>,
    record: &mut Handle<B>,
    place: &mut Option<RcuList<'d, P, Tabled, B, Code>>,
    verb: Verb,
    numbers: [u64; 4],
) -> Answer {
    let [key, second, third, _] = numbers;
    if verb == Verb::NewList {
        return new_list(domain, record, place, key as usize);
    }
    let Some(list) = place else {
        return Answer::Refused(Refusal::NoActor);
    };
    match verb {
        Verb::Drop => {
            *place = None;
            Answer::Done
        }
        Verb::Insert => done(plain::list_insert(rt, list, record, key, second)),
        Verb::ReplaceKey => {
            ticket(plain::list_replace(rt, list, record, key, second, Code(third)))
        }
        Verb::Remove => ticket(plain::list_remove(rt, list, record, key, Code(second))),
        Verb::Value => value(list, key),
        _ => Answer::Refused(Refusal::BadText),
    }
}

/// Puts a table at its place: refused with `Busy` where one is there.
fn new_table<'d, P: GracePlan + Drop, B: Site, R: Wait>(
    rt: &R,
    alloc: Global,
    domain: &'d Domain<P, Tabled, B, Code>,
    record: &mut Handle<B>,
    place: &mut Option<Table<'d, P, B>>,
    numbers: [u64; 4],
) -> Answer {
    if place.is_some() {
        return Answer::Refused(Refusal::Busy);
    }
    let [directory, first, buckets, _] = numbers;
    let made = plain::new_table(
        rt,
        alloc,
        domain,
        record,
        directory as usize,
        first as usize,
        buckets as usize,
    );
    match made {
        Ok(map) => {
            *place = Some(Table { map, left: false });
            Answer::Done
        }
        Err(refusal) => Answer::Refused(refusal),
    }
}

/// `RcuHash::grow`.
fn grow<P: GracePlan + Drop, B: Site, R: Wait>(
    rt: &R,
    alloc: Global,
    record: &mut Handle<B>,
    table: &mut Table<'_, P, B>,
    first: usize,
    buckets: usize,
) -> Answer {
    match plain::grow(rt, alloc, &table.map, record, first, buckets) {
        Ok(left) => {
            table.left = true;
            Answer::Left(left as u64)
        }
        Err(refusal) => Answer::Refused(refusal),
    }
}

/// Makes `many` callbacks with the codes from `code` on, and room for as many codes.
fn callbacks(alloc: Global, many: u64, code: u64) -> Result<(Vec<Code>, Vec<u64>), AllocError> {
    let mut jobs = Vec::with_capacity(alloc, many as usize)?;
    for index in 0..many {
        jobs.push(Code(code.wrapping_add(index)))?;
    }
    Ok((jobs, Vec::with_capacity(alloc, many as usize)?))
}

/// `RcuHash::tidy`, which waits where an earlier directory left something.
fn tidy<P: GracePlan + Drop, B: Site, R: Wait>(
    rt: &R,
    alloc: Global,
    record: &mut Handle<B>,
    inside: bool,
    table: &mut Table<'_, P, B>,
    many: u64,
    code: u64,
) -> Answer {
    if many > MOST_CALLBACKS {
        return Answer::Refused(Refusal::BadConfig);
    }
    if table.left && inside {
        return Answer::WouldWait;
    }
    let Ok((jobs, mut back)) = callbacks(alloc, many, code) else {
        return Answer::Refused(Refusal::Memory);
    };
    let end = plain::tidy(rt, &table.map, record, jobs);
    table.left = end.left != 0;
    for job in &end.jobs {
        let _ = back.push(job.0);
    }
    Answer::Tidied {
        retired: end.retired as u64,
        left: end.left as u64,
        back,
        stop: end.stop,
    }
}

/// A call of a table, with these numbers.
fn table_line<'d, P: GracePlan + Drop, B: Site, R: Wait>(
    rt: &R,
    alloc: Global,
    domain: &'d Domain<P, Tabled, B, Code>,
    record: &mut Handle<B>,
    inside: bool,
    place: &mut Option<Table<'d, P, B>>,
    verb: Verb,
    numbers: [u64; 4],
) -> Answer {
    let [key, second, third, _] = numbers;
    if verb == Verb::NewTable {
        return new_table(rt, alloc, domain, record, place, numbers);
    }
    let Some(table) = place else {
        return Answer::Refused(Refusal::NoActor);
    };
    match verb {
        Verb::Drop => {
            *place = None;
            Answer::Done
        }
        Verb::Insert => done(plain::table_insert(rt, &table.map, record, key, second)),
        Verb::ReplaceKey => {
            ticket(plain::table_replace(rt, &table.map, record, key, second, Code(third)))
        }
        Verb::Remove => ticket(plain::table_remove(rt, &table.map, record, key, Code(second))),
        Verb::Grow => grow(rt, alloc, record, table, key as usize, second as usize),
        Verb::Tidy => tidy(rt, alloc, record, inside, table, key, second),
        _ => Answer::Refused(Refusal::BadText),
    }
}
