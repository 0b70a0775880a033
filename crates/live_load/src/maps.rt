//! Keyed lists and hash tables, and the calls that change and read them. What their contracts tell is not told on: the
//! threads of a run only count, and each clause that they hear costs time.

ghost use Rattle.std.specs.Prelude.{◌≡◌, ◌<◌};

use crate::round::RoundDone;
use crate::target::Target;
use gp_memb::GracePlan;
use rcu_hash::{Domain, Handle, ListView, RcuHash, RcuList, Section, Site, TableView, Tabled};
use rcu_model::Refusal;
use std::alloc::Global;
use std::sync::{Mutex, Wait};

/// The chain of a list, or of a table's directory.
const FIRST: usize = 0;

/// How many keys are there all along: the numbers below this one.
pub(crate) const STAYING: u64 = 16;

/// The buckets of a table.
#[derive(Clone, Copy, Drop)]
pub struct Buckets {
    /// The first one's chain.
    pub first: usize,
    /// How many there are.
    pub number: usize,
}

/// A table's buckets, before it grows and by turns.
pub(crate) const FEW: Buckets = Buckets {
    first: 1,
    number: 4,
};

/// Its buckets once it has grown.
pub(crate) const MANY: Buckets = Buckets {
    first: 5,
    number: 8,
};

/// How many chains a domain has for the buckets of both sizes, with the directory's.
pub(crate) const CHAINS: usize = 13;

/// Keys with values, on which threads work together.
#[derive(Drop)]
pub enum Map<'d, P: GracePlan, B: Site> {
    /// A list, whose writers take turns.
    List(Mutex<RcuList<'d, P, Tabled, B, RoundDone>>),
    /// A table.
    Table(RcuHash<'d, P, B, RoundDone>),
}

/// What readers look the keys of a map up by.
#[derive(Drop)]
pub enum View<B: Site> {
    /// Of a list.
    List(ListView<B>),
    /// Of a table.
    Table(TableView<B>),
}

/// A table with no keys, in these buckets, with its directory in chain 0.
pub fn table<'d, P: GracePlan + Drop, B: Site, R: Wait>(
    rt: &R,
    alloc: Global,
    domain: &'d Domain<P, Tabled, B, RoundDone>,
    record: &mut Handle<B>,
    buckets: Buckets,
) -> Result<Map<'d, P, B>, Refusal> {
    let Buckets { first, number } = buckets;
    let table = RcuHash::new(rt, alloc, domain, record, FIRST, first, number)?;
    Ok(Map::Table(table))
}

/// A list with no keys, in chain 0.
fn list<'d, P: GracePlan + Drop, B: Site>(
    domain: &'d Domain<P, Tabled, B, RoundDone>,
    record: &mut Handle<B>,
) -> Result<Map<'d, P, B>, Refusal> {
    match RcuList::new(domain.chain(record, FIRST)?) {
        Ok(list) => Ok(Map::List(Mutex::new(list))),
        Err((refusal, _)) => Err(refusal),
    }
}

/// A list or a table with the keys that stay, each with the value 0.
pub(crate) fn filled<'d, P: GracePlan + Drop, B: Site, R: Wait>(
    rt: &R,
    alloc: Global,
    domain: &'d Domain<P, Tabled, B, RoundDone>,
    record: &mut Handle<B>,
    target: Target,
) -> Result<Map<'d, P, B>, Refusal> {
    let map = match target {
        Target::Lists => list(domain, record)?,
        _ => table(rt, alloc, domain, record, FEW)?,
    };
    for key in 0..STAYING {
        put(rt, &map, record, key, 0)?;
    }
    Ok(map)
}

/// What readers look the keys of such a map up by.
pub fn view_of<P: GracePlan + Drop, B: Site>(
    domain: &Domain<P, Tabled, B, RoundDone>,
    target: Target,
) -> Result<View<B>, Refusal> {
    Ok(match target {
        Target::Lists => View::List(ListView::of(domain, FIRST)?),
        _ => View::Table(TableView::of(domain, FIRST)?),
    })
}

/// Gives a key a value that had none.
pub fn put<P: GracePlan + Drop, B: Site, R: Wait>(
    rt: &R,
    map: &Map<'_, P, B>,
    record: &mut Handle<B>,
    key: u64,
    value: u64,
) -> Result<(), Refusal> {
    match map {
        Map::List(list) => (&mut *list.lock(rt)).insert(rt, record, key, value),
        Map::Table(table) => table.insert(rt, record, key, value),
    }
}

/// Gives a key another value. The old record is retired.
pub(crate) fn change<P: GracePlan + Drop, B: Site, R: Wait>(
    rt: &R,
    map: &Map<'_, P, B>,
    record: &mut Handle<B>,
    key: u64,
    value: u64,
) -> Result<(), Refusal> {
    let done = RoundDone(value);
    let changed = match map {
        Map::List(list) => (&mut *list.lock(rt)).replace(rt, record, key, value, done),
        Map::Table(table) => table.replace(rt, record, key, value, done),
    };
    match changed {
        Ok(_) => Ok(()),
        Err((refusal, _)) => Err(refusal),
    }
}

/// Takes a key out. Its record is retired.
pub fn take_out<P: GracePlan + Drop, B: Site, R: Wait>(
    rt: &R,
    map: &Map<'_, P, B>,
    record: &mut Handle<B>,
    key: u64,
) -> Result<(), Refusal> {
    let taken = match map {
        Map::List(list) => (&mut *list.lock(rt)).remove(rt, record, key, RoundDone(0)),
        Map::Table(table) => table.remove(rt, record, key, RoundDone(0)),
    };
    match taken {
        Ok(_) => Ok(()),
        Err((refusal, _)) => Err(refusal),
    }
}

/// The value of a key, or none.
pub fn look<P: GracePlan, B: Site>(
    section: &mut Section<'_, P, Tabled, B>,
    view: &View<B>,
    key: u64,
) -> Option<u64> {
    match view {
        View::List(list) => list.get(section, key),
        View::Table(table) => table.get(section, key),
    }
}

/// Goes through all keys.
pub fn walk<P: GracePlan, B: Site, F: FnMut(u64, u64)>(
    section: &mut Section<'_, P, Tabled, B>,
    view: &View<B>,
    visit: &mut F,
)
    requires callable { F.IsAlwaysCallable visit.old }
{
    match view {
        View::List(list) => list.for_each(section, visit),
        View::Table(table) => table.for_each(section, visit),
    }
}
