//! What one does who lets a table grow.

use crate::maps::{Buckets, FEW, MANY, Map};
use crate::round::RoundDone;
use crate::threads::Shared;
use crate::updating::{Updated, when_free};
use crate::watch::Watch;
use gp_memb::GracePlan;
use rcu_hash::{Handle, RcuHash, Site, Tabled};
use rcu_model::Refusal;
use std::alloc::Global;
use std::sync::Wait;

/// Makes this many callbacks.
fn callbacks(alloc: Global, number: usize) -> Result<Vec<RoundDone>, Refusal> {
    let mut all = Vec::new(alloc);
    for _ in 0..number {
        if all.push(RoundDone(0)).is_err() {
            return Err(Refusal::Memory);
        }
    }
    Ok(all)
}

/// `RcuHash::grow`, of whose contract nothing is told on.
fn grow<P: GracePlan + Drop, B: Site, R: Wait>(
    rt: &R,
    alloc: Global,
    table: &RcuHash<'_, P, B, RoundDone>,
    record: &mut Handle<B>,
    buckets: Buckets,
) -> Result<usize, Refusal> {
    table.grow(rt, alloc, record, buckets.first, buckets.number)
}

/// The table is tidied of this many records that a growth left. How many were retired.
fn tidy<P: GracePlan + Drop, B: Site, R: Wait>(
    rt: &R,
    alloc: Global,
    table: &RcuHash<'_, P, B, RoundDone>,
    record: &mut Handle<B>,
    left: usize,
) -> Result<u64, Refusal> {
    let end = table.tidy(rt, record, callbacks(alloc, left)?);
    match end.stop {
        Some(refusal) => Err(refusal),
        None => Ok(end.retired as u64),
    }
}

/// The table grows to these buckets as soon as enough records are free, and is tidied. How many were retired. A list
/// does not grow: it is refused with `NoPlace`.
pub fn grows_to<P: GracePlan + Drop, B: Site, R: Wait>(
    rt: &R,
    alloc: Global,
    map: &Map<'_, P, B>,
    record: &mut Handle<B>,
    buckets: Buckets,
) -> Result<u64, Refusal> {
    let Map::Table(table) = map else {
        return Err(Refusal::NoPlace);
    };
    let left = when_free(|| grow(rt, alloc, table, record, buckets))?;
    tidy(rt, alloc, table, record, left)
}

/// Growth after growth, to more buckets and to fewer by turns, until the updaters have ended, and once after that.
pub(crate) fn growths<P: GracePlan + Drop, B: Site, R: Wait, W: Watch>(
    rt: &R,
    alloc: Global,
    shared: &Shared<'_, '_, P, Tabled, B, W>,
    record: &mut Handle<B>,
    map: &Map<'_, P, B>,
) -> Result<Updated, Refusal> {
    let mut retired = 0u64;
    for number in 0..u64::MAX {
        let is_last = shared.are_updated();
        let buckets = if number % 2 == 0 { MANY } else { FEW };
        match grows_to(rt, alloc, map, record, buckets) {
            Ok(more) => retired = retired.saturating_add(more),
            Err(Refusal::PoolFull) => {
                return Ok(Updated {
                    retired,
                    starved: true,
                });
            }
            Err(refusal) => return Err(refusal),
        }
        if is_last {
            break;
        }
    }
    Ok(Updated {
        retired,
        starved: false,
    })
}
