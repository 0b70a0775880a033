//! Calls of lists, tables and domains without what their contracts tell: a test proves no more than that its calls are
//! safe, and each clause that it hears costs time.

use crate::deleter::Adds;
use gp_memb::GracePlan;
use rcu_hash::{Handle, MapRule, RcuHash, RcuList, Site, TidyEnd};
use rcu_model::Refusal;
use std::alloc::Global;
use std::sync::Wait;

/// `RcuHash::insert`.
pub(crate) fn put<P: GracePlan + Drop, B: Site, R: Wait>(
    rt: &R,
    table: &RcuHash<'_, P, B, Adds>,
    record: &mut Handle<B>,
    key: u64,
    value: u64,
) -> Result<(), Refusal> {
    table.insert(rt, record, key, value)
}

/// `RcuHash::grow`.
pub(crate) fn grow<P: GracePlan + Drop, B: Site, R: Wait>(
    rt: &R,
    alloc: Global,
    table: &RcuHash<'_, P, B, Adds>,
    record: &mut Handle<B>,
    first: usize,
    buckets: usize,
) -> Result<usize, Refusal> {
    table.grow(rt, alloc, record, first, buckets)
}

/// `RcuHash::tidy`.
pub(crate) fn tidy<P: GracePlan + Drop, B: Site, R: Wait>(
    rt: &R,
    table: &RcuHash<'_, P, B, Adds>,
    record: &mut Handle<B>,
    jobs: Vec<Adds>,
) -> TidyEnd<Adds> {
    table.tidy(rt, record, jobs)
}

/// `RcuList::insert`.
pub(crate) fn list_put<P: GracePlan + Drop, K: MapRule, B: Site, R: Wait>(
    rt: &R,
    list: &mut RcuList<'_, P, K, B, Adds>,
    record: &mut Handle<B>,
    key: u64,
    value: u64,
) -> Result<(), Refusal> {
    list.insert(rt, record, key, value)
}
