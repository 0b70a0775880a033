//! Calls of domains and chains without what their contracts tell: a test proves no more than that its calls are safe,
//! and each clause that it hears costs time.

use domain::{
    AnyChain, Chain, Counts, Deleter, Domain, Handle, LiveCookie, Owned, Site, Ticket, Unlinked,
    WorkerEnd,
};
use gp_memb::GracePlan;
use rcu_model::Refusal;
use std::alloc::Global;
use std::sync::Wait;

/// `Domain::alloc`.
pub(crate) fn alloc<P: GracePlan + Drop, B: Site, D: Deleter, R: Wait>(
    rt: &R,
    domain: &Domain<P, AnyChain, B, D>,
    record: &mut Handle<B>,
    words: [u64; 4],
) -> Result<Owned<B>, Refusal> {
    domain.alloc(rt, record, words)
}

/// `Domain::chain`.
pub(crate) fn chain<'d, P: GracePlan + Drop, B: Site, D: Deleter>(
    domain: &'d Domain<P, AnyChain, B, D>,
    record: &mut Handle<B>,
    number: usize,
) -> Result<Chain<'d, P, AnyChain, B, D>, Refusal> {
    domain.chain(record, number)
}

/// `Chain::push`.
pub(crate) fn push<P: GracePlan + Drop, B: Site, D: Deleter>(
    writer: &mut Chain<'_, P, AnyChain, B, D>,
    record: &mut Handle<B>,
    owned: Owned<B>,
) {
    writer.push(record, owned);
}

/// `Chain::cut`.
pub(crate) fn cut<P: GracePlan + Drop, B: Site, D: Deleter>(
    writer: &mut Chain<'_, P, AnyChain, B, D>,
    record: &mut Handle<B>,
    index: usize,
) -> Result<Unlinked<B>, Refusal> {
    writer.cut(record, index)
}

/// `Domain::rcu_retire`.
pub(crate) fn rcu_retire<P: GracePlan + Drop, B: Site, D: Deleter, R: Wait>(
    rt: &R,
    domain: &Domain<P, AnyChain, B, D>,
    record: &mut Handle<B>,
    unlinked: Unlinked<B>,
    callback: D,
) -> Result<Ticket, (Refusal, Unlinked<B>, D)> {
    domain.rcu_retire(rt, record, unlinked, callback)
}

/// `Domain::cut_retire`.
pub(crate) fn cut_retire<P: GracePlan + Drop, B: Site, D: Deleter, R: Wait>(
    rt: &R,
    domain: &Domain<P, AnyChain, B, D>,
    record: &mut Handle<B>,
    writer: &mut Chain<'_, P, AnyChain, B, D>,
    index: usize,
    callback: D,
) -> Result<Ticket, (Refusal, D)> {
    domain.cut_retire(rt, record, writer, index, callback)
}

/// `Domain::close`.
pub(crate) fn close<P: GracePlan + Drop, B: Site, D: Deleter, R: Wait>(
    rt: &R,
    domain: &Domain<P, AnyChain, B, D>,
    record: &mut Handle<B>,
) {
    domain.close(rt, record)
}

/// `Domain::run_worker`.
pub(crate) fn run_worker<P: GracePlan + Drop, B: Site, D: Deleter, R: Wait>(
    rt: &R,
    alloc: Global,
    domain: &Domain<P, AnyChain, B, D>,
    record: &mut Handle<B>,
    queue: usize,
) -> Result<WorkerEnd<B, D>, Refusal> {
    domain.run_worker(rt, alloc, record, queue)
}

/// `Domain::rcu_barrier`.
pub(crate) fn rcu_barrier<P: GracePlan + Drop, B: Site, D: Deleter, R: Wait>(
    rt: &R,
    domain: &Domain<P, AnyChain, B, D>,
    record: &mut Handle<B>,
) {
    domain.rcu_barrier(rt, record)
}

/// `Domain::synchronize`.
pub(crate) fn synchronize<P: GracePlan + Drop, B: Site, D: Deleter, R: Wait>(
    rt: &R,
    domain: &Domain<P, AnyChain, B, D>,
    record: &mut Handle<B>,
) -> Result<(), Refusal> {
    domain.synchronize(rt, record)
}

/// `Domain::counts`.
pub(crate) fn counts<P: GracePlan + Drop, B: Site, D: Deleter>(
    domain: &Domain<P, AnyChain, B, D>,
    record: &mut Handle<B>,
) -> Counts {
    domain.counts(record)
}

/// `Domain::stalled`.
pub(crate) fn stalled<P: GracePlan + Drop, B: Site, D: Deleter>(
    alloc: Global,
    domain: &Domain<P, AnyChain, B, D>,
    record: &mut Handle<B>,
) -> Result<Vec<usize>, Refusal> {
    domain.stalled(alloc, record)
}
