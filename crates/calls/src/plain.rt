//! Calls of the library without what their contracts tell: that its calls are safe is all that a script proves of them,
//! and each clause that it hears costs time.

use crate::codes::Code;
use gp_memb::GracePlan;
use rcu_hash::{
    AnyChain, BarrierMark, Chain, ChainRule, Counts, Domain, Handle, LiveCookie, Owned, RcuHash,
    RcuList, Site, Tabled, Ticket, TidyEnd, Unlinked, WorkerEnd,
};
use rcu_model::Refusal;
use std::alloc::Global;
use std::sync::Wait;

/// `Domain::split`.
pub(crate) fn split<P: GracePlan + Drop, K: ChainRule, B: Site>(
    domain: &Domain<P, K, B, Code>,
    record: &mut Handle<B>,
) -> Handle<B> {
    domain.split(record)
}

/// `Domain::inform`.
pub(crate) fn inform<P: GracePlan + Drop, K: ChainRule, B: Site>(
    domain: &Domain<P, K, B, Code>,
    from: &mut Handle<B>,
    to: &mut Handle<B>,
) {
    domain.inform(from, to);
}

/// `Domain::alloc`.
pub(crate) fn alloc<P: GracePlan + Drop, K: ChainRule, B: Site, R: Wait>(
    rt: &R,
    domain: &Domain<P, K, B, Code>,
    record: &mut Handle<B>,
    words: [u64; 4],
) -> Result<Owned<B>, Refusal> {
    domain.alloc(rt, record, words)
}

/// `Domain::discard`.
pub(crate) fn discard<P: GracePlan + Drop, K: ChainRule, B: Site>(
    domain: &Domain<P, K, B, Code>,
    record: &mut Handle<B>,
    owned: Owned<B>,
) {
    domain.discard(record, owned);
}

/// `Domain::object`.
pub(crate) fn object<P: GracePlan + Drop, K: ChainRule, B: Site>(
    domain: &Domain<P, K, B, Code>,
    unlinked: &mut Unlinked<B>,
) -> u64 {
    domain.object(unlinked).0
}

/// `Domain::synchronize`.
pub(crate) fn synchronize<P: GracePlan + Drop, K: ChainRule, B: Site, R: Wait>(
    rt: &R,
    domain: &Domain<P, K, B, Code>,
    record: &mut Handle<B>,
) -> Result<(), Refusal> {
    domain.synchronize(rt, record)
}

/// `Domain::start_poll`.
pub(crate) fn start_poll<P: GracePlan + Drop, K: ChainRule, B: Site>(
    domain: &Domain<P, K, B, Code>,
    record: &mut Handle<B>,
) -> Result<LiveCookie, Refusal> {
    domain.start_poll(record)
}

/// `Domain::poll`.
pub(crate) fn poll<P: GracePlan + Drop, K: ChainRule, B: Site>(
    domain: &Domain<P, K, B, Code>,
    record: &mut Handle<B>,
    cookie: &LiveCookie,
) -> bool {
    domain.poll(record, cookie)
}

/// `Domain::barrier`.
pub(crate) fn barrier<P: GracePlan + Drop, K: ChainRule, B: Site, R: Wait>(
    rt: &R,
    domain: &Domain<P, K, B, Code>,
    record: &mut Handle<B>,
) {
    domain.barrier(rt, record);
}

/// `Domain::barrier_start`.
pub(crate) fn barrier_start<P: GracePlan + Drop, K: ChainRule, B: Site>(
    domain: &Domain<P, K, B, Code>,
    record: &mut Handle<B>,
) -> BarrierMark {
    domain.barrier_start(record)
}

/// `Domain::barrier_done`.
pub(crate) fn barrier_done<P: GracePlan + Drop, K: ChainRule, B: Site>(
    domain: &Domain<P, K, B, Code>,
    record: &mut Handle<B>,
    mark: &BarrierMark,
) -> bool {
    domain.barrier_done(record, mark)
}

/// `Domain::counts`.
pub(crate) fn counts<P: GracePlan + Drop, K: ChainRule, B: Site>(
    domain: &Domain<P, K, B, Code>,
    record: &mut Handle<B>,
) -> Counts {
    domain.counts(record)
}

/// `Domain::stalled`.
pub(crate) fn stalled<P: GracePlan + Drop, K: ChainRule, B: Site>(
    alloc: Global,
    domain: &Domain<P, K, B, Code>,
    record: &mut Handle<B>,
) -> Result<Vec<usize>, Refusal> {
    domain.stalled(alloc, record)
}

/// `Domain::close`.
pub(crate) fn close<P: GracePlan + Drop, K: ChainRule, B: Site, R: Wait>(
    rt: &R,
    domain: &Domain<P, K, B, Code>,
    record: &mut Handle<B>,
) {
    domain.close(rt, record);
}

/// `Domain::run_worker`.
pub(crate) fn run_worker<P: GracePlan + Drop, K: ChainRule, B: Site, R: Wait>(
    rt: &R,
    alloc: Global,
    domain: &Domain<P, K, B, Code>,
    record: &mut Handle<B>,
    queue: usize,
) -> Result<WorkerEnd<B, Code>, Refusal> {
    domain.run_worker(rt, alloc, record, queue)
}

/// `Domain::run_queued`.
pub(crate) fn run_queued<P: GracePlan + Drop, K: ChainRule, B: Site, R: Wait>(
    rt: &R,
    alloc: Global,
    domain: &Domain<P, K, B, Code>,
    record: &mut Handle<B>,
    queue: usize,
) -> Result<WorkerEnd<B, Code>, Refusal> {
    domain.run_queued(rt, alloc, record, queue)
}

/// `Domain::chain`.
pub(crate) fn chain<'d, P: GracePlan + Drop, K: ChainRule, B: Site>(
    domain: &'d Domain<P, K, B, Code>,
    record: &mut Handle<B>,
    number: usize,
) -> Result<Chain<'d, P, K, B, Code>, Refusal> {
    domain.chain(record, number)
}

/// `Domain::retire`.
pub(crate) fn retire<P: GracePlan + Drop, B: Site, R: Wait>(
    rt: &R,
    domain: &Domain<P, AnyChain, B, Code>,
    record: &mut Handle<B>,
    unlinked: Unlinked<B>,
    callback: Code,
) -> Result<Ticket, (Refusal, Unlinked<B>, Code)> {
    domain.retire(rt, record, unlinked, callback)
}

/// `Domain::cut_retire`.
pub(crate) fn cut_retire<P: GracePlan + Drop, B: Site, R: Wait>(
    rt: &R,
    domain: &Domain<P, AnyChain, B, Code>,
    record: &mut Handle<B>,
    chain: &mut Chain<'_, P, AnyChain, B, Code>,
    index: usize,
    callback: Code,
) -> Result<Ticket, (Refusal, Code)> {
    domain.cut_retire(rt, record, chain, index, callback)
}

/// `Domain::replace_retire`.
pub(crate) fn replace_retire<P: GracePlan + Drop, B: Site, R: Wait>(
    rt: &R,
    domain: &Domain<P, AnyChain, B, Code>,
    record: &mut Handle<B>,
    chain: &mut Chain<'_, P, AnyChain, B, Code>,
    index: usize,
    owned: Owned<B>,
    callback: Code,
) -> Result<Ticket, (Refusal, Owned<B>, Code)> {
    domain.replace_retire(rt, record, chain, index, owned, callback)
}

/// `Chain::push`.
pub(crate) fn push<P: GracePlan + Drop, B: Site>(
    chain: &mut Chain<'_, P, AnyChain, B, Code>,
    record: &mut Handle<B>,
    owned: Owned<B>,
) {
    chain.push(record, owned);
}

/// `Chain::replace`.
pub(crate) fn replace<P: GracePlan + Drop, B: Site>(
    chain: &mut Chain<'_, P, AnyChain, B, Code>,
    record: &mut Handle<B>,
    index: usize,
    owned: Owned<B>,
) -> Result<Unlinked<B>, (Refusal, Owned<B>)> {
    chain.replace(record, index, owned)
}

/// `Chain::cut`.
pub(crate) fn cut<P: GracePlan + Drop, B: Site>(
    chain: &mut Chain<'_, P, AnyChain, B, Code>,
    record: &mut Handle<B>,
    index: usize,
) -> Result<Unlinked<B>, Refusal> {
    chain.cut(record, index)
}

/// `Chain::get`.
pub(crate) fn get<P: GracePlan + Drop, B: Site>(
    chain: &mut Chain<'_, P, AnyChain, B, Code>,
    index: usize,
) -> Option<[u64; 4]> {
    chain.get(index)
}

/// `Chain::index_of`.
pub(crate) fn index_of<P: GracePlan + Drop, B: Site>(
    chain: &mut Chain<'_, P, AnyChain, B, Code>,
    word: u64,
) -> Option<usize> {
    chain.index_of(word)
}

/// `Chain::note`.
pub(crate) fn note<P: GracePlan + Drop, B: Site>(
    chain: &mut Chain<'_, P, AnyChain, B, Code>,
) -> u64 {
    chain.note()
}

/// `Chain::set_note`.
pub(crate) fn set_note<P: GracePlan + Drop, B: Site>(
    chain: &mut Chain<'_, P, AnyChain, B, Code>,
    record: &mut Handle<B>,
    note: u64,
) {
    chain.set_note(record, note);
}

/// `Chain::hear`.
pub(crate) fn hear<P: GracePlan + Drop, B: Site>(
    chain: &mut Chain<'_, P, AnyChain, B, Code>,
    record: &mut Handle<B>,
) {
    chain.hear(record);
}

/// `RcuList::new`.
pub(crate) fn new_list<'d, P: GracePlan + Drop, B: Site>(
    chain: Chain<'d, P, Tabled, B, Code>,
) -> Result<RcuList<'d, P, Tabled, B, Code>, Refusal> {
    match RcuList::new(chain) {
        Ok(list) => Ok(list),
        Err((refusal, _)) => Err(refusal),
    }
}

/// `RcuList::value`.
pub(crate) fn value<P: GracePlan + Drop, B: Site>(
    list: &mut RcuList<'_, P, Tabled, B, Code>,
    key: u64,
) -> Option<u64> {
    list.value(key)
}

/// `RcuList::insert`.
pub(crate) fn list_insert<P: GracePlan + Drop, B: Site, R: Wait>(
    rt: &R,
    list: &mut RcuList<'_, P, Tabled, B, Code>,
    record: &mut Handle<B>,
    key: u64,
    value: u64,
) -> Result<(), Refusal> {
    list.insert(rt, record, key, value)
}

/// `RcuList::replace`.
pub(crate) fn list_replace<P: GracePlan + Drop, B: Site, R: Wait>(
    rt: &R,
    list: &mut RcuList<'_, P, Tabled, B, Code>,
    record: &mut Handle<B>,
    key: u64,
    value: u64,
    callback: Code,
) -> Result<Ticket, Refusal> {
    match list.replace(rt, record, key, value, callback) {
        Ok(ticket) => Ok(ticket),
        Err((refusal, _)) => Err(refusal),
    }
}

/// `RcuList::remove`.
pub(crate) fn list_remove<P: GracePlan + Drop, B: Site, R: Wait>(
    rt: &R,
    list: &mut RcuList<'_, P, Tabled, B, Code>,
    record: &mut Handle<B>,
    key: u64,
    callback: Code,
) -> Result<Ticket, Refusal> {
    match list.remove(rt, record, key, callback) {
        Ok(ticket) => Ok(ticket),
        Err((refusal, _)) => Err(refusal),
    }
}

/// `RcuHash::new`.
pub(crate) fn new_table<'d, P: GracePlan + Drop, B: Site, R: Wait>(
    rt: &R,
    alloc: Global,
    domain: &'d Domain<P, Tabled, B, Code>,
    record: &mut Handle<B>,
    directory: usize,
    first: usize,
    buckets: usize,
) -> Result<RcuHash<'d, P, B, Code>, Refusal> {
    RcuHash::new(rt, alloc, domain, record, directory, first, buckets)
}

/// `RcuHash::insert`.
pub(crate) fn table_insert<P: GracePlan + Drop, B: Site, R: Wait>(
    rt: &R,
    table: &RcuHash<'_, P, B, Code>,
    record: &mut Handle<B>,
    key: u64,
    value: u64,
) -> Result<(), Refusal> {
    table.insert(rt, record, key, value)
}

/// `RcuHash::replace`.
pub(crate) fn table_replace<P: GracePlan + Drop, B: Site, R: Wait>(
    rt: &R,
    table: &RcuHash<'_, P, B, Code>,
    record: &mut Handle<B>,
    key: u64,
    value: u64,
    callback: Code,
) -> Result<Ticket, Refusal> {
    match table.replace(rt, record, key, value, callback) {
        Ok(ticket) => Ok(ticket),
        Err((refusal, _)) => Err(refusal),
    }
}

/// `RcuHash::remove`.
pub(crate) fn table_remove<P: GracePlan + Drop, B: Site, R: Wait>(
    rt: &R,
    table: &RcuHash<'_, P, B, Code>,
    record: &mut Handle<B>,
    key: u64,
    callback: Code,
) -> Result<Ticket, Refusal> {
    match table.remove(rt, record, key, callback) {
        Ok(ticket) => Ok(ticket),
        Err((refusal, _)) => Err(refusal),
    }
}

/// `RcuHash::grow`.
pub(crate) fn grow<P: GracePlan + Drop, B: Site, R: Wait>(
    rt: &R,
    alloc: Global,
    table: &RcuHash<'_, P, B, Code>,
    record: &mut Handle<B>,
    first: usize,
    buckets: usize,
) -> Result<usize, Refusal> {
    table.grow(rt, alloc, record, first, buckets)
}

/// `RcuHash::tidy`.
pub(crate) fn tidy<P: GracePlan + Drop, B: Site, R: Wait>(
    rt: &R,
    table: &RcuHash<'_, P, B, Code>,
    record: &mut Handle<B>,
    jobs: Vec<Code>,
) -> TidyEnd<Code> {
    table.tidy(rt, record, jobs)
}
