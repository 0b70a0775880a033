//! How a table takes its chains, and how a directory comes to name them.

ghost use Rattle.std.specs.Prelude.{◌≡◌, ◌⊎◌, ◌+◌, ◌^◌, ◌<◌, ◌≤◌, ◌∷◌, ◌++◌, [], ℕ, List, None, IfErr, IfOk, map, vec_capacity, vec_len};
ghost use Rattle.rcu_model.specs.declared.refusal.Refusal.TheVariants.{BadConfig, Memory, PoolFull};
ghost use Rattle.live_log.specs.declared.event.LiveEvent.TheVariants.{Object};
ghost use Rattle.live_log.specs.declared.event.ObjectEvent.TheVariants.{Push};
ghost use Rattle.live_log.specs.Log.{Begins, IsLiveRun};
ghost use Rattle.live_log.specs.Tables.{reserved, tabled};
ghost use Rattle.rcu_list.specs.live_rule.declared.view.Look.TheVariants.{Loaded, Stored};
ghost use Rattle.rcu_list.specs.live_rule.Places.{hold_at};
ghost use Rattle.rcu_list.specs.live_rule.Rights.{cell_in, object_in, payload_in};
ghost use Rattle.rcu_list.specs.live_read.Hearing.{IsAfter, OnlyMakesLast, OnlyMakesMany};
ghost use Rattle.rcu_hash.specs.Directories.{LeadsTo, directed_map};
ghost use Rattle.rcu_hash.specs.Freeing.{GivesUp, Looked};
ghost use Rattle.rcu_hash.specs.Growing.{NotesAll};
ghost use Rattle.rcu_hash.specs.Leaving.{Writes};
ghost use Rattle.rcu_hash.specs.Buckets.{IsBucket};
ghost use Rattle.rcu_hash.specs.Naming.{words_by};
ghost use Rattle.rcu_hash.specs.Refusing.{FindsFree, FindsTaken, IsUnused};
ghost use Rattle.rcu_hash.specs.Tables.{IsAmong, bucket_of};
ghost use Rattle.rcu_hash.specs.Writers.{AreFrom, AreKept, Each, HasNoNote, HasNote, HasNothing, IsAlone, IsEmpty, KeepLists};

use crate::bucket::Bucket;
use crate::bucket_array::{ArrayLock, Place, empty_lock};
use crate::directory::{Directory, Naming};
use crate::rights::{lend_all, take_all_back};
use gp_memb::GracePlan;
use live_log::Tabled;
use rcu_list::{Caller, Chain, Deleter, Domain, Lent, Owned, Site};
use rcu_model::Refusal;
use std::alloc::Global;
use std::sync::{Mutex, Wait};

/// An empty list with room for this many.
///
/// Refused with `Memory` where memory is.
pub(crate) fn room<T>(alloc: Global, many: usize) -> Result<Vec<T>, Refusal>
    ensures made { IfOk result (λ v. (v.items ≡ []) × (many ≤ vec_capacity v)) }
    ensures refused { IfErr result (λ e. e ≡ Memory) }
{
    match Vec::with_capacity(alloc, many) {
        Ok(room) => Ok(room),
        Err(_) => Err(Refusal::Memory),
    }
}

/// Vectors that are allocated before the first chain of a table is held, and the lock of its array.
#[derive(Drop)]
pub(crate) struct Rooms<'d, P: GracePlan, B: Site, D: Drop> {
    pub(crate) chains: Vec<Chain<'d, P, Tabled, B, D>>,
    pub(crate) noted: Vec<Chain<'d, P, Tabled, B, D>>,
    pub(crate) back: Vec<Chain<'d, P, Tabled, B, D>>,
    pub(crate) places: Vec<Place<'d, P, B, D>>,
    pub(crate) array: ArrayLock<'d, P, B, D>,
    pub(crate) ghost empty: { (chains.items ≡ []) × (noted.items ≡ []) × (back.items ≡ []) × (places.items ≡ []) },
}

impl<'d, P: GracePlan + Drop, B: Site, D: Deleter> Rooms<'d, P, B, D> {
    /// Room for so many chains, three times, and for so many buckets.
    ///
    /// Refused with `Memory` where memory is.
    pub(crate) fn new(alloc: Global, many: usize) -> Result<Rooms<'d, P, B, D>, Refusal>
        ensures made { IfOk result (λ r. (many ≤ vec_capacity r.chains) × (many ≤ vec_capacity r.noted) × (many ≤ vec_capacity r.back) × (many ≤ vec_capacity r.places)) }
        ensures refused { IfErr result (λ e. e ≡ Memory) }
    {
        Ok(Rooms {
            chains: room(alloc, many)?,
            noted: room(alloc, many)?,
            back: room(alloc, many)?,
            places: room(alloc, many)?,
            array: empty_lock(alloc)?,
        })
    }
}

/// The writer of a chain that has none, is empty and has no note: in the log of which the caller hears last.
///
/// Refused with `BadConfig` exactly where it is not. The caller hears of what was seen.
pub(crate) fn hold_empty<'d, P: GracePlan + Drop, B: Site, D: Deleter, W: Caller<B>>(
    domain: &'d Domain<P, Tabled, B, D>,
    caller: &mut W,
    chain: usize,
) -> Result<Chain<'d, P, Tabled, B, D>, Refusal>
    requires { chain < B.sizes.chains }
    ensures held { IfOk result (λ c. (c.number ≡ chain) × IsEmpty c.seat.me.0 × IsAlone c.seat.me.0 × IsLiveRun P.QSBR tabled c.seat.me.0.seen) }
    ensures refused { IfErr result (λ e. (e ≡ BadConfig) × FindsTaken W.Caller P.QSBR tabled caller.old caller.new B.sizes (λ c. c ≡ chain)) }
    ensures unused { IfOk result (λ _. IsUnused chain (W.heard caller.new)) }
    ensures heard { IsAfter P.QSBR tabled (W.seen caller.old) (W.heard caller.old) (W.heard caller.new) }
    ensures same { (l : Looked W.Caller B.sizes [] [] caller.old caller.new) × IfOk result (λ _. l.found ≡ Stored (hold_at B.sizes chain) 1 ∷ Loaded (hold_at B.sizes chain) 0 ∷ []) }
{
    let mut writer = match domain.chain(caller, chain) {
        Ok(writer) => writer,
        Err(_) => return Err(Refusal::BadConfig),
    };
    writer.hear(caller);
    if writer.note() != 0 || writer.len() != 0 {
        return Err(Refusal::BadConfig);
    }
    Ok(writer)
}

/// A value behind the others, if there is room for it; else it is let go.
fn keep<T: Drop>(values: &mut Vec<T>, value: T)
    ensures kept { vec_len values.old < vec_capacity values.old → values.new.items ≡ values.old.items ++ value ∷ [] }
    ensures same { vec_capacity values.new ≡ vec_capacity values.old }
{
    if values.len() < values.capacity() {
        values.push_reserved(value);
    }
}

/// The writers of chains that follow one another and have none, are empty and have no note. Those for which there is no
/// room are given back at once.
///
/// Refused with `BadConfig` where one is not; then all are given back. The caller hears of what was seen.
pub(crate) fn hold_all<'d, P: GracePlan + Drop, B: Site, D: Deleter, W: Caller<B>>(
    domain: &'d Domain<P, Tabled, B, D>,
    caller: &mut W,
    mut chains: Vec<Chain<'d, P, Tabled, B, D>>,
    first: usize,
    many: usize,
) -> Result<Vec<Chain<'d, P, Tabled, B, D>>, Refusal>
    requires range { first + many ≤ B.sizes.chains }
    requires none { chains.items ≡ [] }
    ensures held { IfOk result (λ cs. many ≤ vec_capacity chains.entry → (vec_len cs ≡ many) × AreFrom first (map (λ c. c.seat.me.0) cs.items) × Each IsEmpty (map (λ c. c.seat.me.0) cs.items) × Each IsAlone (map (λ c. c.seat.me.0) cs.items)) }
    ensures refused { IfErr result (λ e. (e ≡ BadConfig) × FindsTaken W.Caller P.QSBR tabled caller.old caller.new B.sizes (IsAmong first many)) }
    ensures free { IfOk result (λ _. FindsFree W.Caller P.QSBR tabled caller.old caller.new (IsAmong first many)) }
    ensures same { Looked W.Caller B.sizes [] [] caller.old caller.new }
{
    for number in 0..many {
        keep(&mut chains, hold_empty(domain, caller, first + number)?);
    }
    Ok(chains)
}

/// As `hold_all`, with the writer of a directory's chain before them.
pub(crate) fn hold_table<'d, P: GracePlan + Drop, B: Site, D: Deleter, W: Caller<B>>(
    domain: &'d Domain<P, Tabled, B, D>,
    caller: &mut W,
    chains: Vec<Chain<'d, P, Tabled, B, D>>,
    directory: usize,
    first: usize,
    many: usize,
) -> Result<(Chain<'d, P, Tabled, B, D>, Vec<Chain<'d, P, Tabled, B, D>>), Refusal>
    requires range { (directory < B.sizes.chains) × (first + many ≤ B.sizes.chains) × ((directory < first) ⊎ (first + many ≤ directory)) }
    requires none { chains.items ≡ [] }
    ensures own { IfOk result (λ r. (r.0.number ≡ directory) × IsEmpty r.0.seat.me.0 × IsAlone r.0.seat.me.0 × IsLiveRun P.QSBR tabled r.0.seat.me.0.seen) }
    ensures held { IfOk result (λ r. many ≤ vec_capacity chains.entry → (vec_len r.1 ≡ many) × AreFrom first (map (λ c. c.seat.me.0) r.1.items) × Each IsEmpty (map (λ c. c.seat.me.0) r.1.items) × Each IsAlone (map (λ c. c.seat.me.0) r.1.items)) }
    ensures refused { IfErr result (λ e. (e ≡ BadConfig) × FindsTaken W.Caller P.QSBR tabled caller.old caller.new B.sizes (λ c. (c ≡ directory) ⊎ IsAmong first many c)) }
    ensures free { IfOk result (λ _. FindsFree W.Caller P.QSBR tabled caller.old caller.new (λ c. (c ≡ directory) ⊎ IsAmong first many c)) }
    ensures same { Looked W.Caller B.sizes [] [] caller.old caller.new }
{
    let own = hold_empty(domain, caller, directory)?;
    let chains = hold_all(domain, caller, chains, first, many)?;
    Ok((own, chains))
}

/// The record of a directory, and room for what is left of writers that lend it their rights.
///
/// Refused with `Memory` or `PoolFull`.
pub(crate) fn reserve_record<'d, P: GracePlan + Drop, B: Site, D: Deleter, W: Caller<B>, R: Wait>(
    rt: &R,
    alloc: Global,
    domain: &Domain<P, Tabled, B, D>,
    caller: &mut W,
    first: usize,
    buckets: usize,
) -> Result<(Owned<B>, Vec<Lent<'d, P, Tabled, B, D>>), Refusal>
    ensures made { IfOk result (λ r. (payload_in r.0.seat.me.0.object ≡ words_by first buckets) × (r.1.items ≡ []) × (buckets ≤ vec_capacity r.1)) }
    ensures refused { IfErr result (λ e. (e ≡ Memory) ⊎ (e ≡ PoolFull)) }
    ensures same { IfOk result (λ r. Looked W.Caller B.sizes (cell_in r.0.seat.me.0.object ∷ []) [] caller.old caller.new) × IfErr result (λ e. GivesUp W.Caller B.sizes [] [] e caller.old caller.new) }
{
    let lents = room(alloc, buckets)?;
    match domain.alloc(rt, caller, [first as u64, buckets as u64, 0, 1]) {
        Ok(owned) => Ok((owned, lents)),
        Err(refusal) => {
            lents.destroy_empty();
            Err(refusal)
        }
    }
}

/// The chains of these writers, which have no note, are reserved for the object of a record, which comes back. There is
/// room for the writers. The caller hears of that.
pub(crate) fn reserve_all<'d, P: GracePlan + Drop, B: Site, D: Deleter, W: Caller<B>>(
    chains: Vec<Chain<'d, P, Tabled, B, D>>,
    mut kept: Vec<Chain<'d, P, Tabled, B, D>>,
    caller: &mut W,
    owned: Owned<B>,
) -> (Owned<B>, Vec<Chain<'d, P, Tabled, B, D>>)
    requires room { (kept.items ≡ []) × (vec_len chains ≤ vec_capacity kept) }
    requires chains { Each HasNoNote (map (λ c. c.seat.me.0) chains.items) × Each IsAlone (map (λ c. c.seat.me.0) chains.items) }
    ensures owned { result.0.seat.me.0.object ≡ owned.seat.me.0.object }
    ensures kept { (vec_len result.1 ≡ vec_len chains.entry) × KeepLists (map (λ c. c.seat.me.0) chains.entry.items) (map (λ c. c.seat.me.0) result.1.items) × Each (HasNote (reserved (object_in owned.seat.me.0.object))) (map (λ c. c.seat.me.0) result.1.items) × Each IsAlone (map (λ c. c.seat.me.0) result.1.items) }
    ensures told { (first : ℕ) → AreFrom first (map (λ c. c.seat.me.0) chains.entry.items) → NotesAll (Writes P.QSBR tabled (W.seen caller.old)) (reserved (object_in owned.seat.me.0.object)) first (vec_len chains.entry) (W.heard caller.old) (W.heard caller.new) }
    ensures heard { Begins (W.heard caller.old) (W.heard caller.new) }
    ensures same { OnlyMakesMany W.Caller caller.old caller.new (vec_len chains.entry) }
{
    let many = chains.len();
    let mut owned = owned;
    let mut rest = chains.into_iter();
    for _ in 0..many {
        let Some(mut chain) = rest.next() else {
            unreachable!()
        };
        owned = chain.reserve(caller, owned);
        kept.push_reserved(chain);
    }
    (owned, kept)
}

/// A directory of these chains, which are reserved for it: a push of its record into its own chain, for which they all
/// lend their rights. There is room for what is left of the writers then, and for them when they have their rights
/// again. The caller hears of the push.
pub(crate) fn direct<'d, P: GracePlan + Drop, B: Site, D: Deleter, W: Caller<B>>(
    mut chain: Chain<'d, P, Tabled, B, D>,
    chains: Vec<Chain<'d, P, Tabled, B, D>>,
    lents: Vec<Lent<'d, P, Tabled, B, D>>,
    back: Vec<Chain<'d, P, Tabled, B, D>>,
    caller: &mut W,
    owned: Owned<B>,
    first: usize,
) -> (Directory<'d, P, B, D>, Vec<Chain<'d, P, Tabled, B, D>>)
    requires room { (lents.items ≡ []) × (vec_len chains ≤ vec_capacity lents) × (back.items ≡ []) × (vec_len chains ≤ vec_capacity back) }
    requires own { IsEmpty chain.seat.me.0 × IsAlone chain.seat.me.0 × IsLiveRun P.QSBR tabled chain.seat.me.0.seen }
    requires range { (0 < vec_len chains) × (first + vec_len chains ≤ B.sizes.chains) × ((chain.number < first) ⊎ (first + vec_len chains ≤ chain.number)) × (chain.number + 1 < 2 ^ 63) }
    requires chains { AreKept first (reserved (object_in owned.seat.me.0.object)) (map (λ c. c.seat.me.0) chains.items) × Each HasNothing (map (λ c. c.seat.me.0) chains.items) }
    requires record { payload_in owned.seat.me.0.object ≡ words_by first (vec_len chains) }
    ensures told { W.heard caller.new ≡ result.0.chain.seat.me.0.seen }
    ensures directory { result.0.naming ≡ record { directory = chain.entry.number; object = object_in owned.seat.me.0.object; first = first; buckets = vec_len chains.entry } }
    ensures chains { (vec_len result.1 ≡ vec_len chains.entry) × Each (IsBucket result.0.naming) (map (λ c. c.seat.me.0) result.1.items) }
    ensures map { (key : ℕ) → (directed_map B.sizes.chains chain.entry.number (W.heard caller.new) key ≡ None) × LeadsTo chain.entry.number (W.heard caller.new) key (bucket_of first (vec_len chains.entry) key) }
    ensures pushed { (cell : ℕ) × Writes P.QSBR tabled (W.seen caller.old) (W.heard caller.old) (Object (Push chain.entry.number (object_in owned.seat.me.0.object) cell (words_by first (vec_len chains.entry)))) (W.heard caller.new) }
    ensures heard { IsAfter P.QSBR tabled (W.seen caller.old) (W.heard caller.old) (W.heard caller.new) }
    ensures same { OnlyMakesLast W.Caller caller.old caller.new (W.heard caller.new) }
{
    let buckets = chains.len();
    let lents = lend_all(chains, lents, &mut chain);
    let object = chain.push(caller, owned);
    let back = take_all_back(lents, back, &mut chain);
    let naming = Naming {
        directory: chain.number(),
        object,
        first,
        buckets,
    };
    (Directory { chain, naming }, back)
}

/// The buckets of a directory, each under its lock. There is room for them.
pub(crate) fn into_buckets<'d, P: GracePlan + Drop, B: Site, D: Deleter>(
    chains: Vec<Chain<'d, P, Tabled, B, D>>,
    mut buckets: Vec<Place<'d, P, B, D>>,
    naming: Naming,
) -> Vec<Place<'d, P, B, D>>
    requires room { (buckets.items ≡ []) × (vec_len chains ≤ vec_capacity buckets) }
    requires chains { Each (IsBucket naming) (map (λ c. c.seat.me.0) chains.items) }
    requires fits { (0 < naming.buckets) × (naming.first + naming.buckets ≤ B.sizes.chains) }
    ensures { vec_len result ≡ vec_len chains.entry }
{
    let many = chains.len();
    let mut rest = chains.into_iter();
    for _ in 0..many {
        let Some(chain) = rest.next() else {
            unreachable!()
        };
        buckets.push_reserved(Mutex::new(Some(Bucket { chain, naming })));
    }
    buckets
}
