//! What a growth makes ready before its first event.

ghost use Rattle.std.specs.Prelude.{◌≡◌, ◌⊎◌, ◌+◌, ◌≤◌, ◌∷◌, ◌++◌, [], ℕ, List, IfErr, IfOk, map, vec_capacity, vec_len};
ghost use Rattle.rcu_model.specs.declared.refusal.Refusal.TheVariants.{BadConfig, Memory, PoolFull};
ghost use Rattle.live_log.specs.Log.{Log};
ghost use Rattle.live_log.specs.Tables.{tabled};
ghost use Rattle.rcu_list.specs.live_rule.Rights.{cell_in, payload_in};
ghost use Rattle.rcu_list.specs.live_write.Searching.{AreTaken};
ghost use Rattle.rcu_hash.specs.Copies.{AreApart, AreRanked, value_among, value_in_bucket};
ghost use Rattle.rcu_hash.specs.Freeing.{GivesUp, Looked, Undoes};
ghost use Rattle.rcu_hash.specs.Naming.{words_by};
ghost use Rattle.rcu_hash.specs.Refusing.{FindsFree, FindsTaken};
ghost use Rattle.rcu_hash.specs.Tables.{IsAmong};
ghost use Rattle.rcu_hash.specs.Writers.{AreFrom, Each, IsAlone, IsEmpty};

use crate::bucket::Bucket;
use crate::bucket_array::{BucketArray, Place};
use crate::copying::{Copied, discard_all};
use crate::making::{hold_all, reserve_record, room};
use gp_memb::GracePlan;
use live_log::Tabled;
use rcu_list::{Caller, Chain, Deleter, Domain, Lent, Owned, Site};
use rcu_model::Refusal;
use std::alloc::Global;
use std::sync::Wait;

/// Vectors that are allocated before the first event of a growth, so that it cannot fail halfway.
#[derive(Drop)]
pub(crate) struct Reserved<'d, P: GracePlan, B: Site, D: Drop> {
    pub(crate) olds: Vec<Chain<'d, P, Tabled, B, D>>,
    pub(crate) returned: Vec<Chain<'d, P, Tabled, B, D>>,
    pub(crate) noted: Vec<Chain<'d, P, Tabled, B, D>>,
    pub(crate) named: Vec<Chain<'d, P, Tabled, B, D>>,
    pub(crate) places: Vec<Place<'d, P, B, D>>,
    pub(crate) ghost empty: { (olds.items ≡ []) × (returned.items ≡ []) × (noted.items ≡ []) × (named.items ≡ []) × (places.items ≡ []) },
}

impl<'d, P: GracePlan + Drop, B: Site, D: Deleter> Reserved<'d, P, B, D> {
    /// Room for this many old ones and this many new ones; for the buckets that are taken, and the writers that are held.
    ///
    /// Refused with `Memory` where memory is.
    fn new(
        alloc: Global,
        olds: usize,
        news: usize,
    ) -> Result<
        (
            Reserved<'d, P, B, D>,
            Vec<Bucket<'d, P, B, D>>,
            Vec<Chain<'d, P, Tabled, B, D>>,
        ),
        Refusal,
    >
        ensures made { IfOk result (λ r. (olds ≤ vec_capacity r.0.olds) × (olds ≤ vec_capacity r.0.returned) × (news ≤ vec_capacity r.0.noted) × (news ≤ vec_capacity r.0.named) × (news ≤ vec_capacity r.0.places)) }
        ensures room { IfOk result (λ r. (r.1.items ≡ []) × (olds ≤ vec_capacity r.1) × (r.2.items ≡ []) × (news ≤ vec_capacity r.2)) }
        ensures refused { IfErr result (λ e. e ≡ Memory) }
    {
        let reserved = Reserved {
            olds: room(alloc, olds)?,
            returned: room(alloc, olds)?,
            noted: room(alloc, news)?,
            named: room(alloc, news)?,
            places: room(alloc, news)?,
        };
        let taken = room(alloc, olds)?;
        let chains = room(alloc, news)?;
        Ok((reserved, taken, chains))
    }
}

/// What a growth needs before its first event.
pub(crate) struct Growth<'d, P: GracePlan, B: Site, D: Drop> {
    pub(crate) reserved: Reserved<'d, P, B, D>,
    /// The buckets of the table.
    pub(crate) taken: Vec<Bucket<'d, P, B, D>>,
    /// Records for their keys, and for the directory.
    pub(crate) copied: Vec<Copied<B>>,
    pub(crate) owned: Owned<B>,
    /// The writers of the new chains.
    pub(crate) chains: Vec<Chain<'d, P, Tabled, B, D>>,
    pub(crate) old_lents: Vec<Lent<'d, P, Tabled, B, D>>,
    pub(crate) new_lents: Vec<Lent<'d, P, Tabled, B, D>>,
}

/// The buckets of an array out of their locks, and records for their keys.
///
/// Refused at the first record that is, with `Memory` or `PoolFull`; what was taken and copied then is there all the
/// same.
fn copy_all<'d, P: GracePlan + Drop, B: Site, D: Deleter, W: Caller<B>, R: Wait>(
    rt: &R,
    array: &BucketArray<'d, P, B, D>,
    caller: &mut W,
    taken: &mut Vec<Bucket<'d, P, B, D>>,
    copied: &mut Vec<Copied<B>>,
) -> Result<(), Refusal>
    requires room { (taken.old.items ≡ []) × (array.now.naming.buckets ≤ vec_capacity taken.old) × (copied.old.items ≡ []) }
    ensures copied { IfOk result (λ _. ((key : ℕ) → value_among (map (λ c. (c.key, c.value)) copied.new.items) key ≡ value_in_bucket array.now.naming.buckets (map (λ b. b.chain.seat.me.0) taken.new.items) key) × AreApart (map (λ c. (c.key, c.value)) copied.new.items) × AreRanked 0 (map (λ c. c.rank) copied.new.items)) }
    ensures taken { IfOk result (λ _. (vec_len taken.new ≡ array.now.naming.buckets) × AreFrom array.now.naming.first (map (λ b. b.chain.seat.me.0) taken.new.items) × Each (λ b. b.naming ≡ array.now.naming) taken.new.items) }
    ensures many { vec_len taken.new ≤ array.now.naming.buckets }
    ensures refused { IfErr result (λ e. (e ≡ Memory) ⊎ (e ≡ PoolFull)) }
    ensures same { (l : Looked W.Caller B.sizes (map (λ c. cell_in c.owned.seat.me.0.object) copied.new.items) [] caller.old caller.new) × IfErr result (λ e. (e ≡ PoolFull) → AreTaken B.sizes l.found) }
{
    for number in 0..array.naming.buckets {
        let (_place, mut bucket) = array.take(rt, number);
        let answer = bucket.copy(rt, caller, copied, number);
        taken.push_reserved(bucket);
        answer?;
    }
    Ok(())
}

/// The buckets of an array back into their locks.
fn restock<'d, P: GracePlan + Drop, B: Site, D: Deleter, R: Wait>(
    rt: &R,
    array: &BucketArray<'d, P, B, D>,
    taken: Vec<Bucket<'d, P, B, D>>,
)
    requires { vec_len taken ≤ array.now.naming.buckets }
{
    let many = taken.len();
    let mut rest = taken.into_iter();
    for number in 0..many {
        let Some(bucket) = rest.next() else {
            unreachable!()
        };
        *array.buckets[number].lock(rt) = Some(bucket);
    }
}

/// The record of a directory, and room for what is left of writers that lend it their rights.
///
/// Refused with `Memory` or `PoolFull`.
fn reserve_directory<'d, P: GracePlan + Drop, B: Site, D: Deleter, W: Caller<B>, R: Wait>(
    rt: &R,
    alloc: Global,
    domain: &Domain<P, Tabled, B, D>,
    caller: &mut W,
    olds: usize,
    first: usize,
    buckets: usize,
) -> Result<
    (
        Owned<B>,
        Vec<Lent<'d, P, Tabled, B, D>>,
        Vec<Lent<'d, P, Tabled, B, D>>,
    ),
    Refusal,
>
    ensures made { IfOk result (λ r. (payload_in r.0.seat.me.0.object ≡ words_by first buckets) × (r.1.items ≡ []) × (olds ≤ vec_capacity r.1) × (r.2.items ≡ []) × (buckets ≤ vec_capacity r.2)) }
    ensures refused { IfErr result (λ e. (e ≡ Memory) ⊎ (e ≡ PoolFull)) }
    ensures same { IfOk result (λ r. Looked W.Caller B.sizes (cell_in r.0.seat.me.0.object ∷ []) [] caller.old caller.new) × IfErr result (λ e. GivesUp W.Caller B.sizes [] [] e caller.old caller.new) }
{
    let old_lents = room(alloc, olds)?;
    match reserve_record(rt, alloc, domain, caller, first, buckets) {
        Ok((owned, new_lents)) => Ok((owned, old_lents, new_lents)),
        Err(refusal) => {
            old_lents.destroy_empty();
            Err(refusal)
        }
    }
}

/// Takes back what was made ready for a growth that is refused. The caller hears of that.
fn undo<'d, P: GracePlan + Drop, B: Site, D: Deleter, W: Caller<B>, R: Wait>(
    rt: &R,
    domain: &Domain<P, Tabled, B, D>,
    array: &BucketArray<'d, P, B, D>,
    caller: &mut W,
    taken: Vec<Bucket<'d, P, B, D>>,
    copied: Vec<Copied<B>>,
)
    requires many { vec_len taken ≤ array.now.naming.buckets }
    ensures same { Undoes W.Caller B.sizes (map (λ c. cell_in c.owned.seat.me.0.object) copied.items) [] caller.old caller.new }
{
    restock(rt, array, taken);
    discard_all(domain, caller, copied);
}

impl<'d, P: GracePlan + Drop, B: Site, D: Deleter> Growth<'d, P, B, D> {
    /// All that a growth needs before its first event: room, the new chains, a record for each key, one for the
    /// directory.
    ///
    /// Refused with `Memory`, with `BadConfig` where a new chain has a writer, is not empty or has a note, or with
    /// `PoolFull`; then all is as it was.
    pub(crate) fn ready<W: Caller<B>, R: Wait>(
        rt: &R,
        alloc: Global,
        domain: &'d Domain<P, Tabled, B, D>,
        array: &BucketArray<'d, P, B, D>,
        caller: &mut W,
        first: usize,
        buckets: usize,
    ) -> Result<Growth<'d, P, B, D>, Refusal>
        requires range { first + buckets ≤ B.sizes.chains }
        ensures reserved { IfOk result (λ g. (array.now.naming.buckets ≤ vec_capacity g.reserved.olds) × (array.now.naming.buckets ≤ vec_capacity g.reserved.returned) × (buckets ≤ vec_capacity g.reserved.noted) × (buckets ≤ vec_capacity g.reserved.named) × (buckets ≤ vec_capacity g.reserved.places)) }
        ensures taken { IfOk result (λ g. (vec_len g.taken ≡ array.now.naming.buckets) × AreFrom array.now.naming.first (map (λ b. b.chain.seat.me.0) g.taken.items) × Each (λ b. b.naming ≡ array.now.naming) g.taken.items) }
        ensures copied { IfOk result (λ g. ((key : ℕ) → value_among (map (λ c. (c.key, c.value)) g.copied.items) key ≡ value_in_bucket array.now.naming.buckets (map (λ b. b.chain.seat.me.0) g.taken.items) key) × AreApart (map (λ c. (c.key, c.value)) g.copied.items) × AreRanked 0 (map (λ c. c.rank) g.copied.items)) }
        ensures chains { IfOk result (λ g. (vec_len g.chains ≡ buckets) × AreFrom first (map (λ c. c.seat.me.0) g.chains.items) × Each IsEmpty (map (λ c. c.seat.me.0) g.chains.items) × Each IsAlone (map (λ c. c.seat.me.0) g.chains.items)) }
        ensures record { IfOk result (λ g. (payload_in g.owned.seat.me.0.object ≡ words_by first buckets) × (g.old_lents.items ≡ []) × (array.now.naming.buckets ≤ vec_capacity g.old_lents) × (g.new_lents.items ≡ []) × (buckets ≤ vec_capacity g.new_lents)) }
        ensures refused { IfErr result (λ e. ((e ≡ BadConfig) × FindsTaken W.Caller P.QSBR tabled caller.old caller.new B.sizes (IsAmong first buckets)) ⊎ (FindsFree W.Caller P.QSBR tabled caller.old caller.new (IsAmong first buckets) × ((e ≡ Memory) ⊎ (e ≡ PoolFull)))) }
        ensures free { IfOk result (λ _. FindsFree W.Caller P.QSBR tabled caller.old caller.new (IsAmong first buckets)) }
        ensures same { IfOk result (λ g. Looked W.Caller B.sizes (cell_in g.owned.seat.me.0.object ∷ map (λ c. cell_in c.owned.seat.me.0.object) g.copied.items) [] caller.old caller.new) × IfErr result (λ e. (logs : List Log) × GivesUp W.Caller B.sizes [] logs e caller.old caller.new) }
    {
        let olds = array.naming.buckets;
        let (reserved, mut taken, chains) = match Reserved::new(alloc, olds, buckets) {
            Ok(rooms) => rooms,
            Err(refusal) => {
                hold_all(domain, caller, Vec::new(alloc), first, buckets)?;
                return Err(refusal);
            }
        };
        let chains = hold_all(domain, caller, chains, first, buckets)?;
        let mut copied = Vec::new(alloc);
        if let Err(refusal) = copy_all(rt, array, caller, &mut taken, &mut copied) {
            undo(rt, domain, array, caller, taken, copied);
            return Err(refusal);
        }
        match reserve_directory(rt, alloc, domain, caller, olds, first, buckets) {
            Ok((owned, old_lents, new_lents)) => Ok(Growth {
                reserved,
                taken,
                copied,
                owned,
                chains,
                old_lents,
                new_lents,
            }),
            Err(refusal) => {
                undo(rt, domain, array, caller, taken, copied);
                Err(refusal)
            }
        }
    }
}
