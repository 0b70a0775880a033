//! How a table grows while it is read.

ghost use Rattle.std.specs.Prelude.{◌≡◌, ◌⊎◌, ◌+◌, ◌<◌, ◌≤◌, ◌^◌, ◌++◌, [], ℕ, List, IfErr, IfOk, map, vec_capacity, vec_len};
ghost use Rattle.live_log.specs.Log.{Begins, Log, record_of};
ghost use Rattle.live_log.specs.Tables.{tabled};
ghost use Rattle.rcu_list.specs.live_rule.Rights.{payload_in};
ghost use Rattle.rcu_list.specs.live_read.Hearing.{OnlyMakesMany, Stays};
ghost use Rattle.rcu_hash.specs.Copies.{AreApart, AreRanked, value_among, value_in_bucket};
ghost use Rattle.rcu_hash.specs.Directories.{buckets_in};
ghost use Rattle.rcu_hash.specs.Freeing.{KeepsRecords};
ghost use Rattle.rcu_hash.specs.Growing.{Grows, NotesAll};
ghost use Rattle.rcu_hash.specs.Leaving.{Writes};
ghost use Rattle.rcu_hash.specs.Naming.{words_by};
ghost use Rattle.rcu_hash.specs.Refusing.{During, FindsFree};
ghost use Rattle.rcu_hash.specs.Tables.{IsAmong, are_apart};
ghost use Rattle.rcu_hash.specs.Tidying.{IsLinked, IsTidied};
ghost use Rattle.rcu_hash.specs.Writers.{AreFrom, Each, HasNote, IsAlone, IsEmpty, KeepLists};
ghost use Rattle.rcu_hash.specs.Calls.{IsGrown, IsNotGrown};

use crate::bucket::Bucket;
use crate::bucket_array::BucketArray;
use crate::copying::fill;
use crate::directory::{DirectoryLock, Naming};
use crate::exchange::{Lenders, exchange};
use crate::growth::Growth;
use crate::labelled::take;
use crate::making::{into_buckets, reserve_all};
use crate::old_table::OldTable;
use crate::table::{RcuHash, fits};
use crossbeam_utils::sync::ShardedLockWriteGuard;
use gp_memb::GracePlan;
use live_log::Tabled;
use rcu_list::{Caller, Chain, Deleter, Handle, Site};
use rcu_model::Refusal;
use std::alloc::Global;
use std::sync::Wait;

/// Whether these chains, this many from the first one on, are none of those that the directory names.
fn are_apart(naming: Naming, first: usize, buckets: usize) -> bool
    requires { (first + buckets < 2 ^ 64) × (naming.first + naming.buckets < 2 ^ 64) }
    ensures { result ≡ are_apart naming.first naming.buckets first buckets }
{
    naming.first + naming.buckets <= first || first + buckets <= naming.first
}

/// The writers of the buckets' chains, which the directory leaves: each gets the table's note. There is room for them.
/// The caller hears of that.
fn leave_all<'d, P: GracePlan + Drop, B: Site, D: Deleter, W: Caller<B>>(
    taken: Vec<Bucket<'d, P, B, D>>,
    mut chains: Vec<Chain<'d, P, Tabled, B, D>>,
    caller: &mut W,
    naming: Naming,
) -> Vec<Chain<'d, P, Tabled, B, D>>
    requires room { (chains.items ≡ []) × (vec_len taken ≤ vec_capacity chains) }
    requires taken { Each (λ b. b.naming ≡ naming) taken.items }
    requires low { naming.directory + 1 < 2 ^ 63 }
    ensures left { (vec_len result ≡ vec_len taken.entry) × KeepLists (map (λ b. b.chain.seat.me.0) taken.entry.items) (map (λ c. c.seat.me.0) result.items) × Each (HasNote (naming.directory + 1)) (map (λ c. c.seat.me.0) result.items) × Each IsAlone (map (λ c. c.seat.me.0) result.items) }
    ensures told { (first : ℕ) → AreFrom first (map (λ b. b.chain.seat.me.0) taken.entry.items) → NotesAll (Writes P.QSBR tabled (W.seen caller.old)) (naming.directory + 1) first (vec_len taken.entry) (W.heard caller.old) (W.heard caller.new) }
    ensures heard { Begins (W.heard caller.old) (W.heard caller.new) }
    ensures same { OnlyMakesMany W.Caller caller.old caller.new (vec_len taken.entry) }
{
    let many = taken.len();
    let mut rest = taken.into_iter();
    for _ in 0..many {
        let Some(bucket) = rest.next() else {
            unreachable!()
        };
        let Bucket {
            mut chain,
            naming: _,
        } = bucket;
        chain.set_note(caller, naming.directory as u64 + 1);
        chains.push_reserved(chain);
    }
    chains
}

/// Fills the new chains, puts another directory in the place of the array's, and puts the new buckets into the array.
/// Nothing was left of earlier ones. Answers what the old directory left. The caller hears of that.
fn commit<'d, P: GracePlan + Drop, B: Site, D: Deleter, W: Caller<B>, R: Wait>(
    rt: &R,
    lock: &DirectoryLock<'d, P, B, D>,
    array: &mut BucketArray<'d, P, B, D>,
    caller: &mut W,
    growth: Growth<'d, P, B, D>,
    mut handle: Handle<B>,
    first: usize,
) -> OldTable<'d, P, B, D>
    requires tidied { (start : Log) × Begins start (W.heard caller.old) × IsLinked array.old.naming.directory array.old.naming.object start × IsTidied array.old.naming.directory start }
    requires reserved { (array.old.naming.buckets ≤ vec_capacity growth.reserved.olds) × (array.old.naming.buckets ≤ vec_capacity growth.reserved.returned) × (vec_len growth.chains ≤ vec_capacity growth.reserved.noted) × (vec_len growth.chains ≤ vec_capacity growth.reserved.named) × (vec_len growth.chains ≤ vec_capacity growth.reserved.places) }
    requires taken { (vec_len growth.taken ≡ array.old.naming.buckets) × AreFrom array.old.naming.first (map (λ b. b.chain.seat.me.0) growth.taken.items) × Each (λ b. b.naming ≡ array.old.naming) growth.taken.items }
    requires copied { ((key : ℕ) → value_among (map (λ c. (c.key, c.value)) growth.copied.items) key ≡ value_in_bucket array.old.naming.buckets (map (λ b. b.chain.seat.me.0) growth.taken.items) key) × AreApart (map (λ c. (c.key, c.value)) growth.copied.items) × AreRanked 0 (map (λ c. c.rank) growth.copied.items) }
    requires chains { (0 < vec_len growth.chains) × (first + vec_len growth.chains ≤ B.sizes.chains) × AreFrom first (map (λ c. c.seat.me.0) growth.chains.items) × Each IsEmpty (map (λ c. c.seat.me.0) growth.chains.items) × Each IsAlone (map (λ c. c.seat.me.0) growth.chains.items) }
    requires record { (payload_in growth.owned.seat.me.0.object ≡ words_by first (vec_len growth.chains)) × (growth.old_lents.items ≡ []) × (array.old.naming.buckets ≤ vec_capacity growth.old_lents) × (growth.new_lents.items ≡ []) × (vec_len growth.chains ≤ vec_capacity growth.new_lents) }
    requires apart { ((array.old.naming.directory < first) ⊎ (first + vec_len growth.chains ≤ array.old.naming.directory)) × ((array.old.naming.first + array.old.naming.buckets ≤ first) ⊎ (first + vec_len growth.chains ≤ array.old.naming.first)) }
    ensures grown { (g : Grows P.QSBR tabled B.sizes.chains array.old.naming.directory (W.seen caller.old) (W.heard caller.old) first (vec_len growth.entry.chains) (map (λ c. (c.key, c.value)) growth.entry.copied.items) (W.heard caller.new)) × (buckets_in (record_of g.left g.old) ≡ array.old.naming.buckets) }
    ensures left { result.naming.directory ≡ array.old.naming.directory }
    ensures same { OnlyMakesMany W.Caller caller.old caller.new (vec_len growth.entry.copied + vec_len growth.entry.chains + array.old.naming.buckets + 1) }
{
    let Growth {
        reserved,
        taken,
        copied,
        owned,
        mut chains,
        old_lents,
        new_lents,
    } = growth;
    let (mut place, mut directory) = take(rt, &lock.writer, array.naming);
    directory.hear(caller);
    fill(&mut chains, caller, copied);
    let (owned, chains) = reserve_all(chains, reserved.noted, caller, owned);
    let olds = Lenders {
        chains: leave_all(taken, reserved.olds, caller, array.naming),
        lents: old_lents,
        back: reserved.returned,
    };
    let news = Lenders {
        chains,
        lents: new_lents,
        back: reserved.named,
    };
    let (mut directory, unlinked, left, named) = exchange(
        directory, olds, news, caller, owned, first,
    );
    let naming = directory.naming;
    directory.hear(&mut handle);
    *place = Some(directory);
    *array = BucketArray {
        naming,
        buckets: into_buckets(named, reserved.places, naming),
    };
    OldTable {
        naming,
        unlinked: Some(unlinked),
        chains: left,
        handle,
    }
}

impl<'d, P: GracePlan + Drop, B: Site, D: Deleter> RcuHash<'d, P, B, D> {
    /// The array of the buckets that this directory names, out of its lock, to which it is to be given back.
    fn own_array<'t, R: Wait>(
        &'t self,
        rt: &R,
        naming: Naming,
    ) -> (
        ShardedLockWriteGuard<'t, Option<BucketArray<'d, P, B, D>>>,
        BucketArray<'d, P, B, D>,
    )
        ensures { result.1.naming ≡ naming }
    {
        for _ in rt.forever() {
            let mut place = self.array.write(rt);
            if let Some(array) = place.take() {
                if array.naming.is(naming) {
                    return (place, array);
                }
                *place = Some(array);
            }
        }
        unreachable!()
    }

    /// As `grow`, with what is left of earlier directories, and what is left then.
    fn grow_over<W: Caller<B>, R: Wait>(
        &self,
        rt: &R,
        alloc: Global,
        caller: &mut W,
        left: OldTable<'d, P, B, D>,
        first: usize,
        buckets: usize,
    ) -> (OldTable<'d, P, B, D>, Result<usize, Refusal>)
        requires { left.naming.directory ≡ self.now.directory }
        ensures grown { IfOk result.1 (λ left. IsGrown W.Caller P.QSBR B.sizes caller.old caller.new self.now.directory first buckets left) }
        ensures tidied { IfOk result.1 (λ _. During W.Caller P.QSBR tabled caller.old caller.new (IsTidied self.now.directory)) }
        ensures free { IfOk result.1 (λ _. FindsFree W.Caller P.QSBR tabled caller.old caller.new (IsAmong first buckets)) }
        ensures refused { IfErr result.1 (λ e. IsNotGrown W.Caller P.QSBR B.sizes caller.old caller.new self.now.directory first buckets e) }
        ensures heard { Begins (W.heard caller.old) (W.heard caller.new) }
        ensures looks { KeepsRecords W.Caller B.sizes caller.old caller.new result.1 (λ left. left) }
        ensures loads { ((logs : List Log) × (W.loads caller.new ≡ logs ++ W.loads caller.old)) × IfOk result.1 (λ _. W.loads caller.new ≡ W.loads caller.old) }
        ensures changes { IfErr result.1 (λ _. Stays W.Caller caller.old caller.new) }
    {
        if left.chains.len() != 0 {
            return (left.hear(rt, &self.lock, caller), Err(Refusal::Busy));
        }
        let left = left.tell(rt, &self.lock, caller);
        if !fits(self.domain.chains(), self.directory, first, buckets) {
            return (left, Err(Refusal::BadConfig));
        }
        let old = left.naming;
        let (mut place, mut array) = self.own_array(rt, old);
        if !are_apart(old, first, buckets) {
            *place = Some(array);
            return (left, Err(Refusal::BadConfig));
        }
        let growth = match Growth::ready(rt, alloc, self.domain, &array, caller, first, buckets) {
            Ok(growth) => growth,
            Err(refusal) => {
                *place = Some(array);
                return (left, Err(refusal));
            }
        };
        let many = growth.copied.len() + 1;
        let OldTable {
            naming: _,
            unlinked: _,
            chains: _,
            handle,
        } = left;
        let left = commit(rt, &self.lock, &mut array, caller, growth, handle, first);
        *place = Some(array);
        (left, Ok(many))
    }

    /// Another directory, which names as many chains as these, from the first one on, takes the place of this one: the
    /// table has this many buckets from then on, and the same keys with the same values. Lookups go on meanwhile, and
    /// find each key that is there; writers wait. What the old directory left, its record and a record for each key,
    /// stays until `tidy` retires it: the answer is how many these are. The caller hears of the log in which the new
    /// directory came. liburcu's `cds_lfht_resize`.
    ///
    /// Refused with `Busy` where something is left from an earlier growth, and then the caller hears of a log in which
    /// a chain that the directory does not name has the table's note. Else it hears of one in which nothing is left. Then
    /// it is refused with `BadConfig` where the number of buckets is not 1 to 4,096, or a chain is not there, is one of
    /// the table's, or had a writer, linked an object or had a note other than 0 during the call. Else it is refused with
    /// `Memory` where memory is, or with `PoolFull` where there is no record for a key or for the directory. It made no
    /// change then, and each record that it took is free again. It waits for the table's locks, and for no grace period,
    /// but tries again where another thread takes and frees a record that it found free.
    pub fn grow<W: Caller<B>, R: Wait>(
        &self,
        rt: &R,
        alloc: Global,
        caller: &mut W,
        first: usize,
        buckets: usize,
    ) -> Result<usize, Refusal>
        ensures grown { IfOk result (λ left. IsGrown W.Caller P.QSBR B.sizes caller.old caller.new self.now.directory first buckets left) }
        ensures tidied { IfOk result (λ _. During W.Caller P.QSBR tabled caller.old caller.new (IsTidied self.now.directory)) }
        ensures free { IfOk result (λ _. FindsFree W.Caller P.QSBR tabled caller.old caller.new (IsAmong first buckets)) }
        ensures refused { IfErr result (λ e. IsNotGrown W.Caller P.QSBR B.sizes caller.old caller.new self.now.directory first buckets e) }
        ensures heard { Begins (W.heard caller.old) (W.heard caller.new) }
        ensures looks { KeepsRecords W.Caller B.sizes caller.old caller.new result (λ left. left) }
        ensures loads { ((logs : List Log) × (W.loads caller.new ≡ logs ++ W.loads caller.old)) × IfOk result (λ _. W.loads caller.new ≡ W.loads caller.old) }
        ensures changes { IfErr result (λ _. Stays W.Caller caller.old caller.new) }
    {
        let (mut place, left) = take(rt, &self.left, self.directory);
        let (left, answer) = self.grow_over(rt, alloc, caller, left, first, buckets);
        *place = Some(left);
        answer
    }
}
