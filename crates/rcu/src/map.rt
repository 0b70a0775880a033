//! A map from keys to values, which grows while it is read.

ghost use Rattle.std.specs.Prelude.{◌≡◌, ◌+◌, ◌⊎◌, ◌<◌, None, Some, IfErr, IfOk};
ghost use Rattle.rcu_model.specs.declared.refusal.Refusal.TheVariants.{Closed, Memory, PoolFull};
ghost use Rattle.live_log.specs.Tables.{tabled};
ghost use Rattle.rcu_hash.specs.live_read.Hearing.{Stays};
ghost use Rattle.rcu_hash.specs.live_read.Reads.{Looks};
ghost use Rattle.live_log.specs.Log.{Begins};
ghost use Rattle.rcu_hash.specs.Calls.{IsMade, IsNotMade};
ghost use Rattle.rcu_hash.specs.Freeing.{KeepsRecords};
ghost use Rattle.rcu_hash.specs.Refusing.{RefusesRemovalThrough};
ghost use Rattle.rcu_hash.specs.Tidying.{IsTidied};
ghost use Rattle.rcu_hash.specs.Writers.{Each};
ghost use Rattle.rcu.specs.declared.reclaim.Reclaim.TheVariants.{Moved};
ghost use Rattle.rcu.specs.Keys.{GetsValue, HasWord, IsNotSet, RemovesKey, SetsKey, Walks};
ghost use Rattle.rcu.specs.Resizing.{GrewTo, IsNotResized, IsNotTidied, IsResized, OnlyMoves};

use crate::reclaim::Reclaim;
use crate::words::Word;
use gp_memb::GracePlan;
use rcu_hash::{Caller, Deleter, Domain, RcuHash, Section, Site, Tabled};
use rcu_model::Refusal;
use std::alloc::Global;
use std::marker::PhantomData;
use std::sync::Wait;

// This number of callbacks for records whose entries moved.
fn moved<F: Deleter>(alloc: Global, many: usize) -> Result<Vec<Reclaim<F>>, Refusal>
    ensures each { IfOk result (λ v. Each (λ r. r ≡ Moved) v.items) }
    ensures refused { IfErr result (λ e. e ≡ Memory) }
{
    let mut callbacks = Vec::new(alloc);
    for _ in 0..many {
        if callbacks.push(Reclaim::Moved).is_err() {
            return Err(Refusal::Memory);
        }
    }
    Ok(callbacks)
}

/// A map from keys to values of one word, over a hash table in the domain's chains. Any number of threads read and write
/// it. `F` is called with each entry that `set` or `remove` takes out, once no section can hold that.
#[derive(Drop)]
pub struct Map<'d, P: GracePlan, B: Site, F: Drop, T: Word> {
    domain: &'d Domain<P, Tabled, B, Reclaim<F>>,
    /// The table of the values' words.
    pub(crate) table: RcuHash<'d, P, B, Reclaim<F>>,
    /// What is called with each entry that leaves it.
    pub(crate) deleter: F,
    value: PhantomData<T>,
}

impl<'d, P: GracePlan + Drop, B: Site, F: Deleter + Copy, T: Word + Copy + Drop> Map<
    'd,
    P,
    B,
    F,
    T,
> {
    /// A map with no keys: a chain for its directory, and this number of chains from the first one on. The caller hears
    /// of the log in which it begins.
    ///
    /// Refused as `RcuHash::new`: with `BadConfig` where the number of buckets is not 1 to 4,096, or one of the chains is
    /// not there, in use, or named twice, with `Memory` where memory is refused, or with `PoolFull` where no record is free.
    pub fn new<W: Caller<B>, R: Wait>(
        rt: &R,
        alloc: Global,
        domain: &'d Domain<P, Tabled, B, Reclaim<F>>,
        caller: &mut W,
        directory: usize,
        first: usize,
        buckets: usize,
        deleter: F,
    ) -> Result<Map<'d, P, B, F, T>, Refusal>
        ensures made { IfOk result (λ m. (m.table.directory ≡ directory) × (m.deleter ≡ deleter) × IsMade W.Caller P.QSBR B.sizes caller.old caller.new directory first buckets) }
        ensures later { Begins (W.heard caller.old) (W.heard caller.new) }
        ensures refused { IfErr result (λ e. IsNotMade W.Caller P.QSBR B.sizes caller.old caller.new directory first buckets e) }
        ensures looks { KeepsRecords W.Caller B.sizes caller.old caller.new result (λ _. 1) }
        ensures stays { IfErr result (λ _. Stays W.Caller caller.old caller.new) }
        ensures same { W.loads caller.new ≡ W.loads caller.old }
    {
        let table = RcuHash::new(rt, alloc, domain, caller, directory, first, buckets)?;
        Ok(Map {
            domain,
            table,
            deleter,
            value: PhantomData,
        })
    }

    /// The table of the values' words, for what a map has no call for, as a growth that waits for nobody.
    pub fn table(&self) -> &RcuHash<'d, P, B, Reclaim<F>>
        ensures { result.now ≡ self.now.table }
    {
        &self.table
    }

    /// The value of a key, or none: what the key has at some moment of the call. So a key that is there all along is
    /// found, also while its value is replaced, and while the map grows.
    pub fn get(&self, section: &mut Section<'_, P, Tabled, B>, key: u64) -> Option<T>
        ensures reader { section.new.reader.ghost_name ≡ section.old.reader.ghost_name }
        ensures looked { Looks P.QSBR tabled section.old.reader.now.core section.new.reader.now.core }
        ensures found { GetsValue T.packed B.sizes.chains self.now.table.directory section.old.reader.now.core section.new.reader.now.core key result }
    {
        match self.table.get(section, key) {
            Some(word) => Some(T::unpack(word)),
            None => None,
        }
    }

    /// Gives a key this value, whether it had one or not: one change, so that no reader misses a key that had one. An
    /// older value's record is retired. The change comes after all that the caller had seen and heard of, and the caller
    /// hears of it.
    ///
    /// Refused with `PoolFull` as `Domain::alloc`, or where the ranks of the key's bucket are used up, and with `Closed`
    /// or `Memory` as `Domain::retire`. It tries again where another thread gives the key a value, or takes it away, at
    /// the same time. It waits for the locks of the table and of the queue.
    pub fn set<W: Caller<B>, R: Wait>(
        &self,
        rt: &R,
        caller: &mut W,
        key: u64,
        value: T,
    ) -> Result<(), Refusal>
        ensures set { IfOk result (λ _. SetsKey W.Caller P.QSBR B.sizes self.now.table.directory caller.old caller.new key (T.packed value) F.row self.now.deleter) }
        ensures refused { IfErr result (λ e. (e ≡ PoolFull) ⊎ (e ≡ Closed) ⊎ (e ≡ Memory)) }
        ensures why { IfErr result (λ e. IsNotSet W.Caller P.QSBR B.sizes self.now.table.directory caller.old caller.new key e) }
    {
        let word = value.pack();
        for _ in rt.forever() {
            let callback = Reclaim::Gone(self.deleter);
            match self.table.replace(rt, caller, key, word, callback) {
                Ok(_) => return Ok(()),
                Err((Refusal::Missing, _)) => {}
                Err((refusal, _)) => return Err(refusal),
            }
            match self.table.insert(rt, caller, key, word) {
                Ok(()) => return Ok(()),
                Err(Refusal::Exists) => {}
                Err(refusal) => return Err(refusal),
            }
        }
        unreachable!()
    }

    /// Takes a key away. Its record is retired. The change comes after all that the caller had seen and heard of, and
    /// the caller hears of it.
    ///
    /// Refused with `Missing` where the key had no value at a moment of the call, and with `Closed` or `Memory` as
    /// `Domain::retire`.
    pub fn remove<W: Caller<B>, R: Wait>(
        &self,
        rt: &R,
        caller: &mut W,
        key: u64,
    ) -> Result<(), Refusal>
        ensures removed { IfOk result (λ _. RemovesKey W.Caller P.QSBR B.sizes self.now.table.directory caller.old caller.new key F.row self.now.deleter) }
        ensures same { IfOk result (λ _. (W.looks caller.new ≡ W.looks caller.old) × (W.loads caller.new ≡ W.loads caller.old)) }
        ensures refused { IfErr result (λ e. RefusesRemovalThrough W.Caller P.QSBR tabled B.sizes caller.old caller.new e self.now.table.directory key) }
    {
        match self
            .table
            .remove(rt, caller, key, Reclaim::Gone(self.deleter))
        {
            Ok(_) => Ok(()),
            Err((refusal, _)) => Err(refusal),
        }
    }

    /// Goes through the map, as `RcuHash::for_each`: a call with the key and the value of each entry that it comes to. A
    /// key that is there from the call to the return is met exactly once, also while its value is replaced or the map
    /// grows. One that never is there is not met. Each value is one that its key had meanwhile.
    ///
    /// It returns where each call does.
    pub fn for_each<V: FnMut(u64, T)>(&self, section: &mut Section<'_, P, Tabled, B>, visit: &mut V)
        requires callable { V.IsAlwaysCallable visit.old }
        ensures reader { section.new.reader.ghost_name ≡ section.old.reader.ghost_name }
        ensures looked { Looks P.QSBR tabled section.old.reader.now.core section.new.reader.now.core }
        ensures callable { V.IsAlwaysCallable visit.new }
        ensures met { Walks T.packed B.sizes.chains self.now.table.directory section.old.reader.now.core section.new.reader.now.core (λ f k v. V.step f k v tt) visit.old visit.new }
    {
        let mut unpacked = |key: u64, word: u64|
            requires callable { V.IsAlwaysCallable visit.now }
            ensures callable { V.IsAlwaysCallable visit.exit.now }
            ensures same { visit.exit.ghost_name ≡ visit.entry.ghost_name }
            ensures called { (value : T) × HasWord T.packed word value × V.step visit.entry.now key value tt visit.exit.now }
        {
            visit(key, T::unpack(word));
        };
        self.table.for_each(section, &mut unpacked);
    }

    /// Retires the records that earlier growths left, after a grace period, and gives the chains of earlier buckets back;
    /// as `RcuHash::tidy`, with as many callbacks as it needs. So a caller has no section or lock open,
    /// and is offline where its reader is of the quiescent-state flavour.
    ///
    /// Refused with `Memory` where memory is refused, with `Exhausted` where the sequence numbers are used up, and with
    /// `Closed` as `Domain::retire`. Else nothing is left, in the log of which the caller hears.
    pub fn tidy<W: Caller<B>, R: Wait>(
        &self,
        rt: &R,
        alloc: Global,
        caller: &mut W,
    ) -> Result<(), Refusal>
        ensures moves { OnlyMoves W.Caller P.QSBR B.sizes self.now.table.directory F.row caller.old caller.new }
        ensures tidied { IfOk result (λ _. IsTidied self.now.table.directory (W.heard caller.new)) }
        ensures refused { IfErr result (λ e. IsNotTidied W.Caller P.QSBR B.sizes self.now.table.directory F.row caller.old caller.new e) }
    {
        let mut many = 0;
        for _ in rt.forever() {
            let end = self.table.tidy(rt, caller, moved(alloc, many)?);
            match end.stop {
                None => return Ok(()),
                Some(refusal) if refusal != Refusal::FewJobs => return Err(refusal),
                Some(_) => many = end.left,
            }
        }
        unreachable!()
    }

    /// The map gets this number of chains from the first one on, in place of those that it has: it grows, waits for a
    /// grace period and tidies. Readers and writers go on meanwhile, and each key keeps its value. So a caller has no
    /// section or lock open.
    ///
    /// Refused as `RcuHash::grow`, but that it tidies first where an earlier growth left something; and as `tidy`, when
    /// the map may have grown.
    pub fn resize<W: Caller<B>, R: Wait>(
        &self,
        rt: &R,
        alloc: Global,
        caller: &mut W,
        first: usize,
        buckets: usize,
    ) -> Result<(), Refusal>
        ensures grown { IfOk result (λ _. GrewTo W.Caller P.QSBR B.sizes self.now.table.directory F.row caller.old caller.new first buckets) }
        ensures resized { IfOk result (λ _. IsResized W.Caller P.QSBR B.sizes self.now.table.directory F.row caller.old caller.new first buckets) }
        ensures tidied { IfOk result (λ _. IsTidied self.now.table.directory (W.heard caller.new)) }
        ensures refused { IfErr result (λ e. IsNotResized W.Caller P.QSBR B.sizes self.now.table.directory F.row caller.old caller.new first buckets e) }
    {
        for _ in rt.forever() {
            match self.table.grow(rt, alloc, caller, first, buckets) {
                Ok(_) => return self.tidy(rt, alloc, caller),
                Err(refusal) if refusal != Refusal::Busy => return Err(refusal),
                Err(_) => self.tidy(rt, alloc, caller)?,
            }
        }
        unreachable!()
    }
}
