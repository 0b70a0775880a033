//! A bucket of a table: a chain of keys, and which directory names it.

ghost use Rattle.std.specs.Prelude.{◌≡◌, ◌%◌, ◌+◌, ◌-◌, ◌<◌, ◌≤◌, ℕ, IfErr, IfOk};
ghost use Rattle.rcu_model.specs.declared.event.ObjectId.{ObjectId};
ghost use Rattle.live_log.specs.Log.{Begins, Log};
ghost use Rattle.live_log.specs.Tables.{tabled};
ghost use Rattle.rcu_list.specs.live_read.Hearing.{IsAfter, MakesLast, OnlyHears};
ghost use Rattle.rcu_list.specs.Maps.{map_of};
ghost use Rattle.rcu_list.specs.Calls.{HandsOver, TakesOneRecord};
ghost use Rattle.rcu_hash.specs.Directories.{LeadsTo, directed_map};
ghost use Rattle.rcu_hash.specs.Buckets.{IsBucket};
ghost use Rattle.rcu_hash.specs.Publishing.{InsertsThrough, RemovesThrough, ReplacesThrough};
ghost use Rattle.rcu_hash.specs.Refusing.{RefusesInsertionThrough, RefusesRemovalThrough, RefusesReplacementThrough};
ghost use Rattle.rcu_hash.specs.Tables.{bucket_of};

use crate::directory::Naming;
use crate::labelled::Labelled;
use gp_memb::GracePlan;
use live_log::Tabled;
use rcu_list::{Caller, Chain, Deleter, Site, Ticket, prepare_insertion, prepare_replacement};
use rcu_model::Refusal;
use std::sync::Wait;

/// A chain of keys, which its directory has in use: so its writer may change it while it has the chain alone.
#[derive(Drop)]
pub(crate) struct Bucket<'d, P: GracePlan, B: Site, D: Drop> {
    pub(crate) chain: Chain<'d, P, Tabled, B, D>,
    pub(crate) naming: Naming,
    pub(crate) ghost is: { IsBucket naming chain.seat.me.0 },
    pub(crate) ghost fits: { (0 < naming.buckets) × (naming.first + naming.buckets ≤ B.sizes.chains) },
}

/// Its directory, and its place among the buckets of that.
impl<P: GracePlan, B: Site, D: Deleter> Labelled<(Naming, usize)> for Bucket<'_, P, B, D> {
    ghost label = { λ bucket. (bucket.naming, bucket.chain.number - bucket.naming.first) };

    fn has_label(&self, wanted: (Naming, usize)) -> bool {
        self.naming.is(wanted.0) && self.chain.number() - self.naming.first == wanted.1
    }
}

impl<'d, P: GracePlan + Drop, B: Site, D: Deleter> Bucket<'d, P, B, D> {
    /// The bucket's writer sees all that the caller has seen and heard of, and the caller hears of a log in which the
    /// bucket and its directory are as their writers know them.
    fn hear<W: Caller<B>>(&mut self, caller: &mut W)
        ensures told { IsAfter P.QSBR tabled (W.seen caller.old) (W.heard caller.old) (W.heard caller.new) × Begins self.old.chain.seat.me.0.seen (W.heard caller.new) × (W.heard caller.new ≡ self.new.chain.seat.me.0.seen) }
        ensures map { (key : ℕ) → directed_map B.sizes.chains self.old.naming.directory (W.heard caller.new) key ≡ map_of (W.heard caller.new) (bucket_of self.old.naming.first self.old.naming.buckets key) key }
        ensures leads { (key : ℕ) → LeadsTo self.old.naming.directory (W.heard caller.new) key (bucket_of self.old.naming.first self.old.naming.buckets key) }
        ensures same { OnlyHears W.Caller caller.old caller.new × (self.new.naming ≡ self.old.naming) × (self.new.chain.number ≡ self.old.chain.number) }
    {
        self.chain.hear(caller);
    }

    /// As `RcuHash::insert`, of a key that the directory leads to this bucket.
    pub(crate) fn insert<W: Caller<B>, R: Wait>(
        &mut self,
        rt: &R,
        caller: &mut W,
        key: u64,
        value: u64,
    ) -> Result<(), Refusal>
        requires key { bucket_of self.old.naming.first self.old.naming.buckets key ≡ self.old.chain.number }
        ensures inserted { IfOk result (λ _. InsertsThrough P.QSBR tabled B.sizes.chains self.old.naming.directory (W.seen caller.old) (W.heard caller.old) key value self.old.chain.number (W.heard caller.new)) }
        ensures changes { IfOk result (λ _. MakesLast W.Caller caller.old caller.new (W.heard caller.new)) }
        ensures heard { IfOk result (λ _. TakesOneRecord W.Caller caller.old caller.new B.sizes) }
        ensures refused { IfErr result (λ e. RefusesInsertionThrough W.Caller P.QSBR tabled B.sizes caller.old caller.new e self.old.naming.directory key) }
        ensures same { (self.new.naming ≡ self.old.naming) × (self.new.chain.number ≡ self.old.chain.number) }
    {
        self.hear(caller);
        let owned = prepare_insertion(rt, &mut self.chain, caller, key, value)?;
        self.chain.push(caller, owned);
        Ok(())
    }

    /// As `RcuHash::replace`, of a key that the directory leads to this bucket.
    pub(crate) fn replace<W: Caller<B>, R: Wait>(
        &mut self,
        rt: &R,
        caller: &mut W,
        key: u64,
        value: u64,
        callback: D,
    ) -> Result<Ticket, (Refusal, D)>
        requires key { bucket_of self.old.naming.first self.old.naming.buckets key ≡ self.old.chain.number }
        ensures replaced { IfOk result (λ t. (left : ObjectId) × (published : Log) × ReplacesThrough P.QSBR tabled B.sizes.chains self.old.naming.directory (W.seen caller.old) (W.heard caller.old) key value self.old.chain.number left published × HandsOver P.QSBR tabled left (self.old.chain.number % B.sizes.queues) t.0 (D.row.coded.code callback) published (W.heard caller.new) × MakesLast W.Caller caller.old caller.new published) }
        ensures heard { IfOk result (λ _. TakesOneRecord W.Caller caller.old caller.new B.sizes) }
        ensures refused { IfErr result (λ e. RefusesReplacementThrough W.Caller P.QSBR tabled B.sizes caller.old caller.new e.0 self.old.naming.directory key) }
        ensures back { IfErr result (λ e. e.1 ≡ callback) }
        ensures same { (self.new.naming ≡ self.old.naming) × (self.new.chain.number ≡ self.old.chain.number) }
    {
        self.hear(caller);
        let (index, owned) = match prepare_replacement(rt, &mut self.chain, caller, key, value) {
            Ok(ready) => ready,
            Err(refusal) => return Err((refusal, callback)),
        };
        let domain = self.chain.domain();
        let answer = domain.replace_retire(rt, caller, &mut self.chain, index, owned, callback);
        match answer {
            Ok(ticket) => Ok(ticket),
            Err((refusal, owned, callback)) => {
                domain.discard(caller, owned);
                Err((refusal, callback))
            }
        }
    }

    /// As `RcuHash::remove`, of a key that the directory leads to this bucket.
    pub(crate) fn remove<W: Caller<B>, R: Wait>(
        &mut self,
        rt: &R,
        caller: &mut W,
        key: u64,
        callback: D,
    ) -> Result<Ticket, (Refusal, D)>
        requires key { bucket_of self.old.naming.first self.old.naming.buckets key ≡ self.old.chain.number }
        ensures removed { IfOk result (λ t. (left : ObjectId) × (published : Log) × RemovesThrough P.QSBR tabled B.sizes.chains self.old.naming.directory (W.seen caller.old) (W.heard caller.old) key self.old.chain.number left published × HandsOver P.QSBR tabled left (self.old.chain.number % B.sizes.queues) t.0 (D.row.coded.code callback) published (W.heard caller.new) × MakesLast W.Caller caller.old caller.new published) }
        ensures heard { IfOk result (λ _. (W.looks caller.new ≡ W.looks caller.old) × (W.loads caller.new ≡ W.loads caller.old)) }
        ensures refused { IfErr result (λ e. RefusesRemovalThrough W.Caller P.QSBR tabled B.sizes caller.old caller.new e.0 self.old.naming.directory key) }
        ensures back { IfErr result (λ e. e.1 ≡ callback) }
        ensures same { (self.new.naming ≡ self.old.naming) × (self.new.chain.number ≡ self.old.chain.number) }
    {
        self.hear(caller);
        let Some(index) = self.chain.index_of(key) else {
            return Err((Refusal::Missing, callback));
        };
        let domain = self.chain.domain();
        let answer = domain.cut_retire(rt, caller, &mut self.chain, index, callback);
        answer
    }
}
