//! The writer of a keyed list.

ghost use Rattle.std.specs.Prelude.{◌≡◌, ◌≢◌, ◌⊎◌, ◌+◌, ◌<◌, [], IfErr, IfOk, Some};
ghost use Rattle.rcu_model.specs.Sets.{In};
ghost use Rattle.rcu_model.specs.declared.event.ObjectId.{ObjectId};
ghost use Rattle.rcu_model.specs.declared.refusal.Refusal.TheVariants.{BadConfig};
ghost use Rattle.live_log.specs.Log.{record_of};
ghost use Rattle.live_log.specs.Tables.{HasKey};
ghost use Rattle.domain.specs.live_rule.Rights.{own_in};
ghost use Rattle.domain.specs.live_read.Hearing.{OnlyHears, OnlyMakesLast};
ghost use Rattle.domain.specs.live_write.Calls.{OnlyLearns, OnlyLooks};
ghost use Rattle.domain.specs.live_write.Chains.{list_in};
ghost use Rattle.rcu_list.specs.Calls.{BecomesList, ComesBack, GoesOnFrom, IsInserted, IsRemoved, IsReplaced, KeepsMap, MakesLastAndTakes};
ghost use Rattle.rcu_list.specs.Maps.{map_of};
ghost use Rattle.rcu_list.specs.Refusing.{IsNotInserted, IsNotRemoved, IsNotReplaced};

use crate::preparing::{prepare_insertion, prepare_replacement};
use crate::rule::MapRule;
use crate::view::ListView;
use domain::{Callback, Caller, Chain, Deleter, Site, Ticket};
use gp_memb::GracePlan;
use rcu_model::Refusal;
use std::sync::Wait;

/// A map from keys to values over a chain, and its one writer; liburcu's `cds_list_head` with a key in each node. The
/// payload of a key is the key, its value, its rank, and 0. Ranks fall along the chain: a key is put in at the front,
/// above all others, and keeps its place as its value is replaced. Dropping the list gives its chain back.
#[derive(Drop)]
pub struct RcuList<'d, P: GracePlan, K: MapRule, B: Site, D: Drop = Callback> {
    /// The chain's writer.
    pub chain: Chain<'d, P, K, B, D>,
    // Its chain has no note, and its objects have keys.
    pub(crate) ghost unnoted: { (own_in chain.seat.me.0.chains).note ≡ 0 },
    pub(crate) ghost keys: { (o : ObjectId) → In (list_in chain.seat.me.0) o → HasKey (record_of chain.seat.me.0.seen o) },
}

impl<'d, P: GracePlan + Drop, K: MapRule, B: Site, D: Deleter> RcuList<'d, P, K, B, D> {
    /// A list with no keys, over a chain.
    ///
    /// Refused with `BadConfig` exactly where the chain is not empty or has a note other than 0; then it comes back.
    pub fn new(
        mut chain: Chain<'d, P, K, B, D>,
    ) -> Result<RcuList<'d, P, K, B, D>, (Refusal, Chain<'d, P, K, B, D>)>
        ensures made { IfOk result (λ l. BecomesList P.QSBR K.allows chain.entry.seat l.chain.seat chain.entry.number l.chain.number) }
        ensures refused { IfErr result (λ e. (e.0 ≡ BadConfig) × ((list_in chain.entry.seat.me.0 ≢ []) ⊎ ((own_in chain.entry.seat.me.0.chains).note ≢ 0))) }
        ensures back { IfErr result (λ e. ComesBack P.QSBR K.allows chain.entry.seat e.1.seat chain.entry.number e.1.number) }
    {
        let note = chain.note();
        if note != 0 || chain.len() != 0 {
            return Err((Refusal::BadConfig, chain));
        }
        Ok(RcuList { chain })
    }

    /// What readers look the list's keys up by.
    pub fn view(&self) -> ListView<B>
        ensures { result.chain ≡ self.now.chain.number }
    {
        ListView::over(&self.chain)
    }

    /// The writer sees all that the caller has seen and heard of, and the caller hears of what the writer has seen
    /// then. So what the writer knows of the map is known of a log that comes after all that its caller knew.
    pub fn hear<W: Caller<B>>(&mut self, caller: &mut W)
        ensures learned { OnlyLearns P.QSBR K.allows self.old.chain.seat self.new.chain.seat self.old.chain.number self.new.chain.number }
        ensures map { KeepsMap self.old.chain.seat self.new.chain.seat self.old.chain.number }
        ensures told { GoesOnFrom W.Caller caller.old caller.new P.QSBR K.allows self.old.chain.seat.me.0.seen self.new.chain.seat.me.0.seen }
        ensures heard { W.heard caller.new ≡ self.new.chain.seat.me.0.seen }
        ensures same { OnlyHears W.Caller caller.old caller.new }
    {
        self.chain.hear(caller);
    }

    /// The value of a key, or none, by the map that the writer knows. It walks from the head.
    pub fn value(&mut self, key: u64) -> Option<u64>
        ensures map { result ≡ map_of self.old.chain.seat.me.0.seen self.old.chain.number key }
        ensures looked { OnlyLooks P.QSBR K.allows self.old.chain.seat self.new.chain.seat self.old.chain.number self.new.chain.number }
    {
        let Some(index) = self.chain.index_of(key) else {
            return None;
        };
        let Some(words) = self.chain.get(index) else {
            unreachable!()
        };
        Some(words[1])
    }

    /// Gives a key a value that had none: one push at the front, liburcu's `cds_list_add_rcu`. It comes after all that
    /// the caller had seen and heard of, and the caller hears of it.
    ///
    /// Refused with `Exists` exactly where the key has a value, else with `PoolFull` where the ranks are used up, or as
    /// `alloc`. Then the map is as it was, and the caller hears of it as `hear` tells. It waits for nobody, but tries
    /// again where another thread takes and frees a record that it found free.
    pub fn insert<W: Caller<B>, R: Wait>(
        &mut self,
        rt: &R,
        caller: &mut W,
        key: u64,
        value: u64,
    ) -> Result<(), Refusal>
        ensures inserted { IfOk result (λ _. IsInserted W.Caller P.QSBR K.allows B.sizes caller.old caller.new self.old.chain self.new.chain key value) }
        ensures same { IfOk result (λ _. (self.new.chain.number ≡ self.old.chain.number) × MakesLastAndTakes W.Caller caller.old caller.new B.sizes self.new.chain.seat.me.0.seen) }
        ensures refused { IfErr result (λ e. IsNotInserted W.Caller P.QSBR K.allows B.sizes caller.old caller.new e self.old.chain.number key) }
        ensures kept { IfErr result (λ _. OnlyLearns P.QSBR K.allows self.old.chain.seat self.new.chain.seat self.old.chain.number self.new.chain.number) }
        ensures heard { IfErr result (λ _. W.heard caller.new ≡ self.new.chain.seat.me.0.seen) }
        ensures map { IfErr result (λ _. KeepsMap self.old.chain.seat self.new.chain.seat self.old.chain.number) }
    {
        match prepare_insertion(rt, &mut self.chain, caller, key, value) {
            Ok(owned) => {
                self.chain.push(caller, owned);
                Ok(())
            }
            Err(refusal) => {
                self.hear(caller);
                Err(refusal)
            }
        }
    }

    /// Gives a key that has a value this one: one replacement in its place, liburcu's `cds_list_replace_rcu`, so that
    /// no reader misses the key. The old record is retired with the callback, `call_rcu`. Both come after all that the
    /// caller had seen and heard of, and the caller hears of them.
    ///
    /// Refused with `Missing` exactly where the key has no value, else as `alloc`, else as `retire`. Then the map is as
    /// it was, the callback comes back, and the new record is back in the pool. The caller hears of the map as `hear`
    /// tells. It waits for the queue's lock alone, and tries again where another thread takes and frees a record that it
    /// found free.
    pub fn replace<W: Caller<B>, R: Wait>(
        &mut self,
        rt: &R,
        caller: &mut W,
        key: u64,
        value: u64,
        callback: D,
    ) -> Result<Ticket, (Refusal, D)>
        ensures replaced { IfOk result (λ t. IsReplaced W.Caller P.QSBR K.allows B.sizes caller.old caller.new self.old.chain self.new.chain key value t (D.row.coded.code callback)) }
        ensures same { IfOk result (λ _. (self.new.chain.number ≡ self.old.chain.number) × MakesLastAndTakes W.Caller caller.old caller.new B.sizes self.new.chain.seat.me.0.seen) }
        ensures refused { IfErr result (λ e. (e.1 ≡ callback) × IsNotReplaced W.Caller P.QSBR K.allows B.sizes caller.old caller.new e.0 self.old.chain.number key) }
        ensures kept { IfErr result (λ _. OnlyLearns P.QSBR K.allows self.old.chain.seat self.new.chain.seat self.old.chain.number self.new.chain.number) }
        ensures heard { IfErr result (λ _. W.heard caller.new ≡ self.new.chain.seat.me.0.seen) }
        ensures map { IfErr result (λ _. KeepsMap self.old.chain.seat self.new.chain.seat self.old.chain.number) }
    {
        let (index, owned) = match prepare_replacement(rt, &mut self.chain, caller, key, value) {
            Ok(ready) => ready,
            Err(refusal) => {
                self.hear(caller);
                return Err((refusal, callback));
            }
        };
        let domain = self.chain.domain();
        match domain.replace_retire(rt, caller, &mut self.chain, index, owned, callback) {
            Ok(ticket) => Ok(ticket),
            Err((refusal, owned, callback)) => {
                domain.discard(caller, owned);
                self.hear(caller);
                Err((refusal, callback))
            }
        }
    }

    /// Takes a key that has a value out of the map: one cut, liburcu's `cds_list_del_rcu`. Its record is retired with
    /// the callback, `call_rcu`. Both come after all that the caller had seen and heard of, and the caller hears of
    /// them.
    ///
    /// Refused with `Missing` exactly where the key has no value, else as `retire`. Then the map is as it was, the
    /// callback comes back, and the caller hears of the map as `hear` tells. It waits for the queue's lock alone.
    pub fn remove<W: Caller<B>, R: Wait>(
        &mut self,
        rt: &R,
        caller: &mut W,
        key: u64,
        callback: D,
    ) -> Result<Ticket, (Refusal, D)>
        ensures removed { IfOk result (λ t. IsRemoved W.Caller P.QSBR K.allows B.sizes caller.old caller.new self.old.chain self.new.chain key t (D.row.coded.code callback)) }
        ensures same { IfOk result (λ _. (self.new.chain.number ≡ self.old.chain.number) × OnlyMakesLast W.Caller caller.old caller.new self.new.chain.seat.me.0.seen) }
        ensures refused { IfErr result (λ e. (e.1 ≡ callback) × IsNotRemoved W.Caller P.QSBR K.allows B.sizes caller.old caller.new e.0 self.old.chain.number key) }
        ensures kept { IfErr result (λ _. OnlyLearns P.QSBR K.allows self.old.chain.seat self.new.chain.seat self.old.chain.number self.new.chain.number) }
        ensures heard { IfErr result (λ _. W.heard caller.new ≡ self.new.chain.seat.me.0.seen) }
        ensures map { IfErr result (λ _. KeepsMap self.old.chain.seat self.new.chain.seat self.old.chain.number) }
    {
        let Some(index) = self.chain.index_of(key) else {
            self.hear(caller);
            return Err((Refusal::Missing, callback));
        };
        let domain = self.chain.domain();
        match domain.cut_retire(rt, caller, &mut self.chain, index, callback) {
            Ok(retired) => Ok(retired),
            Err(refused) => {
                self.hear(caller);
                Err(refused)
            }
        }
    }
}
