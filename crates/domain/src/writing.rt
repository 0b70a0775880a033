//! What a program calls to make records and to write chains.

ghost use Rattle.std.specs.Prelude.{◌≡◌, ◌<◌, ◌∷◌, ◌++◌, [], List, IfErr, IfOk};
ghost use Rattle.rcu_model.specs.declared.refusal.Refusal.TheVariants.{PoolFull};
ghost use Rattle.live_log.specs.Log.{Begins, IsLiveRun};
ghost use Rattle.live_words.specs.live_rule.declared.view.Look.{Look};
ghost use Rattle.live_words.specs.live_rule.declared.view.Look.TheVariants.{Stored};
ghost use Rattle.live_words.specs.live_rule.Places.{cell_at};
ghost use Rattle.live_words.specs.live_rule.Seats.{lent_chains};
ghost use Rattle.live_words.specs.live_rule.Rights.{cell_in, object_in, payload_in};
ghost use Rattle.live_words.specs.live_rule.Steps.{Keeps};
ghost use Rattle.live_read.specs.Hearing.{IsAfter, OnlyHears, Stays};
ghost use Rattle.live_write.specs.Calls.{IsHad, IsNotHad, IsUnretired, KeepsRight, LoadsHeader, LoadsSeqBefore};
ghost use Rattle.live_write.specs.Searching.{GetsNoRecord, TakesFor, freed_look};

use crate::domain::Domain;
use callback_queue::Callback;
use gp_memb::GracePlan;
use live_callbacks::Deleter;
use live_read::{Caller, Site};
use live_words::ChainRule;
use live_write::{Owned, Unlinked};
use rcu_model::{ObjectId, Refusal};
use std::sync::Wait;

/// The one writer of a chain of a domain.
pub type Chain<'d, P, K, B, D = Callback> = live_write::Chain<'d, P, K, B, Domain<P, K, B, D>>;

/// What is left of a chain's writer while another one has its right.
pub type Lent<'d, P, K, B, D = Callback> = live_write::Lent<'d, P, K, B, Domain<P, K, B, D>>;

impl<P: GracePlan + Drop, K: ChainRule, B: Site, D: Deleter> Domain<P, K, B, D> {
    /// A record with these four words, which no chain links yet. The caller hears of what was seen at that. `looks`
    /// tells the words that it found and stored: it takes one record, and the object has the record's next number.
    ///
    /// Refused with `PoolFull` only where it found each record in use, or with no number below 2^62 left for another
    /// object. Then it stored nothing. It waits for nobody, but tries again where another thread takes and frees a record
    /// that it found free.
    pub fn alloc<W: Caller<B>, R: Wait>(
        &self,
        rt: &R,
        caller: &mut W,
        words: [u64; 4],
    ) -> Result<Owned<B>, Refusal>
        ensures owned { IfOk result (λ o. (payload_in o.seat.me.0.object ≡ words) × (o.seat.me.0.seen ≡ W.heard caller.new)) }
        ensures looks { (found : List Look) × (W.looks caller.new ≡ found ++ W.looks caller.old) × IfErr result (λ e. (e ≡ PoolFull) × GetsNoRecord B.sizes found) }
        ensures took { IfOk result (λ o. TakesFor W.Caller B.sizes caller.old caller.new o.seat.me.0.object) }
        ensures heard { IsAfter P.QSBR K.allows (W.seen caller.old) (W.heard caller.old) (W.heard caller.new) }
        ensures same { Stays W.Caller caller.old caller.new × (W.loads caller.new ≡ W.loads caller.old) }
    {
        live_write::alloc(rt, &self.table, caller, words)
    }

    /// Frees a record that no chain has linked. Its object's number is given to no other. The caller hears of what was
    /// seen at the allocation; `looks` tells the store.
    pub fn discard<W: Caller<B>>(&self, caller: &mut W, owned: Owned<B>)
        ensures freed { W.looks caller.new ≡ freed_look B.sizes owned.seat.me.0.object ∷ W.looks caller.old }
        ensures heard { IsAfter P.QSBR K.allows (W.seen caller.old) (W.heard caller.old) (W.heard caller.new) × Begins owned.seat.me.0.seen (W.heard caller.new) }
        ensures loads { LoadsSeqBefore W.Caller P.QSBR K.allows caller.old caller.new }
        ensures same { Stays W.Caller caller.old caller.new }
    {
        live_write::discard(&self.table, caller, owned);
    }

    /// The one writer of a chain, which has the right to it until it is dropped or released. The caller hears of what
    /// was seen at that.
    ///
    /// Refused with `NoPlace` exactly where there is no such chain, else with `Busy` exactly where its hold word was
    /// found to be 1, which `looks` tells.
    pub fn chain<'d, W: Caller<B>>(
        &'d self,
        caller: &mut W,
        chain: usize,
    ) -> Result<Chain<'d, P, K, B, D>, Refusal>
        ensures held { IfOk result (λ c. IsHad W.Caller B.sizes chain caller.old caller.new c.number c.seat.me.0.seen) }
        ensures domain { IfOk result (λ c. c.home.now ≡ self.now) }
        ensures run { IfOk result (λ c. IsLiveRun P.QSBR K.allows c.seat.me.0.seen × (lent_chains c.seat.me.0.chains ≡ [])) }
        ensures refused { IfErr result (λ e. IsNotHad W.Caller B.sizes chain caller.old caller.new e) }
        ensures heard { chain < B.sizes.chains → IsAfter P.QSBR K.allows (W.seen caller.old) (W.heard caller.old) (W.heard caller.new) }
        ensures same { Stays W.Caller caller.old caller.new × (W.loads caller.new ≡ W.loads caller.old) }
    {
        Chain::hold(self, &self.table, caller, chain)
    }

    /// The object of a record that was cut, by a load of the record's header, which is kept among the looks of the
    /// record's seat.
    pub fn object(&self, unlinked: &mut Unlinked<B>) -> ObjectId
        ensures object { result ≡ object_in unlinked.old.seat.me.0.object }
        ensures chain { unlinked.new.chain ≡ unlinked.old.chain }
        ensures seat { Keeps unlinked.old.seat unlinked.new.seat }
        ensures looked { LoadsHeader P.QSBR K.allows B.sizes result.0 unlinked.old.seat.me unlinked.new.seat.me }
    {
        unlinked.object(&self.table)
    }

    /// The caller hears of a log in which the object of a record that was cut is not retired, by a load of the record's
    /// first word. The log comes after all that the caller had seen and heard of.
    pub fn hear_unlinked<W: Caller<B>>(&self, caller: &mut W, unlinked: &mut Unlinked<B>)
        ensures unretired { IsUnretired (object_in unlinked.old.seat.me.0.object) (W.heard caller.new) }
        ensures heard { IsAfter P.QSBR K.allows (W.seen caller.old) (W.heard caller.old) (W.heard caller.new) }
        ensures right { KeepsRight unlinked.old.seat.me.0 unlinked.new.seat.me.0 × (unlinked.new.chain ≡ unlinked.old.chain) }
        ensures same { OnlyHears W.Caller caller.old caller.new }
    {
        unlinked.hear(&self.table, caller);
    }
}
