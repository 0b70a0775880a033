//! One value that is replaced as a whole.

ghost use Rattle.std.specs.Prelude.{◌≡◌, ◌⊎◌, ◌<◌, ◌≤◌, IfErr, IfNone, IfOk, IfSome};
ghost use Rattle.rcu_model.specs.declared.refusal.Refusal.TheVariants.{Busy, Closed, Memory, NoPlace, PoolFull};
ghost use Rattle.rcu_hash.specs.live_read.Hearing.{IsAfter, Stays};
ghost use Rattle.rcu_hash.specs.live_read.Reads.{Looks};
ghost use Rattle.rcu.specs.Slots.{FindsValue, HoldsAndTakes, IsNotPut, IsNotPutLater, PushesValue, any_change, ReplacesValueIn, TakesLater};

use crate::words::Words;
use crossbeam_utils::Backoff;
use gp_memb::GracePlan;
use rcu_hash::{AnyChain, Caller, Deleter, Domain, Section, Site, Ticket};
use rcu_model::Refusal;
use std::marker::PhantomData;
use std::sync::Wait;

/// One value that readers find at any moment, and that is replaced as a whole, as arc-swap's `ArcSwap`: over a chain of
/// the domain, whose one record has it.
#[derive(Drop)]
pub struct Slot<'d, P: GracePlan, B: Site, D: Drop, T: Words> {
    domain: &'d Domain<P, AnyChain, B, D>,
    /// The chain of its record.
    pub(crate) chain: usize,
    /// The value that it was made with.
    pub(crate) first: T,
    pub(crate) ghost low: { chain < B.sizes.chains },
}

impl<'d, P: GracePlan + Drop, B: Site, D: Deleter, T: Words + Copy + Drop> Slot<'d, P, B, D, T> {
    /// A slot over a chain of the domain. Readers find this value until another is put in its place; so it has no
    /// record, and none is retired for it. Threads may each make the slot anew, with the same value.
    ///
    /// Refused with `NoPlace` exactly where there is no such chain.
    pub fn new(
        domain: &'d Domain<P, AnyChain, B, D>,
        chain: usize,
        value: T,
    ) -> Result<Slot<'d, P, B, D, T>, Refusal>
        ensures made { IfOk result (λ s. (s.chain ≡ chain) × (s.first ≡ value) × (chain < B.sizes.chains)) }
        ensures refused { IfErr result (λ e. (e ≡ NoPlace) × (B.sizes.chains ≤ chain)) }
    {
        if chain >= domain.chains() {
            return Err(Refusal::NoPlace);
        }
        Ok(Slot {
            domain,
            chain,
            first: value,
        })
    }

    /// The value. It is what the slot has at some moment of the call, after all that the reader had seen and heard of;
    /// so no older one is found after a newer one.
    pub fn read(&self, section: &mut Section<'_, P, AnyChain, B>) -> T
        ensures reader { section.new.reader.ghost_name ≡ section.old.reader.ghost_name }
        ensures looked { Looks P.QSBR any_change section.old.reader.now.core section.new.reader.now.core }
        ensures found { FindsValue P.QSBR T.packed self.now.chain self.now.first section.old.reader.now.core section.new.reader.now.core result }
    {
        match section.first(self.chain) {
            Ok(Some(held)) => T::unpack(section.read(held)),
            Ok(None) => self.first,
            Err(_) => unreachable!(),
        }
    }

    /// Puts another value in the place of this one, and retires the record of this one with the callback; arc-swap's
    /// `store`. Sections that found this one may go on with it. The caller hears of both. None where this one had no
    /// record, as the first one has none; then the callback is dropped.
    ///
    /// Refused with `Busy` where another thread writes the slot, with `PoolFull` as `Domain::alloc`, with `Closed` or
    /// `Memory` as `Domain::retire`; then the value is as it was, and the callback comes back. It waits for the queue's
    /// lock alone.
    pub fn try_replace<W: Caller<B>, R: Wait>(
        &self,
        rt: &R,
        caller: &mut W,
        value: T,
        callback: D,
    ) -> Result<Option<Ticket>, (Refusal, D)>
        ensures pushed { IfOk result (λ found. IfNone found (PushesValue W.Caller P.QSBR caller.old caller.new self.now.chain (T.packed value))) }
        ensures replaced { IfOk result (λ found. IfSome found (λ t. ReplacesValueIn W.Caller P.QSBR caller.old caller.new B.sizes self.now.chain (T.packed value) t.0 D.row callback)) }
        ensures took { IfOk result (λ _. HoldsAndTakes W.Caller P.QSBR caller.old caller.new B.sizes self.now.chain) }
        ensures refused { IfErr result (λ e. (e.0 ≡ Busy) ⊎ (e.0 ≡ PoolFull) ⊎ (e.0 ≡ Closed) ⊎ (e.0 ≡ Memory)) }
        ensures why { IfErr result (λ e. IsNotPut W.Caller P.QSBR caller.old caller.new B.sizes self.now.chain e.0) }
        ensures back { IfErr result (λ e. (e.1 ≡ callback) × Stays W.Caller caller.old caller.new) }
        ensures heard { IfErr result (λ _. IsAfter P.QSBR any_change (W.seen caller.old) (W.heard caller.old) (W.heard caller.new)) }
    {
        let mut writer = match self.domain.chain(caller, self.chain) {
            Ok(writer) => writer,
            Err(refusal) => return Err((refusal, callback)),
        };
        let owned = match self.domain.alloc(rt, caller, value.pack()) {
            Ok(owned) => owned,
            Err(refusal) => return Err((refusal, callback)),
        };
        if writer.len() == 0 {
            writer.push(caller, owned);
            return Ok(None);
        }
        match self
            .domain
            .replace_retire(rt, caller, &mut writer, 0, owned, callback)
        {
            Ok(ticket) => Ok(Some(ticket)),
            Err((refusal, owned, callback)) => {
                self.domain.discard(caller, owned); // else its record stays out of use
                Err((refusal, callback))
            }
        }
    }

    /// As `try_replace`, but it waits while another thread writes the slot, and while no record is free: for ever where no
    /// worker frees one, so a caller has no section or lock open, and is offline in the quiescent-state flavour.
    pub fn replace<W: Caller<B>, R: Wait>(
        &self,
        rt: &R,
        caller: &mut W,
        value: T,
        callback: D,
    ) -> Result<Option<Ticket>, (Refusal, D)>
        ensures pushed { IfOk result (λ found. IfNone found (PushesValue W.Caller P.QSBR caller.old caller.new self.now.chain (T.packed value))) }
        ensures replaced { IfOk result (λ found. IfSome found (λ t. ReplacesValueIn W.Caller P.QSBR caller.old caller.new B.sizes self.now.chain (T.packed value) t.0 D.row callback)) }
        ensures took { IfOk result (λ _. TakesLater W.Caller P.QSBR caller.old caller.new B.sizes self.now.chain) }
        ensures refused { IfErr result (λ e. (e.0 ≡ Closed) ⊎ (e.0 ≡ Memory)) }
        ensures why { IfErr result (λ e. IsNotPutLater W.Caller P.QSBR caller.old caller.new B.sizes self.now.chain e.0) }
        ensures back { IfErr result (λ e. (e.1 ≡ callback) × Stays W.Caller caller.old caller.new) }
    {
        let backoff = Backoff::new();
        let mut callback = callback;
        for _ in rt.forever() {
            match self.try_replace(rt, caller, value, callback) {
                Ok(ticket) => return Ok(ticket),
                Err((Refusal::Busy | Refusal::PoolFull, back)) => callback = back,
                Err(refused) => return Err(refused),
            }
            backoff.snooze();
        }
        unreachable!()
    }
}
