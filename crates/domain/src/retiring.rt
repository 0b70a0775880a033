//! What a program calls to retire what was cut.

ghost use Rattle.std.specs.Prelude.{◌≡◌, ◌+◌, ◌%◌, ◌<◌, IfErr, IfOk, ℕ};
ghost use Rattle.rcu_model.specs.declared.refusal.Refusal.TheVariants.{NoPlace};
ghost use Rattle.live_log.specs.Log.{closed_of};
ghost use Rattle.live_read.specs.Hearing.{IsAfter, OnlyHears};
ghost use Rattle.live_callbacks.specs.Refusing.{RefusesRetirement};
ghost use Rattle.domain.specs.Retiring.{CutsAndRetires, MakesLastIn, RefusesAt, ReplacesAndRetires, RetiresCut};
ghost use Rattle.live_write.specs.Calls.{MayCut, MayReplace};

use crate::domain::Domain;
use crate::writing::Chain;
use callback_queue::Ticket;
use gp_memb::GracePlan;
use live_callbacks::{Deleter, refusal_of};
use live_read::{Caller, Site};
use live_words::ChainRule;
use live_write::{Owned, Unlinked};
use rcu_model::Refusal;
use std::sync::Wait;

impl<P: GracePlan + Drop, K: ChainRule, B: Site, D: Deleter> Domain<P, K, B, D> {
    /// The queue of a chain's objects.
    fn queue_of(&self, chain: usize) -> usize
        ensures { (result ≡ chain % B.sizes.queues) × (result < B.sizes.queues) }
    {
        chain % self.queues.len()
    }

    /// Retires a cut object, liburcu's `call_rcu`: the callback is called with it once each section that was open then
    /// has ended. It is queued in the queue of its chain's number modulo the number of queues, whose worker is woken;
    /// its ticket is its turn there. The retirement comes after the cut, and after all that the caller had seen and
    /// heard of, and the caller hears of it.
    ///
    /// Refused with `Closed` exactly where the queue's closed word is 1, which `looks` tells, else with `Memory` where
    /// memory is; then both parts come back. It waits for the queue's lock alone.
    pub fn retire<W: Caller<B>, R: Wait>(
        &self,
        rt: &R,
        caller: &mut W,
        unlinked: Unlinked<B>,
        callback: D,
    ) -> Result<Ticket, (Refusal, Unlinked<B>, D)>
        ensures queued { IfOk result (λ t. RetiresCut W.Caller P.QSBR K.allows B.sizes caller.old caller.new unlinked.seat.me.0 unlinked.chain t.0 (D.row.coded.code callback)) }
        ensures same { IfOk result (λ _. OnlyHears W.Caller caller.old caller.new) }
        ensures refused { IfErr result (λ e. RefusesRetirement W.Caller P.QSBR K.allows B.sizes (unlinked.chain % B.sizes.queues) caller.old caller.new e.0) }
        ensures back { IfErr result (λ e. (e.1 ≡ unlinked) × (e.2 ≡ callback)) }
    {
        let number = self.queue_of(unlinked.chain());
        let queue = &self.queues[number];
        let mut items = queue.lock(rt, number);
        match items.retire(&self.table, caller, unlinked, callback) {
            Ok(ticket) => {
                queue.unparker.unpark();
                Ok(ticket)
            }
            Err((_, unlinked, callback)) => {
                let refusal = refusal_of(&self.table, caller, number);
                Err((refusal, unlinked, callback))
            }
        }
    }

    /// Cuts the object at an index of a chain and retires it, both under the lock of its queue, which has room before
    /// anything is cut. The chain's rule has to allow the cut in each log that comes after all that its writer and the
    /// caller had seen. The caller hears of both.
    ///
    /// Refused with `NoPlace` exactly where the index is not below the chain's length, else as `retire`; then the chain
    /// is as it was, and the callback comes back. It waits for the queue's lock alone.
    pub fn cut_retire<W: Caller<B>, R: Wait>(
        &self,
        rt: &R,
        caller: &mut W,
        chain: &mut Chain<'_, P, K, B, D>,
        index: usize,
        callback: D,
    ) -> Result<Ticket, (Refusal, D)>
        requires rule { MayCut W.Caller P.QSBR K.allows caller.old chain.old.seat.me.0 index }
        ensures retired { IfOk result (λ t. CutsAndRetires W.Caller P.QSBR K.allows B.sizes caller.old caller.new chain.old index chain.new t (D.row.coded.code callback)) }
        ensures same { IfOk result (λ _. MakesLastIn W.Caller caller.old caller.new chain.new.seat.me.0.seen chain.old.number chain.new.number chain.old.home.now chain.new.home.now) }
        ensures refused { IfErr result (λ e. RefusesAt W.Caller P.QSBR K.allows B.sizes caller.old caller.new chain.old index e.0) }
        ensures back { IfErr result (λ e. (e.1 ≡ callback) × (chain.new ≡ chain.old)) }
    {
        if index >= chain.len() {
            return Err((Refusal::NoPlace, callback));
        }
        let number = self.queue_of(chain.number());
        let queue = &self.queues[number];
        let mut items = queue.lock(rt, number);
        if items.prepare().is_err() {
            return Err((refusal_of(&self.table, caller, number), callback));
        }
        let Ok(unlinked) = chain.cut(caller, index) else {
            unreachable!()
        };
        match items.retire(&self.table, caller, unlinked, callback) {
            Ok(ticket) => {
                queue.unparker.unpark();
                Ok(ticket)
            }
            Err(_) => unreachable!(),
        }
    }

    /// Puts a record in the place of the object at an index of a chain and retires that object, both under the lock of
    /// its queue, which has room before anything is replaced. The chain's rule has to allow the replacement in each log
    /// that comes after all that its writer, the caller and who allocated the record had seen. The caller hears of
    /// both.
    ///
    /// Refused with `NoPlace` exactly where the index is not below the chain's length, else as `retire`; then the chain
    /// is as it was, and the record and the callback come back. It waits for the queue's lock alone.
    pub fn replace_retire<W: Caller<B>, R: Wait>(
        &self,
        rt: &R,
        caller: &mut W,
        chain: &mut Chain<'_, P, K, B, D>,
        index: usize,
        owned: Owned<B>,
        callback: D,
    ) -> Result<Ticket, (Refusal, Owned<B>, D)>
        requires rule { MayReplace W.Caller P.QSBR K.allows caller.old chain.old.seat.me.0 index owned.seat.me.0 }
        ensures retired { IfOk result (λ t. ReplacesAndRetires W.Caller P.QSBR K.allows B.sizes caller.old caller.new chain.old index owned chain.new t (D.row.coded.code callback)) }
        ensures same { IfOk result (λ _. MakesLastIn W.Caller caller.old caller.new chain.new.seat.me.0.seen chain.old.number chain.new.number chain.old.home.now chain.new.home.now) }
        ensures refused { IfErr result (λ e. RefusesAt W.Caller P.QSBR K.allows B.sizes caller.old caller.new chain.old index e.0) }
        ensures back { IfErr result (λ e. (e.1 ≡ owned) × (e.2 ≡ callback) × (chain.new ≡ chain.old)) }
    {
        if index >= chain.len() {
            return Err((Refusal::NoPlace, owned, callback));
        }
        let number = self.queue_of(chain.number());
        let queue = &self.queues[number];
        let mut items = queue.lock(rt, number);
        if items.prepare().is_err() {
            return Err((refusal_of(&self.table, caller, number), owned, callback));
        }
        let Ok(unlinked) = chain.replace(caller, index, owned) else {
            unreachable!()
        };
        match items.retire(&self.table, caller, unlinked, callback) {
            Ok(ticket) => {
                queue.unparker.unpark();
                Ok(ticket)
            }
            Err(_) => unreachable!(),
        }
    }

    /// Closes all queues: every later retirement is refused. Workers still run what is queued, as tests show. The
    /// caller hears of that. It waits for the queues' locks alone.
    pub fn close<W: Caller<B>, R: Wait>(&self, rt: &R, caller: &mut W)
        ensures closed { (q : ℕ) → q < B.sizes.queues → closed_of q (W.heard caller.new) ≡ 1 }
        ensures after { IsAfter P.QSBR K.allows (W.seen caller.old) (W.heard caller.old) (W.heard caller.new) }
        ensures same { OnlyHears W.Caller caller.old caller.new }
    {
        for number in 0..self.queues.len() {
            let queue = &self.queues[number];
            queue.lock(rt, number).close(&self.table, caller);
            queue.unparker.unpark();
        }
    }
}
