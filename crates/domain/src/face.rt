//! The names of [saferecl.rcu], beside `Reader::lock`, `Reader::try_lock` and `Reader::unlock`: a reader takes the
//! place of the calling thread.

ghost use Rattle.std.specs.Prelude.{◌≡◌, ◌+◌, ◌%◌, IfErr, IfOk};
ghost use Rattle.live_read.specs.Hearing.{FindsNothing, OnlyHears, Stays};
ghost use Rattle.live_callbacks.specs.Refusing.{RefusesRetirement};
ghost use Rattle.domain.specs.Barriers.{Barred};
ghost use Rattle.domain.specs.Waiting.{Synchronized, IsExhausted};
ghost use Rattle.domain.specs.Retiring.{RetiresCut};

use crate::domain::Domain;
use callback_queue::Ticket;
use gp_memb::GracePlan;
use live_callbacks::Deleter;
use live_read::{Caller, Site};
use live_words::ChainRule;
use live_write::Unlinked;
use rcu_model::Refusal;
use std::sync::Wait;

impl<P: GracePlan + Drop, K: ChainRule, B: Site, D: Deleter> Domain<P, K, B, D> {
    /// [saferecl.rcu]'s `rcu_synchronize`: `synchronize`.
    ///
    /// Refused with `Exhausted`, as that.
    pub fn rcu_synchronize<W: Caller<B>, R: Wait>(
        &self,
        rt: &R,
        caller: &mut W,
    ) -> Result<(), Refusal>
        ensures ended { IfOk result (λ _. Synchronized P.QSBR K.allows (W.seen caller.old) (W.heard caller.old) (W.loads caller.old) (W.loads caller.new) (W.heard caller.new)) }
        ensures refused { IfErr result (λ e. IsExhausted W.Caller P.QSBR K.allows caller.old caller.new e) }
        ensures caller { FindsNothing W.Caller caller.old caller.new }
    {
        self.synchronize(rt, caller)
    }

    /// [saferecl.rcu]'s `rcu_barrier`: `barrier`.
    pub fn rcu_barrier<W: Caller<B>, R: Wait>(&self, rt: &R, caller: &mut W)
        ensures barred { Barred W.Caller P.QSBR K.allows B.sizes caller.old caller.new }
        ensures same { Stays W.Caller caller.old caller.new × (W.loads caller.new ≡ W.loads caller.old) }
    {
        self.barrier(rt, caller);
    }

    /// [saferecl.rcu]'s `rcu_retire`: `retire`.
    ///
    /// Refused with `Closed` or `Memory`, as that; then both parts come back.
    pub fn rcu_retire<W: Caller<B>, R: Wait>(
        &self,
        rt: &R,
        caller: &mut W,
        unlinked: Unlinked<B>,
        callback: D,
    ) -> Result<Ticket, (Refusal, Unlinked<B>, D)>
        ensures queued { IfOk result (λ t. RetiresCut W.Caller P.QSBR K.allows B.sizes caller.old caller.new unlinked.seat.me.0 unlinked.chain t.0 (D.row.coded.code callback)) }
        ensures same { IfOk result (λ _. OnlyHears W.Caller caller.old caller.new) }
        ensures refused { IfErr result (λ e. RefusesRetirement W.Caller P.QSBR K.allows B.sizes (unlinked.chain % B.sizes.queues) caller.old caller.new e.0) }
        ensures back { IfErr result (λ e. (e.1 ≡ unlinked) × (e.2 ≡ callback)) }
    {
        self.retire(rt, caller, unlinked, callback)
    }
}
