//! How a thread reads, and gives its slot back whatever comes of it.

ghost use Rattle.std.specs.Prelude.{ℕ, ⊤, ◌≡◌, true, IfErr, IfOk};
ghost use Rattle.live_log.specs.Log.{Begins};
ghost use Rattle.rcu.specs.Threads.{GivesBackASlot, IsNotRead};

use gp_memb::GracePlan;
use rcu_hash::{ChainRule, Deleter, Domain, Handle, Reader, Site};
use rcu_model::Refusal;
use std::sync::Wait;

/// What a thread does with a reader of its own, under a runtime `R`.
pub trait Reading<P: GracePlan, K: ChainRule, D: Deleter, R> {
    /// What it answers.
    type Out;

    /// What it may answer, and how many sections and locks it may leave open then. One that leaves this out says
    /// nothing of it.
    ghost gives: { Self → Self.Out → ℕ → Type 0 } = { λ _ _ _. ⊤ };

    /// Reads, with a registered reader that has nothing open, and is offline in the quiescent-state flavour.
    fn read<B: Site>(
        &self,
        rt: &R,
        domain: &Domain<P, K, B, D>,
        own: &mut Handle<B>,
        reader: &mut Reader<P, K, B>,
    ) -> Self::Out
        requires { (reader.old.core.depth ≡ 0) × (reader.old.core.locks ≡ 0) × (P.QSBR ≡ true → reader.old.core.word ≡ 0) }
        ensures { gives self.now result reader.new.core.depth };
}

/// Registers a reader, reads by it, and gives its slot back, also where the reading answers an error. Answers what that
/// answers. The handle hears of all that it had seen and heard of, whatever the reading did with it. A part of
/// `with_threads` that reads calls it.
///
/// Refused with `NoSlot` only where the bit of every slot was found set; then it did not read. Refused with `Busy`
/// where the reading left a section or a lock open; then the slot stays claimed.
pub fn with_reader<
    P: GracePlan + Drop,
    K: ChainRule,
    B: Site,
    D: Deleter,
    R: Wait,
    F: Reading<P, K, D, R>,
>(rt: &R, domain: &Domain<P, K, B, D>, own: &mut Handle<B>, reading: &F) -> Result<F::Out, Refusal>
where
    F::Out: Drop,
    ensures answered { IfOk result (λ x. F.gives reading.now x 0) }
    ensures freed { IfOk result (λ _. GivesBackASlot B.sizes own.new.seat.me.0.looks) }
    ensures refused { IfErr result (λ e. IsNotRead (F.gives reading.now) e B.sizes own.old.seat.me.0.looks own.new.seat.me.0.looks) }
    ensures heard { Begins own.old.seat.me.0.seen own.new.seat.me.0.heard × Begins own.old.seat.me.0.heard own.new.seat.me.0.heard }
{
    let mut reader = domain.register(rt, own)?;
    let mut known = domain.split(own);
    let answer = reading.read::<B>(rt, domain, own, &mut reader);
    domain.inform(&mut known, own); // the reading may have put another handle in its place
    match reader.unregister(own) {
        Ok(()) => Ok(answer),
        Err((refusal, _)) => Err(refusal),
    }
}
