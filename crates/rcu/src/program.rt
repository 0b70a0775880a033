//! What is run over a domain.

ghost use Rattle.std.specs.Prelude.{ℕ, ⊤, ◌≡◌, [], IfErr};
ghost use Rattle.rcu_model.specs.declared.refusal.Refusal.{Refusal};
ghost use Rattle.rcu_hash.specs.live_rule.declared.view.Sizes.{Sizes};

use gp_memb::GracePlan;
use rcu_hash::{ChainRule, Deleter, Domain, Handle, Site};
use rcu_model::Refusal;
use std::alloc::Global;

/// What one thread runs over a domain of its own, under a runtime `R`. The type `B` stands for that domain: whatever is
/// generic in it belongs to the domain, so that nothing of another one fits.
pub trait Program<P: GracePlan, K: ChainRule, D: Deleter, R> {
    /// What it answers.
    type Out;

    /// What it may answer over a domain of these sizes. A program that leaves this out says nothing of it.
    ghost gives: { Self → Sizes → Self.Out → Type 0 } = { λ _ _ _. ⊤ };

    /// Runs it, over a domain with no reader, whose first handle has seen nothing yet.
    fn run<B: Site>(
        self,
        rt: &R,
        alloc: Global,
        domain: &Domain<P, K, B, D>,
        first: Handle<B>,
    ) -> Self::Out
        requires { (first.seat.me.0.seen ≡ []) × (first.seat.me.0.heard ≡ []) }
        ensures { gives self B.sizes result };
}

/// What several threads run over a domain of their own, under a runtime `R`. `with_threads` runs it, and the workers of
/// the domain's queues beside it.
pub trait Threaded<P: GracePlan, K: ChainRule, D: Deleter, R> {
    /// What a thread answers.
    type Out;

    /// What the thread of a number may answer over a domain of these sizes. A program that leaves this out says nothing
    /// of it.
    ghost gives: { Self → Sizes → ℕ → Self.Out → Type 0 } = { λ _ _ _ _. ⊤ };

    /// What `begin` may be refused by over a domain of these sizes. A program that leaves this out says nothing of it.
    ghost stops: { Self → Sizes → Refusal → Type 0 } = { λ _ _ _. ⊤ };

    /// What is done before there are threads, over a domain with no reader, whose first handle has seen nothing yet.
    /// Each thread has seen all that was done here. Where it is refused no thread starts.
    fn begin<B: Site>(
        &self,
        _rt: &R,
        _domain: &Domain<P, K, B, D>,
        first: &mut Handle<B>,
    ) -> Result<(), Refusal>
        requires { (first.old.seat.me.0.seen ≡ []) × (first.old.seat.me.0.heard ≡ []) }
        ensures { IfErr result (λ e. stops self.now B.sizes e) }
    {
        Ok(())
    }

    /// What the thread of this number does, with a handle of its own.
    fn part<B: Site>(
        &self,
        rt: &R,
        alloc: Global,
        domain: &Domain<P, K, B, D>,
        own: Handle<B>,
        number: usize,
    ) -> Self::Out
        ensures { gives self.now B.sizes number result };
}
