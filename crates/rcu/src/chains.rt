//! Which chains of a domain are still to be had.

ghost use Rattle.std.specs.Prelude.{◌≡◌, ◌+◌, ◌<◌, ◌≤◌, IfErr, IfOk};
ghost use Rattle.rcu_model.specs.declared.refusal.Refusal.TheVariants.{NoPlace};

use gp_memb::GracePlan;
use rcu_hash::{ChainRule, Deleter, Domain, Site};
use rcu_model::Refusal;

/// The chains of a domain, given out in the order of their numbers, so that a program need not lay them out by hand: one
/// for each `Slot`, and one and a row of others for each `Map`. What is given out is given out once by the same `Chains`.
/// A domain has one rule of chains and one type of callbacks: so it has slots or maps, and all its maps have one `F`.
#[derive(Drop)]
pub struct Chains {
    /// The first chain that was not given out.
    pub(crate) next: usize,
    /// How many chains there are.
    pub(crate) all: usize,
    pub(crate) ghost within: { next ≤ all },
}

impl Chains {
    /// All chains of a domain.
    pub fn of<P: GracePlan + Drop, K: ChainRule, B: Site, D: Deleter>(
        domain: &Domain<P, K, B, D>,
    ) -> Chains
        ensures { (result.next ≡ 0) × (result.all ≡ B.sizes.chains) }
    {
        Chains {
            next: 0,
            all: domain.chains(),
        }
    }

    /// The first one of a row of this many chains, which come next.
    ///
    /// Refused with `NoPlace` exactly where fewer are left, and then none is given out.
    pub fn take(&mut self, count: usize) -> Result<usize, Refusal>
        ensures given { IfOk result (λ first. (first ≡ self.old.next) × (self.new.next ≡ first + count)) }
        ensures refused { IfErr result (λ e. (e ≡ NoPlace) × (self.old.all < self.old.next + count) × (self.new ≡ self.old)) }
        ensures all { self.new.all ≡ self.old.all }
    {
        if self.all - self.next < count {
            return Err(Refusal::NoPlace);
        }
        let first = self.next;
        self.next += count;
        Ok(first)
    }
}
