//! What a program sees of a domain: how full it is, and which readers a grace period waits for.

ghost use Rattle.std.specs.Prelude.{◌≡◌, ◌≤◌, ◌++◌, IfErr, IfOk};
ghost use Rattle.rcu_model.specs.declared.refusal.Refusal.TheVariants.{Memory};
ghost use Rattle.live_log.specs.Log.{seq_of};
ghost use Rattle.live_read.specs.Hearing.{IsAsBefore, Stays};
ghost use Rattle.live_waits.specs.Status.{Counted, Looks};
ghost use Rattle.domain.specs.Waiting.{LoadsSeq, StallsFor};

use crate::domain::Domain;
use gp_memb::GracePlan;
use live_callbacks::Deleter;
use live_read::{Caller, Site};
use live_waits::{Counts, count_all};
use live_words::ChainRule;
use rcu_model::Refusal;
use std::alloc::Global;

impl<P: GracePlan + Drop, K: ChainRule, B: Site, D: Deleter> Domain<P, K, B, D> {
    /// How many chains it has, numbered from 0: at most 4,096.
    pub fn chains(&self) -> usize
        ensures many { result ≡ B.sizes.chains }
        ensures low { result ≤ 4096 }
    {
        self.table.chains
    }

    /// How full the domain is: how many records are in use, how many retired objects of each queue have not run, and
    /// the sequence number. The counts are loaded one after another, so they are of different moments of the call. It
    /// takes as long as the pool is large.
    pub fn counts<W: Caller<B>>(&self, caller: &mut W) -> Counts
        ensures counted { (found : Looks) × (W.looks caller.new ≡ found ++ W.looks caller.old) × Counted B.sizes found result }
        ensures seq { LoadsSeq W.Caller P.QSBR K.allows caller.old caller.new × (seq_of (W.heard caller.new) ≡ result.seq) }
        ensures same { Stays W.Caller caller.old caller.new }
    {
        let mut seat = caller.tell(&self.table);
        let counts = count_all(&self.table, &mut seat);
        caller.learn(&self.table, seat);
        counts
    }

    /// The slots whose readers stand in the way of the grace period that runs, in ascending order: for a line in a
    /// program's own log where `synchronize` takes long. Each was loaded at a moment of the call, at which its section
    /// was open; none does where no grace period runs.
    ///
    /// Refused with `Memory` where the list's memory is refused; then nothing was loaded.
    pub fn stalled<W: Caller<B>>(
        &self,
        alloc: Global,
        caller: &mut W,
    ) -> Result<Vec<usize>, Refusal>
        ensures told { IfOk result (λ slots. StallsFor W.Caller P.QSBR K.allows caller.old caller.new B.sizes slots.items) }
        ensures refused { IfErr result (λ e. (e ≡ Memory) × IsAsBefore W.Caller caller.old caller.new) }
        ensures same { Stays W.Caller caller.old caller.new }
    {
        let mut seat = caller.tell(&self.table);
        let slots = live_waits::stalled(alloc, &self.table, &mut seat)?;
        caller.learn(&self.table, seat);
        Ok(slots)
    }
}
