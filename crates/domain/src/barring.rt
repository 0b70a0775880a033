//! What a program calls to wait until all that was queued has run.

ghost use Rattle.std.specs.Prelude.{◌≡◌, ◌++◌, IsTrue, List};
ghost use Rattle.live_waits.specs.Barrier.{AreNoted, HaveRunAsCounted, WereGiven};
ghost use Rattle.live_read.specs.Hearing.{IsAfter, Stays};
ghost use Rattle.domain.specs.Barriers.{Barred, HearsOfRuns, IsMarked, IsReachedBy};
ghost use Rattle.live_words.specs.live_rule.declared.view.Look.{Look};

use crate::domain::Domain;
use crossbeam_utils::Backoff;
use gp_memb::GracePlan;
use live_callbacks::Deleter;
use live_read::{Caller, Site};
use live_waits::BarrierMark;
use live_words::ChainRule;
use std::sync::Wait;

impl<P: GracePlan + Drop, K: ChainRule, B: Site, D: Deleter> Domain<P, K, B, D> {
    /// Begins a barrier that nobody waits for: notes how many callbacks each queue was given, by the counts that it
    /// loads, which `looks` tells. The mark keeps a log that begins with all that the caller had seen and heard of.
    pub fn barrier_start<W: Caller<B>>(&self, caller: &mut W) -> BarrierMark
        ensures asked { IsMarked W.Caller B.sizes caller.old caller.new result.asked.value.me.0 }
        ensures given { WereGiven B.sizes result.counts (W.heard caller.new) }
        ensures noted { (since : List Look) × (W.looks caller.new ≡ since ++ W.looks caller.old) × AreNoted B.sizes result.counts B.sizes.queues since }
        ensures heard { IsAfter P.QSBR K.allows (W.seen caller.old) (W.heard caller.old) (W.heard caller.new) }
        ensures same { Stays W.Caller caller.old caller.new × (W.loads caller.new ≡ W.loads caller.old) }
    {
        let mut seat = caller.tell(&self.table);
        let mark = live_waits::barrier_start(&self.table, &mut seat);
        caller.learn(&self.table, seat);
        mark
    }

    /// Whether a barrier is passed: true exactly where as many callbacks of each queue have finished as the mark noted,
    /// by the finished counts that it loads, which `looks` tells.
    ///
    /// Then of each queue as many objects have their Run as the mark counted, whoever queued them. And all that was
    /// queued in the mark's log has its Run, where the caller had seen that log or heard of it.
    pub fn barrier_done<W: Caller<B>>(&self, caller: &mut W, mark: &BarrierMark) -> bool
        ensures exact { IsReachedBy W.Caller B.sizes caller.old caller.new mark.now.counts result }
        ensures run { IsTrue result → HaveRunAsCounted B.sizes mark.now.counts (W.heard caller.new) }
        ensures passed { IsTrue result → HearsOfRuns W.Caller B.sizes caller.old caller.new mark.now.asked.value.me.0 }
        ensures heard { IsAfter P.QSBR K.allows (W.seen caller.old) (W.heard caller.old) (W.heard caller.new) }
        ensures same { Stays W.Caller caller.old caller.new × (W.loads caller.new ≡ W.loads caller.old) }
    {
        let mut seat = caller.tell(&self.table);
        let passed = live_waits::barrier_done(&self.table, &mut seat, mark);
        caller.learn(&self.table, seat);
        passed
    }

    /// Waits until all that was queued before the call has run, liburcu's `rcu_barrier`. It loads how many callbacks
    /// each queue was given, which `looks` tells. At the return as many objects of each queue have their Run in the log
    /// that the caller hears of, whoever queued them. So has each object that was queued in what the caller knew.
    ///
    /// It waits for the workers of all queues, with a back-off, so it is not called in a section or a callback.
    pub fn barrier<W: Caller<B>, R: Wait>(&self, rt: &R, caller: &mut W)
        ensures barred { Barred W.Caller P.QSBR K.allows B.sizes caller.old caller.new }
        ensures same { Stays W.Caller caller.old caller.new × (W.loads caller.new ≡ W.loads caller.old) }
    {
        let mark = self.barrier_start(caller);
        let backoff = Backoff::new();
        for _ in rt.forever() {
            if self.barrier_done(caller, &mark) {
                return;
            }
            backoff.snooze();
        }
        unreachable!()
    }
}
