//! A barrier: the counts of what was queued, and later those of what has finished.
ghost use Rattle.std.specs.Prelude.{◌≡◌, ◌≤◌, IsTrue};
ghost use Rattle.live_words.specs.live_rule.Steps.{Keeps};
ghost use Rattle.live_waits.specs.Barrier.{CountsAll, CoverAll, HaveRunAsCounted, IsAskedBetween, PassesFor, TellsReached, WereGiven};

use gp_memb::GracePlan;
use live_words::{ChainRule, LiveSeat, LiveTable, load_finished, load_queued};
use std::snapshot::Snapshot;

/// How many callbacks each queue had been given, and the log at the first load of that. The log has no bytes.
#[derive(Drop)]
pub struct BarrierMark {
    pub(crate) counts: [u64; 8],
    /// The log at the first load.
    pub(crate) asked: Snapshot<LiveSeat>,
    pub ghost noted: { CoverAll asked.value.me.0.sizes counts asked.value.me.0.seen },
}

/// Begins a barrier, as liburcu's `rcu_barrier` does before it waits: loads how many callbacks each queue was given.
/// The first load comes after all that the seat had seen and heard.
pub fn barrier_start<P: GracePlan, K: ChainRule>(
    table: &LiveTable<P, K>,
    seat: &mut LiveSeat,
) -> BarrierMark
    requires seat { (seat.old.table_id ≡ table.now.words.shared.table_id) × (seat.old.me.0.sizes ≡ table.now.words.shared.key) }
    requires queues { 1 ≤ table.now.queues }
    ensures seat { Keeps seat.old seat.new }
    ensures looked { CountsAll P.QSBR K.allows table.now.words.shared.key result.counts seat.old.me seat.new.me }
    ensures asked { IsAskedBetween seat.old.me.0 seat.new.me.0 result.asked.value.me.0 }
    ensures given { WereGiven seat.old.me.0.sizes result.counts seat.new.me.0.seen }
{
    let mut counts = [0u64; 8];
    counts[0] = load_queued(table, seat, 0);
    let asked = Snapshot::of(&*seat);
    for queue in 1..table.queues {
        counts[queue] = load_queued(table, seat, queue);
    }
    BarrierMark { counts, asked }
}

/// Whether the barrier is passed: loads how many callbacks of each queue have finished, queue by queue, up to the first
/// of which fewer have than the barrier noted. It is true exactly where there is none.
///
/// Then of each queue as many objects have their Run as the barrier counted, whoever queued them. And all that was
/// queued in the log at the barrier's first load has its Run, where the seat had seen or heard of that log.
pub fn barrier_done<P: GracePlan, K: ChainRule>(
    table: &LiveTable<P, K>,
    seat: &mut LiveSeat,
    mark: &BarrierMark,
) -> bool
    requires seat { (seat.old.table_id ≡ table.now.words.shared.table_id) × (seat.old.me.0.sizes ≡ table.now.words.shared.key) }
    requires queues { 1 ≤ table.now.queues }
    ensures seat { Keeps seat.old seat.new }
    ensures exact { TellsReached P.QSBR K.allows table.now.words.shared.key mark.now.counts seat.old.me seat.new.me result }
    ensures run { IsTrue result → HaveRunAsCounted table.now.words.shared.key mark.now.counts seat.new.me.0.seen }
    ensures passed { IsTrue result → PassesFor table.now.words.shared.key mark.now.asked.value.me.0 seat.old.me.0 seat.new.me.0 }
{
    for queue in 0..table.queues {
        if load_finished(table, seat, queue) < mark.counts[queue] {
            return false;
        }
    }
    true
}
