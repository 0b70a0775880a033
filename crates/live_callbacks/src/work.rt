//! How a queue's worker begins, and when it has no more to do.
ghost use Rattle.std.specs.Prelude.{◌≡◌, ◌<◌, IfErr, IfOk, IsTrue};
ghost use Rattle.live_words.specs.live_rule.Steps.{IsLater, Keeps};
ghost use Rattle.live_callbacks.specs.Working.{BeginsWork, HasLooked, IsEmptied, RefusesWork, TellsEmptied};

use gp_memb::GracePlan;
use live_words::{
    ChainRule, LiveSeat, LiveTable, hold_work, load_closed, load_finished, load_queued,
};
use rcu_model::Refusal;

/// Takes the right to work for a queue, liburcu's start of a `call_rcu` thread. Answers how many of its callbacks are
/// finished.
///
/// Refused with `NoActor` exactly where there is no such queue, with `Busy` where another works for it, and with
/// `Exhausted` where its last worker found the sequence numbers used up.
pub fn begin_work<P: GracePlan, K: ChainRule>(
    table: &LiveTable<P, K>,
    seat: &mut LiveSeat,
    queue: usize,
) -> Result<u64, Refusal>
    requires { (seat.old.table_id ≡ table.now.words.shared.table_id) × (seat.old.me.0.sizes ≡ table.now.words.shared.key) }
    ensures seat { Keeps seat.old seat.new × (seat.new.me.1 ≡ seat.old.me.1) × (seat.new.me.0.sizes ≡ seat.old.me.0.sizes) × (seat.new.me.0.loads ≡ seat.old.me.0.loads) }
    ensures begun { IfOk result (λ first. BeginsWork P.QSBR K.allows table.now.words.shared.key table.now.queues queue seat.old.me.0 seat.new.me.0 first) }
    ensures refused { IfErr result (λ e. RefusesWork table.now.words.shared.key queue seat.old.me.0.looks seat.new.me.0.looks e) }
    ensures same { IfErr result (λ e. HasLooked seat.old.me.0 seat.new.me.0) }
    ensures later { IfErr result (λ _. queue < table.now.queues → IsLater P.QSBR K.allows seat.old.me.0 seat.new.me.0) }
{
    if queue >= table.queues {
        return Err(Refusal::NoActor);
    }
    let found = hold_work(table, seat, queue);
    if found == 1 {
        return Err(Refusal::Busy);
    }
    if found != 0 {
        return Err(Refusal::Exhausted);
    }
    Ok(load_finished(table, seat, queue))
}

/// Whether a worker that has finished this many has no more to do: loads the queue's closed word and then how many were
/// queued. It is true exactly where the queue is closed and no more were queued.
pub fn is_emptied<P: GracePlan, K: ChainRule>(
    table: &LiveTable<P, K>,
    seat: &mut LiveSeat,
    queue: usize,
    finished: u64,
) -> bool
    requires { (seat.old.table_id ≡ table.now.words.shared.table_id) × (seat.old.me.0.sizes ≡ table.now.words.shared.key) × (queue < table.now.queues) }
    ensures seat { Keeps seat.old seat.new × (seat.new.me.1 ≡ seat.old.me.1) × HasLooked seat.old.me.0 seat.new.me.0 }
    ensures later { IsLater P.QSBR K.allows seat.old.me.0 seat.new.me.0 }
    ensures exact { TellsEmptied table.now.words.shared.key queue finished seat.old.me.0 seat.new.me.0 result }
    ensures emptied { IsTrue result → IsEmptied queue finished seat.new.me.0.seen }
{
    let closed = load_closed(table, seat, queue);
    let queued = load_queued(table, seat, queue);
    closed == 1 && queued == finished
}
