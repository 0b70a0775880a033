//! The stores of a queue's words: its counts, and that it is closed. None of these steps waits.
ghost use Rattle.std.specs.Prelude.{◌≡◌, ◌+◌, ◌<◌};
ghost use Rattle.live_rule.specs.live_log.declared.event.LiveEvent.TheVariants.{CloseQueue};
ghost use Rattle.live_rule.specs.Rights.{IsInQueue, IsRetired, IsWorker, closed_in, finished_in, object_in, queue_in, queued_in, work_in};
ghost use Rattle.live_rule.specs.Steps.{Did, IsKnown, Keeps, Went};
ghost use Rattle.step_queues.specs.Queues.{HasRunAt, IsLast, QueuedObject, closed_view, finished_view};

use crate::plays::{Closes, Finishes, Queues};
use live_rule::{CallbackId, ChainRule, GracePlan, LiveSeat, LiveTable};

/// Queues the callback of the seat's retired object, where the queue is not closed: stores the count of those queued.
/// Its ticket is that count, the first one being 1. The log notes which callback it is. The store is an exchange, since
/// only that can be told so.
pub fn store_queued<P: GracePlan, K: ChainRule>(
    table: &LiveTable<P, K>,
    seat: &mut LiveSeat,
    queue: usize,
    count: u64,
    callback: &CallbackId,
)
    requires seat { (seat.old.table_id ≡ table.now.words.shared.table_id) × (queue < table.now.queues) }
    requires right { IsInQueue seat.old.me.0 × (queue_in seat.old.me.0.queue ≡ queue) × (queued_in seat.old.me.0.queue + 1 ≡ count) }
    requires open { closed_in seat.old.me.0.queue ≡ 0 }
    requires retired { IsRetired seat.old.me.0 }
    ensures seat { Keeps seat.old seat.new }
    ensures queued { QueuedObject P.QSBR K.allows callback.now seat.old.me seat.new.me }
    ensures last { IsLast queue (queued_in seat.old.me.0.queue) (object_in seat.old.me.0.object) seat.new.me.0.seen }
{
    let place = table.queued_place(queue);
    table
        .words
        .shared
        .compare_exchange_with::<Queues<P, K>>(seat, place, count - 1, count, callback);
}

/// Closes a queue, which takes no callback from then on.
pub fn store_closed<P: GracePlan, K: ChainRule>(
    table: &LiveTable<P, K>,
    seat: &mut LiveSeat,
    queue: usize,
)
    requires seat { (seat.old.table_id ≡ table.now.words.shared.table_id) × (queue < table.now.queues) }
    requires right { IsInQueue seat.old.me.0 × (queue_in seat.old.me.0.queue ≡ queue) }
    ensures seat { Keeps seat.old seat.new }
    ensures closed { Did P.QSBR K.allows (closed_view seat.old.me.0) (CloseQueue (queue_in seat.old.me.0.queue)) seat.old.me seat.new.me }
{
    let place = table.closed_place(queue);
    table.words.shared.store::<Closes<P, K>>(seat, place, 1);
}

/// Counts one more callback of the queue as finished: the one whose turn it is, which the worker knows to have run.
pub fn store_finished<P: GracePlan, K: ChainRule>(
    table: &LiveTable<P, K>,
    seat: &mut LiveSeat,
    queue: usize,
    count: u64,
)
    requires seat { (seat.old.table_id ≡ table.now.words.shared.table_id) × (queue < table.now.queues) }
    requires right { IsWorker seat.old.me.0 × (work_in seat.old.me.0.work ≡ queue) × (finished_in seat.old.me.0.work + 1 ≡ count) }
    requires has_run { IsKnown (HasRunAt (work_in seat.old.me.0.work) (finished_in seat.old.me.0.work)) seat.old.me.0 }
    ensures seat { Keeps seat.old seat.new }
    ensures finished { Went P.QSBR K.allows (finished_view seat.old.me.0) seat.old.me seat.new.me }
{
    let place = table.finished_place(queue);
    table
        .words
        .shared
        .store::<Finishes<P, K>>(seat, place, count);
}
