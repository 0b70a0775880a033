//! How an object is retired and its callback queued, made of its steps.
ghost use Rattle.std.specs.Prelude.{◌≡◌, ◌<◌, ◌^◌};
ghost use Rattle.live_log.specs.Log.{Begins};
ghost use Rattle.live_words.specs.live_rule.Seen.{Precedes};
ghost use Rattle.live_words.specs.live_rule.Rights.{IsUnlinked, cell_in, object_in};
ghost use Rattle.live_callbacks.specs.Retiring.{AreOfTable, GivesOneMore, HasQueue, HasQueued, Queues};

use gp_memb::GracePlan;
use live_words::{
    CallbackId, ChainRule, LiveSeat, LiveTable, load_number, store_queued, store_retire,
};

/// Retires the object of a seat and queues it, under the queue's lock: the header's store, and then that of the queued
/// count, which is `given` before. The log notes which callback it is. Answers the seat with the right to run it, and
/// its number.
pub fn queue_object<P: GracePlan, K: ChainRule>(
    table: &LiveTable<P, K>,
    lock: &mut LiveSeat,
    mut unlinked: LiveSeat,
    queue: usize,
    given: u64,
    cell: usize,
    callback: &CallbackId,
) -> (LiveSeat, u64)
    requires seats { AreOfTable table.now.words.shared.table_id table.now.queues table.now.pool lock.old unlinked queue cell }
    requires lock { HasQueue lock.old.me.0 queue given }
    requires right { IsUnlinked unlinked.me.0 × (cell_in unlinked.me.0.object ≡ cell) }
    ensures lock { GivesOneMore lock.old lock.new queue given }
    ensures job { HasQueued table.now.words.shared.table_id lock.old unlinked result.0 cell }
    ensures number { (result.1 ≡ (object_in unlinked.me.0.object).0) × (result.1 < 2 ^ 62) }
    ensures queued { Queues P.QSBR K.allows (Precedes unlinked.me.0) (object_in unlinked.me.0.object) queue given callback.now.code lock.new.me.0.seen }
    ensures same { result.0.me.0.seen ≡ lock.new.me.0.seen }
    ensures later { Begins lock.old.me.0.seen lock.new.me.0.seen }
{
    let number = load_number(table, &mut unlinked, cell);
    store_retire(table, &mut unlinked, cell, number);
    table.take_object(lock, unlinked);
    store_queued(table, lock, queue, given + 1, callback);
    (table.cut_object(lock), number)
}
