//! Who works for a queue. None of these steps waits.
ghost use Rattle.std.specs.Prelude.{◌≡◌, ◌≢◌, ◌<◌, ◌≤◌};
ghost use Rattle.live_rule.specs.Places.{work_at};
ghost use Rattle.live_rule.specs.Seats.{but_work};
ghost use Rattle.live_rule.specs.Rights.{IsWorker, finished_in, work_in};
ghost use Rattle.live_rule.specs.Steps.{Keeps, Went, looked_view, stored_view};
ghost use Rattle.step_queues.specs.Queues.{TookNoMore, TookWork};

use crate::plays::{FreesWork, HoldsWork};
use live_rule::{ChainRule, GracePlan, LiveSeat, LiveTable};

/// Takes the right to work for a queue, if nobody has it: its hold word goes from 0 to 1. Answers the hold word that it
/// found: 0, and the right is the seat's; 1, and another has it; or 2, and nobody can have it any more. What it found
/// is kept among the looks, and what it stored.
pub fn hold_work<P: GracePlan, K: ChainRule>(
    table: &LiveTable<P, K>,
    seat: &mut LiveSeat,
    queue: usize,
) -> u64
    requires { (seat.old.table_id ≡ table.now.words.shared.table_id) × (seat.old.me.0.sizes ≡ table.now.words.shared.key) × (queue < table.now.queues) }
    ensures seat { Keeps seat.old seat.new }
    ensures found { result ≤ 2 }
    ensures held { result ≡ 0 → TookWork P.QSBR K.allows table.now.words.shared.key queue result seat.old.me seat.new.me }
    ensures missed { result ≢ 0 → Went P.QSBR K.allows (looked_view (work_at table.now.words.shared.key queue) result seat.old.me.0) seat.old.me seat.new.me }
{
    let place = table.work_place(queue);
    table
        .words
        .shared
        .compare_exchange::<HoldsWork<P, K>>(seat, place, 0, 1)
}

/// Gives the right to work for a queue back, so that another can have it: its hold word becomes 0, which is kept among
/// the looks. The worker has finished each batch that it took, by its looks.
pub fn free_work<P: GracePlan, K: ChainRule>(
    table: &LiveTable<P, K>,
    seat: &mut LiveSeat,
    queue: usize,
)
    requires seat { (seat.old.table_id ≡ table.now.words.shared.table_id) × (queue < table.now.queues) }
    requires right { IsWorker seat.old.me.0 × (work_in seat.old.me.0.work ≡ queue) }
    requires ran { TookNoMore table.now.words.shared.key queue (finished_in seat.old.me.0.work) seat.old.me.0.looks }
    ensures seat { Keeps seat.old seat.new }
    ensures freed { Went P.QSBR K.allows (stored_view (work_at table.now.words.shared.key queue) 0 (but_work seat.old.me.0)) seat.old.me seat.new.me }
{
    let place = table.work_place(queue);
    table.words.shared.store::<FreesWork<P, K>>(seat, place, 0);
}

/// Gives the right to work for a queue up for good: its hold word becomes 2, which is kept among the looks, and nobody
/// takes it from there.
pub fn end_work<P: GracePlan, K: ChainRule>(
    table: &LiveTable<P, K>,
    seat: &mut LiveSeat,
    queue: usize,
)
    requires seat { (seat.old.table_id ≡ table.now.words.shared.table_id) × (queue < table.now.queues) }
    requires right { IsWorker seat.old.me.0 × (work_in seat.old.me.0.work ≡ queue) }
    ensures seat { Keeps seat.old seat.new }
    ensures freed { Went P.QSBR K.allows (stored_view (work_at table.now.words.shared.key queue) 2 (but_work seat.old.me.0)) seat.old.me seat.new.me }
{
    let place = table.work_place(queue);
    table.words.shared.store::<FreesWork<P, K>>(seat, place, 2);
}
