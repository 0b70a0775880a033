//! The loads of a queue's words, by any seat. What they find is kept among its looks. None of these steps waits.
ghost use Rattle.std.specs.Prelude.{◌≡◌, ℕ, ◌<◌, ◌≤◌, length};
ghost use Rattle.live_rule.specs.live_log.Log.{HaveRun, closed_of, line_of};
ghost use Rattle.live_rule.specs.declared.rights.WorkRight.TheVariants.{Works};
ghost use Rattle.live_rule.specs.Places.{closed_at, finished_at, queued_at};
ghost use Rattle.live_rule.specs.Steps.{Keeps, Went, looked_view};
ghost use Rattle.step_queues.specs.Queues.{HasNoOther};

use crate::plays::Looks;
use live_rule::{ChainRule, GracePlan, LiveSeat, LiveTable};

/// How many callbacks were queued.
pub fn load_queued<P: GracePlan, K: ChainRule>(
    table: &LiveTable<P, K>,
    seat: &mut LiveSeat,
    queue: usize,
) -> u64
    requires { (seat.old.table_id ≡ table.now.words.shared.table_id) × (seat.old.me.0.sizes ≡ table.now.words.shared.key) × (queue < table.now.queues) }
    ensures seat { Keeps seat.old seat.new }
    ensures looked { Went P.QSBR K.allows (looked_view (queued_at table.now.words.shared.key queue) result seat.old.me.0) seat.old.me seat.new.me }
    ensures count { (result ≡ length (line_of seat.new.me.0.seen queue)) × HasNoOther table.now.words.shared.key seat.new.me.0.seen }
{
    let place = table.queued_place(queue);
    table.words.shared.load::<Looks<P, K>>(seat, place)
}

/// 1 once the queue was closed, and 0 before.
pub fn load_closed<P: GracePlan, K: ChainRule>(
    table: &LiveTable<P, K>,
    seat: &mut LiveSeat,
    queue: usize,
) -> u64
    requires { (seat.old.table_id ≡ table.now.words.shared.table_id) × (seat.old.me.0.sizes ≡ table.now.words.shared.key) × (queue < table.now.queues) }
    ensures seat { Keeps seat.old seat.new }
    ensures looked { Went P.QSBR K.allows (looked_view (closed_at table.now.words.shared.key queue) result seat.old.me.0) seat.old.me seat.new.me }
    ensures closed { result ≡ closed_of queue seat.new.me.0.seen }
{
    let place = table.closed_place(queue);
    table.words.shared.load::<Looks<P, K>>(seat, place)
}

/// How many callbacks of the queue, from the first, have begun to run and were counted. A seat that works for the queue
/// loads its own count.
pub fn load_finished<P: GracePlan, K: ChainRule>(
    table: &LiveTable<P, K>,
    seat: &mut LiveSeat,
    queue: usize,
) -> u64
    requires { (seat.old.table_id ≡ table.now.words.shared.table_id) × (seat.old.me.0.sizes ≡ table.now.words.shared.key) × (queue < table.now.queues) }
    ensures seat { Keeps seat.old seat.new }
    ensures looked { Went P.QSBR K.allows (looked_view (finished_at table.now.words.shared.key queue) result seat.old.me.0) seat.old.me seat.new.me }
    ensures count { HaveRun queue result seat.new.me.0.seen × (result ≤ length (line_of seat.new.me.0.seen queue)) × HasNoOther table.now.words.shared.key seat.new.me.0.seen }
    ensures own { (n : ℕ) → seat.old.me.0.work ≡ Works queue n → result ≡ n }
{
    let place = table.finished_place(queue);
    table.words.shared.load::<Looks<P, K>>(seat, place)
}
