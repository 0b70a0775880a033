//! The run of one item.
ghost use Rattle.std.specs.Prelude.{◌≡◌, ◌+◌, ◌<◌, ◌≤◌, ◌^◌, []};
ghost use Rattle.live_log.specs.Log.{Begins, IsLiveRun};
ghost use Rattle.live_words.specs.live_rule.Steps.{Keeps};
ghost use Rattle.live_callbacks.specs.Items.{IsPlaced};
ghost use Rattle.live_callbacks.specs.Batches.{IsDue, IsRunAs, WorksFor, ripe_in};

use crate::deleter::Deleter;
use crate::job::Job;
use call_rcu_worker::Finished;
use callback_queue::{Item, Ticket};
use gp_memb::GracePlan;
use live_read::Site;
use live_words::{ChainRule, LiveSeat, LiveTable, store_finished};

/// Runs the item whose turn it is: its record is freed, then its own deleter is called, and then the finished count is
/// stored. The deleter is called with the item's object and the words that were published with it. The code is what it
/// answers. It waits for what the deleter waits for.
pub fn run_next<P: GracePlan, K: ChainRule, B: Site, D: Deleter>(
    table: &LiveTable<P, K>,
    seat: &mut LiveSeat,
    queue: usize,
    finished: u64,
    given: u64,
    item: Item<Job<B, D>>,
) -> Finished
    requires table { (table.now.words.shared.table_id ≡ B.table) × (table.now.words.shared.key ≡ B.sizes) × (seat.old.table_id ≡ B.table) × (seat.old.me.0.sizes ≡ B.sizes) }
    requires queue { (queue < table.now.queues) × WorksFor queue finished seat.old.me.0 }
    requires item { IsPlaced queue seat.old.me.0.seen finished item }
    requires due { (finished < given) × (given < 2 ^ 64) × IsDue queue given seat.old.me.0.seen × IsLiveRun P.QSBR K.allows seat.old.me.0.seen }
    ensures seat { Keeps seat.old seat.new × (seat.new.me.1 ≡ seat.old.me.1) × (seat.new.me.0.sizes ≡ seat.old.me.0.sizes) × WorksFor queue (finished + 1) seat.new.me.0 }
    ensures finds { (seat.new.me.0.looks ≡ seat.old.me.0.looks) × (seat.new.me.0.loads ≡ seat.old.me.0.loads) }
    ensures seen { Begins seat.old.me.0.seen seat.new.me.0.seen × IsLiveRun P.QSBR K.allows seat.new.me.0.seen }
    ensures run { IsRunAs D.row.coded.code D.answers queue seat.new.me.0.seen finished result }
    ensures called { (result.object ≡ item.object) × D.answers item.job.2 (ripe_in seat.new.me.0.seen item.object) result.code }
{
    let Item { object, job } = item;
    let (ripe, deleter) = job.run(table, seat, object);
    let code = deleter.call(ripe);
    store_finished(table, seat, queue, finished + 1);
    Finished {
        ticket: Ticket(finished + 1),
        object,
        code,
    }
}
