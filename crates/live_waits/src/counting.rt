//! How full a domain is.
ghost use Rattle.std.specs.Prelude.{◌≡◌, ◌∷◌, ◌++◌, ◌<◌, ◌≤◌, ℕ, List};
ghost use Rattle.live_log.specs.Log.{seq_of};
ghost use Rattle.live_words.specs.live_rule.Steps.{IsLater, Keeps};
ghost use Rattle.live_waits.specs.Status.{AreInUse, AreWaiting, Counted, HasFound, HasNone, Looks};

use gp_memb::GracePlan;
use live_words::{
    ChainRule, LiveSeat, LiveTable, load_finished, load_header, load_queued, load_seq,
};

/// How full a domain was, at moments of one call.
#[derive(Clone, Copy, Debug, PartialEq, Eq, Drop)]
pub struct Counts {
    /// The sequence number, which is odd while a grace period runs.
    pub seq: u64,
    /// How many records were in use: taken from the pool, and neither discarded nor reclaimed.
    pub records: u64,
    /// Of each queue, how many objects were queued and had not finished; 0 where there is no such queue.
    pub waiting: [u64; 8],
}

/// How many objects of each queue are queued and have not finished. The finished count of a queue is loaded first, so
/// that no more have finished than were queued.
fn waiting<P: GracePlan, K: ChainRule>(table: &LiveTable<P, K>, seat: &mut LiveSeat) -> [u64; 8]
    requires { (seat.old.table_id ≡ table.now.words.shared.table_id) × (seat.old.me.0.sizes ≡ table.now.words.shared.key) }
    ensures seat { Keeps seat.old seat.new }
    ensures counted { (found : Looks) × HasFound found seat.old.me seat.new.me × AreWaiting table.now.words.shared.key table.now.queues result found }
    ensures others { HasNone table.now.queues result }
{
    let mut waiting = [0u64; 8];
    for queue in 0..table.queues {
        let finished = load_finished(table, seat, queue);
        waiting[queue] = load_queued(table, seat, queue) - finished;
    }
    waiting
}

/// How many records are in use.
fn records<P: GracePlan, K: ChainRule>(table: &LiveTable<P, K>, seat: &mut LiveSeat) -> u64
    requires { (seat.old.table_id ≡ table.now.words.shared.table_id) × (seat.old.me.0.sizes ≡ table.now.words.shared.key) }
    ensures seat { Keeps seat.old seat.new }
    ensures counted { (found : Looks) × HasFound found seat.old.me seat.new.me × AreInUse table.now.words.shared.key table.now.pool result found }
{
    let mut records = 0;
    for cell in 0..table.pool {
        let header = load_header(table, seat, cell);
        if header % 4 != 0 {
            records += 1;
        }
    }
    records
}

/// How full a domain is. It loads each record's header, so it takes as long as the pool is large.
pub fn count_all<P: GracePlan, K: ChainRule>(table: &LiveTable<P, K>, seat: &mut LiveSeat) -> Counts
    requires { (seat.old.table_id ≡ table.now.words.shared.table_id) × (seat.old.me.0.sizes ≡ table.now.words.shared.key) }
    ensures seat { Keeps seat.old seat.new × (seat.new.me.1 ≡ seat.old.me.1) }
    ensures counted { (found : Looks) × (seat.new.me.0.looks ≡ found ++ seat.old.me.0.looks) × Counted table.now.words.shared.key found result }
    ensures seq { (seat.new.me.0.loads ≡ seat.new.me.0.seen ∷ seat.old.me.0.loads) × (seq_of seat.new.me.0.seen ≡ result.seq) }
    ensures later { IsLater P.QSBR K.allows seat.old.me.0 seat.new.me.0 }
{
    let waiting = waiting(table, seat);
    let records = records(table, seat);
    Counts {
        seq: load_seq(table, seat),
        records,
        waiting,
    }
}
