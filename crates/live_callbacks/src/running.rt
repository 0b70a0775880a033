//! How a queued object is run, made of its steps.
ghost use Rattle.std.specs.Prelude.{◌≡◌, ◌<◌};
ghost use Rattle.rcu_model.specs.Sets.{In};
ghost use Rattle.live_log.specs.Log.{payload_of, state_of};
ghost use Rattle.live_words.specs.live_rule.Rights.{cell_in, object_in};
ghost use Rattle.live_words.specs.live_rule.Steps.{Keeps, Went};
ghost use Rattle.live_words.specs.step_records.Records.{HasCut, IsRipe};
ghost use Rattle.live_callbacks.specs.Running.{OnlyHearsMore, Runs};

use crate::job::Job;
use callback_queue::Ripe;
use gp_memb::GracePlan;
use live_read::Site;
use live_words::{ChainRule, LiveSeat, LiveTable, load_payload, store_run};
use rcu_model::ObjectId;

/// The four words of a seat's object, which was cut and has not been run.
fn load_words<P: GracePlan, K: ChainRule>(
    table: &LiveTable<P, K>,
    seat: &mut LiveSeat,
    cell: usize,
) -> [u64; 4]
    requires seat { (seat.old.table_id ≡ table.now.words.shared.table_id) × (seat.old.me.0.sizes ≡ table.now.words.shared.key) × (cell < table.now.pool) }
    requires right { HasCut seat.old.me.0 × (cell_in seat.old.me.0.object ≡ cell) }
    ensures seat { Keeps seat.old seat.new }
    ensures looked { Went P.QSBR K.allows seat.old.me.0 seat.old.me seat.new.me }
    ensures words { (result ≡ payload_of seat.new.me.0.seen (object_in seat.old.me.0.object)) × In (state_of seat.new.me.0.seen).used (object_in seat.old.me.0.object) }
{
    let first = load_payload(table, seat, cell, 0);
    let second = load_payload(table, seat, cell, 1);
    let third = load_payload(table, seat, cell, 2);
    let fourth = load_payload(table, seat, cell, 3);
    [first, second, third, fourth]
}

impl<B: Site, C: Drop> Job<B, C> {
    /// Runs the job's object, which the worker knows to be ripe: loads its four words, and then frees its record. The
    /// worker's seat hears of that. Then the job's own callback may be called, which comes back with the words; it is
    /// the one that was queued, by its code.
    pub fn run<P: GracePlan, K: ChainRule>(
        self,
        table: &LiveTable<P, K>,
        worker: &mut LiveSeat,
        object: ObjectId,
    ) -> (Ripe, C)
        requires site { (table.now.words.shared.table_id ≡ B.table) × (table.now.words.shared.key ≡ B.sizes) × (worker.old.table_id ≡ B.table) }
        requires object { object ≡ object_in self.0.object }
        requires ripe { IsRipe worker.old.me.0.seen object }
        ensures worker { OnlyHearsMore worker.old worker.new }
        ensures run { Runs P.QSBR K.allows self.0.seen worker.old.me.0.seen object worker.new.me.0.heard }
        ensures ripe { (result.0.object ≡ object) × (result.0.payload ≡ payload_of worker.new.me.0.heard object) }
        ensures callback { result.1 ≡ self.2 }
        ensures queued { self.3 ≡ C.row.coded.code result.1 }
    {
        let Job {
            mut seat,
            cell,
            callback,
            identity,
            ..
        } = self;
        identity.tells();
        table.learn(&mut seat, table.tell(worker));
        let payload = load_words(table, &mut seat, cell);
        store_run(table, &mut seat, cell, object.0);
        table.learn(worker, table.tell(&mut seat));
        (Ripe { object, payload }, callback)
    }
}
