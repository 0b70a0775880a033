//! The two stores of a header that end an object's life: it is retired, and once it was queued its callback may run.
ghost use Rattle.std.specs.Prelude.{◌≡◌, ◌<◌, ◌^◌, slice_index_or};
ghost use Rattle.live_rule.specs.live_log.declared.event.LiveEvent.TheVariants.{Object};
ghost use Rattle.live_rule.specs.live_log.declared.event.ObjectEvent.TheVariants.{Retire};
ghost use Rattle.live_rule.specs.rcu_model.Sets.{In};
ghost use Rattle.live_rule.specs.live_log.Log.{record_of, state_of};
ghost use Rattle.live_rule.specs.Rights.{IsQueued, IsUnlinked, cell_in, object_in};
ghost use Rattle.live_rule.specs.Steps.{Did, IsKnown, Keeps, Went};
ghost use Rattle.step_records.specs.Records.{HasCut, IsRipe, RanObject, retired_view};

use crate::plays::{LooksPayload, Retires, Runs};
use live_rule::{ChainRule, GracePlan, LiveSeat, LiveTable};

/// Loads a payload word of the seat's object, which was cut and has not been run, the first one at `index` 0: the word
/// that was noted with the object when it was published. A seat with the right to retire it has seen then a log in which
/// it is not retired.
pub fn load_payload<P: GracePlan, K: ChainRule>(
    table: &LiveTable<P, K>,
    seat: &mut LiveSeat,
    cell: usize,
    index: usize,
) -> u64
    requires seat { (seat.old.table_id ≡ table.now.words.shared.table_id) × (seat.old.me.0.sizes ≡ table.now.words.shared.key) × (cell < table.now.pool) × (index < 4) }
    requires right { HasCut seat.old.me.0 × (cell_in seat.old.me.0.object ≡ cell) }
    ensures seat { Keeps seat.old seat.new }
    ensures looked { Went P.QSBR K.allows seat.old.me.0 seat.old.me seat.new.me }
    ensures published { In (state_of seat.new.me.0.seen).used (object_in seat.old.me.0.object) }
    ensures word { result ≡ slice_index_or (record_of seat.new.me.0.seen (object_in seat.old.me.0.object)).1 index 0 }
    ensures unretired { IsUnlinked seat.old.me.0 → ¬ In (state_of seat.new.me.0.seen).retired (object_in seat.old.me.0.object) }
{
    let place = table.cell_place(cell, index + 2);
    table.words.shared.load::<LooksPayload<P, K>>(seat, place)
}

/// Retires the seat's object, which is cut: stores 2 more than four times its number in its record's header.
pub fn store_retire<P: GracePlan, K: ChainRule>(
    table: &LiveTable<P, K>,
    seat: &mut LiveSeat,
    cell: usize,
    number: u64,
)
    requires seat { (seat.old.table_id ≡ table.now.words.shared.table_id) × (cell < table.now.pool) }
    requires right { IsUnlinked seat.old.me.0 × (cell_in seat.old.me.0.object ≡ cell) × ((object_in seat.old.me.0.object).0 ≡ number) × (number < 2 ^ 62) }
    ensures seat { Keeps seat.old seat.new }
    ensures retired { Did P.QSBR K.allows (retired_view seat.old.me.0) (Object (Retire (object_in seat.old.me.0.object))) seat.old.me seat.new.me }
{
    let place = table.cell_place(cell, 0);
    table
        .words
        .shared
        .store::<Retires<P, K>>(seat, place, 4 * number + 2);
}

/// Frees the record of the seat's object, which is queued: stores four times its number in its header, after which its
/// callback may be called. The store is kept among the looks. The seat has seen, or heard of, a log in which the object was retired and
/// each section that was open at its retirement had ended.
pub fn store_run<P: GracePlan, K: ChainRule>(
    table: &LiveTable<P, K>,
    seat: &mut LiveSeat,
    cell: usize,
    number: u64,
)
    requires seat { (seat.old.table_id ≡ table.now.words.shared.table_id) × (cell < table.now.pool) }
    requires right { IsQueued seat.old.me.0 × (cell_in seat.old.me.0.object ≡ cell) × ((object_in seat.old.me.0.object).0 ≡ number) × (number < 2 ^ 62) }
    requires ripe { IsKnown (λ log. IsRipe log (object_in seat.old.me.0.object)) seat.old.me.0 }
    ensures seat { Keeps seat.old seat.new }
    ensures ran { RanObject P.QSBR K.allows table.now.words.shared.key cell seat.old.me seat.new.me }
{
    let place = table.cell_place(cell, 0);
    table
        .words
        .shared
        .store::<Runs<P, K>>(seat, place, 4 * number);
}
