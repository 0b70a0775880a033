//! The one store by which a push, a replacement or a cut is published. None of these steps waits.
ghost use Rattle.std.specs.Prelude.{◌≡◌, ◌+◌, ◌<◌, IfSome};
ghost use Rattle.live_rule.specs.Rights.{IsFresh, IsListed, IsWriter, cell_in, link_in, own_in};
ghost use Rattle.live_rule.specs.Steps.{Keeps};
ghost use Rattle.step_chains.specs.Chains.{HasLinked, IsSeatedAt, IsSeatedFor, MayCutAt, MayReplaceAt, MayWrite, Writes, WritesCut, WritesReplace, place_index, push_of, pushed_view};

use crate::plays::{Cuts, Pushes, Replaces};
use live_rule::{ChainRule, GracePlan, LiveSeat, LiveTable};

/// The word that leads to the first object of a chain, or to the object after a record.
pub(crate) fn spot_place<P: GracePlan, K: ChainRule>(
    table: &LiveTable<P, K>,
    chain: usize,
    before: Option<usize>,
) -> usize
    requires { (chain < table.now.chains) × IfSome before (λ j. j < table.now.pool) }
    ensures { (result ≡ place_index table.now.words.shared.key chain before) × (result < table.now.words.shared.table_id.words) }
{
    match before {
        None => table.head_place(chain),
        Some(cell) => table.cell_place(cell, 1),
    }
}

/// The store of a push: the head leads to the seat's fresh record, whose link leads to what was the first object.
pub fn store_push<P: GracePlan, K: ChainRule>(
    table: &LiveTable<P, K>,
    seat: &mut LiveSeat,
    chain: usize,
    cell: usize,
)
    requires seat { (seat.old.table_id ≡ table.now.words.shared.table_id) × (chain < table.now.chains) × (cell < table.now.pool) }
    requires right { HasLinked seat.old.me.0 chain cell }
    requires rule { MayWrite P.QSBR K.allows seat.old.me.0 (push_of seat.old.me.0) }
    ensures seat { Keeps seat.old seat.new }
    ensures pushed { Writes P.QSBR K.allows (pushed_view (cell + 1) seat.old.me.0) (push_of seat.old.me.0) seat.old.me seat.new.me × IsListed seat.new.me.0 }
{
    let place = table.head_place(chain);
    table
        .words
        .shared
        .store::<Pushes<P, K>>(seat, place, cell as u64 + 1);
}

/// The store of a replacement: what led to an object leads to the seat's fresh record, whose link leads to what follows
/// that object. The record `before` is that of the object before it, or none where it is the first one. The seat has
/// the right to what was replaced.
pub fn store_replace<P: GracePlan, K: ChainRule>(
    table: &LiveTable<P, K>,
    seat: &mut LiveSeat,
    chain: usize,
    before: Option<usize>,
    cell: usize,
)
    requires seat { IsSeatedFor table.now.words.shared.table_id table.now.words.shared.key table.now.chains table.now.pool seat.old chain before cell }
    requires right { IsWriter seat.old.me.0 × IsListed seat.old.me.0 × ((own_in seat.old.me.0.chains).chain ≡ chain) × IsFresh seat.old.me.0 × (cell_in seat.old.me.0.object ≡ cell) }
    requires object { MayReplaceAt P.QSBR K.allows seat.old.me.0 before (link_in seat.old.me.0.object) }
    ensures seat { Keeps seat.old seat.new }
    ensures listed { IsListed seat.new.me.0 }
    ensures replaced { WritesReplace P.QSBR K.allows before (cell + 1) seat.old.me seat.new.me }
{
    let place = spot_place(table, chain, before);
    table
        .words
        .shared
        .store::<Replaces<P, K>>(seat, place, cell as u64 + 1);
}

/// The store of a cut: what led to an object leads to what follows it, as the object's own link, which is `next`, still
/// does. The record `before` is that of the object before it, or none where it is the first one. The seat has the right
/// to what was cut.
pub fn store_cut<P: GracePlan, K: ChainRule>(
    table: &LiveTable<P, K>,
    seat: &mut LiveSeat,
    chain: usize,
    before: Option<usize>,
    next: u64,
)
    requires seat { IsSeatedAt table.now.words.shared.table_id table.now.words.shared.key table.now.chains table.now.pool seat.old chain before }
    requires right { IsWriter seat.old.me.0 × IsListed seat.old.me.0 × ((own_in seat.old.me.0.chains).chain ≡ chain) }
    requires object { MayCutAt P.QSBR K.allows seat.old.me.0 before next }
    ensures seat { Keeps seat.old seat.new }
    ensures listed { IsListed seat.new.me.0 }
    ensures cut { WritesCut P.QSBR K.allows before next seat.old.me seat.new.me }
{
    let place = spot_place(table, chain, before);
    table.words.shared.store::<Cuts<P, K>>(seat, place, next);
}
