//! A push, a replacement and a cut whole: the link of a record that comes is stored before the word that leads to it,
//! and the link of what is cut is loaded.
ghost use Rattle.std.specs.Prelude.{◌≡◌, ◌+◌};
ghost use Rattle.live_rule.specs.Rights.{IsFresh, IsListed, IsWriter, cell_in, own_in};
ghost use Rattle.live_rule.specs.Steps.{Keeps};
ghost use Rattle.step_chains.specs.Chains.{HasFresh, IsSeatedFor, IsSeatedWith, MayCutRecord, MayReplaceAt, MayWrite, Writes, WritesCutRecord, WritesReplace, push_of, pushed_view};

use crate::loads::load_link;
use crate::steps::{store_cut, store_push, store_replace};
use live_rule::{ChainRule, GracePlan, LiveSeat, LiveTable};
use step_records::store_link;

/// Makes the seat's fresh record the first of its chain, whose head is `head`: stores the record's link, where it is
/// another word, and then the head, liburcu's `rcu_assign_pointer`.
pub fn push<P: GracePlan, K: ChainRule>(
    table: &LiveTable<P, K>,
    seat: &mut LiveSeat,
    chain: usize,
    cell: usize,
    head: u64,
)
    requires seat { IsSeatedWith table.now.words.shared.table_id table.now.words.shared.key table.now.chains table.now.pool seat.old chain cell }
    requires right { HasFresh seat.old.me.0 chain head cell }
    requires rule { MayWrite P.QSBR K.allows seat.old.me.0 (push_of seat.old.me.0) }
    ensures seat { Keeps seat.old seat.new }
    ensures pushed { Writes P.QSBR K.allows (pushed_view (cell + 1) seat.old.me.0) (push_of seat.old.me.0) seat.old.me seat.new.me × IsListed seat.new.me.0 }
{
    store_link(table, seat, cell, head);
    store_push(table, seat, chain, cell);
}

/// Puts the seat's fresh record in the place of an object, which `next` follows. It stores the record's link, where it
/// is another word, and then the word that led to the object. The record `before` is that of the object before it, or
/// none where it is the first one. The seat has the right to what was replaced.
pub fn replace<P: GracePlan, K: ChainRule>(
    table: &LiveTable<P, K>,
    seat: &mut LiveSeat,
    chain: usize,
    before: Option<usize>,
    cell: usize,
    next: u64,
)
    requires seat { IsSeatedFor table.now.words.shared.table_id table.now.words.shared.key table.now.chains table.now.pool seat.old chain before cell }
    requires right { IsWriter seat.old.me.0 × IsListed seat.old.me.0 × ((own_in seat.old.me.0.chains).chain ≡ chain) × IsFresh seat.old.me.0 × (cell_in seat.old.me.0.object ≡ cell) }
    requires object { MayReplaceAt P.QSBR K.allows seat.old.me.0 before next }
    ensures seat { Keeps seat.old seat.new }
    ensures listed { IsListed seat.new.me.0 }
    ensures replaced { WritesReplace P.QSBR K.allows before (cell + 1) seat.old.me seat.new.me }
{
    store_link(table, seat, cell, next);
    store_replace(table, seat, chain, before, cell);
}

/// Takes the object in the record `cell` out of the seat's chain, by a load and a store: the object's link, and then
/// the word that led to the object. The object's own link stays as it is, so a reader that stands on it goes on. The
/// record `before` is that of the object before it, or none where it is the first one. The seat has the right to what
/// was cut.
pub fn cut<P: GracePlan, K: ChainRule>(
    table: &LiveTable<P, K>,
    seat: &mut LiveSeat,
    chain: usize,
    before: Option<usize>,
    cell: usize,
)
    requires seat { IsSeatedFor table.now.words.shared.table_id table.now.words.shared.key table.now.chains table.now.pool seat.old chain before cell }
    requires right { IsWriter seat.old.me.0 × IsListed seat.old.me.0 × ((own_in seat.old.me.0.chains).chain ≡ chain) }
    requires object { MayCutRecord P.QSBR K.allows seat.old.me.0 before cell }
    ensures seat { Keeps seat.old seat.new }
    ensures listed { IsListed seat.new.me.0 }
    ensures cut { WritesCutRecord P.QSBR K.allows before cell seat.old.me seat.new.me }
{
    let next = load_link(table, seat, cell);
    store_cut(table, seat, chain, before, next);
}
