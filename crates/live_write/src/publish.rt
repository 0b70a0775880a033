//! What a chain's writer publishes, by seats: what the caller has seen comes before the event, of which it hears.

ghost use Rattle.std.specs.Prelude.{◌≡◌, ◌+◌, ◌^◌, ◌<◌, ◌≤◌, ◌∷◌, [], Some, length, slice_get};
ghost use Rattle.rcu_model.specs.Sets.{replaced, without_object};
ghost use Rattle.rcu_model.specs.declared.event.ObjectId.{ObjectId};
ghost use Rattle.live_log.specs.declared.event.LiveEvent.TheVariants.{ChainNote};
ghost use Rattle.live_log.specs.Log.{Begins};
ghost use Rattle.live_words.specs.live_rule.Seats.{lent_chains};
ghost use Rattle.live_words.specs.live_rule.Rights.{AreAsKnown, IsFresh, IsListed, IsUnlinked, IsWriter, cell_in, object_in, own_in};
ghost use Rattle.live_words.specs.live_rule.Steps.{Keeps};
ghost use Rattle.live_words.specs.step_chains.Chains.{cut_of};
ghost use Rattle.live_read.specs.Hearing.{IsAfter, OnlyHears, OnlyMakesLast};
ghost use Rattle.live_write.specs.Calls.{HasLearned};
ghost use Rattle.live_write.specs.Chains.{MayPublish, MayReserve, Publishes, list_in, push_by, replace_by};

use crate::walk::find;
use gp_memb::GracePlan;
use live_read::{Caller, Site, tell_all};
use live_words::{
    ChainRule, LiveSeat, LiveTable, cut, load_head, load_link, load_note, load_seq, push, replace,
    store_note,
};

/// The first note of chains that are reserved for an object.
const RESERVED: u64 = 1 << 63;

/// The object of a fresh record, by the seat with the right to it, becomes the first of the seat's own chain.
pub(crate) fn push_record<P: GracePlan, K: ChainRule, B: Site, W: Caller<B>>(
    table: &LiveTable<P, K>,
    seat: &mut LiveSeat,
    chain: usize,
    caller: &mut W,
    owned: LiveSeat,
    cell: usize,
)
    requires seat { (seat.old.table_id ≡ table.now.words.shared.table_id) × (seat.old.me.0.sizes ≡ table.now.words.shared.key) × (chain < table.now.chains) × (cell < table.now.pool) }
    requires owned { (owned.table_id ≡ table.now.words.shared.table_id) × (owned.me.1 ≡ []) × IsFresh owned.me.0 × (cell_in owned.me.0.object ≡ cell) }
    requires site { (table.now.words.shared.table_id ≡ B.table) × (table.now.words.shared.key ≡ B.sizes) }
    requires right { IsWriter seat.old.me.0 × ((own_in seat.old.me.0.chains).chain ≡ chain) }
    requires rule { MayPublish P.QSBR K.allows seat.old.me.0 (W.seen caller.old) (W.heard caller.old) owned.me.0.seen (push_by seat.old.me.0 owned.me.0) }
    ensures seat { Keeps seat.old seat.new × (seat.new.me.1 ≡ seat.old.me.1) × (seat.new.me.0.sizes ≡ seat.old.me.0.sizes) × IsListed seat.new.me.0 }
    ensures list { (seat.new.me.0.chains ≡ record (own_in seat.old.me.0.chains) { head = cell + 1; objects = object_in owned.me.0.object ∷ list_in seat.old.me.0 } ∷ lent_chains seat.old.me.0.chains) × (length (list_in seat.old.me.0) ≤ table.now.pool) }
    ensures pushed { Publishes P.QSBR K.allows seat.old.me.0 (W.seen caller.old) (W.heard caller.old) owned.me.0.seen (push_by seat.old.me.0 owned.me.0) seat.new.me.0.seen }
    ensures heard { W.heard caller.new ≡ seat.new.me.0.seen }
    ensures same { OnlyMakesLast W.Caller caller.old caller.new seat.new.me.0.seen }
{
    let mut told = tell_all(table, caller);
    table.take_object(&mut told, owned);
    load_seq(table, &mut told);
    let head = load_head(table, seat, chain);
    table.take_object(seat, told);
    push(table, seat, chain, cell, head);
    let pushed = table.tell_changes(seat);
    caller.learn_changes(table, pushed);
}

/// The object at an index of the seat's own chain leaves it. Answers the seat with the right to it, and its record.
pub(crate) fn cut_record<P: GracePlan, K: ChainRule, B: Site, W: Caller<B>>(
    table: &LiveTable<P, K>,
    seat: &mut LiveSeat,
    chain: usize,
    caller: &mut W,
    index: usize,
) -> (LiveSeat, usize)
    requires seat { (seat.old.table_id ≡ table.now.words.shared.table_id) × (seat.old.me.0.sizes ≡ table.now.words.shared.key) × (chain < table.now.chains) × (index < length (list_in seat.old.me.0)) }
    requires site { (table.now.words.shared.table_id ≡ B.table) × (table.now.words.shared.key ≡ B.sizes) }
    requires right { IsWriter seat.old.me.0 × ((own_in seat.old.me.0.chains).chain ≡ chain) }
    requires rule { (o : ObjectId) → slice_get (list_in seat.old.me.0) index ≡ Some o → MayPublish P.QSBR K.allows seat.old.me.0 (W.seen caller.old) (W.heard caller.old) [] (cut_of o seat.old.me.0) }
    ensures seat { Keeps seat.old seat.new × (seat.new.me.1 ≡ seat.old.me.1) × (seat.new.me.0.sizes ≡ seat.old.me.0.sizes) × IsListed seat.new.me.0 }
    ensures unlinked { (result.0.table_id ≡ seat.old.table_id) × (result.0.me.1 ≡ []) × (result.0.me.0.sizes ≡ seat.old.me.0.sizes) × (result.0.me.0.seen ≡ seat.new.me.0.seen) × IsUnlinked result.0.me.0 × (cell_in result.0.me.0.object ≡ result.1) × (result.1 < table.now.pool) }
    ensures object { slice_get (list_in seat.old.me.0) index ≡ Some (object_in result.0.me.0.object) }
    ensures list { (own_in seat.new.me.0.chains ≡ record (own_in seat.old.me.0.chains) { head = (own_in seat.new.me.0.chains).head; objects = without_object (object_in result.0.me.0.object) (list_in seat.old.me.0) }) × (lent_chains seat.new.me.0.chains ≡ lent_chains seat.old.me.0.chains) × IsWriter seat.new.me.0 }
    ensures fewer { length (list_in seat.new.me.0) + 1 ≡ length (list_in seat.old.me.0) }
    ensures cut { Publishes P.QSBR K.allows seat.old.me.0 (W.seen caller.old) (W.heard caller.old) [] (cut_of (object_in result.0.me.0.object) seat.old.me.0) seat.new.me.0.seen }
    ensures heard { W.heard caller.new ≡ seat.new.me.0.seen }
    ensures same { OnlyMakesLast W.Caller caller.old caller.new seat.new.me.0.seen }
{
    let (before, cell) = find(table, seat, chain, index);
    let told = tell_all(table, caller);
    table.learn(seat, told);
    cut(table, seat, chain, before, cell);
    let unlinked = table.cut_object(seat);
    let left = table.tell_changes(seat);
    caller.learn_changes(table, left);
    (unlinked, cell)
}

/// The object of a fresh record, by the seat with the right to it, takes the place of the one at an index of the seat's
/// own chain. Answers the seat with the right to what it replaced, and its record.
pub(crate) fn replace_record<P: GracePlan, K: ChainRule, B: Site, W: Caller<B>>(
    table: &LiveTable<P, K>,
    seat: &mut LiveSeat,
    chain: usize,
    caller: &mut W,
    index: usize,
    owned: LiveSeat,
    cell: usize,
) -> (LiveSeat, usize)
    requires seat { (seat.old.table_id ≡ table.now.words.shared.table_id) × (seat.old.me.0.sizes ≡ table.now.words.shared.key) × (chain < table.now.chains) × (index < length (list_in seat.old.me.0)) × (cell < table.now.pool) }
    requires owned { (owned.table_id ≡ table.now.words.shared.table_id) × (owned.me.1 ≡ []) × IsFresh owned.me.0 × (cell_in owned.me.0.object ≡ cell) }
    requires site { (table.now.words.shared.table_id ≡ B.table) × (table.now.words.shared.key ≡ B.sizes) }
    requires right { IsWriter seat.old.me.0 × ((own_in seat.old.me.0.chains).chain ≡ chain) }
    requires rule { (o : ObjectId) → slice_get (list_in seat.old.me.0) index ≡ Some o → MayPublish P.QSBR K.allows seat.old.me.0 (W.seen caller.old) (W.heard caller.old) owned.me.0.seen (replace_by o seat.old.me.0 owned.me.0) }
    ensures seat { Keeps seat.old seat.new × (seat.new.me.1 ≡ seat.old.me.1) × (seat.new.me.0.sizes ≡ seat.old.me.0.sizes) × IsListed seat.new.me.0 }
    ensures unlinked { (result.0.table_id ≡ seat.old.table_id) × (result.0.me.1 ≡ []) × (result.0.me.0.sizes ≡ seat.old.me.0.sizes) × (result.0.me.0.seen ≡ seat.new.me.0.seen) × IsUnlinked result.0.me.0 × (cell_in result.0.me.0.object ≡ result.1) × (result.1 < table.now.pool) }
    ensures object { slice_get (list_in seat.old.me.0) index ≡ Some (object_in result.0.me.0.object) }
    ensures list { (own_in seat.new.me.0.chains ≡ record (own_in seat.old.me.0.chains) { head = (own_in seat.new.me.0.chains).head; objects = replaced (object_in result.0.me.0.object) (object_in owned.me.0.object) (list_in seat.old.me.0) }) × (lent_chains seat.new.me.0.chains ≡ lent_chains seat.old.me.0.chains) × IsWriter seat.new.me.0 }
    ensures many { length (list_in seat.new.me.0) ≡ length (list_in seat.old.me.0) }
    ensures replaced { Publishes P.QSBR K.allows seat.old.me.0 (W.seen caller.old) (W.heard caller.old) owned.me.0.seen (replace_by (object_in result.0.me.0.object) seat.old.me.0 owned.me.0) seat.new.me.0.seen }
    ensures heard { W.heard caller.new ≡ seat.new.me.0.seen }
    ensures same { OnlyMakesLast W.Caller caller.old caller.new seat.new.me.0.seen }
{
    let (before, was) = find(table, seat, chain, index);
    let next = load_link(table, seat, was);
    let mut told = tell_all(table, caller);
    table.take_object(&mut told, owned);
    load_seq(table, &mut told);
    table.take_object(seat, told);
    replace(table, seat, chain, before, cell, next);
    let unlinked = table.cut_object(seat);
    let changed = table.tell_changes(seat);
    caller.learn_changes(table, changed);
    (unlinked, was)
}

/// The note of the seat's own chain becomes this one.
pub(crate) fn write_note<P: GracePlan, K: ChainRule, B: Site, W: Caller<B>>(
    table: &LiveTable<P, K>,
    seat: &mut LiveSeat,
    chain: usize,
    caller: &mut W,
    note: u64,
)
    requires seat { (seat.old.table_id ≡ table.now.words.shared.table_id) × (seat.old.me.0.sizes ≡ table.now.words.shared.key) × (chain < table.now.chains) }
    requires site { (table.now.words.shared.table_id ≡ B.table) × (table.now.words.shared.key ≡ B.sizes) }
    requires right { IsWriter seat.old.me.0 × ((own_in seat.old.me.0.chains).chain ≡ chain) }
    requires rule { MayPublish P.QSBR K.allows seat.old.me.0 (W.seen caller.old) (W.heard caller.old) [] (ChainNote chain note) }
    ensures seat { Keeps seat.old seat.new × (seat.new.me.1 ≡ seat.old.me.1) × (seat.new.me.0.sizes ≡ seat.old.me.0.sizes) × IsListed seat.new.me.0 }
    ensures note { seat.new.me.0.chains ≡ record (own_in seat.old.me.0.chains) { note = note } ∷ lent_chains seat.old.me.0.chains }
    ensures noted { Publishes P.QSBR K.allows seat.old.me.0 (W.seen caller.old) (W.heard caller.old) [] (ChainNote chain note) seat.new.me.0.seen }
    ensures heard { W.heard caller.new ≡ seat.new.me.0.seen }
    ensures same { OnlyMakesLast W.Caller caller.old caller.new seat.new.me.0.seen }
{
    load_note(table, seat, chain);
    let told = tell_all(table, caller);
    table.learn(seat, told);
    store_note(table, seat, chain, note);
    let noted = table.tell_changes(seat);
    caller.learn_changes(table, noted);
}

/// The note of the seat's own chain becomes 2^63 and the number of the object of a fresh record, by the seat with the
/// right to that, which no chain has linked. Answers the seat with the right.
pub(crate) fn write_reservation<P: GracePlan, K: ChainRule, B: Site, W: Caller<B>>(
    table: &LiveTable<P, K>,
    seat: &mut LiveSeat,
    chain: usize,
    caller: &mut W,
    owned: LiveSeat,
    number: u64,
) -> LiveSeat
    requires seat { (seat.old.table_id ≡ table.now.words.shared.table_id) × (seat.old.me.0.sizes ≡ table.now.words.shared.key) × (chain < table.now.chains) }
    requires owned { (owned.table_id ≡ table.now.words.shared.table_id) × (owned.me.1 ≡ []) × IsFresh owned.me.0 × (number ≤ 2 ^ 62) }
    requires site { (table.now.words.shared.table_id ≡ B.table) × (table.now.words.shared.key ≡ B.sizes) }
    requires right { IsWriter seat.old.me.0 × ((own_in seat.old.me.0.chains).chain ≡ chain) }
    requires rule { MayReserve P.QSBR K.allows seat.old.me.0 (W.seen caller.old) (W.heard caller.old) owned.me.0 chain (2 ^ 63 + number) }
    ensures seat { Keeps seat.old seat.new × (seat.new.me.1 ≡ seat.old.me.1) × (seat.new.me.0.sizes ≡ seat.old.me.0.sizes) × IsListed seat.new.me.0 }
    ensures note { seat.new.me.0.chains ≡ record (own_in seat.old.me.0.chains) { note = 2 ^ 63 + number } ∷ lent_chains seat.old.me.0.chains }
    ensures noted { Publishes P.QSBR K.allows seat.old.me.0 (W.seen caller.old) (W.heard caller.old) owned.me.0.seen (ChainNote chain (2 ^ 63 + number)) seat.new.me.0.seen }
    ensures owned { (result.table_id ≡ seat.old.table_id) × (result.me.1 ≡ []) × (result.me.0.sizes ≡ seat.old.me.0.sizes) × (result.me.0.object ≡ owned.me.0.object) × (result.me.0.seen ≡ seat.new.me.0.seen) }
    ensures heard { W.heard caller.new ≡ seat.new.me.0.seen }
    ensures same { OnlyMakesLast W.Caller caller.old caller.new seat.new.me.0.seen }
{
    let mut told = tell_all(table, caller);
    table.take_object(&mut told, owned);
    load_seq(table, &mut told);
    load_note(table, seat, chain);
    table.take_object(seat, told);
    store_note(table, seat, chain, RESERVED + number);
    let owned = table.cut_object(seat);
    let reserved = table.tell_changes(seat);
    caller.learn_changes(table, reserved);
    owned
}

/// The seat, which has a chain of its own, sees all that the caller has seen and heard of, by a load of that chain's
/// note, and the caller hears of what the seat has seen then.
pub(crate) fn hear_caller<P: GracePlan, K: ChainRule, B: Site, W: Caller<B>>(
    table: &LiveTable<P, K>,
    seat: &mut LiveSeat,
    chain: usize,
    caller: &mut W,
)
    requires seat { (seat.old.table_id ≡ table.now.words.shared.table_id) × (seat.old.me.0.sizes ≡ table.now.words.shared.key) × (chain < table.now.chains) × IsWriter seat.old.me.0 }
    requires site { (table.now.words.shared.table_id ≡ B.table) × (table.now.words.shared.key ≡ B.sizes) }
    ensures seat { Keeps seat.old seat.new × (seat.new.me.1 ≡ seat.old.me.1) × (seat.new.me.0.sizes ≡ seat.old.me.0.sizes) × IsListed seat.new.me.0 }
    ensures chains { seat.new.me.0.chains ≡ seat.old.me.0.chains }
    ensures learned { HasLearned seat.old.me.0 seat.new.me.0 }
    ensures told { IsAfter P.QSBR K.allows (W.seen caller.old) (W.heard caller.old) seat.new.me.0.seen × Begins seat.old.me.0.seen seat.new.me.0.seen × Begins seat.old.me.0.heard seat.new.me.0.seen }
    ensures known { AreAsKnown seat.new.me.0.seen seat.new.me.0.chains }
    ensures heard { W.heard caller.new ≡ seat.new.me.0.seen }
    ensures same { OnlyHears W.Caller caller.old caller.new }
{
    load_note(table, seat, chain);
    let told = tell_all(table, caller);
    table.learn(seat, told);
    load_note(table, seat, chain);
    let heard = table.tell(seat);
    caller.learn(table, heard);
}
