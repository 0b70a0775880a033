//! The loads of a reader in a section, or of a chain's writer. None of them waits, and none writes an event.
ghost use Rattle.std.specs.Prelude.{◌≡◌, ◌<◌, ◌≤◌, Option, length, slice_index_or};
ghost use Rattle.live_rule.specs.rcu_model.declared.event.ObjectId.{ObjectId};
ghost use Rattle.live_rule.specs.live_log.Log.{chain_note, record_of};
ghost use Rattle.live_rule.specs.Steps.{Keeps, Went};
ghost use Rattle.live_rule.specs.Rights.{IsWriter, KnowsChains, own_in};
ghost use Rattle.step_chains.specs.Chains.{IsFirst, IsNext, MayRead, StaysOpen};

use crate::plays::{LooksHead, LooksLink, LooksNote, LooksWord};
use live_rule::{ChainRule, GracePlan, LiveSeat, LiveTable};

/// Loads the head of a chain, liburcu's `rcu_dereference` of its first pointer: 0 where the chain is empty, else 1 more
/// than the first object's record. A reader's open section stays open, and may hold the first object; a writer goes on
/// knowing its chains, and its own one has no more objects than there are records.
pub fn load_head<P: GracePlan, K: ChainRule>(
    table: &LiveTable<P, K>,
    seat: &mut LiveSeat,
    chain: usize,
) -> u64
    requires { (seat.old.table_id ≡ table.now.words.shared.table_id) × (seat.old.me.0.sizes ≡ table.now.words.shared.key) × (chain < table.now.chains) }
    ensures seat { Keeps seat.old seat.new }
    ensures looked { Went P.QSBR K.allows seat.old.me.0 seat.old.me seat.new.me }
    ensures known { KnowsChains seat.old.me.0 seat.new.me.0 × StaysOpen P.QSBR seat.old.me.0 seat.new.me.0 }
    ensures first { IsFirst P.QSBR seat.old.me.0 seat.new.me.0 chain result }
    ensures own { IsWriter seat.old.me.0 → (own_in seat.old.me.0.chains).chain ≡ chain → result ≡ (own_in seat.old.me.0.chains).head }
    ensures few { IsWriter seat.old.me.0 → length (own_in seat.old.me.0.chains).objects ≤ table.now.pool }
{
    let place = table.head_place(chain);
    table.words.shared.load::<LooksHead<P, K>>(seat, place)
}

/// Loads the link of a record whose object may be read, liburcu's `rcu_dereference` of its next pointer: 0 where
/// nothing follows, else 1 more than the record of what follows. A section that may hold the object may hold that too.
pub fn load_link<P: GracePlan, K: ChainRule>(
    table: &LiveTable<P, K>,
    seat: &mut LiveSeat,
    cell: usize,
) -> u64
    requires { (seat.old.table_id ≡ table.now.words.shared.table_id) × (seat.old.me.0.sizes ≡ table.now.words.shared.key) × (cell < table.now.pool) }
    ensures seat { Keeps seat.old seat.new }
    ensures looked { Went P.QSBR K.allows seat.old.me.0 seat.old.me seat.new.me }
    ensures known { KnowsChains seat.old.me.0 seat.new.me.0 × StaysOpen P.QSBR seat.old.me.0 seat.new.me.0 }
    ensures next { (o : ObjectId) → MayRead P.QSBR seat.old.me.0 o cell → (found : Option ObjectId) × IsNext P.QSBR seat.old.me.0 seat.new.me.0 o result found }
{
    let place = table.cell_place(cell, 1);
    table.words.shared.load::<LooksLink<P, K>>(seat, place)
}

/// Loads a payload word of a record whose object may be read, the first one at `index` 0: the word that was noted with
/// the object when it was published.
pub fn load_word<P: GracePlan, K: ChainRule>(
    table: &LiveTable<P, K>,
    seat: &mut LiveSeat,
    cell: usize,
    index: usize,
) -> u64
    requires { (seat.old.table_id ≡ table.now.words.shared.table_id) × (seat.old.me.0.sizes ≡ table.now.words.shared.key) × (cell < table.now.pool) × (index < 4) }
    ensures seat { Keeps seat.old seat.new }
    ensures looked { Went P.QSBR K.allows seat.old.me.0 seat.old.me seat.new.me }
    ensures known { KnowsChains seat.old.me.0 seat.new.me.0 × StaysOpen P.QSBR seat.old.me.0 seat.new.me.0 }
    ensures word { (o : ObjectId) → MayRead P.QSBR seat.old.me.0 o cell → result ≡ slice_index_or (record_of seat.old.me.0.seen o).1 index 0 }
{
    let place = table.cell_place(cell, index + 2);
    table.words.shared.load::<LooksWord<P, K>>(seat, place)
}

/// Loads the note of a chain.
pub fn load_note<P: GracePlan, K: ChainRule>(
    table: &LiveTable<P, K>,
    seat: &mut LiveSeat,
    chain: usize,
) -> u64
    requires { (seat.old.table_id ≡ table.now.words.shared.table_id) × (seat.old.me.0.sizes ≡ table.now.words.shared.key) × (chain < table.now.chains) }
    ensures seat { Keeps seat.old seat.new }
    ensures looked { Went P.QSBR K.allows seat.old.me.0 seat.old.me seat.new.me }
    ensures known { KnowsChains seat.old.me.0 seat.new.me.0 × StaysOpen P.QSBR seat.old.me.0 seat.new.me.0 }
    ensures note { result ≡ chain_note chain seat.new.me.0.seen }
{
    let place = table.note_place(chain);
    table.words.shared.load::<LooksNote<P, K>>(seat, place)
}
