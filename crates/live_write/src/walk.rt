//! A walk over a chain by its writer's seat: a load of the head, and then of the link of each object. None of these
//! waits, and none writes an event.

ghost use Rattle.std.specs.Prelude.{◌≡◌, ◌≢◌, ℕ, ◌<◌, ◌≤◌, Option, Some, length, IfNone, IfSome, slice_get};
ghost use Rattle.rcu_model.specs.Sets.{In};
ghost use Rattle.rcu_model.specs.declared.event.ObjectId.{ObjectId};
ghost use Rattle.live_log.specs.Log.{record_of, payload_of};
ghost use Rattle.live_words.specs.live_rule.Rights.{IsListed, IsWriter, own_in};
ghost use Rattle.live_words.specs.live_rule.Steps.{Keeps, Went};
ghost use Rattle.live_words.specs.step_chains.Chains.{IsBefore, IsThere};
ghost use Rattle.live_write.specs.Chains.{IsFirstWith, first_word};

use gp_memb::GracePlan;
use live_words::{ChainRule, LiveSeat, LiveTable, load_head, load_link, load_word};

/// How many objects the seat's own chain links.
pub(crate) fn count<P: GracePlan, K: ChainRule>(
    table: &LiveTable<P, K>,
    seat: &mut LiveSeat,
    chain: usize,
) -> usize
    requires seat { (seat.old.table_id ≡ table.now.words.shared.table_id) × (seat.old.me.0.sizes ≡ table.now.words.shared.key) × (chain < table.now.chains) }
    requires right { IsWriter seat.old.me.0 × ((own_in seat.old.me.0.chains).chain ≡ chain) }
    ensures seat { Keeps seat.old seat.new }
    ensures walked { Went P.QSBR K.allows seat.old.me.0 seat.old.me seat.new.me × IsListed seat.new.me.0 }
    ensures count { (result ≡ length (own_in seat.old.me.0.chains).objects) × (result ≤ table.now.pool) }
{
    let mut link = load_head(table, seat, chain);
    for passed in 0..table.pool {
        if link == 0 {
            return passed;
        }
        link = load_link(table, seat, (link - 1) as usize);
    }
    table.pool
}

/// The record of the object at an index of the seat's own chain, and that of the object before it, or none before the
/// first one.
pub(crate) fn find<P: GracePlan, K: ChainRule>(
    table: &LiveTable<P, K>,
    seat: &mut LiveSeat,
    chain: usize,
    index: usize,
) -> (Option<usize>, usize)
    requires seat { (seat.old.table_id ≡ table.now.words.shared.table_id) × (seat.old.me.0.sizes ≡ table.now.words.shared.key) × (chain < table.now.chains) }
    requires right { IsWriter seat.old.me.0 × ((own_in seat.old.me.0.chains).chain ≡ chain) }
    requires index { index < length (own_in seat.old.me.0.chains).objects }
    ensures seat { Keeps seat.old seat.new }
    ensures walked { Went P.QSBR K.allows seat.old.me.0 seat.old.me seat.new.me × IsListed seat.new.me.0 }
    ensures low { IfSome result.0 (λ j. j < table.now.pool) × (result.1 < table.now.pool) }
    ensures found { (p : Option ObjectId) × (o : ObjectId) × (slice_get (own_in seat.old.me.0.chains).objects index ≡ Some o) × IsThere seat.new.me.0 result.0 p × IsBefore seat.new.me.0 p o × ((record_of seat.new.me.0.seen o).0 ≡ result.1) }
{
    let mut before = None;
    let mut link = load_head(table, seat, chain);
    for _passed in 0..index {
        let cell = (link - 1) as usize;
        before = Some(cell);
        link = load_link(table, seat, cell);
    }
    (before, (link - 1) as usize)
}

/// The payload of the object at an index of the seat's own chain.
pub(crate) fn read<P: GracePlan, K: ChainRule>(
    table: &LiveTable<P, K>,
    seat: &mut LiveSeat,
    chain: usize,
    index: usize,
) -> [u64; 4]
    requires seat { (seat.old.table_id ≡ table.now.words.shared.table_id) × (seat.old.me.0.sizes ≡ table.now.words.shared.key) × (chain < table.now.chains) }
    requires right { IsWriter seat.old.me.0 × ((own_in seat.old.me.0.chains).chain ≡ chain) }
    requires index { index < length (own_in seat.old.me.0.chains).objects }
    ensures seat { Keeps seat.old seat.new }
    ensures walked { Went P.QSBR K.allows seat.old.me.0 seat.old.me seat.new.me × IsListed seat.new.me.0 }
    ensures words { (o : ObjectId) × (slice_get (own_in seat.old.me.0.chains).objects index ≡ Some o) × (result ≡ payload_of seat.new.me.0.seen o) }
{
    let (_, cell) = find(table, seat, chain, index);
    let first = load_word(table, seat, cell, 0);
    let second = load_word(table, seat, cell, 1);
    let third = load_word(table, seat, cell, 2);
    let fourth = load_word(table, seat, cell, 3);
    [first, second, third, fourth]
}

/// The index of the first object of the seat's own chain whose payload begins with this word, if one does.
pub(crate) fn seek<P: GracePlan, K: ChainRule>(
    table: &LiveTable<P, K>,
    seat: &mut LiveSeat,
    chain: usize,
    word: u64,
) -> Option<usize>
    requires seat { (seat.old.table_id ≡ table.now.words.shared.table_id) × (seat.old.me.0.sizes ≡ table.now.words.shared.key) × (chain < table.now.chains) }
    requires right { IsWriter seat.old.me.0 × ((own_in seat.old.me.0.chains).chain ≡ chain) }
    ensures seat { Keeps seat.old seat.new }
    ensures walked { Went P.QSBR K.allows seat.old.me.0 seat.old.me seat.new.me × IsListed seat.new.me.0 }
    ensures found { IfSome result (λ index. IsFirstWith seat.new.me.0.seen (own_in seat.old.me.0.chains).objects word index) }
    ensures none { IfNone result ((o : ObjectId) → In (own_in seat.old.me.0.chains).objects o → first_word seat.new.me.0.seen o ≢ word) }
{
    let mut link = load_head(table, seat, chain);
    for passed in 0..table.pool {
        if link == 0 {
            return None;
        }
        let cell = (link - 1) as usize;
        let found = load_word(table, seat, cell, 0);
        if found == word {
            return Some(passed);
        }
        link = load_link(table, seat, cell);
    }
    None
}
