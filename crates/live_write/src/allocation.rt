//! How records are allocated and discarded.

ghost use Rattle.std.specs.Prelude.{◌≡◌, ◌<◌, ◌≤◌, ◌^◌, List, ◌++◌, ◌∷◌, IfErr, IfOk, length};
ghost use Rattle.rcu_model.specs.declared.refusal.Refusal.TheVariants.{PoolFull};
ghost use Rattle.live_log.specs.Log.{Begins, Log};
ghost use Rattle.live_words.specs.live_rule.declared.view.Look.{Look};
ghost use Rattle.live_words.specs.live_rule.Rights.{IsFresh, cell_in, object_in, payload_in};
ghost use Rattle.live_words.specs.live_rule.Steps.{Keeps};
ghost use Rattle.live_read.specs.Hearing.{IsAfter, Stays};
ghost use Rattle.live_write.specs.Calls.{LoadsSeqBefore};
ghost use Rattle.live_write.specs.Searching.{Allocates, Fills, GetsNoRecord, Searched, TakesFor, freed_look};

use crate::records::Owned;
use crate::search::take_any;
use gp_memb::GracePlan;
use live_read::{Caller, Site};
use live_words::{
    ChainRule, LiveSeat, LiveTable, load_present, load_seq, store_discard, store_word,
};
use rcu_model::Refusal;
use std::marker::PhantomData;
use std::sync::Wait;

/// Stores the four words of a fresh record.
fn fill<P: GracePlan, K: ChainRule>(
    table: &LiveTable<P, K>,
    seat: &mut LiveSeat,
    cell: usize,
    words: [u64; 4],
)
    requires seat { (seat.old.table_id ≡ table.now.words.shared.table_id) × (seat.old.me.0.sizes ≡ table.now.words.shared.key) × (cell < table.now.pool) }
    requires right { IsFresh seat.old.me.0 × (cell_in seat.old.me.0.object ≡ cell) × (length (payload_in seat.old.me.0.object) ≡ 4) }
    ensures seat { Keeps seat.old seat.new }
    ensures words { Fills P.QSBR K.allows cell (object_in seat.old.me.0.object) words seat.old.me seat.new.me }
{
    store_word(table, seat, cell, 0, words[0]);
    store_word(table, seat, cell, 1, words[1]);
    store_word(table, seat, cell, 2, words[2]);
    store_word(table, seat, cell, 3, words[3]);
}

/// A fresh record with these words, by a seat: answers the record and its object's number. The search begins at `from`.
fn take_filled<P: GracePlan, K: ChainRule, R: Wait>(
    rt: &R,
    table: &LiveTable<P, K>,
    seat: &mut LiveSeat,
    from: usize,
    words: [u64; 4],
) -> Result<(usize, u64), Refusal>
    requires seat { (seat.old.table_id ≡ table.now.words.shared.table_id) × (seat.old.me.0.sizes ≡ table.now.words.shared.key) × (from ≤ table.now.pool) }
    ensures seat { Keeps seat.old seat.new }
    ensures taken { IfOk result (λ taken. (taken.0 < table.now.pool) × (taken.1 < 2 ^ 62) × Allocates P.QSBR K.allows table.now.words.shared.key taken.0 taken.1 words seat.old.me seat.new.me) }
    ensures refused { IfErr result (λ e. (e ≡ PoolFull) × (found : List Look) × Searched P.QSBR K.allows found seat.old.me.0.object seat.old.me seat.new.me × GetsNoRecord table.now.words.shared.key found) }
{
    // A pool may be empty, and the caller hears all the same.
    load_present(table, seat);
    let Some((cell, number)) = take_any(rt, table, seat, from) else {
        return Err(Refusal::PoolFull);
    };
    fill(table, seat, cell, words);
    Ok((cell, number))
}

/// Takes a free record for a new object, whose payload these words become. The caller hears of what it saw. `looks`
/// tells the words that it found and stored: it takes one record, and the object has the record's next number.
///
/// Refused with `PoolFull` only where it found each record in use, or with no number below 2^62 left for another
/// object. Then it stored nothing. It takes no memory. It waits for nobody, but tries again where another thread takes
/// and frees a record that it found free.
pub fn alloc<P: GracePlan, K: ChainRule, B: Site, W: Caller<B>, R: Wait>(
    rt: &R,
    table: &LiveTable<P, K>,
    caller: &mut W,
    words: [u64; 4],
) -> Result<Owned<B>, Refusal>
    requires site { (table.now.words.shared.table_id ≡ B.table) × (table.now.words.shared.key ≡ B.sizes) }
    ensures owned { IfOk result (λ o. (payload_in o.seat.me.0.object ≡ words) × (o.seat.me.0.seen ≡ W.heard caller.new)) }
    ensures looks { (found : List Look) × (W.looks caller.new ≡ found ++ W.looks caller.old) × IfErr result (λ e. (e ≡ PoolFull) × GetsNoRecord B.sizes found) }
    ensures took { IfOk result (λ o. TakesFor W.Caller B.sizes caller.old caller.new o.seat.me.0.object) }
    ensures heard { IsAfter P.QSBR K.allows (W.seen caller.old) (W.heard caller.old) (W.heard caller.new) }
    ensures same { Stays W.Caller caller.old caller.new × (W.loads caller.new ≡ W.loads caller.old) }
{
    let from = caller.search_from(table.pool);
    let mut seat = caller.tell(table);
    let taken = take_filled(rt, table, &mut seat, from, words);
    let own = table.cut_object(&mut seat);
    caller.learn(table, seat);
    let (cell, number) = taken?;
    caller.search_behind(cell);
    Ok(Owned {
        seat: own,
        cell,
        number,
        site: PhantomData,
    })
}

/// Frees a record that no chain has linked: stores four times its object's number in its header. That number is given
/// to no other. The caller hears of what was seen at the allocation; the store is kept among the words that were found for it.
pub fn discard<P: GracePlan, K: ChainRule, B: Site, W: Caller<B>>(
    table: &LiveTable<P, K>,
    caller: &mut W,
    owned: Owned<B>,
)
    requires site { (table.now.words.shared.table_id ≡ B.table) × (table.now.words.shared.key ≡ B.sizes) }
    ensures freed { W.looks caller.new ≡ freed_look B.sizes owned.seat.me.0.object ∷ W.looks caller.old }
    ensures heard { IsAfter P.QSBR K.allows (W.seen caller.old) (W.heard caller.old) (W.heard caller.new) × Begins owned.seat.me.0.seen (W.heard caller.new) }
    ensures loads { LoadsSeqBefore W.Caller P.QSBR K.allows caller.old caller.new }
    ensures same { Stays W.Caller caller.old caller.new }
{
    let Owned {
        seat,
        cell,
        number,
        ..
    } = owned;
    let mut told = caller.tell(table);
    load_seq(table, &mut told);
    table.take_object(&mut told, seat);
    store_discard(table, &mut told, cell, number);
    caller.learn(table, told);
}
