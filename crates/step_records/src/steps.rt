//! One function for each kind of step on a record. None of them waits, and none writes an event: what is not linked is
//! no part of the log. What `store_link` and `store_word` would store they load first.
ghost use Rattle.std.specs.Prelude.{◌≡◌, ◌≢◌, ◌+◌, ◌/◌, ◌<◌, ◌^◌};
ghost use Rattle.live_rule.specs.Places.{cell_at};
ghost use Rattle.live_rule.specs.Objects.{IsFreeWord, free_word, fresh_word, next_number};
ghost use Rattle.live_rule.specs.Seats.{but_object};
ghost use Rattle.live_rule.specs.Rights.{IsFresh, KnowsChains, cell_in, object_in};
ghost use Rattle.live_rule.specs.Steps.{Keeps, Went, looked_view, stored_view};
ghost use Rattle.step_records.specs.Records.{HasRecord, TookRecord, linked_view, worded_view};

use crate::plays::{Discards, LooksFresh, LooksHeader, LooksNumber, StoresLink, StoresWord, Takes};
use live_rule::{ChainRule, GracePlan, LiveSeat, LiveTable};

/// Loads the header of a record, which is a multiple of 4 where the record is free. What it found is kept among the looks.
pub fn load_header<P: GracePlan, K: ChainRule>(
    table: &LiveTable<P, K>,
    seat: &mut LiveSeat,
    cell: usize,
) -> u64
    requires { (seat.old.table_id ≡ table.now.words.shared.table_id) × (cell < table.now.pool) }
    ensures seat { Keeps seat.old seat.new }
    ensures looked { Went P.QSBR K.allows (looked_view (cell_at table.now.words.shared.key cell 0) result seat.old.me.0) seat.old.me seat.new.me }
{
    let place = table.cell_place(cell, 0);
    table.words.shared.load::<LooksHeader<P, K>>(seat, place)
}

/// The number of the seat's object, by a load of its record's header, which is 1 more than four times the number. What it
/// found is kept among the looks.
pub fn load_number<P: GracePlan, K: ChainRule>(
    table: &LiveTable<P, K>,
    seat: &mut LiveSeat,
    cell: usize,
) -> u64
    requires seat { (seat.old.table_id ≡ table.now.words.shared.table_id) × (cell < table.now.pool) }
    requires right { HasRecord seat.old.me.0 × (cell_in seat.old.me.0.object ≡ cell) }
    ensures seat { Keeps seat.old seat.new }
    ensures number { (result ≡ (object_in seat.old.me.0.object).0) × (result < 2 ^ 62) }
    ensures looked { Went P.QSBR K.allows (looked_view (cell_at table.now.words.shared.key cell 0) (fresh_word result) seat.old.me.0) seat.old.me seat.new.me }
{
    let place = table.cell_place(cell, 0);
    table.words.shared.load::<LooksNumber<P, K>>(seat, place) / 4
}

/// The number of a free record's next object. Numbers of one record grow by the pool, and each has the record's own
/// number as its remainder modulo the pool. So no two objects have one number.
pub fn next_number<P: GracePlan, K: ChainRule>(
    table: &LiveTable<P, K>,
    cell: usize,
    header: u64,
) -> u64
    requires { cell < table.now.pool }
    ensures { result ≡ next_number table.now.words.shared.key cell (header / 4) }
{
    let last = header / 4;
    let pool = table.pool as u64;
    if last == 0 {
        pool + cell as u64
    } else {
        last + pool
    }
}

/// Takes a free record, where its header is still this one. Its new object has the record's next number. Answers the
/// header that it found: the record was taken exactly where that is the same. Its link and payload are what was left
/// there. What it found is kept among the looks, and what it stored.
pub fn take_cell<P: GracePlan, K: ChainRule>(
    table: &LiveTable<P, K>,
    seat: &mut LiveSeat,
    cell: usize,
    header: u64,
    number: u64,
) -> u64
    requires seat { (seat.old.table_id ≡ table.now.words.shared.table_id) × (seat.old.me.0.sizes ≡ table.now.words.shared.key) × (cell < table.now.pool) }
    requires free { IsFreeWord header × (number ≡ next_number table.now.words.shared.key cell (header / 4)) × (number < 2 ^ 62) }
    ensures seat { Keeps seat.old seat.new }
    ensures taken { result ≡ header → TookRecord P.QSBR K.allows table.now.words.shared.key cell result number seat.old.me seat.new.me }
    ensures missed { result ≢ header → Went P.QSBR K.allows (looked_view (cell_at table.now.words.shared.key cell 0) result seat.old.me.0) seat.old.me seat.new.me }
{
    let place = table.cell_place(cell, 0);
    table
        .words
        .shared
        .compare_exchange::<Takes<P, K>>(seat, place, header, 4 * number + 1)
}

/// Stores the link of a fresh record, unless it is there: a load is cheaper than a store. A writer goes on knowing its
/// chains.
pub fn store_link<P: GracePlan, K: ChainRule>(
    table: &LiveTable<P, K>,
    seat: &mut LiveSeat,
    cell: usize,
    link: u64,
)
    requires seat { (seat.old.table_id ≡ table.now.words.shared.table_id) × (seat.old.me.0.sizes ≡ table.now.words.shared.key) × (cell < table.now.pool) }
    requires right { IsFresh seat.old.me.0 × (cell_in seat.old.me.0.object ≡ cell) }
    ensures seat { Keeps seat.old seat.new }
    ensures linked { Went P.QSBR K.allows (linked_view link seat.old.me.0) seat.old.me seat.new.me × KnowsChains seat.old.me.0 seat.new.me.0 }
{
    let place = table.cell_place(cell, 1);
    let shared = &table.words.shared;
    if shared.load::<LooksFresh<P, K>>(seat, place) != link {
        shared.store::<StoresLink<P, K>>(seat, place, link);
    }
}

/// Stores one of the four payload words of a fresh record, the first one at `index` 0, unless it is there. A writer goes
/// on knowing its chains.
pub fn store_word<P: GracePlan, K: ChainRule>(
    table: &LiveTable<P, K>,
    seat: &mut LiveSeat,
    cell: usize,
    index: usize,
    word: u64,
)
    requires seat { (seat.old.table_id ≡ table.now.words.shared.table_id) × (seat.old.me.0.sizes ≡ table.now.words.shared.key) × (cell < table.now.pool) × (index < 4) }
    requires right { IsFresh seat.old.me.0 × (cell_in seat.old.me.0.object ≡ cell) }
    ensures seat { Keeps seat.old seat.new }
    ensures worded { Went P.QSBR K.allows (worded_view index word seat.old.me.0) seat.old.me seat.new.me × KnowsChains seat.old.me.0 seat.new.me.0 }
{
    let place = table.cell_place(cell, index + 2);
    let shared = &table.words.shared;
    if shared.load::<LooksFresh<P, K>>(seat, place) != word {
        shared.store::<StoresWord<P, K>>(seat, place, word);
    }
}

/// Frees a fresh record: the store of `discard`, which is kept among the looks. Its object's number is given to no
/// other.
pub fn store_discard<P: GracePlan, K: ChainRule>(
    table: &LiveTable<P, K>,
    seat: &mut LiveSeat,
    cell: usize,
    number: u64,
)
    requires seat { (seat.old.table_id ≡ table.now.words.shared.table_id) × (cell < table.now.pool) }
    requires right { IsFresh seat.old.me.0 × (cell_in seat.old.me.0.object ≡ cell) × ((object_in seat.old.me.0.object).0 ≡ number) × (number < 2 ^ 62) }
    ensures seat { Keeps seat.old seat.new }
    ensures discarded { Went P.QSBR K.allows (stored_view (cell_at table.now.words.shared.key cell 0) (free_word number) (but_object seat.old.me.0)) seat.old.me seat.new.me }
{
    let place = table.cell_place(cell, 0);
    table
        .words
        .shared
        .store::<Discards<P, K>>(seat, place, 4 * number);
}
