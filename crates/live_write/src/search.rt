//! The search for a free record.

ghost use Rattle.std.specs.Prelude.{◌≡◌, ℕ, ◌/◌, ◌<◌, ◌≤◌, ◌^◌, List, IfNone, IfSome};
ghost use Rattle.live_words.specs.live_rule.declared.view.Look.{Look};
ghost use Rattle.live_words.specs.live_rule.Objects.{HasNext, next_number};
ghost use Rattle.live_words.specs.live_rule.Steps.{IsLater, Keeps};
ghost use Rattle.live_write.specs.Searching.{AreTaken, GetsNoRecord, IsTaken, Searched, StoresNothing, Takes};

use gp_memb::GracePlan;
use live_words::{ChainRule, LiveSeat, LiveTable, load_header, next_number, take_cell};
use std::sync::Wait;

/// Each object has a number below this.
const NUMBERS: u64 = 4_611_686_018_427_387_904;

/// The number of the next object of a record with this header, where the record is free and the number is below 2^62.
fn next_in<P: GracePlan, K: ChainRule>(
    table: &LiveTable<P, K>,
    cell: usize,
    header: u64,
) -> Option<u64>
    requires { cell < table.now.pool }
    ensures next { IfSome result (λ n. (n ≡ next_number table.now.words.shared.key cell (header / 4)) × HasNext table.now.words.shared.key cell header) }
    ensures none { IfNone result (¬ HasNext table.now.words.shared.key cell header) }
{
    if header % 4 != 0 {
        return None;
    }
    let number = next_number(table, cell, header);
    if number < NUMBERS { Some(number) } else { None }
}

/// Takes a record for a new object, if it is free, and answers the object's number. It exchanges a header only where it
/// found a free one, so that a search over records in use stores nothing. Where another thread takes and frees the record
/// meanwhile, it tries again.
fn take_if_free<P: GracePlan, K: ChainRule, R: Wait>(
    rt: &R,
    table: &LiveTable<P, K>,
    seat: &mut LiveSeat,
    cell: usize,
) -> Option<u64>
    requires { (seat.old.table_id ≡ table.now.words.shared.table_id) × (seat.old.me.0.sizes ≡ table.now.words.shared.key) × (cell < table.now.pool) }
    ensures seat { Keeps seat.old seat.new }
    ensures taken { IfSome result (λ n. (n < 2 ^ 62) × Takes P.QSBR K.allows table.now.words.shared.key n cell seat.old.me seat.new.me) }
    ensures none { IfNone result ((found : List Look) × Searched P.QSBR K.allows found seat.old.me.0.object seat.old.me seat.new.me × IsTaken table.now.words.shared.key found cell × StoresNothing found) }
{
    let mut header = load_header(table, seat, cell);
    for _ in rt.forever() {
        let Some(number) = next_in(table, cell, header) else {
            return None;
        };
        let found = take_cell(table, seat, cell, header, number);
        if found == header {
            return Some(number);
        }
        header = found;
    }
    unreachable!()
}

/// Takes the first free record of those from the one to before the other, or finds that each is taken. Answers the
/// record, and its object's number.
fn take_from<P: GracePlan, K: ChainRule, R: Wait>(
    rt: &R,
    table: &LiveTable<P, K>,
    seat: &mut LiveSeat,
    from: usize,
    to: usize,
) -> Option<(usize, u64)>
    requires seat { (seat.old.table_id ≡ table.now.words.shared.table_id) × (seat.old.me.0.sizes ≡ table.now.words.shared.key) × (from ≤ to) × (to ≤ table.now.pool) }
    requires later { IsLater P.QSBR K.allows seat.old.me.0 seat.old.me.0 }
    ensures seat { Keeps seat.old seat.new }
    ensures taken { IfSome result (λ t. (t.0 < to) × (t.1 < 2 ^ 62) × Takes P.QSBR K.allows table.now.words.shared.key t.1 t.0 seat.old.me seat.new.me) }
    ensures none { IfNone result ((found : List Look) × Searched P.QSBR K.allows found seat.old.me.0.object seat.old.me seat.new.me × ((i : ℕ) → from ≤ i → i < to → IsTaken table.now.words.shared.key found i) × StoresNothing found) }
{
    for cell in from..to {
        if let Some(number) = take_if_free(rt, table, seat, cell) {
            return Some((cell, number));
        }
    }
    None
}

/// Takes a free record for a new object, or finds that each is taken. It looks from this place to the pool's end, and
/// then at the records before it. Answers the record, and its object's number.
pub(crate) fn take_any<P: GracePlan, K: ChainRule, R: Wait>(
    rt: &R,
    table: &LiveTable<P, K>,
    seat: &mut LiveSeat,
    from: usize,
) -> Option<(usize, u64)>
    requires seat { (seat.old.table_id ≡ table.now.words.shared.table_id) × (seat.old.me.0.sizes ≡ table.now.words.shared.key) × (from ≤ table.now.pool) }
    requires later { IsLater P.QSBR K.allows seat.old.me.0 seat.old.me.0 }
    ensures seat { Keeps seat.old seat.new }
    ensures taken { IfSome result (λ t. (t.0 < table.now.pool) × (t.1 < 2 ^ 62) × Takes P.QSBR K.allows table.now.words.shared.key t.1 t.0 seat.old.me seat.new.me) }
    ensures none { IfNone result ((found : List Look) × Searched P.QSBR K.allows found seat.old.me.0.object seat.old.me seat.new.me × GetsNoRecord table.now.words.shared.key found) }
{
    match take_from(rt, table, seat, from, table.pool) {
        Some(taken) => Some(taken),
        None => take_from(rt, table, seat, 0, from),
    }
}
