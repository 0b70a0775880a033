//! The search for a free slot.

ghost use Rattle.std.specs.Prelude.{◌≡◌, ◌<◌, IfNone, IfSome, MatchBool};
ghost use Rattle.gp_memb.specs.Plan.{bit_of};
ghost use Rattle.live_words.specs.live_rule.Steps.{Keeps};
ghost use Rattle.live_read.specs.Registering.{AllWereClaimed, Finds, Misses, WasClaimed};

use gp_memb::GracePlan;
use live_words::{ChainRule, LiveSeat, LiveTable, claim, look_group};

/// Whether a bit of a word is set.
fn has_bit(word: u64, bit: usize) -> bool
    requires { bit < 64 }
    ensures { result ≡ bit_of word bit }
{
    (word >> bit) % 2 == 1
}

/// Claims a slot, if it is free. It changes a group word only where it loaded a clear bit, so that a search over slots
/// in use stores nothing.
fn claim_if_free<P: GracePlan, K: ChainRule>(
    table: &LiveTable<P, K>,
    seat: &mut LiveSeat,
    slot: usize,
) -> bool
    requires { (seat.old.table_id ≡ table.now.words.shared.table_id) × (slot < table.now.slots) }
    ensures seat { Keeps seat.old seat.new }
    ensures claimed { MatchBool result (Finds P.QSBR K.allows slot seat.old.me seat.new.me) (Misses P.QSBR K.allows (WasClaimed slot) seat.old.me seat.new.me) }
{
    if has_bit(look_group(table, seat, slot / 64), slot % 64) {
        return false;
    }
    !has_bit(claim(table, seat, slot), slot % 64)
}

/// Claims the first slot that it finds free, or finds that each is claimed.
pub(crate) fn claim_any<P: GracePlan, K: ChainRule>(
    table: &LiveTable<P, K>,
    seat: &mut LiveSeat,
) -> Option<usize>
    requires { seat.old.table_id ≡ table.now.words.shared.table_id }
    ensures seat { Keeps seat.old seat.new }
    ensures claimed { IfSome result (λ r. (r < table.now.slots) × Finds P.QSBR K.allows r seat.old.me seat.new.me) }
    ensures none { IfNone result (Misses P.QSBR K.allows (AllWereClaimed table.now.words.shared.key) seat.old.me seat.new.me) }
{
    // What is found comes after all that the seat has heard of, also where there are no slots.
    look_group(table, seat, 0);
    for slot in 0..table.slots {
        if claim_if_free(table, seat, slot) {
            return Some(slot);
        }
    }
    None
}
