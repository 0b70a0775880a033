//! One function for each kind of step on a group word. None waits, and none tries again.
ghost use Rattle.std.specs.Prelude.{◌≡◌, ◌/◌, ◌%◌, ◌<◌, true, false};
ghost use Rattle.live_rule.specs.gp_memb.Plan.{bit_of};
ghost use Rattle.live_rule.specs.Places.{group_at};
ghost use Rattle.live_rule.specs.Readers.{IsClosed};
ghost use Rattle.live_rule.specs.Rights.{IsOwner, word_in};
ghost use Rattle.live_rule.specs.Steps.{Keeps, Went, looked_view};
ghost use Rattle.step_readers.specs.Groups.{GivesSlot, TakesSlot};

use crate::group_plays::{Claims, LooksGroup, Releases};
use crate::masks::{all_bits_but, bit_alone};
use live_rule::{ChainRule, GracePlan, LiveSeat, LiveTable};

/// Loads the word of a group of 64 slots. What it found is kept among the looks.
pub fn look_group<P: GracePlan, K: ChainRule>(
    table: &LiveTable<P, K>,
    seat: &mut LiveSeat,
    group: usize,
) -> u64
    requires { (seat.old.table_id ≡ table.now.words.shared.table_id) × (group < 4) }
    ensures seat { Keeps seat.old seat.new }
    ensures looked { Went P.QSBR K.allows (looked_view (group_at group) result seat.old.me.0) seat.old.me seat.new.me }
{
    let place = table.group_place(group);
    table.words.shared.load::<LooksGroup<P, K>>(seat, place)
}

/// Sets the bit of a slot in its group word, and answers the word that it found, which is kept among the looks. Where
/// the bit was 0 the slot is the seat's: its word is closed, and no section is open in it. Else another has it.
pub fn claim<P: GracePlan, K: ChainRule>(
    table: &LiveTable<P, K>,
    seat: &mut LiveSeat,
    slot: usize,
) -> u64
    requires { (seat.old.table_id ≡ table.now.words.shared.table_id) × (slot < table.now.slots) }
    ensures seat { Keeps seat.old seat.new }
    ensures claimed { bit_of result (slot % 64) ≡ false → TakesSlot P.QSBR K.allows slot result seat.old.me seat.new.me }
    ensures missed { bit_of result (slot % 64) ≡ true → Went P.QSBR K.allows (looked_view (group_at (slot / 64)) result seat.old.me.0) seat.old.me seat.new.me }
{
    let mask = bit_alone(slot % 64);
    let place = table.group_place(slot / 64);
    table
        .words
        .shared
        .fetch_or::<Claims<P, K>>(seat, place, mask)
}

/// Clears the bit of the seat's slot, whose word is closed, in its group word: from here on the slot is nobody's. The
/// bit was set, and the word that this leaves is kept among the looks.
pub fn release<P: GracePlan, K: ChainRule>(
    table: &LiveTable<P, K>,
    seat: &mut LiveSeat,
    slot: usize,
)
    requires seat { (seat.old.table_id ≡ table.now.words.shared.table_id) × (slot < table.now.slots) }
    requires right { IsOwner seat.old.me.0 slot × IsClosed P.QSBR (word_in seat.old.me.0.slot) }
    ensures seat { Keeps seat.old seat.new }
    ensures released { GivesSlot P.QSBR K.allows slot seat.old.me seat.new.me }
{
    let mask = all_bits_but(slot % 64);
    let place = table.group_place(slot / 64);
    table
        .words
        .shared
        .fetch_and::<Releases<P, K>>(seat, place, mask);
}
