//! One function for each kind of step of a reader.
ghost use Rattle.std.specs.Prelude.{◌≡◌, ℕ, ◌<◌};
ghost use Rattle.reader_word.specs.declared.layout.Layout.TheVariants.{Wide};
ghost use Rattle.live_rule.specs.gp_memb.Plan.{Shows};
ghost use Rattle.live_rule.specs.live_log.Log.{MayCopy, open_of, present_of, sections_of};
ghost use Rattle.live_rule.specs.Places.{slot_at};
ghost use Rattle.live_rule.specs.Readers.{Fits, IsClosed};
ghost use Rattle.live_rule.specs.Seen.{Looked};
ghost use Rattle.live_rule.specs.Steps.{Keeps, Went, looked_view};
ghost use Rattle.live_rule.specs.Rights.{IsOwner, count_in, word_in};
ghost use Rattle.step_readers.specs.Sections.{Announced, Closed, Nested, Opened, copied};

use crate::plays::{Announces, Closes, LooksPresent, LooksSlot, Nests, Opens};
use live_rule::{ChainRule, GracePlan, LiveSeat, LiveTable};

/// Loads the present phase (0 or 1), or in the quiescent-state flavour the present number.
pub fn load_present<P: GracePlan, K: ChainRule>(table: &LiveTable<P, K>, seat: &mut LiveSeat) -> u64
    requires { seat.old.table_id ≡ table.now.words.shared.table_id }
    ensures seat { Keeps seat.old seat.new }
    ensures looked { Looked P.QSBR K.allows seat.old.me seat.new.me }
    ensures present { present_of seat.new.me.0.seen ≡ result }
{
    let place = table.present_place();
    table.words.shared.load::<LooksPresent<P, K>>(seat, place)
}

/// Loads the word of a slot's reader, by any seat. What it found is kept among the looks. The slot's owner knew it.
pub fn look_slot<P: GracePlan, K: ChainRule>(
    table: &LiveTable<P, K>,
    seat: &mut LiveSeat,
    slot: usize,
) -> u64
    requires { (seat.old.table_id ≡ table.now.words.shared.table_id) × (seat.old.me.0.sizes ≡ table.now.words.shared.key) × (slot < table.now.slots) }
    ensures seat { Keeps seat.old seat.new }
    ensures looked { Went P.QSBR K.allows (looked_view (slot_at slot) result seat.old.me.0) seat.old.me seat.new.me }
    ensures word { Fits P.QSBR result (open_of slot seat.new.me.0.seen) }
    ensures own { IsOwner seat.old.me.0 slot → (result ≡ word_in seat.old.me.0.slot) × (sections_of slot seat.new.me.0.seen ≡ count_in seat.old.me.0.slot) }
{
    let place = table.slot_place(slot);
    table.words.shared.load::<LooksSlot<P, K>>(seat, place)
}

/// The store of an outermost lock, or of going online: it opens the slot's next section. What the word copied was
/// loaded before.
pub fn store_open<P: GracePlan, K: ChainRule>(
    table: &LiveTable<P, K>,
    seat: &mut LiveSeat,
    slot: usize,
    word: u64,
)
    requires seat { (seat.old.table_id ≡ table.now.words.shared.table_id) × (slot < table.now.slots) }
    requires right { IsOwner seat.old.me.0 slot × IsClosed P.QSBR (word_in seat.old.me.0.slot) }
    requires word { Shows P.QSBR Wide (copied P.QSBR word) word × MayCopy P.QSBR (present_of seat.old.me.0.seen) (copied P.QSBR word) }
    ensures seat { Keeps seat.old seat.new }
    ensures opened { Opened P.QSBR K.allows slot word seat.old.me seat.new.me }
{
    let place = table.slot_place(slot);
    table.words.shared.store::<Opens<P, K>>(seat, place, word);
}

/// The store of an inner lock or unlock, which writes no event.
pub fn store_inner<P: GracePlan, K: ChainRule>(
    table: &LiveTable<P, K>,
    seat: &mut LiveSeat,
    slot: usize,
    word: u64,
)
    requires seat { (seat.old.table_id ≡ table.now.words.shared.table_id) × (slot < table.now.slots) }
    requires right { IsOwner seat.old.me.0 slot × ¬ IsClosed P.QSBR (word_in seat.old.me.0.slot) }
    requires word { (m : ℕ) → Shows P.QSBR Wide m (word_in seat.old.me.0.slot) → Shows P.QSBR Wide m word }
    ensures seat { Keeps seat.old seat.new }
    ensures nested { Nested P.QSBR K.allows slot word seat.old.me seat.new.me }
{
    let place = table.slot_place(slot);
    table.words.shared.store::<Nests<P, K>>(seat, place, word);
}

/// The store of an outermost unlock, or of going offline: it closes the slot's section.
pub fn store_close<P: GracePlan, K: ChainRule>(
    table: &LiveTable<P, K>,
    seat: &mut LiveSeat,
    slot: usize,
    word: u64,
)
    requires seat { (seat.old.table_id ≡ table.now.words.shared.table_id) × (slot < table.now.slots) }
    requires right { IsOwner seat.old.me.0 slot × ¬ IsClosed P.QSBR (word_in seat.old.me.0.slot) }
    requires word { IsClosed P.QSBR word }
    ensures seat { Keeps seat.old seat.new }
    ensures closed { Closed P.QSBR K.allows slot word seat.old.me seat.new.me }
{
    let place = table.slot_place(slot);
    table.words.shared.store::<Closes<P, K>>(seat, place, word);
}

/// The store of an announcement: it closes the slot's section and opens the next one. What the word copied was loaded
/// before.
pub fn store_quiescent<P: GracePlan, K: ChainRule>(
    table: &LiveTable<P, K>,
    seat: &mut LiveSeat,
    slot: usize,
    word: u64,
)
    requires seat { (seat.old.table_id ≡ table.now.words.shared.table_id) × (slot < table.now.slots) }
    requires right { IsOwner seat.old.me.0 slot × ¬ IsClosed P.QSBR (word_in seat.old.me.0.slot) }
    requires word { Shows P.QSBR Wide (copied P.QSBR word) word × MayCopy P.QSBR (present_of seat.old.me.0.seen) (copied P.QSBR word) }
    ensures seat { Keeps seat.old seat.new }
    ensures announced { Announced P.QSBR K.allows slot word seat.old.me seat.new.me }
{
    let place = table.slot_place(slot);
    table
        .words
        .shared
        .store::<Announces<P, K>>(seat, place, word);
}
