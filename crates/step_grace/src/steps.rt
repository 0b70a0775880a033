//! One function for each kind of step of a grace period.
ghost use Rattle.std.specs.Prelude.{◌≡◌, ◌+◌, ◌<◌, ◌≤◌, ◌^◌, [], ◌∷◌};
ghost use Rattle.live_rule.specs.live_log.declared.event.LiveEvent.TheVariants.{SeqEven, SeqOdd};
ghost use Rattle.live_rule.specs.live_log.Log.{HaveEnded, MayBePresent, before_odd, present_of, seq_of};
ghost use Rattle.live_rule.specs.declared.rights.GraceRight.TheVariants.{Rests, Works};
ghost use Rattle.live_rule.specs.Places.{group_at, slot_at};
ghost use Rattle.live_rule.specs.Claims.{ClaimsGrace};
ghost use Rattle.live_rule.specs.Steps.{Keeps};
ghost use Rattle.live_rule.specs.Rights.{IsResting, IsWorking, before_in, looks_in, present_in, seq_in};
ghost use Rattle.step_grace.specs.Periods.{GraceBecomes, LoadedSeq, LoadedWord, StoredPresent, TellsAllEnded};

use crate::plays::{Begins, Ends, LooksSeq, LooksWord, StoresPresent};
use live_rule::{ChainRule, GracePlan, LiveSeat, LiveTable};

/// Loads the sequence number, by any seat, which notes the log at the load. A seat with the right to the words of grace
/// periods knew the number, and the phase or number: nobody else stores them.
pub fn load_seq<P: GracePlan, K: ChainRule>(table: &LiveTable<P, K>, seat: &mut LiveSeat) -> u64
    requires { seat.old.table_id ≡ table.now.words.shared.table_id }
    ensures seat { Keeps seat.old seat.new }
    ensures looked { LoadedSeq P.QSBR K.allows seat.old.me seat.new.me }
    ensures seq { seq_of seat.new.me.0.seen ≡ result }
    ensures known { ClaimsGrace seat.old.me.0.grace → (result ≡ seq_in seat.old.me.0.grace) × (present_of seat.new.me.0.seen ≡ present_in seat.old.me.0.grace) }
{
    let place = table.seq_place();
    table.words.shared.load::<LooksSeq<P, K>>(seat, place)
}

/// Loads the word of a slot's reader, within a grace period. What it told is kept among the looks.
pub fn load_slot<P: GracePlan, K: ChainRule>(
    table: &LiveTable<P, K>,
    seat: &mut LiveSeat,
    slot: usize,
) -> u64
    requires seat { (seat.old.table_id ≡ table.now.words.shared.table_id) × (slot < table.now.slots) }
    requires right { IsWorking seat.old.me.0 }
    ensures seat { Keeps seat.old seat.new }
    ensures looked { LoadedWord P.QSBR K.allows (slot_at slot) result seat.old.me seat.new.me }
{
    let place = table.slot_place(slot);
    table.words.shared.load::<LooksWord<P, K>>(seat, place)
}

/// Loads the word of a group of 64 slots, within a grace period. What it told is kept among the looks.
pub fn load_group<P: GracePlan, K: ChainRule>(
    table: &LiveTable<P, K>,
    seat: &mut LiveSeat,
    group: usize,
) -> u64
    requires seat { (seat.old.table_id ≡ table.now.words.shared.table_id) × (group < 4) }
    requires right { IsWorking seat.old.me.0 }
    ensures seat { Keeps seat.old seat.new }
    ensures looked { LoadedWord P.QSBR K.allows (group_at group) result seat.old.me seat.new.me }
{
    let place = table.group_place(group);
    table.words.shared.load::<LooksWord<P, K>>(seat, place)
}

/// The store that makes the sequence number odd: a grace period begins, whose mark is the log before the store. The
/// caller has an even number of at most 2^62.
pub fn store_odd<P: GracePlan, K: ChainRule>(table: &LiveTable<P, K>, seat: &mut LiveSeat, seq: u64)
    requires seat { seat.old.table_id ≡ table.now.words.shared.table_id }
    requires right { IsResting seat.old.me.0 × (seq_in seat.old.me.0.grace ≤ 2 ^ 62) × (seq ≡ seq_in seat.old.me.0.grace + 1) }
    ensures seat { Keeps seat.old seat.new }
    ensures began { GraceBecomes P.QSBR K.allows (Works seq (present_in seat.old.me.0.grace) (before_odd seat.new.me.0.seen) []) (SeqOdd ∷ []) seat.old.me seat.new.me }
    ensures words { (seq_of (before_odd seat.new.me.0.seen) ≡ seq_in seat.old.me.0.grace) × (present_of (before_odd seat.new.me.0.seen) ≡ present_in seat.old.me.0.grace) }
{
    let place = table.seq_place();
    table.words.shared.store::<Begins<P, K>>(seat, place, seq);
}

/// A store of the phase, or of the number, which does not fall and is at most the sequence number.
pub fn store_present<P: GracePlan, K: ChainRule>(
    table: &LiveTable<P, K>,
    seat: &mut LiveSeat,
    present: u64,
)
    requires seat { seat.old.table_id ≡ table.now.words.shared.table_id }
    requires right { IsWorking seat.old.me.0 × MayBePresent P.QSBR (seq_in seat.old.me.0.grace) (present_in seat.old.me.0.grace) present }
    ensures seat { Keeps seat.old seat.new }
    ensures presented { StoredPresent P.QSBR K.allows present seat.old.me seat.new.me }
{
    let place = table.present_place();
    table
        .words
        .shared
        .store::<StoresPresent<P, K>>(seat, place, present);
}

/// The store that makes the sequence number even: the grace period is over. The caller has loaded what tells that each
/// section that was open at the mark has ended.
pub fn store_even<P: GracePlan, K: ChainRule>(
    table: &LiveTable<P, K>,
    seat: &mut LiveSeat,
    seq: u64,
)
    requires seat { seat.old.table_id ≡ table.now.words.shared.table_id }
    requires right { IsWorking seat.old.me.0 × (seq ≡ seq_in seat.old.me.0.grace + 1) }
    requires loads { TellsAllEnded P.QSBR table.now.slots (before_in seat.old.me.0.grace) (looks_in seat.old.me.0.grace) }
    ensures seat { Keeps seat.old seat.new }
    ensures ended { GraceBecomes P.QSBR K.allows (Rests seq (present_in seat.old.me.0.grace)) (SeqEven ∷ []) seat.old.me seat.new.me }
    ensures cleared { HaveEnded (before_in seat.old.me.0.grace) seat.new.me.0.seen }
    ensures words { (seq_of seat.new.me.0.seen ≡ seq) × (present_of seat.new.me.0.seen ≡ present_in seat.old.me.0.grace) }
{
    let place = table.seq_place();
    table.words.shared.store::<Ends<P, K>>(seat, place, seq);
}
