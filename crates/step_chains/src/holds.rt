//! Who writes a chain, and the chain's note. None of these steps waits.
ghost use Rattle.std.specs.Prelude.{◌≡◌, ◌≢◌, ◌<◌, ◌≤◌};
ghost use Rattle.live_rule.specs.live_log.declared.event.LiveEvent.TheVariants.{ChainNote};
ghost use Rattle.live_rule.specs.Places.{hold_at};
ghost use Rattle.live_rule.specs.Rights.{IsListed, IsWriter, own_in};
ghost use Rattle.live_rule.specs.Steps.{Keeps, Went, looked_view, stored_view};
ghost use Rattle.step_chains.specs.Chains.{MayNote, TookChain, Writes, freed_view, noted_view};

use crate::plays::{Frees, Holds, StoresNote};
use live_rule::{ChainRule, GracePlan, LiveSeat, LiveTable};

/// Takes the right to write a chain, if nobody has it: its hold word goes from 0 to 1. Answers the hold word that it
/// found, 0 or 1: the chain is the seat's own exactly where that is 0, before the chains that it had. What it found is
/// kept among the looks, and what it stored.
pub fn hold_chain<P: GracePlan, K: ChainRule>(
    table: &LiveTable<P, K>,
    seat: &mut LiveSeat,
    chain: usize,
) -> u64
    requires { (seat.old.table_id ≡ table.now.words.shared.table_id) × (seat.old.me.0.sizes ≡ table.now.words.shared.key) × (chain < table.now.chains) }
    ensures seat { Keeps seat.old seat.new }
    ensures found { result ≤ 1 }
    ensures held { result ≡ 0 → TookChain P.QSBR K.allows table.now.words.shared.key chain result seat.old.me seat.new.me }
    ensures missed { result ≢ 0 → Went P.QSBR K.allows (looked_view (hold_at table.now.words.shared.key chain) result seat.old.me.0) seat.old.me seat.new.me }
{
    let place = table.hold_place(chain);
    table
        .words
        .shared
        .compare_exchange::<Holds<P, K>>(seat, place, 0, 1)
}

/// Gives the right to write the seat's own chain back: its hold word becomes 0, which is kept among the looks.
pub fn free_chain<P: GracePlan, K: ChainRule>(
    table: &LiveTable<P, K>,
    seat: &mut LiveSeat,
    chain: usize,
)
    requires seat { (seat.old.table_id ≡ table.now.words.shared.table_id) × (chain < table.now.chains) }
    requires right { IsWriter seat.old.me.0 × ((own_in seat.old.me.0.chains).chain ≡ chain) }
    ensures seat { Keeps seat.old seat.new }
    ensures freed { Went P.QSBR K.allows (stored_view (hold_at table.now.words.shared.key chain) 0 (freed_view seat.old.me.0)) seat.old.me seat.new.me }
{
    let place = table.hold_place(chain);
    table.words.shared.store::<Frees<P, K>>(seat, place, 0);
}

/// Stores the note of the seat's own chain, which the rule of chains allows; the seat may have the right to a fresh
/// record, whose object no chain has linked then.
pub fn store_note<P: GracePlan, K: ChainRule>(
    table: &LiveTable<P, K>,
    seat: &mut LiveSeat,
    chain: usize,
    note: u64,
)
    requires seat { (seat.old.table_id ≡ table.now.words.shared.table_id) × (chain < table.now.chains) }
    requires right { IsWriter seat.old.me.0 × ((own_in seat.old.me.0.chains).chain ≡ chain) }
    requires rule { MayNote P.QSBR K.allows seat.old.me.0 note }
    ensures seat { Keeps seat.old seat.new }
    ensures noted { Writes P.QSBR K.allows (noted_view note seat.old.me.0) (ChainNote (own_in seat.old.me.0.chains).chain note) seat.old.me seat.new.me × IsListed seat.new.me.0 }
{
    let place = table.note_place(chain);
    table
        .words
        .shared
        .store::<StoresNote<P, K>>(seat, place, note);
}
