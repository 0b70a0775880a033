//! Announcements of the quiescent-state flavour.
ghost use Rattle.std.specs.Prelude.{◌≡◌, ◌≢◌, ◌<◌, true};
ghost use Rattle.live_rule.specs.Steps.{Keeps};
ghost use Rattle.live_rule.specs.Rights.{IsOwner, word_in};
ghost use Rattle.step_readers.specs.Sections.{Announced, Closed, CopiedBeforeAnnounce, CopiedBeforeOpen, Opened};

use crate::steps::{load_present, store_close, store_open, store_quiescent};
use live_rule::{ChainRule, GracePlan, LiveSeat, LiveTable};
use reader_word::qs_announced;

/// A reader goes online, liburcu's `rcu_thread_online`: it loads the number and then opens a section, which copied that
/// number. Answers the word that it stores, which is not 0.
pub fn online<P: GracePlan, K: ChainRule>(
    table: &LiveTable<P, K>,
    seat: &mut LiveSeat,
    slot: usize,
) -> u64
    requires flavour { P.QSBR ≡ true }
    requires seat { (seat.old.table_id ≡ table.now.words.shared.table_id) × (slot < table.now.slots) }
    requires right { IsOwner seat.old.me.0 slot × (word_in seat.old.me.0.slot ≡ 0) }
    ensures seat { Keeps seat.old seat.new }
    ensures opened { Opened P.QSBR K.allows slot result seat.old.me seat.new.me × (result ≢ 0) }
    ensures copied { CopiedBeforeOpen P.QSBR K.allows slot result seat.old.me seat.new.me }
{
    let num = load_present(table, seat);
    let word = qs_announced(num);
    store_open(table, seat, slot, word);
    word
}

/// An online reader announces a quiescent state, liburcu's `rcu_quiescent_state`: it loads the number, and one store
/// closes its section and opens the next one, which copied that number. Answers the word that it stores, which is not
/// 0.
pub fn quiescent<P: GracePlan, K: ChainRule>(
    table: &LiveTable<P, K>,
    seat: &mut LiveSeat,
    slot: usize,
) -> u64
    requires flavour { P.QSBR ≡ true }
    requires seat { (seat.old.table_id ≡ table.now.words.shared.table_id) × (slot < table.now.slots) }
    requires right { IsOwner seat.old.me.0 slot × (word_in seat.old.me.0.slot ≢ 0) }
    ensures seat { Keeps seat.old seat.new }
    ensures announced { Announced P.QSBR K.allows slot result seat.old.me seat.new.me × (result ≢ 0) }
    ensures copied { CopiedBeforeAnnounce P.QSBR K.allows slot result seat.old.me seat.new.me }
{
    let num = load_present(table, seat);
    let word = qs_announced(num);
    store_quiescent(table, seat, slot, word);
    word
}

/// An online reader goes offline, liburcu's `rcu_thread_offline`, and closes its section.
pub fn offline<P: GracePlan, K: ChainRule>(
    table: &LiveTable<P, K>,
    seat: &mut LiveSeat,
    slot: usize,
)
    requires flavour { P.QSBR ≡ true }
    requires seat { (seat.old.table_id ≡ table.now.words.shared.table_id) × (slot < table.now.slots) }
    requires right { IsOwner seat.old.me.0 slot × (word_in seat.old.me.0.slot ≢ 0) }
    ensures seat { Keeps seat.old seat.new }
    ensures closed { Closed P.QSBR K.allows slot 0 seat.old.me seat.new.me }
{
    store_close(table, seat, slot, 0);
}
