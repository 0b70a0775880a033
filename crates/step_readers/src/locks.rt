//! Locks of the general-purpose flavour.
ghost use Rattle.std.specs.Prelude.{◌≡◌, ◌≢◌, ◌<◌, ℕ, false, Bool, Result, Ok, Err, IfOk, IfErr};
ghost use Rattle.rcu_model.specs.declared.refusal.Refusal.TheVariants.{NestFull, NotOpen};
ghost use Rattle.reader_word.specs.declared.layout.Layout.TheVariants.{Wide};
ghost use Rattle.reader_word.specs.Word.{count_of, entered_of, greatest_count, left_of};
ghost use Rattle.live_rule.specs.Steps.{Keeps};
ghost use Rattle.live_rule.specs.Rights.{IsOwner, word_in};
ghost use Rattle.step_readers.specs.Sections.{Closed, CopiedBeforeOpen, Nested, Opened};

use crate::steps::{load_present, store_close, store_inner, store_open};
use live_rule::{ChainRule, GracePlan, LiveSeat, LiveTable};
use rcu_model::Refusal;
use reader_word::{Layout, entered, is_open, left};

/// One lock of a reader, liburcu's `rcu_read_lock`, by the word that it stored last; answers the word that it stores
/// now. An outermost lock loads the phase and then opens a section, which copied that phase.
///
/// Refused with `NestFull` exactly at the greatest count, 2,147,483,647, before any store.
pub fn lock<P: GracePlan, K: ChainRule>(
    table: &LiveTable<P, K>,
    seat: &mut LiveSeat,
    slot: usize,
    word: u64,
) -> Result<u64, Refusal>
    requires flavour { P.QSBR ≡ false }
    requires seat { (seat.old.table_id ≡ table.now.words.shared.table_id) × (slot < table.now.slots) }
    requires right { IsOwner seat.old.me.0 slot × (word_in seat.old.me.0.slot ≡ word) }
    ensures seat { Keeps seat.old seat.new }
    ensures word { IfOk result (λ new. (phase : Bool) × (entered_of Wide word phase ≡ Ok new)) }
    ensures outermost { count_of Wide word ≡ 0 → IfOk result (λ new. Opened P.QSBR K.allows slot new seat.old.me seat.new.me) }
    ensures copied { count_of Wide word ≡ 0 → IfOk result (λ new. CopiedBeforeOpen P.QSBR K.allows slot new seat.old.me seat.new.me) }
    ensures inner { count_of Wide word ≢ 0 → IfOk result (λ new. Nested P.QSBR K.allows slot new seat.old.me seat.new.me) }
    ensures refused { IfErr result (λ e. (e ≡ NestFull) × (count_of Wide word ≡ greatest_count Wide) × (seat.new ≡ seat.old)) }
{
    if is_open(Layout::Wide, word) {
        let new = entered(Layout::Wide, word, false)?;
        store_inner(table, seat, slot, new);
        return Ok(new);
    }
    let phase = load_present(table, seat);
    let new = entered(Layout::Wide, word, phase == 1)?;
    store_open(table, seat, slot, new);
    Ok(new)
}

/// One unlock of a reader, liburcu's `rcu_read_unlock`, by the word that it stored last; answers the word that it
/// stores now. An outermost unlock closes the section.
///
/// Refused with `NotOpen` exactly where no lock is open, before any store.
pub fn unlock<P: GracePlan, K: ChainRule>(
    table: &LiveTable<P, K>,
    seat: &mut LiveSeat,
    slot: usize,
    word: u64,
) -> Result<u64, Refusal>
    requires flavour { P.QSBR ≡ false }
    requires seat { (seat.old.table_id ≡ table.now.words.shared.table_id) × (slot < table.now.slots) }
    requires right { IsOwner seat.old.me.0 slot × (word_in seat.old.me.0.slot ≡ word) }
    ensures seat { Keeps seat.old seat.new }
    ensures word { IfOk result (λ new. left_of Wide word ≡ Ok new) }
    ensures outermost { IfOk result (λ new. count_of Wide new ≡ 0 → Closed P.QSBR K.allows slot new seat.old.me seat.new.me) }
    ensures inner { IfOk result (λ new. count_of Wide new ≢ 0 → Nested P.QSBR K.allows slot new seat.old.me seat.new.me) }
    ensures refused { IfErr result (λ e. (e ≡ NotOpen) × (count_of Wide word ≡ 0) × (seat.new ≡ seat.old)) }
{
    let new = left(Layout::Wide, word)?;
    if is_open(Layout::Wide, new) {
        store_inner(table, seat, slot, new);
    } else {
        store_close(table, seat, slot, new);
    }
    Ok(new)
}
