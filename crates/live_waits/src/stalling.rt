//! Which readers a grace period waits for.
ghost use Rattle.std.specs.Prelude.{◌≡◌, IfErr, IfOk};
ghost use Rattle.rcu_model.specs.declared.refusal.Refusal.TheVariants.{Memory};
ghost use Rattle.reader_word.specs.declared.layout.Layout.TheVariants.{Wide};
ghost use Rattle.gp_memb.specs.Plan.{stands_before};
ghost use Rattle.live_words.specs.live_rule.Steps.{Keeps};
ghost use Rattle.live_waits.specs.Status.{StallsBetween};

use gp_memb::GracePlan;
use live_words::{ChainRule, LiveSeat, LiveTable, load_present, load_seq, look_slot};
use rcu_model::Refusal;
use reader_word::{Layout, qs_stands_in_way, stands_in_way};
use std::alloc::Global;

/// Whether a grace period with this phase or number waits at a reader's word.
fn is_in_way<P: GracePlan>(word: u64, present: u64) -> bool
    ensures { result ≡ stands_before P.QSBR Wide present word }
{
    if P::QSBR {
        qs_stands_in_way(word, present)
    } else {
        stands_in_way(Layout::Wide, word, present == 1)
    }
}

/// The slots whose readers the grace period that runs waits for, in ascending order, each by its word at a moment of
/// the call; none where no grace period runs at the load of the sequence number.
///
/// Refused with `Memory` where the list's memory is refused, and then nothing is loaded.
pub fn stalled<P: GracePlan, K: ChainRule>(
    alloc: Global,
    table: &LiveTable<P, K>,
    seat: &mut LiveSeat,
) -> Result<Vec<usize>, Refusal>
    requires { (seat.old.table_id ≡ table.now.words.shared.table_id) × (seat.old.me.0.sizes ≡ table.now.words.shared.key) }
    ensures seat { Keeps seat.old seat.new × (seat.new.me.1 ≡ seat.old.me.1) }
    ensures told { IfOk result (λ slots. StallsBetween P.QSBR K.allows table.now.words.shared.key seat.old.me.0 seat.new.me.0 slots.items) }
    ensures refused { IfErr result (λ e. (e ≡ Memory) × (seat.new ≡ seat.old)) }
{
    let Ok(mut slots) = Vec::with_capacity(alloc, table.slots) else {
        return Err(Refusal::Memory);
    };
    if load_seq(table, seat) % 2 == 0 {
        return Ok(slots);
    }
    let present = load_present(table, seat);
    for slot in 0..table.slots {
        let word = look_slot(table, seat, slot);
        if is_in_way::<P>(word, present) {
            slots.push_reserved(slot);
        }
    }
    Ok(slots)
}
