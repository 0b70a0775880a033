//! How domains are made, and how readers register in them.

ghost use Rattle.std.specs.Prelude.{◌≡◌, ◌≢◌, ◌⊎◌, ◌<◌, ◌≤◌, [], true, false, IfErr, IfOk};
ghost use Rattle.std.specs.Arc.{arc_value};
ghost use Rattle.rcu_model.specs.declared.refusal.Refusal.TheVariants.{Memory, NoSlot};
ghost use Rattle.live_words.specs.step_readers.Groups.{IsClaimed};
ghost use Rattle.live_read.specs.Registering.{FindsAllClaimed, TakesOne};

use gp_memb::GracePlan;
use live_read::ReaderCore;
use live_waits::GracePeriods;
use live_words::{ChainRule, LiveSeat, LiveTable};
use rcu_model::Refusal;
use std::alloc::Global;
use std::sync::Arc;

/// A domain: an owner of its table, and a seat that hears which words were found where no slot was free.
#[derive(Drop)]
pub struct Domain<P: GracePlan, K: ChainRule> {
    /// The table.
    pub table: Arc<LiveTable<P, K>>,
    /// The seat.
    pub seat: LiveSeat,
    pub ghost seated: { (seat.table_id ≡ (arc_value table).words.shared.table_id) × (seat.me.1 ≡ []) },
    pub ghost sized: { seat.me.0.sizes ≡ (arc_value table).words.shared.key },
}

/// A new domain with this many slots, and its grace periods.
///
/// Refused with `Memory` where memory is.
pub fn new_domain<P: GracePlan + Drop, K: ChainRule>(
    alloc: Global,
    slots: usize,
) -> Result<(Domain<P, K>, GracePeriods<P, K>), Refusal>
    requires { slots ≤ 256 }
    ensures made { IfOk result (λ d. ((arc_value d.0.table).slots ≡ slots) × (arc_value d.1.table ≡ arc_value d.0.table)) }
    ensures rests { IfOk result (λ d. (d.1.steps.going ≡ false) × (d.1.steps.seq ≡ 0)) }
    ensures refused { IfErr result (λ e. e ≡ Memory) }
{
    let Ok((table, mut seat)) = LiveTable::new(alloc, slots, 0, 0, 0) else {
        return Err(Refusal::Memory);
    };
    let grace = table.cut_grace(&mut seat);
    let Ok(table) = Arc::new(alloc, table) else {
        return Err(Refusal::Memory);
    };
    let Ok(other) = Arc::try_clone(&table) else {
        return Err(Refusal::Memory);
    };
    let own = table.new_seat();
    Ok((
        Domain { table, seat: own },
        GracePeriods::new(other, grace, seat),
    ))
}

impl<P: GracePlan, K: ChainRule> Domain<P, K> {
    /// A reader in the first slot that is found free, by a new seat. It is offline in the quiescent-state flavour.
    ///
    /// Refused with `NoSlot` only where the bit of every slot was found set: the words among the seat's looks tell. And
    /// with `Memory` where the table has too many owners, more than a word can count.
    pub fn register(&mut self) -> Result<ReaderCore<P, K>, Refusal>
        ensures table { IfOk result (λ r. r.seat.table_id ≡ (arc_value self.old.table).words.shared.table_id) }
        ensures slot { IfOk result (λ r. (r.slot < (arc_value self.old.table).slots) × TakesOne r.slot r.seat.me.0.looks) }
        ensures idle { IfOk result (λ r. (r.depth ≡ 0) × (r.locks ≡ 0) × (P.QSBR ≡ true → r.word ≡ 0)) }
        ensures claimed { IfOk result (λ r. IsClaimed P.QSBR r.slot r.seat.me.0) }
        ensures refused { IfErr result (λ e. (e ≡ Memory) ⊎ (e ≡ NoSlot)) }
        ensures no_slot { IfErr result (λ e. e ≡ NoSlot → FindsAllClaimed (arc_value self.old.table).words.shared.key self.old.seat.me.0.looks self.new.seat.me.0.looks) }
        ensures memory { IfErr result (λ e. e ≡ Memory → self.new.seat ≡ self.old.seat) }
        ensures same { (self.new.table ≡ self.old.table) × IfOk result (λ _. self.new.seat.me ≡ self.old.seat.me) }
    {
        let Ok(own) = Arc::try_clone(&self.table) else {
            return Err(Refusal::Memory);
        };
        let seat = own.tell(&mut self.seat);
        match ReaderCore::register(own, seat) {
            Ok(core) => Ok(core),
            Err(seat) => {
                self.table.learn(&mut self.seat, seat);
                Err(Refusal::NoSlot)
            }
        }
    }
}
