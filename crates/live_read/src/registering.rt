//! How readers register, and leave. No call here takes a lock.

ghost use Rattle.std.specs.Prelude.{◌≡◌, ◌≢◌, ◌<◌, [], ◌++◌, true, IfErr, IfOk};
ghost use Rattle.std.specs.Arc.{arc_value};
ghost use Rattle.rcu_model.specs.declared.refusal.Refusal.TheVariants.{Busy, NoSlot};
ghost use Rattle.live_log.specs.declared.event.LiveEvent.TheVariants.{Close};
ghost use Rattle.live_log.specs.Log.{Begins, Has, IsLiveRun};
ghost use Rattle.live_words.specs.live_rule.Rights.{count_in};
ghost use Rattle.live_read.specs.Hearing.{IsAfter, IsAsBefore, Stays};
ghost use Rattle.live_read.specs.Holding.{log_of};
ghost use Rattle.live_read.specs.Registering.{AllWereClaimed, Finds, FindsAllClaimed, IsGivenBack, LeavesFree, Misses, TakesOne};

use crate::caller::Caller;
use crate::claiming::claim_any;
use crate::reader::Reader;
use crate::reader_core::ReaderCore;
use crate::site::Site;
use crate::telling::learn_more;
use gp_memb::GracePlan;
use live_words::{ChainRule, LiveSeat, LiveTable, look_slot, release};
use rcu_model::Refusal;
use std::sync::{Arc, Wait};

impl<P: GracePlan, K: ChainRule> ReaderCore<P, K> {
    /// A reader of this table in the first slot that is found free, liburcu's `rcu_register_thread`, by a seat with no
    /// right. One atomic step claims the slot, before the reader is handed out. It is offline in the quiescent-state
    /// flavour.
    ///
    /// The seat comes back where every slot was found claimed.
    pub fn register(
        table: Arc<LiveTable<P, K>>,
        seat: LiveSeat,
    ) -> Result<ReaderCore<P, K>, LiveSeat>
        requires { (seat.table_id ≡ (arc_value table).words.shared.table_id) × (seat.me.0.sizes ≡ (arc_value table).words.shared.key) × (seat.me.1 ≡ []) }
        ensures table { IfOk result (λ r. (r.seat.table_id ≡ seat.table_id) × (r.slot < (arc_value table).slots)) }
        ensures idle { IfOk result (λ r. (r.depth ≡ 0) × (r.locks ≡ 0) × (P.QSBR ≡ true → r.word ≡ 0)) }
        ensures claimed { IfOk result (λ r. Finds P.QSBR K.allows r.slot seat.me r.seat.me) }
        ensures refused { IfErr result (λ s. Misses P.QSBR K.allows (AllWereClaimed (arc_value table).words.shared.key) seat.me s.me) }
        ensures back { IfErr result (λ s. s.table_id ≡ seat.table_id) }
    {
        let mut seat = seat;
        let Some(slot) = claim_any(&table, &mut seat) else {
            return Err(seat);
        };
        let word = look_slot(&table, &mut seat, slot);
        Ok(ReaderCore::new(table, seat, slot, word))
    }

    /// Ends all that is open, and gives the slot back by one atomic step. Answers the table, and a seat with no right
    /// that has seen all this.
    pub(crate) fn give_back(self) -> (Arc<LiveTable<P, K>>, LiveSeat)
        ensures table { (arc_value result.0).words.shared.table_id ≡ self.seat.table_id }
        ensures given { IsGivenBack P.QSBR K.allows self result.1 }
    {
        let mut core = self;
        core.end();
        let ReaderCore {
            table,
            mut seat,
            slot,
            ..
        } = core;
        release(&table, &mut seat, slot);
        (table, seat)
    }

    /// Gives the slot of a reader back, liburcu's `rcu_unregister_thread`: an online reader of the quiescent-state
    /// flavour goes offline first, which closes its section; then its bit is cleared by one atomic step, which its word
    /// among the looks shows. Answers a seat that has seen this, and has no right. A reader that is dropped in place of
    /// this keeps its slot claimed.
    ///
    /// Refused with `Busy` exactly while a section or a lock of it is open; then the reader comes back as it was.
    pub fn unregister(self) -> Result<LiveSeat, (Refusal, ReaderCore<P, K>)>
        ensures given { IfOk result (λ s. (self.depth ≡ 0) × IsGivenBack P.QSBR K.allows self s) }
        ensures busy { IfErr result (λ e. (e.0 ≡ Busy) × (e.1 ≡ self) × (0 < self.depth)) }
    {
        if self.depth != 0 {
            return Err((Refusal::Busy, self));
        }
        let (_table, seat) = self.give_back();
        Ok(seat)
    }
}

/// Another owner of a table. Where it has too many owners, more than a word can count, it tries again.
fn another_owner<P: GracePlan, K: ChainRule, R: Wait>(
    rt: &R,
    table: &Arc<LiveTable<P, K>>,
) -> Arc<LiveTable<P, K>>
    ensures { arc_value result ≡ arc_value table.now }
{
    for _ in rt.forever() {
        if let Ok(own) = Arc::try_clone(table) {
            return own;
        }
    }
    unreachable!()
}

impl<P: GracePlan, K: ChainRule, B: Site> Reader<P, K, B> {
    /// Registers a reader in the first slot that is found free, liburcu's `rcu_register_thread`: one atomic step claims
    /// the slot, before the reader is handed out. It is offline in the quiescent-state flavour, and has seen all that
    /// the caller has seen and heard of.
    ///
    /// Refused with `NoSlot` only where the bit of every slot was found set: `looks` tells the words that it found. It
    /// takes no lock and no memory, and waits for nobody.
    pub fn register<W: Caller<B>, R: Wait>(
        rt: &R,
        table: &Arc<LiveTable<P, K>>,
        caller: &mut W,
    ) -> Result<Reader<P, K, B>, Refusal>
        requires table { ((arc_value table.now).words.shared.table_id ≡ B.table) × ((arc_value table.now).words.shared.key ≡ B.sizes) }
        ensures idle { IfOk result (λ r. (r.core.depth ≡ 0) × (r.core.locks ≡ 0) × (P.QSBR ≡ true → r.core.word ≡ 0)) }
        ensures slot { IfOk result (λ r. (r.core.slot < B.sizes.slots) × TakesOne r.core.slot r.core.seat.me.0.looks) }
        ensures told { IfOk result (λ r. IsAfter P.QSBR K.allows (W.seen caller.old) (W.heard caller.old) (log_of r.core)) }
        ensures same { IfOk result (λ _. IsAsBefore W.Caller caller.old caller.new) }
        ensures refused { IfErr result (λ e. (e ≡ NoSlot) × FindsAllClaimed B.sizes (W.looks caller.old) (W.looks caller.new)) }
        ensures heard { IfErr result (λ _. IsAfter P.QSBR K.allows (W.seen caller.old) (W.heard caller.old) (W.heard caller.new)) }
        ensures caller { Stays W.Caller caller.old caller.new × (W.loads caller.new ≡ W.loads caller.old) }
    {
        let own = another_owner(rt, table);
        let searches = caller.split_searches();
        let seat = caller.tell(table);
        match ReaderCore::register(own, seat) {
            Ok(core) => Ok(Reader::of(core, searches)),
            Err(seat) => {
                caller.learn(table, seat);
                Err(Refusal::NoSlot)
            }
        }
    }

    /// Gives the slot of a reader back, liburcu's `rcu_unregister_thread`. An online reader of the quiescent-state
    /// flavour goes offline first, which closes its section; then one atomic step clears its bit, which the last of the
    /// caller's looks shows. The caller hears of that, and of all that the reader had seen and heard of. A reader that
    /// is dropped in place of this keeps its slot claimed.
    ///
    /// Refused with `Busy` exactly while a section or a lock of it is open, and then it comes back as it was. It takes
    /// no lock.
    pub fn unregister<W: Caller<B>>(self, caller: &mut W) -> Result<(), (Refusal, Reader<P, K, B>)>
        ensures left { IfOk result (λ _. self.core.depth ≡ 0) }
        ensures kept { IfOk result (λ _. IsAfter P.QSBR K.allows (W.seen caller.old) (W.heard caller.old) (W.heard caller.new)) }
        ensures told { IfOk result (λ _. Begins (log_of self.core) (W.heard caller.new) × Begins self.core.seat.me.0.heard (W.heard caller.new)) }
        ensures closed { IfOk result (λ _. P.QSBR ≡ true → self.core.word ≢ 0 → Has (Close self.core.slot (count_in self.core.seat.me.0.slot)) (W.heard caller.new)) }
        ensures freed { IfOk result (λ _. LeavesFree self.core.slot (self.core.seat.me.0.looks ++ W.looks caller.old) (W.looks caller.new)) }
        ensures busy { IfErr result (λ e. (e.0 ≡ Busy) × (e.1 ≡ self) × (0 < self.core.depth) × IsAsBefore W.Caller caller.old caller.new) }
        ensures caller { Stays W.Caller caller.old caller.new }
    {
        if self.core.depth != 0 {
            return Err((Refusal::Busy, self));
        }
        let Reader { core, .. } = self;
        let (table, seat) = core.give_back();
        learn_more(&table, caller, seat);
        Ok(())
    }
}
