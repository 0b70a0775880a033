//! What a program calls.

ghost use Rattle.std.specs.Prelude.{◌≡◌, ◌<◌, ◌≤◌, ◌^◌, ◌↔◌, true, IfErr, IfOk, IsOk, IsTrue, vec_len};
ghost use Rattle.std.specs.Arc.{arc_value};
ghost use Rattle.rcu_model.specs.declared.refusal.Refusal.TheVariants.{Exhausted, NoSlot};
ghost use Rattle.poll_cookie.specs.Cookie.{cookie_for};
ghost use Rattle.live_log.specs.Log.{Begins, HaveEnded, seq_of};
ghost use Rattle.live_words.specs.live_rule.Steps.{Keeps};
ghost use Rattle.live_read.specs.Hearing.{FindsNothing, IsAfter, IsAsBefore, Stays};
ghost use Rattle.live_read.specs.Holding.{log_of};
ghost use Rattle.live_read.specs.Registering.{FindsAllClaimed, TakesOne};
ghost use Rattle.live_waits.specs.Answers.{EndedByThen};
ghost use Rattle.domain.specs.Waiting.{LoadedOnce, Synchronized, IsExhausted};

use crate::grace_lock::GraceLock;
use crate::queue::Queue;
use callback_queue::Callback;
use gp_memb::GracePlan;
use live_callbacks::Deleter;
use live_read::{Caller, Handle, Reader, Site};
use live_waits::{LiveCookie, ask};
use live_words::{ChainRule, LiveSeat, LiveTable};
use rcu_model::Refusal;
use std::sync::{Arc, Mutex, Wait};

/// A domain: readers register in it, records are taken from its pool and chains of it are written, what was cut is
/// retired with a callback `D`, and its grace periods are waited for and polled. Threads share it by reference or by
/// `Arc`.
#[derive(Drop)]
pub struct Domain<P: GracePlan, K: ChainRule, B: Site, D: Drop = Callback> {
    pub(crate) table: Arc<LiveTable<P, K>>,
    pub(crate) grace: Mutex<GraceLock<P, B>>,
    pub(crate) queues: Vec<Queue<B, D>>,
    pub(crate) ghost queued: { (vec_len queues ≡ B.sizes.queues) × (1 ≤ B.sizes.queues) },
    pub(crate) ghost named: { ((arc_value table).words.shared.table_id ≡ B.table) × ((arc_value table).words.shared.key ≡ B.sizes) },
}

impl<P: GracePlan + Drop, K: ChainRule, B: Site, D: Deleter> Domain<P, K, B, D> {
    /// Registers a reader in the first slot that is found free, liburcu's `rcu_register_thread`: one atomic step claims
    /// the slot. It is offline in the quiescent-state flavour, has seen all that the caller has seen and heard of, and
    /// may be moved into any thread. `Reader::unregister` gives its slot back.
    ///
    /// Refused with `NoSlot` only where the bit of every slot was found set: `looks` tells the words that it found. It
    /// takes no lock, and waits for nobody.
    pub fn register<W: Caller<B>, R: Wait>(
        &self,
        rt: &R,
        caller: &mut W,
    ) -> Result<Reader<P, K, B>, Refusal>
        ensures idle { IfOk result (λ r. (r.core.depth ≡ 0) × (r.core.locks ≡ 0) × (P.QSBR ≡ true → r.core.word ≡ 0)) }
        ensures slot { IfOk result (λ r. (r.core.slot < B.sizes.slots) × TakesOne r.core.slot r.core.seat.me.0.looks) }
        ensures told { IfOk result (λ r. IsAfter P.QSBR K.allows (W.seen caller.old) (W.heard caller.old) (log_of r.core)) }
        ensures same { IfOk result (λ _. IsAsBefore W.Caller caller.old caller.new) }
        ensures refused { IfErr result (λ e. (e ≡ NoSlot) × FindsAllClaimed B.sizes (W.looks caller.old) (W.looks caller.new)) }
        ensures heard { IfErr result (λ _. IsAfter P.QSBR K.allows (W.seen caller.old) (W.heard caller.old) (W.heard caller.new)) }
        ensures caller { Stays W.Caller caller.old caller.new × (W.loads caller.new ≡ W.loads caller.old) }
    {
        Reader::register(rt, &self.table, caller)
    }

    /// A handle that has seen and heard as much as the caller, for another thread.
    pub fn split<W: Caller<B>>(&self, caller: &mut W) -> Handle<B>
        ensures told { (result.seat.me.0.seen ≡ W.seen caller.old) × (result.seat.me.0.heard ≡ W.heard caller.old) }
        ensures same { IsAsBefore W.Caller caller.old caller.new }
    {
        Handle::split(&self.table, caller)
    }

    /// The one caller hears what the other has seen and heard of, beside all that it had seen and heard of itself.
    pub fn inform<S: Caller<B>, T: Caller<B>>(&self, from: &mut S, to: &mut T)
        ensures told { Begins (S.seen from.old) (T.heard to.new) × Begins (S.heard from.old) (T.heard to.new) }
        ensures kept { IsAfter P.QSBR K.allows (T.seen to.old) (T.heard to.old) (T.heard to.new) }
        ensures from { IsAsBefore S.Caller from.old from.new }
        ensures to { FindsNothing T.Caller to.old to.new }
    {
        live_read::inform(&self.table, from, to);
    }

    /// Asks, and waits for the answer.
    fn wait<R: Wait>(&self, rt: &R, seat: &mut LiveSeat) -> Result<(), Refusal>
        requires { seat.old.table_id ≡ B.table }
        ensures seat { Keeps seat.old seat.new × (seat.new.me.1 ≡ seat.old.me.1) × (seat.new.me.0.looks ≡ seat.old.me.0.looks) }
        ensures ended { IfOk result (λ _. Synchronized P.QSBR K.allows seat.old.me.0.seen seat.old.me.0.heard seat.old.me.0.loads seat.new.me.0.loads seat.new.me.0.seen) }
        ensures refused { IfErr result (λ e. (e ≡ Exhausted) × LoadedOnce P.QSBR K.allows seat.old.me.0.seen seat.old.me.0.heard seat.old.me.0.loads seat.new.me.0.loads seat.new.me.0.seen × (2 ^ 62 ≤ seq_of seat.new.me.0.seen)) }
    {
        let asked = ask::<P, K>(&self.table, seat)?;
        self.grace.lock(rt).answer(rt, &self.table, seat, asked);
        Ok(())
    }

    /// Waits for a grace period, liburcu's `synchronize_rcu`: the log at its first load of the sequence number begins
    /// with all that the caller had seen and heard of, and each section that was open in it has ended in the log that
    /// the caller hears of at the return. It waits for the grace lock and for those sections, so a caller has no
    /// section or lock open, and is offline where its reader is of the quiescent-state flavour.
    ///
    /// Refused with `Exhausted` exactly where the sequence number that its ask loads is at or above 2^62.
    pub fn synchronize<W: Caller<B>, R: Wait>(&self, rt: &R, caller: &mut W) -> Result<(), Refusal>
        ensures ended { IfOk result (λ _. Synchronized P.QSBR K.allows (W.seen caller.old) (W.heard caller.old) (W.loads caller.old) (W.loads caller.new) (W.heard caller.new)) }
        ensures refused { IfErr result (λ e. IsExhausted W.Caller P.QSBR K.allows caller.old caller.new e) }
        ensures caller { FindsNothing W.Caller caller.old caller.new }
    {
        let mut seat = caller.tell(&self.table);
        let answered = self.wait(rt, &mut seat);
        caller.learn(&self.table, seat);
        answered
    }

    /// Asks for a grace period that nobody waits for, liburcu's `start_poll_synchronize_rcu`. The cookie keeps the log
    /// at its load, which was after all that the caller had seen and heard of.
    ///
    /// Refused with `Exhausted` exactly where the sequence number that it loads is at or above 2^62.
    pub fn start_poll<W: Caller<B>>(&self, caller: &mut W) -> Result<LiveCookie, Refusal>
        ensures loaded { LoadedOnce P.QSBR K.allows (W.seen caller.old) (W.heard caller.old) (W.loads caller.old) (W.loads caller.new) (W.heard caller.new) }
        ensures cookie { IfOk result (λ c. (c.asked.value.me.0.seen ≡ W.heard caller.new) × (cookie_for (seq_of (W.heard caller.new)) ≡ Ok c.cookie)) }
        ensures refused { IfErr result (λ e. e ≡ Exhausted) }
        ensures taken { IsOk result ↔ (seq_of (W.heard caller.new) < 2 ^ 62) }
        ensures caller { FindsNothing W.Caller caller.old caller.new }
    {
        let mut seat = caller.tell(&self.table);
        let cookie = live_waits::start_poll(&self.table, &mut seat);
        caller.learn(&self.table, seat);
        cookie
    }

    /// Whether a grace period has passed since the cookie was taken, liburcu's `poll_state_synchronize_rcu`: true
    /// exactly where the sequence number that it loads is at or above the cookie. Then each section that was open in
    /// the cookie's log has ended, where the caller had seen that log or heard of it. So it has for a caller who hears
    /// of that log later.
    pub fn poll<W: Caller<B>>(&self, caller: &mut W, cookie: &LiveCookie) -> bool
        ensures loaded { LoadedOnce P.QSBR K.allows (W.seen caller.old) (W.heard caller.old) (W.loads caller.old) (W.loads caller.new) (W.heard caller.new) }
        ensures exact { IsTrue result ↔ (cookie.now.cookie ≤ seq_of (W.heard caller.new)) }
        ensures later { IsTrue result → EndedByThen P.QSBR K.allows cookie.now.asked.value.me.0.seen (W.heard caller.new) }
        ensures past { Begins cookie.now.asked.value.me.0.seen (W.heard caller.new) → IsTrue result → HaveEnded cookie.now.asked.value.me.0.seen (W.heard caller.new) }
        ensures caller { FindsNothing W.Caller caller.old caller.new }
    {
        let mut seat = caller.tell(&self.table);
        let past = live_waits::poll(&self.table, &mut seat, cookie);
        caller.learn(&self.table, seat);
        past
    }
}
