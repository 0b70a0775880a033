//! Asks, polls and the steps of grace periods of one table, for one who waits in its own way.
ghost use Rattle.std.specs.Prelude.{◌≡◌, ◌⊎◌, ◌+◌, ◌<◌, ◌≤◌, ◌^◌, ◌↔◌, ℕ, IfErr, IfOk, IsOk, IsTrue, true, false, []};
ghost use Rattle.std.specs.Arc.{arc_value};
ghost use Rattle.rcu_model.specs.declared.refusal.Refusal.TheVariants.{Exhausted};
ghost use Rattle.poll_cookie.specs.Cookie.{cookie_for};
ghost use Rattle.live_log.specs.Log.{IsLiveRun, seq_of};
ghost use Rattle.live_words.specs.live_rule.declared.rights.GraceRight.TheVariants.{Rests};
ghost use Rattle.live_words.specs.live_rule.Seen.{Precedes};
ghost use Rattle.live_words.specs.live_rule.Rights.{looks_in};
ghost use Rattle.live_words.specs.live_rule.Steps.{Keeps};
ghost use Rattle.live_words.specs.step_grace.Periods.{LoadedSeq};
ghost use Rattle.live_waits.specs.Answers.{IsCookieOf};
ghost use Rattle.live_waits.specs.Steps.{IsAnswered, Stands, TookTurns};

use crate::period::Progress;
use crate::steps::GraceSteps;
use gp_memb::GracePlan;
use live_log::ChainRule;
use live_words::{LiveSeat, LiveTable, load_seq};
use poll_cookie::{Cookie, cookie_of, is_past};
use rcu_model::Refusal;
use std::sync::Arc;

/// The greatest sequence number at which a grace period begins.
const GREATEST_BEGUN: u64 = 1 << 62;

/// What `GracePeriods::step` came to.
#[derive(Clone, Copy, Debug, PartialEq, Eq, Drop)]
pub enum Step {
    /// The sequence number has reached the cookie.
    Done,
    /// The grace period is over, or this many steps of it were taken: poll again, or take further steps.
    Going,
    /// A section of this slot's reader stands in the way of the grace period that is going.
    InTheWay(usize),
    /// The sequence number has not reached the cookie, and no further grace period may begin.
    Exhausted,
}

/// The grace periods of a table, and a seat for its asks and polls. Whoever waits for a cookie may take the steps, also
/// of a grace period that another began: the cookie alone tells whether its ask is answered.
#[derive(Drop)]
pub struct GracePeriods<P: GracePlan, K: ChainRule> {
    /// The table.
    pub table: Arc<LiveTable<P, K>>,
    /// The seat of the asks and polls: what it has seen, or heard of, an ask may be about.
    pub asks: LiveSeat,
    /// The grace period that is going, or the last one.
    pub steps: GraceSteps<P, K>,
    pub ghost seated: { (asks.table_id ≡ (arc_value table).words.shared.table_id) × (steps.seat.table_id ≡ (arc_value table).words.shared.table_id) },
    pub ghost sized: { steps.slots ≡ (arc_value table).slots },
}

impl<P: GracePlan + Drop, K: ChainRule> GracePeriods<P, K> {
    ghost use Rattle.live_waits.specs.declared.periods.Step.TheVariants.{Done, Exhausted as none_left, Going, InTheWay};

    /// Of a new table, of the seat with the right to its words of grace periods, and of one for asks.
    pub fn new(table: Arc<LiveTable<P, K>>, grace: LiveSeat, asks: LiveSeat) -> GracePeriods<P, K>
        requires tables { (grace.table_id ≡ (arc_value table).words.shared.table_id) × (asks.table_id ≡ (arc_value table).words.shared.table_id) }
        requires right { (grace.me.0.grace ≡ Rests 0 0) × (grace.me.1 ≡ []) }
        ensures parts { (result.table ≡ table) × (result.asks ≡ asks) × (result.steps.seat ≡ grace) }
        ensures rests { (result.steps.going ≡ false) × (result.steps.seq ≡ 0) }
    {
        let steps = GraceSteps::new(&table, grace);
        GracePeriods { table, asks, steps }
    }

    /// Asks for a grace period: loads the sequence number and takes its cookie.
    ///
    /// Refused with `Exhausted` exactly where the loaded number is at or above 2^62.
    pub fn ask(&mut self) -> Result<Cookie, Refusal>
        ensures looked { LoadedSeq P.QSBR K.allows self.old.asks.me self.new.asks.me }
        ensures later { Precedes self.old.asks.me.0 self.new.asks.me.0.seen × IsLiveRun P.QSBR K.allows self.new.asks.me.0.seen }
        ensures cookie { IfOk result (λ c. cookie_for (seq_of self.new.asks.me.0.seen) ≡ Ok c) }
        ensures fits { IfOk result (λ c. IsCookieOf self.new.asks.me.0.seen c × (c ≤ 2 ^ 62 + 2)) }
        ensures refused { IfErr result (λ e. e ≡ Exhausted) }
        ensures taken { IsOk result ↔ (seq_of self.new.asks.me.0.seen < 2 ^ 62) }
        ensures same { Keeps self.old.asks self.new.asks × (self.new.table ≡ self.old.table) × (self.new.steps ≡ self.old.steps) }
    {
        let seq = load_seq(&self.table, &mut self.asks);
        cookie_of(seq)
    }

    /// Whether the ask of this cookie is answered: loads the sequence number, and is true exactly where that is at or
    /// above the cookie. Then each section has ended that was open in a log which was seen here, or heard of, and of
    /// which this is the cookie.
    pub fn poll(&mut self, cookie: Cookie) -> bool
        ensures looked { LoadedSeq P.QSBR K.allows self.old.asks.me self.new.asks.me }
        ensures later { Precedes self.old.asks.me.0 self.new.asks.me.0.seen × IsLiveRun P.QSBR K.allows self.new.asks.me.0.seen }
        ensures exact { IsTrue result ↔ (cookie ≤ seq_of self.new.asks.me.0.seen) }
        ensures ended { IsTrue result → IsAnswered cookie self.old.asks.me.0 self.new.asks.me.0.seen }
        ensures same { Keeps self.old.asks self.new.asks × (self.new.table ≡ self.old.table) × (self.new.steps ≡ self.old.steps) }
    {
        let seq = load_seq(&self.table, &mut self.asks);
        is_past(cookie, seq)
    }

    /// Polls, and where the ask is not answered takes steps of the grace period that is going, or else of a new one:
    /// until that is over, a section stands in its way, or this many steps were taken.
    ///
    /// `Done` says what a true poll says, and then no step was taken. `Exhausted`: none is going, and the sequence number
    /// is above 2^62, so that no other may begin.
    pub fn step(&mut self, cookie: Cookie, most: u32) -> Step
        ensures looked { LoadedSeq P.QSBR K.allows self.old.asks.me self.new.asks.me }
        ensures later { Precedes self.old.asks.me.0 self.new.asks.me.0.seen × IsLiveRun P.QSBR K.allows self.new.asks.me.0.seen }
        ensures exact { (result ≡ Done) ↔ (cookie ≤ seq_of self.new.asks.me.0.seen) }
        ensures ended { result ≡ Done → IsAnswered cookie self.old.asks.me.0 self.new.asks.me.0.seen }
        ensures polled { result ≡ Done → self.new.steps ≡ self.old.steps }
        ensures going { result ≡ Going → self.new.steps.seq ≡ self.old.steps.seq → TookTurns P.taken self.old.steps.going self.old.steps.plan most self.new.steps.plan }
        ensures over { (self.new.steps.seq ≡ self.old.steps.seq) ⊎ (result ≡ Going) × (self.new.steps.seq ≡ self.old.steps.seq + 2) }
        ensures exhausted { result ≡ none_left → (self.old.steps.going ≡ false) × (2 ^ 62 < self.old.steps.seq) × (self.new.steps ≡ self.old.steps) }
        ensures spent { self.old.steps.going ≡ false → 2 ^ 62 < self.old.steps.seq → (result ≡ Done) ⊎ (result ≡ none_left) }
        ensures in_way { (slot : ℕ) → result ≡ InTheWay slot → (slot < (arc_value self.new.table).slots) × (self.new.steps.going ≡ true) }
        ensures stands { (slot : ℕ) → result ≡ InTheWay slot → Stands P.action P.turn self.new.steps.plan slot (looks_in self.new.steps.seat.me.0.grace) }
        ensures same { Keeps self.old.asks self.new.asks × Keeps self.old.steps.seat self.new.steps.seat × (self.new.table ≡ self.old.table) }
    {
        if self.poll(cookie) {
            return Step::Done;
        }
        self.take_steps(most)
    }

    /// Takes steps, without a poll.
    fn take_steps(&mut self, most: u32) -> Step
        ensures not_done { result ≡ Done → ⊥ }
        ensures going { result ≡ Going → self.new.steps.seq ≡ self.old.steps.seq → TookTurns P.taken self.old.steps.going self.old.steps.plan most self.new.steps.plan }
        ensures over { (self.new.steps.seq ≡ self.old.steps.seq) ⊎ (result ≡ Going) × (self.new.steps.seq ≡ self.old.steps.seq + 2) }
        ensures exhausted { result ≡ none_left → (self.old.steps.going ≡ false) × (2 ^ 62 < self.old.steps.seq) × (self.new.steps ≡ self.old.steps) }
        ensures spent { self.old.steps.going ≡ false → 2 ^ 62 < self.old.steps.seq → result ≡ none_left }
        ensures in_way { (slot : ℕ) → result ≡ InTheWay slot → (slot < (arc_value self.new.table).slots) × (self.new.steps.going ≡ true) }
        ensures stands { (slot : ℕ) → result ≡ InTheWay slot → Stands P.action P.turn self.new.steps.plan slot (looks_in self.new.steps.seat.me.0.grace) }
        ensures same { (self.new.asks ≡ self.old.asks) × Keeps self.old.steps.seat self.new.steps.seat × (self.new.table ≡ self.old.table) }
    {
        if !self.steps.going {
            if self.steps.seq > GREATEST_BEGUN {
                return Step::Exhausted;
            }
            self.steps.begin_now(&self.table);
        }
        for _ in 0..most {
            match self.steps.step(&self.table) {
                Progress::Done => return Step::Going,
                Progress::Going => {}
                Progress::InTheWay(slot) => return Step::InTheWay(slot),
            }
        }
        Step::Going
    }
}
