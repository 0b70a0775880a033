//! What the grace lock guards, and how its holder answers an ask.
ghost use Rattle.std.specs.Prelude.{◌≡◌, ◌+◌, ◌<◌, ◌≤◌, ◌%◌, ◌^◌, true, false, []};
ghost use Rattle.live_log.specs.Log.{Begins, HaveEnded, IsLiveRun};
ghost use Rattle.live_words.specs.live_rule.declared.rights.GraceRight.TheVariants.{Rests};
ghost use Rattle.live_words.specs.live_rule.Seen.{Precedes};
ghost use Rattle.live_words.specs.live_rule.Steps.{Keeps};
ghost use Rattle.live_words.specs.step_grace.Periods.{at_load};
ghost use Rattle.live_waits.specs.Answers.{HasWords, RanPlan, WholeGracePeriod, WholePeriodAfter};
ghost use Rattle.live_waits.specs.Asks.{cookie_in};

use crate::asks::{LiveAsk, go_on};
use crate::period::grace_period;
use call_rcu_worker::Told;
use gp_memb::GracePlan;
use live_log::ChainRule;
use live_words::{LiveSeat, LiveTable, load_seq};
use std::marker::PhantomData;
use std::sync::Wait;

/// What the grace lock guards: the seat with the right to the words of grace periods, and their present values, between
/// two grace periods by plans `P`.
#[derive(Drop)]
pub struct GraceWriter<P: GracePlan> {
    /// The seat.
    pub seat: LiveSeat,
    /// The sequence number, which is even.
    pub seq: u64,
    /// The phase or number.
    pub present: u64,
    plan: PhantomData<P>,
    pub ghost rests: { (seat.me.0.grace ≡ Rests seq present) × (seat.me.1 ≡ []) },
    pub ghost bounds: { (seq % 2 ≡ 0) × (P.QSBR ≡ false → present < 2) × (P.QSBR ≡ true → present ≤ seq) },
}

/// Whose grace period answered an ask.
#[derive(Clone, Copy, Debug, PartialEq, Eq, Drop)]
pub enum Answer {
    /// One that had passed since the ask.
    Shared,
    /// One that the holder of the lock ran.
    Own,
}

impl<P: GracePlan + Drop> GraceWriter<P> {
    ghost use Rattle.live_waits.specs.declared.writer.Answer.TheVariants.{Own, Shared};

    /// Of a seat with the right to the words of grace periods of a new table.
    pub fn new(seat: LiveSeat) -> GraceWriter<P>
        requires { (seat.me.0.grace ≡ Rests 0 0) × (seat.me.1 ≡ []) }
        ensures { (result.seat ≡ seat) × (result.seq ≡ 0) × (result.present ≡ 0) }
    {
        GraceWriter {
            seat,
            seq: 0,
            present: 0,
            plan: PhantomData,
        }
    }

    /// A whole grace period.
    fn run<K: ChainRule, R: Wait>(&mut self, rt: &R, table: &LiveTable<P, K>)
        requires seat { self.old.seat.table_id ≡ table.now.words.shared.table_id }
        requires low { self.old.seq ≤ 2 ^ 62 }
        ensures seat { Keeps self.old.seat self.new.seat }
        ensures seq { self.new.seq ≡ self.old.seq + 2 }
        ensures words { HasWords self.new.seq self.new.present self.new.seat.me.0.seen }
        ensures period { WholeGracePeriod P.QSBR K.allows self.old.seat.me.0 self.old.seq self.old.present self.new.seat.me.0.seen }
        ensures plan { RanPlan P.GracePlan table.now.slots self.old.seq self.old.present self.new.present self.new.seat.me.0.seen }
    {
        self.present = grace_period(rt, table, &mut self.seat, self.seq, self.present);
        self.seq += 2;
    }

    /// Sees to it that the ask is answered, whose log the seat has heard of: by a check where the sequence number that
    /// it loads is at or above the cookie, and else by a whole grace period.
    fn settle<K: ChainRule, R: Wait>(
        &mut self,
        rt: &R,
        table: &LiveTable<P, K>,
        ask: LiveAsk<P>,
    ) -> Answer
        requires seat { self.old.seat.table_id ≡ table.now.words.shared.table_id }
        requires heard { Begins ask.asked.value.me.0.seen self.old.seat.me.0.heard }
        ensures seat { Keeps self.old.seat self.new.seat }
        ensures later { Precedes self.old.seat.me.0 self.new.seat.me.0.seen × IsLiveRun P.QSBR K.allows self.new.seat.me.0.seen }
        ensures ended { HaveEnded ask.asked.value.me.0.seen self.new.seat.me.0.seen }
        ensures words { HasWords self.new.seq self.new.present self.new.seat.me.0.seen }
        ensures shared { cookie_in ask.core ≤ self.old.seq → (result ≡ Shared) × (self.new.seq ≡ self.old.seq) × (self.new.present ≡ self.old.present) }
        ensures own { self.old.seq < cookie_in ask.core → (result ≡ Own) × (self.new.seq ≡ self.old.seq + 2) }
        ensures period { self.old.seq < cookie_in ask.core → WholeGracePeriod P.QSBR K.allows self.old.seat.me.0 self.old.seq self.old.present self.new.seat.me.0.seen }
        ensures plan { self.old.seq < cookie_in ask.core → RanPlan P.GracePlan table.now.slots self.old.seq self.old.present self.new.present self.new.seat.me.0.seen }
    {
        let LiveAsk { mut core, asked: _ } = ask;
        go_on(&mut core, 0);
        let checked = load_seq(table, &mut self.seat);
        if matches!(go_on(&mut core, checked), Told::Answered) {
            return Answer::Shared;
        }
        self.run(rt, table);
        Answer::Own
    }

    /// Answers an ask of the caller, by whoever holds the grace lock, as liburcu's `synchronize_rcu` does under it:
    /// each section that was open in the ask's log has ended in the log that the caller has seen then. Where the
    /// sequence number is at or above the ask's cookie, a grace period of another's has answered the ask already, and
    /// nothing is stored; else a whole one is run, which began after all that the caller had seen, by a plan that runs
    /// to its end. That waits for each section that is open at its first store, with a back-off.
    pub fn answer<K: ChainRule, R: Wait>(
        &mut self,
        rt: &R,
        table: &LiveTable<P, K>,
        seat: &mut LiveSeat,
        ask: LiveAsk<P>,
    ) -> Answer
        requires tables { (self.old.seat.table_id ≡ table.now.words.shared.table_id) × (seat.old.table_id ≡ table.now.words.shared.table_id) }
        requires seen { Begins ask.asked.value.me.0.seen seat.old.me.0.seen }
        ensures seats { Keeps self.old.seat self.new.seat × Keeps seat.old seat.new }
        ensures only { seat.new.me ≡ (record (at_load seat.old.me.0 seat.new.me.0.seen) { heard = self.new.seat.me.0.seen }, seat.old.me.1) }
        ensures later { Begins seat.old.me.0.seen seat.new.me.0.seen × Begins self.new.seat.me.0.seen seat.new.me.0.seen × IsLiveRun P.QSBR K.allows seat.new.me.0.seen }
        ensures ended { HaveEnded ask.asked.value.me.0.seen seat.new.me.0.seen }
        ensures words { HasWords self.new.seq self.new.present self.new.seat.me.0.seen }
        ensures shared { cookie_in ask.core ≤ self.old.seq → (result ≡ Shared) × (self.new.seq ≡ self.old.seq) × (self.new.present ≡ self.old.present) }
        ensures own { self.old.seq < cookie_in ask.core → (result ≡ Own) × (self.new.seq ≡ self.old.seq + 2) }
        ensures period { self.old.seq < cookie_in ask.core → WholePeriodAfter P.QSBR K.allows self.old.seat.me.0 seat.old.me.0 self.old.seq self.old.present self.new.seat.me.0.seen }
        ensures plan { self.old.seq < cookie_in ask.core → RanPlan P.GracePlan table.now.slots self.old.seq self.old.present self.new.present self.new.seat.me.0.seen }
    {
        let told = table.tell(seat);
        table.learn(&mut self.seat, told);
        let answer = self.settle(rt, table, ask);
        let told = table.tell(&mut self.seat);
        table.learn(seat, told);
        load_seq(table, seat);
        answer
    }
}
