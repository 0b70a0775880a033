//! Grace periods step by step, for one who does not wait in here.
ghost use Rattle.std.specs.Prelude.{◌≡◌, ◌+◌, ◌<◌, ◌≤◌, ◌%◌, ◌^◌, ◌↔◌, ℕ, true, false, []};
ghost use Rattle.reader_word.specs.declared.layout.Layout.TheVariants.{Wide};
ghost use Rattle.live_log.specs.Log.{IsLiveRun};
ghost use Rattle.live_words.specs.live_rule.declared.rights.GraceRight.TheVariants.{Rests};
ghost use Rattle.live_words.specs.live_rule.Seen.{Precedes};
ghost use Rattle.live_words.specs.live_rule.Rights.{looks_in};
ghost use Rattle.live_words.specs.live_rule.Steps.{Keeps};
ghost use Rattle.live_waits.specs.declared.period.Progress.TheVariants.{Done, InTheWay};
ghost use Rattle.live_waits.specs.Answers.{HasWords};
ghost use Rattle.live_waits.specs.Going.{IsWithin, WorksAt};
ghost use Rattle.live_waits.specs.Steps.{BeganAfter, HasEnded, IsAnswered, StaysUnderWay, Turned};

use crate::period::{Progress, begin, turn};
use gp_memb::GracePlan;
use live_log::ChainRule;
use live_words::{LiveSeat, LiveTable, load_seq};
use poll_cookie::{Cookie, is_past};
use std::marker::PhantomData;

/// The seat with the right to the words of grace periods, and how far the one that is going has come, between two
/// steps by a plan `P`: a `GraceWriter` for callers that wait themselves.
#[derive(Drop)]
pub struct GraceSteps<P: GracePlan, K: ChainRule> {
    /// The seat.
    pub seat: LiveSeat,
    /// The sequence number that the last whole grace period left, which is even.
    pub seq: u64,
    /// The phase or number.
    pub present: u64,
    /// Whether a grace period is going.
    pub going: bool,
    /// How many slots the table has.
    pub slots: usize,
    /// The phase or number as the last grace period began.
    pub(crate) first: u64,
    /// The plan of the grace period that is going.
    pub(crate) plan: P,
    pub(crate) rule: PhantomData<K>,
    pub ghost rests: { (going ≡ false → seat.me.0.grace ≡ Rests seq present) × (seat.me.1 ≡ []) × (seq % 2 ≡ 0) },
    pub ghost bounds: { going ≡ false → (P.QSBR ≡ false → present < 2) × (P.QSBR ≡ true → present ≤ seq) },
    pub ghost works: { going ≡ true → WorksAt seq present seat.me.0 × (present ≡ P.present plan) × (seq ≤ 2 ^ 62) × (P.QSBR ≡ true → first ≤ seq) },
    pub ghost goes: { going ≡ true → IsWithin (P.is_begun Wide true slots seq first) P.action P.taken P.present seq P.QSBR K.allows first plan seat.me },
}

/// What `GraceSteps::begin` came to.
#[derive(Clone, Copy, Debug, PartialEq, Eq, Drop)]
pub enum Beginning {
    /// A grace period that is over has answered the ask.
    Shared,
    /// A grace period is going.
    Going,
}

impl<P: GracePlan + Drop, K: ChainRule> GraceSteps<P, K> {
    ghost use Rattle.live_waits.specs.declared.steps.Beginning.TheVariants.{Going, Shared};

    /// Of a seat with the right to the words of grace periods of a new table.
    pub fn new(table: &LiveTable<P, K>, seat: LiveSeat) -> GraceSteps<P, K>
        requires { (seat.me.0.grace ≡ Rests 0 0) × (seat.me.1 ≡ []) }
        ensures words { (result.seat ≡ seat) × (result.seq ≡ 0) × (result.present ≡ 0) }
        ensures rests { (result.going ≡ false) × (result.slots ≡ table.now.slots) }
    {
        GraceSteps {
            seat,
            seq: 0,
            present: 0,
            going: false,
            slots: table.slots,
            first: 0,
            plan: P::start(table.slots, 0, 0),
            rule: PhantomData,
        }
    }

    /// Sees to it that the ask of this cookie is answered, or that a grace period is going. Where none is going, it
    /// loads the sequence number. `Shared`: that is at or above the cookie, so that each section has ended that was
    /// open in a log which the seat knew, and of which this is the cookie. Else a grace period begins, after all that
    /// the seat had seen and heard.
    pub fn begin(&mut self, table: &LiveTable<P, K>, cookie: Cookie) -> Beginning
        requires table { (self.old.seat.table_id ≡ table.now.words.shared.table_id) × (self.old.slots ≡ table.now.slots) }
        requires low { cookie ≤ 2 ^ 62 + 2 }
        ensures seat { Keeps self.old.seat self.new.seat × (self.new.slots ≡ self.old.slots) × (self.new.seq ≡ self.old.seq) }
        ensures was { self.old.going ≡ true → (result ≡ Going) × (self.new ≡ self.old) }
        ensures exact { self.old.going ≡ false → (result ≡ Shared) ↔ (cookie ≤ self.old.seq) }
        ensures going { (result ≡ Going) ↔ (self.new.going ≡ true) }
        ensures ended { result ≡ Shared → IsAnswered cookie self.old.seat.me.0 self.new.seat.me.0.seen }
        ensures began { self.old.going ≡ false → result ≡ Going → BeganAfter P.QSBR K.allows self.old.seat.me.0 self.new.seat.me.0 }
    {
        if self.going {
            return Beginning::Going;
        }
        let seq = load_seq(table, &mut self.seat);
        if is_past(cookie, seq) {
            return Beginning::Shared;
        }
        self.begin_now(table);
        Beginning::Going
    }

    /// A grace period begins, after all that the seat had seen and heard, where none is going and the sequence number
    /// is at most 2^62.
    pub fn begin_now(&mut self, table: &LiveTable<P, K>)
        requires table { (self.old.seat.table_id ≡ table.now.words.shared.table_id) × (self.old.slots ≡ table.now.slots) }
        requires rests { (self.old.going ≡ false) × (self.old.seq ≤ 2 ^ 62) }
        ensures seat { Keeps self.old.seat self.new.seat × (self.new.slots ≡ self.old.slots) × (self.new.seq ≡ self.old.seq) }
        ensures going { self.new.going ≡ true }
        ensures began { BeganAfter P.QSBR K.allows self.old.seat.me.0 self.new.seat.me.0 }
    {
        let plan = begin(table, &mut self.seat, self.seq, self.present);
        self.plan = plan;
        self.first = self.present;
        self.going = true;
    }

    /// A further step of the grace period that is going. At the last one, each section has ended that was open in a log
    /// after which the grace period began.
    pub fn step(&mut self, table: &LiveTable<P, K>) -> Progress
        requires table { (self.old.seat.table_id ≡ table.now.words.shared.table_id) × (self.old.slots ≡ table.now.slots) }
        requires going { self.old.going ≡ true }
        ensures seat { Keeps self.old.seat self.new.seat × (self.new.slots ≡ self.old.slots) }
        ensures later { Precedes self.old.seat.me.0 self.new.seat.me.0.seen × IsLiveRun P.QSBR K.allows self.new.seat.me.0.seen }
        ensures turned { Turned P.action P.turn P.taken self.old.plan result self.new.plan (looks_in self.new.seat.me.0.grace) }
        ensures in_way { (slot : ℕ) → result ≡ InTheWay slot → slot < table.now.slots }
        ensures goes { (result ≡ Done → ⊥) → (self.new.going ≡ true) × (self.new.seq ≡ self.old.seq) }
        ensures under_way { (result ≡ Done → ⊥) → StaysUnderWay P.QSBR K.allows self.old.seat.me.0 self.new.seat.me.0 }
        ensures done { result ≡ Done → (self.new.going ≡ false) × (self.new.seq ≡ self.old.seq + 2) }
        ensures words { result ≡ Done → HasWords self.new.seq self.new.present self.new.seat.me.0.seen }
        ensures ended { result ≡ Done → HasEnded P.QSBR K.allows self.old.seat.me.0 self.new.seat.me.0.seen }
    {
        let progress = turn(
            table,
            &mut self.seat,
            &mut self.plan,
            &mut self.present,
            self.seq,
            self.first,
        );
        if matches!(progress, Progress::Done) {
            self.seq += 2;
            self.going = false;
        }
        progress
    }
}
