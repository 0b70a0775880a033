//! A grace period, by any plan.
ghost use Rattle.std.specs.Prelude.{◌≡◌, ◌+◌, ◌<◌, ◌≤◌, ◌^◌, ◌%◌, ℕ, false, true};
ghost use Rattle.reader_word.specs.declared.layout.Layout.TheVariants.{Wide};
ghost use Rattle.atomic_table.specs.Table.{Me};
ghost use Rattle.live_log.specs.declared.callback_id.CallbackId.{CallbackId};
ghost use Rattle.live_words.specs.live_rule.declared.view.View.{View};
ghost use Rattle.live_log.specs.Log.{HaveEnded, IsBound, IsLiveRun};
ghost use Rattle.live_words.specs.live_rule.declared.rights.GraceRight.TheVariants.{Rests};
ghost use Rattle.live_words.specs.live_rule.Seen.{Precedes, at_log};
ghost use Rattle.live_words.specs.live_rule.Rights.{before_in, looks_in};
ghost use Rattle.live_words.specs.live_rule.Steps.{Keeps};
ghost use Rattle.gp_memb.specs.declared.plan.Action.TheVariants.{Load};
ghost use Rattle.live_waits.specs.declared.period.Progress.TheVariants.{Done, InTheWay};
ghost use Rattle.live_waits.specs.Answers.{HasWords, RanPlan, WholeGracePeriod};
ghost use Rattle.live_waits.specs.Going.{InLoop, IsWithin, WorksAt};
ghost use Rattle.live_waits.specs.Steps.{BeganAfter, Turned, progress_at};

use crossbeam_utils::Backoff;
use gp_memb::{Action, GracePlan, Turn};
use live_log::ChainRule;
use live_words::{
    LiveSeat, LiveTable, load_group, load_slot, store_even, store_odd, store_present,
};
use std::sync::Wait;

/// What a step of a grace period came to.
#[derive(Clone, Copy, Debug, PartialEq, Eq, Drop)]
pub enum Progress {
    /// It was the last step: the grace period is over.
    Done,
    /// The grace period went on.
    Going,
    /// The word of this slot was loaded, and its reader's section stands in the way. The next step loads it again.
    InTheWay(usize),
}

/// The first step of a grace period, by the seat that has the right to its words: the sequence number becomes odd.
#[inline(always)]
pub(crate) fn begin<P: GracePlan + Drop, K: ChainRule>(
    table: &LiveTable<P, K>,
    seat: &mut LiveSeat,
    seq: u64,
    first: u64,
) -> P
    requires seat { seat.old.table_id ≡ table.now.words.shared.table_id }
    requires right { (seat.old.me.0.grace ≡ Rests seq first) × (seq % 2 ≡ 0) × (seq ≤ 2 ^ 62) × IsBound P.QSBR seq first }
    ensures seat { Keeps seat.old seat.new }
    ensures right { WorksAt seq first seat.new.me.0 × (first ≡ P.present result) }
    ensures going { InLoop (P.is_begun Wide true table.now.slots seq first) P.action P.taken P.present seq P.QSBR K.allows seat.old.me first result seat.new.me }
    ensures under_way { BeganAfter P.QSBR K.allows seat.old.me.0 seat.new.me.0 }
{
    let mut plan = P::start(table.slots, seq, first);
    let Action::StoreSeq(odd) = plan.next() else {
        unreachable!()
    };
    store_odd(table, seat, odd);
    plan.take(0);
    plan
}

/// A further step, which the plan names: a load, or a store of the phase or number, or the last store, by which the
/// sequence number is even again.
#[inline(always)]
pub(crate) fn turn<P: GracePlan + Drop, K: ChainRule>(
    table: &LiveTable<P, K>,
    seat: &mut LiveSeat,
    plan: &mut P,
    present: &mut u64,
    seq: u64,
    first: u64,
) -> Progress
    requires seat { seat.old.table_id ≡ table.now.words.shared.table_id }
    requires right { WorksAt seq present.old seat.old.me.0 × (present.old ≡ P.present plan.old) }
    requires first { P.QSBR ≡ true → first ≤ seq }
    requires going { IsWithin (P.is_begun Wide true table.now.slots seq first) P.action P.taken P.present seq P.QSBR K.allows first plan.old seat.old.me }
    ensures seat { Keeps seat.old seat.new × (seat.new.me.1 ≡ seat.old.me.1) }
    ensures later { Precedes seat.old.me.0 seat.new.me.0.seen × IsLiveRun P.QSBR K.allows seat.new.me.0.seen }
    ensures turned { Turned P.action P.turn P.taken plan.old result plan.new (looks_in seat.new.me.0.grace) }
    ensures in_way { (slot : ℕ) → result ≡ InTheWay slot → slot < table.now.slots }
    ensures goes { (result ≡ Done → ⊥) → WorksAt seq present.new seat.new.me.0 × (present.new ≡ P.present plan.new) × (before_in seat.new.me.0.grace ≡ before_in seat.old.me.0.grace) }
    ensures going { (old : Me CallbackId View) → (result ≡ Done → ⊥) → InLoop (P.is_begun Wide true table.now.slots seq first) P.action P.taken P.present seq P.QSBR K.allows old first plan.old seat.old.me → InLoop (P.is_begun Wide true table.now.slots seq first) P.action P.taken P.present seq P.QSBR K.allows old first plan.new seat.new.me }
    ensures ended { result ≡ Done → (seat.new.me.0.grace ≡ Rests (seq + 2) present.new) × (present.new ≡ present.old) × HasWords (seq + 2) present.new seat.new.me.0.seen × HaveEnded (before_in seat.old.me.0.grace) seat.new.me.0.seen }
    ensures whole { (old : Me CallbackId View) → result ≡ Done → InLoop (P.is_begun Wide true table.now.slots seq first) P.action P.taken P.present seq P.QSBR K.allows old first plan.old seat.old.me → (seat.new.me ≡ (record (at_log old.0 seat.new.me.0.seen) { grace = Rests (seq + 2) present.new }, old.1)) × IsBound P.QSBR (seq + 2) present.new × WholeGracePeriod P.QSBR K.allows old.0 seq first seat.new.me.0.seen × RanPlan P.GracePlan table.now.slots seq first present.new seat.new.me.0.seen }
{
    match plan.next() {
        Action::Load(slot) => {
            let word = load_slot(table, seat, slot);
            progress_of(plan.take(word), slot)
        }
        Action::LoadGroup(group) => {
            let word = load_group(table, seat, group);
            plan.take(word);
            Progress::Going
        }
        Action::StorePhase(value) => {
            store_present(table, seat, value);
            plan.take(0);
            *present = value;
            Progress::Going
        }
        Action::StoreSeq(value) => {
            store_even(table, seat, value);
            Progress::Done
        }
        Action::Finished => unreachable!(),
    }
}

/// What the load of a slot's word came to.
fn progress_of(turn: Turn, slot: usize) -> Progress
    ensures told { result ≡ progress_at (Load slot) turn }
    ensures not_done { result ≡ Done → ⊥ }
{
    match turn {
        Turn::Wait => Progress::InTheWay(slot),
        Turn::Step => Progress::Going,
    }
}

/// A whole grace period by the seat that has the right to its words, from their present values: the sequence number,
/// and the phase or number; answers the phase or number that it stored last. A plan names each step. It waits for each
/// section that is open at its first store, with a back-off.
pub(crate) fn grace_period<P: GracePlan + Drop, K: ChainRule, R: Wait>(
    rt: &R,
    table: &LiveTable<P, K>,
    seat: &mut LiveSeat,
    seq: u64,
    first: u64,
) -> u64
    requires seat { seat.old.table_id ≡ table.now.words.shared.table_id }
    requires right { (seat.old.me.0.grace ≡ Rests seq first) × (seq % 2 ≡ 0) × (seq ≤ 2 ^ 62) × IsBound P.QSBR seq first }
    ensures seat { Keeps seat.old seat.new }
    ensures right { (seat.new.me ≡ (record (at_log seat.old.me.0 seat.new.me.0.seen) { grace = Rests (seq + 2) result }, seat.old.me.1)) × IsBound P.QSBR (seq + 2) result }
    ensures words { HasWords (seq + 2) result seat.new.me.0.seen }
    ensures period { WholeGracePeriod P.QSBR K.allows seat.old.me.0 seq first seat.new.me.0.seen }
    ensures plan { RanPlan P.GracePlan table.now.slots seq first result seat.new.me.0.seen }
{
    let mut plan = begin(table, seat, seq, first);
    let mut present = first;
    let backoff = Backoff::new();
    for _ in rt.forever() {
        match turn(table, seat, &mut plan, &mut present, seq, first) {
            Progress::Done => return present,
            Progress::Going => backoff.reset(),
            Progress::InTheWay(_) => backoff.snooze(),
        }
    }
    unreachable!()
}
