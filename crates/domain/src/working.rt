//! How batches of a queue are run.

ghost use Rattle.std.specs.Prelude.{◌≡◌, ◌≢◌, ℕ, ◌+◌, ◌-◌, ◌<◌, ◌≤◌, [], IfErr, IfOk, length, reverse, vec_capacity, vec_len};
ghost use Rattle.live_log.specs.Log.{IsLiveRun, line_of};
ghost use Rattle.live_words.specs.live_rule.Steps.{IsKnown};
ghost use Rattle.live_callbacks.specs.Items.{InOrder};
ghost use Rattle.live_callbacks.specs.Batches.{IsDue, Lists, WorksFor};
ghost use Rattle.live_callbacks.specs.Working.{IsEmptied};
ghost use Rattle.domain.specs.declared.worker_end.Stop.TheVariants as stopped;
ghost use Rattle.domain.specs.declared.working.Outcome.TheVariants as outcome;
ghost use Rattle.domain.specs.Working.{FoundUsedUp, GoesOn, HasMore, IsRound, IsWhole, Rounds};

use crate::domain::Domain;
use crate::worker_end::Stop;
use call_rcu_worker::Finished;
use callback_queue::Item;
use crossbeam_utils::Backoff;
use gp_memb::GracePlan;
use live_callbacks::{Deleter, Job, is_emptied, run_next};
use live_read::Site;
use live_waits::ask;
use live_words::{ChainRule, LiveSeat};
use rcu_model::Refusal;
use std::sync::Wait;

/// What came of a batch.
#[derive(Clone, Copy, Debug, PartialEq, Eq, Drop)]
pub(crate) enum Outcome {
    /// All its items ran.
    Ran,
    /// There was none.
    Nothing,
    /// The sequence numbers are used up.
    Exhausted,
    /// Memory was refused.
    Memory,
}

/// Lets some time pass, in which more is queued: one grace period serves all of a batch.
fn back_off<R: Wait>(rt: &R) {
    let backoff = Backoff::new();
    for _ in rt.forever() {
        if backoff.is_completed() {
            return;
        }
        backoff.snooze();
    }
}

impl<P: GracePlan + Drop, K: ChainRule, B: Site, D: Deleter> Domain<P, K, B, D> {
    /// Runs a whole batch, whose first item is the last one of its list, each in its turn and with no lock held.
    fn run_all(
        &self,
        seat: &mut LiveSeat,
        queue: usize,
        first: u64,
        finished: u64,
        given: u64,
        list: &mut Vec<Finished>,
        batch: &mut Vec<Item<Job<B, D>>>,
    )
        requires seat { (seat.old.table_id ≡ B.table) × (seat.old.me.0.sizes ≡ B.sizes) }
        requires queue { (queue < B.sizes.queues) × WorksFor queue finished seat.old.me.0 }
        requires due { IsDue queue given seat.old.me.0.seen × IsLiveRun P.QSBR K.allows seat.old.me.0.seen }
        requires list { Lists D.row.coded.code D.answers queue seat.old.me.0.seen first finished list.old.items × (vec_len list.old + (given - finished) ≤ vec_capacity list.old) }
        requires batch { InOrder queue seat.old.me.0.seen finished (reverse batch.old.items) × (finished + vec_len batch.old ≡ given) }
        ensures seat { GoesOn P.QSBR K.allows seat.old seat.new }
        ensures looks { seat.new.me.0.looks ≡ seat.old.me.0.looks }
        ensures work { WorksFor queue given seat.new.me.0 }
        ensures list { Lists D.row.coded.code D.answers queue seat.new.me.0.seen first given list.new.items }
        ensures batch { batch.new.items ≡ [] }
    {
        for count in finished..given {
            let Some(item) = batch.pop() else {
                unreachable!()
            };
            let done = run_next(&self.table, seat, queue, count, given, item);
            list.push_reserved(done);
        }
    }

    /// Waits for a grace period that begins after all that the worker has seen.
    ///
    /// Refused with `Exhausted` where the sequence numbers are used up.
    fn wait_for_readers<R: Wait>(&self, rt: &R, seat: &mut LiveSeat) -> Result<(), Refusal>
        requires { seat.old.table_id ≡ B.table }
        ensures seat { GoesOn P.QSBR K.allows seat.old seat.new × (seat.new.me.0.work ≡ seat.old.me.0.work) × (seat.new.me.0.looks ≡ seat.old.me.0.looks) }
        ensures due { IfOk result (λ _. (q : ℕ) → IsDue q (length (line_of seat.old.me.0.seen q)) seat.new.me.0.seen) }
        ensures refused { IfErr result (λ _. FoundUsedUp seat.old.me.0.seen seat.new.me.0.seen seat.old.me.0.loads seat.new.me.0.loads) }
    {
        let asked = ask::<P, K>(&self.table, seat)?;
        self.grace.lock(rt).answer(rt, &self.table, seat, asked);
        Ok(())
    }

    /// Takes a batch, waits for a grace period, and runs the batch. Answers how many are finished. Where the sequence
    /// numbers are used up, the whole batch is left.
    pub(crate) fn run_batch<R: Wait>(
        &self,
        rt: &R,
        seat: &mut LiveSeat,
        queue: usize,
        first: u64,
        finished: u64,
        list: &mut Vec<Finished>,
        left: &mut Vec<Item<Job<B, D>>>,
    ) -> (u64, Outcome)
        requires seat { (seat.old.table_id ≡ B.table) × (seat.old.me.0.sizes ≡ B.sizes) × IsLiveRun P.QSBR K.allows seat.old.me.0.seen }
        requires queue { (queue < B.sizes.queues) × WorksFor queue finished seat.old.me.0 }
        requires list { Lists D.row.coded.code D.answers queue seat.old.me.0.seen first finished list.old.items }
        requires left { left.old.items ≡ [] }
        ensures seat { GoesOn P.QSBR K.allows seat.old seat.new }
        ensures work { WorksFor queue result.0 seat.new.me.0 }
        ensures list { Lists D.row.coded.code D.answers queue seat.new.me.0.seen first result.0 list.new.items }
        ensures left { InOrder queue seat.new.me.0.seen result.0 left.new.items × (result.1 ≢ outcome.Exhausted → left.new.items ≡ []) }
        ensures whole { result.1 ≡ outcome.Exhausted → IsWhole D.row.coded.code D.answers queue seat.old.me.0.seen seat.new.me.0.seen first result.0 list.new.items (length left.new.items) }
        ensures round { IsRound B.sizes queue finished result.0 (length left.new.items) result.1 seat.old.me.0.looks seat.new.me.0.looks }
        ensures exhausted { result.1 ≡ outcome.Exhausted → FoundUsedUp seat.old.me.0.seen seat.new.me.0.seen seat.old.me.0.loads seat.new.me.0.loads }
        ensures memory { result.1 ≡ outcome.Memory → IsKnown (HasMore queue result.0) seat.new.me.0 }
    {
        let taken = self.queues[queue]
            .lock(rt, queue)
            .take_batch(&self.table, seat, queue, finished, list, left);
        let Ok(given) = taken else {
            return (finished, Outcome::Memory);
        };
        if given == finished {
            return (finished, Outcome::Nothing);
        }
        if self.wait_for_readers(rt, seat).is_err() {
            return (finished, Outcome::Exhausted);
        }
        left.reverse();
        self.run_all(seat, queue, first, finished, given, list, left);
        (given, Outcome::Ran)
    }

    /// Runs batch after batch, until the queue is closed and all that was queued is finished. Answers how many are.
    pub(crate) fn work<R: Wait>(
        &self,
        rt: &R,
        seat: &mut LiveSeat,
        queue: usize,
        first: u64,
        list: &mut Vec<Finished>,
        left: &mut Vec<Item<Job<B, D>>>,
    ) -> (u64, Stop)
        requires seat { (seat.old.table_id ≡ B.table) × (seat.old.me.0.sizes ≡ B.sizes) × IsLiveRun P.QSBR K.allows seat.old.me.0.seen }
        requires queue { (queue < B.sizes.queues) × WorksFor queue first seat.old.me.0 }
        requires list { list.old.items ≡ [] }
        requires left { left.old.items ≡ [] }
        ensures seat { GoesOn P.QSBR K.allows seat.old seat.new }
        ensures work { WorksFor queue result.0 seat.new.me.0 }
        ensures list { Lists D.row.coded.code D.answers queue seat.new.me.0.seen first result.0 list.new.items }
        ensures left { InOrder queue seat.new.me.0.seen result.0 left.new.items × (result.1 ≢ stopped.Exhausted → left.new.items ≡ []) }
        ensures whole { result.1 ≡ stopped.Exhausted → IsWhole D.row.coded.code D.answers queue seat.old.me.0.seen seat.new.me.0.seen first result.0 list.new.items (length left.new.items) }
        ensures rounds { Rounds B.sizes queue first result.0 (result.0 + length left.new.items) seat.old.me.0.looks seat.new.me.0.looks }
        ensures closed { result.1 ≡ stopped.Closed → IsEmptied queue result.0 seat.new.me.0.seen }
        ensures exhausted { result.1 ≡ stopped.Exhausted → FoundUsedUp seat.old.me.0.seen seat.new.me.0.seen seat.old.me.0.loads seat.new.me.0.loads }
        ensures memory { result.1 ≡ stopped.Memory → IsKnown (HasMore queue result.0) seat.new.me.0 }
        ensures other { result.1 ≢ stopped.Served }
    {
        let mut count = first;
        for _ in rt.forever() {
            let (now, outcome) = self.run_batch(rt, seat, queue, first, count, list, left);
            count = now;
            match outcome {
                Outcome::Ran => {
                    back_off(rt);
                }
                Outcome::Nothing => {
                    if is_emptied(&self.table, seat, queue, count) {
                        return (count, Stop::Closed);
                    }
                    self.rest(rt, queue);
                }
                Outcome::Exhausted => {
                    return (count, Stop::Exhausted);
                }
                Outcome::Memory => {
                    return (count, Stop::Memory);
                }
            }
        }
        unreachable!()
    }

    /// Rests while nothing is queued. Before that it lets some time pass, so that what is queued meanwhile wakes
    /// nobody.
    fn rest<R: Wait>(&self, rt: &R, queue: usize)
        requires { queue < B.sizes.queues }
    {
        back_off(rt);
        self.queues[queue].parker.lock(rt).park(rt);
    }
}
