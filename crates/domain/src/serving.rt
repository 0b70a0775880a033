//! How a program works for a queue.

ghost use Rattle.std.specs.Prelude.{◌≡◌, ◌≢◌, ◌+◌, ◌<◌, ◌≤◌, [], IfErr, IfOk, length};
ghost use Rattle.live_log.specs.Log.{IsLiveRun, line_of};
ghost use Rattle.live_words.specs.live_rule.Places.{work_at};
ghost use Rattle.live_words.specs.live_rule.Seats.{but_work};
ghost use Rattle.live_words.specs.live_rule.Rights.{IsWorker, finished_in, work_in};
ghost use Rattle.live_words.specs.live_rule.Steps.{IsKnown, IsLater, Keeps, Went, stored_view};
ghost use Rattle.live_words.specs.step_queues.Queues.{TookNoMore};
ghost use Rattle.live_read.specs.Hearing.{IsAfter, Stays};
ghost use Rattle.live_callbacks.specs.Items.{InOrder};
ghost use Rattle.live_callbacks.specs.Batches.{Lists, WorksFor};
ghost use Rattle.live_callbacks.specs.Working.{IsEmptied, RefusesWork};
ghost use Rattle.domain.specs.declared.serving.Until.TheVariants as ends;
ghost use Rattle.domain.specs.declared.worker_end.Stop.TheVariants as stopped;
ghost use Rattle.domain.specs.Working.{FoundUsedUp, GoesOn, HasMore, HasWorked, IsWhole, Rounds, left_by, HasWorkedFor};

use crate::domain::Domain;
use crate::worker_end::{Stop, WorkerEnd};
use crate::working::Outcome;
use call_rcu_worker::Finished;
use callback_queue::Item;
use gp_memb::GracePlan;
use live_callbacks::{Deleter, Job, begin_work};
use live_read::{Caller, Site};
use live_words::{ChainRule, LiveSeat, end_work, free_work, load_queued};
use rcu_model::Refusal;
use std::alloc::Global;
use std::sync::Wait;

/// How long a worker goes on.
#[derive(Clone, Copy, Debug, PartialEq, Eq, Drop)]
enum Until {
    /// Until its queue is closed, and all that was queued is finished.
    Closed,
    /// Until all that was queued when it began is finished.
    Served,
}

impl<P: GracePlan + Drop, K: ChainRule, B: Site, D: Deleter> Domain<P, K, B, D> {
    /// Runs batch after batch, until as many are finished as were queued when it began. Answers how many are.
    fn serve<R: Wait>(
        &self,
        rt: &R,
        seat: &mut LiveSeat,
        queue: usize,
        first: u64,
        list: &mut Vec<Finished>,
        left: &mut Vec<Item<Job<B, D>>>,
    ) -> (u64, Stop)
        requires seat { (seat.old.table_id ≡ B.table) × (seat.old.me.0.sizes ≡ B.sizes) × IsLiveRun P.QSBR K.allows seat.old.me.0.seen }
        requires queue { (queue < B.sizes.queues) × WorksFor queue first seat.old.me.0 }
        requires list { list.old.items ≡ [] }
        requires left { left.old.items ≡ [] }
        ensures seat { GoesOn P.QSBR K.allows seat.old seat.new }
        ensures work { WorksFor queue result.0 seat.new.me.0 }
        ensures list { Lists D.row.coded.code D.answers queue seat.new.me.0.seen first result.0 list.new.items }
        ensures left { InOrder queue seat.new.me.0.seen result.0 left.new.items × (result.1 ≢ stopped.Exhausted → left.new.items ≡ []) }
        ensures whole { result.1 ≡ stopped.Exhausted → IsWhole D.row.coded.code D.answers queue seat.old.me.0.seen seat.new.me.0.seen first result.0 list.new.items (length left.new.items) }
        ensures rounds { Rounds B.sizes queue first result.0 (result.0 + length left.new.items) seat.old.me.0.looks seat.new.me.0.looks }
        ensures served { result.1 ≡ stopped.Served → length (line_of seat.old.me.0.seen queue) ≤ result.0 }
        ensures exhausted { result.1 ≡ stopped.Exhausted → FoundUsedUp seat.old.me.0.seen seat.new.me.0.seen seat.old.me.0.loads seat.new.me.0.loads }
        ensures memory { result.1 ≡ stopped.Memory → IsKnown (HasMore queue result.0) seat.new.me.0 }
        ensures other { result.1 ≢ stopped.Closed }
    {
        let queued = load_queued(&self.table, seat, queue);
        let mut count = first;
        for _ in rt.forever() {
            if count >= queued {
                return (count, Stop::Served);
            }
            let (now, outcome) = self.run_batch(rt, seat, queue, first, count, list, left);
            count = now;
            match outcome {
                Outcome::Ran | Outcome::Nothing => {}
                Outcome::Exhausted => {
                    return (count, Stop::Exhausted);
                }
                Outcome::Memory => {
                    return (count, Stop::Memory);
                }
            }
        }
        unreachable!()
    }

    /// Runs batches, for as long as is asked. Answers how many are finished.
    fn work_until<R: Wait>(
        &self,
        rt: &R,
        seat: &mut LiveSeat,
        queue: usize,
        first: u64,
        until: Until,
        list: &mut Vec<Finished>,
        left: &mut Vec<Item<Job<B, D>>>,
    ) -> (u64, Stop)
        requires seat { (seat.old.table_id ≡ B.table) × (seat.old.me.0.sizes ≡ B.sizes) × IsLiveRun P.QSBR K.allows seat.old.me.0.seen }
        requires queue { (queue < B.sizes.queues) × WorksFor queue first seat.old.me.0 }
        requires list { list.old.items ≡ [] }
        requires left { left.old.items ≡ [] }
        ensures seat { GoesOn P.QSBR K.allows seat.old seat.new }
        ensures work { WorksFor queue result.0 seat.new.me.0 }
        ensures list { Lists D.row.coded.code D.answers queue seat.new.me.0.seen first result.0 list.new.items }
        ensures left { InOrder queue seat.new.me.0.seen result.0 left.new.items × (result.1 ≢ stopped.Exhausted → left.new.items ≡ []) }
        ensures whole { result.1 ≡ stopped.Exhausted → IsWhole D.row.coded.code D.answers queue seat.old.me.0.seen seat.new.me.0.seen first result.0 list.new.items (length left.new.items) }
        ensures rounds { Rounds B.sizes queue first result.0 (result.0 + length left.new.items) seat.old.me.0.looks seat.new.me.0.looks }
        ensures closed { result.1 ≡ stopped.Closed → IsEmptied queue result.0 seat.new.me.0.seen × (until ≡ ends.Closed) }
        ensures served { result.1 ≡ stopped.Served → (length (line_of seat.old.me.0.seen queue) ≤ result.0) × (until ≡ ends.Served) }
        ensures exhausted { result.1 ≡ stopped.Exhausted → FoundUsedUp seat.old.me.0.seen seat.new.me.0.seen seat.old.me.0.loads seat.new.me.0.loads }
        ensures memory { result.1 ≡ stopped.Memory → IsKnown (HasMore queue result.0) seat.new.me.0 }
    {
        match until {
            Until::Closed => self.work(rt, seat, queue, first, list, left),
            Until::Served => self.serve(rt, seat, queue, first, list, left),
        }
    }

    /// Gives the right to work for the queue back, where each batch that was taken has run, or up for good where the
    /// sequence numbers are used up.
    fn leave(&self, seat: &mut LiveSeat, queue: usize, stop: Stop)
        requires seat { (seat.old.table_id ≡ B.table) × (queue < B.sizes.queues) }
        requires right { IsWorker seat.old.me.0 × (work_in seat.old.me.0.work ≡ queue) }
        requires ran { stop ≢ stopped.Exhausted → TookNoMore B.sizes queue (finished_in seat.old.me.0.work) seat.old.me.0.looks }
        ensures seat { Keeps seat.old seat.new }
        ensures left { Went P.QSBR K.allows (stored_view (work_at B.sizes queue) (left_by stop) (but_work seat.old.me.0)) seat.old.me seat.new.me }
    {
        match stop {
            Stop::Exhausted => end_work(&self.table, seat, queue),
            Stop::Closed => free_work(&self.table, seat, queue),
            Stop::Served => free_work(&self.table, seat, queue),
            Stop::Memory => free_work(&self.table, seat, queue),
        }
    }

    /// Begins to work for the queue, works, and ends.
    fn employ<R: Wait>(
        &self,
        rt: &R,
        alloc: Global,
        seat: &mut LiveSeat,
        queue: usize,
        until: Until,
    ) -> Result<WorkerEnd<B, D>, Refusal>
        requires seat { (seat.old.table_id ≡ B.table) × (seat.old.me.0.sizes ≡ B.sizes) × (seat.old.me.1 ≡ []) }
        requires fresh { seat.old.me.0.looks ≡ [] }
        ensures seat { (seat.new.table_id ≡ B.table) × (seat.new.me.1 ≡ []) }
        ensures worked { IfOk result (λ e. HasWorked D.row.coded.code D.answers P.QSBR K.allows B.sizes queue seat.old.me.0.seen seat.old.me.0.heard seat.old.me.0.looks seat.new.me.0.looks seat.old.me.0.loads seat.new.me.0.loads e.finished.items e.left.items e.stop seat.new.me.0.seen) }
        ensures until { IfOk result (λ e. (e.stop ≡ stopped.Closed → until ≡ ends.Closed) × (e.stop ≡ stopped.Served → until ≡ ends.Served)) }
        ensures refused { IfErr result (λ e. RefusesWork B.sizes queue seat.old.me.0.looks seat.new.me.0.looks e) }
        ensures later { IfErr result (λ _. queue < B.sizes.queues → IsLater P.QSBR K.allows seat.old.me.0 seat.new.me.0) }
    {
        let first = begin_work(&self.table, seat, queue)?;
        let mut finished = Vec::new(alloc);
        let mut left = Vec::new(alloc);
        let (_, stop) = self.work_until(rt, seat, queue, first, until, &mut finished, &mut left);
        self.leave(seat, queue, stop);
        Ok(WorkerEnd {
            finished,
            left,
            stop,
        })
    }

    /// Works for a queue, as whoever calls, for as long as is asked.
    fn work_as<W: Caller<B>, R: Wait>(
        &self,
        rt: &R,
        alloc: Global,
        caller: &mut W,
        queue: usize,
        until: Until,
    ) -> Result<WorkerEnd<B, D>, Refusal>
        ensures worked { IfOk result (λ e. HasWorked D.row.coded.code D.answers P.QSBR K.allows B.sizes queue (W.seen caller.old) (W.heard caller.old) (W.looks caller.old) (W.looks caller.new) (W.loads caller.old) (W.loads caller.new) e.finished.items e.left.items e.stop (W.heard caller.new)) }
        ensures until { IfOk result (λ e. (e.stop ≡ stopped.Closed → until ≡ ends.Closed) × (e.stop ≡ stopped.Served → until ≡ ends.Served)) }
        ensures refused { IfErr result (λ e. RefusesWork B.sizes queue (W.looks caller.old) (W.looks caller.new) e) }
        ensures heard { IfErr result (λ _. queue < B.sizes.queues → IsAfter P.QSBR K.allows (W.seen caller.old) (W.heard caller.old) (W.heard caller.new)) }
        ensures nobody { B.sizes.queues ≤ queue → caller.new ≡ caller.old }
        ensures same { Stays W.Caller caller.old caller.new }
    {
        if queue >= self.queues.len() {
            return Err(Refusal::NoActor);
        }
        let mut seat = caller.tell(&self.table);
        let end = self.employ(rt, alloc, &mut seat, queue, until);
        caller.learn(&self.table, seat);
        end
    }

    /// Works for a queue, liburcu's thread of `call_rcu`, until it is closed and all that was queued is finished: takes
    /// what is queued, waits for a grace period, and runs it, each object in the turn of its ticket and with no lock
    /// held. It rests while nothing is queued. The caller, who has no section or lock open and is offline where its
    /// reader is of the quiescent-state flavour, hears of all that.
    ///
    /// Each object's deleter, which was handed to its retirement, is called with it and the words that were published
    /// with it. The entry's code is the answer. Which deleter it was, the log tells, where `retire` noted it.
    ///
    /// It stops early where the sequence numbers are used up, and then nobody works for the queue any more; or where
    /// memory is refused for what is queued. Refused with `NoActor` exactly where there is no such queue, else with
    /// `Busy` where its hold word was found to be 1, as while another works for it, and with `Exhausted` where it was
    /// found to be 2.
    pub fn run_worker<W: Caller<B>, R: Wait>(
        &self,
        rt: &R,
        alloc: Global,
        caller: &mut W,
        queue: usize,
    ) -> Result<WorkerEnd<B, D>, Refusal>
        ensures worked { IfOk result (λ e. HasWorkedFor W.Caller D.row.coded.code D.answers P.QSBR K.allows B.sizes queue caller.old caller.new e.finished.items e.left.items e.stop) }
        ensures stopped { IfOk result (λ e. e.stop ≢ stopped.Served) }
        ensures refused { IfErr result (λ e. RefusesWork B.sizes queue (W.looks caller.old) (W.looks caller.new) e) }
        ensures heard { IfErr result (λ _. queue < B.sizes.queues → IsAfter P.QSBR K.allows (W.seen caller.old) (W.heard caller.old) (W.heard caller.new)) }
        ensures nobody { B.sizes.queues ≤ queue → caller.new ≡ caller.old }
        ensures same { Stays W.Caller caller.old caller.new }
    {
        self.work_as(rt, alloc, caller, queue, Until::Closed)
    }

    /// Runs what is queued and returns, for a program without a thread to spare: where something is, waits for a grace
    /// period, and runs each object in the turn of its ticket, with no lock held, until all that was queued in what the
    /// caller had seen and heard of is finished. Its end is that of a worker, with `Stop::Served` where all was run.
    /// liburcu has no such call; its users poll. The caller has no section or lock open, and is offline where its
    /// reader is of the quiescent-state flavour.
    ///
    /// It stops early, and is refused, as `run_worker`.
    pub fn run_queued<W: Caller<B>, R: Wait>(
        &self,
        rt: &R,
        alloc: Global,
        caller: &mut W,
        queue: usize,
    ) -> Result<WorkerEnd<B, D>, Refusal>
        ensures worked { IfOk result (λ e. HasWorkedFor W.Caller D.row.coded.code D.answers P.QSBR K.allows B.sizes queue caller.old caller.new e.finished.items e.left.items e.stop) }
        ensures stopped { IfOk result (λ e. e.stop ≢ stopped.Closed) }
        ensures refused { IfErr result (λ e. RefusesWork B.sizes queue (W.looks caller.old) (W.looks caller.new) e) }
        ensures heard { IfErr result (λ _. queue < B.sizes.queues → IsAfter P.QSBR K.allows (W.seen caller.old) (W.heard caller.old) (W.heard caller.new)) }
        ensures nobody { B.sizes.queues ≤ queue → caller.new ≡ caller.old }
        ensures same { Stays W.Caller caller.old caller.new }
    {
        self.work_as(rt, alloc, caller, queue, Until::Served)
    }
}
