//! A drain: one worker alone, until its batch is counted.

ghost use Rattle.std.specs.Prelude.{◌≡◌, ◌≤◌, ◌<◌, ◌^◌, length};
ghost use Rattle.world_state.specs.View.{BoardView, plans_of};
ghost use Rattle.world.specs.Reached.{IsReached};
ghost use Rattle.world.specs.Drain.{IsSettled};

use crate::board::{Board, at, entry};
use crate::laws::{numbers_stay_in_range, plan_keeps_its_laws};
use call_rcu_worker::WorkerCore;
use rcu_model::Refusal;
use world_state::{QueueState, StepError, WorkerState, WorldPlan};

/// From here on no grace period can be asked for: 2^62.
const END_OF_NUMBERS: u64 = 1 << 62;

/// What a worker finds that rests between two lines.
fn workers_rest<P: WorldPlan>()
    ensures { (w : BoardView P) → IsReached (plans_of P.QSBR P.made P.action P.turn P.taken) w → IsSettled w }
{
    plan_keeps_its_laws::<P>();
}

impl<P: WorldPlan + Drop> Board<P> {
    ghost use Rattle.world.specs.Shown.{shown};
    ghost use Rattle.world.specs.Drain.{some_open, is_busy, steps_for, items_to_drain, Drains};

    /// Steps one worker alone from its `take` until its batch is counted, and answers the number of steps.
    pub fn drain(&mut self, worker: u32) -> Result<u64, StepError>
        requires { IsReached (plans_of P.QSBR P.made P.action P.turn P.taken) (shown self.old) }
        ensures { Drains (plans_of P.QSBR P.made P.action P.turn P.taken) worker (shown self.old) (shown self.new) result }
    {
        numbers_stay_in_range::<P>();
        workers_rest::<P>();
        let items = self.items_to_drain(worker)?;
        if items == 0 {
            return Ok(0);
        }
        // The log has room for the ask, its answer, and a run of each item, or it is refused; no memory has 2^62
        // events. So no step is refused after that.
        if items >= END_OF_NUMBERS || self.kept.log.reserve(items as usize + 2).is_err() {
            return Err(Refusal::Memory);
        }
        let steps = self.steps_for(items);
        let _ = self.take(worker);
        for _ in 1..steps {
            let _ = self.work_on(worker);
        }
        Ok(steps)
    }

    /// How many items a drain runs.
    fn items_to_drain(&self, worker: u32) -> Result<u64, Refusal>
        requires { IsSettled (shown self.now) }
        ensures { result ≡ items_to_drain P.QSBR (shown self.now) worker }
    {
        let Some(state) = at(&self.kept.workers, worker as usize) else {
            return Err(Refusal::NoActor);
        };
        let Some(queue) = entry(&self.kept.queues, worker as usize) else {
            return Err(Refusal::NoActor);
        };
        if self.is_busy(state, queue) {
            return Err(Refusal::Busy);
        }
        if queue.items.is_empty() {
            return Ok(0);
        }
        if self.kept.grace.seq >= END_OF_NUMBERS {
            return Err(Refusal::Exhausted);
        }
        // All of them are fresh, since the worker rests.
        let (_, _, fresh) = queue.items.segments();
        Ok(fresh)
    }

    /// Whether somebody is in the way, or the worker is in an operation.
    fn is_busy(&self, state: WorkerState<P>, queue: &QueueState) -> bool
        ensures { result ≡ is_busy P.QSBR (shown self.now) state queue.now }
    {
        let is_resting = matches!(state.core, WorkerCore::Idle);
        self.has_open_section()
            || self.kept.grace.holder.is_some()
            || queue.holder.is_some()
            || !is_resting
    }

    /// Whether some reader is in a section.
    fn has_open_section(&self) -> bool
        ensures { result ≡ some_open P.QSBR (shown self.now).layout (shown self.now).readers }
    {
        for reader in &self.kept.readers {
            if reader.is_in_section(P::QSBR, self.kept.layout) {
                return true;
            }
        }
        false
    }

    /// How many steps drain this many items.
    fn steps_for(&self, items: u64) -> u64
        requires some { 1 ≤ items }
        requires few { items < 2 ^ 62 }
        requires readers { length (shown self.now).readers ≤ 64 }
        ensures { result ≡ steps_for P.QSBR (length (shown self.now).readers) items }
    {
        let readers = self.kept.readers.len() as u64;
        if P::QSBR {
            readers + 8 + 2 * items
        } else {
            2 * readers + 9 + 2 * items
        }
    }
}
