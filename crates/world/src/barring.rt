//! The lines of updaters that wait until all that was queued has run.

ghost use Rattle.std.specs.Prelude.{◌≡◌, ◌+◌, ◌<◌, ◌≤◌, length, slice_get, Ok};

use crate::board::{Board, entry};
use crate::grace::one_event;
use rcu_model::Event;
use world_state::{
    Answer, Barrier, BarrierStep, Change, QUEUES, UpdaterPlace, UpdaterState, WorldPlan, put,
};

impl<P: WorldPlan + Drop> Board<P> {
    ghost use Rattle.world.specs.Queues.{queued_in, finished_in, after_note, noted_at, checked, barrier_row, barrier_on};
    ghost use Rattle.world_state.specs.declared.updater.BarrierStep.TheVariants.{Check};
    ghost use Rattle.world.specs.Row.{made};
    ghost use Rattle.world.specs.Shown.{shown, HasQueues, IsAtQueue};

    /// Notes the queued count of a queue.
    fn noted_at(&self, mut counts: [u64; QUEUES], queue: u32) -> [u64; QUEUES]
        ensures { result ≡ noted_at (shown self.now) counts queue }
    {
        let queued = entry(&self.kept.queues, queue as usize).map_or(0, |state| state.queued);
        put(&mut counts, queue as usize, queued);
        counts
    }

    /// What is due once the count of a queue is noted.
    fn after_note(&self, queue: u32) -> BarrierStep
        requires queues { HasQueues (shown self.now) }
        requires at { queue < length (shown self.now).queues }
        ensures { result ≡ after_note (shown self.now) queue }
    {
        if queue as usize + 1 < self.kept.queues.len() {
            BarrierStep::Note(queue + 1)
        } else {
            BarrierStep::Check(0)
        }
    }

    /// `barrier`, first step.
    pub fn barrier(&self, updater: u32, mut state: UpdaterState<P>) -> Change<P>
        requires queues { HasQueues (shown self.now) }
        requires barriers { (shown self.now).barriers ≤ length (shown self.now).log }
        ensures { result ≡ barrier_row (shown self.now) updater state }
    {
        let number = self.kept.barriers + 1;
        state.place = UpdaterPlace::Bars(Barrier {
            number,
            counts: self.noted_at([0; QUEUES], 0),
            due: self.after_note(0),
        });
        Change::Bar {
            updater,
            state,
            barriers: number,
            answer: one_event(Event::Bar(number)),
        }
    }

    /// The further steps of `barrier`.
    pub fn barrier_on(
        &self,
        updater: u32,
        mut state: UpdaterState<P>,
        mut barrier: Barrier,
    ) -> Change<P>
        requires queues { HasQueues (shown self.now) }
        requires at { IsAtQueue (shown self.now) barrier.due }
        ensures { Ok result ≡ made (barrier_on (shown self.now) updater state barrier barrier.due) }
    {
        match barrier.due {
            BarrierStep::Note(queue) => {
                barrier.counts = self.noted_at(barrier.counts, queue);
                barrier.due = self.after_note(queue);
                state.place = UpdaterPlace::Bars(barrier);
                Change::Bar {
                    updater,
                    state,
                    barriers: self.kept.barriers,
                    answer: Answer::Quiet,
                }
            }
            BarrierStep::Check(queue) => self.check(updater, state, barrier, queue),
        }
    }

    /// Loads the finished count of a queue, and goes on once it has reached the noted one.
    fn check(
        &self,
        updater: u32,
        mut state: UpdaterState<P>,
        mut barrier: Barrier,
        queue: u32,
    ) -> Change<P>
        requires queues { HasQueues (shown self.now) }
        requires at { queue < length (shown self.now).queues }
        ensures { Ok result ≡ made (barrier_on (shown self.now) updater state barrier (Check queue)) }
    {
        let noted = barrier.counts.get(queue as usize).copied().unwrap_or(0);
        let finished = entry(&self.kept.queues, queue as usize).map_or(0, |state| state.finished);
        if finished < noted {
            return Change::Stay(Answer::Wait);
        }
        let mut answer = one_event(Event::Clear(barrier.number));
        state.place = UpdaterPlace::Idle;
        if queue as usize + 1 < self.kept.queues.len() {
            answer = Answer::Quiet;
            barrier.due = BarrierStep::Check(queue + 1);
            state.place = UpdaterPlace::Bars(barrier);
        }
        Change::Bar {
            updater,
            state,
            barriers: self.kept.barriers,
            answer,
        }
    }
}
