//! The lines of updaters that retire objects.

ghost use Rattle.std.specs.Prelude.{◌≡◌, ◌<◌, ◌≤◌, length, slice_get};

use crate::board::{Board, at, entry};
use crate::grace::one_event;
use rcu_model::{Event, ObjectId, Refusal};
use world_state::{
    Answer, Change, Life, Mark, QueueAct, RetireStep, Stage, UpdaterPlace, UpdaterState, WorldPlan,
};

impl<P: WorldPlan + Drop> Board<P> {
    ghost use Rattle.world.specs.Queues.{queue_of, may_retire, retire_row, retire_on};
    ghost use Rattle.world.specs.Row.{made};
    ghost use Rattle.world.specs.Shown.{shown, HasQueues};

    /// The queue of an updater.
    fn queue_of(&self, updater: u32) -> u32
        requires queues { HasQueues (shown self.now) }
        ensures { result ≡ queue_of (shown self.now) updater }
    {
        (updater as usize % self.kept.queues.len()) as u32
    }

    /// Whether the object is cut and not retired, in a chain that the updater writes.
    fn may_retire(&self, updater: u32, object: ObjectId) -> bool
        requires { 0 < length (shown self.now).updaters }
        ensures { result ≡ may_retire (shown self.now) updater (slice_get (shown self.now).objects object.0) }
    {
        let Some(state) = at(&self.kept.objects, object.0 as usize) else {
            return false;
        };
        matches!(state.stage, Stage::Cut)
            && matches!(state.life, Life::Kept)
            && self.writes(updater, state.chain)
    }

    /// `retire`, first step: takes the queue's lock.
    pub fn retire(
        &self,
        updater: u32,
        mut state: UpdaterState<P>,
        object: ObjectId,
    ) -> Result<Change<P>, Refusal>
        requires some { 0 < length (shown self.now).updaters }
        requires queues { HasQueues (shown self.now) }
        ensures { result ≡ made (retire_row (shown self.now) updater state object (may_retire (shown self.now) updater (slice_get (shown self.now).objects object.0))) }
    {
        if !self.may_retire(updater, object) {
            return Err(Refusal::NoPlace);
        }
        let queue = self.queue_of(updater);
        let Some(locked) = entry(&self.kept.queues, queue as usize) else {
            return Err(Refusal::NoPlace);
        };
        if locked.holder.is_some() {
            return Ok(Change::Stay(Answer::Blocked));
        }
        state.place = UpdaterPlace::Retires {
            object,
            due: RetireStep::Mark,
        };
        Ok(Change::Hold {
            updater,
            state,
            queue,
        })
    }

    /// The further steps of `retire`.
    pub fn retire_on(
        &self,
        updater: u32,
        mut state: UpdaterState<P>,
        object: ObjectId,
        due: RetireStep,
    ) -> Change<P>
        requires queues { HasQueues (shown self.now) }
        ensures { result ≡ retire_on (shown self.now) updater state object due }
    {
        let queue = self.queue_of(updater);
        let (next, act, life, answer) = match due {
            RetireStep::Mark => (
                Some(RetireStep::Count),
                QueueAct::Leave,
                Some(Life::Retired),
                one_event(Event::Retire(object)),
            ),
            RetireStep::Count => (Some(RetireStep::Push), QueueAct::Count, None, Answer::Quiet),
            RetireStep::Push => (
                Some(RetireStep::Free),
                QueueAct::Push(object),
                Some(Life::Queued),
                one_event(Event::Queue { object, queue }),
            ),
            RetireStep::Free => (None, QueueAct::Free, None, Answer::Quiet),
        };
        state.place = match next {
            Some(due) => UpdaterPlace::Retires { object, due },
            None => UpdaterPlace::Idle,
        };
        Change::Retire {
            updater,
            state,
            queue,
            act,
            mark: life.map(|life| Mark { object, life }),
            answer,
        }
    }
}
