//! Who makes a line, and whether it goes on with an operation.

ghost use Rattle.std.specs.Prelude.{◌≡◌, ◌-◌, length};

use crate::board::{Board, at};
use call_rcu_worker::WorkerCore;
use world_state::{UpdaterPlace, WorldPlan};

/// Who makes a line, by its number from 0. A world need not have the actor.
#[derive(Clone, Copy, Debug, PartialEq, Eq, Drop)]
pub enum Actor {
    /// One of 1 to 64 readers.
    Reader(u32),
    /// One of 1 to 16 updaters.
    Updater(u32),
    /// One of 1 to 8 workers.
    Worker(u32),
}

impl<P: WorldPlan + Drop> Board<P> {
    ghost use Rattle.world.specs.Shown.{shown};
    ghost use Rattle.world.specs.Actors.{is_between_steps};

    /// Whether the actor is in an operation.
    pub fn is_in_operation(&self, actor: Actor) -> bool
        ensures { result ≡ is_between_steps (shown self.now) actor }
    {
        match actor {
            Actor::Reader(reader) => match at(&self.kept.readers, reader as usize) {
                Some(state) => state.copy.is_some(),
                None => false,
            },
            Actor::Updater(updater) => match at(&self.kept.updaters, updater as usize) {
                Some(state) => !matches!(state.place, UpdaterPlace::Idle),
                None => false,
            },
            Actor::Worker(worker) => match at(&self.kept.workers, worker as usize) {
                Some(state) => !matches!(state.core, WorkerCore::Idle),
                None => false,
            },
        }
    }

    /// How many object numbers were given.
    pub fn objects_given(&self) -> u64
        ensures { result ≡ length (shown self.now).objects - 1 }
    {
        (self.kept.objects.len() as u64).saturating_sub(1)
    }
}
