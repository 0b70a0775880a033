//! What the world keeps of a worker.

ghost use Rattle.std.specs.Prelude.{◌≡◌};

use call_rcu_worker::WorkerCore;

/// What the world keeps of a worker, which runs what the queue of its number holds.
#[derive(Clone, Copy, Drop)]
pub struct WorkerState<P> {
    /// The number of its last ask.
    pub ask: u64,
    /// Where it stands.
    pub core: WorkerCore<P, ()>,
}

impl<P> WorkerState<P> {
    ghost use Rattle.world_state.specs.Queues.{new_worker};

    /// A worker in no operation.
    pub fn new() -> WorkerState<P>
        ensures { result ≡ new_worker }
    {
        WorkerState {
            ask: 0,
            core: WorkerCore::Idle,
        }
    }
}
