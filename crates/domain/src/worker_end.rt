//! What a queue's worker leaves.

use call_rcu_worker::Finished;
use callback_queue::Item;
use live_callbacks::Job;
use live_read::Site;

/// Why a worker stopped.
#[derive(Clone, Copy, Debug, PartialEq, Eq, Drop)]
pub enum Stop {
    /// Its queue was closed, and all that was queued is finished: of `run_worker` alone.
    Closed,
    /// All that was queued when it began is finished: of `run_queued` alone.
    Served,
    /// The sequence numbers are used up: nobody works for the queue any more.
    Exhausted,
    /// Memory was refused. Another may work for the queue.
    Memory,
}

/// What a worker did, and why it stopped.
#[derive(Drop)]
pub struct WorkerEnd<B: Site, D: Drop> {
    /// What it ran, in the order of the tickets.
    pub finished: Vec<Finished>,
    /// Where the sequence numbers are used up, what waited for a grace period then, and is not run.
    pub left: Vec<Item<Job<B, D>>>,
    /// Why it stopped.
    pub stop: Stop,
}
