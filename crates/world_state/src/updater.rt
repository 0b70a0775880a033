//! What the world keeps of an updater and of grace periods.

ghost use Rattle.std.specs.Prelude.{◌≡◌};

use call_rcu_worker::SyncCore;
use poll_cookie::Cookie;
use rcu_model::ObjectId;

/// What an updater is about to publish, between the two steps of `push` or `replace`.
#[derive(Clone, Copy, Drop)]
pub enum Publishing {
    /// This one, at the front of its chain.
    Push(ObjectId),
    /// A new one in the place of a linked one.
    Replace { old: ObjectId, new: ObjectId },
}

/// What is due next of a retirement, whose queue is locked.
#[derive(Clone, Copy, Drop)]
pub enum RetireStep {
    /// Store the object's header.
    Mark,
    /// Store the queued count.
    Count,
    /// Push the item.
    Push,
    /// Free the queue's lock.
    Free,
}

/// The most queues that a world has.
pub const QUEUES: usize = 8;

/// What is due next of a barrier.
#[derive(Clone, Copy, Drop)]
pub enum BarrierStep {
    /// Load the queued count of this queue.
    Note(u32),
    /// Load the finished count of this queue.
    Check(u32),
}

/// A barrier under way, with the queued counts that it has loaded so far.
#[derive(Clone, Copy, Drop)]
pub struct Barrier {
    /// Its number among barriers, from 1.
    pub number: u64,
    /// The queued count of each queue, 0 where none was loaded yet.
    pub counts: [u64; QUEUES],
    /// What it does next.
    pub due: BarrierStep,
}

/// Where an updater stands in its operation.
#[derive(Clone, Copy, Drop)]
pub enum UpdaterPlace<P> {
    /// In no operation.
    Idle,
    /// Has filled a new object, and is to publish it.
    Publishes(Publishing),
    /// Waits for a grace period, by the ask of this number.
    Syncs { ask: u64, core: SyncCore<P> },
    /// Retires an object: holds the lock of its own queue, and is to make this step next.
    Retires { object: ObjectId, due: RetireStep },
    /// Waits until all that was queued has run.
    Bars(Barrier),
}

/// An ask that `start` made, and its cookie, which `poll` has not spent.
#[derive(Clone, Copy, Drop)]
pub struct Started {
    /// The number of the ask.
    pub ask: u64,
    /// What the sequence number has to reach.
    pub cookie: Cookie,
}

/// What the world keeps of an updater.
#[derive(Clone, Copy, Drop)]
pub struct UpdaterState<P> {
    /// Where it stands.
    pub place: UpdaterPlace<P>,
    /// Its pending poll, if it has one.
    pub started: Option<Started>,
}

impl<P> UpdaterState<P> {
    ghost use Rattle.world_state.specs.View.{idle};

    /// An updater in no operation, with no cookie.
    pub fn new() -> UpdaterState<P>
        ensures { result ≡ idle }
    {
        UpdaterState {
            place: UpdaterPlace::Idle,
            started: None,
        }
    }
}

/// Who may hold the grace lock.
#[derive(Clone, Copy, Drop)]
pub enum Holder {
    /// An updater in `sync`, by its number from 0.
    Updater(u32),
    /// A worker with a batch, by its number from 0.
    Worker(u32),
}

/// What the world keeps of grace periods.
#[derive(Clone, Copy, Drop)]
pub struct GraceState {
    /// The sequence number: odd while a grace period runs.
    pub seq: u64,
    /// The phase, 0 or 1, or in the quiescent-state flavour the number.
    pub word: u64,
    /// Who holds the grace lock.
    pub holder: Option<Holder>,
    /// How many asks were made.
    pub asks: u64,
}
