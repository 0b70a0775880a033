//! The lines of a schedule, and what they are answered.

use rcu_model::{Event, ObjectId, Refusal};

/// One step of an actor, which is named by its number from 0. `NoActor` where the world has none of that number.
#[derive(Clone, Copy, Debug, PartialEq, Eq, Drop)]
pub enum Line {
    /// One of 1 to 64 readers.
    Reader(u32, ReaderVerb),
    /// One of 1 to 16 updaters.
    Updater(u32, UpdaterVerb),
    /// One of 1 to 8 workers.
    Worker(u32, WorkerVerb),
}

/// What a reader does: the first step of an operation, or the next one.
#[derive(Clone, Copy, Debug, PartialEq, Eq, Drop)]
pub enum ReaderVerb {
    /// Opens a section, or nests: liburcu's `rcu_read_lock`.
    Lock,
    /// Closes the innermost lock: liburcu's `rcu_read_unlock`.
    Unlock,
    /// Comes back from rest: liburcu's `rcu_thread_online`.
    Online,
    /// Announces that it stands on nothing: liburcu's `rcu_quiescent_state`.
    Quiescent,
    /// Rests, so that no grace period waits for it: liburcu's `rcu_thread_offline`.
    Offline,
    /// Goes to the first object of a chain.
    First(u32),
    /// Goes on to the successor of the object that the reader last got.
    Next,
    /// Reads the object that the reader last got.
    Touch,
    /// The next step of the operation that the reader is in.
    GoOn,
}

/// What an updater does: the first step of an operation, or the next one.
#[derive(Clone, Copy, Debug, PartialEq, Eq, Drop)]
pub enum UpdaterVerb {
    /// Publishes a new object at the front of a chain.
    Push(u32),
    /// Publishes a new object in the place of a linked one.
    Replace(ObjectId),
    /// Takes a linked object out of its chain.
    Cut(ObjectId),
    /// Queues a cut object, to be reclaimed after a grace period: liburcu's `call_rcu`.
    Retire(ObjectId),
    /// Waits for a grace period: liburcu's `synchronize_rcu`.
    Sync,
    /// Takes a cookie, in place of an older one: liburcu's `start_poll_synchronize_rcu`.
    Start,
    /// Asks whether a grace period has passed since the cookie was taken: liburcu's `poll_state_synchronize_rcu`.
    Poll,
    /// Waits until all that was queued has run: liburcu's `rcu_barrier`.
    Barrier,
    /// The next step of the operation that the updater is in.
    GoOn,
}

/// What a worker does: the first step of its operation, or the next one.
#[derive(Clone, Copy, Debug, PartialEq, Eq, Drop)]
pub enum WorkerVerb {
    /// Takes all that is queued, as a batch.
    Take,
    /// The next step of the operation that the worker is in.
    GoOn,
}

/// What a step answers.
#[derive(Clone, Copy, Debug, PartialEq, Eq, Drop)]
pub enum Answer {
    /// What happened: one event, or two at an announcement.
    Events { first: Event, second: Option<Event> },
    /// The step was made, and tells no event.
    Quiet,
    /// What was loaded is not yet as the step needs it. Nothing changed.
    Wait,
    /// A lock that the step needs free is held. Nothing changed.
    Blocked,
    /// There is nothing to take. Nothing changed.
    Idle,
}

/// Why a step was refused: one of `NestFull`, `Exhausted`, `NotOpen`, `Busy`, `NoPlace`, `WrongFlavour`, `NoActor` and
/// `Memory`.
pub type StepError = Refusal;
