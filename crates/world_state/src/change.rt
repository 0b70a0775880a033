//! What a step makes of the world.

use crate::line::Answer;
use crate::object::{Mark, ObjectState, Splice};
use crate::queue::QueueAct;
use crate::reader::ReaderStep;
use crate::updater::{GraceState, UpdaterState};
use crate::worker::WorkerState;
use rcu_model::Event;

/// What a step makes of the world.
#[derive(Drop)]
pub enum Change<P> {
    /// One reader's step.
    Read {
        /// The reader that makes it.
        reader: u32,
        /// The reader after it, and its answer.
        step: ReaderStep,
    },
    /// An updater begins to publish an object, which is new.
    Begin {
        /// The updater that publishes.
        updater: u32,
        /// The updater after the step: its store is due.
        state: UpdaterState<P>,
        /// The new object, which is in no chain yet.
        object: ObjectState,
    },
    /// An updater's store into a chain.
    Publish {
        /// The updater that stores.
        updater: u32,
        /// The updater after the store.
        state: UpdaterState<P>,
        /// What leaves the chain, what enters it, and between which neighbours.
        splice: Splice,
        /// What the log gets: a push, a replacement or a cut.
        event: Event,
    },
    /// An updater's step of a grace period.
    Grace {
        /// The updater that makes it.
        updater: u32,
        /// The updater after it.
        state: UpdaterState<P>,
        /// The sequence number, the phase, the lock and the asks after it.
        grace: GraceState,
        /// What is answered, with an ask or an answer for the log.
        answer: Answer,
    },
    /// An updater takes a queue's lock, and a place in the queue is reserved.
    Hold {
        /// The updater, which holds the lock from then on.
        updater: u32,
        /// The updater after the step: the steps of its retirement are due.
        state: UpdaterState<P>,
        /// The updater's own queue.
        queue: u32,
    },
    /// An updater's step with a queue that it has locked.
    Retire {
        /// The updater that makes it.
        updater: u32,
        /// The updater after it.
        state: UpdaterState<P>,
        /// The queue that it has locked.
        queue: u32,
        /// What happens to that queue.
        act: QueueAct,
        /// What becomes of the object, where the step marks or pushes it.
        mark: Option<Mark>,
        /// What is answered, with a retirement or a queued object for the log.
        answer: Answer,
    },
    /// An updater's step of a barrier.
    Bar {
        /// The updater that makes it.
        updater: u32,
        /// The updater after it.
        state: UpdaterState<P>,
        /// How many barriers were begun by then.
        barriers: u64,
        /// What is answered, with the barrier's begin or end for the log.
        answer: Answer,
    },
    /// A worker's step with its queue.
    Work {
        /// The worker that makes it.
        worker: u32,
        /// The worker after it.
        state: WorkerState<P>,
        /// The sequence number, the phase, the lock and the asks after it.
        grace: GraceState,
        /// What happens to the worker's own queue.
        act: QueueAct,
        /// What becomes of an object, where the step runs its callback.
        mark: Option<Mark>,
        /// What is answered, with an ask, an answer or a run for the log.
        answer: Answer,
    },
    /// No change, but an answer.
    Stay(Answer),
}
