#![tactic(auto)]
//! What the world of schedules keeps, and what each step makes of it.

mod cells;
mod change;
mod config;
mod line;
mod object;
mod plan;
mod queue;
mod reader;
mod updater;
mod worker;

pub use cells::{mark_object, put, splice_heads, splice_objects};
pub use change::Change;
pub use config::{Config, Flavour};
pub use line::{Answer, Line, ReaderVerb, StepError, UpdaterVerb, WorkerVerb};
pub use object::{Life, Mark, ObjectState, Splice, Stage};
pub use plan::WorldPlan;
pub use queue::{QueueAct, QueueState, act_on, hold_queue};
pub use reader::{ReaderState, ReaderStep};
pub use reader_word::Layout;
pub use updater::{
    Barrier, BarrierStep, GraceState, Holder, Publishing, QUEUES, RetireStep, Started,
    UpdaterPlace, UpdaterState,
};
pub use worker::WorkerState;
