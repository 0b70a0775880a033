#![tactic(auto)]
//! The world of schedules: readers, updaters and workers that make one atomic step a line.

mod actor;
mod barring;
mod board;
mod draining;
mod grace;
mod laws;
mod locking;
mod noting;
mod numbering;
mod ordering;
mod publishing;
mod reading;
mod retiring;
mod testing;
mod waiting;
mod working;
mod world;

pub use actor::Actor;
pub use laws::{every_schedule_reclaims_safely, log_is_a_run};
pub use locking::locks_are_held_by_those_inside;
pub use noting::{
    checks_answer_by_their_cookie, notes_are_of_the_latest_line, quiescent_words_answer_alike,
    readers_store_what_they_loaded, retirements_go_in_order,
};
pub use numbering::{numbers_are_given_in_order, numbers_count_lines};
pub use ordering::callbacks_run_in_the_order_of_their_queue;
pub use world::World;
pub use world_state::{
    Answer, Config, Flavour, Layout, Line, ReaderVerb, StepError, UpdaterVerb, WorkerVerb,
};
