#![tactic(auto)]
//! A queue keeps callbacks in the order of their tickets, under its lock. Its worker takes them out, waits for a grace
//! period and runs them.

mod deleter;
mod items;
mod job;
mod refusing;
mod retiring;
mod run;
mod running;
mod work;

pub use deleter::Deleter;
pub use items::Items;
pub use job::Job;
pub use refusing::refusal_of;
pub use retiring::queue_object;
pub use run::run_next;
pub use work::{begin_work, is_emptied};
