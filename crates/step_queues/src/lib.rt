#![tactic(auto)]
//! The steps on the words of queues: how many callbacks were queued and finished, whether a queue is closed, and who
//! works for it.

mod loads;
mod plays;
mod stores;
mod work;

pub use loads::{load_closed, load_finished, load_queued};
pub use stores::{store_closed, store_finished, store_queued};
pub use work::{end_work, free_work, hold_work};
