#![tactic(auto)]
//! What `torture` is asked to do, its run of live threads among it, and what becomes of that.

mod asked;
mod counting;
mod execution;
mod fault;

pub use asked::{Asked, MOST_ROUNDS, MOST_SECONDS, Run};
pub use counting::write_counts;
pub use execution::execute;
pub use fault::RunFault;
