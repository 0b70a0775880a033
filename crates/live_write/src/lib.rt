#![tactic(auto)]
//! What a writer of the library over live threads does with records and chains, made of their steps.

mod allocation;
mod chain;
mod lending;
mod publish;
mod records;
mod search;
mod walk;

pub use allocation::{alloc, discard};
pub use chain::Chain;
pub use lending::Lent;
pub use records::{Owned, Unlinked};
