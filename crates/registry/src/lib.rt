#![tactic(auto)]
//! The slots of readers: which are claimed, and which are free.

mod laws;
mod registry;
mod slot;

pub use laws::slots_are_claimed_once;
pub use registry::Registry;
pub use slot::Slot;
