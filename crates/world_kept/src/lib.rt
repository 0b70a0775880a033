#![tactic(auto)]
//! What the world of schedules keeps between two lines, and how a change of it is made.

mod kept;

pub use kept::Kept;
