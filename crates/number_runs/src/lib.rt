#![tactic(auto)]
//! Sets of numbers that mostly count up.

mod runs;

pub use runs::NumberRuns;
