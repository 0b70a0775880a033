#![tactic(auto)]
//! A judge of logs: it tells of any list of events whether it is a run of the abstract machine.

mod checker;
mod holdings;
mod judge;
mod object;
mod objects;
mod roster;
mod sections;
mod seen;
mod states;
mod verdict;
mod waits;

pub use judge::{Judge, check_log};
pub use verdict::{JudgeFault, LogFault, Rule, Verdict};
