#![tactic(auto)]
//! A caller asks for a grace period, polls for it and makes it, whole or step by step. Barriers tell whether all that
//! was queued has run. Looks at the words tell how full a domain is, and which readers a grace period waits for.

mod asks;
mod barring;
mod cookie;
mod counting;
mod period;
mod periods;
mod stalling;
mod steps;
mod writer;

pub use asks::{LiveAsk, ask};
pub use barring::{BarrierMark, barrier_done, barrier_start};
pub use cookie::{LiveCookie, poll, start_poll};
pub use counting::{Counts, count_all};
pub use period::Progress;
pub use periods::{GracePeriods, Step};
pub use stalling::stalled;
pub use steps::{Beginning, GraceSteps};
pub use writer::{Answer, GraceWriter};
