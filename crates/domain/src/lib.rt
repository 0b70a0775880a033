#![tactic(auto)]
//! A domain of the library over live threads: readers are registered, records and chains are written, what was cut is
//! retired and reclaimed by workers, and grace periods are waited for and polled. Its locks are here alone. Here and in
//! the crates below, a call waits only where it takes a runtime `rt`. It takes memory only where it can be refused with
//! `Memory`.

mod barring;
mod config;
mod domain;
mod face;
mod grace_lock;
mod making;
mod opened;
mod queue;
mod retiring;
mod seeing;
mod serving;
mod worker_end;
mod working;
mod writing;

pub use call_rcu_worker::Finished;
pub use callback_queue::{Callback, Item, Ripe, Ticket};
pub use config::LiveConfig;
pub use domain::Domain;
pub use live_callbacks::{Deleter, Job};
pub use live_read::{Caller, Handle, Held, Reader, Section, Site, readings_fit};
pub use live_waits::{BarrierMark, Counts, LiveCookie};
pub use live_words::{AnyChain, ChainRule, Keyed, Tabled};
pub use live_write::{Owned, Unlinked};
pub use opened::Opened;
pub use worker_end::{Stop, WorkerEnd};
pub use writing::{Chain, Lent};
