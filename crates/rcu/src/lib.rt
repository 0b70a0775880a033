#![tactic(auto)]
//! RCU over live threads; its general-purpose flavour `Memb` has the steps of liburcu's mb, and not those of its memb.
//!
//! A program's line in `crates.txt` names this crate alone, and none of those below it. A call waits only where it takes
//! a runtime `rt`. Where memory is refused a call is refused with `Memory`, or stops or tries again, as its text says.

mod callbacks;
mod chains;
mod entering;
mod headline;
mod map;
mod pending;
mod program;
mod reading;
mod reclaim;
mod slot;
mod threads;
mod waiting;
mod words;
mod working;

pub use callbacks::NoCallback;
pub use chains::Chains;
pub use entering::with_domain;
pub use gp_memb::{GracePlan, MembPlan as Memb};
pub use gp_qsbr::QsbrPlan as Qsbr;
pub use headline::{every_moment_is_safe, hear, objects_are_queued_with_one_deleter};
pub use map::Map;
pub use pending::{Asked, Heard, Pending, PendingOf};
pub use program::{Program, Threaded};
pub use rcu_hash::{
    AnyChain, BarrierMark, Callback, Caller, Chain, ChainRule, Counts, Deleter, Domain, Finished,
    Handle, Held, Item, Job, Keyed, Lent, ListView, LiveConfig as Config, LiveCookie as Cookie,
    MapRule, Opened, Owned, RcuHash, RcuList, Reader, Ripe, Section, Site, Stop, TableView, Tabled,
    Ticket, TidyEnd, Unlinked, WorkerEnd, buckets_answer_for_their_table, readings_fit,
};
pub use rcu_model::{ObjectId, Refusal};
pub use reading::{Reading, with_reader};
pub use reclaim::Reclaim;
pub use slot::Slot;
pub use threads::{Ended, with_threads};
pub use waiting::alloc_when_free;
pub use words::{Word, Words};
pub use working::work;
