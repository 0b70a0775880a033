#![tactic(auto)]
//! Keyed lists over the chains of a domain: lookups in read-side sections, which take no lock, beside one writer that
//! inserts, replaces in place and removes.

mod list;
mod preparing;
mod rule;
mod view;

pub use domain::{
    AnyChain, BarrierMark, Callback, Caller, Chain, ChainRule, Counts, Deleter, Domain, Finished,
    Handle, Held, Item, Job, Keyed, Lent, LiveConfig, LiveCookie, Opened, Owned, Reader, Ripe,
    Section, Site, Stop, Tabled, Ticket, Unlinked, WorkerEnd, readings_fit,
};
pub use list::RcuList;
pub use preparing::{prepare_insertion, prepare_replacement};
pub use rule::MapRule;
pub use view::ListView;
