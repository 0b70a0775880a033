#![tactic(auto)]
//! Hash tables over the chains of a domain: lookups in read-side sections, which take no lock, beside writers, who take
//! the lock of one bucket each, and for moments the directory's.

mod bucket;
mod bucket_array;
mod copying;
mod directory;
mod exchange;
mod grow;
mod growth;
mod labelled;
mod laws;
mod making;
mod old_table;
mod rights;
mod table;
mod tidying;
mod view;

pub use laws::buckets_answer_for_their_table;
pub use rcu_list::{
    AnyChain, BarrierMark, Callback, Caller, Chain, ChainRule, Counts, Deleter, Domain, Finished,
    Handle, Held, Item, Job, Keyed, Lent, ListView, LiveConfig, LiveCookie, MapRule, Opened, Owned,
    RcuList, Reader, Ripe, Section, Site, Stop, Tabled, Ticket, Unlinked, WorkerEnd, readings_fit,
};
pub use table::RcuHash;
pub use tidying::TidyEnd;
pub use view::TableView;
