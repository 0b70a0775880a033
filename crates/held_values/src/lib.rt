#![tactic(auto)]
//! What the handles of C keep in a box of the heap: readers, grace periods and domains of both flavours, with no rule on
//! chains.

mod making;

use gp_memb::MembPlan;
use gp_qsbr::QsbrPlan;
use live_read::ReaderCore;
use live_waits::GracePeriods;
use live_words::AnyChain;
pub use making::{Domain, new_domain};

/// A reader of the general-purpose flavour. What follows it keeps another's off its lines.
#[derive(Drop)]
pub struct MembReader {
    pub core: ReaderCore<MembPlan, AnyChain>,
    pub apart: [u64; 16],
}

/// A reader of the quiescent-state flavour.
#[derive(Drop)]
pub struct QsbrReader {
    pub core: ReaderCore<QsbrPlan, AnyChain>,
    pub apart: [u64; 16],
}

/// The grace periods of a domain of the general-purpose flavour.
#[derive(Drop)]
pub struct MembGrace {
    pub periods: GracePeriods<MembPlan, AnyChain>,
    pub apart: [u64; 16],
}

/// The grace periods of a domain of the quiescent-state flavour.
#[derive(Drop)]
pub struct QsbrGrace {
    pub periods: GracePeriods<QsbrPlan, AnyChain>,
    pub apart: [u64; 16],
}

/// A domain of the general-purpose flavour.
#[derive(Drop)]
pub struct MembDomain {
    pub domain: Domain<MembPlan, AnyChain>,
}

/// A domain of the quiescent-state flavour.
#[derive(Drop)]
pub struct QsbrDomain {
    pub domain: Domain<QsbrPlan, AnyChain>,
}
