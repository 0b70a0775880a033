//! What tests with threads have in common: readers that look while another thread writes, and a worker.

ghost use Rattle.std.specs.Prelude.{◌≡◌};

use crate::deleter::Adds;
use gp_memb::GracePlan;
use rcu_hash::{ChainRule, Domain, Handle, LiveConfig, Reader, Site};
use rcu_model::Refusal;
use std::sync::Wait;
use std::sync::atomic::{AtomicBool, Ordering};
use std::thread;

/// A domain of two slots and one queue.
pub(crate) fn of_two_readers(chains: usize, pool: usize) -> LiveConfig {
    LiveConfig {
        slots: 2,
        queues: 1,
        chains,
        pool,
    }
}

/// A reader with no section or lock open.
#[derive(Drop)]
pub(crate) struct Idle<P: GracePlan, K: ChainRule, B: Site> {
    pub(crate) reader: Reader<P, K, B>,
    pub(crate) ghost idle: { (reader.core.depth ≡ 0) × (reader.core.locks ≡ 0) },
}

pub(crate) fn registered<P: GracePlan + Drop, K: ChainRule, B: Site, R: Wait>(
    rt: &R,
    domain: &Domain<P, K, B, Adds>,
    record: &mut Handle<B>,
) -> Result<Idle<P, K, B>, Refusal> {
    let reader = domain.register(rt, record)?;
    Ok(Idle { reader })
}

/// Waits until another thread has told this, but not for ever, so that a test fails where it never does.
pub(crate) fn waits_for(told: &AtomicBool) {
    for _ in 0..100_000_000u64 {
        if told.load(Ordering::SeqCst) {
            return;
        }
        thread::yield_now();
    }
}
