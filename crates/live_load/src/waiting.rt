//! What one who waits does. Each reader raises a number of its own where it begins a section, and another where it ends
//! one: a wait saw the section end that it found begun where the second number has come up to the first.

use crate::counts::{Counts, NOTHING};
use crate::round::RoundDone;
use crate::threads::Shared;
use crate::watch::Watch;
use gp_memb::GracePlan;
use rcu_hash::{ChainRule, Domain, Handle, LiveCookie, Site};
use rcu_model::Refusal;
use std::alloc::Global;
use std::sync::Wait;
use std::sync::atomic::{AtomicU64, Ordering};
use std::thread;

/// How often a poller asks before it waits after all.
const POLLS: u32 = 1_000;

/// The numbers of one reader: of the section that it began last, and of the one that it ended last.
#[derive(Drop)]
pub(crate) struct Mark {
    begun: AtomicU64,
    ended: AtomicU64,
}

impl Mark {
    pub(crate) fn begin(&self, number: u64) {
        self.begun.store(number, Ordering::SeqCst);
    }

    pub(crate) fn end(&self, number: u64) {
        self.ended.store(number, Ordering::SeqCst);
    }
}

/// The numbers of this many readers, which have begun no section.
pub(crate) fn marks(alloc: Global, readers: u32) -> Result<Vec<Mark>, Refusal> {
    let mut marks = Vec::new(alloc);
    for _ in 0..readers {
        let mark = Mark {
            begun: AtomicU64::new(0),
            ended: AtomicU64::new(0),
        };
        if marks.push(mark).is_err() {
            return Err(Refusal::Memory);
        }
    }
    Ok(marks)
}

/// Whether one of this many polls was answered.
fn is_answered<P: GracePlan + Drop, K: ChainRule, B: Site>(
    domain: &Domain<P, K, B, RoundDone>,
    record: &mut Handle<B>,
    cookie: &LiveCookie,
    polls: u32,
) -> bool {
    for _ in 0..polls {
        if domain.poll(record, cookie) {
            return true;
        }
        thread::yield_now();
    }
    false
}

/// Polls up to `polls` times for a grace period, and waits for one where no poll says that it is over. Answers whether a
/// poll says so then, and whether the section that the reader had begun before has ended.
fn one_wait<P: GracePlan + Drop, K: ChainRule, B: Site, R: Wait>(
    rt: &R,
    domain: &Domain<P, K, B, RoundDone>,
    record: &mut Handle<B>,
    mark: &Mark,
    polls: u32,
) -> Result<bool, Refusal> {
    let begun = mark.begun.load(Ordering::SeqCst);
    let cookie = domain.start_poll(record)?;
    if !is_answered(domain, record, &cookie, polls) {
        domain.synchronize(rt, record)?;
    }
    Ok(domain.poll(record, &cookie) && begun <= mark.ended.load(Ordering::SeqCst))
}

/// Waits and polls by turns, for one reader after the other, until the updaters have ended, and once after that. How
/// many did not see a section end.
pub(crate) fn waits<P: GracePlan + Drop, K: ChainRule, B: Site, R: Wait, W: Watch>(
    rt: &R,
    shared: &Shared<'_, '_, P, K, B, W>,
    record: &mut Handle<B>,
    marks: &[Mark],
) -> Result<Counts, Refusal> {
    let mut mixed = 0u64;
    for number in 0..u64::MAX {
        let is_last = shared.are_updated();
        let Some(mark) = marks.get((number / 2) as usize % marks.len().max(1)) else {
            break;
        };
        let polls = if number % 2 == 0 { 0 } else { POLLS };
        if !one_wait(rt, shared.domain, record, mark, polls)? {
            mixed = mixed.saturating_add(1);
        }
        if is_last {
            break;
        }
    }
    Ok(Counts { mixed, ..NOTHING })
}
