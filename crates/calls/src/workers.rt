//! Workers of queues.

use crate::codes::Code;
use crate::plain;
use call_text::{Answer, Called, Verb};
use gp_memb::GracePlan;
use rcu_hash::{ChainRule, Domain, Finished, Handle, Site, Stop, WorkerEnd};
use rcu_model::Refusal;
use std::alloc::{AllocError, Global};
use std::sync::Wait;

/// How many callbacks of a queue are queued and have not run.
pub(crate) fn waiting<P: GracePlan + Drop, K: ChainRule, B: Site>(
    domain: &Domain<P, K, B, Code>,
    record: &mut Handle<B>,
    queue: usize,
) -> u64 {
    let counts = plain::counts(domain, record);
    match counts.waiting.get(queue) {
        Some(waiting) => *waiting,
        None => 0,
    }
}

/// Whether callbacks of any queue are queued and have not run.
pub(crate) fn are_waiting<P: GracePlan + Drop, K: ChainRule, B: Site>(
    domain: &Domain<P, K, B, Code>,
    record: &mut Handle<B>,
) -> bool {
    let counts = plain::counts(domain, record);
    counts.waiting.iter().any(|waiting| *waiting != 0)
}

/// What was run, in the room that was reserved for it.
fn called(room: Vec<Called>, finished: &Vec<Finished>) -> Vec<Called> {
    let mut called = room;
    for it in finished {
        let _ = called.push(Called {
            ticket: it.ticket.0,
            object: it.object.0,
            code: it.code,
        });
    }
    called
}

/// Why a worker stopped early.
fn early(stop: Stop) -> Option<Refusal> {
    match stop {
        Stop::Closed | Stop::Served => None,
        Stop::Exhausted => Some(Refusal::Exhausted),
        Stop::Memory => Some(Refusal::Memory),
    }
}

/// Runs what is queued, or works for the queue until its end.
fn run<P: GracePlan + Drop, K: ChainRule, B: Site, R: Wait>(
    rt: &R,
    alloc: Global,
    domain: &Domain<P, K, B, Code>,
    record: &mut Handle<B>,
    room: Vec<Called>,
    verb: Verb,
    queue: usize,
) -> Answer {
    let end = if verb == Verb::Work {
        plain::run_worker(rt, alloc, domain, record, queue)
    } else {
        plain::run_queued(rt, alloc, domain, record, queue)
    };
    match end {
        Ok(end) => Answer::Finished {
            called: called(room, &end.finished),
            stop: early(end.stop),
        },
        Err(refusal) => Answer::Refused(refusal),
    }
}

/// A call of the worker of a queue that is there. It waits for all readers, where something is queued; and `work` waits
/// until the domain is closed.
pub(crate) fn worker_line<P: GracePlan + Drop, K: ChainRule, B: Site, R: Wait>(
    rt: &R,
    alloc: Global,
    domain: &Domain<P, K, B, Code>,
    record: &mut Handle<B>,
    inside: bool,
    closed: bool,
    verb: Verb,
    queue: usize,
) -> Answer {
    let waiting = waiting(domain, record, queue);
    if verb == Verb::Work && !closed {
        return Answer::WouldWait;
    }
    if inside && waiting != 0 {
        return Answer::WouldWait;
    }
    match Vec::with_capacity(alloc, waiting as usize) {
        Ok(room) => run(rt, alloc, domain, record, room, verb, queue),
        Err(_) => Answer::Refused(Refusal::Memory),
    }
}
