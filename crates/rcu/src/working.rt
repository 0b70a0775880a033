//! A worker that goes on until its domain is closed.

ghost use Rattle.std.specs.Prelude.{◌≡◌, ℕ, IfErr, IfOk};
ghost use Rattle.live_log.specs.Log.{HaveRun};
ghost use Rattle.rcu_hash.specs.live_read.Hearing.{Stays};
ghost use Rattle.rcu_hash.specs.live_callbacks.Working.{IsEmptied};
ghost use Rattle.rcu.specs.Serving.{HasServed, IsNotServed};

use gp_memb::GracePlan;
use rcu_hash::{Caller, ChainRule, Deleter, Domain, Site, Stop};
use rcu_model::Refusal;
use std::alloc::Global;
use std::sync::Wait;
use std::thread;

/// Works for a queue, liburcu's thread of `call_rcu`, until the domain is closed and nothing is left: then each object
/// that was ever put into the queue was run, and for each that it ran itself its deleter was called. Where memory is
/// refused meanwhile it tries again. Answers how many objects it ran itself, which no clause tells.
///
/// Refused as `Domain::run_worker`, and with `Exhausted` where the sequence numbers are used up; then the callbacks of
/// what is left are dropped. The caller, who has no section or lock open, and is offline where its reader is of the
/// quiescent-state flavour, hears of all that.
pub fn work<P: GracePlan + Drop, K: ChainRule, B: Site, D: Deleter, W: Caller<B>, R: Wait>(
    rt: &R,
    alloc: Global,
    domain: &Domain<P, K, B, D>,
    caller: &mut W,
    queue: usize,
) -> Result<u64, Refusal>
    ensures run { IfOk result (λ _. (all : ℕ) × IsEmptied queue all (W.heard caller.new) × HaveRun queue all (W.heard caller.new)) }
    ensures worked { IfOk result (λ _. HasServed W.Caller D.row.coded.code D.answers P.QSBR K.allows B.sizes queue caller.old caller.new) }
    ensures refused { IfErr result (λ e. IsNotServed W.Caller D.row.coded.code D.answers P.QSBR K.allows B.sizes queue caller.old caller.new e) }
    ensures same { Stays W.Caller caller.old caller.new }
{
    let mut reclaimed = 0u64;
    for _ in rt.forever() {
        let end = domain.run_worker(rt, alloc, caller, queue)?;
        reclaimed = reclaimed.saturating_add(end.finished.len() as u64);
        match end.stop {
            Stop::Closed | Stop::Served => return Ok(reclaimed),
            Stop::Memory => thread::yield_now(),
            Stop::Exhausted => return Err(Refusal::Exhausted),
        }
    }
    unreachable!()
}
