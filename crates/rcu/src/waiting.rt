//! An allocation that waits while the pool is full.

ghost use Rattle.std.specs.Prelude.{◌≡◌, IfOk};
ghost use Rattle.rcu_hash.specs.live_read.Hearing.{IsAfter, Stays};
ghost use Rattle.rcu_hash.specs.live_rule.Rights.{payload_in};
ghost use Rattle.rcu.specs.Trying.{TakesAtLast};

use crossbeam_utils::Backoff;
use gp_memb::GracePlan;
use rcu_hash::{Caller, ChainRule, Deleter, Domain, Owned, Site};
use rcu_model::Refusal;
use std::sync::Wait;

/// A record with these four words, as by `Domain::alloc`, which is tried again while the pool is full. So a worker, or
/// another thread, has to free one meanwhile, and the caller has no section or lock open. It waits for ever where
/// nobody does, or where object numbers are used up.
pub fn alloc_when_free<
    P: GracePlan + Drop,
    K: ChainRule,
    B: Site,
    D: Deleter,
    W: Caller<B>,
    R: Wait,
>(rt: &R, domain: &Domain<P, K, B, D>, caller: &mut W, words: [u64; 4]) -> Owned<B>
    ensures owned { (payload_in result.seat.me.0.object ≡ words) × (result.seat.me.0.seen ≡ W.heard caller.new) }
    ensures took { TakesAtLast W.Caller B.sizes caller.old caller.new result.seat.me.0.object }
    ensures heard { IsAfter P.QSBR K.allows (W.seen caller.old) (W.heard caller.old) (W.heard caller.new) }
    ensures same { Stays W.Caller caller.old caller.new × (W.loads caller.new ≡ W.loads caller.old) }
{
    let backoff = Backoff::new();
    for _ in rt.forever() {
        if let Ok(owned) = domain.alloc(rt, caller, words) {
            return owned;
        }
        backoff.snooze();
    }
    unreachable!()
}
