//! Keyed lists, in both flavours: what their calls answer, and what stays where they are refused.

ghost use Rattle.std.specs.Prelude.{IfOk};
ghost use Rattle.rcu_hash.specs.domain.Naming.{Names};

use crate::deleter::Adds;
use crate::plain::list_put;
use gp_memb::{GracePlan, MembPlan};
use gp_qsbr::QsbrPlan;
use rcu_hash::{Chain, Domain, Handle, Keyed, ListView, LiveConfig, Opened, RcuList, Site};
use rcu_model::Refusal;
use std::alloc::Global;
use std::marker::Brand;
use std::sync::Wait;

/// A domain of one slot, one queue, two chains and this pool.
fn of_pool(pool: usize) -> LiveConfig {
    LiveConfig {
        slots: 1,
        queues: 1,
        chains: 2,
        pool,
    }
}

/// A list over chain 0.
fn listed<'d, P: GracePlan + Drop, B: Site>(
    domain: &'d Domain<P, Keyed, B, Adds>,
    record: &mut Handle<B>,
) -> Result<RcuList<'d, P, Keyed, B, Adds>, Refusal> {
    let chain = domain.chain(record, 0)?;
    match RcuList::new(chain) {
        Ok(list) => Ok(list),
        Err((refusal, _)) => Err(refusal),
    }
}

/// The number of a chain over which no list is made, and how many objects it has.
fn refused<P: GracePlan + Drop, B: Site>(
    chain: Chain<'_, P, Keyed, B, Adds>,
) -> Option<(usize, usize)> {
    match RcuList::new(chain) {
        Ok(_list) => None,
        Err((Refusal::BadConfig, chain)) => Some((chain.number(), chain.len())),
        Err((_, _chain)) => None,
    }
}

/// Whether a chain that has an object, and one that has a note, make no list and come back; and whether there is a view
/// of the last chain, and of none after it.
fn bad_chains<P: GracePlan + Drop, B: Site, R: Wait>(
    rt: &R,
    domain: &Domain<P, Keyed, B, Adds>,
    record: &mut Handle<B>,
) -> Result<[bool; 5], Refusal> {
    let mut list = listed(domain, record)?;
    list_put(rt, &mut list, record, 3, 30)?;
    drop(list);
    let held = domain.chain(record, 0)?;
    let held = refused(held);
    let mut noted = domain.chain(record, 1)?;
    noted.set_note(record, 1);
    let noted = refused(noted);
    Ok([
        held == Some((0, 1)),
        noted == Some((1, 0)),
        matches!(ListView::of(domain, 1), Ok(_)),
        matches!(ListView::of(domain, 2), Err(Refusal::NoPlace)),
        matches!(domain.chain(record, 0), Ok(_)),
    ])
}

/// The same, in a domain of its own.
fn bad_chains_in<P: GracePlan + Drop, B: Site, R: Wait>(
    rt: &R,
    alloc: Global,
    opened: Opened<P, Keyed>,
) -> Result<[bool; 5], Refusal>
    requires { Names B.Site opened }
{
    let (domain, mut record) = opened.into_domain::<B, Adds>(alloc)?;
    bad_chains(rt, &domain, &mut record)
}

#[test]
fn lists_begin_empty(rt: HostRuntime) {
    let general = Opened::<MembPlan, Keyed>::new(rt.alloc(), of_pool(2)).expect(&rt, "memory");
    let did = bad_chains_in::<_, Brand, _>(&rt, rt.alloc(), general).expect(&rt, "not refused");
    assert_eq!(rt; did, [true; 5]);
    let quiescent = Opened::<QsbrPlan, Keyed>::new(rt.alloc(), of_pool(2)).expect(&rt, "memory");
    let did = bad_chains_in::<_, Brand, _>(&rt, rt.alloc(), quiescent).expect(&rt, "not refused");
    assert_eq!(rt; did, [true; 5]);
}
