//! Readers of records whose words differ.

ghost use Rattle.rcu_hash.specs.domain.Naming.{Names};

use gp_memb::{GracePlan, MembPlan};
use gp_qsbr::QsbrPlan;
use live_load::{Deadline, Load, RoundDone, reads};
use rcu_hash::{AnyChain, Domain, Handle, LiveConfig, Opened, Site};
use rcu_model::Refusal;
use std::alloc::Global;
use std::marker::Brand;
use std::sync::Wait;
use std::time::Clock;

/// A reader that looks at each of four chains ten times.
const FORTY: Load = Load {
    readers: 1,
    updaters: 4,
    workers: 1,
    rounds: 40,
    seconds: None,
};

/// A domain of a reader and four chains.
const OF_FOUR: LiveConfig = LiveConfig {
    slots: 1,
    queues: 1,
    chains: 4,
    pool: 8,
};

/// Pushes a record of these words on a chain.
fn push<P: GracePlan + Drop, B: Site, R: Wait>(
    rt: &R,
    domain: &Domain<P, AnyChain, B, RoundDone>,
    handle: &mut Handle<B>,
    chain: usize,
    words: [u64; 4],
) -> Result<(), Refusal> {
    let owned = domain.alloc(rt, handle, words)?;
    domain.chain(handle, chain)?.push(handle, owned);
    Ok(())
}

/// How many sections of a reader find differing words, where each of three chains has a record in which another word
/// differs, and a fourth one a record in which none does.
fn finds_mixed<P: GracePlan + Drop, B: Site, R: Wait + Clock>(
    rt: &R,
    alloc: Global,
    opened: Opened<P, AnyChain>,
) -> Result<u64, Refusal>
    requires { Names B.Site opened }
{
    let (domain, mut handle) = opened.into_domain::<B, RoundDone>(alloc)?;
    push(rt, &domain, &mut handle, 0, [1, 2, 1, 1])?;
    push(rt, &domain, &mut handle, 1, [1, 1, 2, 1])?;
    push(rt, &domain, &mut handle, 2, [1, 1, 1, 2])?;
    push(rt, &domain, &mut handle, 3, [1, 1, 1, 1])?;
    reads(rt, &domain, &mut handle, &FORTY, &Deadline::None)
}

#[test]
fn sections_find_each_mixed_record(rt: HostRuntime) {
    let opened = Opened::<MembPlan, AnyChain>::new(rt.alloc(), OF_FOUR).expect(&rt, "memory");
    let mixed = finds_mixed::<MembPlan, Brand, _>(&rt, rt.alloc(), opened);
    assert_eq!(rt; mixed, Ok(30));
}

#[test]
fn online_sections_find_each_mixed_record(rt: HostRuntime) {
    let opened = Opened::<QsbrPlan, AnyChain>::new(rt.alloc(), OF_FOUR).expect(&rt, "memory");
    let mixed = finds_mixed::<QsbrPlan, Brand, _>(&rt, rt.alloc(), opened);
    assert_eq!(rt; mixed, Ok(30));
}
