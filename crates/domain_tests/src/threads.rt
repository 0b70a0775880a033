//! Readers and writers that are moved into threads, and domains that threads share.

ghost use Rattle.std.specs.Prelude.{◌≡◌};
ghost use Rattle.domain.specs.Naming.{Names};

use crate::deleter::Adds;
use crate::plain;
use domain::{AnyChain, Chain, Domain, Handle, LiveConfig, Opened, Owned, Reader, Site};
use gp_memb::{GracePlan, MembPlan};
use gp_qsbr::QsbrPlan;
use rcu_model::Refusal;
use std::alloc::Global;
use std::marker::Brand;
use std::sync::{Arc, Wait};
use std::thread;
use std::thread::{Threads, join};

/// How many sections a reader opens.
const SECTIONS: u64 = 5000;

/// A reader with no section or lock open.
#[derive(Drop)]
struct Idle<P: GracePlan, B: Site> {
    reader: Reader<P, AnyChain, B>,
    ghost idle: { (reader.core.depth ≡ 0) × (reader.core.locks ≡ 0) },
}

fn registered<P: GracePlan + Drop, B: Site, R: Wait>(
    rt: &R,
    domain: &Domain<P, AnyChain, B, Adds>,
    record: &mut Handle<B>,
) -> Result<Idle<P, B>, Refusal> {
    let reader = domain.register(rt, record)?;
    Ok(Idle { reader })
}

/// Sections of a reader, one after the other. Whether none was refused.
fn spins<B: Site>(idle: Idle<MembPlan, B>) -> bool {
    let Idle { mut reader } = idle;
    for _ in 0..SECTIONS {
        let Ok(section) = reader.section() else {
            return false;
        };
        drop(section);
    }
    true
}

/// A reader in a thread that owns it, and a domain that is shared with a thread that outlives the call.
fn spawns<B: Site + Send + Sync + 'static, R: Threads + Wait + Copy + Send + 'static>(
    rt: R,
    alloc: Global,
    opened: Opened<MembPlan, AnyChain>,
) -> Result<(bool, bool), Refusal>
    requires { Names B.Site opened }
{
    let (domain, mut record) = opened.into_domain::<B, Adds>(alloc)?;
    let mut other = domain.split(&mut record);
    let one = registered(&rt, &domain, &mut record)?;
    let Ok(home) = Arc::new(alloc, domain) else {
        return Err(Refusal::Memory);
    };
    let Ok(theirs) = Arc::try_clone(&home) else {
        return Err(Refusal::Memory);
    };
    let reads = thread::spawn(&rt, move || { spins(one) });
    let waits = thread::spawn(&rt, move || theirs.rcu_synchronize(&rt, &mut other).is_ok());
    home.synchronize(&rt, &mut record)?;
    match (reads, waits) {
        (Ok(reader), Ok(waiter)) => Ok((reader.join(&rt), waiter.join(&rt))),
        _ => Err(Refusal::Memory),
    }
}

/// Pushes a record, and reads what is first then.
fn pushes<P: GracePlan + Drop, B: Site>(
    mut chain: Chain<'_, P, AnyChain, B, Adds>,
    mut record: Handle<B>,
    owned: Owned<B>,
) -> Option<[u64; 4]> {
    chain.push(&mut record, owned);
    chain.get(0)
}

/// A chain's writer and a record that it has not published yet are moved into another thread, which pushes the one by
/// the other: what is first there, and how many objects the next writer finds here.
fn moves_a_writer<
    P: GracePlan + Drop + Send + Sync,
    B: Site + Send + Sync,
    R: Threads + Wait + Sync,
>(rt: &R, alloc: Global, opened: Opened<P, AnyChain>) -> Result<(Option<[u64; 4]>, usize), Refusal>
    requires { Names B.Site opened }
{
    let (domain, mut record) = opened.into_domain::<B, Adds>(alloc)?;
    let other = domain.split(&mut record);
    let owned = plain::alloc(rt, &domain, &mut record, [3, 5, 7, 11])?;
    let chain = plain::chain(&domain, &mut record, 0)?;
    let (first, ()) = join(rt, move || pushes(chain, other, owned), || ());
    let next = plain::chain(&domain, &mut record, 0)?;
    Ok((first, next.len()))
}

fn of_four_slots() -> LiveConfig
    ensures { result.slots ≡ 4 }
{
    LiveConfig {
        slots: 4,
        queues: 1,
        chains: 1,
        pool: 4,
    }
}

#[test]
fn threads_own_readers_and_share_domains(rt: HostRuntime) {
    let opened = Opened::<MembPlan, AnyChain>::new(rt.alloc(), of_four_slots()).expect(
        &rt, "memory",
    );
    let spawned = spawns::<Brand, _>(rt, rt.alloc(), opened).expect(&rt, "not refused");
    assert_eq!(rt; spawned, (true, true));
}

#[test]
fn a_writer_is_moved_into_a_thread(rt: HostRuntime) {
    let opened = Opened::<QsbrPlan, AnyChain>::new(rt.alloc(), of_four_slots()).expect(
        &rt, "memory",
    );
    let moved = moves_a_writer::<QsbrPlan, Brand, _>(&rt, rt.alloc(), opened).expect(
        &rt,
        "not refused",
    );
    assert_eq!(rt; moved, (Some([3, 5, 7, 11]), 1));
}
