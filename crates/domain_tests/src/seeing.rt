//! What a program sees of a domain: its counts, and which readers a grace period waits for.

ghost use Rattle.std.specs.Prelude.{◌≡◌, false, true};
ghost use Rattle.domain.specs.Naming.{Names};

use crate::deleter::Adds;
use crate::plain;
use domain::{AnyChain, Counts, Deleter, Domain, Handle, LiveConfig, Opened, Reader, Ripe, Site};
use gp_memb::{GracePlan, MembPlan};
use gp_qsbr::QsbrPlan;
use rcu_model::Refusal;
use std::alloc::Global;
use std::marker::Brand;
use std::sync::atomic::{AtomicU64, Ordering};
use std::sync::{Arc, Wait};
use std::thread;
use std::thread::{Threads, join};

/// A small domain of two queues, and a chain for each.
const SMALL: LiveConfig = LiveConfig {
    slots: 3,
    queues: 2,
    chains: 2,
    pool: 4,
};

/// The counts of such a domain.
fn counted(seq: u64, records: u64, waits: [u64; 2]) -> Counts {
    let [first, second] = waits;
    Counts {
        seq,
        records,
        waiting: [first, second, 0, 0, 0, 0, 0, 0],
    }
}

/// A callback that returns once somebody has looked.
#[derive(Drop)]
struct Pauses {
    entered: Arc<AtomicU64>,
    seen: Arc<AtomicU64>,
}

/// Waits until the flag is raised.
fn until_raised(flag: &AtomicU64) {
    for _ in 0..1_000_000_000_000u64 {
        if flag.load(Ordering::SeqCst) == 1 {
            return;
        }
        thread::yield_now();
    }
}

impl Deleter for Pauses {
    ghost answers = { λ _ _ code. code ≡ 0 };

    fn call(self, _ripe: Ripe) -> u64 {
        self.entered.store(1, Ordering::SeqCst);
        until_raised(&self.seen);
        0
    }
}

/// A record is pushed, cut and retired with this callback, and the queues are closed.
fn retires<B: Site, R: Wait, D: Deleter>(
    rt: &R,
    domain: &Domain<MembPlan, AnyChain, B, D>,
    record: &mut Handle<B>,
    callback: D,
) -> Result<(), Refusal> {
    let mut writer = plain::chain(domain, record, 0)?;
    let owned = plain::alloc(rt, domain, record, [1; 4])?;
    plain::push(&mut writer, record, owned);
    if plain::cut_retire(rt, domain, record, &mut writer, 0, callback).is_err() {
        return Err(Refusal::Memory);
    }
    plain::close(rt, domain, record);
    Ok(())
}

/// Takes the locks of the queues, of grace periods and of the registry, one after the other: it would wait for ever for
/// one that whoever calls a callback held.
fn takes_each_lock<B: Site, R: Wait, D: Deleter>(
    rt: &R,
    domain: &Domain<MembPlan, AnyChain, B, D>,
    record: &mut Handle<B>,
) -> Result<(), Refusal> {
    plain::close(rt, domain, record);
    plain::synchronize(rt, domain, record)?;
    let _reader = domain.register(rt, record)?;
    Ok(())
}

/// The counts while a callback runs, which is called with no lock held.
fn counts_within<B: Site + Send + Sync, R: Threads + Wait + Sync, D: Deleter + Send>(
    rt: &R,
    alloc: Global,
    domain: &Domain<MembPlan, AnyChain, B, D>,
    record: &mut Handle<B>,
    entered: &AtomicU64,
    seen: &AtomicU64,
) -> Result<Counts, Refusal> {
    let mut other = domain.split(record);
    let (worked, counts) = join(
        rt,
        move || plain::run_worker(rt, alloc, domain, record, 0).map(|end| end.finished.len()),
        move || {
            until_raised(entered);
            let counts = plain::counts(domain, &mut other);
            let free = takes_each_lock(rt, domain, &mut other);
            seen.store(1, Ordering::SeqCst);
            match free {
                Ok(()) => Ok(counts),
                Err(refusal) => Err(refusal),
            }
        },
    );
    if worked? == 1 {
        counts
    } else {
        Err(Refusal::Busy)
    }
}

/// The counts of a domain with one retired record, while its callback runs.
fn paused<B: Site + Send + Sync, R: Threads + Wait + Sync>(
    rt: &R,
    alloc: Global,
    opened: Opened<MembPlan, AnyChain>,
    entered: &Arc<AtomicU64>,
    seen: &Arc<AtomicU64>,
) -> Result<Counts, Refusal>
    requires { Names B.Site opened }
{
    let (domain, mut record) = opened.into_domain::<B, Pauses>(alloc)?;
    let in_call: Result<Arc<AtomicU64>, _> = entered.clone();
    let looked: Result<Arc<AtomicU64>, _> = seen.clone();
    let (Ok(in_call), Ok(looked)) = (in_call, looked) else {
        return Err(Refusal::Memory);
    };
    let callback = Pauses {
        entered: in_call,
        seen: looked,
    };
    retires(rt, &domain, &mut record, callback)?;
    counts_within(rt, alloc, &domain, &mut record, entered, seen)
}

#[test]
fn a_callback_comes_after_the_free_and_before_the_count(rt: HostRuntime) {
    let opened = Opened::<MembPlan, AnyChain>::new(rt.alloc(), SMALL).expect(&rt, "memory");
    let entered = Arc::new(rt.alloc(), AtomicU64::new(0)).expect(&rt, "memory");
    let seen = Arc::new(rt.alloc(), AtomicU64::new(0)).expect(&rt, "memory");
    let counts = paused::<Brand, _>(&rt, rt.alloc(), opened, &entered, &seen).expect(
        &rt,
        "not refused",
    );
    assert_eq!(rt; counts, counted(2, 0, [1, 0]));
}

/// A reader that a grace period has to wait for.
fn stands<P: GracePlan, B: Site>(reader: &mut Reader<P, AnyChain, B>) -> Result<(), Refusal> {
    if P::QSBR {
        reader.online()
    } else {
        reader.lock()
    }
}

/// It waits for the reader no more.
fn leaves<P: GracePlan, B: Site>(reader: &mut Reader<P, AnyChain, B>) -> Result<(), Refusal> {
    if P::QSBR {
        reader.offline()
    } else {
        reader.unlock()
    }
}

/// The first look that finds anybody in the way, after which the reader leaves.
fn looks<P: GracePlan + Drop, B: Site, R: Wait>(
    rt: &R,
    alloc: Global,
    domain: &Domain<P, AnyChain, B, Adds>,
    record: &mut Handle<B>,
    mut reader: Reader<P, AnyChain, B>,
) -> Result<Vec<usize>, Refusal> {
    for _ in rt.forever() {
        let slots = plain::stalled(alloc, domain, record)?;
        if slots.len() > 0 {
            leaves(&mut reader)?;
            return Ok(slots);
        }
        thread::yield_now();
    }
    unreachable!()
}

/// Who stands in the way of a grace period that another thread waits for.
fn while_one_waits<
    P: GracePlan + Drop + Send + Sync,
    B: Site + Send + Sync,
    R: Threads + Wait + Sync,
>(
    rt: &R,
    alloc: Global,
    domain: &Domain<P, AnyChain, B, Adds>,
    record: &mut Handle<B>,
    reader: Reader<P, AnyChain, B>,
) -> Result<Vec<usize>, Refusal> {
    let mut other = domain.split(record);
    let (waited, found) = join(
        rt,
        move || plain::synchronize(rt, domain, record),
        move || { looks(rt, alloc, domain, &mut other, reader) },
    );
    waited?;
    found
}

/// Who stands in the way before a grace period, while one waits, and after it: the second of three readers.
fn sees<P: GracePlan + Drop + Send + Sync, B: Site + Send + Sync, R: Threads + Wait + Sync>(
    rt: &R,
    alloc: Global,
    opened: Opened<P, AnyChain>,
) -> Result<(usize, Vec<usize>, usize), Refusal>
    requires { Names B.Site opened }
{
    let (domain, mut record) = opened.into_domain::<B, Adds>(alloc)?;
    let _first = domain.register(rt, &mut record)?;
    let mut second = domain.register(rt, &mut record)?;
    let _third = domain.register(rt, &mut record)?;
    stands(&mut second)?;
    let before = plain::stalled(alloc, &domain, &mut record)?.len();
    let found = while_one_waits(rt, alloc, &domain, &mut record, second)?;
    let after = plain::stalled(alloc, &domain, &mut record)?.len();
    Ok((before, found, after))
}

#[test]
fn an_open_section_is_seen_in_the_way(rt: HostRuntime) {
    let opened = Opened::<MembPlan, AnyChain>::new(rt.alloc(), SMALL).expect(&rt, "memory");
    let (before, found, after) = sees::<_, Brand, _>(&rt, rt.alloc(), opened).expect(
        &rt,
        "not refused",
    );
    assert_eq!(rt; before, 0);
    assert_eq!(rt; found.as_slice(), [1].as_slice());
    assert_eq!(rt; after, 0);
}

#[test]
fn an_online_reader_is_seen_in_the_way(rt: HostRuntime) {
    let opened = Opened::<QsbrPlan, AnyChain>::new(rt.alloc(), SMALL).expect(&rt, "memory");
    let (before, found, after) = sees::<_, Brand, _>(&rt, rt.alloc(), opened).expect(
        &rt,
        "not refused",
    );
    assert_eq!(rt; before, 0);
    assert_eq!(rt; found.as_slice(), [1].as_slice());
    assert_eq!(rt; after, 0);
}
