//! What is repeated on a hash table.

ghost use Rattle.rcu_hash.specs.domain.Naming.{Names};

use crate::kind::{OnTable, last_of};
use gp_memb::GracePlan;
use live_load::{
    Buckets, Map, RoundDone, Target, View, begin, grows_to, look, put, table, take_out, together,
    view_of, walk, works,
};
use rcu_hash::{Domain, Handle, Opened, Reader, Site, Tabled};
use rcu_model::Refusal;
use std::alloc::Global;
use std::sync::atomic::{AtomicBool, AtomicU64, Ordering};
use std::sync::{Mutex, Wait};
use std::thread::Threads;

/// From here on no key is there.
const OTHERS: u64 = 1 << 20;

/// Odd, so that it leads from key to key through all of a power of two.
const STRIDE: u64 = 40_503;

/// By turns the buckets that a table grows to.
const GROWN: Buckets = Buckets {
    first: 1_025,
    number: 2_048,
};

/// What the threads of a measurement share.
#[derive(Drop)]
struct Measured<'d, 'a, P: GracePlan, B: Site> {
    domain: &'d Domain<P, Tabled, B, RoundDone>,
    map: &'a Map<'d, P, B>,
    // The record that each thread's own is split from.
    root: &'a Mutex<Handle<B>>,
    view: View<B>,
    operation: OnTable,
    hands: usize,
    count: u64,
    // How many hands have ended.
    ended: AtomicU64,
    // The lookups are done.
    done: AtomicBool,
    // Counts as fast as it can: a program that may read no clock measures time by that.
    clock: AtomicU64,
}

/// The key that is looked up as the one of this number.
#[inline(always)]
fn key_of(operation: OnTable, number: u64) -> u64 {
    let key = number.wrapping_mul(STRIDE) & operation.mask();
    if matches!(operation, OnTable::Miss(_)) {
        key ^ OTHERS
    } else {
        key
    }
}

/// One section that looks a key up.
#[inline(always)]
fn look_up<P: GracePlan, B: Site>(
    reader: &mut Reader<P, Tabled, B>,
    view: &View<B>,
    key: u64,
) -> Result<bool, Refusal> {
    let mut section = reader.section()?;
    Ok(look(&mut section, view, key).is_some())
}

/// Sections that look one key up each, while the table grows with a quiescent state after each. Answers the last that
/// found it.
fn lookups<P: GracePlan, B: Site>(
    measured: &Measured<'_, '_, P, B>,
    reader: &mut Reader<P, Tabled, B>,
) -> Result<u64, Refusal> {
    let operation = measured.operation;
    let announces = P::QSBR && operation.has_worker();
    let mut found = 0;
    for number in 0..measured.count {
        if look_up(reader, &measured.view, key_of(operation, number))? {
            found = number + 1;
        }
        if announces {
            reader.quiescent()?;
        }
    }
    Ok(found)
}

/// The same, each section timed. Answers the time of the slowest, in billionths of the time of all.
fn slowest<P: GracePlan, B: Site>(
    measured: &Measured<'_, '_, P, B>,
    reader: &mut Reader<P, Tabled, B>,
) -> Result<u64, Refusal> {
    let clock = &measured.clock;
    let began = clock.load(Ordering::SeqCst);
    let mut longest = 0u64;
    for number in 0..measured.count {
        let before = clock.load(Ordering::SeqCst);
        look_up(reader, &measured.view, key_of(measured.operation, number))?;
        longest = longest.max(clock.load(Ordering::SeqCst).wrapping_sub(before));
        if P::QSBR {
            reader.quiescent()?;
        }
    }
    let all = clock.load(Ordering::SeqCst).wrapping_sub(began);
    Ok(longest.saturating_mul(1_000_000_000) / all.max(1))
}

/// Sections that go through the table, as many as it takes to meet this many entries. Answers how many they met.
fn walks_through<P: GracePlan, B: Site>(
    measured: &Measured<'_, '_, P, B>,
    reader: &mut Reader<P, Tabled, B>,
) -> Result<u64, Refusal> {
    let mut met = 0u64;
    for _ in 0..measured.count.div_ceil(measured.operation.keys().max(1)) {
        let mut visit = |key: u64, value: u64| {
            if key == value {
                met = met.wrapping_add(1);
            }
        };
        let mut section = reader.section()?;
        walk(&mut section, &measured.view, &mut visit);
    }
    Ok(met)
}

/// What a reader repeats; in the end it is offline where the table grows.
fn reading<P: GracePlan + Drop, B: Site, R: Wait>(
    rt: &R,
    measured: &Measured<'_, '_, P, B>,
    record: &mut Handle<B>,
) -> Result<u64, Refusal> {
    let mut reader = measured.domain.register(rt, record)?;
    begin(&mut reader)?;
    let done = match measured.operation {
        OnTable::Through => walks_through(measured, &mut reader),
        OnTable::SlowestWhileGrowing => slowest(measured, &mut reader),
        _ => lookups(measured, &mut reader),
    };
    measured.done.store(true, Ordering::SeqCst);
    if P::QSBR {
        reader.offline()?;
    }
    done
}

/// Counts until the lookups are done.
fn ticks(clock: &AtomicU64, done: &AtomicBool) -> u64 {
    for tick in 0..u64::MAX {
        clock.store(tick, Ordering::SeqCst);
        if done.load(Ordering::SeqCst) {
            return tick;
        }
    }
    u64::MAX
}

/// Gives this many keys a value each, from the first key on.
fn insertions<P: GracePlan + Drop, B: Site, R: Wait>(
    rt: &R,
    map: &Map<'_, P, B>,
    record: &mut Handle<B>,
    count: u64,
    first: u64,
) -> Result<u64, Refusal> {
    for number in 0..count {
        let key = number.wrapping_add(first);
        put(rt, map, record, key, key)?;
    }
    Ok(count)
}

/// Gives a key a value and takes it out again, this many times, while nobody reclaims.
fn removals<P: GracePlan + Drop, B: Site, R: Wait>(
    rt: &R,
    map: &Map<'_, P, B>,
    record: &mut Handle<B>,
    count: u64,
) -> Result<u64, Refusal> {
    for number in 0..count {
        let key = number ^ OTHERS;
        put(rt, map, record, key, key)?;
        take_out(rt, map, record, key)?;
    }
    Ok(count)
}

/// Grows the table at most this often, and stops once the lookups are done. Answers how often it grew.
fn growths<P: GracePlan + Drop, B: Site, R: Wait>(
    rt: &R,
    alloc: Global,
    measured: &Measured<'_, '_, P, B>,
    record: &mut Handle<B>,
    count: u64,
) -> Result<u64, Refusal> {
    for number in 0..count {
        if measured.done.load(Ordering::SeqCst) {
            return Ok(number);
        }
        let buckets = if number % 2 == 0 {
            GROWN
        } else {
            measured.operation.buckets()
        };
        grows_to(rt, alloc, measured.map, record, buckets)?;
    }
    Ok(count)
}

/// What the thread of this number repeats: where a table grows while a reader looks up, the first one lets it, and the
/// reader is the last one.
fn hand<P: GracePlan + Drop, B: Site, R: Wait>(
    rt: &R,
    alloc: Global,
    measured: &Measured<'_, '_, P, B>,
    record: &mut Handle<B>,
    number: usize,
) -> Result<u64, Refusal> {
    let count = measured.count;
    match (measured.operation, number) {
        (OnTable::Insert, _) => insertions(
            rt,
            measured.map,
            record,
            count,
            (number as u64).wrapping_mul(count),
        ),
        (OnTable::Remove, _) => removals(rt, measured.map, record, count),
        (OnTable::Grow, _) => growths(rt, alloc, measured, record, count),
        (OnTable::HitWhileGrowing | OnTable::SlowestWhileGrowing, 0) => {
            growths(rt, alloc, measured, record, u64::MAX)
        }
        (OnTable::SlowestWhileGrowing, 1) => Ok(ticks(&measured.clock, &measured.done)),
        _ => reading(rt, measured, record),
    }
}

/// What the thread of this number does: the worker is the first one, where there is one, and the last hand to end closes
/// its queue.
fn part<P: GracePlan + Drop, B: Site, R: Wait>(
    rt: &R,
    alloc: Global,
    measured: &Measured<'_, '_, P, B>,
    number: usize,
) -> Result<u64, Refusal> {
    let mut record = measured.domain.split(&mut *measured.root.lock(rt));
    let workers = usize::from(measured.operation.has_worker());
    if number < workers {
        return works(rt, alloc, measured.domain, &mut record, number);
    }
    let done = hand(rt, alloc, measured, &mut record, number - workers);
    let before = measured.ended.fetch_add(1, Ordering::SeqCst);
    if before.wrapping_add(1) == measured.hands as u64 {
        measured.domain.close(rt, &mut record);
    }
    done
}

/// Repeats an operation by this many threads, on a table that has its keys. What the last one answers.
pub(crate) fn on_table<
    P: GracePlan + Drop + Send + Sync,
    B: Site + Send + Sync,
    R: Threads + Wait + Sync,
>(
    rt: &R,
    alloc: Global,
    opened: Opened<P, Tabled>,
    operation: OnTable,
    hands: usize,
    count: u64,
) -> Result<u64, Refusal>
    requires { Names B.Site opened }
{
    let (domain, mut record) = opened.into_domain::<B, RoundDone>(alloc)?;
    let home = &domain;
    let map = table(rt, alloc, home, &mut record, operation.buckets())?;
    insertions(rt, &map, &mut record, operation.keys(), 0)?;
    let root = Mutex::new(record);
    let measured = Measured {
        domain: home,
        map: &map,
        root: &root,
        view: view_of(home, Target::Tables)?,
        operation,
        hands,
        count,
        ended: AtomicU64::new(0),
        done: AtomicBool::new(false),
        clock: AtomicU64::new(0),
    };
    let threads = hands.saturating_add(usize::from(operation.has_worker()));
    last_of(together(
        rt,
        alloc,
        threads,
        &|number| { part(rt, alloc, &measured, number) },
    )?)
}
