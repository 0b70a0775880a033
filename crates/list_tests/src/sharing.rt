//! Two threads write to one table, one of them in a section, while a third tidies: they wait for it no longer than for
//! a lock, though it waits for the section.

ghost use Rattle.rcu_hash.specs.domain.Naming.{Names};
ghost use Rattle.std.specs.Thread.{IsSync};

use crate::deleter::Adds;
use crate::growths::callbacks;
use crate::looking::{Idle, of_two_readers, registered, waits_for};
use crate::plain::{grow, put, tidy};
use gp_memb::{GracePlan, MembPlan};
use gp_qsbr::QsbrPlan;
use rcu_hash::{Handle, Opened, RcuHash, Site, Tabled};
use rcu_model::Refusal;
use std::alloc::Global;
use std::marker::Brand;
use std::sync::Wait;
use std::sync::atomic::{AtomicBool, Ordering};
use std::thread::{self, Threads, join};

/// How many keys each thread gives a value.
const KEYS: u64 = 100;

/// Gives keys from this one on a value, each its own number.
fn fills<P: GracePlan + Drop, B: Site, R: Wait>(
    rt: &R,
    table: &RcuHash<'_, P, B, Adds>,
    record: &mut Handle<B>,
    first: u64,
) -> Result<(), Refusal> {
    for number in 0..KEYS {
        let key = first.wrapping_add(number);
        put(rt, table, record, key, key)?;
        thread::yield_now();
    }
    Ok(())
}

/// What two threads tell one another.
#[derive(Drop)]
struct Signals {
    /// A section is open.
    open: AtomicBool,
    /// A tidying begins.
    begun: AtomicBool,
}

/// What a thread writes while it has a section open, once a tidying begins.
fn writes_in_a_section<P: GracePlan + Drop, B: Site, R: Wait>(
    rt: &R,
    table: &RcuHash<'_, P, B, Adds>,
    idle: Idle<P, Tabled, B>,
    record: Handle<B>,
    told: &Signals,
) -> Result<(), Refusal> {
    let Idle { mut reader } = idle;
    let mut record = record;
    if P::QSBR {
        reader.online()?;
    }
    let section = reader.section()?;
    told.open.store(true, Ordering::SeqCst);
    waits_for(&told.begun);
    let filled = fills(rt, table, &mut record, 1_000);
    section.close();
    if P::QSBR {
        reader.offline()?;
    }
    filled
}

/// What the one who tidies does, once a section is open. How many were retired.
fn tidies<P: GracePlan + Drop, B: Site, R: Wait>(
    rt: &R,
    alloc: Global,
    table: &RcuHash<'_, P, B, Adds>,
    record: Handle<B>,
    left: usize,
    told: &Signals,
) -> Result<usize, Refusal> {
    let mut record = record;
    let jobs = callbacks(alloc, left)?;
    waits_for(&told.open);
    told.begun.store(true, Ordering::SeqCst);
    Ok(tidy(rt, table, &mut record, jobs).retired)
}

/// Two writers and one who tidies, in a thread each. How many were retired.
fn three_work<P: GracePlan + Drop + Send + Sync, B: Site + Send + Sync, R: Threads + Wait + Sync>(
    rt: &R,
    alloc: Global,
    table: &RcuHash<'_, P, B, Adds>,
    reader: Idle<P, Tabled, B>,
    records: (Handle<B>, Handle<B>, Handle<B>),
    left: usize,
) -> Result<usize, Refusal> {
    let (one, two, three) = records;
    let signals = Signals {
        open: AtomicBool::new(false),
        begun: AtomicBool::new(false),
    };
    let told = &signals;
    let (wrote, (more, retired)) = join(
        rt,
        move || { writes_in_a_section(rt, table, reader, one, told) },
        move ||
            requires { IsSync R.row }
        {
            join(
                rt,
                move || {
                    let mut record = two;
                    fills(rt, table, &mut record, 2_000)
                },
                move || tidies(rt, alloc, table, three, left, told),
            )
        },
    );
    wrote?;
    more?;
    retired
}

/// A table grows, and is then shared by the three. What they did, and what a section finds in the end of the first key,
/// and of the last one of each writer.
fn shares<P: GracePlan + Drop + Send + Sync, B: Site + Send + Sync, R: Threads + Wait + Sync>(
    rt: &R,
    alloc: Global,
    opened: Opened<P, Tabled>,
) -> Result<(usize, [Option<u64>; 3]), Refusal>
    requires { Names B.Site opened }
{
    let (domain, mut record) = opened.into_domain::<B, Adds>(alloc)?;
    let reader = registered(rt, &domain, &mut record)?;
    let Idle { reader: mut last } = registered(rt, &domain, &mut record)?;
    let table = RcuHash::new(rt, alloc, &domain, &mut record, 0, 1, 2)?;
    fills(rt, &table, &mut record, 0)?;
    let left = grow(rt, alloc, &table, &mut record, 3, 3)?;
    let records = (
        domain.split(&mut record),
        domain.split(&mut record),
        domain.split(&mut record),
    );
    let retired = three_work(rt, alloc, &table, reader, records, left)?;
    if P::QSBR {
        last.online()?;
    }
    let mut section = last.section()?;
    let first = table.get(&mut section, 0);
    let second = table.get(&mut section, 1_099);
    let third = table.get(&mut section, 2_099);
    Ok((retired, [first, second, third]))
}

#[test]
fn writers_go_on_while_a_tidying_waits(rt: HostRuntime) {
    let answers = (101, [Some(0), Some(1_099), Some(2_099)]);
    let general = Opened::<MembPlan, Tabled>::new(rt.alloc(), of_two_readers(6, 512)).expect(
        &rt, "memory",
    );
    let did = shares::<_, Brand, _>(&rt, rt.alloc(), general).expect(&rt, "not refused");
    assert_eq!(rt; did, answers);
    let quiescent = Opened::<QsbrPlan, Tabled>::new(rt.alloc(), of_two_readers(6, 512)).expect(
        &rt, "memory",
    );
    let did = shares::<_, Brand, _>(&rt, rt.alloc(), quiescent).expect(&rt, "not refused");
    assert_eq!(rt; did, answers);
}
