//! What is repeated on chains.

ghost use Rattle.std.specs.Prelude.{◌≡◌, ◌<◌};
ghost use Rattle.rcu_hash.specs.domain.Naming.{Names};
ghost use Rattle.rcu_hash.specs.live_read.Holding.{MayHoldIn};

use crate::kind::{OnChains, RECORDS, last_of};
use gp_memb::GracePlan;
use live_load::{RoundDone, begin, together, when_free, works};
use rcu_hash::{
    AnyChain, Callback, Chain, Deleter, Domain, Handle, Held, Opened, Owned, Reader, Ripe, Section,
    Site,
};
use rcu_model::Refusal;
use std::alloc::Global;
use std::sync::atomic::{AtomicU64, Ordering};
use std::sync::{Mutex, Wait};
use std::thread::Threads;

/// One operation of this many is an update, where reads and updates are mixed.
const UPDATE_EVERY: u64 = 100;

/// What the threads of a measurement share.
#[derive(Drop)]
struct Measured<'d, 'a, P: GracePlan, B: Site> {
    domain: &'d Domain<P, AnyChain, B, RoundDone>,
    // The record that each thread's own is split from.
    root: &'a Mutex<Handle<B>>,
    // How many hands have ended.
    ended: &'a AtomicU64,
    operation: OnChains,
    hands: usize,
    count: u64,
    ghost some: { 0 < hands },
}

/// One section with nothing in it.
#[inline(always)]
fn section<P: GracePlan, B: Site>(reader: &mut Reader<P, AnyChain, B>) -> bool
    ensures { (reader.new.core.depth ≡ reader.old.core.depth) × (reader.new.core.locks ≡ reader.old.core.locks) }
{
    match reader.section() {
        Ok(_section) => true,
        Err(_) => false,
    }
}

/// Sections one after the other. Answers how many.
fn sections<P: GracePlan, B: Site>(reader: &mut Reader<P, AnyChain, B>, count: u64) -> u64
    ensures { (reader.new.core.depth ≡ reader.old.core.depth) × (reader.new.core.locks ≡ reader.old.core.locks) }
{
    let mut done = 0;
    for number in 0..count {
        if section(reader) {
            done = number + 1;
        }
    }
    done
}

/// Sections with a quiescent state after each. Answers how many.
fn announcements<P: GracePlan, B: Site>(reader: &mut Reader<P, AnyChain, B>, count: u64) -> u64 {
    let mut done = 0;
    for number in 0..count {
        if section(reader) && reader.quiescent().is_ok() {
            done = number + 1;
        }
    }
    done
}

/// One section that reads the first object of a chain. Inlined, as a program's own loop would have it.
#[inline(always)]
fn read_first<P: GracePlan, B: Site>(
    reader: &mut Reader<P, AnyChain, B>,
    chain: usize,
) -> Result<u64, Refusal> {
    let mut section = reader.section()?;
    match section.first(chain)? {
        Some(held) => {
            let [key, value, rank, last] = section.read(held);
            Ok(key ^ value ^ rank ^ last)
        }
        None => Ok(0),
    }
}

/// Sections that read one object each. Answers how many.
fn reads<P: GracePlan, B: Site>(
    reader: &mut Reader<P, AnyChain, B>,
    count: u64,
) -> Result<u64, Refusal> {
    let mut done = 0;
    for number in 0..count {
        if read_first(reader, 0)? == 0 {
            done = number + 1;
        }
    }
    Ok(done)
}

/// Reads of one object that a section holds.
fn read_again<P: GracePlan, B: Site>(
    section: &mut Section<P, AnyChain, B>,
    held: Held,
    count: u64,
) -> u64
    requires held { MayHoldIn section.old.reader.now.core held.cell }
{
    let mut sum = 0;
    for _ in 0..count {
        let [key, value, rank, last] = section.read(held);
        sum ^= key ^ value ^ rank ^ last;
    }
    sum
}

/// A walk along a chain, over and over, until it has met this many records. It looks at none of their words.
fn walk_on<P: GracePlan, B: Site>(
    section: &mut Section<P, AnyChain, B>,
    count: u64,
) -> Result<u64, Refusal> {
    let mut at = section.first(0)?;
    let mut walks = 0;
    for _ in 0..count {
        at = match at {
            Some(held) => section.next(held),
            None => {
                walks += 1;
                section.first(0)?
            }
        };
    }
    Ok(walks)
}

/// What a reader repeats.
fn reading<P: GracePlan, B: Site>(
    reader: &mut Reader<P, AnyChain, B>,
    operation: OnChains,
    count: u64,
) -> Result<u64, Refusal> {
    begin(reader)?;
    match operation {
        OnChains::Announcement => Ok(announcements(reader, count)),
        OnChains::Read => reads(reader, count),
        OnChains::Nested => {
            let outer = reader.section()?;
            Ok(sections(&mut *outer.reader, count))
        }
        OnChains::FurtherRead => {
            let mut section = reader.section()?;
            match section.first(0)? {
                Some(held) => Ok(read_again(&mut section, held, count)),
                None => Ok(0),
            }
        }
        OnChains::Walk => {
            let mut section = reader.section()?;
            walk_on(&mut section, count)
        }
        _ => Ok(sections(reader, count)),
    }
}

/// Grace periods, each waited for, with two readers that are in no section. Answers how many.
fn synchronizations<P: GracePlan + Drop, B: Site, D: Deleter, R: Wait>(
    rt: &R,
    domain: &Domain<P, AnyChain, B, D>,
    record: &mut Handle<B>,
    count: u64,
) -> Result<u64, Refusal> {
    let _one = domain.register(rt, record)?;
    let _two = domain.register(rt, record)?;
    let mut done = 0;
    for number in 0..count {
        domain.synchronize(rt, record)?;
        done = number + 1;
    }
    Ok(done)
}

/// Looks whether one ask is answered. Answers how many said no.
fn polls<P: GracePlan + Drop, B: Site, D: Deleter>(
    domain: &Domain<P, AnyChain, B, D>,
    record: &mut Handle<B>,
    count: u64,
) -> Result<u64, Refusal> {
    let cookie = domain.start_poll(record)?;
    let mut done = 0;
    for number in 0..count {
        if !domain.poll(record, &cookie) {
            done = number + 1;
        }
    }
    Ok(done)
}

/// `Domain::alloc` of four times this word, of whose contract nothing is told on.
fn alloc<P: GracePlan + Drop, B: Site, D: Deleter, R: Wait>(
    rt: &R,
    domain: &Domain<P, AnyChain, B, D>,
    record: &mut Handle<B>,
    word: u64,
) -> Result<Owned<B>, Refusal> {
    domain.alloc(rt, record, [word; 4])
}

/// A record is allocated, and discarded, or pushed, or pushed and cut.
fn one_record<P: GracePlan + Drop, B: Site, D: Deleter, R: Wait>(
    rt: &R,
    writer: &mut Chain<'_, P, AnyChain, B, D>,
    record: &mut Handle<B>,
    operation: OnChains,
    word: u64,
) -> Result<(), Refusal> {
    let domain = writer.domain();
    let owned = alloc(rt, domain, record, word)?;
    if matches!(operation, OnChains::Alloc(_)) {
        domain.discard(record, owned);
        return Ok(());
    }
    writer.push(record, owned);
    if operation == OnChains::Cut {
        writer.cut(record, 0)?;
    }
    Ok(())
}

/// Makes the operation on chain 0 `count` times, and answers how often. Of pushes and cuts that is at most the number of
/// records of the domain.
fn records<P: GracePlan + Drop, B: Site, D: Deleter, R: Wait>(
    rt: &R,
    domain: &Domain<P, AnyChain, B, D>,
    record: &mut Handle<B>,
    operation: OnChains,
    count: u64,
) -> Result<u64, Refusal> {
    let mut writer = domain.chain(record, 0)?;
    for number in 0..count {
        one_record(rt, &mut writer, record, operation, number)?;
    }
    Ok(count)
}

/// The writer of a chain, on which it has pushed a record of zeros.
fn published<'d, P: GracePlan + Drop, B: Site, D: Deleter, R: Wait>(
    rt: &R,
    domain: &'d Domain<P, AnyChain, B, D>,
    record: &mut Handle<B>,
    chain: usize,
) -> Result<Chain<'d, P, AnyChain, B, D>, Refusal> {
    let owned = alloc(rt, domain, record, 0)?;
    let mut writer = domain.chain(record, chain)?;
    writer.push(record, owned);
    Ok(writer)
}

/// A record of four times this word takes the place of the chain's first one, which is retired.
fn replaces<P: GracePlan + Drop, B: Site, D: Deleter, R: Wait>(
    rt: &R,
    domain: &Domain<P, AnyChain, B, D>,
    record: &mut Handle<B>,
    writer: &mut Chain<'_, P, AnyChain, B, D>,
    word: u64,
    deleter: D,
) -> Result<(), Refusal> {
    let owned = when_free(|| alloc(rt, domain, record, word))?;
    match domain.replace_retire(rt, record, writer, 0, owned, deleter) {
        Ok(_) => Ok(()),
        Err((refusal, owned, _)) => {
            domain.discard(record, owned);
            Err(refusal)
        }
    }
}

/// Records that are retired, and waited for by a barrier each where that is asked for.
fn retirements<P: GracePlan + Drop, B: Site, R: Wait>(
    rt: &R,
    measured: &Measured<'_, '_, P, B>,
    record: &mut Handle<B>,
) -> Result<u64, Refusal> {
    let domain = measured.domain;
    let mut writer = published(rt, domain, record, 0)?;
    for number in 0..measured.count {
        replaces(rt, domain, record, &mut writer, number, RoundDone(0))?;
        if measured.operation == OnChains::Barrier {
            domain.barrier(rt, record);
        }
    }
    Ok(measured.count)
}

/// One operation of a thread that reads mostly: it reads a chain, or updates its own. In the quiescent-state flavour
/// the reader is offline meanwhile, since that may wait.
fn mixed_one<P: GracePlan + Drop, B: Site, R: Wait>(
    rt: &R,
    measured: &Measured<'_, '_, P, B>,
    record: &mut Handle<B>,
    reader: &mut Reader<P, AnyChain, B>,
    writer: &mut Chain<'_, P, AnyChain, B, RoundDone>,
    number: u64,
) -> Result<(), Refusal> {
    if number % UPDATE_EVERY != 0 {
        read_first(reader, number as usize % measured.hands)?;
        return Ok(());
    }
    if P::QSBR {
        reader.offline()?;
    }
    replaces(rt, measured.domain, record, writer, number, RoundDone(0))?;
    begin(reader)
}

/// Reads and updates of one thread, by a reader of its own and on a chain of its own.
fn mixed<P: GracePlan + Drop, B: Site, R: Wait>(
    rt: &R,
    measured: &Measured<'_, '_, P, B>,
    record: &mut Handle<B>,
    reader: &mut Reader<P, AnyChain, B>,
    chain: usize,
) -> Result<u64, Refusal> {
    let mut writer = published(rt, measured.domain, record, chain)?;
    begin(reader)?;
    for number in 0..measured.count {
        mixed_one(rt, measured, record, reader, &mut writer, number)?;
    }
    Ok(measured.count)
}

/// What the hand of this number repeats.
fn hand<P: GracePlan + Drop, B: Site, R: Wait>(
    rt: &R,
    measured: &Measured<'_, '_, P, B>,
    record: &mut Handle<B>,
    number: usize,
) -> Result<u64, Refusal> {
    let (domain, count) = (measured.domain, measured.count);
    match measured.operation {
        OnChains::Synchronize => synchronizations(rt, domain, record, count),
        OnChains::Poll => polls(domain, record, count),
        OnChains::Push | OnChains::Cut => records(rt, domain, record, measured.operation, count),
        OnChains::Alloc(share) => {
            let used = (RECORDS / 100).saturating_mul(share);
            records(rt, domain, record, OnChains::Push, used)?;
            records(rt, domain, record, measured.operation, count)
        }
        OnChains::Mix => {
            let mut reader = domain.register(rt, record)?;
            let done = mixed(rt, measured, record, &mut reader, number);
            if P::QSBR {
                // Refused where an update left it offline.
                let _ = reader.offline();
            }
            done
        }
        operation if operation.is_read() => {
            let mut reader = domain.register(rt, record)?;
            reading(&mut reader, operation, count)
        }
        _ => retirements(rt, measured, record),
    }
}

/// What the thread of this number does: the worker is the first one, where there is one, and the last hand to end closes
/// its queue.
fn part<P: GracePlan + Drop, B: Site, R: Wait>(
    rt: &R,
    alloc: Global,
    measured: &Measured<'_, '_, P, B>,
    number: usize,
) -> Result<u64, Refusal> {
    let mut record = measured.domain.split(&mut *measured.root.lock(rt));
    let workers = usize::from(measured.operation.has_worker());
    if number < workers {
        return works(rt, alloc, measured.domain, &mut record, number);
    }
    let done = hand(rt, measured, &mut record, number - workers);
    let before = measured.ended.fetch_add(1, Ordering::SeqCst);
    if before.wrapping_add(1) == measured.hands as u64 {
        measured.domain.close(rt, &mut record);
    }
    done
}

/// Repeats an operation by this many threads. What the last one answers.
pub(crate) fn on_chains<
    P: GracePlan + Drop + Send + Sync,
    B: Site + Send + Sync,
    R: Threads + Wait + Sync,
>(
    rt: &R,
    alloc: Global,
    opened: Opened<P, AnyChain>,
    operation: OnChains,
    hands: usize,
    count: u64,
) -> Result<u64, Refusal>
    requires { Names B.Site opened }
{
    let (domain, mut record) = opened.into_domain::<B, RoundDone>(alloc)?;
    if operation.is_read() {
        records(rt, &domain, &mut record, OnChains::Push, 1_000)?;
    }
    let root = Mutex::new(record);
    let ended = AtomicU64::new(0);
    let measured = Measured {
        domain: &domain,
        root: &root,
        ended: &ended,
        operation,
        hands: hands.max(1),
        count,
    };
    let threads = measured
        .hands
        .saturating_add(usize::from(operation.has_worker()));
    last_of(together(
        rt,
        alloc,
        threads,
        &|number| { part(rt, alloc, &measured, number) },
    )?)
}

/// Records that are retired, each with a callback that this makes.
fn retires<P: GracePlan + Drop, B: Site, D: Deleter, R: Wait, F: Fn() -> Option<D>>(
    rt: &R,
    domain: &Domain<P, AnyChain, B, D>,
    record: &mut Handle<B>,
    count: u64,
    callback: F,
) -> Result<u64, Refusal>
    requires { F.IsAlwaysCallable callback }
{
    let mut writer = published(rt, domain, record, 0)?;
    for number in 0..count {
        let Some(callback) = callback() else {
            return Err(Refusal::Memory);
        };
        replaces(rt, domain, record, &mut writer, number, callback)?;
    }
    Ok(count)
}

/// A worker, or one who retires with a callback that this makes, and then closes the queue.
fn retiring_part<P: GracePlan + Drop, B: Site, D: Deleter, R: Wait, F: Fn() -> Option<D>>(
    rt: &R,
    alloc: Global,
    domain: &Domain<P, AnyChain, B, D>,
    root: &Mutex<Handle<B>>,
    count: u64,
    number: usize,
    callback: F,
) -> Result<u64, Refusal>
    requires { F.IsAlwaysCallable callback }
{
    let mut record = domain.split(&mut *root.lock(rt));
    if number == 0 {
        return works(rt, alloc, domain, &mut record, 0);
    }
    let done = retires(rt, domain, &mut record, count, callback);
    domain.close(rt, &mut record);
    done
}

/// Retires this many records with a boxed callback each, beside a worker.
pub(crate) fn boxed<
    P: GracePlan + Drop + Send + Sync,
    B: Site + Send + Sync,
    R: Threads + Wait + Sync,
>(rt: &R, alloc: Global, opened: Opened<P, AnyChain>, count: u64) -> Result<u64, Refusal>
    requires { Names B.Site opened }
{
    let (domain, record) = opened.into_domain::<B, Callback>(alloc)?;
    let root = Mutex::new(record);
    last_of(together(
        rt,
        alloc,
        2,
        &|number| {
            retiring_part(rt, alloc, &domain, &root, count, number, || {
                let call = Box::new(alloc, |ripe: Ripe| ripe.payload[0]).ok()?;
                Some(Callback { call })
            })
        },
    )?)
}
