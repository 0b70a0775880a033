//! What is cut is retired and reclaimed: tickets, refusals with their parts back, closed queues, barriers and workers.

ghost use Rattle.std.specs.Prelude.{false, true};
ghost use Rattle.domain.specs.Naming.{Names};

use crate::deleter::Adds;
use crate::plain;
use domain::{
    AnyChain, Callback, Deleter, Domain, Finished, Handle, LiveConfig, Opened, Ripe, Site, Stop,
    Ticket, Unlinked, WorkerEnd,
};
use gp_memb::{GracePlan, MembPlan};
use rcu_model::{ObjectId, Refusal};
use std::alloc::Global;
use std::marker::Brand;
use std::sync::Wait;
use std::thread::{Threads, join};

/// A small domain of this many queues, and a chain for each.
fn of_queues(queues: usize) -> LiveConfig {
    LiveConfig {
        slots: 1,
        queues,
        chains: 2,
        pool: 4,
    }
}

/// A new object, pushed on a chain and cut from it.
fn cut_one<B: Site, R: Wait>(
    rt: &R,
    domain: &Domain<MembPlan, AnyChain, B, Adds>,
    record: &mut Handle<B>,
    chain: usize,
    word: u64,
) -> Result<Unlinked<B>, Refusal> {
    let owned = plain::alloc(rt, domain, record, [word, 0, 0, 0])?;
    let mut writer = plain::chain(domain, record, chain)?;
    plain::push(&mut writer, record, owned);
    plain::cut(&mut writer, record, 0)
}

/// What is left to look at of a worker's end: its entries, how many items were not run, and why it stopped.
fn told<B: Site, D: Deleter>(end: &WorkerEnd<B, D>) -> (usize, Option<Finished>, usize, Stop) {
    (
        end.finished.len(),
        end.finished.get(0).copied(),
        end.left.len(),
        end.stop,
    )
}

/// The ticket of an object of these words that is cut and retired with a callback, and the end of a worker that finds
/// it in a closed queue.
fn reclaims<B: Site, R: Wait>(
    rt: &R,
    alloc: Global,
    domain: &Domain<MembPlan, AnyChain, B, Callback>,
    record: &mut Handle<B>,
    callback: Callback,
) -> Result<(u64, (usize, Option<Finished>, usize, Stop)), Refusal> {
    let owned = plain::alloc(rt, domain, record, [5, 0, 0, 0])?;
    let mut writer = plain::chain(domain, record, 0)?;
    plain::push(&mut writer, record, owned);
    let Ok(ticket) = plain::cut_retire(rt, domain, record, &mut writer, 0, callback) else {
        return Err(Refusal::Memory);
    };
    plain::close(rt, domain, record);
    let end = plain::run_worker(rt, alloc, domain, record, 0)?;
    Ok((ticket.0, told(&end)))
}

fn reclaims_one<B: Site, R: Wait>(
    rt: &R,
    alloc: Global,
    opened: Opened<MembPlan, AnyChain>,
    callback: Callback,
) -> Result<(u64, (usize, Option<Finished>, usize, Stop)), Refusal>
    requires { Names B.Site opened }
{
    let (domain, mut record) = opened.into_domain::<B, Callback>(alloc)?;
    reclaims(rt, alloc, &domain, &mut record, callback)
}

#[test]
fn a_worker_runs_what_a_closed_queue_has(rt: HostRuntime) {
    let opened = Opened::<MembPlan, AnyChain>::new(rt.alloc(), of_queues(1)).expect(&rt, "memory");
    let call = Box::new(rt.alloc(), |ripe: Ripe| ripe.payload[0]).expect(&rt, "memory");
    let (ticket, end) = reclaims_one::<Brand, _>(&rt, rt.alloc(), opened, Callback { call }).expect(
        &rt,
        "not refused",
    );
    let entry = Finished {
        ticket: Ticket(1),
        object: ObjectId(7),
        code: 5,
    };
    assert_eq!(rt; ticket, 1);
    assert_eq!(rt; end, (1, Some(entry), 0, Stop::Closed));
}

/// How many entries have twice their ticket's number as their code, which the object's word and its callback's number
/// make together, from the first one on; and why the worker stopped.
fn works<P: GracePlan + Drop, B: Site, R: Wait>(
    rt: &R,
    alloc: Global,
    domain: &Domain<P, AnyChain, B, Adds>,
    record: &mut Handle<B>,
) -> Result<(u64, Stop), Refusal> {
    let end = plain::run_worker(rt, alloc, domain, record, 0)?;
    let mut good = 0u64;
    for entry in end.finished.iter() {
        let next = good.wrapping_add(1);
        if entry.ticket.0 == next && entry.code == next.wrapping_mul(2) {
            good = next;
        }
    }
    Ok((good, end.stop))
}

/// What a second worker of the queue is answered while the first one is there: it has run what was retired, by the
/// names of the standard. Then the queue is closed.
fn second_worker<B: Site, R: Wait>(
    rt: &R,
    alloc: Global,
    domain: &Domain<MembPlan, AnyChain, B, Adds>,
    record: &mut Handle<B>,
) -> Result<Option<Refusal>, Refusal> {
    let unlinked = cut_one(rt, domain, record, 0, 1)?;
    if plain::rcu_retire(rt, domain, record, unlinked, Adds(1)).is_err() {
        return Err(Refusal::Memory);
    }
    plain::rcu_barrier(rt, domain, record);
    let refused = plain::run_worker(rt, alloc, domain, record, 0).err();
    plain::close(rt, domain, record);
    Ok(refused)
}

fn two_workers<B: Site + Send + Sync, R: Threads + Wait + Sync>(
    rt: &R,
    alloc: Global,
    opened: Opened<MembPlan, AnyChain>,
) -> Result<(Option<Refusal>, (u64, Stop)), Refusal>
    requires { Names B.Site opened }
{
    let (domain, mut record) = opened.into_domain::<B, Adds>(alloc)?;
    let other = domain.split(&mut record);
    let home = &domain;
    let (second, first) = join(
        rt,
        move || {
            let mut record = record;
            second_worker(rt, alloc, home, &mut record)
        },
        move || {
            let mut other = other;
            works(rt, alloc, home, &mut other)
        },
    );
    Ok((second?, first?))
}

#[test]
fn a_queue_has_one_worker(rt: HostRuntime) {
    let opened = Opened::<MembPlan, AnyChain>::new(rt.alloc(), of_queues(1)).expect(&rt, "memory");
    let done = two_workers::<Brand, _>(&rt, rt.alloc(), opened).expect(&rt, "not refused");
    assert_eq!(rt; done, (Some(Refusal::Busy), (1, Stop::Closed)));
}
