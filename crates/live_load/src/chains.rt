//! A run on chains, of which each updater has one.

ghost use Rattle.std.specs.Prelude.{◌<◌};
ghost use Rattle.rcu_hash.specs.domain.Naming.{Names};

use crate::counts::{Counts, NOTHING};
use crate::deadline::Deadline;
use crate::load::Load;
use crate::reading::reads;
use crate::round::RoundDone;
use crate::threads::{Helpers, Role, Shared, together, total};
use crate::updating::updates;
use crate::watch::Watch;
use gp_memb::GracePlan;
use rcu_hash::{AnyChain, LiveConfig, Opened, Site};
use rcu_model::Refusal;
use std::alloc::Global;
use std::marker::Brand;
use std::sync::atomic::AtomicU64;
use std::sync::{Mutex, Wait};
use std::thread::Threads;
use std::time::Clock;

/// How many records a run has.
pub(crate) const POOL: usize = 1024;

/// What the thread of this number does.
fn part<P: GracePlan + Drop, B: Site, R: Wait + Clock, W: Watch>(
    rt: &R,
    alloc: Global,
    shared: &Shared<'_, '_, P, AnyChain, B, W>,
    number: usize,
) -> Result<Counts, Refusal> {
    let mut record = shared.record(rt);
    match shared.role(number) {
        Role::Worker(queue) => shared.works(rt, alloc, &mut record, queue),
        Role::Updater(chain) => {
            let done = updates(rt, shared, &mut record, chain);
            shared.ends(rt, &mut record, done)
        }
        Role::Reader(_) => {
            let mixed = reads(
                rt,
                shared.domain,
                &mut record,
                &shared.load,
                &shared.deadline,
            )?;
            Ok(Counts { mixed, ..NOTHING })
        }
        Role::Waiter | Role::Grower => Ok(NOTHING),
    }
}

/// The threads of a run, in a domain of its own.
fn threads<
    P: GracePlan + Drop + Send + Sync,
    B: Site + Send + Sync,
    R: Threads + Wait + Clock + Sync,
    W: Watch + Sync,
>(
    rt: &R,
    alloc: Global,
    opened: Opened<P, AnyChain>,
    load: Load,
    watch: &W,
) -> Result<Counts, Refusal>
    requires { Names B.Site opened × (0 < load.updaters) }
{
    let (domain, record) = opened.into_domain::<B, RoundDone>(alloc)?;
    let root = Mutex::new(record);
    let ended = AtomicU64::new(0);
    let shared = Shared {
        domain: &domain,
        root: &root,
        ended: &ended,
        load,
        helpers: Helpers {
            waiters: 0,
            growers: 0,
        },
        deadline: Deadline::after(rt, load.seconds),
        watch,
    };
    let parts = together(
        rt,
        alloc,
        shared.size(),
        &|number| { part(rt, alloc, &shared, number) },
    )?;
    total(&parts)
}

/// Readers, updaters and workers of one domain, each in a thread of its own. `watch` hears how far the first updater
/// is.
pub fn stress<P: GracePlan + Drop + Send + Sync, R: Threads + Wait + Clock + Sync, W: Watch + Sync>(
    rt: &R,
    alloc: Global,
    load: Load,
    watch: &W,
) -> Result<Counts, Refusal>
    requires { 0 < load.updaters }
{
    let opened = Opened::<P, AnyChain>::new(
        alloc,
        LiveConfig {
            slots: load.readers as usize,
            queues: load.workers as usize,
            chains: load.updaters as usize,
            pool: POOL,
        },
    )?;
    threads::<P, Brand, R, W>(rt, alloc, opened, load, watch)
}
