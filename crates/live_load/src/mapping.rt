//! A run on a list or a table.

ghost use Rattle.std.specs.Prelude.{◌<◌};
ghost use Rattle.rcu_hash.specs.domain.Naming.{Names};

use crate::chains::POOL;
use crate::counts::{Counts, NOTHING};
use crate::deadline::Deadline;
use crate::growing::growths;
use crate::load::Load;
use crate::looking::looks;
use crate::maps::{CHAINS, Map, STAYING, change, filled, put, take_out, view_of};
use crate::round::RoundDone;
use crate::target::Target;
use crate::threads::{Helpers, Role, Shared, together, total};
use crate::updating::{rounds, when_free};
use crate::waiting::{Mark, marks, waits};
use crate::watch::Watch;
use gp_memb::GracePlan;
use rcu_hash::{Handle, LiveConfig, Opened, Site, Tabled};
use rcu_model::Refusal;
use std::alloc::Global;
use std::marker::Brand;
use std::sync::atomic::AtomicU64;
use std::sync::{Mutex, Wait};
use std::thread::Threads;
use std::time::Clock;

/// Each updater has a key of its own, which comes and goes: these, from this one on.
const OWN: u64 = 1_000;

/// One round of an updater: in the first, and in every second from there on, its own key comes, and a key that stays
/// gets this number as its value; in the others its own key goes. So each round retires one record.
fn one_round<P: GracePlan + Drop, B: Site, R: Wait>(
    rt: &R,
    map: &Map<'_, P, B>,
    record: &mut Handle<B>,
    updater: usize,
    round: u64,
) -> Result<(), Refusal> {
    let key = updater as u64 % STAYING;
    let own = OWN + key;
    if round % 2 == 0 {
        return when_free(|| take_out(rt, map, record, own));
    }
    when_free(|| put(rt, map, record, own, round))?;
    when_free(|| change(rt, map, record, key, round))
}

/// What the thread of this number does.
fn part<P: GracePlan + Drop, B: Site, R: Wait + Clock, W: Watch>(
    rt: &R,
    alloc: Global,
    shared: &Shared<'_, '_, P, Tabled, B, W>,
    map: &Map<'_, P, B>,
    target: Target,
    marks: &[Mark],
    number: usize,
) -> Result<Counts, Refusal> {
    let mut record = shared.record(rt);
    match shared.role(number) {
        Role::Worker(queue) => shared.works(rt, alloc, &mut record, queue),
        Role::Waiter => waits(rt, shared, &mut record, marks),
        Role::Grower => {
            let done = growths(rt, alloc, shared, &mut record, map);
            shared.ends(rt, &mut record, done)
        }
        Role::Updater(updater) => {
            let done = rounds(rt, shared, updater, |round| {
                one_round(rt, map, &mut record, updater, round)
            });
            shared.ends(rt, &mut record, done)
        }
        Role::Reader(reader) => {
            let view = view_of(shared.domain, target)?;
            let mixed = looks(rt, shared, &mut record, &view, marks, reader)?;
            Ok(Counts { mixed, ..NOTHING })
        }
    }
}

/// The threads of a run, in a domain of its own.
fn threads<
    P: GracePlan + Drop + Send + Sync,
    B: Site + Send + Sync,
    R: Threads + Wait + Clock + Sync,
    W: Watch + Sync,
>(
    rt: &R,
    alloc: Global,
    opened: Opened<P, Tabled>,
    target: Target,
    load: Load,
    watch: &W,
) -> Result<Counts, Refusal>
    requires { Names B.Site opened × (0 < load.updaters) }
{
    let (domain, mut record) = opened.into_domain::<B, RoundDone>(alloc)?;
    let home = &domain;
    let map = filled(rt, alloc, home, &mut record, target)?;
    let marks = marks(alloc, load.readers)?;
    let root = Mutex::new(record);
    let ended = AtomicU64::new(0);
    let shared = Shared {
        domain: home,
        root: &root,
        ended: &ended,
        load,
        helpers: Helpers {
            waiters: 1,
            growers: u32::from(target == Target::Growth),
        },
        deadline: Deadline::after(rt, load.seconds),
        watch,
    };
    let parts = together(
        rt,
        alloc,
        shared.size(),
        &|number| { part(rt, alloc, &shared, &map, target, &marks, number) },
    )?;
    total(&parts)
}

/// The same on a list or a table.
///
/// Refused with `BadConfig` where there are more updaters than keys that stay, else as `stress`.
pub(crate) fn stress_map<
    P: GracePlan + Drop + Send + Sync,
    R: Threads + Wait + Clock + Sync,
    W: Watch + Sync,
>(rt: &R, alloc: Global, target: Target, load: Load, watch: &W) -> Result<Counts, Refusal>
    requires { 0 < load.updaters }
{
    if u64::from(load.updaters) > STAYING {
        return Err(Refusal::BadConfig);
    }
    let opened = Opened::<P, Tabled>::new(
        alloc,
        LiveConfig {
            slots: load.readers as usize,
            queues: load.workers as usize,
            chains: CHAINS,
            pool: POOL,
        },
    )?;
    threads::<P, Brand, R, W>(rt, alloc, opened, target, load, watch)
}
