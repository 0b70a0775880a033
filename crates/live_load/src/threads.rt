//! The threads of a run: what they share, who each one is, and where they are started.

ghost use Rattle.std.specs.Prelude.{◌≡◌, ◌<◌, ℕ};

use crate::counts::{Counts, NOTHING};
use crate::deadline::Deadline;
use crate::load::Load;
use crate::round::RoundDone;
use crate::updating::Updated;
use gp_memb::GracePlan;
use rcu_hash::{ChainRule, Deleter, Domain, Handle, Site, Stop};
use rcu_model::Refusal;
use std::alloc::Global;
use std::sync::atomic::{AtomicU64, Ordering};
use std::sync::{Mutex, Wait};
use std::thread::{Threads, map_indices};

/// Who a thread is, and the which of its kind.
#[derive(Clone, Copy, Drop)]
pub(crate) enum Role {
    /// It runs the callbacks of a queue.
    Worker(usize),
    /// It waits and polls for grace periods.
    Waiter,
    /// It lets a table grow, and tidies it.
    Grower,
    /// It changes what readers read.
    Updater(usize),
    /// It reads.
    Reader(usize),
}

/// How many threads there are of those kinds that no load names.
#[derive(Clone, Copy, Drop)]
pub(crate) struct Helpers {
    pub(crate) waiters: u32,
    pub(crate) growers: u32,
}

/// What the threads of a run share.
#[derive(Drop)]
pub(crate) struct Shared<'d, 'a, P: GracePlan, K: ChainRule, B: Site, W> {
    pub(crate) domain: &'d Domain<P, K, B, RoundDone>,
    // The record that each thread's own is split from.
    pub(crate) root: &'a Mutex<Handle<B>>,
    // How many of those that retire have ended.
    pub(crate) ended: &'a AtomicU64,
    pub(crate) load: Load,
    pub(crate) helpers: Helpers,
    pub(crate) deadline: Deadline,
    // Who hears how far the first updater is.
    pub(crate) watch: &'a W,
    pub(crate) ghost some: { 0 < load.updaters },
}

impl<P: GracePlan + Drop, K: ChainRule, B: Site, W> Shared<'_, '_, P, K, B, W> {
    /// How many threads there are.
    pub(crate) fn size(&self) -> usize {
        let load = &self.load;
        let helpers = self.helpers.waiters as usize + self.helpers.growers as usize;
        load.workers as usize + helpers + load.updaters as usize + load.readers as usize
    }

    /// Who the thread of this number is. The first ones work, and the last ones read: where no thread can be made, the
    /// later ones are done first, and nobody waits for one that comes after it.
    pub(crate) fn role(&self, number: usize) -> Role {
        let workers = self.load.workers as usize;
        if number < workers {
            return Role::Worker(number);
        }
        let waiters = workers + self.helpers.waiters as usize;
        if number < waiters {
            return Role::Waiter;
        }
        let growers = waiters + self.helpers.growers as usize;
        if number < growers {
            return Role::Grower;
        }
        let updaters = growers + self.load.updaters as usize;
        if number < updaters {
            return Role::Updater(number - growers);
        }
        Role::Reader(number - updaters)
    }

    /// A record of a thread's own.
    pub(crate) fn record<R: Wait>(&self, rt: &R) -> Handle<B> {
        self.domain.split(&mut *self.root.lock(rt))
    }

    /// Whether all updaters have ended.
    pub(crate) fn are_updated(&self) -> bool {
        self.ended.load(Ordering::SeqCst) >= u64::from(self.load.updaters)
    }

    /// What a thread that retires counts. The last one to end closes all queues.
    pub(crate) fn ends<R: Wait>(
        &self,
        rt: &R,
        record: &mut Handle<B>,
        done: Result<Updated, Refusal>,
    ) -> Result<Counts, Refusal> {
        let before = self.ended.fetch_add(1, Ordering::SeqCst);
        let all = u64::from(self.load.updaters) + u64::from(self.helpers.growers);
        if before.wrapping_add(1) == all {
            self.domain.close(rt, record);
        }
        let done = done?;
        Ok(Counts {
            retired: done.retired,
            starved: u64::from(done.starved),
            ..NOTHING
        })
    }

    /// What a worker counts.
    pub(crate) fn works<R: Wait>(
        &self,
        rt: &R,
        alloc: Global,
        record: &mut Handle<B>,
        queue: usize,
    ) -> Result<Counts, Refusal> {
        let finished = works(rt, alloc, self.domain, record, queue)?;
        Ok(Counts {
            finished,
            ..NOTHING
        })
    }
}

/// Works for a queue until it is closed and empty. How many callbacks ran.
pub fn works<P: GracePlan + Drop, K: ChainRule, B: Site, D: Deleter, R: Wait>(
    rt: &R,
    alloc: Global,
    domain: &Domain<P, K, B, D>,
    record: &mut Handle<B>,
    queue: usize,
) -> Result<u64, Refusal> {
    let end = domain.run_worker(rt, alloc, record, queue)?;
    match end.stop {
        Stop::Closed | Stop::Served => Ok(end.finished.len() as u64),
        Stop::Exhausted => Err(Refusal::Exhausted),
        Stop::Memory => Err(Refusal::Memory),
    }
}

/// All counts, added, or the first refusal.
pub(crate) fn total(parts: &[Result<Counts, Refusal>]) -> Result<Counts, Refusal> {
    let mut all = NOTHING;
    for part in parts {
        match part {
            Ok(counts) => all = all.and(*counts),
            Err(refusal) => return Err(*refusal),
        }
    }
    Ok(all)
}

/// Starts `number` threads together, waits for all, and answers what each returned.
pub fn together<R: Threads + Sync, T: Send + Drop, F: Fn(usize) -> Result<T, Refusal> + Sync>(
    rt: &R,
    alloc: Global,
    number: usize,
    part: &F,
) -> Result<Vec<Result<T, Refusal>>, Refusal>
    requires { (i : ℕ) → i < number → F.pre part.now i }
{
    match map_indices(rt, alloc, number, part) {
        Ok(parts) => Ok(parts),
        Err(_) => Err(Refusal::Memory),
    }
}
