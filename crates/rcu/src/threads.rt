//! How the threads of a program get a domain.

ghost use Rattle.std.specs.Prelude.{◌≡◌, ◌⊎◌, IfErr, IfOk, true, vec_len};
ghost use Rattle.rcu_model.specs.declared.refusal.Refusal.TheVariants.{Memory};
ghost use Rattle.rcu_hash.specs.domain.Config.{is_supported};
ghost use Rattle.rcu.specs.Naming.{Names};
ghost use Rattle.rcu.specs.Threads.{EachGives, IsNotBegun, sizes_of};
ghost use Rattle.std.specs.Thread.{IsSync};

use crate::program::Threaded;
use crate::working::work;
use gp_memb::GracePlan;
use rcu_hash::{ChainRule, Deleter, Domain, Handle, LiveConfig, Opened, Site};
use rcu_model::Refusal;
use std::alloc::Global;
use std::marker::Brand;
use std::sync::{Mutex, Wait};
use std::thread::{Threads, for_each_mut, join, map_indices};

// The greatest number of queues.
const GREATEST: usize = 8;

/// What came of the threads of a program.
#[derive(Drop)]
pub struct Ended<T> {
    /// What each part answered, in the order of their numbers.
    pub answers: Vec<T>,
    /// How many records the worker of each queue reclaimed, in the order of the queues, or why it stopped early.
    pub reclaimed: Vec<Result<u64, Refusal>>,
}

/// Makes a domain of this size, and runs this number of the program's threads over it, beside a worker for each queue.
/// When all threads have returned the domain is closed, and the workers run what is left. Where the system makes too few
/// threads, what waits for another one waits for ever.
///
/// Refused with `BadConfig` where a size is out of its limits, else as `begin` is, or with `Memory` where memory is
/// refused.
pub fn with_threads<
    P: GracePlan + Drop + Send + Sync,
    K: ChainRule + Send + Sync,
    D: Deleter + Send + Sync,
    R: Threads + Wait + Sync,
    F: Threaded<P, K, D, R> + Sync,
>(
    rt: &R,
    alloc: Global,
    config: LiveConfig,
    number: usize,
    program: &F,
) -> Result<Ended<F::Out>, Refusal>
where
    F::Out: Send + Drop,
    ensures supported { IfOk result (λ _. is_supported config ≡ true) }
    ensures each { IfOk result (λ e. (vec_len e.answers ≡ number) × (vec_len e.reclaimed ≡ config.queues)) }
    ensures answered { IfOk result (λ e. EachGives (F.gives program.now (sizes_of config)) number e.answers.items) }
    ensures refused { IfErr result (λ e. IsNotBegun config (F.stops program.now (sizes_of config)) e) }
{
    let opened = Opened::<P, K>::new(alloc, config)?;
    all::<Brand, P, K, D, R, F>(rt, alloc, opened, config.queues, number, program)
}

// Gives the domain its type, and runs the threads.
fn all<
    B: Site + Send + Sync,
    P: GracePlan + Drop + Send + Sync,
    K: ChainRule + Send + Sync,
    D: Deleter + Send + Sync,
    R: Threads + Wait + Sync,
    F: Threaded<P, K, D, R> + Sync,
>(
    rt: &R,
    alloc: Global,
    opened: Opened<P, K>,
    queues: usize,
    number: usize,
    program: &F,
) -> Result<Ended<F::Out>, Refusal>
where
    F::Out: Send + Drop,
    requires { Names B.Site opened }
    ensures each { IfOk result (λ e. (vec_len e.answers ≡ number) × (vec_len e.reclaimed ≡ queues)) }
    ensures answered { IfOk result (λ e. EachGives (F.gives program.now B.sizes) number e.answers.items) }
    ensures refused { IfErr result (λ e. (e ≡ Memory) ⊎ F.stops program.now B.sizes e) }
{
    let (domain, mut first) = opened.into_domain::<B, D>(alloc)?;
    program.begin::<B>(rt, &domain, &mut first)?;
    let root = Mutex::new(first);
    let home = &domain;
    let from = &root;
    let mut reclaimed = none_yet(alloc, queues)?;
    let each = reclaimed.as_mut_slice();
    let (answers, ()) = join(
        rt,
        ||
            requires { IsSync R.row }
            ensures len { IfOk result (λ v. vec_len v ≡ number) }
            ensures each { IfOk result (λ v. EachGives (F.gives program.entry.now B.sizes) number v.items) }
        {
            let answers = map_indices(
                rt,
                alloc,
                number,
                &|index|
                    ensures { F.gives program.entry.now B.sizes index result }
                { program.part::<B>(rt, alloc, home, own(rt, home, from), index) },
            );
            home.close(rt, &mut *from.lock(rt));
            answers
        },
        ||
            requires { IsSync R.row }
        {
            for_each_mut(
                rt,
                each,
                GREATEST,
                &|queue, one| *one = work(rt, alloc, home, &mut own(rt, home, from), queue),
            )
        },
    );
    match answers {
        Ok(answers) => Ok(Ended { answers, reclaimed }),
        Err(_) => Err(Refusal::Memory),
    }
}

// What the workers of this number of queues will have reclaimed: memory for it is asked for before there are threads,
// since the parts wait for their workers.
fn none_yet(alloc: Global, queues: usize) -> Result<Vec<Result<u64, Refusal>>, Refusal>
    ensures len { IfOk result (λ v. vec_len v ≡ queues) }
    ensures memory { IfErr result (λ e. e ≡ Memory) }
{
    let mut reclaimed = Vec::new(alloc);
    for _ in 0..queues {
        if reclaimed.push(Ok(0)).is_err() {
            return Err(Refusal::Memory);
        }
    }
    Ok(reclaimed)
}

// A handle for one thread.
fn own<P: GracePlan + Drop, K: ChainRule, B: Site, D: Deleter, R: Wait>(
    rt: &R,
    domain: &Domain<P, K, B, D>,
    root: &Mutex<Handle<B>>,
) -> Handle<B> {
    domain.split(&mut *root.lock(rt))
}
