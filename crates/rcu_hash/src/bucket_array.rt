//! The buckets of a table.

ghost use Rattle.std.specs.Prelude.{◌≡◌, ◌+◌, ◌%◌, ◌<◌, ◌≤◌, IfErr, vec_len};
ghost use Rattle.rcu_model.specs.declared.refusal.Refusal.TheVariants.{Memory};

use crate::bucket::Bucket;
use crate::directory::Naming;
use crate::labelled::take;
use crossbeam_utils::sync::ShardedLock;
use gp_memb::GracePlan;
use rcu_list::{Deleter, Site};
use rcu_model::Refusal;
use std::alloc::Global;
use std::sync::{Mutex, MutexGuard, Wait};

/// A bucket under the lock of its writers; none while one of them has it, which holds the lock then.
pub(crate) type Place<'d, P, B, D> = Mutex<Option<Bucket<'d, P, B, D>>>;

/// The array of a table, for which writers of buckets share a lock by shards; none before the table is made, and while a
/// growth has it, which holds the lock then.
pub(crate) type ArrayLock<'d, P, B, D> = ShardedLock<Option<BucketArray<'d, P, B, D>>>;

/// The lock of what is to come.
///
/// Refused with `Memory` where memory is.
pub(crate) fn empty_lock<T: Drop>(alloc: Global) -> Result<ShardedLock<Option<T>>, Refusal>
    ensures { IfErr result (λ e. e ≡ Memory) }
{
    match ShardedLock::new(alloc, None) {
        Ok(lock) => Ok(lock),
        Err(_) => Err(Refusal::Memory),
    }
}

/// The buckets that a directory names, in order.
#[derive(Drop)]
pub(crate) struct BucketArray<'d, P: GracePlan, B: Site, D: Drop> {
    pub(crate) naming: Naming,
    pub(crate) buckets: Vec<Place<'d, P, B, D>>,
    pub(crate) ghost many: { (0 < naming.buckets) × (vec_len buckets ≡ naming.buckets) },
    pub(crate) ghost fits: { naming.first + naming.buckets ≤ B.sizes.chains },
}

impl<'d, P: GracePlan + Drop, B: Site, D: Deleter> BucketArray<'d, P, B, D> {
    /// The bucket of a key.
    pub(crate) fn bucket(&self, key: u64) -> usize
        ensures { (result ≡ key % self.now.naming.buckets) × (result < self.now.naming.buckets) }
    {
        (key % self.naming.buckets as u64) as usize
    }

    /// A bucket out of its lock, to which it is to be given back.
    pub(crate) fn take<'t, R: Wait>(
        &'t self,
        rt: &R,
        number: usize,
    ) -> (
        MutexGuard<'t, Option<Bucket<'d, P, B, D>>>,
        Bucket<'d, P, B, D>,
    )
        requires { number < self.now.naming.buckets }
        ensures { (result.1.naming ≡ self.now.naming) × (result.1.chain.number ≡ self.now.naming.first + number) }
    {
        take(rt, &self.buckets[number], (self.naming, number))
    }
}
