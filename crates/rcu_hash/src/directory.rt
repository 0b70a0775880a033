//! The writer of a table's directory, and its lock.

ghost use Rattle.std.specs.Prelude.{ℕ, ◌≡◌, ◌≢◌, ◌+◌, ◌^◌, ◌<◌, ◌≤◌, ◌∷◌, [], true};
ghost use Rattle.live_log.specs.Log.{Begins, IsLiveRun, chain_note, record_of};
ghost use Rattle.live_log.specs.Tables.{tabled};
ghost use Rattle.rcu_list.specs.live_rule.Seats.{lent_chains};
ghost use Rattle.rcu_list.specs.live_rule.Rights.{own_in};
ghost use Rattle.rcu_list.specs.live_read.Hearing.{IsAfter, OnlyHears};
ghost use Rattle.rcu_list.specs.live_write.Chains.{list_in};
ghost use Rattle.rcu_hash.specs.Buckets.{HasRight};
ghost use Rattle.rcu_hash.specs.Naming.{words_by};
ghost use Rattle.rcu_hash.specs.Tables.{IsAmong};
ghost use Rattle.rcu_hash.specs.Tidying.{IsLeft, IsLinked};
ghost use Rattle.rcu_hash.specs.Writers.{HasKeysIn, HasNote, IsOutside};

use crate::labelled::{Labelled, take};
use gp_memb::GracePlan;
use live_log::Tabled;
use rcu_list::{Caller, Chain, Deleter, Lent, Site};
use rcu_model::ObjectId;
use std::sync::{Mutex, MutexGuard, Wait};

/// Which directory it is: its chain, its object, and the chains that it names.
#[derive(Clone, Copy, Drop)]
pub(crate) struct Naming {
    /// The chain of the directory.
    pub(crate) directory: usize,
    /// Its object.
    pub(crate) object: ObjectId,
    /// The chain of the first bucket.
    pub(crate) first: usize,
    /// How many buckets there are.
    pub(crate) buckets: usize,
}

impl Naming {
    /// Whether it is the same one.
    pub(crate) fn is(self, other: Naming) -> bool
        ensures { result ≡ true → self ≡ other }
    {
        self.directory == other.directory
            && self.object == other.object
            && self.first == other.first
            && self.buckets == other.buckets
    }
}

/// The writer of a directory's chain, which links that one record.
#[derive(Drop)]
pub(crate) struct Directory<'d, P: GracePlan, B: Site, D: Drop> {
    pub(crate) chain: Chain<'d, P, Tabled, B, D>,
    pub(crate) naming: Naming,
    pub(crate) ghost own: { (chain.number ≡ naming.directory) × (lent_chains chain.seat.me.0.chains ≡ []) × ((own_in chain.seat.me.0.chains).note ≡ 0) },
    pub(crate) ghost alone: { list_in chain.seat.me.0 ≡ naming.object ∷ [] },
    pub(crate) ghost words: { (record_of chain.seat.me.0.seen naming.object).1 ≡ words_by naming.first naming.buckets },
    pub(crate) ghost fits: { (0 < naming.buckets) × (naming.first + naming.buckets ≤ B.sizes.chains) × (naming.directory + 1 < 2 ^ 63) },
}

/// The same while another writer has the right to the chain.
pub(crate) struct LentDirectory<'d, P: GracePlan, B: Site, D: Drop> {
    pub(crate) lent: Lent<'d, P, Tabled, B, D>,
    pub(crate) naming: Naming,
    pub(crate) ghost own: { (lent.number ≡ naming.directory) × (lent.linked ≡ 1) },
    pub(crate) ghost fits: { (0 < naming.buckets) × (naming.first + naming.buckets ≤ B.sizes.chains) × (naming.directory + 1 < 2 ^ 63) },
}

impl<'d, P: GracePlan, B: Site, D: Deleter> LentDirectory<'d, P, B, D> {
    /// Takes its right back from a bucket's writer, which knows its own chain alone then. It never waits.
    pub(crate) fn take_back(self, from: &mut Chain<'_, P, Tabled, B, D>) -> Directory<'d, P, B, D>
        requires { HasRight self.naming from.old.seat.me.0 }
        ensures naming { (result.naming ≡ self.entry.naming) × (result.chain.seat.me.0.chains ≡ lent_chains from.old.seat.me.0.chains) }
        ensures from { (from.new.seat.me.0.chains ≡ own_in from.old.seat.me.0.chains ∷ []) × (from.new.seat.me.0.seen ≡ from.old.seat.me.0.seen) × (from.new.number ≡ from.old.number) × (from.new.home.now ≡ from.old.home.now) }
        ensures later { Begins from.old.seat.me.0.seen result.chain.seat.me.0.seen × IsLiveRun P.QSBR tabled result.chain.seat.me.0.seen }
    {
        let LentDirectory { lent, naming } = self;
        Directory {
            chain: lent.take_back(from),
            naming,
        }
    }
}

impl<'d, P: GracePlan + Drop, B: Site, D: Deleter> Directory<'d, P, B, D> {
    /// The caller hears of a log in which it is linked, and the chains that it names have notes.
    pub(crate) fn hear<W: Caller<B>>(&mut self, caller: &mut W)
        ensures linked { IsLinked self.old.naming.directory self.old.naming.object (W.heard caller.new) }
        ensures noted { (c : ℕ) → IsAmong self.old.naming.first self.old.naming.buckets c → chain_note c (W.heard caller.new) ≢ 0 }
        ensures heard { IsAfter P.QSBR tabled (W.seen caller.old) (W.heard caller.old) (W.heard caller.new) }
        ensures told { Begins self.old.chain.seat.me.0.seen (W.heard caller.new) × (W.heard caller.new ≡ self.new.chain.seat.me.0.seen) }
        ensures same { OnlyHears W.Caller caller.old caller.new × (self.new.naming ≡ self.old.naming) }
    {
        self.chain.hear(caller);
    }
}

impl<P: GracePlan, B: Site, D: Drop> Labelled<Naming> for Directory<'_, P, B, D> {
    ghost label = { λ directory. directory.naming };

    fn has_label(&self, wanted: Naming) -> bool {
        self.naming.is(wanted)
    }
}

/// A directory's writer under its lock; none while another thread has lent it, which holds the lock then.
#[derive(Drop)]
pub(crate) struct DirectoryLock<'d, P: GracePlan, B: Site, D: Drop> {
    pub(crate) writer: Mutex<Option<Directory<'d, P, B, D>>>,
}

impl<'d, P: GracePlan + Drop, B: Site, D: Deleter> DirectoryLock<'d, P, B, D> {
    /// Lends its right to the writer of a chain that an earlier directory named, for one step, while the lock is held. It
    /// waits for the lock.
    pub(crate) fn lend<'t, R: Wait>(
        &'t self,
        rt: &R,
        naming: Naming,
        to: &mut Chain<'_, P, Tabled, B, D>,
    ) -> (
        MutexGuard<'t, Option<Directory<'d, P, B, D>>>,
        LentDirectory<'d, P, B, D>,
    )
        requires { IsLeft naming.directory naming.first naming.buckets to.old.seat.me.0 }
        ensures naming { result.1.naming ≡ naming }
        ensures fits { (0 < naming.buckets) × (naming.first + naming.buckets ≤ B.sizes.chains) × (naming.directory + 1 < 2 ^ 63) }
        ensures right { HasRight naming to.new.seat.me.0 }
        ensures left { HasKeysIn to.new.seat.me.0 × HasNote (naming.directory + 1) to.new.seat.me.0 × ∥ IsOutside naming.first naming.buckets to.new.seat.me.0 ∥₁ }
        ensures own { (own_in to.new.seat.me.0.chains ≡ own_in to.old.seat.me.0.chains) × (to.new.number ≡ to.old.number) × (to.new.home.now ≡ to.old.home.now) }
        ensures later { Begins to.old.seat.me.0.seen to.new.seat.me.0.seen × IsLiveRun P.QSBR tabled to.new.seat.me.0.seen }
    {
        let (place, directory) = take(rt, &self.writer, naming);
        let Directory { chain, naming: its } = directory;
        let lent = chain.lend(to);
        (place, LentDirectory { lent, naming: its })
    }

    /// The caller hears of a log in which this directory is linked, and the chains that it names have notes. It waits for
    /// the directory's lock.
    pub(crate) fn hear<W: Caller<B>, R: Wait>(&self, rt: &R, naming: Naming, caller: &mut W)
        ensures linked { IsLinked naming.directory naming.object (W.heard caller.new) }
        ensures noted { (c : ℕ) → IsAmong naming.first naming.buckets c → chain_note c (W.heard caller.new) ≢ 0 }
        ensures heard { IsAfter P.QSBR tabled (W.seen caller.old) (W.heard caller.old) (W.heard caller.new) }
        ensures same { OnlyHears W.Caller caller.old caller.new }
    {
        let (mut place, mut directory) = take(rt, &self.writer, naming);
        directory.hear(caller);
        *place = Some(directory);
    }
}
