//! Lookups in a keyed list.

ghost use Rattle.std.specs.Prelude.{◌≡◌, ◌≤◌, ◌<◌, ◌%◌, ℕ, List, ⊤, IfErr, IfOk, IfSome};
ghost use Rattle.std.specs.List.{FoldsTo};
ghost use Rattle.rcu_model.specs.declared.refusal.Refusal.TheVariants.{NoPlace};
ghost use Rattle.domain.specs.live_read.Holding.{log_of};
ghost use Rattle.domain.specs.live_read.Reads.{Looks};
ghost use Rattle.rcu_list.specs.Maps.{AnswersBetween};
ghost use Rattle.rcu_list.specs.Walks.{GoesThrough, Meets, Visits};

use crate::rule::MapRule;
use domain::{Chain, Deleter, Domain, Held, Section, Site};
use gp_memb::GracePlan;
use rcu_model::Refusal;
use std::alloc::AllocError;
use std::marker::PhantomData;

/// What readers look keys up by: the chain of a keyed list. Any number of threads may have it.
pub struct ListView<B: Site> {
    /// The chain's number.
    pub chain: usize,
    site: PhantomData<B>,
    pub ghost low: { chain < B.sizes.chains },
}

impl<B: Site> Copy for ListView<B> {}

impl<B: Site> Clone for ListView<B> {
    ghost use Rattle.std.specs.Prelude.{⊤};

    ghost is_clone = { λ x y. y ≡ x };

    ghost is_infallible = { λ _. ⊤ };

    fn clone(&self) -> Result<ListView<B>, AllocError> {
        Ok(*self)
    }
}

impl<B: Site> ListView<B> {
    ghost use Rattle.std.specs.Prelude.{◌≢◌, Some, IfNone};
    ghost use Rattle.rcu_model.specs.declared.event.ObjectId.{ObjectId};
    ghost use Rattle.live_log.specs.Keys.{key_of};
    ghost use Rattle.live_log.specs.Log.{record_of};
    ghost use Rattle.domain.specs.live_read.Holding.{MayHold, MayHoldIn};
    ghost use Rattle.domain.specs.live_read.Reads.{FindsFirst};
    ghost use Rattle.rcu_list.specs.Maps.{value_of};

    /// Of the list over a chain.
    pub(crate) fn over<P: GracePlan, K: MapRule, D: Deleter>(
        chain: &Chain<'_, P, K, B, D>,
    ) -> ListView<B>
        ensures { result.chain ≡ chain.now.number }
    {
        ListView {
            chain: chain.number(),
            site: PhantomData,
        }
    }

    /// Of the list over a chain of the domain, whoever writes it.
    ///
    /// Refused with `NoPlace` exactly where there is no such chain.
    pub fn of<P: GracePlan + Drop, K: MapRule, D: Deleter>(
        domain: &Domain<P, K, B, D>,
        chain: usize,
    ) -> Result<ListView<B>, Refusal>
        ensures ok { IfOk result (λ v. (v.chain ≡ chain) × (chain < B.sizes.chains)) }
        ensures refused { IfErr result (λ e. (e ≡ NoPlace) × (B.sizes.chains ≤ chain)) }
    {
        if chain >= domain.chains() {
            return Err(Refusal::NoPlace);
        }
        Ok(ListView::at(chain))
    }

    /// Of the list over this chain, which is one of the domain's, whoever writes it.
    pub fn at(chain: usize) -> ListView<B>
        requires { chain < B.sizes.chains }
        ensures { result.chain ≡ chain }
    {
        ListView {
            chain,
            site: PhantomData,
        }
    }

    // The value of an object, if it has the key: one load, and one more where it has.
    fn value_at<P: GracePlan, K: MapRule>(
        section: &mut Section<'_, P, K, B>,
        held: Held,
        key: u64,
    ) -> Option<u64>
        requires held { MayHoldIn section.old.reader.now.core held.cell }
        ensures reader { section.new.reader.ghost_name ≡ section.old.reader.ghost_name }
        ensures looked { Looks P.QSBR K.allows section.old.reader.now.core section.new.reader.now.core }
        ensures some { IfSome result (λ value. (o : ObjectId) → MayHold section.old.reader.now.core o held.cell → (key_of (record_of (log_of section.old.reader.now.core) o) ≡ key) × (value_of (record_of (log_of section.old.reader.now.core) o) ≡ value)) }
        ensures none { IfNone result ((o : ObjectId) → MayHold section.old.reader.now.core o held.cell → key_of (record_of (log_of section.old.reader.now.core) o) ≢ key) }
    {
        if section.read_word(held, 0) != key {
            return None;
        }
        Some(section.read_word(held, 1))
    }

    // The value of the key, from the first object of the chain on. Ranks fall along the chain, so no more objects come
    // than the first one's rank tells.
    fn search<P: GracePlan, K: MapRule>(
        self,
        section: &mut Section<'_, P, K, B>,
        first: Held,
        key: u64,
    ) -> Option<u64>
        requires first { (o : ObjectId) × FindsFirst section.old.reader.now.core self.chain (Some o) × MayHold section.old.reader.now.core o first.cell }
        ensures reader { section.new.reader.ghost_name ≡ section.old.reader.ghost_name }
        ensures looked { Looks P.QSBR K.allows section.old.reader.now.core section.new.reader.now.core }
        ensures window { AnswersBetween (log_of section.old.reader.now.core) (log_of section.old.reader.now.core) (log_of section.new.reader.now.core) self.chain key result }
    {
        if let Some(value) = Self::value_at(section, first, key) {
            return Some(value);
        }
        let most = section.read_word(first, 2);
        let mut held = first;
        for _passed in 0..most {
            held = section.next(held)?;
            if let Some(value) = Self::value_at(section, held, key) {
                return Some(value);
            }
        }
        None
    }

    /// The value of a key, or none; liburcu's `cds_list_for_each_entry_rcu` up to the key. It is what the list has for
    /// the key at some moment between the call and the return: in a log that begins with all that the reader had seen
    /// and heard of. So a key that is there all along is found, also while its value is replaced.
    ///
    /// It loads the key of each object that it passes, its link, and the rank of the first one. It returns, since ranks
    /// fall along the chain.
    pub fn get<P: GracePlan, K: MapRule>(
        self,
        section: &mut Section<'_, P, K, B>,
        key: u64,
    ) -> Option<u64>
        ensures reader { section.new.reader.ghost_name ≡ section.old.reader.ghost_name }
        ensures looked { Looks P.QSBR K.allows section.old.reader.now.core section.new.reader.now.core }
        ensures window { AnswersBetween (log_of section.old.reader.now.core) section.old.reader.now.core.seat.me.0.heard (log_of section.new.reader.now.core) self.chain key result }
    {
        match section.first(self.chain) {
            Ok(Some(first)) => self.search(section, first, key),
            Ok(None) => None,
            Err(_) => unreachable!(),
        }
    }

    // The key and the value of an object.
    fn entry_at<P: GracePlan, K: MapRule>(
        section: &mut Section<'_, P, K, B>,
        held: Held,
    ) -> (u64, u64)
        requires held { MayHoldIn section.old.reader.now.core held.cell }
        ensures reader { section.new.reader.ghost_name ≡ section.old.reader.ghost_name }
        ensures looked { Looks P.QSBR K.allows section.old.reader.now.core section.new.reader.now.core }
        ensures entry { (o : ObjectId) → MayHold section.old.reader.now.core o held.cell → (key_of (record_of (log_of section.old.reader.now.core) o) ≡ result.0) × (value_of (record_of (log_of section.old.reader.now.core) o) ≡ result.1) }
    {
        let key = section.read_word(held, 0);
        let value = section.read_word(held, 1);
        (key, value)
    }

    // Calls with an entry whose key is of the bucket.
    fn meet<F: FnMut(u64, u64)>(entry: (u64, u64), buckets: u64, bucket: u64, visit: &mut F)
        requires some { 0 < buckets }
        requires callable { F.IsAlwaysCallable visit.old }
        ensures callable { F.IsAlwaysCallable visit.new }
        ensures met { Meets (λ key. key % buckets ≡ bucket) (λ f e g. F.step f e.0 e.1 tt g) entry visit.old visit.new }
    {
        if entry.0 % buckets == bucket {
            visit(entry.0, entry.1);
        }
    }

    // Goes through the objects of the bucket, from the first one of the chain on. Ranks fall along the chain, so no
    // more objects come than the first one's rank tells.
    fn walk<P: GracePlan, K: MapRule, F: FnMut(u64, u64)>(
        self,
        section: &mut Section<'_, P, K, B>,
        first: Held,
        buckets: u64,
        bucket: u64,
        visit: &mut F,
    )
        requires first { (o : ObjectId) × FindsFirst section.old.reader.now.core self.chain (Some o) × MayHold section.old.reader.now.core o first.cell }
        requires some { 0 < buckets }
        requires callable { F.IsAlwaysCallable visit.old }
        ensures reader { section.new.reader.ghost_name ≡ section.old.reader.ghost_name }
        ensures looked { Looks P.QSBR K.allows section.old.reader.now.core section.new.reader.now.core }
        ensures callable { F.IsAlwaysCallable visit.new }
        ensures met { (met : List (ℕ × ℕ)) × GoesThrough (λ key. key % buckets ≡ bucket) (log_of section.old.reader.now.core) (log_of section.old.reader.now.core) (log_of section.new.reader.now.core) self.chain met × FoldsTo (λ f e g. F.step f e.0 e.1 tt g) visit.old met visit.new }
    {
        let entry = Self::entry_at(section, first);
        let rank = section.read_word(first, 2);
        Self::meet(entry, buckets, bucket, visit);
        let mut held = first;
        for _passed in 0..rank {
            let Some(next) = section.next(held) else {
                return;
            };
            held = next;
            let entry = Self::entry_at(section, held);
            Self::meet(entry, buckets, bucket, visit);
        }
    }

    /// Goes through the keys of the list that lie in one bucket of a table, which are those with this remainder by the
    /// number of buckets, as `for_each` does through all.
    pub fn for_each_of<P: GracePlan, K: MapRule, F: FnMut(u64, u64)>(
        self,
        section: &mut Section<'_, P, K, B>,
        buckets: u64,
        bucket: u64,
        visit: &mut F,
    )
        requires some { 0 < buckets }
        requires callable { F.IsAlwaysCallable visit.old }
        ensures reader { section.new.reader.ghost_name ≡ section.old.reader.ghost_name }
        ensures looked { Looks P.QSBR K.allows section.old.reader.now.core section.new.reader.now.core }
        ensures callable { F.IsAlwaysCallable visit.new }
        ensures met { Visits (λ f e g. F.step f e.0 e.1 tt g) visit.old visit.new (λ key. key % buckets ≡ bucket) section.old.reader.now.core section.new.reader.now.core self.chain }
    {
        match section.first(self.chain) {
            Ok(Some(first)) => self.walk(section, first, buckets, bucket, visit),
            Ok(None) => (),
            Err(_) => unreachable!(),
        }
    }

    /// Goes through the list, liburcu's `cds_list_for_each_entry_rcu`: a call with the key and the value of each object
    /// that it comes to. A key that is there all along, from the call to the return, is met exactly once, also while
    /// its value is replaced; one that never is there is not met; and each value is one that its key had meanwhile.
    ///
    /// It loads two words of each object that it passes, its link, and the rank of the first one. It returns where each
    /// call does, since ranks fall along the chain.
    pub fn for_each<P: GracePlan, K: MapRule, F: FnMut(u64, u64)>(
        self,
        section: &mut Section<'_, P, K, B>,
        visit: &mut F,
    )
        requires callable { F.IsAlwaysCallable visit.old }
        ensures reader { section.new.reader.ghost_name ≡ section.old.reader.ghost_name }
        ensures looked { Looks P.QSBR K.allows section.old.reader.now.core section.new.reader.now.core }
        ensures callable { F.IsAlwaysCallable visit.new }
        ensures met { Visits (λ f e g. F.step f e.0 e.1 tt g) visit.old visit.new (λ key. ⊤) section.old.reader.now.core section.new.reader.now.core self.chain }
    {
        self.for_each_of(section, 1, 0, visit);
    }
}
