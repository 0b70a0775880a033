//! Lookups in a table by its directory, which may change meanwhile.

ghost use Rattle.std.specs.Prelude.{◌≡◌, ◌<◌, ◌≤◌, ℕ, List, IfErr, IfNone, IfOk, IfSome, true, false};
ghost use Rattle.std.specs.List.{FoldsTo};
ghost use Rattle.rcu_model.specs.declared.refusal.Refusal.TheVariants.{NoPlace};
ghost use Rattle.live_log.specs.Tables.{tabled};
ghost use Rattle.rcu_list.specs.live_read.Holding.{log_of};
ghost use Rattle.rcu_list.specs.live_read.Reads.{Looks};
ghost use Rattle.rcu_hash.specs.Directories.{AnswersThrough, WalksThrough, leads_to, AnswersReader, VisitsTable};
ghost use Rattle.rcu_hash.specs.Tables.{bucket_of};

use gp_memb::GracePlan;
use live_log::Tabled;
use rcu_list::{Deleter, Domain, Held, ListView, Section, Site};
use rcu_model::Refusal;
use std::alloc::AllocError;
use std::marker::PhantomData;

/// What readers look the keys of a table up by: the chain of its directory. Any number of threads may have it.
pub struct TableView<B: Site> {
    /// The directory's chain.
    pub directory: usize,
    // How many chains the domain has.
    pub(crate) chains: usize,
    site: PhantomData<B>,
    pub ghost low: { (directory < chains) × (chains ≡ B.sizes.chains) },
}

impl<B: Site> Copy for TableView<B> {}

impl<B: Site> Clone for TableView<B> {
    ghost use Rattle.std.specs.Prelude.{⊤};

    ghost is_clone = { λ x y. y ≡ x };

    ghost is_infallible = { λ _. ⊤ };

    fn clone(&self) -> Result<TableView<B>, AllocError> {
        Ok(*self)
    }
}

/// The chain of a key's bucket by three words of a directory, if they are a directory's and it has one.
fn bucket_by(kind: u64, first: u64, buckets: u64, key: u64, chains: usize) -> Option<usize>
    ensures some { IfSome result (λ chain. (leads_to chains kind first buckets key ≡ true) × (chain ≡ bucket_of first buckets key) × (chain < chains)) }
    ensures none { IfNone result (leads_to chains kind first buckets key ≡ false) }
{
    if kind != 1 {
        return None;
    }
    if buckets == 0 {
        return None;
    }
    let Some(chain) = first.checked_add(key % buckets) else {
        return None;
    };
    if chain >= chains as u64 {
        return None;
    }
    Some(chain as usize)
}

impl<B: Site> TableView<B> {
    ghost use Rattle.std.specs.Prelude.{Some};
    ghost use Rattle.rcu_model.specs.declared.event.ObjectId.{ObjectId};
    ghost use Rattle.live_log.specs.Log.{record_of};
    ghost use Rattle.rcu_list.specs.live_read.Holding.{MayHold, MayHoldIn};
    ghost use Rattle.rcu_list.specs.live_read.Reads.{FindsFirst};
    ghost use Rattle.rcu_list.specs.live_read.Sections.{IsIn};
    ghost use Rattle.live_log.specs.Tables.{kind_of};
    ghost use Rattle.rcu_hash.specs.Directories.{buckets_in, first_in};

    /// Of the table whose directory is in a chain of the domain.
    ///
    /// Refused with `NoPlace` exactly where there is no such chain.
    pub fn of<P: GracePlan + Drop, D: Deleter>(
        domain: &Domain<P, Tabled, B, D>,
        directory: usize,
    ) -> Result<TableView<B>, Refusal>
        ensures ok { IfOk result (λ v. (v.directory ≡ directory) × (directory < B.sizes.chains)) }
        ensures refused { IfErr result (λ e. (e ≡ NoPlace) × (B.sizes.chains ≤ directory)) }
    {
        let chains = domain.chains();
        if directory >= chains {
            return Err(Refusal::NoPlace);
        }
        Ok(TableView {
            directory,
            chains,
            site: PhantomData,
        })
    }

    // Three words of an object: a directory's kind, the first chain that it names, and how many.
    fn words<P: GracePlan>(section: &mut Section<'_, P, Tabled, B>, held: Held) -> (u64, u64, u64)
        requires held { MayHoldIn section.old.reader.now.core held.cell }
        ensures reader { section.new.reader.ghost_name ≡ section.old.reader.ghost_name }
        ensures looked { Looks P.QSBR tabled section.old.reader.now.core section.new.reader.now.core }
        ensures words { (o : ObjectId) → MayHold section.old.reader.now.core o held.cell → (result.0 ≡ kind_of (record_of (log_of section.old.reader.now.core) o)) × (result.1 ≡ first_in (record_of (log_of section.old.reader.now.core) o)) × (result.2 ≡ buckets_in (record_of (log_of section.old.reader.now.core) o)) }
    {
        let kind = section.read_word(held, 3);
        let first = section.read_word(held, 0);
        let buckets = section.read_word(held, 1);
        (kind, first, buckets)
    }

    // The value of the key, by the first object of the directory's chain.
    fn look<P: GracePlan>(
        self,
        section: &mut Section<'_, P, Tabled, B>,
        held: Held,
        key: u64,
    ) -> Option<u64>
        requires inside { IsIn section.old.reader.now.core }
        requires first { (o : ObjectId) × FindsFirst section.old.reader.now.core self.directory (Some o) × MayHold section.old.reader.now.core o held.cell }
        ensures reader { section.new.reader.ghost_name ≡ section.old.reader.ghost_name }
        ensures looked { Looks P.QSBR tabled section.old.reader.now.core section.new.reader.now.core }
        ensures window { AnswersThrough (log_of section.old.reader.now.core) (log_of section.old.reader.now.core) (log_of section.new.reader.now.core) self.chains self.directory key result }
    {
        let (kind, first, buckets) = Self::words(section, held);
        let Some(chain) = bucket_by(kind, first, buckets, key, self.chains) else {
            return None;
        };
        ListView::at(chain).get(section, key)
    }

    /// The value of a key, or none; liburcu's `cds_lfht_lookup`. It is what the table has for the key at some moment
    /// between the call and the return: in a log that begins with all that the reader had seen and heard of. So a key
    /// that is there all along is found, also while its value is replaced, and while the table grows: by the law
    /// `buckets_answer_for_their_table` a lookup that read an earlier directory answers by the map at the moment at
    /// which another took its place, at the latest.
    ///
    /// It reads the directory and the key's bucket alone, and returns, since ranks fall along the bucket's chain.
    pub fn get<P: GracePlan>(self, section: &mut Section<'_, P, Tabled, B>, key: u64) -> Option<u64>
        ensures reader { section.new.reader.ghost_name ≡ section.old.reader.ghost_name }
        ensures looked { Looks P.QSBR tabled section.old.reader.now.core section.new.reader.now.core }
        ensures window { AnswersReader section.old.reader.now.core section.new.reader.now.core B.sizes.chains self.directory key result }
    {
        match section.first(self.directory) {
            Ok(Some(held)) => self.look(section, held, key),
            Ok(None) => None,
            Err(_) => unreachable!(),
        }
    }

    // Goes through the buckets of a directory, by the first object of its chain.
    fn walk<P: GracePlan, F: FnMut(u64, u64)>(
        self,
        section: &mut Section<'_, P, Tabled, B>,
        held: Held,
        visit: &mut F,
    )
        requires inside { IsIn section.old.reader.now.core }
        requires first { (o : ObjectId) × FindsFirst section.old.reader.now.core self.directory (Some o) × MayHold section.old.reader.now.core o held.cell }
        requires callable { F.IsAlwaysCallable visit.old }
        ensures reader { section.new.reader.ghost_name ≡ section.old.reader.ghost_name }
        ensures looked { Looks P.QSBR tabled section.old.reader.now.core section.new.reader.now.core }
        ensures callable { F.IsAlwaysCallable visit.new }
        ensures met { (met : List (ℕ × ℕ)) × WalksThrough (log_of section.old.reader.now.core) (log_of section.old.reader.now.core) (log_of section.new.reader.now.core) self.chains self.directory met × FoldsTo (λ f e g. F.step f e.0 e.1 tt g) visit.old met visit.new }
    {
        let (kind, first, buckets) = Self::words(section, held);
        for number in 0..buckets {
            let Some(chain) = bucket_by(kind, first, buckets, number, self.chains) else {
                return;
            };
            ListView::at(chain).for_each_of(section, buckets, number, visit);
        }
    }

    /// Goes through the table, liburcu's `cds_lfht_for_each`: a call with the key and the value of each entry that it
    /// comes to. A key that is there all along, from the call to the return, is met exactly once, also while its value
    /// is replaced and while the table grows; one that never is there is not met; and each value is one that its key
    /// had meanwhile.
    ///
    /// It returns where each call does, since ranks fall along each chain.
    pub fn for_each<P: GracePlan, F: FnMut(u64, u64)>(
        self,
        section: &mut Section<'_, P, Tabled, B>,
        visit: &mut F,
    )
        requires callable { F.IsAlwaysCallable visit.old }
        ensures reader { section.new.reader.ghost_name ≡ section.old.reader.ghost_name }
        ensures looked { Looks P.QSBR tabled section.old.reader.now.core section.new.reader.now.core }
        ensures callable { F.IsAlwaysCallable visit.new }
        ensures met { VisitsTable section.old.reader.now.core section.new.reader.now.core B.sizes.chains self.directory (λ f e g. F.step f e.0 e.1 tt g) visit.old visit.new }
    {
        match section.first(self.directory) {
            Ok(Some(held)) => self.walk(section, held, visit),
            Ok(None) => (),
            Err(_) => unreachable!(),
        }
    }
}
