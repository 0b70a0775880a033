//! A hash table.

ghost use Rattle.std.specs.Prelude.{◌≡◌, ◌⊎◌, ◌+◌, ◌<◌, IfErr, IfOk};
ghost use Rattle.live_log.specs.Log.{Begins};
ghost use Rattle.live_log.specs.Tables.{tabled};
ghost use Rattle.rcu_list.specs.live_read.Hearing.{MakesLast, Stays};
ghost use Rattle.rcu_list.specs.live_read.Reads.{Looks};
ghost use Rattle.rcu_hash.specs.Directories.{AnswersReader, VisitsTable};
ghost use Rattle.rcu_hash.specs.Freeing.{KeepsRecords};
ghost use Rattle.rcu_hash.specs.Refusing.{RefusesInsertionThrough, RefusesRemovalThrough, RefusesReplacementThrough};
ghost use Rattle.rcu_hash.specs.Tables.{bucket_of, fits};
ghost use Rattle.rcu_hash.specs.Calls.{IsInsertedThrough, IsMade, IsNotMade, IsRemovedThrough, IsReplacedThrough};
ghost use Rattle.rcu_list.specs.Calls.{TakesOneRecord};

use crate::bucket::Bucket;
use crate::bucket_array::{ArrayLock, BucketArray};
use crate::directory::DirectoryLock;
use crate::making::{Rooms, direct, hold_table, into_buckets, reserve_all, reserve_record};
use crate::old_table::OldTable;
use crate::view::TableView;
use gp_memb::GracePlan;
use live_log::Tabled;
use rcu_list::{Callback, Caller, Deleter, Domain, Section, Site, Ticket};
use rcu_model::Refusal;
use std::alloc::Global;
use std::sync::{Mutex, MutexGuard, Wait};

/// The most buckets that a table has.
pub(crate) const MOST_BUCKETS: usize = 4096;

/// Whether a table whose directory is in this chain may have this many buckets, over the chains from the first one on.
pub(crate) fn fits(chains: usize, directory: usize, first: usize, buckets: usize) -> bool
    ensures { result ≡ fits chains directory first buckets }
{
    if buckets == 0 || buckets > MOST_BUCKETS || directory >= chains {
        return false;
    }
    if first > chains || chains - first < buckets {
        return false;
    }
    directory < first || directory >= first + buckets
}

/// A map from keys to values over the chains of a domain; liburcu's `cds_lfht`. One chain has a directory, which names
/// as many chains that follow one another as there are buckets. A key lies in the bucket of its number modulo the
/// number of buckets. A writer takes its bucket's lock and no other; lookups take none. `grow` puts another directory in
/// the place of this one while the table is read. Dropping the table gives its chains back with their keys and notes, so
/// that no other table or list can be made over them.
#[derive(Drop)]
pub struct RcuHash<'d, P: GracePlan, B: Site, D: Drop = Callback> {
    /// The chain of its directory.
    pub directory: usize,
    pub(crate) domain: &'d Domain<P, Tabled, B, D>,
    view: TableView<B>,
    pub(crate) lock: DirectoryLock<'d, P, B, D>,
    pub(crate) array: ArrayLock<'d, P, B, D>,
    pub(crate) left: Mutex<Option<OldTable<'d, P, B, D>>>,
    pub(crate) ghost at: { view.directory ≡ directory },
}

impl<'d, P: GracePlan + Drop, B: Site, D: Deleter> RcuHash<'d, P, B, D> {
    /// A table with no keys: one record, which becomes the directory, and as many chains as it has buckets, from the
    /// first one on. The caller hears of the log in which the directory came, after the notes of the buckets: no key
    /// has a value in it.
    ///
    /// Refused with `BadConfig` where the number of buckets is not 1 to 4,096, a chain is not there or the directory's
    /// chain is one of the buckets', or a chain had a writer, linked an object or had a note other than 0 during the
    /// call. Else it is refused with `Memory` where memory is, or with `PoolFull` where there is no record. It waits for
    /// nobody, but tries again where another thread takes and frees a record that it found free.
    pub fn new<W: Caller<B>, R: Wait>(
        rt: &R,
        alloc: Global,
        domain: &'d Domain<P, Tabled, B, D>,
        caller: &mut W,
        directory: usize,
        first: usize,
        buckets: usize,
    ) -> Result<RcuHash<'d, P, B, D>, Refusal>
        ensures made { IfOk result (λ t. (t.directory ≡ directory) × IsMade W.Caller P.QSBR B.sizes caller.old caller.new directory first buckets) }
        ensures later { Begins (W.heard caller.old) (W.heard caller.new) }
        ensures refused { IfErr result (λ e. IsNotMade W.Caller P.QSBR B.sizes caller.old caller.new directory first buckets e) }
        ensures looks { KeepsRecords W.Caller B.sizes caller.old caller.new result (λ _. 1) }
        ensures stays { IfErr result (λ _. Stays W.Caller caller.old caller.new) }
        ensures same { W.loads caller.new ≡ W.loads caller.old }
    {
        if !fits(domain.chains(), directory, first, buckets) {
            return Err(Refusal::BadConfig);
        }
        let view = TableView::of(domain, directory)?;
        let Rooms {
            chains,
            noted,
            back,
            places,
            array,
        } = match Rooms::new(alloc, buckets) {
            Ok(rooms) => rooms,
            Err(refusal) => {
                hold_table(domain, caller, Vec::new(alloc), directory, first, buckets)?;
                return Err(refusal);
            }
        };
        let (own, chains) = hold_table(domain, caller, chains, directory, first, buckets)?;
        let (owned, lents) = reserve_record(rt, alloc, domain, caller, first, buckets)?;
        let (owned, chains) = reserve_all(chains, noted, caller, owned);
        let (writer, chains) = direct(own, chains, lents, back, caller, owned, first);
        let naming = writer.naming;
        let buckets = into_buckets(chains, places, naming);
        let left = OldTable {
            naming,
            unlinked: None,
            chains: Vec::new(alloc),
            handle: domain.split(caller),
        };
        *array.write(rt) = Some(BucketArray { naming, buckets });
        Ok(RcuHash {
            directory,
            domain,
            view,
            lock: DirectoryLock {
                writer: Mutex::new(Some(writer)),
            },
            array,
            left: Mutex::new(Some(left)),
        })
    }

    /// What readers look its keys up by.
    pub fn view(&self) -> TableView<B>
        ensures { result.directory ≡ self.now.directory }
    {
        self.view
    }

    /// The bucket of a key in the table's array, out of its lock, to which it is to be given back.
    fn take<'t, R: Wait>(
        &self,
        rt: &R,
        array: &'t Option<BucketArray<'d, P, B, D>>,
        key: u64,
    ) -> (
        MutexGuard<'t, Option<Bucket<'d, P, B, D>>>,
        Bucket<'d, P, B, D>,
    )
        ensures directory { result.1.naming.directory ≡ self.now.directory }
        ensures key { bucket_of result.1.naming.first result.1.naming.buckets key ≡ result.1.chain.number }
    {
        for _ in rt.forever() {
            if let Some(array) = array {
                let (mut place, bucket) = array.take(rt, array.bucket(key));
                if bucket.naming.directory == self.directory {
                    return (place, bucket);
                }
                *place = Some(bucket);
            }
        }
        unreachable!()
    }

    /// The value of a key, or none; liburcu's `cds_lfht_lookup`: as `TableView::get`.
    pub fn get(&self, section: &mut Section<'_, P, Tabled, B>, key: u64) -> Option<u64>
        ensures reader { section.new.reader.ghost_name ≡ section.old.reader.ghost_name }
        ensures looked { Looks P.QSBR tabled section.old.reader.now.core section.new.reader.now.core }
        ensures window { AnswersReader section.old.reader.now.core section.new.reader.now.core B.sizes.chains self.now.directory key result }
    {
        self.view.get(section, key)
    }

    /// Gives a key a value that had none: one push and no other change, liburcu's `cds_lfht_add_unique`. It comes after
    /// all that the caller had seen and heard of, and the caller hears of it.
    ///
    /// Refused with `Exists` only where the key had a value in some log of the call, else with `PoolFull` where its
    /// bucket's ranks are used up, or as `alloc`; then it made no change. It waits for the locks of the table alone,
    /// but tries again where another thread takes and frees a record that it found free.
    pub fn insert<W: Caller<B>, R: Wait>(
        &self,
        rt: &R,
        caller: &mut W,
        key: u64,
        value: u64,
    ) -> Result<(), Refusal>
        ensures inserted { IfOk result (λ _. IsInsertedThrough W.Caller P.QSBR B.sizes caller.old caller.new self.now.directory key value) }
        ensures changes { IfOk result (λ _. MakesLast W.Caller caller.old caller.new (W.heard caller.new)) }
        ensures same { IfOk result (λ _. TakesOneRecord W.Caller caller.old caller.new B.sizes) }
        ensures refused { IfErr result (λ e. RefusesInsertionThrough W.Caller P.QSBR tabled B.sizes caller.old caller.new e self.now.directory key) }
    {
        let array = self.array.read(rt, caller.shard());
        let (mut place, mut bucket) = self.take(rt, &array, key);
        let answer = bucket.insert(rt, caller, key, value);
        *place = Some(bucket);
        answer
    }

    /// Gives a key that has a value this one: one replacement in its place and no other change, liburcu's
    /// `cds_lfht_replace`, so that no reader misses the key. The old record is retired with the callback, `call_rcu`.
    /// Both come after all that the caller had seen and heard of, and the caller hears of them.
    ///
    /// Refused with `Missing` only where the key had no value in some log of the call, else as `alloc`, else as
    /// `retire`; then it made no change, the callback comes back, and the new record is back in the pool. It waits for
    /// the locks of the table and of the queue, and tries again where another thread takes and frees a record that it
    /// found free.
    pub fn replace<W: Caller<B>, R: Wait>(
        &self,
        rt: &R,
        caller: &mut W,
        key: u64,
        value: u64,
        callback: D,
    ) -> Result<Ticket, (Refusal, D)>
        ensures replaced { IfOk result (λ t. IsReplacedThrough W.Caller P.QSBR B.sizes caller.old caller.new self.now.directory key value t.0 (D.row.coded.code callback)) }
        ensures same { IfOk result (λ _. TakesOneRecord W.Caller caller.old caller.new B.sizes) }
        ensures refused { IfErr result (λ e. (e.1 ≡ callback) × RefusesReplacementThrough W.Caller P.QSBR tabled B.sizes caller.old caller.new e.0 self.now.directory key) }
    {
        let array = self.array.read(rt, caller.shard());
        let (mut place, mut bucket) = self.take(rt, &array, key);
        let answer = bucket.replace(rt, caller, key, value, callback);
        *place = Some(bucket);
        answer
    }

    /// Takes a key that has a value out of the map: one cut and no other change, liburcu's `cds_lfht_del`. Its record
    /// is retired with the callback, `call_rcu`. Both come after all that the caller had seen and heard of, and the
    /// caller hears of them.
    ///
    /// Refused with `Missing` only where the key had no value in some log of the call, else as `retire`; then it made
    /// no change, and the callback comes back. It waits for the locks of the table and of the queue alone.
    pub fn remove<W: Caller<B>, R: Wait>(
        &self,
        rt: &R,
        caller: &mut W,
        key: u64,
        callback: D,
    ) -> Result<Ticket, (Refusal, D)>
        ensures removed { IfOk result (λ t. IsRemovedThrough W.Caller P.QSBR B.sizes caller.old caller.new self.now.directory key t.0 (D.row.coded.code callback)) }
        ensures same { IfOk result (λ _. (W.looks caller.new ≡ W.looks caller.old) × (W.loads caller.new ≡ W.loads caller.old)) }
        ensures refused { IfErr result (λ e. (e.1 ≡ callback) × RefusesRemovalThrough W.Caller P.QSBR tabled B.sizes caller.old caller.new e.0 self.now.directory key) }
    {
        let array = self.array.read(rt, caller.shard());
        let (mut place, mut bucket) = self.take(rt, &array, key);
        let answer = bucket.remove(rt, caller, key, callback);
        *place = Some(bucket);
        answer
    }

    /// Goes through the table, liburcu's `cds_lfht_for_each`: as `TableView::for_each`.
    pub fn for_each<F: FnMut(u64, u64)>(
        &self,
        section: &mut Section<'_, P, Tabled, B>,
        visit: &mut F,
    )
        requires callable { F.IsAlwaysCallable visit.old }
        ensures reader { section.new.reader.ghost_name ≡ section.old.reader.ghost_name }
        ensures looked { Looks P.QSBR tabled section.old.reader.now.core section.new.reader.now.core }
        ensures callable { F.IsAlwaysCallable visit.new }
        ensures met { VisitsTable section.old.reader.now.core section.new.reader.now.core B.sizes.chains self.now.directory (λ f e g. F.step f e.0 e.1 tt g) visit.old visit.new }
    {
        self.view.for_each(section, visit);
    }
}
