//! Who makes a call, and keeps what it has seen of the log.

ghost use Rattle.std.specs.Prelude.{◌≡◌, ◌<◌, ◌≤◌, []};

use crate::reader::Reader;
use crate::searches::Searches;
use crate::site::Site;
use gp_memb::GracePlan;
use live_words::{ChainRule, LiveSeat, LiveTable};
use std::marker::PhantomData;

/// Who makes a call, and keeps what it has seen of the log: a handle, or a reader.
pub trait Caller<B: Site> {
    ghost use Rattle.std.specs.Prelude.{◌≡◌, ◌<◌, ◌≤◌, List, [], ◌++◌};
    ghost use Rattle.atomic_table.specs.Seated.{TableId};
    ghost use Rattle.live_log.specs.Log.{Log};
    ghost use Rattle.live_words.specs.live_rule.Views.{bare};
    ghost use Rattle.live_words.specs.live_rule.declared.view.Look.{Look};
    ghost use Rattle.live_words.specs.live_rule.declared.view.Sizes.{Sizes};
    ghost use Rattle.live_read.specs.Standings.{KeepsAll, Standing, TakesIn};

    /// The log that it has seen.
    ghost seen: { Self → Log };

    /// The log that it has heard of, which its next step sees.
    ghost heard: { Self → Log };

    /// The logs at the loads of the sequence number that were made for it, the last one first.
    ghost loads: { Self → List Log };

    /// The words that were loaded and stored for it, and of which the log says nothing, the last one first. Words that a
    /// reader or a grace period loads are not kept.
    ghost looks: { Self → List Look };

    /// The pushes, replacements, cuts and notes that were made for it, the last one first.
    ghost changes: { Self → Log };

    /// How it stands beside that: of a reader its slot, its word, its sections so far, and what it has open.
    ghost standing: { Self → Standing };

    /// Of a reader, that its section of the log is open in what it has seen. It says nothing of a handle.
    ghost is_in: { Self → Type 0 };

    /// The searches of another caller, which begin elsewhere.
    fn split_searches(&mut self) -> Searches
        ensures same { KeepsAll seen heard loads looks standing changes self.old self.new }
        ensures inside { is_in self.old → is_in self.new };

    /// At which record of a pool of this size its next search for a free one begins. A place that is the size itself
    /// names no record. Where records are free, searches of two threads seldom meet.
    fn search_from(&mut self, pool: usize) -> usize
        ensures place { result ≤ pool }
        ensures same { KeepsAll seen heard loads looks standing changes self.old self.new }
        ensures inside { is_in self.old → is_in self.new };

    /// Its search took this record. Most often the next one goes on behind it.
    fn search_behind(&mut self, cell: usize)
        ensures same { KeepsAll seen heard loads looks standing changes self.old self.new }
        ensures inside { is_in self.old → is_in self.new };

    /// Which of eight shards of a lock it reads by, so that two threads seldom read by one; crossbeam goes by a thread's
    /// index. It stays. Eight callers that one caller made in turn have different ones.
    fn shard(&self) -> usize
        ensures { result < 8 };

    /// A seat that has seen and heard as much, and has no right and has found nothing.
    fn tell<P: GracePlan, K: ChainRule>(&mut self, table: &LiveTable<P, K>) -> LiveSeat
        requires { table.now.words.shared.table_id ≡ B.table }
        ensures seat { (result.table_id ≡ B.table) × (result.me ≡ (bare B.sizes (seen self.old) (heard self.old), [])) }
        ensures same { KeepsAll seen heard loads looks standing changes self.old self.new }
        ensures inside { is_in self.old → is_in self.new };

    /// It hears what the seat has seen, in the place of what it had heard of, and takes in the seat's loads and looks.
    /// The seat is spent.
    fn learn<P: GracePlan, K: ChainRule>(&mut self, table: &LiveTable<P, K>, other: LiveSeat)
        requires table { (table.now.words.shared.table_id ≡ B.table) × (other.table_id ≡ B.table) × (other.me.1 ≡ []) }
        ensures heard { heard self.new ≡ other.me.0.seen }
        ensures loads { (loads self.new ≡ other.me.0.loads ++ loads self.old) × (looks self.new ≡ other.me.0.looks ++ looks self.old) }
        ensures same { (seen self.new ≡ seen self.old) × (standing self.new ≡ standing self.old) × (changes self.new ≡ changes self.old) }
        ensures inside { is_in self.old → is_in self.new };

    /// As `learn`, and the changes that the seat knows were made for it.
    fn learn_changes<P: GracePlan, K: ChainRule>(
        &mut self,
        table: &LiveTable<P, K>,
        other: LiveSeat,
    )
        requires table { (table.now.words.shared.table_id ≡ B.table) × (other.table_id ≡ B.table) × (other.me.1 ≡ []) }
        ensures heard { heard self.new ≡ other.me.0.seen }
        ensures loads { TakesIn loads looks changes other.me.0 self.old self.new }
        ensures same { (seen self.new ≡ seen self.old) × (standing self.new ≡ standing self.old) }
        ensures inside { is_in self.old → is_in self.new };
}

/// What a thread that has no reader has seen of the log: its seat, which has no bytes. It keeps where its searches for a
/// free record begin, and its shard.
#[derive(Drop)]
pub struct Handle<B: Site> {
    pub(crate) seat: LiveSeat,
    pub(crate) searches: Searches,
    pub(crate) site: PhantomData<B>,
    pub ghost seated: { (seat.table_id ≡ B.table) × (seat.me.0.sizes ≡ B.sizes) × (seat.me.1 ≡ []) },
}

impl<B: Site> Handle<B> {
    ghost use Rattle.live_read.specs.Hearing.{IsAsBefore};

    /// A handle that has seen what the seat has.
    pub fn new(seat: LiveSeat) -> Handle<B>
        requires { (seat.table_id ≡ B.table) × (seat.me.0.sizes ≡ B.sizes) × (seat.me.1 ≡ []) }
        ensures { result.seat ≡ seat }
    {
        Handle {
            seat,
            searches: Searches::new(),
            site: PhantomData,
        }
    }

    /// A handle that has seen and heard as much as the caller, for another thread.
    pub fn split<W: Caller<B>, P: GracePlan, K: ChainRule>(
        table: &LiveTable<P, K>,
        caller: &mut W,
    ) -> Handle<B>
        requires { table.now.words.shared.table_id ≡ B.table }
        ensures told { (result.seat.me.0.seen ≡ W.seen caller.old) × (result.seat.me.0.heard ≡ W.heard caller.old) }
        ensures same { IsAsBefore W.Caller caller.old caller.new }
    {
        let searches = caller.split_searches();
        Handle {
            seat: caller.tell(table),
            searches,
            site: PhantomData,
        }
    }
}

impl<B: Site> Caller<B> for Handle<B> {
    ghost use Rattle.std.specs.Prelude.{⊤};
    ghost use Rattle.live_read.specs.Standings.{nowhere};

    ghost seen = { λ r. r.seat.me.0.seen };

    ghost heard = { λ r. r.seat.me.0.heard };

    ghost loads = { λ r. r.seat.me.0.loads };

    ghost looks = { λ r. r.seat.me.0.looks };

    ghost changes = { λ r. r.seat.me.0.changes };

    ghost standing = { λ r. nowhere };

    ghost is_in = { λ r. ⊤ };

    fn split_searches(&mut self) -> Searches {
        self.searches.split()
    }

    fn search_from(&mut self, pool: usize) -> usize {
        self.searches.start(pool)
    }

    fn search_behind(&mut self, cell: usize) {
        self.searches.took(cell);
    }

    fn shard(&self) -> usize {
        self.searches.shard()
    }

    fn tell<P: GracePlan, K: ChainRule>(&mut self, table: &LiveTable<P, K>) -> LiveSeat {
        table.tell(&mut self.seat)
    }

    fn learn<P: GracePlan, K: ChainRule>(&mut self, table: &LiveTable<P, K>, other: LiveSeat) {
        table.learn(&mut self.seat, other);
    }

    fn learn_changes<P: GracePlan, K: ChainRule>(
        &mut self,
        table: &LiveTable<P, K>,
        other: LiveSeat,
    ) {
        table.learn_changes(&mut self.seat, other);
    }
}

impl<P: GracePlan, K: ChainRule, B: Site> Caller<B> for Reader<P, K, B> {
    ghost use Rattle.live_read.specs.Sections.{IsIn};

    ghost seen = { λ r. r.core.seat.me.0.seen };

    ghost heard = { λ r. r.core.seat.me.0.heard };

    ghost loads = { λ r. r.core.seat.me.0.loads };

    ghost looks = { λ r. r.core.seat.me.0.looks };

    ghost changes = { λ r. r.core.seat.me.0.changes };

    ghost use Rattle.live_words.specs.live_rule.Rights.{count_in};

    ghost is_in = { λ r. IsIn r.core };

    ghost standing = { λ r. record { slot = r.core.slot; word = r.core.word; ordinal = count_in r.core.seat.me.0.slot; depth = r.core.depth; locks = r.core.locks } };

    fn split_searches(&mut self) -> Searches {
        self.searches.split()
    }

    fn search_from(&mut self, pool: usize) -> usize {
        self.searches.start(pool)
    }

    fn search_behind(&mut self, cell: usize) {
        self.searches.took(cell);
    }

    fn shard(&self) -> usize {
        self.searches.shard()
    }

    fn tell<Q: GracePlan, L: ChainRule>(&mut self, table: &LiveTable<Q, L>) -> LiveSeat {
        table.tell(&mut self.core.seat)
    }

    fn learn<Q: GracePlan, L: ChainRule>(&mut self, table: &LiveTable<Q, L>, other: LiveSeat) {
        table.learn(&mut self.core.seat, other);
    }

    fn learn_changes<Q: GracePlan, L: ChainRule>(
        &mut self,
        table: &LiveTable<Q, L>,
        other: LiveSeat,
    ) {
        table.learn_changes(&mut self.core.seat, other);
    }
}
