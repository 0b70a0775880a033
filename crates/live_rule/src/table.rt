//! The table.
ghost use Rattle.std.specs.Prelude.{◌≡◌, ◌<◌, ◌≤◌};
ghost use Rattle.live_rule.specs.Places.{cell_at, head_at, words_of};

use crate::plays::{
    CutChains, CutGrace, CutLentChains, CutObject, CutSpareQueue, JoinAll, Learn, LearnChanges,
    NewSeat, TakeObject, Tell, TellChanges,
};
use crate::rule::{LiveRule, LiveSeat};
use crate::view::{Sizes, View};
use atomic_table::Table;
use gp_memb::GracePlan;
use live_log::{CallbackId, ChainRule};
use std::alloc::{AllocError, Global};

/// The words of one domain, under the rule for grace periods by the plans `P` and chains by the rule `K`.
#[derive(Drop)]
pub struct LiveTable<P: GracePlan, K: ChainRule> {
    /// The words, with the atomic steps on them.
    pub words: Table<CallbackId, View, Sizes, LiveRule<P, K>, Global>,
    /// How many slots for readers it has, at most 256.
    pub slots: usize,
    /// How many chains, at most 4096.
    pub chains: usize,
    /// How many queues, at most 8.
    pub queues: usize,
    /// How many records, at most 65536.
    pub pool: usize,
    // Where the chains and the records begin, kept since each step of a walk goes by it.
    pub(crate) chains_from: usize,
    pub(crate) records_from: usize,
    pub ghost laid: { words.shared.table_id.words ≡ words_of words.shared.key },
    pub ghost sized: { (slots ≡ words.shared.key.slots) × (slots ≤ 256) × (chains ≡ words.shared.key.chains) × (chains ≤ 4096) × (queues ≡ words.shared.key.queues) × (queues ≤ 8) × (pool ≡ words.shared.key.pool) × (pool ≤ 65536) },
    pub ghost placed: { (chains_from ≡ head_at words.shared.key 0) × (records_from ≡ cell_at words.shared.key 0 0) },
}

/// How seats are made, cut and joined. A cut and a join are one load of word 0 each.
impl<P: GracePlan, K: ChainRule> LiveTable<P, K> {
    ghost use Rattle.std.specs.Prelude.{ℕ, ◌+◌, ◌*◌, [], IfOk};
    ghost use Rattle.live_log.specs.Log.{IsLiveRun};
    ghost use Rattle.live_rule.specs.Views.{bare, first_view};
    ghost use Rattle.live_rule.specs.Seats.{IsSpareQueue, but_chains, but_first_queue, but_grace, but_lent, but_object, chains_alone, changed_view, first_queue, grace_alone, heard_changes_view, heard_view, lent_alone, merged, object_alone, taken_view, told_view};
    ghost use Rattle.live_rule.specs.Steps.{Cut, Joined};

    /// A table of these sizes whose words are all 0, and its root seat, which has all rights but those to chains and to
    /// queues' work: these are taken by their hold words. It is refused where memory is.
    pub fn new(
        alloc: Global,
        slots: usize,
        chains: usize,
        queues: usize,
        pool: usize,
    ) -> Result<(LiveTable<P, K>, LiveSeat), AllocError>
        requires { (slots ≤ 256) × (chains ≤ 4096) × (queues ≤ 8) × (pool ≤ 65536) }
        ensures seat { IfOk result (λ made. (made.1.table_id ≡ made.0.words.shared.table_id) × (made.1.me ≡ (first_view made.0.words.shared.key, []))) }
        ensures sizes { IfOk result (λ made. (made.0.slots ≡ slots) × (made.0.chains ≡ chains) × (made.0.queues ≡ queues) × (made.0.pool ≡ pool)) }
    {
        let zeros = vec![in alloc; 0u64; 16 * slots + 8 * chains + 32 * queues + 6 * pool + 96]?;
        let key = Sizes {
            slots: slots as u64,
            chains: chains as u64,
            queues: queues as u64,
            pool: pool as u64,
        };
        let (words, seat) = Table::of_words(alloc, zeros.as_slice(), &key)?;
        Ok((
            LiveTable {
                words,
                slots,
                chains,
                queues,
                pool,
                chains_from: 16 * slots + 72,
                records_from: 16 * slots + 8 * chains + 32 * queues + 88,
            },
            seat,
        ))
    }

    /// A seat that has seen the log of now, and has no right.
    pub fn new_seat(&self) -> LiveSeat
        ensures seat { (result.table_id ≡ self.now.words.shared.table_id) × (result.me ≡ (bare self.now.words.shared.key result.me.0.seen [], [])) }
        ensures run { IsLiveRun P.QSBR K.allows result.me.0.seen }
    {
        self.words.shared.load_new_seat::<NewSeat<P, K>>(0).1
    }

    /// Cuts off a seat that has seen as much and has no right: what the first seat has seen can be told to another by
    /// it.
    pub fn tell(&self, seat: &mut LiveSeat) -> LiveSeat
        requires { seat.old.table_id ≡ self.now.words.shared.table_id }
        ensures { Cut (λ v. v) told_view seat.old seat.new result }
    {
        self.words.shared.split_seat::<Tell>(seat)
    }

    /// As `tell`, and the seat knows the changes that this one made or learned of.
    pub fn tell_changes(&self, seat: &mut LiveSeat) -> LiveSeat
        requires { seat.old.table_id ≡ self.now.words.shared.table_id }
        ensures { Cut (λ v. v) changed_view seat.old seat.new result }
    {
        self.words.shared.split_seat::<TellChanges>(seat)
    }

    /// The seat hears what another has seen, which is spent.
    pub fn learn(&self, seat: &mut LiveSeat, other: LiveSeat)
        requires { (seat.old.table_id ≡ self.now.words.shared.table_id) × (other.table_id ≡ self.now.words.shared.table_id) × (other.me.1 ≡ []) }
        ensures { Joined heard_view seat.old seat.new other.me.0 }
    {
        self.words.shared.join_seat::<Learn>(seat, other)
    }

    /// As `learn`, and the seat takes in the changes that the other knows.
    pub fn learn_changes(&self, seat: &mut LiveSeat, other: LiveSeat)
        requires { (seat.old.table_id ≡ self.now.words.shared.table_id) × (other.table_id ≡ self.now.words.shared.table_id) × (other.me.1 ≡ []) }
        ensures { Joined heard_changes_view seat.old seat.new other.me.0 }
    {
        self.words.shared.join_seat::<LearnChanges>(seat, other)
    }

    /// The seat takes in what it lacks of another's rights, and all its chains behind its own, and hears what that has
    /// seen, which is spent.
    pub fn join(&self, seat: &mut LiveSeat, other: LiveSeat)
        requires { (seat.old.table_id ≡ self.now.words.shared.table_id) × (other.table_id ≡ self.now.words.shared.table_id) × (other.me.1 ≡ []) }
        ensures { Joined merged seat.old seat.new other.me.0 }
    {
        self.words.shared.join_seat::<JoinAll>(seat, other)
    }

    /// The seat takes in another's object, in the place of its own, and hears what that has seen, which is spent.
    pub fn take_object(&self, seat: &mut LiveSeat, other: LiveSeat)
        requires { (seat.old.table_id ≡ self.now.words.shared.table_id) × (other.table_id ≡ self.now.words.shared.table_id) × (other.me.1 ≡ []) }
        ensures { Joined taken_view seat.old seat.new other.me.0 }
    {
        self.words.shared.join_seat::<TakeObject>(seat, other)
    }

    /// Cuts off a seat with the right to the words of grace periods.
    pub fn cut_grace(&self, seat: &mut LiveSeat) -> LiveSeat
        requires { seat.old.table_id ≡ self.now.words.shared.table_id }
        ensures { Cut but_grace grace_alone seat.old seat.new result }
    {
        self.words.shared.split_seat::<CutGrace>(seat)
    }

    /// Cuts off a seat for the first spare queue.
    pub fn cut_spare_queue(&self, seat: &mut LiveSeat) -> LiveSeat
        requires { (seat.old.table_id ≡ self.now.words.shared.table_id) × IsSpareQueue seat.old.me.0 self.now.queues }
        ensures { Cut but_first_queue first_queue seat.old seat.new result }
    {
        self.words.shared.split_seat::<CutSpareQueue>(seat)
    }

    /// Cuts off a seat with the right to the object.
    pub fn cut_object(&self, seat: &mut LiveSeat) -> LiveSeat
        requires { seat.old.table_id ≡ self.now.words.shared.table_id }
        ensures { Cut but_object object_alone seat.old seat.new result }
    {
        self.words.shared.split_seat::<CutObject>(seat)
    }

    /// Cuts off a seat with all rights to chains.
    pub fn cut_chains(&self, seat: &mut LiveSeat) -> LiveSeat
        requires { seat.old.table_id ≡ self.now.words.shared.table_id }
        ensures { Cut but_chains chains_alone seat.old seat.new result }
    {
        self.words.shared.split_seat::<CutChains>(seat)
    }

    /// Cuts off a seat with the rights to all chains but the first: those that were joined to it, in their order.
    pub fn cut_lent_chains(&self, seat: &mut LiveSeat) -> LiveSeat
        requires { seat.old.table_id ≡ self.now.words.shared.table_id }
        ensures { Cut but_lent lent_alone seat.old seat.new result }
    {
        self.words.shared.split_seat::<CutLentChains>(seat)
    }
}
