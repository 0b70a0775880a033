//! A chain's writer that lends its right to another chain's, so that what the rule of chains asks of both chains is
//! known where the other one publishes.

ghost use Rattle.std.specs.Prelude.{◌≡◌, ◌<◌, ◌∷◌, ◌++◌, [], length};
ghost use Rattle.live_log.specs.Log.{Begins, IsLiveRun};
ghost use Rattle.live_words.specs.live_rule.Seats.{lent_chains};
ghost use Rattle.live_words.specs.live_rule.Rights.{AreAsKnown, IsListed, IsWriter, own_in};
ghost use Rattle.live_words.specs.live_rule.Steps.{Keeps};
ghost use Rattle.live_write.specs.Calls.{GivesOut};
ghost use Rattle.live_write.specs.Chains.{list_in};

use crate::chain::Chain;
use gp_memb::GracePlan;
use live_read::Site;
use live_words::{ChainRule, LiveSeat, LiveTable, load_note};
use std::marker::PhantomData;

/// What is left of a chain's writer while another one has its right. It cannot be dropped: `take_back` makes a writer
/// of it again.
pub struct Lent<'d, P: GracePlan, K: ChainRule, B: Site, H> {
    /// What the chain was taken of.
    pub home: &'d H,
    pub(crate) table: &'d LiveTable<P, K>,
    /// The chain's number.
    pub number: usize,
    /// How many objects the chain links.
    pub linked: usize,
    pub(crate) site: PhantomData<B>,
    pub(crate) ghost of_site: { (table.now.words.shared.table_id ≡ B.table) × (table.now.words.shared.key ≡ B.sizes) },
    pub(crate) ghost low: { number < table.now.chains },
}

/// The seat, which has a chain of its own, takes in the right to another's, behind all that it has.
pub(crate) fn take_right<P: GracePlan, K: ChainRule>(
    table: &LiveTable<P, K>,
    seat: &mut LiveSeat,
    chain: usize,
    other: LiveSeat,
)
    requires seat { (seat.old.table_id ≡ table.now.words.shared.table_id) × (seat.old.me.0.sizes ≡ table.now.words.shared.key) × (chain < table.now.chains) × IsWriter seat.old.me.0 }
    requires other { (other.table_id ≡ table.now.words.shared.table_id) × (other.me.1 ≡ []) }
    ensures seat { Keeps seat.old seat.new × (seat.new.me.1 ≡ seat.old.me.1) × (seat.new.me.0.sizes ≡ seat.old.me.0.sizes) × IsListed seat.new.me.0 }
    ensures chains { seat.new.me.0.chains ≡ seat.old.me.0.chains ++ other.me.0.chains }
    ensures known { AreAsKnown seat.new.me.0.seen seat.new.me.0.chains }
    ensures later { Begins seat.old.me.0.seen seat.new.me.0.seen × Begins other.me.0.seen seat.new.me.0.seen × IsLiveRun P.QSBR K.allows seat.new.me.0.seen }
{
    load_note(table, seat, chain);
    table.join(seat, other);
    load_note(table, seat, chain);
}

/// The seat with the right to the first chain that was taken in, which it cuts off.
fn cut_right<P: GracePlan, K: ChainRule>(
    table: &LiveTable<P, K>,
    seat: &mut LiveSeat,
    chain: usize,
) -> LiveSeat
    requires seat { (seat.old.table_id ≡ table.now.words.shared.table_id) × (seat.old.me.0.sizes ≡ table.now.words.shared.key) × (chain < table.now.chains) }
    requires own { IsWriter seat.old.me.0 × IsListed seat.old.me.0 }
    requires right { lent_chains seat.old.me.0.chains ≡ own_in (lent_chains seat.old.me.0.chains) ∷ lent_chains (lent_chains seat.old.me.0.chains) }
    ensures seat { Keeps seat.old seat.new × (seat.new.me.1 ≡ seat.old.me.1) × (seat.new.me.0.sizes ≡ seat.old.me.0.sizes) × IsListed seat.new.me.0 × (seat.new.me.0.seen ≡ seat.old.me.0.seen) }
    ensures chains { seat.new.me.0.chains ≡ own_in seat.old.me.0.chains ∷ lent_chains (lent_chains seat.old.me.0.chains) }
    ensures right { (result.table_id ≡ seat.old.table_id) × (result.me.1 ≡ []) × (result.me.0.sizes ≡ seat.old.me.0.sizes) × IsListed result.me.0 × (result.me.0.chains ≡ own_in (lent_chains seat.old.me.0.chains) ∷ []) }
    ensures later { Begins seat.old.me.0.seen result.me.0.seen × IsLiveRun P.QSBR K.allows result.me.0.seen }
{
    let mut right = table.cut_lent_chains(seat);
    let others = table.cut_lent_chains(&mut right);
    load_note(table, &mut right, chain);
    table.join(seat, others);
    right
}

impl<'d, P: GracePlan, K: ChainRule, B: Site, H> Lent<'d, P, K, B, H> {
    /// Takes the chain's right back from the writer that has it, to which it was lent before all others that this has
    /// still. This writer has seen then all that that one had.
    pub fn take_back(self, from: &mut Chain<'_, P, K, B, H>) -> Chain<'d, P, K, B, H>
        requires right { lent_chains from.old.seat.me.0.chains ≡ own_in (lent_chains from.old.seat.me.0.chains) ∷ lent_chains (lent_chains from.old.seat.me.0.chains) }
        requires its { ((own_in (lent_chains from.old.seat.me.0.chains)).chain ≡ self.number) × (length (own_in (lent_chains from.old.seat.me.0.chains)).objects ≡ self.linked) }
        ensures chain { (result.seat.me.0.chains ≡ own_in (lent_chains from.old.seat.me.0.chains) ∷ []) × (result.number ≡ self.entry.number) × (result.home.now ≡ self.entry.home.now) }
        ensures from { GivesOut from.old.seat from.new.seat from.old.number from.new.number from.old.home.now from.new.home.now }
        ensures later { Begins from.old.seat.me.0.seen result.seat.me.0.seen × IsLiveRun P.QSBR K.allows result.seat.me.0.seen }
    {
        let Lent {
            home,
            table,
            number,
            linked,
            site,
        } = self;
        let seat = cut_right(from.table, &mut from.seat, number);
        Chain {
            home,
            table,
            seat,
            number,
            linked,
            site,
        }
    }
}
