//! The writers of several chains, which lend their rights to one.

ghost use Rattle.std.specs.Prelude.{◌≡◌, ◌≤◌, ◌∷◌, ◌++◌, [], drop, length, map, take, vec_capacity, vec_len};
ghost use Rattle.live_log.specs.Log.{Begins, IsLiveRun};
ghost use Rattle.live_log.specs.Tables.{tabled};
ghost use Rattle.rcu_list.specs.live_rule.Seats.{lent_chains};
ghost use Rattle.rcu_list.specs.live_rule.Rights.{AreAsKnown, own_in};
ghost use Rattle.rcu_hash.specs.Writers.{Each, HasSeen, IsAlone, IsRunIn, SawBefore, lengths_of, rights_of};

use gp_memb::GracePlan;
use live_log::Tabled;
use rcu_list::{Chain, Deleter, Lent, Site};

/// Each lends its right to another chain's writer, in order. There is room for what is left of them.
pub(crate) fn lend_all<'d, P: GracePlan + Drop, B: Site, D: Deleter>(
    chains: Vec<Chain<'d, P, Tabled, B, D>>,
    mut lents: Vec<Lent<'d, P, Tabled, B, D>>,
    to: &mut Chain<'_, P, Tabled, B, D>,
) -> Vec<Lent<'d, P, Tabled, B, D>>
    requires room { (lents.items ≡ []) × (vec_len chains ≤ vec_capacity lents) }
    requires alone { Each IsAlone (map (λ c. c.seat.me.0) chains.items) }
    requires known { AreAsKnown to.old.seat.me.0.seen to.old.seat.me.0.chains × IsLiveRun P.QSBR tabled to.old.seat.me.0.seen }
    ensures many { vec_len result ≡ vec_len chains.entry }
    ensures lents { map (λ l. (l.number, l.linked)) result.items ≡ lengths_of (rights_of (map (λ c. c.seat.me.0) chains.entry.items)) }
    ensures chains { to.new.seat.me.0.chains ≡ to.old.seat.me.0.chains ++ rights_of (map (λ c. c.seat.me.0) chains.entry.items) }
    ensures known { AreAsKnown to.new.seat.me.0.seen to.new.seat.me.0.chains × IsLiveRun P.QSBR tabled to.new.seat.me.0.seen }
    ensures later { Begins to.old.seat.me.0.seen to.new.seat.me.0.seen × Each (SawBefore to.new.seat.me.0.seen) (map (λ c. c.seat.me.0) chains.entry.items) }
    ensures same { (to.new.number ≡ to.old.number) × (to.new.home.now ≡ to.old.home.now) }
{
    let many = chains.len();
    let mut rest = chains.into_iter();
    for _ in 0..many {
        let Some(chain) = rest.next() else {
            unreachable!()
        };
        lents.push_reserved(chain.lend(to));
    }
    rest.destroy_empty();
    lents
}

/// Each takes its right back from the writer that they lent them to, in the same order, which may have more that were
/// lent to it later. There is room for the writers.
pub(crate) fn take_all_back<'d, P: GracePlan + Drop, B: Site, D: Deleter>(
    lents: Vec<Lent<'d, P, Tabled, B, D>>,
    mut chains: Vec<Chain<'d, P, Tabled, B, D>>,
    from: &mut Chain<'_, P, Tabled, B, D>,
) -> Vec<Chain<'d, P, Tabled, B, D>>
    requires room { (chains.items ≡ []) × (vec_len lents ≤ vec_capacity chains) }
    requires lents { map (λ l. (l.number, l.linked)) lents.items ≡ lengths_of (take (length lents.items) (lent_chains from.old.seat.me.0.chains)) }
    requires run { IsLiveRun P.QSBR tabled from.old.seat.me.0.seen }
    ensures chains { rights_of (map (λ c. c.seat.me.0) result.items) ≡ take (length lents.entry.items) (lent_chains from.old.seat.me.0.chains) }
    ensures alone { Each IsAlone (map (λ c. c.seat.me.0) result.items) × Each (HasSeen from.old.seat.me.0.seen) (map (λ c. c.seat.me.0) result.items) }
    ensures runs { Each (IsRunIn P.QSBR) (map (λ c. c.seat.me.0) result.items) }
    ensures from { (from.new.seat.me.0.chains ≡ own_in from.old.seat.me.0.chains ∷ drop (length lents.entry.items) (lent_chains from.old.seat.me.0.chains)) × (from.new.seat.me.0.seen ≡ from.old.seat.me.0.seen) }
    ensures same { (from.new.number ≡ from.old.number) × (from.new.home.now ≡ from.old.home.now) }
{
    let many = lents.len();
    let mut rest = lents.into_iter();
    for _ in 0..many {
        let Some(lent) = rest.next() else {
            unreachable!()
        };
        chains.push_reserved(lent.take_back(from));
    }
    rest.destroy_empty();
    chains
}
