//! How another directory takes the place of a table's, while the table is read.

ghost use Rattle.std.specs.Prelude.{◌≡◌, ◌⊎◌, ◌+◌, ◌<◌, ◌≤◌, ◌∷◌, [], ℕ, List, map, vec_capacity, vec_len};
ghost use Rattle.live_log.specs.declared.event.LiveEvent.TheVariants.{Object};
ghost use Rattle.live_log.specs.declared.event.ObjectEvent.TheVariants.{Replace};
ghost use Rattle.live_log.specs.Log.{record_of, state_of};
ghost use Rattle.live_log.specs.Tables.{reserved, tabled};
ghost use Rattle.rcu_list.specs.live_rule.Rights.{object_in, payload_in};
ghost use Rattle.rcu_list.specs.live_read.Hearing.{OnlyMakesLast};
ghost use Rattle.rcu_hash.specs.Copies.{AreApart, value_among, value_in_bucket};
ghost use Rattle.rcu_hash.specs.Growing.{Exchanges};
ghost use Rattle.rcu_hash.specs.Leaving.{Writes};
ghost use Rattle.rcu_hash.specs.Buckets.{IsBucket};
ghost use Rattle.rcu_hash.specs.Naming.{words_by};
ghost use Rattle.rcu_hash.specs.Tidying.{IsRecord};
ghost use Rattle.rcu_hash.specs.Writers.{AreKept, Each};

use crate::directory::{Directory, Naming};
use crate::rights::{lend_all, take_all_back};
use gp_memb::GracePlan;
use live_log::Tabled;
use rcu_list::{Caller, Chain, Deleter, Lent, Owned, Site, Unlinked};

/// The writers of chains that lend their rights to the directory's, with room for them when they have their rights
/// again.
pub(crate) struct Lenders<'d, P: GracePlan, B: Site, D: Drop> {
    pub(crate) chains: Vec<Chain<'d, P, Tabled, B, D>>,
    pub(crate) lents: Vec<Lent<'d, P, Tabled, B, D>>,
    pub(crate) back: Vec<Chain<'d, P, Tabled, B, D>>,
    pub(crate) ghost room: { (lents.items ≡ []) × (vec_len chains ≤ vec_capacity lents) × (back.items ≡ []) × (vec_len chains ≤ vec_capacity back) },
}

/// Another directory, for which the second chains are reserved, takes the place of this one, which names the first
/// ones, and has left them; for that they all lend it their rights. Answers it, the record that it replaced, and the
/// writers. The caller hears of that.
pub(crate) fn exchange<'d, P: GracePlan + Drop, B: Site, D: Deleter, W: Caller<B>>(
    directory: Directory<'d, P, B, D>,
    olds: Lenders<'d, P, B, D>,
    news: Lenders<'d, P, B, D>,
    caller: &mut W,
    owned: Owned<B>,
    first: usize,
) -> (
    Directory<'d, P, B, D>,
    Unlinked<B>,
    Vec<Chain<'d, P, Tabled, B, D>>,
    Vec<Chain<'d, P, Tabled, B, D>>,
)
    requires olds { (vec_len olds.chains ≡ directory.naming.buckets) × AreKept directory.naming.first (directory.naming.directory + 1) (map (λ c. c.seat.me.0) olds.chains.items) }
    requires news { (0 < vec_len news.chains) × (first + vec_len news.chains ≤ B.sizes.chains) × AreKept first (reserved (object_in owned.seat.me.0.object)) (map (λ c. c.seat.me.0) news.chains.items) }
    requires apart { ((directory.naming.directory < first) ⊎ (first + vec_len news.chains ≤ directory.naming.directory)) × ((directory.naming.first + directory.naming.buckets ≤ first) ⊎ (first + vec_len news.chains ≤ directory.naming.first)) }
    requires record { payload_in owned.seat.me.0.object ≡ words_by first (vec_len news.chains) }
    requires same { (key : ℕ) → value_in_bucket (vec_len news.chains) (map (λ c. c.seat.me.0) news.chains.items) key ≡ value_in_bucket (vec_len olds.chains) (map (λ c. c.seat.me.0) olds.chains.items) key }
    ensures directory { result.0.naming ≡ record { directory = directory.entry.naming.directory; object = object_in owned.seat.me.0.object; first = first; buckets = vec_len news.entry.chains } }
    ensures unlinked { IsRecord directory.entry.naming.directory result.1.chain result.1.seat.me.0 }
    ensures object { object_in result.1.seat.me.0.object ≡ directory.entry.naming.object }
    ensures told { W.heard caller.new ≡ result.0.chain.seat.me.0.seen }
    ensures wrote { (cell : ℕ) × (w : Writes P.QSBR tabled (W.seen caller.old) (W.heard caller.old) (Object (Replace directory.entry.naming.directory directory.entry.naming.object (object_in owned.seat.me.0.object) cell (words_by first (vec_len news.entry.chains)))) (W.heard caller.new)) × ((state_of w.before).chain directory.entry.naming.directory ≡ directory.entry.naming.object ∷ []) × ((record_of w.before directory.entry.naming.object).1 ≡ words_by directory.entry.naming.first directory.entry.naming.buckets) }
    ensures olds { (vec_len result.2 ≡ vec_len olds.entry.chains) × AreKept directory.entry.naming.first (directory.entry.naming.directory + 1) (map (λ c. c.seat.me.0) result.2.items) }
    ensures news { (vec_len result.3 ≡ vec_len news.entry.chains) × Each (IsBucket result.0.naming) (map (λ c. c.seat.me.0) result.3.items) }
    ensures grown { (entries : List (ℕ × ℕ)) → AreApart entries → ((key : ℕ) → value_in_bucket (vec_len olds.entry.chains) (map (λ c. c.seat.me.0) olds.entry.chains.items) key ≡ value_among entries key) → (e : Exchanges P.QSBR tabled B.sizes.chains directory.entry.naming.directory (W.seen caller.old) (W.heard caller.old) directory.entry.naming.object first (vec_len news.entry.chains) entries (W.heard caller.new)) × (e.new ≡ object_in owned.seat.me.0.object) }
    ensures same { OnlyMakesLast W.Caller caller.old caller.new (W.heard caller.new) }
{
    let Directory { mut chain, naming } = directory;
    let Lenders {
        chains: old_chains,
        lents: old_lents,
        back: old_back,
    } = olds;
    let Lenders {
        chains: new_chains,
        lents: new_lents,
        back: new_back,
    } = news;
    // By this load the writer sees a run.
    chain.note();
    let buckets = new_chains.len();
    let object = owned.object();
    let old_lents = lend_all(old_chains, old_lents, &mut chain);
    let new_lents = lend_all(new_chains, new_lents, &mut chain);
    let Ok(unlinked) = chain.replace(caller, 0, owned) else {
        unreachable!()
    };
    let left = take_all_back(old_lents, old_back, &mut chain);
    let named = take_all_back(new_lents, new_back, &mut chain);
    let naming = Naming {
        directory: naming.directory,
        object,
        first,
        buckets,
    };
    (Directory { chain, naming }, unlinked, left, named)
}
