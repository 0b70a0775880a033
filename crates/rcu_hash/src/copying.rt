//! The keys of a table in records for the chains of another.

ghost use Rattle.std.specs.Prelude.{◌≡◌, ◌⊎◌, ◌%◌, ◌==◌, ◌<◌, ◌∷◌, ◌++◌, [], ℕ, List, None, Some, IfErr, IfOk, if◌then◌else◌, map, vec_len};
ghost use Rattle.live_log.specs.Log.{Begins};
ghost use Rattle.live_log.specs.Tables.{tabled};
ghost use Rattle.rcu_list.specs.live_rule.Rights.{cell_in, payload_in};
ghost use Rattle.rcu_list.specs.live_rule.Steps.{Keeps, Went};
ghost use Rattle.rcu_list.specs.live_read.Hearing.{OnlyMakesMany};
ghost use Rattle.rcu_list.specs.live_write.Searching.{AreTaken};
ghost use Rattle.rcu_list.specs.Maps.{words_of};
ghost use Rattle.rcu_model.specs.Sets.{In};
ghost use Rattle.rcu_model.specs.declared.refusal.Refusal.TheVariants.{Memory, PoolFull};
ghost use Rattle.rcu_hash.specs.Copies.{AreApart, AreRanked, value_among, value_in_bucket};
ghost use Rattle.rcu_hash.specs.Freeing.{Looked, Undoes};
ghost use Rattle.rcu_hash.specs.Growing.{CopiesAll};
ghost use Rattle.rcu_hash.specs.Leaving.{Writes};
ghost use Rattle.rcu_hash.specs.Writers.{AreFrom, Each, HasKeysIn, HasNoNote, IsAlone, IsEmpty, value_at};

use crate::bucket::Bucket;
use gp_memb::GracePlan;
use live_log::Tabled;
use rcu_list::{Caller, Chain, Deleter, Domain, Owned, Site};
use rcu_model::Refusal;
use std::sync::Wait;

/// A record with a key, which no chain links yet.
pub(crate) struct Copied<B: Site> {
    pub(crate) key: u64,
    pub(crate) value: u64,
    pub(crate) rank: u64,
    pub(crate) owned: Owned<B>,
    pub(crate) ghost words: { payload_in owned.seat.me.0.object ≡ words_of key value rank },
}

/// One more record, whose rank is how many there were. It waits for nobody.
///
/// Refused with `Memory` where memory is, else with `PoolFull` where no record is free.
fn copy_key<P: GracePlan + Drop, B: Site, D: Deleter, W: Caller<B>, R: Wait>(
    rt: &R,
    domain: &Domain<P, Tabled, B, D>,
    caller: &mut W,
    copied: &mut Vec<Copied<B>>,
    key: u64,
    value: u64,
) -> Result<(), Refusal>
    ensures copied { IfOk result (λ _. map {B = ℕ × ℕ} (λ c. (c.key, c.value)) copied.new.items ≡ map (λ c. (c.key, c.value)) copied.old.items ++ (key, value) ∷ []) }
    ensures cells { (i : ℕ) → In (map (λ c. cell_in c.owned.seat.me.0.object) copied.old.items) i → In (map (λ c. cell_in c.owned.seat.me.0.object) copied.new.items) i }
    ensures ranks { IfOk result (λ _. map (λ c. c.rank) copied.new.items ≡ map (λ c. c.rank) copied.old.items ++ vec_len copied.old ∷ []) }
    ensures refused { IfErr result (λ e. (copied.new.items ≡ copied.old.items) × ((e ≡ Memory) ⊎ (e ≡ PoolFull))) }
    ensures same { (l : Looked W.Caller B.sizes (map (λ c. cell_in c.owned.seat.me.0.object) copied.new.items) [] caller.old caller.new) × IfErr result (λ e. (e ≡ PoolFull) → AreTaken B.sizes l.found) }
{
    if copied.reserve(1).is_err() {
        return Err(Refusal::Memory);
    }
    let rank = copied.len() as u64;
    let owned = domain.alloc(rt, caller, [key, value, rank, 0])?;
    copied.push_reserved(Copied {
        key,
        value,
        rank,
        owned,
    });
    Ok(())
}

impl<'d, P: GracePlan + Drop, B: Site, D: Deleter> Bucket<'d, P, B, D> {
    /// Records for the keys of the bucket of this number, behind those of other buckets. It waits for nobody.
    ///
    /// Refused at the first record that is, with `Memory` or `PoolFull`.
    pub(crate) fn copy<W: Caller<B>, R: Wait>(
        &mut self,
        rt: &R,
        caller: &mut W,
        copied: &mut Vec<Copied<B>>,
        number: usize,
    ) -> Result<(), Refusal>
        requires others { (0 < self.old.naming.buckets) × ((key : ℕ) → key % self.old.naming.buckets ≡ number → value_among (map (λ c. (c.key, c.value)) copied.old.items) key ≡ None) }
        requires apart { AreApart (map (λ c. (c.key, c.value)) copied.old.items) × AreRanked 0 (map (λ c. c.rank) copied.old.items) }
        ensures copied { IfOk result (λ _. (key : ℕ) → value_among (map (λ c. (c.key, c.value)) copied.new.items) key ≡ (if key % self.old.naming.buckets == number then value_at (Some self.new.chain.seat.me.0) key else value_among (map (λ c. (c.key, c.value)) copied.old.items) key)) }
        ensures cells { (i : ℕ) → In (map (λ c. cell_in c.owned.seat.me.0.object) copied.old.items) i → In (map (λ c. cell_in c.owned.seat.me.0.object) copied.new.items) i }
        ensures apart { IfOk result (λ _. AreApart (map (λ c. (c.key, c.value)) copied.new.items) × AreRanked 0 (map (λ c. c.rank) copied.new.items)) }
        ensures refused { IfErr result (λ e. (e ≡ Memory) ⊎ (e ≡ PoolFull)) }
        ensures same { (l : Looked W.Caller B.sizes (map (λ c. cell_in c.owned.seat.me.0.object) copied.new.items) [] caller.old caller.new) × IfErr result (λ e. (e ≡ PoolFull) → AreTaken B.sizes l.found) }
        ensures walked { (self.new.naming ≡ self.old.naming) × Keeps self.old.chain.seat self.new.chain.seat × Went P.QSBR tabled self.old.chain.seat.me.0 self.old.chain.seat.me self.new.chain.seat.me × (self.new.chain.number ≡ self.old.chain.number) × (self.new.chain.home.now ≡ self.old.chain.home.now) }
    {
        // By this load the writer sees a run, also where the chain is empty.
        self.chain.note();
        let domain = self.chain.domain();
        let buckets = self.naming.buckets as u64;
        for index in 0..self.chain.len() {
            let Some(words) = self.chain.get(index) else {
                unreachable!()
            };
            if words[0] % buckets == number as u64 {
                copy_key(rt, domain, caller, copied, words[0], words[1])?;
            }
        }
        Ok(())
    }
}

/// Frees the records. The caller hears of that.
pub(crate) fn discard_all<P: GracePlan + Drop, B: Site, D: Deleter, W: Caller<B>>(
    domain: &Domain<P, Tabled, B, D>,
    caller: &mut W,
    copied: Vec<Copied<B>>,
)
    ensures same { Undoes W.Caller B.sizes (map (λ c. cell_in c.owned.seat.me.0.object) copied.items) [] caller.old caller.new }
{
    let many = copied.len();
    let mut rest = copied.into_iter();
    for _ in 0..many {
        let Some(copied) = rest.next() else {
            unreachable!()
        };
        let Copied {
            key: _,
            value: _,
            rank: _,
            owned,
        } = copied;
        domain.discard(caller, owned);
    }
    rest.destroy_empty();
}

/// Each record becomes the first of its key's chain, in their order: of as many buckets as there are chains. The caller
/// hears of that.
pub(crate) fn fill<'d, P: GracePlan + Drop, B: Site, D: Deleter, W: Caller<B>>(
    chains: &mut Vec<Chain<'d, P, Tabled, B, D>>,
    caller: &mut W,
    copied: Vec<Copied<B>>,
)
    requires chains { (0 < vec_len chains.old) × Each IsEmpty (map (λ c. c.seat.me.0) chains.old.items) × Each IsAlone (map (λ c. c.seat.me.0) chains.old.items) }
    requires copied { AreApart (map (λ c. (c.key, c.value)) copied.items) × AreRanked 0 (map (λ c. c.rank) copied.items) }
    ensures values { (key : ℕ) → value_in_bucket (vec_len chains.new) (map (λ c. c.seat.me.0) chains.new.items) key ≡ value_among (map (λ c. (c.key, c.value)) copied.items) key }
    ensures filled { (first : ℕ) → AreFrom first (map (λ c. c.seat.me.0) chains.old.items) → CopiesAll (Writes P.QSBR tabled (W.seen caller.old)) first (vec_len chains.old) 0 (W.heard caller.old) (map (λ c. (c.key, c.value)) copied.items) (W.heard caller.new) }
    ensures chains { (vec_len chains.new ≡ vec_len chains.old) × (map (λ c. c.number) chains.new.items ≡ map (λ c. c.number) chains.old.items) }
    ensures known { Each HasKeysIn (map (λ c. c.seat.me.0) chains.new.items) × Each HasNoNote (map (λ c. c.seat.me.0) chains.new.items) × Each IsAlone (map (λ c. c.seat.me.0) chains.new.items) }
    ensures heard { Begins (W.heard caller.old) (W.heard caller.new) }
    ensures same { OnlyMakesMany W.Caller caller.old caller.new (vec_len copied) }
{
    let buckets = chains.len() as u64;
    let many = copied.len();
    let mut rest = copied.into_iter();
    for _ in 0..many {
        let Some(copied) = rest.next() else {
            unreachable!()
        };
        let Copied {
            key,
            value: _,
            rank: _,
            owned,
        } = copied;
        chains[(key % buckets) as usize].push(caller, owned);
    }
    rest.destroy_empty();
}
