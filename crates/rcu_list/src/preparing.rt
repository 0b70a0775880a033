//! What a writer of a chain of keys makes ready before it publishes: how much of a call needs no more than the chain.

ghost use Rattle.std.specs.Prelude.{◌≡◌, ◌+◌, ◌<◌, ◌^◌, None, IfErr, IfNone, IfOk, IfSome, IsSome};
ghost use Rattle.rcu_model.specs.Sets.{In};
ghost use Rattle.rcu_model.specs.declared.event.ObjectId.{ObjectId};
ghost use Rattle.live_log.specs.Keys.{rank_of};
ghost use Rattle.live_log.specs.Log.{record_of};
ghost use Rattle.domain.specs.live_rule.Steps.{IsLater, Keeps, Went};
ghost use Rattle.domain.specs.live_read.Hearing.{IsAfter, Stays};
ghost use Rattle.domain.specs.live_write.Chains.{list_in};
ghost use Rattle.rcu_list.specs.Maps.{HasLastRank, map_of, next_rank};
ghost use Rattle.rcu_list.specs.Preparing.{MayTakeOver, IsReadyFor};
ghost use Rattle.rcu_list.specs.Refusing.{RefusesInsertion, RefusesSuccessor};
ghost use Rattle.domain.specs.Waiting.{FindsMore};
ghost use Rattle.domain.specs.live_write.Calls.{OnlyLooksIn};
ghost use Rattle.domain.specs.live_write.Searching.{TakesFor};

use crate::rule::MapRule;
use domain::{Caller, Chain, Deleter, Owned, Site};
use gp_memb::GracePlan;
use rcu_model::Refusal;
use std::sync::Wait;

/// No key has a rank above this.
const LAST_RANK: u64 = 4_611_686_018_427_387_903;

/// The rank that comes next above those of all keys, unless one has the last: 0 in an empty chain.
fn fresh_rank<P: GracePlan + Drop, K: MapRule, B: Site, D: Deleter>(
    chain: &mut Chain<'_, P, K, B, D>,
) -> Option<u64>
    requires { IsLater P.QSBR K.allows chain.old.seat.me.0 chain.old.seat.me.0 }
    ensures above { IfSome result (λ rank. (rank < 2 ^ 62) × ((o : ObjectId) → In (list_in chain.old.seat.me.0) o → rank_of (record_of chain.new.seat.me.0.seen o) < rank)) }
    ensures next { IfSome result (λ rank. rank ≡ next_rank (record_of chain.new.seat.me.0.seen) (list_in chain.new.seat.me.0)) }
    ensures none { IfNone result (HasLastRank chain.new.seat.me.0.seen chain.old.number) }
    ensures looked { Keeps chain.old.seat chain.new.seat × Went P.QSBR K.allows chain.old.seat.me.0 chain.old.seat.me chain.new.seat.me × (chain.new.number ≡ chain.old.number) × (chain.new.home.now ≡ chain.old.home.now) }
{
    let Some(first) = chain.get(0) else {
        return Some(0);
    };
    if first[2] >= LAST_RANK {
        return None;
    }
    Some(first[2] + 1)
}

/// A record for a key that has no value, which a push makes the first of the chain: its rank is above all others.
///
/// Refused with `Exists` exactly where the key has a value, else with `PoolFull` where the ranks are used up, or as
/// `alloc`. It waits for nobody, but tries again where another thread takes and frees a record that it found free.
pub fn prepare_insertion<
    P: GracePlan + Drop,
    K: MapRule,
    B: Site,
    D: Deleter,
    W: Caller<B>,
    R: Wait,
>(
    rt: &R,
    chain: &mut Chain<'_, P, K, B, D>,
    caller: &mut W,
    key: u64,
    value: u64,
) -> Result<Owned<B>, Refusal>
    ensures ready { IfOk result (λ o. IsReadyFor chain.new.seat.me.0 o.seat.me.0 chain.old.seat.me.0.seen chain.old.number key value) }
    ensures heard { IfOk result (λ _. IsAfter P.QSBR K.allows (W.seen caller.old) (W.heard caller.old) (W.heard caller.new)) }
    ensures same { IfOk result (λ _. Stays W.Caller caller.old caller.new × FindsMore W.Caller caller.old caller.new) }
    ensures took { IfOk result (λ o. TakesFor W.Caller B.sizes caller.old caller.new o.seat.me.0.object) }
    ensures refused { IfErr result (λ e. RefusesInsertion W.Caller P.QSBR K.allows B.sizes caller.old caller.new e chain.old.seat.me.0.seen chain.old.number key) }
    ensures looked { OnlyLooksIn P.QSBR K.allows chain.old.seat chain.new.seat chain.old.number chain.new.number chain.old.home.now chain.new.home.now }
{
    if chain.index_of(key).is_some() {
        return Err(Refusal::Exists);
    }
    let Some(rank) = fresh_rank(chain) else {
        return Err(Refusal::PoolFull);
    };
    chain.domain().alloc(rt, caller, [key, value, rank, 0])
}

/// The index of a key that has a value, and a record that takes its place, with the key, its rank and this value.
///
/// Refused with `Missing` exactly where the key has no value, else as `alloc`. It waits for nobody, but tries again
/// where another thread takes and frees a record that it found free.
pub fn prepare_replacement<
    P: GracePlan + Drop,
    K: MapRule,
    B: Site,
    D: Deleter,
    W: Caller<B>,
    R: Wait,
>(
    rt: &R,
    chain: &mut Chain<'_, P, K, B, D>,
    caller: &mut W,
    key: u64,
    value: u64,
) -> Result<(usize, Owned<B>), Refusal>
    ensures ready { IfOk result (λ r. MayTakeOver chain.new.seat.me.0 r.1.seat.me.0 key value r.0 × IsSome (map_of chain.old.seat.me.0.seen chain.old.number key)) }
    ensures heard { IfOk result (λ _. IsAfter P.QSBR K.allows (W.seen caller.old) (W.heard caller.old) (W.heard caller.new)) }
    ensures same { IfOk result (λ _. Stays W.Caller caller.old caller.new × FindsMore W.Caller caller.old caller.new) }
    ensures took { IfOk result (λ r. TakesFor W.Caller B.sizes caller.old caller.new r.1.seat.me.0.object) }
    ensures refused { IfErr result (λ e. RefusesSuccessor W.Caller P.QSBR K.allows B.sizes caller.old caller.new e chain.old.seat.me.0.seen chain.old.number key) }
    ensures looked { OnlyLooksIn P.QSBR K.allows chain.old.seat chain.new.seat chain.old.number chain.new.number chain.old.home.now chain.new.home.now }
{
    let Some(index) = chain.index_of(key) else {
        return Err(Refusal::Missing);
    };
    let Some(words) = chain.get(index) else {
        unreachable!()
    };
    match chain.domain().alloc(rt, caller, [key, value, words[2], 0]) {
        Ok(owned) => Ok((index, owned)),
        Err(refusal) => Err(refusal),
    }
}
