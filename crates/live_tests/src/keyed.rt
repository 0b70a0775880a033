//! A writer under the rule of keyed chains, which shows by the words that it reads that the rule allows what it writes.
//! The tables have one slot, one chain, no queue and four records.

ghost use Rattle.std.specs.Prelude.{◌≡◌, ◌≢◌, ◌<◌, [], IsTrue};
ghost use Rattle.rcu_model.specs.Sets.{In};
ghost use Rattle.rcu_model.specs.declared.event.ObjectId.{ObjectId};
ghost use Rattle.live_log.specs.Keys.{key_of, keyed, rank_of};
ghost use Rattle.live_log.specs.Log.{IsLiveRun, record_of};
ghost use Rattle.live_words.specs.live_rule.Rights.{payload_in};
ghost use Rattle.live_write.specs.Chains.{list_in};

use gp_memb::{GracePlan, MembPlan};
use live_read::{Handle, Site};
use live_words::{Keyed, LiveSeat, LiveTable};
use live_write::{Chain, Owned, alloc};
use rcu_model::Refusal;
use std::marker::Brand;
use std::sync::Wait;

/// Whether a chain of at most one object has another key there, below the rank: a payload is a key, a value, a rank,
/// and 0.
fn may_stand_first<P: GracePlan, B: Site, H>(
    chain: &mut Chain<'_, P, Keyed, B, H>,
    words: [u64; 4],
) -> bool
    requires run { IsLiveRun P.QSBR keyed chain.old.seat.me.0.seen }
    ensures run { IsLiveRun P.QSBR keyed chain.new.seat.me.0.seen }
    ensures above { IsTrue result → (o : ObjectId) → In (list_in chain.new.seat.me.0) o → (key_of (record_of chain.new.seat.me.0.seen o) ≢ key_of (0, words)) × (rank_of (record_of chain.new.seat.me.0.seen o) < rank_of (0, words)) }
{
    if chain.len() == 0 {
        return true;
    }
    if chain.len() > 1 {
        return false;
    }
    let Some(first) = chain.get(0) else {
        return false;
    };
    first[0] != words[0] && first[2] < words[2]
}

/// Pushes a record where the rule allows it. Whether it did.
fn push_above<P: GracePlan, B: Site, H>(
    chain: &mut Chain<'_, P, Keyed, B, H>,
    record: &mut Handle<B>,
    owned: Owned<B>,
    words: [u64; 4],
) -> bool
    requires run { IsLiveRun P.QSBR keyed chain.old.seat.me.0.seen }
    requires words { payload_in owned.seat.me.0.object ≡ words }
    ensures run { IsLiveRun P.QSBR keyed chain.new.seat.me.0.seen }
{
    if !may_stand_first(chain, words) {
        return false;
    }
    chain.push(record, owned);
    true
}

/// Replaces an object by one with its key and rank, as the rule wants. Whether it did.
fn replace_alike<P: GracePlan, B: Site, H>(
    chain: &mut Chain<'_, P, Keyed, B, H>,
    record: &mut Handle<B>,
    index: usize,
    owned: Owned<B>,
    words: [u64; 4],
) -> bool
    requires run { IsLiveRun P.QSBR keyed chain.old.seat.me.0.seen }
    requires words { payload_in owned.seat.me.0.object ≡ words }
    ensures run { IsTrue result → IsLiveRun P.QSBR keyed chain.new.seat.me.0.seen }
{
    let Some(old) = chain.get(index) else {
        return false;
    };
    if old[0] != words[0] || old[2] != words[2] {
        return false;
    }
    matches!(chain.replace(record, index, owned), Ok(_))
}

/// Whether each call wrote, in their order, and the payloads of the chain at the end.
fn writes<P: GracePlan, B: Site, R: Wait>(
    rt: &R,
    table: &LiveTable<P, Keyed>,
    root: LiveSeat,
) -> Result<([bool; 5], [Option<[u64; 4]>; 2]), Refusal>
    requires site { (table.now.words.shared.table_id ≡ B.table) × (table.now.words.shared.key ≡ B.sizes) × (root.table_id ≡ B.table) × (root.me.0.sizes ≡ B.sizes) × (root.me.1 ≡ []) }
{
    let mut record: Handle<B> = Handle::new(root);
    let mut chain: Chain<P, Keyed, B, _> = Chain::hold(table, table, &mut record, 0)?;
    let first: Owned<B> = alloc(rt, table, &mut record, [3, 7, 1, 0])?;
    let pushed_first = push_above(&mut chain, &mut record, first, [3, 7, 1, 0]);
    let same: Owned<B> = alloc(rt, table, &mut record, [3, 11, 2, 0])?;
    let pushed_same = push_above(&mut chain, &mut record, same, [3, 11, 2, 0]);
    let second: Owned<B> = alloc(rt, table, &mut record, [5, 13, 2, 0])?;
    let pushed_second = push_above(&mut chain, &mut record, second, [5, 13, 2, 0]);
    let third: Owned<B> = alloc(rt, table, &mut record, [3, 17, 1, 0])?;
    let replaced = replace_alike(&mut chain, &mut record, 1, third, [3, 17, 1, 0]);
    if !replaced {
        return Err(Refusal::NoPlace);
    }
    let cut = matches!(chain.cut(&mut record, 0), Ok(_));
    Ok((
        [pushed_first, pushed_same, pushed_second, replaced, cut],
        [chain.get(0), chain.get(1)],
    ))
}

#[test]
fn a_keyed_chain_is_written(rt: HostRuntime) {
    let (table, root) = LiveTable::<MembPlan, Keyed>::new(rt.alloc(), 1, 1, 0, 4).expect(
        &rt, "memory",
    );
    let (did, values) = writes::<_, Brand, _>(&rt, &table, root).expect(&rt, "records");
    assert_eq!(rt; did, [true, false, true, true, true]);
    assert_eq!(rt; values, [Some([3, 17, 1, 0]), None]);
}
