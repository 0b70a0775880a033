//! Records allocated and discarded, in both flavours. The tables have one slot, no chain and no queue: record i
//! begins at word 6 i + 104.

ghost use Rattle.std.specs.Prelude.{◌≡◌, ◌<◌, []};
ghost use Rattle.std.specs.Thread.{IsSync};

use crate::plain;
use gp_memb::{GracePlan, MembPlan};
use gp_qsbr::QsbrPlan;
use live_read::{Handle, Site};
use live_words::{AnyChain, LiveSeat, LiveTable};
use live_write::discard;
use rcu_model::Refusal;
use std::alloc::Global;
use std::marker::Brand;
use std::sync::Wait;
use std::thread::{Threads, join};

/// How many records each of two threads allocates.
const EACH: usize = 200;

/// The header of the first record and its four words.
fn first_record<P: GracePlan>(table: &LiveTable<P, AnyChain>) -> [u64; 5]
    requires { (table.now.slots ≡ 1) × (table.now.chains ≡ 0) × (table.now.queues ≡ 0) × (table.now.pool ≡ 1) }
{
    let words = &table.words.shared;
    [
        words.peek(104),
        words.peek(106),
        words.peek(107),
        words.peek(108),
        words.peek(109),
    ]
}

/// Allocates the one record of a pool, discards it and allocates it again: the numbers of the two objects, the record
/// after each of the three calls, and whether an allocation was refused meanwhile.
fn allocates_twice<P: GracePlan, B: Site, R: Wait>(
    rt: &R,
    table: &LiveTable<P, AnyChain>,
    root: LiveSeat,
) -> Result<([u64; 2], [[u64; 5]; 3], bool), Refusal>
    requires site { (table.now.words.shared.table_id ≡ B.table) × (table.now.words.shared.key ≡ B.sizes) × (root.table_id ≡ B.table) × (root.me.0.sizes ≡ B.sizes) × (root.me.1 ≡ []) }
    requires sizes { (table.now.slots ≡ 1) × (table.now.chains ≡ 0) × (table.now.queues ≡ 0) × (table.now.pool ≡ 1) }
{
    let mut record: Handle<B> = Handle::new(root);
    let first = plain::alloc(rt, table, &mut record, [3, 5, 7, 11])?;
    let allocated = first_record(table);
    let refused = plain::alloc(rt, table, &mut record, [1; 4]);
    let full = matches!(refused, Err(Refusal::PoolFull));
    let one = first.object().0;
    discard(table, &mut record, first);
    let discarded = first_record(table);
    let second = plain::alloc(rt, table, &mut record, [13, 17, 19, 23])?;
    Ok((
        [one, second.object().0],
        [allocated, discarded, first_record(table)],
        full,
    ))
}

#[test]
fn a_pool_of_one_is_used_again(rt: HostRuntime) {
    let (table, root) = LiveTable::<MembPlan, AnyChain>::new(rt.alloc(), 1, 0, 0, 1).expect(
        &rt, "memory",
    );
    let (numbers, records, full) = allocates_twice::<_, Brand, _>(&rt, &table, root).expect(
        &rt,
        "a free record",
    );
    assert!(rt; full);
    assert_eq!(rt; numbers, [1, 2]);
    assert_eq!(rt; records[0], [5, 3, 5, 7, 11]);
    assert_eq!(rt; records[1], [4, 3, 5, 7, 11]);
    assert_eq!(rt; records[2], [9, 13, 17, 19, 23]);
}

#[test]
fn an_empty_pool_is_full(rt: HostRuntime) {
    let (table, root) = LiveTable::<QsbrPlan, AnyChain>::new(rt.alloc(), 1, 0, 0, 0).expect(
        &rt, "memory",
    );
    assert!(rt; is_refused::<_, Brand, _>(&rt, &table, root));
    assert_eq!(rt; table.words.shared.peek(104), 0);
}

/// Whether an allocation is refused.
fn is_refused<P: GracePlan, B: Site, R: Wait>(
    rt: &R,
    table: &LiveTable<P, AnyChain>,
    root: LiveSeat,
) -> bool
    requires { (table.now.words.shared.table_id ≡ B.table) × (table.now.words.shared.key ≡ B.sizes) × (root.table_id ≡ B.table) × (root.me.0.sizes ≡ B.sizes) × (root.me.1 ≡ []) }
{
    let mut record: Handle<B> = Handle::new(root);
    let refused = plain::alloc(rt, table, &mut record, [1; 4]);
    matches!(refused, Err(Refusal::PoolFull))
}

/// The numbers of the objects that were allocated, in the order of the calls.
fn allocates_many<P: GracePlan, B: Site, R: Wait>(
    rt: &R,
    alloc_in: Global,
    table: &LiveTable<P, AnyChain>,
    mut record: Handle<B>,
) -> Result<Vec<u64>, Refusal>
    requires { (table.now.words.shared.table_id ≡ B.table) × (table.now.words.shared.key ≡ B.sizes) }
{
    let mut numbers = Vec::new(alloc_in);
    for _ in 0..EACH {
        let owned = plain::alloc(rt, table, &mut record, [1; 4])?;
        if numbers.push(owned.object().0).is_err() {
            return Err(Refusal::Memory);
        }
    }
    Ok(numbers)
}

/// Two threads allocate all records of a table: the numbers of the objects, in their order.
fn two_allocate<P: GracePlan + Send + Sync, B: Site + Send + Sync, R: Threads + Wait + Sync>(
    rt: &R,
    alloc_in: Global,
    table: &LiveTable<P, AnyChain>,
    mut root: LiveSeat,
) -> Result<Vec<u64>, Refusal>
    requires { (table.now.words.shared.table_id ≡ B.table) × (table.now.words.shared.key ≡ B.sizes) × (root.table_id ≡ B.table) × (root.me.0.sizes ≡ B.sizes) × (root.me.1 ≡ []) }
{
    let one: Handle<B> = Handle::new(table.tell(&mut root));
    let two: Handle<B> = Handle::new(root);
    let (first, second) = join(
        rt,
        move ||
            requires { IsSync R.row × (table.now.words.shared.table_id ≡ B.table) × (table.now.words.shared.key ≡ B.sizes) }
        { allocates_many(rt, alloc_in, table, one) },
        move ||
            requires { IsSync R.row × (table.now.words.shared.table_id ≡ B.table) × (table.now.words.shared.key ≡ B.sizes) }
        { allocates_many(rt, alloc_in, table, two) },
    );
    let mut all = first?;
    if all.extend_from_slice(second?.as_slice()).is_err() || all.sort().is_err() {
        return Err(Refusal::Memory);
    }
    Ok(all)
}

#[test]
fn two_threads_allocate_all_records(rt: HostRuntime) {
    let (table, root) = LiveTable::<MembPlan, AnyChain>::new(rt.alloc(), 1, 0, 0, 400).expect(
        &rt, "memory",
    );
    let numbers = two_allocate::<_, Brand, _>(&rt, rt.alloc(), &table, root).expect(
        &rt,
        "a record for each",
    );
    assert_eq!(rt; numbers.len(), 2 * EACH);
    for (index, number) in numbers.iter().enumerate() {
        assert_eq!(rt; *number, index as u64 + 400);
    }
}
