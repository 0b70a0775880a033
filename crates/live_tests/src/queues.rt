//! Queues: what is retired, what is refused once a queue is closed, who works for a queue, and barriers. The tables
//! have one slot, one chain, one queue and four records: the queued count is word 104, the closed word 105, and the
//! hold word of the queue's worker word 121. A record's first object has the number 4 and the record's more. The first
//! search of a handle begins at the last record, and the second goes on at the first one.

ghost use Rattle.std.specs.Prelude.{◌≡◌, []};
ghost use Rattle.live_words.specs.live_rule.Views.{first_view};

use crate::plain;
use callback_queue::Item;
use gp_memb::{GracePlan, MembPlan};
use live_callbacks::{Items, Job};
use live_read::{Caller, Handle, Site};
use live_words::{
    AnyChain, LiveSeat, LiveTable, end_work, free_work, hold_work, load_closed, load_finished,
    load_queued,
};
use live_write::Unlinked;
use rcu_model::{ObjectId, Refusal};
use std::alloc::Global;
use std::marker::Brand;
use std::sync::Wait;

/// A new object, pushed on the chain and cut from it.
fn cut_one<P: GracePlan, B: Site, R: Wait>(
    rt: &R,
    table: &LiveTable<P, AnyChain>,
    record: &mut Handle<B>,
    words: [u64; 4],
) -> Result<Unlinked<B>, Refusal>
    requires { (table.now.words.shared.table_id ≡ B.table) × (table.now.words.shared.key ≡ B.sizes) }
{
    let mut chain = plain::hold(table, record, 0)?;
    let owned = plain::alloc(rt, table, record, words)?;
    plain::push(&mut chain, record, owned);
    plain::cut(&mut chain, record, 0)
}

/// Two objects are cut and retired, and 7 and 9 are to be called.
fn retires_two<P: GracePlan, B: Site, R: Wait>(
    rt: &R,
    table: &LiveTable<P, AnyChain>,
    items: &mut Items<B, ObjectId>,
    record: &mut Handle<B>,
) -> Result<(), Refusal>
    requires { (table.now.words.shared.table_id ≡ B.table) × (table.now.words.shared.key ≡ B.sizes) }
    ensures { items.new.2 ≡ items.old.2 }
{
    let first = cut_one(rt, table, record, [5, 0, 0, 0])?;
    let Ok(_ticket) = plain::retire(items, table, record, first, ObjectId(7)) else {
        return Err(Refusal::Memory);
    };
    let second = cut_one(rt, table, record, [6, 0, 0, 0])?;
    let Ok(_ticket) = plain::retire(items, table, record, second, ObjectId(9)) else {
        return Err(Refusal::Memory);
    };
    Ok(())
}

/// How many were queued as a batch was taken in which nothing is, and as one of two was taken. Then the objects of that
/// one in their turns, and what is to be called for the second. And whether a third batch is refused.
fn batches<P: GracePlan, B: Site, R: Wait>(
    rt: &R,
    memory: Global,
    table: &LiveTable<P, AnyChain>,
    mut root: LiveSeat,
) -> Result<([u64; 5], bool), Refusal>
    requires site { (table.now.words.shared.table_id ≡ B.table) × (table.now.words.shared.key ≡ B.sizes) × (root.table_id ≡ B.table) × (root.me ≡ (first_view B.sizes, [])) }
    requires sizes { (table.now.chains ≡ 1) × (table.now.queues ≡ 1) × (table.now.pool ≡ 4) }
{
    let queue = table.cut_spare_queue(&mut root);
    let mut items: Items<B, ObjectId> = Items::new(memory, queue, 0);
    let mut record: Handle<B> = Handle::new(root);
    let mut worker = record.tell(table);
    if hold_work(table, &mut worker, 0) != 0 {
        return Err(Refusal::Busy);
    }
    let count = load_finished(table, &mut worker, 0);
    let mut list: Vec<u64> = Vec::new(memory);
    let mut none: Vec<Item<Job<B, ObjectId>>> = Vec::new(memory);
    let nothing = items.take_batch(table, &mut worker, 0, count, &mut list, &mut none)?;
    if !none.is_empty() {
        return Err(Refusal::NoPlace);
    }
    retires_two(rt, table, &mut items, &mut record)?;
    let mut batch: Vec<Item<Job<B, ObjectId>>> = Vec::new(memory);
    let given = items.take_batch(table, &mut worker, 0, count, &mut list, &mut batch)?;
    let (Some(two), Some(one)) = (batch.pop(), batch.pop()) else {
        return Err(Refusal::NoPlace);
    };
    let mut none: Vec<Item<Job<B, ObjectId>>> = Vec::new(memory);
    let again = items
        .take_batch(table, &mut worker, 0, count, &mut list, &mut none)
        .is_err();
    let (first, second) = (one.object.0, two.object.0);
    Ok((
        [nothing, given, first, second, two.job.into_callback().0],
        again,
    ))
}

#[test]
fn a_batch_is_taken_whole(rt: HostRuntime) {
    let (table, root) = LiveTable::<MembPlan, AnyChain>::new(rt.alloc(), 1, 1, 1, 4).expect(
        &rt, "memory",
    );
    let (numbers, refused) = batches::<_, Brand, _>(&rt, rt.alloc(), &table, root).expect(
        &rt, "memory",
    );
    assert_eq!(rt; numbers, [0, 2, 7, 4, 9]);
    assert!(rt; refused);
}

#[test]
fn one_works_for_a_queue(rt: HostRuntime) {
    let (table, mut root) = LiveTable::<MembPlan, AnyChain>::new(rt.alloc(), 1, 1, 1, 4).expect(
        &rt, "memory",
    );
    let mut other = table.tell(&mut root);
    assert_eq!(rt; load_queued(&table, &mut other, 0), 0);
    assert_eq!(rt; load_finished(&table, &mut other, 0), 0);
    assert_eq!(rt; load_closed(&table, &mut other, 0), 0);
    let mut worker = table.tell(&mut root);
    assert_eq!(rt; hold_work(&table, &mut worker, 0), 0);
    assert_eq!(rt; hold_work(&table, &mut other, 0), 1);
    assert_eq!(rt; table.words.shared.peek(121), 1);
    free_work(&table, &mut worker, 0);
    assert_eq!(rt; table.words.shared.peek(121), 0);
    assert_eq!(rt; hold_work(&table, &mut worker, 0), 0);
    end_work(&table, &mut worker, 0);
    assert_eq!(rt; hold_work(&table, &mut other, 0), 2);
    assert_eq!(rt; table.words.shared.peek(121), 2);
}
