//! Registering at concrete types of both flavours. Expected words are those of the layout: the group words are words 48
//! to 51, and the word of slot s is word 16 s + 64. Slots are claimed from 0 on.

ghost use Rattle.std.specs.Prelude.{◌≡◌, []};
ghost use Rattle.std.specs.Arc.{arc_value};
ghost use Rattle.live_words.specs.live_rule.Views.{first_view};

use gp_memb::{GracePlan, MembPlan};
use live_read::{Handle, Reader, Site};
use live_words::{AnyChain, ChainRule, LiveSeat, LiveTable};
use rcu_model::Refusal;
use std::alloc::Global;
use std::marker::Brand;
use std::sync::{Arc, Wait};

/// A record of a new table.
pub fn first_record<P: GracePlan, K: ChainRule, B: Site>(
    words: &Arc<LiveTable<P, K>>,
    mut root: LiveSeat,
) -> Handle<B>
    requires site { ((arc_value words.now).words.shared.table_id ≡ B.table) × (root.table_id ≡ B.table) × ((arc_value words.now).words.shared.key ≡ B.sizes) }
    requires new { root.me ≡ (first_view (arc_value words.now).words.shared.key, []) }
{
    Handle::new(words.tell(&mut root))
}

/// Claims every slot, and then one that was given back: how many readers there were, how the next was refused, which
/// slot was given back and which was claimed then, and whether there is none again.
fn fills<B: Site, R: Wait>(
    rt: &R,
    alloc: Global,
    words: &Arc<LiveTable<MembPlan, AnyChain>>,
    root: LiveSeat,
) -> Result<(usize, bool, usize, usize, bool), Refusal>
    requires site { ((arc_value words.now).words.shared.table_id ≡ B.table) × (root.table_id ≡ B.table) × ((arc_value words.now).words.shared.key ≡ B.sizes) }
    requires new { root.me ≡ (first_view (arc_value words.now).words.shared.key, []) }
{
    let mut record = first_record::<MembPlan, AnyChain, B>(words, root);
    let mut readers = Vec::new(alloc);
    for _ in 0..words.slots {
        let reader: Reader<MembPlan, AnyChain, B> = Reader::register(rt, words, &mut record)?;
        if readers.push(reader).is_err() {
            return Err(Refusal::Memory);
        }
    }
    let count = readers.len();
    let full = is_full::<B, R>(rt, words, &mut record);
    let Some(last) = readers.pop() else {
        return Err(Refusal::NotOpen);
    };
    let given_back = last.slot();
    if let Err((refusal, _)) = last.unregister(&mut record) {
        return Err(refusal);
    }
    let again: Reader<MembPlan, AnyChain, B> = Reader::register(rt, words, &mut record)?;
    let full_again = is_full::<B, R>(rt, words, &mut record);
    Ok((count, full, given_back, again.slot(), full_again))
}

/// Whether there is no slot for another reader.
fn is_full<B: Site, R: Wait>(
    rt: &R,
    words: &Arc<LiveTable<MembPlan, AnyChain>>,
    record: &mut Handle<B>,
) -> bool
    requires { ((arc_value words.now).words.shared.table_id ≡ B.table) × ((arc_value words.now).words.shared.key ≡ B.sizes) }
{
    let next: Result<Reader<MembPlan, AnyChain, B>, Refusal> = Reader::register(rt, words, record);
    matches!(next, Err(Refusal::NoSlot))
}

/// A reader with an open lock comes back; once it is unlocked, its slot is free. One that is dropped keeps its slot.
fn leaves<B: Site, R: Wait>(
    rt: &R,
    words: &Arc<LiveTable<MembPlan, AnyChain>>,
    root: LiveSeat,
) -> Result<[bool; 5], Refusal>
    requires site { ((arc_value words.now).words.shared.table_id ≡ B.table) × (root.table_id ≡ B.table) × ((arc_value words.now).words.shared.key ≡ B.sizes) }
    requires new { root.me ≡ (first_view (arc_value words.now).words.shared.key, []) }
{
    let mut record = first_record::<MembPlan, AnyChain, B>(words, root);
    let mut reader: Reader<MembPlan, AnyChain, B> = Reader::register(rt, words, &mut record)?;
    let set = words.words.shared.peek(48) == 1;
    reader.lock()?;
    let Err((Refusal::Busy, mut reader)) = reader.unregister(&mut record) else {
        return Err(Refusal::NotOpen);
    };
    let locked = reader.word() == 1;
    reader.unlock()?;
    let left = reader.unregister(&mut record).is_ok();
    let cleared = words.words.shared.peek(48) == 0;
    let dropped: Reader<MembPlan, AnyChain, B> = Reader::register(rt, words, &mut record)?;
    drop(dropped);
    let next: Reader<MembPlan, AnyChain, B> = Reader::register(rt, words, &mut record)?;
    Ok([set, locked, left, cleared, next.slot() == 1])
}

#[test]
fn no_slot_is_left_after_the_last(rt: HostRuntime) {
    let (table, root) = LiveTable::<MembPlan, AnyChain>::new(rt.alloc(), 256, 1, 1, 4).expect(
        &rt, "memory",
    );
    let words = Arc::new(rt.alloc(), table).expect(&rt, "memory");
    let filled = fills::<Brand, _>(&rt, rt.alloc(), &words, root).expect(&rt, "not refused");
    assert_eq!(rt; filled, (256, true, 255, 255, true));
    for group in 48..52 {
        assert_eq!(rt; words.words.shared.peek(group), u64::MAX);
    }
}

#[test]
fn a_busy_reader_comes_back(rt: HostRuntime) {
    let (table, root) = LiveTable::<MembPlan, AnyChain>::new(rt.alloc(), 2, 1, 1, 4).expect(
        &rt, "memory",
    );
    let words = Arc::new(rt.alloc(), table).expect(&rt, "memory");
    let left = leaves::<Brand, _>(&rt, &words, root).expect(&rt, "not refused");
    assert_eq!(rt; left, [true, true, true, true, true]);
}
