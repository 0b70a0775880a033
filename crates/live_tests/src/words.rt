//! Each step once, at concrete types of both flavours. Expected words are those of the layout: the sequence number is
//! word 16, the phase or number word 32, the group words are words 48 to 51, and the word of slot s is word 16 s + 64.

use gp_memb::MembPlan;
use gp_qsbr::QsbrPlan;
use live_read::ReaderCore;
use live_words::{
    AnyChain, LiveTable, claim, load_group, load_present, load_seq, load_slot, look_group,
    look_slot, store_even, store_odd, store_present,
};
use rcu_model::Refusal;
use std::sync::Arc;

#[test]
fn locks_nest_in_one_section(rt: HostRuntime) {
    let (table, mut root) = LiveTable::<MembPlan, AnyChain>::new(rt.alloc(), 70, 1, 1, 4).expect(
        &rt, "memory",
    );
    let seat = table.tell(&mut root);
    let words = Arc::new(rt.alloc(), table).expect(&rt, "memory");
    let own = Arc::try_clone(&words).expect(&rt, "few owners");
    let mut reader = ReaderCore::register(own, seat)
        .ok()
        .expect(&rt, "a free slot");
    assert_eq!(rt; words.words.shared.peek(48), 1);
    assert!(rt; matches!(reader.unlock(), Err(Refusal::NotOpen)));
    reader.lock().expect(&rt, "not full");
    assert_eq!(rt; words.words.shared.peek(64), 1);
    reader.lock().expect(&rt, "not full");
    assert_eq!(rt; words.words.shared.peek(64), 2);
    reader.unlock().expect(&rt, "open");
    assert_eq!(rt; words.words.shared.peek(64), 1);
    reader.unlock().expect(&rt, "open");
    assert_eq!(rt; reader.word(), 0);
    assert_eq!(rt; words.words.shared.peek(64), 0);
}

#[test]
fn announcements_copy_the_number(rt: HostRuntime) {
    let (table, mut root) = LiveTable::<QsbrPlan, AnyChain>::new(rt.alloc(), 2, 1, 1, 4).expect(
        &rt, "memory",
    );
    let seat = table.tell(&mut root);
    let words = Arc::new(rt.alloc(), table).expect(&rt, "memory");
    let own = Arc::try_clone(&words).expect(&rt, "few owners");
    let mut reader = ReaderCore::register(own, seat)
        .ok()
        .expect(&rt, "a free slot");
    reader.online().expect(&rt, "offline");
    assert_eq!(rt; reader.word(), 1);
    store_odd(&words, &mut root, 1);
    store_present(&words, &mut root, 1);
    reader.quiescent().expect(&rt, "online");
    assert_eq!(rt; reader.word(), 2);
    assert_eq!(rt; load_slot(&words, &mut root, 0), 2);
    assert_eq!(rt; load_group(&words, &mut root, 0), 1);
    reader.offline().expect(&rt, "online");
    assert_eq!(rt; words.words.shared.peek(64), 0);
}

#[test]
fn a_grace_period_with_no_slots(rt: HostRuntime) {
    let (table, mut root) = LiveTable::<MembPlan, AnyChain>::new(rt.alloc(), 0, 0, 0, 0).expect(
        &rt, "memory",
    );
    let mut grace = table.cut_grace(&mut root);
    store_odd(&table, &mut grace, 1);
    assert_eq!(rt; load_seq(&table, &mut root), 1);
    store_present(&table, &mut grace, 1);
    assert_eq!(rt; load_present(&table, &mut root), 1);
    store_even(&table, &mut grace, 2);
    assert_eq!(rt; load_seq(&table, &mut root), 2);
}

#[test]
fn a_slot_is_claimed_and_released(rt: HostRuntime) {
    let (table, mut root) = LiveTable::<QsbrPlan, AnyChain>::new(rt.alloc(), 66, 1, 1, 4).expect(
        &rt, "memory",
    );
    let mut one = table.new_seat();
    let mut other = table.tell(&mut root);
    assert_eq!(rt; look_group(&table, &mut one, 1), 0);
    assert_eq!(rt; claim(&table, &mut one, 65), 0);
    assert_eq!(rt; claim(&table, &mut other, 65), 2);
    assert_eq!(rt; claim(&table, &mut other, 64), 2);
    assert_eq!(rt; table.words.shared.peek(49), 3);
    assert_eq!(rt; look_slot(&table, &mut one, 65), 0);
}

#[test]
fn a_reader_leaves(rt: HostRuntime) {
    let (table, mut root) = LiveTable::<QsbrPlan, AnyChain>::new(rt.alloc(), 2, 1, 1, 4).expect(
        &rt, "memory",
    );
    let seat = table.tell(&mut root);
    let words = Arc::new(rt.alloc(), table).expect(&rt, "memory");
    let own = Arc::try_clone(&words).expect(&rt, "few owners");
    let mut reader = ReaderCore::register(own, seat)
        .ok()
        .expect(&rt, "a free slot");
    reader.online().expect(&rt, "offline");
    assert_eq!(rt; words.words.shared.peek(64), 1);
    assert!(rt; reader.unregister().is_ok());
    assert_eq!(rt; words.words.shared.peek(64), 0);
    assert_eq!(rt; words.words.shared.peek(48), 0);
}

#[test]
fn seats_are_cut_and_joined(rt: HostRuntime) {
    let (table, mut root) = LiveTable::<MembPlan, AnyChain>::new(rt.alloc(), 3, 2, 2, 4).expect(
        &rt, "memory",
    );
    let told = table.tell(&mut root);
    table.learn(&mut root, told);
    let queue = table.cut_spare_queue(&mut root);
    let object = table.cut_object(&mut root);
    table.take_object(&mut root, object);
    let chains = table.cut_chains(&mut root);
    table.join(&mut root, chains);
    let _lent = table.cut_lent_chains(&mut root);
    table.join(&mut root, queue);
    assert_eq!(rt; load_seq(&table, &mut root), 0);
}

#[test]
fn words_have_their_places(rt: HostRuntime) {
    let (table, _root) = LiveTable::<MembPlan, AnyChain>::new(rt.alloc(), 3, 2, 2, 4).expect(
        &rt, "memory",
    );
    assert_eq!(rt; table.seq_place(), 16);
    assert_eq!(rt; table.present_place(), 32);
    assert_eq!(rt; table.group_place(3), 51);
    assert_eq!(rt; table.slot_place(2), 96);
    assert_eq!(rt; table.head_place(0), 120);
    assert_eq!(rt; table.hold_place(1), 129);
    assert_eq!(rt; table.note_place(1), 130);
    assert_eq!(rt; table.queued_place(0), 144);
    assert_eq!(rt; table.closed_place(0), 145);
    assert_eq!(rt; table.finished_place(0), 160);
    assert_eq!(rt; table.work_place(1), 193);
    assert_eq!(rt; table.cell_place(0, 0), 216);
    assert_eq!(rt; table.cell_place(3, 5), 239);
}
