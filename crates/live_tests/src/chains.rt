//! Each step on records and chains once, at concrete types of both flavours. The tables have one slot, one chain, no
//! queue and four records: the chain's head is word 88, its hold word 89, its note 90, and record i begins at word
//! 6 i + 112.

ghost use Rattle.std.specs.Prelude.{◌≡◌, ◌<◌, IsTrue};
ghost use Rattle.live_words.specs.live_rule.Rights.{IsFresh, cell_in};
ghost use Rattle.live_words.specs.live_rule.Steps.{Keeps};

use gp_memb::{GracePlan, MembPlan};
use gp_qsbr::QsbrPlan;
use live_words::{
    AnyChain, LiveSeat, LiveTable, free_chain, hold_chain, load_head, load_header, load_link,
    load_note, load_number, load_word, next_number, push, store_discard, store_link, store_note,
    store_push, store_word, take_cell,
};

/// Takes a record for the next object, and says whether it did.
fn fresh_record<P: GracePlan>(
    table: &LiveTable<P, AnyChain>,
    seat: &mut LiveSeat,
    cell: usize,
) -> bool
    requires { (seat.old.table_id ≡ table.now.words.shared.table_id) × (seat.old.me.0.sizes ≡ table.now.words.shared.key) × (cell < table.now.pool) }
    ensures seat { Keeps seat.old seat.new × (seat.new.me.0.sizes ≡ seat.old.me.0.sizes) × (seat.new.me.0.chains ≡ seat.old.me.0.chains) }
    ensures fresh { IsTrue result → IsFresh seat.new.me.0 × (cell_in seat.new.me.0.object ≡ cell) }
{
    let header = load_header(table, seat, cell);
    let number = next_number(table, cell, header);
    if header % 4 != 0 || number >= 1 << 62 {
        return false;
    }
    take_cell(table, seat, cell, header, number) == header
}

#[test]
fn a_record_is_taken_and_discarded(rt: HostRuntime) {
    let (table, mut root) = LiveTable::<MembPlan, AnyChain>::new(rt.alloc(), 1, 1, 0, 4).expect(
        &rt, "memory",
    );
    assert_eq!(rt; load_header(&table, &mut root, 2), 0);
    let taken = fresh_record(&table, &mut root, 2);
    assert!(rt; taken);
    if taken {
        assert_eq!(rt; table.words.shared.peek(124), 25);
        store_link(&table, &mut root, 2, 7);
        assert_eq!(rt; table.words.shared.peek(125), 7);
        store_word(&table, &mut root, 2, 3, 11);
        assert_eq!(rt; table.words.shared.peek(129), 11);
        let number = load_number(&table, &mut root, 2);
        assert_eq!(rt; number, 6);
        store_discard(&table, &mut root, 2, number);
        assert_eq!(rt; table.words.shared.peek(124), 24);
    }
}

#[test]
fn a_record_is_pushed_and_loaded(rt: HostRuntime) {
    let (table, mut root) = LiveTable::<QsbrPlan, AnyChain>::new(rt.alloc(), 1, 1, 0, 4).expect(
        &rt, "memory",
    );
    let taken = fresh_record(&table, &mut root, 2);
    assert!(rt; taken);
    let held = hold_chain(&table, &mut root, 0);
    assert_eq!(rt; held, 0);
    let mut other = table.tell(&mut root);
    assert_eq!(rt; hold_chain(&table, &mut other, 0), 1);
    if taken && held == 0 {
        store_word(&table, &mut root, 2, 0, 5);
        let head = load_head(&table, &mut root, 0);
        push(&table, &mut root, 0, 2, head);
        assert_eq!(rt; load_head(&table, &mut root, 0), 3);
        assert_eq!(rt; load_link(&table, &mut root, 2), 0);
        assert_eq!(rt; load_word(&table, &mut root, 2, 0), 5);
        store_note(&table, &mut root, 0, 9);
        assert_eq!(rt; load_note(&table, &mut root, 0), 9);
        free_chain(&table, &mut root, 0);
        assert_eq!(rt; table.words.shared.peek(89), 0);
    }
}

#[test]
fn a_head_is_stored_after_its_link(rt: HostRuntime) {
    let (table, mut root) = LiveTable::<MembPlan, AnyChain>::new(rt.alloc(), 1, 1, 0, 4).expect(
        &rt, "memory",
    );
    let taken = fresh_record(&table, &mut root, 1);
    assert!(rt; taken);
    let held = hold_chain(&table, &mut root, 0);
    assert_eq!(rt; held, 0);
    if taken && held == 0 {
        let head = load_head(&table, &mut root, 0);
        store_link(&table, &mut root, 1, head);
        store_push(&table, &mut root, 0, 1);
        assert_eq!(rt; table.words.shared.peek(88), 2);
        assert_eq!(rt; table.words.shared.peek(119), 0);
    }
}
