//! Asks, polls and answers at concrete types of both flavours. Expected words are those of the layout: the sequence
//! number is word 16, and the phase or number word 32.

use gp_memb::MembPlan;
use live_log::AnyChain;
use live_waits::{Answer, GraceWriter, ask, poll, start_poll};
use live_words::LiveTable;

#[test]
fn phases_answer_asks(rt: HostRuntime) {
    let (table, mut root) = LiveTable::<MembPlan, AnyChain>::new(rt.alloc(), 70, 1, 1, 4).expect(
        &rt, "memory",
    );
    let mut writer = GraceWriter::<MembPlan>::new(table.cut_grace(&mut root));
    let mut other = table.tell(&mut root);
    let mut third = table.tell(&mut root);
    let early = start_poll(&table, &mut root).expect(&rt, "not exhausted");
    let own = ask(&table, &mut root).expect(&rt, "not exhausted");
    let shared = ask(&table, &mut other).expect(&rt, "not exhausted");
    assert!(rt; !poll(&table, &mut third, &early));
    assert_eq!(rt; writer.answer(&rt, &table, &mut root, own), Answer::Own);
    assert!(rt; poll(&table, &mut third, &early));
    assert_eq!(rt; table.words.shared.peek(16), 2);
    assert_eq!(rt; table.words.shared.peek(32), 0);
    assert_eq!(rt;
        writer.answer(&rt, &table, &mut other, shared),
        Answer::Shared
    );
    assert_eq!(rt; table.words.shared.peek(16), 2);
    let late = ask(&table, &mut third).expect(&rt, "not exhausted");
    assert_eq!(rt; writer.answer(&rt, &table, &mut third, late), Answer::Own);
    assert_eq!(rt; table.words.shared.peek(16), 4);
}
