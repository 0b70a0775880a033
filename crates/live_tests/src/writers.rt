//! Writers of chains, in both flavours, and a seat that walks across what they publish. The tables have one slot, one
//! chain, no queue and four records: the chain's hold word is word 89 and its note word 90.

ghost use Rattle.std.specs.Prelude.{◌≡◌, []};
ghost use Rattle.live_words.specs.live_rule.Steps.{Keeps};

use crate::plain;
use gp_memb::GracePlan;
use gp_qsbr::QsbrPlan;
use live_read::{Handle, Site};
use live_words::{AnyChain, LiveSeat, LiveTable, load_link};
use rcu_model::Refusal;
use std::marker::Brand;
use std::sync::Wait;

/// The word that leads on from the record that another word leads to: of no record 0.
fn after<P: GracePlan>(table: &LiveTable<P, AnyChain>, seat: &mut LiveSeat, link: u64) -> u64
    requires { (seat.old.table_id ≡ table.now.words.shared.table_id) × (seat.old.me.0.sizes ≡ table.now.words.shared.key) × (table.now.pool ≡ 4) }
    ensures { Keeps seat.old seat.new × (seat.new.me.0.sizes ≡ seat.old.me.0.sizes) }
{
    if link == 0 || link > 4 {
        return 0;
    }
    load_link(table, seat, (link - 1) as usize)
}

/// A chain with one object: its payload by `get`, its note before and after, its length where it is held again, and
/// whether each of four calls was refused as it has to be.
fn refuses<P: GracePlan, B: Site, R: Wait>(
    rt: &R,
    table: &LiveTable<P, AnyChain>,
    root: LiveSeat,
) -> Result<(Option<[u64; 4]>, [u64; 2], usize, [bool; 4]), Refusal>
    requires site { (table.now.words.shared.table_id ≡ B.table) × (table.now.words.shared.key ≡ B.sizes) × (root.table_id ≡ B.table) × (root.me.0.sizes ≡ B.sizes) × (root.me.1 ≡ []) }
{
    let mut record: Handle<B> = Handle::new(root);
    let missing = plain::hold(table, &mut record, 1);
    let mut chain = plain::hold(table, &mut record, 0)?;
    let busy = plain::hold(table, &mut record, 0);
    let first = plain::alloc(rt, table, &mut record, [3, 5, 7, 11])?;
    plain::push(&mut chain, &mut record, first);
    let payload = chain.get(0);
    let beyond = chain.get(1);
    let cut = plain::cut(&mut chain, &mut record, 1);
    let before = chain.note();
    chain.set_note(&mut record, 9);
    let notes = [before, chain.note()];
    let refusals = [
        matches!(missing, Err(Refusal::NoPlace)),
        matches!(busy, Err(Refusal::Busy)),
        beyond.is_none(),
        matches!(cut, Err(Refusal::NoPlace)),
    ];
    drop(chain);
    let again = plain::hold(table, &mut record, 0)?;
    again.release(&mut record);
    let last = plain::hold(table, &mut record, 0)?;
    Ok((payload, notes, last.len(), refusals))
}

#[test]
fn a_chain_has_one_writer(rt: HostRuntime) {
    let (table, root) = LiveTable::<QsbrPlan, AnyChain>::new(rt.alloc(), 1, 1, 0, 4).expect(
        &rt, "memory",
    );
    let (payload, notes, length, refusals) = refuses::<_, Brand, _>(&rt, &table, root).expect(
        &rt, "records",
    );
    assert_eq!(rt; payload, Some([3, 5, 7, 11]));
    assert_eq!(rt; notes, [0, 9]);
    assert_eq!(rt; length, 1);
    assert_eq!(rt; refusals, [true; 4]);
    assert_eq!(rt; table.words.shared.peek(89), 0);
    assert_eq!(rt; table.words.shared.peek(90), 9);
}
