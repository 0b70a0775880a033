//! Calls of records, chains and queues without what their contracts tell: a test proves no more than that its calls are
//! safe, and each clause that it hears costs time.

ghost use Rattle.std.specs.Prelude.{◌≡◌};

use callback_queue::Ticket;
use gp_memb::GracePlan;
use live_callbacks::Items;
use live_read::{Handle, Site};
use live_words::{AnyChain, LiveTable};
use live_write::{Chain, Owned, Unlinked};
use rcu_model::{ObjectId, Refusal};
use std::sync::Wait;

/// The writer of a chain whose owner the table itself is.
pub(crate) type Writer<'t, P, B> = Chain<'t, P, AnyChain, B, LiveTable<P, AnyChain>>;

/// `alloc`.
pub(crate) fn alloc<P: GracePlan, B: Site, R: Wait>(
    rt: &R,
    table: &LiveTable<P, AnyChain>,
    record: &mut Handle<B>,
    words: [u64; 4],
) -> Result<Owned<B>, Refusal>
    requires { (table.now.words.shared.table_id ≡ B.table) × (table.now.words.shared.key ≡ B.sizes) }
{
    live_write::alloc(rt, table, record, words)
}

/// `Chain::hold`.
pub(crate) fn hold<'t, P: GracePlan, B: Site>(
    table: &'t LiveTable<P, AnyChain>,
    record: &mut Handle<B>,
    chain: usize,
) -> Result<Writer<'t, P, B>, Refusal>
    requires { (table.now.words.shared.table_id ≡ B.table) × (table.now.words.shared.key ≡ B.sizes) }
{
    Chain::hold(table, table, record, chain)
}

/// `Chain::push`.
pub(crate) fn push<P: GracePlan, B: Site>(
    chain: &mut Writer<'_, P, B>,
    record: &mut Handle<B>,
    owned: Owned<B>,
) {
    chain.push(record, owned);
}

/// `Chain::cut`.
pub(crate) fn cut<P: GracePlan, B: Site>(
    chain: &mut Writer<'_, P, B>,
    record: &mut Handle<B>,
    index: usize,
) -> Result<Unlinked<B>, Refusal> {
    chain.cut(record, index)
}

/// `Items::retire`.
pub(crate) fn retire<P: GracePlan, B: Site>(
    items: &mut Items<B, ObjectId>,
    table: &LiveTable<P, AnyChain>,
    record: &mut Handle<B>,
    unlinked: Unlinked<B>,
    callback: ObjectId,
) -> Result<Ticket, (Refusal, Unlinked<B>, ObjectId)>
    requires { (table.now.words.shared.table_id ≡ B.table) × (table.now.words.shared.key ≡ B.sizes) }
    ensures { items.new.2 ≡ items.old.2 }
{
    items.retire(table, record, unlinked, callback)
}
