//! How one who makes calls hears what another has seen.

ghost use Rattle.std.specs.Prelude.{◌≡◌, [], ◌++◌};
ghost use Rattle.live_log.specs.Log.{Begins};
ghost use Rattle.live_words.specs.live_rule.Views.{bare};
ghost use Rattle.live_words.specs.step_grace.Periods.{at_load};
ghost use Rattle.live_read.specs.Hearing.{FindsNothing, IsAfter, IsAsBefore, Stays};

use crate::caller::Caller;
use crate::site::Site;
use gp_memb::GracePlan;
use live_words::{ChainRule, LiveSeat, LiveTable, load_seq};

/// A seat that has seen all that the caller has seen and heard of.
pub fn tell_all<B: Site, W: Caller<B>, P: GracePlan, K: ChainRule>(
    table: &LiveTable<P, K>,
    caller: &mut W,
) -> LiveSeat
    requires { table.now.words.shared.table_id ≡ B.table }
    ensures seat { (result.table_id ≡ B.table) × (result.me ≡ (at_load (bare B.sizes (W.seen caller.old) (W.heard caller.old)) result.me.0.seen, [])) }
    ensures told { IsAfter P.QSBR K.allows (W.seen caller.old) (W.heard caller.old) result.me.0.seen }
    ensures same { IsAsBefore W.Caller caller.old caller.new }
{
    let mut told = caller.tell(table);
    load_seq(table, &mut told);
    told
}

/// The caller hears what the seat has seen, which is spent, beside all that it had seen and heard of.
pub fn learn_more<B: Site, W: Caller<B>, P: GracePlan, K: ChainRule>(
    table: &LiveTable<P, K>,
    caller: &mut W,
    told: LiveSeat,
)
    requires table { (table.now.words.shared.table_id ≡ B.table) × (told.table_id ≡ B.table) × (told.me.1 ≡ []) }
    ensures kept { IsAfter P.QSBR K.allows (W.seen caller.old) (W.heard caller.old) (W.heard caller.new) }
    ensures heard { Begins told.me.0.seen (W.heard caller.new) }
    ensures looks { W.looks caller.new ≡ told.me.0.looks ++ W.looks caller.old }
    ensures same { Stays W.Caller caller.old caller.new }
{
    let mut own = tell_all(table, caller);
    table.learn(&mut own, told);
    load_seq(table, &mut own);
    caller.learn(table, own);
}

/// The one caller hears what the other has seen and heard of, beside all that it had seen and heard of itself.
pub fn inform<B: Site, S: Caller<B>, T: Caller<B>, P: GracePlan, K: ChainRule>(
    table: &LiveTable<P, K>,
    from: &mut S,
    to: &mut T,
)
    requires { table.now.words.shared.table_id ≡ B.table }
    ensures told { Begins (S.seen from.old) (T.heard to.new) × Begins (S.heard from.old) (T.heard to.new) }
    ensures kept { IsAfter P.QSBR K.allows (T.seen to.old) (T.heard to.old) (T.heard to.new) }
    ensures from { IsAsBefore S.Caller from.old from.new }
    ensures to { FindsNothing T.Caller to.old to.new }
{
    let told = tell_all(table, from);
    learn_more(table, to, told);
}
