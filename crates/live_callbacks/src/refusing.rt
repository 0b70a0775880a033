//! Why a retirement is refused.

ghost use Rattle.std.specs.Prelude.{◌≡◌, ◌<◌};
ghost use Rattle.live_callbacks.specs.Refusing.{RefusesRetirement};

use gp_memb::GracePlan;
use live_read::{Caller, Site};
use live_words::{ChainRule, LiveTable, load_closed};
use rcu_model::Refusal;

/// Why a retirement into the queue is refused: `Closed` exactly where the queue's closed word, which is loaded for the
/// caller, is 1, and else `Memory`.
pub fn refusal_of<P: GracePlan, K: ChainRule, B: Site, W: Caller<B>>(
    table: &LiveTable<P, K>,
    caller: &mut W,
    queue: usize,
) -> Refusal
    requires site { (table.now.words.shared.table_id ≡ B.table) × (table.now.words.shared.key ≡ B.sizes) }
    requires queue { queue < table.now.queues }
    ensures { RefusesRetirement W.Caller P.QSBR K.allows table.now.words.shared.key queue caller.old caller.new result }
{
    let mut seat = caller.tell(table);
    let closed = load_closed(table, &mut seat, queue);
    caller.learn(table, seat);
    if closed == 1 {
        Refusal::Closed
    } else {
        Refusal::Memory
    }
}
