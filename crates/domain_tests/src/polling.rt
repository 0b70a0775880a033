//! What a poll promises one who knew nothing of the ask.

ghost use Rattle.std.specs.Prelude.{IsTrue};
ghost use Rattle.live_log.specs.Log.{Begins, HaveEnded};

use domain::{ChainRule, Deleter, Domain, Handle, LiveCookie, Site};
use gp_memb::GracePlan;

/// One polls who knew nothing of the ask, and then hears of it from who made it: where the poll said true, each section
/// that was open at the ask has ended.
pub fn polls_and_then_hears<P: GracePlan + Drop, K: ChainRule, B: Site, D: Deleter>(
    domain: &Domain<P, K, B, D>,
    asker: &mut Handle<B>,
    other: &mut Handle<B>,
    cookie: &LiveCookie,
) -> bool
    requires { Begins cookie.now.asked.value.me.0.seen asker.old.seat.me.0.heard }
    ensures { IsTrue result → HaveEnded cookie.now.asked.value.me.0.seen other.new.seat.me.0.heard }
{
    let past = domain.poll(other, cookie);
    domain.inform(asker, other);
    past
}
