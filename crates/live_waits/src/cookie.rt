//! An ask, its cookie, and polls for it.
ghost use Rattle.std.specs.Prelude.{◌≡◌, ◌+◌, ◌≤◌, ◌<◌, ◌^◌, ◌↔◌, IfErr, IfOk, IsOk, IsTrue};
ghost use Rattle.rcu_model.specs.declared.refusal.Refusal.TheVariants.{Exhausted};
ghost use Rattle.poll_cookie.specs.Cookie.{cookie_for};
ghost use Rattle.live_log.specs.Log.{Begins, HaveEnded, seq_of};
ghost use Rattle.live_words.specs.live_rule.Steps.{Keeps};
ghost use Rattle.live_words.specs.step_grace.Periods.{LoadedSeq};
ghost use Rattle.live_waits.specs.Answers.{EndedByThen, IsCookieOf};

use gp_memb::GracePlan;
use live_log::ChainRule;
use live_words::{LiveSeat, LiveTable, load_seq};
use poll_cookie::{Cookie, cookie_of, is_past};
use rcu_model::Refusal;
use std::snapshot::Snapshot;

/// A cookie, and the log at the load that it was made of. The log has no bytes.
#[derive(Drop)]
pub struct LiveCookie {
    pub(crate) cookie: Cookie,
    pub(crate) asked: Snapshot<LiveSeat>,
    pub ghost fits: { IsCookieOf asked.value.me.0.seen cookie × (cookie ≤ 2 ^ 62 + 2) },
}

/// Asks for a grace period, liburcu's `start_poll_synchronize_rcu`: loads the sequence number and takes its cookie. The
/// cookie keeps the log at that load, which begins with all that the caller had seen and heard.
///
/// Refused with `Exhausted` exactly where the loaded number is at or above 2^62.
pub fn start_poll<P: GracePlan, K: ChainRule>(
    table: &LiveTable<P, K>,
    seat: &mut LiveSeat,
) -> Result<LiveCookie, Refusal>
    requires { seat.old.table_id ≡ table.now.words.shared.table_id }
    ensures seat { Keeps seat.old seat.new }
    ensures looked { LoadedSeq P.QSBR K.allows seat.old.me seat.new.me }
    ensures cookie { IfOk result (λ c. (c.asked.value.me.0.seen ≡ seat.new.me.0.seen) × (cookie_for (seq_of seat.new.me.0.seen) ≡ Ok c.cookie)) }
    ensures refused { IfErr result (λ e. e ≡ Exhausted) }
    ensures taken { IsOk result ↔ (seq_of seat.new.me.0.seen < 2 ^ 62) }
{
    let seq = load_seq(table, seat);
    let cookie = cookie_of(seq)?;
    Ok(LiveCookie {
        cookie,
        asked: Snapshot::of(&*seat),
    })
}

/// Whether the ask is answered, liburcu's `poll_state_synchronize_rcu`: loads the sequence number, and is true exactly
/// where that is at or above the cookie. Then each section that was open in the cookie's log has ended, where the caller
/// has seen, or heard of, that log. So it has for a caller who hears of that log later.
pub fn poll<P: GracePlan, K: ChainRule>(
    table: &LiveTable<P, K>,
    seat: &mut LiveSeat,
    cookie: &LiveCookie,
) -> bool
    requires { seat.old.table_id ≡ table.now.words.shared.table_id }
    ensures seat { Keeps seat.old seat.new }
    ensures looked { LoadedSeq P.QSBR K.allows seat.old.me seat.new.me }
    ensures exact { IsTrue result ↔ (cookie.now.cookie ≤ seq_of seat.new.me.0.seen) }
    ensures later { IsTrue result → EndedByThen P.QSBR K.allows cookie.now.asked.value.me.0.seen seat.new.me.0.seen }
    ensures past { Begins cookie.now.asked.value.me.0.seen seat.new.me.0.seen → IsTrue result → HaveEnded cookie.now.asked.value.me.0.seen seat.new.me.0.seen }
{
    let seq = load_seq(table, seat);
    is_past(cookie.cookie, seq)
}
