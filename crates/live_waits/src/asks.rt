//! An ask of one who waits for its answer.
ghost use Rattle.std.specs.Prelude.{◌≡◌, ◌≢◌, ◌+◌, ◌≤◌, ◌<◌, ◌^◌, ◌↔◌, IfErr, IfOk, IsOk};
ghost use Rattle.rcu_model.specs.declared.refusal.Refusal.TheVariants.{Exhausted};
ghost use Rattle.poll_cookie.specs.Cookie.{cookie_for};
ghost use Rattle.call_rcu_worker.specs.declared.sync.SyncCore.TheVariants.{Asks, Waits};
ghost use Rattle.call_rcu_worker.specs.Sync.{telling, told_of};
ghost use Rattle.live_log.specs.Log.{seq_of};
ghost use Rattle.live_words.specs.live_rule.Steps.{Keeps};
ghost use Rattle.live_words.specs.step_grace.Periods.{LoadedSeq};
ghost use Rattle.live_waits.specs.Answers.{IsCookieOf};
ghost use Rattle.live_waits.specs.Asks.{cookie_in};

use call_rcu_worker::{SyncCore, Told};
use gp_memb::GracePlan;
use live_log::ChainRule;
use live_words::{LiveSeat, LiveTable, load_seq};
use rcu_model::Refusal;
use std::snapshot::Snapshot;

/// An ask of a caller who waits for its answer: where the wait stands, and the log at the ask's load. The log has no
/// bytes.
#[derive(Drop)]
pub struct LiveAsk<P: GracePlan> {
    pub(crate) core: SyncCore<P>,
    pub(crate) asked: Snapshot<LiveSeat>,
    pub(crate) ghost waits: { core ≡ Waits (cookie_in core) },
    pub(crate) ghost fits: { IsCookieOf asked.value.me.0.seen (cookie_in core) × (cookie_in core ≤ 2 ^ 62 + 2) },
}

/// Asks for a grace period, as the first step of liburcu's `synchronize_rcu`, before the grace lock is taken: loads the
/// sequence number and notes its cookie. The ask keeps the log at that load, which begins with all that the caller had
/// seen and heard. `GraceWriter::answer` answers it.
///
/// Refused with `Exhausted` exactly where the loaded number is at or above 2^62.
pub fn ask<P: GracePlan + Drop, K: ChainRule>(
    table: &LiveTable<P, K>,
    seat: &mut LiveSeat,
) -> Result<LiveAsk<P>, Refusal>
    requires { seat.old.table_id ≡ table.now.words.shared.table_id }
    ensures seat { Keeps seat.old seat.new }
    ensures looked { LoadedSeq P.QSBR K.allows seat.old.me seat.new.me }
    ensures ask { IfOk result (λ a. (a.asked.value.me.0.seen ≡ seat.new.me.0.seen) × (cookie_for (seq_of seat.new.me.0.seen) ≡ Ok (cookie_in a.core))) }
    ensures refused { IfErr result (λ e. e ≡ Exhausted) }
    ensures taken { IsOk result ↔ (seq_of seat.new.me.0.seen < 2 ^ 62) }
{
    let seq = load_seq(table, seat);
    let mut core = SyncCore::new();
    core.told(seq)?;
    Ok(LiveAsk {
        core,
        asked: Snapshot::of(&*seat),
    })
}

/// Tells the core that its step was made, and what it loaded. After the ask that is never refused.
#[inline(always)]
pub(crate) fn go_on<P: GracePlan + Drop>(core: &mut SyncCore<P>, loaded: u64) -> Told
    requires { core.old ≢ Asks }
    ensures { told_of P.action P.turn P.taken core.old loaded ≡ telling result core.new }
{
    match core.told(loaded) {
        Ok(told) => told,
        Err(_) => unreachable!(),
    }
}
