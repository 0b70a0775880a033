//! Laws over all schedules.

ghost use Rattle.std.specs.Prelude.{◌≡◌, ◌≤◌, ◌%◌, ◌^◌, ℕ, List, false, IsTrue};
ghost use Rattle.rcu_model.specs.Machine.{IsRun};
ghost use Rattle.reader_word.specs.declared.layout.Layout.{Layout};
ghost use Rattle.world_state.specs.declared.config.Config.{Config};
ghost use Rattle.world_state.specs.declared.line.Line.{Line};
ghost use Rattle.world_state.specs.Limits.{is_within_limits};
ghost use Rattle.world_state.specs.View.{BoardView, fresh_at, plans_of};
ghost use Rattle.world.specs.Lines.{world_after};
ghost use Rattle.world.specs.PlanLaws.{WorldPlanLaws};
ghost use Rattle.world.specs.Reached.{IsReached};
ghost use Rattle.world.specs.Shown.{IsInRange};
ghost use Rattle.rcu_model.specs.Promises.{IsSafeLog};
ghost use Rattle.world.specs.Steps.{WorldView, IsReachedWorld, is_supported_at, fresh_world_at, world_after_lines, log_of, answered_events};

use gp_memb::MembPlan;
use gp_qsbr::QsbrPlan;
use rcu_model::every_run_is_safe;
use world_state::WorldPlan;

/// What each law of worlds goes by of a plan.
pub(crate) fn plan_keeps_its_laws<P: WorldPlan>()
    ensures { (layout : Layout) (slots : ℕ) → WorldPlanLaws (plans_of P.QSBR P.made P.action P.turn P.taken) layout slots (P.is_begun layout false slots) P.present }
{}

/// The schedule theorem: for every schedule within the limits, whatever the plan and wherever the sequence numbers
/// begin, the log is a run of the abstract machine.
pub fn log_is_a_run<P: WorldPlan>()
    ensures { (config : Config) (seq : ℕ) (lines : List Line) → IsTrue (is_within_limits config) → seq % 2 ≡ 0 → seq ≤ 2 ^ 62 → IsRun (world_after (plans_of P.QSBR P.made P.action P.turn P.taken) (fresh_at config seq) lines).log }
{
    plan_keeps_its_laws::<P>();
}

/// The numbers of a world that lines led to are small enough for its next step.
pub(crate) fn numbers_stay_in_range<P: WorldPlan>()
    ensures { (w : BoardView P) → IsReached (plans_of P.QSBR P.made P.action P.turn P.taken) w → IsInRange (plans_of P.QSBR P.made P.action P.turn P.taken) w }
{
    plan_keeps_its_laws::<P>();
}

/// The log of each world that lines led to keeps the promises of logs.
pub(crate) fn reached_worlds_are_safe()
    ensures { (w : WorldView) → IsReachedWorld w → IsSafeLog (log_of w) }
{
    log_is_a_run::<MembPlan>();
    log_is_a_run::<QsbrPlan>();
    every_run_is_safe();
}

/// The headline, for every config and first sequence number that make a world, and all lines: the log holds the events
/// of the answers in order, and is a run of the abstract machine, in which an object's callback runs at most once and
/// only after every section open at its retirement has ended, so no section ever reads or finds a reclaimed object; and
/// an ask is answered, and a barrier ended, at most once and only after what it awaits.
pub fn every_schedule_reclaims_safely()
    ensures events { (config : Config) (seq : ℕ) (lines : List Line) → log_of (world_after_lines (fresh_world_at config seq) lines) ≡ answered_events (fresh_world_at config seq) lines }
    ensures safe { (config : Config) (seq : ℕ) (lines : List Line) → IsTrue (is_supported_at config seq) → IsSafeLog (log_of (world_after_lines (fresh_world_at config seq) lines)) }
{
    reached_worlds_are_safe();
}
