//! Where no test of a line fails, its step is made.

ghost use Rattle.std.specs.Prelude.{◌≡◌, ◌≤◌, ◌%◌, ◌^◌, ℕ, List, IsTrue};
ghost use Rattle.world_state.specs.declared.config.Config.{Config};
ghost use Rattle.world_state.specs.declared.line.Line.{Line};
ghost use Rattle.world_state.specs.Limits.{is_within_limits};
ghost use Rattle.world_state.specs.View.{fresh_at, plans_of};
ghost use Rattle.world.specs.Lines.{world_after};
ghost use Rattle.world.specs.Tests.{IsTested};

use crate::laws::plan_keeps_its_laws;
use world_state::WorldPlan;

/// Where no test of a line fails, its step is made: nothing that it looks up is missing, whatever the plan, and whatever
/// lines came before. Else the first test that fails is the answer.
pub(crate) fn tests_are_made_in_order<P: WorldPlan>()
    ensures { (config : Config) (seq : ℕ) (lines : List Line) (line : Line) → IsTrue (is_within_limits config) → seq % 2 ≡ 0 → seq ≤ 2 ^ 62 → IsTested (plans_of P.QSBR P.made P.action P.turn P.taken) (world_after (plans_of P.QSBR P.made P.action P.turn P.taken) (fresh_at config seq) lines) line }
{
    plan_keeps_its_laws::<P>();
}
