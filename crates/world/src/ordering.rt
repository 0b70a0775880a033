//! In which order callbacks run.

ghost use Rattle.std.specs.Prelude.{ℕ, List, IsTrue};
ghost use Rattle.world_state.specs.declared.config.Config.{Config};
ghost use Rattle.world_state.specs.declared.line.Line.{Line};
ghost use Rattle.world.specs.RunOrder.{RunInOrder};
ghost use Rattle.world.specs.Steps.{is_supported_at, fresh_world_at, answered_events};

use crate::laws::plan_keeps_its_laws;
use gp_memb::MembPlan;
use gp_qsbr::QsbrPlan;

/// For every config and first sequence number that make a world, and all lines: in the events of the answers, which are
/// a run of the machine, the callbacks of each queue run in the order in which their objects were queued, and none is
/// passed over. So it is with the list of a liburcu `call_rcu` worker. Which worker ran a callback the log does not
/// tell.
pub fn callbacks_run_in_the_order_of_their_queue()
    ensures { (config : Config) (seq : ℕ) (lines : List Line) → IsTrue (is_supported_at config seq) → RunInOrder (answered_events (fresh_world_at config seq) lines) }
{
    plan_keeps_its_laws::<MembPlan>();
    plan_keeps_its_laws::<QsbrPlan>();
}
