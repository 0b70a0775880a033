//! Who holds the locks.

ghost use Rattle.std.specs.Prelude.{ℕ, List, IsTrue};
ghost use Rattle.world_state.specs.declared.config.Config.{Config};
ghost use Rattle.world_state.specs.declared.line.Line.{Line};
ghost use Rattle.world.specs.Locks.{LocksAreHeldInside};
ghost use Rattle.world.specs.Steps.{is_supported_at, fresh_world_at, world_after_lines};

use crate::laws::plan_keeps_its_laws;
use gp_memb::MembPlan;
use gp_qsbr::QsbrPlan;

/// For every config and first sequence number that make a world, and all lines: the grace lock is held by an updater or
/// worker exactly while its grace period stands between the step that locks and the one that unlocks, and a queue's
/// lock by an updater exactly while it retires an object into this queue, from its first step to its last. So nobody
/// else holds them, two are never inside at once, and who is done has freed the lock.
pub fn locks_are_held_by_those_inside()
    ensures { (config : Config) (seq : ℕ) (lines : List Line) → IsTrue (is_supported_at config seq) → LocksAreHeldInside (world_after_lines (fresh_world_at config seq) lines) }
{
    plan_keeps_its_laws::<MembPlan>();
    plan_keeps_its_laws::<QsbrPlan>();
}
