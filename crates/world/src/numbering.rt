//! How large the numbers in logs are, and in which order they are given.

ghost use Rattle.std.specs.Prelude.{◌*◌, ℕ, List, length, All, IsTrue};
ghost use Rattle.world_state.specs.declared.config.Config.{Config};
ghost use Rattle.world_state.specs.declared.line.Line.{Line};
ghost use Rattle.world.specs.Given.{IsCounted, ObjectsAreGivenOnce};
ghost use Rattle.world.specs.Numbering.{IsNumberedWithin};
ghost use Rattle.world.specs.Steps.{is_supported_at, fresh_world_at, world_after_lines, answered_events};

use crate::laws::plan_keeps_its_laws;
use gp_memb::MembPlan;
use gp_qsbr::QsbrPlan;

/// For every config and first sequence number that make a world, and all lines, no event of the answers gives a large
/// number: readers and chains are below 64 and queues below 8, and ordinals, objects, asks and barriers are at most
/// twice the number of lines.
pub fn numbers_count_lines()
    ensures { (config : Config) (seq : ℕ) (lines : List Line) → IsTrue (is_supported_at config seq) → All (IsNumberedWithin (2 * length lines)) (answered_events (fresh_world_at config seq) lines) }
{
    plan_keeps_its_laws::<MembPlan>();
    plan_keeps_its_laws::<QsbrPlan>();
}

/// For every config and first sequence number that make a world, and all lines: in the events of the answers the
/// sections of each reader, the asks and the barriers are numbered 1, 2, 3, .. in the order in which they begin. The
/// objects that came in, together with those that updaters have made and are yet to bring in, have the numbers from 1
/// to `World::objects_given`, each once; an object has its number when it is made, so another one may come in before
/// it.
pub fn numbers_are_given_in_order()
    ensures counted { (config : Config) (seq : ℕ) (lines : List Line) → IsTrue (is_supported_at config seq) → IsCounted (answered_events (fresh_world_at config seq) lines) }
    ensures objects { (config : Config) (seq : ℕ) (lines : List Line) → IsTrue (is_supported_at config seq) → ObjectsAreGivenOnce (world_after_lines (fresh_world_at config seq) lines) }
{
    plan_keeps_its_laws::<MembPlan>();
    plan_keeps_its_laws::<QsbrPlan>();
}
