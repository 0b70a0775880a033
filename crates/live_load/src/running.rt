//! A run, on whatever it is.

ghost use Rattle.std.specs.Prelude.{◌<◌};

use crate::chains::stress;
use crate::counts::Counts;
use crate::load::Load;
use crate::mapping::stress_map;
use crate::target::Target;
use crate::watch::Watch;
use gp_memb::GracePlan;
use rcu_model::Refusal;
use std::alloc::Global;
use std::sync::Wait;
use std::thread::Threads;
use std::time::Clock;

/// Readers, updaters and workers of one domain, each in a thread of its own, on this target: `stress` on chains. On a
/// list or a table one more thread waits and polls for grace periods, and where the table is to grow, another one lets
/// it. `watch` hears how far the first updater is.
///
/// Refused with `BadConfig` where there are more than 16 updaters of a list or a table, else as `stress`.
pub fn stress_on<
    P: GracePlan + Drop + Send + Sync,
    R: Threads + Wait + Clock + Sync,
    W: Watch + Sync,
>(rt: &R, alloc: Global, target: Target, load: Load, watch: &W) -> Result<Counts, Refusal>
    requires { 0 < load.updaters }
{
    match target {
        Target::Chains => stress::<P, R, W>(rt, alloc, load, watch),
        _ => stress_map::<P, R, W>(rt, alloc, target, load, watch),
    }
}
