//! A table that grows and is tidied, in both flavours: what the calls answer, and what stays where they are refused.

ghost use Rattle.std.specs.Prelude.{◌≡◌, IfOk};

use crate::deleter::Adds;
use rcu_model::Refusal;
use std::alloc::Global;

/// Makes this many callbacks.
pub(crate) fn callbacks(alloc: Global, many: usize) -> Result<Vec<Adds>, Refusal> {
    let mut jobs = Vec::new(alloc);
    for _ in 0..many {
        if jobs.push(Adds(0)).is_err() {
            return Err(Refusal::Memory);
        }
    }
    Ok(jobs)
}
