//! Waits that begin and end: grace periods that are asked for, and barriers.

ghost use Rattle.std.specs.Prelude.{ℕ, [], List, IfOk, OnErr};
ghost use Rattle.rcu_judge.specs.Waits.{AreWaits, Begins, Ends, StayWaits};

use number_runs::NumberRuns;
use std::alloc::{AllocError, Global};
use std::collections::HashMap;

/// The waits that have begun, by number. Those that are over take next to no memory where numbers count up.
#[derive(Drop)]
pub(crate) struct Waits {
    begun: NumberRuns,
    // The moments of those that are not over: each awaits who came before its moment.
    pending: HashMap<u64, usize>,
}

impl Waits {
    /// None has begun.
    pub(crate) fn new(alloc: Global) -> Self
        ensures { AreWaits result [] [] }
    {
        Waits {
            begun: NumberRuns::new(alloc),
            pending: HashMap::new(alloc),
        }
    }

    /// Begins a wait for who came before the moment: false where its number has begun before.
    ///
    /// # Errors
    /// `AllocError` where memory was refused; then the waits stay.
    pub(crate) fn begin(&mut self, number: u64, moment: usize) -> Result<bool, AllocError>
        ensures began { IfOk result (λ fresh. (begun over : List ℕ) → AreWaits self.old begun over → Begins self.old self.new begun over number moment fresh) }
        ensures refused { OnErr result (StayWaits self.old self.new) }
    {
        self.pending.reserve(1)?;
        if !self.begun.insert(number)? {
            return Ok(false);
        }
        self.pending.insert(number, moment)?;
        Ok(true)
    }

    /// Ends a wait: its moment, or none where it was not pending.
    pub(crate) fn end(&mut self, number: u64) -> Option<usize>
        ensures { (begun over : List ℕ) → AreWaits self.old begun over → Ends self.old self.new begun over number result }
    {
        self.pending.remove(&number)
    }
}
