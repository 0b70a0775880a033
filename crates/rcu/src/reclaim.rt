//! What a map's worker calls.

use rcu_hash::{Deleter, Ripe};

/// What is done with a record of a map that no section can hold any more.
#[derive(Clone, Copy, Drop)]
pub enum Reclaim<F> {
    /// Its entry has another record since the map grew: nothing is done.
    Moved,
    /// Its entry left the map, or got another value: this is called with the record. Its first word is the key, and its
    /// second one the value.
    Gone(F),
}

impl<F: Deleter> Deleter for Reclaim<F> {
    ghost use Rattle.std.specs.Prelude.{◌≡◌};
    ghost use Rattle.rcu.specs.declared.reclaim.Reclaim.TheVariants.{Gone, Moved};

    // 0 where its entry moved, and else what the inner one answers.
    ghost answers = { elim [ Moved ↦ λ _ code. code ≡ 0 | Gone f ↦ F.answers f ] };

    fn call(self, ripe: Ripe) -> u64 {
        match self {
            Reclaim::Moved => 0,
            Reclaim::Gone(deleter) => deleter.call(ripe),
        }
    }
}
