//! What is called with a record that an updater retired.

use rcu_hash::{Deleter, Ripe};

/// The callback of an updater's round, which boxes nothing: it answers the round's number.
#[derive(Drop)]
pub struct RoundDone(pub u64);

impl Deleter for RoundDone {
    ghost use Rattle.std.specs.Prelude.{◌≡◌};

    ghost answers = { λ d _ code. code ≡ d.0 };

    fn call(self, _ripe: Ripe) -> u64 {
        self.0
    }
}
