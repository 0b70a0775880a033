//! Callbacks for programs that need none.

use rcu_hash::{Deleter, Ripe};

/// What is done with a record that no section can hold any more: nothing but to use it again.
#[derive(Clone, Copy, Drop)]
pub struct NoCallback;

impl Deleter for NoCallback {
    ghost use Rattle.std.specs.Prelude.{◌≡◌};

    ghost answers = { λ _ _ code. code ≡ 0 };

    fn call(self, _ripe: Ripe) -> u64 {
        0
    }
}
