//! A deleter of the tests' own, which boxes nothing.

use rcu_hash::{Deleter, Ripe};

/// Answers the first word of the object and this number, added.
#[derive(Drop)]
pub(crate) struct Adds(pub(crate) u64);

impl Deleter for Adds {
    ghost use Rattle.std.specs.Prelude.{◌≡◌, ◌+◌, ◌^◌, ◌%◌, slice_index};

    ghost answers = { λ d ripe code. code ≡ (slice_index ripe.payload 0 + d.0) % 2 ^ 64 };

    fn call(self, ripe: Ripe) -> u64 {
        ripe.payload[0].wrapping_add(self.0)
    }
}
