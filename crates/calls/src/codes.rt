//! What is called with what is reclaimed.

use rcu_hash::{Deleter, Ripe};

/// Answers the code of its line and the first word of the record, added.
#[derive(Drop)]
pub(crate) struct Code(pub(crate) u64);

impl Deleter for Code {
    ghost use Rattle.std.specs.Prelude.{◌≡◌, ◌+◌, ◌^◌, ◌%◌, slice_index};

    ghost answers = { λ d ripe code. code ≡ (d.0 + slice_index ripe.payload 0) % 2 ^ 64 };

    fn call(self, ripe: Ripe) -> u64 {
        self.0.wrapping_add(ripe.payload[0])
    }
}
