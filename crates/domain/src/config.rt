//! How large a domain is.

ghost use Rattle.std.specs.Prelude.{◌≡◌};
ghost use Rattle.domain.specs.Config.{within};

/// How large a domain is.
#[derive(Clone, Copy, Debug, PartialEq, Eq, Drop)]
pub struct LiveConfig {
    /// The slots of readers, from 1 to 256.
    pub slots: usize,
    /// The queues of callbacks, from 1 to 8.
    pub queues: usize,
    /// The chains, from 1 to 4096.
    pub chains: usize,
    /// The records, from 1 to 65536.
    pub pool: usize,
}

impl LiveConfig {
    ghost use Rattle.domain.specs.Config.{is_supported};

    /// Whether each number is within its limits.
    pub fn is_supported(self) -> bool
        ensures { result ≡ is_supported self }
    {
        is_within(self.slots, 256)
            && is_within(self.queues, 8)
            && is_within(self.chains, 4096)
            && is_within(self.pool, 65536)
    }
}

/// Whether the number is one from 1 to the greatest.
fn is_within(number: usize, most: usize) -> bool
    ensures { result ≡ within number most }
{
    number >= 1 && number <= most
}
