//! A slot that is claimed.

ghost use Rattle.std.specs.Prelude.{◌≡◌};

/// A slot that a registry gave, until it is given back. One that is dropped stays claimed.
#[derive(Debug, Drop)]
pub struct Slot {
    // The key of its claim in the registry that gave it.
    pub(crate) claim: usize,
    pub(crate) number: usize,
}

impl Slot {
    /// Which slot it is: a number from 0 on, below the number of the registry's slots.
    pub fn number(&self) -> usize
        ensures { result ≡ self.now.number }
    {
        self.number
    }
}
