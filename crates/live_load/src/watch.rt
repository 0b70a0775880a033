//! Who hears how far a run is.

/// Who hears how far a run is.
pub trait Watch {
    /// The first updater has done this many rounds. It is called in that updater's thread, once in 16,384 rounds.
    fn hear(&self, rounds: u32);
}

/// Nobody hears.
#[derive(Clone, Copy, Drop)]
pub struct Unwatched;

impl Watch for Unwatched {
    fn hear(&self, _rounds: u32) {}
}
