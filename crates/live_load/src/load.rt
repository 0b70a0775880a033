//! What a run puts on a domain.

/// How many threads there are of each kind, and when they end.
#[derive(Clone, Copy, Debug, PartialEq, Eq, Drop)]
pub struct Load {
    /// How many readers, with a slot each.
    pub readers: u32,
    /// How many updaters, with a chain each.
    pub updaters: u32,
    /// How many workers, with a queue each.
    pub workers: u32,
    /// How many records each updater retires, and how many sections each reader opens.
    pub rounds: u32,
    /// The seconds after which readers and updaters end, where they have not ended before.
    pub seconds: Option<u32>,
}
