//! What the threads of a run count.

/// What the threads of a run count.
#[derive(Clone, Copy, Debug, PartialEq, Eq, Drop)]
pub struct Counts {
    /// The records that were retired.
    pub retired: u64,
    /// The callbacks that have run.
    pub finished: u64,
    /// The records that a reader found with words that differ.
    pub mixed: u64,
    /// The updaters that ended because no record became free.
    pub starved: u64,
}

/// Nothing was counted yet.
pub(crate) const NOTHING: Counts = Counts {
    retired: 0,
    finished: 0,
    mixed: 0,
    starved: 0,
};

impl Counts {
    /// Both counts, added, each at most 2^64 - 1.
    pub(crate) fn and(self, other: Counts) -> Counts {
        Counts {
            retired: self.retired.saturating_add(other.retired),
            finished: self.finished.saturating_add(other.finished),
            mixed: self.mixed.saturating_add(other.mixed),
            starved: self.starved.saturating_add(other.starved),
        }
    }
}
