//! What a run puts its load on.

/// What a run puts its load on.
#[derive(Clone, Copy, Debug, PartialEq, Eq, Drop)]
pub enum Target {
    /// Chains, of which each updater has one.
    Chains,
    /// A keyed list, whose updaters take turns.
    Lists,
    /// A hash table.
    Tables,
    /// A hash table that grows and is tidied all the time.
    Growth,
}
