//! The rules of chains under which chains are maps.

ghost use Rattle.std.specs.Prelude.{Bool};
ghost use Rattle.live_log.specs.Maps.{HasMaps};
ghost use Rattle.live_log.proofs.Lemmas.{keyed_maps, tabled_maps};

use domain::{ChainRule, Keyed, Tabled};

/// A rule under which chains are maps: a payload is a key, its value, a rank, and 0.
pub trait MapRule: ChainRule {
    /// What lookups and writers go by, in either flavour: in each chain keys differ and ranks fall, what takes the
    /// place of a key keeps its rank, and in a chain of keys with no note the rule of keyed chains decides.
    ghost maps: { (qsbr : Bool) → HasMaps qsbr Self.allows };
}

impl MapRule for Keyed {
    ghost maps = { keyed_maps };
}

impl MapRule for Tabled {
    ghost maps = { tabled_maps };
}
