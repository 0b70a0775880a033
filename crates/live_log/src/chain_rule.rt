//! Which stores of a chain may follow a log.

/// What may be published in a domain's chains, as a definition over its log.
pub trait ChainRule {
    ghost use Rattle.std.specs.Prelude.{List};
    ghost use Rattle.live_log.specs.declared.event.LiveEvent.{LiveEvent};

    /// Whether this push, replacement, cut or note may follow this log, which has its newest event first. Of other
    /// events the rule is not asked.
    ghost allows: { List LiveEvent → LiveEvent → Type 0 };
}

/// Every push, replacement, cut and note may come.
pub struct AnyChain;

impl ChainRule for AnyChain {
    ghost allows = { λ log event. Unit {0} };
}

/// In each chain keys differ and ranks fall, and a replacement has the key and the rank of what it replaces. A payload
/// is a key, a value, a rank, and 0.
pub struct Keyed;

impl ChainRule for Keyed {
    ghost use Rattle.live_log.specs.Keys.{keyed};

    ghost allows = { keyed };
}

/// A chain has keys, by the rule of keyed chains, or one directory, which names the chains of a table and which only
/// another directory replaces. The payload of a directory is the number of the first chain that it names, how many it
/// names, 0, and 1. Each chain that it names has its chain's number and 1 as its note. Once it is replaced, nothing is
/// written to a chain that it named, nor its note changed, until every section of then has ended.
pub struct Tabled;

impl ChainRule for Tabled {
    ghost use Rattle.live_log.specs.Tables.{tabled};

    ghost allows = { tabled };
}
