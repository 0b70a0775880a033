//! What holds of every registry, whatever calls are made of it.

ghost use Rattle.std.specs.Prelude.{ℕ, List};
ghost use Rattle.registry.specs.History.{Call, IsHistory, ClaimsOnce};

/// Over every history of calls, each claimed slot is one of the registry's, and no two have one number until the first
/// was given back; a claim is refused exactly where every slot was claimed and not given back.
pub fn slots_are_claimed_once()
    ensures { (slots : ℕ) (calls : List Call) → IsHistory slots calls → ClaimsOnce slots calls }
{}
