//! When readings fit a log.

ghost use Rattle.std.specs.Prelude.{◌≡◌, ◌∷◌, ℕ, Bool, Option, Some};
ghost use Rattle.rcu_model.specs.Machine.{IsOpen};
ghost use Rattle.rcu_model.specs.Sets.{first_of};
ghost use Rattle.rcu_model.specs.declared.event.ObjectId.{ObjectId};
ghost use Rattle.rcu_model.specs.declared.event.SectionId.{SectionId};
ghost use Rattle.live_log.specs.Log.{Follows, IsLiveRun, Log, objects_of, state_of};
ghost use Rattle.live_log.specs.declared.reading.Reading.{Reading};
ghost use Rattle.live_log.specs.declared.reading.Reading.TheVariants.{First, Next, Touch};
ghost use Rattle.live_log.specs.declared.reading.Mark.TheVariants.{Read};
ghost use Rattle.live_log.specs.Fit.{AreFitted, FitIn, HoldsIn, IsSoIn, Readings, ReadsOn, StartsHeld, StaysOpen, found_by, later, log_in, read_by};

use crate::chain_rule::ChainRule;

/// The readings of any number of sections fit the log together where those of each section alone do.
pub fn readings_go_together()
    ensures { (m : Readings) → ((s : SectionId) → AreFitted (read_by s m)) → AreFitted m }
{}

/// As the log goes on, readings that fitted it fit it still, and an open section goes on holding what it held.
pub fn fitted_goes_on<K: ChainRule>()
    ensures fitted { (qsbr : Bool) (since : Log) (m : Readings) → IsLiveRun qsbr K.allows (log_in (later since m)) → AreFitted m → AreFitted (later since m) }
    ensures held { (qsbr : Bool) (since : Log) (m : Readings) (s : SectionId) (o : ObjectId) → IsLiveRun qsbr K.allows (log_in (later since m)) → IsOpen (state_of (log_in m)) s → IsOpen (state_of (log_in (later since m))) s → HoldsIn m s o → HoldsIn (later since m) s o }
{}

/// A reading of a chain's first object fits a log in which the section is open and that is the first object.
pub fn first_fits<K: ChainRule>()
    ensures { (qsbr : Bool) (m : Readings) (s : SectionId) (c : ℕ) (found : Option ObjectId) → IsLiveRun qsbr K.allows (log_in m) → AreFitted m → IsOpen (state_of (log_in m)) s → first_of ((objects_of (log_in m)).chain c) ≡ found → AreFitted (Read s (First c found) ∷ m) }
{}

/// A reading of what follows an object fits a log in which the section is open and holds the object, and that follows.
pub fn next_fits<K: ChainRule>()
    ensures { (qsbr : Bool) (m : Readings) (s : SectionId) (o : ObjectId) (found : Option ObjectId) → IsLiveRun qsbr K.allows (log_in m) → AreFitted m → IsOpen (state_of (log_in m)) s → HoldsIn m s o → Follows (objects_of (log_in m)) o found → AreFitted (Read s (Next o found) ∷ m) }
{}

/// A reading of a payload fits a log in which the section is open and holds the object.
pub fn touch_fits<K: ChainRule>()
    ensures { (qsbr : Bool) (m : Readings) (s : SectionId) (o : ObjectId) → IsLiveRun qsbr K.allows (log_in m) → AreFitted m → IsOpen (state_of (log_in m)) s → HoldsIn m s o → AreFitted (Read s (Touch o) ∷ m) }
{}

/// A section holds what it found.
pub fn found_is_held()
    ensures { (m : Readings) (s : SectionId) (r : Reading) (o : ObjectId) → found_by r ≡ Some o → HoldsIn (Read s r ∷ m) s o }
{}

/// A section reads on: what it finds in a later log in which it is open still fits that log beside what it had read,
/// and it holds what it held and what it found.
pub fn section_reads_on<K: ChainRule>()
    ensures { (qsbr : Bool) (old new : Log) (m : Readings) (s : SectionId) (x : Reading) → StaysOpen qsbr K.allows s old new → FitIn m old → StartsHeld m s x → IsSoIn new x → ReadsOn m s x new }
{}
