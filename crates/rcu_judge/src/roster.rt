//! Who came, in order, and who has left since.

ghost use Rattle.std.specs.Prelude.{◌≡◌, ◌<◌, ◌≤◌, ◌↔◌, ◌++◌, ◌∷◌, [], true, false, length, slice_set, IsTrue, IfOk, OnOk, OnErr, List, Bool};
ghost use Rattle.rcu_judge.specs.Roster.{IsThere, HaveLeft, AreInOrder, IsFoundAt, IsNext};

use std::alloc::{AllocError, Global};
use std::marker::Model;

// Those that have left are dropped once they are this many at least,
pub(crate) const FEW: usize = 64;

// and at most one of this many that are kept is still there: until then most are found without a search.
const SHARE: usize = 8;

/// Those that came, each at its place, in the order of their coming, from 0: whether they are still there. Memory is
/// linear in the greatest number of those that were there at once.
#[derive(Drop)]
pub(crate) struct Roster {
    // How many came.
    came: usize,
    // Those that are still there, in the order of their places, and some that have left.
    kept: Vec<Kept>,
    // The index of the first one kept that is still there, or the number of those kept.
    oldest: usize,
    // How many of those that are kept have left.
    gone: usize,
}

/// One that came, and whether it is still there.
#[derive(Clone, Copy, Drop)]
pub(crate) struct Kept {
    pub(crate) place: usize,
    pub(crate) is_there: bool,
}

impl Model for Roster {
    ghost use Rattle.std.specs.Prelude.{List, Bool};
    ghost use Rattle.rcu_judge.specs.Roster.{all_places, IsKept};

    ghost Value = { List Bool };

    ghost view = { λ r. all_places r.came r.kept.items };

    ghost invariant = { λ r. IsKept r.came r.kept.items r.oldest };
}

impl Roster {
    /// Nobody came.
    pub(crate) fn new(alloc: Global) -> Self
        ensures { result ≡ [] }
    {
        Roster {
            came: 0,
            kept: Vec::new(alloc),
            oldest: 0,
            gone: 0,
        }
    }

    /// Somebody comes: answers the place.
    ///
    /// # Errors
    /// `AllocError` where memory was refused, or no number is left for the place.
    pub(crate) fn arrive(&mut self) -> Result<usize, AllocError>
        ensures place { IfOk result (λ place. place ≡ length self.old) }
        ensures came { OnOk result (self.new ≡ self.old ++ true ∷ []) }
        ensures refused { OnErr result (self.new ≡ self.old) }
    {
        let place = self.came;
        if place == usize::MAX {
            return Err(AllocError);
        }
        self.kept.push(Kept {
            place,
            is_there: true,
        })?;
        self.came += 1;
        Ok(place)
    }

    /// The one at the place leaves: whether it was there.
    pub(crate) fn leave(&mut self, place: usize) -> bool
        ensures was { IsTrue result ↔ IsThere self.old place }
        ensures left { self.new ≡ slice_set self.old place false }
    {
        let Some(at) = find(&self.kept, self.came, place) else {
            return false;
        };
        if !self.kept[at].is_there {
            return false;
        }
        self.kept[at].is_there = false;
        self.oldest = first_present(&self.kept, self.oldest);
        self.gone = self.gone.saturating_add(1);
        self.drop_the_gone();
        true
    }

    // Drops those that have left, once few of those that are kept are still there.
    fn drop_the_gone(&mut self)
        ensures { self.new ≡ self.old }
    {
        let there = self.kept.len().saturating_sub(self.gone);
        if self.gone < FEW || self.kept.len() / SHARE < there {
            return;
        }
        self.kept.retain(|kept| kept.is_there);
        self.oldest = 0;
        self.gone = 0;
    }

    /// How many came so far.
    pub(crate) fn moment(&self) -> usize
        ensures { result ≡ length self.now }
    {
        self.came
    }

    /// Whether all that came before the moment have left.
    pub(crate) fn all_left(&self, moment: usize) -> bool
        ensures { IsTrue result ↔ HaveLeft self.now moment }
    {
        match self.kept.get(self.oldest) {
            Some(kept) => moment <= kept.place,
            None => true,
        }
    }
}

// Where the one at the place is kept. None of those that came since one was last dropped is missing, so that a place
// says how far from the end it is kept; where it does not, it is searched.
fn find(kept: &[Kept], came: usize, place: usize) -> Option<usize>
    requires order { AreInOrder 0 came kept.now }
    ensures { IsFoundAt kept.now place result }
{
    if let Some(at) = kept.len().checked_sub(came.saturating_sub(place)) {
        if at < kept.len() && kept[at].place == place {
            return Some(at);
        }
    }
    kept.binary_search_by_key(&place, |kept| kept.place).ok()
}

// The first from here on that is still there, or the number of those kept. What `leave` passes over it never passes
// over again.
pub(crate) fn first_present(kept: &[Kept], from: usize) -> usize
    requires within { from ≤ length kept.now }
    ensures front { IsNext kept.now from result }
{
    let mut at = from;
    while at < kept.len() && !kept[at].is_there {
        at += 1;
    }
    at
}
