//! One scan of the slots: of all of them, or of those whose bit in a group word was set.

ghost use Rattle.std.specs.Prelude.{◌≡◌, ℕ, ◌+◌, ◌-◌, ◌*◌, ◌/◌, ◌^◌, ◌<◌, ◌≤◌};
ghost use Rattle.gp_memb.specs.Groups.{first_claimed, group_end};

use crate::plan::Action;

/// Which slots the scans of a plan load; for those who make plans.
#[derive(Clone, Copy, Debug, PartialEq, Eq, Drop)]
pub struct Scan {
    slots: usize,
    grouped: bool,
}

/// What a scan loads next.
#[derive(Clone, Copy, Debug, PartialEq, Eq, Drop)]
pub enum Look {
    /// The word of this group of 64 slots.
    Group(usize),
    /// The word of this slot, found by these bits of its group. A scan of all slots has no bits.
    Slot(usize, u64),
}

impl Look {
    ghost use Rattle.gp_memb.specs.Scan.{is_slot_of, look_action};

    /// Whether a slot is loaded.
    pub fn is_slot(self) -> bool
        ensures { result ≡ is_slot_of self }
    {
        match self {
            Look::Group(_) => false,
            Look::Slot(_, _) => true,
        }
    }

    /// The load as an action of the plan.
    pub fn action(self) -> Action
        ensures { result ≡ look_action self }
    {
        match self {
            Look::Group(group) => Action::LoadGroup(group),
            Look::Slot(slot, _) => Action::Load(slot),
        }
    }
}

impl Scan {
    ghost use Rattle.gp_memb.specs.Scan.{scan_of, first_look, look_behind, next_slot_of, in_group};

    /// A scan of this many slots: of each, or, where it is grouped, of each group word and of the slots whose bit was
    /// set.
    pub fn new(slots: usize, grouped: bool) -> Scan
        ensures { result ≡ scan_of slots grouped }
    {
        Scan { slots, grouped }
    }

    /// What is loaded first; nothing, where there are no slots.
    pub fn first(self) -> Option<Look>
        ensures { result ≡ first_look self }
    {
        if self.slots == 0 {
            None
        } else if self.grouped {
            Some(Look::Group(0))
        } else {
            Some(Look::Slot(0, 0))
        }
    }

    /// What is loaded behind a look, once its word was loaded; nothing, where the scan is over.
    #[inline(always)]
    pub fn behind(self, look: Look, loaded: u64) -> Option<Look>
        ensures { result ≡ look_behind self look loaded }
    {
        match look {
            Look::Group(group) => match group.checked_mul(64) {
                Some(from) => self.in_group(group, loaded, from),
                None => None,
            },
            Look::Slot(slot, bits) => match slot.checked_add(1) {
                Some(next) if self.grouped => self.in_group(slot / 64, bits, next),
                Some(next) if next < self.slots => Some(Look::Slot(next, 0)),
                _ => None,
            },
        }
    }

    /// The first slot of the group, from this one on, whose bit is set; or else the next group.
    #[inline(always)]
    fn in_group(self, group: usize, bits: u64, from: usize) -> Option<Look>
        requires { (64 * group ≤ from) × (from ≤ 64 * group + 64) }
        ensures { result ≡ in_group self.slots group bits from }
    {
        let end = group.saturating_mul(64).saturating_add(64);
        if let Some(slot) = claimed_in(bits, from, end.min(self.slots)) {
            return Some(Look::Slot(slot, bits));
        }
        if end < self.slots {
            Some(Look::Group(group + 1))
        } else {
            None
        }
    }
}

/// The first slot of a range, which lies in one group, whose bit is set.
fn claimed_in(bits: u64, from: usize, end: usize) -> Option<usize>
    requires { (group : ℕ) × (64 * group ≤ from) × (end ≤ 64 * group + 64) }
    ensures { result ≡ first_claimed bits from (end - from) }
{
    if from >= end {
        return None;
    }
    // No bit is set in any place below this, counted from the first slot of the range; 64 of them where none is.
    let unset = (bits >> (from % 64)).trailing_zeros() as usize;
    if unset < end - from {
        Some(from + unset)
    } else {
        None
    }
}
