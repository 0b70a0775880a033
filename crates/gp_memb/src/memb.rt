//! The plan of the general-purpose flavour: two flips of the phase, each with a scan of the slots.

ghost use Rattle.std.specs.Prelude.{◌≡◌, ◌≤◌, ◌^◌, ◌%◌, ◌==◌, false, true};
ghost use Rattle.std.proofs.Common.{sym, true≢false};

use crate::plan::{Action, GracePlan, Turn};
use crate::scan::{Look, Scan};
use reader_word::{Layout, stands_in_way};

/// Where a plan stands.
#[derive(Clone, Copy, Debug, PartialEq, Eq, Drop)]
enum Place {
    StoreOdd,
    Flip,
    FirstScan(Look),
    FlipBack,
    SecondScan(Look),
    StoreEven,
    Done,
}

/// A grace period of the general-purpose flavour.
///
/// The sequence number becomes odd; the phase is flipped and the slots scanned; the phase is flipped back and the slots
/// scanned; the sequence number becomes even.
#[derive(Clone, Copy, Debug, PartialEq, Eq, Drop)]
pub struct MembPlan {
    layout: Layout,
    scan: Scan,
    odd: u64,
    even: u64,
    phase: bool,
    place: Place,
}

impl MembPlan {
    ghost use Rattle.gp_memb.specs.Plan.{FinishesAfter, each_turn, but_slots, turn_count};
    ghost use Rattle.gp_memb.specs.Groups.{groups_of};
    ghost use Rattle.gp_memb.specs.Memb.{memb_begun, memb_action, memb_turn, memb_taken};

    /// A plan that has done nothing yet, for the present sequence number and phase. Each scan loads all slots; so over
    /// R slots it takes 2R + 4 steps.
    pub fn new(layout: Layout, slots: usize, seq: u64, phase: bool) -> MembPlan
        requires even { seq % 2 ≡ 0 }
        requires seq { seq ≤ 2 ^ 62 }
        ensures plan { result ≡ memb_begun layout false slots seq phase }
        ensures turns { FinishesAfter memb_action memb_turn memb_taken each_turn result (turn_count false slots) }
    {
        MembPlan::begun(layout, Scan::new(slots, false), seq, phase)
    }

    /// A plan that has done nothing yet, for the present sequence number and phase. Each scan loads each group word
    /// (one for 64 slots) before the slots of the group, and then those whose bit was set; so over G group words it
    /// takes 2G + 4 steps and one for each slot that it loads.
    pub fn grouped(layout: Layout, slots: usize, seq: u64, phase: bool) -> MembPlan
        requires even { seq % 2 ≡ 0 }
        requires seq { seq ≤ 2 ^ 62 }
        ensures plan { result ≡ memb_begun layout true slots seq phase }
        ensures turns { FinishesAfter memb_action memb_turn memb_taken but_slots result (turn_count false (groups_of slots)) }
    {
        MembPlan::begun(layout, Scan::new(slots, true), seq, phase)
    }

    fn begun(layout: Layout, scan: Scan, seq: u64, phase: bool) -> MembPlan
        requires seq { seq ≤ 2 ^ 62 }
        ensures { result ≡ memb_begun layout scan.grouped scan.slots seq phase }
    {
        MembPlan {
            layout,
            scan,
            odd: seq + 1,
            even: seq + 2,
            phase,
            place: Place::StoreOdd,
        }
    }
}

/// Where a plan goes on to in a scan, or behind it.
impl Place {
    ghost use Rattle.gp_memb.specs.Scan.{scans_on};
    ghost use Rattle.gp_memb.specs.declared.memb.Place.TheVariants.{FirstScan, FlipBack, SecondScan, StoreEven};

    fn in_first_scan(found: Option<Look>) -> Place
        ensures { result ≡ scans_on FirstScan FlipBack found }
    {
        match found {
            Some(look) => Place::FirstScan(look),
            None => Place::FlipBack,
        }
    }

    fn in_second_scan(found: Option<Look>) -> Place
        ensures { result ≡ scans_on SecondScan StoreEven found }
    {
        match found {
            Some(look) => Place::SecondScan(look),
            None => Place::StoreEven,
        }
    }
}

impl GracePlan for MembPlan {
    ghost use Rattle.gp_memb.specs.Memb.{memb_begun, memb_action, memb_turn, memb_taken, memb_present};
    ghost use Rattle.gp_memb.specs.lemmas.MembWaits.{memb_waits};
    ghost use Rattle.gp_memb.specs.lemmas.MembOrder.{memb_order, memb_in_range, memb_in_groups, memb_stores, memb_begins, memb_begins_layout};
    ghost use Rattle.gp_memb.specs.lemmas.MembTurns.{memb_exact, memb_still, memb_ignores, memb_presents, memb_keeps_layout};

    ghost QSBR = { false };

    const QSBR: bool = false;

    ghost is_begun = { λ layout grouped slots seq word plan. plan ≡ memb_begun layout grouped slots seq (word == 1) };

    ghost action = { memb_action };

    ghost turn = { memb_turn };

    ghost taken = { memb_taken };

    ghost layout_of = { λ plan. plan.layout };

    ghost present = { memb_present };

    fn start(slots: usize, seq: u64, word: u64) -> MembPlan {
        MembPlan::grouped(Layout::Wide, slots, seq, word == 1)
    }

    #[inline(always)]
    fn next(&self) -> Action {
        match self.place {
            Place::StoreOdd => Action::StoreSeq(self.odd),
            Place::Flip | Place::FlipBack => Action::StorePhase(u64::from(!self.phase)),
            Place::FirstScan(look) | Place::SecondScan(look) => look.action(),
            Place::StoreEven => Action::StoreSeq(self.even),
            Place::Done => Action::Finished,
        }
    }

    #[inline(always)]
    fn take(&mut self, loaded: u64) -> Turn {
        match self.place {
            Place::StoreOdd => self.place = Place::Flip,
            Place::Flip => {
                self.phase = !self.phase;
                self.place = Place::in_first_scan(self.scan.first());
            }
            Place::FlipBack => {
                self.phase = !self.phase;
                self.place = Place::in_second_scan(self.scan.first());
            }
            Place::FirstScan(look) => {
                if look.is_slot() && stands_in_way(self.layout, loaded, self.phase) {
                    return Turn::Wait;
                }
                self.place = Place::in_first_scan(self.scan.behind(look, loaded));
            }
            Place::SecondScan(look) => {
                if look.is_slot() && stands_in_way(self.layout, loaded, self.phase) {
                    return Turn::Wait;
                }
                self.place = Place::in_second_scan(self.scan.behind(look, loaded));
            }
            Place::StoreEven => self.place = Place::Done,
            Place::Done => {}
        }
        Turn::Step
    }

    ghost waits = { memb_waits };

    ghost order = { memb_order };

    ghost in_range = { memb_in_range };

    ghost in_groups = { memb_in_groups };

    ghost stores = { memb_stores };

    ghost begins = { memb_begins };

    ghost begins_layout = { memb_begins_layout };

    ghost exact = { memb_exact };

    ghost still = { memb_still };

    ghost ignores = { memb_ignores };

    ghost presents = { memb_presents };

    ghost rises = { λ plan value never _. absurd (true≢false (sym never)) };

    ghost keeps_layout = { memb_keeps_layout };
}
