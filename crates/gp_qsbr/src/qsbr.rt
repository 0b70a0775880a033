//! The plan of the quiescent-state flavour: the number is raised by one, and the slots are scanned.

ghost use Rattle.std.specs.Prelude.{◌≡◌, ◌≤◌, ◌^◌, ◌%◌, true, false};
ghost use Rattle.std.proofs.Common.{true≢false, refl};
ghost use Rattle.reader_word.specs.declared.layout.Layout.TheVariants.{Wide};

use gp_memb::{Action, GracePlan, Look, Scan, Turn};
use reader_word::qs_stands_in_way;

/// Where a plan stands.
#[derive(Clone, Copy, Debug, PartialEq, Eq, Drop)]
enum Place {
    StoreOdd,
    Raise,
    Scans(Look),
    StoreEven,
    Done,
}

/// A grace period of the quiescent-state flavour.
///
/// The sequence number becomes odd; the number that readers announce is raised by one and the slots scanned; the
/// sequence number becomes even.
#[derive(Clone, Copy, Debug, PartialEq, Eq, Drop)]
pub struct QsbrPlan {
    scan: Scan,
    odd: u64,
    even: u64,
    raised: u64,
    place: Place,
}

impl QsbrPlan {
    ghost use Rattle.gp_memb.specs.Plan.{FinishesAfter, each_turn, but_slots, turn_count};
    ghost use Rattle.gp_memb.specs.Groups.{groups_of};
    ghost use Rattle.gp_qsbr.specs.Qsbr.{qsbr_begun, qsbr_action, qsbr_turn, qsbr_taken};

    /// A plan that has done nothing yet, for the present sequence number and number. Its scan loads all slots; so over
    /// R slots it takes R + 3 steps.
    pub fn new(slots: usize, seq: u64, num: u64) -> QsbrPlan
        requires even { seq % 2 ≡ 0 }
        requires seq { seq ≤ 2 ^ 62 }
        requires num { num ≤ 2 ^ 62 }
        ensures plan { result ≡ qsbr_begun false slots seq num }
        ensures turns { FinishesAfter qsbr_action qsbr_turn qsbr_taken each_turn result (turn_count true slots) }
    {
        QsbrPlan::begun(Scan::new(slots, false), seq, num)
    }

    /// A plan that has done nothing yet, for the present sequence number and number. Its scan loads each group word
    /// (one for 64 slots) before the slots of the group, and then those whose bit was set; so over G group words it
    /// takes G + 3 steps and one for each slot that it loads.
    pub fn grouped(slots: usize, seq: u64, num: u64) -> QsbrPlan
        requires even { seq % 2 ≡ 0 }
        requires seq { seq ≤ 2 ^ 62 }
        requires num { num ≤ 2 ^ 62 }
        ensures plan { result ≡ qsbr_begun true slots seq num }
        ensures turns { FinishesAfter qsbr_action qsbr_turn qsbr_taken but_slots result (turn_count true (groups_of slots)) }
    {
        QsbrPlan::begun(Scan::new(slots, true), seq, num)
    }

    fn begun(scan: Scan, seq: u64, num: u64) -> QsbrPlan
        requires seq { seq ≤ 2 ^ 62 }
        requires num { num ≤ 2 ^ 62 }
        ensures { result ≡ qsbr_begun scan.grouped scan.slots seq num }
    {
        QsbrPlan {
            scan,
            odd: seq + 1,
            even: seq + 2,
            raised: num + 1,
            place: Place::StoreOdd,
        }
    }
}

impl Place {
    ghost use Rattle.gp_memb.specs.Scan.{scans_on};
    ghost use Rattle.gp_qsbr.specs.declared.qsbr.Place.TheVariants.{Scans, StoreEven};

    /// Where a plan goes on to in its scan, or behind it.
    fn in_scan(found: Option<Look>) -> Place
        ensures { result ≡ scans_on Scans StoreEven found }
    {
        match found {
            Some(look) => Place::Scans(look),
            None => Place::StoreEven,
        }
    }
}

impl GracePlan for QsbrPlan {
    ghost use Rattle.gp_qsbr.specs.Qsbr.{qsbr_begun, qsbr_action, qsbr_turn, qsbr_taken, qsbr_present};
    ghost use Rattle.gp_qsbr.specs.lemmas.QsbrWaits.{qsbr_waits};
    ghost use Rattle.gp_qsbr.specs.lemmas.QsbrOrder.{qsbr_order, qsbr_in_range, qsbr_in_groups};
    ghost use Rattle.gp_qsbr.specs.lemmas.QsbrTurns.{qsbr_stores, qsbr_begins, qsbr_exact, qsbr_still, qsbr_ignores, qsbr_presents, qsbr_rises};

    ghost QSBR = { true };

    const QSBR: bool = true;

    ghost is_begun = { λ layout grouped slots seq word plan. plan ≡ qsbr_begun grouped slots seq word };

    ghost action = { qsbr_action };

    ghost turn = { qsbr_turn };

    ghost taken = { qsbr_taken };

    // The words of this flavour have no layout.
    ghost layout_of = { λ _. Wide };

    ghost present = { qsbr_present };

    fn start(slots: usize, seq: u64, word: u64) -> QsbrPlan {
        QsbrPlan::grouped(slots, seq, word)
    }

    #[inline(always)]
    fn next(&self) -> Action {
        match self.place {
            Place::StoreOdd => Action::StoreSeq(self.odd),
            Place::Raise => Action::StorePhase(self.raised),
            Place::Scans(look) => look.action(),
            Place::StoreEven => Action::StoreSeq(self.even),
            Place::Done => Action::Finished,
        }
    }

    #[inline(always)]
    fn take(&mut self, loaded: u64) -> Turn {
        match self.place {
            Place::StoreOdd => self.place = Place::Raise,
            Place::Raise => self.place = Place::in_scan(self.scan.first()),
            Place::Scans(look) => {
                if look.is_slot() && qs_stands_in_way(loaded, self.raised) {
                    return Turn::Wait;
                }
                self.place = Place::in_scan(self.scan.behind(look, loaded));
            }
            Place::StoreEven => self.place = Place::Done,
            Place::Done => {}
        }
        Turn::Step
    }

    ghost waits = { qsbr_waits };

    ghost order = { qsbr_order };

    ghost in_range = { qsbr_in_range };

    ghost in_groups = { qsbr_in_groups };

    ghost stores = { qsbr_stores };

    ghost begins = { qsbr_begins };

    ghost begins_layout = { λ layout grouped slots seq word plan begun never. absurd (true≢false never) };

    ghost exact = { qsbr_exact };

    ghost still = { qsbr_still };

    ghost ignores = { qsbr_ignores };

    ghost presents = { qsbr_presents };

    ghost rises = { qsbr_rises };

    ghost keeps_layout = { λ plan word. refl };
}
