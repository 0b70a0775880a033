//! Whole grace periods of the general-purpose flavour, turn by turn.

use gp_memb::{Action, GracePlan, Look, MembPlan, Scan, Turn};
use reader_word::Layout;

#[test]
fn no_reader_in_the_way(rt: HostRuntime) {
    let mut plan = MembPlan::new(Layout::Narrow, 1, 0, false);
    let actions = [
        Action::StoreSeq(1),
        Action::StorePhase(1),
        Action::Load(0),
        Action::StorePhase(0),
        Action::Load(0),
        Action::StoreSeq(2),
    ];
    for action in actions {
        assert_eq!(rt; plan.next(), action);
        assert_eq!(rt; plan.take(0), Turn::Step);
    }
    assert_eq!(rt; plan.next(), Action::Finished);
}

#[test]
fn a_scan_that_waits(rt: HostRuntime) {
    // The reader holds phase 0 while the phase is 1, and is gone at the third look.
    let mut plan = MembPlan::new(Layout::Narrow, 1, 0, false);
    for (loaded, turn, next) in [
        (0, Turn::Step, Action::StorePhase(1)),
        (0, Turn::Step, Action::Load(0)),
        (1, Turn::Wait, Action::Load(0)),
        (1, Turn::Wait, Action::Load(0)),
        (0, Turn::Step, Action::StorePhase(0)),
    ] {
        assert_eq!(rt; plan.take(loaded), turn);
        assert_eq!(rt; plan.next(), next);
    }
}

/// The first action of the plan that a library over words of any flavour starts.
fn first_action<P: GracePlan + Drop>(slots: usize) -> Action {
    P::start(slots, 2, 1).next()
}

#[test]
fn started_through_its_bound(rt: HostRuntime) {
    assert_eq!(rt; first_action::<MembPlan>(3), Action::StoreSeq(3));
}

/// How many turns a plan takes until it is finished, where the one claimed slot is this one, if any, and no section is
/// open.
fn turns(mut plan: MembPlan, claimed: Option<usize>) -> usize {
    for turn in 0..1_000 {
        let loaded = match (plan.next(), claimed) {
            (Action::Finished, _) => return turn,
            (Action::LoadGroup(group), Some(slot)) if slot / 64 == group => 1 << (slot % 64),
            _ => 0,
        };
        let _turn = plan.take(loaded);
    }
    1_000
}

#[test]
fn turns_over_256_slots(rt: HostRuntime) {
    assert_eq!(rt;
        turns(MembPlan::grouped(Layout::Wide, 256, 0, false), None),
        12
    );
    assert_eq!(rt;
        turns(MembPlan::grouped(Layout::Wide, 256, 0, false), Some(70)),
        14
    );
    assert_eq!(rt;
        turns(MembPlan::new(Layout::Wide, 256, 0, false), None),
        516
    );
    assert_eq!(rt;
        turns(MembPlan::new(Layout::Wide, 256, 0, false), Some(70)),
        516
    );
}

#[test]
fn turns_over_no_slots(rt: HostRuntime) {
    assert_eq!(rt;
        turns(MembPlan::grouped(Layout::Wide, 0, 0, false), None),
        4
    );
    assert_eq!(rt; turns(MembPlan::new(Layout::Wide, 0, 0, false), None), 4);
}

#[test]
fn a_grouped_scan_of_65_slots(rt: HostRuntime) {
    let scan = Scan::new(65, true);
    assert_eq!(rt; scan.first(), Some(Look::Group(0)));
    // Slots 2 and 63 are claimed in the first group, and slot 64 in the second.
    let bits = 1 << 63 | 1 << 2;
    for (look, loaded, next) in [
        (Look::Group(0), bits, Some(Look::Slot(2, bits))),
        (Look::Slot(2, bits), 0, Some(Look::Slot(63, bits))),
        (Look::Slot(63, bits), 0, Some(Look::Group(1))),
        (Look::Group(1), 1, Some(Look::Slot(64, 1))),
        (Look::Slot(64, 1), 0, None),
    ] {
        assert_eq!(rt; scan.behind(look, loaded), next);
    }
    assert_eq!(rt;
        (Look::Group(1).is_slot(), Look::Slot(64, 1).is_slot()),
        (false, true)
    );
    assert_eq!(rt; Look::Group(1).action(), Action::LoadGroup(1));
    assert_eq!(rt; Look::Slot(64, 1).action(), Action::Load(64));
}

#[test]
fn a_grouped_scan_waits_for_a_claimed_slot(rt: HostRuntime) {
    let mut plan = MembPlan::grouped(Layout::Wide, 128, 0, false);
    for (loaded, turn, next) in [
        (0, Turn::Step, Action::StorePhase(1)),
        (0, Turn::Step, Action::LoadGroup(0)),
        (0, Turn::Step, Action::LoadGroup(1)),
        (1, Turn::Step, Action::Load(64)),
        (1, Turn::Wait, Action::Load(64)),
        (0, Turn::Step, Action::StorePhase(0)),
    ] {
        assert_eq!(rt; plan.take(loaded), turn);
        assert_eq!(rt; plan.next(), next);
    }
}
