//! Whole grace periods of the quiescent-state flavour, turn by turn.

use gp_memb::{Action, GracePlan, Turn};
use gp_qsbr::QsbrPlan;
use reader_word::qs_announced;

#[test]
fn a_reader_announces_after_a_delay(rt: HostRuntime) {
    let mut plan = QsbrPlan::new(1, 0, 0);
    // The reader announced number 0 before the plan began, and announces number 1 while it is scanned.
    for (action, loaded, turn) in [
        (Action::StoreSeq(1), 0, Turn::Step),
        (Action::StorePhase(1), 0, Turn::Step),
        (Action::Load(0), qs_announced(0), Turn::Wait),
        (Action::Load(0), qs_announced(0), Turn::Wait),
        (Action::Load(0), qs_announced(1), Turn::Step),
        (Action::StoreSeq(2), 0, Turn::Step),
    ] {
        assert_eq!(rt; plan.next(), action);
        assert_eq!(rt; plan.take(loaded), turn);
    }
    assert_eq!(rt; plan.next(), Action::Finished);
}

/// The first action of the plan that a library over words of any flavour starts.
fn first_action<P: GracePlan + Drop>(slots: usize) -> Action {
    P::start(slots, 2, 1).next()
}

#[test]
fn started_through_its_bound(rt: HostRuntime) {
    assert_eq!(rt; first_action::<QsbrPlan>(3), Action::StoreSeq(3));
}

/// How many turns a plan takes until it is finished, where the one claimed slot is this one, if any, and no reader is
/// online.
fn turns(mut plan: QsbrPlan, claimed: Option<usize>) -> usize {
    for turn in 0..1_000 {
        let loaded = match (plan.next(), claimed) {
            (Action::Finished, _) => return turn,
            (Action::LoadGroup(group), Some(slot)) if slot / 64 == group => 1 << (slot % 64),
            _ => 0,
        };
        let _turn = plan.take(loaded);
    }
    1_000
}

#[test]
fn turns_over_256_slots(rt: HostRuntime) {
    assert_eq!(rt; turns(QsbrPlan::grouped(256, 0, 0), None), 7);
    assert_eq!(rt; turns(QsbrPlan::grouped(256, 0, 0), Some(70)), 8);
    assert_eq!(rt; turns(QsbrPlan::new(256, 0, 0), Some(70)), 259);
}

#[test]
fn turns_over_no_slots(rt: HostRuntime) {
    assert_eq!(rt; turns(QsbrPlan::grouped(0, 0, 0), None), 3);
    assert_eq!(rt; turns(QsbrPlan::new(0, 0, 0), None), 3);
}
