//! What clauses can't say: that calls succeed where there is memory, and at the greatest number of slots.

use rcu_model::Refusal;
use registry::{Registry, Slot};
use std::alloc::Global;

/// Claims slots until one is refused: the slots, and the refusal.
fn claim_all(
    alloc: Global,
    registry: &mut Registry,
) -> Result<(Vec<Slot>, Option<Refusal>), Refusal> {
    let mut claimed = Vec::new(alloc);
    for _ in 0..1000 {
        match registry.claim() {
            Ok(slot) => {
                if claimed.push(slot).is_err() {
                    return Err(Refusal::Memory);
                }
            }
            Err(refusal) => return Ok((claimed, Some(refusal))),
        }
    }
    Ok((claimed, None))
}

#[test]
fn each_slot_is_claimed_once(rt: HostRuntime) -> Result<(), Refusal> {
    for slots in [1, 2, 256] {
        let mut registry = Registry::new(rt.alloc(), slots)?;
        let (claimed, refusal) = claim_all(rt.alloc(), &mut registry)?;
        assert_eq!(rt; refusal, Some(Refusal::NoSlot));
        assert_eq!(rt; claimed.len(), slots);
        for (number, slot) in claimed.iter().enumerate() {
            assert_eq!(rt; slot.number(), number);
        }
    }
    Ok(())
}

#[test]
fn a_slot_that_is_given_back_is_claimed_again(rt: HostRuntime) -> Result<(), Refusal> {
    let mut registry = Registry::new(rt.alloc(), 256)?;
    for _ in 0..255 {
        let _slot = registry.claim()?;
    }
    let last = registry.claim()?;
    let number = last.number();
    registry.give_back(last);
    assert_eq!(rt; registry.claim()?.number(), number);
    Ok(())
}

#[test]
fn other_numbers_of_slots_are_refused(rt: HostRuntime) {
    for slots in [0, 257, usize::MAX] {
        let refused = Registry::new(rt.alloc(), slots);
        assert!(rt; matches!(refused, Err(Refusal::BadConfig)));
    }
}

#[test]
fn refused_memory_is_told(rt: HostRuntime) {
    // With memory refused from outside, as by rt try --fail-alloc, it is the one other answer.
    let told = Registry::new(rt.alloc(), 8);
    assert!(rt; told.is_ok() || matches!(told, Err(Refusal::Memory)));
}
