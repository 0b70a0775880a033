//! Registries of reader slots, whose making may be refused.

use crate::ledger::{Call, Finding, Ledger};
use rcu_model::Refusal;
use registry::Registry;
use std::alloc::Global;

/// How many slots a registry has.
const SLOTS: usize = 256;

/// Makes a registry, again where memory was refused.
fn make(alloc: Global, ledger: &mut Ledger) -> Result<Registry, Finding> {
    match Registry::new(alloc, SLOTS) {
        Ok(registry) => Ok(registry),
        Err(Refusal::Memory) => {
            ledger.note(Call::NewRegistry);
            Registry::new(alloc, SLOTS).map_err(|_| Finding::RefusedAgain(Call::NewRegistry))
        }
        Err(_) => Err(Finding::Wrong(Call::NewRegistry)),
    }
}

/// Makes a registry, and claims all its slots, which takes no memory.
pub fn claim_slots(alloc: Global, ledger: &mut Ledger) -> Result<u64, Finding> {
    let mut registry = make(alloc, ledger)?;
    for number in 0..SLOTS {
        match registry.claim() {
            Ok(slot) if slot.number() == number => {}
            _ => return Err(Finding::Wrong(Call::Claim)),
        }
    }
    match registry.claim() {
        Err(Refusal::NoSlot) => Ok(SLOTS as u64),
        _ => Err(Finding::Wrong(Call::Claim)),
    }
}
