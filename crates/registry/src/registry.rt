//! A registry of readers: each reader has a slot of its own, as liburcu's `rcu_register_thread` gives it.

ghost use Rattle.std.specs.Prelude.{◌≡◌, ◌≤◌, IfOk, IfErr, vec_capacity};
ghost use Rattle.rcu_model.specs.declared.refusal.Refusal.TheVariants.{NoSlot};
ghost use Rattle.registry.specs.Registry.{IsSupported, unclaimed, new_refusal, IsClaimed, AllAreClaimed, Claims, GivesBack};
ghost use Rattle.registry.specs.Layout.{AreNumbersBelow};

use crate::slot::Slot;
use rcu_model::Refusal;
use slab::Slab;
use std::alloc::{AllocError, Global};
use std::marker::Model;

/// The most slots that a registry has.
const MOST_SLOTS: usize = 256;

/// The slots of readers. All its memory is taken when it is made.
#[derive(Drop)]
pub struct Registry {
    slots: usize,
    // The number of the slot of each claim.
    claims: Slab<usize>,
    // The numbers of the slots that are not claimed.
    free: Vec<usize>,
}

impl Model for Registry {
    ghost use Rattle.registry.specs.Registry.{Registry as Slots};

    ghost Value = { Slots };

    ghost use Rattle.std.specs.Prelude.{◌≤◌, vec_capacity};
    ghost use Rattle.registry.specs.Layout.{slots_of, IsKept};

    ghost view = { λ r. record { slots = r.slots; claimed = slots_of r.claims } };

    ghost invariant = { λ r. IsKept r.slots r.claims r.free.items × (r.slots ≤ vec_capacity r.free) };
}

impl Registry {
    /// A registry of this many slots, from 1 to 256, none of them claimed.
    ///
    /// Refused with `BadConfig` for any other number, else with `Memory`.
    pub fn new(alloc: Global, slots: usize) -> Result<Registry, Refusal>
        ensures ok { IfOk result (λ registry. IsSupported slots × (registry ≡ unclaimed slots)) }
        ensures err { IfErr result (λ e. e ≡ new_refusal slots) }
    {
        if slots < 1 || slots > MOST_SLOTS {
            return Err(Refusal::BadConfig);
        }
        let Ok(claims) = Slab::with_capacity(alloc, slots) else {
            return Err(Refusal::Memory);
        };
        let Ok(free) = numbers_below(alloc, slots) else {
            return Err(Refusal::Memory);
        };
        Ok(Registry {
            slots,
            claims,
            free,
        })
    }

    /// Claims a slot that is not claimed.
    ///
    /// Refused with `NoSlot` exactly where every slot is claimed, and then the registry is as it was. Takes no memory.
    pub fn claim(&mut self) -> Result<Slot, Refusal>
        ensures ok { IfOk result (λ slot. Claims self.old self.new slot) }
        ensures err { IfErr result (λ e. (e ≡ NoSlot) × AllAreClaimed self.old × (self.new ≡ self.old)) }
    {
        let Some(number) = self.free.pop() else {
            return Err(Refusal::NoSlot);
        };
        let claim = self.claims.insert_reserved(number);
        Ok(Slot { claim, number })
    }

    /// Gives a slot back that this registry gave: it can be claimed again.
    pub fn give_back(&mut self, slot: Slot)
        requires { IsClaimed self.old slot }
        ensures { GivesBack self.old self.new slot }
    {
        let number = self.claims.remove(slot.claim);
        self.free.push_reserved(number);
    }
}

/// The numbers below this one, the greatest first.
fn numbers_below(alloc: Global, end: usize) -> Result<Vec<usize>, AllocError>
    ensures numbers { IfOk result (λ numbers. AreNumbersBelow end numbers.items) }
    ensures room { IfOk result (λ numbers. end ≤ vec_capacity numbers) }
{
    let mut numbers = Vec::with_capacity(alloc, end)?;
    for number in (0..end).rev() {
        numbers.push_reserved(number);
    }
    Ok(numbers)
}
