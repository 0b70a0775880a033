//! What a log says of objects and chains, told object by object.

use crate::object::{ObjectState, Splice, Stage, Waiting};
use crate::states::{
    Heads, States, enter, leave, make_room, put_after, put_before, put_stage, state_of, store_head,
};
use number_runs::NumberRuns;
use rcu_model::ObjectId;
use std::alloc::{AllocError, Global};
use std::collections::HashMap;

/// What is known of objects and chains. An object whose callback has run takes next to no memory where numbers count
/// up: of it only the number is kept. Beside a look-up among the runs of these numbers a call takes constant time,
/// amortized.
#[derive(Drop)]
pub(crate) struct Objects {
    // The objects whose callbacks have not run.
    known: States,
    heads: Heads,
    // The numbers of those whose callbacks have run.
    reclaimed: NumberRuns,
}

impl Objects {
    ghost use Rattle.std.specs.Prelude.{◌≡◌, ◌↔◌, ℕ, IsTrue, IfOk, OnOk, OnErr};
    ghost use Rattle.rcu_model.specs.declared.event.Event.TheVariants.{Push, Replace, Cut, Retire, Queue, Run};
    ghost use Rattle.rcu_model.specs.Machine.{State, IsAllowed, after, start};
    ghost use Rattle.rcu_model.specs.Sets.{HasObject, first_of, at_object};
    ghost use Rattle.rcu_judge.specs.Objects.{states_of, heads_of, linked_state, spliced_heads, spliced_states, Knows, IsSame, IsReached, FindsSuccessor, FindsWaiting};

    /// Nothing was put into a chain.
    pub(crate) fn new(alloc: Global) -> Objects
        ensures { (moments tickets : ObjectId → ℕ) → Knows result start moments tickets }
    {
        Objects {
            known: HashMap::new(alloc),
            heads: HashMap::new(alloc),
            reclaimed: NumberRuns::new(alloc),
        }
    }

    /// The first object of a chain.
    pub(crate) fn first(&self, chain: u32) -> Option<ObjectId>
        ensures head { result ≡ heads_of self.now.heads chain }
        ensures first { (now : State) (moments tickets : ObjectId → ℕ) → Knows self.now now moments tickets → result ≡ first_of (now.chain chain) }
    {
        self.heads.get(&chain).copied()
    }

    /// An object's successor, or none where it was never put into a chain, or its callback has run.
    pub(crate) fn after(&self, object: ObjectId) -> Option<Option<ObjectId>>
        ensures { (now : State) (moments tickets : ObjectId → ℕ) → Knows self.now now moments tickets → FindsSuccessor now object result }
    {
        Some(state_of(&self.known, object)?.after)
    }

    /// Whether an object was put into a chain.
    fn is_used(&self, object: ObjectId) -> bool
        ensures { (now : State) (moments tickets : ObjectId → ℕ) → Knows self.now now moments tickets → (IsTrue result ↔ HasObject now.used object) }
    {
        match state_of(&self.known, object) {
            Some(_) => true,
            None => self.reclaimed.contains(object.0),
        }
    }

    /// The state of an object that is linked in a chain.
    fn linked(&self, chain: u32, object: ObjectId) -> Option<ObjectState>
        ensures { result ≡ linked_state chain (states_of self.now.known object) }
    {
        let state = state_of(&self.known, object)?;
        if state.is_linked_in(chain) {
            Some(state)
        } else {
            None
        }
    }

    /// Stores into a chain.
    fn splice(&mut self, splice: Splice) -> Result<(), AllocError>
        ensures heads { OnOk result (heads_of self.new.heads ≡ spliced_heads (heads_of self.old.heads) splice) }
        ensures states { OnOk result (states_of self.new.known ≡ spliced_states (states_of self.old.known) splice) }
        ensures rest { self.new.reclaimed ≡ self.old.reclaimed }
        ensures refused { OnErr result (IsSame self.old self.new) }
    {
        make_room(&mut self.known)?;
        store_head(&mut self.heads, splice.chain, splice.before, splice.value())?;
        put_after(&mut self.known, splice.before, splice.value());
        put_before(&mut self.known, splice.after, splice.mark());
        leave(&mut self.known, splice.leaves);
        let entering = ObjectState {
            chain: splice.chain,
            before: splice.before,
            after: splice.after,
            stage: Stage::Linked,
        };
        enter(&mut self.known, splice.enters, entering)
    }

    /// Puts a new object first into a chain. False where the object was used before.
    ///
    /// # Errors
    /// Where memory was refused; then what is known of the objects stays.
    pub(crate) fn push(&mut self, chain: u32, object: ObjectId) -> Result<bool, AllocError>
        ensures done { (now : State) (moments tickets : ObjectId → ℕ) → IsReached now → Knows self.old now moments tickets → IfOk result (λ done. (IsTrue done ↔ IsAllowed now (Push chain object)) × (IsTrue done → Knows self.new (after now (Push chain object)) moments tickets)) }
        ensures refused { OnErr result (IsSame self.old self.new) }
    {
        if self.is_used(object) {
            return Ok(false);
        }
        let after = self.first(chain);
        self.splice(Splice {
            chain,
            before: None,
            after,
            leaves: None,
            enters: Some(object),
        })?;
        Ok(true)
    }

    /// Puts a new object into the place of a linked one. False where the old one is not linked in the chain, or the new
    /// one was used before.
    ///
    /// # Errors
    /// Where memory was refused; then what is known of the objects stays.
    pub(crate) fn replace(
        &mut self,
        chain: u32,
        old: ObjectId,
        new: ObjectId,
    ) -> Result<bool, AllocError>
        ensures done { (now : State) (moments tickets : ObjectId → ℕ) → IsReached now → Knows self.old now moments tickets → IfOk result (λ done. (IsTrue done ↔ IsAllowed now (Replace chain old new)) × (IsTrue done → Knows self.new (after now (Replace chain old new)) moments tickets)) }
        ensures refused { OnErr result (IsSame self.old self.new) }
    {
        let Some(state) = self.linked(chain, old) else {
            return Ok(false);
        };
        if self.is_used(new) {
            return Ok(false);
        }
        self.splice(Splice {
            chain,
            before: state.before,
            after: state.after,
            leaves: Some(old),
            enters: Some(new),
        })?;
        Ok(true)
    }

    /// Takes a linked object out of its chain. False where it is not linked in the chain.
    ///
    /// # Errors
    /// Where memory was refused; then what is known of the objects stays.
    pub(crate) fn cut(&mut self, chain: u32, object: ObjectId) -> Result<bool, AllocError>
        ensures done { (now : State) (moments tickets : ObjectId → ℕ) → IsReached now → Knows self.old now moments tickets → IfOk result (λ done. (IsTrue done ↔ IsAllowed now (Cut chain object)) × (IsTrue done → Knows self.new (after now (Cut chain object)) moments tickets)) }
        ensures refused { OnErr result (IsSame self.old self.new) }
    {
        let Some(state) = self.linked(chain, object) else {
            return Ok(false);
        };
        self.splice(Splice {
            chain,
            before: state.before,
            after: state.after,
            leaves: Some(object),
            enters: None,
        })?;
        Ok(true)
    }

    /// Retires a cut object at a moment. False where it is not cut, or was retired before.
    pub(crate) fn retire(&mut self, object: ObjectId, moment: usize) -> bool
        ensures { (now : State) (moments tickets : ObjectId → ℕ) → Knows self.old now moments tickets → (IsTrue result ↔ IsAllowed now (Retire object)) × (IsTrue result → Knows self.new (after now (Retire object)) (at_object object moment moments) tickets) }
    {
        let Some(state) = state_of(&self.known, object) else {
            return false;
        };
        let Stage::Cut = state.stage else {
            return false;
        };
        put_stage(&mut self.known, object, Stage::Retired { moment });
        true
    }

    /// Queues the callback of a retired object, under a ticket. False where it is not retired, or was queued before.
    pub(crate) fn queue(&mut self, object: ObjectId, ticket: usize) -> bool
        ensures { (now : State) (moments tickets : ObjectId → ℕ) (queue : ℕ) → Knows self.old now moments tickets → (IsTrue result ↔ IsAllowed now (Queue object queue)) × (IsTrue result → Knows self.new (after now (Queue object queue)) moments (at_object object ticket tickets)) }
    {
        let Some(state) = state_of(&self.known, object) else {
            return false;
        };
        let Stage::Retired { moment } = state.stage else {
            return false;
        };
        put_stage(&mut self.known, object, Stage::Queued { moment, ticket });
        true
    }

    /// What an object waits with, where its callback is queued and was not run.
    pub(crate) fn queued(&self, object: ObjectId) -> Option<Waiting>
        ensures { (now : State) (moments tickets : ObjectId → ℕ) → Knows self.now now moments tickets → FindsWaiting now moments tickets object result }
    {
        match state_of(&self.known, object)?.stage {
            Stage::Queued { moment, ticket } => Some(Waiting { moment, ticket }),
            _ => None,
        }
    }

    /// Runs the callback of an object that is queued and was not run.
    ///
    /// # Errors
    /// Where memory was refused; then what is known of the objects stays.
    pub(crate) fn reclaim(&mut self, object: ObjectId) -> Result<(), AllocError>
        ensures run { OnOk result ((now : State) (moments tickets : ObjectId → ℕ) → Knows self.old now moments tickets → HasObject now.queued object → Knows self.new (after now (Run object)) moments tickets) }
        ensures refused { OnErr result (IsSame self.old self.new) }
    {
        self.reclaimed.insert(object.0)?;
        self.known.remove(&object);
        Ok(())
    }
}
