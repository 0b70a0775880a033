//! Writes into the tables of what is known of objects and chains.

ghost use Rattle.std.specs.Prelude.{◌≡◌, ◌<◌, OnOk, OnErr, IsOk, Some};
ghost use Rattle.std.specs.HashMap.{spare};
ghost use Rattle.rcu_judge.specs.declared.object.Stage.TheVariants.{Cut};
ghost use Rattle.rcu_model.specs.Sets.{at_number, at_object};
ghost use Rattle.rcu_judge.specs.Objects.{states_of, heads_of, written, entered, stored};

use crate::object::{ObjectState, Stage};
use rcu_model::ObjectId;
use std::alloc::AllocError;
use std::collections::HashMap;

/// The state of each object that was put into a chain.
pub(crate) type States = HashMap<ObjectId, ObjectState>;

/// The first object of each chain that is not empty.
pub(crate) type Heads = HashMap<u32, ObjectId>;

/// The state of an object.
pub(crate) fn state_of(states: &States, object: ObjectId) -> Option<ObjectState>
    ensures { result ≡ states_of states.now object }
{
    states.get(&object).copied()
}

/// Makes room for one more object.
pub(crate) fn make_room(states: &mut States) -> Result<(), AllocError>
    ensures same { states_of states.new ≡ states_of states.old }
    ensures room { OnOk result (0 < spare states.new) }
{
    states.reserve(1)
}

/// Writes an object's link.
pub(crate) fn put_after(states: &mut States, object: Option<ObjectId>, after: Option<ObjectId>)
    ensures wrote { states_of states.new ≡ written (states_of states.old) object (λ x. record x { after = after }) }
    ensures room { spare states.new ≡ spare states.old }
{
    let Some(object) = object else {
        return;
    };
    let Some(state) = states.get_mut(&object) else {
        return;
    };
    state.after = after;
}

/// Writes the object that stands before an object.
pub(crate) fn put_before(states: &mut States, object: Option<ObjectId>, before: Option<ObjectId>)
    ensures wrote { states_of states.new ≡ written (states_of states.old) object (λ x. record x { before = before }) }
    ensures room { spare states.new ≡ spare states.old }
{
    let Some(object) = object else {
        return;
    };
    let Some(state) = states.get_mut(&object) else {
        return;
    };
    state.before = before;
}

/// Writes how far an object has come.
pub(crate) fn put_stage(states: &mut States, object: ObjectId, stage: Stage)
    ensures wrote { states_of states.new ≡ written (states_of states.old) (Some object) (λ x. record x { stage = stage }) }
    ensures room { spare states.new ≡ spare states.old }
{
    let Some(state) = states.get_mut(&object) else {
        return;
    };
    state.stage = stage;
}

/// Writes that an object is cut.
pub(crate) fn leave(states: &mut States, object: Option<ObjectId>)
    ensures wrote { states_of states.new ≡ written (states_of states.old) object (λ x. record x { stage = Cut }) }
    ensures room { spare states.new ≡ spare states.old }
{
    let Some(object) = object else {
        return;
    };
    put_stage(states, object, Stage::Cut);
}

/// Writes the state of an object that enters a chain.
pub(crate) fn enter(
    states: &mut States,
    object: Option<ObjectId>,
    state: ObjectState,
) -> Result<(), AllocError>
    ensures entered { OnOk result (states_of states.new ≡ entered (states_of states.old) object state) }
    ensures succeeds { 0 < spare states.old → IsOk result }
{
    let Some(object) = object else {
        return Ok(());
    };
    states.insert(object, state)?;
    Ok(())
}

/// Writes the first object of a chain.
pub(crate) fn put_head(
    heads: &mut Heads,
    chain: u32,
    first: Option<ObjectId>,
) -> Result<(), AllocError>
    ensures put { OnOk result (heads_of heads.new ≡ at_number chain first (heads_of heads.old)) }
    ensures refused { OnErr result (heads_of heads.new ≡ heads_of heads.old) }
{
    match first {
        Some(object) => {
            heads.insert(chain, object)?;
        }
        None => {
            heads.remove(&chain);
        }
    }
    Ok(())
}

/// Writes what the head of a chain leads to, where no object stands before.
pub(crate) fn store_head(
    heads: &mut Heads,
    chain: u32,
    before: Option<ObjectId>,
    value: Option<ObjectId>,
) -> Result<(), AllocError>
    ensures stored { OnOk result (heads_of heads.new ≡ stored (heads_of heads.old) chain before value) }
    ensures refused { OnErr result (heads_of heads.new ≡ heads_of heads.old) }
{
    if before.is_some() {
        return Ok(());
    }
    put_head(heads, chain, value)
}
