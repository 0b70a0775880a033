//! Writes into the lists that the world keeps.

ghost use Rattle.std.specs.Prelude.{◌≡◌, slice_set};
ghost use Rattle.world_state.specs.declared.object.Stage.TheVariants.{Linked};
ghost use Rattle.world_state.specs.declared.object.ObjectState.{ObjectState};
ghost use Rattle.world_state.specs.Objects.{written, spliced_heads, spliced_objects, marked_life};

use crate::object::{Mark, ObjectState, Splice, Stage};
use rcu_model::ObjectId;

/// Writes an element, where it is there.
pub fn put<T: Copy>(items: &mut [T], place: usize, value: T)
    ensures { items.new ≡ slice_set items.old place value }
{
    if place < items.len() {
        items[place] = value;
    }
}

/// Writes an object's link.
fn put_link(objects: &mut Vec<ObjectState>, object: Option<ObjectId>, link: Option<ObjectId>)
    ensures { objects.new.items ≡ written objects.old.items object (λ x. record x { link = link }) }
{
    let Some(object) = object else {
        return;
    };
    let place = object.0 as usize;
    if place < objects.len() {
        objects[place].link = link;
    }
}

/// Writes the object that stands before an object.
fn put_before(objects: &mut Vec<ObjectState>, object: Option<ObjectId>, before: Option<ObjectId>)
    ensures { objects.new.items ≡ written objects.old.items object (λ x. record x { before = before }) }
{
    let Some(object) = object else {
        return;
    };
    let place = object.0 as usize;
    if place < objects.len() {
        objects[place].before = before;
    }
}

/// Writes where an object is.
fn put_stage(objects: &mut Vec<ObjectState>, object: Option<ObjectId>, stage: Stage)
    ensures { objects.new.items ≡ written objects.old.items object (λ x. record x { stage = stage }) }
{
    let Some(object) = object else {
        return;
    };
    let place = object.0 as usize;
    if place < objects.len() {
        objects[place].stage = stage;
    }
}

/// Writes that an object is linked, after another one.
fn enter(objects: &mut Vec<ObjectState>, object: Option<ObjectId>, before: Option<ObjectId>)
    ensures { objects.new.items ≡ written objects.old.items object (λ x. record x { before = before; stage = Linked }) }
{
    let Some(object) = object else {
        return;
    };
    let place = object.0 as usize;
    if place < objects.len() {
        objects[place] = ObjectState {
            before,
            stage: Stage::Linked,
            ..objects[place]
        };
    }
}

/// What a store into a chain makes of the heads.
pub fn splice_heads(heads: &mut [Option<ObjectId>], splice: Splice)
    ensures { heads.new ≡ spliced_heads heads.old splice }
{
    if splice.before.is_none() {
        put(heads, splice.chain as usize, splice.value());
    }
}

/// What a store into a chain makes of the objects, which are kept by their numbers.
pub fn splice_objects(objects: &mut Vec<ObjectState>, splice: Splice)
    ensures { objects.new.items ≡ spliced_objects objects.old.items splice }
{
    put_link(objects, splice.before, splice.value());
    put_before(objects, splice.after, splice.mark());
    put_stage(objects, splice.leaves, Stage::Cut);
    enter(objects, splice.enters, splice.before);
}

/// What becomes of an object, among the objects, which are kept by their numbers.
pub fn mark_object(objects: &mut Vec<ObjectState>, mark: Option<Mark>)
    ensures { objects.new.items ≡ marked_life objects.old.items mark }
{
    let Some(mark) = mark else {
        return;
    };
    let place = mark.object.0 as usize;
    if place < objects.len() {
        objects[place].life = mark.life;
    }
}
