//! The lines of updaters that publish, replace and cut.

ghost use Rattle.std.specs.Prelude.{◌≡◌, ◌<◌, length, slice_get};

use crate::board::{Board, at};
use rcu_model::{Event, ObjectId, Refusal};
use world_state::{Change, ObjectState, Publishing, Splice, UpdaterPlace, UpdaterState, WorldPlan};

impl<P: WorldPlan + Drop> Board<P> {
    ghost use Rattle.world.specs.Chains.{writes, next_object, linked_by, push_row, replace_row, cut_row, published, pushed_row, replaced_row};
    ghost use Rattle.world.specs.Row.{made};
    ghost use Rattle.world.specs.Shown.{shown};

    /// Whether the updater is the one that writes the chain.
    pub fn writes(&self, updater: u32, chain: u32) -> bool
        requires { 0 < length (shown self.now).updaters }
        ensures { result ≡ writes (shown self.now) updater chain }
    {
        chain as usize % self.kept.updaters.len() == updater as usize
    }

    fn next_object(&self) -> ObjectId
        ensures { result ≡ next_object (shown self.now) }
    {
        ObjectId(self.kept.objects.len() as u64)
    }

    /// The object, where it is linked in a chain that the updater writes.
    fn linked(&self, updater: u32, object: ObjectId) -> Option<ObjectState>
        requires { 0 < length (shown self.now).updaters }
        ensures { result ≡ linked_by (shown self.now) updater (slice_get (shown self.now).objects object.0) }
    {
        let state = at(&self.kept.objects, object.0 as usize)?;
        if state.is_linked() && self.writes(updater, state.chain) {
            Some(state)
        } else {
            None
        }
    }

    /// `push`, first step: the fresh link is the head.
    pub fn push(
        &self,
        updater: u32,
        mut state: UpdaterState<P>,
        chain: u32,
    ) -> Result<Change<P>, Refusal>
        requires { 0 < length (shown self.now).updaters }
        ensures { result ≡ made (push_row (shown self.now) updater state chain (slice_get (shown self.now).heads chain)) }
    {
        let Some(head) = at(&self.kept.heads, chain as usize) else {
            return Err(Refusal::NoPlace);
        };
        if !self.writes(updater, chain) {
            return Err(Refusal::NoPlace);
        }
        state.place = UpdaterPlace::Publishes(Publishing::Push(self.next_object()));
        Ok(Change::Begin {
            updater,
            state,
            object: ObjectState::fresh(chain, head),
        })
    }

    /// `replace`, first step: the fresh link is the old object's successor.
    pub fn replace(
        &self,
        updater: u32,
        mut state: UpdaterState<P>,
        old: ObjectId,
    ) -> Result<Change<P>, Refusal>
        requires { 0 < length (shown self.now).updaters }
        ensures { result ≡ made (replace_row (shown self.now) updater state old (linked_by (shown self.now) updater (slice_get (shown self.now).objects old.0))) }
    {
        let Some(object) = self.linked(updater, old) else {
            return Err(Refusal::NoPlace);
        };
        let new = self.next_object();
        state.place = UpdaterPlace::Publishes(Publishing::Replace { old, new });
        Ok(Change::Begin {
            updater,
            state,
            object: ObjectState::fresh(object.chain, object.link),
        })
    }

    /// `cut`: stores the link before the object, or the head.
    pub fn cut(
        &self,
        updater: u32,
        state: UpdaterState<P>,
        object: ObjectId,
    ) -> Result<Change<P>, Refusal>
        requires { 0 < length (shown self.now).updaters }
        ensures { result ≡ made (cut_row updater state object (linked_by (shown self.now) updater (slice_get (shown self.now).objects object.0))) }
    {
        let Some(
            ObjectState {
                chain,
                before,
                link,
                ..
            },
        ) = self.linked(updater, object)
        else {
            return Err(Refusal::NoPlace);
        };
        Ok(Change::Publish {
            updater,
            state,
            splice: Splice {
                chain,
                before,
                after: link,
                leaves: Some(object),
                enters: None,
            },
            event: Event::Cut { chain, object },
        })
    }

    /// The second step of `push` or `replace`.
    pub fn publish(
        &self,
        updater: u32,
        mut state: UpdaterState<P>,
        publishing: Publishing,
    ) -> Result<Change<P>, Refusal>
        ensures { result ≡ made (published (shown self.now) updater state publishing) }
    {
        state.place = UpdaterPlace::Idle;
        match publishing {
            Publishing::Push(new) => self.pushed(updater, state, new),
            Publishing::Replace { old, new } => self.replaced(updater, state, old, new),
        }
    }

    /// `push`, second step: stores the head.
    fn pushed(
        &self,
        updater: u32,
        state: UpdaterState<P>,
        new: ObjectId,
    ) -> Result<Change<P>, Refusal>
        ensures { result ≡ made (pushed_row updater state new (slice_get (shown self.now).objects new.0)) }
    {
        let Some(object) = at(&self.kept.objects, new.0 as usize) else {
            return Err(Refusal::NoPlace);
        };
        Ok(Change::Publish {
            updater,
            state,
            splice: Splice {
                chain: object.chain,
                before: None,
                after: object.link,
                leaves: None,
                enters: Some(new),
            },
            event: Event::Push {
                chain: object.chain,
                object: new,
            },
        })
    }

    /// `replace`, second step: stores the link before the old object, or the head.
    fn replaced(
        &self,
        updater: u32,
        state: UpdaterState<P>,
        old: ObjectId,
        new: ObjectId,
    ) -> Result<Change<P>, Refusal>
        ensures { result ≡ made (replaced_row updater state old new (slice_get (shown self.now).objects old.0)) }
    {
        let Some(object) = at(&self.kept.objects, old.0 as usize) else {
            return Err(Refusal::NoPlace);
        };
        Ok(Change::Publish {
            updater,
            state,
            splice: Splice {
                chain: object.chain,
                before: object.before,
                after: object.link,
                leaves: Some(old),
                enters: Some(new),
            },
            event: Event::Replace {
                chain: object.chain,
                old,
                new,
            },
        })
    }
}
