//! What the world keeps of an object, and what a store into a chain changes.

ghost use Rattle.std.specs.Prelude.{◌≡◌};
ghost use Rattle.std.specs.Option.{option_or};

use rcu_model::ObjectId;

/// Where an object is.
#[derive(Clone, Copy, Drop)]
pub enum Stage {
    /// In no chain yet.
    Fresh,
    /// In its chain: readers may find it.
    Linked,
    /// Out of its chain: only those who found it before may stand on it.
    Cut,
}

/// What was done with an object since it was cut. `Retired` and `Reclaimed` are stores of its header, `Queued` is the
/// push of its item.
#[derive(Clone, Copy, Drop)]
pub enum Life {
    /// Nothing: it is in use, or nobody has retired it.
    Kept,
    /// Its updater gave it up.
    Retired,
    /// It waits in its queue.
    Queued,
    /// Its callback has run.
    Reclaimed,
}

/// What the world keeps of an object.
#[derive(Clone, Copy, Drop)]
pub struct ObjectState {
    /// The chain that it was pushed into, or put into by a replacement.
    pub chain: u32,
    /// Its link word.
    pub link: Option<ObjectId>,
    /// The object whose link leads to it while it is linked, or none for the head. No word, and no reader loads it.
    pub before: Option<ObjectId>,
    /// Where it is.
    pub stage: Stage,
    /// What was done with it since it was cut.
    pub life: Life,
}

/// What becomes of an object: the store of its header, or, for `Queued`, the push of its item.
#[derive(Clone, Copy, Drop)]
pub struct Mark {
    /// The object that it is about.
    pub object: ObjectId,
    /// What becomes of it.
    pub life: Life,
}

/// One store into a chain: what leaves it and what enters it, between two neighbours.
#[derive(Clone, Copy, Drop)]
pub struct Splice {
    /// The chain that is stored into.
    pub chain: u32,
    /// The object whose link is stored, or none for the head.
    pub before: Option<ObjectId>,
    /// The object that follows then, or none at the end.
    pub after: Option<ObjectId>,
    /// The object that leaves, if one does.
    pub leaves: Option<ObjectId>,
    /// The object that enters, if one does.
    pub enters: Option<ObjectId>,
}

impl ObjectState {
    ghost use Rattle.world_state.specs.Objects.{fresh_object, is_linked};

    /// An object that is in no chain yet, with its fresh link.
    pub fn fresh(chain: u32, link: Option<ObjectId>) -> ObjectState
        ensures { result ≡ fresh_object chain link }
    {
        ObjectState {
            chain,
            link,
            before: None,
            stage: Stage::Fresh,
            life: Life::Kept,
        }
    }

    /// Whether it is in its chain.
    pub fn is_linked(self) -> bool
        ensures { result ≡ is_linked self.stage }
    {
        matches!(self.stage, Stage::Linked)
    }
}

impl Splice {
    /// What the place before is to lead to.
    pub fn value(self) -> Option<ObjectId>
        ensures { result ≡ option_or self.enters self.after }
    {
        self.enters.or(self.after)
    }

    /// What is to stand before the object after.
    pub fn mark(self) -> Option<ObjectId>
        ensures { result ≡ option_or self.enters self.before }
    {
        self.enters.or(self.before)
    }
}
