//! What the checker knows of an object, and what a store into a chain changes.

ghost use Rattle.std.specs.Prelude.{◌≡◌, ◌&&◌, ◌==◌};
ghost use Rattle.std.specs.Option.{option_or};

use rcu_model::ObjectId;

/// How far an object has come, until its callback has run. A moment and a ticket are the numbers that the checker gives
/// at the retirement and at the queueing.
#[derive(Clone, Copy, Debug, PartialEq, Eq, Drop)]
pub(crate) enum Stage {
    Linked,
    Cut,
    Retired { moment: usize },
    Queued { moment: usize, ticket: usize },
}

/// What the checker knows of an object.
#[derive(Clone, Copy, Debug, PartialEq, Eq, Drop)]
pub(crate) struct ObjectState {
    /// The chain that it was put into.
    pub(crate) chain: u32,
    /// The object whose link leads to it while it is linked, or none for the head.
    pub(crate) before: Option<ObjectId>,
    /// Its successor, which it keeps once it is cut.
    pub(crate) after: Option<ObjectId>,
    pub(crate) stage: Stage,
}

/// What an object that is queued and was not run waits with.
#[derive(Clone, Copy, Debug, PartialEq, Eq, Drop)]
pub(crate) struct Waiting {
    pub(crate) moment: usize,
    pub(crate) ticket: usize,
}

/// One store into a chain: what leaves it and what enters it, between two neighbours.
#[derive(Clone, Copy, Debug, PartialEq, Eq, Drop)]
pub(crate) struct Splice {
    pub(crate) chain: u32,
    /// The object whose link is stored, or none for the head.
    pub(crate) before: Option<ObjectId>,
    pub(crate) after: Option<ObjectId>,
    pub(crate) leaves: Option<ObjectId>,
    pub(crate) enters: Option<ObjectId>,
}

impl ObjectState {
    ghost use Rattle.rcu_judge.specs.Objects.{is_linked};

    /// Whether it is in a chain.
    fn is_linked(self) -> bool
        ensures { result ≡ is_linked self.stage }
    {
        matches!(self.stage, Stage::Linked)
    }

    /// Whether it is in this chain.
    pub(crate) fn is_linked_in(self, chain: u32) -> bool
        ensures { result ≡ is_linked self.stage && (self.chain == chain) }
    {
        self.is_linked() && self.chain == chain
    }
}

impl Splice {
    /// What the place before is to lead to.
    pub(crate) fn value(self) -> Option<ObjectId>
        ensures { result ≡ option_or self.enters self.after }
    {
        self.enters.or(self.after)
    }

    /// What is to stand before the object after.
    pub(crate) fn mark(self) -> Option<ObjectId>
        ensures { result ≡ option_or self.enters self.before }
    {
        self.enters.or(self.before)
    }
}
