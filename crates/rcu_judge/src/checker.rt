//! What is known of the abstract machine after some events.

ghost use Rattle.std.specs.Prelude.{ℕ, IfOk, OnErr};
ghost use Rattle.rcu_model.specs.declared.event.Event.TheVariants.{Open, Close, First, Next, Touch, Push, Replace, Cut, Retire, Queue, Run, Ask, Answer, Bar, Clear};
ghost use Rattle.rcu_model.specs.Machine.{start};
ghost use Rattle.rcu_judge.specs.Checker.{Follows, Answers, Gets, Keeps};

use crate::holdings::Holdings;
use crate::objects::Objects;
use crate::roster::Roster;
use crate::sections::Sections;
use crate::waits::Waits;
use rcu_model::{Event, ObjectId, SectionId};
use std::alloc::{AllocError, Global};

/// What is known of the abstract machine after some events. Once an event was wrong it is of no more use.
#[derive(Drop)]
pub(crate) struct Checker {
    sections: Sections,
    holdings: Holdings,
    objects: Objects,
    // The queued objects by their tickets, until their callbacks run.
    queued: Roster,
    asks: Waits,
    barriers: Waits,
}

impl Checker {
    /// Nothing has happened.
    pub(crate) fn new(alloc: Global) -> Self
        ensures { Follows result start }
    {
        Checker {
            sections: Sections::new(alloc),
            holdings: Holdings::new(alloc),
            objects: Objects::new(alloc),
            queued: Roster::new(alloc),
            asks: Waits::new(alloc),
            barriers: Waits::new(alloc),
        }
    }

    /// Whether the event may come now, and if so it has.
    ///
    /// # Errors
    /// `AllocError` where memory was refused; then the event has not come.
    pub(crate) fn follow(&mut self, event: &Event) -> Result<bool, AllocError>
        ensures answered { IfOk result (Answers self.old self.new event.now) }
        ensures refused { OnErr result (Keeps self.old self.new) }
    {
        match *event {
            Event::Open(section) => self.open(section),
            Event::Close(section) => Ok(self.close(section)),
            Event::First {
                section,
                chain,
                found,
            } => self.first(section, chain, found),
            Event::Next {
                section,
                from,
                found,
            } => self.next(section, from, found),
            Event::Touch { section, object } => Ok(self.touch(section, object)),
            Event::Push { chain, object } => self.push(chain, object),
            Event::Replace { chain, old, new } => self.replace(chain, old, new),
            Event::Cut { chain, object } => self.cut(chain, object),
            Event::Retire(object) => Ok(self.retire(object)),
            Event::Queue { object, .. } => self.queue(object),
            Event::Run(object) => self.run(object),
            Event::Ask(ask) => self.ask(ask),
            Event::Answer(ask) => Ok(self.answer(ask)),
            Event::Bar(barrier) => self.bar(barrier),
            Event::Clear(barrier) => Ok(self.clear(barrier)),
        }
    }

    fn open(&mut self, section: SectionId) -> Result<bool, AllocError>
        ensures answered { IfOk result (Answers self.old self.new (Open section)) }
        ensures refused { OnErr result (Keeps self.old self.new) }
    {
        let opened = self.sections.open(section)?;
        Ok(opened)
    }

    fn close(&mut self, section: SectionId) -> bool
        ensures { Answers self.old self.new (Close section) result }
    {
        self.holdings.forget(section);
        self.sections.close(section)
    }

    // The section holds what it found, if it found an object.
    fn hold(&mut self, section: SectionId, found: Option<ObjectId>) -> Result<(), AllocError>
        ensures answered { IfOk result (λ _. Gets self.old self.new section found) }
        ensures refused { OnErr result (Keeps self.old self.new) }
    {
        if let Some(object) = found {
            self.holdings.add(section, object)?;
        }
        Ok(())
    }

    fn first(
        &mut self,
        section: SectionId,
        chain: u32,
        found: Option<ObjectId>,
    ) -> Result<bool, AllocError>
        ensures answered { IfOk result (Answers self.old self.new (First section chain found)) }
        ensures refused { OnErr result (Keeps self.old self.new) }
    {
        if !self.sections.is_open(section) {
            return Ok(false);
        }
        if self.objects.first(chain) != found {
            return Ok(false);
        }
        self.hold(section, found)?;
        Ok(true)
    }

    fn next(
        &mut self,
        section: SectionId,
        from: ObjectId,
        found: Option<ObjectId>,
    ) -> Result<bool, AllocError>
        ensures answered { IfOk result (Answers self.old self.new (Next section from found)) }
        ensures refused { OnErr result (Keeps self.old self.new) }
    {
        if !self.touch(section, from) {
            return Ok(false);
        }
        if self.objects.after(from) != Some(found) {
            return Ok(false);
        }
        self.hold(section, found)?;
        Ok(true)
    }

    fn touch(&self, section: SectionId, object: ObjectId) -> bool
        ensures { Answers self.now self.now (Touch section object) result }
    {
        self.sections.is_open(section) && self.holdings.has(section, object)
    }

    fn push(&mut self, chain: u32, object: ObjectId) -> Result<bool, AllocError>
        ensures answered { IfOk result (Answers self.old self.new (Push chain object)) }
        ensures refused { OnErr result (Keeps self.old self.new) }
    {
        let done = self.objects.push(chain, object)?;
        Ok(done)
    }

    fn replace(&mut self, chain: u32, old: ObjectId, new: ObjectId) -> Result<bool, AllocError>
        ensures answered { IfOk result (Answers self.old self.new (Replace chain old new)) }
        ensures refused { OnErr result (Keeps self.old self.new) }
    {
        let done = self.objects.replace(chain, old, new)?;
        Ok(done)
    }

    fn cut(&mut self, chain: u32, object: ObjectId) -> Result<bool, AllocError>
        ensures answered { IfOk result (Answers self.old self.new (Cut chain object)) }
        ensures refused { OnErr result (Keeps self.old self.new) }
    {
        let done = self.objects.cut(chain, object)?;
        Ok(done)
    }

    fn retire(&mut self, object: ObjectId) -> bool
        ensures { Answers self.old self.new (Retire object) result }
    {
        self.objects.retire(object, self.sections.moment())
    }

    fn queue(&mut self, object: ObjectId) -> Result<bool, AllocError>
        ensures answered { IfOk result (λ done. (queue : ℕ) → Answers self.old self.new (Queue object queue) done) }
        ensures refused { OnErr result (Keeps self.old self.new) }
    {
        let ticket = self.queued.arrive()?;
        Ok(self.objects.queue(object, ticket))
    }

    fn run(&mut self, object: ObjectId) -> Result<bool, AllocError>
        ensures answered { IfOk result (Answers self.old self.new (Run object)) }
        ensures refused { OnErr result (Keeps self.old self.new) }
    {
        let Some(waiting) = self.objects.queued(object) else {
            return Ok(false);
        };
        if !self.sections.all_closed(waiting.moment) {
            return Ok(false);
        }
        self.objects.reclaim(object)?;
        Ok(self.queued.leave(waiting.ticket))
    }

    fn ask(&mut self, ask: u64) -> Result<bool, AllocError>
        ensures answered { IfOk result (Answers self.old self.new (Ask ask)) }
        ensures refused { OnErr result (Keeps self.old self.new) }
    {
        let fresh = self.asks.begin(ask, self.sections.moment())?;
        Ok(fresh)
    }

    fn answer(&mut self, ask: u64) -> bool
        ensures { Answers self.old self.new (Answer ask) result }
    {
        match self.asks.end(ask) {
            Some(moment) => self.sections.all_closed(moment),
            None => false,
        }
    }

    fn bar(&mut self, barrier: u64) -> Result<bool, AllocError>
        ensures answered { IfOk result (Answers self.old self.new (Bar barrier)) }
        ensures refused { OnErr result (Keeps self.old self.new) }
    {
        let fresh = self.barriers.begin(barrier, self.queued.moment())?;
        Ok(fresh)
    }

    fn clear(&mut self, barrier: u64) -> bool
        ensures { Answers self.old self.new (Clear barrier) result }
    {
        match self.barriers.end(barrier) {
            Some(moment) => self.queued.all_left(moment),
            None => false,
        }
    }
}
