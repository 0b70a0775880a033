//! A world whose steps may be refused memory.

use crate::answers::AnswerText;
use crate::ledger::{Call, Finding, Ledger};
use crate::operations::{ACTORS, Begun, Operation};
use rcu_model::Event;
use std::alloc::Global;
use world::{Answer, Config, Line, StepError, World};

/// What can be seen of a world from outside, but for its log.
#[derive(Clone, Copy, PartialEq, Eq, Drop)]
struct Seen {
    given: u64,
    busy: [bool; 5],
}

impl Seen {
    fn of(world: &World) -> Seen {
        Seen {
            given: world.objects_given(),
            busy: ACTORS.map(|actor| world.is_in_operation(actor)),
        }
    }
}

/// A world whose calls are made again where they are refused memory.
#[derive(Drop)]
pub struct Stepped {
    world: World,
    /// The events that its steps answered, in a list that never grows.
    told: Vec<Event>,
    room: usize,
    begun: Begun,
}

impl Stepped {
    /// A world in which nothing has happened, and whose steps will tell at most this many events.
    pub fn new(
        alloc: Global,
        ledger: &mut Ledger,
        config: Config,
        room: usize,
    ) -> Result<Stepped, Finding> {
        Ok(Stepped {
            world: ledger.again(Call::New, || World::new(alloc, config))?,
            told: ledger.again(Call::Own, || Vec::with_capacity(alloc, room))?,
            room,
            begun: Begun::new(),
        })
    }

    /// The events of the world so far.
    pub fn log(&self) -> &[Event] {
        self.world.log()
    }

    /// Whether the world shows this, and the events that its steps answered.
    fn is_as(&self, before: Seen) -> bool {
        Seen::of(&self.world) == before && self.world.log() == self.told.as_slice()
    }

    /// Keeps an event that a step answered: `Wrong` where there is no room, as more came than were worked out.
    fn keep(&mut self, event: Event) -> Result<(), Finding> {
        if self.told.len() >= self.room {
            return Err(Finding::Wrong(Call::Step));
        }
        self.told.push(event).map_err(|_| Finding::Wrong(Call::Own))
    }

    /// Keeps the events of an answer.
    fn keep_told(&mut self, answer: Result<Answer, StepError>) -> Result<(), Finding> {
        let Ok(Answer::Events { first, second }) = answer else {
            return Ok(());
        };
        self.keep(first)?;
        match second {
            Some(second) => self.keep(second),
            None => Ok(()),
        }
    }

    /// Steps the line again, which was refused memory: `Changed` where the refusal did not leave the world as it was.
    fn step_again(
        &mut self,
        ledger: &mut Ledger,
        line: &Line,
        operation: Operation,
        before: Seen,
    ) -> Result<Result<Answer, StepError>, Finding> {
        if !self.is_as(before) {
            return Err(Finding::Changed(Call::Step));
        }
        let answer = self.world.step(line);
        ledger.note_step(operation, AnswerText(answer));
        match answer {
            Err(StepError::Memory) => Err(Finding::RefusedAgain(Call::Step)),
            answer => Ok(answer),
        }
    }

    /// Steps the line, and again where it is refused memory. A refusal leaves the world as it was, or `Changed` is
    /// found.
    pub fn step(
        &mut self,
        ledger: &mut Ledger,
        line: &Line,
    ) -> Result<Result<Answer, StepError>, Finding> {
        let operation = self.begun.operation(*line);
        let before = Seen::of(&self.world);
        let answer = match self.world.step(line) {
            Err(StepError::Memory) => self.step_again(ledger, line, operation, before)?,
            answer => answer,
        };
        self.keep_told(answer)?;
        Ok(answer)
    }

    /// Drains worker 0, and again where that is refused memory. A refusal leaves the world as it was, or `Changed` is
    /// found. No step can follow, since it tells events that are not kept.
    pub fn drain(
        mut self,
        ledger: &mut Ledger,
    ) -> Result<(World, Result<u64, StepError>), Finding> {
        let before = Seen::of(&self.world);
        let answer = self.world.drain(0);
        if answer != Err(StepError::Memory) {
            return Ok((self.world, answer));
        }
        ledger.note(Call::Drain);
        if !self.is_as(before) {
            return Err(Finding::Changed(Call::Drain));
        }
        match self.world.drain(0) {
            Err(StepError::Memory) => Err(Finding::RefusedAgain(Call::Drain)),
            answer => Ok((self.world, answer)),
        }
    }
}
