//! The board: what is kept between two lines, and one step of it.

ghost use Rattle.std.specs.Prelude.{◌≡◌, slice_get, IfOk, IfErr};
ghost use Rattle.std.specs.Option.{option_copied};
ghost use Rattle.rcu_model.specs.declared.refusal.Refusal.TheVariants as refusal;

use rcu_model::{Event, Refusal};
use std::alloc::Global;
use world_kept::Kept;
use world_state::{
    Answer, Change, Config, Line, ReaderStep, ReaderVerb, StepError, UpdaterVerb, WorkerVerb,
    WorldPlan,
};

/// What is kept, and the steps that change it.
#[derive(Drop)]
pub struct Board<P> {
    pub(crate) kept: Kept<P>,
}

/// What stands at this place, if there is such a place.
pub(crate) fn at<T: Copy>(items: &[T], place: usize) -> Option<T>
    ensures { result ≡ slice_get items.now place }
{
    items.get(place).copied()
}

/// Where this place is, if there is such a place.
pub(crate) fn entry<T>(items: &[T], place: usize) -> Option<&T>
    ensures { option_copied result ≡ slice_get items.now place }
{
    items.get(place)
}

impl<P: WorldPlan + Drop> Board<P> {
    ghost use Rattle.world_state.specs.View.{fresh_at, plans_of};
    ghost use Rattle.world_state.specs.declared.line.Line.TheVariants.{Reader as ReaderLine, Updater as UpdaterLine};
    ghost use Rattle.world.specs.Lines.{change_of, outcome_of};
    ghost use Rattle.world.specs.Row.{read_step};
    ghost use Rattle.world.specs.Shown.{shown, Meets, IsInRange};

    /// A board on which nothing has happened. `Memory` where that was refused.
    pub fn new(alloc: Global, config: Config, seq: u64) -> Result<Board<P>, Refusal>
        ensures ok { IfOk result (λ b. shown b ≡ fresh_at config seq) }
        ensures memory { IfErr result (λ e. e ≡ refusal.Memory) }
    {
        match Kept::new(alloc, config, seq) {
            Ok(kept) => Ok(Board { kept }),
            Err(refusal) => Err(refusal),
        }
    }

    /// One step, answered or refused as the step table says. `Memory` and each other refusal change nothing.
    pub fn step(&mut self, line: &Line) -> Result<Answer, StepError>
        requires { IsInRange (plans_of P.QSBR P.made P.action P.turn P.taken) (shown self.old) }
        ensures { Meets (outcome_of (plans_of P.QSBR P.made P.action P.turn P.taken) (shown self.old) line.now) (shown self.old) (shown self.new) result }
    {
        match *line {
            Line::Reader(reader, verb) => self.read(reader, verb),
            Line::Updater(updater, verb) => self.update(updater, verb),
            Line::Worker(worker, WorkerVerb::Take) => self.take(worker),
            Line::Worker(worker, WorkerVerb::GoOn) => self.work_on(worker),
        }
    }

    /// A line of a reader, made at once: a `Change` is as large as what an updater changes, and would be moved.
    fn read(&mut self, reader: u32, verb: ReaderVerb) -> Result<Answer, StepError>
        requires { IsInRange (plans_of P.QSBR P.made P.action P.turn P.taken) (shown self.old) }
        ensures { Meets (outcome_of (plans_of P.QSBR P.made P.action P.turn P.taken) (shown self.old) (ReaderLine reader verb)) (shown self.old) (shown self.new) result }
    {
        let step = self.reader_step(reader, verb)?;
        self.kept.read(reader, step)
    }

    /// What a line of a reader makes of it, or why it is refused.
    fn reader_step(&self, reader: u32, verb: ReaderVerb) -> Result<ReaderStep, Refusal>
        requires { IsInRange (plans_of P.QSBR P.made P.action P.turn P.taken) (shown self.now) }
        ensures { change_of (plans_of P.QSBR P.made P.action P.turn P.taken) (shown self.now) (ReaderLine reader verb) ≡ read_step reader result }
    {
        let Some(state) = at(&self.kept.readers, reader as usize) else {
            return Err(Refusal::NoActor);
        };
        self.reader_line(reader, state, verb)
    }

    /// A line of an updater.
    fn update(&mut self, updater: u32, verb: UpdaterVerb) -> Result<Answer, StepError>
        requires { IsInRange (plans_of P.QSBR P.made P.action P.turn P.taken) (shown self.old) }
        ensures { Meets (outcome_of (plans_of P.QSBR P.made P.action P.turn P.taken) (shown self.old) (UpdaterLine updater verb)) (shown self.old) (shown self.new) result }
    {
        let change = self.updater_change(updater, verb)?;
        self.kept.commit(change)
    }

    /// What a line of an updater makes of the world, or why it is refused.
    fn updater_change(&self, updater: u32, verb: UpdaterVerb) -> Result<Change<P>, Refusal>
        requires { IsInRange (plans_of P.QSBR P.made P.action P.turn P.taken) (shown self.now) }
        ensures { result ≡ change_of (plans_of P.QSBR P.made P.action P.turn P.taken) (shown self.now) (UpdaterLine updater verb) }
    {
        let Some(state) = at(&self.kept.updaters, updater as usize) else {
            return Err(Refusal::NoActor);
        };
        self.updater_line(updater, state, verb)
    }

    /// What the steps told.
    pub fn log(&self) -> &[Event]
        ensures { result.now ≡ (shown self.now).log }
    {
        &self.kept.log
    }
}
