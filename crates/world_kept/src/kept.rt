//! What is kept between two lines of a schedule, and how a change of it is made.

ghost use Rattle.std.specs.Prelude.{◌≡◌, ◌<◌, ◌≤◌, ◌++◌, length, slice_get, slice_set, replicate, vec_capacity, None, IsOk, OnOk, OnErr, IfOk, IfErr};
ghost use Rattle.rcu_model.specs.declared.refusal.Refusal.TheVariants as refusal;
ghost use Rattle.world_state.specs.Queues.{empty_queue_state};

use rcu_model::{Event, ObjectId, Refusal};
use std::alloc::Global;
use world_state::{
    Answer, Change, Config, GraceState, Layout, Mark, ObjectState, QueueAct, QueueState,
    ReaderState, ReaderStep, Splice, StepError, UpdaterState, WorkerState, WorldPlan, act_on,
    hold_queue, mark_object, put, splice_heads, splice_objects,
};

/// The words, the bookkeeping beside them, and the log.
#[derive(Drop)]
pub struct Kept<P> {
    /// How the words of readers are laid out.
    pub layout: Layout,
    /// One for each reader.
    pub readers: Vec<ReaderState>,
    /// One for each updater.
    pub updaters: Vec<UpdaterState<P>>,
    /// One for each worker.
    pub workers: Vec<WorkerState<P>>,
    /// One for each worker.
    pub queues: Vec<QueueState>,
    /// How many barriers were begun.
    pub barriers: u64,
    /// The sequence number, the phase or number, who holds the grace lock, and how many asks were begun.
    pub grace: GraceState,
    /// The first object of each chain.
    pub heads: Vec<Option<ObjectId>>,
    /// By their numbers; number 0 is of none.
    pub objects: Vec<ObjectState>,
    /// What the steps told, in order.
    pub log: Vec<Event>,
}

impl<P: WorldPlan + Drop> Kept<P> {
    ghost use Rattle.world_state.specs.declared.change.Change.TheVariants.{Read, Begin, Publish, Grace, Hold, Retire, Bar, Work};
    ghost use Rattle.world_state.specs.declared.line.Answer.TheVariants.{Events, Quiet};
    ghost use Rattle.world_state.specs.View.{fresh_at, changed, answer_of, told};
    ghost use Rattle.world_state.specs.Objects.{spliced_heads, spliced_objects, marked_life};
    ghost use Rattle.world_state.specs.Queues.{acted_at, MayActAt};
    ghost use Rattle.world_kept.specs.Kept.{shown, Grows, MayMake};

    /// What is kept before the first line. `Memory` where that was refused.
    pub fn new(alloc: Global, config: Config, seq: u64) -> Result<Kept<P>, Refusal>
        ensures ok { IfOk result (λ b. shown b ≡ fresh_at config seq) }
        ensures memory { IfErr result (λ e. e ≡ refusal.Memory) }
    {
        let Ok(readers) = vec![in alloc; ReaderState::new(); config.readers as usize] else {
            return Err(Refusal::Memory);
        };
        let Ok(updaters) = vec![in alloc; UpdaterState::new(); config.updaters as usize] else {
            return Err(Refusal::Memory);
        };
        let Ok(workers) = vec![in alloc; WorkerState::new(); config.workers as usize] else {
            return Err(Refusal::Memory);
        };
        let queues = new_queues(alloc, config.workers)?;
        let Ok(heads) = vec![in alloc; None; config.chains as usize] else {
            return Err(Refusal::Memory);
        };
        let Ok(objects) = vec![in alloc; ObjectState::fresh(0, None)] else {
            return Err(Refusal::Memory);
        };
        Ok(Kept {
            layout: config.layout,
            readers,
            updaters,
            workers,
            queues,
            barriers: 0,
            grace: GraceState {
                seq,
                word: 0,
                holder: None,
                asks: 0,
            },
            heads,
            objects,
            log: Vec::new(alloc),
        })
    }

    /// Makes the change, and answers what it tells. `Memory` where there is none for what it adds, which comes first:
    /// then all is as it was.
    pub fn commit(&mut self, change: Change<P>) -> Result<Answer, StepError>
        requires { MayMake (shown self.old) change }
        ensures ok { OnOk result (shown self.new ≡ changed (shown self.old) change) }
        ensures answer { IfOk result (λ a. a ≡ answer_of change) }
        ensures err { OnErr result (shown self.new ≡ shown self.old) }
        ensures memory { IfErr result (λ e. (e ≡ refusal.Memory) × Grows (shown self.old) (changed (shown self.old) change)) }
    {
        match change {
            Change::Read { reader, step } => self.read(reader, step),
            Change::Begin {
                updater,
                state,
                object,
            } => self.begin(updater, state, object),
            Change::Publish {
                updater,
                state,
                splice,
                event,
            } => self.publish(updater, state, splice, event),
            Change::Grace {
                updater,
                state,
                grace,
                answer,
            } => self.go_through(updater, state, grace, answer),
            Change::Hold {
                updater,
                state,
                queue,
            } => self.hold(updater, state, queue),
            Change::Retire {
                updater,
                state,
                queue,
                act,
                mark,
                answer,
            } => self.retire(updater, state, queue, act, mark, answer),
            Change::Bar {
                updater,
                state,
                barriers,
                answer,
            } => self.bar(updater, state, barriers, answer),
            Change::Work {
                worker,
                state,
                grace,
                act,
                mark,
                answer,
            } => self.work(worker, state, grace, act, mark, answer),
            Change::Stay(answer) => Ok(answer),
        }
    }

    /// Makes the step of a reader, and answers what it tells. `Memory` where there is none for that: then all is as it
    /// was.
    pub fn read(&mut self, reader: u32, step: ReaderStep) -> Result<Answer, StepError>
        ensures ok { OnOk result (shown self.new ≡ changed (shown self.old) (Read reader step)) }
        ensures answer { IfOk result (λ a. a ≡ step.answer) }
        ensures err { OnErr result (shown self.new ≡ shown self.old) }
        ensures memory { IfErr result (λ e. (e ≡ refusal.Memory) × Grows (shown self.old) (changed (shown self.old) (Read reader step))) }
    {
        self.tell(step.answer)?;
        put(&mut self.readers, reader as usize, step.state);
        Ok(step.answer)
    }

    /// An updater begins to publish an object.
    fn begin(
        &mut self,
        updater: u32,
        state: UpdaterState<P>,
        object: ObjectState,
    ) -> Result<Answer, StepError>
        ensures ok { OnOk result (shown self.new ≡ changed (shown self.old) (Begin updater state object)) }
        ensures answer { IfOk result (λ a. a ≡ Quiet) }
        ensures err { OnErr result (shown self.new ≡ shown self.old) }
        ensures memory { IfErr result (λ e. (e ≡ refusal.Memory) × Grows (shown self.old) (changed (shown self.old) (Begin updater state object))) }
    {
        if self.objects.push(object).is_err() {
            return Err(Refusal::Memory);
        }
        put(&mut self.updaters, updater as usize, state);
        Ok(Answer::Quiet)
    }

    /// An updater's store into a chain.
    fn publish(
        &mut self,
        updater: u32,
        state: UpdaterState<P>,
        splice: Splice,
        event: Event,
    ) -> Result<Answer, StepError>
        ensures ok { OnOk result (shown self.new ≡ changed (shown self.old) (Publish updater state splice event)) }
        ensures answer { IfOk result (λ a. a ≡ Events event None) }
        ensures err { OnErr result (shown self.new ≡ shown self.old) }
        ensures memory { IfErr result (λ e. (e ≡ refusal.Memory) × Grows (shown self.old) (changed (shown self.old) (Publish updater state splice event))) }
    {
        let answer = Answer::Events {
            first: event,
            second: None,
        };
        self.tell(answer)?;
        self.publish_now(updater, state, splice);
        Ok(answer)
    }

    /// An updater's step of a grace period.
    fn go_through(
        &mut self,
        updater: u32,
        state: UpdaterState<P>,
        grace: GraceState,
        answer: Answer,
    ) -> Result<Answer, StepError>
        ensures ok { OnOk result (shown self.new ≡ changed (shown self.old) (Grace updater state grace answer)) }
        ensures answer { IfOk result (λ a. a ≡ answer) }
        ensures err { OnErr result (shown self.new ≡ shown self.old) }
        ensures memory { IfErr result (λ e. (e ≡ refusal.Memory) × Grows (shown self.old) (changed (shown self.old) (Grace updater state grace answer))) }
    {
        self.tell(answer)?;
        put(&mut self.updaters, updater as usize, state);
        self.grace = grace;
        Ok(answer)
    }

    /// An updater takes a queue's lock, and a place in the queue is reserved.
    fn hold(
        &mut self,
        updater: u32,
        state: UpdaterState<P>,
        queue: u32,
    ) -> Result<Answer, StepError>
        ensures ok { OnOk result (shown self.new ≡ changed (shown self.old) (Hold updater state queue)) }
        ensures answer { IfOk result (λ a. a ≡ Quiet) }
        ensures err { OnErr result (shown self.new ≡ shown self.old) }
        ensures memory { IfErr result (λ e. (e ≡ refusal.Memory) × Grows (shown self.old) (changed (shown self.old) (Hold updater state queue))) }
    {
        hold_queue(&mut self.queues, queue as usize, updater)?;
        put(&mut self.updaters, updater as usize, state);
        Ok(Answer::Quiet)
    }

    /// An updater's step with a queue that it has locked.
    fn retire(
        &mut self,
        updater: u32,
        state: UpdaterState<P>,
        queue: u32,
        act: QueueAct,
        mark: Option<Mark>,
        answer: Answer,
    ) -> Result<Answer, StepError>
        requires { MayActAt act (slice_get (shown self.old).queues queue) }
        ensures ok { OnOk result (shown self.new ≡ changed (shown self.old) (Retire updater state queue act mark answer)) }
        ensures answer { IfOk result (λ a. a ≡ answer) }
        ensures err { OnErr result (shown self.new ≡ shown self.old) }
        ensures memory { IfErr result (λ e. (e ≡ refusal.Memory) × Grows (shown self.old) (changed (shown self.old) (Retire updater state queue act mark answer))) }
    {
        self.tell(answer)?;
        self.act_now(queue, act, mark);
        put(&mut self.updaters, updater as usize, state);
        Ok(answer)
    }

    /// An updater's step of a barrier.
    fn bar(
        &mut self,
        updater: u32,
        state: UpdaterState<P>,
        barriers: u64,
        answer: Answer,
    ) -> Result<Answer, StepError>
        ensures ok { OnOk result (shown self.new ≡ changed (shown self.old) (Bar updater state barriers answer)) }
        ensures answer { IfOk result (λ a. a ≡ answer) }
        ensures err { OnErr result (shown self.new ≡ shown self.old) }
        ensures memory { IfErr result (λ e. (e ≡ refusal.Memory) × Grows (shown self.old) (changed (shown self.old) (Bar updater state barriers answer))) }
    {
        self.tell(answer)?;
        put(&mut self.updaters, updater as usize, state);
        self.barriers = barriers;
        Ok(answer)
    }

    /// Makes a worker's step with its queue, and answers what it tells. `Memory` where there is none for that: then all
    /// is as it was. Where the log has room for it, it is never refused.
    pub fn work(
        &mut self,
        worker: u32,
        state: WorkerState<P>,
        grace: GraceState,
        act: QueueAct,
        mark: Option<Mark>,
        answer: Answer,
    ) -> Result<Answer, StepError>
        requires { MayActAt act (slice_get (shown self.old).queues worker) }
        ensures ok { OnOk result (shown self.new ≡ changed (shown self.old) (Work worker state grace act mark answer)) }
        ensures answer { IfOk result (λ a. a ≡ answer) }
        ensures err { OnErr result (shown self.new ≡ shown self.old) }
        ensures memory { IfErr result (λ e. (e ≡ refusal.Memory) × Grows (shown self.old) (changed (shown self.old) (Work worker state grace act mark answer))) }
        ensures room { length ((shown self.old).log ++ told answer) ≤ vec_capacity self.old.log → IsOk result }
        ensures capacity { vec_capacity self.old.log ≤ vec_capacity self.new.log }
    {
        self.tell(answer)?;
        self.work_now(worker, state, grace, act, mark);
        Ok(answer)
    }

    /// What a worker's step changes beside the log.
    pub fn work_now(
        &mut self,
        worker: u32,
        state: WorkerState<P>,
        grace: GraceState,
        act: QueueAct,
        mark: Option<Mark>,
    )
        requires { MayActAt act (slice_get (shown self.old).queues worker) }
        ensures world { shown self.new ≡ record (shown self.old) { queues = acted_at (shown self.old).queues worker act; objects = marked_life (shown self.old).objects mark; workers = slice_set (shown self.old).workers worker state; grace = grace } }
        ensures log { self.new.log ≡ self.old.log }
    {
        self.act_now(worker, act, mark);
        put(&mut self.workers, worker as usize, state);
        self.grace = grace;
    }

    /// What a step changes of a queue, and of an object with it.
    fn act_now(&mut self, queue: u32, act: QueueAct, mark: Option<Mark>)
        requires { MayActAt act (slice_get (shown self.old).queues queue) }
        ensures world { shown self.new ≡ record (shown self.old) { queues = acted_at (shown self.old).queues queue act; objects = marked_life (shown self.old).objects mark } }
        ensures log { self.new.log ≡ self.old.log }
    {
        act_on(&mut self.queues, queue as usize, act);
        mark_object(&mut self.objects, mark);
    }

    /// What an updater's store into a chain changes beside the log.
    fn publish_now(&mut self, updater: u32, state: UpdaterState<P>, splice: Splice)
        ensures { shown self.new ≡ record (shown self.old) { updaters = slice_set (shown self.old).updaters updater state; heads = spliced_heads (shown self.old).heads splice; objects = spliced_objects (shown self.old).objects splice } }
    {
        put(&mut self.updaters, updater as usize, state);
        splice_heads(&mut self.heads, splice);
        splice_objects(&mut self.objects, splice);
    }

    /// Adds the events of an answer to the log. `Memory` adds none, and comes only where the log has no room for them.
    fn tell(&mut self, answer: Answer) -> Result<(), StepError>
        ensures ok { OnOk result (shown self.new ≡ record (shown self.old) { log = (shown self.old).log ++ told answer }) }
        ensures err { OnErr result (shown self.new ≡ shown self.old) }
        ensures memory { IfErr result (λ e. (e ≡ refusal.Memory) × (0 < length (told answer))) }
        ensures room { length ((shown self.old).log ++ told answer) ≤ vec_capacity self.old.log → IsOk result }
        ensures capacity { vec_capacity self.old.log ≤ vec_capacity self.new.log }
    {
        let Answer::Events { first, second } = answer else {
            return Ok(());
        };
        let Some(second) = second else {
            return match self.log.push(first) {
                Ok(()) => Ok(()),
                Err(_) => Err(Refusal::Memory),
            };
        };
        if self.log.reserve(2).is_err() {
            return Err(Refusal::Memory);
        }
        self.log.push_reserved(first);
        self.log.push_reserved(second);
        Ok(())
    }
}

/// A queue for each worker.
fn new_queues(alloc: Global, workers: u32) -> Result<Vec<QueueState>, Refusal>
    ensures ok { IfOk result (λ queues. queues.items ≡ replicate workers empty_queue_state) }
    ensures memory { IfErr result (λ e. e ≡ refusal.Memory) }
{
    let mut queues = Vec::new(alloc);
    for _ in 0..workers {
        if queues.push(QueueState::new(alloc)).is_err() {
            return Err(Refusal::Memory);
        }
    }
    Ok(queues)
}
