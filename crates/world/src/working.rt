//! The lines of workers.

ghost use Rattle.std.specs.Prelude.{◌≡◌, ◌≤◌, length, slice_get, slice_set, vec_capacity, Some, None, Ok};
ghost use Rattle.call_rcu_worker.specs.Sync.{told_of, step_of as sync_step};
ghost use Rattle.world.specs.Grace.{MayHand, planned, stepped};
ghost use Rattle.world.specs.Row.{made};
ghost use Rattle.world.specs.Workers.{worker_act, worked};

use crate::board::{Board, at, entry};
use crate::grace::{Effect, answer_to, one_event};
use call_rcu_worker::{SyncCore, Tickets, Told, WorkerCore};
use callback_queue::{Item, Ticket};
use rcu_model::{Event, Refusal};
use world_state::{
    Answer, GraceState, Holder, Life, Mark, QueueAct, StepError, WorkerState, WorldPlan,
};

impl<P: WorldPlan + Drop> Board<P> {
    ghost use Rattle.call_rcu_worker.specs.declared.worker.WorkerCore.TheVariants as place;
    ghost use Rattle.call_rcu_worker.specs.declared.sync.SyncStep.TheVariants as due;
    ghost use Rattle.rcu_model.specs.declared.event.ObjectId.{ObjectId};
    ghost use Rattle.callback_queue.specs.declared.item.Ticket.{Ticket};
    ghost use Rattle.call_rcu_worker.specs.Worker.{next_of};
    ghost use Rattle.world_state.specs.declared.updater.Holder.TheVariants.{Worker};
    ghost use Rattle.world_state.specs.Objects.{marked_life};
    ghost use Rattle.world_state.specs.Queues.{acted_at, MayActAt};
    ghost use Rattle.world_state.specs.View.{plans_of};
    ghost use Rattle.world.specs.Grace.{grace_row};
    ghost use Rattle.world_state.specs.declared.change.Change.TheVariants.{Work};
    ghost use Rattle.world_state.specs.declared.line.Line.TheVariants.{Worker as WorkerLine};
    ghost use Rattle.world_state.specs.declared.line.WorkerVerb.TheVariants.{Take, GoOn};
    ghost use Rattle.world.specs.Workers.{ask_for, run_row, first_in};
    ghost use Rattle.world.specs.Lines.{change_of, outcome_of};
    ghost use Rattle.world.specs.Shown.{shown, IsInRange, CanStart, LoadsNoGroup, Meets, IsRefusedByTable};

    /// A worker takes all that is queued, unless the queue is locked or empty. Where the log has room, no step of a
    /// worker is refused with `Memory`. Each is made at once: a `Change` would carry the plan of its grace period.
    pub fn take(&mut self, worker: u32) -> Result<Answer, StepError>
        requires { IsInRange (plans_of P.QSBR P.made P.action P.turn P.taken) (shown self.old) }
        ensures step { Meets (outcome_of (plans_of P.QSBR P.made P.action P.turn P.taken) (shown self.old) (WorkerLine worker Take)) (shown self.old) (shown self.new) result }
        ensures in_room { IsRefusedByTable (vec_capacity self.old.kept.log) (outcome_of (plans_of P.QSBR P.made P.action P.turn P.taken) (shown self.old) (WorkerLine worker Take)) (shown self.old) result }
        ensures room { vec_capacity self.old.kept.log ≤ vec_capacity self.new.kept.log }
    {
        let Some(mut state) = at(&self.kept.workers, worker as usize) else {
            return Err(Refusal::NoActor);
        };
        if !matches!(state.core, WorkerCore::Idle) {
            return Err(Refusal::Busy);
        }
        let Some(queue) = entry(&self.kept.queues, worker as usize) else {
            return Err(Refusal::NoActor);
        };
        if queue.holder.is_some() {
            return Ok(Answer::Blocked);
        }
        if queue.items.is_empty() {
            return Ok(Answer::Idle);
        }
        let (_, _, fresh) = queue.items.segments();
        let first = Ticket(queue.items.given() - fresh + 1);
        state.core.took(first, fresh);
        let grace = self.kept.grace;
        self.kept
            .work(worker, state, grace, QueueAct::Seal, None, Answer::Quiet)
    }

    /// The next step of a worker's operation.
    pub fn work_on(&mut self, worker: u32) -> Result<Answer, StepError>
        requires { IsInRange (plans_of P.QSBR P.made P.action P.turn P.taken) (shown self.old) }
        ensures step { Meets (outcome_of (plans_of P.QSBR P.made P.action P.turn P.taken) (shown self.old) (WorkerLine worker GoOn)) (shown self.old) (shown self.new) result }
        ensures in_room { IsRefusedByTable (vec_capacity self.old.kept.log) (outcome_of (plans_of P.QSBR P.made P.action P.turn P.taken) (shown self.old) (WorkerLine worker GoOn)) (shown self.old) result }
        ensures room { vec_capacity self.old.kept.log ≤ vec_capacity self.new.kept.log }
    {
        let Some(state) = entry(&self.kept.workers, worker as usize) else {
            return Err(Refusal::NoActor);
        };
        match &state.core {
            WorkerCore::Syncs { sync, tickets } => {
                let (sync, tickets) = (*sync, *tickets);
                let ask = self.ask_for(state.ask, sync);
                self.sync_on(worker, ask, sync, tickets)
            }
            WorkerCore::Pops { tickets } => {
                let (state, tickets) = (*state, *tickets);
                self.run(worker, state, tickets)
            }
            WorkerCore::Ran { .. } => {
                let mut state = *state;
                state.core.give_out();
                state.core.told(0)?;
                let grace = self.kept.grace;
                self.make(worker, state, grace, QueueAct::Finish, None, Answer::Quiet)
            }
            WorkerCore::Idle | WorkerCore::Runs { .. } | WorkerCore::Counts { .. } => {
                Err(Refusal::NotOpen)
            }
        }
    }

    /// The number of the ask that a step of the worker's grace period is of.
    fn ask_for(&self, ask: u64, sync: SyncCore<P>) -> u64
        requires asks { (shown self.now).grace.asks ≤ length (shown self.now).log }
        ensures { result ≡ ask_for (shown self.now) ask sync }
    {
        match sync {
            SyncCore::Asks => self.kept.grace.asks + 1,
            _ => ask,
        }
    }

    /// The next step of the grace period of a worker's batch. Most lines of a schedule are such steps.
    fn sync_on(
        &mut self,
        worker: u32,
        ask: u64,
        sync: SyncCore<P>,
        tickets: Tickets,
    ) -> Result<Answer, StepError>
        requires range { IsInRange (plans_of P.QSBR P.made P.action P.turn P.taken) (shown self.old) }
        requires start { sync_step P.action sync ≡ due.Begin → CanStart (shown self.old).grace }
        requires groups { LoadsNoGroup (sync_step P.action sync) }
        requires change { change_of (plans_of P.QSBR P.made P.action P.turn P.taken) (shown self.old) (WorkerLine worker GoOn) ≡ made (worked worker ask tickets (grace_row (plans_of P.QSBR P.made P.action P.turn P.taken) (shown self.old) (Worker worker) ask sync)) }
        ensures step { Meets (outcome_of (plans_of P.QSBR P.made P.action P.turn P.taken) (shown self.old) (WorkerLine worker GoOn)) (shown self.old) (shown self.new) result }
        ensures in_room { IsRefusedByTable (vec_capacity self.old.kept.log) (outcome_of (plans_of P.QSBR P.made P.action P.turn P.taken) (shown self.old) (WorkerLine worker GoOn)) (shown self.old) result }
        ensures room { vec_capacity self.old.kept.log ≤ vec_capacity self.new.kept.log }
    {
        let Some(effect) = self.effect(Holder::Worker(worker), ask, sync.next()) else {
            return Ok(Answer::Blocked);
        };
        self.sync_told(worker, ask, sync, tickets, effect)
    }

    /// What comes of a step of the grace period of a worker's batch, with what the step loaded. It tells the grace
    /// period itself, and not the worker's core around it, so that the compiler moves no more of it than changes.
    fn sync_told(
        &mut self,
        worker: u32,
        ask: u64,
        mut sync: SyncCore<P>,
        tickets: Tickets,
        effect: Effect<P>,
    ) -> Result<Answer, StepError>
        requires range { IsInRange (plans_of P.QSBR P.made P.action P.turn P.taken) (shown self.old) }
        requires plan { MayHand P.is_begun (sync_step P.action sync) effect.plan }
        requires change { change_of (plans_of P.QSBR P.made P.action P.turn P.taken) (shown self.old) (WorkerLine worker GoOn) ≡ made (worked worker ask tickets (stepped effect.grace ask (told_of P.action P.turn P.taken (planned sync effect.plan) effect.loaded))) }
        ensures step { Meets (outcome_of (plans_of P.QSBR P.made P.action P.turn P.taken) (shown self.old) (WorkerLine worker GoOn)) (shown self.old) (shown self.new) result }
        ensures in_room { IsRefusedByTable (vec_capacity self.old.kept.log) (outcome_of (plans_of P.QSBR P.made P.action P.turn P.taken) (shown self.old) (WorkerLine worker GoOn)) (shown self.old) result }
        ensures room { vec_capacity self.old.kept.log ≤ vec_capacity self.new.kept.log }
    {
        if let Some(plan) = effect.plan {
            sync.begin(plan);
        }
        let told = sync.told(effect.loaded)?;
        let core = WorkerCore::synced(sync, tickets);
        match told {
            Told::Waiting => Ok(Answer::Wait),
            Told::Quiet => {
                self.write_sync(worker, WorkerState { ask, core }, effect.grace);
                Ok(Answer::Quiet)
            }
            Told::Asked | Told::Answered => {
                let act = act_for(effect.grace.seq, &core);
                let answer = answer_to(ask, told);
                self.make(
                    worker,
                    WorkerState { ask, core },
                    effect.grace,
                    act,
                    None,
                    answer,
                )
            }
        }
    }

    /// What a step of the grace period of a worker's batch changes that tells nothing.
    fn write_sync(&mut self, worker: u32, state: WorkerState<P>, grace: GraceState)
        requires { MayActAt (worker_act grace.seq state.core) (slice_get (shown self.old).queues worker) }
        ensures world { shown self.new ≡ record (shown self.old) { queues = acted_at (shown self.old).queues worker (worker_act grace.seq state.core); objects = marked_life (shown self.old).objects None; workers = slice_set (shown self.old).workers worker state; grace = grace } }
        ensures room { vec_capacity self.new.kept.log ≡ vec_capacity self.old.kept.log }
    {
        let act = act_for(grace.seq, &state.core);
        self.kept.work_now(worker, state, grace, act, None);
    }

    /// Pops the first ready item and runs it.
    fn run(
        &mut self,
        worker: u32,
        mut state: WorkerState<P>,
        tickets: Tickets,
    ) -> Result<Answer, StepError>
        requires range { IsInRange (plans_of P.QSBR P.made P.action P.turn P.taken) (shown self.old) }
        requires at { state.core ≡ place.Pops tickets }
        requires next { (first : Ticket × ObjectId) → first_in (slice_get (shown self.old).queues worker) ≡ Some first → first.0 ≡ next_of tickets }
        requires change { change_of (plans_of P.QSBR P.made P.action P.turn P.taken) (shown self.old) (WorkerLine worker GoOn) ≡ made (run_row (shown self.old) worker state tickets (first_in (slice_get (shown self.old).queues worker))) }
        ensures step { Meets (outcome_of (plans_of P.QSBR P.made P.action P.turn P.taken) (shown self.old) (WorkerLine worker GoOn)) (shown self.old) (shown self.new) result }
        ensures in_room { IsRefusedByTable (vec_capacity self.old.kept.log) (outcome_of (plans_of P.QSBR P.made P.action P.turn P.taken) (shown self.old) (WorkerLine worker GoOn)) (shown self.old) result }
        ensures room { vec_capacity self.old.kept.log ≤ vec_capacity self.new.kept.log }
    {
        let Some(queue) = entry(&self.kept.queues, worker as usize) else {
            return Err(Refusal::NotOpen);
        };
        let Some((ticket, object)) = queue.items.first_ready() else {
            return Err(Refusal::NotOpen);
        };
        state.core.hold(ticket, Item { object, job: () });
        state.core.told(0)?;
        let grace = self.kept.grace;
        let mark = Some(Mark {
            object,
            life: Life::Reclaimed,
        });
        let answer = one_event(Event::Run(object));
        self.make(worker, state, grace, QueueAct::Pop, mark, answer)
    }

    /// Makes the next step of a worker, and answers what it tells.
    fn make(
        &mut self,
        worker: u32,
        state: WorkerState<P>,
        grace: GraceState,
        act: QueueAct,
        mark: Option<Mark>,
        answer: Answer,
    ) -> Result<Answer, StepError>
        requires range { IsInRange (plans_of P.QSBR P.made P.action P.turn P.taken) (shown self.old) }
        requires change { change_of (plans_of P.QSBR P.made P.action P.turn P.taken) (shown self.old) (WorkerLine worker GoOn) ≡ Ok (Work worker state grace act mark answer) }
        ensures step { Meets (outcome_of (plans_of P.QSBR P.made P.action P.turn P.taken) (shown self.old) (WorkerLine worker GoOn)) (shown self.old) (shown self.new) result }
        ensures in_room { IsRefusedByTable (vec_capacity self.old.kept.log) (outcome_of (plans_of P.QSBR P.made P.action P.turn P.taken) (shown self.old) (WorkerLine worker GoOn)) (shown self.old) result }
        ensures room { vec_capacity self.old.kept.log ≤ vec_capacity self.new.kept.log }
    {
        self.kept.work(worker, state, grace, act, mark, answer)
    }
}

/// What the queue is told after a step of its worker's grace period: the cookie that was taken, and the number that
/// answered.
fn act_for<P>(seq: u64, core: &WorkerCore<P, ()>) -> QueueAct
    ensures { result ≡ worker_act seq core.now }
{
    match core {
        WorkerCore::Syncs {
            sync: SyncCore::Waits { cookie },
            ..
        } => QueueAct::Note(*cookie),
        WorkerCore::Syncs {
            sync: SyncCore::Frees,
            ..
        } => QueueAct::Advance(seq),
        _ => QueueAct::Leave,
    }
}
