//! The world: readers, updaters and workers of one flavour, and the log of what their steps told.

ghost use Rattle.std.specs.Prelude.{◌≡◌, ◌⊎◌, ◌≤◌, ◌%◌, ◌^◌, ◌++◌, [], IsTrue, IfOk, IfErr, false};
ghost use Rattle.rcu_model.specs.Promises.{IsSafeLog};
ghost use Rattle.rcu_model.specs.declared.refusal.Refusal.TheVariants.{BadConfig, Memory};
ghost use Rattle.world.specs.Actors.{is_in_operation, objects_given};
ghost use Rattle.world.specs.Blocking.{is_locked_out, IsBlockedIf};
ghost use Rattle.world.specs.Drain.{MeetsDrain, drain_lines};
ghost use Rattle.world.specs.Refusals.{IsStepError};
ghost use Rattle.world.specs.Row.{first_failing};
ghost use Rattle.world.specs.Standing.{standing_refusal, MeetsStanding};
ghost use Rattle.world.specs.Tests.{tests_of, MeetsTests};
ghost use Rattle.world.specs.Steps.{fresh_world, fresh_world_at, is_supported, is_supported_at, step_of, Meets, log_of, events_of, answered_events, IsOfReader, IsPrompt};

use crate::actor::Actor;
use crate::board::Board;
use crate::laws::{every_schedule_reclaims_safely, numbers_stay_in_range, reached_worlds_are_safe};
use crate::testing::tests_are_made_in_order;
use gp_memb::MembPlan;
use gp_qsbr::QsbrPlan;
use rcu_model::{Event, Refusal};
use std::alloc::Global;
use std::marker::Model;
use world_state::{Answer, Config, Flavour, Line, StepError};

/// The greatest sequence number that a world may begin with: 2^62.
const LAST_START: u64 = 1 << 62;

/// The board of a flavour.
#[derive(Drop)]
enum Boards {
    Memb(Board<MembPlan>),
    Qsbr(Board<QsbrPlan>),
}

/// A world of readers, updaters and workers, which makes one atomic step a line.
#[derive(Drop)]
pub struct World {
    boards: Boards,
}

impl Model for World {
    ghost use Rattle.world.specs.Steps.{WorldView};

    ghost Value = { WorldView };

    ghost use Rattle.world.specs.Steps.{IsReachedWorld};
    ghost use Rattle.world.specs.Seen.{seen};

    ghost view = { λ w. seen w.boards };

    ghost invariant = { λ w. IsReachedWorld (seen w.boards) };
}

impl World {
    /// A world in which nothing has happened.
    ///
    /// Refused with `BadConfig` where a number of the config is out of its limits, and with `Memory`.
    pub fn new(alloc: Global, config: Config) -> Result<World, Refusal>
        ensures ok { IfOk result (λ w. IsTrue (is_supported config) × (w ≡ fresh_world config)) }
        ensures log { IfOk result (λ w. log_of w ≡ []) }
        ensures safe { IfOk result (λ w. IsSafeLog (log_of w)) }
        ensures err { IfErr result (λ e. ((e ≡ BadConfig) × (is_supported config ≡ false)) ⊎ ((e ≡ Memory) × IsTrue (is_supported config))) }
    {
        World::new_at(alloc, config, 0)
    }

    /// A world in which nothing has happened, whose sequence numbers begin at `seq`.
    ///
    /// Refused with `BadConfig` where a number of the config is out of its limits, or `seq` is odd or above 2^62, and
    /// with `Memory`.
    pub fn new_at(alloc: Global, config: Config, seq: u64) -> Result<World, Refusal>
        ensures ok { IfOk result (λ w. IsTrue (is_supported_at config seq) × (w ≡ fresh_world_at config seq)) }
        ensures log { IfOk result (λ w. log_of w ≡ []) }
        ensures safe { IfOk result (λ w. IsSafeLog (log_of w)) }
        ensures err { IfErr result (λ e. ((e ≡ BadConfig) × (is_supported_at config seq ≡ false)) ⊎ ((e ≡ Memory) × IsTrue (is_supported_at config seq))) }
    {
        every_schedule_reclaims_safely();
        if !config.is_within_limits() || seq % 2 != 0 || seq > LAST_START {
            return Err(Refusal::BadConfig);
        }
        World::fresh(alloc, config, seq)
    }

    fn fresh(alloc: Global, config: Config, seq: u64) -> Result<World, Refusal>
        requires limits { IsTrue (is_supported config) }
        requires even { seq % 2 ≡ 0 }
        requires seq { seq ≤ 2 ^ 62 }
        ensures ok { IfOk result (λ w. w ≡ fresh_world_at config seq) }
        ensures memory { IfErr result (λ e. e ≡ Memory) }
    {
        let boards = match config.flavour {
            Flavour::Memb => Boards::Memb(Board::new(alloc, config, seq)?),
            Flavour::Qsbr => Boards::Qsbr(Board::new(alloc, config, seq)?),
        };
        Ok(World { boards })
    }

    /// What the actor of this line does next, as one atomic step, and what it is answered. The call itself never waits.
    ///
    /// `Wait`, `Blocked`, `Idle` and a refusal leave the world as it was. The tests come in this order: `NoActor` for
    /// an actor that is not there; `Busy` for a verb in an operation, and `NotOpen` to go on in none; `WrongFlavour`;
    /// then `NestFull`, `NotOpen`, `Busy`, `NoPlace` and `Exhausted` of the verb; then `Blocked`, `Idle` and `Wait`;
    /// and last `Memory`, where the log, the list of objects or a queue would grow.
    pub fn step(&mut self, line: &Line) -> Result<Answer, StepError>
        ensures table { Meets (step_of self.old line.now) self.old self.new result }
        // Where no test fails, the step is made and the world is another, or memory was refused. Else the first that
        // fails is the answer.
        ensures tests { MeetsTests (first_failing (tests_of self.old line.now)) self.old self.new result }
        // What is refused where the actor stands: it is not there, in an operation or in none, in a section or in none.
        ensures standing { MeetsStanding (standing_refusal self.old line.now) result }
        // It is blocked exactly where a lock is held that it needs free, and nothing refuses it.
        ensures blocked { IfOk result (IsBlockedIf (is_locked_out self.old line.now)) }
        // A reader waits for nobody.
        ensures prompt { IsOfReader line.now → IfOk result IsPrompt }
        // The log goes on with the events of the answer.
        ensures log { log_of self.new ≡ log_of self.old ++ events_of result }
        ensures safe { IsSafeLog (log_of self.new) }
        ensures refused { IfErr result IsStepError }
    {
        reached_worlds_are_safe();
        numbers_stay_in_range::<MembPlan>();
        numbers_stay_in_range::<QsbrPlan>();
        tests_are_made_in_order::<MembPlan>();
        tests_are_made_in_order::<QsbrPlan>();
        match &mut self.boards {
            Boards::Memb(board) => board.step(line),
            Boards::Qsbr(board) => board.step(line),
        }
    }

    /// Steps one worker alone from its `take` until its batch is counted, and answers the number of steps: with `R`
    /// readers and `n` queued items `2R + 9 + 2n`, in the quiescent-state flavour `R + 8 + 2n`, where a step is one
    /// line; 0 where its queue is empty. It waits for nobody, and leaves the worker in no operation, its queue empty,
    /// each item that has left it counted, and the grace lock free. liburcu has no such call: it is the world's bound
    /// on reclaiming.
    ///
    /// Refused before its first step, and then the world is as it was, in this order: with `NoActor` where there is no
    /// such worker; with `Busy` where a reader is in a section, the grace lock or the queue's lock is held, or the
    /// worker is in an operation; where items are queued, with `Exhausted` where the sequence number is 2^62 or more,
    /// and with `Memory`.
    pub fn drain(&mut self, worker: u32) -> Result<u64, StepError>
        ensures steps { MeetsDrain worker self.old self.new result }
        // The log goes on with the events of the answers to its lines.
        ensures log { IfOk result (λ steps. log_of self.new ≡ log_of self.old ++ answered_events self.old (drain_lines worker steps)) }
        ensures safe { IsSafeLog (log_of self.new) }
        ensures refused { IfErr result IsStepError }
    {
        reached_worlds_are_safe();
        match &mut self.boards {
            Boards::Memb(board) => board.drain(worker),
            Boards::Qsbr(board) => board.drain(worker),
        }
    }

    /// Whether the actor is there and in an operation, which its next line goes on with: `.` is then the one line of it
    /// that is not `Busy`.
    pub fn is_in_operation(&self, actor: Actor) -> bool
        ensures { result ≡ is_in_operation self.now actor }
    {
        match &self.boards {
            Boards::Memb(board) => board.is_in_operation(actor),
            Boards::Qsbr(board) => board.is_in_operation(actor),
        }
    }

    /// How many object numbers were given: they count from 1, and each is given by the first step of a `push` or
    /// `replace`.
    pub fn objects_given(&self) -> u64
        ensures { result ≡ objects_given self.now }
    {
        match &self.boards {
            Boards::Memb(board) => board.objects_given(),
            Boards::Qsbr(board) => board.objects_given(),
        }
    }

    /// What the steps told, in order: always a run of the abstract machine, in which an object's callback runs at most
    /// once and only after every section open at its retirement has ended, no section uses a reclaimed object, and an
    /// ask is answered, and a barrier ended, at most once and only after what it awaits.
    pub fn log(&self) -> &[Event]
        ensures log { result.now ≡ log_of self.now }
        ensures safe { IsSafeLog result.now }
    {
        reached_worlds_are_safe();
        match &self.boards {
            Boards::Memb(board) => board.log(),
            Boards::Qsbr(board) => board.log(),
        }
    }
}
