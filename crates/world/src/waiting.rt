//! The lines of updaters, and the steps of their grace periods.

ghost use Rattle.std.specs.Prelude.{◌≡◌, ◌≢◌, ◌+◌, ◌≤◌, ◌<◌, ◌^◌, ℕ, length, slice_get, Some};

use crate::board::{Board, at};
use crate::grace::{Effect, GraceStep, answer_to, one_event};
use call_rcu_worker::{SyncCore, SyncStep};
use gp_memb::Action;
use poll_cookie::{cookie_of, is_past};
use rcu_model::{Event, Refusal};
use world_state::{
    Answer, Change, GraceState, Holder, Started, UpdaterPlace, UpdaterState, UpdaterVerb, WorldPlan,
};

impl<P: WorldPlan + Drop> Board<P> {
    ghost use Rattle.call_rcu_worker.specs.declared.sync.SyncStep.TheVariants as due;
    ghost use Rattle.world_state.specs.declared.line.UpdaterVerb.TheVariants.{GoOn};
    ghost use Rattle.world_state.specs.declared.updater.UpdaterPlace.TheVariants.{Idle};
    ghost use Rattle.gp_memb.specs.declared.plan.Action.TheVariants.{LoadGroup};
    ghost use Rattle.call_rcu_worker.specs.Sync.{step_of};
    ghost use Rattle.world_state.specs.declared.updater.Holder.TheVariants.{Updater};
    ghost use Rattle.world_state.specs.View.{plans_of};
    ghost use Rattle.world.specs.Grace.{MayHand, HandsOver, action_effect, effect_of, plan_now, grace_row, sync_place, start_row, poll_row};
    ghost use Rattle.world.specs.Lines.{updater_line, updater_verb, synced};
    ghost use Rattle.world.specs.Row.{made};
    ghost use Rattle.poll_cookie.specs.Cookie.{cookie_for};
    ghost use Rattle.world.specs.Shown.{shown, IsInRange, CanStart, LoadsNoGroup};

    /// A line of an updater.
    pub fn updater_line(
        &self,
        updater: u32,
        state: UpdaterState<P>,
        verb: UpdaterVerb,
    ) -> Result<Change<P>, Refusal>
        requires range { IsInRange (plans_of P.QSBR P.made P.action P.turn P.taken) (shown self.now) }
        requires there { slice_get (shown self.now).updaters updater ≡ Some state }
        ensures { result ≡ made (updater_line (plans_of P.QSBR P.made P.action P.turn P.taken) (shown self.now) updater state verb) }
    {
        if verb == UpdaterVerb::GoOn {
            return self.updater_on(updater, state);
        }
        if !matches!(state.place, UpdaterPlace::Idle) {
            return Err(Refusal::Busy);
        }
        self.updater_begins(updater, state, verb)
    }

    /// The next step of an updater's operation.
    fn updater_on(&self, updater: u32, state: UpdaterState<P>) -> Result<Change<P>, Refusal>
        requires range { IsInRange (plans_of P.QSBR P.made P.action P.turn P.taken) (shown self.now) }
        requires there { slice_get (shown self.now).updaters updater ≡ Some state }
        ensures { result ≡ made (updater_line (plans_of P.QSBR P.made P.action P.turn P.taken) (shown self.now) updater state GoOn) }
    {
        let place = state.place;
        match place {
            UpdaterPlace::Idle => Err(Refusal::NotOpen),
            UpdaterPlace::Publishes(publishing) => self.publish(updater, state, publishing),
            UpdaterPlace::Syncs { ask, core } => self.sync(updater, state, ask, core),
            UpdaterPlace::Retires { object, due } => Ok(self.retire_on(
                updater, state, object, due,
            )),
            UpdaterPlace::Bars(barrier) => Ok(self.barrier_on(updater, state, barrier)),
        }
    }

    /// A verb of an updater that is in no operation.
    fn updater_begins(
        &self,
        updater: u32,
        state: UpdaterState<P>,
        verb: UpdaterVerb,
    ) -> Result<Change<P>, Refusal>
        requires range { IsInRange (plans_of P.QSBR P.made P.action P.turn P.taken) (shown self.now) }
        requires some { 0 < length (shown self.now).updaters }
        requires idle { state.place ≡ Idle }
        ensures { result ≡ made (updater_verb (plans_of P.QSBR P.made P.action P.turn P.taken) (shown self.now) updater state verb) }
    {
        match verb {
            UpdaterVerb::Push(chain) => self.push(updater, state, chain),
            UpdaterVerb::Replace(object) => self.replace(updater, state, object),
            UpdaterVerb::Cut(object) => self.cut(updater, state, object),
            UpdaterVerb::Retire(object) => self.retire(updater, state, object),
            UpdaterVerb::Sync => {
                let ask = self.kept.grace.asks + 1;
                self.sync(updater, state, ask, SyncCore::new())
            }
            UpdaterVerb::Start => self.start(updater, state),
            UpdaterVerb::Poll => self.poll(updater, state),
            UpdaterVerb::Barrier => Ok(self.barrier(updater, state)),
            UpdaterVerb::GoOn => Err(Refusal::NotOpen),
        }
    }

    /// Takes a cookie, in place of an older one.
    fn start(&self, updater: u32, mut state: UpdaterState<P>) -> Result<Change<P>, Refusal>
        requires range { IsInRange (plans_of P.QSBR P.made P.action P.turn P.taken) (shown self.now) }
        ensures { result ≡ made (start_row (shown self.now) updater state (cookie_for (shown self.now).grace.seq)) }
    {
        let cookie = cookie_of(self.kept.grace.seq)?;
        let mut grace = self.kept.grace;
        let ask = grace.asks + 1;
        grace.asks = ask;
        state.started = Some(Started { ask, cookie });
        Ok(Change::Grace {
            updater,
            state,
            grace,
            answer: one_event(Event::Ask(ask)),
        })
    }

    /// Asks whether the cookie is reached, which is then spent.
    fn poll(&self, updater: u32, mut state: UpdaterState<P>) -> Result<Change<P>, Refusal>
        ensures { result ≡ made (poll_row (shown self.now) updater state state.started) }
    {
        let noted = state.started;
        let Some(started) = noted else {
            return Err(Refusal::NotOpen);
        };
        if !is_past(started.cookie, self.kept.grace.seq) {
            return Ok(Change::Stay(Answer::Wait));
        }
        state.started = None;
        Ok(Change::Grace {
            updater,
            state,
            grace: self.kept.grace,
            answer: one_event(Event::Answer(started.ask)),
        })
    }

    /// A step of the grace period that an updater asked for. After `wait` and `blocked` nothing changes.
    fn sync(
        &self,
        updater: u32,
        mut state: UpdaterState<P>,
        ask: u64,
        core: SyncCore<P>,
    ) -> Result<Change<P>, Refusal>
        requires start { step_of P.action core ≡ due.Begin → CanStart (shown self.now).grace }
        requires groups { LoadsNoGroup (step_of P.action core) }
        ensures { result ≡ made (synced (plans_of P.QSBR P.made P.action P.turn P.taken) updater state ask (grace_row (plans_of P.QSBR P.made P.action P.turn P.taken) (shown self.now) (Updater updater) ask core)) }
    {
        let step = self.grace_step(Holder::Updater(updater), ask, core)?;
        if matches!(step.answer, Answer::Wait | Answer::Blocked) {
            return Ok(Change::Stay(step.answer));
        }
        state.place = match step.core.next() {
            SyncStep::Nothing => UpdaterPlace::Idle,
            _ => UpdaterPlace::Syncs {
                ask,
                core: step.core,
            },
        };
        Ok(Change::Grace {
            updater,
            state,
            grace: step.grace,
            answer: step.answer,
        })
    }

    /// The core after its next step, what the step makes of the grace period, and the answer. Where another one holds
    /// the lock that it needs, the answer is `blocked` and the core stays.
    fn grace_step(
        &self,
        me: Holder,
        ask: u64,
        mut core: SyncCore<P>,
    ) -> Result<GraceStep<P>, Refusal>
        requires start { step_of P.action core ≡ due.Begin → CanStart (shown self.now).grace }
        requires groups { LoadsNoGroup (step_of P.action core) }
        ensures { result ≡ grace_row (plans_of P.QSBR P.made P.action P.turn P.taken) (shown self.now) me ask core }
    {
        let Some(effect) = self.effect(me, ask, core.next()) else {
            return Ok(GraceStep {
                core,
                grace: self.kept.grace,
                answer: Answer::Blocked,
            });
        };
        if let Some(plan) = effect.plan {
            core.begin(plan);
        }
        let told = core.told(effect.loaded)?;
        Ok(GraceStep {
            core,
            grace: effect.grace,
            answer: answer_to(ask, told),
        })
    }

    /// What a step of somebody's grace period does, or nothing where the lock that it needs is held.
    pub fn effect(&self, me: Holder, ask: u64, step: SyncStep) -> Option<Effect<P>>
        requires start { step ≡ due.Begin → CanStart (shown self.now).grace }
        requires groups { LoadsNoGroup step }
        ensures effect { result ≡ effect_of (plans_of P.QSBR P.made P.action P.turn P.taken) (shown self.now) me ask step }
        ensures plan { HandsOver P.is_begun step result }
    {
        let mut grace = self.kept.grace;
        let mut loaded = 0;
        match step {
            SyncStep::Ask => {
                grace.asks = ask;
                loaded = grace.seq;
            }
            SyncStep::TakeLock if grace.holder.is_some() => return None,
            SyncStep::TakeLock => grace.holder = Some(me),
            SyncStep::Check => loaded = grace.seq,
            SyncStep::Begin => return Some(self.begin()),
            SyncStep::Plan(action) => return Some(self.act(action)),
            SyncStep::FreeLock => grace.holder = None,
            SyncStep::Nothing => {}
        }
        Some(Effect {
            grace,
            loaded,
            plan: None,
        })
    }

    /// Makes a plan, and does its first action.
    fn begin(&self) -> Effect<P>
        requires start { CanStart (shown self.now).grace }
        ensures plan { MayHand P.is_begun due.Begin result.plan }
        ensures effect { result ≡ record (action_effect (shown self.now) (P.action (plan_now (plans_of P.QSBR P.made P.action P.turn P.taken) (shown self.now)))) { plan = Some (plan_now (plans_of P.QSBR P.made P.action P.turn P.taken) (shown self.now)) } }
    {
        let plan = P::make(
            self.kept.layout,
            self.kept.readers.len(),
            self.kept.grace.seq,
            self.kept.grace.word,
        );
        let mut effect = self.act(plan.next());
        effect.plan = Some(plan);
        effect
    }

    /// Does an action of the plan. The world has no group words.
    fn act(&self, action: Action) -> Effect<P>
        requires { (group : ℕ) → action ≢ LoadGroup group }
        ensures { result ≡ action_effect (shown self.now) action }
    {
        let mut grace = self.kept.grace;
        let mut loaded = 0;
        match action {
            Action::Load(slot) => {
                if let Some(reader) = at(&self.kept.readers, slot) {
                    loaded = reader.word;
                }
            }
            Action::LoadGroup(_) => unreachable!(),
            Action::StorePhase(value) => grace.word = value,
            Action::StoreSeq(value) => grace.seq = value,
            Action::Finished => {}
        }
        Effect {
            grace,
            loaded,
            plan: None,
        }
    }
}
