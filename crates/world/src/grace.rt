//! The steps of a grace period in the world.

ghost use Rattle.std.specs.Prelude.{◌≡◌, None};
ghost use Rattle.world_state.specs.declared.line.Answer.TheVariants.{Events};
ghost use Rattle.world.specs.Answers.{answer_to};

use call_rcu_worker::{SyncCore, Told};
use rcu_model::Event;
use world_state::{Answer, GraceState};

/// What a step of a grace period does.
#[derive(Drop)]
pub struct Effect<P> {
    /// What the world keeps of grace periods then.
    pub grace: GraceState,
    /// The word that it loads, or 0.
    pub loaded: u64,
    /// The plan that it makes, if it begins a grace period.
    pub plan: Option<P>,
}

/// What a step makes of a grace period.
#[derive(Drop)]
pub struct GraceStep<P> {
    /// Where the grace period stands after it.
    pub core: SyncCore<P>,
    /// What the world keeps of grace periods then.
    pub grace: GraceState,
    /// What the step answers.
    pub answer: Answer,
}

/// What a step of the grace period of this ask answers.
pub fn answer_to(ask: u64, told: Told) -> Answer
    ensures { result ≡ answer_to ask told }
{
    let event = match told {
        Told::Quiet => return Answer::Quiet,
        Told::Asked => Event::Ask(ask),
        Told::Answered => Event::Answer(ask),
        Told::Waiting => return Answer::Wait,
    };
    one_event(event)
}

/// The answer that tells this event alone.
pub fn one_event(event: Event) -> Answer
    ensures { result ≡ Events event None }
{
    Answer::Events {
        first: event,
        second: None,
    }
}
