//! The headline over live threads, as calls promise it.

ghost use Rattle.std.specs.Prelude.{◌≡◌};
ghost use Rattle.atomic_table.specs.Table.{State};
ghost use Rattle.rcu_model.specs.Promises.{IsSafeLog};
ghost use Rattle.rcu_model.specs.declared.event.ObjectId.{ObjectId};
ghost use Rattle.live_log.specs.Log.{Log, IsLiveRun, events_of};
ghost use Rattle.rcu_hash.specs.live_rule.Rule.{KeepsRule};
ghost use Rattle.rcu_hash.specs.live_rule.declared.view.Sizes.{Sizes};
ghost use Rattle.rcu_hash.specs.live_rule.declared.view.View.{View};
ghost use Rattle.rcu_hash.specs.live_read.Hearing.{FindsNothing};
ghost use Rattle.rcu_hash.specs.domain.Waiting.{LoadedOnce};
ghost use Rattle.rcu.specs.Headline.{HasOneDeleter, IsSafeNow};

use gp_memb::GracePlan;
use live_log::the_log_is_a_run;
use rcu_hash::{Caller, ChainRule, Deleter, Domain, Site};

/// At every moment at which a table keeps its rule, which each step of the library does, its threads have one log. In
/// that an object's callback runs at most once, and only after every section that was open at its retirement has ended.
/// And a reader whose word tells of a section is in one: its `Open` is in that log, and its `Close` is not.
pub fn every_moment_is_safe<P: GracePlan, K: ChainRule, S>()
    ensures { (key : Sizes) (s : State S View) → KeepsRule P.QSBR K.allows key s → IsSafeNow P.QSBR key s }
{
    the_log_is_a_run::<K>();
}

/// In a log of the library's threads an object is queued into one queue and with one deleter. So the deleter that an
/// entry of a worker tells equals the one that was handed to the retirement of the entry's object.
pub fn objects_are_queued_with_one_deleter<P: GracePlan, K: ChainRule, D: Deleter>()
    ensures { (log : Log) (o : ObjectId) → IsLiveRun P.QSBR K.allows log → HasOneDeleter D.row o log }
{}

/// The caller hears of a log of the domain's threads, by one load. It begins with all that the caller had seen and heard
/// of, and keeps the headline's promise: in it an object's callback runs at most once, and only after every section that
/// was open at its retirement has ended. That it is the whole log of the load's moment no clause says. It never waits
/// and takes no memory.
pub fn hear<P: GracePlan + Drop, K: ChainRule, B: Site, D: Deleter, W: Caller<B>>(
    domain: &Domain<P, K, B, D>,
    caller: &mut W,
)
    ensures safe { IsSafeLog (events_of (W.heard caller.new)) }
    ensures loaded { LoadedOnce P.QSBR K.allows (W.seen caller.old) (W.heard caller.old) (W.loads caller.old) (W.loads caller.new) (W.heard caller.new) }
    ensures same { FindsNothing W.Caller caller.old caller.new }
{
    the_log_is_a_run::<K>();
    let _asked = domain.start_poll(caller);
}
