//! Laws of the machine.

ghost use Rattle.std.specs.Prelude.{◌≡◌, ◌↔◌, ℕ, List, Some, reverse};
ghost use Rattle.rcu_model.specs.declared.event.Event.{Event};
ghost use Rattle.rcu_model.specs.declared.event.SectionId.{SectionId};
ghost use Rattle.rcu_model.specs.declared.event.ObjectId.{ObjectId};
ghost use Rattle.rcu_model.specs.Machine.{IsAllowed, IsRun, IsOpen, state_after, Holds, IsSuccessor};
ghost use Rattle.rcu_model.specs.Sets.{HasObject};
ghost use Rattle.rcu_model.specs.Promises.{IsSafeLog};
ghost use Rattle.rcu_model.specs.Sizes.{CountsItsState};
ghost use Rattle.rcu_model.specs.Protection.{WasLinkedIn};
ghost use Rattle.rcu_model.specs.Fitting.{IsLive, live_events};
ghost use Rattle.rcu_model.specs.Backwards.{IsRunBack, state_back};
ghost use Rattle.rcu_model.specs.RunOrder.{RunsFirst, RunsInOrder};
ghost use Rattle.rcu_model.specs.Headline.{RunsOnceAfterItsSections, UsesNoReclaimed, AnswersOnceAfterItsSections, ClearsOnceAfterItsCallbacks, QueuesOnceAfterRetirement, RunsAfterItsQueueing, OpensOnce};

/// The protection law: in every run, an object that a section holds is not reclaimed, and the section is open.
pub fn held_is_not_reclaimed()
    ensures not_reclaimed { (log : List Event) (s : SectionId) (o : ObjectId) → IsRun log → Holds (state_after log) s o → ¬ HasObject (state_after log).reclaimed o }
    ensures still_open { (log : List Event) (s : SectionId) (o : ObjectId) → IsRun log → Holds (state_after log) s o → IsOpen (state_after log) s }
{}

/// The protection law without what sections hold: in every run, an object that was linked at some moment at which a
/// section was open is not reclaimed as long as the section stays open; and what follows it was linked at such a
/// moment too, so the same holds of all that the section can go on to.
pub fn what_was_linked_is_not_reclaimed()
    ensures not_reclaimed { (log : List Event) (s : SectionId) (o : ObjectId) → IsRun log → IsOpen (state_after log) s → WasLinkedIn log s o → ¬ HasObject (state_after log).reclaimed o }
    ensures successor { (log : List Event) (s : SectionId) (o next : ObjectId) → IsRun log → IsOpen (state_after log) s → WasLinkedIn log s o → IsSuccessor (state_after log) o (Some next) → WasLinkedIn log s next }
{}

/// In every run, an object's callback runs at most once, and only after every section open at its retirement has ended;
/// and no section reads or finds an object whose callback has run. This is the promise of [saferecl.rcu], over the log
/// alone.
pub fn callbacks_run_once_after_their_sections()
    ensures once { (log : List Event) → IsRun log → RunsOnceAfterItsSections log }
    ensures unused { (log : List Event) → IsRun log → UsesNoReclaimed log }
{}

/// In every run, an ask is answered at most once, and only after every section open at the ask has ended, as
/// `synchronize_rcu` promises; and a barrier is over at most once, and only after every callback that was queued at its
/// beginning has run, as `rcu_barrier` promises.
pub fn waits_end_once_after_what_they_await()
    ensures answers { (log : List Event) → IsRun log → AnswersOnceAfterItsSections log }
    ensures clears { (log : List Event) → IsRun log → ClearsOnceAfterItsCallbacks log }
{}

/// In every run, a callback is queued at most once, after its object was retired and before it runs, as `call_rcu` has
/// it.
pub fn callbacks_are_queued_once_before_they_run()
    ensures queued { (log : List Event) → IsRun log → QueuesOnceAfterRetirement log }
    ensures runs { (log : List Event) → IsRun log → RunsAfterItsQueueing log }
{}

/// In every run in which each callback of a queue runs as the first of those that wait in it, the callbacks of that
/// queue run in the order in which they were queued, and none is passed over: a queue that hands out its items first
/// in, first out is enough, whoever runs them. So it is with the list of a liburcu `call_rcu` worker.
pub fn first_in_first_out_runs_in_order()
    ensures { (q : ℕ) (log : List Event) → IsRun log → RunsFirst q log → RunsInOrder q log }
{}

/// In every run, a section is opened at most once.
pub fn sections_open_once()
    ensures { (log : List Event) → IsRun log → OpensOnce log }
{}

/// Every run keeps the promises of logs: of callbacks, of what sections use, of asks and of barriers.
pub fn every_run_is_safe()
    ensures { (log : List Event) → IsRun log → IsSafeLog log }
{
    callbacks_run_once_after_their_sections();
    waits_end_once_after_what_they_await();
}

/// In every run the events count what the machine has after them: the sections that are open, the objects that are
/// retired and whose callbacks have not run, and those whose callbacks have run.
pub fn every_run_counts_its_state()
    ensures { (log : List Event) → IsRun log → CountsItsState log }
{}

/// Readings, which no store of live threads writes, take no part in what is stored: a run's live events alone are a
/// run, and a live event may come after a log just where it may come after the log's live events.
pub fn readings_change_no_live_event()
    ensures alone { (log : List Event) → IsRun log → IsRun (live_events log) }
    ensures same { (log : List Event) (e : Event) → IsLive e → IsAllowed (state_after log) e ↔ IsAllowed (state_after (live_events log)) e }
{}

/// A log is a run with its newest event first just where it is one with its oldest event first, and leaves the same
/// state.
pub fn runs_read_both_ways()
    ensures run { (log : List Event) → IsRunBack log ↔ IsRun (reverse log) }
    ensures state { (log : List Event) → state_back log ≡ state_after (reverse log) }
{}
