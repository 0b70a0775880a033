//! A whole wait for a grace period, and a whole batch of a worker, over the plan of the general-purpose flavour.

use call_rcu_worker::{
    Finished, SyncCore, SyncStep, Tickets, Told, WorkerCore, WorkerStep, run_item,
};
use callback_queue::{Callback, CallbackQueue, Item, Ripe, Ticket};
use gp_memb::{Action, GracePlan, MembPlan};
use poll_cookie::cookie_of;
use rcu_model::{ObjectId, Refusal};
use std::process::Abort;

/// A whole wait over one slot, which nobody has claimed.
const TEN_STEPS: [(SyncStep, Told); 10] = [
    (SyncStep::Ask, Told::Asked),
    (SyncStep::TakeLock, Told::Quiet),
    (SyncStep::Check, Told::Quiet),
    (SyncStep::Plan(Action::StoreSeq(1)), Told::Quiet),
    (SyncStep::Plan(Action::StorePhase(1)), Told::Quiet),
    (SyncStep::Plan(Action::LoadGroup(0)), Told::Quiet),
    (SyncStep::Plan(Action::StorePhase(0)), Told::Quiet),
    (SyncStep::Plan(Action::LoadGroup(0)), Told::Quiet),
    (SyncStep::Plan(Action::StoreSeq(2)), Told::Answered),
    (SyncStep::FreeLock, Told::Quiet),
];

/// Hands over a plan where the wait asks for one.
fn begin_where_due(core: &mut SyncCore<MembPlan>) {
    if let SyncStep::Begin = core.next() {
        core.begin(MembPlan::start(1, 0, 0));
    }
}

#[test]
fn no_reader_in_the_way(rt: HostRuntime) {
    let mut core = SyncCore::new();
    for (step, told) in TEN_STEPS {
        begin_where_due(&mut core);
        assert_eq!(rt; core.next(), step);
        assert_eq!(rt; core.told(0), Ok(told));
    }
    assert_eq!(rt; core.next(), SyncStep::Nothing);
}

#[test]
fn the_grace_period_of_another(rt: HostRuntime) {
    let mut core: SyncCore<MembPlan> = SyncCore::new();
    // The cookie of 1 is 4, which the sequence number has reached when the lock is had.
    for (loaded, told) in [
        (1, Told::Asked),
        (0, Told::Quiet),
        (4, Told::Answered),
        (0, Told::Quiet),
    ] {
        assert_eq!(rt; core.told(loaded), Ok(told));
    }
    assert_eq!(rt; core.next(), SyncStep::Nothing);
}

#[test]
fn an_ask_too_late(rt: HostRuntime) {
    let mut core: SyncCore<MembPlan> = SyncCore::new();
    assert_eq!(rt;
        core.told(4_611_686_018_427_387_904),
        Err(Refusal::Exhausted)
    );
    assert_eq!(rt; core.next(), SyncStep::Ask);
}

type Worker = WorkerCore<MembPlan, u64>;

fn item(object: u64) -> Item<u64> {
    Item {
        object: ObjectId(object),
        job: u64::MAX - object,
    }
}

/// Hands over an item where the worker asks for one.
fn hold_where_due(worker: &mut Worker, popped: Option<(Ticket, Item<u64>)>) -> bool {
    let Some((ticket, item)) = popped else {
        return false;
    };
    match worker.next() {
        WorkerStep::Pop(due) if due.0 == ticket.0 => {
            worker.hold(ticket, item);
            true
        }
        _ => false,
    }
}

/// Hands over a plan where the worker asks for one.
fn begin_batch_where_due(worker: &mut Worker) {
    if let WorkerStep::Sync(SyncStep::Begin) = worker.next() {
        worker.begin(MembPlan::start(1, 0, 0));
    }
}

/// The worker waits for a grace period.
fn check_sync(rt: &impl Abort, worker: &mut Worker) {
    for (step, told) in TEN_STEPS {
        begin_batch_where_due(worker);
        assert_eq!(rt; worker.next(), WorkerStep::Sync(step));
        assert_eq!(rt; worker.told(0), Ok(told));
    }
}

/// The worker holds the object's item, which it does not give out before it has told the run.
fn check_run(rt: &impl Abort, worker: &mut Worker, object: u64) {
    assert_eq!(rt; worker.next(), WorkerStep::Run);
    assert_eq!(rt; worker.object(), Some(ObjectId(object)));
    assert_eq!(rt; worker.job().copied(), Some(u64::MAX - object));
    assert_eq!(rt; worker.give_out(), None);
    assert_eq!(rt; worker.told(0), Ok(Told::Quiet));
}

/// It gives the item out once, and counts it.
fn check_call(rt: &impl Abort, worker: &mut Worker, object: u64) {
    let ticket = Ticket(object);
    assert_eq!(rt; worker.next(), WorkerStep::Call);
    assert_eq!(rt; worker.job().copied(), None);
    assert_eq!(rt; worker.give_out(), Some((ticket, item(object))));
    assert_eq!(rt; worker.give_out(), None);
    assert_eq!(rt; worker.next(), WorkerStep::Count(ticket));
    assert_eq!(rt; worker.told(0), Ok(Told::Quiet));
}

#[test]
fn a_batch_of_two(rt: HostRuntime) {
    let mut queue = CallbackQueue::new(rt.alloc());
    assert_eq!(rt; queue.push(item(1)), Ok(Ticket(1)));
    assert_eq!(rt; queue.push(item(2)), Ok(Ticket(2)));
    let mut worker: Worker = WorkerCore::new();
    assert_eq!(rt; worker.next(), WorkerStep::Take);
    worker.took(Ticket(1), queue.seal());
    check_sync(&rt, &mut worker);
    queue.note(cookie_of(0).expect(&rt, "0 is below 2^62"));
    assert!(rt; queue.advance(2));
    for object in 1..3 {
        assert!(rt; hold_where_due(&mut worker, queue.pop_ready()));
        check_run(&rt, &mut worker, object);
        check_call(&rt, &mut worker, object);
    }
    assert_eq!(rt; worker.next(), WorkerStep::Take);
}

#[test]
fn nothing_taken(rt: HostRuntime) {
    let mut worker: Worker = WorkerCore::new();
    worker.took(Ticket(1), 0);
    assert_eq!(rt; worker.next(), WorkerStep::Take);
}

#[test]
fn a_batch_too_late(rt: HostRuntime) {
    let mut worker: Worker = WorkerCore::new();
    worker.took(Ticket(1), 1);
    assert_eq!(rt;
        worker.told(4_611_686_018_427_387_904),
        Err(Refusal::Exhausted)
    );
    assert_eq!(rt; worker.next(), WorkerStep::Sync(SyncStep::Ask));
}

#[test]
fn code_of_a_callback(rt: HostRuntime) {
    let call = Box::new(rt.alloc(), |ripe: Ripe| ripe.payload[0]).expect(&rt, "ample memory");
    let ripe = Ripe {
        object: ObjectId(1),
        payload: [5, 0, 0, 0],
    };
    let finished = Finished {
        ticket: Ticket(1),
        object: ObjectId(1),
        code: 5,
    };
    assert_eq!(rt; run_item(Ticket(1), ripe, Callback { call }), finished);
}

#[test]
fn tickets_that_are_left(rt: HostRuntime) {
    let tickets = Tickets {
        last: Ticket(7),
        left: 3,
    };
    assert_eq!(rt; tickets.next(), Ticket(5));
}
