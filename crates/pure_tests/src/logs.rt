//! Logs with their verdicts, each judged by hand from the rules.

use rcu_judge::{Rule, Verdict, check_log};
use rcu_model::{Event, ObjectId, SectionId};
use std::alloc::Global;
use std::process::Abort;

fn first(section: SectionId, found: Option<ObjectId>) -> Event {
    Event::First {
        section,
        chain: 0,
        found,
    }
}

/// Asserts that each of the logs is a run.
fn expect_runs(rt: &impl Abort, alloc: Global, logs: &[&[Event]]) {
    for log in logs {
        assert_eq!(rt; check_log(alloc, log), Ok(Verdict::Yes));
    }
}

/// Asserts of each of the logs that its last event is the first that breaks its rule.
fn expect_breaks(rt: &impl Abort, alloc: Global, rule: Rule, logs: &[&[Event]]) {
    for log in logs {
        let at = log.len();
        assert_eq!(rt; check_log(alloc, log), Ok(Verdict::No { at, rule }));
    }
}

#[test]
fn numbers_reach_their_limits(rt: HostRuntime) {
    let section = SectionId {
        reader: u32::MAX,
        ordinal: u64::MAX,
    };
    let object = ObjectId(u64::MAX);
    let chain = u32::MAX;
    let queue = u32::MAX;
    let found = Some(object);
    let log = [
        Event::Open(section),
        Event::Push { chain, object },
        Event::First {
            section,
            chain,
            found,
        },
        Event::Cut { chain, object },
        Event::Retire(object),
        Event::Queue { object, queue },
        Event::Ask(u64::MAX),
        Event::Bar(u64::MAX),
        Event::Close(section),
        Event::Answer(u64::MAX),
        Event::Run(object),
        Event::Clear(u64::MAX),
    ];
    expect_runs(&rt, rt.alloc(), &[&log]);
    expect_breaks(
        &rt,
        rt.alloc(),
        Rule::Asking,
        &[&[Event::Ask(u64::MAX), Event::Answer(u64::MAX - 1)]],
    );
}
