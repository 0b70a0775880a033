//! Runs that end at once, are refused, or are watched.

use gp_memb::MembPlan;
use gp_qsbr::QsbrPlan;
use live_load::{Counts, Load, Target, Unwatched, Watch, stress_on};
use rcu_model::Refusal;
use std::sync::atomic::{AtomicU64, Ordering};

/// Fewer rounds than there are records.
const SHORT: Load = Load {
    readers: 3,
    updaters: 2,
    workers: 2,
    rounds: 200,
    seconds: None,
};

/// The counts of a run without a fault that retired this many.
fn without_fault(retired: u64) -> Counts {
    Counts {
        retired,
        finished: retired,
        mixed: 0,
        starved: 0,
    }
}

#[test]
fn a_time_that_is_over_ends_a_run(rt: HostRuntime) {
    let load = Load {
        seconds: Some(0),
        ..SHORT
    };
    let counts = stress_on::<QsbrPlan, _, _>(&rt, rt.alloc(), Target::Chains, load, &Unwatched);
    assert_eq!(rt; counts, Ok(without_fault(0)));
}

#[test]
fn a_run_has_a_reader(rt: HostRuntime) {
    let load = Load {
        readers: 0,
        ..SHORT
    };
    let refused = stress_on::<MembPlan, _, _>(&rt, rt.alloc(), Target::Chains, load, &Unwatched);
    assert_eq!(rt; refused, Err(Refusal::BadConfig));
}

#[test]
fn a_list_has_an_updater_for_each_key_that_stays(rt: HostRuntime) {
    let load = Load {
        updaters: 17,
        ..SHORT
    };
    let refused = stress_on::<MembPlan, _, _>(&rt, rt.alloc(), Target::Lists, load, &Unwatched);
    assert_eq!(rt; refused, Err(Refusal::BadConfig));
}

/// Adds up the rounds that it hears of.
#[derive(Drop)]
struct Heard(AtomicU64);

impl Watch for Heard {
    fn hear(&self, rounds: u32) {
        self.0.fetch_add(u64::from(rounds), Ordering::SeqCst);
    }
}

#[test]
fn who_watches_hears_of_rounds(rt: HostRuntime) {
    let heard = Heard(AtomicU64::new(0));
    let load = Load {
        rounds: 40_000,
        ..SHORT
    };
    let counts = stress_on::<MembPlan, _, _>(&rt, rt.alloc(), Target::Chains, load, &heard);
    assert_eq!(rt; counts, Ok(without_fault(80_000)));
    assert_eq!(rt; heard.0.load(Ordering::SeqCst), 16_384 + 32_768);
}
