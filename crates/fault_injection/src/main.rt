#![tactic(auto)]
//! `fault_injection`: calls of the library that may each be refused memory once, from outside, and what that left.

mod answers;
mod ledger;
mod logs;
mod operations;
mod queues;
mod registries;
mod replays;
mod rows;
mod scenario;
mod stepping;
mod worlds;

use ledger::{Call, Finding, Ledger};
use scenario::{SCENARIOS, Scenario};
use std::process::ExitCode;
use std::{env, io};

/// The words of the command line.
fn own_words(rt: &HostRuntime) -> io::Result<Vec<String>> {
    Ok(env::args(rt)?.collect(rt.alloc())?)
}

/// Runs a scenario, and prints what it found. Answers whether all is as it has to be.
fn tell(rt: &HostRuntime, scenario: Scenario, ledger: &mut Ledger) -> bool {
    let name = scenario.name();
    match scenario.run(rt.alloc(), ledger) {
        Ok(count) => println!(rt; "{name}: {count} hold").is_ok(),
        Err(finding) => {
            let _ = println!(rt; "{name}: {finding}");
            false
        }
    }
}

/// Runs the scenario of this name, or all of them where none is named.
fn run(rt: &HostRuntime, ledger: &mut Ledger) -> Result<bool, Finding> {
    let words = ledger.again(Call::Own, || own_words(rt))?;
    let mut good = true;
    for scenario in SCENARIOS {
        let is_named = match words.get(1) {
            Some(word) => word.as_str() == scenario.name(),
            None => true,
        };
        if is_named && !tell(rt, scenario, ledger) {
            good = false;
        }
    }
    Ok(good)
}

fn main(rt: HostRuntime) -> ExitCode {
    let mut ledger = Ledger::new();
    let status = match run(&rt, &mut ledger) {
        Ok(true) => 0,
        Ok(false) => 1,
        Err(finding) => {
            let _ = println!(rt; "{finding}");
            1
        }
    };
    let _ = eprintln!(rt; "refused {ledger}");
    ExitCode::from(status)
}
