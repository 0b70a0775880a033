#![tactic(auto)]
//! Operations of the library over live threads, one after the other, for the benchmark:
//! `live_bench FLAVOUR KIND COUNT`. A kind that ends in `-by-two` or `-by-four` is of this many threads, each of which
//! makes COUNT operations. Of `slowest-while-growing` the answer is the time of the slowest operation, in billionths of
//! the time of all.

mod chains;
mod kind;
mod tables;

use crate::chains::{boxed, on_chains};
use crate::kind::{Kind, OnChains, kind_of, of_chains};
use crate::tables::on_table;
use gp_memb::{GracePlan, MembPlan};
use gp_qsbr::QsbrPlan;
use rcu_hash::{AnyChain, Opened, Tabled};
use rcu_model::Refusal;
use std::alloc::Global;
use std::marker::Brand;
use std::process::ExitCode;
use std::sync::Wait;
use std::thread::Threads;
use std::{env, io};

/// Repeats it on chains, in a domain with a chain for each thread.
fn chained<P: GracePlan + Drop + Send + Sync, R: Threads + Wait + Sync>(
    rt: &R,
    alloc: Global,
    operation: OnChains,
    hands: usize,
    count: u64,
) -> Result<u64, Refusal> {
    let opened = Opened::<P, AnyChain>::new(alloc, of_chains(hands))?;
    if operation == OnChains::RetireBoxed {
        return boxed::<P, Brand, R>(rt, alloc, opened, count);
    }
    on_chains::<P, Brand, R>(rt, alloc, opened, operation, hands, count)
}

/// Repeats it in a flavour.
fn repeat<P: GracePlan + Drop + Send + Sync, R: Threads + Wait + Sync>(
    rt: &R,
    alloc: Global,
    kind: Kind,
    count: u64,
) -> Result<u64, Refusal> {
    match kind {
        Kind::Chains(operation, hands) => chained::<P, R>(rt, alloc, operation, hands, count),
        Kind::Table(operation, hands) => {
            let opened = Opened::<P, Tabled>::new(alloc, of_chains(operation.chains()))?;
            on_table::<P, Brand, R>(rt, alloc, opened, operation, hands, count)
        }
    }
}

fn main(rt: HostRuntime) -> io::Result<ExitCode> {
    let words: Vec<String> = env::args(&rt)?.collect(rt.alloc())?;
    let (Some(flavour), Some(kind), Some(count)) = (words.get(1), words.get(2), words.get(3)) else {
        println!(rt; "usage: live_bench memb|qsbr KIND COUNT")?;
        return Ok(ExitCode::SUCCESS);
    };
    let (Some(kind), Ok(count)) = (kind_of(kind), count.parse::<u64>()) else {
        return Ok(ExitCode::FAILURE);
    };
    let done = if flavour.as_str() == "qsbr" {
        repeat::<QsbrPlan, _>(&rt, rt.alloc(), kind, count)
    } else {
        repeat::<MembPlan, _>(&rt, rt.alloc(), kind, count)
    };
    match done {
        Ok(done) => {
            println!(rt; "{done}")?;
            Ok(ExitCode::SUCCESS)
        }
        Err(refusal) => {
            println!(rt; "{refusal}")?;
            Ok(ExitCode::FAILURE)
        }
    }
}
