#![tactic(auto)]
//! How a program uses the library, one small program after the other. Each prints a line.

mod callbacks;
mod event_loop;
mod found;
mod leases;
mod limits;
mod newest;
mod polling;
mod routes;
mod shutdown;
mod stock;

use found::{Found, least, reclaimed};
use rcu::{Config, Opened, Refusal, with_domain, with_threads};
use std::alloc::Global;
use std::io;
use std::marker::Brand;
use std::process::ExitCode;
use std::sync::Wait;
use std::thread::Threads;

/// A domain for four readers.
const SMALL: Config = Config {
    slots: 4,
    queues: 1,
    chains: 18,
    pool: 16,
};

/// All the examples.
fn show<R: Threads + Wait + Sync>(rt: &R, alloc: Global) -> Result<Found, Refusal> {
    let served = with_threads(rt, alloc, SMALL, 3, &limits::Server)?;
    let opened = Opened::new(alloc, SMALL)?;
    let stopped = with_threads(rt, alloc, SMALL, 2, &shutdown::Updaters)?;
    Ok(Found {
        limit: least(&served),
        hops: with_domain(rt, alloc, SMALL, routes::Router).map_err(|refused| refused.0)??,
        turns: with_domain(rt, alloc, SMALL, event_loop::EventLoop).map_err(|refused| refused.0)??,
        codes: with_domain(rt, alloc, SMALL, callbacks::Files).map_err(|refused| refused.0)??,
        room: with_domain(rt, alloc, SMALL, polling::Hotel).map_err(|refused| refused.0)??,
        reclaimed: reclaimed(&stopped),
        stock: with_domain(rt, alloc, SMALL, stock::Stock).map_err(|refused| refused.0)??,
        free: leases::serve::<Brand, R>(rt, alloc, opened)?,
    })
}

fn main(rt: HostRuntime) -> io::Result<ExitCode> {
    match show(&rt, rt.alloc()) {
        Ok(found) => {
            found.print(&rt)?;
            Ok(ExitCode::SUCCESS)
        }
        Err(refusal) => {
            println!(rt; "{refusal}")?;
            Ok(ExitCode::FAILURE)
        }
    }
}
