//! What the examples found.

use rcu::{Ended, Refusal};
use std::io;

/// What the examples found.
#[derive(Drop)]
pub(crate) struct Found {
    pub(crate) limit: u64,
    pub(crate) hops: (u64, u64, u64),
    pub(crate) turns: u64,
    pub(crate) codes: u64,
    pub(crate) room: (u64, u64),
    pub(crate) reclaimed: u64,
    pub(crate) stock: (u64, u64),
    pub(crate) free: (u64, u64),
}

impl Found {
    /// Prints a line for each example.
    pub(crate) fn print(&self, rt: &HostRuntime) -> io::Result<()> {
        println!(rt; "limits: {} was read last", self.limit)?;
        println!(rt;
            "routes: the next hop was {}, {} when the map had grown, and then {}",
            self.hops.0, self.hops.1, self.hops.2
        )?;
        println!(rt; "event loop: {} turns found the value", self.turns)?;
        println!(rt; "callbacks: {} in all", self.codes)?;
        println!(rt;
            "polling: room {} is free, after {} polls said no",
            self.room.0, self.room.1
        )?;
        println!(rt; "shutdown: {} records were reclaimed", self.reclaimed)?;
        println!(rt; "stock: {} pieces of {} goods", self.stock.1, self.stock.0)?;
        println!(rt;
            "leases: room {} is free, and {} record was reclaimed",
            self.free.0, self.free.1
        )?;
        Ok(())
    }
}

/// The least of the threads' answers.
pub(crate) fn least(ended: &Ended<Result<u64, Refusal>>) -> u64 {
    let mut least = u64::MAX;
    for answer in ended.answers.iter() {
        least = least.min(answer.unwrap_or(0));
    }
    least
}

/// How many records the workers reclaimed.
pub(crate) fn reclaimed<T>(ended: &Ended<T>) -> u64 {
    let mut sum = 0u64;
    for one in ended.reclaimed.iter() {
        sum = sum.saturating_add(one.unwrap_or(0));
    }
    sum
}
