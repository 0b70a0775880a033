#![tactic(auto)]
//! Scripts of calls: each line is made on the library over live threads, on one thread, and answered by one line.

mod chains;
mod codes;
mod lines;
mod looking;
mod maps;
mod names;
mod plain;
mod readers;
mod script;
mod session;
mod sessions;
mod updater;
mod walker;
mod workers;

pub use script::answer_calls;
