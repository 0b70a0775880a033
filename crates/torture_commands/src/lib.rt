#![tactic(auto)]
//! What each command of `torture` does, from any reader to any writer.

mod checking;
mod command;
mod drawing;
mod execution;
mod walking;

pub use command::{Command, MOST_LINES, Stop, Walk};
pub use execution::{execute, status_of_fault};
