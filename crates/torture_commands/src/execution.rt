//! Commands, executed.

ghost use Rattle.std.specs.Prelude.{◌≡◌, ◌⊎◌};
ghost use Rattle.torture_commands.specs.Limits.{IsWithin};
ghost use Rattle.torture_commands.specs.Ending.{status_of_fault, status_of_verdict, ended_with, Executes};

use crate::checking::{check, follow};
use crate::command::Command;
use crate::walking::{print_schedule, walk};
use rcu_judge::Verdict;
use schedule::{ReplayFault, replay};
use std::alloc::Global;
use std::io::{Read, Write};

/// What the program ends with after a fault: 2 for a bad text, 3 for a fault of reading, writing or memory.
pub fn status_of_fault(fault: ReplayFault) -> u8
    ensures { result ≡ status_of_fault fault }
{
    match fault {
        ReplayFault::BadText { .. } | ReplayFault::BadConfig => 2,
        ReplayFault::Read | ReplayFault::Write | ReplayFault::Memory => 3,
    }
}

/// What the program ends with after a verdict: 1 where the log is no run.
fn status_of_verdict(verdict: Verdict) -> u8
    ensures { result ≡ status_of_verdict verdict }
{
    match verdict {
        Verdict::Yes => 0,
        Verdict::No { .. } => 1,
    }
}

/// What the program ends with. A fault is told on `faults`, where a write error is passed over.
fn end<F: Write>(ended: Result<u8, ReplayFault>, faults: &mut F) -> u8
    ensures status { result ≡ ended_with ended }
    ensures silent { (result ≡ 0) ⊎ (result ≡ 1) → faults.new ≡ faults.old }
{
    match ended {
        Ok(status) => status,
        Err(fault) => {
            let _ = writeln!(faults, "{fault}");
            status_of_fault(fault)
        }
    }
}

/// Does what the command says, from the reader to the writer. A fault is told on `faults`, where a write error is
/// passed over. Answers what the program ends with: 0 good, 1 a log that is no run, 2 bad input, 3 a fault of reading,
/// writing or memory.
pub fn execute<R: Read, W: Write, F: Write>(
    alloc: Global,
    command: Command,
    reader: &mut R,
    writer: &mut W,
    faults: &mut F,
) -> u8
    requires { IsWithin command }
    ensures executes { Executes command (R.remaining reader.old) (R.remaining reader.new) (W.contents writer.old) (W.contents writer.new) result }
    ensures silent { (result ≡ 0) ⊎ (result ≡ 1) → faults.new ≡ faults.old }
{
    let ended = match command {
        Command::Replay => replay(alloc, reader, writer).map(|_| 0),
        Command::Check => check(alloc, reader, writer).map(status_of_verdict),
        Command::Follow => follow(alloc, reader, writer).map(status_of_verdict),
        Command::Walk(asked) if asked.schedule => {
            print_schedule(alloc, &asked, writer).map(|()| 0)
        }
        Command::Walk(asked) => walk(alloc, &asked, writer).map(status_of_verdict),
    };
    end(ended, faults)
}
