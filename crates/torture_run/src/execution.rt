//! What the program is asked to do, done.

ghost use Rattle.std.specs.Prelude.{◌≡◌, ◌⊎◌};
ghost use Rattle.torture_commands.specs.Ending.{status_of};
ghost use Rattle.torture_run.specs.Limits.{IsAskedWithin, IsRunWithin};
ghost use Rattle.torture_run.specs.Running.{HasRun, ended_with};
ghost use Rattle.torture_run.specs.Ending.{ExecutesAsked};

use crate::asked::{Asked, Run};
use crate::counting::{are_right, write_counts};
use crate::fault::{RunFault, fault_of};
use calls::answer_calls;
use gp_memb::MembPlan;
use gp_qsbr::QsbrPlan;
use live_load::{Counts, Watch, stress_on};
use rcu_model::Refusal;
use schedule::ReplayFault;
use std::alloc::Global;
use std::io::{Read, Write};
use std::sync::Wait;
use std::thread::Threads;
use std::time::Clock;
use torture_commands::status_of_fault;
use world::Flavour;

/// The threads of a run, in its flavour. What they count.
fn counted<R: Threads + Wait + Clock + Sync, V: Watch + Sync>(
    rt: &R,
    alloc: Global,
    run: &Run,
    watch: &V,
) -> Result<Counts, Refusal>
    requires { IsRunWithin run.now }
{
    match run.flavour {
        Flavour::Memb => stress_on::<MembPlan, R, V>(rt, alloc, run.target, run.load, watch),
        Flavour::Qsbr => stress_on::<QsbrPlan, R, V>(rt, alloc, run.target, run.load, watch),
    }
}

/// Runs the threads, and writes what they count as one line. A refusal and `Memory` write nothing, and `Write` a
/// beginning of that line.
fn run_threads<R: Threads + Wait + Clock + Sync, V: Watch + Sync, W: Write>(
    rt: &R,
    alloc: Global,
    run: &Run,
    watch: &V,
    writer: &mut W,
) -> Result<Counts, RunFault>
    requires { IsRunWithin run.now }
    ensures { HasRun run.now.target (W.contents writer.old) (W.contents writer.new) result }
{
    match counted(rt, alloc, run, watch) {
        Ok(counts) => write_counts(alloc, run.target, counts, writer),
        Err(refusal) => Err(fault_of(refusal)),
    }
}

/// What the program ends with after a run: 1 where the counts are wrong, and 3 after a fault, which is told on
/// `faults`, where a write error is passed over.
fn end<F: Write>(run: &Run, ended: Result<Counts, RunFault>, faults: &mut F) -> u8
    ensures status { result ≡ ended_with run.now ended }
    ensures silent { (result ≡ 0) ⊎ (result ≡ 1) → faults.new ≡ faults.old }
{
    match ended {
        Ok(counts) if are_right(run, counts) => 0,
        Ok(_) => 1,
        Err(fault) => {
            let _ = writeln!(faults, "{fault}");
            3
        }
    }
}

/// What the program ends with after a script of calls. A fault is told on `faults`, where a write error is passed over.
fn end_calls<F: Write>(ended: Result<(), ReplayFault>, faults: &mut F) -> u8
    ensures status { result ≡ status_of (λ _. 0) ended }
    ensures silent { (result ≡ 0) ⊎ (result ≡ 1) → faults.new ≡ faults.old }
{
    match ended {
        Ok(()) => 0,
        Err(fault) => {
            let _ = writeln!(faults, "{fault}");
            status_of_fault(fault)
        }
    }
}

/// Does what was asked for, from the reader to the writer; a run reads nothing, and `watch` hears how far it is. A
/// fault is told on `faults`, where a write error is passed over. Answers what the program ends with: 0 good, 1 a log
/// that is no run or wrong counts, 2 bad input, 3 a fault of reading, writing or memory.
pub fn execute<R: Threads + Wait + Clock + Sync, V: Watch + Sync, I: Read, W: Write, F: Write>(
    rt: &R,
    alloc: Global,
    asked: Asked,
    watch: &V,
    reader: &mut I,
    writer: &mut W,
    faults: &mut F,
) -> u8
    requires { IsAskedWithin asked }
    ensures executes { ExecutesAsked asked (I.remaining reader.old) (I.remaining reader.new) (W.contents writer.old) (W.contents writer.new) result }
    ensures silent { (result ≡ 0) ⊎ (result ≡ 1) → faults.new ≡ faults.old }
{
    match asked {
        Asked::Command(command) => torture_commands::execute(
            alloc, command, reader, writer, faults,
        ),
        Asked::Run(run) => {
            let ended = run_threads(rt, alloc, &run, watch, writer);
            end(&run, ended, faults)
        }
        Asked::Calls => {
            let ended = answer_calls(rt, alloc, reader, writer);
            end_calls(ended, faults)
        }
    }
}
