#![tactic(auto)]
//! `torture`: replays schedules of atomic steps, checks their answers, draws schedules, and runs live threads.

ghost use Rattle.std.specs.Prelude.{◌≡◌, ◌≢◌, ◌⊎◌, map, string_bytes, IfOk, IfErr};
ghost use Rattle.std.specs.IoError.{error_kind};
ghost use Rattle.clap.specs.Words.{kind_of};
ghost use Rattle.torture.specs.Status.{IsStatus, EndsAfter, status_of_words};
ghost use Rattle.torture.specs.Words.{EndsBy, status_of_kind};

mod program;
mod progress;
mod words;

use live_load::Watch;
use progress::Progress;
use std::alloc::Global;
use std::io::{IsTerminal, Read, Write};
use std::process::ExitCode;
use std::sync::Wait;
use std::thread::Threads;
use std::time::Clock;
use std::{env, io};
use torture_run::execute;
use words::{WordsFault, read_words};

/// Tells why the words give no command: help and the version on the writer, all else on `faults`, where a write error is
/// passed over.
fn tell<W: Write, F: Write>(fault: &WordsFault, writer: &mut W, faults: &mut F) -> u8
    ensures ends { EndsBy (kind_of fault.now.error) result }
    ensures mistake { status_of_kind (kind_of fault.now.error) ≢ 0 → W.contents writer.new ≡ W.contents writer.old }
    ensures silent { (result ≡ 0) ⊎ (result ≡ 1) → faults.new ≡ faults.old }
{
    let status = fault.status();
    if status != 0 {
        let _ = write!(faults, "{fault}");
        return status;
    }
    if write!(writer, "{fault}").is_err() {
        let _ = writeln!(faults, "write fault");
        return 3;
    }
    0
}

/// Tells why the words cannot be had, where a write error is passed over.
fn tell_unreadable<F: Write>(fault: &io::Error, faults: &mut F) -> u8
    ensures { result ≡ status_of_words (error_kind fault.now) }
{
    if fault.kind() == io::ErrorKind::InvalidData {
        let _ = writeln!(faults, "error: a word is not UTF-8");
        return 2;
    }
    let _ = writeln!(faults, "no memory");
    3
}

/// The words of the command line.
fn own_words(rt: &HostRuntime) -> io::Result<Vec<String>> {
    Ok(env::args(rt)?.collect(rt.alloc())?)
}

/// Executes the command of these words, from the reader to the writer, or tells why they give none, or why they cannot
/// be had. Answers what the program ends with: where that is 0 or 1, nothing is told of a fault.
fn run<H: Threads + Wait + Clock + Sync, V: Watch + Sync, R: Read, W: Write, F: Write>(
    alloc: Global,
    threads: &H,
    watch: &V,
    words: io::Result<Vec<String>>,
    reader: &mut R,
    writer: &mut W,
    faults: &mut F,
) -> u8
    ensures status { IsStatus result }
    ensures had { IfOk words (λ words. EndsAfter (map string_bytes words.items) (R.remaining reader.old) (R.remaining reader.new) (W.contents writer.old) (W.contents writer.new) result) }
    ensures not_had { IfErr words (λ fault. (result ≡ status_of_words (error_kind fault)) × (R.remaining reader.new ≡ R.remaining reader.old) × (W.contents writer.new ≡ W.contents writer.old)) }
    ensures silent { (result ≡ 0) ⊎ (result ≡ 1) → faults.new ≡ faults.old }
{
    let words = match words {
        Ok(words) => words,
        Err(fault) => return tell_unreadable(&fault, faults),
    };
    match read_words(alloc, &words) {
        Ok(asked) => execute(threads, alloc, asked, watch, reader, writer, faults),
        Err(fault) => tell(&fault, writer, faults),
    }
}

fn main(rt: HostRuntime) -> ExitCode {
    let words = own_words(&rt);
    let progress = Progress {
        rt: &rt,
        is_shown: rt.stderr().is_terminal(),
    };
    ExitCode::from(run(
        rt.alloc(),
        &rt,
        &progress,
        words,
        &mut rt.reader(),
        &mut io::writer(&rt),
        &mut rt.stderr(),
    ))
}
