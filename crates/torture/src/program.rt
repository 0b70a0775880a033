//! What the program says of itself: its commands, their words and their help.

ghost use Rattle.std.specs.Prelude.{◌≡◌, Some, IfOk, codes, false};
ghost use Rattle.clap.specs.Words.{app_of, rule_of};
ghost use Rattle.torture.specs.Words.{IsPlain, IsCheck, IsWalk, IsRun, IsTorture, bare_app, number_rule, flag_rule, IsFlavourRule, IsTargetRule, AddsWorld, AddsCourse, AddsLoad};

use clap::builder::ValueParser;
use clap::{Arg, ArgAction, Command as Program};
use std::alloc::{AllocError, Global};

const ABOUT: &str =
    "Replays, checks and draws schedules of read-copy-update, one atomic step a line, runs live threads, and makes calls";

/// What `--version` prints after the program's name.
const VERSION: &str = "0.1.0";

const EXAMPLES: &str = "Examples:
  torture replay < examples/replaced-while-read
  torture replay < examples/replaced-while-read | torture check
  torture walk --lines 5000 --seed 7
  torture run --updaters 3 --workers 2 --rounds 5000
  torture run --load growth --seconds 10
  torture call < SCRIPT

`torture help COMMAND` says more; docs/FORMATS.md has the texts.";

const REPLAY_USAGE: &str = "torture replay < SCHEDULE";

const REPLAY_ABOUT: &str = "Reads a schedule and answers each of its lines";

const REPLAY_HELP: &str =
    "Reads a schedule from standard input and writes the answer of each line, then an end line, to standard output.

The first line is the header: `schedule 1 memb R U W C` for narrow reader words or `schedule 2 memb R U W C` for wide ones, `qsbr` in place of `memb` for the quiescent-state flavour, with the numbers of readers (1 to 64), updaters (1 to 16), workers (1 to 8) and chains (1 to 64). Then each line is one atomic step:

  r0 lock, r0 unlock         open and close a read-side section of reader 0 (memb)
  r0 online, r0 offline      the same in the quiescent-state flavour (qsbr)
  r0 quiescent               announce a quiescent state: end one section, open the next (qsbr)
  r0 first c0, r0 next       load the first record of chain 0, the one after it
  r0 touch                   read the record loaded last
  u0 push c0                 updater 0 puts a new record at the front of chain 0
  u0 replace o1, u0 cut o1   put a new record in the place of record 1, take record 1 out
  u0 retire o1               queue record 1, which is out of its chain, to be reclaimed
  u0 sync                    wait for a grace period
  u0 start, u0 poll          take a cookie, ask whether a grace period has passed since
  u0 barrier                 wait until all that is queued now has been reclaimed
  w0 take                    worker 0 takes what is queued, waits for a grace period and reclaims it
  r0 ., u0 ., w0 .           go on with what an earlier line of the same actor began

Each line is answered by what happened, such as `open r0.1` or `run o1` (two events are joined by `; `), or by

  .            the step was made, and tells nothing
  wait         a reader's word stands in the way, or what is waited for is not reached
  blocked      a lock is held
  idle         there is nothing to take
  refused E7   not made: E2 nested too deep, E5 no sequence number left, E6 nothing open or begun, E7 in an operation or online, E8 no such chain or record in the needed state, E9 a verb of the other flavour, E12 no such actor

After `wait`, `blocked`, `idle` and a refusal all is as it was. The end line counts the open sections, the records retired and not run, and the records run.

Example: printf 'schedule 1 memb 1 1 1 1\\nr0 lock\\nr0 .\\n' | torture replay

Exit status: 0 good, 2 a bad schedule or bad words, 3 a fault of reading, writing or memory.";

const CALL_USAGE: &str = "torture call < SCRIPT";

const CALL_ABOUT: &str =
    "Reads calls of the live library, a line each, makes them and answers each";

const CALL_HELP: &str =
    "Reads a script from standard input: calls of the library over live threads, a line each. It makes them in order, on one thread, and writes an answer for each to standard output.

The first line is the header: `calls 1 memb S Q C P`, `qsbr` in place of `memb` for the quiescent-state flavour, with the numbers of reader slots (1 to 256), callback queues (1 to 8), chains (1 to 4096) and records (1 to 65536). ` maps` after it has lists and tables write the chains. Then each line is one whole call:

  r0 register, r0 unregister        a reader comes and goes
  r0 lock, r0 unlock                open and close its section
  r0 online, r0 quiescent           the same in the quiescent-state flavour
  r0 first c0, r0 next, r0 read     find the first record of chain 0, the one after it, read its words
  u0 chain c0, u0 alloc 7 8 9 10    updater 0 takes chain 0 to write, and allocates a record
  u0 push c0, u0 cut_retire c0 0 5  publish it, take it out again and retire it with a callback
  u0 synchronize, u0 barrier        wait for a grace period, or for all callbacks
  w0 run                            run what queue 0 has
  l0 new c0, l0 insert 7 70         a keyed list over chain 0 (maps)
  t0 new c0 1 4, t0 grow 5 8        a hash table, which grows (maps)
  d counts, d close                 how full the domain is; no more retirements

docs/CALLS.md has all calls and answers. A call that is refused answers `refused E` and a number; one that would wait for ever on one thread answers `would wait`; both change nothing.

Example: printf 'calls 1 memb 1 1 1 1\\nr0 register\\nr0 lock\\n' | torture call

Exit status: 0 good, 2 a bad script or bad words, 3 a fault of reading, writing or memory.";

const CHECK_USAGE: &str = "torture check [--follow] < ANSWERS";

const CHECK_ABOUT: &str = "Reads answers and judges the log that they tell";

const CHECK_HELP: &str =
    "Reads lines of answers, as `replay` writes them, from standard input, and judges the log of their events. The answers may come from any program.

It writes `yes events=N` where the log, of N events, is a run of read-copy-update, or else `no event=K rule=Dn`: the first event, counted from 1, that breaks its rule, and that rule.

  D3   a read-side section opens once, and closes while it is open
  D4   a section follows the links of the records that it holds
  D5   a record is published once, and leaves its chain while it is linked
  D6   a record that was cut is retired once
  D7   a retired record is queued once, and its callback runs once, when no section that it awaits is left
  D8   a grace period or a barrier is over once, when nothing that it awaits is left

Lines without events and end lines are passed over. The answers are judged as they come, in memory for the most that was open, linked or awaited at once; what is past takes next to none where numbers count up.

The verdict is written at the end: a text that is bad has none, even after a wrong event. With `--follow` the first wrong event ends the command at once, with its verdict and status 1, and what follows it is not looked at. So it can stand beside a program that runs.

Example: torture replay < SCHEDULE | torture check

Exit status: 0 the log is a run, 1 it is none, 2 bad answers or bad words, 3 a fault of reading, writing or memory.";

const WALK_ABOUT: &str = "Draws a schedule, steps it and judges its log";

const WALK_HELP: &str =
    "Draws a schedule by the seed, steps each line before it draws the next, and judges the log of what happened. The same words draw the same schedule.

It writes `walk lines=N events=E open=A waiting=B run=C verdict=yes`: the lines drawn, the events told, the sections still open, the records retired and not run, and the records run. With `--schedule` it writes the schedule instead, for `torture replay`.

Example: torture walk --lines 5000 --seed 7 --stop 0 --from 100

Exit status: 0 good, 1 the log is no run, 2 bad words, 3 a fault of writing or memory.";

const RUN_ABOUT: &str = "Runs readers, updaters and workers in threads of their own";

const RUN_HELP: &str =
    "Runs readers, updaters and workers in threads of their own, on a domain of 1,024 records with a queue for each worker. Each worker waits for grace periods and runs the callbacks of its queue. `--load` says what the others work on.

  chains   Updater u pushes a record of four zeros on chain u. In its round i it puts a record whose four words are i in that one's place and retires the old one. Each reader opens as many sections as there are rounds and reads the first record of one chain after the other; it counts a record whose four words differ.
  lists    One keyed list, whose updaters take turns. Sixteen keys are there all along. In one round an updater puts a key of its own in and gives one of those another value, in the next it takes its own key out. Each reader by turns looks one of the sixteen up and goes through all keys; it counts a look that misses its key or finds an older value, and a walk that does not meet each of them once. One more thread waits and polls for grace periods, and counts a section that one did not see end.
  tables   The same on a hash table, whose updaters work side by side.
  growth   The same on a hash table that one more thread lets grow and tidies all the time.

Where no record is free an updater tries again, and ends after 1,000,000 tries in a row.

It writes `run retired=A finished=B mixed=M` of chains, and else `run lists retired=A finished=B wrong=W`: the records retired, the callbacks run, and what readers and waiters counted. The counts are right where A is B, M or W is 0, and without `--seconds` A is the number of updaters times the rounds, or more where a table grew.

Example: torture run --load growth --flavour qsbr --readers 8 --updaters 3 --workers 2 --rounds 5000

Exit status: 0 the counts are right, 1 they are wrong, 2 bad words, 3 a fault of writing or memory.";

const ROUNDS_HELP: &str =
    "How many rounds, 1 to 1,000,000; where it is left out 1000, or with --seconds as many as the time allows";

const SECONDS_HELP: &str = "End after so many seconds at the latest, 1 to 86,400";

const TARGET_HELP: &str =
    "What the load is put on: chains, a keyed list, a hash table, or one that grows all the time";

const FORMAT_HELP: &str = "The version of the schedule: 1 has narrow reader words, 2 wide ones";

const SCHEDULE_HELP: &str = "Write the schedule, in place of what became of it";

const FOLLOW_HELP: &str = "End at the first wrong event, whatever follows it";

const STOP_HELP: &str = "An actor that stops for good: readers from 0, then updaters, then workers";

const FROM_HELP: &str = "The first line that the actor of --stop does not get, 1 to 1,000,000";

/// The names of the flavours.
pub const FLAVOURS: &[&str] = &["memb", "qsbr"];

/// The names of what a run puts its load on.
pub const TARGETS: &[&str] = &["chains", "lists", "tables", "growth"];

/// An option of a number between limits, both included.
fn number<'a>(alloc: Global, name: &'a str, least: u64, most: u64, help: &'a str) -> Arg<'a>
    ensures rule { rule_of result ≡ number_rule name.entry.now least most }
    ensures own { result.global ≡ false }
    ensures help { result.help ≡ Some help.entry }
{
    Arg::new(alloc, name)
        .long(name)
        .value_name("N")
        .value_parser(ValueParser::unsigned(least, most))
        .help(help)
}

/// An option that takes no value.
fn flag<'a>(alloc: Global, name: &'a str, help: &'a str) -> Arg<'a>
    ensures rule { rule_of result ≡ flag_rule name.entry.now }
    ensures own { result.global ≡ false }
{
    Arg::new(alloc, name)
        .long(name)
        .action(ArgAction::SetTrue)
        .help(help)
}

/// The option of a flavour.
fn flavour<'a>(alloc: Global) -> Arg<'a>
    ensures rule { IsFlavourRule (rule_of result) }
    ensures own { result.global ≡ false }
{
    Arg::new(alloc, "flavour")
        .long("flavour")
        .value_name("F")
        .value_parser(FLAVOURS)
        .default_value("memb")
        .help("memb: readers lock and unlock; qsbr: they announce quiescent states")
}

/// The option of what a run puts its load on.
fn target<'a>(alloc: Global) -> Arg<'a>
    ensures rule { IsTargetRule (rule_of result) }
    ensures own { result.global ≡ false }
{
    Arg::new(alloc, "load")
        .long("load")
        .value_name("L")
        .value_parser(TARGETS)
        .default_value("chains")
        .help(TARGET_HELP)
}

/// The options that say in which world a walk goes.
fn with_world<'a>(alloc: Global, program: Program<'a>) -> Result<Program<'a>, AllocError>
    ensures { IfOk result (λ c. AddsWorld program.entry c) }
{
    program
        .arg(flavour(alloc))?
        .arg(number(alloc, "readers", 1, 64, "How many readers, 1 to 64").default_value("2"))?
        .arg(number(alloc, "updaters", 1, 16, "How many updaters, 1 to 16").default_value("1"))?
        .arg(number(alloc, "workers", 1, 8, "How many workers, 1 to 8").default_value("1"))?
        .arg(number(alloc, "chains", 1, 64, "How many chains, 1 to 64").default_value("1"))?
        .arg(number(alloc, "format", 1, 2, FORMAT_HELP).default_value("1"))
}

/// The options that say how a walk goes.
fn with_course<'a>(alloc: Global, program: Program<'a>) -> Result<Program<'a>, AllocError>
    ensures { IfOk result (λ c. AddsCourse program.entry c) }
{
    program
        .arg(number(
            alloc,
            "lines",
            0,
            1_000_000,
            "How many lines to draw, 0 to 1,000,000",
        )
        .default_value("1000"))?
        .arg(number(
            alloc,
            "seed",
            0,
            u64::MAX,
            "What to draw them by, any number below 2^64",
        )
        .default_value("1"))?
        .arg(flag(alloc, "schedule", SCHEDULE_HELP))?
        .arg(number(alloc, "stop", 0, 87, STOP_HELP))?
        .arg(number(alloc, "from", 1, 1_000_000, FROM_HELP).default_value("1"))
}

/// The options that say how many threads there are, in which flavour, on what, and when they end.
fn with_load<'a>(alloc: Global, program: Program<'a>) -> Result<Program<'a>, AllocError>
    ensures { IfOk result (λ c. AddsLoad program.entry c) }
{
    program
        .arg(flavour(alloc))?
        .arg(target(alloc))?
        .arg(number(alloc, "readers", 1, 64, "How many readers, 1 to 64").default_value("2"))?
        .arg(number(alloc, "updaters", 1, 16, "How many updaters, 1 to 16").default_value("1"))?
        .arg(number(alloc, "workers", 1, 8, "How many workers, 1 to 8").default_value("1"))?
        .arg(number(alloc, "rounds", 1, 1_000_000, ROUNDS_HELP))?
        .arg(number(alloc, "seconds", 1, 86_400, SECONDS_HELP))
}

/// The command `replay`.
fn replay_command<'a>(alloc: Global) -> Program<'a>
    ensures { IsPlain (codes "replay") result }
{
    Program::new(alloc, "replay")
        .override_usage(REPLAY_USAGE)
        .about(REPLAY_ABOUT)
        .long_about(REPLAY_HELP)
}

/// The command `call`.
fn call_command<'a>(alloc: Global) -> Program<'a>
    ensures { IsPlain (codes "call") result }
{
    Program::new(alloc, "call")
        .override_usage(CALL_USAGE)
        .about(CALL_ABOUT)
        .long_about(CALL_HELP)
}

/// The command `check`, with its option.
fn check_command<'a>(alloc: Global) -> Result<Program<'a>, AllocError>
    ensures { IfOk result IsCheck }
{
    let check = Program::new(alloc, "check")
        .override_usage(CHECK_USAGE)
        .about(CHECK_ABOUT)
        .long_about(CHECK_HELP);
    check.arg(flag(alloc, "follow", FOLLOW_HELP))
}

/// The command `walk`, with its options.
pub fn walk_command<'a>(alloc: Global) -> Result<Program<'a>, AllocError>
    ensures { IfOk result IsWalk }
{
    let walk = Program::new(alloc, "walk")
        .about(WALK_ABOUT)
        .long_about(WALK_HELP);
    with_course(alloc, with_world(alloc, walk)?)
}

/// The command `run`, with its options.
fn run_command<'a>(alloc: Global) -> Result<Program<'a>, AllocError>
    ensures { IfOk result IsRun }
{
    let run = Program::new(alloc, "run")
        .about(RUN_ABOUT)
        .long_about(RUN_HELP);
    with_load(alloc, run)
}

/// The program, which wants a command and has none yet.
fn without_commands<'a>(alloc: Global) -> Program<'a>
    ensures { app_of result ≡ bare_app }
{
    Program::new(alloc, "torture")
        .about(ABOUT)
        .version(VERSION)
        .after_help(EXAMPLES)
        .subcommand_required(true)
        .arg_required_else_help(true)
}

/// The program's own description.
pub fn program<'a>(alloc: Global) -> Result<Program<'a>, AllocError>
    ensures { IfOk result (λ c. IsTorture (app_of c)) }
{
    let check = check_command(alloc)?;
    let walk = walk_command(alloc)?;
    let run = run_command(alloc)?;
    without_commands(alloc)
        .subcommand(replay_command(alloc))?
        .subcommand(check)?
        .subcommand(walk)?
        .subcommand(run)?
        .subcommand(call_command(alloc))
}
