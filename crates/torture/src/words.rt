//! The words of the command line.

ghost use Rattle.std.specs.Prelude.{◌≡◌, ◌≢◌, ◌≤◌, codes, map, IfOk, IfErr};
ghost use Rattle.clap.specs.Words.{first_of, found_of, kind_of, rows_of, subcommand_rows_of};
ghost use Rattle.clap.specs.declared.error.kind.ErrorKind.TheVariants.{ValueValidation};
ghost use Rattle.torture_run.specs.Limits.{IsAskedWithin};
ghost use Rattle.torture.specs.Said.{number_of, number_or, flag_of, layout_said, flavour_said, target_said, check_said, config_said, walk_said, rounds_beside, load_said, run_said, asked_said};
ghost use Rattle.torture.specs.Words.{status_of_kind, text_of_kind, IsTaken, IsRefused, SayAsked};

use crate::program::{program, walk_command};
use clap::error::ErrorKind;
use clap::{ArgMatches, Error};
use live_load::{Load, Target};
use std::alloc::{AllocError, Global};
use std::convert::AsStr;
use std::fmt;
use torture_commands::{Command, Stop, Walk};
use torture_run::{Asked, MOST_ROUNDS, Run};
use world::{Config, Flavour, Layout};

/// Why the words give no command: a mistake, a call for help or for the version, or no memory.
#[derive(Debug, Drop)]
pub struct WordsFault {
    error: Error,
}

impl WordsFault {
    /// What the program ends with: 0 after help and the version, 2 after a mistake, 3 where memory was refused.
    pub fn status(&self) -> u8
        ensures kind { result ≡ status_of_kind (kind_of self.now.error) }
        ensures grave { result ≢ 0 → 2 ≤ result }
    {
        match self.error.kind() {
            ErrorKind::DisplayHelp | ErrorKind::DisplayVersion => 0,
            ErrorKind::OutOfMemory => 3,
            _ => 2,
        }
    }
}

/// Writes the text for the user, with its line feeds.
impl fmt::Display for WordsFault {
    ghost output = { λ fault. text_of_kind (kind_of fault.error) };

    fn fmt<W: fmt::Write>(&self, f: &mut fmt::Formatter<W>) -> fmt::Result {
        match self.error.kind() {
            ErrorKind::OutOfMemory => f.write_str("no memory\n"),
            _ => write!(f, "{}", self.error),
        }
    }
}

/// The number that an option says.
fn number_of(matches: &ArgMatches, name: &str) -> Option<u32>
    ensures { result ≡ number_of 32 (rows_of (found_of matches.now)) name.now }
{
    matches.get_one(name)
}

/// The number that an option says, or else this one.
fn number_or(matches: &ArgMatches, name: &str, other: u32) -> u32
    ensures { result ≡ number_or 32 (rows_of (found_of matches.now)) name.now other }
{
    number_of(matches, name).unwrap_or(other)
}

/// The layout of the reader words that `--format` says.
fn layout_of(matches: &ArgMatches) -> Layout
    ensures { result ≡ layout_said (number_or 32 (rows_of (found_of matches.now)) (codes "format") 1) }
{
    match number_or(matches, "format", 1) {
        2 => Layout::Wide,
        _ => Layout::Narrow,
    }
}

/// The flavour that `--flavour` says.
fn flavour_of(matches: &ArgMatches) -> Flavour
    ensures { result ≡ flavour_said (first_of (codes "flavour") (rows_of (found_of matches.now))) }
{
    match matches.get_str("flavour") {
        Some("qsbr") => Flavour::Qsbr,
        _ => Flavour::Memb,
    }
}

/// The target that `--load` says.
fn target_of(matches: &ArgMatches) -> Target
    ensures { result ≡ target_said (first_of (codes "load") (rows_of (found_of matches.now))) }
{
    match matches.get_str("load") {
        Some("lists") => Target::Lists,
        Some("tables") => Target::Tables,
        Some("growth") => Target::Growth,
        _ => Target::Chains,
    }
}

/// The config that the options of `walk` say.
fn config_of(matches: &ArgMatches) -> Config
    ensures { result ≡ config_said (rows_of (found_of matches.now)) }
{
    Config {
        layout: layout_of(matches),
        flavour: flavour_of(matches),
        readers: number_or(matches, "readers", 2),
        updaters: number_or(matches, "updaters", 1),
        workers: number_or(matches, "workers", 1),
        chains: number_or(matches, "chains", 1),
    }
}

/// The seed that `--seed` says.
fn seed_of(matches: &ArgMatches) -> u64
    ensures { result ≡ number_or 64 (rows_of (found_of matches.now)) (codes "seed") 1 }
{
    matches.get_one("seed").unwrap_or(1)
}

/// Whether an option that takes no value stands there.
fn flag_of(matches: &ArgMatches, name: &str) -> bool
    ensures { result ≡ flag_of (rows_of (found_of matches.now)) name.now }
{
    matches.get_one(name).unwrap_or(false)
}

/// The walk that the options of `walk` say.
fn walk_of(matches: &ArgMatches) -> Walk
    ensures { result ≡ walk_said (rows_of (found_of matches.now)) }
{
    let from = number_or(matches, "from", 1);
    Walk {
        config: config_of(matches),
        lines: number_or(matches, "lines", 1000),
        seed: seed_of(matches),
        schedule: flag_of(matches, "schedule"),
        stop: number_of(matches, "stop").map(|actor| Stop { actor, from }),
    }
}

/// What the options of `check` say.
fn check_of(matches: &ArgMatches) -> Command
    ensures { result ≡ check_said (rows_of (found_of matches.now)) }
{
    if flag_of(matches, "follow") {
        Command::Follow
    } else {
        Command::Check
    }
}

/// How many rounds a run makes where no word says it: where a time ends it, as many as can be.
fn rounds_beside(seconds: Option<u32>) -> u32
    ensures { result ≡ rounds_beside seconds }
{
    match seconds {
        Some(_) => MOST_ROUNDS,
        None => 1000,
    }
}

/// The load that the options of `run` say.
fn load_of(matches: &ArgMatches) -> Load
    ensures { result ≡ load_said (rows_of (found_of matches.now)) }
{
    let seconds = number_of(matches, "seconds");
    Load {
        readers: number_or(matches, "readers", 2),
        updaters: number_or(matches, "updaters", 1),
        workers: number_or(matches, "workers", 1),
        rounds: number_or(matches, "rounds", rounds_beside(seconds)),
        seconds,
    }
}

/// The run that the options of `run` say.
fn run_of(matches: &ArgMatches) -> Run
    ensures { result ≡ run_said (rows_of (found_of matches.now)) }
{
    Run {
        flavour: flavour_of(matches),
        target: target_of(matches),
        load: load_of(matches),
    }
}

/// What the matches ask for.
fn asked_of(matches: &ArgMatches) -> Asked
    ensures { result ≡ asked_said (subcommand_rows_of matches.now) }
{
    match matches.subcommand() {
        Some(("check", options)) => Asked::Command(check_of(options)),
        Some(("walk", options)) => Asked::Command(Command::Walk(walk_of(options))),
        Some(("run", options)) => Asked::Run(run_of(options)),
        Some(("call", _)) => Asked::Calls,
        _ => Asked::Command(Command::Replay),
    }
}

/// What `clap` makes of the words.
fn parsed<'a, S: AsStr>(alloc: Global, words: &'a [S]) -> Result<ArgMatches<'a>, Error>
    ensures taken { IfOk result (λ matches. IsTaken (map S.text words.entry.now) (subcommand_rows_of matches)) }
    ensures refused { IfErr result (λ e. IsRefused (map S.text words.entry.now) e) }
{
    program(alloc)?.try_get_matches_from(words)
}

/// The fault of a walk in which nobody is who stops, told as `clap` tells of a number out of its range, with the usage
/// of `walk`.
fn no_such_actor(alloc: Global, walk: &Walk) -> Result<Error, AllocError>
    ensures { IfOk result (λ e. kind_of e ≡ ValueValidation) }
{
    let Config {
        readers,
        updaters,
        workers,
        ..
    } = walk.config;
    let actors = u64::from(readers) + u64::from(updaters) + u64::from(workers);
    let last = actors.saturating_sub(1);
    let actor = walk.stop.map_or(0, |stop| stop.actor);
    let text = format!(in alloc;
        "invalid value '{actor}' for '--stop <N>': {actor} is not in 0..={last}"
    )?;
    walk_command(alloc)?
        .bin_name("torture walk")?
        .error(ErrorKind::ValueValidation, &text)
}

/// The fault of what is out of its limits, though `clap` took it: of all numbers it leaves who stops alone unbounded.
fn out_of_limits(alloc: Global, asked: &Asked) -> Result<Error, AllocError>
    ensures { IfOk result (λ e. kind_of e ≡ ValueValidation) }
{
    match asked {
        Asked::Command(Command::Walk(walk)) => no_such_actor(alloc, walk),
        _ => program(alloc)?.error(ErrorKind::ValueValidation, "a number is out of its limits"),
    }
}

/// What the words ask for; the first word is the program's name. The fault has the text and the status with which the
/// program ends.
pub fn read_words<S: AsStr>(alloc: Global, words: &[S]) -> Result<Asked, WordsFault>
    ensures said { IfOk result (λ asked. SayAsked (map S.text words.now) asked) }
    ensures within { IfOk result IsAskedWithin }
    ensures refused { IfErr result (λ fault. IsRefused (map S.text words.now) fault.error) }
{
    let asked = match parsed(alloc, words) {
        Ok(matches) => asked_of(&matches),
        Err(error) => return Err(WordsFault { error }),
    };
    if asked.is_within_limits() {
        return Ok(asked);
    }
    match out_of_limits(alloc, &asked) {
        Ok(error) => Err(WordsFault { error }),
        Err(refused) => Err(WordsFault {
            error: Error::from(refused),
        }),
    }
}
