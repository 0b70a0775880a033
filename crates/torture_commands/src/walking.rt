//! Walks: schedules that are drawn and stepped line by line.

ghost use Rattle.std.specs.Prelude.{◌≡◌, ◌+◌, ◌<◌, ◌≤◌, length, Some, IsTrue, IfOk, IfErr, OnOk};
ghost use Rattle.world.specs.Actors.{objects_given};
ghost use Rattle.world.specs.Steps.{fresh_world, step_of};
ghost use Rattle.schedule_text.specs.declared.fault.ReplayFault.TheVariants.{Memory};
ghost use Rattle.schedule_text.specs.Spelling.{IsLine};
ghost use Rattle.torture_commands.specs.Limits.{is_walk_within};
ghost use Rattle.torture_commands.specs.Drawing.{seeded, draw_line};
ghost use Rattle.torture_commands.specs.Walking.{counts_text, verdict_text, walk_text, IsWalked, Walks, Schedules, Flushes};

use crate::checking::judge;
use crate::command::Walk;
use crate::drawing::Draw;
use rcu_judge::Verdict;
use rcu_model::Refusal;
use schedule::{Counts, PIECE, ReplayFault, print_header, print_line, write_whole};
use std::alloc::Global;
use std::fmt;
use std::io::Write;
use world::{Line, World};

/// A walk between two lines.
#[derive(Drop)]
struct Walking {
    world: World,
    draw: Draw,
}

impl Walking {
    /// A walk before its first line. `Memory`.
    fn new(alloc: Global, walk: &Walk) -> Result<Walking, ReplayFault>
        requires { IsTrue (is_walk_within walk.now) }
        ensures ok { IfOk result (λ walking. walking.world ≡ fresh_world walk.now.config) }
        ensures draw { IfOk result (λ walking. walking.draw ≡ seeded walk.now.seed) }
        ensures memory { IfErr result (λ fault. fault ≡ Memory) }
    {
        match World::new(alloc, walk.config) {
            Ok(world) => Ok(Walking {
                world,
                draw: Draw::new(walk.seed),
            }),
            // The config is within its limits.
            Err(_) => Err(ReplayFault::Memory),
        }
    }

    /// Draws the line of this number, which counts from 1, and steps it. `Memory`.
    fn step(&mut self, walk: &Walk, number: u32) -> Result<Line, ReplayFault>
        requires walk { IsTrue (is_walk_within walk.now) }
        requires given { objects_given self.old.world < 1000000 }
        ensures line { IfOk result IsLine }
        ensures drawn { IfOk result (λ line. (line, self.new.draw) ≡ draw_line walk.now number self.old.world self.old.draw) }
        ensures world { IfOk result (λ line. self.new.world ≡ (step_of self.old.world line).world) }
        ensures memory { IfErr result (λ fault. fault ≡ Memory) }
    {
        let line = self.draw.line(walk, number, &self.world);
        match self.world.step(&line) {
            Err(Refusal::Memory) => Err(ReplayFault::Memory),
            _ => Ok(line),
        }
    }
}

/// What is printed of the sections and objects of a walk.
#[derive(Clone, Copy, Drop)]
struct CountsText(Counts);

impl fmt::Display for CountsText {
    ghost output = { λ text. Some (counts_text text.0) };

    fn fmt<W: fmt::Write>(&self, f: &mut fmt::Formatter<W>) -> fmt::Result {
        let counts = self.0;
        write!(
            f,
            " open={} waiting={} run={}",
            counts.sections, counts.waiting, counts.runs
        )
    }
}

/// What is printed of the verdict on a walk.
#[derive(Clone, Copy, Drop)]
struct VerdictText(Verdict);

impl fmt::Display for VerdictText {
    ghost output = { λ text. Some (verdict_text text.0) };

    fn fmt<W: fmt::Write>(&self, f: &mut fmt::Formatter<W>) -> fmt::Result {
        match self.0 {
            Verdict::Yes => f.write_str(" verdict=yes\n"),
            Verdict::No { at, rule } => writeln!(f, " verdict=no event={at} rule={rule}"),
        }
    }
}

/// What is printed of a walk.
#[derive(Clone, Copy, Drop)]
struct WalkLine {
    lines: u32,
    events: usize,
    counts: CountsText,
    verdict: VerdictText,
}

impl fmt::Display for WalkLine {
    ghost output = { λ line. Some (walk_text line.lines line.events line.counts.0 line.verdict.0) };

    fn fmt<W: fmt::Write>(&self, f: &mut fmt::Formatter<W>) -> fmt::Result {
        write!(
            f,
            "walk lines={} events={}{}{}",
            self.lines, self.events, self.counts, self.verdict
        )
    }
}

/// The world of the walk after all its lines. `Memory`.
fn walked(alloc: Global, walk: &Walk) -> Result<World, ReplayFault>
    requires { IsTrue (is_walk_within walk.now) }
    ensures ok { IfOk result (λ world. IsWalked walk.now world) }
    ensures memory { IfErr result (λ fault. fault ≡ Memory) }
{
    let mut walking = Walking::new(alloc, walk)?;
    for done in 0..walk.lines {
        walking.step(walk, done + 1)?;
    }
    Ok(walking.world)
}

/// Draws and steps the lines, judges the log of the world, and writes one line: what happened, and the verdict, which
/// is yes. `Memory` writes nothing, and `Write` a beginning of that line.
pub fn walk<W: Write>(alloc: Global, walk: &Walk, writer: &mut W) -> Result<Verdict, ReplayFault>
    requires { IsTrue (is_walk_within walk.now) }
    ensures { Walks walk.now (W.contents writer.old) (W.contents writer.new) result }
{
    let world = walked(alloc, walk)?;
    let log = world.log();
    let verdict = judge(alloc, log)?;
    let line = WalkLine {
        lines: walk.lines,
        events: log.len(),
        counts: CountsText(Counts::of(log)),
        verdict: VerdictText(verdict),
    };
    let text = line.to_string(alloc)?;
    write_whole(writer, text.as_bytes())?;
    Ok(verdict)
}

/// Draws and steps the lines, and writes them as a schedule. They are written as they come: a few thousand bytes are
/// kept. `Write` and `Memory` write a beginning of it.
pub fn print_schedule<W: Write>(
    alloc: Global,
    walk: &Walk,
    writer: &mut W,
) -> Result<(), ReplayFault>
    requires { IsTrue (is_walk_within walk.now) }
    ensures { Schedules walk.now (W.contents writer.old) (W.contents writer.new) result }
{
    let mut walking = Walking::new(alloc, walk)?;
    let mut out = Vec::new(alloc);
    print_header(alloc, &walk.config, &mut out)?;
    for done in 0..walk.lines {
        let line = walking.step(walk, done + 1)?;
        print_line(alloc, &line, &mut out)?;
        flush_full(&mut out, writer)?;
    }
    write_whole(writer, &out)
}

/// Writes what is kept, and keeps it no longer, where it is a whole piece. `Write`.
fn flush_full<W: Write>(out: &mut Vec<u8>, writer: &mut W) -> Result<(), ReplayFault>
    ensures flushed { Flushes (W.contents writer.old) (W.contents writer.new) out.old.items out.new.items result }
    ensures less { OnOk result (length out.new.items < 4096) }
{
    if out.len() >= PIECE {
        write_whole(writer, out)?;
        out.clear();
    }
    Ok(())
}
