//! The counts of a run, written and judged.

ghost use Rattle.std.specs.Prelude.{◌≡◌, Some};
ghost use Rattle.torture_run.specs.Running.{Runs, are_right, counts_text, is_whole};

use crate::asked::Run;
use crate::fault::RunFault;
use live_load::{Counts, Target};
use schedule::write_whole;
use std::alloc::Global;
use std::fmt;
use std::io::Write;

/// What is printed of the counts of a run on this target.
#[derive(Clone, Copy, Drop)]
struct CountsLine {
    target: Target,
    counts: Counts,
}

impl fmt::Display for CountsLine {
    ghost output = { λ line. Some (counts_text line.target line.counts) };

    fn fmt<W: fmt::Write>(&self, f: &mut fmt::Formatter<W>) -> fmt::Result {
        let Counts {
            retired,
            finished,
            mixed,
            ..
        } = self.counts;
        match self.target {
            Target::Chains => writeln!(
                f,
                "run retired={retired} finished={finished} mixed={mixed}"
            ),
            Target::Lists => writeln!(
                f,
                "run lists retired={retired} finished={finished} wrong={mixed}"
            ),
            Target::Tables => writeln!(
                f,
                "run tables retired={retired} finished={finished} wrong={mixed}"
            ),
            Target::Growth => writeln!(
                f,
                "run growth retired={retired} finished={finished} wrong={mixed}"
            ),
        }
    }
}

/// Whether as many were retired as the updaters retire in all their rounds; a table that grows retires more.
fn is_whole(run: &Run, retired: u64) -> bool
    ensures { result ≡ is_whole run.now retired }
{
    let whole = u64::from(run.load.updaters) * u64::from(run.load.rounds);
    match run.target {
        Target::Growth => whole <= retired,
        _ => whole == retired,
    }
}

/// Whether the counts are those of a run without a fault: all that was retired has run, no reader found what it should
/// not, nobody ended because no record became free, and where no time was said each updater made all its rounds.
pub(crate) fn are_right(run: &Run, counts: Counts) -> bool
    ensures { result ≡ are_right run.now counts }
{
    counts.retired == counts.finished
        && counts.mixed == 0
        && counts.starved == 0
        && (run.load.seconds.is_some() || is_whole(run, counts.retired))
}

/// Writes the counts of a run on this target as one line. `Memory` writes nothing, and `Write` a beginning of that line.
pub fn write_counts<W: Write>(
    alloc: Global,
    target: Target,
    counts: Counts,
    writer: &mut W,
) -> Result<Counts, RunFault>
    ensures { Runs target counts (W.contents writer.old) (W.contents writer.new) result }
{
    let text = CountsLine { target, counts }.to_string(alloc)?;
    match write_whole(writer, text.as_bytes()) {
        Ok(()) => Ok(counts),
        Err(_) => Err(RunFault::Write),
    }
}
