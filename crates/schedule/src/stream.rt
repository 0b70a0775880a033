//! A schedule that comes from a reader, replayed into a writer.

ghost use Rattle.std.specs.Prelude.{◌≡◌, ◌≤◌, length, IfErr};
ghost use Rattle.schedule.specs.Ports.{Passes, Closes, Replays};

use crate::feeding::Replay;
use crate::laws::each_text_reclaims_safely;
use crate::ports::{PIECE, write_whole};
use schedule_text::{Counts, ReplayFault};
use std::alloc::Global;
use std::io::{Read, Write};

/// Feeds a piece, and writes what it gives.
fn pass<W: Write>(
    replay: &mut Replay,
    piece: &[u8],
    out: &mut Vec<u8>,
    writer: &mut W,
) -> Result<(), ReplayFault>
    ensures { Passes replay.old replay.new piece.now (W.contents writer.old) (W.contents writer.new) result }
{
    out.clear();
    let fed = replay.feed(piece, out);
    write_whole(writer, out)?;
    fed
}

/// Ends the input, and writes what that gives.
fn close<W: Write>(
    replay: &mut Replay,
    out: &mut Vec<u8>,
    writer: &mut W,
) -> Result<Counts, ReplayFault>
    ensures { Closes replay.old (W.contents writer.old) (W.contents writer.new) result }
{
    out.clear();
    let counts = replay.finish(out);
    write_whole(writer, out)?;
    counts
}

/// Reads a schedule to its end, writes the answer of each line and then the end line, and answers the counts of that
/// line. What each piece gives is written before the next one is read. `BadText`, `BadConfig`, `Read`, `Write` and
/// `Memory` as they come: nothing is read or written again after an error. What is written tells one safe log, also
/// after a fault, where less than a line may follow.
pub fn replay<R: Read, W: Write>(
    alloc: Global,
    reader: &mut R,
    writer: &mut W,
) -> Result<Counts, ReplayFault>
    ensures { Replays (R.remaining reader.old) (R.remaining reader.new) (W.contents writer.old) (W.contents writer.new) result }
{
    each_text_reclaims_safely();
    let mut replay = Replay::new(alloc);
    let mut out = Vec::new(alloc);
    let mut buffer = [0u8; PIECE];
    // The language wants a bound for each loop. No input has that many pieces.
    for _ in 0..u64::MAX {
        match reader.read(&mut buffer) {
            Ok(0) => return close(&mut replay, &mut out, writer),
            Ok(len) => pass(&mut replay, &buffer[..len], &mut out, writer)?,
            Err(_) => return Err(ReplayFault::Read),
        }
    }
    Err(ReplayFault::Read)
}
