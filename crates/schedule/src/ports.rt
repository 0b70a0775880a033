//! All the bytes of a reader, and all the bytes into a writer.

ghost use Rattle.std.specs.Prelude.{◌≢◌, [], IfOk, IfErr};
ghost use Rattle.schedule.specs.Ports.{Tells, Writes, ReadsNoMore};

use schedule_text::ReplayFault;
use std::alloc::Global;
use std::io::{Read, Write};

/// As many bytes as are read at once, at most.
pub const PIECE: usize = 4096;

/// Reads to the end, and answers all the bytes that the reader had. `Read` at the first error, after which nothing more
/// is read; `Memory`.
pub fn read_whole<R: Read>(alloc: Global, reader: &mut R) -> Result<Vec<u8>, ReplayFault>
    ensures whole { IfOk result (λ text. Tells (R.remaining reader.old) text.items) }
    ensures fault { IfErr result (λ fault. ReadsNoMore (R.remaining reader.old) (R.remaining reader.new) fault) }
{
    let mut text = Vec::new(alloc);
    let mut buffer = [0u8; PIECE];
    // The language wants a bound for each loop. No input has that many pieces.
    for _ in 0..u64::MAX {
        match reader.read(&mut buffer) {
            Ok(0) => return Ok(text),
            Ok(len) => text.extend_from_slice(&buffer[..len])?,
            Err(_) => return Err(ReplayFault::Read),
        }
    }
    Err(ReplayFault::Read)
}

/// Writes all the bytes. `Write` at the first error, and where a write takes nothing: nothing more is written then.
pub fn write_whole<W: Write>(writer: &mut W, bytes: &[u8]) -> Result<(), ReplayFault>
    ensures written { Writes (W.contents writer.old) (W.contents writer.new) bytes.now result }
    // There was something to write.
    ensures some { IfErr result (λ fault. bytes.now ≢ []) }
{
    let mut rest = bytes;
    while !rest.is_empty() {
        match writer.write(rest) {
            Ok(0) | Err(_) => return Err(ReplayFault::Write),
            Ok(taken) => rest = &rest[taken..],
        }
    }
    Ok(())
}
