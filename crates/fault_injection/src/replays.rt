//! Replays that are refused memory in the middle.

use crate::ledger::{Call, Finding, Ledger};
use crate::rows::schedule_of;
use schedule::{Replay, ReplayFault, replay};
use std::alloc::Global;
use world::Flavour;

/// How many bytes are fed at once.
const PIECE: usize = 7;

/// How a replay ended, where it is as it has to be.
#[derive(Clone, Copy, PartialEq, Eq, Drop)]
enum Ended {
    /// It printed all.
    Whole,
    /// It was refused memory, after a beginning of what it prints.
    Refused,
}

/// Feeds the text in pieces and ends it.
fn fed(replay: &mut Replay, text: &[u8], out: &mut Vec<u8>) -> Result<(), (Call, ReplayFault)> {
    for piece in text.chunks(PIECE) {
        if let Err(fault) = replay.feed(piece, out) {
            return Err((Call::Feed, fault));
        }
    }
    match replay.finish(out) {
        Ok(_) => Ok(()),
        Err(fault) => Err((Call::Finish, fault)),
    }
}

/// Replays the text in pieces. After a refusal every call answers it, and what was written is a beginning of what the
/// text prints.
fn replay_once(
    alloc: Global,
    ledger: &mut Ledger,
    text: &[u8],
    printed: &[u8],
) -> Result<Ended, Finding> {
    let mut replay = Replay::new(alloc);
    let mut out = Vec::new(alloc);
    match fed(&mut replay, text, &mut out) {
        Ok(()) if out.as_slice() == printed => Ok(Ended::Whole),
        Err((call, ReplayFault::Memory)) => {
            ledger.note(call);
            let written = out.len();
            let refused_again = replay.feed(b"r0 lock\n", &mut out) == Err(ReplayFault::Memory)
                && replay.finish(&mut out) == Err(ReplayFault::Memory);
            if refused_again && out.len() == written && printed.starts_with(&out) {
                Ok(Ended::Refused)
            } else {
                Err(Finding::Changed(call))
            }
        }
        _ => Err(Finding::Wrong(Call::Feed)),
    }
}

/// Replays the text from a reader into a writer that has room.
fn stream_once(
    alloc: Global,
    ledger: &mut Ledger,
    text: &[u8],
    printed: &[u8],
) -> Result<Ended, Finding> {
    let room = printed.len();
    let mut out: Vec<u8> = ledger.again(Call::Own, || Vec::with_capacity(alloc, room))?;
    let mut reader = text;
    match replay(alloc, &mut reader, &mut out) {
        Ok(_) if out.as_slice() == printed => Ok(Ended::Whole),
        Err(ReplayFault::Memory) if printed.starts_with(&out) => {
            ledger.note(Call::Replay);
            Ok(Ended::Refused)
        }
        _ => Err(Finding::Wrong(Call::Replay)),
    }
}

/// How a text is given to a replay.
#[derive(Clone, Copy, Drop)]
pub enum Way {
    /// By `feed`, in pieces, and `finish`.
    Pieces,
    /// By `replay`, from a reader into a writer.
    Stream,
}

impl Way {
    /// The call that is told where a replay is refused memory twice.
    fn call(self) -> Call {
        match self {
            Way::Pieces => Call::Feed,
            Way::Stream => Call::Replay,
        }
    }

    /// Replays the text once.
    fn once(
        self,
        alloc: Global,
        ledger: &mut Ledger,
        text: &[u8],
        printed: &[u8],
    ) -> Result<Ended, Finding> {
        match self {
            Way::Pieces => replay_once(alloc, ledger, text, printed),
            Way::Stream => stream_once(alloc, ledger, text, printed),
        }
    }
}

/// Replays the worked schedule, and again from its beginning where it was refused memory.
pub fn replay_worked(
    alloc: Global,
    ledger: &mut Ledger,
    flavour: Flavour,
    way: Way,
) -> Result<u64, Finding> {
    let worked = schedule_of(flavour);
    let text = ledger.again(Call::Own, || worked.text(alloc))?;
    let printed = ledger.again(Call::Own, || worked.printed(alloc))?;
    if way.once(alloc, ledger, &text, &printed)? == Ended::Refused
        && way.once(alloc, ledger, &text, &printed)? == Ended::Refused
    {
        return Err(Finding::RefusedAgain(way.call()));
    }
    Ok(worked.rows.len() as u64)
}
