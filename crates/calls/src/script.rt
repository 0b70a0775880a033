//! A script from its first byte to its last one.

ghost use Rattle.std.specs.Prelude.{◌≡◌};
ghost use Rattle.rcu_hash.specs.domain.Naming.{Names};
ghost use Rattle.calls.specs.Script.{AnswersCalls, AnswersIn, AnswersLines, AnswersScript, sizes_of};

use crate::codes::Code;
use crate::lines::answer_lines;
use crate::sessions::{OfChains, OfMaps};
use call_text::{Header, front_header};
use gp_memb::{GracePlan, MembPlan};
use gp_qsbr::QsbrPlan;
use rcu_hash::{AnyChain, LiveConfig, Opened, Site, Tabled};
use schedule::{ReplayFault, read_whole};
use schedule_text::column_of;
use std::alloc::Global;
use std::io::{Read, Write};
use std::marker::Brand;
use std::sync::Wait;

/// Answers the lines on a domain whose chains updaters write.
fn answer_chains<P: GracePlan + Drop, B: Site, W: Write, H: Wait>(
    rt: &H,
    alloc: Global,
    opened: Opened<P, AnyChain>,
    queues: usize,
    text: &[u8],
    writer: &mut W,
) -> Result<(), ReplayFault>
    requires { Names B.Site opened }
    ensures { AnswersLines text.now (W.contents writer.old) (W.contents writer.new) result }
{
    let Ok((domain, record)) = opened.into_domain::<B, Code>(alloc) else {
        return Err(ReplayFault::Memory);
    };
    let Ok(mut session) = OfChains::new(alloc, &domain, record, queues) else {
        return Err(ReplayFault::Memory);
    };
    answer_lines(rt, alloc, &mut session, text, writer)
}

/// Answers the lines on a domain whose chains lists and tables write.
fn answer_maps<P: GracePlan + Drop, B: Site, W: Write, H: Wait>(
    rt: &H,
    alloc: Global,
    opened: Opened<P, Tabled>,
    queues: usize,
    text: &[u8],
    writer: &mut W,
) -> Result<(), ReplayFault>
    requires { Names B.Site opened }
    ensures { AnswersLines text.now (W.contents writer.old) (W.contents writer.new) result }
{
    let Ok((domain, record)) = opened.into_domain::<B, Code>(alloc) else {
        return Err(ReplayFault::Memory);
    };
    let Ok(mut session) = OfMaps::new(alloc, &domain, record, queues) else {
        return Err(ReplayFault::Memory);
    };
    answer_lines(rt, alloc, &mut session, text, writer)
}

/// How large the domain of a header is.
fn sizes(header: Header) -> LiveConfig
    ensures { result ≡ sizes_of header }
{
    LiveConfig {
        slots: header.slots as usize,
        queues: header.queues as usize,
        chains: header.chains as usize,
        pool: header.pool as usize,
    }
}

/// Makes the domain of the header, in its flavour, and answers the lines.
fn answer_in<P: GracePlan + Drop, W: Write, H: Wait>(
    rt: &H,
    alloc: Global,
    header: Header,
    text: &[u8],
    writer: &mut W,
) -> Result<(), ReplayFault>
    ensures { AnswersIn header text.now (W.contents writer.old) (W.contents writer.new) result }
{
    let config = sizes(header);
    if !config.is_supported() {
        return Err(ReplayFault::BadConfig);
    }
    let queues = config.queues;
    if header.maps {
        match Opened::<P, Tabled>::new(alloc, config) {
            Ok(opened) => answer_maps::<P, Brand, W, H>(rt, alloc, opened, queues, text, writer),
            Err(_) => Err(ReplayFault::Memory),
        }
    } else {
        match Opened::<P, AnyChain>::new(alloc, config) {
            Ok(opened) => answer_chains::<P, Brand, W, H>(rt, alloc, opened, queues, text, writer),
            Err(_) => Err(ReplayFault::Memory),
        }
    }
}

/// Answers a whole script.
fn answer_text<W: Write, H: Wait>(
    rt: &H,
    alloc: Global,
    text: &[u8],
    writer: &mut W,
) -> Result<(), ReplayFault>
    ensures { AnswersScript text.now (W.contents writer.old) (W.contents writer.new) result }
{
    match front_header(text) {
        Ok((header, rest)) => {
            if header.qsbr {
                answer_in::<QsbrPlan, W, H>(rt, alloc, header, rest, writer)
            } else {
                answer_in::<MembPlan, W, H>(rt, alloc, header, rest, writer)
            }
        }
        Err(bad) => {
            let column = column_of(text, bad);
            Err(ReplayFault::BadText { line: 1, column })
        }
    }
}

/// Reads a script to its end, makes each call on a domain of its own, on this thread, and writes the answer of each
/// line. `BadText` at the first byte with which no line of its place goes on, after the answers of the lines before;
/// `BadConfig`, `Read`, `Write` and `Memory` as they come: then nothing more is written.
pub fn answer_calls<R: Read, W: Write, H: Wait>(
    rt: &H,
    alloc: Global,
    reader: &mut R,
    writer: &mut W,
) -> Result<(), ReplayFault>
    ensures { AnswersCalls (R.remaining reader.old) (R.remaining reader.new) (W.contents writer.old) (W.contents writer.new) result }
{
    let text = read_whole(alloc, reader)?;
    answer_text(rt, alloc, &text, writer)
}
