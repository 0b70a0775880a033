//! A whole schedule.

ghost use Rattle.std.specs.Prelude.{◌≡◌, IsTrue, IfOk, IfErr};
ghost use Rattle.world_state.specs.Limits.{is_within_limits};
ghost use Rattle.schedule_text.specs.Header.{header};
ghost use Rattle.schedule_text.specs.Whole.{IsWhole, IsNoSchedule, AreLines, IsNoLines};

use crate::fault::ScheduleFault;
use crate::header::front_header;
use crate::reading::{column_of, front_line};
use std::alloc::Global;
use world_state::{Config, Line};

/// What the text of a schedule says.
#[derive(Debug, Drop)]
pub struct Schedule {
    /// What its header says.
    pub config: Config,
    /// The lines after the header, in order.
    pub lines: Vec<Line>,
}

/// The lines that the text is.
fn read_lines(alloc: Global, text: &[u8]) -> Result<Vec<Line>, ScheduleFault>
    ensures found { IfOk result (λ lines. AreLines text.now lines.items) }
    ensures fault { IfErr result (λ fault. IsNoLines text.now fault) }
{
    let mut lines = Vec::new(alloc);
    let mut rest = text;
    while !rest.is_empty() {
        match front_line(rest) {
            Ok((line, after)) => {
                lines.push(line)?;
                rest = after;
            }
            Err(bad) => {
                return Err(ScheduleFault::BadText {
                    line: (lines.len() as u64).saturating_add(2),
                    column: column_of(rest, bad),
                });
            }
        }
    }
    Ok(lines)
}

/// The schedule that the text is. `BadText` at the first byte with which no line of its place goes on, or after a line
/// that has no end; `BadConfig` where the header ends and a number of it is out of its limits; `Memory`.
pub fn read_schedule(alloc: Global, text: &[u8]) -> Result<Schedule, ScheduleFault>
    ensures found { IfOk result (λ schedule. IsWhole text.now schedule.config schedule.lines.items) }
    ensures fault { IfErr result (λ fault. IsNoSchedule text.now fault) }
{
    match front_header(text) {
        Ok((config, rest)) => {
            if !config.is_within_limits() {
                return Err(ScheduleFault::BadConfig);
            }
            let lines = read_lines(alloc, rest)?;
            Ok(Schedule { config, lines })
        }
        Err(bad) => Err(ScheduleFault::BadText {
            line: 1,
            column: column_of(text, bad),
        }),
    }
}
