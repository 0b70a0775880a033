//! Logs that are read and judged, and schedules that are read.

use crate::ledger::{Call, Finding, Ledger};
use crate::rows::{Worked, schedule_of};
use rcu_judge::{Rule, Verdict, check_log};
use rcu_model::Event;
use schedule::{read_answers, read_line, read_schedule};
use std::alloc::{AllocError, Global};
use world::Flavour;

const FLAVOURS: [Flavour; 2] = [Flavour::Memb, Flavour::Qsbr];

/// The log that the answers of a worked schedule tell.
fn log_of(alloc: Global, ledger: &mut Ledger, worked: &Worked) -> Result<Vec<Event>, Finding> {
    let printed = ledger.again(Call::Own, || worked.printed(alloc))?;
    let log = ledger.again(Call::ReadAnswers, || read_answers(alloc, &printed))?;
    if log.len() == worked.events {
        Ok(log)
    } else {
        Err(Finding::Wrong(Call::ReadAnswers))
    }
}

/// Reads the answers of the worked schedules.
pub fn read_logs(alloc: Global, ledger: &mut Ledger) -> Result<u64, Finding> {
    let mut events = 0u64;
    for flavour in FLAVOURS {
        let log = log_of(alloc, ledger, &schedule_of(flavour))?;
        events = events.saturating_add(log.len() as u64);
    }
    Ok(events)
}

/// Judges a log, which has to be judged so.
fn check(
    alloc: Global,
    ledger: &mut Ledger,
    log: &[Event],
    wanted: Verdict,
) -> Result<(), Finding> {
    let verdict = ledger.again(Call::CheckLog, || check_log(alloc, log))?;
    if verdict == wanted {
        Ok(())
    } else {
        Err(Finding::Wrong(Call::CheckLog))
    }
}

/// The log, and its first event once more.
fn with_first_twice(alloc: Global, log: &[Event]) -> Result<Vec<Event>, AllocError> {
    let mut twice = log.to_vec(alloc)?;
    if let Some(first) = log.first() {
        twice.push(*first)?;
    }
    Ok(twice)
}

/// Judges the logs of the worked schedules, and each with its first event once more, which opens or pushes again.
pub fn check_logs(alloc: Global, ledger: &mut Ledger) -> Result<u64, Finding> {
    let mut judged = 0u64;
    for (flavour, rule) in [
        (Flavour::Memb, Rule::Publishing),
        (Flavour::Qsbr, Rule::Section),
    ] {
        let log = log_of(alloc, ledger, &schedule_of(flavour))?;
        check(alloc, ledger, &log, Verdict::Yes)?;
        let at = log.len() + 1;
        let twice = ledger.again(Call::Own, || with_first_twice(alloc, &log))?;
        check(alloc, ledger, &twice, Verdict::No { at, rule })?;
        judged = judged.saturating_add(2);
    }
    Ok(judged)
}

/// Reads the texts of the worked schedules.
pub fn read_schedules(alloc: Global, ledger: &mut Ledger) -> Result<u64, Finding> {
    let mut lines = 0u64;
    for flavour in FLAVOURS {
        let worked = schedule_of(flavour);
        let text = ledger.again(Call::Own, || worked.text(alloc))?;
        let schedule = ledger.again(Call::ReadSchedule, || read_schedule(alloc, &text))?;
        let are_same = schedule
            .lines
            .iter()
            .zip(worked.rows)
            .all(|(line, row)| read_line(row.0.as_bytes()) == Ok(*line));
        if schedule.config != worked.config
            || schedule.lines.len() != worked.rows.len()
            || !are_same
        {
            return Err(Finding::Wrong(Call::ReadSchedule));
        }
        lines = lines.saturating_add(schedule.lines.len() as u64);
    }
    Ok(lines)
}
