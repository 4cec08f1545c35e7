//! Words about a run that cannot be taken, or about the records that no run takes.

use cert_check::run_at;
use merge_runs::{TakenCounts, goes_to};
use migration_types::{LogName, Run, Session, logs};
use std::alloc::AllocError;
use story_words::{log_word, push_place, push_record};

/// Returns how many records of each log these runs take.
fn taken_by(runs: &[Run]) -> TakenCounts {
    let mut taken = TakenCounts::nothing();
    for run in runs {
        let count = taken.of(run.log).saturating_add(run.count as usize);
        taken = taken.with(run.log, count);
    }
    taken
}

/// Appends how many records a log has, for a run that takes more.
fn push_past(out: &mut String, session: &Session, log: LogName) -> Result<(), AllocError> {
    let word = log_word(log);
    let count = session.len(log);
    write!(
        out,
        "the run takes {word} {count}, and the {word}'s log has "
    )?;
    match count {
        0 => out.push_str("no records"),
        1 => out.push_str("1 record (0)"),
        _ => {
            let last = count - 1;
            write!(out, "{count} records (0 to {last})")
        }
    }
}

/// Appends that a record must come after the one that it names, which is not taken yet.
fn push_early(
    out: &mut String,
    session: &Session,
    log: LogName,
    place: u32,
) -> Result<(), AllocError> {
    out.push_str("the run takes the session's ")?;
    push_record(out, session, log, place)?;
    if let Some((sent_log, sent_place)) = session.named((log, place)) {
        out.push_str("; it has to come after ")?;
        push_place(out, session, sent_log, sent_place)?;
        out.push_str(", which is not taken yet")?;
    }
    Ok(())
}

/// Appends the first record that a run cannot take after these, and why it cannot.
fn push_run(
    out: &mut String,
    session: &Session,
    taken: &TakenCounts,
    run: &Run,
) -> Result<(), AllocError> {
    let from = taken.of(run.log);
    let end = session.len(run.log);
    let to = from.saturating_add(run.count as usize).min(end);
    let at = goes_to(session, taken, run.log, from, to);
    if at < end {
        push_early(out, session, run.log, at as u32)
    } else {
        push_past(out, session, run.log)
    }
}

/// Appends how many more records of a log there are, if there are any.
fn push_more(out: &mut String, log: LogName, more: usize) -> Result<(), AllocError> {
    if more == 0 {
        return Ok(());
    }
    let word = log_word(log);
    write!(out, " and {more} more of the {word}")
}

/// Appends the records that are left after these: the first of each log, and how many more there are.
fn push_left(out: &mut String, session: &Session, taken: &TakenCounts) -> Result<(), AllocError> {
    let mut before = "no run takes the session's ";
    for log in logs() {
        let from = taken.of(log);
        let end = session.len(log);
        if from < end {
            out.push_str(before)?;
            push_place(out, session, log, from as u32)?;
            push_more(out, log, end - from - 1)?;
            before = ", ";
        }
    }
    Ok(())
}

/// Appends why the run at this line of the certificate cannot be taken. If the line is that of `end`, appends which
/// records no run takes.
pub(crate) fn push_runs(
    out: &mut String,
    session: &Session,
    runs: &[Run],
    line: u32,
) -> Result<(), AllocError> {
    let Some(place) = run_at(session.geometry().pages(), line) else {
        return Ok(());
    };
    let (before, rest) = runs.split_at((place as usize).min(runs.len()));
    let taken = taken_by(before);
    match rest.first() {
        Some(run) => push_run(out, session, &taken, run),
        None => push_left(out, session, &taken),
    }
}
