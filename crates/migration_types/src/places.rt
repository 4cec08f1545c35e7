//! The lines of records in the text of a session.

ghost use Rattle.std.specs.Prelude.{◌≡◌, ◌+◌, ◌<◌, ◌≤◌, ◌^◌};
ghost use Rattle.migration_types.specs.Limits.{longest_log};
ghost use Rattle.migration_types.specs.Sessions.{line_of, log_length};
ghost use Rattle.migration_types.specs.inner.Places.{section_lines};

use crate::records::{LOGS, LogName};
use crate::session::Session;
use crate::version::lane_lines;

/// Returns how many lines the section of a log has.
fn section_lines(session: &Session, log: LogName) -> u32
    ensures value { result ≡ section_lines session.now log }
    ensures few { result ≤ longest_log + 1 }
{
    let count = session.len(log) as u32;
    match log {
        LogName::Lane => lane_lines(session.version(), count),
        _ => 1 + count,
    }
}

/// Returns the line of a log's first record, or the line where it would be.
#[tactic(auto, using(crate::specs::inner::InitPages::few_init, crate::proofs::Sectioned::first_behind))]
fn first_line(session: &Session, log: LogName) -> u32
    ensures value { result ≡ line_of session.now (log, 0) }
    ensures small { result < 2 ^ 31 }
{
    session.keeps_limits();
    let mut line = 6 + session.init().len() as u32;
    let all = LOGS;
    for n in 0..log.index() {
        line += section_lines(session, all[n]);
    }
    line
}

/// Returns the line of a record in a session's text. Lines count from 1. The record's place counts from 0, in its log.
/// Allocates no memory.
#[tactic(auto, using(crate::proofs::Sectioned::line_from))]
pub fn line_of(session: &Session, log: LogName, place: u32) -> u32
    requires { place < log_length session.now log }
    ensures { result ≡ line_of session.now (log, place) }
{
    let _few = session.len(log);
    first_line(session, log) + place
}
