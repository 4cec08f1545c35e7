//! The line of a record, and the record at a line.

ghost use Rattle.std.specs.Prelude.{◌≤◌, MatchOption};
ghost use Rattle.audit_model.specs.Names.{log_length};
ghost use Rattle.session_story.specs.Places.{HasNoneOf, HasNoRecord, IsAtLineOf};

use migration_types::{LogName, Session, line_of};

/// Returns the line of the record of this number in a log, or `None` if the log has no such record. Allocates no
/// memory.
pub fn line_at(session: &Session, log: LogName, place: u32) -> Option<u32>
    ensures { MatchOption result (log_length session.now log ≤ place) (λ line. IsAtLineOf session.now log line place) }
{
    if (place as usize) < session.len(log) {
        Some(line_of(session, log, place))
    } else {
        None
    }
}

/// Returns the record of a log at this line, if there is one.
#[tactic(auto, using(migration_types::proofs::Sectioned::line_from))]
fn record_in(session: &Session, log: LogName, line: u32) -> Option<(LogName, u32)>
    ensures { MatchOption result (HasNoneOf session.now line log) (λ name. IsAtLineOf session.now name.0 line name.1) }
{
    let first = line_at(session, log, 0)?;
    if line < first || (line - first) as usize >= session.len(log) {
        return None;
    }
    Some((log, line - first))
}

/// Returns the record at this line of a session's text, by its log and its number there, or `None` if there is no
/// record at the line. Allocates no memory.
pub fn record_on(session: &Session, line: u32) -> Option<(LogName, u32)>
    ensures { MatchOption result (HasNoRecord session.now line) (λ name. IsAtLineOf session.now name.0 line name.1) }
{
    if let Some(name) = record_in(session, LogName::Guest, line) {
        return Some(name);
    }
    if let Some(name) = record_in(session, LogName::Source, line) {
        return Some(name);
    }
    if let Some(name) = record_in(session, LogName::Link, line) {
        return Some(name);
    }
    if let Some(name) = record_in(session, LogName::Lane, line) {
        return Some(name);
    }
    record_in(session, LogName::Pager, line)
}
