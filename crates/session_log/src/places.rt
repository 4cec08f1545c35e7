//! The lines of records in a session's text.

ghost use Rattle.std.specs.Prelude.{◌≡◌, ◌<◌, ◌-◌, slice_get};
ghost use Rattle.migration_types.specs.Sessions.{line_of, log_length};
ghost use Rattle.session_grammar.specs.Grammar.{session_lines, record_line};

use migration_types::{LogName, Session};

/// A law: the line that `migration_types::line_of` returns, counted from 1, is the line of the record in a session's
/// text. The record's place in its log counts from 0. Runs nothing.
#[tactic(auto, using(crate::proofs::RecordLines::line_at))]
pub fn has_its_line(session: &Session, log: LogName, place: u32)
    requires { place < log_length session.now log }
    ensures { slice_get (session_lines session.now) (line_of session.now (log, place) - 1) ≡ record_line session.now (log, place) }
{
    session.keeps_limits();
}
