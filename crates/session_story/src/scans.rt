//! Passes over a log that ask one question about each record.

ghost use Rattle.std.specs.Prelude.{◌≡◌, ◌<◌, ◌≤◌, ℕ, Bool, length};
ghost use Rattle.migration_types.specs.Limits.{longest_log};
ghost use Rattle.migration_types.specs.Sessions.{Recorded};
ghost use Rattle.page_facts.specs.Tables.{first_before};
ghost use Rattle.session_story.specs.Scans.{last_before, how_many};

use migration_types::Session;

/// A question about a record at its place in a log.
pub trait RecordQuestion {
    type Record;

    /// Whether the answer for the record of this number is yes.
    ghost holds: { Self → Recorded → ℕ → Self.Record → Bool };

    /// Returns whether the answer for the record of this number is yes. Allocates no memory.
    fn holds(&self, session: &Session, n: usize, rec: &Self::Record) -> bool
        requires { n < longest_log }
        ensures { result ≡ holds self.now session.now n rec.now };
}

/// Returns the place of the first record for which the answer is yes.
pub fn first_of<Q: RecordQuestion>(
    session: &Session,
    question: &Q,
    log: &[Q::Record],
) -> Option<u32>
    requires { length log.now ≤ longest_log }
    ensures { result ≡ first_before (Q.holds question.now session.now) log.now (length log.now) }
{
    for n in 0..log.len() {
        if question.holds(session, n, &log[n]) {
            return Some(n as u32);
        }
    }
    None
}

/// Returns the place of the last record before this one for which the answer is yes. Searches backwards.
pub fn last_of<Q: RecordQuestion>(
    session: &Session,
    question: &Q,
    log: &[Q::Record],
    to: usize,
) -> Option<u32>
    requires few { length log.now ≤ longest_log }
    requires within { to ≤ length log.now }
    ensures { result ≡ last_before (Q.holds question.now session.now) log.now to }
{
    let mut left = to;
    while left > 0 {
        left -= 1;
        if question.holds(session, left, &log[left]) {
            return Some(left as u32);
        }
    }
    None
}

/// Returns for how many records the answer is yes.
pub(crate) fn count_of<Q: RecordQuestion>(session: &Session, question: &Q, log: &[Q::Record]) -> u32
    requires { length log.now ≤ longest_log }
    ensures { result ≡ how_many (Q.holds question.now session.now) log.now (length log.now) }
{
    let mut count = 0;
    for n in 0..log.len() {
        if question.holds(session, n, &log[n]) {
            count += 1;
        }
    }
    count
}
