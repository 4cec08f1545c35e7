//! The line that says what is missing from a session.

ghost use Rattle.std.specs.Prelude.{◌≡◌, ◌++◌, OnOk};
ghost use Rattle.migration_types.specs.Sessions.{line_of};
ghost use Rattle.completeness.specs.Complete.{IsFirstMissing};
ghost use Rattle.audit_report.specs.MissingText.{missing_text};

use crate::lines::Lines;
use completeness::Lack;
use migration_types::{LogName, Session, line_of};
use std::alloc::AllocError;
use text_lines::{push_keyed, push_line};

/// Returns the line of the pager's record of this number. The first thing that is missing from the session must be the
/// `place` or the `skip` of the packet that this record took.
pub fn line_of_taken(session: &Session, n: u32) -> u32
    requires { IsFirstMissing session.now (Lack.Taken n) }
    ensures { result ≡ line_of session.now (LogName.Pager, n) }
{
    line_of(session, LogName::Pager, n)
}

/// Appends the line that says what is missing from a session, with its line numbers from `lines`. Fails only if memory
/// runs out.
pub fn push_missing<L: Lines>(
    out: &mut Vec<u8>,
    lines: &L,
    session: &Session,
    missing: Lack,
) -> Result<(), AllocError>
    requires { IsFirstMissing session.now missing }
    ensures { OnOk result (out.new.items ≡ out.old.items ++ missing_text (L.tell lines.now) session.now missing) }
{
    match missing {
        Lack::Halt => push_line(out, b"incomplete halt"),
        Lack::Returned => push_line(out, b"incomplete returned"),
        Lack::Resume => push_line(out, b"incomplete resume"),
        Lack::Page(page) => push_keyed(out, b"incomplete page ", page.number()),
        Lack::All => push_line(out, b"incomplete all"),
        Lack::Done => push_line(out, b"incomplete done"),
        Lack::Taken(n) => {
            let line = line_of_taken(session, n);
            push_keyed(out, b"incomplete line ", lines.line(line))
        }
    }
}
