//! The audit of the text of a session.

ghost use Rattle.std.specs.Prelude.{IfOk};
ghost use Rattle.audit_model.specs.World.{IsSafe};
ghost use Rattle.judged_texts.specs.Checked.{SpellsOneSession, OfSpelled};
ghost use Rattle.judged_texts.specs.Audited.{IsAudited, HasReport, FindsClean, FindsFault, IsSafeExactlyIf, IsUnsafe, AuditedFits};
ghost use Rattle.judged_texts.specs.inner.Read.{IsReportOn};

use audit_report::{Report, audit_by};
use migration_types::Session;
use page_facts::OneThread;
use session_log::{read_session, session_texts_are_unambiguous};
use std::alloc::{AllocError, Global};

/// The result of the audit of a session's text.
#[derive(Drop)]
pub enum TextAudit {
    /// The text is refused at this line. Lines count from 1.
    Refused(u32),
    /// The report on the session that the text spells.
    Reported(Report),
}

/// Returns the report on a session that was read. Fails only if memory runs out.
fn reported(alloc: Global, session: &Session) -> Result<TextAudit, AllocError>
    ensures report { IfOk result (IsReportOn session.now) }
    ensures safe { IfOk result (λ audited. FindsClean audited → IsSafe session.now) }
    ensures exactly { IfOk result (λ audited. IsSafeExactlyIf (FindsClean audited) session.now) }
    ensures faulty { IfOk result (λ audited. FindsFault audited → IsUnsafe session.now) }
    ensures fits { IfOk result AuditedFits }
{
    match audit_by(&OneThread, alloc, session) {
        Ok(report) => Ok(TextAudit::Reported(report)),
        Err(error) => Err(error),
    }
}

/// Returns the report on the session that a text spells, or the line at which the text is refused.
///
/// If there is a report, the text spells exactly one session. If this session has the right shape and a merging, it is
/// safe exactly when the report is clean. If the report is clean, the session is safe, and if a page has a fault, it is
/// not.
///
/// The calling thread judges the pages alone, and waits for nobody. Nothing is assumed about who wrote the text. Fails
/// only if memory runs out, which may happen before the text is judged.
pub fn audit_text(alloc: Global, session: &[u8]) -> Result<TextAudit, AllocError>
    ensures audited { IfOk result (IsAudited session.now) }
    ensures one_session { IfOk result (λ audited. HasReport audited → SpellsOneSession session.now) }
    ensures safe { IfOk result (λ audited. FindsClean audited → OfSpelled session.now IsSafe) }
    ensures exactly { IfOk result (λ audited. OfSpelled session.now (IsSafeExactlyIf (FindsClean audited))) }
    ensures faulty { IfOk result (λ audited. FindsFault audited → OfSpelled session.now IsUnsafe) }
    ensures fits { IfOk result AuditedFits }
{
    session_texts_are_unambiguous();
    match read_session(alloc, session) {
        Ok(recorded) => reported(alloc, &recorded),
        Err(fault) => Ok(TextAudit::Refused(fault.refused_line()?)),
    }
}
