//! The plan of a picture, with the story on a topic.

ghost use Rattle.std.specs.Prelude.{IfOk};
ghost use Rattle.audit_report.specs.Reports.{IsReport};
ghost use Rattle.order_picture.specs.Pictures.{IsPicture, IsPictureOf};

use crate::picture::{Picture, plan_told};
use audit_report::Report;
use cert_maker::found_runs;
use migration_types::{Run, Session, Topic};
use session_story::tell;
use std::alloc::{AllocError, Global};

/// Returns the picture of a session's records along runs, with the story on a topic. It has all records if the runs
/// spell a merging, and otherwise those that the runs before the first bad one take. Fails only if memory runs out.
pub fn plan_along(
    alloc: Global,
    session: &Session,
    report: &Report,
    topic: Topic,
    runs: &[Run],
) -> Result<Picture, AllocError>
    requires { IsReport session.now report.now }
    ensures { IfOk result (IsPictureOf session.now report.now topic runs.now) }
{
    let told = tell(alloc, session, report, topic)?;
    plan_told(alloc, session, report, told, runs)
}

/// Returns the picture of a report, with the story on a topic. It goes along the runs that show the report's fault, or
/// that lead to its knot. For a clean session, it goes along those of its certificate, and for a session that does not
/// have the right shape, along the found order as far as it goes. Makes the passes and allocates the memory that
/// [`tell`] does. Also makes a few passes over the records, and allocates memory for the names of the records and two
/// flags for each. Fails only if memory runs out.
pub fn plan_on(
    alloc: Global,
    session: &Session,
    report: &Report,
    topic: Topic,
) -> Result<Picture, AllocError>
    requires { IsReport session.now report.now }
    ensures { IfOk result (IsPicture session.now report.now topic) }
{
    match report {
        Report::Faulty { order, .. } => plan_along(alloc, session, report, topic, order.as_slice()),
        Report::Clean(cert) => plan_along(alloc, session, report, topic, cert.runs()),
        Report::Knot { found, .. } => {
            plan_along(alloc, session, report, topic, found.runs.as_slice())
        }
        Report::Shape(_) => {
            let made = found_runs(alloc, session)?;
            plan_along(alloc, session, report, topic, made.runs.as_slice())
        }
    }
}
