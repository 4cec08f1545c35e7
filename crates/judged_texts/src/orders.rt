//! The order that the text of a report gives.

ghost use Rattle.std.specs.Prelude.{◌<◌, ◌^◌};
ghost use Rattle.migration_types.specs.Sessions.{Recorded};
ghost use Rattle.audit_report.specs.Reports.{IsReport, ReportFits};
ghost use Rattle.judged_texts.specs.Ordered.{TellsOrder};

use audit_report::Report;

/// A law: a line's number has 32 bits. Runs nothing.
fn is_few(line: u32)
    ensures { line < 2 ^ 32 }
{
    let _ = line;
}

/// A law: the report on a session with a fault gives the order that shows the fault, and the report on a clean session
/// gives the order of its certificate. So `replay_texts` takes either as it is. Runs nothing.
pub fn reports_tell_orders(report: &Report)
    requires { ReportFits report.now }
    ensures { (s : Recorded) → IsReport s report.now → TellsOrder report.now }
{
    match report {
        Report::Clean(cert) => cert.keeps_limits(),
        Report::Faulty { line, .. } => is_few(*line),
        Report::Shape(_) | Report::Knot { .. } => {}
    }
}
