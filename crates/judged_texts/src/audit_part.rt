//! The text that is written for the audit of a session's text.

ghost use Rattle.std.specs.Prelude.{◌≡◌, IfOk};
ghost use Rattle.audit_report.specs.Reports.{ReportFits};
ghost use Rattle.judged_texts.specs.Audited.{AuditedFits};
ghost use Rattle.judged_texts.specs.AuditedText.{certificate_text, wanted_text, audited_text};

use crate::auditing::TextAudit;
use audit_report::{Report, print_first_line, print_refused_session, print_report};
use cert_text::write_cert;
use std::alloc::{AllocError, Global};

/// The part of an audit that is wanted.
#[derive(Clone, Copy)]
pub enum AuditPart {
    /// The report.
    Report,
    /// The certificate of a clean session, and for any other session the first line of the report.
    Certificate,
    /// The first line of the report.
    FirstLine,
}

/// Returns the certificate of a clean session, and for any other session the first line of the report. Fails only if
/// memory runs out.
fn certificate(alloc: Global, report: &Report) -> Result<Vec<u8>, AllocError>
    ensures { IfOk result (λ text. text.items ≡ certificate_text report.now) }
{
    match report {
        Report::Clean(cert) => write_cert(alloc, cert),
        Report::Shape(_) | Report::Knot { .. } | Report::Faulty { .. } => {
            print_first_line(alloc, report)
        }
    }
}

/// Returns the wanted part of a report. Each line ends with LF. Fails only if memory runs out.
pub fn print_wanted(
    alloc: Global,
    report: &Report,
    wanted: AuditPart,
) -> Result<Vec<u8>, AllocError>
    requires { ReportFits report.now }
    ensures { IfOk result (λ text. text.items ≡ wanted_text wanted report.now) }
{
    match wanted {
        AuditPart::Report => print_report(alloc, report),
        AuditPart::Certificate => certificate(alloc, report),
        AuditPart::FirstLine => print_first_line(alloc, report),
    }
}

/// Returns the wanted part of the audit of a text, or the line that says where the text is refused. Each line ends with
/// LF. Fails only if memory runs out.
pub fn print_audited(
    alloc: Global,
    audited: &TextAudit,
    wanted: AuditPart,
) -> Result<Vec<u8>, AllocError>
    requires { AuditedFits audited.now }
    ensures { IfOk result (λ text. text.items ≡ audited_text wanted audited.now) }
{
    match audited {
        TextAudit::Refused(line) => print_refused_session(alloc, *line),
        TextAudit::Reported(report) => print_wanted(alloc, report, wanted),
    }
}
