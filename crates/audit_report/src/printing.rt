//! The text of a report, and the line that says where a text is refused.

ghost use Rattle.std.specs.Prelude.{◌≡◌, [], ◌∷◌, ◌++◌, IfOk, OnOk};
ghost use Rattle.text_lines.specs.Text.{ended};
ghost use Rattle.audit_report.specs.Reports.{ReportFits};
ghost use Rattle.audit_report.specs.RefusalText.{refusal_text, certificate_refusal_text};
ghost use Rattle.audit_report.specs.ReportText.{first_line, first_line_by, lines_behind, report_text, shape_line, shape_line_by};

use crate::Report;
use crate::lines::{Lines, OwnLines};
use cert_check::ShapeFault;
use cert_text::{CLEAN, FAULTY, push_cert, push_runs_text};
use std::alloc::{AllocError, Global};
use text_lines::{push_keyed, push_keyed_word, push_line};

const SESSION_TEXT: &[u8] = b"session-text line ";

const CERT_TEXT: &[u8] = b"certificate-text line ";

const SHAPE: &[u8] = b"shape line ";

const KNOT: &[u8] = b"knot line ";

/// Appends the line that says where the text of a session is refused, with its line number from `lines`. Fails only if
/// memory runs out.
pub fn push_refused_session_by<L: Lines>(
    out: &mut Vec<u8>,
    lines: &L,
    line: u32,
) -> Result<(), AllocError>
    ensures { OnOk result (out.new.items ≡ out.old.items ++ refusal_text (L.tell lines.now line)) }
{
    push_keyed(out, SESSION_TEXT, lines.line(line))
}

/// Appends the line that says where the text of a session is refused. Fails only if memory runs out.
pub fn push_refused_session(out: &mut Vec<u8>, line: u32) -> Result<(), AllocError>
    ensures { OnOk result (out.new.items ≡ out.old.items ++ refusal_text line) }
{
    push_refused_session_by(out, &OwnLines, line)
}

/// Returns the line that says where the text of a session is refused. Fails only if memory runs out.
pub fn print_refused_session(alloc: Global, line: u32) -> Result<Vec<u8>, AllocError>
    ensures { IfOk result (λ out. out.items ≡ refusal_text line) }
{
    let mut out = Vec::new(alloc);
    push_refused_session(&mut out, line)?;
    Ok(out)
}

/// Appends the line that says where the text of a certificate is refused. Fails only if memory runs out.
pub fn push_refused_certificate(out: &mut Vec<u8>, line: u32) -> Result<(), AllocError>
    ensures { OnOk result (out.new.items ≡ out.old.items ++ certificate_refusal_text line) }
{
    push_keyed(out, CERT_TEXT, line)
}

/// Appends the line of a fault of shape, with its line number from `lines`.
fn push_shape_by<L: Lines>(
    out: &mut Vec<u8>,
    lines: &L,
    fault: &ShapeFault,
) -> Result<(), AllocError>
    ensures { OnOk result (out.new.items ≡ out.old.items ++ ended (shape_line_by (L.tell lines.now) fault.now ∷ [])) }
{
    push_keyed_word(out, SHAPE, lines.line(fault.line), fault.reason.word())
}

/// Appends the line of a fault of shape. Fails only if memory runs out.
pub fn push_shape(out: &mut Vec<u8>, fault: &ShapeFault) -> Result<(), AllocError>
    ensures { OnOk result (out.new.items ≡ out.old.items ++ ended (shape_line fault.now ∷ [])) }
{
    push_shape_by(out, &OwnLines, fault)
}

/// Appends the first line of a report, with its line number from `lines`. Fails only if memory runs out.
pub fn push_first_line_by<L: Lines>(
    out: &mut Vec<u8>,
    lines: &L,
    report: &Report,
) -> Result<(), AllocError>
    ensures { OnOk result (out.new.items ≡ out.old.items ++ ended (first_line_by (L.tell lines.now) report.now ∷ [])) }
{
    match report {
        Report::Clean(_) => push_line(out, CLEAN),
        Report::Shape(fault) => push_shape_by(out, lines, fault),
        Report::Knot { left, .. } => push_keyed(out, KNOT, lines.line(left.line)),
        Report::Faulty { line, fault, .. } => {
            push_keyed_word(out, FAULTY, lines.line(*line), fault.reason.word())
        }
    }
}

/// Appends the first line of a report. Fails only if memory runs out.
pub fn push_first_line(out: &mut Vec<u8>, report: &Report) -> Result<(), AllocError>
    ensures { OnOk result (out.new.items ≡ out.old.items ++ ended (first_line report.now ∷ [])) }
{
    push_first_line_by(out, &OwnLines, report)
}

/// Returns the first line of a report. Fails only if memory runs out.
pub fn print_first_line(alloc: Global, report: &Report) -> Result<Vec<u8>, AllocError>
    ensures { IfOk result (λ out. out.items ≡ ended (first_line report.now ∷ [])) }
{
    let mut out = Vec::new(alloc);
    push_first_line(&mut out, report)?;
    Ok(out)
}

/// Appends the text after the first line: the certificate's text if the report is clean, that of the order's runs if a
/// page has a fault, and otherwise nothing.
fn push_behind(out: &mut Vec<u8>, report: &Report) -> Result<(), AllocError>
    requires { ReportFits report.now }
    ensures { OnOk result (out.new.items ≡ out.old.items ++ ended (lines_behind report.now)) }
{
    match report {
        Report::Clean(cert) => push_cert(out, cert),
        Report::Faulty { order, .. } => push_runs_text(out, order.as_slice()),
        Report::Shape(_) | Report::Knot { .. } => Ok(()),
    }
}

/// Returns the text of a report: its first line, and then the certificate's text if it is clean, or the text of the
/// order's runs if a page has a fault. Each line ends with LF. Fails only if memory runs out.
pub fn print_report(alloc: Global, report: &Report) -> Result<Vec<u8>, AllocError>
    requires { ReportFits report.now }
    ensures { IfOk result (λ out. out.items ≡ report_text report.now) }
{
    let mut out = print_first_line(alloc, report)?;
    push_behind(&mut out, report)?;
    Ok(out)
}
