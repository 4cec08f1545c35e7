//! Words for people about the part of a certificate that does not fit its session. They may change, and no program
//! should parse them.

ghost use Rattle.std.specs.Prelude.{◌≡◌, OnOk};
ghost use Rattle.judge_commands.specs.Misfits.{AddsMisfit, misfit_line};

use crate::misfit_entries::push_entry;
use crate::misfit_runs::push_runs;
use cert_check::Verdict;
use migration_types::{Cert, Session};
use refusal_words::push_at;
use std::alloc::AllocError;

/// The line of a certificate's text that has its number of pages.
const PAGES_LINE: u32 = 2;

/// Returns the line of the certificate that does not fit, if the verdict is about one.
fn misfit_line(verdict: Verdict) -> Option<u32>
    ensures { result ≡ misfit_line verdict }
{
    match verdict {
        Verdict::Pages => Some(PAGES_LINE),
        Verdict::Runs(line) | Verdict::Page(line) => Some(line),
        Verdict::SessionText(_) | Verdict::CertText(_) | Verdict::Shape(_) | Verdict::Yes => None,
    }
}

/// Appends that the session and the certificate have different numbers of pages.
fn push_pages(out: &mut String, session: &Session, cert: &Cert) -> Result<(), AllocError> {
    let found = cert.entries().len();
    let wanted = session.geometry().pages();
    write!(
        out,
        "found \"pages {found}\"; expected \"pages {wanted}\", as in the session"
    )
}

/// Appends what does not fit.
fn push_words(
    out: &mut String,
    session: &Session,
    cert: &Cert,
    verdict: Verdict,
) -> Result<(), AllocError> {
    match verdict {
        Verdict::Pages => push_pages(out, session, cert),
        Verdict::Runs(line) => push_runs(out, session, cert.runs(), line),
        Verdict::Page(line) => push_entry(out, session, cert.entries(), line),
        Verdict::SessionText(_) | Verdict::CertText(_) | Verdict::Shape(_) | Verdict::Yes => Ok(()),
    }
}

/// Appends one line that says why a certificate does not fit its session, if the verdict is about a line of the
/// certificate. It begins with `NAME:LINE: `, where `NAME` is the name of the certificate. For an entry it says what
/// the logs say, which takes a few passes over them and memory for one page. For a run it takes one pass over the runs.
/// Fails only if memory runs out.
pub fn push_misfit(
    out: &mut Vec<u8>,
    name: &[u8],
    session: &Session,
    cert: &Cert,
    verdict: Verdict,
) -> Result<(), AllocError>
    ensures { OnOk result (AddsMisfit name.now verdict out.old.items out.new.items) }
{
    let Some(line) = misfit_line(verdict) else {
        return Ok(());
    };
    let mut words = String::new(*out.allocator());
    push_words(&mut words, session, cert, verdict)?;
    push_at(out, name, line, words.as_bytes())
}
