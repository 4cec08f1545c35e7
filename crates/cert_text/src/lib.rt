//! Texts of certificates and of runs: writing one, reading one, or finding its refusal line. Also texts that give an
//! order of a session's records: a text of runs, a certificate, or a report of an audit that contains one of these.
//! From each, the order is read as runs.
#![tactic(auto)]

ghost use Rattle.std.specs.Prelude.{◌≡◌, ◌∷◌, ◌++◌, List, ℕ, IfOk, OnOk};
ghost use Rattle.text_lines.specs.Answer.{Reads};
ghost use Rattle.text_lines.specs.Text.{ended, IsSpelling, IsUnambiguous};
ghost use Rattle.migration_types.specs.declared.cert.Run.{Run as Told};
ghost use Rattle.migration_types.specs.declared.version.Version.TheVariants.{Two};
ghost use Rattle.migration_types.specs.declared.size.Size.TheVariants.{Large};
ghost use Rattle.migration_types.specs.Certs.{AreRuns};
ghost use Rattle.cert_text.specs.Grammar.{cert_lines, SpellsCert};
ghost use Rattle.cert_text.specs.Order.{SpellsOrder};
ghost use Rattle.cert_text.specs.Runs.{runs_text_header, runs_lines, SpellsRuns};

use migration_types::{Cert, Run, Seq};
use std::alloc::{AllocError, Global};
use text_lines::{Staged, TextFault, TextReader, push_keyed, push_line, read_whole};

mod cert_lines;
mod cert_runs;
mod entry_lines;
mod first_lines;
mod forms;
mod order_lines;
mod run_lines;
mod runs;
mod runs_text;

pub use cert_lines::cert_header;
use cert_lines::{CertParts, PAGES_KEY};
use cert_runs::CertRunsParts;
use entry_lines::push_entries;
pub use entry_lines::push_entry_line;
pub use first_lines::{CLEAN, FAULTY};
pub use forms::OrderForm;
use order_lines::OrderParts;
use runs::push_runs;
pub use runs_text::RUNS_HEADER;
use runs_text::RunsParts;

/// A reader of a certificate, line by line.
pub type CertLines = Staged<CertParts>;

/// A reader of the text of a certificate that comes in pieces.
pub type CertReader = TextReader<CertLines>;

/// A reader of the runs of a certificate, line by line.
pub type CertRuns = Staged<CertRunsParts>;

/// A reader of a text of runs, line by line.
pub type RunsText = Staged<RunsParts>;

/// A reader of a text of runs that comes in pieces.
pub type RunsReader = TextReader<RunsText>;

/// A law: no certificate's text begins another, a text spells one certificate, and a certificate has one text.
pub fn cert_texts_are_unambiguous()
    ensures { IsUnambiguous SpellsCert }
{}

/// Returns the certificate that the bytes spell: a header, an entry for each page in order, runs of 1 or more records
/// with no two neighbours of one log, and a closing line. An LF ends each line. The header gives the version and the
/// size. A certificate of the small size has 1 to 65,536 pages, and at most 5,242,880 runs of at most 1,048,576
/// records. One of the large size, which only the second version has, has 1 to 16,777,216 pages, and at most
/// 671,088,640 runs of at most 134,217,728 records. In the first version, there is no fresh page and no run of the
/// lane, and there are at most 4,194,304 runs.
///
/// Any other input is refused, at the line with which it stops being the beginning of such a text. Lines count from 1.
/// If memory runs out, the fault's line is 0.
pub fn read_cert(alloc: Global, bytes: &[u8]) -> Result<Cert, TextFault>
    ensures { Reads SpellsCert bytes.now result }
{
    read_whole::<CertLines>(alloc, bytes)
}

/// The room for a line: most lines of unused pages are shorter, and most lines of runs are no longer.
const ENTRY_ROOM: usize = 24;

const RUN_ROOM: usize = 8;

/// Returns how much room the text of most certificates needs, so that it does not grow and move while it is written.
fn room_of(cert: &Cert) -> usize {
    let entries = cert.entries().len().saturating_mul(ENTRY_ROOM);
    let runs = cert.runs().len().saturating_mul(RUN_ROOM);
    entries.saturating_add(runs)
}

/// Appends the text of a certificate, in its version. Fails only if memory runs out; some of it may then have been
/// appended.
pub fn push_cert(out: &mut Vec<u8>, cert: &Cert) -> Result<(), AllocError>
    ensures { OnOk result (out.new.items ≡ out.old.items ++ ended (cert_lines cert.now)) }
{
    cert.keeps_limits();
    let entries = cert.entries();
    out.reserve(room_of(cert))?;
    push_line(out, cert_header(cert.version(), cert.size()))?;
    push_keyed(out, PAGES_KEY, entries.len())?;
    push_entries(out, entries)?;
    push_runs(out, cert.runs())
}

/// Returns the text of a certificate, in its version, which `read_cert` reads back. Fails only if memory runs out.
pub fn write_cert(alloc: Global, cert: &Cert) -> Result<Vec<u8>, AllocError>
    ensures { IfOk result (λ out. IsSpelling SpellsCert cert.now out.items) }
{
    cert.keeps_limits();
    let mut out = Vec::new(alloc);
    push_cert(&mut out, cert)?;
    Ok(out)
}

/// A law: no text of runs begins another, a text spells one list of runs, and a list of runs has one text.
pub fn runs_texts_are_unambiguous()
    ensures { IsUnambiguous SpellsRuns }
{}

/// Returns the runs that the bytes spell: a header, at most 671,088,640 runs of 1 to 134,217,728 records with no two
/// neighbours of one log, and a closing line. An LF ends each line. So the text may give the runs of a session of
/// either size.
///
/// Any other input is refused, at the line with which it stops being the beginning of such a text. Lines count from 1.
/// If memory runs out, the fault's line is 0.
pub fn read_runs(alloc: Global, bytes: &[u8]) -> Result<Seq<Run>, TextFault>
    ensures { Reads SpellsRuns bytes.now result }
{
    read_whole::<RunsText>(alloc, bytes)
}

/// Appends the text of these runs. Fails only if memory runs out; some of it may then have been appended.
pub fn push_runs_text(out: &mut Vec<u8>, runs: &[Run]) -> Result<(), AllocError>
    requires { AreRuns Two Large runs.now }
    ensures { OnOk result (out.new.items ≡ out.old.items ++ ended (runs_text_header ∷ runs_lines runs.now)) }
{
    push_line(out, RUNS_HEADER)?;
    push_runs(out, runs)
}

/// Returns the text of these runs, which `read_runs` reads back. They must be within the limits of the second version
/// and of the large size. Fails only if memory runs out.
pub fn write_runs(alloc: Global, runs: &[Run]) -> Result<Vec<u8>, AllocError>
    requires { AreRuns Two Large runs.now }
    ensures { IfOk result (λ out. IsSpelling SpellsRuns runs.now out.items) }
{
    let mut out = Vec::new(alloc);
    push_runs_text(&mut out, runs)?;
    Ok(out)
}

/// A reader of a text that gives an order, line by line.
pub type OrderText = Staged<OrderParts>;

/// A reader of a text that gives an order and comes in pieces.
pub type OrderReader = TextReader<OrderText>;

/// A law: an order that a text gives is within the limits of runs of the second version and of the large size, whatever
/// the text's form.
#[tactic(auto, using(crate::proofs::Orders::keeps_limits))]
pub fn orders_keep_limits()
    ensures { (runs : List Told) (lines : List (List ℕ)) → SpellsOrder runs lines → AreRuns Two Large runs }
{}

/// Returns the order that the bytes give: the runs of a text of runs or of a certificate, alone or below the first line
/// of the report in which an audit writes it. That line is `clean` above a certificate. Above a text of runs, it gives
/// the line and the reason of a fault, as in `faulty line 13 early`.
///
/// Any other input is refused, at the line with which it stops being the beginning of such a text. Lines count from 1.
/// If memory runs out, the fault's line is 0.
pub fn read_order(alloc: Global, bytes: &[u8]) -> Result<Seq<Run>, TextFault>
    ensures { Reads SpellsOrder bytes.now result }
{
    read_whole::<OrderText>(alloc, bytes)
}
