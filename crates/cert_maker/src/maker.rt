//! Making certificates.

ghost use Rattle.std.specs.Prelude.{MatchResult};
ghost use Rattle.migration_types.specs.declared.version.Version.TheVariants.{Two};
ghost use Rattle.migration_types.specs.Certs.{AreRuns};
ghost use Rattle.audit_model.specs.Mergings.{IsMerging, spelled};
ghost use Rattle.cert_maker.specs.Made.{IsMade, IsRefused, AreMadeFrom};

use crate::made_entries::{MadeEntries, version_for};
use audit_model::first_version_is_plain;
use merge_runs::is_merging;
use migration_types::{Cert, Entry, Run, Seq, Session};
use page_facts::{Judges, OneThread};
use std::alloc::Global;
use thiserror::Error;

/// Why no certificate was made.
#[derive(Clone, Copy, Debug, PartialEq, Eq, Error)]
pub enum MakeFault {
    /// There is no right certificate with these runs: they are not a merging, or a page has no right entry.
    #[error("no certificate")]
    NoCertificate,
    /// Memory ran out.
    #[error("out of memory")]
    Memory,
}

/// Returns the right certificate of a session with these runs, in the session's version and of its size. (A session of
/// the first version that needs an entry of the second does not have the right shape, and its certificate is of the
/// second.) Each entry with a placement and a first touch names the earliest look that covers the placement. Makes one
/// pass over the runs and a few over the records, and allocates memory for the entries, a few numbers for each page and
/// the cells of all pages. On an error, the runs are dropped.
pub fn make(alloc: Global, session: &Session, runs: Seq<Run>) -> Result<Cert, MakeFault>
    requires { AreRuns Two session.now.geometry.size runs }
    ensures { MatchResult result (IsMade session.now runs) (IsRefused session.now runs) }
{
    if !is_merging(session, runs.as_slice()) {
        return Err(MakeFault::NoCertificate);
    }
    let Ok(made) = OneThread.ask(&MadeEntries, alloc, session) else {
        return Err(MakeFault::Memory);
    };
    let Some(entries) = made else {
        return Err(MakeFault::NoCertificate);
    };
    Ok(make_over(session, entries, runs))
}

/// Returns the right certificate with these right entries of all pages, over the runs of a merging. Looks at each
/// entry, and allocates no memory.
pub fn make_over(session: &Session, entries: Vec<Entry>, runs: Seq<Run>) -> Cert
    requires runs { AreRuns Two session.now.geometry.size runs }
    requires merging { IsMerging session.now (spelled runs) }
    requires entries { AreMadeFrom session.now 0 session.now.geometry.pages entries.items }
    ensures { IsMade session.now runs result }
{
    first_version_is_plain();
    session.keeps_limits();
    let entries = Seq::from_vec(entries);
    let version = version_for(session, &entries);
    let size = session.geometry().size();
    Cert::new(version, size, entries, runs)
}
