//! Certificates.

ghost use Rattle.std.specs.Prelude.{◌≡◌};
ghost use Rattle.migration_types.specs.Certs.{IsCert};
ghost use Rattle.migration_types.specs.Limits.{most_runs};

use crate::records::LogName;
use crate::seq::Seq;
use crate::size::Size;
use crate::version::Version;
use std::marker::Model;

/// Returns how many runs a certificate of this version and size may have.
#[tactic(auto, using(crate::specs::Limits::limits_at_most))]
pub fn most_runs(version: Version, size: Size) -> u32
    ensures { result ≡ most_runs version size }
{
    let records = size.limits().records;
    match version {
        Version::One => 4 * records,
        Version::Two => 5 * records,
    }
}

/// The next `count` records of a log.
#[derive(Clone, Copy, Debug, PartialEq, Eq)]
pub struct Run {
    pub log: LogName,
    pub count: u32,
}

/// The first read, write or release of a page at the target, and the look that shows the page's placement before it.
/// Both are numbers of records of the guest.
#[derive(Clone, Copy, Debug, PartialEq, Eq)]
pub struct First {
    pub access: u32,
    pub see: u32,
}

/// What a certificate says about a page.
#[derive(Clone, Copy, Debug, PartialEq, Eq)]
pub enum Entry {
    /// The page was neither placed nor used at the target.
    Nothing,
    /// The page was not placed at the target, and this record of the guest, its first use there, released it. Only in
    /// certificates of the second version.
    Fresh {
        first: u32,
    },
    /// The page was sent by this record of the source, and placed by this record of the pager.
    Source {
        send: u32,
        place: u32,
        /// `None` if the page was not read, written or released at the target.
        first: Option<First>,
    },
    /// The page was released at the halt, and placed as zeros by this record of the pager.
    Balloon {
        place: u32,
        /// `None` if the page was not read, written or released at the target.
        first: Option<First>,
    },
}

/// A certificate of one of the versions, within all limits of its size: an entry for each page, and the runs of one
/// merging.
#[derive(Drop)]
pub struct Cert {
    version: Version,
    size: Size,
    entries: Seq<Entry>,
    runs: Seq<Run>,
}

impl Model for Cert {
    ghost use Rattle.migration_types.specs.Certs.{Certified, IsCert};

    ghost Value = { Certified };

    ghost view = { λ a. record { version = a.version; size = a.size; entries = a.entries; runs = a.runs } };

    ghost invariant = { λ a. IsCert (record { version = a.version; size = a.size; entries = a.entries; runs = a.runs }) };
}

impl Cert {
    /// Returns the certificate with these parts. Allocates no memory.
    pub fn new(version: Version, size: Size, entries: Seq<Entry>, runs: Seq<Run>) -> Self
        requires { IsCert (record { version = version; size = size; entries = entries; runs = runs }) }
        ensures { result ≡ record { version = version; size = size; entries = entries; runs = runs } }
    {
        Cert {
            version,
            size,
            entries,
            runs,
        }
    }

    /// Returns the version of its text.
    pub fn version(&self) -> Version
        ensures { result ≡ self.now.version }
    {
        self.version
    }

    /// Returns the size that sets its limits.
    pub fn size(&self) -> Size
        ensures { result ≡ self.now.size }
    {
        self.size
    }

    /// Returns the pages' entries, page 0 first.
    pub fn entries(&self) -> &[Entry]
        ensures { result.now ≡ self.now.entries }
    {
        self.entries.as_slice()
    }

    /// Returns the runs of the merging.
    pub fn runs(&self) -> &[Run]
        ensures { result.now ≡ self.now.runs }
    {
        self.runs.as_slice()
    }

    /// States that it is within all limits.
    pub fn keeps_limits(&self)
        ensures { IsCert self.now }
    {
        let _entries = &self.entries;
    }
}
