//! Reports.

use cert_check::ShapeFault;
use cert_maker::{FirstLeft, FoundRuns};
use migration_types::{Cert, Run, Seq};
use page_facts::{FaultyPage, PageFault};

/// The report of an audit of a session. A line is one of the session's text, and lines count from 1.
#[derive(Drop)]
pub enum Report {
    /// The session is safe in each of its mergings: a right certificate, over the found order.
    Clean(Cert),
    /// The session does not have the right shape.
    Shape(ShapeFault),
    /// The session's logs have no merging. Of the records that can never be taken and are the next of their logs, this
    /// is the first. The found order goes up to them.
    Knot {
        left: FirstLeft,
        found: FoundRuns,
    },
    /// The session is not safe: the first fault of a page, the line of the faulty record, the runs of a merging in
    /// which the demand of this record fails, and how many pages have a fault.
    Faulty {
        line: u32,
        fault: PageFault,
        order: Seq<Run>,
        pages: usize,
    },
}

/// The report of an audit, with each page that has a fault.
#[derive(Drop)]
pub struct FullAudit {
    /// The report.
    pub report: Report,
    /// If the report is clean or faulty: each page with a fault, in the order of pages. Otherwise none.
    pub pages: Vec<FaultyPage>,
}
