//! Verdicts.

use audit_model::ShapeReason;
use migration_types::LogName;

/// The first fault of a session's shape.
#[derive(Clone, Copy, Debug, PartialEq, Eq)]
pub struct ShapeFault {
    /// The line of the faulty record in the session's text. Lines count from 1.
    pub line: u32,
    /// The log of this record.
    pub log: LogName,
    /// Its number there.
    pub place: u32,
    /// The first of its reasons.
    pub reason: ShapeReason,
}

/// The verdict of the checker. A line is a line of the text that the name says. Lines count from 1.
#[derive(Clone, Copy, Debug, PartialEq, Eq)]
pub enum Verdict {
    /// The session's text is refused at this line.
    SessionText(u32),
    /// The certificate's text is refused at this line.
    CertText(u32),
    /// The session does not have the right shape.
    Shape(ShapeFault),
    /// The session and the certificate have different numbers of pages.
    Pages,
    /// The certificate's runs are not a merging. This is the line of the first run that takes a record past its log's
    /// end or a receipt before the record that it names, or the line of `end` if records are left.
    Runs(u32),
    /// The certificate's entry at this line is the first that is not right.
    Page(u32),
    /// The certificate is right.
    Yes,
}
