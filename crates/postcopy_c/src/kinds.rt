//! The numbers for the kinds of answers. No kind has the number 0.

/// The certificate is right, and every merging of the session is safe.
pub const YES: u32 = 1;

/// Every merging of the session is safe.
pub const CLEAN: u32 = 2;

/// The session's text is refused at the line.
pub const SESSION_TEXT: u32 = 3;

/// The certificate's text is refused at the line.
pub const CERT_TEXT: u32 = 4;

/// The session does not have the right shape. The answer has the line of its first fault, and the reason.
pub const SHAPE: u32 = 5;

/// The session and the certificate have different numbers of pages.
pub const PAGES: u32 = 6;

/// The run at this line of the certificate is the first that cannot be taken.
pub const RUNS: u32 = 7;

/// The entry at this line of the certificate is the first that is not right.
pub const PAGE: u32 = 8;

/// The session's logs have no merging. The answer has the line of the first record that can never be taken and is next
/// in its log.
pub const KNOT: u32 = 9;

/// The session is not safe. The answer has the line of the first fault of a page, and the reason.
pub const FAULTY: u32 = 10;

/// Memory ran out. The answer says nothing about the texts.
pub const NO_MEMORY: u32 = 11;

/// The demand of each record holds in the order of the runs. The answer says nothing about other mergings of the
/// session.
pub const SAFE: u32 = 12;

/// The text of the runs is refused at the line.
pub const RUNS_TEXT: u32 = 13;

/// The runs spell no merging of the session's logs.
pub const NO_MERGING: u32 = 14;

/// The record at this line of the session's text is the first, in the order of the runs, whose demand fails.
pub const BROKEN: u32 = 15;

/// No line of the text is refused.
pub const READ: u32 = 16;

/// Every merging of the session is safe, but the session does not tell of a whole migration.
pub const INCOMPLETE: u32 = 17;

/// The number of a question is unknown. The answer says nothing about the session.
pub const NO_QUESTION: u32 = 18;
