//! The numbers for questions. No question has the number 0.

/// The report, as `postcopy_audit` writes it.
pub const AUDIT: u32 = 1;

/// The certificate, as `postcopy_certify` writes it.
pub const CERTIFY: u32 = 2;

/// Each page that has a fault, as `postcopy_audit_all` writes them.
pub const AUDIT_ALL: u32 = 3;

/// What is missing from a clean session, as `postcopy_missing` writes it.
pub const MISSING: u32 = 4;

/// What is missing from a clean session, as `postcopy_missing_pages` writes it.
pub const MISSING_PAGES: u32 = 5;

/// The story, as `postcopy_explain` writes it.
pub const EXPLAIN: u32 = 6;

/// The story of a page, as `postcopy_explain_page` writes it.
pub const EXPLAIN_PAGE: u32 = 7;

/// The story of the record at a line, as `postcopy_explain_line` writes it.
pub const EXPLAIN_LINE: u32 = 8;

/// The picture, as `postcopy_draw` writes it.
pub const DRAW: u32 = 9;

/// The picture about a page, as `postcopy_draw_page` writes it.
pub const DRAW_PAGE: u32 = 10;

/// The report, as a JSON object.
pub const AUDIT_OBJECT: u32 = 11;

/// The report with each page that has a fault, as a JSON object.
pub const AUDIT_ALL_OBJECT: u32 = 12;

/// The story, as a JSON object.
pub const EXPLAIN_OBJECT: u32 = 13;
