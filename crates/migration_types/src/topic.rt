//! What a story or a picture of a session is about.

/// What a story or a picture of a session is about.
#[derive(Clone, Copy, Debug, PartialEq, Eq)]
pub enum Topic {
    /// What the report on the session names.
    Report,
    /// The page of this number.
    Page(u32),
    /// The record at this line of the session's text, counted from 1, and its page.
    Line(u32),
}
