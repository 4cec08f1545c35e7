//! What may be missing from a session.

use migration_types::PageNo;

/// How much of a migration a session must tell.
#[derive(Clone, Copy, Debug, PartialEq, Eq)]
pub enum Extent {
    /// The pages: the guest was halted and resumed, and every owed page was placed, or released at the target.
    Pages,
    /// The whole migration: also, the pager said so and the source learned of it, and everything that was taken was
    /// placed or dropped.
    Whole,
}

/// What is missing from a session of a whole migration.
#[derive(Clone, Copy, Debug, PartialEq, Eq)]
pub enum Lack {
    /// The guest's `halt`.
    Halt,
    /// The guest's `resume`, in a session in which the source started the guest again: it returned there.
    Returned,
    /// The guest's `resume`.
    Resume,
    /// A placement of this owed page, or its release at the target.
    Page(PageNo),
    /// The pager's `all` after its last placement of an owed page.
    All,
    /// The source's `done` after its `ask` of such an `all`.
    Done,
    /// The `place` or the `skip` of the packet that the pager's record of this number took.
    Taken(u32),
}
