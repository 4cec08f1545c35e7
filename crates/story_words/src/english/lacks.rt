//! What a session lacks that does not tell of a whole migration, in words.

use super::Teller;
use audit_report::Lines;
use migration_types::{LogName, PageNo};
use session_story::Name;
use std::alloc::AllocError;

pub(crate) const NOT_WHOLE: &str =
    "Nothing in the logs is wrong, but they do not tell of a whole migration.";

pub(crate) const NEVER_HALTED: &str =
    "The guest was never halted: its log has no `halt`, so nothing says that a migration began.";

pub(crate) const NEVER_RESUMED: &str =
    "The guest was never resumed at the target: its log has no `resume`.";

pub(crate) const RETURNED: &str =
    "The guest returned to the source: it was never resumed at the target, and the source started it again.";

pub(crate) const NEVER_SAID: &str =
    "The pager never said that every owed page had come: its log has no `all` behind their placements. Each of them came.";

pub(crate) const NEVER_LEARNED: &str =
    "The source never learned that every owed page had come: its log has no `done` behind the `ask` of that.";

/// Appends that a page was owed and did not come.
pub(crate) fn push_owed(out: &mut String, page: PageNo) -> Result<(), AllocError> {
    let page = page.number();
    write!(
        out,
        "Page {page} was owed to the target at the halt. The pager never placed it, and the guest did not release it there."
    )
}

impl<L: Lines> Teller<'_, L> {
    /// Appends how far an owed page came.
    pub(crate) fn push_came_to(
        &self,
        out: &mut String,
        name: Option<Name>,
    ) -> Result<(), AllocError> {
        let Some(name) = name else {
            return out.push_str("The source never sent it.");
        };
        let words = match name.0 {
            LogName::Link => "It came as far as the link: ",
            LogName::Lane => "It came as far as the lane: ",
            LogName::Source => "It was sent, and not delivered: ",
            LogName::Pager | LogName::Guest => "The pager has it: ",
        };
        self.push_with_record(out, words, name)
    }

    /// Appends where the guest was halted.
    pub(crate) fn push_halted_at(&self, out: &mut String, place: u32) -> Result<(), AllocError> {
        self.push_with_place(out, "It was halted at ", (LogName::Guest, place))
    }

    /// Appends where the source started the guest again.
    pub(crate) fn push_started_again_at(
        &self,
        out: &mut String,
        place: u32,
    ) -> Result<(), AllocError> {
        self.push_with_place(out, "It was started again at ", (LogName::Source, place))
    }

    /// Appends where the pager said that every owed page had come.
    pub(crate) fn push_said_at(&self, out: &mut String, place: u32) -> Result<(), AllocError> {
        self.push_with_place(out, "The pager said so at ", (LogName::Pager, place))
    }

    /// Appends the packet that the pager took, and neither placed nor dropped.
    pub(crate) fn push_untaken(&self, out: &mut String, place: u32) -> Result<(), AllocError> {
        self.push_with_record(
            out,
            "The pager has no `place` and no `skip` of what it took at ",
            (LogName::Pager, place),
        )
    }
}
