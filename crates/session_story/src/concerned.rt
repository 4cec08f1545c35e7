//! What the reason of a page's fault decides: which other record is concerned.

ghost use Rattle.std.specs.Prelude.{◌≡◌};
ghost use Rattle.session_story.specs.Concerned.{concerned_by, given_in};

use crate::fault_stories::{Detail, FaultStory};
use crate::{Name, named_in};
use audit_model::PageReason;
use migration_types::LogName;

/// Returns the number of the guest's record that gave a cell its value in the story, if one did.
pub(crate) fn given_in(detail: &Detail) -> Option<u32>
    ensures { result ≡ given_in detail.now }
{
    match detail {
        Detail::Instead(Some(held)) | Detail::Other(Some(held)) => held.by,
        _ => None,
    }
}

/// Returns the other record that a fault of a page concerns: for a wrong value, the record that gave the right one; for
/// a repetition, the first record; for a record that must not exist, the record that rules it out.
pub(crate) fn concerned_by(story: &FaultStory) -> Option<Name>
    ensures { result ≡ concerned_by story.now }
{
    let page = &story.page;
    match story.fault.reason {
        PageReason::Read | PageReason::Stale => {
            named_in(LogName::Guest, given_in(&story.detail))
        }
        PageReason::Given | PageReason::Unfit => named_in(LogName::Guest, page.changed),
        PageReason::Early | PageReason::Twice => named_in(LogName::Pager, page.found.placement),
        PageReason::Altered => named_in(LogName::Source, page.sent),
        PageReason::Over => named_in(LogName::Guest, page.found.touch),
    }
}
