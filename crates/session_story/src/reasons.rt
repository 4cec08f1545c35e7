//! What the reason of a page's fault decides: what the story says besides the page's story, and whether a cause comes
//! first.

ghost use Rattle.std.specs.Prelude.{◌≡◌, ◌<◌, IfOk};
ghost use Rattle.migration_types.specs.Sessions.{log_length};
ghost use Rattle.session_story.specs.Pages.{IsPageStory};
ghost use Rattle.session_story.specs.Explained.{IsDetail, is_read};

use crate::contents::other_at;
use crate::faults::look_before;
use crate::{Detail, PageStory, greatest_look, instead_of};
use audit_model::PageReason;
use migration_types::{LogName, Session};
use std::alloc::{AllocError, Global};

/// Returns what the story says about a faulty record besides its page's story.
pub(crate) fn detail_of(
    alloc: Global,
    session: &Session,
    reason: PageReason,
    log: LogName,
    place: u32,
    page: &PageStory,
) -> Result<Detail, AllocError>
    requires page { page.now.page < session.now.geometry.pages }
    requires story { IsPageStory session.now page.now.page page.now }
    requires there { place < log_length session.now log }
    requires guest { reason ≡ PageReason.Read → log ≡ LogName.Guest }
    requires early { reason ≡ PageReason.Early → log ≡ LogName.Guest }
    ensures { IfOk result (IsDetail session.now reason log place page.now.page) }
{
    session.keeps_limits();
    let n = place as usize;
    match reason {
        PageReason::Read => Ok(Detail::Instead(instead_of(alloc, session, n)?)),
        PageReason::Early => Ok(Detail::Seen(greatest_look(session, n))),
        PageReason::Stale => {
            let sent = other_at(alloc, session, page.page, session.source(), n)?;
            Ok(Detail::Other(sent))
        }
        PageReason::Altered => {
            let placed = other_at(alloc, session, page.page, session.pager(), n)?;
            Ok(Detail::Other(placed))
        }
        PageReason::Over => Ok(Detail::Seen(look_before(session, page))),
        PageReason::Given | PageReason::Twice | PageReason::Unfit => Ok(Detail::Plain),
    }
}

/// Returns whether it is a wrong read.
pub(crate) fn is_read(reason: PageReason) -> bool
    ensures { result ≡ is_read reason }
{
    match reason {
        PageReason::Read => true,
        PageReason::Early
        | PageReason::Given
        | PageReason::Stale
        | PageReason::Twice
        | PageReason::Altered
        | PageReason::Unfit
        | PageReason::Over => false,
    }
}
