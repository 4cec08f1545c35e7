//! Contents that differ from those of a page at the halt.

ghost use Rattle.std.specs.Prelude.{◌<◌, IfOk, slice_get};
ghost use Rattle.std.specs.List.{AllByRecursion};
ghost use Rattle.migration_types.specs.Follow.{ContentFits};
ghost use Rattle.audit_model.specs.Names.{if_there};
ghost use Rattle.session_story.specs.inner.Contents.{IsOtherAt};

use crate::{CellValue, other_of};
use migration_types::{PageNo, Record, Session};
use std::alloc::{AllocError, Global};

/// Returns the first cell in which the contents of a record, if it has any, differ from the page's at the halt.
pub(crate) fn other_at<R: Record>(
    alloc: Global,
    session: &Session,
    page: PageNo,
    log: &[R],
    place: usize,
) -> Result<Option<CellValue>, AllocError>
    requires page { page < session.now.geometry.pages }
    requires fits { AllByRecursion (λ rec. ContentFits session.now.geometry (R.contents rec)) log.now }
    ensures { IfOk result (IsOtherAt session.now page (if_there R.contents (slice_get log.now place))) }
{
    let Some(rec) = log.get(place) else {
        return Ok(None);
    };
    match rec.contents() {
        Some(contents) => other_of(alloc, session, page, contents),
        None => Ok(None),
    }
}
