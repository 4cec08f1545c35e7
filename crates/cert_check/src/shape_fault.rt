//! The shape of a session: its first fault, and all its misshapen records.

ghost use Rattle.std.specs.Prelude.{◌≡◌, MatchOption, IfOk};
ghost use Rattle.audit_model.specs.Shape.{IsRightShape};
ghost use Rattle.cert_check.specs.ShapeFaults.{AreShapeFaults};
ghost use Rattle.cert_check.specs.Verdicts.{IsShapeFault};

use crate::log_passes::{first_found, push_found};
use crate::passes::Pass;
use crate::verdict::ShapeFault;
use migration_types::{Session, logs};
use std::alloc::{AllocError, Global};

/// Returns the fault of a session's shape with the least line, and then the least reason, or `None` if the shape is
/// right. Makes one pass over each log, and allocates memory for a mark for each page. Fails only if memory runs out.
pub fn shape(alloc: Global, session: &Session) -> Result<Option<ShapeFault>, AllocError>
    ensures { IfOk result (λ fault. MatchOption fault (IsRightShape session.now) (IsShapeFault session.now)) }
{
    session.keeps_limits();
    let mut pass = Pass::begin(alloc, session)?;
    for log in logs() {
        if let Some(fault) = first_found(session, log, &mut pass) {
            return Ok(Some(fault));
        }
    }
    Ok(None)
}

/// Returns all misshapen records of a session in the order of their lines, each with the least of its reasons. The list
/// is empty exactly if the shape is right, and begins with the fault that [`shape`] returns. Makes one pass over each
/// log, and allocates memory for a mark for each page and for the list. Fails only if memory runs out.
pub fn shape_faults(alloc: Global, session: &Session) -> Result<Vec<ShapeFault>, AllocError>
    ensures { IfOk result (λ found. AreShapeFaults session.now found.items) }
{
    session.keeps_limits();
    let mut pass = Pass::begin(alloc, session)?;
    let mut found = Vec::new(alloc);
    for log in logs() {
        push_found(session, log, &mut pass, &mut found)?;
    }
    Ok(found)
}
