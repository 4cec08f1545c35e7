//! Which records depend on which.

ghost use Rattle.std.specs.Prelude.{◌<◌, Decides};
ghost use Rattle.migration_types.specs.Sessions.{IsSession};
ghost use Rattle.audit_model.specs.Names.{log_length};
ghost use Rattle.audit_model.specs.Mergings.{IsMerging, spelled};
ghost use Rattle.audit_model.specs.Shape.{IsRightShape};
ghost use Rattle.audit_model.specs.Delayed.{IsDelayed};
ghost use Rattle.audit_report.specs.Dependence.{NeverBefore};

use crate::cuts::cut_for;
use migration_types::{LogName, Run, Session};

/// Returns whether a record depends on another: it is that one, or comes later in the log of one that does, or is a
/// receipt for one that does. A record comes before another in no order exactly when it depends on it. Makes one pass
/// over the runs, which must spell an order, and over the records, and allocates no memory.
pub fn depends_on(
    session: &Session,
    runs: &[Run],
    name: (LogName, u32),
    other: (LogName, u32),
) -> bool
    requires limits { IsSession session.now }
    requires shape { IsRightShape session.now }
    requires merging { IsMerging session.now (spelled runs.now) }
    requires there { name.1 < log_length session.now name.0 }
    requires other { other.1 < log_length session.now other.0 }
    ensures depends { Decides result (IsDelayed session.now other name) }
    ensures orders { Decides result (NeverBefore session.now name other) }
{
    let cut = cut_for(session, runs, other.0, other.1);
    cut.of(name.0) <= name.1 as usize
}
