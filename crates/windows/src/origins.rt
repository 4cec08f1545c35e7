//! The lines of the recording's text that a window's lines come from.

ghost use Rattle.std.specs.Prelude.{◌≡◌, ℕ, ◌+◌, List, [], ◌∷◌, ◌++◌, length, map, IfOk};
ghost use Rattle.migration_types.specs.Sessions.{Recorded};
ghost use Rattle.audit_model.specs.Windows.{Numbers, keeps_init};
ghost use Rattle.windows.specs.inner.Met.{AreRight};
ghost use Rattle.windows.specs.Origins.{list_origins, lane_origins, behind, behind_lane, origins};

use crate::marking::Marks;
use crate::places::Places;
use migration_types::Version;
use std::alloc::{AllocError, Global};

/// Returns, for each line of a window's text, the line of the recording's text that it comes from, given the marks for
/// the recording's initial pages and for its logs. Fails only if memory runs out.
pub(crate) fn line_origins(
    alloc: Global,
    version: Version,
    init: &Places,
    known: &Marks,
) -> Result<Vec<u64>, AllocError>
    ensures { IfOk result (λ out. (number : Numbers) (s : Recorded) → version ≡ s.version → init.now ≡ map (keeps_init number) s.init → AreRight number known.now s → out.items ≡ origins number s) }
{
    let mut lines = Vec::new(alloc);
    lines.extend_from_slice(&[1, 2, 3])?;
    let guest = init.push_origins(&mut lines, 4)?;
    let source = known.guest.kept.push_origins(&mut lines, guest)?;
    let link = known.source.kept.push_origins(&mut lines, source)?;
    let lane = known.link.push_origins(&mut lines, link)?;
    let pager = push_lane(&mut lines, version, &known.lane, lane)?;
    let end = known.pager.kept.push_origins(&mut lines, pager)?;
    lines.push(end)?;
    Ok(lines)
}

/// Appends the lines of the lane's log from its first on, if the version has one, and returns the line after them.
fn push_lane(
    lines: &mut Vec<u64>,
    version: Version,
    lane: &Places,
    first: u64,
) -> Result<u64, AllocError>
    ensures next { IfOk result (λ next. next ≡ behind_lane version first (length lane.now)) }
    ensures lines { IfOk result (λ _. lines.new.items ≡ lines.old.items ++ lane_origins version first lane.now) }
{
    match version {
        Version::One => Ok(first),
        Version::Two => lane.push_origins(lines, first),
    }
}
