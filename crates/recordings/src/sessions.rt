//! Sessions as recordings.

ghost use Rattle.std.specs.Prelude.{◌≡◌, [], OnOk};
ghost use Rattle.migration_types.specs.Sessions.{Recorded};
ghost use Rattle.recordings.specs.Seen.{BeforeGuest, BeforeSource, BeforeLink, BeforeLane, BeforePager};

use crate::laws::sessions_are_recordings;
use crate::machine::WideMachine;
use crate::visited::Visited;
use crate::visiting::Visitor;
use crate::wide::{Wide, WideGuest, WideInit, WideLane, WideLink, WidePager, WideSource};
use migration_types::{GuestRec, InitPage, LaneRec, LinkRec, PagerRec, Session, SourceRec};
use std::alloc::{AllocError, Global};

/// Meets the pages that do not begin as zeros.
fn visit_init<V: Visitor>(
    alloc: Global,
    pages: &[InitPage],
    visitor: &mut V,
) -> Result<(), AllocError>
    ensures { OnOk result ((d : Recorded) → BeforeGuest d → d.init ≡ [] → V.Met visitor.old d → V.Met visitor.new (record d { init = pages.now })) }
{
    for i in 0..pages.len() {
        visitor.init(WideInit::of(alloc, &pages[i])?)?;
    }
    Ok(())
}

/// Meets the guest's records.
fn visit_guest<V: Visitor>(log: &[GuestRec], visitor: &mut V) -> Result<(), AllocError>
    ensures { OnOk result ((d : Recorded) → BeforeSource d → d.guest ≡ [] → V.Met visitor.old d → V.Met visitor.new (record d { guest = log.now })) }
{
    for i in 0..log.len() {
        visitor.record(i as u64, Wide::Guest(WideGuest::of(&log[i])))?;
    }
    Ok(())
}

/// Meets the source's records.
fn visit_source<V: Visitor>(
    alloc: Global,
    log: &[SourceRec],
    visitor: &mut V,
) -> Result<(), AllocError>
    ensures { OnOk result ((d : Recorded) → BeforeLink d → d.source ≡ [] → V.Met visitor.old d → V.Met visitor.new (record d { source = log.now })) }
{
    for i in 0..log.len() {
        visitor.record(i as u64, Wide::Source(WideSource::of(alloc, &log[i])?))?;
    }
    Ok(())
}

/// Meets the link's records.
fn visit_link<V: Visitor>(log: &[LinkRec], visitor: &mut V) -> Result<(), AllocError>
    ensures { OnOk result ((d : Recorded) → BeforeLane d → d.link ≡ [] → V.Met visitor.old d → V.Met visitor.new (record d { link = log.now })) }
{
    for i in 0..log.len() {
        visitor.record(i as u64, Wide::Link(WideLink::of(&log[i])))?;
    }
    Ok(())
}

/// Meets the lane's records.
fn visit_lane<V: Visitor>(log: &[LaneRec], visitor: &mut V) -> Result<(), AllocError>
    ensures { OnOk result ((d : Recorded) → BeforePager d → d.lane ≡ [] → V.Met visitor.old d → V.Met visitor.new (record d { lane = log.now })) }
{
    for i in 0..log.len() {
        visitor.record(i as u64, Wide::Lane(WideLane::of(&log[i])))?;
    }
    Ok(())
}

/// Meets the pager's records.
fn visit_pager<V: Visitor>(
    alloc: Global,
    log: &[PagerRec],
    visitor: &mut V,
) -> Result<(), AllocError>
    ensures { OnOk result ((d : Recorded) → d.pager ≡ [] → V.Met visitor.old d → V.Met visitor.new (record d { pager = log.now })) }
{
    for i in 0..log.len() {
        visitor.record(i as u64, Wide::Pager(WidePager::of(alloc, &log[i])?))?;
    }
    Ok(())
}

impl Visited for Session {
    type Fault = AllocError;

    ghost use Rattle.std.specs.Prelude.{◌≡◌};

    ghost is_recording = { λ self s. s ≡ self };

    fn visit<V: Visitor>(&self, alloc: Global, visitor: &mut V) -> Result<(), AllocError> {
        self.keeps_limits();
        sessions_are_recordings();
        let geometry = self.geometry();
        let machine = WideMachine {
            version: self.version(),
            size: geometry.size(),
            pages: u64::from(geometry.pages()),
            cells: geometry.cells(),
        };
        visitor.machine(&machine)?;
        visit_init(alloc, self.init(), visitor)?;
        visit_guest(self.guest(), visitor)?;
        visit_source(alloc, self.source(), visitor)?;
        visit_link(self.link(), visitor)?;
        visit_lane(self.lane(), visitor)?;
        visit_pager(alloc, self.pager(), visitor)?;
        Ok(())
    }
}
