//! Pages and records of sessions, with numbers of 64 bits.

ghost use Rattle.std.specs.Prelude.{◌≡◌, IfOk};
ghost use Rattle.recordings.specs.Wide.{init_of, guest_of, source_of, link_of, lane_of, pager_of};

use crate::wide::{WideGuest, WideInit, WideLane, WideLink, WidePager, WideSource};
use migration_types::{GuestRec, InitPage, LaneRec, LinkRec, PagerRec, SourceRec};
use std::alloc::{AllocError, Global};

impl WideInit {
    /// Returns a page of a session. Fails only if memory runs out.
    pub(crate) fn of(alloc: Global, given: &InitPage) -> Result<WideInit, AllocError>
        ensures { IfOk result (λ p. init_of p ≡ given.now) }
    {
        Ok(WideInit {
            page: u64::from(given.page.number()),
            cells: given.cells.another(alloc)?,
        })
    }
}

impl WideGuest {
    /// Returns a record of a session's guest.
    pub(crate) fn of(rec: &GuestRec) -> WideGuest
        ensures { guest_of result ≡ rec.now }
    {
        match *rec {
            GuestRec::Read {
                vcpu,
                page,
                cell,
                value,
            } => WideGuest::Read {
                vcpu,
                page: u64::from(page.number()),
                cell,
                value,
            },
            GuestRec::Write {
                vcpu,
                page,
                cell,
                value,
            } => WideGuest::Write {
                vcpu,
                page: u64::from(page.number()),
                cell,
                value,
            },
            GuestRec::Release { vcpu, page } => WideGuest::Release {
                vcpu,
                page: u64::from(page.number()),
            },
            GuestRec::Miss { vcpu, page } => WideGuest::Miss {
                vcpu,
                page: u64::from(page.number()),
            },
            GuestRec::Halt => WideGuest::Halt,
            GuestRec::Resume { ready } => WideGuest::Resume {
                ready: u64::from(ready),
            },
            GuestRec::See { placement } => WideGuest::See {
                placement: u64::from(placement),
            },
        }
    }
}

impl WideSource {
    /// Returns a record of a session's source. Fails only if memory runs out.
    pub(crate) fn of(alloc: Global, rec: &SourceRec) -> Result<WideSource, AllocError>
        ensures { IfOk result (λ r. source_of r ≡ rec.now) }
    {
        Ok(match rec {
            SourceRec::Halted { halt } => WideSource::Halted {
                halt: u64::from(*halt),
            },
            SourceRec::State => WideSource::State,
            SourceRec::Send { page, contents } => WideSource::Send {
                page: u64::from(page.number()),
                contents: contents.another(alloc)?,
            },
            SourceRec::Again { sending } => WideSource::Again {
                sending: u64::from(*sending),
            },
            SourceRec::Ask { up } => WideSource::Ask { up: u64::from(*up) },
            SourceRec::Done => WideSource::Done,
            SourceRec::Back => WideSource::Back,
        })
    }
}

impl WideLink {
    /// Returns a record of a session's link.
    pub(crate) fn of(rec: &LinkRec) -> WideLink
        ensures { link_of result ≡ rec.now }
    {
        match *rec {
            LinkRec::Down { sending } => WideLink::Down {
                sending: u64::from(sending),
            },
            LinkRec::Up { asking } => WideLink::Up {
                asking: u64::from(asking),
            },
        }
    }
}

impl WideLane {
    /// Returns a record of a session's lane.
    pub(crate) fn of(rec: &LaneRec) -> WideLane
        ensures { lane_of result ≡ rec.now }
    {
        let LaneRec::Down { sending } = *rec;
        WideLane::Down {
            sending: u64::from(sending),
        }
    }
}

impl WidePager {
    /// Returns a record of a session's pager. Fails only if memory runs out.
    pub(crate) fn of(alloc: Global, rec: &PagerRec) -> Result<WidePager, AllocError>
        ensures { IfOk result (λ r. pager_of r ≡ rec.now) }
    {
        Ok(match rec {
            PagerRec::Got { down } => WidePager::Got {
                down: u64::from(*down),
            },
            PagerRec::Pull { down } => WidePager::Pull {
                down: u64::from(*down),
            },
            PagerRec::Ready => WidePager::Ready,
            PagerRec::Fault { miss } => WidePager::Fault {
                miss: u64::from(*miss),
            },
            PagerRec::Join { want } => WidePager::Join {
                want: u64::from(*want),
            },
            PagerRec::Want { page } => WidePager::Want {
                page: u64::from(page.number()),
            },
            PagerRec::Place {
                page,
                got,
                contents,
            } => WidePager::Place {
                page: u64::from(page.number()),
                got: u64::from(*got),
                contents: contents.another(alloc)?,
            },
            PagerRec::Zero { page } => WidePager::Zero {
                page: u64::from(page.number()),
            },
            PagerRec::Skip { got } => WidePager::Skip {
                got: u64::from(*got),
            },
            PagerRec::All => WidePager::All,
        })
    }
}
