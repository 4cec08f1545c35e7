//! The records of a session, of those that are met.

ghost use Rattle.std.specs.Prelude.{◌≡◌, ◌<◌, ◌↔◌, IsTrue, MatchOption};
ghost use Rattle.migration_types.specs.Contents.{IsContent};
ghost use Rattle.migration_types.specs.Limits.{longest_log, vcpus};
ghost use Rattle.walked_sessions.specs.Made.{sized};
ghost use Rattle.walked_sessions.specs.Needs.{AreNeeds, IsNever};

use crate::needs::Needs;
use migration_types::{
    Contents, Geometry, GuestRec, LAST_VCPU, LaneRec, LinkRec, PageNo, PagerRec, Size, SourceRec,
};
use recordings::{WideGuest, WideLane, WideLink, WidePager, WideSource};

/// A record that is met.
pub(crate) trait WideRecord {
    ghost use Rattle.migration_types.specs.Extents.{Extent};
    ghost use Rattle.migration_types.specs.declared.version.Version.{Version};

    type Record;

    /// The record that it stands for.
    ghost record_of: { Self → Self.Record };

    /// A record is within the limits of a version and of a machine's size.
    ghost Fits: { Version → Extent → Self.Record → Type 0 };

    /// Returns the record that it stands for, with what that needs, if there is a session of a machine of as many pages
    /// and cells that may have it.
    fn into_record(self, machine: Geometry) -> Option<(Self::Record, Needs)>
        ensures { MatchOption result (IsNever (λ version size. Fits version (sized size machine) (record_of self))) (λ found. (found.0 ≡ record_of self) × AreNeeds (λ version size. Fits version (sized size machine) (record_of self)) found.1) };
}

/// Returns the number of a record that one of some session may name.
#[inline(always)]
fn number_of(number: u64) -> Option<u32>
    ensures { MatchOption result (number < longest_log → ⊥) (λ found. (found ≡ number) × (number < longest_log)) }
{
    if number < u64::from(Size::Large.limits().records) {
        Some(number as u32)
    } else {
        None
    }
}

/// Returns the page of this number, if the machine has it.
#[inline(always)]
pub(crate) fn page_of(machine: Geometry, page: u64) -> Option<PageNo>
    ensures { MatchOption result (page < machine.pages → ⊥) (λ found. (found ≡ page) × (page < machine.pages)) }
{
    machine.keeps_limits();
    if page < u64::from(machine.pages()) {
        Some(PageNo::new(page as u32))
    } else {
        None
    }
}

/// Returns the page of this number, if the machine has it, and there is such a virtual processor.
#[inline(always)]
fn page_at(machine: Geometry, vcpu: u8, page: u64) -> Option<PageNo>
    ensures { MatchOption result ((vcpu < vcpus) × (page < machine.pages) → ⊥) (λ found. (found ≡ page) × (vcpu < vcpus) × (page < machine.pages)) }
{
    if u32::from(vcpu) <= LAST_VCPU {
        page_of(machine, page)
    } else {
        None
    }
}

/// Returns the page of this number, if the machine has such a cell of it, and there is such a virtual processor.
#[inline(always)]
fn page_with(machine: Geometry, vcpu: u8, page: u64, cell: u16) -> Option<PageNo>
    ensures { MatchOption result ((vcpu < vcpus) × (page < machine.pages) × (cell < machine.cells) → ⊥) (λ found. (found ≡ page) × (vcpu < vcpus) × (page < machine.pages) × (cell < machine.cells)) }
{
    if u32::from(cell) < machine.cells() {
        page_at(machine, vcpu, page)
    } else {
        None
    }
}

/// Returns whether there is one value for each of this many cells.
#[inline(always)]
pub(crate) fn is_content(cells: u32, values: &[u64]) -> bool
    ensures { IsTrue result ↔ IsContent cells values.now }
{
    values.len() == cells as usize
}

/// Returns the page of this number, if the machine has it, and these may be its contents.
#[inline(always)]
fn page_having(machine: Geometry, page: u64, contents: &Contents) -> Option<PageNo>
    ensures { MatchOption result ((page < machine.pages) × IsContent machine.cells contents.now → ⊥) (λ found. (found ≡ page) × (page < machine.pages) × IsContent machine.cells contents.now) }
{
    if is_content(machine.cells(), contents.as_slice()) {
        page_of(machine, page)
    } else {
        None
    }
}

impl WideRecord for WideGuest {
    ghost use Rattle.recordings.specs.Wide.{guest_of};
    ghost use Rattle.walked_sessions.specs.Fitting.{GuestFits};

    type Record = GuestRec;

    ghost record_of = { guest_of };

    ghost Fits = { GuestFits };

    #[inline(always)]
    fn into_record(self, machine: Geometry) -> Option<(GuestRec, Needs)> {
        match self {
            WideGuest::Read {
                vcpu,
                page,
                cell,
                value,
            } => {
                let page = page_with(machine, vcpu, page, cell)?;
                let rec = GuestRec::Read {
                    vcpu,
                    page,
                    cell,
                    value,
                };
                Some((rec, Needs::nothing()))
            }
            WideGuest::Write {
                vcpu,
                page,
                cell,
                value,
            } => {
                let page = page_with(machine, vcpu, page, cell)?;
                let rec = GuestRec::Write {
                    vcpu,
                    page,
                    cell,
                    value,
                };
                Some((rec, Needs::nothing()))
            }
            WideGuest::Release { vcpu, page } => {
                let page = page_at(machine, vcpu, page)?;
                Some((GuestRec::Release { vcpu, page }, Needs::nothing()))
            }
            WideGuest::Miss { vcpu, page } => {
                let page = page_at(machine, vcpu, page)?;
                Some((GuestRec::Miss { vcpu, page }, Needs::nothing()))
            }
            WideGuest::Halt => Some((GuestRec::Halt, Needs::nothing())),
            WideGuest::Resume { ready } => {
                let ready = number_of(ready)?;
                Some((GuestRec::Resume { ready }, Needs::number(ready)))
            }
            WideGuest::See { placement } => {
                let placement = number_of(placement)?;
                Some((GuestRec::See { placement }, Needs::number(placement)))
            }
        }
    }
}

impl WideRecord for WideSource {
    ghost use Rattle.recordings.specs.Wide.{source_of};
    ghost use Rattle.walked_sessions.specs.Fitting.{SourceFits};

    type Record = SourceRec;

    ghost record_of = { source_of };

    ghost Fits = { SourceFits };

    fn into_record(self, machine: Geometry) -> Option<(SourceRec, Needs)> {
        match self {
            WideSource::Halted { halt } => {
                let halt = number_of(halt)?;
                Some((SourceRec::Halted { halt }, Needs::number(halt)))
            }
            WideSource::State => Some((SourceRec::State, Needs::nothing())),
            WideSource::Send { page, contents } => {
                let page = page_having(machine, page, &contents)?;
                Some((SourceRec::Send { page, contents }, Needs::nothing()))
            }
            WideSource::Again { sending } => {
                let sending = number_of(sending)?;
                Some((SourceRec::Again { sending }, Needs::number(sending)))
            }
            WideSource::Ask { up } => {
                let up = number_of(up)?;
                Some((SourceRec::Ask { up }, Needs::number(up)))
            }
            WideSource::Done => Some((SourceRec::Done, Needs::nothing())),
            WideSource::Back => Some((SourceRec::Back, Needs::back())),
        }
    }
}

impl WideRecord for WideLink {
    ghost use Rattle.recordings.specs.Wide.{link_of};
    ghost use Rattle.walked_sessions.specs.Fitting.{LinkFits};

    type Record = LinkRec;

    ghost record_of = { link_of };

    ghost Fits = { LinkFits };

    fn into_record(self, _machine: Geometry) -> Option<(LinkRec, Needs)> {
        match self {
            WideLink::Down { sending } => {
                let sending = number_of(sending)?;
                Some((LinkRec::Down { sending }, Needs::number(sending)))
            }
            WideLink::Up { asking } => {
                let asking = number_of(asking)?;
                Some((LinkRec::Up { asking }, Needs::number(asking)))
            }
        }
    }
}

/// Returns the number of what a record of the lane delivered.
fn sending_of(rec: WideLane) -> u64
    ensures { rec ≡ WideLane.Down result }
{
    match rec {
        WideLane::Down { sending } => sending,
    }
}

impl WideRecord for WideLane {
    ghost use Rattle.recordings.specs.Wide.{lane_of};
    ghost use Rattle.migration_types.specs.Sessions.{LaneRecFits};

    type Record = LaneRec;

    ghost record_of = { lane_of };

    ghost Fits = { LaneRecFits };

    fn into_record(self, _machine: Geometry) -> Option<(LaneRec, Needs)> {
        let sending = number_of(sending_of(self))?;
        Some((LaneRec::Down { sending }, Needs::lane_number(sending)))
    }
}

impl WideRecord for WidePager {
    ghost use Rattle.recordings.specs.Wide.{pager_of};
    ghost use Rattle.migration_types.specs.Sessions.{PagerRecFits};

    type Record = PagerRec;

    ghost record_of = { pager_of };

    ghost Fits = { PagerRecFits };

    fn into_record(self, machine: Geometry) -> Option<(PagerRec, Needs)> {
        match self {
            WidePager::Got { down } => {
                let down = number_of(down)?;
                Some((PagerRec::Got { down }, Needs::number(down)))
            }
            WidePager::Pull { down } => {
                let down = number_of(down)?;
                Some((PagerRec::Pull { down }, Needs::lane_number(down)))
            }
            WidePager::Ready => Some((PagerRec::Ready, Needs::nothing())),
            WidePager::Fault { miss } => {
                let miss = number_of(miss)?;
                Some((PagerRec::Fault { miss }, Needs::number(miss)))
            }
            WidePager::Join { want } => {
                let want = number_of(want)?;
                Some((PagerRec::Join { want }, Needs::number(want)))
            }
            WidePager::Want { page } => {
                let page = page_of(machine, page)?;
                Some((PagerRec::Want { page }, Needs::nothing()))
            }
            WidePager::Place {
                page,
                got,
                contents,
            } => {
                let page = page_having(machine, page, &contents)?;
                let got = number_of(got)?;
                let rec = PagerRec::Place {
                    page,
                    got,
                    contents,
                };
                Some((rec, Needs::number(got)))
            }
            WidePager::Zero { page } => {
                let page = page_of(machine, page)?;
                Some((PagerRec::Zero { page }, Needs::nothing()))
            }
            WidePager::Skip { got } => {
                let got = number_of(got)?;
                Some((PagerRec::Skip { got }, Needs::number(got)))
            }
            WidePager::All => Some((PagerRec::All, Needs::nothing())),
        }
    }
}
