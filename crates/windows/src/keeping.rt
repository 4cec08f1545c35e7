//! Whether a record is kept in a window.

ghost use Rattle.std.specs.Prelude.{◌≡◌, List, Bool, nat_lt, max};
ghost use Rattle.recordings.specs.Wide.{guest_of, source_of, link_of, lane_of, pager_of};
ghost use Rattle.audit_model.specs.Windows.{keeps_sending, keeps_asking, keeps_miss, keeps_placement};
ghost use Rattle.windows.specs.inner.Marks.{past};
ghost use Rattle.windows.specs.Pages.{numbers_of};
ghost use Rattle.windows.specs.inner.Guided.{repeats_by, source_by, link_by, lane_by, taking_by, pager_by, guest_by, further_by};

use crate::marking::Guide;
use crate::pages::Window;
use crate::places::Places;
use recordings::{WideGuest, WideLane, WideLink, WidePager, WideSource};

impl Window {
    /// Returns whether it sends the state or a page of the window.
    pub(crate) fn keeps_sending(&self, rec: &WideSource) -> bool
        ensures { result ≡ keeps_sending (numbers_of self.now) (source_of rec.now) }
    {
        match rec {
            WideSource::State => true,
            WideSource::Send { page, .. } => self.has(*page),
            _ => false,
        }
    }

    /// Returns whether it asks for a page of the window, or says that all pages are placed.
    pub(crate) fn keeps_asking(&self, rec: &WidePager) -> bool
        ensures { result ≡ keeps_asking (numbers_of self.now) (pager_of rec.now) }
    {
        match rec {
            WidePager::Want { page } => self.has(*page),
            WidePager::All => true,
            _ => false,
        }
    }

    /// Returns whether it misses a page of the window.
    pub(crate) fn keeps_miss(&self, rec: &WideGuest) -> bool
        ensures { result ≡ keeps_miss (numbers_of self.now) (guest_of rec.now) }
    {
        match rec {
            WideGuest::Miss { page, .. } => self.has(*page),
            _ => false,
        }
    }

    /// Returns whether it places a page of the window.
    pub(crate) fn keeps_placement(&self, rec: &WidePager) -> bool
        ensures { result ≡ keeps_placement (numbers_of self.now) (pager_of rec.now) }
    {
        match rec {
            WidePager::Place { page, .. } => self.has(*page),
            WidePager::Zero { page } => self.has(*page),
            _ => false,
        }
    }
}

impl Guide {
    /// Returns whether it is a kept sending, or repeats one.
    pub(crate) fn keeps_repeat(&self, rec: &WideSource) -> bool
        ensures { result ≡ repeats_by (numbers_of self.now.window) self.now.known (source_of rec.now) }
    {
        match rec {
            WideSource::Again { sending } => self.known.source.sendings.has(*sending),
            _ => self.window.keeps_sending(rec),
        }
    }

    /// Returns whether a record of the source is kept.
    pub(crate) fn keeps_source(&self, rec: &WideSource) -> bool
        ensures { result ≡ source_by (numbers_of self.now.window) self.now.known (source_of rec.now) }
    {
        match rec {
            WideSource::Halted { .. } => true,
            WideSource::State => true,
            WideSource::Send { page, .. } => self.window.has(*page),
            WideSource::Again { sending } => self.known.source.sendings.has(*sending),
            WideSource::Ask { up } => self.known.link.has(*up),
            WideSource::Done | WideSource::Back => true,
        }
    }

    /// Returns whether a delivery is kept, given the records of the source that are a kept sending or repeat one.
    pub(crate) fn keeps_link(&self, repeats: &Places, rec: &WideLink) -> bool
        ensures { result ≡ link_by self.now.known repeats.now (link_of rec.now) }
    {
        match rec {
            WideLink::Down { sending } => repeats.has(*sending),
            WideLink::Up { asking } => self.known.pager.askings.has(*asking),
        }
    }

    /// Returns whether a record of the pager is kept.
    pub(crate) fn keeps_pager(&self, rec: &WidePager) -> bool
        ensures { result ≡ pager_by (numbers_of self.now.window) self.now.known (pager_of rec.now) }
    {
        match rec {
            WidePager::Got { down } => self.known.link.has(*down),
            WidePager::Pull { down } => self.known.lane.has(*down),
            WidePager::Ready => true,
            WidePager::Fault { miss } => self.known.guest.misses.has(*miss),
            WidePager::Join { want } => self.known.pager.askings.has(*want),
            WidePager::Want { page } => self.window.has(*page),
            WidePager::Place { page, .. } => self.window.has(*page),
            WidePager::Zero { page } => self.window.has(*page),
            WidePager::Skip { got } => self.known.pager.takings.has(*got),
            WidePager::All => true,
        }
    }

    /// Returns whether a record of the guest is kept, given how far looks reached before it.
    pub(crate) fn keeps_guest(&self, far: Option<u64>, rec: &WideGuest) -> bool
        ensures { result ≡ guest_by (numbers_of self.now.window) self.now.known (past far) (guest_of rec.now) }
    {
        match rec {
            WideGuest::Read { page, .. } => self.window.has(*page),
            WideGuest::Write { page, .. } => self.window.has(*page),
            WideGuest::Release { page, .. } => self.window.has(*page),
            WideGuest::Miss { page, .. } => self.window.has(*page),
            WideGuest::Halt => true,
            WideGuest::Resume { .. } => true,
            WideGuest::See { placement } => {
                is_further(far, self.known.pager.placements.newest(*placement))
            }
        }
    }

    /// Returns how far looks reach after a record of the guest, given how far they reached before it.
    pub(crate) fn further(&self, far: Option<u64>, rec: &WideGuest) -> Option<u64>
        ensures { past result ≡ further_by self.now.known (guest_of rec.now) (past far) }
    {
        match rec {
            WideGuest::See { placement } => {
                furthest(far, self.known.pager.placements.newest(*placement))
            }
            _ => far,
        }
    }
}

/// Returns whether a look with this reach reaches further than those before it.
fn is_further(far: Option<u64>, reach: Option<u64>) -> bool
    ensures { result ≡ nat_lt (past far) (past reach) }
{
    match (far, reach) {
        (_, None) => false,
        (None, Some(_)) => true,
        (Some(before), Some(now)) => before < now,
    }
}

/// Returns the further of two reaches.
fn furthest(far: Option<u64>, reach: Option<u64>) -> Option<u64>
    ensures { past result ≡ max (past far) (past reach) }
{
    if is_further(far, reach) { reach } else { far }
}

/// Returns whether a delivery of the lane is kept, given the records of the source that are a kept sending or repeat
/// one.
pub(crate) fn keeps_lane(repeats: &Places, rec: &WideLane) -> bool
    ensures { result ≡ lane_by repeats.now (lane_of rec.now) }
{
    match rec {
        WideLane::Down { sending } => repeats.has(*sending),
    }
}

/// Returns whether it takes a delivery, given the kept deliveries of the link and of the lane.
pub(crate) fn keeps_taking(link: &Places, lane: &Places, rec: &WidePager) -> bool
    ensures { result ≡ taking_by link.now lane.now (pager_of rec.now) }
{
    match rec {
        WidePager::Got { down } => link.has(*down),
        WidePager::Pull { down } => lane.has(*down),
        _ => false,
    }
}
