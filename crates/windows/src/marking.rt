//! The marks of a recording's logs.

ghost use Rattle.std.specs.Prelude.{◌≡◌, ℕ, true, false, [], ◌∷◌, ◌++◌, List, None, OnOk};
ghost use Rattle.migration_types.specs.declared.records.GuestRec.{GuestRec};
ghost use Rattle.migration_types.specs.declared.records.SourceRec.{SourceRec};
ghost use Rattle.migration_types.specs.declared.records.PagerRec.{PagerRec};
ghost use Rattle.migration_types.specs.Sessions.{Recorded};
ghost use Rattle.recordings.specs.Seen.{with_init, with_record, IsNext};
ghost use Rattle.recordings.specs.Wide.{init_of, guest_of, source_of, pager_of};

use crate::keeping::{keeps_lane, keeps_taking};
use crate::pages::Window;
use crate::places::Places;
use migration_types::{Size, Version};
use recordings::{Wide, WideGuest, WideInit, WideMachine, WidePager, WideSource};
use std::alloc::{AllocError, Global};

/// Marks for the guest's records: those that miss a page of the window, those that are kept, and the newest placement
/// of the window that a look saw.
#[derive(Drop)]
pub(crate) struct GuestMarks {
    pub(crate) misses: Places,
    pub(crate) kept: Places,
    pub(crate) far: Option<u64>,
}

/// Marks for the source's records: those that send the state or a page of the window, those that are or repeat such a
/// sending, and those that are kept.
#[derive(Drop)]
pub(crate) struct SourceMarks {
    pub(crate) sendings: Places,
    pub(crate) repeats: Places,
    pub(crate) kept: Places,
}

/// Marks for the pager's records: those that ask for a page of the window or say that all pages are placed, those that
/// place a page of it, those that take a kept delivery, and those that are kept.
#[derive(Drop)]
pub(crate) struct PagerMarks {
    pub(crate) askings: Places,
    pub(crate) placements: Places,
    pub(crate) takings: Places,
    pub(crate) kept: Places,
}

/// What a pass knows about a recording so far: its machine, and marks for its initial pages and for the records of each
/// log.
#[derive(Drop)]
pub(crate) struct Marks {
    pub(crate) machine: WideMachine,
    pub(crate) init: Places,
    pub(crate) guest: GuestMarks,
    pub(crate) source: SourceMarks,
    pub(crate) link: Places,
    pub(crate) lane: Places,
    pub(crate) pager: PagerMarks,
}

/// What a pass goes by: the window, and the marks that the pass before it found.
#[derive(Drop)]
pub(crate) struct Guide {
    pub(crate) window: Window,
    pub(crate) known: Marks,
}

impl GuestMarks {
    ghost use Rattle.windows.specs.Pages.{numbers_of};
    ghost use Rattle.windows.specs.inner.Met.{no_guest, GuestFound};

    fn new(alloc: Global) -> Self
        ensures { result ≡ no_guest }
    {
        GuestMarks {
            misses: Places::new(alloc),
            kept: Places::new(alloc),
            far: None,
        }
    }

    /// Takes the guest's next record.
    pub(crate) fn note(&mut self, guide: &Guide, rec: &WideGuest) -> Result<(), AllocError>
        ensures { (log : List GuestRec) → GuestFound (numbers_of guide.now.window) guide.now.known self.old log → OnOk result (GuestFound (numbers_of guide.now.window) guide.now.known self.new (log ++ guest_of rec.now ∷ [])) }
    {
        let misses = guide.window.keeps_miss(rec);
        let keep = guide.keeps_guest(self.far, rec);
        self.misses.note(misses)?;
        self.kept.note(keep)?;
        self.far = guide.further(self.far, rec);
        Ok(())
    }
}

impl SourceMarks {
    ghost use Rattle.windows.specs.Pages.{numbers_of};
    ghost use Rattle.windows.specs.inner.Met.{no_source, SourceFound};

    fn new(alloc: Global) -> Self
        ensures { result ≡ no_source }
    {
        SourceMarks {
            sendings: Places::new(alloc),
            repeats: Places::new(alloc),
            kept: Places::new(alloc),
        }
    }

    /// Takes the source's next record.
    pub(crate) fn note(&mut self, guide: &Guide, rec: &WideSource) -> Result<(), AllocError>
        ensures { (log : List SourceRec) → SourceFound (numbers_of guide.now.window) guide.now.known self.old log → OnOk result (SourceFound (numbers_of guide.now.window) guide.now.known self.new (log ++ source_of rec.now ∷ [])) }
    {
        let sends = guide.window.keeps_sending(rec);
        let repeats = guide.keeps_repeat(rec);
        let keep = guide.keeps_source(rec);
        self.sendings.note(sends)?;
        self.repeats.note(repeats)?;
        self.kept.note(keep)?;
        Ok(())
    }
}

impl PagerMarks {
    ghost use Rattle.windows.specs.Pages.{numbers_of};
    ghost use Rattle.windows.specs.inner.Met.{no_pager, PagerFound};

    fn new(alloc: Global) -> Self
        ensures { result ≡ no_pager }
    {
        PagerMarks {
            askings: Places::new(alloc),
            placements: Places::new(alloc),
            takings: Places::new(alloc),
            kept: Places::new(alloc),
        }
    }

    /// Takes the pager's next record, given the kept deliveries of the link and of the lane.
    pub(crate) fn note(
        &mut self,
        guide: &Guide,
        link: &Places,
        lane: &Places,
        rec: &WidePager,
    ) -> Result<(), AllocError>
        ensures { let Knows = PagerFound (numbers_of guide.now.window) guide.now.known link.now lane.now in (log : List PagerRec) → Knows self.old log → OnOk result (Knows self.new (log ++ pager_of rec.now ∷ [])) }
    {
        let asks = guide.window.keeps_asking(rec);
        let places = guide.window.keeps_placement(rec);
        let takes = keeps_taking(link, lane, rec);
        let keep = guide.keeps_pager(rec);
        self.askings.note(asks)?;
        self.placements.note(places)?;
        self.takings.note(takes)?;
        self.kept.note(keep)?;
        Ok(())
    }
}

impl Marks {
    ghost use Rattle.windows.specs.Pages.{numbers_of};
    ghost use Rattle.windows.specs.inner.Met.{IsNothing, Found, AreSame};

    /// Returns the marks of no records.
    pub(crate) fn new(alloc: Global) -> Self
        ensures { IsNothing result }
    {
        Marks {
            machine: WideMachine {
                version: Version::One,
                size: Size::Small,
                pages: 0,
                cells: 0,
            },
            init: Places::new(alloc),
            guest: GuestMarks::new(alloc),
            source: SourceMarks::new(alloc),
            link: Places::new(alloc),
            lane: Places::new(alloc),
            pager: PagerMarks::new(alloc),
        }
    }

    /// Takes the next page that does not begin as zeros.
    pub(crate) fn note_init(&mut self, guide: &Guide, given: &WideInit) -> Result<(), AllocError>
        ensures { (d : Recorded) → Found (numbers_of guide.now.window) guide.now.known self.old d → OnOk result (Found (numbers_of guide.now.window) guide.now.known self.new (with_init d (init_of given.now))) }
    {
        let keep = guide.window.has(given.page);
        self.init.note(keep)?;
        Ok(())
    }

    /// Takes the next record.
    #[inline(always)]
    pub(crate) fn note(&mut self, guide: &Guide, rec: &Wide) -> Result<(), AllocError>
        ensures { let Knows = Found (numbers_of guide.now.window) guide.now.known in (d : Recorded) (number : ℕ) → IsNext d number rec.now → Knows self.old d → OnOk result (Knows self.new (with_record d rec.now)) }
    {
        match rec {
            Wide::Guest(rec) => self.guest.note(guide, rec),
            Wide::Source(rec) => self.source.note(guide, rec),
            Wide::Link(rec) => {
                let keep = guide.keeps_link(&self.source.repeats, rec);
                self.link.note(keep)
            }
            Wide::Lane(rec) => {
                let keep = keeps_lane(&self.source.repeats, rec);
                self.lane.note(keep)
            }
            Wide::Pager(rec) => self.pager.note(guide, &self.link, &self.lane, rec),
        }
    }

    /// Returns whether the marks are the same.
    pub(crate) fn is_same(&self, other: &Marks) -> bool
        ensures same { result ≡ true → AreSame self.now other.now }
        ensures other { result ≡ false → ¬ AreSame self.now other.now }
    {
        self.guest.misses.is_same(&other.guest.misses)
            && self.guest.kept.is_same(&other.guest.kept)
            && self.source.sendings.is_same(&other.source.sendings)
            && self.source.repeats.is_same(&other.source.repeats)
            && self.source.kept.is_same(&other.source.kept)
            && self.link.is_same(&other.link)
            && self.lane.is_same(&other.lane)
            && self.pager.askings.is_same(&other.pager.askings)
            && self.pager.placements.is_same(&other.pager.placements)
            && self.pager.takings.is_same(&other.pager.takings)
            && self.pager.kept.is_same(&other.pager.kept)
    }
}
