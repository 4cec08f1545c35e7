//! Records numbered anew.

ghost use Rattle.std.specs.Prelude.{◌≡◌, ◌-◌};
ghost use Rattle.recordings.specs.Wide.{init_of, wide_line};
ghost use Rattle.audit_model.specs.Windows.{new_init, rank};
ghost use Rattle.windows.specs.Pages.{numbers_of};
ghost use Rattle.windows.specs.inner.Guided.{reach_by, new_line_by};

use crate::marking::Guide;
use crate::pages::Window;
use recordings::{Wide, WideGuest, WideInit, WideLane, WideLink, WidePager, WideSource};

impl Window {
    /// Returns an initial page, by its number in the window.
    pub(crate) fn new_init(&self, given: WideInit) -> WideInit
        ensures { init_of result ≡ new_init (numbers_of self.now) (init_of given) }
    {
        WideInit {
            page: self.number(given.page),
            cells: given.cells,
        }
    }
}

impl Guide {
    /// Numbers a record's page and what it names anew.
    pub(crate) fn renumber(&self, rec: &mut Wide)
        ensures { wide_line rec.new ≡ new_line_by (numbers_of self.now.window) self.now.known rec.old }
    {
        let known = &self.known;
        match rec {
            Wide::Guest(WideGuest::Read { page, .. }) => *page = self.window.number(*page),
            Wide::Guest(WideGuest::Write { page, .. }) => *page = self.window.number(*page),
            Wide::Guest(WideGuest::Release { page, .. }) => *page = self.window.number(*page),
            Wide::Guest(WideGuest::Miss { page, .. }) => *page = self.window.number(*page),
            Wide::Guest(WideGuest::Resume { ready }) => *ready = known.pager.kept.rank(*ready),
            Wide::Guest(WideGuest::See { placement }) => *placement = self.new_look(*placement),
            Wide::Source(WideSource::Halted { halt }) => *halt = known.guest.kept.rank(*halt),
            Wide::Source(WideSource::Send { page, .. }) => *page = self.window.number(*page),
            Wide::Source(WideSource::Again { sending }) => {
                *sending = known.source.kept.rank(*sending)
            }
            Wide::Source(WideSource::Ask { up }) => *up = known.link.rank(*up),
            Wide::Link(WideLink::Down { sending }) => *sending = known.source.kept.rank(*sending),
            Wide::Link(WideLink::Up { asking }) => *asking = known.pager.kept.rank(*asking),
            Wide::Lane(WideLane::Down { sending }) => *sending = known.source.kept.rank(*sending),
            Wide::Pager(rec) => match rec {
                WidePager::Got { down } => *down = known.link.rank(*down),
                WidePager::Pull { down } => *down = known.lane.rank(*down),
                WidePager::Fault { miss } => *miss = known.guest.kept.rank(*miss),
                WidePager::Join { want } => *want = known.pager.kept.rank(*want),
                WidePager::Want { page } => *page = self.window.number(*page),
                WidePager::Place { page, got, .. } => {
                    *page = self.window.number(*page);
                    *got = known.pager.kept.rank(*got);
                }
                WidePager::Zero { page } => *page = self.window.number(*page),
                WidePager::Skip { got } => *got = known.pager.kept.rank(*got),
                WidePager::Ready | WidePager::All => {}
            },
            Wide::Guest(WideGuest::Halt)
            | Wide::Source(WideSource::State | WideSource::Done | WideSource::Back) => {}
        }
    }

    /// Returns what a look names in the window: the newest placement of the window that it saw.
    fn new_look(&self, placement: u64) -> u64
        ensures { result ≡ rank self.now.known.pager.kept (reach_by self.now.known placement - 1) }
    {
        match self.known.pager.placements.newest(placement) {
            Some(seen) => self.known.pager.kept.rank(seen),
            None => 0,
        }
    }
}
