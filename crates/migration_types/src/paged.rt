//! The page of a record: the page that the guest reads, writes or releases, that the source sends for the first time,
//! or that the pager places.

ghost use Rattle.std.specs.Prelude.{◌≡◌, ℕ, Option};
ghost use Rattle.migration_types.specs.Paged.{guest_page, source_page, pager_page, init_page};

use crate::{GuestRec, InitPage, PageNo, PagerRec, SourceRec};

/// A record or an initial page, which may have a page.
pub trait Paged {
    /// The page that it has.
    ghost page: { Self → Option ℕ };

    /// Returns the page that it has. Allocates no memory.
    fn page(&self) -> Option<PageNo>
        ensures { result ≡ page self.now };
}

impl Paged for InitPage {
    ghost page = { init_page };

    /// Returns the initial page's number.
    fn page(&self) -> Option<PageNo> {
        Some(self.page)
    }
}

impl Paged for GuestRec {
    ghost page = { guest_page };

    /// Returns the page that is read, written or released.
    fn page(&self) -> Option<PageNo> {
        match *self {
            GuestRec::Read { page, .. } => Some(page),
            GuestRec::Write { page, .. } => Some(page),
            GuestRec::Release { page, .. } => Some(page),
            _ => None,
        }
    }
}

impl Paged for SourceRec {
    ghost page = { source_page };

    /// Returns the page that is sent for the first time.
    fn page(&self) -> Option<PageNo> {
        match self {
            SourceRec::Send { page, .. } => Some(*page),
            _ => None,
        }
    }
}

impl Paged for PagerRec {
    ghost page = { pager_page };

    /// Returns the page that is placed.
    fn page(&self) -> Option<PageNo> {
        match self {
            PagerRec::Place { page, .. } => Some(*page),
            PagerRec::Zero { page } => Some(*page),
            _ => None,
        }
    }
}
