//! The initial pages that are held, page by page.

ghost use Rattle.std.specs.Prelude.{◌≡◌, ◌≤◌, ◌<◌, ◌++◌, ◌∷◌, [], ◌↔◌, IsTrue, IfOk, List, MatchBool, OnOk};
ghost use Rattle.migration_types.specs.Contents.{IsContent};
ghost use Rattle.migration_types.specs.Extents.{Extent};
ghost use Rattle.migration_types.specs.Pages.{AreZeros};
ghost use Rattle.migration_types.specs.declared.pages.InitPage.{InitPage as Page};
ghost use Rattle.recordings.specs.Wide.{init_of};
ghost use Rattle.walked_sessions.specs.Kept.{IsInit};
ghost use Rattle.walked_sessions.specs.inner.Kept.{IsNoInit};

use crate::records::is_content;
use migration_types::{Geometry, InitPage, PageNo, Seq};
use recordings::WideInit;
use std::alloc::{AllocError, Global};

/// Initial pages, whose numbers rise.
#[derive(Drop)]
pub(crate) struct HeldInit {
    pages: Vec<InitPage>,
    /// The least number that the next one may have.
    low: u32,
}

/// Returns whether all cells are zero.
fn are_zeros(cells: &[u64]) -> bool
    ensures { IsTrue result ↔ AreZeros cells.now }
{
    cells.iter().all(|&value| value == 0)
}

/// Returns whether the machine may have an initial page, with a number from `low` on.
fn may_have(machine: Geometry, low: u32, page: &WideInit) -> bool
    ensures { IsTrue result ↔ ((low ≤ page.now.page) × (page.now.page < machine.pages) × IsContent machine.cells page.now.cells × (AreZeros page.now.cells → ⊥)) }
{
    page.page >= u64::from(low)
        && page.page < u64::from(machine.pages())
        && is_content(machine.cells(), page.cells.as_slice())
        && !are_zeros(page.cells.as_slice())
}

impl HeldInit {
    /// Returns no pages.
    pub(crate) fn new(alloc: Global) -> Self
        ensures pages { result.pages.items ≡ [] }
        ensures low { result.low ≡ 0 }
    {
        HeldInit {
            pages: Vec::new(alloc),
            low: 0,
        }
    }

    /// Takes memory for so many pages more.
    pub(crate) fn make_room(&mut self, pages: usize) -> Result<(), AllocError>
        ensures { (machine : Extent) (held : List Page) → IsInit machine self.old held → OnOk result (IsInit machine self.new held) }
    {
        self.pages.reserve(pages)?;
        Ok(())
    }

    /// Takes the next page, and returns whether a session of the machine may have it behind those before.
    pub(crate) fn take(&mut self, machine: Geometry, page: WideInit) -> Result<bool, AllocError>
        ensures { IfOk result (λ taken. (pages : List Page) → IsInit machine self.old pages → MatchBool taken (IsInit machine self.new (pages ++ init_of page ∷ [])) (IsNoInit machine (pages ++ init_of page ∷ []))) }
    {
        if !may_have(machine, self.low, &page) {
            return Ok(false);
        }
        machine.keeps_limits();
        let number = page.page as u32;
        self.pages.push(InitPage {
            page: PageNo::new(number),
            cells: page.cells,
        })?;
        self.low = number + 1;
        Ok(true)
    }

    /// Returns the pages. Allocates no memory.
    pub(crate) fn into_pages(self) -> Seq<InitPage>
        ensures { result ≡ self.pages.items }
    {
        Seq::from_vec(self.pages)
    }
}
