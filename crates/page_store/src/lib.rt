//! The frames of one machine, which are a value for each cell of each page; and tables with a value for each page.
#![tactic(auto)]

ghost use Rattle.std.specs.Prelude.{◌≡◌, ◌<◌, ◌≤◌, ◌*◌, ◌+◌, ◌++◌, IfOk, length, replicate, take, drop};
ghost use Rattle.std.specs.List.{AllByRecursion};

mod cells;
mod tables;

use cells::Cells;
use migration_types::{Geometry, InitPage, PageNo};
use std::alloc::{AllocError, Global};
use std::marker::Model;
pub use tables::Table;

/// The frames of a machine: a value for each cell of each page. Only the constructors allocate memory: one block for
/// all frames, and one of a byte for each 64 cells.
#[derive(Drop)]
pub struct Store {
    geometry: Geometry,
    items: Cells,
}

impl Model for Store {
    ghost use Rattle.std.specs.Prelude.{◌≡◌, ◌*◌, length};
    ghost use Rattle.page_store.specs.Frames.{Frames};

    ghost Value = { Frames };

    ghost view = { λ s. record { geometry = s.geometry; items = s.items } };

    ghost invariant = { λ s. length s.items ≡ s.geometry.pages * s.geometry.cells };
}

impl Store {
    ghost use Rattle.migration_types.specs.Memory.{initial, zeros, page_of, with_cell, with_content, with_zeros};
    ghost use Rattle.page_store.specs.Frames.{IsPageOf, memory_of, IsWith};

    /// Returns the frames of a machine whose cells are all 0. Fails only if memory runs out.
    pub fn zeroed(alloc: Global, geometry: Geometry) -> Result<Store, AllocError>
        ensures geometry { IfOk result (λ s. s.geometry ≡ geometry) }
        ensures memory { IfOk result (λ s. memory_of s ≡ zeros) }
    {
        geometry.keeps_limits();
        let count = geometry.pages() as usize * geometry.cells() as usize;
        let items = Cells::zeroed(alloc, count)?;
        Ok(Store { geometry, items })
    }

    /// Returns the frames of a machine that begins with these pages, and with zeros elsewhere. If a page is given
    /// twice, the first counts. Fails only if memory runs out.
    pub fn from_init(
        alloc: Global,
        geometry: Geometry,
        init: &[InitPage],
    ) -> Result<Store, AllocError>
        requires { AllByRecursion (IsPageOf geometry) init.now }
        ensures geometry { IfOk result (λ s. s.geometry ≡ geometry) }
        ensures memory { IfOk result (λ s. memory_of s ≡ initial init.now) }
    {
        let mut store = Store::zeroed(alloc, geometry)?;
        let mut left = init.len();
        while left > 0 {
            left -= 1;
            let given = &init[left];
            store.install(given.page, given.cells.as_slice());
        }
        Ok(store)
    }

    /// Returns the value of a cell.
    pub fn read(&self, page: PageNo, cell: u16) -> u64
        requires page { page < self.now.geometry.pages }
        requires cell { cell < self.now.geometry.cells }
        ensures { result ≡ memory_of self.now page cell }
    {
        self.items.at(page.index() * self.geometry.cells() as usize + cell as usize)
    }

    /// Sets the value of a cell.
    pub fn write(&mut self, page: PageNo, cell: u16, value: u64)
        requires page { page < self.old.geometry.pages }
        requires cell { cell < self.old.geometry.cells }
        ensures { IsWith self.old self.new (with_cell page cell value (memory_of self.old)) }
    {
        let at = page.index() * self.geometry.cells() as usize + cell as usize;
        self.items.set(at, value);
    }

    /// Sets each cell of a page to 0. This takes no longer than the writes to its cells since it was last released.
    pub fn release(&mut self, page: PageNo)
        requires { page < self.old.geometry.pages }
        ensures { IsWith self.old self.new (with_zeros page (memory_of self.old)) }
    {
        let cells = self.geometry.cells() as usize;
        self.items.clear(page.index() * cells, cells);
    }

    /// Returns the values of a page, cell 0 first.
    pub fn page(&self, page: PageNo) -> &[u64]
        requires { page < self.now.geometry.pages }
        ensures { result.now ≡ page_of self.now.geometry.cells (memory_of self.now) page }
    {
        let cells = self.geometry.cells() as usize;
        let from = page.index() * cells;
        self.items.slice(from, from + cells)
    }

    /// Sets the values of a page, cell 0 first.
    pub fn install(&mut self, page: PageNo, content: &[u64])
        requires page { page < self.old.geometry.pages }
        requires content { length content.now ≡ self.old.geometry.cells }
        ensures { IsWith self.old self.new (with_content page content.now (memory_of self.old)) }
    {
        let from = page.index() * self.geometry.cells() as usize;
        self.items.put(from, content);
    }

    /// Returns the machine's geometry.
    pub fn geometry(&self) -> Geometry
        ensures { result ≡ self.now.geometry }
    {
        self.geometry
    }
}
