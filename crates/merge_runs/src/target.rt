//! The machine at the target while the guest moves there.

ghost use Rattle.std.specs.Prelude.{◌≡◌, ◌<◌, IfOk, length, if◌then◌else◌};
ghost use Rattle.migration_types.specs.Memory.{with_cell, with_content, with_zeros};
ghost use Rattle.page_store.specs.Frames.{memory_of, IsWith};
ghost use Rattle.page_store.specs.Tables.{values};

use migration_types::{Geometry, PageNo};
use page_store::{Store, Table};
use std::alloc::{AllocError, Global};

/// The machine at the target.
#[derive(Drop)]
pub(crate) struct Target {
    /// Its frames.
    pub frames: Store,
    /// The pages that were placed, or released here.
    pub resident: Table<bool>,
    /// The pages that were placed.
    pub placed: Table<bool>,
    /// The pages that the guest read, wrote or released here.
    pub touched: Table<bool>,
}

impl Target {
    ghost use Rattle.merge_runs.specs.inner.Targets.{HasPage, IsBegun, IsFreed, IsPlaced, IsTouched};

    /// Returns the machine before the first record: zeros, and no page resident, placed or touched.
    pub(crate) fn start(alloc: Global, geometry: Geometry) -> Result<Target, AllocError>
        ensures { IfOk result (IsBegun geometry) }
    {
        let frames = Store::zeroed(alloc, geometry)?;
        let resident = Table::no_marks(alloc, geometry.pages())?;
        let placed = Table::no_marks(alloc, geometry.pages())?;
        let touched = Table::no_marks(alloc, geometry.pages())?;
        Ok(Target {
            frames,
            resident,
            placed,
            touched,
        })
    }

    /// Reads a page.
    pub(crate) fn touch(&mut self, page: PageNo)
        requires { HasPage self.old page }
        ensures { IsTouched self.old self.new page (memory_of self.old.frames) }
    {
        self.touched.set(page, true);
    }

    /// Writes a cell of a page. A page that is not resident does not change.
    pub(crate) fn write(&mut self, page: PageNo, cell: u16, value: u64)
        requires page { HasPage self.old page }
        requires cell { cell < self.old.frames.geometry.cells }
        ensures { IsTouched self.old self.new page (if values self.old.resident page then with_cell page cell value (memory_of self.old.frames) else memory_of self.old.frames) }
    {
        let resident = self.resident.at(page);
        write_if(resident, &mut self.frames, page, cell, value);
        self.touched.set(page, true);
    }

    /// Releases a page, which is resident from then on.
    pub(crate) fn release(&mut self, page: PageNo)
        requires { HasPage self.old page }
        ensures { IsFreed self.old self.new page (with_zeros page (memory_of self.old.frames)) }
    {
        self.frames.release(page);
        self.resident.set(page, true);
        self.touched.set(page, true);
    }

    /// Places a page with these contents.
    pub(crate) fn place(&mut self, page: PageNo, contents: &[u64])
        requires page { HasPage self.old page }
        requires contents { length contents.now ≡ self.old.frames.geometry.cells }
        ensures { IsPlaced self.old self.new page (with_content page contents.now (memory_of self.old.frames)) }
    {
        self.frames.install(page, contents);
        self.mark_placed(page);
    }

    /// Places a page as zeros.
    pub(crate) fn place_zeros(&mut self, page: PageNo)
        requires { HasPage self.old page }
        ensures { IsPlaced self.old self.new page (with_zeros page (memory_of self.old.frames)) }
    {
        self.frames.release(page);
        self.mark_placed(page);
    }

    /// Marks a page as placed, and so as resident.
    fn mark_placed(&mut self, page: PageNo)
        requires { HasPage self.old page }
        ensures { IsPlaced self.old self.new page (memory_of self.old.frames) }
    {
        self.resident.set(page, true);
        self.placed.set(page, true);
    }
}

/// Writes a value to a cell if the test is true.
fn write_if(test: bool, frames: &mut Store, page: PageNo, cell: u16, value: u64)
    requires page { page < frames.old.geometry.pages }
    requires cell { cell < frames.old.geometry.cells }
    ensures { IsWith frames.old frames.new (if test then with_cell page cell value (memory_of frames.old) else memory_of frames.old) }
{
    if test {
        frames.write(page, cell, value);
    }
}
