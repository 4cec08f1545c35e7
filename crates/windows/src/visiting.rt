//! Visitors of a recording that mark the kept records, and that write them.

ghost use Rattle.std.specs.Prelude.{◌≡◌};

use crate::marking::{Guide, Marks};
use crate::pages::Window;
use crate::sections::Sections;
use recordings::{Visitor, Wide, WideInit, WideMachine};
use std::alloc::{AllocError, Global};
use std::marker::{Brand, PhantomData};

/// What one pass goes by, which stays the same from its beginning to its end. Only proofs use this.
pub(crate) trait Way {
    ghost use Rattle.windows.specs.declared.marking.Guide.{Guide};

    ghost guide: { Guide };
}

impl Way for Brand {
    ghost use Rattle.windows.specs.inner.Met.{no_guide};

    ghost guide = { no_guide };
}

/// A visitor that marks the kept records.
#[derive(Drop)]
pub(crate) struct Marking<W> {
    pub(crate) guide: Guide,
    pub(crate) found: Marks,
    of: PhantomData<W>,
}

impl<W> Marking<W> {
    ghost use Rattle.windows.specs.inner.Met.{IsNothing};

    /// Returns a visitor that has met nothing, and goes by the marks of the pass before.
    pub(crate) fn new(alloc: Global, window: Window, known: Marks) -> Self
        ensures found { IsNothing result.found }
        ensures guide { result.guide ≡ record { window = window; known = known } }
    {
        Marking {
            guide: Guide { window, known },
            found: Marks::new(alloc),
            of: PhantomData,
        }
    }

    /// Returns the marks that it found.
    pub(crate) fn into_found(self) -> Marks
        ensures { result ≡ self.found }
    {
        drop(self.guide);
        self.found
    }
}

impl<W: Way> Visitor for Marking<W> {
    ghost use Rattle.windows.specs.Pages.{numbers_of};
    ghost use Rattle.windows.specs.inner.Met.{IsNothing, Found};

    ghost IsNew = { λ a. IsNothing a.found × (a.guide ≡ W.guide) };

    ghost Met = { λ a d. (a.guide ≡ W.guide) × Found (numbers_of a.guide.window) a.guide.known a.found d };

    fn machine(&mut self, machine: &WideMachine) -> Result<(), AllocError> {
        self.found.machine = *machine;
        Ok(())
    }

    fn init(&mut self, page: WideInit) -> Result<(), AllocError> {
        self.found.note_init(&self.guide, &page)
    }

    #[inline(always)]
    fn record(&mut self, number: u64, rec: Wide) -> Result<(), AllocError> {
        let _ = number;
        self.found.note(&self.guide, &rec)
    }
}

/// A visitor that writes the records that are kept by known marks. It also marks the kept records, which shows whether
/// the known marks were right.
#[derive(Drop)]
pub(crate) struct Writing<W> {
    pub(crate) guide: Guide,
    pub(crate) found: Marks,
    pub(crate) sections: Sections,
    of: PhantomData<W>,
}

impl<W> Writing<W> {
    ghost use Rattle.windows.specs.inner.Met.{IsNothing, IsBlank};

    /// Returns a visitor that has met nothing, and goes by the marks of the pass before.
    pub(crate) fn new(alloc: Global, window: Window, known: Marks) -> Self
        ensures found { IsNothing result.found }
        ensures blank { IsBlank result.sections }
        ensures guide { result.guide ≡ record { window = window; known = known } }
    {
        Writing {
            guide: Guide { window, known },
            found: Marks::new(alloc),
            sections: Sections::new(alloc),
            of: PhantomData,
        }
    }
}

impl<W: Way> Visitor for Writing<W> {
    ghost use Rattle.windows.specs.inner.Met.{IsNothing, IsBlank};
    ghost use Rattle.windows.specs.inner.Settled.{Meets};

    ghost IsNew = { λ a. IsNothing a.found × IsBlank a.sections × (a.guide ≡ W.guide) };

    ghost Met = { λ a d. (a.guide ≡ W.guide) × Meets a d };

    fn machine(&mut self, machine: &WideMachine) -> Result<(), AllocError> {
        self.found.machine = *machine;
        Ok(())
    }

    fn init(&mut self, page: WideInit) -> Result<(), AllocError> {
        self.found.note_init(&self.guide, &page)?;
        self.guide.write_init(&mut self.sections.init, page)?;
        Ok(())
    }

    #[inline(always)]
    fn record(&mut self, number: u64, rec: Wide) -> Result<(), AllocError> {
        self.found.note(&self.guide, &rec)?;
        self.guide.write(&mut self.sections, number, rec)?;
        Ok(())
    }
}
