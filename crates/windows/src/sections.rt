//! The lines of the kept records.

ghost use Rattle.std.specs.Prelude.{◌≡◌, ℕ, ◌+◌, [], ◌∷◌, ◌++◌, List, IfOk, OnOk};
ghost use Rattle.session_grammar.specs.Grammar.{page_line};
ghost use Rattle.recordings.specs.Wide.{init_of, wide_line};

use recordings::{Wide, WideInit};
use std::alloc::{AllocError, Global};

/// Lines, each ended by LF, and how many there are.
#[derive(Drop)]
pub(crate) struct Section {
    pub(crate) count: u64,
    pub(crate) lines: Vec<u8>,
}

/// The lines of the initial pages, and of each log.
#[derive(Drop)]
pub(crate) struct Sections {
    pub(crate) init: Section,
    pub(crate) guest: Section,
    pub(crate) source: Section,
    pub(crate) link: Section,
    pub(crate) lane: Section,
    pub(crate) pager: Section,
}

impl Section {
    ghost use Rattle.windows.specs.inner.Met.{IsSection};

    fn new(alloc: Global) -> Self
        ensures { IsSection result [] }
    {
        Section {
            count: 0,
            lines: Vec::new(alloc),
        }
    }

    /// Returns the number of lines with one more.
    fn one_more(&self) -> Result<u64, AllocError>
        ensures { IfOk result (λ more. more ≡ self.now.count + 1) }
    {
        self.count.checked_add(1).ok_or(AllocError)
    }

    /// Appends a page that does not begin as zeros.
    pub(crate) fn push_init(&mut self, given: &WideInit) -> Result<(), AllocError>
        ensures { (lines : List (List ℕ)) → IsSection self.old lines → OnOk result (IsSection self.new (lines ++ page_line (init_of given.now) ∷ [])) }
    {
        self.count = self.one_more()?;
        given.push(&mut self.lines)?;
        Ok(())
    }

    /// Appends a record.
    pub(crate) fn push(&mut self, rec: &Wide) -> Result<(), AllocError>
        ensures { (lines : List (List ℕ)) → IsSection self.old lines → OnOk result (IsSection self.new (lines ++ wide_line rec.now ∷ [])) }
    {
        self.count = self.one_more()?;
        rec.push(&mut self.lines)?;
        Ok(())
    }
}

impl Sections {
    ghost use Rattle.windows.specs.inner.Met.{IsBlank};

    /// Returns sections with no lines.
    pub(crate) fn new(alloc: Global) -> Self
        ensures { IsBlank result }
    {
        Sections {
            init: Section::new(alloc),
            guest: Section::new(alloc),
            source: Section::new(alloc),
            link: Section::new(alloc),
            lane: Section::new(alloc),
            pager: Section::new(alloc),
        }
    }
}
