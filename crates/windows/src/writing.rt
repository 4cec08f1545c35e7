//! Writing the kept records.

ghost use Rattle.std.specs.Prelude.{ℕ, [], ◌∷◌, ◌++◌, List, OnOk};
ghost use Rattle.migration_types.specs.declared.pages.InitPage.{InitPage};
ghost use Rattle.migration_types.specs.Sessions.{Recorded};
ghost use Rattle.recordings.specs.Seen.{with_record, IsNext};
ghost use Rattle.recordings.specs.Wide.{init_of};
ghost use Rattle.windows.specs.Pages.{numbers_of};
ghost use Rattle.windows.specs.inner.Guided.{kept_line};
ghost use Rattle.windows.specs.inner.Met.{init_lines, IsSection, Written};

use crate::marking::Guide;
use crate::places::Places;
use crate::sections::{Section, Sections};
use recordings::{Wide, WideInit};
use std::alloc::AllocError;

impl Guide {
    /// Appends a page that does not begin as zeros, if it is of the window.
    pub(crate) fn write_init(
        &self,
        section: &mut Section,
        given: WideInit,
    ) -> Result<(), AllocError>
        ensures { (init : List InitPage) → IsSection section.old (init_lines (numbers_of self.now.window) init) → OnOk result (IsSection section.new (init_lines (numbers_of self.now.window) (init ++ init_of given ∷ []))) }
    {
        if self.window.has(given.page) {
            section.push_init(&self.window.new_init(given))?;
        }
        Ok(())
    }

    /// Appends a record to the section of its log, if these marks keep the record of this number.
    fn write_in(
        &self,
        kept: &Places,
        section: &mut Section,
        number: u64,
        mut rec: Wide,
    ) -> Result<(), AllocError>
        ensures { (lines : List (List ℕ)) → IsSection section.old lines → OnOk result (IsSection section.new (lines ++ kept_line (numbers_of self.now.window) self.now.known kept.now number rec)) }
    {
        if kept.has(number) {
            self.renumber(&mut rec);
            section.push(&rec)?;
        }
        Ok(())
    }

    /// Appends the record of this number of its log, if it is kept.
    pub(crate) fn write(
        &self,
        sections: &mut Sections,
        number: u64,
        rec: Wide,
    ) -> Result<(), AllocError>
        ensures { (d : Recorded) → IsNext d number rec → Written (numbers_of self.now.window) self.now.known sections.old d → OnOk result (Written (numbers_of self.now.window) self.now.known sections.new (with_record d rec)) }
    {
        let known = &self.known;
        match &rec {
            Wide::Guest(_) => self.write_in(&known.guest.kept, &mut sections.guest, number, rec),
            Wide::Source(_) => self.write_in(&known.source.kept, &mut sections.source, number, rec),
            Wide::Link(_) => self.write_in(&known.link, &mut sections.link, number, rec),
            Wide::Lane(_) => self.write_in(&known.lane, &mut sections.lane, number, rec),
            Wide::Pager(_) => self.write_in(&known.pager.kept, &mut sections.pager, number, rec),
        }
    }
}
