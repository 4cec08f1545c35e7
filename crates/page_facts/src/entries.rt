//! The entries of a certificate, judged where their pages are judged.

ghost use Rattle.std.specs.Prelude.{◌≡◌, ◌+◌, ◌<◌, ◌↔◌, IsTrue, length};
ghost use Rattle.audit_model.specs.Certificates.{IsRightEntry};
ghost use Rattle.page_facts.specs.Findings.{IsFindings};
ghost use Rattle.page_facts.specs.Entries.{AreJudged};
ghost use Rattle.page_facts.specs.inner.EntryAt.{IsRightAt};

use crate::facts::facts_of;
use crate::findings::Findings;
use crate::question::Question;
use crate::right_entry::is_right_entry;
use migration_types::{Entry, PageNo, Session};
use std::alloc::{AllocError, Global};

/// The question for the first page whose entry in a certificate is not right.
#[derive(Clone, Copy)]
pub(crate) struct Entries<'a> {
    /// An entry for each page, page 0 first.
    pub(crate) entries: &'a [Entry],
}

/// Returns whether a page's entry is right, given the findings about the page.
fn is_right(session: &Session, findings: &Findings, page: PageNo, entry: &Entry) -> bool
    requires { IsFindings session.now page findings.now }
    ensures { IsTrue result ↔ IsRightEntry session.now page entry.now }
{
    let facts = facts_of(session, findings, page);
    is_right_entry(session, page, &facts, entry)
}

/// Returns whether the entry of this page among those of all is right.
fn is_right_at(session: &Session, findings: &Findings, page: PageNo, entries: &[Entry]) -> bool
    requires findings { IsFindings session.now page findings.now }
    requires entries { page < length entries.now }
    ensures { IsRightAt session.now entries.now page result }
{
    is_right(session, findings, page, &entries[page.index()])
}

impl Question for Entries<'_> {
    type Answer = Option<usize>;

    ghost IsFor = { λ q s. length q.entries.now ≡ s.geometry.pages };

    ghost IsAnswer = { λ q s first count wrong. AreJudged s q.entries.now first (first + count) wrong };

    fn blank(&self, _alloc: Global, _room: usize) -> Result<Option<usize>, AllocError> {
        Ok(None)
    }

    fn take(
        &self,
        wrong: &mut Option<usize>,
        session: &Session,
        page: PageNo,
        findings: &Findings,
    ) -> Result<(), AllocError> {
        if let Some(_) = wrong {
            return Ok(());
        }
        if is_right_at(session, findings, page, self.entries) {
            return Ok(());
        }
        *wrong = Some(page.index());
        Ok(())
    }

    fn add(&self, wrong: &mut Option<usize>, next: Option<usize>) -> Result<(), AllocError> {
        match wrong {
            Some(_) => {}
            None => *wrong = next,
        }
        Ok(())
    }
}
