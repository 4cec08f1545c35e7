//! The pages of a session that have a fault, each with its first fault, and how many such pages there are.

ghost use Rattle.std.specs.Prelude.{⊤, ◌≡◌, ℕ, [], IfOk};
ghost use Rattle.std.specs.Thread.{IsSync};
ghost use Rattle.migration_types.specs.Sessions.{IsSession, Recorded};
ghost use Rattle.audit_model.specs.Faults.{HasNoPageFault};
ghost use Rattle.page_facts.specs.PageFaults.{IsFirstFault};
ghost use Rattle.page_facts.specs.FaultyPages.{AreFaultyFrom, AreFaultyPages, AreManyFaulty, AreManyFrom, IsFaultyPage};

use crate::{Findings, InThreads, Judges, PageFault, Question, answer_apart, fault_of};
use migration_types::{PageNo, Session, line_of};
use std::alloc::{AllocError, Global};
use std::marker::Sync;
use std::thread::Threads;

/// A page with a fault, and the first of its faults.
#[derive(Clone, Copy, Debug, PartialEq, Eq)]
pub struct FaultyPage {
    /// The line at which the session's text has the faulty record. Lines count from 1.
    pub line: u32,
    /// The fault of the page's records with the least line, and then the least reason.
    pub fault: PageFault,
}

/// Returns a page with its first fault and that fault's line.
fn with_line(session: &Session, _page: PageNo, fault: PageFault) -> FaultyPage
    requires { IsFirstFault session.now _page fault }
    ensures page { result.fault.page ≡ _page }
    ensures first { IsFaultyPage session.now result }
{
    let line = line_of(session, fault.log, fault.place);
    FaultyPage { line, fault }
}

/// The question for the pages that have a fault, with the first fault of each.
#[derive(Clone, Copy)]
pub struct Faults;

impl Question for Faults {
    type Answer = Vec<FaultyPage>;

    ghost IsFor = { λ q s. ⊤ };

    ghost IsAnswer = { λ q s first count found. AreFaultyFrom s first count found.items };

    fn blank(&self, alloc: Global, _room: usize) -> Result<Vec<FaultyPage>, AllocError> {
        Ok(Vec::new(alloc))
    }

    fn take(
        &self,
        faulty: &mut Vec<FaultyPage>,
        session: &Session,
        page: PageNo,
        findings: &Findings,
    ) -> Result<(), AllocError> {
        match fault_of(session, findings, page) {
            Some(fault) => faulty.push(with_line(session, page, fault))?,
            None => {}
        }
        Ok(())
    }

    fn add(&self, faulty: &mut Vec<FaultyPage>, next: Vec<FaultyPage>) -> Result<(), AllocError> {
        let mut next = next;
        faulty.append(&mut next)?;
        Ok(())
    }
}

/// The question for the number of pages that have a fault.
#[derive(Clone, Copy)]
pub struct HowMany;

impl Question for HowMany {
    type Answer = usize;

    ghost IsFor = { λ q s. ⊤ };

    ghost IsAnswer = { λ q s first count many. AreManyFrom s first count many };

    fn blank(&self, _alloc: Global, _room: usize) -> Result<usize, AllocError> {
        Ok(0)
    }

    fn take(
        &self,
        many: &mut usize,
        session: &Session,
        page: PageNo,
        findings: &Findings,
    ) -> Result<(), AllocError> {
        match fault_of(session, findings, page) {
            Some(_) => *many = many.saturating_add(1),
            None => {}
        }
        Ok(())
    }

    fn add(&self, many: &mut usize, next: usize) -> Result<(), AllocError> {
        *many = many.saturating_add(next);
        Ok(())
    }
}

impl<R: Threads + Sync> Judges<Faults> for InThreads<'_, R> {
    ghost ready = { IsSync R.row };

    fn ask(
        &self,
        question: &Faults,
        alloc: Global,
        session: &Session,
    ) -> Result<Vec<FaultyPage>, AllocError> {
        answer_apart(self.rt, question, alloc, session)
    }
}

/// A law: a session with no fault of a page has no page with a fault. Runs nothing.
pub fn clean_sessions_have_no_faulty_page()
    ensures { (s : Recorded) → HasNoPageFault s → AreFaultyPages s [] }
{}

/// A law: a session has as many faulty pages as are found among all its pages. Runs nothing.
pub fn many_of_pages_are_many()
    ensures { (s : Recorded) (many : ℕ) → IsSession s → AreManyFrom s 0 s.geometry.pages many → AreManyFaulty s many }
{}

/// Returns each page of a session that has a fault, in the order of pages, with its first fault: the one of the page's
/// records with the least line, and then the least reason. A page that is not in the list is clean. This does not check
/// the right shape: a fault of a page means that the session is unsafe only if it has the right shape and a merging.
///
/// Makes a few passes over each log, and allocates memory for some numbers for each page, for the cells of all pages,
/// and for a number or two for each faulty page. Fails only if memory runs out.
pub fn faulty_pages<J: Judges<Faults>>(
    judges: &J,
    alloc: Global,
    session: &Session,
) -> Result<Vec<FaultyPage>, AllocError>
    requires ready { J.ready }
    ensures { IfOk result (λ found. AreFaultyPages session.now found.items) }
{
    judges.ask(&Faults, alloc, session)
}
