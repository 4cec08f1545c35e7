//! The audit of a session.

ghost use Rattle.std.specs.Prelude.{⊤, ◌↔◌, IfOk, MatchOption};
ghost use Rattle.std.specs.Thread.{IsSync};
ghost use Rattle.migration_types.specs.Sessions.{IsSession};
ghost use Rattle.audit_model.specs.Mergings.{HasMerging};
ghost use Rattle.audit_model.specs.World.{IsSafe};
ghost use Rattle.audit_model.specs.Shape.{IsRightShape};
ghost use Rattle.audit_model.specs.Faults.{HasNoPageFault};
ghost use Rattle.audit_model.specs.FirstFault.{IsFirstPageFault};
ghost use Rattle.page_facts.specs.PageFaults.{HasItsPage, IsFirstFault, IsFirstFaultFrom, IsClean as IsCleanPage};
ghost use Rattle.page_facts.specs.FaultyPages.{AreFaultyPages, AreManyFaulty, AreManyFrom};
ghost use Rattle.cert_maker.specs.Orders.{AreFoundRuns};
ghost use Rattle.cert_maker.specs.Made.{AreMadeFrom, HasBarePage};
ghost use Rattle.audit_report.specs.Reports.{IsReport, IsClean, JudgesPages, ReportFits};
ghost use Rattle.audit_report.specs.inner.Full.{IsFullAudit, IsOrderOrReport};

use crate::orders::order_for;
use crate::question_pair::QuestionPair;
use crate::report::{FullAudit, Report};
use audit_model::{clean_is_certified, faults_are_unsafe};
use cert_check::shape;
use cert_maker::{MadeEntries, Order, find_order, make_over};
use migration_types::{Entry, PageNo, Run, Seq, Session, line_of};
use page_facts::{
    Faults, FaultyPage, Findings, FirstFault, HowMany, InThreads, Judges, OneThread, PageFault,
    Question, answer_apart, fault_of, first_of_pages_is_first, is_judged_alone,
    many_of_pages_are_many,
};
use std::alloc::{AllocError, Global};
use std::marker::Sync;
use std::thread::{Threads, join};

/// What an audit takes from the findings about pages.
#[derive(Drop)]
pub struct AuditFacts {
    /// The first fault of the pages.
    pub fault: Option<PageFault>,
    /// How many of the pages have a fault.
    pub faulty: usize,
    /// The pages' entries in a certificate, or `None` if one of them has no right entry.
    pub entries: Option<Vec<Entry>>,
}

/// Returns how many pages have a fault, of this one with this first fault.
fn many_in(_session: &Session, _page: PageNo, fault: &Option<PageFault>) -> usize
    requires { MatchOption fault.now (IsCleanPage _session.now _page) (IsFirstFault _session.now _page) }
    ensures { AreManyFrom _session.now _page 1 result }
{
    match fault {
        Some(_) => 1,
        None => 0,
    }
}

/// The question for the first fault of the pages, how many have a fault, and their entries.
#[derive(Clone, Copy)]
pub struct FaultAndEntries;

impl Question for FaultAndEntries {
    type Answer = AuditFacts;

    ghost IsFor = { λ q s. ⊤ };

    ghost IsAnswer = { λ q s first count audited. IsFirstFaultFrom s first count audited.fault × AreManyFrom s first count audited.faulty × MatchOption audited.entries (HasBarePage s) (λ entries. AreMadeFrom s first count entries.items) };

    fn blank(&self, alloc: Global, room: usize) -> Result<AuditFacts, AllocError> {
        let fault = FirstFault.blank(alloc, room)?;
        let faulty = HowMany.blank(alloc, room)?;
        let entries = MadeEntries.blank(alloc, room)?;
        Ok(AuditFacts {
            fault,
            faulty,
            entries,
        })
    }

    fn take(
        &self,
        audited: &mut AuditFacts,
        session: &Session,
        page: PageNo,
        findings: &Findings,
    ) -> Result<(), AllocError> {
        let fault = fault_of(session, findings, page);
        let many = many_in(session, page, &fault);
        FirstFault.add(&mut audited.fault, fault)?;
        HowMany.add(&mut audited.faulty, many)?;
        MadeEntries.take(&mut audited.entries, session, page, findings)?;
        Ok(())
    }

    fn add(&self, audited: &mut AuditFacts, next: AuditFacts) -> Result<(), AllocError> {
        FirstFault.add(&mut audited.fault, next.fault)?;
        HowMany.add(&mut audited.faulty, next.faulty)?;
        MadeEntries.add(&mut audited.entries, next.entries)?;
        Ok(())
    }
}

impl<R: Threads + Sync> Judges<FaultAndEntries> for InThreads<'_, R> {
    ghost ready = { IsSync R.row };

    fn ask(
        &self,
        question: &FaultAndEntries,
        alloc: Global,
        session: &Session,
    ) -> Result<AuditFacts, AllocError> {
        answer_apart(self.rt, question, alloc, session)
    }
}

impl<R: Threads + Sync> Judges<QuestionPair<FaultAndEntries, Faults>> for InThreads<'_, R> {
    ghost ready = { IsSync R.row };

    fn ask(
        &self,
        question: &QuestionPair<FaultAndEntries, Faults>,
        alloc: Global,
        session: &Session,
    ) -> Result<(AuditFacts, Vec<FaultyPage>), AllocError> {
        answer_apart(self.rt, question, alloc, session)
    }
}

/// Returns the report on a session with no fault, over the runs of its found order, with the entries of its pages.
fn clean(session: &Session, entries: Option<Vec<Entry>>, found: Seq<Run>) -> Report
    requires limits { IsSession session.now }
    requires shape { IsRightShape session.now }
    requires entries { MatchOption entries (HasBarePage session.now) (λ made. AreMadeFrom session.now 0 session.now.geometry.pages made.items) }
    requires found { AreFoundRuns session.now found }
    requires no_fault { HasNoPageFault session.now }
    ensures { IsReport session.now result }
{
    clean_is_certified();
    match entries {
        Some(entries) => Report::Clean(make_over(session, entries, found)),
        None => unreachable!(),
    }
}

/// Returns the report on a session with this first fault, whose found order has these runs, and of which this many
/// pages have a fault.
fn faulty(
    alloc: Global,
    session: &Session,
    found: Seq<Run>,
    fault: &PageFault,
    pages: usize,
) -> Result<Report, AllocError>
    requires limits { IsSession session.now }
    requires shape { IsRightShape session.now }
    requires found { AreFoundRuns session.now found }
    requires fault { IsFirstPageFault session.now fault.now.reason (fault.now.log, fault.now.place) }
    requires of { HasItsPage session.now fault.now }
    requires many { AreManyFaulty session.now pages }
    ensures { IfOk result (IsReport session.now) }
{
    let line = line_of(session, fault.log, fault.place);
    let order = order_for(alloc, session, found, fault)?;
    Ok(Report::Faulty {
        line,
        fault: *fault,
        order,
        pages,
    })
}

/// Returns the report on a session of the right shape, over the runs of its found order, given what was found about its
/// pages.
fn by_pages(
    alloc: Global,
    session: &Session,
    found: Seq<Run>,
    audited: AuditFacts,
) -> Result<Report, AllocError>
    requires limits { IsSession session.now }
    requires shape { IsRightShape session.now }
    requires found { AreFoundRuns session.now found }
    requires fault { IsFirstFaultFrom session.now 0 session.now.geometry.pages audited.fault }
    requires many { AreManyFrom session.now 0 session.now.geometry.pages audited.faulty }
    requires entries { MatchOption audited.entries (HasBarePage session.now) (λ made. AreMadeFrom session.now 0 session.now.geometry.pages made.items) }
    ensures { IfOk result (IsReport session.now) }
{
    first_of_pages_is_first();
    many_of_pages_are_many();
    let AuditFacts {
        fault,
        faulty: pages,
        entries,
    } = audited;
    match fault {
        Some(fault) => faulty(alloc, session, found, &fault, pages),
        None => Ok(clean(session, entries, found)),
    }
}

/// What an audit knows before it judges the pages.
#[derive(Drop)]
pub(crate) enum OrderOrReport {
    /// The runs of the found order, with which the pages are judged.
    Order(Seq<Run>),
    /// The report, for which no page is judged.
    Report(Report),
}

/// Returns the runs of a session's found order if the session has the right shape and a merging, and otherwise the
/// report on it.
fn order_or_report(alloc: Global, session: &Session) -> Result<OrderOrReport, AllocError>
    requires limits { IsSession session.now }
    ensures { IfOk result (IsOrderOrReport session.now) }
{
    let fault = shape(alloc, session)?;
    if let Some(fault) = fault {
        return Ok(OrderOrReport::Report(Report::Shape(fault)));
    }
    match find_order(alloc, session)? {
        Order::Found(found) => Ok(OrderOrReport::Order(found)),
        Order::Knot { left, found } => Ok(OrderOrReport::Report(Report::Knot { left, found })),
    }
}

/// Returns the report on a session.
fn report<J: Judges<FaultAndEntries>>(
    judges: &J,
    alloc: Global,
    session: &Session,
) -> Result<Report, AllocError>
    requires ready { J.ready }
    requires limits { IsSession session.now }
    ensures { IfOk result (IsReport session.now) }
{
    match order_or_report(alloc, session)? {
        OrderOrReport::Report(report) => Ok(report),
        OrderOrReport::Order(found) => {
            let audited = judges.ask(&FaultAndEntries, alloc, session)?;
            by_pages(alloc, session, found, audited)
        }
    }
}

/// Returns the report on a session. One thread finds its order, or what stands for the report, and beside it others judge
/// the pages.
fn report_beside<R: Threads + Sync>(
    rt: &R,
    alloc: Global,
    session: &Session,
) -> Result<Report, AllocError>
    requires limits { IsSession session.now }
    ensures { IfOk result (IsReport session.now) }
{
    let (first, audited) = join(
        rt,
        || -> Result<OrderOrReport, AllocError>
            requires { IsSession session.now }
            ensures { IfOk result (IsOrderOrReport session.entry.now) }
        { order_or_report(alloc, session) },
        || -> Result<AuditFacts, AllocError>
            requires { IsSync R.row × IsSession session.now }
            ensures fault { IfOk result (λ audited. IsFirstFaultFrom session.entry.now 0 session.entry.now.geometry.pages audited.fault) }
            ensures many { IfOk result (λ audited. AreManyFrom session.entry.now 0 session.entry.now.geometry.pages audited.faulty) }
            ensures entries { IfOk result (λ audited. MatchOption audited.entries (HasBarePage session.entry.now) (λ made. AreMadeFrom session.entry.now 0 session.entry.now.geometry.pages made.items)) }
        { answer_apart(rt, &FaultAndEntries, alloc, session) },
    );
    match first? {
        OrderOrReport::Report(report) => Ok(report),
        OrderOrReport::Order(found) => by_pages(alloc, session, found, audited?),
    }
}

/// Returns the report on a session of the right shape, over the runs of its found order, with each page that has a
/// fault.
fn full_by_pages<J: Judges<QuestionPair<FaultAndEntries, Faults>>>(
    judges: &J,
    alloc: Global,
    session: &Session,
    found: Seq<Run>,
) -> Result<FullAudit, AllocError>
    requires ready { J.ready }
    requires limits { IsSession session.now }
    requires shape { IsRightShape session.now }
    requires found { AreFoundRuns session.now found }
    ensures { IfOk result (IsFullAudit session.now) }
{
    let question = QuestionPair {
        one: FaultAndEntries,
        other: Faults,
    };
    let (audited, pages) = judges.ask(&question, alloc, session)?;
    let report = by_pages(alloc, session, found, audited)?;
    Ok(FullAudit { report, pages })
}

/// Returns the report on a session, with each page that has a fault.
fn full_report<J: Judges<QuestionPair<FaultAndEntries, Faults>>>(
    judges: &J,
    alloc: Global,
    session: &Session,
) -> Result<FullAudit, AllocError>
    requires ready { J.ready }
    requires limits { IsSession session.now }
    ensures { IfOk result (IsFullAudit session.now) }
{
    match order_or_report(alloc, session)? {
        OrderOrReport::Report(report) => Ok(FullAudit {
            report,
            pages: Vec::new(alloc),
        }),
        OrderOrReport::Order(found) => full_by_pages(judges, alloc, session, found),
    }
}

/// Returns the report on a session that [`audit`] returns, whichever judges are used. It promises what `audit`
/// promises, and allocates the memory that these judges do. Fails only if memory runs out.
pub fn audit_by<J: Judges<FaultAndEntries>>(
    judges: &J,
    alloc: Global,
    session: &Session,
) -> Result<Report, AllocError>
    requires ready { J.ready }
    ensures report { IfOk result (IsReport session.now) }
    ensures safe { IfOk result (λ report. IsClean report → IsSafe session.now) }
    ensures exactly { IfOk result (λ report. IsRightShape session.now → HasMerging session.now → (IsSafe session.now ↔ IsClean report)) }
    ensures fits { IfOk result ReportFits }
{
    session.keeps_limits();
    faults_are_unsafe();
    report(judges, alloc, session)
}

/// Returns the report on a session: the first that applies of `Shape`, `Knot`, `Faulty` and `Clean`.
///
/// A session of the right shape that has a merging is safe exactly when the report is `Clean`, which has a right
/// certificate over the found order. `Faulty` has the fault with the least line, and then the least reason, and the
/// runs of a merging in which the demand of that record fails. This merging is the found order, or the delayed order,
/// in which a placement and all that depends on it come as late as possible. For an early access to a page that is
/// placed, that is the page's first placement. For a placement over a release, it is this placement.
///
/// Threads side by side judge the pages, and the call waits only for them. The calling thread judges a small session
/// alone. Makes a few passes over the records and the runs, and allocates memory for a few numbers for each page, the
/// cells of all pages, and the runs. Fails only if memory runs out.
pub fn audit<R: Threads + Sync>(
    rt: &R,
    alloc: Global,
    session: &Session,
) -> Result<Report, AllocError>
    ensures report { IfOk result (IsReport session.now) }
    ensures safe { IfOk result (λ report. IsClean report → IsSafe session.now) }
    ensures exactly { IfOk result (λ report. IsRightShape session.now → HasMerging session.now → (IsSafe session.now ↔ IsClean report)) }
    ensures fits { IfOk result ReportFits }
{
    if is_judged_alone(rt, session) {
        return audit_by(&OneThread, alloc, session);
    }
    session.keeps_limits();
    faults_are_unsafe();
    report_beside(rt, alloc, session)
}

/// Returns the report on a session that [`audit`] returns, with each page that has a fault. It promises what `audit`
/// promises, and asks the judges once. Besides what an audit by these judges allocates, it allocates memory for a few
/// numbers for each faulty page. Fails only if memory runs out.
pub fn audit_in_full<J: Judges<QuestionPair<FaultAndEntries, Faults>>>(
    judges: &J,
    alloc: Global,
    session: &Session,
) -> Result<FullAudit, AllocError>
    requires ready { J.ready }
    ensures report { IfOk result (λ full. IsReport session.now full.report) }
    ensures pages { IfOk result (λ full. JudgesPages full.report → AreFaultyPages session.now full.pages.items) }
    ensures safe { IfOk result (λ full. IsClean full.report → IsSafe session.now) }
    ensures exactly { IfOk result (λ full. IsRightShape session.now → HasMerging session.now → (IsSafe session.now ↔ IsClean full.report)) }
    ensures fits { IfOk result (λ full. ReportFits full.report) }
{
    session.keeps_limits();
    faults_are_unsafe();
    full_report(judges, alloc, session)
}
