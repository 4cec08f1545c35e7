//! A pass over the logs of a session: what it keeps from record to record, and why a record is misshapen.

ghost use Rattle.std.specs.Prelude.{◌≡◌, ◌+◌, ◌<◌, ◌||◌, true, IfOk};
ghost use Rattle.migration_types.specs.declared.records.LogName.TheVariants.{Guest};
ghost use Rattle.migration_types.specs.Sessions.{IsSession, log_length};
ghost use Rattle.audit_model.specs.Shape.{in_phase_by, is_halt, is_resume, guest_named, source_named, pager_named, source_start, pager_start, is_alone};
ghost use Rattle.page_store.specs.Tables.{pages_of, values, IsWith};
ghost use Rattle.page_facts.specs.Moved.{SourcePage};
ghost use Rattle.cert_check.specs.inner.FirstOfLog.{first_reason, is_unmarked, marked_by, reason_at};
ghost use Rattle.cert_check.specs.inner.Passes.{ArePhasesAfter, IsAt};

use audit_model::{
    ShapeReason, guest_named, in_phase, is_alone, is_halt, is_resume, lane_named, link_named,
    pager_named, pager_start, source_named, source_start,
};
use migration_types::{GuestRec, LogName, PagerRec, Session, SourceRec};
use page_store::Table;
use std::alloc::{AllocError, Global};

/// Whether the guest's log had a `halt`, and a `resume`.
#[derive(Clone, Copy)]
struct Phases {
    halted: bool,
    resumed: bool,
}

/// A pass over the logs of a session, in their order.
#[derive(Drop)]
pub(crate) struct Pass {
    /// What the guest's log had so far.
    phases: Phases,
    /// A mark for each page that was sent so far.
    sent: Table<bool>,
}

/// Returns why a guest record does not have the right shape, if so.
fn guest_reason(session: &Session, rec: &GuestRec, phases: Phases) -> Option<ShapeReason>
    ensures { result ≡ first_reason (in_phase_by session.now.version phases.halted phases.resumed rec.now) (guest_named session.now rec.now) true true true }
{
    if !in_phase(session.version(), rec, phases.halted, phases.resumed) {
        return Some(ShapeReason::Phases);
    }
    if !guest_named(session, rec) {
        return Some(ShapeReason::Named);
    }
    None
}

/// Returns the phases after this record.
fn phases_after(rec: &GuestRec, phases: Phases) -> Phases
    ensures { ArePhasesAfter rec.now phases result }
{
    Phases {
        halted: is_halt(rec) || phases.halted,
        resumed: is_resume(rec) || phases.resumed,
    }
}

/// Returns whether the page of a `send` is not marked.
fn is_unmarked(marks: &Table<bool>, rec: &SourceRec) -> bool
    requires { SourcePage (pages_of marks.now) rec.now }
    ensures { result ≡ is_unmarked (values marks.now) rec.now }
{
    match rec {
        SourceRec::Send { page, .. } => !marks.at(*page),
        _ => true,
    }
}

/// Marks the page of a `send`.
fn mark(marks: &mut Table<bool>, rec: &SourceRec)
    requires { SourcePage (pages_of marks.old) rec.now }
    ensures { IsWith marks.old marks.new (marked_by rec.now (values marks.old)) }
{
    if let SourceRec::Send { page, .. } = rec {
        marks.set(*page, true);
    }
}

/// Returns why source record n does not have the right shape, if so.
fn source_reason(
    session: &Session,
    n: usize,
    rec: &SourceRec,
    marks: &Table<bool>,
) -> Option<ShapeReason>
    requires { SourcePage (pages_of marks.now) rec.now }
    ensures { result ≡ first_reason true (source_named session.now n rec.now) (source_start session.now n rec.now) (is_unmarked (values marks.now) rec.now) (is_alone session.now rec.now) }
{
    if !source_named(session, n, rec) {
        return Some(ShapeReason::Named);
    }
    if !source_start(session, n, rec) {
        return Some(ShapeReason::Start);
    }
    if !is_unmarked(marks, rec) {
        return Some(ShapeReason::SecondSend);
    }
    if !is_alone(session, rec) {
        return Some(ShapeReason::Both);
    }
    None
}

/// Returns why pager record n does not have the right shape, if so.
fn pager_reason(session: &Session, n: usize, rec: &PagerRec) -> Option<ShapeReason>
    ensures { result ≡ first_reason true (pager_named session.now n rec.now) (pager_start session.now n rec.now) true true }
{
    if !pager_named(session, n, rec) {
        return Some(ShapeReason::Named);
    }
    if !pager_start(session, n, rec) {
        return Some(ShapeReason::Start);
    }
    None
}

/// Returns why a record of the link or the lane does not have the right shape, if so.
fn named_reason(is_named: bool) -> Option<ShapeReason>
    ensures { result ≡ first_reason true is_named true true true }
{
    if is_named {
        None
    } else {
        Some(ShapeReason::Named)
    }
}

impl Pass {
    /// Returns a pass before the first record. Fails only if memory runs out.
    pub(crate) fn begin(alloc: Global, session: &Session) -> Result<Pass, AllocError>
        ensures { IfOk result (IsAt session.now Guest 0) }
    {
        let sent = Table::no_marks(alloc, session.geometry().pages())?;
        let phases = Phases {
            halted: false,
            resumed: false,
        };
        Ok(Pass { phases, sent })
    }

    /// Returns why the record of this number is misshapen, if so.
    pub(crate) fn reason(&self, session: &Session, log: LogName, n: usize) -> Option<ShapeReason>
        requires limits { IsSession session.now }
        requires within { n < log_length session.now log }
        requires at { IsAt session.now log n self.now }
        ensures { result ≡ reason_at session.now (log, n) }
    {
        match log {
            LogName::Guest => guest_reason(session, &session.guest()[n], self.phases),
            LogName::Source => source_reason(session, n, &session.source()[n], &self.sent),
            LogName::Link => named_reason(link_named(session, &session.link()[n])),
            LogName::Lane => named_reason(lane_named(session, &session.lane()[n])),
            LogName::Pager => pager_reason(session, n, &session.pager()[n]),
        }
    }

    /// Goes on behind the record of this number, misshapen or not.
    pub(crate) fn step(&mut self, session: &Session, log: LogName, n: usize)
        requires limits { IsSession session.now }
        requires within { n < log_length session.now log }
        requires at { IsAt session.now log n self.old }
        ensures { IsAt session.now log (n + 1) self.new }
    {
        match log {
            LogName::Guest => self.phases = phases_after(&session.guest()[n], self.phases),
            LogName::Source => mark(&mut self.sent, &session.source()[n]),
            LogName::Link | LogName::Lane | LogName::Pager => {}
        }
    }
}
