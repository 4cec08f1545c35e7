//! The replay of a session along the runs of a merging.

ghost use Rattle.std.specs.Prelude.{⊤, ℕ, List, IfOk, MatchOption};
ghost use Rattle.std.specs.Thread.{IsSync};
ghost use Rattle.text_lines.specs.Answer.{IsRead};
ghost use Rattle.session_log.specs.Grammar.{SpellsSession};
ghost use Rattle.cert_text.specs.Order.{SpellsOrder};
ghost use Rattle.judged_texts.specs.Replayed.{IsAlong, IsOutcome, IsReplayed};
ghost use Rattle.audit_model.specs.Mergings.{IsMerging, spelled};
ghost use Rattle.audit_model.specs.Shape.{IsRightShape};
ghost use Rattle.page_facts.specs.PageFaults.{IsFirstFaultFrom};

use audit_model::faults_are_unsafe;
use cert_check::{ShapeFault, shape};
use cert_text::read_order;
use merge_runs::{MergeFault, is_merging, replay};
use migration_types::{Run, Seq, Session, line_of};
use page_facts::{
    FirstFault, InThreads, Judges, OneThread, PageFault, answer_apart, first_of_pages_is_first,
    is_judged_alone,
};
use session_log::read_session;
use std::alloc::{AllocError, Global};
use std::marker::Sync;
use std::thread::{Threads, join};

/// The result of a replay: the first that applies.
#[derive(Clone, Copy)]
pub enum Outcome {
    /// The session's text is refused at this line.
    SessionText(u32),
    /// The text of the order is refused at this line.
    RunsText(u32),
    /// The session does not have the right shape.
    Shape(ShapeFault),
    /// The runs do not spell a merging.
    NoMerging,
    /// The record at this line of the session's text is the first whose demand fails.
    Broken(u32),
    /// The demand of each record holds.
    Safe,
}

/// Returns the result of replaying a session of the right shape along runs.
fn along_runs(alloc: Global, session: &Session, runs: &[Run]) -> Result<Outcome, AllocError>
    requires { IsRightShape session.now }
    ensures { IfOk result (IsReplayed session.now runs.now) }
{
    match replay(alloc, session, runs) {
        Ok(replayed) => match replayed.first_broken {
            Some((log, place)) => Ok(Outcome::Broken(line_of(session, log, place))),
            None => Ok(Outcome::Safe),
        },
        Err(MergeFault::NoMerging) => Ok(Outcome::NoMerging),
        Err(MergeFault::Memory) => Err(AllocError),
    }
}

/// Returns the result of replaying a session along runs, if the session does not have the right shape or the runs do not
/// spell a merging. Fails only if memory runs out.
fn by_shape_and_runs(
    alloc: Global,
    session: &Session,
    runs: &[Run],
) -> Result<Option<Outcome>, AllocError>
    ensures { IfOk result (λ found. MatchOption found (IsRightShape session.now × IsMerging session.now (spelled runs.now)) (IsReplayed session.now runs.now)) }
{
    match shape(alloc, session)? {
        Some(fault) => Ok(Some(Outcome::Shape(fault))),
        None => {
            if is_merging(session, runs) {
                Ok(None)
            } else {
                Ok(Some(Outcome::NoMerging))
            }
        }
    }
}

/// Returns the result of replaying a session along the runs of a merging, given the first fault of its pages. If no page
/// has a fault, each merging is safe. Otherwise the merging is replayed. Fails only if memory runs out.
fn by_pages(
    alloc: Global,
    session: &Session,
    runs: &[Run],
    fault: Option<PageFault>,
) -> Result<Outcome, AllocError>
    requires shape { IsRightShape session.now }
    requires merging { IsMerging session.now (spelled runs.now) }
    requires fault { IsFirstFaultFrom session.now 0 session.now.geometry.pages fault }
    ensures { IfOk result (IsReplayed session.now runs.now) }
{
    session.keeps_limits();
    first_of_pages_is_first();
    faults_are_unsafe();
    match fault {
        Some(_) => along_runs(alloc, session, runs),
        None => Ok(Outcome::Safe),
    }
}

/// Those who find the result of a replay: the calling thread alone, one thing after the other; or threads, which judge
/// the shape and the runs beside the pages. All find the same.
trait Replayers {
    // The condition for their work.
    ghost ready: { Type 0 } = { ⊤ };

    /// Returns the result of replaying a session along runs. Fails only if memory runs out.
    fn outcome(&self, alloc: Global, session: &Session, runs: &[Run]) -> Result<Outcome, AllocError>
        requires { ready }
        ensures { IfOk result (IsReplayed session.now runs.now) };
}

impl Replayers for OneThread {
    fn outcome(
        &self,
        alloc: Global,
        session: &Session,
        runs: &[Run],
    ) -> Result<Outcome, AllocError> {
        match by_shape_and_runs(alloc, session, runs)? {
            Some(outcome) => Ok(outcome),
            None => {
                let fault = self.ask(&FirstFault, alloc, session)?;
                by_pages(alloc, session, runs, fault)
            }
        }
    }
}

impl<R: Threads + Sync> Replayers for InThreads<'_, R> {
    ghost ready = { IsSync R.row };

    fn outcome(
        &self,
        alloc: Global,
        session: &Session,
        runs: &[Run],
    ) -> Result<Outcome, AllocError> {
        let rt = self.rt;
        if is_judged_alone(rt, session) {
            return OneThread.outcome(alloc, session, runs);
        }
        let (first, fault) = join(
            rt,
            || -> Result<Option<Outcome>, AllocError>
                ensures { IfOk result (λ found. MatchOption found (IsRightShape session.entry.now × IsMerging session.entry.now (spelled runs.entry.now)) (IsReplayed session.entry.now runs.entry.now)) }
            { by_shape_and_runs(alloc, session, runs) },
            || -> Result<Option<PageFault>, AllocError>
                requires { IsSync R.row }
                ensures { IfOk result (IsFirstFaultFrom session.entry.now 0 session.entry.now.geometry.pages) }
            { answer_apart(rt, &FirstFault, alloc, session) },
        );
        match first? {
            Some(outcome) => Ok(outcome),
            None => by_pages(alloc, session, runs, fault?),
        }
    }
}

/// Returns the result of replaying a session along runs, given what was read from their text.
fn along_read<J: Replayers>(
    replayers: &J,
    alloc: Global,
    session: &Session,
    runs: &Result<Seq<Run>, u32>,
) -> Result<Outcome, AllocError>
    requires { J.ready }
    ensures { (text : List ℕ) → IsRead SpellsOrder text runs.now → IfOk result (IsAlong session.now text) }
{
    match runs {
        Ok(runs) => replayers.outcome(alloc, session, runs.as_slice()),
        Err(line) => Ok(Outcome::RunsText(*line)),
    }
}

/// Returns the result of replaying a session along runs, given what was read from their texts, whoever finds it.
fn outcome_by<J: Replayers>(
    replayers: &J,
    alloc: Global,
    session: &Result<Session, u32>,
    runs: &Result<Seq<Run>, u32>,
) -> Result<Outcome, AllocError>
    requires { J.ready }
    ensures { (first second : List ℕ) → IsRead SpellsSession first session.now → IsRead SpellsOrder second runs.now → IfOk result (IsOutcome first second) }
{
    match session {
        Ok(session) => along_read(replayers, alloc, session, runs),
        Err(line) => Ok(Outcome::SessionText(*line)),
    }
}

/// Returns the result of replaying a session along runs, given what was read from their texts. Threads side by side
/// judge the pages. The merging is replayed only if one of them has a fault. Fails only if memory runs out.
pub fn find_outcome<R: Threads + Sync>(
    rt: &R,
    alloc: Global,
    session: &Result<Session, u32>,
    runs: &Result<Seq<Run>, u32>,
) -> Result<Outcome, AllocError>
    ensures { (first second : List ℕ) → IsRead SpellsSession first session.now → IsRead SpellsOrder second runs.now → IfOk result (IsOutcome first second) }
{
    outcome_by(&InThreads { rt }, alloc, session, runs)
}

/// Returns the result of replaying a session along the order that a text gives.
fn along_text(alloc: Global, session: &Session, runs: &[u8]) -> Result<Outcome, AllocError>
    ensures { IfOk result (IsAlong session.now runs.now) }
{
    match read_order(alloc, runs) {
        Ok(runs) => OneThread.outcome(alloc, session, runs.as_slice()),
        Err(fault) => Ok(Outcome::RunsText(fault.refused_line()?)),
    }
}

/// Returns the result of replaying a session along an order, given their texts: the first that applies of all in
/// [`Outcome`].
///
/// The second text gives an order: a text of runs, a certificate, or a report of an audit that contains one of these.
///
/// On `Safe`, it gives a merging of the session that the first text spells, and in it the demand of each record holds.
/// This says nothing about the session's other mergings.
///
/// The calling thread replays alone, and waits for nobody. Nothing is assumed about who wrote the texts. Fails only if
/// memory runs out, which may happen before a text is judged.
pub fn replay_texts(alloc: Global, session: &[u8], runs: &[u8]) -> Result<Outcome, AllocError>
    ensures { IfOk result (IsOutcome session.now runs.now) }
{
    match read_session(alloc, session) {
        Ok(recorded) => along_text(alloc, &recorded, runs),
        Err(fault) => Ok(Outcome::SessionText(fault.refused_line()?)),
    }
}
