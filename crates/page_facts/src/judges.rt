//! Judges of the pages of a session: the calling thread alone, or threads side by side.

ghost use Rattle.std.specs.Prelude.{⊤, ◌≡◌, ◌+◌, ◌*◌, ◌<◌, ◌≤◌, length, IfOk};
ghost use Rattle.std.specs.Thread.{IsSync};
ghost use Rattle.migration_types.specs.Limits.{longest_log, most_pages};
ghost use Rattle.page_facts.specs.Entries.{AreJudged};

use crate::entries::Entries;
use crate::question::{Question, answer_alone, answer_apart, threads_for};
use migration_types::{Entry, Session, logs};
use std::alloc::{AllocError, Global};
use std::marker::Sync;
use std::thread::Threads;

/// How many records and pages are worth a thread of their own.
const WORTH_A_THREAD: usize = 16384;

/// Judges of pages, which answer a question about all pages of a session. All judges give the same answer.
pub trait Judges<Q: Question> {
    // The condition for their work.
    ghost ready: { Type 0 } = { ⊤ };

    /// Returns the answer about all pages of a session. Fails only if memory runs out.
    fn ask(&self, question: &Q, alloc: Global, session: &Session) -> Result<Q::Answer, AllocError>
        requires ready { ready }
        requires asked { Q.IsFor question.now session.now }
        ensures { IfOk result (Q.IsAnswer question.now session.now 0 session.now.geometry.pages) };
}

/// Judges of the entries of a certificate.
pub trait JudgesEntries {
    // The condition for their work.
    ghost ready: { Type 0 } = { ⊤ };

    /// Returns the first page whose entry in a certificate is not right. Fails only if memory runs out.
    fn first_wrong_entry(
        &self,
        alloc: Global,
        session: &Session,
        entries: &[Entry],
    ) -> Result<Option<usize>, AllocError>
        requires ready { ready }
        requires pages { length entries.now ≡ session.now.geometry.pages }
        ensures { IfOk result (AreJudged session.now entries.now 0 session.now.geometry.pages) };
}

/// The calling thread alone, page after page. It waits for nobody.
#[derive(Clone, Copy)]
pub struct OneThread;

impl<Q: Question> Judges<Q> for OneThread {
    fn ask(&self, question: &Q, alloc: Global, session: &Session) -> Result<Q::Answer, AllocError> {
        answer_alone(question, alloc, session)
    }
}

impl JudgesEntries for OneThread {
    fn first_wrong_entry(
        &self,
        alloc: Global,
        session: &Session,
        entries: &[Entry],
    ) -> Result<Option<usize>, AllocError> {
        answer_alone(&Entries { entries }, alloc, session)
    }
}

/// As many threads as there are processors, side by side. The calling thread judges a small session alone. The crate of
/// each question that threads are asked implements this with [`answer_apart`].
#[derive(Clone, Copy)]
pub struct InThreads<'a, R> {
    /// What starts threads.
    pub rt: &'a R,
}

impl<R: Threads + Sync> JudgesEntries for InThreads<'_, R> {
    ghost ready = { IsSync R.row };

    fn first_wrong_entry(
        &self,
        alloc: Global,
        session: &Session,
        entries: &[Entry],
    ) -> Result<Option<usize>, AllocError> {
        answer_apart(self.rt, &Entries { entries }, alloc, session)
    }
}

/// The least number of pages that are judged at once.
const PAGES_AT_ONCE: usize = 65_536;

/// Returns how many records and initial pages there are.
#[tactic(auto, using(migration_types::specs::inner::InitPages::few_init))]
fn records_of(session: &Session) -> usize
    ensures { result ≤ most_pages + 5 * longest_log }
{
    session.keeps_limits();
    let mut records = session.init().len();
    for log in logs() {
        records += session.len(log);
    }
    records
}

/// Returns how many pages a thread judges at once: as many as there are records. Then memory grows with the records and
/// not with the machine, and all walks over the logs, one for this many pages, take no more steps than there are pages
/// and records.
pub(crate) fn pages_at_once(session: &Session) -> usize
    ensures { 0 < result }
{
    records_of(session).max(PAGES_AT_ONCE)
}

/// Returns how much there is to judge: pages and records.
fn work_of(session: &Session) -> usize {
    session.keeps_limits();
    session.geometry().pages() as usize + records_of(session)
}

/// Returns whether a session has too little to judge for two threads.
pub(crate) fn is_small(session: &Session) -> bool {
    work_of(session) < 2 * WORTH_A_THREAD
}

/// Returns whether one thread judges a session alone: there is one processor, or too little to judge for two threads.
pub fn is_judged_alone<R: Threads>(rt: &R, session: &Session) -> bool {
    threads_for(rt, session) < 2
}
