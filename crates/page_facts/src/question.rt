//! Questions about all pages of a session, which take what they want from the findings about each page where it is
//! judged: by the calling thread alone, or by threads side by side. No list of findings is kept.

ghost use Rattle.std.specs.Prelude.{◌≡◌, ◌<◌, ◌≤◌, ◌+◌, ℕ, length, IfOk, OnOk};
ghost use Rattle.std.specs.List.{AllByRecursion};
ghost use Rattle.migration_types.specs.Sessions.{IsSession, Recorded};
ghost use Rattle.page_facts.specs.Tables.{IsTable};
ghost use Rattle.page_facts.specs.Looks.{first_look};
ghost use Rattle.page_facts.specs.Findings.{IsFindings};
ghost use Rattle.page_facts.specs.inner.Parts.{IsPart};

use crate::findings::{Findings, findings_at};
use crate::judges::{is_small, pages_at_once};
use crate::looks::first_looks;
use crate::range_judge::judge_range;
use migration_types::{PageNo, Session};
use page_store::Table;
use rayon::current_num_threads;
use rayon::prelude::*;
use std::alloc::{AllocError, Global};
use std::marker::Sync;
use std::thread::Threads;

/// A question about pages: what it takes from the findings about each. For example [`FirstFault`](crate::FirstFault),
/// or a question of the caller.
pub trait Question {
    /// The answer about some consecutive pages.
    type Answer: Drop;

    /// The question fits the pages of this session.
    ghost IsFor: { Self → Recorded → Type 0 };

    /// The answer is about this many pages from the first on.
    ghost IsAnswer: { Self → Recorded → ℕ → ℕ → Self.Answer → Type 0 };

    /// Returns the answer about no page, before the first of about `room` pages. Fails only if memory runs out.
    fn blank(&self, alloc: Global, room: usize) -> Result<Self::Answer, AllocError>
        ensures { IfOk result (λ answer. (s : Recorded) (first : ℕ) → IsAnswer self.now s first 0 answer) };

    /// Takes in the findings about the page after those so far. Fails only if memory runs out.
    fn take(
        &self,
        answer: &mut Self::Answer,
        session: &Session,
        page: PageNo,
        findings: &Findings,
    ) -> Result<(), AllocError>
        requires limits { IsSession session.now }
        requires asked { IsFor self.now session.now }
        requires page { page < session.now.geometry.pages }
        requires findings { IsFindings session.now page findings.now }
        ensures { OnOk result ((first count : ℕ) → page ≡ first + count → IsAnswer self.now session.now first count answer.old → IsAnswer self.now session.now first (count + 1) answer.new) };

    /// Appends the answer about the pages after those so far. Fails only if memory runs out.
    fn add(&self, answer: &mut Self::Answer, next: Self::Answer) -> Result<(), AllocError>
        ensures { OnOk result ((s : Recorded) (first count more : ℕ) → IsAnswer self.now s first count answer.old → IsAnswer self.now s (first + count) more next → IsAnswer self.now s first (count + more) answer.new) };
}

/// The answer about some consecutive pages.
#[derive(Drop)]
pub(crate) struct RangeAnswer<A> {
    pub(crate) first: usize,
    pub(crate) count: usize,
    pub(crate) answer: A,
}

/// Judges the next `count` pages, and takes in the findings about each. Fails only if memory runs out.
fn answer_next<Q: Question>(
    question: &Q,
    alloc: Global,
    session: &Session,
    looks: &Table<Option<u32>>,
    answer: &mut Q::Answer,
    next: usize,
    count: usize,
) -> Result<(), AllocError>
    requires limits { IsSession session.now }
    requires asked { Q.IsFor question.now session.now }
    requires looks { IsTable session.now.geometry.pages looks.now (first_look session.now (length session.now.guest)) }
    requires some { 0 < count }
    requires within { next + count ≤ session.now.geometry.pages }
    ensures { OnOk result ((first before : ℕ) → next ≡ first + before → Q.IsAnswer question.now session.now first before answer.old → Q.IsAnswer question.now session.now first (before + count) answer.new) }
{
    let judged = judge_range(alloc, session, next, count)?;
    for index in 0..count {
        let page = PageNo::new((next + index) as u32);
        let findings = findings_at(session, looks, &judged, index);
        question.take(answer, session, page, &findings)?;
    }
    Ok(())
}

/// Judges `count` pages from the first on, some at a time, and takes in the findings about each.
fn answer_range<Q: Question>(
    question: &Q,
    alloc: Global,
    session: &Session,
    looks: &Table<Option<u32>>,
    first: usize,
    count: usize,
) -> Result<Q::Answer, AllocError>
    requires limits { IsSession session.now }
    requires asked { Q.IsFor question.now session.now }
    requires looks { IsTable session.now.geometry.pages looks.now (first_look session.now (length session.now.guest)) }
    requires some { 0 < count }
    requires within { first + count ≤ session.now.geometry.pages }
    ensures { IfOk result (Q.IsAnswer question.now session.now first count) }
{
    let mut answer = question.blank(alloc, count)?;
    let most = pages_at_once(session);
    let mut done = 0;
    while done < count {
        let some = most.min(count - done);
        answer_next(
            question,
            alloc,
            session,
            looks,
            &mut answer,
            first + done,
            some,
        )?;
        done += some;
    }
    Ok(answer)
}

/// Returns the answer about all pages. Fails only if memory runs out.
pub(crate) fn answer_alone<Q: Question>(
    question: &Q,
    alloc: Global,
    session: &Session,
) -> Result<Q::Answer, AllocError>
    requires { Q.IsFor question.now session.now }
    ensures { IfOk result (Q.IsAnswer question.now session.now 0 session.now.geometry.pages) }
{
    session.keeps_limits();
    let looks = first_looks(alloc, session)?;
    let pages = session.geometry().pages() as usize;
    answer_range(question, alloc, session, &looks, 0, pages)
}

/// Returns the answer about one of the parts, which have this many pages each.
fn answer_part<Q: Question>(
    question: &Q,
    alloc: Global,
    session: &Session,
    looks: &Table<Option<u32>>,
    size: usize,
    number: usize,
) -> Result<RangeAnswer<Q::Answer>, AllocError>
    requires limits { IsSession session.now }
    requires asked { Q.IsFor question.now session.now }
    requires looks { IsTable session.now.geometry.pages looks.now (first_look session.now (length session.now.guest)) }
    ensures { IfOk result (λ part. IsPart (Q.IsAnswer question.now session.now) session.now.geometry.pages part.first part.count part.answer) }
{
    let pages = session.geometry().pages() as usize;
    let first = number.saturating_mul(size).min(pages);
    let count = size.min(pages - first);
    if count == 0 {
        let answer = question.blank(alloc, 0)?;
        return Ok(RangeAnswer {
            first,
            count,
            answer,
        });
    }
    let answer = answer_range(question, alloc, session, looks, first, count)?;
    Ok(RangeAnswer {
        first,
        count,
        answer,
    })
}

/// Appends a part to the pages before it, if it begins where they end.
fn add_part<Q: Question>(
    question: &Q,
    _session: &Session,
    all: &mut RangeAnswer<Q::Answer>,
    part: RangeAnswer<Q::Answer>,
) -> Result<(), AllocError>
    requires limits { IsSession _session.now }
    requires all { IsPart (Q.IsAnswer question.now _session.now) _session.now.geometry.pages all.old.first all.old.count all.old.answer }
    requires part { IsPart (Q.IsAnswer question.now _session.now) _session.now.geometry.pages part.first part.count part.answer }
    ensures first { all.new.first ≡ all.old.first }
    ensures all { OnOk result (IsPart (Q.IsAnswer question.now _session.now) _session.now.geometry.pages all.new.first all.new.count all.new.answer) }
{
    if part.first == all.first + all.count {
        question.add(&mut all.answer, part.answer)?;
        all.count += part.count;
    }
    Ok(())
}

/// Appends parts to the pages before them, in turn.
fn add_parts<Q: Question>(
    question: &Q,
    session: &Session,
    all: &mut RangeAnswer<Q::Answer>,
    parts: Vec<RangeAnswer<Q::Answer>>,
) -> Result<(), AllocError>
    requires limits { IsSession session.now }
    requires all { IsPart (Q.IsAnswer question.now session.now) session.now.geometry.pages all.old.first all.old.count all.old.answer }
    requires parts { AllByRecursion (λ part. IsPart (Q.IsAnswer question.now session.now) session.now.geometry.pages part.first part.count part.answer) parts.items }
    ensures first { all.new.first ≡ all.old.first }
    ensures all { OnOk result (IsPart (Q.IsAnswer question.now session.now) session.now.geometry.pages all.new.first all.new.count all.new.answer) }
{
    for part in parts {
        add_part(question, session, all, part)?;
    }
    Ok(())
}

/// Returns the answer about all pages, given that about the first of them. The calling thread judges the others.
fn complete<Q: Question>(
    question: &Q,
    alloc: Global,
    session: &Session,
    looks: &Table<Option<u32>>,
    part: RangeAnswer<Q::Answer>,
) -> Result<Q::Answer, AllocError>
    requires limits { IsSession session.now }
    requires asked { Q.IsFor question.now session.now }
    requires looks { IsTable session.now.geometry.pages looks.now (first_look session.now (length session.now.guest)) }
    requires part { IsPart (Q.IsAnswer question.now session.now) session.now.geometry.pages part.first part.count part.answer }
    requires first { part.first ≡ 0 }
    ensures { IfOk result (Q.IsAnswer question.now session.now 0 session.now.geometry.pages) }
{
    let pages = session.geometry().pages() as usize;
    let count = part.count;
    let mut answer = part.answer;
    if count >= pages {
        return Ok(answer);
    }
    let left = pages - count;
    let rest = answer_range(question, alloc, session, looks, count, left)?;
    question.add(&mut answer, rest)?;
    Ok(answer)
}

/// Returns how many threads judge a session: one if it is little work, and otherwise one for each processor.
pub(crate) fn threads_for<R: Threads>(rt: &R, session: &Session) -> usize {
    if is_small(session) {
        return 1;
    }
    current_num_threads(rt)
}

/// Returns the answers about this many parts, by threads side by side. Each part is worth a thread.
fn answer_parts<R: Threads + Sync, X: Send + Drop, Q: Question<Answer = X> + Sync>(
    rt: &R,
    question: &Q,
    alloc: Global,
    session: &Session,
    looks: &Table<Option<u32>>,
    size: usize,
    parts: usize,
) -> Result<Vec<RangeAnswer<X>>, AllocError>
    requires limits { IsSession session.now }
    requires asked { Q.IsFor question.now session.now }
    requires looks { IsTable session.now.geometry.pages looks.now (first_look session.now (length session.now.guest)) }
    ensures { IfOk result (λ answered. AllByRecursion (λ part. IsPart (Q.IsAnswer question.now session.now) session.now.geometry.pages part.first part.count part.answer) answered.items) }
{
    (0..parts)
        .into_par_iter()
        .with_min_len(1)
        .map(
            |number: usize| -> Result<RangeAnswer<X>, AllocError>
                requires { IsSession session.now × Q.IsFor question.now session.now × IsTable session.now.geometry.pages looks.now (first_look session.now (length session.now.guest)) }
                ensures { IfOk result (λ part. IsPart (Q.IsAnswer question.entry.now session.entry.now) session.entry.now.geometry.pages part.first part.count part.answer) }
            { answer_part(question, alloc, session, looks, size, number) },
        )
        .collect(rt, alloc)?
}

/// Returns the answer about all pages by threads side by side, with a range of pages for each processor. If there is
/// one processor or little work, the calling thread judges all. Fails only if memory runs out.
pub fn answer_apart<R: Threads + Sync, X: Send + Drop, Q: Question<Answer = X> + Sync>(
    rt: &R,
    question: &Q,
    alloc: Global,
    session: &Session,
) -> Result<X, AllocError>
    requires { Q.IsFor question.now session.now }
    ensures { IfOk result (Q.IsAnswer question.now session.now 0 session.now.geometry.pages) }
{
    let parts = threads_for(rt, session);
    if parts < 2 {
        return answer_alone(question, alloc, session);
    }
    session.keeps_limits();
    let looks = first_looks(alloc, session)?;
    let pages = session.geometry().pages() as usize;
    let size = pages.div_ceil(parts);
    let answered = answer_parts(rt, question, alloc, session, &looks, size, parts)?;
    let mut all = RangeAnswer {
        first: 0,
        count: 0,
        answer: question.blank(alloc, pages)?,
    };
    add_parts(question, session, &mut all, answered)?;
    complete(question, alloc, session, &looks, all)
}
