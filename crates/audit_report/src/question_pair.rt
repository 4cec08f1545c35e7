//! Two questions in one.

use migration_types::{PageNo, Session};
use page_facts::{Findings, Question};
use std::alloc::{AllocError, Global};

/// Two questions that are answered in one pass. The answer is the pair of their answers.
#[derive(Clone, Copy)]
pub struct QuestionPair<A, B> {
    /// The first question.
    pub one: A,
    /// The second question.
    pub other: B,
}

impl<A: Question, B: Question> Question for QuestionPair<A, B> {
    type Answer = (A::Answer, B::Answer);

    ghost IsFor = { λ q s. A.IsFor q.one s × B.IsFor q.other s };

    ghost IsAnswer = { λ q s first count answers. A.IsAnswer q.one s first count answers.0 × B.IsAnswer q.other s first count answers.1 };

    fn blank(&self, alloc: Global, room: usize) -> Result<(A::Answer, B::Answer), AllocError> {
        let one = self.one.blank(alloc, room)?;
        let other = self.other.blank(alloc, room)?;
        Ok((one, other))
    }

    fn take(
        &self,
        answers: &mut (A::Answer, B::Answer),
        session: &Session,
        page: PageNo,
        findings: &Findings,
    ) -> Result<(), AllocError> {
        self.one.take(&mut answers.0, session, page, findings)?;
        self.other.take(&mut answers.1, session, page, findings)?;
        Ok(())
    }

    fn add(
        &self,
        answers: &mut (A::Answer, B::Answer),
        next: (A::Answer, B::Answer),
    ) -> Result<(), AllocError> {
        let (one, other) = next;
        self.one.add(&mut answers.0, one)?;
        self.other.add(&mut answers.1, other)?;
        Ok(())
    }
}
