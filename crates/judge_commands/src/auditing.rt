//! What is asked about a session, answered with a text and a status.

ghost use Rattle.std.specs.Prelude.{◌≡◌, ℕ, List, IfOk};
ghost use Rattle.std.specs.Thread.{IsSync};
ghost use Rattle.text_lines.specs.Answer.{IsRead};
ghost use Rattle.session_log.specs.Grammar.{SpellsSession};
ghost use Rattle.page_facts.specs.FaultyPages.{AreFaultyPages};
ghost use Rattle.audit_report.specs.Reports.{IsReport, JudgesPages, ReportFits};
ghost use Rattle.session_answers.specs.Forms.{AreListed, ArePagesFor, Tells};
ghost use Rattle.session_answers.specs.Judged.{IsJudgedTold, report_status};
ghost use Rattle.judge_commands.specs.Answers.{how_much};
ghost use Rattle.judge_commands.specs.Completed.{IsAnswered};
ghost use Rattle.judge_commands.specs.Noted.{IsBeside};
ghost use Rattle.judge_commands.specs.inner.Reported.{SaysRefusal, SaysReport};

use crate::completing::held;
use crate::forms::telling_by;
use crate::noting::note_on;
use audit_report::{FullAudit, OwnLines, Report, audit, audit_in_full};
use command_texts::{Answer, Given, OnOne, REFUSED, SessionTaker, Telling, given, status_where};
use migration_types::Session;
use page_facts::{FaultyPage, InThreads};
use session_answers::{AnswerForm, Ask, print_refusal, print_told};
use session_log::session_texts_are_unambiguous;
use session_story::faulty_apart;
use std::alloc::{AllocError, Global};
use std::thread::Threads;

/// Returns the status of a report.
pub fn report_status(report: &Report) -> u8
    ensures { result ≡ report_status report.now }
{
    status_where(matches!(report, Report::Clean(_)))
}

/// Returns the pages that a report lists, given those with a fault, or for a report of the shape any.
fn listed(
    alloc: Global,
    session: &Session,
    report: &Report,
    pages: Vec<FaultyPage>,
) -> Result<Vec<FaultyPage>, AllocError>
    requires { JudgesPages report.now → AreFaultyPages session.now pages.items }
    ensures { IfOk result (λ found. AreListed session.now report.now found.items) }
{
    match report {
        Report::Shape(_) => faulty_apart(alloc, session),
        Report::Knot { .. } | Report::Faulty { .. } | Report::Clean(_) => Ok(pages),
    }
}

/// Returns the audit of a session that this form needs: with each page that has a fault if the form lists them, and
/// otherwise with none.
fn audited<R: Threads + Sync>(
    rt: &R,
    form: AnswerForm,
    alloc: Global,
    session: &Session,
) -> Result<FullAudit, AllocError>
    ensures report { IfOk result (λ full. IsReport session.now full.report) }
    ensures fits { IfOk result (λ full. ReportFits full.report) }
    ensures pages { IfOk result (λ full. ArePagesFor form session.now full.report full.pages.items) }
{
    if form.lists_pages() {
        let FullAudit { report, pages } = audit_in_full(&InThreads { rt }, alloc, session)?;
        let pages = listed(alloc, session, &report, pages)?;
        return Ok(FullAudit { report, pages });
    }
    let report = audit(rt, alloc, session)?;
    Ok(FullAudit {
        report,
        pages: Vec::new(alloc),
    })
}

/// Returns the report on a session, in this form.
fn reported<R: Threads + Sync>(
    rt: &R,
    form: AnswerForm,
    alloc: Global,
    session: &Session,
) -> Result<Answer, AllocError>
    ensures { IfOk result (SaysReport (Tells form) session.now) }
{
    let full = audited(rt, form, alloc, session)?;
    let text = print_told(alloc, session, &full.report, &full.pages, form)?;
    let status = report_status(&full.report);
    Ok(Answer { text, status })
}

/// Returns the answer for a session's text that is refused at this line, in this form.
fn refused(form: AnswerForm, alloc: Global, line: u32) -> Result<Answer, AllocError>
    ensures { IfOk result (SaysRefusal (Tells form) line) }
{
    let text = print_refusal(alloc, line, form)?;
    Ok(Answer {
        text,
        status: REFUSED,
    })
}

/// Returns the audit of a session's text in this form, given what was read from the text.
fn audit_read<R: Threads + Sync>(
    rt: &R,
    form: AnswerForm,
    alloc: Global,
    session: &Result<Session, u32>,
) -> Result<Answer, AllocError>
    ensures { (text : List ℕ) → IsRead SpellsSession text session.now → IfOk result (λ answer. IsJudgedTold (Tells form) text answer.text.items answer.status) }
{
    match session {
        Ok(session) => reported(rt, form, alloc, session),
        Err(line) => refused(form, alloc, *line),
    }
}

/// Returns the answer to what is asked about a session, given what was read from its text.
fn answered<R: Threads + Sync>(
    rt: &R,
    ask: Ask,
    alloc: Global,
    session: &Result<Session, u32>,
) -> Result<Answer, AllocError>
    ensures { (text : List ℕ) → IsRead SpellsSession text session.now → IfOk result (λ answer. IsAnswered ask text answer.text.items answer.status) }
{
    session_texts_are_unambiguous();
    let answer = audit_read(rt, ask.form, alloc, session)?;
    held(
        &OwnLines,
        ask.form.of_lack(),
        ask.complete,
        alloc,
        session,
        answer,
    )
}

/// `audit`, `certify` and `explain`: what is asked about a session.
#[derive(Clone, Copy)]
pub struct AuditCommand<'a, R> {
    pub rt: &'a R,
    pub ask: Ask,
}

impl<R: Threads + Sync> OnOne for AuditCommand<'_, R> {
    type Text = SessionTaker;

    ghost ready = { IsSync R.row };

    ghost is_answer = { λ command. IsAnswered command.ask };

    ghost how_much = { λ command. how_much command.ask.form };

    ghost has_note = { λ command. IsBeside command.ask.complete };

    fn telling(&self) -> Telling {
        telling_by(self.ask.form.of_lack())
    }

    fn answer(&self, alloc: Global, session: &Result<Session, u32>) -> Given {
        given(answered(self.rt, self.ask, alloc, session))
    }

    fn note(
        &self,
        alloc: Global,
        session: &Result<Session, u32>,
        answer: &Answer,
    ) -> Result<Option<Vec<u8>>, AllocError> {
        note_on(
            alloc,
            session,
            self.ask.complete,
            self.ask.form.of_lack(),
            answer,
        )
    }
}
