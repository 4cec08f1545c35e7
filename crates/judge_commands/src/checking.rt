//! The verdict on a session and its certificate, as a line and a status.

ghost use Rattle.std.specs.Prelude.{◌≡◌, ◌++◌, ℕ, List, IfOk, OnOk};
ghost use Rattle.std.specs.Thread.{IsSync};
ghost use Rattle.text_lines.specs.Answer.{IsRead};
ghost use Rattle.session_log.specs.Grammar.{SpellsSession};
ghost use Rattle.cert_text.specs.Grammar.{SpellsCert};
ghost use Rattle.judged_texts.specs.Checked.{IsTextVerdict};
ghost use Rattle.command_texts.specs.Answers.{Says};
ghost use Rattle.judge_commands.specs.Answers.{AddsMisfitOf, verdict_line, verdict_status, verdict_telling, verdict_text};
ghost use Rattle.judge_commands.specs.Completed.{IsChecked};
ghost use Rattle.judge_commands.specs.Noted.{IsBeside};

use crate::completing::held;
use crate::forms::{lack_beside, push_told, telling_by};
use crate::misfit_words::push_misfit;
use crate::noting::note_on;
use audit_report::{OwnLines, push_refused_certificate, push_refused_session, push_shape};
use cert_check::Verdict;
use cert_text::CertReader;
use command_texts::{Answer, Fault, OnTwo, SessionTaker, Telling, given, status_where};
use command_words::VerdictForm;
use completeness::Extent;
use judged_texts::check_read;
use migration_types::{Cert, Session};
use session_log::session_texts_are_unambiguous;
use std::alloc::{AllocError, Global};
use std::thread::Threads;
use text_lines::{push_keyed, push_line};

/// Returns the status of a verdict.
pub fn verdict_status(verdict: Verdict) -> u8
    ensures { result ≡ verdict_status verdict }
{
    status_where(matches!(verdict, Verdict::Yes))
}

/// Appends the line of a verdict.
pub fn push_verdict(out: &mut Vec<u8>, verdict: Verdict) -> Result<(), AllocError>
    ensures { OnOk result (out.new.items ≡ out.old.items ++ verdict_line verdict) }
{
    match verdict {
        Verdict::SessionText(line) => push_refused_session(out, line),
        Verdict::CertText(line) => push_refused_certificate(out, line),
        Verdict::Shape(fault) => push_shape(out, &fault),
        Verdict::Pages => push_line(out, b"pages"),
        Verdict::Runs(line) => push_keyed(out, b"runs line ", line),
        Verdict::Page(line) => push_keyed(out, b"page line ", line),
        Verdict::Yes => push_line(out, b"yes"),
    }
}

/// Returns the verdict on a session and a certificate, as an answer in this form and as a value, given what was read
/// from their texts.
fn judge_read<R: Threads + Sync>(
    rt: &R,
    form: VerdictForm,
    alloc: Global,
    session: &Result<Session, u32>,
    cert: &Result<Cert, u32>,
) -> Result<(Answer, Verdict), AllocError>
    ensures right { (first second : List ℕ) → IsRead SpellsSession first session.now → IsRead SpellsCert second cert.now → IfOk result (λ judged. IsTextVerdict first second judged.1) }
    ensures told { IfOk result (λ judged. Says judged.0 (verdict_text form judged.1) (verdict_status judged.1)) }
{
    let verdict = check_read(rt, alloc, session, cert)?;
    let mut text = Vec::new(alloc);
    push_told(&mut text, form, verdict)?;
    let answer = Answer {
        text,
        status: verdict_status(verdict),
    };
    Ok((answer, verdict))
}

/// Returns the answer to what is asked about a session and its certificate, and the verdict, given what was read from
/// their texts.
fn checked<R: Threads + Sync>(
    rt: &R,
    form: VerdictForm,
    complete: Option<Extent>,
    alloc: Global,
    session: &Result<Session, u32>,
    cert: &Result<Cert, u32>,
) -> Result<(Answer, Verdict), AllocError>
    ensures right { (first second : List ℕ) → IsRead SpellsSession first session.now → IsRead SpellsCert second cert.now → IfOk result (λ judged. IsTextVerdict first second judged.1) }
    ensures told { (first second : List ℕ) → IsRead SpellsSession first session.now → IsRead SpellsCert second cert.now → IfOk result (λ judged. IsChecked form complete (first, second) judged.0.text.items judged.0.status) }
{
    session_texts_are_unambiguous();
    let (answer, verdict) = judge_read(rt, form, alloc, session, cert)?;
    let whole = held(
        &OwnLines,
        lack_beside(form),
        complete,
        alloc,
        session,
        answer,
    )?;
    Ok((whole, verdict))
}

/// `check`: the verdict on a session and its certificate.
#[derive(Clone, Copy)]
pub struct CheckCommand<'a, R> {
    pub rt: &'a R,
    /// The form of the verdict.
    pub form: VerdictForm,
    /// To what extent the session must be complete, if that is asked.
    pub complete: Option<Extent>,
}

impl<R: Threads + Sync> OnTwo for CheckCommand<'_, R> {
    type First = SessionTaker;

    type Second = CertReader;

    type Said = Verdict;

    ghost ready = { IsSync R.row };

    ghost is_answer = { λ command. IsChecked command.form command.complete };

    ghost is_said = { λ _ texts verdict. IsTextVerdict texts.0 texts.1 verdict };

    ghost adds_more = { λ _. AddsMisfitOf };

    ghost how_much = { λ command. verdict_telling command.form };

    ghost has_note = { λ command texts. IsBeside command.complete texts.0 };

    fn telling(&self) -> Telling {
        telling_by(lack_beside(self.form))
    }

    fn is_about_second(&self) -> bool {
        false
    }

    fn answer(
        &self,
        alloc: Global,
        session: &Result<Session, u32>,
        cert: &Result<Cert, u32>,
    ) -> Result<(Answer, Verdict), Fault<'static>> {
        given(checked(self.rt, self.form, self.complete, alloc, session, cert))
    }

    fn push_more(
        &self,
        out: &mut Vec<u8>,
        name: &[u8],
        session: &Result<Session, u32>,
        cert: &Result<Cert, u32>,
        verdict: Verdict,
    ) -> Result<(), AllocError> {
        match session {
            Ok(session) => match cert {
                Ok(cert) => push_misfit(out, name, session, cert, verdict),
                Err(_) => Ok(()),
            },
            Err(_) => Ok(()),
        }
    }

    fn note(
        &self,
        alloc: Global,
        session: &Result<Session, u32>,
        _cert: &Result<Cert, u32>,
        answer: &Answer,
    ) -> Result<Option<Vec<u8>>, AllocError> {
        note_on(
            alloc,
            session,
            self.complete,
            lack_beside(self.form),
            answer,
        )
    }
}
