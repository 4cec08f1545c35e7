//! The report on a session, written in a form.

ghost use Rattle.std.specs.Prelude.{IfOk};
ghost use Rattle.audit_report.specs.Reports.{IsReport, ReportFits};
ghost use Rattle.session_answers.specs.Judged.{Refused, Reported};
ghost use Rattle.session_answers.specs.Forms.{AreListed, ArePagesFor, Tells, TellsAllFaults, TellsAllFaultsObject, TellsObject};

use crate::forms::AnswerForm;
use crate::stories::{object_of_refusal, print_story, print_story_refusal};
use crate::{push_all_faults, push_report};
use audit_report::{OwnLines, Report, print_all_faults, print_refused_session};
use judged_texts::print_wanted;
use migration_types::Session;
use page_facts::FaultyPage;
use std::alloc::{AllocError, Global};

/// Returns the report with each page that has a fault, in lines.
fn all_faults(
    alloc: Global,
    _session: &Session,
    report: &Report,
    pages: &[FaultyPage],
) -> Result<Vec<u8>, AllocError>
    requires { AreListed _session.now report.now pages.now }
    ensures { IfOk result (λ text. TellsAllFaults (Reported _session.now report.now) text.items) }
{
    print_all_faults(alloc, report, pages)
}

/// Returns the object of the report.
fn object_of(alloc: Global, session: &Session, report: &Report) -> Result<Vec<u8>, AllocError>
    ensures { IfOk result (λ text. TellsObject (Reported session.now report.now) text.items) }
{
    let mut object = Vec::new(alloc);
    push_report(&mut object, session, report)?;
    Ok(object)
}

/// Returns the object of the report with each page that has a fault.
fn all_faults_object(
    alloc: Global,
    session: &Session,
    report: &Report,
    pages: &[FaultyPage],
) -> Result<Vec<u8>, AllocError>
    requires { AreListed session.now report.now pages.now }
    ensures { IfOk result (λ text. TellsAllFaultsObject (Reported session.now report.now) text.items) }
{
    let mut object = Vec::new(alloc);
    push_all_faults(&mut object, session, report, pages)?;
    Ok(object)
}

/// Returns the text of the report on a session in this form. The pages are used only if the form lists each page with a
/// fault. Fails only if memory runs out.
pub fn print_told(
    alloc: Global,
    session: &Session,
    report: &Report,
    pages: &[FaultyPage],
    form: AnswerForm,
) -> Result<Vec<u8>, AllocError>
    requires report { IsReport session.now report.now }
    requires fits { ReportFits report.now }
    requires pages { ArePagesFor form session.now report.now pages.now }
    ensures { IfOk result (λ text. Tells form (Reported session.now report.now) text.items) }
{
    match form {
        AnswerForm::Lines(wanted) => print_wanted(alloc, report, wanted),
        AnswerForm::AllFaults => all_faults(alloc, session, report, pages),
        AnswerForm::Object => object_of(alloc, session, report),
        AnswerForm::AllFaultsObject => all_faults_object(alloc, session, report, pages),
        AnswerForm::Story(story) => print_story(alloc, &OwnLines, session, report, story),
    }
}

/// Returns the text that says in this form that a session's text is refused at this line. Fails only if memory runs
/// out.
pub fn print_refusal(alloc: Global, line: u32, form: AnswerForm) -> Result<Vec<u8>, AllocError>
    ensures { IfOk result (λ text. Tells form (Refused line) text.items) }
{
    match form {
        AnswerForm::Lines(_) | AnswerForm::AllFaults => print_refused_session(alloc, line),
        AnswerForm::Object | AnswerForm::AllFaultsObject => object_of_refusal(
            alloc, &OwnLines, line,
        ),
        AnswerForm::Story(story) => print_story_refusal(alloc, &OwnLines, line, story),
    }
}
