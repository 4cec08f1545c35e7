//! What the words ask about a session, in the form that the judging commands take.

ghost use Rattle.std.specs.Prelude.{◌≡◌};
ghost use Rattle.command_texts.specs.Several.{style_of};
ghost use Rattle.commands.specs.Told.{ask_of, audit_ask, explain_ask, extent_of, list_ask, list_form, list_style, report_form, story_form};

use command_texts::Listing;
use command_words::{Audits, Demand, Explains, ListForm, Lists, OneText, ReportForm, StoryForm};
use completeness::Extent;
use judged_texts::AuditPart;
use session_answers::{AnswerForm, Ask, Story};

/// The end of the last line of a list, after how many of how many sessions are clean.
const ARE_CLEAN: &[u8] = b" sessions are clean\n";

/// Returns to what extent a session must be complete, if that is asked.
pub(crate) fn extent_of(demand: Demand) -> Option<Extent>
    ensures { result ≡ extent_of demand }
{
    match demand {
        Demand::Safety => None,
        Demand::Pages => Some(Extent::Pages),
        Demand::Whole => Some(Extent::Whole),
    }
}

// Returns the form of the report on a session.
fn report_form(form: ReportForm) -> AnswerForm
    ensures { result ≡ report_form form }
{
    match form {
        ReportForm::Lines => AnswerForm::Lines(AuditPart::Report),
        ReportForm::FirstLine => AnswerForm::Lines(AuditPart::FirstLine),
        ReportForm::AllFaults => AnswerForm::AllFaults,
        ReportForm::Object => AnswerForm::Object,
        ReportForm::AllFaultsObject => AnswerForm::AllFaultsObject,
    }
}

// Returns the form of the report on each of several sessions.
fn list_form(form: ListForm) -> AnswerForm
    ensures { result ≡ list_form form }
{
    match form {
        ListForm::FirstLines => AnswerForm::Lines(AuditPart::FirstLine),
        ListForm::Objects => AnswerForm::Object,
        ListForm::AllFaultsObjects => AnswerForm::AllFaultsObject,
    }
}

/// Returns the form of the story of a session.
pub(crate) fn story_form(form: StoryForm) -> Story
    ensures { result ≡ story_form form }
{
    match form {
        StoryForm::Words(topic) => Story::Words(topic),
        StoryForm::Object(topic) => Story::Object(topic),
    }
}

// Returns what an audit asks about a session.
fn audit_ask(audits: Audits) -> Ask
    ensures { result ≡ audit_ask audits }
{
    Ask {
        form: report_form(audits.form),
        complete: extent_of(audits.demand),
    }
}

// Returns what an explanation asks about a session.
fn explain_ask(explains: Explains) -> Ask
    ensures { result ≡ explain_ask explains }
{
    Ask {
        form: AnswerForm::Story(story_form(explains.form)),
        complete: extent_of(explains.demand),
    }
}

/// Returns what the audit of several sessions asks about each.
pub(crate) fn list_ask(lists: Lists) -> Ask
    ensures { result ≡ list_ask lists }
{
    Ask {
        form: list_form(lists.form),
        complete: extent_of(lists.demand),
    }
}

/// Returns how the answers to several sessions are listed: as lines after their names, with how many are clean, or as
/// objects.
pub(crate) fn listing_of(form: ListForm) -> Listing<'static>
    ensures { style_of result ≡ list_style form }
{
    match form {
        ListForm::FirstLines => Listing::Named(ARE_CLEAN),
        ListForm::Objects | ListForm::AllFaultsObjects => Listing::Objects,
    }
}

/// Returns what a command on one text asks about it.
pub(crate) fn ask_of(task: OneText) -> Ask
    ensures { result ≡ ask_of task }
{
    match task {
        OneText::Certify => Ask {
            form: AnswerForm::Lines(AuditPart::Certificate),
            complete: None,
        },
        OneText::Audit(audits) => audit_ask(audits),
        OneText::Explain(explains) => explain_ask(explains),
    }
}
