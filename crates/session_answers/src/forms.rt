//! The forms of an answer about a session.

ghost use Rattle.std.specs.Prelude.{◌≡◌};
ghost use Rattle.session_answers.specs.Forms.{lists_pages};
ghost use Rattle.session_answers.specs.Lacks.{lack_form, story_lack};

use completeness::Extent;
use judged_texts::AuditPart;
use migration_types::Topic;

/// The form in which the story of a session is written.
#[derive(Clone, Copy)]
pub enum Story {
    /// Words on this topic, after the first line of the report.
    Words(Topic),
    /// The object of the report, with this topic and the records of its story, each with its role.
    Object(Topic),
}

/// The form in which the report on a session is written.
#[derive(Clone, Copy)]
pub enum AnswerForm {
    /// Lines: the wanted part of the report.
    Lines(AuditPart),
    /// Lines, with each page that has a fault.
    AllFaults,
    /// A JSON object.
    Object,
    /// A JSON object, with each page that has a fault.
    AllFaultsObject,
    /// The story of the session.
    Story(Story),
}

/// The form in which a lack of a session is written.
#[derive(Clone, Copy)]
pub enum LackForm {
    /// A line.
    Line,
    /// A line, with words after it.
    Words,
    /// A JSON object.
    Object,
}

impl Story {
    /// Returns the form of a lack that goes with this form.
    pub fn of_lack(self) -> LackForm
        ensures { result ≡ story_lack self }
    {
        match self {
            Story::Words(_) => LackForm::Words,
            Story::Object(_) => LackForm::Object,
        }
    }
}

impl AnswerForm {
    /// Returns whether the form lists each page with a fault.
    pub fn lists_pages(self) -> bool
        ensures { result ≡ lists_pages self }
    {
        matches!(self, AnswerForm::AllFaults | AnswerForm::AllFaultsObject)
    }

    /// Returns the form of a lack that goes with this form.
    pub fn of_lack(self) -> LackForm
        ensures { result ≡ lack_form self }
    {
        match self {
            AnswerForm::Lines(_) | AnswerForm::AllFaults => LackForm::Line,
            AnswerForm::Object | AnswerForm::AllFaultsObject => LackForm::Object,
            AnswerForm::Story(story) => story.of_lack(),
        }
    }
}

/// What is asked about a session.
#[derive(Clone, Copy)]
pub struct Ask {
    /// The form of its report.
    pub form: AnswerForm,
    /// How much of a migration it must tell, if that is asked.
    pub complete: Option<Extent>,
}
