//! The form of a verdict, and how much is said beside an answer.

ghost use Rattle.std.specs.Prelude.{◌≡◌, ◌++◌, OnOk};
ghost use Rattle.judge_commands.specs.Answers.{telling_by, verdict_lack, verdict_text};

use crate::checking::push_verdict;
use cert_check::Verdict;
use command_texts::Telling;
use command_words::VerdictForm;
use session_answers::{LackForm, push_verdict as push_verdict_object};
use std::alloc::AllocError;

/// Appends the text of a verdict in this form. Fails only if memory runs out.
pub(crate) fn push_told(
    out: &mut Vec<u8>,
    form: VerdictForm,
    verdict: Verdict,
) -> Result<(), AllocError>
    ensures { OnOk result (out.new.items ≡ out.old.items ++ verdict_text form verdict) }
{
    match form {
        VerdictForm::Line => push_verdict(out, verdict),
        VerdictForm::Object => push_verdict_object(out, verdict),
    }
}

/// Returns the form of a line that says what is missing from a session, given the form of a verdict.
pub(crate) fn lack_beside(form: VerdictForm) -> LackForm
    ensures { result ≡ verdict_lack form }
{
    match form {
        VerdictForm::Line => LackForm::Line,
        VerdictForm::Object => LackForm::Object,
    }
}

/// Returns how much is said about a text that is refused, by the form in which an answer says what a session lacks.
pub(crate) fn telling_by(form: LackForm) -> Telling
    ensures { result ≡ telling_by form }
{
    match form {
        LackForm::Line => Telling::Short,
        LackForm::Words => Telling::Full,
        LackForm::Object => Telling::Fields,
    }
}
