//! Several questions about one session, which is read once and judged once.

ghost use Rattle.std.specs.Prelude.{◌≡◌, ◌≢◌, IfOk};
ghost use Rattle.audit_model.specs.World.{IsSafe};
ghost use Rattle.judged_texts.specs.Checked.{SpellsOneSession, OfSpelled};
ghost use Rattle.judged_texts.specs.Audited.{IsSafeExactlyIf, IsUnsafe};
ghost use Rattle.postcopy_c.specs.Questions.{AreAnswers, AsksAll, IsAsked};

use crate::answer::{PostcopyAnswer, out_of_memory, unknown_question};
use crate::kinds::{CLEAN, FAULTY, NO_MEMORY, NO_QUESTION, SESSION_TEXT};
use crate::questions::{
    AUDIT, AUDIT_ALL, AUDIT_ALL_OBJECT, AUDIT_OBJECT, CERTIFY, DRAW, DRAW_PAGE, EXPLAIN,
    EXPLAIN_LINE, EXPLAIN_OBJECT, EXPLAIN_PAGE, MISSING, MISSING_PAGES,
};
use crate::showing::{ShownAs, tell_all};
use completeness::Extent;
use judged_texts::AuditPart;
use migration_types::Topic;
use session_answers::{AnswerForm, Story};
use std::alloc::{AllocError, Global};

/// A question about a session, as C has it.
#[repr(C)]
#[derive(Clone, Copy)]
pub struct PostcopyQuestion {
    /// What it asks: a number of `questions`.
    pub asks: u32,
    /// The page, or the line of the session's text, that it asks about. Other questions ignore it.
    pub about: u32,
}

/// Returns what a question asks to be shown, or `None` if its number is unknown.
fn asked_by(question: &PostcopyQuestion) -> Option<ShownAs>
    ensures { IsAsked question.now result }
{
    let about = question.about;
    Some(match question.asks {
        AUDIT => ShownAs::Told(AnswerForm::Lines(AuditPart::Report)),
        CERTIFY => ShownAs::Told(AnswerForm::Lines(AuditPart::Certificate)),
        AUDIT_ALL => ShownAs::Told(AnswerForm::AllFaults),
        MISSING => ShownAs::Lack(Extent::Whole),
        MISSING_PAGES => ShownAs::Lack(Extent::Pages),
        EXPLAIN => ShownAs::Told(AnswerForm::Story(Story::Words(Topic::Report))),
        EXPLAIN_PAGE => ShownAs::Told(AnswerForm::Story(Story::Words(Topic::Page(about)))),
        EXPLAIN_LINE => ShownAs::Told(AnswerForm::Story(Story::Words(Topic::Line(about)))),
        DRAW => ShownAs::Picture(Topic::Report),
        DRAW_PAGE => ShownAs::Picture(Topic::Page(about)),
        AUDIT_OBJECT => ShownAs::Told(AnswerForm::Object),
        AUDIT_ALL_OBJECT => ShownAs::Told(AnswerForm::AllFaultsObject),
        EXPLAIN_OBJECT => ShownAs::Told(AnswerForm::Story(Story::Object(Topic::Report))),
        _ => return None,
    })
}

/// Returns what each question asks to be shown, or `None` if the number of one is unknown.
fn asked_by_all(
    alloc: Global,
    questions: &[PostcopyQuestion],
) -> Result<Option<Vec<ShownAs>>, AllocError>
    ensures { IfOk result (AsksAll questions.now) }
{
    let mut asked = Vec::new(alloc);
    for question in questions {
        match asked_by(question) {
            Some(shown_as) => asked.push(shown_as)?,
            None => return Ok(None),
        }
    }
    Ok(Some(asked))
}

/// Answers the questions about the session that a text spells.
pub(crate) fn tell_answers(
    alloc: Global,
    session: &[u8],
    questions: &[PostcopyQuestion],
    ends: &mut [usize],
    room: &mut [u8],
) -> PostcopyAnswer
    ensures told { AreAnswers questions.now session.now ends.old ends.new room.old room.new result }
    ensures one_session { result.kind ≢ SESSION_TEXT → result.kind ≢ NO_MEMORY → result.kind ≢ NO_QUESTION → SpellsOneSession session.now }
    ensures safe { result.kind ≡ CLEAN → OfSpelled session.now IsSafe }
    ensures exactly { result.kind ≢ NO_MEMORY → result.kind ≢ NO_QUESTION → OfSpelled session.now (IsSafeExactlyIf (result.kind ≡ CLEAN)) }
    ensures faulty { result.kind ≡ FAULTY → OfSpelled session.now IsUnsafe }
{
    match asked_by_all(alloc, questions) {
        Ok(Some(asked)) => tell_all(alloc, session, &asked, ends, room),
        Ok(None) => unknown_question(),
        Err(_) => out_of_memory(),
    }
}
