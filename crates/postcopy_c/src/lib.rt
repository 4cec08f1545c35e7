//! The checker, the auditor and the replay, for C and any language that can call C. The header is `postcopy.h`.
#![tactic(auto)]

ghost use Rattle.std.specs.Prelude.{◌≡◌, ◌≢◌};
ghost use Rattle.audit_model.specs.Mergings.{HasMerging};
ghost use Rattle.audit_model.specs.World.{IsSafe};
ghost use Rattle.audit_model.specs.Laws.{FindsResident, ReadsFlat, PlacedOnce, PlacedUntouched, ReleasedAsZeros};
ghost use Rattle.judged_texts.specs.Checked.{SpellsOneSession, OfSpelled, ReplaysClean};
ghost use Rattle.judged_texts.specs.Audited.{IsSafeExactlyIf, IsUnsafe};
ghost use Rattle.postcopy_c.specs.Answers.{IsVerdictAnswer, IsReplayAnswer, IsAuditAnswer};
ghost use Rattle.postcopy_c.specs.Showings.{IsMissingAnswer, IsShownAnswer, SaysSafe};
ghost use Rattle.postcopy_c.specs.Questions.{AreAnswers};
ghost use Rattle.postcopy_c.specs.Refusals.{IsWhy};

mod answer;
mod asking;
mod completing;
mod kinds;
mod questions;
mod reasons;
mod refusals;
mod showing;
mod telling;
mod texts;

use crate::answer::{PostcopyAnswer, replay_answer, verdict_answer};
use crate::asking::{PostcopyQuestion, tell_answers};
use crate::completing::tell_missing;
use crate::kinds::{CLEAN, FAULTY, NO_MEMORY, NO_QUESTION, SESSION_TEXT, YES};
use crate::refusals::{PostcopyRefusal, tell_why};
use crate::showing::{ShownAs, tell_shown};
use crate::telling::tell_audit;
use completeness::Extent;
use judged_texts::{AuditPart, check_texts_alone, replay_texts};
use migration_types::Topic;
use session_answers::{AnswerForm, Story};
use std::alloc::Global;

/// The version: 10,000 times its first number, plus 100 times its second, plus its third.
pub const VERSION: u32 = 10_100;

/// Returns the verdict on the bytes of a session and of its certificate, as `judged_texts::check_texts_alone` does.
#[unsafe(no_mangle)]
pub extern "C" fn postcopy_check(alloc: Global, session: &[u8], cert: &[u8]) -> PostcopyAnswer
    ensures verdict { IsVerdictAnswer session.now cert.now result }
    ensures one_session { result.kind ≡ YES → SpellsOneSession session.now }
    ensures safe { result.kind ≡ YES → OfSpelled session.now IsSafe }
    ensures replays_clean { result.kind ≡ YES → OfSpelled session.now (ReplaysClean cert.now) }
    ensures has_merging { result.kind ≡ YES → OfSpelled session.now HasMerging }
    ensures finds_resident { result.kind ≡ YES → OfSpelled session.now FindsResident }
    ensures reads_flat { result.kind ≡ YES → OfSpelled session.now ReadsFlat }
    ensures placed_once { result.kind ≡ YES → OfSpelled session.now PlacedOnce }
    ensures placed_untouched { result.kind ≡ YES → OfSpelled session.now PlacedUntouched }
    ensures released_as_zeros { result.kind ≡ YES → OfSpelled session.now ReleasedAsZeros }
{
    verdict_answer(check_texts_alone(alloc, session, cert))
}

/// Returns the outcome of the bytes of a session along an order that is given, as `judged_texts::replay_texts` does.
#[unsafe(no_mangle)]
pub extern "C" fn postcopy_replay(alloc: Global, session: &[u8], runs: &[u8]) -> PostcopyAnswer
    ensures answer { IsReplayAnswer session.now runs.now result }
{
    replay_answer(replay_texts(alloc, session, runs))
}

/// Writes the certificate of a clean session, or for any other session the first line of its report. Returns the length
/// of the whole text. The text is written to the front of the room if it fits. Otherwise the room stays as it was.
#[unsafe(no_mangle)]
pub extern "C" fn postcopy_certify(alloc: Global, session: &[u8], room: &mut [u8]) -> PostcopyAnswer
    ensures told { IsAuditAnswer AuditPart.Certificate session.now room.old room.new result }
    ensures one_session { result.kind ≢ SESSION_TEXT → result.kind ≢ NO_MEMORY → SpellsOneSession session.now }
    ensures safe { result.kind ≡ CLEAN → OfSpelled session.now IsSafe }
    ensures exactly { result.kind ≢ NO_MEMORY → OfSpelled session.now (IsSafeExactlyIf (result.kind ≡ CLEAN)) }
    ensures faulty { result.kind ≡ FAULTY → OfSpelled session.now IsUnsafe }
{
    tell_audit(alloc, session, AuditPart::Certificate, room)
}

/// Writes the report on a session, in the same way as `postcopy_certify`.
#[unsafe(no_mangle)]
pub extern "C" fn postcopy_audit(alloc: Global, session: &[u8], room: &mut [u8]) -> PostcopyAnswer
    ensures told { IsAuditAnswer AuditPart.Report session.now room.old room.new result }
    ensures one_session { result.kind ≢ SESSION_TEXT → result.kind ≢ NO_MEMORY → SpellsOneSession session.now }
    ensures safe { result.kind ≡ CLEAN → OfSpelled session.now IsSafe }
    ensures exactly { result.kind ≢ NO_MEMORY → OfSpelled session.now (IsSafeExactlyIf (result.kind ≡ CLEAN)) }
    ensures faulty { result.kind ≡ FAULTY → OfSpelled session.now IsUnsafe }
{
    tell_audit(alloc, session, AuditPart::Report, room)
}

/// Writes the first line of the report on a session, and each page that has a fault, in the same way as
/// `postcopy_certify`. If the session does not have the right shape, or has no merging, no pages are listed.
#[unsafe(no_mangle)]
pub extern "C" fn postcopy_audit_all(
    alloc: Global,
    session: &[u8],
    room: &mut [u8],
) -> PostcopyAnswer
    ensures told { IsShownAnswer (ShownAs.Told AnswerForm.AllFaults) session.now room.old room.new result }
    ensures one_session { result.kind ≢ SESSION_TEXT → result.kind ≢ NO_MEMORY → SpellsOneSession session.now }
    ensures safe { result.kind ≡ CLEAN → OfSpelled session.now IsSafe }
    ensures exactly { result.kind ≢ NO_MEMORY → OfSpelled session.now (IsSafeExactlyIf (result.kind ≡ CLEAN)) }
    ensures faulty { result.kind ≡ FAULTY → OfSpelled session.now IsUnsafe }
{
    tell_shown(alloc, session, ShownAs::Told(AnswerForm::AllFaults), room)
}

/// Writes the line that says what is missing first from a clean session, or nothing if it tells of a whole migration.
/// For any other session, writes the first line of its report. Works in the same way as `postcopy_certify`.
#[unsafe(no_mangle)]
pub extern "C" fn postcopy_missing(alloc: Global, session: &[u8], room: &mut [u8]) -> PostcopyAnswer
    ensures told { IsMissingAnswer Extent.Whole session.now room.old room.new result }
    ensures one_session { result.kind ≢ SESSION_TEXT → result.kind ≢ NO_MEMORY → SpellsOneSession session.now }
    ensures safe { SaysSafe result.kind → OfSpelled session.now IsSafe }
    ensures exactly { result.kind ≢ NO_MEMORY → OfSpelled session.now (IsSafeExactlyIf (SaysSafe result.kind)) }
    ensures faulty { result.kind ≡ FAULTY → OfSpelled session.now IsUnsafe }
{
    tell_missing(alloc, session, Extent::Whole, room)
}

/// Writes the line that says which of these is missing first from a clean session: that the guest was halted and
/// resumed, and that each owed page was placed, or released at the target. Writes nothing if all of it is there. For
/// any other session, writes the first line of its report. Works in the same way as `postcopy_certify`.
#[unsafe(no_mangle)]
pub extern "C" fn postcopy_missing_pages(
    alloc: Global,
    session: &[u8],
    room: &mut [u8],
) -> PostcopyAnswer
    ensures told { IsMissingAnswer Extent.Pages session.now room.old room.new result }
    ensures one_session { result.kind ≢ SESSION_TEXT → result.kind ≢ NO_MEMORY → SpellsOneSession session.now }
    ensures safe { SaysSafe result.kind → OfSpelled session.now IsSafe }
    ensures exactly { result.kind ≢ NO_MEMORY → OfSpelled session.now (IsSafeExactlyIf (SaysSafe result.kind)) }
    ensures faulty { result.kind ≡ FAULTY → OfSpelled session.now IsUnsafe }
{
    tell_missing(alloc, session, Extent::Pages, room)
}

/// Writes the story of a session in words, after the first line of its report, in the same way as `postcopy_certify`.
#[unsafe(no_mangle)]
pub extern "C" fn postcopy_explain(alloc: Global, session: &[u8], room: &mut [u8]) -> PostcopyAnswer
    ensures told { IsShownAnswer (ShownAs.Told (AnswerForm.Story (Story.Words Topic.Report))) session.now room.old room.new result }
    ensures one_session { result.kind ≢ SESSION_TEXT → result.kind ≢ NO_MEMORY → SpellsOneSession session.now }
    ensures safe { result.kind ≡ CLEAN → OfSpelled session.now IsSafe }
    ensures exactly { result.kind ≢ NO_MEMORY → OfSpelled session.now (IsSafeExactlyIf (result.kind ≡ CLEAN)) }
    ensures faulty { result.kind ≡ FAULTY → OfSpelled session.now IsUnsafe }
{
    tell_shown(
        alloc,
        session,
        ShownAs::Told(AnswerForm::Story(Story::Words(Topic::Report))),
        room,
    )
}

/// Writes the story of the page with this number in words, after the first line of the report, in the same way as
/// `postcopy_certify`. If the machine does not have the page, the text says so.
#[unsafe(no_mangle)]
pub extern "C" fn postcopy_explain_page(
    alloc: Global,
    session: &[u8],
    page: u32,
    room: &mut [u8],
) -> PostcopyAnswer
    ensures told { IsShownAnswer (ShownAs.Told (AnswerForm.Story (Story.Words (Topic.Page page)))) session.now room.old room.new result }
    ensures one_session { result.kind ≢ SESSION_TEXT → result.kind ≢ NO_MEMORY → SpellsOneSession session.now }
    ensures safe { result.kind ≡ CLEAN → OfSpelled session.now IsSafe }
    ensures exactly { result.kind ≢ NO_MEMORY → OfSpelled session.now (IsSafeExactlyIf (result.kind ≡ CLEAN)) }
    ensures faulty { result.kind ≡ FAULTY → OfSpelled session.now IsUnsafe }
{
    tell_shown(
        alloc,
        session,
        ShownAs::Told(AnswerForm::Story(Story::Words(Topic::Page(page)))),
        room,
    )
}

/// Writes the story of the record at this line of the session's text, and of its page, in words, after the first line
/// of the report, in the same way as `postcopy_certify`. Lines are counted from 1. If there is no record at the line,
/// the text says so.
#[unsafe(no_mangle)]
pub extern "C" fn postcopy_explain_line(
    alloc: Global,
    session: &[u8],
    line: u32,
    room: &mut [u8],
) -> PostcopyAnswer
    ensures told { IsShownAnswer (ShownAs.Told (AnswerForm.Story (Story.Words (Topic.Line line)))) session.now room.old room.new result }
    ensures one_session { result.kind ≢ SESSION_TEXT → result.kind ≢ NO_MEMORY → SpellsOneSession session.now }
    ensures safe { result.kind ≡ CLEAN → OfSpelled session.now IsSafe }
    ensures exactly { result.kind ≢ NO_MEMORY → OfSpelled session.now (IsSafeExactlyIf (result.kind ≡ CLEAN)) }
    ensures faulty { result.kind ≡ FAULTY → OfSpelled session.now IsUnsafe }
{
    tell_shown(
        alloc,
        session,
        ShownAs::Told(AnswerForm::Story(Story::Words(Topic::Line(line)))),
        room,
    )
}

/// Writes the picture of a session in the order of its report, as SVG, in the same way as `postcopy_certify`. If the
/// session's text is refused, writes the line that says so.
#[unsafe(no_mangle)]
pub extern "C" fn postcopy_draw(alloc: Global, session: &[u8], room: &mut [u8]) -> PostcopyAnswer
    ensures told { IsShownAnswer (ShownAs.Picture Topic.Report) session.now room.old room.new result }
    ensures one_session { result.kind ≢ SESSION_TEXT → result.kind ≢ NO_MEMORY → SpellsOneSession session.now }
    ensures safe { result.kind ≡ CLEAN → OfSpelled session.now IsSafe }
    ensures exactly { result.kind ≢ NO_MEMORY → OfSpelled session.now (IsSafeExactlyIf (result.kind ≡ CLEAN)) }
    ensures faulty { result.kind ≡ FAULTY → OfSpelled session.now IsUnsafe }
{
    tell_shown(alloc, session, ShownAs::Picture(Topic::Report), room)
}

/// Writes the picture about the page with this number in the order of the report, as SVG, in the same way as
/// `postcopy_certify`. If the session's text is refused, writes the line that says so.
#[unsafe(no_mangle)]
pub extern "C" fn postcopy_draw_page(
    alloc: Global,
    session: &[u8],
    page: u32,
    room: &mut [u8],
) -> PostcopyAnswer
    ensures told { IsShownAnswer (ShownAs.Picture (Topic.Page page)) session.now room.old room.new result }
    ensures one_session { result.kind ≢ SESSION_TEXT → result.kind ≢ NO_MEMORY → SpellsOneSession session.now }
    ensures safe { result.kind ≡ CLEAN → OfSpelled session.now IsSafe }
    ensures exactly { result.kind ≢ NO_MEMORY → OfSpelled session.now (IsSafeExactlyIf (result.kind ≡ CLEAN)) }
    ensures faulty { result.kind ≡ FAULTY → OfSpelled session.now IsUnsafe }
{
    tell_shown(alloc, session, ShownAs::Picture(Topic::Page(page)), room)
}

/// Answers several questions about one session, which is read once and judged once. For each question it writes the
/// text of the call for this question alone, one text after another. Returns the length of all texts. They are written
/// to the front of the room if all of them fit. The ends get the offset at which each text ends, if there is an end for
/// each question. What does not fit stays as it was. If the number of a question is unknown, nothing is read, and
/// nothing is written.
#[unsafe(no_mangle)]
pub extern "C" fn postcopy_answers(
    alloc: Global,
    session: &[u8],
    questions: &[PostcopyQuestion],
    ends: &mut [usize],
    room: &mut [u8],
) -> PostcopyAnswer
    ensures told { AreAnswers questions.now session.now ends.old ends.new room.old room.new result }
    ensures one_session { result.kind ≢ SESSION_TEXT → result.kind ≢ NO_MEMORY → result.kind ≢ NO_QUESTION → SpellsOneSession session.now }
    ensures safe { result.kind ≡ CLEAN → OfSpelled session.now IsSafe }
    ensures exactly { result.kind ≢ NO_MEMORY → result.kind ≢ NO_QUESTION → OfSpelled session.now (IsSafeExactlyIf (result.kind ≡ CLEAN)) }
    ensures faulty { result.kind ≡ FAULTY → OfSpelled session.now IsUnsafe }
{
    tell_answers(alloc, session, questions, ends, room)
}

/// Writes why a text is refused as one of a kind, in one line of words, in the same way as `postcopy_certify`. Returns
/// the line and the column. `kind` is the number of the answer that refuses such a text: a session, a certificate, or
/// an order as `postcopy_replay` takes it.
#[unsafe(no_mangle)]
pub extern "C" fn postcopy_why(
    alloc: Global,
    text: &[u8],
    kind: u32,
    room: &mut [u8],
) -> PostcopyRefusal
    ensures { IsWhy kind text.now room.old room.new result }
{
    tell_why(alloc, text, kind, room)
}

/// Returns the version of the library.
#[unsafe(no_mangle)]
pub extern "C" fn postcopy_version() -> u32
    ensures { result ≡ VERSION }
{
    VERSION
}
