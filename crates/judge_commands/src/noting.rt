//! The notes on a session that is clean: about which little could be judged, or to which pages never came.

ghost use Rattle.std.specs.Prelude.{◌≡◌, ℕ, List, None, Some, true, false, IfOk, IfSome, option_map};
ghost use Rattle.text_lines.specs.Answer.{IsRead};
ghost use Rattle.session_log.specs.Grammar.{SpellsSession};
ghost use Rattle.completeness.specs.Complete.{Lacks};
ghost use Rattle.completeness.specs.declared.lack.Extent.{Extent as HowFar};
ghost use Rattle.completeness.specs.declared.lack.Lack.{Lack};
ghost use Rattle.judge_commands.specs.Noted.{IsBeside, left_words, note_on, note_words};

use audit_report::OwnLines;
use command_texts::{ACCEPTED, Answer};
use completeness::{Extent, count_left_pages, tells_use};
use migration_types::Session;
use session_answers::{LackForm, print_lack_of};
use session_log::session_texts_are_unambiguous;
use std::alloc::{AllocError, Global};
use text_lines::{is_line, push_number};

/// The note on a session without a use.
const NO_USE: &[u8] =
    b"note: the guest neither reads nor writes a page after a resume, so no use of one was judged";

/// The same behind another note.
const NOR_A_USE: &[u8] =
    b"; the guest neither reads nor writes a page after a resume, so no use of one was judged";

/// The note on owed pages that never came, before how many there are.
const LEFT: &[u8] = b"note: owed pages that never came: ";

/// The same behind the number.
const LEFT_STATUS: &[u8] = b" (with --complete-pages that is status 1)";

/// What is said beside an answer that says what a session lacks.
const INCOMPLETE: &[u8] =
    b"note: nothing in the logs is wrong, but they do not tell of a whole migration: \"postcopy explain\" with the same option says what is missing";

/// Returns the note on a session without a use.
fn no_use(alloc: Global) -> Result<Vec<u8>, AllocError>
    ensures { IfOk result (λ words. Some words.items ≡ note_words false 0) }
{
    let mut words = Vec::new(alloc);
    words.extend_from_slice(NO_USE)?;
    Ok(words)
}

/// Returns the note that so many owed pages never came, before more words.
fn pages_left(alloc: Global, count: u32, behind: &[u8]) -> Result<Vec<u8>, AllocError>
    ensures { IfOk result (λ words. words.items ≡ left_words count behind.now) }
{
    let mut words = Vec::new(alloc);
    words.extend_from_slice(LEFT)?;
    push_number(&mut words, count)?;
    words.extend_from_slice(LEFT_STATUS)?;
    words.extend_from_slice(behind)?;
    Ok(words)
}

/// Returns the words of the note on a session, if there is one, by whether it tells of a use and how many owed pages never
/// came.
fn words_of(alloc: Global, used: bool, left: u32) -> Result<Option<Vec<u8>>, AllocError>
    ensures { IfOk result (λ note. option_map (λ words. words.items) note ≡ note_words used left) }
{
    let words = match (left, used) {
        (0, true) => return Ok(None),
        (0, false) => no_use(alloc)?,
        (_, true) => pages_left(alloc, left, b"")?,
        (_, false) => pages_left(alloc, left, NOR_A_USE)?,
    };
    Ok(Some(words))
}

/// Returns the words of the note on a session, if there is one.
fn note_of(alloc: Global, session: &Session) -> Result<Option<Vec<u8>>, AllocError>
    ensures { IfOk result (λ note. option_map (λ words. words.items) note ≡ note_on session.now) }
{
    let left = count_left_pages(alloc, session)?;
    words_of(alloc, tells_use(session), left)
}

/// Returns whether an answer in this form says what a session lacks of what this extent requires.
fn says_lack(
    alloc: Global,
    session: &Session,
    extent: Extent,
    form: LackForm,
    answer: &Answer,
) -> Result<bool, AllocError>
    ensures { IfOk result (λ says. says ≡ true → (lacking : Lack) × Lacks extent session.now lacking) }
{
    match print_lack_of(alloc, &OwnLines, session, extent, form)? {
        Some(lack) => Ok(is_line(lack.as_slice(), answer.text.as_slice())),
        None => Ok(false),
    }
}

/// Returns the words beside an answer that says what a session lacks, if it says that and has no sentences itself.
fn reason_of(
    alloc: Global,
    session: &Session,
    complete: Option<Extent>,
    form: LackForm,
    answer: &Answer,
) -> Result<Option<Vec<u8>>, AllocError>
    ensures { IfOk result (λ reason. IfSome reason (λ words. (extent : HowFar) × (complete ≡ Some extent) × ((lacking : Lack) × Lacks extent session.now lacking) × (words.items ≡ INCOMPLETE.now))) }
{
    let Some(extent) = complete else {
        return Ok(None);
    };
    if matches!(form, LackForm::Words) {
        return Ok(None);
    }
    if !says_lack(alloc, session, extent, form, answer)? {
        return Ok(None);
    }
    let mut words = Vec::new(alloc);
    words.extend_from_slice(INCOMPLETE)?;
    Ok(Some(words))
}

/// Returns the words beside an answer to what is asked about a session, given what was read from its text, and the form in
/// which the answer says what the session lacks. Beside an answer that all is well there are some if the session has no read
/// and no write after a resume, or owed pages never came. Beside one that says what the session lacks they say that the
/// logs tell of no fault. Fails only if memory runs out.
pub(crate) fn note_on(
    alloc: Global,
    session: &Result<Session, u32>,
    complete: Option<Extent>,
    form: LackForm,
    answer: &Answer,
) -> Result<Option<Vec<u8>>, AllocError>
    ensures told { (text : List ℕ) → IsRead SpellsSession text session.now → IfOk result (λ note. IfSome note (λ words. IsBeside complete text answer.now.status words.items)) }
    ensures well { (text : List ℕ) → IsRead SpellsSession text session.now → answer.now.status ≡ 0 → IfOk result (λ note. note ≡ None → (words : List ℕ) → IsBeside complete text 0 words → ⊥) }
{
    session_texts_are_unambiguous();
    match session {
        Ok(session) => {
            if answer.status == ACCEPTED {
                note_of(alloc, session)
            } else {
                reason_of(alloc, session, complete, form, answer)
            }
        }
        Err(_) => Ok(None),
    }
}
