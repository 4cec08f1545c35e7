//! Answers if a session must be complete. They stay as they are, unless something is missing from the session.

ghost use Rattle.std.specs.Prelude.{IfOk};
ghost use Rattle.judge_commands.specs.inner.Held.{IsHeld, IsHeldWhere};

use audit_report::Lines;
use command_texts::{Answer, REFUSED};
use completeness::Extent;
use migration_types::Session;
use session_answers::{LackForm, print_lack_of};
use std::alloc::{AllocError, Global};

/// Returns an answer, or the answer that says what is missing from a session, if it is not complete.
fn held_to<L: Lines>(
    lines: &L,
    form: LackForm,
    extent: Extent,
    alloc: Global,
    session: &Session,
    answer: Answer,
) -> Result<Answer, AllocError>
    ensures { IfOk result (λ held. IsHeld (L.tell lines.now) extent form (Ok session.now) answer held) }
{
    if answer.status != 0 {
        return Ok(answer);
    }
    match print_lack_of(alloc, lines, session, extent, form) {
        Ok(Some(text)) => Ok(Answer {
            text,
            status: REFUSED,
        }),
        Ok(None) => Ok(answer),
        Err(error) => Err(error),
    }
}

/// Returns an answer, or the answer that says what is missing from a session, given what was read from its text.
/// Something counts as missing only if the session must be complete to an extent, and the answer says that all is well.
/// `lines` gives the line numbers.
pub(crate) fn held<L: Lines>(
    lines: &L,
    form: LackForm,
    complete: Option<Extent>,
    alloc: Global,
    session: &Result<Session, u32>,
    answer: Answer,
) -> Result<Answer, AllocError>
    ensures { IfOk result (λ held. IsHeldWhere (L.tell lines.now) complete form session.now answer held) }
{
    let Some(extent) = complete else {
        return Ok(answer);
    };
    match session {
        Ok(session) => held_to(lines, form, extent, alloc, session, answer),
        Err(_) => Ok(answer),
    }
}
