//! What a session lacks, in words or as an object.

ghost use Rattle.std.specs.Prelude.{◌≡◌, IfOk, MatchOption};
ghost use Rattle.completeness.specs.Complete.{IsComplete, IsFirstMissing};
ghost use Rattle.session_answers.specs.Lacks.{IsLack, TellsLack, object_of, line_of};

use crate::forms::LackForm;
use crate::push_missing as push_missing_object;
use crate::telling::print_missing;
use audit_report::{Lines, push_missing};
use completeness::{Extent, Lack, first_missing};
use migration_types::Session;
use std::alloc::{AllocError, Global};

/// Returns the line that says that a session lacks this, with its line numbers from `lines`. Fails only if memory runs
/// out.
fn line_of<L: Lines>(
    alloc: Global,
    lines: &L,
    session: &Session,
    missing: Lack,
) -> Result<Vec<u8>, AllocError>
    requires { IsFirstMissing session.now missing }
    ensures { IfOk result (λ text. text.items ≡ line_of (L.tell lines.now) session.now missing) }
{
    let mut text = Vec::new(alloc);
    push_missing(&mut text, lines, session, missing)?;
    Ok(text)
}

/// Returns the object that says that a session lacks this, with its line numbers from `lines`. Fails only if memory
/// runs out.
fn object_of<L: Lines>(
    alloc: Global,
    lines: &L,
    session: &Session,
    missing: Lack,
) -> Result<Vec<u8>, AllocError>
    requires { IsFirstMissing session.now missing }
    ensures { IfOk result (λ text. text.items ≡ object_of (L.tell lines.now) session.now missing) }
{
    let mut text = Vec::new(alloc);
    push_missing_object(&mut text, lines, session, missing)?;
    Ok(text)
}

/// Returns the text that says in this form that a session lacks this, with its line numbers from `lines`. Fails only if
/// memory runs out.
pub fn print_lack<L: Lines>(
    alloc: Global,
    lines: &L,
    session: &Session,
    missing: Lack,
    form: LackForm,
) -> Result<Vec<u8>, AllocError>
    requires { IsFirstMissing session.now missing }
    ensures { IfOk result (λ text. TellsLack (L.tell lines.now) form session.now missing text.items) }
{
    match form {
        LackForm::Line => line_of(alloc, lines, session, missing),
        LackForm::Words => print_missing(alloc, lines, session, missing),
        LackForm::Object => object_of(alloc, lines, session, missing),
    }
}

/// Returns the text that says in this form what a session lacks first of what this extent requires, if it lacks
/// something, with its line numbers from `lines`. Fails only if memory runs out.
pub fn print_lack_of<L: Lines>(
    alloc: Global,
    lines: &L,
    session: &Session,
    extent: Extent,
    form: LackForm,
) -> Result<Option<Vec<u8>>, AllocError>
    ensures { IfOk result (λ lack. MatchOption lack (IsComplete extent session.now) (λ text. IsLack (L.tell lines.now) extent form session.now text.items)) }
{
    let Some(missing) = first_missing(alloc, session, extent)? else {
        return Ok(None);
    };
    let text = print_lack(alloc, lines, session, missing, form)?;
    Ok(Some(text))
}
