//! Fields that an object has if a text is refused: where the text is wrong, what was found there, and what is allowed.

ghost use Rattle.std.specs.Prelude.{◌≡◌, ◌++◌, take, codes, is_some, IfOk, IfErr, IfSome, OnOk};
ghost use Rattle.command_texts.specs.Fields.{HasFields, IsTold};

use crate::answer::{Answer, Fault, Given};
use crate::shown::push_quoted;
use crate::why::{Telling, Why};
use refusal_words::{Reason, Refused, reason_of};
use std::alloc::{AllocError, Global};
use text_lines::{is_line, push_number};

/// The end of an object on a line of its own.
const END: &[u8] = b"}\n";

/// Appends forms as strings of JSON, with commas between them.
fn push_forms(out: &mut Vec<u8>, forms: &[&'static str]) -> Result<(), AllocError> {
    for (at, form) in forms.iter().enumerate() {
        if at > 0 {
            out.push(b',')?;
        }
        push_quoted(out, form)?;
    }
    Ok(())
}

/// Appends the field for what was found where a text is wrong, if its line does not end there.
fn push_found(out: &mut Vec<u8>, found: &Option<String>) -> Result<(), AllocError> {
    let Some(found) = found else {
        return Ok(());
    };
    out.extend_from_slice(b",\"found\":")?;
    push_quoted(out, found.as_str())
}

/// Appends the field for the forms that are allowed there, if there are some.
fn push_expected(out: &mut Vec<u8>, forms: &[&'static str]) -> Result<(), AllocError> {
    if forms.is_empty() {
        return Ok(());
    }
    out.extend_from_slice(b",\"expected\":[")?;
    push_forms(out, forms)?;
    out.extend_from_slice(b"]")
}

/// Appends the field for the words.
fn push_words(out: &mut Vec<u8>, words: &[u8]) -> Result<(), AllocError> {
    let words = String::from_utf8_lossy(*out.allocator(), words)?;
    out.extend_from_slice(b",\"reason\":")?;
    push_quoted(out, words.as_str())
}

/// Appends the fields that say why a text is refused, each after a comma.
fn push_fields(out: &mut Vec<u8>, reason: &Reason) -> Result<(), AllocError> {
    out.extend_from_slice(b",\"column\":")?;
    push_number(out, reason.column)?;
    push_found(out, &reason.found)?;
    push_expected(out, reason.expected.as_slice())?;
    push_words(out, reason.words.as_slice())
}

/// Returns the fields that say why a text is refused.
fn fields_of(alloc: Global, refused: &Refused) -> Result<Vec<u8>, AllocError> {
    let reason = reason_of(alloc, refused)?;
    let mut fields = Vec::new(alloc);
    push_fields(&mut fields, &reason)?;
    Ok(fields)
}

/// Returns how many bytes of an object come before its end, if it ends as an object does.
#[tactic(auto, using(crate::proofs::Objects::front_is))]
fn front_of(object: &[u8]) -> Option<usize>
    ensures { IfSome result (λ at. object.now ≡ take at object.now ++ codes "}\n") }
{
    let at = object.len().saturating_sub(END.len());
    let (_, end) = object.split_at(at);
    if is_line(end, END) { Some(at) } else { None }
}

/// Puts fields and the end of an object behind its first bytes.
fn put_fields(object: &mut Vec<u8>, at: usize, fields: &[u8]) -> Result<(), AllocError>
    ensures { OnOk result (object.new.items ≡ (take at object.old.items ++ fields.now) ++ codes "}\n") }
{
    object.truncate(at);
    object.extend_from_slice(fields)?;
    object.extend_from_slice(END)
}

/// Adds the fields that say why a text is refused to an object, before its end.
#[tactic(auto, using(crate::proofs::Objects::has_more))]
fn add_fields(alloc: Global, object: &mut Vec<u8>, refused: &Refused) -> Result<(), AllocError>
    ensures { OnOk result (HasFields object.old.items object.new.items) }
{
    let Some(at) = front_of(object.as_slice()) else {
        return Ok(());
    };
    let fields = fields_of(alloc, refused)?;
    put_fields(object, at, fields.as_slice())?;
    Ok(())
}

/// Adds the fields that say why a text is refused to an answer, if it is and they are told.
fn add_reason(
    alloc: Global,
    answer: &mut Answer,
    telling: Telling,
    why: &Option<Why<'_>>,
) -> Result<(), AllocError>
    ensures text { OnOk result (IsTold telling (is_some why.now) answer.old.text.items answer.new.text.items) }
    ensures status { answer.new.status ≡ answer.old.status }
{
    let Some(why) = why else {
        return Ok(());
    };
    match telling {
        Telling::Short | Telling::Full => Ok(()),
        Telling::Fields => add_fields(alloc, &mut answer.text, &why.refused),
    }
}

/// Returns an answer as it is written: with the fields that say why a text is refused, if it is and they are told. Fails
/// only if memory runs out.
pub(crate) fn as_told(
    alloc: Global,
    answer: Answer,
    telling: Telling,
    why: &Option<Why<'_>>,
) -> Given
    ensures text { IfOk result (λ told. IsTold telling (is_some why.now) answer.text.items told.text.items) }
    ensures status { IfOk result (λ told. told.status ≡ answer.status) }
    ensures fault { IfErr result (λ fault. fault ≡ Fault.Memory) }
{
    let mut told = answer;
    match add_reason(alloc, &mut told, telling, why) {
        Ok(()) => Ok(told),
        Err(_) => Err(Fault::Memory),
    }
}
