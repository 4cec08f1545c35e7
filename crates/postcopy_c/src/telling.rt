//! The audit of a text, as numbers and as a text in the caller's room.

ghost use Rattle.std.specs.Prelude.{◌≡◌, ◌≢◌, IfOk, IfErr};
ghost use Rattle.audit_model.specs.World.{IsSafe};
ghost use Rattle.judged_texts.specs.Checked.{SpellsOneSession, OfSpelled};
ghost use Rattle.judged_texts.specs.Audited.{AuditedFits, IsSafeExactlyIf, IsUnsafe};
ghost use Rattle.postcopy_c.specs.Answers.{IsPut, IsTold, IsAuditAnswer};

use crate::answer::{PostcopyAnswer, audited_answer, out_of_memory};
use crate::kinds::{CLEAN, FAULTY, NO_MEMORY, SESSION_TEXT};
use judged_texts::{AuditPart, TextAudit, audit_text, print_audited};
use std::alloc::{AllocError, Global};

/// Writes items to the front of the room if they fit. Otherwise the room stays as it was.
pub(crate) fn put<T: Copy>(items: &[T], room: &mut [T])
    ensures { IsPut items.now room.old room.new }
{
    if items.len() <= room.len() {
        room[..items.len()].copy_from_slice(items);
    }
}

/// Returns an audit in numbers, and writes its text to the room. After an error the room is as it was.
fn told(
    alloc: Global,
    audited: &TextAudit,
    wanted: AuditPart,
    room: &mut [u8],
) -> Result<PostcopyAnswer, AllocError>
    requires { AuditedFits audited.now }
    ensures told { IfOk result (λ answer. IsTold wanted audited.now room.old room.new answer) }
    ensures stays { IfErr result (λ _. room.new ≡ room.old) }
{
    let text = print_audited(alloc, audited, wanted)?;
    put(&text, room);
    Ok(audited_answer(audited, text.len()))
}

/// Audits a text, and writes the part of the report that is asked for to the room.
pub(crate) fn tell_audit(
    alloc: Global,
    session: &[u8],
    wanted: AuditPart,
    room: &mut [u8],
) -> PostcopyAnswer
    ensures told { IsAuditAnswer wanted session.now room.old room.new result }
    ensures one_session { result.kind ≢ SESSION_TEXT → result.kind ≢ NO_MEMORY → SpellsOneSession session.now }
    ensures safe { result.kind ≡ CLEAN → OfSpelled session.now IsSafe }
    ensures exactly { result.kind ≢ NO_MEMORY → OfSpelled session.now (IsSafeExactlyIf (result.kind ≡ CLEAN)) }
    ensures faulty { result.kind ≡ FAULTY → OfSpelled session.now IsUnsafe }
{
    let Ok(audited) = audit_text(alloc, session) else {
        return out_of_memory();
    };
    match told(alloc, &audited, wanted, room) {
        Ok(answer) => answer,
        Err(_) => out_of_memory(),
    }
}
