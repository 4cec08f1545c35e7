//! The verdict on the texts of a session and a certificate.

ghost use Rattle.std.specs.Prelude.{◌≡◌, ℕ, List, IfOk};
ghost use Rattle.text_lines.specs.Answer.{IsRead};
ghost use Rattle.session_log.specs.Grammar.{SpellsSession};
ghost use Rattle.cert_text.specs.Grammar.{SpellsCert};
ghost use Rattle.audit_model.specs.Mergings.{HasMerging};
ghost use Rattle.audit_model.specs.World.{IsSafe};
ghost use Rattle.audit_model.specs.Laws.{FindsResident, ReadsFlat, PlacedOnce, PlacedUntouched, ReleasedAsZeros};
ghost use Rattle.judged_texts.specs.Checked.{HeadlineHolds, IsTextVerdict, SpellsOneSession, OfSpelled, ReplaysClean};

use audit_model::certified_is_safe;
use cert_check::{EntryJudges, Verdict, check_by};
use cert_text::{cert_texts_are_unambiguous, read_cert};
use migration_types::{Cert, Session};
use page_facts::{InThreads, OneThread};
use session_log::{read_session, session_texts_are_unambiguous};
use std::alloc::{AllocError, Global};
use std::marker::Sync;
use std::thread::Threads;

/// A law: if the verdict on two texts is yes, the headline holds for them. The first spells exactly one session. Its
/// logs have a merging, and in every merging, each read or write after handover finds its page resident, each read
/// gives what one machine that never moved gives, each page is placed at most once, and before any read, write or
/// release of it at the target, and a released page is never sent and comes back as zeros. Runs nothing.
pub fn headline_holds_at_yes()
    ensures { (session cert : List ℕ) → IsTextVerdict session cert Verdict.Yes → HeadlineHolds session cert }
{
    session_texts_are_unambiguous();
    cert_texts_are_unambiguous();
    certified_is_safe();
}

/// Returns the session that a text spells, or the line at which the text is refused. Fails only if memory runs out.
fn session_read(alloc: Global, text: &[u8]) -> Result<Result<Session, u32>, AllocError>
    ensures { IfOk result (λ found. IsRead SpellsSession text.now found) }
{
    match read_session(alloc, text) {
        Ok(session) => Ok(Ok(session)),
        Err(fault) => Ok(Err(fault.refused_line()?)),
    }
}

/// Returns the certificate that a text spells, or the line at which the text is refused. Fails only if memory runs out.
fn cert_read(alloc: Global, text: &[u8]) -> Result<Result<Cert, u32>, AllocError>
    ensures { IfOk result (λ found. IsRead SpellsCert text.now found) }
{
    match read_cert(alloc, text) {
        Ok(cert) => Ok(Ok(cert)),
        Err(fault) => Ok(Err(fault.refused_line()?)),
    }
}

/// Returns the verdict on a session and its certificate, given what was read from their texts, whichever judges are
/// used. Fails only if memory runs out.
fn check_read_by<J: EntryJudges>(
    judges: &J,
    alloc: Global,
    session: &Result<Session, u32>,
    cert: &Result<Cert, u32>,
) -> Result<Verdict, AllocError>
    requires ready { J.ready }
    ensures verdict { (first second : List ℕ) → IsRead SpellsSession first session.now → IsRead SpellsCert second cert.now → IfOk result (IsTextVerdict first second) }
{
    match session {
        Ok(session) => match cert {
            Ok(cert) => check_by(judges, alloc, session, cert),
            Err(line) => Ok(Verdict::CertText(*line)),
        },
        Err(line) => Ok(Verdict::SessionText(*line)),
    }
}

/// Returns the verdict on a session and its certificate, given what was read from their texts: the first that applies
/// of all in [`Verdict`]. On `Yes`, it promises of the bytes that were read what [`check_texts`] does. Threads side by
/// side judge the pages. Fails only if memory runs out.
pub fn check_read<R: Threads + Sync>(
    rt: &R,
    alloc: Global,
    session: &Result<Session, u32>,
    cert: &Result<Cert, u32>,
) -> Result<Verdict, AllocError>
    ensures verdict { (first second : List ℕ) → IsRead SpellsSession first session.now → IsRead SpellsCert second cert.now → IfOk result (IsTextVerdict first second) }
    ensures one_session { (first second : List ℕ) → IsRead SpellsSession first session.now → IsRead SpellsCert second cert.now → result ≡ Ok Verdict.Yes → SpellsOneSession first }
    ensures safe { (first second : List ℕ) → IsRead SpellsSession first session.now → IsRead SpellsCert second cert.now → result ≡ Ok Verdict.Yes → OfSpelled first IsSafe }
    ensures replays_clean { (first second : List ℕ) → IsRead SpellsSession first session.now → IsRead SpellsCert second cert.now → result ≡ Ok Verdict.Yes → OfSpelled first (ReplaysClean second) }
    ensures has_merging { (first second : List ℕ) → IsRead SpellsSession first session.now → IsRead SpellsCert second cert.now → result ≡ Ok Verdict.Yes → OfSpelled first HasMerging }
    ensures finds_resident { (first second : List ℕ) → IsRead SpellsSession first session.now → IsRead SpellsCert second cert.now → result ≡ Ok Verdict.Yes → OfSpelled first FindsResident }
    ensures reads_flat { (first second : List ℕ) → IsRead SpellsSession first session.now → IsRead SpellsCert second cert.now → result ≡ Ok Verdict.Yes → OfSpelled first ReadsFlat }
    ensures placed_once { (first second : List ℕ) → IsRead SpellsSession first session.now → IsRead SpellsCert second cert.now → result ≡ Ok Verdict.Yes → OfSpelled first PlacedOnce }
    ensures placed_untouched { (first second : List ℕ) → IsRead SpellsSession first session.now → IsRead SpellsCert second cert.now → result ≡ Ok Verdict.Yes → OfSpelled first PlacedUntouched }
    ensures released_as_zeros { (first second : List ℕ) → IsRead SpellsSession first session.now → IsRead SpellsCert second cert.now → result ≡ Ok Verdict.Yes → OfSpelled first ReleasedAsZeros }
{
    headline_holds_at_yes();
    check_read_by(&InThreads { rt }, alloc, session, cert)
}

/// Returns the verdict on the texts of a session and of its certificate, whichever judges are used. Fails only if
/// memory runs out.
fn check_texts_by<J: EntryJudges>(
    judges: &J,
    alloc: Global,
    session: &[u8],
    cert: &[u8],
) -> Result<Verdict, AllocError>
    requires ready { J.ready }
    ensures verdict { IfOk result (IsTextVerdict session.now cert.now) }
    ensures headline { result ≡ Ok Verdict.Yes → HeadlineHolds session.now cert.now }
{
    headline_holds_at_yes();
    let session = session_read(alloc, session)?;
    let cert = cert_read(alloc, cert)?;
    check_read_by(judges, alloc, &session, &cert)
}

/// Returns the verdict on the texts of a session and of its certificate: the first that applies of all in [`Verdict`].
///
/// On `Yes`, the first text spells exactly one session. Its logs have a merging, and in every merging, each read or
/// write after handover finds its page resident, each read gives what one machine that never moved gives, each page is
/// placed at most once, and before any read, write or release of it at the target, and a released page is never sent
/// and comes back as zeros.
///
/// Threads side by side judge the pages, and the call waits only for them. Nothing is assumed about who wrote the
/// texts. Fails only if memory runs out, which may happen before a text is judged.
pub fn check_texts<R: Threads + Sync>(
    rt: &R,
    alloc: Global,
    session: &[u8],
    cert: &[u8],
) -> Result<Verdict, AllocError>
    ensures verdict { IfOk result (IsTextVerdict session.now cert.now) }
    ensures one_session { result ≡ Ok Verdict.Yes → SpellsOneSession session.now }
    ensures safe { result ≡ Ok Verdict.Yes → OfSpelled session.now IsSafe }
    ensures replays_clean { result ≡ Ok Verdict.Yes → OfSpelled session.now (ReplaysClean cert.now) }
    ensures has_merging { result ≡ Ok Verdict.Yes → OfSpelled session.now HasMerging }
    ensures finds_resident { result ≡ Ok Verdict.Yes → OfSpelled session.now FindsResident }
    ensures reads_flat { result ≡ Ok Verdict.Yes → OfSpelled session.now ReadsFlat }
    ensures placed_once { result ≡ Ok Verdict.Yes → OfSpelled session.now PlacedOnce }
    ensures placed_untouched { result ≡ Ok Verdict.Yes → OfSpelled session.now PlacedUntouched }
    ensures released_as_zeros { result ≡ Ok Verdict.Yes → OfSpelled session.now ReleasedAsZeros }
{
    check_texts_by(&InThreads { rt }, alloc, session, cert)
}

/// Returns the verdict that [`check_texts`] returns. The calling thread judges alone, and waits for nobody. Fails only
/// if memory runs out.
pub fn check_texts_alone(alloc: Global, session: &[u8], cert: &[u8]) -> Result<Verdict, AllocError>
    ensures verdict { IfOk result (IsTextVerdict session.now cert.now) }
    ensures one_session { result ≡ Ok Verdict.Yes → SpellsOneSession session.now }
    ensures safe { result ≡ Ok Verdict.Yes → OfSpelled session.now IsSafe }
    ensures replays_clean { result ≡ Ok Verdict.Yes → OfSpelled session.now (ReplaysClean cert.now) }
    ensures has_merging { result ≡ Ok Verdict.Yes → OfSpelled session.now HasMerging }
    ensures finds_resident { result ≡ Ok Verdict.Yes → OfSpelled session.now FindsResident }
    ensures reads_flat { result ≡ Ok Verdict.Yes → OfSpelled session.now ReadsFlat }
    ensures placed_once { result ≡ Ok Verdict.Yes → OfSpelled session.now PlacedOnce }
    ensures placed_untouched { result ≡ Ok Verdict.Yes → OfSpelled session.now PlacedUntouched }
    ensures released_as_zeros { result ≡ Ok Verdict.Yes → OfSpelled session.now ReleasedAsZeros }
{
    check_texts_by(&OneThread, alloc, session, cert)
}
