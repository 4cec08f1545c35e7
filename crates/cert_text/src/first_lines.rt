//! The first lines of texts that give an order.

ghost use Rattle.std.specs.Prelude.{◌≡◌, ◌≢◌, ℕ, List, IfSome, IfNone, MatchOption, IsTrue, ◌↔◌, slice_index};
ghost use Rattle.audit_model.specs.declared.reasons.PageReason.{PageReason as Reason};
ghost use Rattle.audit_model.specs.Reasons.{page_word};
ghost use Rattle.migration_types.specs.declared.version.Version.{Version as Told};
ghost use Rattle.cert_text.specs.Grammar.{header};
ghost use Rattle.cert_text.specs.Order.{IsLineNumber, faulty_line};
ghost use Rattle.cert_text.specs.declared.forms.OrderForm.{OrderForm as Shape};
ghost use Rattle.cert_text.specs.inner.OrderHeld.{IsFirst, IsCertHeader};

use crate::forms::OrderForm;
use crate::{RUNS_HEADER, cert_header};
use audit_model::PageReason;
use migration_types::{Size, Version};
use text_lines::{Wanted, after_key, is_line, number_then};

/// The first line of the report on a clean session.
pub const CLEAN: &[u8] = b"clean";

/// The beginning of the first line of the report on a session with a fault.
pub const FAULTY: &[u8] = b"faulty line ";

/// The greatest number of a line.
const LAST_LINE: u32 = 4_294_967_295;

/// Returns the reason whose word begins with this letter.
fn reason_with_letter(first: u8) -> PageReason
    ensures { (reason : Reason) → first ≡ slice_index (page_word reason) 0 → result ≡ reason }
{
    match first {
        b'r' => PageReason::Read,
        b'e' => PageReason::Early,
        b'g' => PageReason::Given,
        b's' => PageReason::Stale,
        b't' => PageReason::Twice,
        b'a' => PageReason::Altered,
        b'u' => PageReason::Unfit,
        _ => PageReason::Over,
    }
}

/// Returns the reason with this word.
fn reason_of(word: &[u8]) -> Option<PageReason>
    ensures { MatchOption result ((reason : Reason) → word.now ≢ page_word reason) (λ reason. word.now ≡ page_word reason) }
{
    let Some(first) = word.first() else {
        return None;
    };
    let reason = reason_with_letter(*first);
    if !is_line(word, reason.word()) {
        return None;
    }
    Some(reason)
}

/// Returns the line and the reason of the fault that a first line names.
fn fault_of(line: &[u8]) -> Option<(u32, PageReason)>
    ensures found { IfSome result (λ fault. IsLineNumber fault.0 × (line.now ≡ faulty_line fault.0 fault.1)) }
    ensures none { IfNone result ((n : ℕ) (reason : Reason) → IsLineNumber n → line.now ≢ faulty_line n reason) }
{
    let Some(rest) = after_key(line, FAULTY) else {
        return None;
    };
    let Some((number, word)) = number_then(rest, u64::from(LAST_LINE)) else {
        return None;
    };
    if number == 0 {
        return None;
    }
    match reason_of(word) {
        Some(reason) => Some((number as u32, reason)),
        None => None,
    }
}

/// Returns whether a line is the first of a certificate.
fn is_cert_header(line: &[u8]) -> bool
    ensures { IsTrue result ↔ IsCertHeader line.now }
{
    is_line(line, cert_header(Version::One, Size::Small))
        || is_line(line, cert_header(Version::Two, Size::Small))
        || is_line(line, cert_header(Version::Two, Size::Large))
}

/// Returns the form of the texts that begin with this line.
pub(crate) fn form_of(line: &[u8]) -> Option<OrderForm>
    ensures found { IfSome result (λ form. IsFirst form line.now) }
    ensures none { IfNone result ((form : Shape) → IsFirst form line.now → ⊥) }
{
    if is_line(line, RUNS_HEADER) {
        return Some(OrderForm::Runs);
    }
    if is_cert_header(line) {
        return Some(OrderForm::Cert);
    }
    if is_line(line, CLEAN) {
        return Some(OrderForm::Clean);
    }
    match fault_of(line) {
        Some((line, reason)) => Some(OrderForm::Faulty { line, reason }),
        None => None,
    }
}

/// The forms of the first lines of texts that give an order.
const FIRST_LINES: &[&str] = &[
    "postcopy-runs 1",
    "postcopy-certificate 1",
    "postcopy-certificate 2",
    "postcopy-certificate 3",
    "clean",
    "faulty line N read",
    "faulty line N early",
    "faulty line N given",
    "faulty line N stale",
    "faulty line N twice",
    "faulty line N altered",
    "faulty line N unfit",
    "faulty line N over",
];

/// Returns what is allowed at the first line.
pub(crate) fn wanted_first() -> Wanted {
    Wanted::one(
        "the first line of a text of runs, of a certificate or of a report",
        FIRST_LINES,
    )
    .within(1, LAST_LINE)
}
