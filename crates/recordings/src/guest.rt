//! Lines of the guest's records.

ghost use Rattle.std.specs.Prelude.{◌≡◌, ◌≢◌, ◌<◌, ◌^◌, ◌∷◌, [], ◌++◌, ℕ, IfOk, IfErr, IfSome, IfNone, OnOk};
ghost use Rattle.migration_types.specs.declared.records.GuestRec.{GuestRec};
ghost use Rattle.session_grammar.specs.Records.{access_text, vcpu_page_text, guest_line};
ghost use Rattle.recordings.specs.Recordings.{IsMachine, IsGuestRecOf};
ghost use Rattle.recordings.specs.Wide.{extent_of, guest_of};
ghost use Rattle.session_grammar.specs.inner.Forms.{IsEvent};

use crate::fields::{keyed_whole, number_whole};
use crate::machine::{BEYOND, WideMachine};
use crate::wide::WideGuest;
use migration_types::LAST_VCPU;
use std::alloc::AllocError;
use text_lines::{
    FaultKind, after_key, end_line, is_line, number_then, push_keyed, push_line, push_number,
    push_then, read_decimal,
};

const READ_KEY: &[u8] = b"r ";

const WRITE_KEY: &[u8] = b"w ";

const RELEASE_KEY: &[u8] = b"z ";

const MISS_KEY: &[u8] = b"miss ";

const HALT: &[u8] = b"halt";

const RESUME_KEY: &[u8] = b"resume ";

const SEE_KEY: &[u8] = b"see ";

/// Returns the processor, page, cell and value that the text spells.
#[inline(always)]
fn access_whole(machine: &WideMachine, text: &[u8]) -> Option<(u8, u64, u16, u64)>
    requires { IsMachine (extent_of machine.now) }
    ensures found { IfSome result (λ a. (a.0 < 64) × (a.1 < machine.now.pages) × (a.2 < machine.now.cells) × (a.3 < 2 ^ 64) × (text.now ≡ access_text a.0 a.1 a.2 a.3)) }
    ensures none { IfNone result ((v p c x : ℕ) → v < 64 → p < machine.now.pages → c < machine.now.cells → x < 2 ^ 64 → text.now ≢ access_text v p c x) }
{
    let Some((vcpu, rest)) = number_then(text, u64::from(LAST_VCPU)) else {
        return None;
    };
    let Some((page, rest)) = number_then(rest, machine.pages - 1) else {
        return None;
    };
    let Some((cell, rest)) = number_then(rest, u64::from(machine.cells) - 1) else {
        return None;
    };
    let Some(value) = read_decimal(rest) else {
        return None;
    };
    Some((vcpu as u8, page, cell as u16, value))
}

/// Returns the processor and the page that the text spells.
#[inline(always)]
fn vcpu_page_whole(machine: &WideMachine, text: &[u8]) -> Option<(u8, u64)>
    requires { IsMachine (extent_of machine.now) }
    ensures found { IfSome result (λ a. (a.0 < 64) × (a.1 < machine.now.pages) × (text.now ≡ vcpu_page_text a.0 a.1)) }
    ensures none { IfNone result ((v p : ℕ) → v < 64 → p < machine.now.pages → text.now ≢ vcpu_page_text v p) }
{
    let Some((vcpu, rest)) = number_then(text, u64::from(LAST_VCPU)) else {
        return None;
    };
    let Some(page) = number_whole(rest, machine.pages) else {
        return None;
    };
    Some((vcpu as u8, page))
}

/// Returns the record that a line spells, if it is not a read or a write.
fn read_event(machine: &WideMachine, line: &[u8]) -> Option<WideGuest>
    requires { IsMachine (extent_of machine.now) }
    ensures found { IfSome result (λ r. IsGuestRecOf (extent_of machine.now) (guest_of r) × (line.now ≡ guest_line (guest_of r))) }
    ensures none { IfNone result ((r : GuestRec) → IsEvent r → IsGuestRecOf (extent_of machine.now) r → line.now ≢ guest_line r) }
{
    if let Some(placement) = keyed_whole(line, SEE_KEY, BEYOND) {
        return Some(WideGuest::See { placement });
    }
    if let Some(text) = after_key(line, MISS_KEY) {
        let Some((vcpu, page)) = vcpu_page_whole(machine, text) else {
            return None;
        };
        return Some(WideGuest::Miss { vcpu, page });
    }
    if let Some(text) = after_key(line, RELEASE_KEY) {
        let Some((vcpu, page)) = vcpu_page_whole(machine, text) else {
            return None;
        };
        return Some(WideGuest::Release { vcpu, page });
    }
    if let Some(ready) = keyed_whole(line, RESUME_KEY, BEYOND) {
        return Some(WideGuest::Resume { ready });
    }
    if !is_line(line, HALT) {
        return None;
    }
    Some(WideGuest::Halt)
}

/// Returns the record that a line spells.
fn read_record(machine: &WideMachine, line: &[u8]) -> Option<WideGuest>
    requires { IsMachine (extent_of machine.now) }
    ensures found { IfSome result (λ r. IsGuestRecOf (extent_of machine.now) (guest_of r) × (line.now ≡ guest_line (guest_of r))) }
    ensures none { IfNone result ((r : GuestRec) → IsGuestRecOf (extent_of machine.now) r → line.now ≢ guest_line r) }
{
    if let Some(text) = after_key(line, READ_KEY) {
        let Some((vcpu, page, cell, value)) = access_whole(machine, text) else {
            return None;
        };
        return Some(WideGuest::Read {
            vcpu,
            page,
            cell,
            value,
        });
    }
    if let Some(text) = after_key(line, WRITE_KEY) {
        let Some((vcpu, page, cell, value)) = access_whole(machine, text) else {
            return None;
        };
        return Some(WideGuest::Write {
            vcpu,
            page,
            cell,
            value,
        });
    }
    read_event(machine, line)
}

/// Appends a line that is a key, a processor, a page, a cell and a value.
#[inline(always)]
fn push_access(
    out: &mut Vec<u8>,
    key: &[u8],
    vcpu: u8,
    page: u64,
    cell: u16,
    value: u64,
) -> Result<(), AllocError>
    ensures { OnOk result (out.new.items ≡ out.old.items ++ (key.now ++ access_text vcpu page cell value ++ 10 ∷ [])) }
{
    out.extend_from_slice(key)?;
    push_then(out, vcpu)?;
    push_then(out, page)?;
    push_then(out, cell)?;
    push_number(out, value)?;
    end_line(out)
}

/// Appends a line that is a key, a processor and a page.
#[inline(always)]
fn push_vcpu_page(out: &mut Vec<u8>, key: &[u8], vcpu: u8, page: u64) -> Result<(), AllocError>
    ensures { OnOk result (out.new.items ≡ out.old.items ++ (key.now ++ vcpu_page_text vcpu page ++ 10 ∷ [])) }
{
    out.extend_from_slice(key)?;
    push_then(out, vcpu)?;
    push_number(out, page)?;
    end_line(out)
}

impl WideGuest {
    /// Returns the record of the guest that a line spells.
    ///
    /// # Errors
    ///
    /// The line does not spell one.
    #[inline(always)]
    pub fn read(machine: &WideMachine, line: &[u8]) -> Result<WideGuest, FaultKind>
        requires { IsMachine (extent_of machine.now) }
        ensures found { IfOk result (λ r. IsGuestRecOf (extent_of machine.now) (guest_of r) × (line.now ≡ guest_line (guest_of r))) }
        ensures refused { IfErr result (λ kind. kind ≢ FaultKind.Memory → (r : GuestRec) → IsGuestRecOf (extent_of machine.now) r → line.now ≢ guest_line r) }
        ensures kind { IfErr result (λ kind. kind ≢ FaultKind.Memory) }
    {
        match read_record(machine, line) {
            Some(rec) => Ok(rec),
            None => Err(FaultKind::Form),
        }
    }

    /// Appends its line, with the line feed. Fails only if memory runs out.
    pub fn push(&self, out: &mut Vec<u8>) -> Result<(), AllocError>
        ensures { OnOk result (out.new.items ≡ out.old.items ++ (guest_line (guest_of self.now) ++ 10 ∷ [])) }
    {
        match *self {
            WideGuest::Read {
                vcpu,
                page,
                cell,
                value,
            } => push_access(out, READ_KEY, vcpu, page, cell, value),
            WideGuest::Write {
                vcpu,
                page,
                cell,
                value,
            } => push_access(out, WRITE_KEY, vcpu, page, cell, value),
            WideGuest::Release { vcpu, page } => push_vcpu_page(out, RELEASE_KEY, vcpu, page),
            WideGuest::Miss { vcpu, page } => push_vcpu_page(out, MISS_KEY, vcpu, page),
            WideGuest::Halt => push_line(out, HALT),
            WideGuest::Resume { ready } => push_keyed(out, RESUME_KEY, ready),
            WideGuest::See { placement } => push_keyed(out, SEE_KEY, placement),
        }
    }
}
