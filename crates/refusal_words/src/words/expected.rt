//! What is allowed at a line, in words.

use super::meanings::{push_meaning, push_new};
use crate::fields::{field_of, has_field};
use crate::fitting::{Departure, Fit, fit_of};
use crate::line_fault::LineFault;
use crate::quoting::push_quote;
use crate::refused::Refused;
use crate::slips::{Slip, slip_between, slip_of, slip_of_line};
use crate::special::Special;
use std::alloc::{AllocError, Global};
use text_lines::Wanted;

/// The greatest number of forms that are all written out if none begins as the line does.
const FEW: usize = 3;

/// Appends what separates the words of a list, before the word at a place.
fn push_between(out: &mut String, at: usize, count: usize) -> Result<(), AllocError> {
    if at == 0 {
        return Ok(());
    }
    out.push_str(if at.saturating_add(1) < count {
        ", "
    } else {
        " or "
    })
}

/// Appends forms in quotes, as a choice.
fn push_forms(out: &mut String, forms: &[&'static str]) -> Result<(), AllocError> {
    for (at, form) in forms.iter().enumerate() {
        push_between(out, at, forms.len())?;
        push_quote(out, form.as_bytes())?;
    }
    Ok(())
}

/// Returns the ending of an ordinal number.
fn ordinal(number: u32) -> &'static str {
    match (number % 100, number % 10) {
        (11 | 12 | 13, _) => "th",
        (_, 1) => "st",
        (_, 2) => "nd",
        (_, 3) => "rd",
        _ => "th",
    }
}

/// Appends which item of a list is wanted, or that the list is complete.
fn push_promise(out: &mut String, wanted: &Wanted) -> Result<(), AllocError> {
    let at = wanted.counted_at;
    let count = wanted.count;
    if at == 0 {
        return Ok(());
    }
    if wanted.came < count {
        let next = wanted.came.saturating_add(1);
        let end = ordinal(next);
        return write!(out, ", the {next}{end} of {count} that line {at} promises");
    }
    match count {
        0 => write!(out, ": line {at} promises none"),
        1 => write!(out, ": the one that line {at} promises is there"),
        _ => write!(out, ": all {count} that line {at} promises are there"),
    }
}

/// Appends what is wanted if nothing in the line fits.
fn push_wanted(out: &mut String, wanted: &Wanted) -> Result<(), AllocError> {
    let forms = wanted.forms;
    if forms.is_empty() && wanted.what.is_empty() {
        return out.push_str("another line");
    }
    if forms.len() <= FEW {
        push_forms(out, forms)?;
        if !forms.is_empty() && !wanted.what.is_empty() {
            out.push_str(", ")?;
        }
    }
    out.push_str(wanted.what)?;
    push_promise(out, wanted)
}

/// Appends what is unusual about what was found.
fn push_slip(out: &mut String, slip: Option<Slip>, wanted: &Wanted) -> Result<(), AllocError> {
    let Some(slip) = slip else {
        return Ok(());
    };
    out.push_str("; ")?;
    match slip {
        Slip::Separated => out.push_str("words are separated by one space"),
        Slip::Signed => out.push_str("a number has no sign"),
        Slip::Hexadecimal => out.push_str("numbers are decimal"),
        Slip::LeadingZero => out.push_str("a number has no leading zero"),
        Slip::TooManyPages => {
            out.push_str(wanted.rule)?;
            out.push_str(if wanted.rule.is_empty() { "" } else { "; " })?;
            out.push_str("of a larger machine a window can be recorded: see RECORDING")
        }
        Slip::Prefixed => out.push_str("contents have no 0x"),
        Slip::Capitals => out.push_str("contents are written in lower case"),
        Slip::Length(count) => write!(out, "these are {count}"),
    }
}

/// The forms that a line fits equally far, and the words that they have where it departs, each once.
#[derive(Drop)]
struct BestForms {
    forms: Vec<&'static str>,
    slots: Vec<&'static str>,
}

/// Adds a form that a line fits, and the word that it has where the line departs from it.
fn push_fit(found: &mut BestForms, fit: &Fit<'_>) -> Result<(), AllocError> {
    found.forms.push(fit.form)?;
    match fit.slot() {
        Some(slot) => push_new(&mut found.slots, slot),
        None => Ok(()),
    }
}

fn best_forms(alloc: Global, refused: &Refused, best: &Fit<'_>) -> Result<BestForms, AllocError> {
    let mut found = BestForms {
        forms: Vec::new(alloc),
        slots: Vec::new(alloc),
    };
    for form in refused.misread.wanted.forms {
        let fit = fit_of(refused, form);
        if fit.is_as_far(best) {
            push_fit(&mut found, &fit)?;
        }
    }
    Ok(found)
}

/// Appends the meanings of words of forms, as a choice.
fn push_slots(out: &mut String, slots: &[&'static str], wanted: &Wanted) -> Result<(), AllocError> {
    for (at, slot) in slots.iter().enumerate() {
        push_between(out, at, slots.len())?;
        match field_of(slot) {
            None => push_quote(out, slot.as_bytes())?,
            Some(field) => {
                write!(out, "{slot}, ")?;
                push_meaning(out, field, wanted)?;
            }
        }
    }
    Ok(())
}

/// Returns what is unusual about the word at which a line departs.
fn slip_at(fit: &Fit<'_>, wanted: &Wanted) -> Option<Slip> {
    let Departure::Word { slot, word, .. } = fit.stop else {
        return None;
    };
    match field_of(slot) {
        Some(field) => slip_of(fit.form, field, word, wanted),
        None => slip_between(word),
    }
}

/// Appends the rule that allows only one word of the form, if the line departs at such a word.
fn push_kept(out: &mut String, fit: &Fit<'_>, wanted: &Wanted) -> Result<(), AllocError> {
    let is_chosen = match fit.slot() {
        Some(slot) => fit.words > 0 && field_of(slot).is_none(),
        None => false,
    };
    if !is_chosen || wanted.rule.is_empty() {
        return Ok(());
    }
    out.push_str("; ")?;
    out.push_str(wanted.rule)
}

/// Appends a choice of words, as in a form, or of forms if they have no field.
fn push_choice(
    out: &mut String,
    choices: &BestForms,
    form: &str,
    wanted: &Wanted,
) -> Result<(), AllocError> {
    if !has_field(form) {
        return push_forms(out, choices.forms.as_slice());
    }
    push_slots(out, choices.slots.as_slice(), wanted)?;
    out.push_str(", as in ")?;
    push_quote(out, form.as_bytes())
}

/// Appends the words that are allowed where a line departs from a form.
fn push_best(out: &mut String, refused: &Refused, fit: &Fit<'_>) -> Result<(), AllocError> {
    let choices = best_forms(*out.allocator(), refused, fit)?;
    push_choice(out, &choices, fit.form, &refused.misread.wanted)
}

/// Appends what is allowed where a line departs from a form.
fn push_stop(out: &mut String, refused: &Refused, fit: &Fit<'_>) -> Result<(), AllocError> {
    if fit.slot().is_none() {
        return out.push_str("the end of the line");
    }
    let wanted = &refused.misread.wanted;
    push_best(out, refused, fit)?;
    push_kept(out, fit, wanted)?;
    push_slip(out, slip_at(fit, wanted), wanted)
}

/// Returns all forms that are allowed at a line.
fn all_forms(alloc: Global, refused: &Refused) -> Result<Vec<&'static str>, AllocError> {
    let mut forms = Vec::new(alloc);
    forms.extend_from_slice(refused.misread.wanted.forms)?;
    Ok(forms)
}

/// Returns the forms that a line may have: those that it fits furthest if it departs from them later than at its first
/// word, and otherwise all that are allowed there. There are none if the forms are not what is wrong.
pub(crate) fn expected_forms(
    alloc: Global,
    refused: &Refused,
    fault: &LineFault<'_>,
) -> Result<Vec<&'static str>, AllocError> {
    match fault {
        LineFault::Stops(fit) => Ok(best_forms(alloc, refused, fit)?.forms),
        LineFault::Special(Special::Another { .. } | Special::Report { .. })
        | LineFault::Ends
        | LineFault::Empty
        | LineFault::Rule
        | LineFault::Other => all_forms(alloc, refused),
        LineFault::Memory | LineFault::Special(_) | LineFault::Unended => Ok(Vec::new(alloc)),
    }
}

/// Appends what is allowed at a line.
pub(crate) fn push_expected(
    out: &mut String,
    refused: &Refused,
    fault: &LineFault<'_>,
) -> Result<(), AllocError> {
    let line = refused.misread.text.as_slice();
    let wanted = &refused.misread.wanted;
    out.push_str("; expected ")?;
    match fault {
        LineFault::Unended => {
            out.push_str("a line feed after ")?;
            push_quote(out, line)
        }
        LineFault::Rule => {
            out.push_str(wanted.what)?;
            push_promise(out, wanted)?;
            if !wanted.rule.is_empty() {
                out.push_str(": ")?;
            }
            out.push_str(wanted.rule)
        }
        LineFault::Stops(fit) => push_stop(out, refused, fit),
        LineFault::Memory
        | LineFault::Special(_)
        | LineFault::Ends
        | LineFault::Empty
        | LineFault::Other => {
            push_wanted(out, wanted)?;
            push_slip(out, slip_of_line(line), wanted)
        }
    }
}
