//! The form that a line fits furthest, and where it departs from it.

use crate::fields::{Misfit, field_of, has_field, may_go_on, misfit_of};
use crate::refused::Refused;
use memchr::memchr;
use text_lines::Wanted;

const SPACE: u8 = b' ';

/// Where a line departs from a form.
#[derive(Clone, Copy)]
pub(crate) enum Departure<'a> {
    /// Nowhere: it has the form.
    Nowhere,
    /// At its end, where the form continues with this word.
    Missing(&'static str),
    /// At the end of the text, in the middle of what may be this word of the form.
    Cut(&'static str),
    /// At a word, where the form has another word or a field.
    Word {
        slot: &'static str,
        word: &'a [u8],
        misfit: Misfit,
    },
    /// After the end of the form, where the line continues.
    Surplus,
}

/// How a line fits a form.
#[derive(Clone, Copy)]
pub(crate) struct Fit<'a> {
    pub(crate) form: &'static str,
    /// How many of the line's words fit.
    pub(crate) words: usize,
    /// How many bytes come before the place where it departs.
    pub(crate) at: usize,
    pub(crate) stop: Departure<'a>,
}

impl<'a> Fit<'a> {
    /// Returns the word of the form at which the line departs, if it has one there.
    pub(crate) fn slot(&self) -> Option<&'static str> {
        match self.stop {
            Departure::Missing(slot) | Departure::Cut(slot) | Departure::Word { slot, .. } => Some(
                slot,
            ),
            Departure::Nowhere | Departure::Surplus => None,
        }
    }

    /// Returns whether the message quotes the whole line as what was found: the line departs at a word of a form
    /// without fields.
    pub(crate) fn is_of_line(&self) -> bool {
        match self.stop {
            Departure::Word { word, .. } => !word.is_empty() && !has_field(self.form),
            _ => false,
        }
    }

    /// Returns whether the text ends in the middle of a word.
    pub(crate) fn is_cut(&self) -> bool {
        matches!(self.stop, Departure::Cut(_))
    }

    /// Returns whether the line fits this form as far as it fits another.
    pub(crate) fn is_as_far(&self, other: &Fit<'_>) -> bool {
        self.words == other.words && self.is_cut() == other.is_cut()
    }

    /// Returns whether the line fits this form further than it fits another.
    fn is_further(&self, other: &Fit<'_>) -> bool {
        self.words > other.words || (self.words == other.words && self.is_cut() && !other.is_cut())
    }
}

/// Returns the first word, and what follows the space after it, if there is one.
pub(crate) fn first_word(text: &[u8]) -> (&[u8], Option<&[u8]>) {
    match memchr(SPACE, text) {
        None => (text, None),
        Some(at) => (&text[..at], Some(&text[at + 1..])),
    }
}

/// Returns how many bytes of a line come before its last part.
fn before(line: &[u8], part: &[u8]) -> usize {
    line.len().saturating_sub(part.len())
}

/// Returns whether a word may be the beginning of one that is allowed at `slot` of a form.
fn is_front(slot: &str, word: &[u8], wanted: &Wanted) -> bool {
    match field_of(slot) {
        Some(field) => may_go_on(field, word, wanted),
        None => slot.as_bytes().starts_with(word),
    }
}

/// Returns where a word stops being allowed at `slot` of a form, after how many of its bytes, or `None` if it is
/// allowed.
fn stop_at<'a>(
    refused: &Refused,
    slot: &'static str,
    word: &'a [u8],
    is_end: bool,
) -> Option<(usize, Departure<'a>)> {
    if word.is_empty() && is_end {
        return Some((0, Departure::Missing(slot)));
    }
    let misfit = match field_of(slot) {
        Some(field) => misfit_of(field, word, &refused.misread.wanted)?,
        None if word == slot.as_bytes() => return None,
        None => Misfit::Whole,
    };
    if refused.misread.is_last && is_end && is_front(slot, word, &refused.misread.wanted) {
        return Some((word.len(), Departure::Cut(slot)));
    }
    let depth = match misfit {
        Misfit::Byte(at) => at,
        Misfit::Whole => 0,
    };
    Some((depth, Departure::Word { slot, word, misfit }))
}

/// Returns how a refused line fits a form.
pub(crate) fn fit_of<'a>(refused: &'a Refused, form: &'static str) -> Fit<'a> {
    let line = refused.misread.text.as_slice();
    let mut words = 0usize;
    let mut left = Some(line);
    for slot in form.split(' ') {
        let Some(text) = left else {
            return Fit {
                form,
                words,
                at: line.len(),
                stop: Departure::Missing(slot),
            };
        };
        let (word, after) = first_word(text);
        if let Some((depth, stop)) = stop_at(refused, slot, word, after.is_none()) {
            return Fit {
                form,
                words,
                at: before(line, text).saturating_add(depth),
                stop,
            };
        }
        words = words.saturating_add(1);
        left = after;
    }
    let (at, stop) = match left {
        None => (line.len(), Departure::Nowhere),
        Some(text) => (before(line, text).saturating_sub(1), Departure::Surplus),
    };
    Fit {
        form,
        words,
        at,
        stop,
    }
}

/// Returns the form that a refused line fits furthest, the first if there are several, or `None` if there is no form.
pub(crate) fn best_fit(refused: &Refused) -> Option<Fit<'_>> {
    let mut best: Option<Fit<'_>> = None;
    for form in refused.misread.wanted.forms {
        let fit = fit_of(refused, form);
        let is_better = match &best {
            None => true,
            Some(best) => fit.is_further(best),
        };
        if is_better {
            best = Some(fit);
        }
    }
    best
}
