//! Why a text is refused, written with its name.

ghost use Rattle.std.specs.Prelude.{◌≡◌, [], IfOk, if◌then◌else◌, option_map};
ghost use Rattle.std.specs.Option.{option_or};
ghost use Rattle.command_texts.specs.Reasons.{AreReasons, TellsWhy, line_of, place_of, told_place};

use crate::shown::push_shown;
use refusal_words::{Refused, push_why, push_why_in_full};
use std::alloc::{AllocError, Global};
use std::io::Write;
use text_access::write_whole;
use text_lines::Refusal;

/// Why the text under a name is refused.
#[derive(Drop)]
pub struct Why<'a> {
    pub name: &'a str,
    pub refused: Refused,
}

/// Returns why the text under a name is refused, if it is.
pub(crate) fn under<'a>(name: &'a str, refusal: Option<Refusal>) -> Option<Why<'a>>
    ensures { option_map told_place result ≡ place_of name.entry.now (line_of refusal) }
{
    match refusal {
        Some(refusal) => Some(Why {
            name,
            refused: Refused::new(refusal),
        }),
        None => None,
    }
}

/// Returns why one of two texts is refused, if it is.
fn of_two<'a>(why: Option<Why<'a>>) -> Option<Why<'a>>
    ensures { option_map told_place result ≡ option_map told_place why.entry }
{
    match why {
        Some(Why { name, refused }) => Some(Why {
            name,
            refused: refused.of_two(),
        }),
        None => None,
    }
}

/// Returns why each of two texts under one name is refused, if it is.
pub(crate) fn both_under<'a>(
    name: &'a str,
    refusals: (Option<Refusal>, Option<Refusal>),
) -> Refusals<'a>
    ensures first { option_map told_place result.first ≡ place_of name.entry.now (line_of refusals.0) }
    ensures second { option_map told_place result.second ≡ place_of name.entry.now (line_of refusals.1) }
{
    let (first, second) = refusals;
    Refusals::new(under(name, first), under(name, second))
}

// Returns why one text is refused, or else why another is.
fn either<'w, 'a>(one: &'w Option<Why<'a>>, other: &'w Option<Why<'a>>) -> &'w Option<Why<'a>>
    ensures { result.now ≡ option_or one.now other.now }
{
    if one.is_some() { one } else { other }
}

/// Why each of two texts is refused, if it is.
#[derive(Drop)]
pub struct Refusals<'a> {
    pub first: Option<Why<'a>>,
    pub second: Option<Why<'a>>,
}

impl<'a> Refusals<'a> {
    /// Returns why each of the two texts that a call reads is refused, if it is.
    pub(crate) fn new(first: Option<Why<'a>>, second: Option<Why<'a>>) -> Self
        ensures first { option_map told_place result.first ≡ option_map told_place first.entry }
        ensures second { option_map told_place result.second ≡ option_map told_place second.entry }
    {
        Refusals {
            first: of_two(first),
            second: of_two(second),
        }
    }

    /// Returns why the first text is refused, or else why the second is.
    pub fn earliest(&self) -> &Option<Why<'a>>
        ensures { result.now ≡ option_or self.now.first self.now.second }
    {
        either(&self.first, &self.second)
    }

    /// Returns why a text is refused, if one is. If both are, it is the second one if this is asked, and else the first.
    pub(crate) fn told(&self, second: bool) -> &Option<Why<'a>>
        ensures { result.now ≡ (if second then option_or self.now.second self.now.first else option_or self.now.first self.now.second) }
    {
        if second {
            either(&self.second, &self.first)
        } else {
            self.earliest()
        }
    }
}

/// How much is said about a text that is refused.
#[derive(Clone, Copy, PartialEq, Eq)]
pub enum Telling {
    /// One line.
    Short,
    /// That line, followed by the text's own line and each form that is allowed there.
    Full,
    /// That line. The answer is an object, and says the same in fields of its own.
    Fields,
}

// Returns the words on why a text is refused.
fn words(alloc: Global, why: &Why<'_>, telling: Telling) -> Result<Vec<u8>, AllocError>
    ensures { IfOk result (λ words. AreReasons telling (told_place why.now) words.items) }
{
    let mut name = Vec::new(alloc);
    push_shown(&mut name, why.name)?;
    let mut out = Vec::new(alloc);
    match telling {
        Telling::Short | Telling::Fields => push_why(&mut out, name.as_slice(), &why.refused)?,
        Telling::Full => push_why_in_full(&mut out, name.as_slice(), &why.refused)?,
    }
    Ok(out)
}

/// Writes why a text is refused, if one is. The words are left out if they cannot be written or memory runs out,
/// because the answer has the line number.
pub fn tell_why<E: Write>(alloc: Global, why: &Option<Why<'_>>, telling: Telling, errors: &mut E)
    ensures { TellsWhy telling (option_map told_place why.now) (E.contents errors.old) (E.contents errors.new) }
{
    let Some(why) = why else {
        return;
    };
    if let Ok(words) = words(alloc, why, telling) {
        write_whole(errors, words.as_slice());
    }
}
