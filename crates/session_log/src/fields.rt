//! Fields that the lines of several records have.

ghost use Rattle.std.specs.Prelude.{◌≡◌, ◌≢◌, ◌<◌, ◌≤◌, [], ◌++◌, List, ℕ, IfSome, IsSomeAnd, IfOk, IfErr};
ghost use Rattle.std.specs.Fmt.{decimal};
ghost use Rattle.text_lines.specs.Contents.{contents_text};
ghost use Rattle.migration_types.specs.Contents.{IsContent};
ghost use Rattle.migration_types.specs.Limits.{most_pages};
ghost use Rattle.migration_types.specs.Sessions.{IsNumber};

use crate::forms::past_records;
use crate::sent::Sent;
use migration_types::{Contents, PageNo, Size};
use session_grammar::read_page_contents;
use std::alloc::Global;
use text_lines::{FaultKind, after_key, number_last};

/// Returns the number of a record after a key at the front, and what follows. Nothing follows if the text is these
/// alone.
#[inline(always)]
pub(crate) fn numbered_then<'a>(size: Size, text: &'a [u8], key: &[u8]) -> Option<(u32, &'a [u8])>
    ensures found { IfSome result (λ found. IsNumber size found.0 × (text.now ≡ key.now ++ (decimal found.0 ++ found.1.now))) }
    ensures whole { (n : ℕ) → IsNumber size n → text.now ≡ key.now ++ decimal n → IsSomeAnd result (λ found. found.1.now ≡ []) }
{
    let (number, rest) = number_last(after_key(text, key)?, u64::from(past_records(size)) - 1)?;
    Some((number as u32, rest))
}

/// Returns a page, of this many, after a key at the front, and what follows. Nothing follows if the text is these
/// alone.
#[inline(always)]
pub(crate) fn page_then<'a>(text: &'a [u8], key: &[u8], pages: u32) -> Option<(PageNo, &'a [u8])>
    requires some { 0 < pages }
    requires few { pages ≤ most_pages }
    ensures found { IfSome result (λ found. (found.0 < pages) × (text.now ≡ key.now ++ (decimal found.0 ++ found.1.now))) }
    ensures whole { (p : ℕ) → p < pages → text.now ≡ key.now ++ decimal p → IsSomeAnd result (λ found. found.1.now ≡ []) }
{
    let (page, rest) = number_last(after_key(text, key)?, u64::from(pages) - 1)?;
    Some((PageNo::new(page as u32), rest))
}

/// Returns the values of the page's cells, this many of them, at the front, and what follows. Nothing follows if the text
/// is these alone. Allocates no memory for a page of one cell, nor for what was sent of the page.
#[inline(always)]
pub(crate) fn contents_then<'a>(
    alloc: Global,
    sent: &Sent,
    page: PageNo,
    text: &'a [u8],
    cells: u32,
) -> Result<(Contents, &'a [u8]), FaultKind>
    ensures found { IfOk result (λ found. IsContent cells found.0 × (text.now ≡ contents_text found.0 ++ found.1.now)) }
    ensures refused { IfErr result (λ kind. kind ≢ FaultKind.Memory → (xs : List ℕ) → IsContent cells xs → text.now ≢ contents_text xs) }
    ensures whole { IfOk result (λ found. (xs : List ℕ) → IsContent cells xs → text.now ≡ contents_text xs → found.1.now ≡ []) }
{
    let digits = 16 * cells as usize;
    if text.len() < digits {
        return Err(FaultKind::Form);
    }
    let (digits, rest) = text.split_at(digits);
    if let Some(same) = sent.same(alloc, page, cells, digits) {
        return Ok((same, rest));
    }
    let contents = read_page_contents(alloc, digits, cells)?;
    Ok((contents, rest))
}
