//! What was sent of each page, for contents that are placed as they were sent.

ghost use Rattle.std.specs.Prelude.{◌≡◌, ◌<◌, ◌^◌, IfSome, IsTrue, length};
ghost use Rattle.std.specs.List.{AllByRecursion};
ghost use Rattle.text_lines.specs.Contents.{cell_text, contents_text};
ghost use Rattle.migration_types.specs.Contents.{IsContent};

use migration_types::{Contents, PageNo, Shared, SourceRec};
use session_grammar::{Sizes, cell_digits};
use std::alloc::Global;
use std::simd::prelude::*;

/// What was sent of each page first. What is placed is most often the same, and then shares its memory. That these are the contents
/// that a placement names is nowhere relied on: what is placed is compared with them as it is read.
#[derive(Drop)]
pub(crate) struct Sent {
    kept: Option<Kept>,
}

/// What was sent, in the order in which it was.
#[derive(Drop)]
struct Kept {
    /// Where the contents of each page are, page 0 first, if it was sent.
    places: Shared<Option<u32>>,
    contents: Shared<Contents>,
}

impl Sent {
    /// Returns no contents. Allocates no memory.
    pub(crate) fn none() -> Self {
        Sent { kept: None }
    }

    /// Returns the same contents again. Allocates no memory.
    pub(crate) fn another(&self) -> Self {
        match &self.kept {
            Some(kept) => Sent {
                kept: kept.another(),
            },
            None => Sent::none(),
        }
    }

    /// Returns what the source's log sends. It is kept only if it has a record for every second page. A single cell's value never has
    /// memory of its own.
    pub(crate) fn of(sizes: Sizes, source: &[SourceRec]) -> Self {
        if sizes.cells < 2 || sizes.pages as usize / 2 > source.len() {
            return Sent::none();
        }
        Sent {
            kept: first_sent(sizes, source),
        }
    }

    /// Returns the contents that a text spells, if they are those that were sent of the page first. Allocates no memory.
    #[inline(always)]
    pub(crate) fn same(
        &self,
        alloc: Global,
        page: PageNo,
        cells: u32,
        text: &[u8],
    ) -> Option<Contents>
        ensures { IfSome result (λ same. IsContent cells same × (text.now ≡ contents_text same)) }
    {
        let sent = self.kept.as_ref()?.sent_of(page)?;
        let values = sent.as_slice();
        if values.len() != cells as usize || !spells(values, text) {
            return None;
        }
        sent.another(alloc).ok()
    }
}

impl Kept {
    /// Returns the same contents again. Allocates no memory.
    fn another(&self) -> Option<Self> {
        Some(Kept {
            places: self.places.another().ok()?,
            contents: self.contents.another().ok()?,
        })
    }

    /// Returns what was sent of a page first.
    #[inline(always)]
    fn sent_of(&self, page: PageNo) -> Option<&Contents> {
        let place = (*self.places.as_slice().get(page.index())?)?;
        self.contents.as_slice().get(place as usize)
    }
}

/// Returns whether a text spells these values.
#[inline(always)]
fn spells(values: &[u64], text: &[u8]) -> bool
    ensures { IsTrue result → AllByRecursion (λ x. x < 2 ^ 64) values.now × (text.now ≡ contents_text values.now) }
{
    let mut rest = text;
    for &value in values {
        if rest.len() < 16 {
            return false;
        }
        let (word, after) = rest.split_at(16);
        if !is_cell(value, word) {
            return false;
        }
        rest = after;
    }
    rest.is_empty()
}

/// Returns whether a text of this length is the digits of a cell's value.
#[inline(always)]
fn is_cell(value: u64, text: &[u8]) -> bool
    requires { length text.now ≡ 16 }
    ensures { IsTrue result → text.now ≡ cell_text value }
{
    cell_digits(value)
        .simd_eq(u8x16::from_slice(text))
        .to_bitmask()
        == 65_535
}

/// Returns what these records send of each page first, unless memory runs out.
fn first_sent(sizes: Sizes, source: &[SourceRec]) -> Option<Kept> {
    let unsent: Option<u32> = None;
    let mut places = vec![in sizes.alloc; unsent; sizes.pages as usize].ok()?;
    let mut contents = Vec::with_capacity(sizes.alloc, source.len()).ok()?;
    for rec in source {
        if let SourceRec::Send {
            page,
            contents: sent,
        } = rec
        {
            if let Some(place) = places.get_mut(page.index()) {
                if place.is_none() {
                    *place = Some(u32::try_from(contents.len()).ok()?);
                    contents.push(sent.another(sizes.alloc).ok()?).ok()?;
                }
            }
        }
    }
    Some(Kept {
        places: Shared::from_vec(places).ok()?,
        contents: Shared::from_vec(contents).ok()?,
    })
}
