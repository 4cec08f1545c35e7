//! Lines of the pages of the initial memory.

ghost use Rattle.std.specs.Prelude.{◌≡◌, ◌≢◌, ◌≤◌, ◌<◌, ◌↔◌, List, ℕ, IsTrue, IfOk, IfErr};
ghost use Rattle.text_lines.specs.Contents.{contents_text};
ghost use Rattle.migration_types.specs.Limits.{most_pages};
ghost use Rattle.migration_types.specs.Pages.{AreZeros};
ghost use Rattle.migration_types.specs.declared.pages.InitPage.{InitPage as Page};
ghost use Rattle.session_grammar.specs.Grammar.{page_line};
ghost use Rattle.session_grammar.specs.Pages.{next_from};
ghost use Rattle.session_grammar.specs.inner.InitPages.{IsInitContent};

use crate::contents::read_page_contents;
use crate::keys::PAGE_KEY;
use crate::sizes::Sizes;
use crate::writing::push_page;
use migration_types::{Contents, InitPage, PageNo};
use std::alloc::{AllocError, Global};
use text_lines::{Counted, FaultKind, LineForm, Wanted, after_key, next_line, number_then};

/// Returns the page that a line spells, from `low` to `high`, with this many cells, not all of them zero.
pub(crate) fn read_page(
    alloc: Global,
    line: &[u8],
    low: u32,
    high: u32,
    cells: u32,
) -> Result<InitPage, FaultKind>
    requires { high < most_pages }
    ensures found { IfOk result (λ p. (low ≤ p.page) × (p.page ≤ high) × IsInitContent cells p.cells × (line.now ≡ page_line p)) }
    ensures refused { IfErr result (λ kind. kind ≢ FaultKind.Memory → (p : Page) → low ≤ p.page → p.page ≤ high → IsInitContent cells p.cells → line.now ≢ page_line p) }
{
    let Some(rest) = after_key(line, PAGE_KEY) else {
        return Err(FaultKind::Form);
    };
    let Some((number, text)) = number_then(rest, u64::MAX) else {
        return Err(FaultKind::Form);
    };
    if number < u64::from(low) || number > u64::from(high) {
        return Err(FaultKind::Range);
    }
    let cells = read_init_content(alloc, text, cells)?;
    Ok(InitPage {
        page: PageNo::new(number as u32),
        cells,
    })
}

/// Returns the values of a page's cells, not all of them zero, that a text spells.
fn read_init_content(alloc: Global, text: &[u8], cells: u32) -> Result<Contents, FaultKind>
    ensures found { IfOk result (λ xs. IsInitContent cells xs × (text.now ≡ contents_text xs)) }
    ensures refused { IfErr result (λ kind. kind ≢ FaultKind.Memory → (xs : List ℕ) → IsInitContent cells xs → text.now ≢ contents_text xs) }
{
    let values = match read_page_contents(alloc, text, cells) {
        Ok(values) => values,
        Err(kind) => return Err(kind),
    };
    if are_zeros(values.as_slice()) {
        return Err(FaultKind::Form);
    }
    Ok(values)
}

/// Returns whether all cells are zero.
fn are_zeros(cells: &[u64]) -> bool
    ensures { IsTrue result ↔ AreZeros cells.now }
{
    cells.iter().all(|&value| value == 0)
}

/// Returns the least number that a page after these may have.
pub fn next_page(before: &[InitPage]) -> u32
    ensures { result ≡ next_from 0 before.now }
{
    match before.last() {
        Some(page) => page.page.number() + 1,
        None => 0,
    }
}

/// Returns what is allowed at the line with the number of initial pages.
pub(crate) fn an_init_count() -> Wanted {
    Wanted::one("the number of initial pages", &["init N"])
}

/// Returns what is allowed at the line with the number of initial pages, of a machine with this many pages.
pub fn wanted_init_count(pages: u32) -> Wanted {
    an_init_count().within(0, pages)
}

/// Returns what is allowed at the line of an initial page.
pub(crate) fn an_init_page() -> Wanted {
    Wanted::one("an initial page", &["page N HEX"]).under("no page has contents of zeros alone")
}

/// Returns what is allowed at the line of the next initial page, of a machine with this many pages. Page numbers rise,
/// and each leaves room for those to come.
pub fn wanted_init_page(init: &Counted<InitPage>, pages: u32) -> Wanted {
    let most = pages.saturating_sub(init.left());
    an_init_page().within(next_page(init.items()), most)
}

/// The lines of the initial pages. The next page is at most `high`.
#[derive(Clone, Copy)]
pub struct InitLines {
    pub sizes: Sizes,
    pub high: u32,
}

impl LineForm for InitLines {
    type Item = InitPage;

    ghost spell = { page_line };

    ghost IsForm = { λ f. f.high < most_pages };

    ghost Fits = { λ f p. (p.page ≤ f.high) × IsInitContent f.sizes.cells p.cells };

    ghost MayFollow = { λ before p. next_from 0 before ≤ p.page };

    ghost use Rattle.session_grammar.specs.inner.InitPages.{pages_by_last};

    ghost by_last = { pages_by_last };

    fn read(&self, before: &[InitPage], line: &[u8]) -> Result<InitPage, FaultKind> {
        read_page(
            self.sizes.alloc,
            line,
            next_page(before),
            self.high,
            self.sizes.cells,
        )
    }

    fn front<'a>(&self, before: &[InitPage], text: &'a [u8]) -> Option<(InitPage, &'a [u8])> {
        let (line, rest) = next_line(text)?;
        match self.read(before, line) {
            Ok(page) => Some((page, rest)),
            Err(_) => None,
        }
    }

    fn may_follow(&self, before: &[InitPage], item: &InitPage) -> bool {
        next_page(before) <= item.page.number()
    }

    fn push(item: &InitPage, out: &mut Vec<u8>) -> Result<(), AllocError> {
        push_page(out, PAGE_KEY, item.page, item.cells.as_slice())
    }
}
