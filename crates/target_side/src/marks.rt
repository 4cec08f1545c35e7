//! Marks for pages.

ghost use Rattle.std.specs.Prelude.{◌≡◌, ℕ, ◌<◌, ◌≤◌, ◌||◌, false, true};
ghost use Rattle.std.specs.List.{AllByRecursion};
ghost use Rattle.migration_types.specs.Limits.{most_pages};
ghost use Rattle.page_store.specs.Tables.{pages_of, values};
ghost use Rattle.target_side.specs.PagerPart.{is_listed};

use migration_types::PageNo;
use page_store::Table;

/// Marks the pages of a list. The other marks stay.
pub(crate) fn mark_all(marks: &mut Table<bool>, pages: &[PageNo])
    requires { AllByRecursion (λ p. p < pages_of marks.old) pages.now }
    ensures pages { pages_of marks.new ≡ pages_of marks.old }
    ensures marked { values marks.new ≡ (λ page. is_listed page pages.now || values marks.old page) }
{
    for page in pages {
        marks.set(*page, true);
    }
}

/// Returns the least page from a number on that is marked in none of three tables, or the page count if there is none.
pub(crate) fn first_unmarked(
    one: &Table<bool>,
    other: &Table<bool>,
    third: &Table<bool>,
    from: u32,
    pages: u32,
) -> u32
    requires begins { from ≤ pages }
    requires few { pages ≤ most_pages }
    requires one { pages_of one.now ≡ pages }
    requires other { pages_of other.now ≡ pages }
    requires third { pages_of third.now ≡ pages }
    ensures begins { from ≤ result }
    ensures ends { result ≤ pages }
    ensures marked { (p : ℕ) → from ≤ p → p < result → (values one.now p || (values other.now p || values third.now p)) ≡ true }
    ensures unmarked { result < pages → (values one.now result || (values other.now result || values third.now result)) ≡ false }
{
    for number in from..pages {
        let page = PageNo::new(number);
        if !(one.at(page) || (other.at(page) || third.at(page))) {
            return number;
        }
    }
    pages
}
