//! The pages of a window.

ghost use Rattle.std.specs.Prelude.{◌≡◌, MatchBool};
ghost use Rattle.audit_model.specs.Windows.{is_seen, new_page};

/// Consecutive pages: the number of the first, and how many there are.
#[derive(Clone, Copy, Debug, PartialEq, Eq)]
pub struct Window {
    pub first: u64,
    pub count: u64,
}

impl Window {
    ghost use Rattle.windows.specs.Pages.{numbers_of};
    ghost use Rattle.windows.specs.Cuts.{IsOf, IsBeyond};

    /// Returns whether a page is one of them.
    #[tactic(auto, using(crate::proofs::Numbered::seen_within, crate::proofs::Numbered::seen_outside))]
    pub(crate) fn has(&self, page: u64) -> bool
        ensures { result ≡ is_seen (numbers_of self.now page) }
    {
        page >= self.first && page - self.first < self.count
    }

    /// Returns a page's number among them; for a page outside, any number will do.
    #[tactic(auto, using(crate::proofs::Numbered::number_within, crate::proofs::Numbered::number_outside))]
    pub(crate) fn number(&self, page: u64) -> u64
        ensures { result ≡ new_page (numbers_of self.now page) }
    {
        if self.has(page) {
            page.saturating_sub(self.first)
        } else {
            0
        }
    }

    /// Returns whether there are pages in it, and a machine of this many pages has them all.
    pub(crate) fn is_of(&self, pages: u64) -> bool
        ensures { MatchBool result (IsOf self.now pages) (IsBeyond self.now pages) }
    {
        self.count > 0 && self.first <= pages && self.count <= pages - self.first
    }
}
