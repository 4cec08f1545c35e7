//! Lines of the pages that do not begin as zeros.

ghost use Rattle.std.specs.Prelude.{◌≡◌, ◌∷◌, [], ◌++◌, IfOk, OnOk};
ghost use Rattle.session_grammar.specs.Grammar.{page_line};
ghost use Rattle.recordings.specs.Wide.{init_of};

use crate::wide::WideInit;
use crate::writing::push_page;
use std::alloc::{AllocError, Global};

const PAGE_KEY: &[u8] = b"page ";

impl WideInit {
    /// Returns the same page again. Fails only if memory runs out.
    pub fn another(&self, alloc: Global) -> Result<WideInit, AllocError>
        ensures { IfOk result (λ p. p ≡ self.now) }
    {
        Ok(WideInit {
            page: self.page,
            cells: self.cells.another(alloc)?,
        })
    }

    /// Appends its line, with the line feed. Fails only if memory runs out.
    pub fn push(&self, out: &mut Vec<u8>) -> Result<(), AllocError>
        ensures { OnOk result (out.new.items ≡ out.old.items ++ (page_line (init_of self.now) ++ 10 ∷ [])) }
    {
        push_page(out, PAGE_KEY, self.page, self.cells.as_slice())
    }
}
