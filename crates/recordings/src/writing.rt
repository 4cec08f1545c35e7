//! Writing pages with their contents.

ghost use Rattle.std.specs.Prelude.{◌≡◌, [], ◌∷◌, ◌++◌, OnOk};
ghost use Rattle.session_grammar.specs.Records.{page_text};

use session_grammar::push_contents;
use std::alloc::AllocError;
use text_lines::{end_line, push_then};

/// Appends a line that is a key, a page and its contents.
pub(crate) fn push_page(
    out: &mut Vec<u8>,
    key: &[u8],
    page: u64,
    contents: &[u64],
) -> Result<(), AllocError>
    ensures { OnOk result (out.new.items ≡ out.old.items ++ (key.now ++ page_text page contents.now ++ 10 ∷ [])) }
{
    out.extend_from_slice(key)?;
    push_then(out, page)?;
    push_contents(out, contents)?;
    end_line(out)
}
