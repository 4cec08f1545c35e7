//! Objects and their fields. Each field begins with its comma, because the verdict comes before it.

ghost use Rattle.std.specs.Prelude.{◌≡◌, [], ◌++◌, codes, OnOk};
ghost use Rattle.session_answers.specs.JsonText.{begun, number, object, opened, opening, page_of, record_at, record_in, word};

use migration_types::{LogName, PageNo};
use std::alloc::AllocError;
use text_lines::push_number;

/// Appends what comes before a verdict.
#[tactic(auto, unfolding(crate::specs::JsonText::opening))]
fn push_opening(out: &mut Vec<u8>) -> Result<(), AllocError>
    ensures { OnOk result (out.new.items ≡ out.old.items ++ opening) }
{
    out.extend_from_slice(b"{\"verdict\":\"")
}

/// Begins the object of a verdict.
#[tactic(auto, unfolding(crate::specs::JsonText::begun))]
pub(crate) fn begin(out: &mut Vec<u8>, verdict: &[u8]) -> Result<(), AllocError>
    ensures { OnOk result (out.new.items ≡ out.old.items ++ begun verdict.now) }
{
    push_opening(out)?;
    out.extend_from_slice(verdict)?;
    out.extend_from_slice(b"\"")
}

/// Ends an object, and its line.
pub(crate) fn end(out: &mut Vec<u8>) -> Result<(), AllocError>
    ensures { OnOk result (out.new.items ≡ out.old.items ++ codes "}\n") }
{
    out.extend_from_slice(b"}\n")
}

/// Appends the object of a verdict without other fields.
pub(crate) fn push_bare(out: &mut Vec<u8>, verdict: &[u8]) -> Result<(), AllocError>
    ensures { OnOk result (out.new.items ≡ out.old.items ++ object verdict.now []) }
{
    begin(out, verdict)?;
    end(out)
}

/// Appends a number under a name.
#[tactic(auto, unfolding(crate::specs::JsonText::number))]
pub(crate) fn push_number_under(out: &mut Vec<u8>, name: &[u8], n: u64) -> Result<(), AllocError>
    ensures { OnOk result (out.new.items ≡ out.old.items ++ number name.now n) }
{
    out.extend_from_slice(b",\"")?;
    out.extend_from_slice(name)?;
    out.extend_from_slice(b"\":")?;
    push_number(out, n)
}

/// Appends a word under a name.
#[tactic(auto, unfolding(crate::specs::JsonText::word))]
pub(crate) fn push_word_under(out: &mut Vec<u8>, name: &[u8], w: &[u8]) -> Result<(), AllocError>
    ensures { OnOk result (out.new.items ≡ out.old.items ++ word name.now w.now) }
{
    out.extend_from_slice(b",\"")?;
    out.extend_from_slice(name)?;
    out.extend_from_slice(b"\":\"")?;
    out.extend_from_slice(w)?;
    out.extend_from_slice(b"\"")
}

/// Begins an object inside another: a number under a name, without a comma.
#[tactic(auto, unfolding(crate::specs::JsonText::opened))]
pub(crate) fn open(out: &mut Vec<u8>, name: &[u8], n: u64) -> Result<(), AllocError>
    ensures { OnOk result (out.new.items ≡ out.old.items ++ opened name.now n) }
{
    out.extend_from_slice(b"{\"")?;
    out.extend_from_slice(name)?;
    out.extend_from_slice(b"\":")?;
    push_number(out, n)
}

/// Appends a record: its log and its number.
#[tactic(auto, unfolding(crate::specs::JsonText::record_in))]
pub(crate) fn push_record_in(out: &mut Vec<u8>, log: LogName, place: u32) -> Result<(), AllocError>
    ensures { OnOk result (out.new.items ≡ out.old.items ++ record_in log place) }
{
    push_word_under(out, b"log", log.word().as_bytes())?;
    push_number_under(out, b"record", u64::from(place))
}

/// Appends a record: its line, its log and its number.
#[tactic(auto, unfolding(crate::specs::JsonText::record_at))]
pub(crate) fn push_record(
    out: &mut Vec<u8>,
    line: u64,
    log: LogName,
    place: u32,
) -> Result<(), AllocError>
    ensures { OnOk result (out.new.items ≡ out.old.items ++ record_at line log place) }
{
    push_number_under(out, b"line", line)?;
    push_record_in(out, log, place)
}

/// Appends a page, if there is one.
#[tactic(auto, unfolding(crate::specs::JsonText::page_of))]
pub(crate) fn push_page(out: &mut Vec<u8>, page: Option<PageNo>) -> Result<(), AllocError>
    ensures { OnOk result (out.new.items ≡ out.old.items ++ page_of page) }
{
    match page {
        Some(page) => push_number_under(out, b"page", u64::from(page.number())),
        None => Ok(()),
    }
}
