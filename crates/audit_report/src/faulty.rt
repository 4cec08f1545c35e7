//! The text of a report that lists each page with a fault.

ghost use Rattle.std.specs.Prelude.{◌≡◌, [], ◌∷◌, ◌++◌, IfOk, OnOk};
ghost use Rattle.text_lines.specs.Text.{ended};
ghost use Rattle.audit_report.specs.FaultyPagesText.{all_faults_text, faulty_page_line, faulty_pages_lines, pages_after, some_faulty_pages_lines};

use crate::Report;
use crate::printing::print_first_line;
use page_facts::FaultyPage;
use std::alloc::{AllocError, Global};
use text_lines::{push_keyed, push_keyed_word, push_number};

const FAULTY_PAGES: &[u8] = b"faulty-pages ";

/// Appends the line of a page with a fault.
fn push_faulty_page(out: &mut Vec<u8>, faulty: &FaultyPage) -> Result<(), AllocError>
    ensures { OnOk result (out.new.items ≡ out.old.items ++ (faulty_page_line faulty.now ++ 10 ∷ [])) }
{
    out.extend_from_slice(b"page ")?;
    push_number(out, faulty.fault.page.number())?;
    push_keyed_word(out, b" line ", faulty.line, faulty.fault.reason.word())
}

/// Appends the lines of the pages with a fault: how many there are, and one line for each. Fails only if memory runs
/// out.
pub fn push_faulty_pages(out: &mut Vec<u8>, pages: &[FaultyPage]) -> Result<(), AllocError>
    ensures { OnOk result (out.new.items ≡ out.old.items ++ ended (faulty_pages_lines pages.now)) }
{
    push_keyed(out, FAULTY_PAGES, pages.len())?;
    for faulty in pages {
        push_faulty_page(out, faulty)?;
    }
    Ok(())
}

/// Appends the lines of the pages with a fault, or nothing if there is no such page.
fn push_some_faulty_pages(out: &mut Vec<u8>, pages: &[FaultyPage]) -> Result<(), AllocError>
    ensures { OnOk result (out.new.items ≡ out.old.items ++ ended (some_faulty_pages_lines pages.now)) }
{
    match pages {
        [] => Ok(()),
        _ => push_faulty_pages(out, pages),
    }
}

/// Appends what follows the first line of a report that lists each page with a fault.
fn push_pages_after(
    out: &mut Vec<u8>,
    report: &Report,
    pages: &[FaultyPage],
) -> Result<(), AllocError>
    ensures { OnOk result (out.new.items ≡ out.old.items ++ ended (pages_after report.now pages.now)) }
{
    match report {
        Report::Clean(_) | Report::Faulty { .. } => push_faulty_pages(out, pages),
        Report::Shape(_) => push_some_faulty_pages(out, pages),
        Report::Knot { .. } => Ok(()),
    }
}

/// Returns the text of a report that lists each page with a fault: the report's first line, and then the lines of these
/// pages if the report is clean or faulty, or if it is of the shape and there are any. No page is listed for a session
/// that has no merging. Each line ends with LF. Fails only if memory runs out.
pub fn print_all_faults(
    alloc: Global,
    report: &Report,
    pages: &[FaultyPage],
) -> Result<Vec<u8>, AllocError>
    ensures { IfOk result (λ out. out.items ≡ all_faults_text report.now pages.now) }
{
    let mut out = print_first_line(alloc, report)?;
    push_pages_after(&mut out, report, pages)?;
    Ok(out)
}
