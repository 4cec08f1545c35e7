//! Lists, with commas between their items.

ghost use Rattle.std.specs.Prelude.{◌≡◌, ◌++◌, ℕ, List, codes, OnOk};
ghost use Rattle.session_answers.specs.JsonText.{after_commas, faulty_page, listed, run, runs, with_commas};

use crate::fields::{open, push_number_under, push_word_under};
use migration_types::Run;
use page_facts::FaultyPage;
use std::alloc::AllocError;
use text_lines::push_number;

/// An item of a list.
pub(crate) trait Item {
    /// The item as it is written.
    ghost written: { Self → List ℕ };

    /// Appends the item.
    fn push(&self, out: &mut Vec<u8>) -> Result<(), AllocError>
        ensures { OnOk result (out.new.items ≡ out.old.items ++ written self.now) };
}

impl Item for Run {
    ghost written = { run };

    fn push(&self, out: &mut Vec<u8>) -> Result<(), AllocError> {
        out.extend_from_slice(b"[\"")?;
        out.extend_from_slice(self.log.word().as_bytes())?;
        out.extend_from_slice(b"\",")?;
        push_number(out, self.count)?;
        out.extend_from_slice(b"]")
    }
}

impl Item for FaultyPage {
    ghost written = { faulty_page };

    #[tactic(auto, unfolding(crate::specs::JsonText::faulty_page))]
    fn push(&self, out: &mut Vec<u8>) -> Result<(), AllocError> {
        open(out, b"page", u64::from(self.fault.page.number()))?;
        push_number_under(out, b"line", u64::from(self.line))?;
        push_word_under(out, b"reason", self.fault.reason.word())?;
        out.extend_from_slice(b"}")
    }
}

/// Appends an item after a comma.
fn push_next<I: Item>(out: &mut Vec<u8>, item: &I) -> Result<(), AllocError>
    ensures { OnOk result (out.new.items ≡ out.old.items ++ (codes "," ++ I.written item.now)) }
{
    out.extend_from_slice(b",")?;
    item.push(out)
}

/// Appends more items, each after a comma.
fn push_more<I: Item>(out: &mut Vec<u8>, more: &[I]) -> Result<(), AllocError>
    ensures { OnOk result (out.new.items ≡ out.old.items ++ after_commas I.written more.now) }
{
    for item in more {
        push_next(out, item)?;
    }
    Ok(())
}

/// Appends items, with commas between them.
fn push_all<I: Item>(out: &mut Vec<u8>, items: &[I]) -> Result<(), AllocError>
    ensures { OnOk result (out.new.items ≡ out.old.items ++ with_commas I.written items.now) }
{
    match items.split_first() {
        Some((first, more)) => {
            first.push(out)?;
            push_more(out, more)
        }
        None => Ok(()),
    }
}

/// Appends a list under a name.
#[tactic(auto, unfolding(crate::specs::JsonText::listed))]
pub(crate) fn push_list_under<I: Item>(
    out: &mut Vec<u8>,
    name: &[u8],
    items: &[I],
) -> Result<(), AllocError>
    ensures { OnOk result (out.new.items ≡ out.old.items ++ listed name.now I.written items.now) }
{
    out.extend_from_slice(b",\"")?;
    out.extend_from_slice(name)?;
    out.extend_from_slice(b"\":[")?;
    push_all(out, items)?;
    out.extend_from_slice(b"]")
}

/// Appends the runs of an order.
pub(crate) fn push_runs(out: &mut Vec<u8>, order: &[Run]) -> Result<(), AllocError>
    ensures { OnOk result (out.new.items ≡ out.old.items ++ runs order.now) }
{
    push_list_under(out, b"runs", order)
}
