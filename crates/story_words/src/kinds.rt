//! The sentences about the faults of a page by kind.

ghost use Rattle.std.specs.Prelude.{◌≡◌, ◌++◌, OnOk};
ghost use Rattle.std.specs.List.{flat_map};
ghost use Rattle.audit_model.specs.Reasons.{page_reasons};
ghost use Rattle.story_words.specs.Sentences.{kind_of, kind_told, kinds_told};

use crate::Sentence;
use crate::listing::push_if;
use audit_model::PageReason;
use migration_types::PageNo;
use session_story::{Kinds, Tally};
use std::alloc::AllocError;

/// Returns the faults of a page for a reason, if there are some.
fn kind_of(reason: PageReason, tally: Tally) -> Option<Sentence>
    ensures { result ≡ kind_of reason tally }
{
    match tally.first {
        Some(first) => Some(Sentence::FaultsFor {
            reason,
            count: tally.count,
            first,
        }),
        None => None,
    }
}

/// Appends the faults of a page for each reason.
fn push_each(out: &mut Vec<Sentence>, kinds: &Kinds) -> Result<(), AllocError>
    ensures { OnOk result (out.new.items ≡ out.old.items ++ flat_map (kind_told kinds.now) page_reasons) }
{
    for reason in PageReason::all() {
        push_if(out, kind_of(reason, kinds.of(reason)))?;
    }
    Ok(())
}

/// Appends all faults of a page by kind, if there are several.
#[tactic(auto, unfolding(crate::specs::Sentences::kinds_told))]
pub(crate) fn push_kinds(
    out: &mut Vec<Sentence>,
    page: PageNo,
    kinds: &Kinds,
) -> Result<(), AllocError>
    ensures { OnOk result (out.new.items ≡ out.old.items ++ kinds_told page kinds.now) }
{
    let count = kinds.in_all();
    if 1 < count {
        out.extend_from_slice(&[Sentence::Faults { page, count }])?;
        push_each(out, kinds)
    } else {
        Ok(())
    }
}
