//! The faults of a page by kind.

ghost use Rattle.std.specs.Prelude.{◌≡◌, ◌++◌, IfOk, OnOk};
ghost use Rattle.session_story.specs.Kinds.{log_of};
ghost use Rattle.session_answers.specs.KindsText.{counted_by, faults_told, kinds_of, shown_at, told_kind};

use crate::causes::line_shown;
use crate::fields::{push_number_under, push_record};
use crate::lists::{Item, push_list_under};
use audit_model::PageReason;
use audit_report::Lines;
use migration_types::Session;
use session_story::{FullPageStory, Kinds, Tally, log_of};
use std::alloc::{AllocError, Global};

/// The faults of a page for a reason.
#[derive(Clone, Copy)]
pub(crate) struct ToldKind {
    pub reason: PageReason,
    pub count: u32,
    /// The number of the first of them.
    pub first: u32,
    /// The line number that is printed for it.
    pub line: u64,
}

impl Item for ToldKind {
    ghost written = { told_kind };

    #[tactic(auto, unfolding(crate::specs::KindsText::told_kind))]
    fn push(&self, out: &mut Vec<u8>) -> Result<(), AllocError> {
        out.extend_from_slice(b"{\"reason\":\"")?;
        out.extend_from_slice(self.reason.word())?;
        out.extend_from_slice(b"\"")?;
        push_number_under(out, b"count", u64::from(self.count))?;
        push_record(out, self.line, log_of(self.reason), self.first)?;
        out.extend_from_slice(b"}")
    }
}

/// Adds the faults for a reason, if the first of them has a line.
fn take_at(
    kinds: &mut Vec<ToldKind>,
    reason: PageReason,
    count: u32,
    first: u32,
    line: Option<u64>,
) -> Result<(), AllocError>
    ensures { OnOk result (kinds.new.items ≡ kinds.old.items ++ shown_at reason count first line) }
{
    match line {
        Some(line) => kinds.extend_from_slice(&[ToldKind {
            reason,
            count,
            first,
            line,
        }]),
        None => Ok(()),
    }
}

/// Adds the faults for a reason, if there are some.
fn take<L: Lines>(
    kinds: &mut Vec<ToldKind>,
    lines: &L,
    session: &Session,
    reason: PageReason,
    tally: Tally,
) -> Result<(), AllocError>
    ensures { OnOk result (kinds.new.items ≡ kinds.old.items ++ counted_by (L.tell lines.now) session.now reason tally.count tally.first) }
{
    match tally.first {
        Some(first) => {
            let line = line_shown(lines, session, (log_of(reason), first));
            take_at(kinds, reason, tally.count, first, line)
        }
        None => Ok(()),
    }
}

/// Returns the faults of a page for each reason. Fails only if memory runs out.
fn kinds_of<L: Lines>(
    alloc: Global,
    lines: &L,
    session: &Session,
    kinds: &Kinds,
) -> Result<Vec<ToldKind>, AllocError>
    ensures { IfOk result (λ told. told.items ≡ kinds_of (L.tell lines.now) session.now kinds.now) }
{
    let mut told = Vec::new(alloc);
    for reason in PageReason::all() {
        take(&mut told, lines, session, reason, kinds.of(reason))?;
    }
    Ok(told)
}

/// Appends all faults by kind of the page that a story is about, if it is about one.
#[tactic(auto, unfolding(crate::specs::KindsText::faults_told))]
pub(crate) fn push_faults<L: Lines>(
    alloc: Global,
    out: &mut Vec<u8>,
    lines: &L,
    session: &Session,
    page: &Option<FullPageStory>,
) -> Result<(), AllocError>
    ensures { OnOk result (out.new.items ≡ out.old.items ++ faults_told (L.tell lines.now) session.now page.now) }
{
    match page {
        Some(told) => {
            let kinds = kinds_of(alloc, lines, session, &told.kinds)?;
            push_list_under(out, b"faults", &kinds)
        }
        None => Ok(()),
    }
}
