//! Words about an entry that is not right, and about the right one.

ghost use Rattle.std.specs.Prelude.{◌<◌};
ghost use Rattle.page_facts.specs.Findings.{IsFindings};

use cert_check::page_at;
use cert_maker::made_entry;
use cert_text::push_entry_line;
use migration_types::{Entry, First, LogName, PageNo, Session};
use page_facts::{Findings, fault_of, findings_for};
use refusal_words::push_quote;
use std::alloc::AllocError;
use story_words::{push_place, push_record};

/// Appends the line of a page's entry between quotation marks, as it is in a certificate.
fn push_line(out: &mut String, page: u32, entry: Entry) -> Result<(), AllocError> {
    let mut line = Vec::new(*out.allocator());
    push_entry_line(&mut line, page, entry)?;
    push_quote(out, line.as_slice())
}

/// Appends a page's first use at the target, and the look before it.
fn push_first(out: &mut String, session: &Session, first: Option<First>) -> Result<(), AllocError> {
    let Some(first) = first else {
        return out.push_str("; it is not used at the target");
    };
    out.push_str("; its first use at the target is ")?;
    push_place(out, session, LogName::Guest, first.access)?;
    out.push_str(", and the first look that reaches its placement is ")?;
    push_place(out, session, LogName::Guest, first.see)
}

/// Appends what an entry says about its page.
fn push_said(out: &mut String, session: &Session, entry: Entry) -> Result<(), AllocError> {
    match entry {
        Entry::Nothing => out.push_str("is not placed, and is not used at the target"),
        Entry::Fresh { first } => {
            out.push_str("is not placed, and its first use at the target is a release, ")?;
            push_place(out, session, LogName::Guest, first)
        }
        Entry::Source { send, place, first } => {
            out.push_str("is placed by ")?;
            push_place(out, session, LogName::Pager, place)?;
            out.push_str(", with what ")?;
            push_place(out, session, LogName::Source, send)?;
            out.push_str(" sent")?;
            push_first(out, session, first)
        }
        Entry::Balloon { place, first } => {
            out.push_str("is placed as zeros by ")?;
            push_place(out, session, LogName::Pager, place)?;
            push_first(out, session, first)
        }
    }
}

/// Appends the right entry, and what it says.
fn push_right(
    out: &mut String,
    session: &Session,
    page: u32,
    entry: Entry,
) -> Result<(), AllocError> {
    out.push_str("expected ")?;
    push_line(out, page, entry)?;
    write!(out, ": in the session page {page} ")?;
    push_said(out, session, entry)
}

/// Appends that no entry can be right for a page with these findings, and which fault the page has.
fn push_none(
    out: &mut String,
    session: &Session,
    findings: &Findings,
    page: PageNo,
) -> Result<(), AllocError>
    requires { IsFindings session.now page findings.now }
{
    out.push_str("no entry can be right, as the page has a fault")?;
    if let Some(fault) = fault_of(session, findings, page) {
        out.push_str(", ")?;
        push_quote(out, fault.reason.word())?;
        out.push_str(" at the session's ")?;
        push_record(out, session, fault.log, fault.place)?;
    }
    out.push_str("; \"postcopy explain\" tells of the session's first fault")
}

/// Appends the entry that is expected for a page.
fn push_wanted(out: &mut String, session: &Session, page: PageNo) -> Result<(), AllocError>
    requires { page < session.now.geometry.pages }
{
    let findings = findings_for(*out.allocator(), session, page)?;
    match made_entry(session, &findings, page) {
        Some(entry) => push_right(out, session, page.number(), entry),
        None => push_none(out, session, &findings, page),
    }
}

/// Appends what the entry at this line of the certificate says, and which one is expected.
pub(crate) fn push_entry(
    out: &mut String,
    session: &Session,
    entries: &[Entry],
    line: u32,
) -> Result<(), AllocError> {
    let Some(page) = page_at(line) else {
        return Ok(());
    };
    if let Some(entry) = entries.get(page as usize) {
        out.push_str("found ")?;
        push_line(out, page, *entry)?;
        out.push_str("; ")?;
    }
    session.keeps_limits();
    if page < session.geometry().pages() {
        push_wanted(out, session, PageNo::new(page))?;
    }
    Ok(())
}
