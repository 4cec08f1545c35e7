//! The entries of a certificate, made from the facts of the pages.

ghost use Rattle.std.specs.Prelude.{⊤, ◌≡◌, MatchOption};
ghost use Rattle.std.specs.List.{list_any};
ghost use Rattle.audit_model.specs.Certificates.{is_fresh};
ghost use Rattle.page_facts.specs.Facts.{IsFacts};
ghost use Rattle.page_facts.specs.Findings.{IsFindings};
ghost use Rattle.cert_maker.specs.Made.{HasNoEntry, IsMadeEntry, AreMadeFrom, HasBarePage};
ghost use Rattle.cert_maker.specs.inner.Entries.{first_of, entry_at, unplaced_entry, entry_of, version_for};

use migration_types::{Entry, First, PageNo, PagerRec, Seq, Session, Version};
use page_facts::{Findings, PageFacts, Question, facts_of, is_right_entry};
use std::alloc::{AllocError, Global};

/// Returns a page's first touch with its first look, if there is a look.
fn first_of(touch: Option<u32>, look: Option<u32>) -> Option<Option<First>>
    ensures { result ≡ first_of touch look }
{
    let Some(touch) = touch else {
        return Some(None);
    };
    let see = look?;
    Some(Some(First { access: touch, see }))
}

/// Returns the entry of a page with this placement, given the `send` whose contents that has.
fn entry_at(session: &Session, sent: Option<u32>, place: u32, first: Option<First>) -> Option<Entry>
    ensures { result ≡ entry_at session.now sent place first }
{
    if let Some(send) = sent {
        return Some(Entry::Source { send, place, first });
    }
    match session.pager().get(place as usize)? {
        PagerRec::Zero { .. } => Some(Entry::Balloon { place, first }),
        _ => None,
    }
}

/// Returns the entry of a page that is not placed.
fn unplaced_entry(facts: &PageFacts) -> Entry
    ensures { result ≡ unplaced_entry facts.now.touch facts.now.releases }
{
    match facts.touch {
        Some(first) if facts.releases => Entry::Fresh { first },
        _ => Entry::Nothing,
    }
}

/// Returns the one entry that can be right for a page with these facts.
fn entry_of(session: &Session, facts: &PageFacts) -> Option<Entry>
    ensures { result ≡ entry_of session.now facts.now }
{
    let Some(place) = facts.placement else {
        return Some(unplaced_entry(facts));
    };
    let first = first_of(facts.touch, facts.look)?;
    entry_at(session, facts.sent, place, first)
}

/// Returns the right entry of a page with these facts, if there is one.
fn entry_by_facts(session: &Session, page: PageNo, facts: &PageFacts) -> Option<Entry>
    requires { IsFacts session.now page facts.now }
    ensures { MatchOption result (HasNoEntry session.now page) (IsMadeEntry session.now page) }
{
    let Some(entry) = entry_of(session, facts) else {
        return None;
    };
    let is_right = is_right_entry(session, page, facts, &entry);
    if is_right { Some(entry) } else { None }
}

/// Returns the right entry of a page with these findings, with the earliest look that covers its placement, or `None`
/// if no entry of the page is right. Allocates no memory.
pub fn made_entry(session: &Session, findings: &Findings, page: PageNo) -> Option<Entry>
    requires { IsFindings session.now page findings.now }
    ensures { MatchOption result (HasNoEntry session.now page) (IsMadeEntry session.now page) }
{
    let facts = facts_of(session, findings, page);
    entry_by_facts(session, page, &facts)
}

/// The question for the right entries of the pages, each with the earliest look that covers its placement. The answer
/// is `None` if a page has no right entry.
#[derive(Clone, Copy)]
pub struct MadeEntries;

impl Question for MadeEntries {
    type Answer = Option<Vec<Entry>>;

    ghost IsFor = { λ q s. ⊤ };

    ghost IsAnswer = { λ q s first count made. MatchOption made (HasBarePage s) (λ entries. AreMadeFrom s first count entries.items) };

    fn blank(&self, alloc: Global, room: usize) -> Result<Option<Vec<Entry>>, AllocError> {
        Ok(Some(Vec::with_capacity(alloc, room)?))
    }

    fn take(
        &self,
        made: &mut Option<Vec<Entry>>,
        session: &Session,
        page: PageNo,
        findings: &Findings,
    ) -> Result<(), AllocError> {
        let Some(entries) = made else {
            return Ok(());
        };
        match made_entry(session, findings, page) {
            Some(entry) => entries.push(entry)?,
            None => *made = None,
        }
        Ok(())
    }

    fn add(
        &self,
        made: &mut Option<Vec<Entry>>,
        next: Option<Vec<Entry>>,
    ) -> Result<(), AllocError> {
        let Some(mut more) = next else {
            *made = None;
            return Ok(());
        };
        let Some(entries) = made else {
            return Ok(());
        };
        entries.append(&mut more)?;
        Ok(())
    }
}

/// Returns whether it is the entry of a fresh page.
fn is_fresh(entry: &Entry) -> bool
    ensures { result ≡ is_fresh entry.now }
{
    matches!(entry, Entry::Fresh { .. })
}

/// Returns whether one of the pages is fresh.
fn has_fresh(entries: &[Entry]) -> bool
    ensures { result ≡ list_any is_fresh entries.now }
{
    entries.iter().any(is_fresh)
}

/// Returns the version of a certificate with these entries: the session's, or the second if a page is fresh.
pub(crate) fn version_for(session: &Session, entries: &Seq<Entry>) -> Version
    ensures { result ≡ version_for session.now.version entries.now }
{
    if has_fresh(entries.as_slice()) {
        return Version::Two;
    }
    session.version()
}
