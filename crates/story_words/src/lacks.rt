//! The sentences about what a session lacks that does not tell of a whole migration.

ghost use Rattle.std.specs.Prelude.{◌≡◌, ◌<◌, ◌++◌, IfOk, OnOk, length};
ghost use Rattle.page_facts.specs.Tables.{first_before};
ghost use Rattle.completeness.specs.Complete.{IsFirstMissing, is_all, is_back};
ghost use Rattle.story_words.specs.Lacks.{came_to, halted_of, lack_told, missing_told, said_of, started_of};
ghost use Rattle.session_story.specs.Scans.{last_before};

use crate::Sentence;
use crate::listing::push_if;
use crate::questions::{SaysAll, StartsAgain};
use completeness::Lack;
use migration_types::{PageNo, Session};
use session_story::{Name, first_of, furthest, handover_of, last_of, story_of};
use std::alloc::{AllocError, Global};

/// Returns how far a page came.
fn came_to(alloc: Global, session: &Session, page: PageNo) -> Result<Option<Name>, AllocError>
    requires { page < session.now.geometry.pages }
    ensures { IfOk result (λ name. name ≡ came_to session.now page) }
{
    let story = story_of(alloc, session, page)?;
    Ok(furthest(story.got, story.delivered, story.by_lane, story.sent))
}

/// Returns where the guest was halted, if it was.
fn halted_of(halt: Option<u32>) -> Option<Sentence>
    ensures { result ≡ halted_of halt }
{
    match halt {
        Some(halt) => Some(Sentence::HaltedAt(halt)),
        None => None,
    }
}

/// Returns where the source started the guest again, if it did.
fn started_of(back: Option<u32>) -> Option<Sentence>
    ensures { result ≡ started_of back }
{
    match back {
        Some(back) => Some(Sentence::StartedAgainAt(back)),
        None => None,
    }
}

/// Returns the first record by which the source started the guest again, if it did.
fn first_back(session: &Session) -> Option<u32>
    ensures { result ≡ first_before (λ m. is_back) session.now.source (length session.now.source) }
{
    session.keeps_limits();
    first_of(session, &StartsAgain, session.source())
}

/// Returns the last record by which the pager said that every owed page had come, if it did.
fn last_all(session: &Session) -> Option<u32>
    ensures { result ≡ last_before (λ m. is_all) session.now.pager (length session.now.pager) }
{
    session.keeps_limits();
    let pager = session.pager();
    last_of(session, &SaysAll, pager, pager.len())
}

/// Returns where the pager said that every owed page had come, if it did.
fn said_of(said: Option<u32>) -> Option<Sentence>
    ensures { result ≡ said_of said }
{
    match said {
        Some(said) => Some(Sentence::SaidAt(said)),
        None => None,
    }
}

/// Appends what a session lacks.
#[tactic(auto, unfolding(crate::specs::Lacks::lack_told))]
fn push_lack(
    alloc: Global,
    out: &mut Vec<Sentence>,
    session: &Session,
    missing: &Lack,
) -> Result<(), AllocError>
    requires { IsFirstMissing session.now missing.now }
    ensures { OnOk result (out.new.items ≡ out.old.items ++ lack_told session.now missing.now) }
{
    match missing {
        Lack::Halt => out.extend_from_slice(&[Sentence::NeverHalted]),
        Lack::Returned => {
            out.extend_from_slice(&[Sentence::Returned])?;
            push_if(out, started_of(first_back(session)))
        }
        Lack::Resume => {
            out.extend_from_slice(&[Sentence::NeverResumed])?;
            push_if(out, halted_of(handover_of(session).halt))
        }
        Lack::Page(page) => {
            let name = came_to(alloc, session, *page)?;
            out.extend_from_slice(&[Sentence::Owed(*page), Sentence::CameTo(name)])
        }
        Lack::All => out.extend_from_slice(&[Sentence::NeverSaid]),
        Lack::Done => {
            out.extend_from_slice(&[Sentence::NeverLearned])?;
            push_if(out, said_of(last_all(session)))
        }
        Lack::Taken(n) => out.extend_from_slice(&[Sentence::Untaken(*n)]),
    }
}

/// Returns the sentences about what a session lacks, in order. Fails only if memory runs out.
#[tactic(auto, unfolding(crate::specs::Lacks::missing_told))]
pub fn missing_told(
    alloc: Global,
    session: &Session,
    missing: &Lack,
) -> Result<Vec<Sentence>, AllocError>
    requires { IsFirstMissing session.now missing.now }
    ensures { IfOk result (λ sentences. sentences.items ≡ missing_told session.now missing.now) }
{
    let mut out = Vec::new(alloc);
    out.extend_from_slice(&[Sentence::NotWhole])?;
    push_lack(alloc, &mut out, session, missing)?;
    Ok(out)
}
