//! The facts of a page, by which its entry is judged.

ghost use Rattle.page_facts.specs.Facts.{IsFacts};
ghost use Rattle.page_facts.specs.Findings.{IsFindings};

use crate::findings::Findings;
use migration_types::{PageNo, Session};

/// What the logs say about a page.
#[derive(Clone, Copy, Debug, PartialEq, Eq)]
pub struct PageFacts {
    /// Whether a read of it gave another value than one machine that never moved would.
    pub wrong_read: bool,
    /// Whether it was sent with other contents than it had at the halt, or while it was released there.
    pub wrong_send: bool,
    /// The pager's first placement of it.
    pub placement: Option<u32>,
    /// The `send` of it whose contents that first placement has.
    pub sent: Option<u32>,
    /// Whether it was placed again.
    pub again: bool,
    /// Whether it was placed with other contents than it had at the halt, or as zeros although it was not released
    /// there.
    pub altered: bool,
    /// The guest's first read, write or release of it after handover.
    pub touch: Option<u32>,
    /// Whether that first touch is a release.
    pub releases: bool,
    /// The guest's first look at a placement of it, or at a later record of the pager.
    pub look: Option<u32>,
}

/// Returns the facts of a page with these findings.
pub fn facts_of(_session: &Session, findings: &Findings, _page: PageNo) -> PageFacts
    requires { IsFindings _session.now _page findings.now }
    ensures { IsFacts _session.now _page result }
{
    PageFacts {
        wrong_read: findings.wrong_read.is_some(),
        wrong_send: findings.wrong_send.is_some(),
        placement: findings.placement,
        sent: findings.sent,
        again: findings.again.is_some(),
        altered: findings.altered.is_some(),
        touch: findings.touch,
        releases: findings.releases,
        look: findings.look,
    }
}
