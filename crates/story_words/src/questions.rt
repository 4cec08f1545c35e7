//! The questions about the records that a session may lack.

ghost use Rattle.completeness.specs.Complete.{is_all, is_back};

use migration_types::{PagerRec, Session, SourceRec};
use session_story::RecordQuestion;

/// Whether a record of the source starts the guest again.
#[derive(Clone, Copy)]
pub(crate) struct StartsAgain;

/// Whether a record of the pager says that every owed page is placed.
#[derive(Clone, Copy)]
pub(crate) struct SaysAll;

impl RecordQuestion for StartsAgain {
    type Record = SourceRec;

    ghost holds = { λ _ _ _. is_back };

    fn holds(&self, _session: &Session, _n: usize, rec: &SourceRec) -> bool {
        matches!(rec, SourceRec::Back)
    }
}

impl RecordQuestion for SaysAll {
    type Record = PagerRec;

    ghost holds = { λ _ _ _. is_all };

    fn holds(&self, _session: &Session, _n: usize, rec: &PagerRec) -> bool {
        matches!(rec, PagerRec::All)
    }
}
